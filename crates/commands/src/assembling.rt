//! The object of a listing.

ghost use Rattle.std.specs.Prelude.{◌≡◌};
ghost use Rattle.commands.specs.Assembled.{PrintsAssembled};
ghost use Rattle.commands.specs.Refusals.{unassembled_as};

use crate::serving::refuse;
use assembler::{AsmCause, AsmRefusal, assemble_listing};
use object_view::write;
use outcomes::{Outcome, Refusal};
use std::alloc::Allocator;
use std::io::{self, Write};

/// The refusal that is reported of a text that is no listing of an object.
fn asm_refusal(refusal: AsmRefusal) -> Refusal
    ensures { result ≡ unassembled_as refusal }
{
    match refusal.cause {
        AsmCause::Memory => Refusal::Memory,
        _ => Refusal::Asm(refusal),
    }
}

/// Prints the object of the listing that the text is, or what is wrong with it first. Gives the outcome.
pub fn print_assembled<A: Allocator + Clone, W: Write>(
    alloc: A,
    text: &[u8],
    writer: &mut W,
) -> io::Result<Outcome>
    ensures { PrintsAssembled result (W.contents writer.old) (W.contents writer.new) text.now }
{
    match assemble_listing(alloc, text) {
        Ok(assembled) => match write(&assembled.code, assembled.version, writer) {
            Ok(()) => Ok(Outcome::Done),
            Err(fault) => Err(fault),
        },
        Err(refusal) => refuse(writer, &asm_refusal(refusal)),
    }
}
