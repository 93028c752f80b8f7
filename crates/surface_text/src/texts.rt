//! Whole texts: a program with derived forms, and inputs for it.

ghost use Rattle.std.specs.Prelude.{◌≡◌, MatchResult};
ghost use Rattle.source.specs.Tokens.{position};
ghost use Rattle.surface_text.specs.Reading.{HasProgram, HasFault, IsRead, IsReported};

use crate::reading::{OUT_OF_MEMORY, Unread, parse};
use crate::refusal::ProgramRefusal;
use source_tokens::{position, split};
use std::alloc::Allocator;
use surface::fault::ProgramFault;
use surface::program::Program;
use surface_tokens::lex;

/// A text that was read.
#[derive(Drop)]
pub struct SurfaceText<'a, A: Allocator> {
    /// The text of the program.
    pub text: &'a [u8],
    pub program: Program<'a, A>,
    /// What follows the line `inputs`.
    pub inputs: &'a [u8],
}

/// A fault of the program's text, with its line and its column.
fn reported(text: &[u8], unread: Unread) -> ProgramRefusal
    ensures { result.fault ≡ record {
      kind = unread.fault.kind;
      line = (position text.now unread.fault.at).line;
      column =
          (position text.now unread.fault.at).column;
    } }
{
    let Unread { fault, stop } = unread;
    let place = position(text, fault.at);
    ProgramRefusal {
        fault: ProgramFault {
            kind: fault.kind,
            line: place.line,
            column: place.column,
        },
        at: fault.at,
        stop,
    }
}

/// The program that a text without inputs has, or its first fault.
fn read<'a, A: Allocator + Clone>(alloc: A, text: &'a [u8]) -> Result<Program<'a, A>, Unread>
    ensures { MatchResult result (λ p. HasProgram text.now p.names p.words) (λ u. HasFault text.now u.fault) }
{
    let Ok(own) = alloc.clone() else {
        return Err(OUT_OF_MEMORY);
    };
    let tokens = match lex(own, text) {
        Ok(tokens) => tokens,
        Err(fault) => {
            return Err(Unread { fault, stop: None });
        }
    };
    let parsed = parse(alloc, text, &tokens)?;
    Ok(Program {
        names: parsed.names,
        words: parsed.words,
    })
}

/// The program and the inputs that a text holds, or the program's first fault with its line and its column.
pub fn read_program<'a, A: Allocator + Clone>(
    alloc: A,
    text: &'a [u8],
) -> Result<SurfaceText<'a, A>, ProgramRefusal>
    ensures { MatchResult result (λ s. IsRead text.now s.text.now s.program.names s.program.words s.inputs.now) (λ refusal. IsReported text.now refusal.fault) }
{
    let parted = split(text);
    match read(alloc, parted.program) {
        Ok(program) => Ok(SurfaceText {
            text: parted.program,
            program,
            inputs: parted.inputs,
        }),
        Err(unread) => Err(reported(parted.program, unread)),
    }
}
