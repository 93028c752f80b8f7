//! The graph of a program, and the map of its nodes.

ghost use Rattle.lowered_text.specs.Texts.{graph_and_inputs, map_of};
ghost use Rattle.commands.specs.Lowered.{PrintsLowered};

use crate::refusal::lower_refusal;
use crate::serving::refuse;
use lowered_text::fault::LowerRefusal;
use lowered_text::{write_lowered, write_map};
use outcomes::Outcome;
use std::alloc::Allocator;
use std::io::{self, Write};

/// Prints the graph that the text's program is lowered to and the inputs that follow the program, or what is wrong with it first. Gives the
/// outcome.
pub fn print_lowered<A: Allocator + Clone, W: Write>(
    alloc: A,
    text: &[u8],
    writer: &mut W,
) -> io::Result<Outcome>
    ensures { PrintsLowered graph_and_inputs result (W.contents writer.old) (W.contents writer.new) text.now }
{
    match write_lowered(&alloc, text, writer) {
        Ok(()) => Ok(Outcome::Done),
        Err(LowerRefusal::Fault(fault)) => refuse(writer, &lower_refusal(fault)),
        Err(LowerRefusal::Write(fault)) => Err(fault),
    }
}

/// Prints for which place of the program each node of its graph is made, or what is wrong with the program first. Gives the outcome.
pub fn print_map<A: Allocator + Clone, W: Write>(
    alloc: A,
    text: &[u8],
    writer: &mut W,
) -> io::Result<Outcome>
    ensures { PrintsLowered map_of result (W.contents writer.old) (W.contents writer.new) text.now }
{
    match write_map(&alloc, text, writer) {
        Ok(()) => Ok(Outcome::Done),
        Err(LowerRefusal::Fault(fault)) => refuse(writer, &lower_refusal(fault)),
        Err(LowerRefusal::Write(fault)) => Err(fault),
    }
}
