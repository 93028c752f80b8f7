//! Programs lowered to graphs, from a text to a text: the graph with the program's inputs, and the map that says of each node of the
//! graph what in the program it is made for.
#![tactic(auto)]

pub mod fault;
mod map;
pub mod programs;

ghost use Rattle.std.specs.Prelude.{◌≡◌, ◌++◌, ℕ, List};
ghost use Rattle.semantics.specs.Text.{text_of};
ghost use Rattle.sink.specs.Sends.{Sends};
ghost use Rattle.lowered_text.specs.Parts.{IsGood};
ghost use Rattle.lowered_text.specs.Texts.{Writes, graph_and_inputs, map_of};

use fault::LowerRefusal;
use graph::Graph;
use lowering::Named;
use map::send_map;
use programs::{Parts, make, read_good};
use sink::send;
use std::alloc::Allocator;
use std::io::{self, Write};

/// The text of the graph, and the inputs.
fn send_graph<A: Allocator, W: Write>(
    writer: &mut W,
    graph: &Graph<'_, A>,
    inputs: &[u8],
) -> io::Result<()>
    ensures { Sends result (W.contents writer.old) (W.contents writer.new) (text_of graph.now ++ inputs.now) }
{
    graph_file::write(graph, writer)?;
    send(writer, inputs)
}

/// Writes the graph of a program and its inputs.
fn write_graph<A: Allocator + Clone, W: Write>(
    alloc: &A,
    named: Named<'_, A>,
    parts: Parts<'_>,
    writer: &mut W,
) -> Result<(), LowerRefusal>
    ensures { (text : List ℕ) → IsGood text parts.entry.program.now named.entry.checked.program parts.entry.inputs.now
        → Writes graph_and_inputs result (W.contents writer.old) (W.contents writer.new) text }
{
    let made = match make(alloc, parts.program, &named) {
        Ok(made) => made,
        Err(fault) => return Err(LowerRefusal::Fault(fault)),
    };
    match send_graph(writer, &made.graph, parts.inputs) {
        Ok(()) => Ok(()),
        Err(fault) => Err(LowerRefusal::Write(fault)),
    }
}

/// Writes the map of a program's graph.
fn write_places<A: Allocator + Clone, W: Write>(
    alloc: &A,
    named: Named<'_, A>,
    program: &[u8],
    writer: &mut W,
) -> Result<(), LowerRefusal>
    ensures { (text inputs : List ℕ) → IsGood text program.now named.entry.checked.program inputs
        → Writes map_of result (W.contents writer.old) (W.contents writer.new) text }
{
    let made = match make(alloc, program, &named) {
        Ok(made) => made,
        Err(fault) => return Err(LowerRefusal::Fault(fault)),
    };
    match send_map(writer, program, &made.places) {
        Ok(()) => Ok(()),
        Err(fault) => Err(LowerRefusal::Write(fault)),
    }
}

/// Writes the text of the graph that the text's program is lowered to, and then what follows the line `inputs`. Nothing is written
/// where there is no such graph.
pub fn write_lowered<A: Allocator + Clone, W: Write>(
    alloc: &A,
    text: &[u8],
    writer: &mut W,
) -> Result<(), LowerRefusal>
    ensures { Writes graph_and_inputs result (W.contents writer.old) (W.contents writer.new) text.now }
{
    match read_good(alloc, text) {
        Ok((named, parts)) => write_graph(alloc, named, parts, writer),
        Err(fault) => Err(LowerRefusal::Fault(fault)),
    }
}

/// Writes a line for each node of the graph that the text's program is lowered to: the place in the program that it is made for.
/// Nothing is written where there is no such graph.
pub fn write_map<A: Allocator + Clone, W: Write>(
    alloc: &A,
    text: &[u8],
    writer: &mut W,
) -> Result<(), LowerRefusal>
    ensures { Writes map_of result (W.contents writer.old) (W.contents writer.new) text.now }
{
    match read_good(alloc, text) {
        Ok((named, parts)) => write_places(alloc, named, parts.program, writer),
        Err(fault) => Err(LowerRefusal::Fault(fault)),
    }
}
