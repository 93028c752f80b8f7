//! The map of a file's code: for each instruction the node of the graph for which it was made, and for a program the place in it, too; as
//! text, and in the page of a run.
#![tactic(auto)]

mod page;

ghost use Rattle.std.specs.Prelude.{◌≡◌, List, MatchResult, ℕ};
ghost use Rattle.semantics.specs.Graph.{flow_of};
ghost use Rattle.semantics.specs.WellFormed.{WellFormed};
ghost use Rattle.sink.specs.Sends.{Sends};
ghost use Rattle.source.specs.Tokens.{program_of};
ghost use Rattle.code_map.specs.Carried.{owners_of};
ghost use Rattle.lowered_text.specs.Parts.{IsGood, IsMade};
ghost use Rattle.driver.specs.Compiled.{IsObjectOf, IsTooLarge};
ghost use Rattle.driver.specs.Refused.{IsGoodText, IsRefusedText};
ghost use Rattle.mapped.specs.Mapped.{PrintsCodeMap, PrintsGraphMap, PrintsProgramMap, map_of};

use code_map::{Owner, code_map};
use commands::refusal::{fault_refusal, lower_refusal};
use commands::serving::refuse;
use driver::compiling::{check_text, compile_graph};
use driver::fault::Fault;
use files::{Content, content_of};
use graph::Graph;
use graph_check::Checked;
use lowered_text::programs::{Made, Parts, make, read_good};
use lowering::{Named, Places};
use map_text::{ProgramPlaces, write_code_map};
use object_view::OwnedObject;
use outcomes::{Outcome, Refusal};
pub use page::print_file_page;
use programs::compiling::check_good;
use std::alloc::Allocator;
use std::io::{self, Write};

/// A graph with its object, and the owner of each instruction.
#[derive(Drop)]
struct Mapped<'a, A: Allocator> {
    checked: Checked<'a, A>,
    object: OwnedObject<A>,
    owners: Vec<Owner, A>,
}

/// The object of a graph, and its map.
fn map_checked<'a, A: Allocator + Clone>(
    alloc: A,
    checked: Checked<'a, A>,
) -> Result<Mapped<'a, A>, Fault>
    ensures { MatchResult result
        (λ m. (m.checked ≡ checked.entry) × IsObjectOf checked.entry m.object.bytes × (m.owners.items ≡ owners_of (flow_of checked.entry)))
        (IsTooLarge checked.entry) }
{
    let object = compile_graph(alloc.clone()?, &checked)?;
    let owners = code_map(alloc, &checked)?;
    Ok(Mapped {
        checked,
        object,
        owners,
    })
}

/// The same of the graph of a text.
fn map_text<'a, A: Allocator + Clone>(alloc: A, text: &'a [u8]) -> Result<Mapped<'a, A>, Fault>
    ensures { MatchResult result
        (λ m. IsGoodText text.now m.checked × IsObjectOf m.checked m.object.bytes × (m.owners.items ≡ owners_of (flow_of m.checked)))
        (IsRefusedText text.now) }
{
    let checked = check_text(alloc.clone()?, text)?;
    map_checked(alloc, checked)
}

/// The same of a graph that is well formed.
fn map_good<'a, A: Allocator + Clone>(alloc: A, graph: Graph<'a, A>) -> Result<Mapped<'a, A>, Fault>
    ensures { WellFormed graph.entry → MatchResult result
        (λ m. (m.checked ≡ graph.entry) × IsObjectOf graph.entry m.object.bytes × (m.owners.items ≡ owners_of (flow_of graph.entry)))
        (IsTooLarge graph.entry) }
{
    let checked = check_good(graph)?;
    map_checked(alloc, checked)
}

/// Writes the lines of a map.
fn send_map<A: Allocator, W: Write>(
    writer: &mut W,
    mapped: &Mapped<'_, A>,
    places: Option<ProgramPlaces<'_, '_, A>>,
) -> io::Result<()>
    ensures { mapped.now.owners.items ≡ owners_of (flow_of mapped.now.checked)
        → Sends result (W.contents writer.old) (W.contents writer.new) (map_of mapped.now.checked mapped.now.object.bytes places.entry) }
{
    let object = mapped.object.as_object();
    // What the bytes promise: they are the object.
    let _bytes = object.bytes();
    write_code_map(
        writer,
        &object,
        mapped.checked.graph(),
        &mapped.owners,
        places,
    )
}

/// Prints the map of the code of the graph that a text is, or why it has none. Gives the outcome.
fn print_graph_map<A: Allocator + Clone, W: Write>(
    alloc: A,
    text: &[u8],
    writer: &mut W,
) -> io::Result<Outcome>
    ensures { PrintsGraphMap result (W.contents writer.old) (W.contents writer.new) text.now }
{
    let Ok(room) = alloc.clone() else {
        return refuse(writer, &Refusal::Memory);
    };
    let mapped = match map_text(alloc, text) {
        Ok(mapped) => mapped,
        Err(fault) => return refuse(writer, &fault_refusal(fault)),
    };
    let places: Vec<Places<A>, A> = Vec::new(room);
    let nowhere = ProgramPlaces {
        program: b"",
        places: &places,
    };
    match send_map(writer, &mapped, Some(nowhere)) {
        Ok(()) => Ok(Outcome::Done),
        Err(fault) => Err(fault),
    }
}

/// Prints the map of the code of the graph that was made of a program, or why it has none. Gives the outcome.
fn print_made_map<'a, A: Allocator + Clone, W: Write>(
    alloc: A,
    program: &[u8],
    made: Made<'a, A>,
    writer: &mut W,
) -> io::Result<Outcome>
    ensures { (text : List ℕ) → program.now ≡ program_of text → IsMade text made.entry.graph made.entry.places.items
        → PrintsProgramMap result (W.contents writer.old) (W.contents writer.new) text }
{
    let Made { graph, places } = made;
    let mapped = match map_good(alloc, graph) {
        Ok(mapped) => mapped,
        Err(fault) => return refuse(writer, &fault_refusal(fault)),
    };
    let places = ProgramPlaces {
        program,
        places: &places,
    };
    match send_map(writer, &mapped, Some(places)) {
        Ok(()) => Ok(Outcome::Done),
        Err(fault) => Err(fault),
    }
}

/// Prints the map of the code of a program's graph, or why it has none. Gives the outcome.
fn print_named_map<A: Allocator + Clone, W: Write>(
    alloc: A,
    named: Named<'_, A>,
    parts: Parts<'_>,
    writer: &mut W,
) -> io::Result<Outcome>
    ensures { (text : List ℕ) → IsGood text parts.entry.program.now named.entry.checked.program parts.entry.inputs.now
        → PrintsProgramMap result (W.contents writer.old) (W.contents writer.new) text }
{
    match make(&alloc, parts.program, &named) {
        Ok(made) => print_made_map(alloc, parts.program, made, writer),
        Err(fault) => refuse(writer, &lower_refusal(fault)),
    }
}

/// Prints the map of the code of the graph that a text's program is lowered to, or why it has none. Gives the outcome.
fn print_program_map<A: Allocator + Clone, W: Write>(
    alloc: A,
    text: &[u8],
    writer: &mut W,
) -> io::Result<Outcome>
    ensures { PrintsProgramMap result (W.contents writer.old) (W.contents writer.new) text.now }
{
    match read_good(&alloc, text) {
        Ok((named, parts)) => print_named_map(alloc, named, parts, writer),
        Err(fault) => refuse(writer, &lower_refusal(fault)),
    }
}

/// Prints the map of the code of a file with these bytes: of the graph that they are, or of that which their program is lowered to; or
/// why it has none. Gives the outcome.
pub fn print_code_map<A: Allocator + Clone, W: Write>(
    alloc: A,
    bytes: &[u8],
    writer: &mut W,
) -> io::Result<Outcome>
    ensures { PrintsCodeMap result (W.contents writer.old) (W.contents writer.new) bytes.now }
{
    match content_of(bytes) {
        Content::Program => print_program_map(alloc, bytes, writer),
        Content::Graph | Content::Object => print_graph_map(alloc, bytes, writer),
    }
}
