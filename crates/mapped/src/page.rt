//! The page of a run of a file, with the pane of its source beside the code.

ghost use Rattle.std.specs.Prelude.{◌≡◌, ℕ, List, IfOk, MatchResult, false};
ghost use Rattle.semantics.specs.Graph.{flow_of};
ghost use Rattle.source.specs.Tokens.{program_of};
ghost use Rattle.code_map.specs.Carried.{owners_of};
ghost use Rattle.html_text.specs.PaneText.{graph_pane, program_pane};
ghost use Rattle.lowered_text.specs.Parts.{IsGood, IsMade};
ghost use Rattle.outcomes.specs.declared.refusal.Refusal.{Refusal};
ghost use Rattle.commands.specs.FileInputs.{graph_part};
ghost use Rattle.mapped.specs.Paned.{IsGraphPane, IsPane, IsProgramPane, IsUnpaned, PrintsFilePage};

use code_map::code_map;
use command_line::RunOptions;
use commands::input::split_at_main;
use commands::paging::print_page;
use commands::refusal::lower_refusal;
use commands::serving::refuse;
use driver::compiling::check_text;
use driver::fault::Fault;
use driver::resources::Resources;
use files::{Content, content_of};
use graph_check::Checked;
use html_text::{write_graph_pane, write_program_pane};
use lowered_text::programs::{Made, Parts, make, read_good};
use lowering::{Named, Places};
use outcomes::{Outcome, Refusal};
use programs::compiling::check_good;
use rounds::Gate;
use std::alloc::{AllocError, Allocator};
use std::io::{self, Write};
use std::sync::Wait;
use std::thread::Threads;

/// The pane of a graph.
fn graph_pane<'a, A: Allocator + Clone>(
    alloc: &A,
    checked: &Checked<'a, A>,
) -> Result<Vec<u8, A>, AllocError>
    ensures { IfOk result (λ v. v.items ≡ graph_pane (owners_of (flow_of checked.now))) }
{
    let owners = code_map(alloc.clone()?, checked)?;
    let mut pane = Vec::new(alloc.clone()?);
    match write_graph_pane(&mut pane, &owners) {
        Ok(()) => Ok(pane),
        Err(_refused) => Err(AllocError),
    }
}

/// The pane of a program with this text, whose graph was made with these places.
fn program_pane<'a, A: Allocator + Clone>(
    alloc: &A,
    checked: &Checked<'a, A>,
    program: &[u8],
    places: &[Places<A>],
) -> Result<Vec<u8, A>, AllocError>
    ensures { IfOk result (λ v. v.items ≡ program_pane (owners_of (flow_of checked.now)) program.now places.now) }
{
    let owners = code_map(alloc.clone()?, checked)?;
    let mut pane = Vec::new(alloc.clone()?);
    match write_program_pane(&mut pane, &owners, program, places) {
        Ok(()) => Ok(pane),
        Err(_refused) => Err(AllocError),
    }
}

/// The pane of a graph, whose text this is; empty where it is no good graph.
fn pane_of_text<A: Allocator + Clone>(alloc: &A, text: &[u8]) -> Result<Vec<u8, A>, AllocError>
    ensures { IfOk result (λ v. IsGraphPane text.now v.items) }
{
    match check_text(alloc.clone()?, text) {
        Ok(checked) => graph_pane(alloc, &checked),
        Err(Fault::Memory) => Err(AllocError),
        Err(_fault) => Ok(Vec::new(alloc.clone()?)),
    }
}

/// The pane of a program with this text, of the graph that was made of it.
fn pane_of_made<'a, A: Allocator + Clone>(
    alloc: &A,
    program: &[u8],
    made: Made<'a, A>,
) -> Result<Vec<u8, A>, AllocError>
    ensures { (text : List ℕ) → program.now ≡ program_of text → IsMade text made.entry.graph made.entry.places.items
        → IfOk result (λ v. IsProgramPane text v.items) }
{
    let Made { graph, places } = made;
    match check_good(graph) {
        Ok(checked) => program_pane(alloc, &checked, program, &places),
        Err(_refused) => Err(AllocError),
    }
}

/// The pane of a program, or why it has none.
fn pane_of_named<A: Allocator + Clone>(
    alloc: &A,
    named: Named<'_, A>,
    parts: Parts<'_>,
) -> Result<Vec<u8, A>, Refusal>
    ensures { (text : List ℕ) → IsGood text parts.entry.program.now named.entry.checked.program parts.entry.inputs.now
        → MatchResult result (λ v. IsProgramPane text v.items) (IsUnpaned text) }
{
    let made = match make(alloc, parts.program, &named) {
        Ok(made) => made,
        Err(fault) => return Err(lower_refusal(fault)),
    };
    match pane_of_made(alloc, parts.program, made) {
        Ok(pane) => Ok(pane),
        Err(_refused) => Err(Refusal::Memory),
    }
}

/// The pane of the program of a text, or why it has none.
fn pane_of_program<A: Allocator + Clone>(alloc: &A, text: &[u8]) -> Result<Vec<u8, A>, Refusal>
    ensures { MatchResult result (λ v. IsProgramPane text.now v.items) (IsUnpaned text.now) }
{
    match read_good(alloc, text) {
        Ok((named, parts)) => pane_of_named(alloc, named, parts),
        Err(fault) => Err(lower_refusal(fault)),
    }
}

/// The pane of the graph with which these bytes begin.
fn pane_of_graph<A: Allocator + Clone>(alloc: &A, bytes: &[u8]) -> Result<Vec<u8, A>, Refusal>
    ensures { MatchResult result (λ v. IsGraphPane (graph_part bytes.now) v.items) (λ f. f ≡ Refusal.Memory) }
{
    let (text, _lines) = split_at_main(bytes);
    match pane_of_text(alloc, text) {
        Ok(pane) => Ok(pane),
        Err(_refused) => Err(Refusal::Memory),
    }
}

/// The pane of the source of a file with these bytes, or why it has none.
fn pane_of<A: Allocator + Clone>(alloc: &A, bytes: &[u8]) -> Result<Vec<u8, A>, Refusal>
    ensures { MatchResult result (λ v. IsPane bytes.now v.items) (IsUnpaned bytes.now) }
{
    match content_of(bytes) {
        Content::Program => pane_of_program(alloc, bytes),
        Content::Graph | Content::Object => pane_of_graph(alloc, bytes),
    }
}

/// Runs the graph of the input, which is that of a file with these bytes, on the integers after it, and prints a page that shows all its
/// events or only the last ones, and beside the code the file's source; or why there is none. Gives the outcome.
pub fn print_file_page<
    R: Threads + Wait + Sync,
    A: Allocator + Clone + Send + Sync,
    G: Gate + Sync,
    W: Write,
>(
    resources: Resources<'_, A, R, G>,
    bytes: &[u8],
    input: &[u8],
    options: &RunOptions,
    last: Option<u64>,
    writer: &mut W,
) -> io::Result<Outcome>
    requires { G.may_stop ≡ false }
    ensures { PrintsFilePage result (W.contents writer.old) (W.contents writer.new) bytes.now input.now options.now last }
{
    match pane_of(&resources.alloc, bytes) {
        Ok(pane) => print_page(resources, input, options, last, &pane, writer),
        Err(refusal) => refuse(writer, &refusal),
    }
}
