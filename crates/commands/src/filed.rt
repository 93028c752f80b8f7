//! What a command reads of a file that the words name, and what it prints of that.

ghost use Rattle.std.specs.Prelude.{◌≡◌, ◌++◌, IfOk, MatchResult, false};
ghost use Rattle.lowered_text.specs.Lowers.{IsRefusedProgram};
ghost use Rattle.files.specs.Files.{inputs_lines};
ghost use Rattle.files.specs.declared.content.Content.{Content};
ghost use Rattle.files.specs.declared.content.Reads.{Reads};
ghost use Rattle.outcomes.specs.declared.refusal.Refusal.{Refusal};
ghost use Rattle.commands.specs.Served.{Refuses};
ghost use Rattle.commands.specs.Answered.{Answers};
ghost use Rattle.commands.specs.FileInputs.{FilesRunPrograms, IsInputOf, IsLowered, IsNoInput, IsNoInputOf, IsOfGraph, IsOfProgram, followed, graph_part};

use crate::input::split_at_main;
use crate::refusal::lower_refusal;
use crate::serving::{answer, refuse};
use command_line::{Inputs, Request};
use driver::resources::Resources;
use files::{Content, Reads, are_given, content_of, reads_of, send_inputs};
use lowered_text::fault::{LowerFault, LowerRefusal};
use lowered_text::write_lowered;
use outcomes::{Outcome, Refusal};
use rounds::Gate;
use std::alloc::{AllocError, Allocator};
use std::io::{self, Write};
use std::sync::Wait;
use std::thread::Threads;

/// The text of the graph with which the bytes begin, without what follows it.
fn graph_alone<A: Allocator>(alloc: A, graph: &[u8]) -> Result<Vec<u8, A>, AllocError>
    ensures { IfOk result (λ v. v.items ≡ graph_part graph.now) }
{
    let (text, _lines) = split_at_main(graph);
    Vec::from_slice(alloc, text)
}

/// The graph with which the bytes begin, followed by these inputs.
fn with_inputs<A: Allocator>(
    alloc: A,
    graph: &[u8],
    inputs: &Inputs,
) -> Result<Vec<u8, A>, AllocError>
    ensures { IfOk result (λ v. v.items ≡ graph_part graph.now ++ inputs_lines inputs.now) }
{
    let mut input = graph_alone(alloc, graph)?;
    match send_inputs(&mut input, inputs) {
        Ok(()) => Ok(input),
        Err(_refused) => Err(AllocError),
    }
}

/// The bytes of a graph, with the inputs of the words in place of those after it, if there are any.
fn with_given<A: Allocator>(
    alloc: A,
    graph: &[u8],
    inputs: &Inputs,
) -> Result<Vec<u8, A>, AllocError>
    ensures { IfOk result (λ v. v.items ≡ followed inputs.now graph.now) }
{
    if are_given(inputs) {
        with_inputs(alloc, graph, inputs)
    } else {
        Vec::from_slice(alloc, graph)
    }
}

/// What `lower` prints of the text.
fn lowered<A: Allocator + Clone>(alloc: &A, text: &[u8]) -> Result<Vec<u8, A>, LowerFault>
    ensures { MatchResult result (λ v. IsLowered text.now v.items) (IsRefusedProgram text.now) }
{
    let mut graph = Vec::new(alloc.clone()?);
    match write_lowered(alloc, text, &mut graph) {
        Ok(()) => Ok(graph),
        Err(LowerRefusal::Fault(fault)) => Err(fault),
        Err(LowerRefusal::Write(_refused)) => Err(LowerFault::Memory),
    }
}

/// The graph of the text's program, with the inputs of the words in place of those of the text, if there are any.
fn run_of_program<A: Allocator + Clone>(
    alloc: &A,
    text: &[u8],
    inputs: &Inputs,
) -> Result<Vec<u8, A>, LowerFault>
    ensures { MatchResult result (λ v. IsOfProgram Reads.Inputs inputs.now text.now v.items) (IsRefusedProgram text.now) }
{
    let graph = lowered(alloc, text)?;
    let room = alloc.clone()?;
    Ok(with_given(room, &graph, inputs)?)
}

/// The graph of the text's program alone.
fn graph_of_program<A: Allocator + Clone>(
    alloc: &A,
    text: &[u8],
    inputs: &Inputs,
) -> Result<Vec<u8, A>, LowerFault>
    ensures { MatchResult result (λ v. IsOfProgram Reads.Graph inputs.now text.now v.items) (IsRefusedProgram text.now) }
{
    let graph = lowered(alloc, text)?;
    let room = alloc.clone()?;
    Ok(graph_alone(room, &graph)?)
}

/// What a command reads of a program's text.
fn of_program<A: Allocator + Clone>(
    alloc: &A,
    text: &[u8],
    reads: Reads,
    inputs: &Inputs,
) -> Result<Vec<u8, A>, Refusal>
    ensures { MatchResult result (λ v. IsOfProgram reads inputs.now text.now v.items) (IsNoInput Content.Program reads text.now) }
{
    let read = match reads {
        Reads::Inputs => run_of_program(alloc, text, inputs),
        Reads::Graph => graph_of_program(alloc, text, inputs),
        Reads::Bytes => return copied(alloc, text),
    };
    match read {
        Ok(input) => Ok(input),
        Err(fault) => Err(lower_refusal(fault)),
    }
}

/// The same bytes.
fn copied<A: Allocator + Clone>(alloc: &A, bytes: &[u8]) -> Result<Vec<u8, A>, Refusal>
    ensures { MatchResult result (λ v. v.items ≡ bytes.now) (λ f. f ≡ Refusal.Memory) }
{
    let Ok(room) = alloc.clone() else {
        return Err(Refusal::Memory);
    };
    match Vec::from_slice(room, bytes) {
        Ok(bytes) => Ok(bytes),
        Err(_refused) => Err(Refusal::Memory),
    }
}

/// What a command reads of the bytes of a graph.
fn of_graph<A: Allocator + Clone>(
    alloc: &A,
    bytes: &[u8],
    reads: Reads,
    inputs: &Inputs,
) -> Result<Vec<u8, A>, Refusal>
    ensures { MatchResult result (λ v. IsOfGraph reads inputs.now bytes.now v.items) (λ f. f ≡ Refusal.Memory) }
{
    match reads {
        Reads::Inputs => {
            let Ok(room) = alloc.clone() else {
                return Err(Refusal::Memory);
            };
            match with_given(room, bytes, inputs) {
                Ok(input) => Ok(input),
                Err(_refused) => Err(Refusal::Memory),
            }
        }
        Reads::Graph | Reads::Bytes => copied(alloc, bytes),
    }
}

/// What the command of this request reads of a file with these bytes, where these inputs are among the words; or why there is
/// nothing to read.
pub fn input_of<A: Allocator + Clone>(
    alloc: &A,
    bytes: &[u8],
    request: &Request,
    inputs: &Inputs,
) -> Result<Vec<u8, A>, Refusal>
    ensures { MatchResult result (λ v. IsInputOf request.now inputs.now bytes.now v.items) (IsNoInputOf request.now bytes.now) }
{
    let reads = reads_of(request);
    match content_of(bytes) {
        Content::Program => of_program(alloc, bytes, reads, inputs),
        Content::Graph => of_graph(alloc, bytes, reads, inputs),
        Content::Object => copied(alloc, bytes),
    }
}

/// Prints what is asked for, of what the command reads of a file, or the refusal. Gives the outcome.
pub fn answer_input<
    R: Threads + Wait + Sync,
    A: Allocator + Clone + Send + Sync,
    G: Gate + Sync,
    W: Write,
>(
    request: &Request,
    input: &Result<Vec<u8, A>, Refusal>,
    writer: &mut W,
    resources: Resources<'_, A, R, G>,
) -> io::Result<Outcome>
    requires { G.may_stop ≡ false }
    ensures { MatchResult input.now (λ v. Answers result (W.contents writer.old) (W.contents writer.new) v.items request.now)
        (Refuses result (W.contents writer.old) (W.contents writer.new)) }
{
    match input {
        Ok(input) => answer(request, input, writer, resources),
        Err(refusal) => refuse(writer, refusal),
    }
}

/// `run` of a file that has a program runs the graph that the program is lowered to, on the inputs that follow the program: what it
/// prints is the report of which the promise of a program's report speaks.
pub fn files_run_programs()
    ensures { FilesRunPrograms }
{}
