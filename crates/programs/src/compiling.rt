//! The compiler of programs: a text's program is lowered to a graph, and that is compiled.

ghost use Rattle.std.specs.Prelude.{◌≡◌, List, MatchResult, ℕ};
ghost use Rattle.semantics.specs.Text.{HasText, text_of};
ghost use Rattle.semantics.specs.WellFormed.{WellFormed};
ghost use Rattle.lowered_text.specs.Parts.{IsGood};
ghost use Rattle.driver.specs.Compiled.{IsTooLarge};
ghost use Rattle.driver.specs.Refused.{IsCompiled};
ghost use Rattle.driver.specs.declared.fault.Fault.TheVariants as Faults;
ghost use Rattle.programs.specs.Compiled.{IsProgramObject};
ghost use Rattle.programs.specs.Refused.{IsNotCompiled};

use crate::fault::RunRefusal;
use driver::compiling::compile_graph;
use driver::fault::Fault;
use graph::Graph;
use graph_check::{Checked, check_graph};
use lowered_text::programs::{Made, make, read_good};
use lowering::Named;
use object_view::OwnedObject;
use std::alloc::Allocator;

/// A graph that is well formed, as checked.
pub fn check_good<'a, A: Allocator + Clone>(graph: Graph<'a, A>) -> Result<Checked<'a, A>, Fault>
    ensures { WellFormed graph.entry → MatchResult result (λ c. (c ≡ graph.entry) × HasText graph.entry) (λ fault. fault ≡ Faults.Memory) }
{
    let checked = check_graph(graph)?;
    // What it promises: the text is within the limits.
    let _graph = checked.graph();
    Ok(checked)
}

/// Compiles a graph that is well formed.
fn compile_good<A: Allocator + Clone>(
    alloc: A,
    graph: Graph<'_, A>,
) -> Result<OwnedObject<A>, Fault>
    ensures { WellFormed graph.entry → MatchResult result (λ o. IsCompiled (text_of graph.entry) graph.entry o.bytes) (IsTooLarge graph.entry) }
{
    let checked = check_good(graph)?;
    compile_graph(alloc, &checked)
}

/// Compiles the graph of a program, whose text is `program`.
fn compile_named<A: Allocator + Clone>(
    alloc: A,
    program: &[u8],
    named: Named<'_, A>,
) -> Result<OwnedObject<A>, RunRefusal>
    ensures { (text inputs : List ℕ) → IsGood text program.now named.entry.checked.program inputs
        → MatchResult result (λ o. IsProgramObject text o.bytes) (IsNotCompiled text) }
{
    let Made {
        graph,
        places: _places,
    } = make(&alloc, program, &named)?;
    Ok(compile_good(alloc, graph)?)
}

/// Compiles the program of the text: the object of the code for the graph that it is lowered to.
pub fn compile_program<A: Allocator + Clone>(
    alloc: A,
    text: &[u8],
) -> Result<OwnedObject<A>, RunRefusal>
    ensures { MatchResult result (λ o. IsProgramObject text.now o.bytes) (IsNotCompiled text.now) }
{
    let (named, parts) = read_good(&alloc, text)?;
    compile_named(alloc, parts.program, named)
}
