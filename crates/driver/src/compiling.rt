//! The compiler, pass by pass. The text becomes a graph, the graph a plan, the plan a plan with trees of copies; then slots are
//! assigned, and code and the bytes of an object are made.

ghost use Rattle.std.specs.Prelude.{◌≡◌, IfOk, MatchResult};
ghost use Rattle.semantics.specs.Versions.{version_number};
ghost use Rattle.law_compiler.specs.Objects.{plan_of};
ghost use Rattle.driver.specs.Compiled.{IsCodeFor, IsObjectOf, IsTooLarge};
ghost use Rattle.driver.specs.Refused.{IsGoodText, IsCompiled, IsBadText, IsRefusedText};
ghost use Rattle.driver.specs.Written.{WritesObject};

use crate::fault::Fault;
use code::{Code, Plan};
use fanout::narrow;
use folding::fold;
use graph::Graph;
use graph_check::{Checked, check_graph};
use graph_file::read_graph;
use object_view::{OwnedObject, write};
use schemas::expand;
use select::emit;
use semantics::version::Version;
use slot_alloc::assign;
use std::alloc::{AllocError, Allocator};
use std::io::{self, Write};

/// A graph with the object of its code.
#[derive(Drop)]
pub struct Compiled<'a, A: Allocator> {
    pub checked: Checked<'a, A>,
    pub object: OwnedObject<A>,
}

/// Reads the graph of the text, and checks that it is well formed.
pub fn check_text<'a, A: Allocator + Clone>(
    alloc: A,
    text: &'a [u8],
) -> Result<Checked<'a, A>, Fault>
    ensures { MatchResult result (IsGoodText text.now) (IsBadText text.now) }
{
    let graph = read_graph(alloc, text)?;
    Ok(check_graph(graph)?)
}

/// Makes the plan of a graph, pass by pass: first with any number of destinations at an instruction, then with literal
/// operands, and then with at most two destinations.
pub(crate) fn plan<'a, A: Allocator + Clone>(
    alloc: &A,
    checked: &Checked<'a, A>,
) -> Result<Plan<A>, AllocError>
    ensures { IfOk result (λ p. p ≡ plan_of checked.now) }
{
    let wide = expand(alloc.clone()?, checked)?;
    let folded = fold(alloc.clone()?, &wide)?;
    narrow(alloc.clone()?, &folded)
}

/// The version of the graph's object, which is that of its text.
fn version_of<'a, A: Allocator>(graph: &Graph<'a, A>) -> Version
    ensures { version_number result ≡ graph.now.version }
{
    graph.version
}

/// Makes the code of a graph.
fn code_of<'a, A: Allocator + Clone>(alloc: A, checked: &Checked<'a, A>) -> Result<Code<A>, Fault>
    ensures { MatchResult result (IsCodeFor checked.now) (IsTooLarge checked.now) }
{
    let plan = plan(&alloc, checked)?;
    let slots = assign(alloc.clone()?, &plan)?;
    Ok(emit(alloc, &plan, &slots, version_of(checked.graph()))?)
}

/// Compiles a graph: the object of its code.
pub fn compile_graph<'a, A: Allocator + Clone>(
    alloc: A,
    checked: &Checked<'a, A>,
) -> Result<OwnedObject<A>, Fault>
    ensures { MatchResult result (λ o. IsObjectOf checked.now o.bytes) (IsTooLarge checked.now) }
{
    let code = code_of(alloc.clone()?, checked)?;
    let object = OwnedObject::of(alloc, &code, version_of(checked.graph()))?;
    Ok(object)
}

/// Compiles the text: its graph, and the object of the graph's code.
pub fn compile<'a, A: Allocator + Clone>(alloc: A, text: &'a [u8]) -> Result<Compiled<'a, A>, Fault>
    ensures { MatchResult result (λ c. IsCompiled text.now c.checked c.object.bytes) (IsRefusedText text.now) }
{
    let checked = check_text(alloc.clone()?, text)?;
    let object = compile_graph(alloc, &checked)?;
    Ok(Compiled { checked, object })
}

/// Why no object, or only a beginning of one, was written.
#[derive(Debug, Drop)]
pub enum CompileRefusal {
    /// The text has no object, and nothing was written.
    Fault(Fault),
    /// A write failed. A beginning of the object was written.
    Write(io::Error),
}

/// Writes the object of the text's graph.
pub fn write_object<A: Allocator + Clone, W: Write>(
    alloc: A,
    text: &[u8],
    writer: &mut W,
) -> Result<(), CompileRefusal>
    ensures { WritesObject result (W.contents writer.old) (W.contents writer.new) text.now }
{
    let Ok(room) = alloc.clone() else {
        return Err(CompileRefusal::Fault(Fault::Memory));
    };
    let checked = match check_text(room, text) {
        Ok(checked) => checked,
        Err(fault) => return Err(CompileRefusal::Fault(fault)),
    };
    let code = match code_of(alloc, &checked) {
        Ok(code) => code,
        Err(fault) => return Err(CompileRefusal::Fault(fault)),
    };
    match write(&code, version_of(checked.graph()), writer) {
        Ok(()) => Ok(()),
        Err(fault) => Err(CompileRefusal::Write(fault)),
    }
}
