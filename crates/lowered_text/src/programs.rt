//! The program of a text, and the graph that it is lowered to.

ghost use Rattle.std.specs.Prelude.{◌≡◌, ℕ, List, MatchResult};
ghost use Rattle.source.specs.Rules.{main_name};
ghost use Rattle.source.specs.Words.{HasTree};
ghost use Rattle.source_text.specs.Reading.{IsRead};
ghost use Rattle.lowered_text.specs.Lowers.{IsRefusedProgram};
ghost use Rattle.lowered_text.specs.Parts.{AreParts, IsGood, IsMade};
ghost use Rattle.lowered_text.specs.Reported.{IsUntold, placed};

use crate::fault::LowerFault;
use graph::{Array, Block, Graph, Name};
use lowering::{Lowered, Named, Places, lower, name_loops};
use semantics::version::Version;
use source::fault::{Fault, ProgramFault};
use source::program::Program;
use source_check::check;
use source_text::{SourceText, read_program};
use source_tokens::{Detail, ProgramRefusal, position};
use std::alloc::Allocator;

/// The two parts of a text.
#[derive(Clone, Copy)]
pub struct Parts<'a> {
    /// The text of the program.
    pub program: &'a [u8],
    /// What follows the line `inputs`.
    pub inputs: &'a [u8],
}

/// A graph, and for each of its blocks the places in the text from which it came.
#[derive(Drop)]
pub struct Made<'a, A: Allocator> {
    pub graph: Graph<'a, A>,
    pub places: Vec<Places<A>, A>,
}

/// The fault with its line and its column in the program's text, and what is known of it.
fn reported(program: &[u8], fault: Fault, detail: Option<Detail>) -> LowerFault
    ensures { IsUntold (placed program.now fault) result }
{
    let place = position(program, fault.at);
    LowerFault::from(ProgramRefusal {
        fault: ProgramFault {
            kind: fault.kind,
            line: place.line,
            column: place.column,
        },
        at: fault.at,
        detail,
    })
}

/// The program of a text that was read, if it keeps the rules.
fn good_source<'a, A: Allocator + Clone>(
    alloc: &A,
    source: SourceText<'a, A>,
) -> Result<(Named<'a, A>, Parts<'a>), LowerFault>
    ensures { (text : List ℕ) → IsRead text source.entry.text.now source.entry.program.names source.entry.program.words source.entry.inputs.now
        → MatchResult result (λ g. IsGood text g.1.program.now g.0.checked.program g.1.inputs.now) (IsRefusedProgram text) }
{
    let SourceText {
        text,
        program,
        inputs,
    } = source;
    let checked = match check(alloc, text.len(), program) {
        Ok(checked) => checked,
        Err(broken) => return Err(reported(text, broken.fault, broken.detail)),
    };
    match name_loops(alloc, checked) {
        Ok(named) => Ok((
            named,
            Parts {
                program: text,
                inputs,
            },
        )),
        Err(fault) => Err(reported(text, fault, None)),
    }
}

/// The program of a text, if it keeps the rules, and the two parts of the text.
pub fn read_good<'a, A: Allocator + Clone>(
    alloc: &A,
    text: &'a [u8],
) -> Result<(Named<'a, A>, Parts<'a>), LowerFault>
    ensures { MatchResult result (λ g. IsGood text.now g.1.program.now g.0.checked.program g.1.inputs.now) (IsRefusedProgram text.now) }
{
    let source = read_program(alloc.clone()?, text)?;
    good_source(alloc, source)
}

/// The names of a program, of which a tree exists.
fn names_of<'p, 'a, A: Allocator>(program: &'p Program<'a, A>) -> &'p [Name<'a>]
    ensures { HasTree program.now.names program.now.words }
{
    &program.names
}

/// The graph with these arrays and blocks.
fn graph_of<'a, A: Allocator>(
    arrays: Vec<Array<'a>, A>,
    blocks: Vec<Block<'a, A>, A>,
) -> Graph<'a, A>
    requires { AreParts arrays.items blocks.items }
    ensures { result ≡ record { version = 2; arrays = arrays.entry.items; blocks = blocks.entry.items; main = main_name } }
{
    Graph {
        version: Version::Two,
        arrays,
        blocks,
        main: Name { bytes: b"main" },
    }
}

/// The graph of a program, whose text is `program`.
pub fn make<'a, A: Allocator + Clone>(
    alloc: &A,
    program: &[u8],
    named: &'a Named<'a, A>,
) -> Result<Made<'a, A>, LowerFault>
    ensures { (text inputs : List ℕ) → IsGood text program.now named.now.checked.program inputs
        → MatchResult result (λ m. IsMade text m.graph m.places.items) (IsRefusedProgram text) }
{
    let Lowered {
        arrays,
        blocks,
        places,
    } = match lower(alloc, named) {
        Ok(lowered) => lowered,
        Err(fault) => return Err(reported(program, fault, None)),
    };
    let _names = names_of(&named.checked.program);
    let graph = graph_of(arrays, blocks);
    Ok(Made { graph, places })
}
