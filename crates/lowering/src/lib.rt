//! The lowering of programs to graphs. A program is gone over twice, word by word: once from its end, for what each part takes
//! from outside, and once from its beginning, to make the blocks.
#![tactic(auto)]

ghost use Rattle.std.specs.Prelude.{◌≡◌, ◌⊎◌, Err, IfOk, IfErr, map};
ghost use Rattle.source.specs.Tree as tree;
ghost use Rattle.source.specs.Lowered as definition;
ghost use Rattle.source.specs.Words.{IsProgram};
ghost use Rattle.source_check.specs.Stack.{out_of_memory};
ghost use Rattle.lowering.specs.Built.{IsLowered, places_of};
ghost use Rattle.lowering.specs.Numbered.{gathered_cells, gathered_blocks};
ghost use Rattle.lowering.specs.Lowers.{MachineLowers, BlocksAreMade, BlocksOfGraph, ResultsAreGathered, ArraysAreGathered};

mod arms;
mod built;
mod frame;
mod frames;
mod functions;
mod items;
mod lists;
mod loop_names;
mod loops;
mod machine;
mod made;
mod name_set;
mod names;
mod plan;
mod scan;
mod scope;
mod step;
mod turns;
mod values;

pub use built::Places;
use built::{all_blocks, all_places, sizes};
use graph::{Array, Block};
use items::gather;
use loop_names::OUT_OF_MEMORY;
pub use loop_names::{Named, name_loops};
use machine::Machine;
use made::OfFunction;
use source::fault::Fault;
use std::alloc::{AllocError, Allocator};
use step::Names;

/// Going over the words of a program that keeps the rules makes exactly the blocks that the definition of lowering gives for its tree.
pub fn words_are_lowered()
    ensures machine { MachineLowers }
    ensures made { BlocksAreMade }
    ensures graph { BlocksOfGraph }
    ensures results { ResultsAreGathered }
    ensures arrays { ArraysAreGathered }
{}

/// The arrays and the blocks of the graph of a program, and for each block the places in the text from which it came.
#[derive(Drop)]
pub struct Lowered<'a, A: Allocator> {
    pub arrays: Vec<Array<'a>, A>,
    pub blocks: Vec<Block<'a, A>, A>,
    pub places: Vec<Places<A>, A>,
}

/// What the machine makes of a program.
#[derive(Drop)]
struct Parts<'a, A: Allocator> {
    arrays: Vec<Array<'a>, A>,
    blocks: Vec<OfFunction<'a, A>, A>,
}

/// Goes over the words twice: from the last to the first for what they say of each part, and from the first to the last.
fn go_over<'a, A: Allocator + Clone>(
    alloc: &A,
    named: &'a Named<'a, A>,
) -> Result<Parts<'a, A>, AllocError>
    ensures arrays { IfOk result (λ m. m.arrays.items ≡ gathered_cells named.now.checked.program.names named.now.checked.program.words) }
    ensures blocks { IfOk result (λ m. m.blocks.items ≡ gathered_blocks named.now.checked.program.names named.now.checked.program.words) }
{
    let names = &named.checked.program.names;
    let words = &named.checked.program.words;
    let gathered = gather(alloc, names, words)?;
    let loops = named.loop_names(alloc)?;
    let mut machine = Machine::new(alloc, gathered.plans, loops)?;
    let names = Names {
        names,
        results: &gathered.results,
    };
    machine.run(names, words)?;
    Ok(Parts {
        arrays: gathered.arrays,
        blocks: machine.into_done(),
    })
}

/// The parts of the graph.
fn build<'a, A: Allocator + Clone>(
    alloc: &A,
    named: &'a Named<'a, A>,
    parts: Parts<'a, A>,
) -> Result<Lowered<'a, A>, AllocError>
    ensures arrays { IfOk result (λ l. l.arrays.items ≡ parts.entry.arrays.items) }
    ensures blocks { IfOk result (λ l. l.blocks.items
        ≡ map (λ (b : tree.Name × definition.MadeBlock). definition.graph_block b.0 b.1) parts.entry.blocks.items) }
    ensures places { IfOk result (λ l. l.places.items ≡ map (λ (b : tree.Name × definition.MadeBlock). places_of b.1) parts.entry.blocks.items) }
{
    let places = all_places(alloc, &parts.blocks)?;
    let loops = named.loop_names(alloc)?;
    let blocks = all_blocks(alloc, loops, parts.blocks)?;
    Ok(Lowered {
        arrays: parts.arrays,
        blocks,
        places,
    })
}

/// Lowers a program that keeps the rules to the blocks of its graph. It is refused if a block is too big, or if a growth is refused.
pub fn lower<'a, A: Allocator + Clone>(
    alloc: &A,
    named: &'a Named<'a, A>,
) -> Result<Lowered<'a, A>, Fault>
    ensures lowered { (p : tree.Program) → IsProgram named.now.checked.program.names named.now.checked.program.words p
        → IfOk result (λ l. IsLowered p l.arrays.items l.blocks.items l.places.items) }
    ensures refused { (p : tree.Program) → IsProgram named.now.checked.program.names named.now.checked.program.words p
        → IfErr result (λ f. (f ≡ out_of_memory) ⊎ (definition.lowered p ≡ Err f)) }
{
    let Ok(parts) = go_over(alloc, named) else {
        return Err(OUT_OF_MEMORY);
    };
    sizes(&parts.blocks)?;
    let Ok(lowered) = build(alloc, named, parts) else {
        return Err(OUT_OF_MEMORY);
    };
    Ok(lowered)
}
