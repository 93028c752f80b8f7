//! Blocks of the machine as blocks of a graph.

ghost use Rattle.std.specs.Prelude.{◌≡◌, ◌+◌, IfOk, length, map, nat_le};
ghost use Rattle.source.specs.Lowered as lowered;
ghost use Rattle.source.specs.Tree as tree;
ghost use Rattle.lowering.specs.Built.{places_of};

use crate::loop_names::{LoopName, next_loop_name};
use crate::made::{Made, MadeBlock, OfFunction};
use crate::turns::number_of;
use graph::{Block, Name, Node};
use source::fault::{Fault, FaultKind};
use std::alloc::{AllocError, Allocator};
use std::collections::VecDeque;
use std::marker::Model;

/// The places in the text from which a block came: that of the function's name or of the word `loop`, and that of each node line.
#[derive(Drop)]
pub struct Places<A: Allocator> {
    pub block: usize,
    /// How many inputs the block has: the node lines are numbered from there on.
    pub inputs: u32,
    pub nodes: Vec<usize, A>,
}

impl<A: Allocator> Model for Places<A> {
    ghost use Rattle.lowering.specs.Built as built;

    ghost Value = { built.Places };

    ghost view = { λ p. record { block = p.block; inputs = p.inputs; nodes = p.nodes.items } };
}

/// The first block that is too big, if one is.
pub fn sizes<'a, A: Allocator>(blocks: &[OfFunction<'a, A>]) -> Result<(), Fault>
    ensures { result ≡ lowered.sizes 0 (map (λ (b : tree.Name × lowered.MadeBlock). b.1) blocks.now) }
{
    let mut before = 0u32;
    for of_function in blocks {
        let block = &of_function.block;
        if !is_small(block) || before >= 256 {
            return Err(Fault {
                kind: FaultKind::TooBig,
                at: block.at,
            });
        }
        before += 1;
    }
    Ok(())
}

/// A block has at most 1,024 nodes, with its inputs.
fn is_small<'a, A: Allocator>(block: &MadeBlock<'a, A>) -> bool
    ensures { result ≡ nat_le (block.now.inputs + length block.now.nodes) 1024 }
{
    match block.inputs.checked_add(block.nodes.len()) {
        Some(count) => count <= 1024,
        None => false,
    }
}

/// The name of a block.
fn name_of_block<'a, A: Allocator>(
    loops: &mut VecDeque<LoopName<'a>, A>,
    function: &'a [u8],
    number: usize,
) -> Result<Name<'a>, AllocError>
    ensures { IfOk result (λ n. n ≡ lowered.block_name function.now number) }
{
    if number == 0 {
        Ok(Name { bytes: function })
    } else {
        next_loop_name(loops, function, number)
    }
}

/// The places of node lines.
fn places_of_lines<'a, A: Allocator + Clone>(
    alloc: &A,
    made: &[Made<'a, A>],
) -> Result<Vec<usize, A>, AllocError>
    ensures { IfOk result (λ v. v.items ≡ map (λ (m : lowered.Made). m.at) made.now) }
{
    let mut places = Vec::new(alloc.clone()?);
    for line in made {
        places.push(line.at)?;
    }
    Ok(places)
}

/// Node lines without their places.
fn nodes_of_lines<'a, A: Allocator + Clone>(
    alloc: &A,
    made: Vec<Made<'a, A>, A>,
) -> Result<Vec<Node<'a, A>, A>, AllocError>
    ensures { IfOk result (λ v. v.items ≡ map lowered.node_of made.entry.items) }
{
    let mut nodes = Vec::new(alloc.clone()?);
    let mut rest = VecDeque::from_vec(made);
    while let Some(line) = rest.pop_front() {
        nodes.push(line.node)?;
    }
    Ok(nodes)
}

/// A block of the graph.
fn one_block<'a, A: Allocator + Clone>(
    alloc: &A,
    name: Name<'a>,
    made: MadeBlock<'a, A>,
) -> Result<Block<'a, A>, AllocError>
    ensures { IfOk result (λ r. r ≡ (
      name.entry,
      record {
        inputs = made.entry.inputs;
        outputs = length made.entry.results;
        nodes = map lowered.node_of made.entry.nodes;
        results = made.entry.results;
      },
    )) }
{
    let inputs = number_of(made.inputs)?;
    let outputs = number_of(made.results.len())?;
    let nodes = nodes_of_lines(alloc, made.nodes)?;
    Ok(Block {
        name,
        inputs,
        outputs,
        nodes,
        results: made.results,
    })
}

/// The places from which a block came.
fn places_of_block<'a, A: Allocator + Clone>(
    alloc: &A,
    made: &MadeBlock<'a, A>,
) -> Result<Places<A>, AllocError>
    ensures { IfOk result (λ r. r ≡ places_of made.now) }
{
    let inputs = number_of(made.inputs)?;
    let nodes = places_of_lines(alloc, &made.nodes)?;
    Ok(Places {
        block: made.at,
        inputs,
        nodes,
    })
}

/// The blocks of the graph.
pub fn all_blocks<'a, A: Allocator + Clone>(
    alloc: &A,
    mut loops: VecDeque<LoopName<'a>, A>,
    made: Vec<OfFunction<'a, A>, A>,
) -> Result<Vec<Block<'a, A>, A>, AllocError>
    ensures { IfOk result (λ v. v.items ≡ map (λ (b : tree.Name × lowered.MadeBlock). lowered.graph_block b.0 b.1) made.entry.items) }
{
    let mut blocks = Vec::new(alloc.clone()?);
    let mut rest = VecDeque::from_vec(made);
    while let Some(of_function) = rest.pop_front() {
        let name = name_of_block(&mut loops, of_function.function, of_function.block.number)?;
        blocks.push(one_block(alloc, name, of_function.block)?)?;
    }
    Ok(blocks)
}

/// The places from which the blocks came.
pub fn all_places<'a, A: Allocator + Clone>(
    alloc: &A,
    made: &[OfFunction<'a, A>],
) -> Result<Vec<Places<A>, A>, AllocError>
    ensures { IfOk result (λ v. v.items ≡ map (λ (b : tree.Name × lowered.MadeBlock). places_of b.1) made.now) }
{
    let mut places = Vec::new(alloc.clone()?);
    for of_function in made {
        places.push(places_of_block(alloc, &of_function.block)?)?;
    }
    Ok(places)
}
