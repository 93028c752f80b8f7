//! The uses of each output port, listed before a run.

ghost use Rattle.std.specs.Prelude.{◌≡◌, ◌++◌, ◌+◌, ◌<◌, ◌^◌, length, slice_get, option_copied, IfOk, OnOk};
ghost use Rattle.oracle.specs.Uses as Uses;

use crate::tokens::Spot;
use graph::{Block, Node};
use semantics::graph::Source;
use std::alloc::{AllocError, Allocator};
use std::marker::Model;

/// Of how many nodes of a block the uses are listed, at most.
const MOST: usize = 256;

/// A use of an output port of a node, and where what is sent there goes. A result has the spot `Out`, also in a turn of a loop.
#[derive(Clone, Copy, Debug)]
pub struct Use {
    pub port: u32,
    pub spot: Spot,
}

/// The uses of the ports of a node, in the order in which they are sent to.
#[derive(Drop)]
pub struct NodeUses<A: Allocator> {
    pub uses: Vec<Use, A>,
}

impl<A: Allocator> Model for NodeUses<A> {
    ghost use Rattle.std.specs.Prelude.{List};
    ghost use Rattle.oracle.specs.declared.uses.Use.{Use};

    ghost Value = { List Use };

    ghost view = { λ s. s.uses.items };
}

/// The uses of each of the first nodes of a block.
#[derive(Drop)]
pub struct BlockUses<A: Allocator> {
    pub nodes: Vec<NodeUses<A>, A>,
}

impl<A: Allocator> Model for BlockUses<A> {
    ghost use Rattle.std.specs.Prelude.{List};
    ghost use Rattle.oracle.specs.declared.uses.Use.{Use};

    ghost Value = { List (List Use) };

    ghost view = { λ s. s.nodes.items };
}

/// Adds a use for each of a node's operands that comes from a node.
fn list_operands<A: Allocator>(
    uses: &mut Vec<Use, A>,
    node: usize,
    at: usize,
    sources: &[Source],
) -> Result<(), AllocError>
    ensures { OnOk result (uses.new.items ≡ uses.old.items ++ Uses.operand_uses node at 0 sources.now) }
{
    for (position, source) in sources.iter().enumerate() {
        if source.node as usize == node {
            uses.push(Use {
                port: source.port,
                spot: Spot::Operand { node: at, position },
            })?;
        }
    }
    Ok(())
}

fn list_nodes<'a, A: Allocator>(
    uses: &mut Vec<Use, A>,
    node: usize,
    inputs: usize,
    nodes: &[Node<'a, A>],
) -> Result<(), AllocError>
    requires { inputs + length nodes.now < 2 ^ 64 }
    ensures { OnOk result (uses.new.items ≡ uses.old.items ++ Uses.node_uses node inputs nodes.now) }
{
    for (i, line) in nodes.iter().enumerate() {
        list_operands(uses, node, inputs + i, &line.sources)?;
    }
    Ok(())
}

/// Adds a use for each result that comes from a node.
fn list_results<A: Allocator>(
    uses: &mut Vec<Use, A>,
    node: usize,
    results: &[Source],
) -> Result<(), AllocError>
    ensures { OnOk result (uses.new.items ≡ uses.old.items ++ Uses.result_uses node 0 results.now) }
{
    for (number, source) in results.iter().enumerate() {
        if source.node as usize == node {
            uses.push(Use {
                port: source.port,
                spot: Spot::Out { number },
            })?;
        }
    }
    Ok(())
}

/// The uses of a node of a block.
fn uses_of_node<'a, A: Allocator>(
    alloc: A,
    block: &Block<'a, A>,
    node: usize,
) -> Result<NodeUses<A>, AllocError>
    ensures { IfOk result (λ u. u ≡ Uses.uses_in node block.now.1) }
{
    let mut uses = Vec::new(alloc);
    list_nodes(&mut uses, node, block.inputs as usize, &block.nodes)?;
    list_results(&mut uses, node, &block.results)?;
    Ok(NodeUses { uses })
}

/// The uses of the first nodes of a block.
fn uses_of_nodes<'a, A: Allocator + Clone>(
    alloc: A,
    block: &Block<'a, A>,
    count: usize,
) -> Result<BlockUses<A>, AllocError>
    ensures { IfOk result (λ u. u ≡ Uses.uses_from block.now.1 0 count) }
{
    let mut nodes = Vec::new(alloc.clone()?);
    for node in 0..count {
        let uses = uses_of_node(alloc.clone()?, block, node)?;
        nodes.push(uses)?;
    }
    Ok(BlockUses { nodes })
}

/// Of how many nodes the uses are listed: of those of a large block only the first ones.
fn listed_count<'a, A: Allocator>(block: &Block<'a, A>) -> usize
    ensures { result ≡ Uses.listed_count block.now.1 }
{
    let all = count_of(block.inputs as usize, &block.nodes);
    if all > MOST { MOST } else { all }
}

fn count_of<'a, A: Allocator>(inputs: usize, nodes: &[Node<'a, A>]) -> usize
    requires { inputs + length nodes.now < 2 ^ 64 }
    ensures { result ≡ inputs + length nodes.now }
{
    inputs + nodes.len()
}

/// The uses of the first nodes of each block.
pub fn list_uses<'a, A: Allocator + Clone>(
    alloc: A,
    blocks: &[Block<'a, A>],
) -> Result<Vec<BlockUses<A>, A>, AllocError>
    ensures { IfOk result (λ u. u.items ≡ Uses.listed_in blocks.now) }
{
    let mut uses = Vec::new(alloc.clone()?);
    for block in blocks {
        let count = listed_count(block);
        let nodes = uses_of_nodes(alloc.clone()?, block, count)?;
        uses.push(nodes)?;
    }
    Ok(uses)
}

/// The uses of a node of the block at that place, if they are listed.
#[inline(always)]
pub fn uses_at<'b, A: Allocator>(
    uses: &'b [BlockUses<A>],
    place: usize,
    node: usize,
) -> Option<&'b NodeUses<A>>
    ensures { option_copied result ≡ Uses.row_at (slice_get uses.now place) node }
{
    uses_among(uses.get(place)?, node)
}

#[inline(always)]
fn uses_among<'b, A: Allocator>(block: &'b BlockUses<A>, node: usize) -> Option<&'b NodeUses<A>>
    ensures { option_copied result ≡ slice_get block.now node }
{
    block.nodes.get(node)
}
