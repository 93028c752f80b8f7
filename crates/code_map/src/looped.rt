//! Which blocks some loop names.

ghost use Rattle.std.specs.Prelude.{◌≡◌, length, map, IfOk};
ghost use Rattle.semantics.specs.Graph.{flow_of};
ghost use Rattle.schemas.specs.Flows.{resolved_node, resolved_named};
ghost use Rattle.schemas.specs.Variants as Variants;

use graph::{Block, Node};
use graph_check::Checked;
use semantics::graph::Kind;
use std::alloc::{AllocError, Allocator};

/// Marks the block that a node loops over.
fn mark<'a, A: Allocator>(looped: &mut [bool], checked: &Checked<'a, A>, node: &Node<'a, A>)
    ensures { Variants.Marks (λ k. Variants.loops_to k (resolved_node checked.now node.now).kind) looped.old looped.new }
{
    if let Kind::Loop { block, .. } = &node.kind {
        let block = checked.place_of_block(block);
        if block < looped.len() {
            looped[block] = true;
        }
    }
}

/// Marks the blocks that these nodes loop over.
fn mark_all<'a, A: Allocator>(looped: &mut [bool], checked: &Checked<'a, A>, nodes: &[Node<'a, A>])
    ensures { Variants.Marks (λ k. Variants.some_node_loops k (map (resolved_node checked.now) nodes.now)) looped.old looped.new }
{
    for node in nodes {
        mark(looped, checked, node);
    }
}

/// Marks the blocks that the nodes of these blocks loop over.
fn mark_looped<'a, A: Allocator>(
    looped: &mut [bool],
    checked: &Checked<'a, A>,
    blocks: &[Block<'a, A>],
)
    ensures { Variants.Marks (λ k. Variants.some_block_loops k (map (resolved_named checked.now) blocks.now)) looped.old looped.new }
{
    for block in blocks {
        mark_all(looped, checked, &block.nodes);
    }
}

/// Of each block whether some loop names it.
pub(crate) fn looped_of<'a, A: Allocator>(
    alloc: A,
    checked: &Checked<'a, A>,
) -> Result<Vec<bool, A>, AllocError>
    ensures { IfOk result (λ v. Variants.AreLooped (flow_of checked.now).blocks v.items) }
{
    let graph = checked.graph();
    let mut looped = Vec::new(alloc);
    looped.resize(graph.blocks.len(), false)?;
    mark_looped(&mut looped, checked, &graph.blocks);
    Ok(looped)
}
