//! Which blocks have a loop variant, and the numbers of their code blocks.

ghost use Rattle.std.specs.Prelude.{◌≡◌, ◌+◌, ◌<◌, ◌≤◌, length, IfOk, if◌then◌else◌};
ghost use Rattle.schemas.specs.Variants as Variants;

use crate::flow::{Block, Node};
use semantics::graph::Kind;
use std::alloc::{AllocError, Allocator};

/// Whether a node is a loop over that block.
fn loops_to(kind: &Kind<u32>, block: u32) -> bool
    ensures { result ≡ Variants.loops_to block kind.now }
{
    match kind {
        Kind::Loop { block: other, .. } => *other == block,
        _ => false,
    }
}

/// Marks the block that a node loops over.
fn mark(looped: &mut [bool], kind: &Kind<u32>)
    ensures { Variants.Marks (λ k. Variants.loops_to k kind.now) looped.old looped.new }
{
    if let Kind::Loop { block, .. } = kind {
        let block = *block as usize;
        if block < looped.len() {
            looped[block] = true;
        }
    }
}

/// Marks the blocks that these nodes loop over.
fn mark_all<A: Allocator>(looped: &mut [bool], nodes: &[Node<A>])
    ensures { Variants.Marks (λ k. Variants.some_node_loops k nodes.now) looped.old looped.new }
{
    for node in nodes {
        mark(looped, &node.kind);
    }
}

/// Marks the blocks that the nodes of these blocks loop over.
fn mark_looped<A: Allocator>(looped: &mut [bool], blocks: &[Block<A>])
    ensures { Variants.Marks (λ k. Variants.some_block_loops k blocks.now) looped.old looped.new }
{
    for block in blocks {
        mark_all(looped, &block.nodes);
    }
}

/// Of each block whether some loop names it.
pub(crate) fn looped_of<A: Allocator>(
    alloc: A,
    blocks: &[Block<A>],
) -> Result<Vec<bool, A>, AllocError>
    ensures { IfOk result (λ v. Variants.AreLooped blocks.now v.items) }
{
    let mut looped = Vec::new(alloc);
    looped.resize(blocks.len(), false)?;
    mark_looped(&mut looped, blocks);
    Ok(looped)
}

/// The number after that of a block's loop variant, if it has one.
fn following(next: u16, looped: bool) -> u16
    requires { next < 65535 }
    ensures exact { result ≡ (if looped then next + 1 else next) }
    ensures few { result ≤ next + 1 }
{
    if looped { next + 1 } else { next }
}

/// For each block the number of its loop variant's code: they follow the plain code, in order of the blocks. A block that
/// no loop names has the number of the next one.
pub(crate) fn variants_of<A: Allocator>(
    alloc: A,
    blocks: &[Block<A>],
    looped: &[bool],
) -> Result<Vec<u16, A>, AllocError>
    requires few { length blocks.now ≤ 256 }
    requires looped { Variants.AreLooped blocks.now looped.now }
    ensures exact { IfOk result (λ v. v.items ≡ Variants.variants_of blocks.now) }
{
    let mut variants = Vec::with_capacity(alloc, blocks.len())?;
    let mut next = blocks.len() as u16;
    for looped in looped {
        variants.push(next)?;
        next = following(next, *looped);
    }
    Ok(variants)
}
