//! Which conditionals have triggers that something takes.

ghost use Rattle.std.specs.Prelude.{◌≡◌, ℕ, length, replicate, IfOk, true, false};
ghost use Rattle.schemas.specs.Triggers as Triggers;

use crate::flow::{Block, Node};
use semantics::graph::{Kind, Region};
use std::alloc::{AllocError, Allocator};

/// Whether a node takes the trigger of its region: a call asks for its frame by it, and a loop opens by it. A strict call
/// asks for its frame by its arguments, and a conditional gives triggers of its own by its source.
fn takes_trigger(kind: &Kind<u32>) -> bool
    ensures { result ≡ Triggers.takes_trigger kind.now }
{
    matches!(kind, Kind::Call { .. } | Kind::Loop { .. })
}

/// Notes that the trigger of a region is taken.
fn note_region(triggers: &mut [bool], region: Region)
    ensures { triggers.new ≡ Triggers.with_region triggers.old region }
{
    if let Region::Arm { cond, side: _ } = region {
        let cond = cond as usize;
        if cond < triggers.len() {
            triggers[cond] = true;
        }
    }
}

fn note_nodes<A: Allocator>(triggers: &mut [bool], nodes: &[Node<A>])
    ensures { triggers.new ≡ Triggers.with_nodes triggers.old nodes.now }
{
    for node in nodes {
        if takes_trigger(&node.kind) {
            note_region(triggers, node.region);
        }
    }
}

/// For each node of a block whether it is a conditional in one of whose arms some node takes the trigger: a call or a loop
/// that lies directly in the arm.
pub(crate) fn triggers_of<A: Allocator>(
    alloc: A,
    block: &Block<A>,
    nodes: usize,
) -> Result<Vec<bool, A>, AllocError>
    ensures { IfOk result (λ v. v.items ≡ Triggers.triggers_of block.now nodes) }
{
    let mut triggers = vec![in alloc; false; nodes]?;
    note_nodes(&mut triggers, &block.nodes);
    Ok(triggers)
}

/// Whether some node takes the trigger of an arm of that conditional.
pub(crate) fn has_trigger(triggers: &[bool], cond: u32) -> bool
    ensures { result ≡ Triggers.has_trigger triggers.now cond }
{
    match triggers.get(cond as usize) {
        Some(taken) => *taken,
        None => false,
    }
}
