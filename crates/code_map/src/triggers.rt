//! Which conditionals have triggers that something takes.

ghost use Rattle.std.specs.Prelude.{◌≡◌, ℕ, length, map, IfOk};
ghost use Rattle.schemas.specs.Flows.{resolved_node, resolved_named};
ghost use Rattle.schemas.specs.Triggers as Triggers;

use graph::{Block, Node};
use graph_check::Checked;
use semantics::graph::{Kind, Region};
use std::alloc::{AllocError, Allocator};

/// Notes that the trigger of a region is taken.
fn note_region(triggers: &mut [bool], region: Region)
    ensures { triggers.new ≡ Triggers.with_region triggers.old region }
{
    if let Region::Arm { cond, side: _ } = region {
        let cond = cond as usize;
        if cond < triggers.len() {
            triggers[cond] = true;
        }
    }
}

/// Notes the trigger that a node takes, if it takes one.
fn note_node<'a, A: Allocator>(triggers: &mut [bool], checked: &Checked<'a, A>, node: &Node<'a, A>)
    ensures { triggers.new ≡ Triggers.with_node triggers.old (resolved_node checked.now node.now) }
{
    match &node.kind {
        Kind::Call { .. } | Kind::Loop { .. } => note_region(triggers, node.region),
        _ => {}
    }
}

fn note_nodes<'a, A: Allocator>(
    triggers: &mut [bool],
    checked: &Checked<'a, A>,
    nodes: &[Node<'a, A>],
)
    ensures { triggers.new ≡ Triggers.with_nodes triggers.old (map (resolved_node checked.now) nodes.now) }
{
    for node in nodes {
        note_node(triggers, checked, node);
    }
}

/// For each node of a block, of which there are so many, whether it is a conditional in one of whose arms some node takes the
/// trigger.
pub(crate) fn triggers_of<'a, A: Allocator>(
    alloc: A,
    checked: &Checked<'a, A>,
    block: &Block<'a, A>,
    count: usize,
) -> Result<Vec<bool, A>, AllocError>
    ensures { IfOk result (λ v. v.items ≡ Triggers.triggers_of (resolved_named checked.now block.now) count) }
{
    let mut triggers = vec![in alloc; false; count]?;
    note_nodes(&mut triggers, checked, &block.nodes);
    Ok(triggers)
}

/// Whether some node takes the trigger of an arm of that conditional.
pub(crate) fn has_trigger(triggers: &[bool], cond: u32) -> bool
    ensures { result ≡ Triggers.has_trigger triggers.now cond }
{
    match triggers.get(cond as usize) {
        Some(taken) => *taken,
        None => false,
    }
}
