//! Slots for the holders of a plan: which choices are good, and a good choice.
//!
//! Two holders of a block may share a slot if all ports of one are after all ends of the other, or if they lie on
//! different sides of the switches of one mark (explicit token store: Papadopoulos and Culler, ISCA 1990).
#![tactic(auto)]

ghost use Rattle.std.specs.Prelude.{◌≡◌, ◌↔◌, IfOk, IfErr, IsTrue};
ghost use Rattle.semantics.specs.Sharing.{Good};
ghost use Rattle.slot_alloc.specs.Assigned.{IsAssigned, IsRefused};

mod blocks;
mod choices;
mod faults;
mod passes;
mod row;
mod rows;
mod table;

use blocks::{assign_block, check_block};
use code::{CodeBlock, Plan, Slots};
pub use faults::AssignFault;
use std::alloc::{AllocError, Allocator};

fn blocks_of<A: Allocator>(plan: &Plan<A>) -> &[CodeBlock<A>]
    ensures { result.now ≡ plan.now.program.blocks }
{
    &plan.program.blocks
}

/// Whether the slots are a good choice for the holders of a plan: one list for each block and one slot for each of its
/// holders, each slot below 512, and any two holders of a block in one slot may share it.
///
/// For a block with h holders, m marks and n arcs the time is that of (h + 2 m) n / 64 steps and of a look at each pair of
/// holders, and h (h + 2 m) bits are stored meanwhile.
pub fn check_slots<A: Allocator + Clone>(
    alloc: A,
    plan: &Plan<A>,
    slots: &Slots<A>,
) -> Result<bool, AllocError>
    ensures { IfOk result (λ yes. IsTrue yes ↔ Good plan.now slots.now) }
{
    if slots.len() != blocks_of(plan).len() {
        return Ok(false);
    }
    for (number, block) in blocks_of(plan).iter().enumerate() {
        let Some(list) = slots.block(number) else {
            return Ok(false);
        };
        if !check_block(alloc.clone()?, plan, number, block, list)? {
            return Ok(false);
        }
    }
    Ok(true)
}

/// A good choice of slots: each holder in turn, by number, has the least slot in which it may share with each earlier
/// holder.
///
/// `TooManySlots` names the first block in which a holder finds none of the 512 slots of a frame open: each of them has an
/// earlier holder that may not share with it.
pub fn assign<A: Allocator + Clone>(alloc: A, plan: &Plan<A>) -> Result<Slots<A>, AssignFault>
    ensures assigned { IfOk result (IsAssigned plan.now) }
    ensures refused { IfErr result (IsRefused plan.now) }
{
    let mut lists = Vec::with_capacity(alloc.clone()?, blocks_of(plan).len())?;
    for (number, block) in blocks_of(plan).iter().enumerate() {
        match assign_block(alloc.clone()?, plan, number, block) {
            Ok(list) => lists.push(list)?,
            Err(fault) => return Err(fault),
        }
    }
    Ok(Slots::of(lists))
}
