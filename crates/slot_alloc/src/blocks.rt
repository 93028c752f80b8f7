//! The slots of one block.

ghost use Rattle.std.specs.Prelude.{◌≡◌, ◌<◌, ◌↔◌, length, Some, IfOk, IfErr, IsTrue, slice_get};
ghost use Rattle.semantics.specs.Sharing.{IsGoodBlock};
ghost use Rattle.slot_alloc.specs.Tables.{IsFilled};
ghost use Rattle.slot_alloc.specs.Assigned.{IsBlockAssigned, IsBlockRefused, IsFillRefused};

use crate::faults::AssignFault;
use crate::table::Table;
use code::{CodeBlock, Plan};
use std::alloc::{AllocError, Allocator};

/// Whether the holders of a block may lie in such slots.
pub(crate) fn check_block<A: Allocator + Clone>(
    alloc: A,
    plan: &Plan<A>,
    number: usize,
    block: &CodeBlock<A>,
    slots: &[u16],
) -> Result<bool, AllocError>
    requires { slice_get plan.now.program.blocks number ≡ Some block.now }
    ensures { IfOk result (λ yes. IsTrue yes ↔ IsGoodBlock plan.now number block.now slots.now) }
{
    if slots.len() != block.slots as usize {
        return Ok(false);
    }
    let table = Table::of(alloc, plan, block, plan.marks_of(number))?;
    Ok(table.admits(slots))
}

/// Gives each of the `holders` holders of a block the least slot that is open to it.
fn fill<A: Allocator>(
    alloc: A,
    table: &Table<A>,
    number: usize,
    holders: u32,
) -> Result<Vec<u16, A>, AssignFault>
    ensures filled { IfOk result (λ v. IsFilled table.now v.items) }
    ensures all { IfOk result (λ v. length v.items ≡ holders) }
    ensures refused { IfErr result (IsFillRefused table.now number holders) }
{
    let mut slots = Vec::with_capacity(alloc, holders as usize)?;
    for _holder in 0..holders {
        match table.least_open(&slots) {
            Some(slot) => slots.push(slot)?,
            None => {
                return Err(AssignFault::TooManySlots {
                    block: number as u64,
                });
            }
        }
    }
    Ok(slots)
}

/// Gives each holder of a block the least slot that is open to it.
pub(crate) fn assign_block<A: Allocator + Clone>(
    alloc: A,
    plan: &Plan<A>,
    number: usize,
    block: &CodeBlock<A>,
) -> Result<Vec<u16, A>, AssignFault>
    requires { slice_get plan.now.program.blocks number ≡ Some block.now }
    ensures assigned { IfOk result (λ v. IsBlockAssigned plan.now number block.now v.items) }
    ensures refused { IfErr result (IsBlockRefused plan.now number block.now) }
{
    let table = Table::of(alloc.clone()?, plan, block, plan.marks_of(number))?;
    match fill(alloc, &table, number, block.slots) {
        Ok(slots) => Ok(slots),
        Err(fault) => Err(fault),
    }
}
