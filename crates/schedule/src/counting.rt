//! What lanes hold, counted and listed for a report.

ghost use Rattle.std.specs.Prelude.{◌≡◌, ◌*◌, ◌<◌, ◌≤◌, length, map, IfOk, OnOk, ◌++◌, Some};
ghost use Rattle.semantics.specs.Report.{sum_below, waiters};
ghost use Rattle.element.specs.Holding.{held_of};
ghost use Rattle.schedule.specs.Reported.{cell_readers, entry, full_below, slot_of_lane, requests_in, out_in};

use element::instructions::Instructions;
use element::lane::Lane;
use frame_manager::Manager;
use std::alloc::{AllocError, Allocator};
use tags::slot::SlotState;
use tags::value::Value;

// Lists a cell where it is full.
fn list_full<A: Allocator>(
    full: &mut Vec<(u32, Value), A>,
    cell: u32,
    value: Option<Value>,
) -> Result<(), AllocError>
    ensures { OnOk result (full.new.items ≡ full.old.items ++ entry cell value) }
{
    if let Some(value) = value {
        full.push((cell, value))?;
    }
    Ok(())
}

/// The full ones of the first `cells` cells with their values, in order.
pub fn full_cells<C: Instructions, A: Allocator>(
    alloc: A,
    lanes: &[Lane<'_, C, A>],
    elements: u32,
    cells: u32,
) -> Result<Vec<(u32, Value), A>, AllocError>
    requires some { 0 < elements }
    requires count { length lanes.now ≡ elements }
    ensures { IfOk result (λ list. list.items ≡ full_below elements (map held_of lanes.now) cells) }
{
    let mut full = Vec::new(alloc);
    for cell in 0..cells {
        let lane = &lanes[(cell % elements) as usize];
        list_full(&mut full, cell, lane.cells().value(cell))?;
    }
    Ok(full)
}

/// How many readers wait in the first `cells` cells. More than a number of 64 bits counts are refused like a growth.
pub fn deferred<C: Instructions, A: Allocator>(
    lanes: &[Lane<'_, C, A>],
    elements: u32,
    cells: u32,
) -> Result<u64, AllocError>
    requires some { 0 < elements }
    requires count { length lanes.now ≡ elements }
    ensures { IfOk result (λ n. n ≡ sum_below cells (λ x. cell_readers elements (map held_of lanes.now) x)) }
{
    let mut count: u64 = 0;
    for cell in 0..cells {
        let lane = &lanes[(cell % elements) as usize];
        let Some(more) = count.checked_add(lane.cells().readers(cell) as u64) else {
            return Err(AllocError);
        };
        count = more;
    }
    Ok(count)
}

fn waits(state: SlotState) -> u64
    ensures exact { result ≡ waiters state }
    ensures few { result ≤ 1 }
{
    match state {
        SlotState::Waiter(_) => 1,
        _ => 0,
    }
}

/// How many requests for credits wait in the first slots of a frame that lies on the lane.
pub fn credits_in<C: Instructions, A: Allocator>(
    lane: &Lane<'_, C, A>,
    frame: u32,
    width: u32,
) -> u64
    requires frame { frame < lane.now.held.part.shape.elements * lane.now.held.part.shape.frames }
    requires width { width ≤ lane.now.held.part.shape.width }
    ensures exact { result ≡ sum_below width (λ r. waiters (slot_of_lane frame r (Some (held_of lane.now)))) }
    ensures few { result ≤ width }
{
    let mut count = 0;
    for slot in 0..width {
        count += waits(lane.slot_state(frame, slot));
    }
    count
}

/// How many requests for frames wait.
pub fn requests<A: Allocator>(manager: &Option<Manager<A>>) -> u64
    ensures { result ≡ requests_in manager.now }
{
    match manager {
        Some(manager) => manager.waiting() as u64,
        None => 0,
    }
}

/// How many frames are out.
pub fn frames_out<A: Allocator>(manager: &Option<Manager<A>>) -> u64
    ensures { result ≡ out_in manager.now }
{
    match manager {
        Some(manager) => u64::from(manager.out()),
        None => 0,
    }
}
