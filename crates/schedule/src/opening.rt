//! The lanes before the first event.

ghost use Rattle.std.specs.Prelude.{◌≡◌, ◌+◌, ◌*◌, ◌^◌, ◌<◌, ◌≤◌, IfOk, Some, All, length, map};
ghost use Rattle.tags.specs.declared.slot.SlotState.TheVariants.{Empty};
ghost use Rattle.frame_manager.specs.Managed.{at_first};
ghost use Rattle.frame_store.specs.BankViews.{bank_states};
ghost use Rattle.frame_store.specs.Slots.{all_empty};
ghost use Rattle.element.specs.Holding.{held_of, fixed_of};
ghost use Rattle.schedule.specs.State.{AllFrom, RunsAs};
ghost use Rattle.schedule.specs.Starts.{IsFresh, sized};

use crate::main_code::MainCode;
use element::lane::Lane;
use frame_manager::Manager;
use frame_store::bank::BankMut;
use frame_store::store::Store;
use istructure::Cells;
use std::alloc::{AllocError, Allocator};

// The frame manager of `frames` frames, on element 0.
fn manager_at<A: Allocator>(
    alloc: A,
    element: u32,
    frames: u32,
) -> Result<Option<Manager<A>>, AllocError>
where
    A: Clone,
    requires { 0 < frames }
    ensures { IfOk result (λ manager. element ≡ 0 → manager ≡ Some (at_first frames)) }
{
    if element == 0 {
        Ok(Some(Manager::new(alloc, frames)?))
    } else {
        Ok(None)
    }
}

// The lane of an element before the first event.
fn lane_at<'m, C: MainCode, A: Allocator>(
    alloc: A,
    element: u32,
    elements: u32,
    bank: BankMut<'m>,
    code: &'m C,
    steps: u64,
) -> Result<Lane<'m, C, A>, AllocError>
where
    A: Clone,
    requires there { element < elements }
    requires few { elements ≤ 16 }
    requires some_frames { 0 < bank.frames }
    requires few_frames { bank.frames ≤ 1024 }
    requires bank { bank.start + bank.frames * bank.width ≤ length (bank_states bank) }
    requires empty { All (λ s. s ≡ Empty) (bank_states bank) }
    requires slots { C.width code.now ≤ bank.width }
    requires steps { steps < 2 ^ 63 }
    ensures fresh { IfOk result (λ lane. IsFresh (sized (C.program code.now) elements bank.entry.frames bank.entry.width 0) element (held_of lane)) }
    ensures runs { IfOk result (λ lane. RunsAs (sized (C.program code.now) elements bank.entry.frames bank.entry.width steps) (fixed_of lane)) }
{
    let cells = Cells::new(alloc.clone()?, code.cells(), element, elements)?;
    let manager = manager_at(alloc.clone()?, element, elements * bank.frames() as u32)?;
    Lane::new(
        alloc,
        code,
        steps,
        element,
        elements,
        bank,
        cells,
        manager,
        code.outputs(),
    )
}

/// The lanes of all elements before the first event.
pub fn fresh_lanes<'m, C: MainCode, A: Allocator>(
    alloc: A,
    store: &'m mut Store<A>,
    code: &'m C,
    steps: u64,
) -> Result<Vec<Lane<'m, C, A>, A>, AllocError>
where
    A: Clone,
    requires some { 0 < store.old.elements }
    requires few { store.old.elements ≤ 16 }
    requires some_frames { 0 < store.old.frames }
    requires few_frames { store.old.frames ≤ 1024 }
    requires empty { store.old ≡ all_empty store.old.elements store.old.frames store.old.width }
    requires some_slots { 0 < store.old.width }
    requires few_slots { store.old.width ≤ 512 }
    requires slots { C.width code.now ≤ store.old.width }
    requires steps { steps < 2 ^ 63 }
    ensures count { IfOk result (λ lanes. length lanes.items ≡ store.old.elements) }
    ensures fresh { IfOk result (λ lanes. AllFrom (IsFresh (sized (C.program code.now) store.old.elements store.old.frames store.old.width 0)) 0
        (map held_of lanes.items)) }
    ensures runs { IfOk result (λ lanes. All (RunsAs (sized (C.program code.now) store.old.elements store.old.frames store.old.width steps))
        (map fixed_of lanes.items)) }
{
    let elements = store.elements() as u32;
    let mut lanes = Vec::with_capacity(alloc.clone()?, elements as usize)?;
    let mut banks = store.banks();
    for element in 0..elements {
        let Some(bank) = banks.next() else {
            unreachable!()
        };
        let lane = lane_at(alloc.clone()?, element, elements, bank, code, steps)?;
        lanes.push(lane)?;
    }
    Ok(lanes)
}
