//! The slots of all frames.

ghost use Rattle.std.specs.Prelude.{◌≡◌, ℕ, ◌+◌, ◌-◌, OnOk, IfOk};
ghost use Rattle.tags.specs.declared.slot.SlotState.TheVariants.{Empty};
ghost use Rattle.semantics.specs.Machine.{put_at};
ghost use Rattle.replay.specs.Moments.{fullness};
ghost use Rattle.replay.specs.Known.{held};

use std::alloc::{AllocError, Allocator};
use std::collections::HashMap;
use std::hash::{BuildHasherDefault, FoldHasher};
use tags::slot::SlotState;
use tags::token::FrameId;

/// A slot of a frame.
#[derive(Clone, Copy, Debug, PartialEq, Eq, Hash)]
pub struct Place {
    pub frame: FrameId,
    pub slot: u32,
}

/// The states of the slots that are not empty, and how many these are.
#[derive(Drop)]
pub struct Slots<A: Allocator> {
    states: HashMap<Place, SlotState, BuildHasherDefault<FoldHasher>, A>,
    pub full: u64,
}

// 1 for a slot that is not empty.
fn fullness(state: &SlotState) -> u64
    ensures { result ≡ fullness state.now }
{
    match *state {
        SlotState::Empty => 0,
        _ => 1,
    }
}

impl<A: Allocator> Slots<A> {
    /// All are empty.
    pub fn new(alloc: A) -> Slots<A>
        ensures empty { (f r : ℕ) → held result f r ≡ Empty }
        ensures none { result.full ≡ 0 }
    {
        Slots {
            states: HashMap::new(alloc),
            full: 0,
        }
    }

    pub fn state(&self, frame: FrameId, slot: u32) -> SlotState
        ensures { result ≡ held self.now frame slot }
    {
        match self.states.get(&Place { frame, slot }) {
            Some(state) => *state,
            None => SlotState::Empty,
        }
    }

    // The slot has this state then. The number of full slots stays as it was.
    fn put(&mut self, frame: FrameId, slot: u32, state: SlotState) -> Result<(), AllocError>
    where
        A: Clone,
        ensures put { OnOk result ((f r : ℕ) → held self.new f r ≡ put_at (held self.old) frame (put_at (held self.old frame) slot state) f r) }
        ensures full { self.new.full ≡ self.old.full }
    {
        match state {
            SlotState::Empty => {
                self.states.remove(&Place { frame, slot });
            }
            _ => {
                self.states.insert(Place { frame, slot }, state)?;
            }
        }
        Ok(())
    }

    /// The slot has this state then. An error is that memory was refused, or that too many are full to be counted.
    pub fn set(&mut self, frame: FrameId, slot: u32, state: SlotState) -> Result<(), AllocError>
    where
        A: Clone,
        ensures put { OnOk result ((f r : ℕ) → held self.new f r ≡ put_at (held self.old) frame (put_at (held self.old frame) slot state) f r) }
        ensures full { OnOk result (self.new.full ≡ self.old.full + fullness state - fullness (held self.old frame slot)) }
    {
        let before = fullness(&self.state(frame, slot));
        let Some(full) = self.full.checked_add(fullness(&state)) else {
            return Err(AllocError);
        };
        self.put(frame, slot, state)?;
        self.full = full.saturating_sub(before);
        Ok(())
    }
}
