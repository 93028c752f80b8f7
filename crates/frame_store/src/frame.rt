//! Frames and slots that are lent.

ghost use Rattle.std.specs.Prelude.{◌≡◌, ◌<◌, ◌↔◌, length, slice_index_or, IsSome, IfSome};
ghost use Rattle.std.specs.Borrow.{sem};
ghost use Rattle.frame_store.specs.LendsSlots.{LendsSlot};
ghost use Rattle.frame_store.specs.Slots.{place_of};

use crate::slot::Slot;
use crate::store::Store;
use std::alloc::Allocator;

/// Slots of which one can be lent.
pub trait LendSlot<'a> {
    /// The slot of this number, if it is there. The state that it is left in is among the slots afterwards, and each other
    /// slot stays as it is.
    fn slot(self, number: usize) -> Option<&'a mut Slot>;
}

impl<'a> LendSlot<'a> for &'a mut [Slot] {
    fn slot(self, number: usize) -> Option<&'a mut Slot>
        ensures* lends { sem 𝓛 (LendsSlot self.entry number result) }
        ensures there { IsSome result ↔ (number < length self.old) }
        ensures value { IfSome result (λ x. x.now ≡ slice_index_or self.old number x.now) }
    {
        if number < self.len() {
            Some(&mut self[number])
        } else {
            None
        }
    }
}

/// A frame of an element, lent out of the store.
#[derive(Drop)]
pub struct FrameMut<'a, A: Allocator> {
    store: &'a mut Store<A>,
    element: usize,
    frame: usize,
}

impl<'a, A: Allocator> FrameMut<'a, A> {
    ghost use Rattle.frame_store.specs.LendsFrames.{LendsSlotOf};

    pub(crate) fn new(store: &'a mut Store<A>, element: usize, frame: usize) -> FrameMut<'a, A>
        ensures same_reference { result.store.ghost_name ≡ store.entry.ghost_name }
        ensures value { result.store.now ≡ store.old }
        ensures element { result.element ≡ element }
        ensures frame { result.frame ≡ frame }
    {
        FrameMut {
            store,
            element,
            frame,
        }
    }

    /// Turns the frame into one of its slots. The state that the slot is left in is in the store, and every other slot of
    /// every frame of every element stays as it is.
    pub fn slot(self, slot: usize) -> &'a mut Slot
        requires element { self.element < self.store.now.elements }
        requires frame { self.frame < self.store.now.frames }
        requires slot { slot < self.store.now.width }
        ensures* lends { sem 𝓛 (LendsSlotOf A.row A.Allocator self.entry (place_of self.entry.store.now self.entry.element self.entry.frame slot) result) }
        ensures value { result.now ≡ slice_index_or self.entry.store.now.states (place_of self.entry.store.now self.entry.element self.entry.frame
            slot) result.now }
        ensures there { place_of self.entry.store.now self.entry.element self.entry.frame slot < length self.entry.store.now.states }
    {
        let element = self.element;
        let frame = self.frame;
        let store = self.store;
        store.slot(element, frame, slot)
    }
}
