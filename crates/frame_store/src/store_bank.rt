//! A bank that is lent out of the store.

ghost use Rattle.std.specs.Prelude.{◌≡◌, ◌<◌, length, slice_index_or};
ghost use Rattle.std.specs.Borrow.{sem};
ghost use Rattle.frame_store.specs.Slots.{place_of};

use crate::frame::FrameMut;
use crate::slot::Slot;
use crate::store::Store;
use std::alloc::Allocator;

/// The bank of an element, lent out of the store: its frames and their slots.
#[derive(Drop)]
pub struct StoreBank<'a, A: Allocator> {
    store: &'a mut Store<A>,
    element: usize,
}

impl<'a, A: Allocator> StoreBank<'a, A> {
    ghost use Rattle.frame_store.specs.LendsBanks.{LendsSlotIn};

    pub(crate) fn new(store: &'a mut Store<A>, element: usize) -> StoreBank<'a, A>
        ensures same_reference { result.store.ghost_name ≡ store.entry.ghost_name }
        ensures value { result.store.now ≡ store.old }
        ensures element { result.element ≡ element }
    {
        StoreBank { store, element }
    }

    /// How many frames the bank has.
    pub fn frames(&self) -> usize
        ensures { result ≡ self.now.store.now.frames }
    {
        self.store.frames()
    }

    /// How many slots a frame has.
    pub fn width(&self) -> usize
        ensures { result ≡ self.now.store.now.width }
    {
        self.store.width()
    }

    /// Turns the bank into one of its frames. What is changed in the frame is changed in the store.
    pub fn frame(self, frame: usize) -> FrameMut<'a, A>
        ensures same_reference { result.store.ghost_name ≡ self.entry.store.ghost_name }
        ensures value { result.store.now ≡ self.entry.store.now }
        ensures element { result.element ≡ self.entry.element }
        ensures frame { result.frame ≡ frame }
    {
        let element = self.element;
        FrameMut::new(self.store, element, frame)
    }

    /// A slot of a frame of the bank. The state that it is left in is in the store, and every other slot of every frame
    /// of every element stays as it is.
    pub fn slot(&mut self, frame: usize, slot: usize) -> &mut Slot
        requires element { self.old.element < self.old.store.now.elements }
        requires frame { frame < self.old.store.now.frames }
        requires slot { slot < self.old.store.now.width }
        ensures* lends { sem 𝓛 (LendsSlotIn A.row A.Allocator self.entry (place_of self.old.store.now self.old.element frame slot) result) }
        ensures value { result.now ≡ slice_index_or self.old.store.now.states (place_of self.old.store.now self.old.element frame slot) result.now }
        ensures there { place_of self.old.store.now self.old.element frame slot < length self.old.store.now.states }
    {
        let element = self.element;
        self.store.slot(element, frame, slot)
    }
}
