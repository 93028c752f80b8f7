//! All slots of all frames.

ghost use Rattle.std.specs.Prelude.{◌≡◌, ◌+◌, ◌*◌, ◌^◌, ◌≤◌, ◌<◌, length, IfOk, slice_index_or};
ghost use Rattle.std.specs.Borrow.{sem};
ghost use Rattle.frame_store.specs.Slots.{all_empty, bank_size, place_of, SlotsStandApart};

use crate::bank::Banks;
use crate::frame::FrameMut;
use crate::slot::Slot;
use crate::store_bank::StoreBank;
use std::alloc::{AllocError, Allocator};
use std::marker::Model;

/// The slots of all frames of all elements in one vector, bank by bank and frame by frame.
#[derive(Drop)]
pub struct Store<A: Allocator> {
    elements: usize,
    frames: usize,
    width: usize,
    slots: Vec<Slot, A>,
}

impl<A: Allocator> Model for Store<A> {
    ghost use Rattle.std.specs.Prelude.{◌≡◌, ◌*◌, ◌<◌, length};
    ghost use Rattle.frame_store.specs.Slots.{Slots};

    ghost Value = { Slots };

    ghost view = { λ s. record { elements = s.elements; frames = s.frames; width = s.width; states = s.slots.items } };

    ghost invariant = { λ s. (length s.slots.items ≡ s.elements * (s.frames * s.width)) × (0 < s.frames * s.width) };
}

impl<A: Allocator> Store<A> {
    ghost use Rattle.frame_store.specs.Lends.{LendsSlotAt};
    ghost use Rattle.frame_store.specs.Banked.{remaining_of, size_of};

    /// Slots that are all empty, for the given numbers of elements, frames an element and slots a frame.
    pub fn new(
        alloc: A,
        elements: usize,
        frames: usize,
        slots: usize,
    ) -> Result<Store<A>, AllocError>
        requires some { 0 < frames * slots }
        requires fits { elements * (frames * slots) < 2 ^ 32 }
        requires bank { frames * slots < 2 ^ 32 }
        ensures { IfOk result (λ s. s ≡ all_empty elements frames slots) }
    {
        let count = elements * (frames * slots);
        let mut all = Vec::with_capacity(alloc, count)?;
        for _ in 0..count {
            all.push(Slot::empty())?;
        }
        Ok(Store {
            elements,
            frames,
            width: slots,
            slots: all,
        })
    }

    /// How many elements, and so how many banks there are.
    pub fn elements(&self) -> usize
        ensures { result ≡ self.now.elements }
    {
        self.elements
    }

    /// How many frames each bank has.
    pub fn frames(&self) -> usize
        ensures { result ≡ self.now.frames }
    {
        self.frames
    }

    /// How many slots each frame has.
    pub fn width(&self) -> usize
        ensures { result ≡ self.now.width }
    {
        self.width
    }

    /// The bank of an element. What is changed in it is changed in the store.
    pub fn bank(&mut self, element: usize) -> StoreBank<'_, A>
        requires { element < self.old.elements }
        ensures same_reference { result.store.ghost_name ≡ self.entry.ghost_name }
        ensures value { result.store.now ≡ self.old }
        ensures element { result.element ≡ element }
    {
        StoreBank::new(self, element)
    }

    /// A slot of a frame of an element. What it is set to is in the store, and every other slot of every frame stays.
    pub fn slot(&mut self, element: usize, frame: usize, slot: usize) -> &mut Slot
        requires element { element < self.old.elements }
        requires frame { frame < self.old.frames }
        requires slot { slot < self.old.width }
        ensures* lends { sem 𝓛 (LendsSlotAt A.row A.Allocator self.entry (place_of self.old element frame slot) result) }
        ensures value { result.now ≡ slice_index_or self.old.states (place_of self.old element frame slot) result.now }
        ensures there { place_of self.old element frame slot < length self.old.states }
    {
        let place = element * (self.frames * self.width) + (frame * self.width + slot);
        &mut self.slots[place]
    }

    /// A frame of an element. What is changed in it is changed in the store.
    pub fn frame(&mut self, element: usize, frame: usize) -> FrameMut<'_, A>
        ensures same_reference { result.store.ghost_name ≡ self.entry.ghost_name }
        ensures value { result.store.now ≡ self.old }
        ensures element { result.element ≡ element }
        ensures frame { result.frame ≡ frame }
    {
        FrameMut::new(self, element, frame)
    }

    /// Lends each bank once, all separate from one another.
    pub fn banks(&mut self) -> Banks<'_>
        requires { 0 < self.old.elements }
        ensures left { remaining_of result ≡ self.old.states }
        ensures size { size_of result ≡ bank_size self.old }
        ensures some { 0 < size_of result }
        ensures frames { result.frames ≡ self.old.frames }
        ensures width { result.width ≡ self.old.width }
    {
        let frames = self.frames;
        let width = self.width;
        Banks::new(self.slots.as_mut_slice(), frames, width)
    }
}

/// No two slots are at one place: a slot that is set has its new state, and every other slot of every frame of every
/// element has the state that it had.
pub fn slots_stand_apart()
    ensures { SlotsStandApart }
{}
