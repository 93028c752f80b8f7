//! Banks of slots that are lent.

ghost use Rattle.std.specs.Prelude.{◌≡◌, ◌+◌, ◌*◌, ◌≤◌, ◌<◌, length, true, false, slice_index_or, slice_set};
ghost use Rattle.frame_store.specs.BankViews.{bank_name, bank_states, IsBank, place_in, SameBank};

use crate::slot::Slot;
use std::slice;
use tags::slot::SlotState;

/// The slots of the frames of one element: a number of frames of `width` slots each, from some place of the slice on.
#[derive(Drop)]
pub struct BankMut<'a> {
    /// The slots after the bank. A function over `&mut [Slot]` lends one by `slots.slot(place)`, and a caller that passes
    /// `&mut *bank.slots` knows the bank afterwards.
    pub slots: &'a mut [Slot],
    start: usize,
    frames: usize,
    width: usize,
}

impl<'a> BankMut<'a> {
    pub(crate) fn new(
        slots: &'a mut [Slot],
        start: usize,
        frames: usize,
        width: usize,
    ) -> BankMut<'a>
        ensures same_reference { bank_name result ≡ slots.entry.ghost_name }
        ensures value { bank_states result ≡ slots.old }
        ensures start { result.start ≡ start }
        ensures frames { result.frames ≡ frames }
        ensures width { result.width ≡ width }
    {
        BankMut {
            slots,
            start,
            frames,
            width,
        }
    }

    /// How many frames the bank has.
    pub fn frames(&self) -> usize
        ensures { result ≡ self.now.frames }
    {
        self.frames
    }

    /// How many slots a frame has.
    pub fn width(&self) -> usize
        ensures { result ≡ self.now.width }
    {
        self.width
    }

    /// Whether the bank has this slot of this frame: the test for `state` and `set`.
    pub fn holds(&self, frame: usize, slot: usize) -> bool
        ensures yes { result ≡ true → IsBank self.now × (frame < self.now.frames) × (slot < self.now.width) }
        ensures no { result ≡ false → IsBank self.now → frame < self.now.frames → slot < self.now.width → ⊥ }
    {
        let slots = &*self.slots;
        frame < self.frames
            && slot < self.width
            && self.start <= slots.len()
            && self.frames <= (slots.len() - self.start) / self.width
    }

    /// Where a slot of a frame is among the slots after the bank.
    #[inline(always)]
    pub fn place(&self, frame: usize, slot: usize) -> usize
        requires bank { IsBank self.now }
        requires frame { frame < self.now.frames }
        requires slot { slot < self.now.width }
        ensures exact { result ≡ place_in self.now frame slot }
        ensures within { result < length (bank_states self.now) }
    {
        let _ = self.slots.len();
        self.start + (frame * self.width + slot)
    }

    /// The state of a slot of a frame.
    #[inline(always)]
    pub fn state(&self, frame: usize, slot: usize) -> SlotState
        requires bank { IsBank self.now }
        requires frame { frame < self.now.frames }
        requires slot { slot < self.now.width }
        ensures { result ≡ slice_index_or (bank_states self.now) (place_in self.now frame slot) result }
    {
        let place = self.place(frame, slot);
        let slots = &*self.slots;
        slots[place].state()
    }

    /// A slot of a frame, as it lies there.
    #[inline(always)]
    pub fn slot(&self, frame: usize, slot: usize) -> Slot
        requires bank { IsBank self.now }
        requires frame { frame < self.now.frames }
        requires slot { slot < self.now.width }
        ensures { result ≡ slice_index_or (bank_states self.now) (place_in self.now frame slot) result }
    {
        let place = self.place(frame, slot);
        let slots = &*self.slots;
        slots[place]
    }

    /// Puts a slot in place of one, and of no other.
    #[inline(always)]
    pub fn put(&mut self, frame: usize, slot: usize, held: Slot)
        requires bank { IsBank self.old }
        requires frame { frame < self.old.frames }
        requires slot { slot < self.old.width }
        ensures after { bank_states self.new ≡ slice_set (bank_states self.old) (place_in self.old frame slot) held }
        ensures same { SameBank self.old self.new }
    {
        let place = self.place(frame, slot);
        self.slots[place] = held;
    }

    /// Changes the state of one slot, and of no other.
    #[inline(always)]
    pub fn set(&mut self, frame: usize, slot: usize, state: SlotState)
        requires bank { IsBank self.old }
        requires frame { frame < self.old.frames }
        requires slot { slot < self.old.width }
        ensures after { bank_states self.new ≡ slice_set (bank_states self.old) (place_in self.old frame slot) state }
        ensures same { SameBank self.old self.new }
    {
        let place = self.place(frame, slot);
        let held = &mut self.slots[place];
        held.set(state);
    }
}

/// Lends each bank of a store once.
#[derive(Drop)]
pub struct Banks<'a> {
    chunks: slice::ChunksExactMut<'a, Slot>,
    frames: usize,
    width: usize,
}

impl<'a> Banks<'a> {
    ghost use Rattle.frame_store.specs.Banked.{remaining_of, size_of};

    pub(crate) fn new(slots: &'a mut [Slot], frames: usize, width: usize) -> Banks<'a>
        requires some { 0 < frames * width }
        requires fits { frames * width ≤ length slots.old }
        ensures left { remaining_of result ≡ slots.old }
        ensures size { size_of result ≡ frames * width }
        ensures frames { result.frames ≡ frames }
        ensures width { result.width ≡ width }
    {
        let _ = slots.len();
        Banks {
            chunks: slots.chunks_exact_mut(frames * width),
            frames,
            width,
        }
    }
}

impl<'a> Iterator for Banks<'a> {
    ghost use Rattle.std.specs.Prelude.{◌<◌, ◌/◌, length};
    ghost use Rattle.std.specs.Iterator.{at_most};
    ghost use Rattle.frame_store.specs.Banked.{remaining_of, size_of, BankComes, KeepsShape};

    type Item = BankMut<'a>;

    ghost can_next = { λ s. 0 < size_of s };

    ghost next_gives = { λ s r t. BankComes s r t × KeepsShape s t };

    ghost remaining = { λ s. at_most (length (remaining_of s) / size_of s) };

    fn next(&mut self) -> Option<BankMut<'a>> {
        let slots = self.chunks.next()?;
        Some(BankMut::new(slots, 0, self.frames, self.width))
    }
}
