//! The slots of the frames that lie on an element.

ghost use Rattle.std.specs.Prelude.{◌≡◌, ◌*◌, ◌<◌, ◌/◌, length, slice_index_or};
ghost use Rattle.element.specs.Holding.{held_in, part_of, shape_of, with_part};
ghost use Rattle.tags.specs.declared.slot.SlotState.TheVariants.{Empty};
ghost use Rattle.frame_store.specs.BankViews.{bank_states, IsBank};
ghost use Rattle.element.specs.Parts.{slot_place};
ghost use Rattle.semantics.specs.Rule.{slot_of};
ghost use Rattle.element.specs.Decoded.{instr_of};
ghost use Rattle.element.specs.Changed.{with_state, with_state_in, state_in};

use super::Contents;
use crate::bundled::place_of;
use crate::company::Company;
use crate::instructions::Instruction;
use frame_store::slot::Slot;
use std::alloc::Allocator;
use tags::slot::SlotState;
use tags::token::FrameId;

impl<'m, A: Allocator> Contents<'m, A> {
    // The place of a frame that lies here among those that do.
    #[inline(always)]
    fn own_frame(&self, frame: FrameId) -> usize
        requires some { 0 < self.now.elements }
        ensures { result ≡ frame / self.now.elements }
    {
        place_of(frame, self.elements) as usize
    }

    // What the slot of an instruction holds, in a frame that lies here.
    #[inline(always)]
    pub fn slot_state(&self, frame: FrameId, slot: u32) -> SlotState
        requires some { 0 < self.now.elements }
        requires bank { IsBank self.now.bank }
        requires frame { frame < self.now.elements * self.now.bank.frames }
        requires slot { slot < self.now.bank.width }
        ensures { result ≡ slice_index_or (part_of self.now).states (slot_place (shape_of self.now) frame slot) Empty }
    {
        self.bank.state(self.own_frame(frame), slot as usize)
    }

    // How many elements there are: the number that is known where the code is compiled, if one is.
    #[inline(always)]
    pub(super) fn team<T: Company>(&self) -> u32
        requires known { 0 < T.COUNT → self.now.elements ≡ T.COUNT }
        ensures { result ≡ self.now.elements }
    {
        if T::COUNT != 0 {
            return T::COUNT;
        }
        self.elements
    }

    // Where the slot of an instruction is, in a frame on this element.
    #[inline(always)]
    pub(super) fn place_of_slot<T: Company>(&self, frame: FrameId, slot: u32) -> usize
        requires known { 0 < T.COUNT → self.now.elements ≡ T.COUNT }
        requires some { 0 < self.now.elements }
        requires bank { IsBank self.now.bank }
        requires frame { frame < self.now.elements * self.now.bank.frames }
        requires slot { slot < self.now.bank.width }
        ensures exact { result ≡ slot_place (shape_of self.now) frame slot }
        ensures within { result < length (bank_states self.now.bank) }
    {
        let own = place_of(frame, self.team::<T>()) as usize;
        self.bank.place(own, slot as usize)
    }

    // The slot at a place, as it lies there.
    #[inline(always)]
    pub(super) fn slot_at(&self, place: usize) -> Slot
        requires { place < length (bank_states self.now.bank) }
        ensures { result ≡ slice_index_or (part_of self.now).states place Empty }
    {
        let slots = &*self.bank.slots;
        slots[place]
    }

    // Puts a slot at a place.
    #[inline(always)]
    pub(super) fn put_at(&mut self, place: usize, held: Slot)
        requires { place < length (bank_states self.old.bank) }
        ensures held { held_in self.new ≡ with_part (held_in self.old) (with_state (part_of self.old) place held) }
        ensures queue { self.new.queue ≡ self.old.queue }
        ensures elements { self.new.elements ≡ self.old.elements }
        ensures element { self.new.element ≡ self.old.element }
    {
        self.bank.slots[place] = held;
    }

    #[inline(always)]
    pub(super) fn set_slot(&mut self, frame: FrameId, slot: u32, state: SlotState)
        requires some { 0 < self.old.elements }
        requires bank { IsBank self.old.bank }
        requires frame { frame < self.old.elements * self.old.bank.frames }
        requires slot { slot < self.old.bank.width }
        ensures held { held_in self.new ≡ with_part (held_in self.old) (with_state (part_of self.old) (slot_place (shape_of self.old) frame slot) state) }
        ensures queue { self.new.queue ≡ self.old.queue }
    {
        let own = self.own_frame(frame);
        self.bank.set(own, slot as usize, state);
    }

    // What the instruction's slot holds; an instruction that uses none sees an empty one.
    pub(super) fn slot_of(&self, frame: FrameId, instr: &Instruction) -> SlotState
        requires some { 0 < self.now.elements }
        requires bank { IsBank self.now.bank }
        requires frame { frame < self.now.elements * self.now.bank.frames }
        requires slot { instr.now.slot < self.now.bank.width }
        ensures { result ≡ state_in (part_of self.now) frame (slot_of (instr_of instr.now) instr.now.op) }
    {
        if instr.op.uses_slot() {
            self.slot_state(frame, instr.slot())
        } else {
            SlotState::Empty
        }
    }

    pub(super) fn keep(&mut self, frame: FrameId, instr: &Instruction, state: SlotState)
        requires some { 0 < self.old.elements }
        requires bank { IsBank self.old.bank }
        requires frame { frame < self.old.elements * self.old.bank.frames }
        requires slot { instr.now.slot < self.old.bank.width }
        ensures held { held_in self.new ≡ with_part (held_in self.old)
            (with_state_in (part_of self.old) frame (slot_of (instr_of instr.now) instr.now.op) state) }
        ensures queue { self.new.queue ≡ self.old.queue }
    {
        if instr.op.uses_slot() {
            self.set_slot(frame, instr.slot(), state);
        }
    }
}
