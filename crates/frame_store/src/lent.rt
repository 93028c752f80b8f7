//! Frames and slots of a bank, one at a time: the bank goes into the frame, the frame into the slot, and the slot gives the
//! bank back.

ghost use Rattle.std.specs.Prelude.{◌≡◌, ◌<◌, slice_index_or, slice_set};
ghost use Rattle.frame_store.specs.BankViews.{bank_states, IsBank, place_in, SameBank};

use crate::bank::BankMut;
use tags::slot::SlotState;

/// A frame of a bank, with the bank.
#[derive(Drop)]
pub struct BankFrame<'a> {
    bank: BankMut<'a>,
    frame: usize,
}

/// A slot of a frame of a bank, with the bank.
#[derive(Drop)]
pub struct BankSlot<'a> {
    bank: BankMut<'a>,
    frame: usize,
    slot: usize,
}

impl<'a> BankMut<'a> {
    /// A frame of the bank.
    pub fn frame(self, frame: usize) -> BankFrame<'a>
        ensures bank { result.bank ≡ self.entry }
        ensures frame { result.frame ≡ frame }
    {
        BankFrame { bank: self, frame }
    }
}

impl<'a> BankFrame<'a> {
    /// A slot of the frame.
    pub fn slot(self, slot: usize) -> BankSlot<'a>
        ensures bank { result.bank ≡ self.entry.bank }
        ensures frame { result.frame ≡ self.entry.frame }
        ensures slot { result.slot ≡ slot }
    {
        BankSlot {
            bank: self.bank,
            frame: self.frame,
            slot,
        }
    }

    /// The bank, as it was.
    pub fn bank(self) -> BankMut<'a>
        ensures { result ≡ self.entry.bank }
    {
        let BankFrame { bank, .. } = self;
        bank
    }
}

impl<'a> BankSlot<'a> {
    /// What the slot holds.
    pub fn state(&self) -> SlotState
        requires bank { IsBank self.now.bank }
        requires frame { self.now.frame < self.now.bank.frames }
        requires slot { self.now.slot < self.now.bank.width }
        ensures { result ≡ slice_index_or (bank_states self.now.bank) (place_in self.now.bank self.now.frame self.now.slot) result }
    {
        self.bank.state(self.frame, self.slot)
    }

    /// Changes what the slot holds, and no other slot of the bank.
    pub fn set(&mut self, state: SlotState)
        requires bank { IsBank self.old.bank }
        requires frame { self.old.frame < self.old.bank.frames }
        requires slot { self.old.slot < self.old.bank.width }
        ensures after { bank_states self.new.bank ≡ slice_set (bank_states self.old.bank) (place_in self.old.bank self.old.frame self.old.slot) state }
        ensures same { SameBank self.old.bank self.new.bank }
        ensures frame { self.new.frame ≡ self.old.frame }
        ensures slot { self.new.slot ≡ self.old.slot }
    {
        self.bank.set(self.frame, self.slot, state);
    }

    /// The bank, as it is now.
    pub fn bank(self) -> BankMut<'a>
        ensures { result ≡ self.entry.bank }
    {
        let BankSlot { bank, .. } = self;
        bank
    }
}
