//! The banks that a store lends, separate from one another.

ghost use Rattle.std.specs.Prelude.{◌≡◌, ◌<◌, length, slice_set};
ghost use Rattle.frame_store.specs.BankViews.{bank_states, IsBank, place_in};

use crate::shown::push_state;
use crate::slots::push_slots;
use crate::words::Words;
use frame_store::bank::BankMut;
use frame_store::frame::LendSlot;
use frame_store::slot::Slot;
use frame_store::store::Store;
use std::alloc::{AllocError, Allocator};
use std::thread;
use std::thread::Threads;
use tags::slot::SlotState;

/// The last bank, for itself.
fn last_bank<A: Allocator>(store: &mut Store<A>) -> Option<BankMut<'_>> {
    if store.elements() == 0 {
        return None;
    }
    let mut last = None;
    for bank in store.banks() {
        last = Some(bank);
    }
    last
}

// A slot is lent out of the slots after a bank and set.
fn set_at(slots: &mut [Slot], place: usize, state: SlotState)
    requires { place < length slots.old }
    ensures { slots.new ≡ slice_set slots.old place state }
{
    if let Some(lent) = slots.slot(place) {
        lent.set(state);
    }
}

// A slot of a bank that is held is lent and set: that slot of the bank, and no other.
fn set_lent(bank: &mut BankMut<'_>, frame: usize, slot: usize, state: SlotState)
    requires bank { IsBank bank.old }
    requires frame { frame < bank.old.frames }
    requires slot { slot < bank.old.width }
    ensures { bank_states bank.new ≡ slice_set (bank_states bank.old) (place_in bank.old frame slot) state }
{
    let place = bank.place(frame, slot);
    set_at(&mut *bank.slots, place, state);
}

// A slot of a bank is changed by way of its frame: that slot of the bank, and no other. Says what the slot is left at, too.
fn change(
    bank: BankMut<'_>,
    frame: usize,
    slot: usize,
    state: SlotState,
) -> (BankMut<'_>, SlotState)
    requires bank { IsBank bank }
    requires frame { frame < bank.frames }
    requires slot { slot < bank.width }
    ensures { bank_states result.0 ≡ slice_set (bank_states bank.entry) (place_in bank.entry frame slot) state }
{
    let mut slot = bank.frame(frame).slot(slot);
    slot.set(state);
    let held = slot.state();
    (slot.bank(), held)
}

/// Writes what the slot at this place after the bank holds, if there is one.
fn push_lent(bank: BankMut<'_>, place: usize, answer: &mut String) -> Option<()> {
    match bank.slots.slot(place) {
        Some(lent) => push_state(answer, lent.state()).ok(),
        None => answer.push_str("none").ok(),
    }
}

/// Sets a slot of a bank in the way that the word names.
fn change_slot(
    mut bank: BankMut<'_>,
    operation: &str,
    frame: usize,
    slot: usize,
    state: SlotState,
    answer: &mut String,
) -> Option<()>
    requires bank { IsBank bank }
    requires frame { frame < bank.frames }
    requires slot { slot < bank.width }
{
    match operation {
        "set" => bank.set(frame, slot, state),
        "lend" => set_lent(&mut bank, frame, slot, state),
        "change" => {
            let (_bank, held) = change(bank, frame, slot, state);
            return push_state(answer, held).ok();
        }
        _ => return None,
    }
    Some(())
}

/// Sets a slot of a bank in the way that the word names, or reads it.
fn on_slot(
    bank: BankMut<'_>,
    operation: &str,
    words: &mut Words<'_>,
    answer: &mut String,
) -> Option<()> {
    let frame = words.place()?;
    let slot = words.place()?;
    if !bank.holds(frame, slot) {
        return None;
    }
    match operation {
        "slot" => push_state(answer, bank.state(frame, slot)).ok(),
        "place" => {
            let place = bank.place(frame, slot);
            write!(answer, "{place}").ok()
        }
        _ => {
            let Some(state) = words.state() else {
                return None;
            };
            change_slot(bank, operation, frame, slot, state, answer)
        }
    }
}

/// Does what a line says to the last bank of a store.
pub fn on_last_bank<A: Allocator>(
    store: &mut Store<A>,
    words: &mut Words<'_>,
    answer: &mut String,
) -> Option<()> {
    let bank = last_bank(store)?;
    match words.word() {
        "shape" => {
            let frames = bank.frames();
            let width = bank.width();
            write!(answer, "{frames} {width}").ok()
        }
        "at" => push_lent(bank, words.place()?, answer),
        // The bank is turned into a frame first, and then back.
        "again" => {
            let bank = bank.frame(words.place()?).bank();
            on_slot(bank, words.word(), words, answer)
        }
        operation => on_slot(bank, operation, words, answer),
    }
}

/// Writes the bank's number and the slot's into each slot, which is lent for it.
fn fill(number: usize, bank: &mut BankMut<'_>) {
    for frame in 0..bank.frames() {
        for slot in 0..bank.width() {
            if bank.holds(frame, slot) {
                let count = (number % 100 * 10_000 + frame % 100 * 100 + slot % 100) as u32;
                let place = bank.place(frame, slot);
                let slots = &mut *bank.slots;
                if let Some(lent) = slots.slot(place) {
                    lent.set(SlotState::Credits(count));
                }
            }
        }
    }
}

/// Two threads fill two banks. Writes what all slots hold then.
pub fn push_filled<R: Threads + AllocGlobal + Sync>(
    rt: &R,
    answer: &mut String,
) -> Result<(), AllocError> {
    let mut store = Store::new(rt.alloc(), 2, 3, 4)?;
    let mut banks = Vec::with_capacity(rt.alloc(), 2)?;
    for bank in store.banks() {
        banks.push(bank)?;
    }
    thread::for_each_mut(rt, &mut banks, 2, &|number, bank| fill(number, bank));
    drop(banks);
    push_slots(&mut store, answer)
}
