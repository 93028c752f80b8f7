//! The slots of frames, in banks.

ghost use Rattle.std.specs.Prelude.{◌≡◌, ◌<◌, true};
ghost use Rattle.frame_store.specs.Slots.{place_of, with_state};

use crate::banks::on_last_bank;
use crate::part::{Heap, Part};
use crate::shown::push_state;
use crate::words::Words;
use frame_store::slot::Slot;
use frame_store::store::Store;
use packed::packing::{pack, unpack};
use std::alloc::{AllocError, Allocator};
use tags::slot::SlotState;

/// Where a slot is.
#[derive(Clone, Copy)]
struct Place {
    element: usize,
    frame: usize,
    slot: usize,
}

/// The slots of 3 frames of 4 slots on each of 2 elements.
#[derive(Drop)]
pub struct SlotsPart<'h> {
    store: Store<Heap<'h>>,
}

impl<'h> SlotsPart<'h> {
    /// Slots that are all empty.
    pub fn new(heap: Heap<'h>) -> Result<SlotsPart<'h>, AllocError> {
        let store = Store::new(heap, 2, 3, 4)?;
        Ok(SlotsPart { store })
    }
}

/// Whether the store has this slot.
fn has<A: Allocator>(store: &Store<A>, at: Place) -> bool
    ensures { result ≡ true → (at.element < store.now.elements) × (at.frame < store.now.frames) × (at.slot < store.now.width) }
{
    at.element < store.elements() && at.frame < store.frames() && at.slot < store.width()
}

// A slot is lent out of the store and set: the store has the change, and nothing else changes.
fn set_in_store<A: Allocator>(store: &mut Store<A>, at: Place, state: SlotState)
    requires element { at.element < store.old.elements }
    requires frame { at.frame < store.old.frames }
    requires slot { at.slot < store.old.width }
    ensures { store.new ≡ with_state store.old (place_of store.old at.element at.frame at.slot) state }
{
    store.slot(at.element, at.frame, at.slot).set(state);
}

// What is set is read.
fn set_then_read<A: Allocator>(store: &mut Store<A>, at: Place, state: SlotState) -> SlotState
    requires element { at.element < store.old.elements }
    requires frame { at.frame < store.old.frames }
    requires slot { at.slot < store.old.width }
    ensures { result ≡ state }
{
    store.slot(at.element, at.frame, at.slot).set(state);
    store.slot(at.element, at.frame, at.slot).state()
}

// The same through its bank: the store has the change once the bank is gone.
fn set_in_bank<A: Allocator>(store: &mut Store<A>, at: Place, state: SlotState)
    requires element { at.element < store.old.elements }
    requires frame { at.frame < store.old.frames }
    requires slot { at.slot < store.old.width }
    ensures { store.new ≡ with_state store.old (place_of store.old at.element at.frame at.slot) state }
{
    let mut bank = store.bank(at.element);
    bank.slot(at.frame, at.slot).set(state);
}

// The same through its frame.
fn set_in_frame<A: Allocator>(store: &mut Store<A>, at: Place, state: SlotState)
    requires element { at.element < store.old.elements }
    requires frame { at.frame < store.old.frames }
    requires slot { at.slot < store.old.width }
    ensures { store.new ≡ with_state store.old (place_of store.old at.element at.frame at.slot) state }
{
    let lent = store.frame(at.element, at.frame);
    lent.slot(at.slot).set(state);
}

// The bank goes into its frame, and the frame into the slot.
fn set_in_frame_of_bank<A: Allocator>(store: &mut Store<A>, at: Place, state: SlotState)
    requires element { at.element < store.old.elements }
    requires frame { at.frame < store.old.frames }
    requires slot { at.slot < store.old.width }
    ensures { store.new ≡ with_state store.old (place_of store.old at.element at.frame at.slot) state }
{
    store
        .bank(at.element)
        .frame(at.frame)
        .slot(at.slot)
        .set(state);
}

// Two slots are set, one after the other, through their bank, and the second also through its frame.
fn set_two_in_bank<A: Allocator>(
    store: &mut Store<A>,
    element: usize,
    first: SlotState,
    second: SlotState,
)
    requires element { element < store.old.elements }
    requires frame { 0 < store.old.frames }
    requires slots { 1 < store.old.width }
    ensures { store.new ≡ with_state (with_state store.old (place_of store.old element 0 0) first) (place_of store.old element 0 1) second }
{
    let mut bank = store.bank(element);
    bank.slot(0, 0).set(first);
    bank.frame(0).slot(1).set(second);
}

// The same through two frames, for each of which the bank is lent again.
fn set_two_in_frames_of_bank<A: Allocator>(
    store: &mut Store<A>,
    element: usize,
    first: SlotState,
    second: SlotState,
)
    requires element { element < store.old.elements }
    requires frame { 0 < store.old.frames }
    requires slots { 1 < store.old.width }
    ensures { store.new ≡ with_state (with_state store.old (place_of store.old element 0 0) first) (place_of store.old element 0 1) second }
{
    store.bank(element).frame(0).slot(0).set(first);
    store.bank(element).frame(0).slot(1).set(second);
}

/// Sets a slot in the way that the word names, or reads it.
fn on_slot<A: Allocator>(
    store: &mut Store<A>,
    operation: &str,
    at: Place,
    words: &mut Words<'_>,
    answer: &mut String,
) -> Option<()> {
    if !has(store, at) {
        return None;
    }
    if operation == "slot" {
        let state = store.slot(at.element, at.frame, at.slot).state();
        return push_state(answer, state).ok();
    }
    let Some(state) = words.state() else {
        return None;
    };
    match operation {
        "set" => set_in_store(store, at, state),
        "set-in-bank" => set_in_bank(store, at, state),
        "set-in-frame" => set_in_frame(store, at, state),
        "set-in-frame-of-bank" => set_in_frame_of_bank(store, at, state),
        "set-then-read" => {
            let held = set_then_read(store, at, state);
            push_state(answer, held).ok()?;
        }
        _ => return None,
    }
    Some(())
}

/// Sets the first two slots of an element in the way that the word names.
fn on_two_slots<A: Allocator>(
    store: &mut Store<A>,
    operation: &str,
    words: &mut Words<'_>,
) -> Option<()> {
    let at = Place {
        element: words.place()?,
        frame: 0,
        slot: 1,
    };
    if !has(store, at) {
        return None;
    }
    let Some(first) = words.piece().state() else {
        return None;
    };
    let Some(second) = words.state() else {
        return None;
    };
    if operation == "two-in-bank" {
        set_two_in_bank(store, at.element, first, second);
    } else {
        set_two_in_frames_of_bank(store, at.element, first, second);
    }
    Some(())
}

/// Writes the numbers of frames and of slots that a bank says it has.
fn push_shape<A: Allocator>(
    store: &mut Store<A>,
    element: usize,
    answer: &mut String,
) -> Option<()> {
    if element >= store.elements() {
        return None;
    }
    let bank = store.bank(element);
    let frames = bank.frames();
    let width = bank.width();
    write!(answer, "{frames} {width}").ok()
}

impl Part for SlotsPart<'_> {
    fn act(&mut self, words: &mut Words<'_>, answer: &mut String) -> Option<()> {
        let store = &mut self.store;
        let operation = words.word();
        match operation {
            "shape" => push_shape(store, words.place()?, answer),
            "two-in-bank" | "two-in-frames" => on_two_slots(store, operation, words),
            "last" => on_last_bank(store, words, answer),
            _ => {
                let element = words.place()?;
                let frame = words.place()?;
                let slot = words.place()?;
                let at = Place {
                    element,
                    frame,
                    slot,
                };
                on_slot(store, operation, at, words, answer)
            }
        }
    }
}

/// Writes what a slot holds.
fn push_slot<A: Allocator>(
    store: &mut Store<A>,
    at: Place,
    answer: &mut String,
) -> Result<(), AllocError> {
    if !has(store, at) {
        return answer.push_str("none");
    }
    let state = store.slot(at.element, at.frame, at.slot).state();
    push_state(answer, state)
}

/// Writes what all slots hold, separated by commas.
pub fn push_slots<A: Allocator>(
    store: &mut Store<A>,
    answer: &mut String,
) -> Result<(), AllocError> {
    for element in 0..store.elements() {
        for frame in 0..store.frames() {
            for slot in 0..store.width() {
                if !answer.is_empty() {
                    answer.push_str(", ")?;
                }
                let at = Place {
                    element,
                    frame,
                    slot,
                };
                push_slot(store, at, answer)?;
            }
        }
    }
    Ok(())
}

/// The two words of a slot.
#[derive(Drop)]
pub struct PackingPart;

fn push_words(answer: &mut String, slot: &Slot) -> Result<(), AllocError> {
    let [head, body] = slot.words();
    write!(answer, "{head} {body}")
}

impl Part for PackingPart {
    fn act(&mut self, words: &mut Words<'_>, answer: &mut String) -> Option<()> {
        let mut slot = Slot::empty();
        match words.word() {
            "new" => push_words(answer, &slot).ok(),
            "words" => {
                let Some(state) = words.state() else {
                    return None;
                };
                slot.set(state);
                push_words(answer, &slot).ok()
            }
            "unpacked" => {
                let Some(state) = words.state() else {
                    return None;
                };
                let [head, body] = pack(state);
                push_state(answer, unpack(head, body)).ok()
            }
            _ => None,
        }
    }
}
