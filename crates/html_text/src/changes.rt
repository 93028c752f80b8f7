//! Changes.

ghost use Rattle.replay.specs.declared.entry.Change.TheVariants.{Slot};
ghost use Rattle.html_text.specs.DataText.{state_text, change_text};
ghost use Rattle.sink.specs.Sends.{Sends};

use crate::pieces::{send_number, send_number_word, send_numbers, send_tagged_word};
use replay::Change;
use std::io::{self, Write};
use tags::slot::SlotState;
use tags::token::{FrameId, Word};

/// What a slot holds.
fn send_state<W: Write>(writer: &mut W, state: &SlotState) -> io::Result<()>
    ensures { Sends result (W.contents writer.old) (W.contents writer.new) (state_text state.now) }
{
    match *state {
        SlotState::Empty => Ok(()),
        SlotState::Left(word) => send_tagged_word(writer, b"l:", word),
        SlotState::Right(word) => send_tagged_word(writer, b"r:", word),
        SlotState::Credits(count) => send_number(writer, b"c", count),
        SlotState::Waiter(cont) => send_tagged_word(writer, b"w:", Word::Back(cont)),
        SlotState::Draining(count) => send_number(writer, b"d", count),
    }
}

/// A change of a slot.
fn send_slot<W: Write>(
    writer: &mut W,
    frame: FrameId,
    slot: u32,
    state: SlotState,
) -> io::Result<()>
    ensures { Sends result (W.contents writer.old) (W.contents writer.new) (change_text (Slot frame slot state)) }
{
    send_numbers(writer, b"s", frame, slot)?;
    send_state(writer, &state)
}

/// A change.
pub(crate) fn send_change<W: Write>(writer: &mut W, change: Change) -> io::Result<()>
    ensures { Sends result (W.contents writer.old) (W.contents writer.new) (change_text change) }
{
    match change {
        Change::Nothing => Ok(()),
        Change::Slot { frame, slot, state } => send_slot(writer, frame, slot, state),
        Change::Reader { cell, cont } => { send_number_word(writer, b"+", cell, Word::Back(cont)) }
        Change::Filled { cell, value } => { send_number_word(writer, b"v", cell, Word::Val(value)) }
        Change::Out { frame } => send_number(writer, b"o", frame),
        Change::Free { frame } => send_number(writer, b"f", frame),
        Change::Queued { cont } => send_tagged_word(writer, b"q:", Word::Back(cont)),
        Change::Handed { frame } => send_number(writer, b"h", frame),
        Change::Output { port, value } => { send_number_word(writer, b"p", port, Word::Val(value)) }
        Change::Done { port, word } => send_number_word(writer, b"p", port, word),
    }
}
