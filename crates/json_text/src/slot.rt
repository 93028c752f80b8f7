//! Templates: texts with slots for the words of a line.

ghost use Rattle.std.specs.Prelude.{◌≡◌};
ghost use Rattle.sink.specs.Sends.{Sends};
ghost use Rattle.json_text.specs.Json.{after_piece, filled, piece_rest, piece_slot, piece_text, slot_of, slot_text, words_after};

use crate::row::send_row;
use crate::string::send_string;
use crate::value::{send_number, send_truth, send_value, send_word};
use crate::words::{head, tail};
use graph_file::Parts;
use sink::send;
use std::io::{self, Write};

/// What is put in a place of a template.
#[derive(Clone, Copy, Debug, PartialEq, Eq)]
enum Slot {
    /// No word is taken, and nothing is put there.
    Nothing,
    /// A word is taken that the template's text says.
    Skipped,
    Word,
    Number,
    /// A number with a colon after it.
    Bound,
    /// All words that are left.
    LastWord,
    LastNumber,
    LastValue,
    /// A row of values.
    LastRow,
    /// Whether no words are left.
    Truth,
    /// All words that are left, whatever they are.
    LastText,
}

/// The slot of this letter.
fn slot_of(letter: u8) -> Slot
    ensures { result ≡ slot_of letter }
{
    match letter {
        b'.' => Slot::Nothing,
        b'-' => Slot::Skipped,
        b'w' => Slot::Word,
        b'n' => Slot::Number,
        b'b' => Slot::Bound,
        b'W' => Slot::LastWord,
        b'N' => Slot::LastNumber,
        b'v' => Slot::LastValue,
        b'r' => Slot::LastRow,
        b'?' => Slot::Truth,
        _ => Slot::LastText,
    }
}

/// Writes the number before a colon.
fn send_bound<W: Write>(writer: &mut W, word: &[u8]) -> io::Result<()>
    ensures { Sends result (W.contents writer.old) (W.contents writer.new) (slot_text Slot.Bound word.now) }
{
    let bound = head(word);
    send_number(writer, &bound[..bound.len().saturating_sub(1)])
}

/// Writes what is put in the slot.
fn send_slot<W: Write>(writer: &mut W, slot: Slot, words: &[u8]) -> io::Result<()>
    ensures { Sends result (W.contents writer.old) (W.contents writer.new) (slot_text slot words.now) }
{
    match slot {
        Slot::Nothing | Slot::Skipped => send(writer, b""),
        Slot::Word => send_word(writer, head(words)),
        Slot::Number => send_number(writer, head(words)),
        Slot::Bound => send_bound(writer, words),
        Slot::LastWord => send_word(writer, words),
        Slot::LastNumber => send_number(writer, words),
        Slot::LastValue => send_value(writer, words),
        Slot::LastRow => send_row(writer, words),
        Slot::Truth => send_truth(writer, words),
        Slot::LastText => send_string(writer, words),
    }
}

/// The words that are left after the slot.
fn words_after(slot: Slot, words: &[u8]) -> &[u8]
    ensures { result.now ≡ words_after slot words.now }
{
    match slot {
        Slot::Nothing => words,
        _ => tail(words),
    }
}

/// The slot with which the piece of a template begins.
fn piece_slot(piece: &[u8]) -> Slot
    ensures { result ≡ piece_slot piece.now }
{
    match piece {
        [] => Slot::Nothing,
        [letter, ..] => slot_of(*letter),
    }
}

/// The text that follows it.
fn piece_rest(piece: &[u8]) -> &[u8]
    ensures { result.now ≡ piece_rest piece.now }
{
    match piece {
        [] => piece,
        [_letter, text @ ..] => text,
    }
}

/// Writes the piece: what is put in its slot, and its text.
fn send_piece<W: Write>(writer: &mut W, piece: &[u8], words: &[u8]) -> io::Result<()>
    ensures { Sends result (W.contents writer.old) (W.contents writer.new) (piece_text piece.now words.now) }
{
    send_slot(writer, piece_slot(piece), words)?;
    send(writer, piece_rest(piece))
}

/// The words that are left after the piece.
fn after_piece<'a>(piece: &[u8], words: &'a [u8]) -> &'a [u8]
    ensures { result.now ≡ after_piece piece.now words.now }
{
    words_after(piece_slot(piece), words)
}

/// Writes the template with these words in its slots.
pub(crate) fn send_filled<W: Write>(writer: &mut W, template: &[u8], words: &[u8]) -> io::Result<()>
    ensures { Sends result (W.contents writer.old) (W.contents writer.new) (filled template.now words.now) }
{
    let mut pieces = Parts::of(template, b'|');
    let mut left = words;
    while let Some((piece, rest)) = pieces.split_first() {
        send_piece(writer, piece, left)?;
        left = after_piece(piece, left);
        pieces = rest;
    }
    Ok(())
}
