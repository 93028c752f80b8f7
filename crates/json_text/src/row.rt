//! A row of values.

ghost use Rattle.std.specs.Prelude.{◌≡◌, length};
ghost use Rattle.sink.specs.Sends.{Sends};
ghost use Rattle.json_text.specs.Json.{after_fault, after_value, first_fault, first_value, is_placed, next_value, row_text, separated, separator, values_text};

use crate::value::{origin, send_fault, send_word};
use crate::words::{head, tail};
use sink::send;
use std::io::{self, Write};

/// Whether the words say where a fault was made.
fn is_placed(words: &[u8]) -> bool
    ensures { result ≡ is_placed words.now }
{
    head(words) == b"at".as_slice()
}

/// Writes the fault with which the words begin.
fn send_first_fault<W: Write>(writer: &mut W, words: &[u8]) -> io::Result<()>
    ensures { Sends result (W.contents writer.old) (W.contents writer.new) (first_fault words.now) }
{
    if is_placed(tail(words)) {
        let origin = origin(words);
        send_fault(writer, head(words), head(origin), head(tail(origin)))
    } else {
        send_fault(writer, head(words), b"", b"")
    }
}

/// Writes the value with which the words begin.
fn send_first<W: Write>(writer: &mut W, words: &[u8]) -> io::Result<()>
    ensures { Sends result (W.contents writer.old) (W.contents writer.new) (first_value words.now) }
{
    match words.strip_prefix(b"fault ") {
        Some(fault) => send_first_fault(writer, fault),
        None => send_word(writer, head(words)),
    }
}

/// The words after those that say where the fault was made.
fn after_fault(words: &[u8]) -> &[u8]
    ensures { result.now ≡ after_fault words.now }
{
    if is_placed(words) {
        tail(tail(tail(words)))
    } else {
        words
    }
}

/// The words after the value with which they begin.
fn after_value(words: &[u8]) -> &[u8]
    ensures { result.now ≡ after_value words.now }
{
    match words.strip_prefix(b"fault ") {
        Some(fault) => after_fault(tail(fault)),
        None => tail(words),
    }
}

/// What is before the other values.
fn separator(words: &[u8]) -> &'static [u8]
    ensures { result.now ≡ separator words.now }
{
    if words.is_empty() { b"" } else { b"," }
}

/// Writes the value with which the words begin, and what is before the next one.
fn send_separated<W: Write>(writer: &mut W, words: &[u8]) -> io::Result<()>
    ensures { Sends result (W.contents writer.old) (W.contents writer.new) (separated words.now) }
{
    send_first(writer, words)?;
    send(writer, separator(after_value(words)))
}

/// Writes that, if there are words.
fn send_next<W: Write>(writer: &mut W, words: &[u8]) -> io::Result<()>
    ensures { Sends result (W.contents writer.old) (W.contents writer.new) (next_value words.now) }
{
    if words.is_empty() {
        send(writer, b"")
    } else {
        send_separated(writer, words)
    }
}

/// Writes the values, with commas between.
fn send_values<W: Write>(writer: &mut W, words: &[u8]) -> io::Result<()>
    ensures { Sends result (W.contents writer.old) (W.contents writer.new) (values_text (length words.now) words.now) }
{
    let mut left = words;
    for _ in 0..words.len() {
        send_next(writer, left)?;
        left = after_value(left);
    }
    Ok(())
}

/// Writes the row.
pub(crate) fn send_row<W: Write>(writer: &mut W, words: &[u8]) -> io::Result<()>
    ensures { Sends result (W.contents writer.old) (W.contents writer.new) (row_text words.now) }
{
    send(writer, b"[")?;
    send_values(writer, words)?;
    send(writer, b"]")
}
