//! What stands in place of words.

ghost use Rattle.std.specs.Prelude.{◌≡◌};
ghost use Rattle.graph_file.specs.Fields.{literal_of};
ghost use Rattle.sink.specs.Sends.{Sends};
ghost use Rattle.json_text.specs.Json.{fault_text, is_count, is_nothing, number_text, origin, truth_text, value_text, word_text};

use crate::string::send_string;
use crate::words::{head, tail};
use graph_file::literal;
use sink::send;
use std::io::{self, Write};

/// The first integer that some readers of JSON would lose.
const LIMIT: i64 = 1 << 53;

/// Whether there is no word, or `-` in its place.
fn is_nothing(word: &[u8]) -> bool
    ensures { result ≡ is_nothing word.now }
{
    word.is_empty() || word == b"-".as_slice()
}

/// Whether the word is a number that every reader has to the unit.
fn is_count(word: &[u8]) -> bool
    ensures { result ≡ is_count (literal_of word.now) }
{
    match literal(word) {
        Some(number) => 0 <= number && number < LIMIT,
        None => false,
    }
}

/// Writes the word as a string, or `null`.
pub(crate) fn send_word<W: Write>(writer: &mut W, word: &[u8]) -> io::Result<()>
    ensures { Sends result (W.contents writer.old) (W.contents writer.new) (word_text word.now) }
{
    if is_nothing(word) {
        send(writer, b"null")
    } else {
        send_string(writer, word)
    }
}

/// Writes the word as a number, where no reader would lose it; else as a string, or `null`.
pub(crate) fn send_number<W: Write>(writer: &mut W, word: &[u8]) -> io::Result<()>
    ensures { Sends result (W.contents writer.old) (W.contents writer.new) (number_text word.now) }
{
    if is_nothing(word) {
        send(writer, b"null")
    } else if is_count(word) {
        send(writer, word)
    } else {
        send_string(writer, word)
    }
}

/// Writes `true`, if there are no words.
pub(crate) fn send_truth<W: Write>(writer: &mut W, words: &[u8]) -> io::Result<()>
    ensures { Sends result (W.contents writer.old) (W.contents writer.new) (truth_text words.now) }
{
    if words.is_empty() {
        send(writer, b"true")
    } else {
        send_string(writer, words)
    }
}

/// Writes a fault of this kind that was made at this node of this block.
pub(crate) fn send_fault<W: Write>(
    writer: &mut W,
    kind: &[u8],
    block: &[u8],
    node: &[u8],
) -> io::Result<()>
    ensures { Sends result (W.contents writer.old) (W.contents writer.new) (fault_text kind.now block.now node.now) }
{
    send(writer, b"{\"fault\":")?;
    send_word(writer, kind)?;
    send(writer, b",\"block\":")?;
    send_number(writer, block)?;
    send(writer, b",\"node\":")?;
    send_number(writer, node)?;
    send(writer, b"}")
}

/// The words of a fault after its kind and `at`.
pub(crate) fn origin(words: &[u8]) -> &[u8]
    ensures { result.now ≡ origin words.now }
{
    tail(tail(words))
}

/// Writes the value.
pub(crate) fn send_value<W: Write>(writer: &mut W, words: &[u8]) -> io::Result<()>
    ensures { Sends result (W.contents writer.old) (W.contents writer.new) (value_text words.now) }
{
    match words.strip_prefix(b"fault ") {
        Some(fault) => {
            let origin = origin(fault);
            send_fault(writer, head(fault), head(origin), tail(origin))
        }
        None => send_word(writer, words),
    }
}
