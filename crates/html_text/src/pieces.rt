//! Pieces of the data: numbers and words behind letters.

ghost use Rattle.std.specs.Prelude.{◌+◌};
ghost use Rattle.html_text.specs.DataText.{number_text, beyond_text, tagged_word, number_word_text, numbers_text};
ghost use Rattle.sink.specs.Sends.{Sends};

use itoa::Buffer;
use sink::{send, send_all};
use std::io::{self, Write};
use tags::token::Word;
use trace_text::send_word;

/// A tag and a number.
pub(crate) fn send_number<W: Write>(writer: &mut W, tag: &[u8], number: u32) -> io::Result<()>
    ensures { Sends result (W.contents writer.old) (W.contents writer.new) (number_text tag.now number) }
{
    let mut digits = Buffer::new();
    send_all(writer, &[tag, digits.format(number).as_bytes()])
}

/// The same of a number of 64 bits.
pub(crate) fn send_long<W: Write>(writer: &mut W, tag: &[u8], number: u64) -> io::Result<()>
    ensures { Sends result (W.contents writer.old) (W.contents writer.new) (number_text tag.now number) }
{
    let mut digits = Buffer::new();
    send_all(writer, &[tag, digits.format(number).as_bytes()])
}

/// A tag, and how far a number is beyond that of the event at this place.
pub(crate) fn send_beyond<W: Write>(
    writer: &mut W,
    tag: &[u8],
    number: u64,
    first: u64,
    place: usize,
) -> io::Result<()>
    ensures { Sends result (W.contents writer.old) (W.contents writer.new) (beyond_text tag.now number (first + place)) }
{
    let event = i128::from(first) + place as i128;
    let mut digits = Buffer::new();
    let beyond = digits.format(i128::from(number) - event);
    send_all(writer, &[tag, beyond.as_bytes()])
}

/// A tag and a word.
pub(crate) fn send_tagged_word<W: Write>(writer: &mut W, tag: &[u8], word: Word) -> io::Result<()>
    ensures { Sends result (W.contents writer.old) (W.contents writer.new) (tagged_word tag.now word) }
{
    send(writer, tag)?;
    send_word(writer, word)
}

/// A tag, a number and a word.
pub(crate) fn send_number_word<W: Write>(
    writer: &mut W,
    tag: &[u8],
    number: u32,
    word: Word,
) -> io::Result<()>
    ensures { Sends result (W.contents writer.old) (W.contents writer.new) (number_word_text tag.now number word) }
{
    send_number(writer, tag, number)?;
    send_tagged_word(writer, b":", word)
}

/// A tag and two numbers.
pub(crate) fn send_numbers<W: Write>(
    writer: &mut W,
    tag: &[u8],
    first: u32,
    second: u32,
) -> io::Result<()>
    ensures { Sends result (W.contents writer.old) (W.contents writer.new) (numbers_text tag.now first second) }
{
    send_number(writer, tag, first)?;
    send_number(writer, b",", second)
}
