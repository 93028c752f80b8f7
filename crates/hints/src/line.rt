//! A hint as it is written.

ghost use Rattle.sink.specs.Sends.{Sends};
ghost use Rattle.hints.specs.Hints.{IsPrinted, hint_text};

use sink::send_all;
use std::alloc::{AllocError, Allocator};
use std::io::{self, Write};
use std::marker::Model;

/// The text of a line of a hint, without the `hint: ` before it and without its line feed. Contracts see its bytes, all of which are printable.
#[derive(Drop)]
pub struct Line<A: Allocator> {
    bytes: Vec<u8, A>,
}

impl<A: Allocator> Model for Line<A> {
    ghost use Rattle.std.specs.Prelude.{ℕ, List, All};
    ghost use Rattle.hints.specs.Hints.{IsPrinted};

    ghost Value = { List ℕ };

    ghost view = { λ l. l.bytes.items };

    ghost invariant = { λ l. All IsPrinted l.bytes.items };
}

/// A hint: one line, or two.
#[derive(Drop)]
pub struct Hint<A: Allocator> {
    /// Where the cause is.
    pub place: Option<Line<A>>,
    pub cause: Line<A>,
}

/// The byte, or `?` where the byte is not printable.
fn printed(byte: u8) -> u8
    ensures { IsPrinted result }
{
    if b' ' <= byte && byte <= b'~' {
        byte
    } else {
        b'?'
    }
}

impl<A: Allocator> Line<A> {
    /// The line with this text, with `?` in place of each byte that is not printable.
    pub(crate) fn of(alloc: A, text: &str) -> Result<Line<A>, AllocError> {
        let mut bytes = Vec::new(alloc);
        for byte in text.as_bytes() {
            bytes.push(printed(*byte))?;
        }
        Ok(Line { bytes })
    }
}

impl<A: Allocator> Hint<A> {
    /// Writes the hint. After an `Err` a beginning of it was written.
    pub fn write<W: Write>(&self, writer: &mut W) -> io::Result<()>
        ensures { Sends result (W.contents writer.old) (W.contents writer.new) (hint_text self.now.place self.now.cause) }
    {
        let cause = self.cause.bytes.as_slice();
        match &self.place {
            Some(line) => send_all(writer, &[b"hint: ", &line.bytes, b"\nhint: ", cause, b"\n"]),
            None => send_all(writer, &[b"hint: ", cause, b"\n"]),
        }
    }
}
