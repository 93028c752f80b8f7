//! The inputs among the words, as lines after a graph.

ghost use Rattle.std.specs.Prelude.{◌≡◌, flat_map};
ghost use Rattle.sink.specs.Sends.{Sends};
ghost use Rattle.files.specs.Files.{are_given, inputs_lines, integer_line, lines_before};

use command_line::Inputs;
use itoa::Buffer;
use sink::{send, send_all};
use std::io::{self, Write};

/// Seventeen inputs, more than any block takes.
const LINES: &[u8] = b"0\n0\n0\n0\n0\n0\n0\n0\n0\n0\n0\n0\n0\n0\n0\n0\n0\n";

/// Whether the words have inputs.
pub fn are_given(inputs: &Inputs) -> bool
    ensures { result ≡ are_given inputs.now }
{
    match inputs {
        Inputs::Integers(integers) => !integers.as_slice().is_empty(),
        Inputs::NoInteger(_) | Inputs::TooMany => true,
    }
}

/// The line of an integer.
fn send_integer<W: Write>(writer: &mut W, integer: &i64) -> io::Result<()>
    ensures { Sends result (W.contents writer.old) (W.contents writer.new) (integer_line integer.now) }
{
    let mut buffer = Buffer::new();
    send_all(writer, &[buffer.format(*integer).as_bytes(), b"\n"])
}

/// The lines of the integers.
fn send_integers<W: Write>(writer: &mut W, integers: &[i64]) -> io::Result<()>
    ensures { Sends result (W.contents writer.old) (W.contents writer.new) (flat_map integer_line integers.now) }
{
    for integer in integers {
        send_integer(writer, integer)?;
    }
    Ok(())
}

/// The lines before that of the input with this number, counted from 1.
fn lines_before(number: u64) -> &'static [u8]
    ensures { result.now ≡ lines_before number }
{
    let count = number.saturating_sub(1).min(17) as usize;
    &LINES[..2 * count]
}

/// Writes the inputs, one a line. A word that is no integer is a line without one; of too many there are as many as no block takes.
pub fn send_inputs<W: Write>(writer: &mut W, inputs: &Inputs) -> io::Result<()>
    ensures { Sends result (W.contents writer.old) (W.contents writer.new) (inputs_lines inputs.now) }
{
    match inputs {
        Inputs::Integers(integers) => send_integers(writer, integers.as_slice()),
        Inputs::NoInteger(number) => send_all(writer, &[lines_before(*number), b"?\n"]),
        Inputs::TooMany => send(writer, LINES),
    }
}
