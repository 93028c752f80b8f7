//! The lines of what suffices in every order.

ghost use Rattle.std.specs.Prelude.{◌≡◌, codes};
ghost use Rattle.profile_text.specs.ProfileText.{both_lines, bounded_line, plain_line, sufficient_line};
ghost use Rattle.sink.specs.Sends.{Sends};

use itoa::Buffer;
use sink::send_all;
use std::io::{self, Write};

/// What suffices in every order, where each loop's bound is at least the number of iterations.
#[derive(Clone, Copy, Debug, PartialEq, Eq)]
pub struct Sufficient {
    /// Frames of all elements together.
    pub frames: u128,
    /// A limit of steps for each element.
    pub steps: u128,
    /// The iterations of all loops together.
    pub iterations: u64,
}

/// The line of a number of these things, where no loop has an iteration.
fn send_plain<W: Write>(writer: &mut W, what: &[u8], number: u128) -> io::Result<()>
    ensures { Sends result (W.contents writer.old) (W.contents writer.new) (plain_line what.now number) }
{
    let mut digits = Buffer::new();
    let number = digits.format(number).as_bytes();
    send_all(
        writer,
        &[what, b" that suffice in every order: ", number, b"\n"],
    )
}

/// The line of a number of these things, with the bound that loops need.
fn send_bounded<W: Write>(
    writer: &mut W,
    what: &[u8],
    iterations: u64,
    number: u128,
) -> io::Result<()>
    ensures { Sends result (W.contents writer.old) (W.contents writer.new) (bounded_line what.now iterations number) }
{
    let mut first = Buffer::new();
    let mut second = Buffer::new();
    let number = first.format(number).as_bytes();
    let bound = second.format(iterations).as_bytes();
    send_all(
        writer,
        &[
            what,
            b" that suffice in every order where ",
            b"each loop's bound is at least ",
            bound,
            b": ",
            number,
            b"\n",
        ],
    )
}

/// The line of a number of these things.
fn send_number<W: Write>(
    writer: &mut W,
    what: &[u8],
    iterations: u64,
    number: u128,
) -> io::Result<()>
    ensures { Sends result (W.contents writer.old) (W.contents writer.new) (sufficient_line what.now iterations number) }
{
    if iterations == 0 {
        send_plain(writer, what, number)
    } else {
        send_bounded(writer, what, iterations, number)
    }
}

/// The lines of the frames and of the steps.
pub(crate) fn send_sufficient<W: Write>(writer: &mut W, sufficient: &Sufficient) -> io::Result<()>
    ensures { Sends result (W.contents writer.old) (W.contents writer.new) (both_lines sufficient.now) }
{
    let iterations = sufficient.iterations;
    send_number(writer, b"frames", iterations, sufficient.frames)?;
    send_number(writer, b"steps", iterations, sufficient.steps)
}
