//! The lines of a profile.

ghost use Rattle.std.specs.Prelude.{◌≡◌, ◌++◌, codes, decimal, flat_map, length, slice_get};
ghost use Rattle.oracle.specs.Waves.{work};
ghost use Rattle.profile_text.specs.ProfileText.{totals_text, wave_line, waves_text, taken_text, row_end, row_line, name_of, end_line, both_lines, last_text};
ghost use Rattle.profile_text.specs.ProfileText.{profile_text};
ghost use Rattle.sink.specs.Sends.{Sends};

use crate::numbers::{parallelism_of, work_of};
use crate::sufficient::{Sufficient, send_sufficient};
use graph::{Array, Graph};
use itoa::Buffer;
use oracle::{MeanEnd, WaveReport};
use semantics::report::End;
use sink::{send, send_all};
use std::alloc::Allocator;
use std::io::{self, Write};

/// What a run of the machine with this number of elements took: rounds in which all elements act at once, tokens, and slots and frames
/// that were in use at once; and how it ended.
#[derive(Clone, Copy, Debug)]
pub struct MachineRow {
    pub elements: u64,
    pub rounds: u64,
    pub tokens: u64,
    pub slots: u64,
    pub frames: u64,
    pub end: End,
    /// How many requests for frames wait at the end.
    pub waiting_frames: u64,
    /// How many requests for credits wait at the end.
    pub waiting_credits: u64,
}

/// The lines of the work, the span and the parallelism.
fn send_totals<W: Write>(writer: &mut W, counts: &[u64]) -> io::Result<()>
    ensures { Sends result (W.contents writer.old) (W.contents writer.new) (totals_text (work counts.now) (length counts.now)) }
{
    let work = work_of(counts);
    let parallelism = parallelism_of(work, counts.len());
    let mut first = Buffer::new();
    let mut second = Buffer::new();
    let mut whole = Buffer::new();
    let mut tenths = Buffer::new();
    let mut hundredths = Buffer::new();
    send_all(
        writer,
        &[
            b"work ",
            first.format(work).as_bytes(),
            b"\nspan ",
            second.format(counts.len()).as_bytes(),
            b"\nparallelism ",
            whole.format(parallelism.whole).as_bytes(),
            b".",
            tenths.format(parallelism.hundredths / 10).as_bytes(),
            hundredths.format(parallelism.hundredths % 10).as_bytes(),
            b"\n",
        ],
    )
}

/// The line of a wave, by its place.
fn send_wave<W: Write>(writer: &mut W, place: usize, count: u64) -> io::Result<()>
    ensures { Sends result (W.contents writer.old) (W.contents writer.new) (wave_line place count) }
{
    let mut number = Buffer::new();
    let mut digits = Buffer::new();
    let number = number.format(place as u128 + 1).as_bytes();
    let digits = digits.format(count).as_bytes();
    send_all(writer, &[b"wave ", number, b" ", digits, b"\n"])
}

/// The lines of the waves.
fn send_waves<W: Write>(writer: &mut W, counts: &[u64]) -> io::Result<()>
    ensures { Sends result (W.contents writer.old) (W.contents writer.new) (waves_text counts.now) }
{
    for (place, count) in counts.iter().enumerate() {
        send_wave(writer, place, *count)?;
    }
    Ok(())
}

/// What the machine took.
fn send_taken<W: Write>(writer: &mut W, row: &MachineRow) -> io::Result<()>
    ensures { Sends result (W.contents writer.old) (W.contents writer.new) (taken_text row.now) }
{
    let mut first = Buffer::new();
    let mut second = Buffer::new();
    let mut third = Buffer::new();
    let mut fourth = Buffer::new();
    let mut fifth = Buffer::new();
    let elements = first.format(row.elements).as_bytes();
    let rounds = second.format(row.rounds).as_bytes();
    let tokens = third.format(row.tokens).as_bytes();
    let slots = fourth.format(row.slots).as_bytes();
    let frames = fifth.format(row.frames).as_bytes();
    send_all(
        writer,
        &[
            b"elements ",
            elements,
            b" rounds ",
            rounds,
            b" tokens ",
            tokens,
            b" slots ",
            slots,
            b" frames ",
            frames,
        ],
    )
}

/// The name of the array at that place, and none where there is no array.
fn name_at<'t>(arrays: &[Array<'t>], place: usize) -> &'t [u8]
    ensures { result.now ≡ name_of (slice_get arrays.now place) }
{
    match arrays.get(place) {
        Some(array) => array.name.bytes,
        None => b"",
    }
}

/// How a run ended that did not come to rest, and the end of its row.
fn send_row_end<W: Write>(writer: &mut W, arrays: &[Array<'_>], end: End) -> io::Result<()>
    ensures { Sends result (W.contents writer.old) (W.contents writer.new) (row_end arrays.now end) }
{
    match end {
        End::Rest => send(writer, b"\n"),
        End::Starved => send(writer, b" end Starved\n"),
        End::Clash { array, index } => {
            let mut digits = Buffer::new();
            let name = name_at(arrays, array as usize);
            let index = digits.format(index).as_bytes();
            send_all(writer, &[b" end Clash ", name, b" ", index, b"\n"])
        }
        End::Steps => send(writer, b" end Steps\n"),
        End::Stuck { rule } => {
            let mut digits = Buffer::new();
            let rule = digits.format(rule).as_bytes();
            send_all(writer, &[b" end Stuck ", rule, b"\n"])
        }
        End::Memory => send(writer, b" end Memory\n"),
        End::Stop => send(writer, b" end Stop\n"),
    }
}

/// The line of what the machine took.
fn send_row<W: Write>(writer: &mut W, arrays: &[Array<'_>], row: &MachineRow) -> io::Result<()>
    ensures { Sends result (W.contents writer.old) (W.contents writer.new) (row_line arrays.now row.now) }
{
    send_taken(writer, row)?;
    send_row_end(writer, arrays, row.end)
}

/// The lines of what the machine took.
fn send_rows<W: Write>(writer: &mut W, arrays: &[Array<'_>], rows: &[MachineRow]) -> io::Result<()>
    ensures { Sends result (W.contents writer.old) (W.contents writer.new) (flat_map (row_line arrays.now) rows.now) }
{
    for row in rows {
        send_row(writer, arrays, row)?;
    }
    Ok(())
}

/// The last line.
fn send_end<W: Write>(writer: &mut W, arrays: &[Array<'_>], end: MeanEnd) -> io::Result<()>
    ensures { Sends result (W.contents writer.old) (W.contents writer.new) (end_line arrays.now end) }
{
    match end {
        MeanEnd::Rest => send(writer, b"end Rest\n"),
        MeanEnd::Clash { array, index } => {
            let mut digits = Buffer::new();
            let name = name_at(arrays, array);
            let index = digits.format(index).as_bytes();
            send_all(writer, &[b"end Clash ", name, b" ", index, b"\n"])
        }
        MeanEnd::Steps => send(writer, b"end Steps\n"),
    }
}

/// What suffices in every order, if that is known, and the last line.
fn send_last<W: Write>(
    writer: &mut W,
    arrays: &[Array<'_>],
    sufficient: Option<Sufficient>,
    end: MeanEnd,
) -> io::Result<()>
    ensures { Sends result (W.contents writer.old) (W.contents writer.new) (last_text arrays.now sufficient end) }
{
    match sufficient {
        Some(sufficient) => send_before_end(writer, arrays, &sufficient, end),
        None => send_end(writer, arrays, end),
    }
}

/// What suffices in every order, and the last line.
fn send_before_end<W: Write>(
    writer: &mut W,
    arrays: &[Array<'_>],
    sufficient: &Sufficient,
    end: MeanEnd,
) -> io::Result<()>
    ensures { Sends result (W.contents writer.old) (W.contents writer.new) (both_lines sufficient.now ++ end_line arrays.now end) }
{
    send_sufficient(writer, sufficient)?;
    send_end(writer, arrays, end)
}

/// Writes the lines of a profile: the work, the span and the parallelism, each wave, what the machine took with each number of
/// elements, with the end of its run if that is not at rest, what suffices in every order, and the end of the waves. The writer is called until it has taken all of it; a call that takes no byte is a
/// fault. After an `Err` a beginning of the text was written. Takes no memory.
pub fn write_profile<'a, A: Allocator, W: Write>(
    writer: &mut W,
    graph: &Graph<'a, A>,
    waves: &WaveReport<A>,
    rows: &[MachineRow],
    sufficient: Option<Sufficient>,
) -> io::Result<()>
    ensures { Sends result (W.contents writer.old) (W.contents writer.new)
        (profile_text graph.now.arrays waves.now.counts.items rows.now sufficient waves.now.end) }
{
    send_totals(writer, &waves.counts)?;
    send_waves(writer, &waves.counts)?;
    send_rows(writer, &graph.arrays, rows)?;
    send_last(writer, &graph.arrays, sufficient, waves.end)
}
