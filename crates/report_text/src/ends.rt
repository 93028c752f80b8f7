//! What waits at the end of a run, and the line that reports the end.

ghost use Rattle.std.specs.Prelude.{◌≡◌, ◌++◌, ◌∷◌, [], ℕ, List, codes, decimal};
ghost use Rattle.semantics.specs.Text.{field, line};
ghost use Rattle.report_text.specs.ReportText.{name_at, counts, clash_line, end_line, meaning_end};
ghost use Rattle.sink.specs.Sends.{Sends};

use crate::cells::name_at;
use graph::Array;
use itoa::Buffer;
use oracle::MeanEnd;
use schedule::report::Report;
use semantics::report::End;
use sink::{send, send_all};
use std::alloc::Allocator;
use std::io::{self, Write};

/// Writes the lines that say what waits: deferred readers, requests for frames and for credits, and how many frames are out.
pub(crate) fn send_counts<A: Allocator, W: Write>(
    writer: &mut W,
    report: &Report<A>,
) -> io::Result<()>
    ensures { Sends result (W.contents writer.old) (W.contents writer.new) (counts report.now) }
{
    let mut first = Buffer::new();
    let mut second = Buffer::new();
    let mut third = Buffer::new();
    let mut fourth = Buffer::new();
    let deferred = first.format(report.deferred).as_bytes();
    let frames = second.format(report.waiting_frames).as_bytes();
    let credits = third.format(report.waiting_credits).as_bytes();
    let out = fourth.format(report.frames_out).as_bytes();
    send_all(
        writer,
        &[
            b"deferred ",
            deferred,
            b"\nwaiting ",
            frames,
            b" ",
            credits,
            b"\nframes ",
            out,
            b"\n",
        ],
    )
}

/// Writes the last line of a run in which a store met a full cell.
fn send_clash<W: Write>(
    writer: &mut W,
    arrays: &[Array<'_>],
    array: usize,
    index: u32,
) -> io::Result<()>
    ensures { Sends result (W.contents writer.old) (W.contents writer.new) (clash_line arrays.now array index) }
{
    let mut digits = Buffer::new();
    let name = name_at(arrays, array);
    let index = digits.format(index).as_bytes();
    send_all(writer, &[b"end Clash ", name, b" ", index, b"\n"])
}

/// Writes the last line of a report.
pub(crate) fn send_end<W: Write>(writer: &mut W, arrays: &[Array<'_>], end: End) -> io::Result<()>
    ensures { Sends result (W.contents writer.old) (W.contents writer.new) (end_line arrays.now end) }
{
    match end {
        End::Rest => send(writer, b"end Rest\n"),
        End::Starved => send(writer, b"end Starved\n"),
        End::Clash { array, index } => send_clash(writer, arrays, array as usize, index),
        End::Steps => send(writer, b"end Steps\n"),
        End::Stuck { rule } => {
            let mut digits = Buffer::new();
            send_all(
                writer,
                &[b"end Stuck ", digits.format(rule).as_bytes(), b"\n"],
            )
        }
        End::Memory => send(writer, b"end Memory\n"),
        End::Stop => send(writer, b"end Stop\n"),
    }
}

/// Writes the last line of what the meaning gave.
pub(crate) fn send_meaning_end<W: Write>(
    writer: &mut W,
    arrays: &[Array<'_>],
    end: MeanEnd,
) -> io::Result<()>
    ensures { Sends result (W.contents writer.old) (W.contents writer.new) (meaning_end arrays.now end) }
{
    match end {
        MeanEnd::Rest => send(writer, b"end Rest\n"),
        MeanEnd::Clash { array, index } => send_clash(writer, arrays, array, index),
        MeanEnd::Steps => send(writer, b"end Steps\n"),
    }
}
