//! The page around the texts and the data.

ghost use Rattle.std.specs.Prelude.{◌≡◌, ◌++◌};
ghost use Rattle.html_text.specs.PageText.{part_text, large_mark};
ghost use Rattle.sink.specs.Sends.{Sends};

use crate::beside::BESIDE;
use crate::lists::LISTS;
use crate::model::MODEL;
use crate::picture::PICTURE;
use crate::style::{TO_DATA, TO_LISTING, TO_REPORT, TOP};
use sink::send;
use std::io::{self, Write};

/// The parts of the page's own source, in order. Between them are the graph with its inputs, the listing of its code, the report of the
/// run, and the data.
#[derive(Clone, Copy, Debug, PartialEq, Eq)]
pub enum Part {
    /// Up to the graph.
    Top,
    /// Between the inputs and the listing.
    ToListing,
    /// Between the listing and the report.
    ToReport,
    /// Between the report and the data.
    ToData,
    /// After the data: the script.
    Script,
}

/// The script.
fn send_script<W: Write>(writer: &mut W) -> io::Result<()>
    ensures { Sends result (W.contents writer.old) (W.contents writer.new) (MODEL.now ++ PICTURE.now ++ BESIDE.now ++ LISTS.now) }
{
    send(writer, MODEL)?;
    send(writer, PICTURE)?;
    send(writer, BESIDE)?;
    send(writer, LISTS)
}

/// Writes a part of the page's own source. The writer is called until it has taken all of it; a call that takes no byte is a fault. After
/// an `Err` a beginning of the text was written. Takes no memory.
pub fn write_part<W: Write>(writer: &mut W, part: Part) -> io::Result<()>
    ensures { Sends result (W.contents writer.old) (W.contents writer.new) (part_text part) }
{
    match part {
        Part::Top => send(writer, TOP),
        Part::ToListing => send(writer, TO_LISTING),
        Part::ToReport => send(writer, TO_REPORT),
        Part::ToData => send(writer, TO_DATA),
        Part::Script => send_script(writer),
    }
}

/// A page of more events than this is slow to open.
const LARGE: usize = 1_000_000;

fn large_mark(events: usize) -> &'static [u8]
    ensures { result.now ≡ large_mark events }
{
    if LARGE < events {
        b"<!-- large -->\n"
    } else {
        b""
    }
}

/// Writes what is after a page of so many events: a mark, if they are many. The writer is called until it has taken all of it; a call that
/// takes no byte is a fault. After an `Err` a beginning of the text was written. Takes no memory.
pub fn write_mark<W: Write>(writer: &mut W, events: usize) -> io::Result<()>
    ensures { Sends result (W.contents writer.old) (W.contents writer.new) (large_mark events) }
{
    send(writer, large_mark(events))
}
