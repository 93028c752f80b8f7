//! The report of a run of an object, whose arrays have numbers instead of names.

ghost use Rattle.std.specs.Prelude.{◌≡◌, flat_map, decimal, option_map};
ghost use Rattle.report_text.specs.ReportText.{name_at, place_in, cell_line, clash_line, end_line, named_by_number, object_report_text};
ghost use Rattle.sink.specs.Sends.{Sends};

use crate::cells::{send_named, send_unplaced};
use crate::ends::{send_counts, send_end};
use crate::outputs::send_outputs;
use itoa::Buffer;
use object_view::Object;
use schedule::report::Report;
use semantics::report::End;
use sink::send_all;
use std::alloc::Allocator;
use std::io::{self, Write};
use tags::value::Value;

/// The digits of the array's number, written into the buffer; empty where there is no array with this number.
fn name_at<'b>(buffer: &'b mut Buffer, object: &Object<'_>, number: u32) -> &'b [u8]
    ensures { result.now ≡ name_at (named_by_number 0 object.now.code.program.arrays) number }
{
    if number < object.array_count() {
        buffer.format(number).as_bytes()
    } else {
        b""
    }
}

/// The number of the array in which the cell lies, and the cell's index in it.
fn place_in(object: &Object<'_>, cell: u32) -> Option<(u32, u32)>
    ensures { option_map (λ p. (decimal p.0, p.1)) result ≡ place_in (named_by_number 0 object.now.code.program.arrays) cell }
{
    let mut index = cell;
    for number in 0..object.array_count() {
        let Some(len) = object.array(number) else {
            unreachable!();
        };
        if u64::from(index) < len {
            return Some((number, index));
        }
        index -= len as u32;
    }
    None
}

/// Writes the line of a full cell, which is given by its number over all arrays.
fn send_cell<W: Write>(writer: &mut W, object: &Object<'_>, cell: &(u32, Value)) -> io::Result<()>
    ensures { Sends result (W.contents writer.old) (W.contents writer.new) (cell_line (named_by_number 0 object.now.code.program.arrays) cell.now) }
{
    let (place, value) = *cell;
    match place_in(object, place) {
        Some((number, index)) => {
            let mut digits = Buffer::new();
            send_named(writer, digits.format(number).as_bytes(), index, value)
        }
        None => send_unplaced(writer, value),
    }
}

/// Writes the lines of the full cells, which are given by their numbers over all arrays.
fn send_cells<W: Write>(
    writer: &mut W,
    object: &Object<'_>,
    cells: &[(u32, Value)],
) -> io::Result<()>
    ensures { Sends result (W.contents writer.old) (W.contents writer.new) (flat_map (cell_line (named_by_number 0 object.now.code.program.arrays)) cells.now) }
{
    for cell in cells {
        send_cell(writer, object, cell)?;
    }
    Ok(())
}

/// Writes the last line of a run in which a store met a full cell.
fn send_clash<W: Write>(
    writer: &mut W,
    object: &Object<'_>,
    array: u32,
    index: u32,
) -> io::Result<()>
    ensures { Sends result (W.contents writer.old) (W.contents writer.new) (clash_line (named_by_number 0 object.now.code.program.arrays) array index) }
{
    let mut first = Buffer::new();
    let mut second = Buffer::new();
    let name = name_at(&mut first, object, array);
    let index = second.format(index).as_bytes();
    send_all(writer, &[b"end Clash ", name, b" ", index, b"\n"])
}

/// Writes the last line of a report. Only for a clash does it differ from the line of a report with names.
fn send_object_end<W: Write>(writer: &mut W, object: &Object<'_>, end: End) -> io::Result<()>
    ensures { Sends result (W.contents writer.old) (W.contents writer.new) (end_line (named_by_number 0 object.now.code.program.arrays) end) }
{
    match end {
        End::Clash { array, index } => send_clash(writer, object, u32::from(array), index),
        end => send_end(writer, &[], end),
    }
}

/// Writes the report of a run of the object: its outputs, its full cells, what waits, and its end. The writer is called
/// until it has taken all of it; a call that takes no byte is a fault. After an `Err` a beginning of the text was written.
/// Takes no memory.
pub fn write_object_report<A: Allocator, W: Write>(
    writer: &mut W,
    object: &Object<'_>,
    report: &Report<A>,
) -> io::Result<()>
    ensures { Sends result (W.contents writer.old) (W.contents writer.new) (object_report_text object.now.code.program.arrays report.now) }
{
    send_outputs(writer, report.outputs.as_slice())?;
    send_cells(writer, object, &report.cells)?;
    send_counts(writer, report)?;
    send_object_end(writer, object, report.end)
}
