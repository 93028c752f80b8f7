//! The lines of full cells.

ghost use Rattle.std.specs.Prelude.{◌≡◌, ◌++◌, ◌∷◌, [], ℕ, List, codes, decimal, flat_map, option_map};
ghost use Rattle.semantics.specs.Text.{field, line};
ghost use Rattle.report_text.specs.ReportText.{name_at, place_in, cell_text, cell_line, full_line};
ghost use Rattle.sink.specs.Sends.{Sends};

use crate::outputs::send_value;
use graph::Array;
use itoa::Buffer;
use oracle::Full;
use sink::{send, send_all};
use std::io::{self, Write};
use tags::value::Value;

/// The name of array number `place`; empty where there is no such array.
pub(crate) fn name_at<'t>(arrays: &[Array<'t>], place: usize) -> &'t [u8]
    ensures { result.now ≡ name_at arrays.now place }
{
    match arrays.get(place) {
        Some(array) => array.name.bytes,
        None => b"",
    }
}

/// The name of the array in which the cell lies, and the cell's index in it.
fn place_in<'t>(arrays: &[Array<'t>], cell: u32) -> Option<(&'t [u8], u32)>
    ensures { option_map (λ p. (p.0.now, p.1)) result ≡ place_in arrays.now cell }
{
    let mut index = cell;
    for array in arrays {
        if index < array.len {
            return Some((array.name.bytes, index));
        }
        index -= array.len;
    }
    None
}

/// Writes the beginning of a full cell's line: the array's name and the cell's index in it.
fn send_place<W: Write>(writer: &mut W, name: &[u8], index: u32) -> io::Result<()>
    ensures { Sends result (W.contents writer.old) (W.contents writer.new) (codes "cell " ++ (name.now ++ field (decimal index))) }
{
    let mut digits = Buffer::new();
    send_all(
        writer,
        &[b"cell ", name, b" ", digits.format(index).as_bytes()],
    )
}

/// Writes the line of a full cell, which is given by its array's name and its index there.
pub(crate) fn send_named<W: Write>(
    writer: &mut W,
    name: &[u8],
    index: u32,
    value: Value,
) -> io::Result<()>
    ensures { Sends result (W.contents writer.old) (W.contents writer.new) (cell_text (name.now ++ field (decimal index)) value) }
{
    send_place(writer, name, index)?;
    send_value(writer, value)
}

/// Writes the line of a full cell that lies past the last array.
pub(crate) fn send_unplaced<W: Write>(writer: &mut W, value: Value) -> io::Result<()>
    ensures { Sends result (W.contents writer.old) (W.contents writer.new) (cell_text [] value) }
{
    send(writer, b"cell ")?;
    send_value(writer, value)
}

/// Writes the line of a full cell, which is given by its number over all arrays.
fn send_cell<W: Write>(writer: &mut W, arrays: &[Array<'_>], cell: &(u32, Value)) -> io::Result<()>
    ensures { Sends result (W.contents writer.old) (W.contents writer.new) (cell_line arrays.now cell.now) }
{
    let (number, value) = *cell;
    match place_in(arrays, number) {
        Some((name, index)) => send_named(writer, name, index, value),
        None => send_unplaced(writer, value),
    }
}

/// Writes the lines of the full cells, which are given by their numbers over all arrays.
pub(crate) fn send_cells<W: Write>(
    writer: &mut W,
    arrays: &[Array<'_>],
    cells: &[(u32, Value)],
) -> io::Result<()>
    ensures { Sends result (W.contents writer.old) (W.contents writer.new) (flat_map (cell_line arrays.now) cells.now) }
{
    for cell in cells {
        send_cell(writer, arrays, cell)?;
    }
    Ok(())
}

/// Writes the line of a full cell of the meaning.
fn send_full<W: Write>(writer: &mut W, arrays: &[Array<'_>], full: &Full) -> io::Result<()>
    ensures { Sends result (W.contents writer.old) (W.contents writer.new) (full_line arrays.now full.now) }
{
    send_named(writer, name_at(arrays, full.array), full.index, full.value)
}

/// Writes the lines of the full cells of the meaning.
pub(crate) fn send_fulls<W: Write>(
    writer: &mut W,
    arrays: &[Array<'_>],
    fulls: &[Full],
) -> io::Result<()>
    ensures { Sends result (W.contents writer.old) (W.contents writer.new) (flat_map (full_line arrays.now) fulls.now) }
{
    for full in fulls {
        send_full(writer, arrays, full)?;
    }
    Ok(())
}
