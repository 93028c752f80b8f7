//! A row of cells.

ghost use Rattle.std.specs.Prelude.{◌≡◌, ◌<◌, ◌++◌, ◌%◌, ℕ, List, codes, decimal};
ghost use Rattle.semantics.specs.Text.{field};
ghost use Rattle.sink.specs.Sends.{Sends};
ghost use Rattle.chosen_cells.specs.Chosen.{beginning, closing, empty_cells, first_of, goes_on, printed_of, row_after, row_text, value_after};

use itoa::Buffer;
use sink::{send, send_all};
use std::io::{self, Write};
use std::marker::Model;

/// The name of an array. Contracts see its bytes.
#[derive(Drop)]
struct ArrayName<'a> {
    bytes: &'a [u8],
}

impl<'a> Model for ArrayName<'a> {
    ghost use Rattle.std.specs.Prelude.{ℕ, List};

    ghost Value = { List ℕ };

    ghost view = { λ n. n.bytes.now };
}

/// A row that is open: its line has no end yet.
#[derive(Drop)]
pub(crate) struct OpenRow<'a> {
    name: ArrayName<'a>,
    /// The index of its first cell.
    first: u64,
    /// How many of its cells are printed.
    printed: u64,
}

impl<'a> Model for OpenRow<'a> {
    ghost use Rattle.chosen_cells.specs.Chosen.{Row};

    ghost Value = { Row };

    ghost view = { λ r. record { name = r.name; first = r.first; printed = r.printed } };
}

/// The index of the first cell of the row in which the cell with this index is.
fn first_of(index: u32, length: u64) -> u64
    requires { 0 < length }
    ensures { result ≡ first_of index length }
{
    u64::from(index) - u64::from(index) % length
}

/// The cell's place in its row.
fn place_of(index: u32, length: u64) -> u64
    requires { 0 < length }
    ensures { result ≡ index % length }
{
    u64::from(index) % length
}

impl<'a> OpenRow<'a> {
    /// The row that is open after this cell.
    pub(crate) fn after(name: &'a [u8], index: u32, length: u64) -> OpenRow<'a>
        requires { 0 < length }
        ensures { result ≡ row_after name.now index length }
    {
        OpenRow {
            name: ArrayName { bytes: name },
            first: first_of(index, length),
            printed: place_of(index, length) + 1,
        }
    }
}

/// The end of the row's line, if one is open.
fn closing(row: &Option<OpenRow<'_>>) -> &'static [u8]
    ensures { result.now ≡ closing row.now }
{
    match row {
        Some(_row) => b"\n",
        None => b"",
    }
}

/// Ends the line of the row, if one is open.
pub(crate) fn close<W: Write>(writer: &mut W, row: &Option<OpenRow<'_>>) -> io::Result<()>
    ensures { Sends result (W.contents writer.old) (W.contents writer.new) (closing row.now) }
{
    send(writer, closing(row))
}

/// Writes this many empty cells.
fn send_empty<W: Write>(writer: &mut W, count: u64) -> io::Result<()>
    ensures { Sends result (W.contents writer.old) (W.contents writer.new) (empty_cells count) }
{
    for _ in 0..count {
        send(writer, b" -")?;
    }
    Ok(())
}

/// Whether the cell is in the row that is open, behind the cells that are printed of it.
fn goes_on(row: &Option<OpenRow<'_>>, name: &[u8], index: u32, length: u64) -> bool
    requires { 0 < length }
    ensures { result ≡ goes_on row.now name.now index length }
{
    match row {
        Some(row) => {
            row.name.bytes == name
                && row.first == first_of(index, length)
                && row.printed <= place_of(index, length)
        }
        None => false,
    }
}

/// How many cells of the row are printed that is open.
fn printed_of(row: &Option<OpenRow<'_>>) -> u64
    ensures { result ≡ printed_of row.now }
{
    match row {
        Some(row) => row.printed,
        None => 0,
    }
}

/// Writes the beginning of the row in which the cell with this index is.
fn send_beginning<W: Write>(writer: &mut W, name: &[u8], index: u32, length: u64) -> io::Result<()>
    requires { 0 < length }
    ensures { Sends result (W.contents writer.old) (W.contents writer.new) (beginning name.now index length) }
{
    let mut digits = Buffer::new();
    let first = digits.format(first_of(index, length)).as_bytes();
    send_all(writer, &[b"cells ", name, b" ", first])
}

/// Ends the row that is open, and writes the beginning of the next one.
fn begin<W: Write>(
    writer: &mut W,
    row: &Option<OpenRow<'_>>,
    name: &[u8],
    index: u32,
    length: u64,
) -> io::Result<()>
    requires { 0 < length }
    ensures { Sends result (W.contents writer.old) (W.contents writer.new) (closing row.now ++ beginning name.now index length) }
{
    close(writer, row)?;
    send_beginning(writer, name, index, length)
}

/// Writes the value after a space.
fn send_value<W: Write>(writer: &mut W, value: &[u8]) -> io::Result<()>
    ensures { Sends result (W.contents writer.old) (W.contents writer.new) (field value.now) }
{
    send_all(writer, &[b" ", value])
}

/// Writes the value after this many empty cells.
fn send_after<W: Write>(writer: &mut W, count: u64, value: &[u8]) -> io::Result<()>
    ensures { Sends result (W.contents writer.old) (W.contents writer.new) (value_after count value.now) }
{
    send_empty(writer, count)?;
    send_value(writer, value)
}

/// Writes the cell in a row that begins.
fn send_first<W: Write>(
    writer: &mut W,
    row: &Option<OpenRow<'_>>,
    name: &[u8],
    index: u32,
    value: &[u8],
    length: u64,
) -> io::Result<()>
    requires { 0 < length }
    ensures { Sends result (W.contents writer.old) (W.contents writer.new)
        ((closing row.now ++ beginning name.now index length) ++ value_after (index % length) value.now) }
{
    begin(writer, row, name, index, length)?;
    send_after(writer, place_of(index, length), value)
}

/// Writes the cell in its row: after the row that is open, if it goes on with that, or in a row that begins.
pub(crate) fn send_in_row<W: Write>(
    writer: &mut W,
    row: &Option<OpenRow<'_>>,
    name: &[u8],
    index: u32,
    value: &[u8],
    length: u64,
) -> io::Result<()>
    requires { 0 < length }
    ensures { Sends result (W.contents writer.old) (W.contents writer.new) (row_text row.now name.now index value.now length) }
{
    if goes_on(row, name, index, length) {
        let count = place_of(index, length).saturating_sub(printed_of(row));
        send_after(writer, count, value)
    } else {
        send_first(writer, row, name, index, value, length)
    }
}
