//! What is printed of a report.

ghost use Rattle.std.specs.Prelude.{◌≡◌, ◌++◌, None, option_map};
ghost use Rattle.semantics.specs.Text.{line};
ghost use Rattle.sink.specs.Sends.{Sends};
ghost use Rattle.chosen_cells.specs.Chosen.{chosen, closing, line_text, row_of_line};

use crate::cell::cell_of;
use crate::choice::{is_chosen, row_of};
use crate::row::{OpenRow, close, send_in_row};
use graph_file::Parts;
use sink::{send, send_all};
use std::io::{self, Write};

/// Writes the line as it is.
fn send_text<W: Write>(writer: &mut W, text: &[u8]) -> io::Result<()>
    ensures { Sends result (W.contents writer.old) (W.contents writer.new) (line text.now) }
{
    send_all(writer, &[text, b"\n"])
}

/// Writes the line as it is, after the row that is open.
fn send_whole<W: Write>(writer: &mut W, row: &Option<OpenRow<'_>>, text: &[u8]) -> io::Result<()>
    ensures { Sends result (W.contents writer.old) (W.contents writer.new) (closing row.now ++ line text.now) }
{
    close(writer, row)?;
    send_text(writer, text)
}

/// Writes what is after the last line feed.
fn send_last<W: Write>(writer: &mut W, row: &Option<OpenRow<'_>>, text: &[u8]) -> io::Result<()>
    ensures { Sends result (W.contents writer.old) (W.contents writer.new) (closing row.now ++ text.now) }
{
    close(writer, row)?;
    send(writer, text)
}

/// Writes what is printed of a line.
fn send_line<W: Write>(
    writer: &mut W,
    cells: Option<&str>,
    grid: Option<&str>,
    row: &Option<OpenRow<'_>>,
    text: &[u8],
) -> io::Result<()>
    ensures { Sends result (W.contents writer.old) (W.contents writer.new)
        (line_text (option_map (λ s. s.now) cells.entry) (option_map (λ s. s.now) grid.entry) row.now text.now) }
{
    let Some((name, index, value)) = cell_of(text) else {
        return send_whole(writer, row, text);
    };
    if !is_chosen(cells, name) {
        return send(writer, b"");
    }
    match row_of(grid, name) {
        Some(length) => send_in_row(writer, row, name, index, value, length),
        None => send_whole(writer, row, text),
    }
}

/// The row that is open after the line.
fn row_after<'a>(
    cells: Option<&str>,
    grid: Option<&str>,
    row: Option<OpenRow<'a>>,
    text: &'a [u8],
) -> Option<OpenRow<'a>>
    ensures { result ≡ row_of_line (option_map (λ s. s.now) cells.entry) (option_map (λ s. s.now) grid.entry) row.entry text.now }
{
    let Some((name, index, _value)) = cell_of(text) else {
        return None;
    };
    if !is_chosen(cells, name) {
        return row;
    }
    match row_of(grid, name) {
        Some(length) => Some(OpenRow::after(name, index, length)),
        None => None,
    }
}

/// Writes what is printed of a report with this text, where `--cells` and `--grid` have these values: of the arrays that `cells` names,
/// or of all where it is `None`, the full cells, those of arrays that `grid` names in rows, as `A=8,B=4`; and all other lines as they
/// are. After an `Err` a beginning of it was written. Takes no memory.
pub fn write_chosen<W: Write>(
    writer: &mut W,
    cells: Option<&str>,
    grid: Option<&str>,
    text: &[u8],
) -> io::Result<()>
    ensures { Sends result (W.contents writer.old) (W.contents writer.new)
        (chosen (option_map (λ s. s.now) cells.entry) (option_map (λ s. s.now) grid.entry) text.now) }
{
    let mut lines = Parts::of(text, b'\n');
    let mut row = None;
    while let Some((line, rest)) = lines.split_first() {
        if rest.has(0) {
            return send_last(writer, &row, line);
        }
        send_line(writer, cells, grid, &row, line)?;
        row = row_after(cells, grid, row, line);
        lines = rest;
    }
    close(writer, &row)
}
