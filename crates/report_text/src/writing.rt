//! Whole reports.

ghost use Rattle.std.specs.Prelude.{◌≡◌, ◌++◌, ℕ, List, flat_map};
ghost use Rattle.report_text.specs.ReportText.{report_text, meaning_text};
ghost use Rattle.sink.specs.Sends.{Sends};

use crate::cells::{send_cells, send_fulls};
use crate::ends::{send_counts, send_end, send_meaning_end};
use crate::outputs::send_outputs;
use graph::Graph;
use oracle::MeanReport;
use schedule::report::Report;
use std::alloc::Allocator;
use std::io::{self, Write};

/// Writes the report of a run of the graph: its outputs, its full cells, what waits, and its end. The writer is called
/// until it has taken all of it; a call that takes no byte is a fault. After an `Err` a beginning of the text was written.
/// Takes no memory.
pub fn write_report<'a, A: Allocator, W: Write>(
    writer: &mut W,
    graph: &Graph<'a, A>,
    report: &Report<A>,
) -> io::Result<()>
    ensures { Sends result (W.contents writer.old) (W.contents writer.new) (report_text graph.now.arrays report.now) }
{
    send_outputs(writer, report.outputs.as_slice())?;
    send_cells(writer, &graph.arrays, &report.cells)?;
    send_counts(writer, report)?;
    send_end(writer, &graph.arrays, report.end)
}

/// Writes what the meaning of the graph gave: its outputs, its full cells and its end. The writer is called until it has
/// taken all of it; a call that takes no byte is a fault. After an `Err` a beginning of the text was written. Takes no
/// memory.
pub fn write_meaning<'a, A: Allocator, W: Write>(
    writer: &mut W,
    graph: &Graph<'a, A>,
    report: &MeanReport<A>,
) -> io::Result<()>
    ensures { Sends result (W.contents writer.old) (W.contents writer.new) (meaning_text graph.now.arrays report.now.outputs.items
        report.now.cells.items report.now.end) }
{
    send_outputs(writer, &report.outputs)?;
    send_fulls(writer, &graph.arrays, &report.cells)?;
    send_meaning_end(writer, &graph.arrays, report.end)
}
