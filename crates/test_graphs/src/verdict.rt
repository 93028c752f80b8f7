//! Whether what a run reports agrees with the graph's meaning.

use driver::fault::Fault;
use oracle::{MeanEnd, MeanReport};
use schedule::report::Report;
use semantics::report::End;
use std::alloc::Global;
use tags::value::Value;
use test_inputs::random_graphs::graphs::Graph;

/// The outcome of comparing a run with the meaning.
#[derive(Clone, Copy, PartialEq, Eq)]
pub enum Verdict {
    /// The run came to rest with all that the meaning has, and nothing else.
    Rested,
    /// A request waits at the end. The meaning has all that the run has.
    Starved,
    /// A store met a full cell, as one does in the meaning. Which one it is may depend on the order: whether it is the meaning's.
    Clashed { is_meant: bool },
    /// The list of picks, or the limit of steps, was too short. The meaning has all that the run has.
    CutOff,
    Differs,
}

/// The number of a cell over all arrays; `None` where there is no such cell.
fn cell_number(graph: &Graph, array: usize, index: u32) -> Option<u64> {
    let mut number = u64::from(index);
    for before in graph.arrays.iter().take(array) {
        number = number.wrapping_add(before.len);
    }
    let is_there = u64::from(index) < graph.arrays.get(array)?.len;
    is_there.then_some(number)
}

/// Whether the meaning has this cell with this value.
fn has_cell(graph: &Graph, meaning: &MeanReport<Global>, number: u32, value: Value) -> bool {
    for full in &meaning.cells {
        if cell_number(graph, full.array, full.index) == Some(u64::from(number)) {
            return full.value == value;
        }
    }
    false
}

/// Whether the report shows this cell full.
fn shows_full(graph: &Graph, report: &Report<Global>, array: usize, index: u32) -> bool {
    match cell_number(graph, array, index) {
        Some(number) => report
            .cells
            .iter()
            .any(|(cell, _value)| u64::from(*cell) == number),
        None => false,
    }
}

/// Whether the meaning has each output and each cell that the run has.
fn has_all(graph: &Graph, meaning: &MeanReport<Global>, report: &Report<Global>) -> bool {
    for (port, output) in report.outputs.iter().enumerate() {
        if output.is_some() && meaning.outputs.get(port) != Some(output) {
            return false;
        }
    }
    for (number, value) in &report.cells {
        if !has_cell(graph, meaning, *number, *value) {
            return false;
        }
    }
    true
}

/// Whether a run at rest has exactly what the meaning has, and as many waiting readers as other runs had. Where no reader
/// waits, no frame may be left out.
fn is_same(
    graph: &Graph,
    meaning: &MeanReport<Global>,
    deferred: Option<u64>,
    report: &Report<Global>,
) -> bool {
    report.outputs.as_slice() == meaning.outputs.as_slice()
        && report.cells.len() == meaning.cells.len()
        && has_all(graph, meaning, report)
        && deferred.unwrap_or(report.deferred) == report.deferred
        && report.waiting_frames == 0
        && report.waiting_credits == 0
        && (report.deferred > 0 || report.frames_out == 0)
}

/// Compares a run that ends at a second store with the meaning, which ends so too. The cell has to be one that the run shows full.
fn clash_verdict(
    graph: &Graph,
    meaning: &MeanReport<Global>,
    report: &Report<Global>,
    array: u8,
    index: u32,
) -> Verdict {
    let array = usize::from(array);
    if !shows_full(graph, report, array, index) {
        return Verdict::Differs;
    }
    Verdict::Clashed {
        is_meant: meaning.end == MeanEnd::Clash { array, index },
    }
}

/// Compares a run with the meaning. `deferred` is the number of readers that waited at the end of another run that rested, if
/// there was one.
pub fn verdict_of(
    graph: &Graph,
    meaning: &MeanReport<Global>,
    deferred: Option<u64>,
    run: &Result<Report<Global>, Fault>,
) -> Verdict {
    let Ok(report) = run else {
        return Verdict::Differs;
    };
    let rests = meaning.end == MeanEnd::Rest;
    let waits = report.waiting_frames > 0 || report.waiting_credits > 0;
    let is_within = !rests || has_all(graph, meaning, report);
    match report.end {
        End::Rest if rests && is_same(graph, meaning, deferred, report) => Verdict::Rested,
        End::Starved if waits && is_within => Verdict::Starved,
        End::Clash { array, index } if !rests => clash_verdict(
            graph, meaning, report, array, index,
        ),
        End::Steps if is_within => Verdict::CutOff,
        _ => Verdict::Differs,
    }
}
