//! What is true of the report of every run, whatever the object is.

use schedule::config::Config;
use schedule::report::Report;
use semantics::report::End;
use std::alloc::{AllocError, Global};
use tags::token::{To, Token};

/// How many events were of each kind.
#[derive(Clone, Copy)]
struct Counts {
    requests: u64,
    releases: u64,
    fetches: u64,
    stores: u64,
    /// Words that were sent to the host.
    results: u64,
}

fn counts_of(events: &[(u32, Token)]) -> Counts {
    let mut counts = Counts {
        requests: 0,
        releases: 0,
        fetches: 0,
        stores: 0,
        results: 0,
    };
    for (_element, token) in events {
        let count = match token.to {
            To::Instr { .. } => continue,
            To::Manager => &mut counts.requests,
            To::Release { .. } => &mut counts.releases,
            To::Fetch { .. } => &mut counts.fetches,
            To::Store { .. } => &mut counts.stores,
            To::Host { .. } => &mut counts.results,
        };
        *count = count.wrapping_add(1);
    }
    counts
}

/// How many events each element made; `None` where an element took a token that is not addressed to it.
fn made_by(
    alloc: Global,
    events: &[(u32, Token)],
    elements: u64,
) -> Result<Option<Vec<u64>>, AllocError> {
    let mut made = Vec::new(alloc);
    made.resize(elements as usize, 0u64)?;
    let count = u32::try_from(elements).unwrap_or(0);
    for (element, token) in events {
        if count == 0 || token.to.element(count) != *element {
            return Ok(None);
        }
        if let Some(number) = made.get_mut(*element as usize) {
            *number = number.wrapping_add(1);
        }
    }
    Ok(Some(made))
}

/// What a run takes its order of events from.
#[derive(Clone, Copy, PartialEq, Eq)]
pub enum Order {
    Mode,
    /// A list of picks, which may be used up.
    List,
}

/// Whether each event is made by the element to which its token is addressed; no element makes more events than it may; and
/// where the end is `Steps` and no list was used up, one element made all that it may.
fn has_few_events(
    alloc: Global,
    report: &Report<Global>,
    config: Config,
    order: Order,
) -> Result<bool, AllocError> {
    let Some(made) = made_by(alloc, &report.events, config.elements)? else {
        return Ok(false);
    };
    let is_few = made.iter().all(|count| *count <= config.steps);
    let is_full = made.iter().any(|count| *count == config.steps);
    Ok(is_few && (order == Order::List || report.end != End::Steps || is_full))
}

/// Whether cell `index` of array `array` is full. Cells are numbered through all arrays.
fn has_cell(report: &Report<Global>, arrays: &[u64], array: u8, index: u32) -> bool {
    let mut number = u64::from(index);
    for length in arrays.iter().take(usize::from(array)) {
        number = number.wrapping_add(*length);
    }
    report
        .cells
        .iter()
        .any(|(cell, _value)| u64::from(*cell) == number)
}

/// Whether a run of an object may have this end, and whether the end fits what waits and what the cells are.
pub fn has_end(report: &Report<Global>, arrays: &[u64]) -> bool {
    let waits = report.waiting_frames > 0 || report.waiting_credits > 0;
    match report.end {
        End::Rest => !waits,
        End::Starved => waits,
        End::Clash { array, index } => has_cell(report, arrays, array, index),
        End::Steps => true,
        End::Stuck { rule } => matches!(rule, 1 | 3..=6),
        End::Memory | End::Stop => false,
    }
}

/// Whether the numbers of frames, cells, readers and outputs follow from the events. Main's frame is out at first. Each request
/// is granted a frame or waits, and it waits only where all frames are out. Each release frees a frame, or passes it on. Each
/// store fills a cell. Each word for the host is an output, except for the one at the end.
fn has_made(report: &Report<Global>, config: Config) -> bool {
    let counts = counts_of(&report.events);
    let total = config.elements.wrapping_mul(config.frames);
    let gone = report
        .frames_out
        .wrapping_add(report.waiting_frames)
        .wrapping_add(counts.releases);
    let outputs = report
        .outputs
        .iter()
        .filter(|output| output.is_some())
        .count() as u64;
    gone == counts.requests.wrapping_add(1)
        && report.frames_out <= total
        && (report.waiting_frames == 0 || report.frames_out == total)
        && report.cells.len() as u64 == counts.stores
        && report.deferred <= counts.fetches
        && outputs <= counts.results
        && counts.results <= outputs.wrapping_add(1)
}

/// Whether what the report says is possible, for an object with arrays of these lengths.
pub fn is_sound(
    alloc: Global,
    report: &Report<Global>,
    arrays: &[u64],
    config: Config,
    order: Order,
) -> Result<bool, AllocError> {
    Ok(
        has_end(report, arrays)
            && has_made(report, config)
            && has_few_events(alloc, report, config, order)?,
    )
}
