//! Where a fault was made that an output or a cell has.

use crate::catalog::Text;
use crate::lines::{is, line_at, text_at};
use crate::message::Found;
use crate::sources::{Node, Source, name_at};
use outcomes::MadeFault;
use tags::value::FaultKind;

/// The most arrays of a graph.
const ARRAYS: u64 = 64;

/// How many codes of origins there are for each block.
const NODES: u32 = 1_024;

/// The cells of the array with this name, where the graph has one.
fn cells_of(graph: &[u8], name: &str) -> Option<u64> {
    for number in 2..ARRAYS.saturating_add(2) {
        let line = line_at(graph, number);
        if !is(text_at(line, 0), "array") {
            return None;
        }
        if is(text_at(line, 1), name) {
            return text_at(line, 2).parse().ok();
        }
    }
    None
}

/// What went wrong.
fn cause_of(kind: FaultKind) -> Text {
    match kind {
        FaultKind::Zero => "fault-zero",
        FaultKind::Range => "fault-range",
    }
}

/// What went wrong, and the cells of the array of which it is said, where that is known to have so many.
fn cause_in(kind: FaultKind, cells: Option<u64>) -> (Text, u64) {
    match (kind, cells) {
        (FaultKind::Range, Some(cells)) => ("fault-range-of", cells),
        _ => (cause_of(kind), 0),
    }
}

/// What went wrong at this node of the graph.
fn found_at<'a>(graph: &'a [u8], kind: FaultKind, node: Node) -> Found<'a> {
    let name = name_at(graph, node);
    let (cause, cells) = cause_in(kind, cells_of(graph, name));
    let numbers = [0, 0, cells, 0, 0, 0];
    Found::of(None, cause, [name; 2], [b""; 3], numbers)
}

/// What is said of a fault that was made at this node, where what was run is not known.
fn elsewhere<'a>(kind: FaultKind, node: Node) -> Found<'a> {
    let place = "node $e of block number $f of the graph made the fault";
    let numbers = [0, 0, 0, 0, node.node, node.block];
    Found::of(Some(place), cause_of(kind), [""; 2], [b""; 3], numbers)
}

/// What is said of a fault that was made at this node, at its place, where what was run is known.
fn placed<'a>(source: Option<Source<'_, 'a>>, kind: FaultKind, node: Node) -> Option<Found<'a>> {
    let source = source?;
    source.at(found_at(source.graph, kind, node), node)
}

/// What was found, or else what is said where what was run is not known.
fn placed_or_elsewhere<'a>(found: Option<Found<'a>>, kind: FaultKind, node: Node) -> Found<'a> {
    match found {
        Some(found) => found,
        None => elsewhere(kind, node),
    }
}

/// What is said of this fault in a run of what this source says.
pub fn found_fault<'a>(source: Option<Source<'_, 'a>>, fault: MadeFault) -> Found<'a> {
    let Some(code) = fault.origin.checked_sub(1) else {
        let cause = match source {
            Some(_) => "fault-untold",
            None => "fault-untold-code",
        };
        return Found::of(Some(cause_of(fault.kind)), cause, [""; 2], [b""; 3], [0; 6]);
    };
    let node = Node {
        block: u64::from(code / NODES),
        node: u64::from(code % NODES),
    };
    placed_or_elsewhere(placed(source, fault.kind, node), fault.kind, node)
}
