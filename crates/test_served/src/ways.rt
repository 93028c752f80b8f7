//! The ways in which a graph is run: in each mode, by depth, too, on few and on many elements.

use crate::answer;
use std::alloc::{AllocError, Global};
use std::fmt;
use std::sync::Wait;
use std::thread::Threads;

/// The words of an order of events: a mode, and which of its tokens an element takes.
#[derive(Clone, Copy)]
struct Order {
    mode: &'static str,
    take: &'static str,
}

const BY_DEPTH: Order = Order {
    mode: "one",
    take: "depth",
};

const FREE_BY_DEPTH: Order = Order {
    mode: "free",
    take: "depth",
};

const ORDERS: [Order; 5] = [
    Order {
        mode: "one",
        take: "oldest",
    },
    BY_DEPTH,
    Order {
        mode: "rounds",
        take: "oldest",
    },
    Order {
        mode: "free",
        take: "oldest",
    },
    FREE_BY_DEPTH,
];

const ELEMENTS: [&str; 5] = ["1", "2", "4", "7", "16"];

/// The orders of events in which a program is run.
#[derive(Clone, Copy)]
pub enum Orders {
    All,
    /// By depth alone, since other runs starve. Nothing is said of cells.
    ByDepth,
}

impl Orders {
    fn list(self) -> &'static [Order] {
        match self {
            Orders::All => &ORDERS,
            Orders::ByDepth => &[BY_DEPTH, FREE_BY_DEPTH],
        }
    }

    /// What a report says of outputs and deferred readers, its end, and what it says of cells, if that is asked for.
    fn told(self, alloc: Global, report: &[u8]) -> Result<Vec<u8>, AllocError> {
        match self {
            Orders::All => told(alloc, report),
            Orders::ByDepth => kept(alloc, report, &["output ", "deferred ", "end "]),
        }
    }
}

/// An order of events, and a number of elements.
#[derive(Clone, Copy)]
pub struct Way {
    order: Order,
    elements: &'static str,
}

impl fmt::Display for Way {
    fn fmt<W: fmt::Write>(&self, f: &mut fmt::Formatter<W>) -> fmt::Result {
        let Order { mode, take } = self.order;
        write!(
            f,
            "--mode {mode} --take {take} --elements {}",
            self.elements
        )
    }
}

/// The lines of a report that begin with one of these words.
fn kept(alloc: Global, report: &[u8], words: &[&str]) -> Result<Vec<u8>, AllocError> {
    let mut lines = Vec::new(alloc);
    for line in report.split(|byte| *byte == b'\n') {
        if words.iter().any(|word| line.starts_with(word.as_bytes())) {
            lines.extend_from_slice(line)?;
            lines.push(b'\n')?;
        }
    }
    Ok(lines)
}

/// What a report says of outputs, cells and deferred readers, and its end. Of the other lines, how many frames are out and which requests
/// wait may depend on the way.
pub fn told(alloc: Global, report: &[u8]) -> Result<Vec<u8>, AllocError> {
    kept(alloc, report, &["output ", "cell ", "deferred ", "end "])
}

/// The report of a run of a graph on the inputs after it.
fn report_of<R: Threads + Wait + Sync>(rt: &R, alloc: Global, input: &[u8], way: Way) -> Vec<u8> {
    let Order { mode, take } = way.order;
    let elements = way.elements;
    let words = [
        "ets",
        "run",
        "--mode",
        mode,
        "--take",
        take,
        "--elements",
        elements,
    ];
    answer(rt, alloc, &words, input).text
}

/// The first way in one of these orders in which a run of the graph on the inputs after it does not report just this.
pub fn first_other<R: Threads + Wait + Sync>(
    rt: &R,
    alloc: Global,
    input: &[u8],
    wanted: &[u8],
    orders: Orders,
) -> Result<Option<Way>, AllocError> {
    for order in orders.list() {
        for elements in ELEMENTS {
            let way = Way {
                order: *order,
                elements,
            };
            let report = report_of(rt, alloc, input, way);
            if orders.told(alloc, &report)?.as_slice() != wanted {
                return Ok(Some(way));
            }
        }
    }
    Ok(None)
}

/// What differs between a program and the graph of the same name, typed by hand, if anything does. Both have their inputs after them. The graph is
/// run on one element alone.
pub fn fault_beside<R: Threads + Wait + Sync>(
    rt: &R,
    alloc: Global,
    program: &[u8],
    graph: &[u8],
) -> Result<Option<Fault>, AllocError> {
    let run = answer(rt, alloc, &["ets", "run"], graph);
    let wanted = told(alloc, &run.text)?;
    fault_of(rt, alloc, program, &wanted, Orders::All)
}

/// What is wrong with a program.
#[derive(Clone, Copy)]
pub enum Fault {
    /// It is refused.
    Refused,
    /// A run of its graph reports something else.
    Otherwise { way: Way },
}

impl fmt::Display for Fault {
    fn fmt<W: fmt::Write>(&self, f: &mut fmt::Formatter<W>) -> fmt::Result {
        match self {
            Fault::Refused => f.write_str("is refused"),
            Fault::Otherwise { way } => write!(f, "tells something else under {way}"),
        }
    }
}

/// What is wrong with a program whose runs in these orders should report just this, if anything is.
pub fn fault_of<R: Threads + Wait + Sync>(
    rt: &R,
    alloc: Global,
    program: &[u8],
    wanted: &[u8],
    orders: Orders,
) -> Result<Option<Fault>, AllocError> {
    let lowered = answer(rt, alloc, &["ets", "lower"], program);
    if lowered.status != 0 {
        return Ok(Some(Fault::Refused));
    }
    Ok(
        match first_other(rt, alloc, &lowered.text, wanted, orders)? {
            Some(way) => Some(Fault::Otherwise { way }),
            None => None,
        },
    )
}
