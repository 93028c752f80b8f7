//! What is reported of a run.

use std::alloc::Allocator;
use std::error::Error;
use std::fmt;
use tags::value::Value;

/// How a run ended.
#[derive(Clone, Copy, Debug, PartialEq, Eq)]
pub enum MeanEnd {
    /// No activity is enabled, and no store waits at a full cell.
    Rest,
    /// A store met a full cell, which is that one.
    Clash { array: usize, index: u32 },
    /// As many activities as were allowed were done, and one more is enabled.
    Steps,
}

/// A full cell: its array, by its place among the arrays, its index there, and what it holds.
#[derive(Clone, Copy, Debug, PartialEq, Eq)]
pub struct Full {
    pub array: usize,
    pub index: u32,
    pub value: Value,
}

/// A fetch that waits: its node, with the place of the block that the node is in, and the cell, by the place of its array and its
/// index there.
#[derive(Clone, Copy, Debug, PartialEq, Eq)]
pub struct WaitingFetch {
    pub block: usize,
    pub node: usize,
    pub array: usize,
    pub index: i64,
}

/// How a run ended, the outputs by their ports, and the full cells in order of arrays and indexes.
#[derive(Drop)]
pub struct MeanReport<A: Allocator> {
    pub end: MeanEnd,
    pub outputs: Vec<Option<Value>, A>,
    pub cells: Vec<Full, A>,
}

/// How the waves ended, and how many activities each has, which is at least one. Their sum is the work, and how many there are
/// is the span.
#[derive(Drop)]
pub struct WaveReport<A: Allocator> {
    pub end: MeanEnd,
    pub counts: Vec<u64, A>,
}

/// How many invocations beside main a meaning calls for: calls, and iterations of loops.
#[derive(Clone, Copy, Debug, PartialEq, Eq)]
pub struct CallCounts {
    pub invocations: usize,
    /// How many of the invocations are iterations of loops.
    pub iterations: usize,
}

/// Why a graph was not run.
#[derive(Clone, Copy, Debug, Drop, PartialEq, Eq)]
pub enum MeanFault {
    /// The number of inputs is not that of the block that is run.
    WrongInputs,
    /// A growth was refused.
    Memory,
}

impl fmt::Display for MeanFault {
    fn fmt<W: fmt::Write>(&self, f: &mut fmt::Formatter<W>) -> fmt::Result {
        match self {
            MeanFault::WrongInputs => f.write_str("wrong number of inputs"),
            MeanFault::Memory => f.write_str("out of memory"),
        }
    }
}

impl Error for MeanFault {}
