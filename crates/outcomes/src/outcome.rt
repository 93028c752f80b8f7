//! The outcome of a command whose text was printed whole.

ghost use Rattle.std.specs.Prelude.{◌≡◌};
ghost use Rattle.outcomes.specs.Outcomes.{ending_of, ending_status, exit_status, fault_in, fault_of, first_cell_fault, first_fault, meaning_status, outcome_status};

use crate::refusal::Refusal;
use oracle::MeanEnd;
use schedule::report::Report;
use semantics::report::End;
use std::alloc::Allocator;
use tags::value::{FaultKind, Value};

/// The exit status of a refusal, of a fault of the command line, and where two orders differ.
const REFUSED: u8 = 1;

/// A fault that an output or a cell has: what went wrong, and where it was made.
#[derive(Clone, Copy, Debug, PartialEq, Eq)]
pub struct MadeFault {
    pub kind: FaultKind,
    /// The code of its origin, as `Origin::code` gives it: 0 where that is not recorded.
    pub origin: u32,
}

/// How what was run ended.
#[derive(Clone, Copy, Debug)]
pub enum Ending {
    /// A run of the machine.
    Run {
        end: End,
        /// How many requests for frames wait.
        frames: u64,
        /// How many requests for credits wait.
        credits: u64,
        /// How many readers wait in cells.
        readers: u64,
        /// The fault of the first output that has one, or else of the first cell.
        fault: Option<MadeFault>,
    },
    /// The meaning of a graph.
    Meaning(MeanEnd),
}

/// A row of a profile whose run on this number of elements did not end at rest.
#[derive(Clone, Copy, Debug)]
pub struct FailedRow {
    pub elements: u64,
    pub end: End,
    /// How many requests for frames wait.
    pub frames: u64,
    /// How many requests for credits wait.
    pub credits: u64,
}

/// The outcome of a command whose text was printed whole.
#[derive(Clone, Copy, Debug)]
pub enum Outcome {
    /// What was asked for was printed, and it is not of a run.
    Done,
    /// The words of the command line ask for nothing that exists.
    Mistake,
    /// The line of this refusal was printed.
    Refused(Refusal),
    /// A report was printed, which says how the run ended.
    Reported(Ending),
    /// The lines of a profile, which say how the meaning ended, and how each row's run did.
    Profiled {
        end: MeanEnd,
        /// The first row whose run did not end at rest.
        failed: Option<FailedRow>,
    },
    /// A picture, or events as data, which do not say how the run ended.
    Drawn(Ending),
    /// A page that shows this many events of a run.
    Paged {
        ending: Ending,
        events: u64,
    },
    /// The reports of two orders that differ.
    Differed,
}

/// The exit status that reports the end of a run of the meaning.
fn status_of_meaning(end: MeanEnd) -> u8
    ensures { result ≡ meaning_status end }
{
    match end {
        MeanEnd::Rest => 0,
        MeanEnd::Clash { .. } => 3,
        MeanEnd::Steps => 4,
    }
}

/// The exit status that reports the end of a run.
pub fn status_of(end: End) -> u8
    ensures { result ≡ exit_status end }
{
    match end {
        End::Rest | End::Stop => 0,
        End::Starved => 2,
        End::Clash { .. } => 3,
        End::Steps => 4,
        End::Stuck { .. } => 5,
        End::Memory => 6,
    }
}

/// The fault that this is, if it is one.
fn fault_in(value: Option<Value>) -> Option<MadeFault>
    ensures { result ≡ fault_in value }
{
    match value {
        Some(Value::Fault { kind, origin }) => Some(MadeFault {
            kind,
            origin: origin.code(),
        }),
        Some(Value::Int(_)) | None => None,
    }
}

/// The fault of the first of these outputs that has one.
fn first_fault(outputs: &[Option<Value>]) -> Option<MadeFault>
    ensures { result ≡ first_fault outputs.now }
{
    for output in outputs {
        let fault = fault_in(*output);
        if fault.is_some() {
            return fault;
        }
    }
    None
}

/// The fault of the first of these cells that has one.
fn first_cell_fault(cells: &[(u32, Value)]) -> Option<MadeFault>
    ensures { result ≡ first_cell_fault cells.now }
{
    for cell in cells {
        let fault = fault_in(Some(cell.1));
        if fault.is_some() {
            return fault;
        }
    }
    None
}

/// The fault of the first output of the report that has one, or else of the first cell.
fn fault_of<A: Allocator>(report: &Report<A>) -> Option<MadeFault>
    ensures { result ≡ fault_of report.now }
{
    match first_fault(report.outputs.as_slice()) {
        Some(fault) => Some(fault),
        None => first_cell_fault(&report.cells),
    }
}

impl Ending {
    /// How the run with this report ended.
    pub fn of<A: Allocator>(report: &Report<A>) -> Ending
        ensures { result ≡ ending_of report.now }
    {
        Ending::Run {
            end: report.end,
            frames: report.waiting_frames,
            credits: report.waiting_credits,
            readers: report.deferred,
            fault: fault_of(report),
        }
    }

    fn status(self) -> u8
        ensures { result ≡ ending_status self }
    {
        match self {
            Ending::Run { end, .. } => status_of(end),
            Ending::Meaning(end) => status_of_meaning(end),
        }
    }
}

impl Outcome {
    /// The exit status: 0 at rest or done, 1 refused, a mistake or two orders that differ, 2 starved, 3 a clash, 4 out of steps, 5
    /// stuck, 6 out of memory.
    pub fn status(self) -> u8
        ensures { result ≡ outcome_status self }
    {
        match self {
            Outcome::Done => 0,
            Outcome::Mistake => REFUSED,
            Outcome::Refused(_refusal) => REFUSED,
            Outcome::Reported(ending) => ending.status(),
            Outcome::Profiled { end, .. } => status_of_meaning(end),
            Outcome::Drawn(ending) => ending.status(),
            Outcome::Paged { ending, .. } => ending.status(),
            Outcome::Differed => REFUSED,
        }
    }
}
