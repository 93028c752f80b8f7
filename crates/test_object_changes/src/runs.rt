//! What happens when a changed object is run.

use loaded::Loaded;
use object_view::Object;
use schedule::config::{Config, StartFault};
use schedule::machine::Machine;
use schedule::main_code::MainCode;
use semantics::report::End;
use std::alloc::{AllocError, Allocator};

/// How a run ended.
#[derive(Clone, Copy, Debug, PartialEq, Eq)]
pub enum Ending {
    /// It did not start.
    Unstarted,
    Rest,
    Starved,
    Clash,
    Steps,
    Stuck(u8),
    Memory,
    Stop,
}

/// All endings that a run may have.
pub const ENDINGS: [Ending; 12] = [
    Ending::Unstarted,
    Ending::Rest,
    Ending::Starved,
    Ending::Clash,
    Ending::Steps,
    Ending::Stuck(1),
    Ending::Stuck(2),
    Ending::Stuck(3),
    Ending::Stuck(4),
    Ending::Stuck(5),
    Ending::Stuck(6),
    Ending::Memory,
];

impl Ending {
    /// The ending, in words.
    pub fn name(self) -> &'static str {
        match self {
            Ending::Unstarted => "do not start",
            Ending::Rest => "end: Rest",
            Ending::Starved => "end: Starved",
            Ending::Clash => "end: Clash",
            Ending::Steps => "end: Steps",
            Ending::Stuck(1) => "end: Stuck 1",
            Ending::Stuck(2) => "end: Stuck 2",
            Ending::Stuck(3) => "end: Stuck 3",
            Ending::Stuck(4) => "end: Stuck 4",
            Ending::Stuck(5) => "end: Stuck 5",
            Ending::Stuck(6) => "end: Stuck 6",
            Ending::Stuck(_) => "end: Stuck by no rule",
            Ending::Memory => "end: Memory",
            Ending::Stop => "end: Stop",
        }
    }
}

impl From<End> for Ending {
    fn from(end: End) -> Ending {
        match end {
            End::Rest => Ending::Rest,
            End::Starved => Ending::Starved,
            End::Clash { .. } => Ending::Clash,
            End::Steps => Ending::Steps,
            End::Stuck { rule } => Ending::Stuck(rule),
            End::Memory => Ending::Memory,
            End::Stop => Ending::Stop,
        }
    }
}

/// One element of four frames, that makes 1,000 events.
const CONFIG: Config = Config {
    elements: 1,
    frames: 4,
    steps: 1000,
    turn: 1,
};

/// Runs the object on as many of the inputs 2, 3, 0, 0, .. as its main block has.
pub fn ending_of<A: Allocator + Clone>(alloc: A, object: Object<'_>) -> Result<Ending, AllocError> {
    let code = Loaded::new(alloc.clone()?, object)?;
    let mut inputs = Vec::from_slice(alloc.clone()?, &[2, 3])?;
    inputs.resize(code.inputs() as usize, 0)?;
    let mut store = None;
    let started = Machine::start(alloc, &mut store, &code, &inputs, CONFIG);
    match started {
        Ok(machine) => Ok(machine.run_one().end.into()),
        Err(StartFault::Memory) => Err(AllocError),
        Err(_) => Ok(Ending::Unstarted),
    }
}
