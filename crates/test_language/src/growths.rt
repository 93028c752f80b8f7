//! Runs in which a growth is refused, from the program's text to the report.

use crate::runs::{Subject, Verdict, config, verdict_of};
use driver::emulation::emulate;
use driver::fault::Fault;
use lowered_text::fault::{LowerFault, LowerRefusal};
use lowered_text::write_lowered;
use mode::Mode;
use rounds::Open;
use std::alloc::Global;
use std::sync::Wait;
use std::thread::Threads;
use test_inputs::rationed::{Rationed, is_next_refused};

/// So few that a run takes little time.
const FRAMES: u64 = 32;

/// More growths than any of the runs has.
const ENOUGH: u64 = 10_000;

/// The verdict on lowering a program and running its graph, where both take their memory from there.
fn rationed_run<R: Threads + Wait + Sync>(
    rt: &R,
    alloc: Global,
    subject: Subject<'_>,
    heap: &Rationed<Global>,
) -> Verdict {
    let mut graph = Vec::new(alloc);
    match write_lowered(&heap, subject.text, &mut graph) {
        Ok(()) => {}
        Err(LowerRefusal::Fault(LowerFault::Memory)) => return Verdict::OutOfMemory,
        Err(_) => return Verdict::Differs,
    }
    let mut config = config(1);
    config.frames = FRAMES;
    match emulate(heap, &graph, subject.inputs, config, Mode::One, rt, &Open) {
        Ok(report) => verdict_of(subject.meaning, &report),
        Err(Fault::Memory) => Verdict::OutOfMemory,
        Err(_) => Verdict::Differs,
    }
}

/// Refuses each growth of a run in turn, until none is. Says how many there were, where each refusal is reported and the last run is
/// whole.
pub fn refuse_each<R: Threads + Wait + Sync>(
    rt: &R,
    alloc: Global,
    subject: Subject<'_>,
) -> Option<u64> {
    for growth in 1..ENOUGH {
        let heap = Rationed::new(alloc, growth);
        let verdict = rationed_run(rt, alloc, subject, &heap);
        let is_over = is_next_refused(&heap);
        match verdict {
            Verdict::Differs => return None,
            Verdict::OutOfMemory if is_over => return None,
            Verdict::OutOfMemory => {}
            _ => return is_over.then_some(growth),
        }
    }
    None
}
