//! Objects that no compiler made. They run on one element and on many, in many orders.

ghost use Rattle.std.specs.Prelude.{◌≡◌};

use crate::lists::picks;
use driver::emulation::{emulate_object, emulate_object_picks};
use driver::fault::Fault;
use mode::Mode;
use rounds::Open;
use schedule::config::Config;
use schedule::report::Report;
use semantics::report::End;
use std::alloc::{AllocError, Global};
use std::process::Abort;
use std::sync::Wait;
use std::test::Fail;
use std::thread::Threads;
use tags::value::Value;

/// An object that adds two inputs.
const ADD: &[u8] =
    b"ETSOBJCT\x01\0\0\0\0\0\0\0\x01\0\0\0\0\0\0\0\0\0\0\0\0\0\0\0\0\0\0\0\0\0\0\0\0\0\0\0\0\0\0\0\x06\0\0\0\x02\x01\x03\0\x12\0\0\0\x04\0\x05\0\0\0\0\0\0\0\0\0\x12\0\0\0\x02\0\0\0\0\0\0\0\0\0\0\0\x12\0\0\0\x01\x80\0\0\0\0\0\0\0\0\0\0\x01\0\0\0\x01\x80\0\0\0\0\0\0\0\0\0\0\x1a\0\x01\0\x01\x80\0\0\0\0\0\0\0\0\0\0\x20\0\x02\0\0\0\0\0\x01\0\0\0\0\0\0\0";

/// An object that links a block into a frame, but gives it no continuation that leads anywhere.
const ASTRAY: &[u8] =
    b"ETSOBJCT\x01\0\0\0\0\0\0\0\x02\0\0\0\0\0\0\0\0\0\0\0\0\0\0\0\0\0\0\0\0\0\0\0\0\0\0\0\0\0\0\0\x05\0\0\0\x01\x01\0\0\x03\0\0\0\x01\x01\x01\0\x12\0\0\0\0\0\0\0\0\0\0\0\0\0\0\0\x12\0\0\0\x01\0\0\0\0\0\0\0\0\0\0\0\x17\0\0\0\x01\0\0\0\0\0\0\0\0\0\0\0\x18\0\0\0\x01\0\0\0\x01\0\0\0\0\0\0\0\x12\0\0\0\0\0\0\0\0\0\0\0\0\0\0\0\x12\0\0\0\x02\0\x02\x80\0\0\0\0\0\0\0\0\x12\0\0\0\0\0\0\0\0\0\0\0\0\0\0\0\x20\0\0\0\0\0\0\0\xff\0\0\0\0\0\0\0";

/// Calls a block with two inputs twice; the second call takes the first one's result.
const CALLS: &[u8] =
    b"ETSOBJCT\x01\0\0\0\0\0\0\0\x02\0\0\0\0\0\0\0\0\0\0\0\0\0\0\0\0\0\0\0\0\0\0\0\x01\0\0\0\0\0\0\0\x07\0\0\0\x02\x01\x03\0\x21\0\0\0\x02\x02\x0e\0\x12\0\0\0\x04\0\x06\0\0\0\0\0\0\0\0\0\x12\0\0\0\x02\0\0\0\0\0\0\0\0\0\0\0\x12\0\0\0\x03\0\0\0\0\0\0\0\0\0\0\0\x0f\0\0\0\x01\x80\0\0\0\0\0\0\0\0\0\0\x1a\0\0\0\x01\x80\0\0\0\0\0\0\0\0\0\0\x13\0\x01\0\x01\x80\0\0\0\0\0\0\0\0\0\0\x20\0\x02\0\0\0\0\0\x01\0\0\0\0\0\0\0\x12\0\0\0\x03\0\x05\0\0\0\0\0\0\0\0\0\x12\0\0\0\x09\x80\0\0\0\0\0\0\0\0\0\0\x12\0\0\0\x09\x80\0\0\0\0\0\0\0\0\0\0\x12\0\0\0\x01\0\x14\0\0\0\0\0\0\0\0\0\x12\0\0\0\x02\0\x0b\0\0\0\0\0\0\0\0\0\x12\0\0\0\x13\0\x1b\0\0\0\0\0\0\0\0\0\x17\0\0\0\x01\0\0\0\0\0\0\0\0\0\0\0\x12\0\0\0\x01\0\x04\0\0\0\0\0\0\0\0\0\x12\0\0\0\x01\0\x02\0\0\0\0\0\0\0\0\0\x18\0\0\0\x03\0\0\0\0\0\0\0\0\0\0\0\x19\0\0\0\x0f\0\0\0\x01\0\0\0\0\0\0\0\x19\0\x01\0\x0e\x80\0\0\x02\0\0\0\0\0\0\0\x12\0\0\0\x02\0\x0b\x80\0\0\0\0\0\0\0\0\x12\0\0\0\x0d\x80\0\0\0\0\0\0\0\0\0\0\x12\0\0\0\x05\x80\x06\x80\0\0\0\0\0\0\0\0\x17\0\0\0\x01\0\0\0\0\0\0\0\0\0\0\0\x12\0\0\0\x01\0\x04\0\0\0\0\0\0\0\0\0\x12\0\0\0\x01\0\x02\0\0\0\0\0\0\0\0\0\x18\0\0\0\x03\0\0\0\0\0\0\0\0\0\0\0\x19\0\x02\0\x08\x80\0\0\x01\0\0\0\0\0\0\0\x19\0\x03\0\x08\x80\0\0\x02\0\0\0\0\0\0\0\x12\0\0\0\x03\x80\0\0\0\0\0\0\0\0\0\0\x12\0\0\0\x07\x80\0\0\0\0\0\0\0\0\0\0\x1a\0\x04\0\x07\x80\0\0\0\0\0\0\0\0\0\0\x1a\0\x05\0\x07\x80\0\0\x01\0\0\0\0\0\0\0\x13\0\x06\0\x01\0\0\0\0\0\0\0\0\0\0\0\x13\0\x07\0\x01\0\0\0\0\0\0\0\0\0\0\0\x13\0\x08\0\x01\0\0\0\0\0\0\0\0\0\0\0\x13\0\x09\0\x01\0\0\0\0\0\0\0\0\0\0\0\x13\0\x0a\0\x01\0\0\0\0\0\0\0\0\0\0\0\x13\0\x0b\0\x01\0\0\0\0\0\0\0\0\0\0\0\x13\0\x0c\0\x01\x80\0\0\0\0\0\0\0\0\0\0\x20\0\x0d\0\0\0\0\0\x02\0\0\0\0\0\0\0";

/// Fetches cell 1 twice, and fills it. On many elements the cell lies on another element than the frame.
const READERS: &[u8] =
    b"ETSOBJCT\x01\0\0\0\0\0\0\0\x01\0\0\0\0\0\0\0\x01\0\0\0\0\0\0\0\x01\0\0\0\0\0\0\0\0\0\0\0\0\0\0\0\x0f\0\0\0\x01\x03\x07\0\x12\0\0\0\x02\0\x03\0\0\0\0\0\0\0\0\0\x12\0\0\0\x03\0\x07\x80\0\0\0\0\0\0\0\0\x12\0\0\0\x07\0\x08\0\0\0\0\0\0\0\0\0\x12\0\0\0\x08\0\x0b\0\0\0\0\0\0\0\0\0\x11\0\0\0\x01\0\x04\0\0\0\0\0\0\0\0\0\x12\0\0\0\x01\0\x02\0\0\0\0\0\0\0\0\0\x15\0\0\0\x03\x80\0\0\0\0\0\0\0\0\0\0\x15\0\0\0\x03\x80\0\0\0\0\0\0\0\0\0\0\x16\0\0\0\x03\x80\0\0\0\0\0\0\0\0\0\0\x1a\0\x01\0\x03\0\0\0\0\0\0\0\0\0\0\0\x1a\0\x02\0\x02\x80\0\0\x01\0\0\0\0\0\0\0\x1a\0\x03\0\x02\x80\0\0\x02\0\0\0\0\0\0\0\x13\0\x04\0\x01\0\0\0\0\0\0\0\0\0\0\0\x13\0\x05\0\x01\x80\0\0\0\0\0\0\0\0\0\0\x20\0\x06\0\0\0\0\0\x03\0\0\0\0\0\0\0\x01\0\0\0\0\0\0\0\x02\0\0\0\0\0\0\0";

/// A loop with bound 2 that sums the numbers up to its input.
const LOOP: &[u8] =
    b"ETSOBJCT\x01\0\0\0\0\0\0\0\x03\0\0\0\0\0\0\0\x02\0\0\0\0\0\0\0\0\0\0\0\0\0\0\0\x01\0\0\0\0\0\0\0\x14\0\0\0\x03\x04\x0b\0\x1e\0\0\0\x01\x01\x0c\0\x2b\0\0\0\x03\x04\x18\0\x12\0\0\0\x04\0\x06\0\0\0\0\0\0\0\0\0\x12\0\0\0\x06\0\x09\x80\0\0\0\0\0\0\0\0\x12\0\0\0\x08\0\0\0\0\0\0\0\0\0\0\0\x12\0\0\0\x08\x80\x0c\x80\0\0\0\0\0\0\0\0\x12\0\0\0\x01\0\x0a\0\0\0\0\0\0\0\0\0\x12\0\0\0\x07\0\x08\0\0\0\0\0\0\0\0\0\x12\0\0\0\x09\0\x0d\0\0\0\0\0\0\0\0\0\x12\0\0\0\x01\0\x02\0\0\0\0\0\0\0\0\0\x11\0\0\0\x01\x80\0\0\x01\0\0\0\0\0\0\0\x01\0\0\0\x02\0\x04\x80\0\0\0\0\0\0\0\0\x01\0\x01\0\x04\x80\0\0\0\0\0\0\0\0\0\0\x0e\0\x02\0\x01\x80\0\0\0\0\0\0\0\0\0\0\x1a\0\x03\0\x04\0\0\0\0\0\0\0\0\0\0\0\x1a\0\x04\0\x03\x80\0\0\x01\0\0\0\0\0\0\0\x1a\0\x05\0\x03\x80\0\0\x02\0\0\0\0\0\0\0\x1a\0\x06\0\x03\x80\0\0\x03\0\0\0\0\0\0\0\x13\0\x07\0\x01\0\0\0\0\0\0\0\0\0\0\0\x13\0\x08\0\x01\0\0\0\0\0\0\0\0\0\0\0\x13\0\x09\0\x01\x80\0\0\0\0\0\0\0\0\0\0\x20\0\x0a\0\0\0\0\0\x04\0\0\0\0\0\0\0\x12\0\0\0\x02\0\x1d\0\0\0\0\0\0\0\0\0\x12\0\0\0\x02\0\x0d\x80\0\0\0\0\0\0\0\0\x12\0\0\0\x04\0\x14\0\0\0\0\0\0\0\0\0\x12\0\0\0\x01\0\x02\0\0\0\0\0\0\0\0\0\x11\0\0\0\x08\x80\0\0\x01\0\0\0\0\0\0\0\x11\0\0\0\x08\x80\0\0\0\0\0\0\0\0\0\0\x1c\0\0\0\x01\0\0\0\x02\0\0\0\0\0\0\0\x17\0\0\0\x01\0\0\0\0\0\0\0\0\0\0\0\x12\0\0\0\x01\0\x02\0\0\0\0\0\0\0\0\0\x12\0\0\0\x02\0\x03\0\0\0\0\0\0\0\0\0\x12\0\0\0\x03\0\x04\0\0\0\0\0\0\0\0\0\x18\0\0\0\x04\0\0\0\x02\0\0\0\0\0\0\0\x19\0\x01\0\x0b\0\0\0\x01\0\x02\0\0\0\0\0\x19\0\x02\0\x0a\x80\0\0\x02\0\x02\0\0\0\0\0\x19\0\x03\0\x0a\x80\0\0\x03\0\x02\0\0\0\0\0\x12\0\0\0\x0a\x80\0\0\0\0\0\0\0\0\0\0\x12\0\0\0\x06\x80\0\0\0\0\0\0\0\0\0\0\x12\0\0\0\x09\x80\0\0\0\0\0\0\0\0\0\0\x1e\0\0\0\x03\0\0\0\x02\0\0\0\0\0\0\0\x1d\0\0\0\0\0\0\0\x02\0\0\0\0\0\0\0\x1f\0\0\0\x01\0\0\0\x02\0\0\0\0\0\0\0\x12\0\0\0\x06\x80\0\0\0\0\0\0\0\0\0\0\x1a\0\x04\0\x06\x80\0\0\0\0\0\0\0\0\0\0\x13\0\x05\0\x01\0\0\0\0\0\0\0\0\0\0\0\x13\0\x06\0\x01\0\0\0\0\0\0\0\0\0\0\0\x13\0\x07\0\x01\0\0\0\0\0\0\0\0\0\0\0\x13\0\x08\0\x01\0\0\0\0\0\0\0\0\0\0\0\x13\0\x09\0\x01\0\0\0\0\0\0\0\0\0\0\0\x13\0\x0a\0\x01\x80\0\0\0\0\0\0\0\0\0\0\x20\0\x0b\0\0\0\0\0\x01\0\0\0\0\0\0\0\x12\0\0\0\x0d\0\x2a\0\0\0\0\0\0\0\0\0\x12\0\0\0\x03\0\x06\x80\0\0\0\0\0\0\0\0\x12\0\0\0\x05\0\0\0\0\0\0\0\0\0\0\0\x12\0\0\0\x05\x80\x12\0\0\0\0\0\0\0\0\0\x12\0\0\0\x01\0\x02\0\0\0\0\0\0\0\0\0\x11\0\0\0\x01\x80\0\0\x01\0\0\0\0\0\0\0\x01\0\0\0\x02\0\x0d\0\0\0\0\0\0\0\0\0\x01\0\x01\0\x0d\0\0\0\0\0\0\0\0\0\0\0\x0e\0\x02\0\x01\0\x03\0\0\0\0\0\0\0\0\0\x12\0\0\0\x01\0\x09\x80\0\0\0\0\0\0\0\0\x12\0\0\0\x03\x80\x08\0\0\0\0\0\0\0\0\0\x12\0\0\0\x01\0\x0a\x80\0\0\0\0\0\0\0\0\x12\0\0\0\x07\x80\x08\x80\0\0\0\0\0\0\0\0\x14\0\x03\0\x01\0\x02\0\0\0\0\0\0\0\0\0\x12\0\0\0\x08\0\x0d\x80\0\0\0\0\0\0\0\0\x12\0\0\0\x01\0\x02\0\0\0\0\0\0\0\0\0\x12\0\0\0\x0f\0\x10\0\0\0\0\0\0\0\0\0\x12\0\0\0\x10\0\x11\0\0\0\0\0\0\0\0\0\x14\0\x04\0\x04\x80\x10\x80\0\0\0\0\0\0\0\0\x14\0\x05\0\x09\x80\x0c\x80\0\0\0\0\0\0\0\0\x14\0\x06\0\x09\x80\x0c\x80\0\0\0\0\0\0\0\0\x14\0\x07\0\x09\x80\x0c\x80\0\0\0\0\0\0\0\0\x1b\0\x08\0\x01\0\0\0\x04\0\0\0\0\0\0\0\x17\0\0\0\x01\0\0\0\0\0\0\0\0\0\0\0\x12\0\0\0\x01\0\x02\0\0\0\0\0\0\0\0\0\x12\0\0\0\x02\0\x03\0\0\0\0\0\0\0\0\0\x12\0\0\0\x03\0\x04\0\0\0\0\0\0\0\0\0\x19\0\x09\0\x08\0\0\0\0\0\x02\0\0\0\0\0\x19\0\x0a\0\x07\x80\0\0\x01\0\x02\0\0\0\0\0\x19\0\x0b\0\x07\x80\0\0\x02\0\x02\0\0\0\0\0\x19\0\x0c\0\x07\x80\0\0\x03\0\x02\0\0\0\0\0\x1a\0\x0d\0\x07\0\0\0\0\0\0\0\0\0\0\0\x1a\0\x0e\0\x06\x80\0\0\x01\0\0\0\0\0\0\0\x1a\0\x0f\0\x06\x80\0\0\x02\0\0\0\0\0\0\0\x1a\0\x10\0\x06\x80\0\0\x05\0\0\0\0\0\0\0\x13\0\x11\0\x01\0\0\0\0\0\0\0\0\0\0\0\x13\0\x12\0\x01\0\0\0\0\0\0\0\0\0\0\0\x13\0\x13\0\x04\0\0\0\0\0\0\0\0\0\0\0\x13\0\x14\0\x01\0\0\0\0\0\0\0\0\0\0\0\x13\0\x15\0\x01\0\0\0\0\0\0\0\0\0\0\0\x13\0\x16\0\x01\0\0\0\0\0\0\0\0\0\0\0\x12\0\0\0\x01\x80\0\0\0\0\0\0\0\0\0\0\x20\0\x17\0\0\0\0\0\x03\0\0\0\0\0\0\0\0\0\0\0\0\0\0\0\x01\0\0\0\0\0\0\0";

const SIZES: [u32; 4] = [1, 2, 7, 16];

fn config(elements: u32) -> Config
    ensures { result.elements ≡ elements }
{
    Config {
        elements: elements as u64,
        frames: 8,
        steps: 1_000_000,
        turn: 64,
    }
}

/// The object, with other bytes at some places.
fn changed(alloc: Global, object: &[u8], changes: &[(usize, u8)]) -> Result<Vec<u8>, AllocError> {
    let mut bytes = Vec::from_slice(alloc, object)?;
    for (place, byte) in changes {
        if let Some(old) = bytes.get_mut(*place) {
            *old = *byte;
        }
    }
    Ok(bytes)
}

/// How a run ends.
#[derive(Clone, Copy)]
enum Wanted<'a> {
    /// A token meets a case that the rule with this number excludes.
    Stuck(u8),
    /// The run comes to rest after `events` events, with these outputs and full cells. Nothing waits, and no frame is out.
    Rest {
        events: usize,
        outputs: &'a [Option<i64>],
        cells: &'a [(u32, i64)],
    },
}

/// Ends the process unless these are the outputs.
fn expect_outputs<R: Abort>(rt: &R, report: &Report<Global>, outputs: &[Option<i64>]) {
    assert_eq!(rt; report.outputs.as_slice().len(), outputs.len());
    for (output, wanted) in report.outputs.as_slice().iter().zip(outputs) {
        let wanted = match wanted {
            Some(number) => Some(Value::Int(*number)),
            None => None,
        };
        assert_eq!(rt; *output, wanted);
    }
}

/// Ends the process unless these are the full cells.
fn expect_cells<R: Abort>(rt: &R, report: &Report<Global>, cells: &[(u32, i64)]) {
    assert_eq!(rt; report.cells.len(), cells.len());
    for ((cell, value), (wanted, number)) in report.cells.as_slice().iter().zip(cells) {
        assert_eq!(rt; (*cell, *value), (*wanted, Value::Int(*number)));
    }
}

/// Ends the process unless the report is the wanted one.
fn expect_report<R: Abort>(rt: &R, report: &Report<Global>, wanted: Wanted<'_>, elements: u32) {
    match wanted {
        Wanted::Stuck(rule) => {
            assert_eq!(rt; report.end, End::Stuck { rule }, "{elements} elements")
        }
        Wanted::Rest {
            events,
            outputs,
            cells,
        } => {
            assert_eq!(rt; report.end, End::Rest, "{elements} elements");
            expect_outputs(rt, report, outputs);
            expect_cells(rt, report, cells);
            assert_eq!(rt; report.deferred, 0);
            assert_eq!(rt; (report.waiting_frames, report.waiting_credits), (0, 0));
            assert_eq!(rt; report.frames_out, 0);
            assert_eq!(rt; report.events.len(), events, "{elements} elements");
        }
    }
}

/// Runs the object in this mode on `elements` elements, each of which takes its oldest tokens.
fn run_object<R: Threads + Wait + Sync>(
    rt: &R,
    alloc: Global,
    object: &[u8],
    inputs: &[i64],
    elements: u32,
    mode: Mode,
) -> Result<Report<Global>, Fault> {
    emulate_object(alloc, object, inputs, config(elements), mode, rt, &Open)
}

/// Runs the object on 1, 2, 7 and 16 elements: each takes its oldest token in turn, in rounds, and free; and in ten orders of picks.
fn expect_always<R: Abort + Threads + Wait + Sync>(
    rt: &R,
    alloc: Global,
    object: &[u8],
    inputs: &[i64],
    wanted: Wanted<'_>,
) -> Result<(), Fail> {
    for elements in SIZES {
        for mode in [Mode::One, Mode::Rounds, Mode::Free] {
            let report = run_object(rt, alloc, object, inputs, elements, mode).map_err(
                |_| "a report",
            )?;
            expect_report(rt, &report, wanted, elements);
        }
        if elements > 0 {
            for seed in 0..10u64 {
                let picks = picks(alloc, elements, seed, 5, seed, 30_000)?;
                let report = emulate_object_picks(
                    alloc,
                    object,
                    inputs,
                    config(elements),
                    &picks,
                ).map_err(|_| "a report")?;
                expect_report(rt, &report, wanted, elements);
            }
        }
    }
    Ok(())
}

/// An object, with other bytes at some places; its inputs; and how its runs end.
#[derive(Clone, Copy)]
struct Case {
    object: &'static [u8],
    changes: &'static [(usize, u8)],
    inputs: &'static [i64],
    wanted: Wanted<'static>,
}

/// Objects that bring a token to each case that a rule excludes; one without its result; and calls, readers and a loop.
const CASES: [Case; 10] = [
    Case {
        object: ASTRAY,
        changes: &[],
        inputs: &[2],
        wanted: Wanted::Stuck(1),
    },
    Case {
        object: ADD,
        changes: &[(93, 0)],
        inputs: &[2, 3],
        wanted: Wanted::Stuck(3),
    },
    Case {
        object: ADD,
        changes: &[(60, 5)],
        inputs: &[2, 3],
        wanted: Wanted::Stuck(3),
    },
    Case {
        object: ADD,
        changes: &[(60, 3), (76, 3)],
        inputs: &[2, 3],
        wanted: Wanted::Stuck(4),
    },
    Case {
        object: ADD,
        changes: &[
            (108, 1),
            (109, 0x80),
            (110, 2),
            (111, 0x80),
            (120, 0x20),
            (124, 0),
            (125, 0),
            (128, 1),
            (144, 0),
        ],
        inputs: &[2, 3],
        wanted: Wanted::Stuck(5),
    },
    Case {
        object: ADD,
        changes: &[(128, 3)],
        inputs: &[2, 3],
        wanted: Wanted::Stuck(6),
    },
    Case {
        object: ADD,
        changes: &[(108, 2)],
        inputs: &[2, 3],
        wanted: Wanted::Rest {
            events: 10,
            outputs: &[None],
            cells: &[],
        },
    },
    Case {
        object: CALLS,
        changes: &[],
        inputs: &[4, 3],
        wanted: Wanted::Rest {
            events: 75,
            outputs: &[Some(-4), Some(4)],
            cells: &[],
        },
    },
    Case {
        object: READERS,
        changes: &[],
        inputs: &[8],
        wanted: Wanted::Rest {
            events: 30,
            outputs: &[Some(8), Some(8), Some(8)],
            cells: &[(1, 8)],
        },
    },
    Case {
        object: LOOP,
        changes: &[],
        inputs: &[10],
        wanted: Wanted::Rest {
            events: 577,
            outputs: &[Some(55)],
            cells: &[],
        },
    },
];

#[test]
fn each_object_ends_as_it_should(rt: HostRuntime) -> Result<(), Fail> {
    let alloc = rt.alloc();
    for case in CASES {
        let object = changed(alloc, case.object, case.changes)?;
        expect_always(&rt, alloc, &object, case.inputs, case.wanted)?;
    }
    Ok(())
}
