//! Objects that end in the same way in every order. Each is run with few elements and frames and with many, in each mode and in
//! random orders.

use crate::hostile_objects::object::bytes_of;
use crate::hostile_objects::runs::{Runnable, config};
use crate::hostile_objects::scenes::{SCENES, Scene, Wanted, words_of_scene};
use driver::emulation::emulate_object_picks;
use driver::fault::Fault;
use mode::Mode;
use schedule::report::Report;
use semantics::report::End;
use std::alloc::{AllocError, Global};
use std::io::{self, Write};
use std::sync::Wait;
use std::thread::Threads;
use test_inputs::random_graphs::dice::Dice;
use test_inputs::random_graphs::orders::picks as random_picks;

/// Numbers of elements, and the frames of each element.
const SIZES: [(u32, u64); 7] = [(1, 1), (1, 2), (2, 1), (2, 3), (3, 64), (7, 2), (16, 4)];

/// The most events of an element.
const STEPS: u64 = 1_000;

/// How many random orders are tried at each size.
const ORDERS: u64 = 5;

/// The length of each random order.
const PICKS: u64 = 20_000;

/// Whether the report is as it should be.
fn is_wanted(run: &Result<Report<Global>, Fault>, wanted: Wanted) -> bool {
    let Ok(report) = run else {
        return false;
    };
    let waits = matches!(report.end, End::Rest | End::Starved);
    report.end == wanted.end
        && (!waits
            || (report.waiting_frames == wanted.waiting_frames
                && report.waiting_credits == wanted.waiting_credits
                && report.deferred == wanted.deferred))
}

/// How many runs of an object were made, if each was as it should be.
fn runs_of<R: Threads + Wait + Sync>(
    rt: &R,
    alloc: Global,
    dice: &mut Dice,
    scene: Scene,
    object: Runnable<'_>,
) -> Result<Option<u64>, AllocError> {
    let mut runs = 0u64;
    for (elements, frames) in SIZES {
        let wanted = if elements == 1 && frames == 1 {
            scene.alone
        } else {
            scene.among
        };
        for mode in [Mode::One, Mode::Rounds, Mode::Free] {
            let run = object.run(rt, alloc, config(elements, frames, STEPS), mode);
            if !is_wanted(&run, wanted) {
                return Ok(None);
            }
            runs = runs.wrapping_add(1);
        }
        for _ in 0..ORDERS {
            if elements > 0 {
                let picks = random_picks(alloc, dice, elements, PICKS)?;
                let config = config(elements, frames, STEPS);
                let run = emulate_object_picks(alloc, object.object, object.inputs, config, &picks);
                if !is_wanted(&run, wanted) {
                    return Ok(None);
                }
                runs = runs.wrapping_add(1);
            }
        }
    }
    Ok(Some(runs))
}

/// Whether each object ends as it should. Prints that, or which object does not.
pub fn scenes_agree<R: Threads + Wait + Sync, W: Write>(
    rt: &R,
    alloc: Global,
    out: &mut W,
) -> io::Result<bool> {
    let mut dice = Dice::new(7);
    for scene in SCENES {
        let name = scene.name;
        let bytes = bytes_of(alloc, &words_of_scene(alloc, scene)?)?;
        let inputs = [2, 3];
        let count = scene.inputs().min(2) as usize;
        let object = Runnable {
            object: &bytes,
            arrays: scene.arrays,
            inputs: inputs.get(..count).unwrap_or(&inputs),
        };
        let Some(runs) = runs_of(rt, alloc, &mut dice, scene, object)? else {
            writeln!(out, "{name}: differs")?;
            return Ok(false);
        };
        let end = scene.among.end;
        writeln!(out, "{name}: {end:?} in {runs} runs")?;
    }
    Ok(true)
}
