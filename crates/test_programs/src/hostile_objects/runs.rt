//! The runs of an object, and whether they agree.

ghost use Rattle.std.specs.Prelude.{◌≡◌, ◌<◌, All};

use crate::hostile_objects::orders::in_turn;
use crate::hostile_objects::sound::{Order, has_end, is_sound};
use driver::emulation::{emulate_object, emulate_object_picks, emulate_object_quietly};
use driver::fault::Fault;
use driver::objects::upgrade_object;
use driver::order::Order as RunOrder;
use driver::resources::Resources;
use mode::Mode;
use rounds::Open;
use schedule::config::Config;
use schedule::report::Report;
use schedule::take::Take;
use semantics::report::End;
use std::alloc::{AllocError, Global};
use std::sync::Wait;
use std::thread::Threads;
use test_inputs::random_graphs::dice::Dice;
use test_inputs::random_graphs::orders::picks as random_picks;

/// The most events of an element.
const STEPS: u64 = 200;

/// How many random orders each object is run in.
const ORDERS: u64 = 2;

/// The outcome of an object's runs.
#[derive(Clone, Copy, Debug, PartialEq, Eq)]
pub enum Verdict {
    /// The runs agree, and this is the end of the run in which the elements take turns.
    Agrees(End),
    /// There is no report.
    Refused,
    /// A run reports what is not possible.
    Unsound,
    /// Two runs that make the same events have different reports.
    Differs,
    /// The same code in another version has a different run.
    Upgraded,
}

/// A configuration of `elements` elements with `frames` frames each.
pub fn config(elements: u32, frames: u64, steps: u64) -> Config
    ensures { result.elements ≡ elements }
{
    Config {
        elements: elements as u64,
        frames,
        steps,
        turn: 64,
    }
}

/// Whether two reports are the same, except perhaps in their events.
fn is_alike(left: &Report<Global>, right: &Report<Global>) -> bool {
    left.end == right.end
        && left.outputs.as_slice() == right.outputs.as_slice()
        && left.cells.as_slice() == right.cells.as_slice()
        && left.deferred == right.deferred
        && left.waiting_frames == right.waiting_frames
        && left.waiting_credits == right.waiting_credits
        && left.frames_out == right.frames_out
}

/// Whether two reports are the same.
fn is_same(left: &Report<Global>, right: &Report<Global>) -> bool {
    is_alike(left, right) && left.events.as_slice() == right.events.as_slice()
}

/// The object's bytes as version 2.
fn upgraded(alloc: Global, object: &[u8]) -> Option<Vec<u8>> {
    let mut bytes = Vec::new(alloc);
    match upgrade_object(object, &mut bytes) {
        Ok(()) => Some(bytes),
        Err(_refusal) => None,
    }
}

/// An object, the lengths of its arrays, and inputs.
#[derive(Clone, Copy)]
pub struct Runnable<'a> {
    pub object: &'a [u8],
    pub arrays: &'a [u64],
    pub inputs: &'a [i64],
}

impl Runnable<'_> {
    /// The report of a run in this mode.
    pub fn run<R: Threads + Wait + Sync>(
        self,
        rt: &R,
        alloc: Global,
        config: Config,
        mode: Mode,
    ) -> Result<Report<Global>, Fault> {
        emulate_object(alloc, self.object, self.inputs, config, mode, rt, &Open)
    }

    /// The same, but the report lists no events.
    fn run_quietly<R: Threads + Wait + Sync>(
        self,
        rt: &R,
        alloc: Global,
        config: Config,
        mode: Mode,
    ) -> Result<Report<Global>, Fault> {
        let resources = Resources {
            alloc,
            rt,
            gate: &Open,
        };
        let order = RunOrder::in_mode(mode, Take::Oldest);
        emulate_object_quietly(resources, self.object, self.inputs, config, order)
    }

    /// Whether a run that lists no events has the same report, except for the events.
    fn agrees_quietly<R: Threads + Wait + Sync>(
        self,
        rt: &R,
        alloc: Global,
        config: Config,
        mode: Mode,
        report: &Report<Global>,
    ) -> bool {
        match self.run_quietly(rt, alloc, config, mode) {
            Ok(quiet) => quiet.events.is_empty() && is_alike(&quiet, report),
            Err(_fault) => false,
        }
    }

    /// Whether the same code, written as version 2, has the same run.
    fn agrees_upgraded<R: Threads + Wait + Sync>(
        self,
        rt: &R,
        alloc: Global,
        config: Config,
        report: &Report<Global>,
    ) -> bool {
        let Some(object) = upgraded(alloc, self.object) else {
            return false;
        };
        let second = Runnable {
            object: &object,
            arrays: self.arrays,
            inputs: self.inputs,
        };
        match second.run(rt, alloc, config, Mode::One) {
            Ok(again) => is_same(&again, report),
            Err(_fault) => false,
        }
    }

    /// Whether a list in which the elements take turns, each with its oldest token, has the same run. This holds only if no
    /// element makes all the events that it may: a list passes over such an element.
    fn agrees_by_list(
        self,
        alloc: Global,
        elements: u32,
        frames: u64,
        report: &Report<Global>,
    ) -> Result<bool, AllocError>
        requires { 0 < elements }
    {
        if report.end == End::Steps {
            return Ok(true);
        }
        // Each element is asked at most once for each event.
        let all = u64::from(elements);
        let count = STEPS.wrapping_mul(all).wrapping_add(2).wrapping_mul(all);
        let picks = in_turn(alloc, elements, count)?;
        let config = config(elements, frames, STEPS);
        match emulate_object_picks(alloc, self.object, self.inputs, config, &picks) {
            Ok(by_list) => Ok(is_same(&by_list, report)),
            Err(_fault) => Ok(false),
        }
    }

    /// Whether runs in random orders report only what is possible.
    fn is_sound_by_list(
        self,
        alloc: Global,
        dice: &mut Dice,
        elements: u32,
        frames: u64,
    ) -> Result<bool, AllocError>
        requires { 0 < elements }
    {
        let config = config(elements, frames, STEPS);
        let count = STEPS.wrapping_mul(u64::from(elements));
        for _ in 0..ORDERS {
            let picks = random_picks(alloc, dice, elements, count)?;
            let run = emulate_object_picks(alloc, self.object, self.inputs, config, &picks);
            let is_well = match run {
                Ok(report) => is_sound(alloc, &report, self.arrays, config, Order::List)?,
                Err(_fault) => false,
            };
            if !is_well {
                return Ok(false);
            }
        }
        Ok(true)
    }

    /// The outcome of the runs in all modes.
    fn judge_modes<R: Threads + Wait + Sync>(
        self,
        rt: &R,
        alloc: Global,
        config: Config,
    ) -> Result<(Verdict, Option<Report<Global>>), AllocError> {
        let one = match self.run(rt, alloc, config, Mode::One) {
            Ok(report) => report,
            Err(_fault) => return Ok((Verdict::Refused, None)),
        };
        let (Ok(first), Ok(second), Ok(free)) = (
            self.run(rt, alloc, config, Mode::Rounds),
            self.run(rt, alloc, config, Mode::Rounds),
            self.run_quietly(rt, alloc, config, Mode::Free),
        ) else {
            return Ok((Verdict::Refused, None));
        };
        if !is_sound(alloc, &one, self.arrays, config, Order::Mode)?
            || !is_sound(alloc, &first, self.arrays, config, Order::Mode)?
            || !has_end(&free, self.arrays)
        {
            return Ok((Verdict::Unsound, None));
        }
        // A run in rounds is made by threads, and yet all such runs are the same. With one element it is the run in turn, and
        // so is a free run.
        let agrees = is_same(&first, &second)
            && (config.elements > 1 || is_same(&one, &first) && is_alike(&one, &free))
            && self.agrees_quietly(rt, alloc, config, Mode::One, &one)
            && self.agrees_quietly(rt, alloc, config, Mode::Rounds, &first);
        let verdict = if !agrees {
            Verdict::Differs
        } else if !self.agrees_upgraded(rt, alloc, config, &one) {
            Verdict::Upgraded
        } else {
            Verdict::Agrees(one.end)
        };
        Ok((verdict, Some(one)))
    }

    /// The outcome of the object's runs on `elements` elements.
    pub fn judge<R: Threads + Wait + Sync>(
        self,
        rt: &R,
        alloc: Global,
        dice: &mut Dice,
        elements: u32,
        frames: u64,
    ) -> Result<Verdict, AllocError>
        requires { 0 < elements }
    {
        let config = config(elements, frames, STEPS);
        let (verdict, report) = self.judge_modes(rt, alloc, config)?;
        let Some(report) = report else {
            return Ok(verdict);
        };
        if !self.agrees_by_list(alloc, elements, frames, &report)? {
            return Ok(Verdict::Differs);
        }
        if !self.is_sound_by_list(alloc, dice, elements, frames)? {
            return Ok(Verdict::Unsound);
        }
        Ok(verdict)
    }
}
