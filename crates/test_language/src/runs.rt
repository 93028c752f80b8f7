//! The runs of a program's graph, and whether they report what the program means.

ghost use Rattle.std.specs.Prelude.{◌≡◌, ◌<◌, All};

use crate::tally::{Counts, Tally};
use driver::emulation::{emulate, emulate_picks};
use mode::Mode;
use rounds::Open;
use schedule::config::Config;
use schedule::report::Report;
use semantics::report::End;
use std::alloc::{AllocError, Allocator, Global};
use std::fmt;
use std::sync::Wait;
use std::thread::Threads;
use test_inputs::random_graphs::dice::Dice;
use test_inputs::random_graphs::orders::picks;
use test_random_programs::evaluation::{Meaning, MeantEnd};

/// A program with its graph, its inputs and what it means on them.
#[derive(Clone, Copy)]
pub struct Subject<'a> {
    pub text: &'a [u8],
    pub graph: &'a [u8],
    pub inputs: &'a [i64],
    pub meaning: &'a Meaning,
}

/// The outcome of comparing a run with what the program means.
#[derive(Clone, Copy, PartialEq, Eq)]
pub enum Verdict {
    /// The run came to rest with all that the program means, and nothing else, and as many readers wait.
    Rested,
    /// A request waits at the end. The program means all that the run has.
    Starved,
    /// A store met a full cell, and the program stores to a cell twice.
    Clashed,
    /// The run was too long. The program means all that it has.
    CutOff,
    /// A growth was refused. The program means all that the run has.
    OutOfMemory,
    Differs,
}

/// The ways in which a program is run.
#[derive(Clone, Copy, PartialEq, Eq)]
pub enum Ways {
    /// In turn, in rounds and in a random order, on some numbers of elements.
    Repeatable,
    /// Also by free elements, whose threads may meet in another order each time.
    All,
}

/// The way in which a run was made.
#[derive(Clone, Copy)]
pub struct Way {
    name: &'static str,
    elements: u32,
}

impl fmt::Display for Way {
    fn fmt<W: fmt::Write>(&self, f: &mut fmt::Formatter<W>) -> fmt::Result {
        write!(f, "{}, on {} elements", self.name, self.elements)
    }
}

impl Verdict {
    /// Its name; `None` where the run does not agree.
    fn name(self) -> Option<&'static str> {
        match self {
            Verdict::Rested => Some("rested"),
            Verdict::Starved => Some("starved"),
            Verdict::Clashed => Some("met a second store"),
            Verdict::CutOff => Some("cut off"),
            Verdict::OutOfMemory | Verdict::Differs => None,
        }
    }
}

/// Counts a run. Gives the way in which it was made, where it differs.
fn counted(
    counts: &mut Counts,
    verdict: Verdict,
    name: &'static str,
    elements: u32,
) -> Result<Option<Way>, AllocError> {
    match verdict.name() {
        Some(verdict) => {
            counts.count(verdict)?;
            Ok(None)
        }
        None => Ok(Some(Way { name, elements })),
    }
}

const ELEMENTS: [u32; 5] = [1, 2, 4, 7, 16];

fn some_elements(dice: &mut Dice) -> u32 {
    let place = dice.throw(5) as usize;
    ELEMENTS.get(place).copied().unwrap_or(1)
}

/// With so many elements there are 1,024 frames or some more in all.
pub fn config(elements: u32) -> Config
    ensures { result.elements ≡ elements }
{
    let frames = match elements {
        0 | 1 => 1024,
        2 => 512,
        3 | 4 => 256,
        5 | 6 | 7 => 160,
        _ => 64,
    };
    Config {
        elements: u64::from(elements),
        frames,
        steps: 65_536,
        turn: 64,
    }
}

/// Whether the program means each output and each cell that the run has.
fn has_all<A: Allocator>(meaning: &Meaning, report: &Report<A>) -> bool {
    for (port, output) in report.outputs.iter().enumerate() {
        if output.is_some() && meaning.outputs.get(port) != Some(output) {
            return false;
        }
    }
    for (cell, value) in &report.cells {
        if meaning.memory.value(u64::from(*cell)) != Some(*value) {
            return false;
        }
    }
    true
}

/// Whether a run at rest has exactly what the program means, and as many readers wait. Where none does, no frame may be left out.
fn is_same<A: Allocator>(meaning: &Meaning, report: &Report<A>) -> bool {
    report.outputs.as_slice() == meaning.outputs.as_slice()
        && report.cells.len() == meaning.memory.full()
        && has_all(meaning, report)
        && report.deferred == meaning.memory.waiting
        && (report.deferred > 0 || report.frames_out == 0)
}

/// Compares a run with what the program means.
pub fn verdict_of<A: Allocator>(meaning: &Meaning, report: &Report<A>) -> Verdict {
    let rests = meaning.end == MeantEnd::Rest;
    let is_within = !rests || has_all(meaning, report);
    match report.end {
        End::Rest if rests && is_same(meaning, report) => Verdict::Rested,
        End::Starved if is_within => Verdict::Starved,
        End::Clash { .. } if meaning.end == MeantEnd::Clash => Verdict::Clashed,
        End::Steps if is_within => Verdict::CutOff,
        End::Memory if is_within => Verdict::OutOfMemory,
        _ => Verdict::Differs,
    }
}

/// Runs the graph's text in this mode. Gives the number of events, too.
fn run_in<R: Threads + Wait + Sync>(
    rt: &R,
    alloc: Global,
    subject: Subject<'_>,
    mode: Mode,
    elements: u32,
) -> (Verdict, u64) {
    let config = config(elements);
    let inputs = subject.inputs;
    match emulate(alloc, subject.graph, inputs, config, mode, rt, &Open) {
        Ok(report) => (
            verdict_of(subject.meaning, &report),
            report.events.len() as u64,
        ),
        Err(_) => (Verdict::Differs, 0),
    }
}

/// Runs the graph's text in the order of a list.
fn run_listed(alloc: Global, subject: Subject<'_>, elements: u32, picks: &[(u32, u64)]) -> Verdict
    requires { All (λ pick. pick.0 < elements) picks.now }
{
    let config = config(elements);
    match emulate_picks(alloc, subject.graph, subject.inputs, config, picks) {
        Ok(report) => verdict_of(subject.meaning, &report),
        Err(_) => Verdict::Differs,
    }
}

/// Runs a program in the order of a list, by some picks more than a run in turn has events.
fn run_at_random(
    alloc: Global,
    subject: Subject<'_>,
    dice: &mut Dice,
    events: u64,
) -> Result<(Verdict, u32), AllocError> {
    let elements = (dice.throw(16) % 16) as u32 + 1;
    let most = events.min(8_192).wrapping_add(32).wrapping_mul(2);
    let picks = picks(
        alloc,
        dice,
        elements,
        most.wrapping_mul(u64::from(elements)),
    )?;
    Ok((run_listed(alloc, subject, elements, &picks), elements))
}

/// The first of these ways in which a run of the program does not report what it means.
pub fn first_other<R: Threads + Wait + Sync>(
    rt: &R,
    alloc: Global,
    tally: &mut Tally,
    subject: Subject<'_>,
    dice: &mut Dice,
    ways: Ways,
) -> Result<Option<Way>, AllocError> {
    let elements = some_elements(dice);
    let (verdict, events) = run_in(rt, alloc, subject, Mode::One, elements);
    if let Some(way) = counted(&mut tally.in_turn, verdict, "in turn", elements)? {
        return Ok(Some(way));
    }
    let elements = some_elements(dice);
    let (verdict, _) = run_in(rt, alloc, subject, Mode::Rounds, elements);
    if let Some(way) = counted(&mut tally.in_rounds, verdict, "in rounds", elements)? {
        return Ok(Some(way));
    }
    let (verdict, elements) = run_at_random(alloc, subject, dice, events)?;
    if let Some(way) = counted(&mut tally.listed, verdict, "in a random order", elements)? {
        return Ok(Some(way));
    }
    if ways == Ways::Repeatable {
        return Ok(None);
    }
    let elements = some_elements(dice);
    let (verdict, _) = run_in(rt, alloc, subject, Mode::Free, elements);
    tally.free = tally.free.wrapping_add(1);
    Ok(
        (verdict == Verdict::Differs).then_some(Way {
            name: "free",
            elements,
        }),
    )
}
