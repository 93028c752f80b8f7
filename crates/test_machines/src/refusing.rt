//! Each growth of a run is refused in turn.

ghost use Rattle.std.specs.Prelude.{◌≡◌, ◌<◌};

use crate::objects::object_named;
use crate::part::{Heap, Part};
use crate::reports::push_report;
use crate::running::ObjectMachine;
use crate::words::Words;
use element::lane::Stepped;
use loaded::Loaded;
use object_view::Object;
use schedule::config::{Config, StartFault};
use schedule::halt::Halt;
use schedule::machine::Machine;
use schedule::report::Report;
use semantics::report::End;
use std::alloc::{AllocError, Global};
use test_inputs::rationed::{Rationed, is_next_refused};

/// Where a growth was refused.
#[derive(Clone, Copy)]
enum Refused {
    AtTheStart,
    InTheRun,
    InTheReport,
    Nowhere,
}

/// How a run is made.
#[derive(Clone, Copy)]
enum Way {
    /// To its end, whatever happens.
    Whole,
    /// To its end; it is not continued where a growth is refused.
    InTurn,
    /// Step by step. A step whose growth is refused is made again.
    StepByStep,
    /// To its end, with no list of events; a run that was refused a growth goes on.
    Quietly,
}

/// A run, with its report where no growth is refused, and with that of the machine before its first event.
#[derive(Drop)]
pub struct RefusingPart {
    object: &'static [u8],
    elements: u32,
    frames: u64,
    input: i64,
    /// How many events a report may list.
    events: usize,
    report: String,
    opening: String,
}

impl RefusingPart {
    /// The run that these words give: an object, its elements, frames and input, and how many events it has.
    pub fn new(alloc: Global, words: &mut Words<'_>) -> Option<RefusingPart> {
        let object = object_named(words.word())?;
        let elements = words.number()?;
        if elements == 0 {
            return None;
        }
        Some(RefusingPart {
            object,
            elements,
            frames: words.long()?,
            input: words.integer()?,
            events: words.place()?,
            report: String::new(alloc),
            opening: String::new(alloc),
        })
    }
}

fn text_of(alloc: Global, report: &Report<Heap<'_>>) -> Result<String, AllocError> {
    let mut text = String::new(alloc);
    push_report(&mut text, report)?;
    Ok(text)
}

/// The outcome of a run that halted where it should, by its report; `None` where that is another.
fn told(part: &RefusingPart, report: &Report<Heap<'_>>, refused: Refused) -> Option<Refused> {
    let text = text_of(*part.report.allocator(), report).ok()?;
    if text == part.report {
        return Some(refused);
    }
    match refused {
        Refused::Nowhere if text == part.opening => Some(Refused::InTheReport),
        _ => None,
    }
}

/// The outcome of a run that was not continued after its halt, by its report.
fn told_once(part: &RefusingPart, report: &Report<Heap<'_>>) -> Option<Refused> {
    let text = text_of(*part.report.allocator(), report).ok()?;
    if text == part.report {
        return Some(Refused::Nowhere);
    }
    let is_refused = matches!(report.end, End::Memory) && report.events.len() < part.events;
    is_refused.then_some(Refused::InTheRun)
}

/// The outcome of a run to its first halt.
fn run_in_turn(part: &RefusingPart, mut machine: ObjectMachine<'_, '_>) -> Option<Refused> {
    let halt = machine.play_in_turn();
    if matches!(halt, Halt::Memory) {
        return Some(Refused::InTheRun);
    }
    told(part, &machine.report(halt), Refused::Nowhere)
}

/// The outcome of a run with no list of events, which goes on where a growth was refused.
fn run_quietly(part: &RefusingPart, machine: ObjectMachine<'_, '_>) -> Option<Refused> {
    let mut quiet = machine.without_events();
    let halt = quiet.play_in_turn();
    if matches!(halt, Halt::Memory) {
        let halt = quiet.play_in_turn();
        return told(part, &quiet.report(halt), Refused::InTheRun);
    }
    told(part, &quiet.report(halt), Refused::Nowhere)
}

/// Runs the machine step by step, until a growth is refused. Then the same step is tried again: whether it was refused. `None` where
/// something else was wrong.
fn step_to_refusal(machine: &mut ObjectMachine<'_, '_>, elements: u32) -> Option<bool>
    requires some { 0 < elements }
    requires elements { machine.old.state.setting.elements ≡ elements }
{
    for turn in 0..20_000 {
        let element = turn % elements;
        match machine.step(element, 0) {
            Some(Stepped::Memory) => {
                let again = machine.step(element, 0);
                return matches!(again, Some(Stepped::Did)).then_some(true);
            }
            Some(_) => {}
            None => return None,
        }
    }
    Some(false)
}

/// The outcome of a run step by step. Where a growth is refused, the same step is tried again, and then has to succeed.
fn run_by_steps(part: &RefusingPart, mut machine: ObjectMachine<'_, '_>) -> Option<Refused>
    requires some { 0 < part.now.elements }
    requires elements { machine.state.setting.elements ≡ part.now.elements }
{
    if step_to_refusal(&mut machine, part.elements)? {
        let halt = machine.play_in_turn();
        return told(part, &machine.report(halt), Refused::InTheRun);
    }
    told(part, &machine.report(Halt::NoToken), Refused::Nowhere)
}

/// The outcome of a run of this machine.
fn run(part: &RefusingPart, machine: ObjectMachine<'_, '_>, way: Way) -> Option<Refused>
    requires some { 0 < part.now.elements }
    requires elements { machine.state.setting.elements ≡ part.now.elements }
{
    match way {
        Way::Whole => told_once(part, &machine.run_one()),
        Way::InTurn => run_in_turn(part, machine),
        Way::StepByStep => run_by_steps(part, machine),
        Way::Quietly => run_quietly(part, machine),
    }
}

/// The outcome of a run on this memory; `None` where something else was wrong.
fn run_on(part: &RefusingPart, heap: Heap<'_>, way: Way) -> Option<Refused> {
    if part.elements == 0 {
        return None;
    }
    let object = Object::open(part.object).ok()?;
    let Ok(code) = Loaded::new(heap, object) else {
        return Some(Refused::AtTheStart);
    };
    let config = Config {
        elements: u64::from(part.elements),
        frames: part.frames,
        steps: 1000,
        turn: 1,
    };
    let mut store = None;
    match Machine::start(heap, &mut store, &code, &[part.input], config) {
        Ok(machine) => run(part, machine, way),
        Err(StartFault::Memory) => Some(Refused::AtTheStart),
        Err(_) => None,
    }
}

/// How often a growth was refused at the start, in the run and in the report.
#[derive(Clone, Copy)]
struct Counts {
    start: u64,
    run: u64,
    report: u64,
}

/// Refuses one growth after another, until none is refused; `None` where a run went wrong, or was as if no growth had been refused.
fn refusals(part: &RefusingPart, alloc: Global, way: Way) -> Option<Counts> {
    let mut counts = Counts {
        start: 0,
        run: 0,
        report: 0,
    };
    for number in 1..1000 {
        let heap = Rationed::new(alloc, number);
        let refused = run_on(part, &heap, way)?;
        let is_over = is_next_refused(&heap);
        match refused {
            Refused::Nowhere => return is_over.then_some(counts),
            _ if is_over => return None,
            Refused::AtTheStart => counts.start = counts.start.wrapping_add(1),
            Refused::InTheRun => counts.run = counts.run.wrapping_add(1),
            Refused::InTheReport => counts.report = counts.report.wrapping_add(1),
        }
    }
    None
}

/// A word for how many growths were refused.
const fn amount(count: u64) -> &'static str {
    match count {
        0 => "none",
        1 => "one",
        _ => "some",
    }
}

fn push_counts(answer: &mut String, counts: Counts) -> Result<(), AllocError> {
    let start = amount(counts.start);
    let run = amount(counts.run);
    let report = amount(counts.report);
    write!(
        answer,
        "{start} at the start, {run} in the run, {report} in the report"
    )
}

/// The way that a word names.
fn way_of(word: &str) -> Option<Way> {
    match word {
        "whole" => Some(Way::Whole),
        "in-turn" => Some(Way::InTurn),
        "step-by-step" => Some(Way::StepByStep),
        "quietly" => Some(Way::Quietly),
        _ => None,
    }
}

impl Part for RefusingPart {
    fn act(&mut self, words: &mut Words<'_>, answer: &mut String) -> Option<()> {
        let alloc = *answer.allocator();
        match words.word() {
            "report" => {
                self.report = String::from_str(alloc, words.rest()).ok()?;
                Some(())
            }
            "opening" => {
                self.opening = String::from_str(alloc, words.rest()).ok()?;
                Some(())
            }
            "run" => match refusals(self, alloc, way_of(words.word())?) {
                Some(counts) => push_counts(answer, counts).ok(),
                None => answer.push_str("wrong").ok(),
            },
            _ => None,
        }
    }
}
