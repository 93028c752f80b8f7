//! A machine that runs an object.

ghost use Rattle.std.specs.Prelude.{◌≡◌, ◌<◌, All, IfOk, IfSome};

use crate::part::{Heap, Part};
use crate::reports::{push_halt, push_report, push_stepped};
use crate::words::Words;
use loaded::Loaded;
use schedule::halt::Halt;
use schedule::machine::Machine;
use std::alloc::{AllocError, Global};

/// The machine of an object.
pub type ObjectMachine<'m, 'h> = Machine<'m, Loaded<'static, Heap<'h>>, Heap<'h>>;

/// A machine, and how many elements it has.
#[derive(Drop)]
struct Running<'m, 'h> {
    machine: ObjectMachine<'m, 'h>,
    elements: u32,
    ghost counted: { machine.state.setting.elements ≡ elements },
}

/// A run, until it is reported.
#[derive(Drop)]
pub struct RunPart<'m, 'h> {
    running: Option<Running<'m, 'h>>,
}

impl<'m, 'h> RunPart<'m, 'h> {
    pub fn new(machine: ObjectMachine<'m, 'h>, elements: u32) -> RunPart<'m, 'h>
        requires { machine.state.setting.elements ≡ elements }
    {
        RunPart {
            running: Some(Running { machine, elements }),
        }
    }
}

impl<'m, 'h> RunPart<'m, 'h> {
    /// Goes on with what a line has left. There is nothing where it was not understood.
    fn go_on(&mut self, running: Option<Running<'m, 'h>>) -> Option<()> {
        let is_understood = running.is_some();
        self.running = running;
        is_understood.then_some(())
    }
}

/// The element and the number of its token that a word gives, with a dot between them.
fn pick_of(word: &str, elements: u32) -> Option<(u32, u64)>
    ensures { IfSome result (λ pick. pick.0 < elements) }
{
    let (element, pick) = word.split_once('.')?;
    let element = element.parse().ok()?;
    if element >= elements {
        return None;
    }
    Some((element, pick.parse().ok()?))
}

/// The picks that these words give.
fn picks_in(alloc: Global, words: &Words<'_>, elements: u32) -> Option<Vec<(u32, u64)>>
    ensures { IfSome result (λ picks. All (λ pick. pick.0 < elements) picks.items) }
{
    let mut picks = Vec::new(alloc);
    if words.is_over() {
        return Some(picks);
    }
    for word in words.rest().split(' ') {
        let pick = pick_of(word, elements)?;
        picks.push(pick).ok()?;
    }
    Some(picks)
}

/// The next pseudorandom number.
fn next_of(seed: u64) -> u64 {
    seed.wrapping_mul(6_364_136_223_846_793_005)
        .wrapping_add(1_442_695_040_888_963_407)
}

/// Picks of elements and tokens in a pseudorandom order.
fn picks_of(alloc: Global, elements: u32, order: u64) -> Result<Vec<(u32, u64)>, AllocError>
    requires { 0 < elements }
    ensures { IfOk result (λ picks. All (λ pick. pick.0 < elements) picks.items) }
{
    let mut seed = order;
    let mut picks = Vec::new(alloc);
    for _ in 0..2000 {
        seed = next_of(seed);
        let element = ((seed / 65_536) % u64::from(elements)) as u32;
        picks.push((element, seed / 4_294_967_296))?;
    }
    Ok(picks)
}

/// Makes the step that the words give.
fn step<'m, 'h>(
    running: Running<'m, 'h>,
    words: &mut Words<'_>,
    answer: &mut String,
) -> Option<Running<'m, 'h>> {
    let element = words.number()?;
    let pick = words.long()?;
    if element >= running.elements {
        return None;
    }
    let Running {
        mut machine,
        elements,
    } = running;
    let stepped = machine.step(element, pick);
    push_stepped(answer, stepped).ok()?;
    Some(Running { machine, elements })
}

/// Plays the picks that the words give.
fn play<'m, 'h>(
    running: Running<'m, 'h>,
    words: &Words<'_>,
    answer: &mut String,
) -> Option<Running<'m, 'h>> {
    let Running {
        mut machine,
        elements,
    } = running;
    let picks = picks_in(*answer.allocator(), words, elements)?;
    let halt = machine.play(&picks);
    push_halt(answer, halt).ok()?;
    Some(Running { machine, elements })
}

/// Plays the elements in turn.
fn play_in_turn<'m, 'h>(running: Running<'m, 'h>, answer: &mut String) -> Option<Running<'m, 'h>> {
    let Running {
        mut machine,
        elements,
    } = running;
    let halt = machine.play_in_turn();
    push_halt(answer, halt).ok()?;
    Some(Running { machine, elements })
}

/// Runs in a pseudorandom order, and reports.
fn run_in_order(running: Running<'_, '_>, order: u64, answer: &mut String) -> Option<()> {
    let Running { machine, elements } = running;
    if elements == 0 {
        return None;
    }
    let picks = picks_of(*answer.allocator(), elements, order).ok()?;
    push_report(answer, &machine.run(&picks)).ok()
}

/// Reports a machine that halted as the word says.
fn report(running: Running<'_, '_>, halt: &str, answer: &mut String) -> Option<()> {
    let Running { machine, .. } = running;
    match halt {
        "steps" => push_report(answer, &machine.report(Halt::Steps)).ok(),
        "no-token" => push_report(answer, &machine.report(Halt::NoToken)).ok(),
        _ => None,
    }
}

/// Goes on without the list of events, and reports.
fn go_on_quietly(running: Running<'_, '_>, answer: &mut String) -> Option<()> {
    let Running { machine, .. } = running;
    let mut quiet = machine.without_events();
    let halt = quiet.play_in_turn();
    push_halt(answer, halt).ok()?;
    answer.push_str(": ").ok()?;
    push_report(answer, &quiet.report(halt)).ok()
}

/// Takes apart a machine that halted as the word says, writes what it has, and reports.
fn take_apart(running: Running<'_, '_>, halt: &str, answer: &mut String) -> Option<()> {
    let Running { machine, .. } = running;
    let Ok((setup, lanes)) = machine.into_lanes() else {
        return None;
    };
    let mut tokens = 0usize;
    for lane in &lanes {
        tokens = tokens.wrapping_add(lane.queue().len());
    }
    let count = lanes.len();
    let steps = setup.shape.steps;
    let turn = setup.shape.turn;
    write!(
        answer,
        "{count} lanes, {tokens} tokens, steps {steps}, turn {turn}: "
    )
    .ok()?;
    match halt {
        "steps" => push_report(answer, &setup.report(lanes, Halt::Steps)).ok(),
        "no-token" => push_report(answer, &setup.report(lanes, Halt::NoToken)).ok(),
        _ => None,
    }
}

/// Runs the elements in turn, and reports.
fn run_one(running: Running<'_, '_>, answer: &mut String) -> Option<()> {
    let Running { machine, .. } = running;
    push_report(answer, &machine.run_one()).ok()
}

/// The same with no list of events.
fn run_quietly(running: Running<'_, '_>, answer: &mut String) -> Option<()> {
    let Running { machine, .. } = running;
    push_report(answer, &machine.run_quietly()).ok()
}

/// Does what ends the run.
fn finish(
    running: Running<'_, '_>,
    operation: &str,
    words: &mut Words<'_>,
    answer: &mut String,
) -> Option<()> {
    match operation {
        "report" => report(running, words.word(), answer),
        "run-one" => run_one(running, answer),
        "run-quietly" => run_quietly(running, answer),
        "run-in-order" => run_in_order(running, words.long()?, answer),
        "go-on-quietly" => go_on_quietly(running, answer),
        "take-apart" => take_apart(running, words.word(), answer),
        _ => None,
    }
}

impl Part for RunPart<'_, '_> {
    fn act(&mut self, words: &mut Words<'_>, answer: &mut String) -> Option<()> {
        match self.running.take() {
            Some(running) => match words.word() {
                "step" => self.go_on(step(running, words, answer)),
                "play" => self.go_on(play(running, words, answer)),
                "play-in-turn" => self.go_on(play_in_turn(running, answer)),
                operation => finish(running, operation, words, answer),
            },
            None => None,
        }
    }
}
