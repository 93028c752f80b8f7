//! Files of sections.

use crate::banks::push_filled;
use crate::cells::CellsPart;
use crate::firing::FiringPart;
use crate::frames::FramesPart;
use crate::loading::LoadedPart;
use crate::objects::object_named;
use crate::orders::OrderPart;
use crate::part::{Heap, Part, play};
use crate::queue::QueuePart;
use crate::refusing::RefusingPart;
use crate::reports::fault_of;
use crate::running::RunPart;
use crate::slots::{PackingPart, SlotsPart};
use crate::tally::{Line, Tally};
use crate::words::Words;
use loaded::Loaded;
use object_view::Object;
use schedule::config::Config;
use schedule::machine::Machine;
use std::alloc::AllocError;
use std::thread::Threads;
use test_inputs::rationed::Rationed;

/// Plays the lines of a section whose first line has made a part, or has found no memory for it.
fn play_made<P: Part + Drop>(
    made: Option<P>,
    heap: Heap<'_>,
    first: &Line<'_>,
    rest: &[Line<'_>],
    tally: &mut Tally,
) -> Result<(), AllocError> {
    match made {
        Some(mut part) => {
            tally.take(first, "")?;
            play(&mut part, heap, rest, tally)
        }
        None => {
            tally.take(first, "no memory")?;
            for line in rest {
                tally.take(line, "not played")?;
            }
            Ok(())
        }
    }
}

/// Plays a run: an object, the numbers of elements, frames and steps, and the inputs.
fn play_run(
    heap: Heap<'_>,
    words: &mut Words<'_>,
    first: &Line<'_>,
    rest: &[Line<'_>],
    tally: &mut Tally,
) -> Option<()> {
    let object = Object::open(object_named(words.word())?).ok()?;
    let elements = words.number()?;
    let config = Config {
        elements: u64::from(elements),
        frames: words.long()?,
        steps: words.long()?,
        turn: 1,
    };
    let inputs = words.integers(tally.alloc)?;
    let Ok(code) = Loaded::new(heap, object) else {
        return tally.take(first, "no memory").ok();
    };
    let mut store = None;
    match Machine::start(heap, &mut store, &code, &inputs, config) {
        Ok(machine) => {
            let part = RunPart::new(machine, elements);
            play_made(Some(part), heap, first, rest, tally).ok()
        }
        Err(fault) => tally.take(first, fault_of(fault)).ok(),
    }
}

/// Plays the lines of a section on this memory. `None` where its first line is not understood.
fn play_part<R: Threads + AllocGlobal + Sync>(
    rt: &R,
    heap: Heap<'_>,
    first: &Line<'_>,
    rest: &[Line<'_>],
    tally: &mut Tally,
) -> Option<()> {
    let mut words = Words::of(first.operation);
    match words.word() {
        "queue" => play_made(Some(QueuePart::new(heap)), heap, first, rest, tally).ok(),
        "packing" => play_made(Some(PackingPart), heap, first, rest, tally).ok(),
        "instructions" => play_made(Some(FiringPart), heap, first, rest, tally).ok(),
        "slots" => play_made(SlotsPart::new(heap).ok(), heap, first, rest, tally).ok(),
        "threads" => {
            let mut answer = String::new(tally.alloc);
            push_filled(rt, &mut answer).ok()?;
            tally.take(first, answer.as_str()).ok()
        }
        "frames" => {
            let made = FramesPart::new(heap, words.number()?);
            play_made(made, heap, first, rest, tally).ok()
        }
        "cells" => {
            let cells = words.number()?;
            let element = words.number()?;
            let elements = words.number()?;
            let made = CellsPart::new(heap, cells, element, elements);
            play_made(made, heap, first, rest, tally).ok()
        }
        "object" => {
            let made = LoadedPart::new(heap, words.word());
            play_made(made, heap, first, rest, tally).ok()
        }
        "order" => {
            let part = OrderPart::new(heap, rt.alloc(), words.place()?);
            play_made(Some(part), heap, first, rest, tally).ok()
        }
        "run" => play_run(heap, &mut words, first, rest, tally),
        "refusals" => {
            let part = RefusingPart::new(rt.alloc(), &mut words)?;
            play_made(Some(part), heap, first, rest, tally).ok()
        }
        _ => None,
    }
}

/// Plays the lines of a section once for each number of a growth that is refused. Number 0 stands for none.
fn play_on<R: Threads + AllocGlobal + Sync>(
    rt: &R,
    numbers: (u64, u64),
    lines: &[Line<'_>],
    tally: &mut Tally,
) -> Result<(), AllocError> {
    let Some((first, rest)) = lines.split_first() else {
        return Ok(());
    };
    let (least, greatest) = numbers;
    if least > greatest {
        return tally.take(first, "not understood");
    }
    for number in least..=greatest {
        let heap = Rationed::new(rt.alloc(), number);
        if play_part(rt, &heap, first, rest, tally).is_none() {
            tally.take(first, "not understood")?;
        }
    }
    Ok(())
}

/// The numbers of the growths that a line says to refuse in turn.
fn refused_growths(line: &Line<'_>) -> Option<(u64, u64)> {
    let mut words = Words::of(line.operation);
    if words.word() != "refuse" {
        return None;
    }
    Some((words.long()?, words.long()?))
}

/// Plays the lines of a section.
fn play_section<R: Threads + AllocGlobal + Sync>(
    rt: &R,
    lines: &[Line<'_>],
    tally: &mut Tally,
) -> Result<(), AllocError> {
    if let Some((first, rest)) = lines.split_first() {
        if let Some(numbers) = refused_growths(first) {
            return play_on(rt, numbers, rest, tally);
        }
    }
    play_on(rt, (0, 0), lines, tally)
}

/// Plays the sections of a file with this name and this text.
pub fn play_file<R: Threads + AllocGlobal + Sync>(
    rt: &R,
    tally: &mut Tally,
    name: &str,
    text: &str,
) -> Result<(), AllocError> {
    let mut lines = Vec::new(rt.alloc());
    let mut number = 0u64;
    for line in text.lines() {
        number = number.wrapping_add(1);
        if line.is_empty() {
            play_section(rt, &lines, tally)?;
            lines.clear();
        } else if !line.starts_with("#") {
            lines.push(Line::of(name, number, line))?;
        }
    }
    play_section(rt, &lines, tally)
}
