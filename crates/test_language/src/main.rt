//! Runs random programs of the source language, and compares each run with what an evaluator of its own finds that the program means: in
//! turn, in rounds, free and in random orders, on 1 to 16 elements. Then there are other programs with a change in each text: a text is
//! refused at a place that is not before the change, or it is run and compared, too. Of small programs each growth is refused, from the text
//! to the report. The words of the command line may say how many texts there are of each part, and a seed. Prints what there was of each
//! kind, or the first text that differs, with status 1.
#![tactic(auto)]

mod growths;
mod runs;
mod tally;
mod trial;

use growths::refuse_each;
use runs::{Subject, Ways};
use std::alloc::Global;
use std::env;
use std::io::{self, Write};
use std::process::ExitCode;
use std::sync::Wait;
use std::thread::Threads;
use tally::Tally;
use test_inputs::random_graphs::dice::Dice;
use test_random_programs::damage::{Changed, change, unchanged};
use test_random_programs::evaluation::MeantEnd;
use test_random_programs::{Scale, program};
use trial::{Reading, Sample, Wrong, first_wrong, lower_text, some_inputs};

/// How many texts there are of each part, and the seed.
#[derive(Clone, Copy)]
struct Sizes {
    programs: u64,
    changed: u64,
    growths: u64,
    seed: u64,
}

/// What is done with texts.
#[derive(Clone, Copy, PartialEq, Eq)]
enum Part {
    Programs,
    Changed,
    Growths,
}

impl Part {
    fn name(self) -> &'static str {
        match self {
            Part::Programs => "programs",
            Part::Changed => "changed",
            Part::Growths => "growths",
        }
    }

    /// The ways in which the program of this number is run: every eighth is also run by free elements.
    fn ways(self, number: u64) -> Ways {
        if self == Part::Programs && number % 8 == 0 {
            Ways::All
        } else {
            Ways::Repeatable
        }
    }
}

/// The numbers that the words give.
fn sizes_in(words: &[String]) -> Option<Sizes> {
    let mut numbers = [300, 600, 10, 0];
    for (number, word) in numbers.iter_mut().zip(words.iter().skip(1)) {
        *number = word.parse().ok()?;
    }
    let [programs, changed, growths, seed] = numbers;
    Some(Sizes {
        programs,
        changed,
        growths,
        seed,
    })
}

/// The random text of this number.
fn some_text(alloc: Global, dice: &mut Dice, number: u64, part: Part) -> io::Result<Changed> {
    let seed = dice.throw(u64::MAX).wrapping_add(number);
    let scale = if part == Part::Growths {
        Scale::Small
    } else {
        Scale::Large
    };
    let text = program(alloc, seed, scale)?;
    if part == Part::Changed {
        Ok(change(alloc, dice, &text)?)
    } else {
        Ok(unchanged(text))
    }
}

/// What is wrong where each growth is refused, if anything is. Texts that are refused, or not followed to their end, are left out.
fn wrong_growth<R: Threads + Wait + Sync>(
    rt: &R,
    alloc: Global,
    tally: &mut Tally,
    sample: &mut Sample,
) -> io::Result<Option<Wrong>> {
    let lowered = match lower_text(alloc, tally, &sample.changed.text, &mut sample.inputs)? {
        Reading::Lowered(lowered) => lowered,
        Reading::Refused(_) => return Ok(None),
    };
    tally.count_meaning(&lowered.meaning)?;
    if lowered.meaning.end == MeantEnd::Long {
        return Ok(None);
    }
    let subject = Subject {
        text: &sample.changed.text,
        graph: &lowered.graph,
        inputs: sample.inputs.as_slice(),
        meaning: &lowered.meaning,
    };
    match refuse_each(rt, alloc, subject) {
        Some(growths) => {
            tally.growths = tally.growths.wrapping_add(growths);
            Ok(None)
        }
        None => Ok(Some(Wrong::Growth)),
    }
}

/// Prints a text that differs, with its inputs.
fn tell<W: Write>(out: &mut W, number: u64, wrong: Wrong, sample: &Sample) -> io::Result<()> {
    writeln!(out, "number {number} {wrong}:")?;
    out.write_all(&sample.changed.text)?;
    writeln!(out, "\ninputs")?;
    for input in &sample.inputs {
        writeln!(out, "{input}")?;
    }
    Ok(())
}

/// Whether so many texts of a part agree. Prints the first that differs.
fn part_agrees<R: Threads + Wait + Sync, W: Write>(
    rt: &R,
    alloc: Global,
    out: &mut W,
    part: Part,
    count: u64,
    seed: u64,
) -> io::Result<bool> {
    let mut tally = Tally::new(alloc);
    let mut dice = Dice::new(seed);
    for number in 0..count {
        let mut sample = Sample {
            changed: some_text(alloc, &mut dice, number, part)?,
            inputs: some_inputs(alloc, &mut dice)?,
        };
        let wrong = match part {
            Part::Growths => wrong_growth(rt, alloc, &mut tally, &mut sample)?,
            Part::Programs | Part::Changed => {
                let ways = part.ways(number);
                first_wrong(rt, alloc, &mut tally, &mut dice, &mut sample, ways)?
            }
        };
        if let Some(wrong) = wrong {
            tell(out, number, wrong, &sample)?;
            return Ok(false);
        }
    }
    tally.print(out, part.name())?;
    Ok(true)
}

fn main(rt: HostRuntime) -> io::Result<ExitCode> {
    let alloc = rt.alloc();
    let words: Vec<String> = env::args(&rt)?.collect(alloc)?;
    let mut out = io::writer(&rt);
    let Some(sizes) = sizes_in(&words) else {
        writeln!(out, "words: PROGRAMS CHANGED GROWTHS SEED")?;
        return Ok(ExitCode::FAILURE);
    };
    let seed = sizes.seed;
    if part_agrees(&rt, alloc, &mut out, Part::Programs, sizes.programs, seed)?
        && part_agrees(&rt, alloc, &mut out, Part::Changed, sizes.changed, seed)?
        && part_agrees(&rt, alloc, &mut out, Part::Growths, sizes.growths, seed)?
    {
        writeln!(out, "agree")?;
        return Ok(ExitCode::SUCCESS);
    }
    Ok(ExitCode::FAILURE)
}
