//! Refuses each growth in turn, under the whole program. For each command line and its input, growth number N is refused, for N from
//! 1 until the run has fewer than N growths. Until then each answer is `refused: memory`, or reports a run with the end `Memory`, and
//! no value or event which the whole run does not have. The last answer, with all growths granted, is the text that it should be.
//! Prints how the refusals were reported and, where figures are asked for, also how often. Then prints `agree`, or the first answer
//! that differs.

mod rows;
mod trials;

use rows::{COMMANDS, Command, EXAMPLES, Example, Reads, Row};
use std::alloc::{AllocError, Global};
use std::io::{self, Write};
use std::sync::Wait;
use std::thread::Threads;
use test_inputs::graph_texts::{with_change, with_inputs};
use test_served::answer;
use trials::{Refusals, refuse_each};

/// What is printed of the trials of a command line.
#[derive(Clone, Copy)]
pub enum Detail {
    /// How the refusals were reported.
    Reports,
    /// The numbers of refusals. They depend on how many growths the program has at present.
    Figures,
}

/// Prints, in a line, the outcome of a command line's trials.
fn print_trials<W: Write>(
    out: &mut W,
    name: &str,
    refusals: Result<Refusals, u64>,
    detail: Detail,
) -> io::Result<bool> {
    match refusals {
        Ok(refusals) if refusals.before == 0 => {
            writeln!(out, "{name}: no growth was refused")?;
            Ok(false)
        }
        Ok(refusals) => {
            match detail {
                Detail::Figures => writeln!(out, "{name}: {refusals}")?,
                Detail::Reports if refusals.within > 0 => writeln!(
                    out,
                    "{name}: refused before the run and in it, and then whole"
                )?,
                Detail::Reports => writeln!(out, "{name}: refused, and then whole")?,
            }
            Ok(true)
        }
        Err(ration) => {
            writeln!(out, "{name}: differs where growth {ration} is refused")?;
            Ok(false)
        }
    }
}

/// What an example reads: its graph, and its inputs after it.
fn input_of(alloc: Global, example: &Example) -> Result<Vec<u8>, AllocError> {
    match example.change {
        Some((old, new)) => {
            let graph = with_change(alloc, example.graph, old, new)?;
            with_inputs(alloc, &graph, example.inputs)
        }
        None => with_inputs(alloc, example.graph, example.inputs),
    }
}

/// Whether the answers to all examples agree.
fn examples_agree<R: Threads + Wait + Sync, W: Write>(
    rt: &R,
    alloc: Global,
    out: &mut W,
    detail: Detail,
) -> io::Result<bool> {
    for example in EXAMPLES {
        let input = input_of(alloc, &example)?;
        let row = Row {
            name: example.name,
            words: example.words,
            input: &input,
            answer: example.answer(),
            wanted: example.wanted,
            status: example.status,
        };
        let refusals = refuse_each(rt, alloc, &row);
        if !print_trials(out, row.name, refusals, detail)? {
            return Ok(false);
        }
    }
    Ok(true)
}

/// What a command reads.
fn read_by<R: Threads + Wait + Sync>(
    rt: &R,
    alloc: Global,
    command: &Command,
) -> Result<Vec<u8>, AllocError> {
    let text = with_inputs(alloc, command.text, command.inputs)?;
    if command.reads == Reads::Text {
        return Ok(text);
    }
    Ok(answer(rt, alloc, &["ets", "compile"], &text).text)
}

/// Whether the answers of commands agree with their answers where no growth is refused.
fn commands_agree<R: Threads + Wait + Sync, W: Write>(
    rt: &R,
    alloc: Global,
    out: &mut W,
    detail: Detail,
) -> io::Result<bool> {
    for command in COMMANDS {
        let name = command.name;
        let input = read_by(rt, alloc, &command)?;
        let whole = answer(rt, alloc, command.words, &input);
        if whole.status != 0 {
            writeln!(out, "{name}: is refused")?;
            return Ok(false);
        }
        let row = Row {
            name,
            words: command.words,
            input: &input,
            answer: command.answer,
            wanted: &whole.text,
            status: 0,
        };
        let refusals = refuse_each(rt, alloc, &row);
        if !print_trials(out, name, refusals, detail)? {
            return Ok(false);
        }
    }
    Ok(true)
}

/// Whether all answers agree. Prints how the refusals were reported, or how often growths were refused.
pub fn agree<R: Threads + Wait + Sync, W: Write>(
    rt: &R,
    alloc: Global,
    out: &mut W,
    detail: Detail,
) -> io::Result<bool> {
    let agrees = examples_agree(rt, alloc, out, detail)? && commands_agree(rt, alloc, out, detail)?;
    if agrees {
        writeln!(out, "agree")?;
    }
    Ok(agrees)
}
