//! Checks, for each example, that runs of its code have exactly the outputs, the cells and the end of its meaning. The runs are on 1, 2, 3 and 16 elements: one
//! event after another, in rounds, and free. A run that starves has no output and no cell that its meaning does not have. A run that says something else than
//! the first one gets a line of its own. So does an example whose object is not obtained again from its listing, or runs in another way than its graph, or
//! whose random orders differ.

mod tools;

use crate::lines::count;
use commands::input::{parse_integers, split_at_main};
use driver::emulation::run_text;
use driver::meaning::mean_text;
use driver::order::Order;
use driver::resources::Resources;
use mode::Mode;
use report_text::{write_meaning, write_report};
use rounds::Open;
use schedule::config::Config;
use schedule::take::Take;
use std::alloc::{AllocError, Global};
use std::fs;
use std::io::{self, Write};
use std::sync::Wait;
use std::thread::Threads;

/// The example whose token goes to another element every few events. Each time a round ends, so it takes thousands of rounds.
const SERIAL: &str = "sum_loop.ets";

const STEPS: u64 = 1_000_000;

/// How often free elements run an example. Each time their threads may meet in another order.
const FREE_RUNS: u64 = 5;

/// How often free elements run this example. In some examples the tokens go to another element again and again, and each time
/// another thread has to get its turn.
fn free_runs(name: &str) -> u64 {
    if name == SERIAL {
        0
    } else if name == "collatz.ets" || name == "nested_loops.ets" {
        1
    } else {
        FREE_RUNS
    }
}

/// The text of the report of a run in this mode on `elements` elements.
fn report_of<R: Threads + Wait + Sync>(
    rt: &R,
    alloc: Global,
    input: &[u8],
    mode: Mode,
    elements: u64,
) -> Option<Vec<u8>> {
    let (text, lines) = split_at_main(input);
    let integers = parse_integers(alloc, lines).ok()?;
    let config = Config {
        elements,
        frames: 256,
        steps: STEPS,
        turn: 1_024,
    };
    let resources = Resources {
        alloc,
        rt,
        gate: &Open,
    };
    let order = Order::in_mode(mode, Take::Oldest);
    let emulated = run_text(resources, text, &integers, config, order).ok()?;
    let mut report = Vec::new(alloc);
    write_report(&mut report, emulated.checked.graph(), &emulated.report).ok()?;
    Some(report)
}

/// The text of the meaning.
fn meaning_of(alloc: Global, input: &[u8]) -> Option<Vec<u8>> {
    let (text, lines) = split_at_main(input);
    let integers = parse_integers(alloc, lines).ok()?;
    let meant = mean_text(alloc, text, &integers, STEPS).ok()?;
    let mut meaning = Vec::new(alloc);
    write_meaning(&mut meaning, meant.checked.graph(), &meant.report).ok()?;
    Some(meaning)
}

/// Whether the line is one that both a report and a meaning have.
fn is_shared(line: &[u8]) -> bool {
    line.starts_with(b"output ") || line.starts_with(b"cell ") || line.starts_with(b"end ")
}

/// The lines of a report that a meaning has too.
fn shared(alloc: Global, report: &[u8]) -> Result<Vec<u8>, AllocError> {
    let mut lines = Vec::new(alloc);
    for line in report.split(|byte| *byte == b'\n') {
        if is_shared(line) {
            lines.extend_from_slice(line)?;
            lines.push(b'\n')?;
        }
    }
    Ok(lines)
}

/// Whether a line of a run that starves is the end or a missing output, or a line of the meaning, too.
fn is_within(line: &[u8], meaning: &[u8]) -> bool {
    line.starts_with(b"end ")
        || line.starts_with(b"output ") && line.ends_with(b" -")
        || meaning
            .split(|byte| *byte == b'\n')
            .any(|wanted| wanted == line)
}

/// Whether a run is right to starve: a request waits, and the meaning has all outputs and cells that the run has.
fn starves_within(report: &[u8], lines: &[u8], meaning: &[u8]) -> bool {
    count(report, b"waiting 0 0") == 0
        && count(lines, b"output ") == count(meaning, b"output ")
        && lines
            .split(|byte| *byte == b'\n')
            .all(|line| is_within(line, meaning))
}

/// What a run in this mode on `elements` elements says, compared with this meaning.
fn verdict<R: Threads + Wait + Sync>(
    rt: &R,
    alloc: Global,
    input: &[u8],
    meaning: &[u8],
    mode: Mode,
    elements: u64,
) -> io::Result<&'static str> {
    let Some(report) = report_of(rt, alloc, input, mode, elements) else {
        return Ok("is refused");
    };
    let lines = shared(alloc, &report)?;
    Ok(if lines.as_slice() == meaning {
        "agrees"
    } else if report.ends_with(b"\nend Starved\n") && starves_within(&report, &lines, meaning) {
        "starves"
    } else {
        "differs"
    })
}

/// Prints what the runs of an example say.
fn write_out<R: Threads + Wait + Sync, W: Write>(
    rt: &R,
    alloc: Global,
    out: &mut W,
    name: &str,
    input: &[u8],
) -> io::Result<()> {
    let Some(meaning) = meaning_of(alloc, input) else {
        return writeln!(out, "{name} is refused");
    };
    let first = verdict(rt, alloc, input, &meaning, Mode::One, 1)?;
    writeln!(out, "{name} {first}")?;
    if let Some(fault) = tools::fault_of(rt, alloc, input)? {
        writeln!(out, "{name} {fault}")?;
    }
    for elements in [1, 2, 3, 16] {
        let one = verdict(rt, alloc, input, &meaning, Mode::One, elements)?;
        if one != first {
            writeln!(out, "{name} on {elements} {one}")?;
        }
        for _ in 0..free_runs(name) {
            let free = verdict(rt, alloc, input, &meaning, Mode::Free, elements)?;
            if free != first {
                writeln!(out, "{name} free on {elements} {free}")?;
            }
        }
        if name == SERIAL && elements > 1 {
            continue;
        }
        let rounds = verdict(rt, alloc, input, &meaning, Mode::Rounds, elements)?;
        if rounds != first {
            writeln!(out, "{name} in rounds on {elements} {rounds}")?;
        }
    }
    Ok(())
}

/// Prints what the runs of the examples in these files say.
pub fn tell_all<R: Threads + Wait + Sync, W: Write>(
    rt: &R,
    files: &HostRuntime,
    out: &mut W,
    names: &[String],
) -> io::Result<()> {
    let alloc = files.alloc();
    for name in names {
        let input = fs::read(files, name.as_str())?;
        write_out(rt, alloc, out, name.as_str(), &input)?;
    }
    Ok(())
}
