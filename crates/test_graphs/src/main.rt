//! Runs random graphs in random orders of steps, and compares each run with the graph's meaning. The first are graphs with
//! calls and arrays, with just enough frames; then there are graphs of all kinds, with few frames and small bounds. The words
//! of the command line may say how many graphs there are of each part; after `--seed`, which graphs; and after `--free`, how
//! often free elements run each. Prints how many graphs and runs there were of each kind, or the first graph whose run
//! differs, with status 1.
#![tactic(auto)]

mod tally;
mod trials;
mod verdict;

use driver::meaning::mean_text;
use oracle::MeanEnd;
use std::alloc::Global;
use std::env;
use std::io::{self, Write};
use std::process::ExitCode;
use std::sync::Wait;
use std::thread::Threads;
use tally::Tally;
use test_inputs::random_graphs::dice::Dice;
use test_inputs::random_graphs::graphs::{Graph, Part};
use trials::Trials;

/// The most activities of a meaning.
const ACTIVITIES: u64 = 2_000;

/// How many graphs there are of each part, and their seed.
#[derive(Drop)]
struct Sizes {
    calls: u64,
    all: u64,
    seed: u64,
    /// How often free elements run each graph; where nothing is said, every eighth graph is run once.
    free: Option<u64>,
}

/// What the next word of the command line says.
#[derive(Clone, Copy, PartialEq, Eq)]
enum Next {
    Size,
    Seed,
    Free,
}

/// A graph, and how often free elements run it.
#[derive(Clone, Copy)]
struct Subject<'a> {
    graph: &'a Graph,
    free: u64,
}

/// The numbers that the words give.
fn sizes_in(words: &[String]) -> Option<Sizes> {
    let mut numbers = [500, 1_000];
    let mut place = 0usize;
    let mut seed = 0;
    let mut free = None;
    let mut next = Next::Size;
    for word in words.iter().skip(1) {
        if word.as_str() == "--seed" {
            next = Next::Seed;
            continue;
        }
        if word.as_str() == "--free" {
            next = Next::Free;
            continue;
        }
        let number: u64 = word.parse().ok()?;
        match next {
            Next::Seed => seed = number,
            Next::Free => free = Some(number),
            Next::Size => {
                *numbers.get_mut(place)? = number;
                place = place.wrapping_add(1);
            }
        }
        next = Next::Size;
    }
    let [calls, all] = numbers;
    Some(Sizes {
        calls,
        all,
        seed,
        free,
    })
}

/// Whether all runs of the graph agree with its meaning. Prints the run that differs.
fn graph_agrees<R: Threads + Wait + Sync, W: Write>(
    rt: &R,
    alloc: Global,
    out: &mut W,
    tally: &mut Tally,
    dice: &mut Dice,
    subject: Subject<'_>,
) -> io::Result<bool> {
    let Subject { graph, free } = subject;
    let Ok(meant) = mean_text(alloc, &graph.text, &graph.inputs, ACTIVITIES) else {
        writeln!(out, "refused:")?;
        return Ok(false);
    };
    tally.count_graph(graph, meant.report.end);
    if meant.report.end == MeanEnd::Steps {
        return Ok(true);
    }
    let mut trials = Trials::new(alloc, graph, &meant.report);
    if !trials.all_agree(rt, alloc, tally, dice, free)? {
        trials.write_out(out)?;
        return Ok(false);
    }
    if trials.deferred.unwrap_or(0) > 0 {
        tally.count_waiting();
    }
    Ok(true)
}

/// Whether `graphs` random graphs of this part agree.
fn part_agrees<R: Threads + Wait + Sync, W: Write>(
    rt: &R,
    alloc: Global,
    out: &mut W,
    part: Part,
    graphs: u64,
    sizes: &Sizes,
) -> io::Result<bool> {
    let mut tally = Tally::new();
    let mut dice = Dice::new(sizes.seed);
    for number in 0..graphs {
        let seed = dice.throw(u64::MAX).wrapping_add(number);
        let graph = Graph::random(alloc, part, seed)?;
        let subject = Subject {
            graph: &graph,
            free: sizes.free.unwrap_or(u64::from(number % 8 == 0)),
        };
        if !graph_agrees(rt, alloc, out, &mut tally, &mut dice, subject)? {
            out.write_all(&graph.text)?;
            for input in &graph.inputs {
                writeln!(out, "{input}")?;
            }
            return Ok(false);
        }
    }
    tally.print(out, if part == Part::Calls { "calls" } else { "all" })?;
    Ok(true)
}

fn main(rt: HostRuntime) -> io::Result<ExitCode> {
    let alloc = rt.alloc();
    let words: Vec<String> = env::args(&rt)?.collect(alloc)?;
    let mut out = io::writer(&rt);
    let Some(sizes) = sizes_in(&words) else {
        writeln!(out, "words: CALLS ALL --seed SEED --free TIMES")?;
        return Ok(ExitCode::FAILURE);
    };
    if part_agrees(&rt, alloc, &mut out, Part::Calls, sizes.calls, &sizes)?
        && part_agrees(&rt, alloc, &mut out, Part::All, sizes.all, &sizes)?
    {
        writeln!(out, "agree")?;
        return Ok(ExitCode::SUCCESS);
    }
    Ok(ExitCode::FAILURE)
}
