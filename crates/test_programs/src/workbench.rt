//! Looks at what the commands of the workbench print. Objects of random graphs are listed, with their literals and without, and
//! assembled again; traces have the report of their run, and as many slices as lines; profiles add up, and their pictures are well
//! formed; random orders have the report of the run; graphs whose waves are known have these. Prints how much was looked at, and
//! `agree`, or the first graph that differs.

mod known;
mod objects;
mod orders;
mod profiles;
mod tally;
mod traces;

use crate::sizes::Sizes;
use known::{CHAIN, LISTING, TREE, looks_right, loop_looks_right};
use std::alloc::{AllocError, Global};
use std::io::{self, Write};
use std::sync::Wait;
use std::thread::Threads;
use tally::Tally;
use test_inputs::random_graphs::dice::Dice;
use test_inputs::random_graphs::graphs::{Graph, Part};
use test_served::{answer, reassembles, reassembles_with_literals};

/// How many events an element makes at most, and how many activities a meaning has: as a word of a command line.
const STEPS: &str = "20000";

/// How many graphs there are where nothing is said.
const GRAPHS: u64 = 1_000;

/// The runs of one graph in 16 are looked at, too.
const RUNS_ONE_IN: u64 = 16;

/// The numbers of elements of which the profile of a graph has rows. A round of more than one starts threads, and each round has one
/// event of an element, so only few graphs have such rows.
fn sizes_at(number: u64) -> &'static str {
    if number % 256 == 0 { "1,2,4" } else { "1" }
}

/// The text of the graph, and its inputs, one a line.
fn input_of(graph: &Graph) -> io::Result<Vec<u8>> {
    let mut input = Vec::new(*graph.text.allocator());
    input.extend_from_slice(&graph.text)?;
    for number in &graph.inputs {
        writeln!(input, "{number}")?;
    }
    Ok(input)
}

/// What is wrong with the object of the graph.
fn look_at_object<R: Threads + Wait + Sync>(
    rt: &R,
    tally: &mut Tally,
    graph: &Graph,
) -> Result<(), &'static str> {
    let alloc = *graph.text.allocator();
    let object = answer(rt, alloc, &["ets", "compile"], &graph.text);
    if object.status != 0 {
        tally.refused = tally.refused.wrapping_add(1);
        return Ok(());
    }
    if !reassembles(rt, alloc, &object.text)
        || !reassembles_with_literals(rt, alloc, &object.text)
    {
        return Err("an object does not come back");
    }
    tally.objects = tally.objects.wrapping_add(1);
    Ok(())
}

/// What is wrong with the runs of the graph on its inputs.
fn look_at_runs<R: Threads + Wait + Sync>(
    rt: &R,
    tally: &mut Tally,
    input: &Vec<u8>,
    sizes: &str,
) -> Result<(), &'static str> {
    let alloc = *input.allocator();
    let traced = traces::look(rt, alloc, input)?;
    let waves = profiles::look(rt, alloc, input, &traced, sizes)?;
    if traced.status == 0 && !orders::agree(rt, alloc, input) {
        return Err("orders differ");
    }
    tally.graphs = tally.graphs.wrapping_add(1);
    tally.events = tally.events.wrapping_add(traced.events);
    tally.waves = tally.waves.wrapping_add(waves);
    Ok(())
}

/// Looks at random graphs: what is wrong with the first one that differs.
fn look_at_graphs<R: Threads + Wait + Sync, W: Write>(
    rt: &R,
    out: &mut W,
    tally: &mut Tally,
    alloc: Global,
    sizes: Sizes,
) -> anyhow::Result<bool> {
    let mut dice = Dice::new(sizes.seed);
    for number in 0..sizes.count.unwrap_or(GRAPHS) {
        let seed = dice.throw(u64::MAX).wrapping_add(number);
        let graph = Graph::random(alloc, Part::All, seed)?;
        let mut found = look_at_object(rt, tally, &graph);
        if found.is_ok() && number % RUNS_ONE_IN == 0 {
            found = look_at_runs(rt, tally, &input_of(&graph)?, sizes_at(number));
        }
        if let Err(wrong) = found {
            writeln!(out, "{wrong}")?;
            out.write_all(&input_of(&graph)?)?;
            return Ok(false);
        }
    }
    Ok(true)
}

/// Whether the graphs that are known have the profile that they have to have.
fn knows<R: Threads + Wait + Sync>(rt: &R, alloc: Global) -> Result<bool, AllocError> {
    Ok(
        looks_right(rt, alloc, CHAIN, 6, 6)
            && looks_right(rt, alloc, TREE, 16, 5)
            && loop_looks_right(rt, alloc, b"loop b 2")?
            && loop_looks_right(rt, alloc, b"loop b 8")?
            && objects::adds(rt, alloc, LISTING),
    )
}

/// Whether all that is looked at is as it should be. Prints how much it was, or what differs.
pub fn agrees<R: Threads + Wait + Sync, W: Write>(
    rt: &R,
    alloc: Global,
    out: &mut W,
    sizes: Sizes,
) -> anyhow::Result<bool> {
    let mut tally = Tally::new();
    if !look_at_graphs(rt, out, &mut tally, alloc, sizes)? {
        return Ok(false);
    }
    writeln!(out, "{tally}")?;
    if !knows(rt, alloc)? {
        writeln!(out, "a graph that is known differs")?;
        return Ok(false);
    }
    writeln!(out, "agree")?;
    Ok(true)
}
