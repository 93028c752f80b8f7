//! Reads pictures back: those of random graphs, and those of their code. Each picture has to have the nodes and the edges that
//! the graph's text, or the listing of its object, has, each exactly once, and no others. Prints how many nodes and edges there
//! were, and `agree`, or the first picture that differs.

mod graph_parts;
mod listing_parts;
mod parts;
mod served;

use crate::sizes::Sizes;
use graph_parts::parts_of_graph;
use listing_parts::parts_of_listing;
use parts::{Tally, has_parts};
use served::printed;
use std::alloc::Global;
use std::io::Write;
use std::str;
use std::sync::Wait;
use std::thread::Threads;
use test_inputs::random_graphs::dice::Dice;
use test_inputs::random_graphs::graphs::{Graph, Part};

/// How many graphs there are where nothing is said.
const GRAPHS: u64 = 200;

/// Whether both pictures of the graph agree. Prints the first part that differs.
fn graph_agrees<R: Threads + Wait + Sync, W: Write>(
    rt: &R,
    out: &mut W,
    graphs: &mut Tally,
    codes: &mut Tally,
    text: &Vec<u8>,
) -> anyhow::Result<bool> {
    let alloc = *text.allocator();
    let picture = printed(rt, alloc, &["ets", "dot"], text)?;
    let parts = parts_of_graph(alloc, str::from_utf8(text)?)?;
    if !has_parts(alloc, out, graphs, &picture, parts)? {
        return Ok(false);
    }
    let object = printed(rt, alloc, &["ets", "compile"], text)?;
    let listing = printed(rt, alloc, &["ets", "dis"], &object)?;
    let picture = printed(rt, alloc, &["ets", "dot", "--code"], &object)?;
    let parts = parts_of_listing(alloc, str::from_utf8(&listing)?)?;
    has_parts(alloc, out, codes, &picture, parts)
}

/// Whether both pictures of each graph agree. Prints how many nodes and edges they have, or what differs.
pub fn agree<R: Threads + Wait + Sync, W: Write>(
    rt: &R,
    alloc: Global,
    out: &mut W,
    sizes: Sizes,
) -> anyhow::Result<bool> {
    let mut dice = Dice::new(sizes.seed);
    let mut graphs = Tally::new();
    let mut codes = Tally::new();
    for number in 0..sizes.count.unwrap_or(GRAPHS) {
        let seed = dice.throw(u64::MAX).wrapping_add(number);
        let graph = Graph::random(alloc, Part::All, seed)?;
        if !graph_agrees(rt, out, &mut graphs, &mut codes, &graph.text)? {
            out.write_all(&graph.text)?;
            return Ok(false);
        }
    }
    writeln!(out, "graphs: {graphs}")?;
    writeln!(out, "code: {codes}")?;
    writeln!(out, "agree")?;
    Ok(true)
}
