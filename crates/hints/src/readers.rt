//! What the meaning of a graph tells of its run: the cells for which readers wait where the run is at rest, which are those for which fetches wait in the
//! meaning, and how many invocations it calls for.

use crate::lines::{is_full, is_line_feed, split_graph};
use crate::sources::Node;
use graph_check::{Checked, check_graph};
use graph_file::{literal, read_graph};
use oracle::{CallCounts, MeanFault, call_counts, waiting_fetches};
use std::alloc::{AllocError, Allocator};

/// How many cells a hint names.
const NAMED: usize = 8;

/// How many activities of the meaning are done at most.
const ACTIVITIES: u64 = 1_000_000;

/// A cell: the place of its array, and its index there.
pub type Place = (usize, i64);

/// The first cells for which readers wait, in order, and how many there are.
#[derive(Clone, Copy)]
pub struct ReaderCells {
    pub first: [Place; NAMED],
    pub count: usize,
    /// The first fetch that waits.
    pub fetch: Option<Node>,
}

/// The inputs of a run: an integer in each line.
fn inputs_of<A: Allocator>(alloc: A, lines: &[u8]) -> Result<Vec<i64, A>, AllocError> {
    let mut inputs = Vec::new(alloc);
    for line in lines.split(is_line_feed).filter(is_full) {
        inputs.push(literal(line).unwrap_or(0))?;
    }
    Ok(inputs)
}

/// A graph that was read, and the inputs of its run.
#[derive(Drop)]
pub struct ReadRun<'a, A: Allocator> {
    pub checked: Checked<'a, A>,
    pub inputs: Vec<i64, A>,
}

/// The graph of this input and its inputs, where it is one that can be run.
pub fn read_run<'a, A: Allocator + Clone>(
    alloc: A,
    input: &'a [u8],
) -> Result<Option<ReadRun<'a, A>>, AllocError> {
    let (text, lines) = split_graph(input);
    let inputs = inputs_of(alloc.clone()?, lines)?;
    let Ok(graph) = read_graph(alloc, text) else {
        return Ok(None);
    };
    let Ok(checked) = check_graph(graph) else {
        return Ok(None);
    };
    Ok(Some(ReadRun { checked, inputs }))
}

/// The cells for which fetches wait where the meaning is at rest, each as often as a fetch waits for it, with the nodes of the fetches. There are none
/// where the meaning is not at rest soon.
fn waiting_cells<A: Allocator + Clone>(
    alloc: A,
    input: &[u8],
) -> Result<Vec<(Place, Node), A>, AllocError> {
    let mut cells = Vec::new(alloc.clone()?);
    let Some(run) = read_run(alloc.clone()?, input)? else {
        return Ok(cells);
    };
    if let Ok(Some(fetches)) = waiting_fetches(alloc, &run.checked, &run.inputs, ACTIVITIES) {
        for fetch in &fetches {
            let node = Node {
                block: fetch.block as u64,
                node: fetch.node as u64,
            };
            cells.push(((fetch.array, fetch.index), node))?;
        }
    }
    Ok(cells)
}

/// How many invocations the meaning of this graph calls for on its inputs. `None` where it is not at rest soon with no fetch waiting.
pub fn invocations_of<A: Allocator + Clone>(
    alloc: A,
    input: &[u8],
) -> Result<Option<CallCounts>, AllocError> {
    let Some(run) = read_run(alloc.clone()?, input)? else {
        return Ok(None);
    };
    match call_counts(alloc, &run.checked, &run.inputs, ACTIVITIES) {
        Ok(counts) => Ok(counts),
        Err(MeanFault::WrongInputs) => Ok(None),
        Err(MeanFault::Memory) => Err(AllocError),
    }
}

/// The first of these cells, which are in order, and how many there are.
fn first_of(cells: &[Place], fetch: Option<Node>) -> ReaderCells {
    let mut first = [(0, 0); NAMED];
    let mut count = 0usize;
    let mut last = None;
    for cell in cells {
        if last != Some(*cell) {
            if count < NAMED {
                first[count] = *cell;
            }
            count = count.saturating_add(1);
            last = Some(*cell);
        }
    }
    ReaderCells {
        first,
        count,
        fetch,
    }
}

/// The node of the first of these fetches that waits for this cell.
fn fetch_of(fetches: &[(Place, Node)], cell: Option<&Place>) -> Option<Node> {
    let cell = cell?;
    let fetch = fetches.iter().find(|fetch| fetch.0 == *cell)?;
    Some(fetch.1)
}

/// The cells for which readers wait where the run of this graph on its inputs is at rest, and the node of a fetch that waits for the first of them. There are
/// none where the meaning of the graph is not at rest soon.
pub fn reader_cells<A: Allocator + Clone>(
    alloc: A,
    input: &[u8],
) -> Result<ReaderCells, AllocError> {
    let fetches = waiting_cells(alloc.clone()?, input)?;
    let mut cells = Vec::new(alloc);
    for fetch in &fetches {
        cells.push(fetch.0)?;
    }
    cells.sort_unstable();
    Ok(first_of(&cells, fetch_of(&fetches, cells.first())))
}
