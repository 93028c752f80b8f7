//! Runs of the meaning.

ghost use Rattle.std.specs.Prelude.{◌≡◌, ◌≢◌, ◌↔◌, ◌≤◌, ◌++◌, [], map, length, None, IfOk, OnOk};
ghost use Rattle.oracle.specs.Lines.{total_of, inputs_at};
ghost use Rattle.oracle.specs.Sending.{entering_tokens};
ghost use Rattle.oracle.specs.Reporting.{IsMeant};
ghost use Rattle.oracle.specs.Rows.{rows_of, run_among};
ghost use Rattle.oracle.specs.Uses.{listed_in};
ghost use Rattle.oracle.specs.Running.{plain, nones, no_cells, start_of, main_place, full_if, full_from, full_in, run_result};

use crate::gather::Spare;
use crate::invocations::Invocations;
use crate::lines::{arrays_of, blocks_of, input_count, output_count};
use crate::report::{Full, MeanEnd, MeanFault, MeanReport};
use crate::state::{State, held, next_act, perform};
use crate::tokens::{Spot, Token};
use crate::uses::{BlockUses, list_uses};
use graph::Array;
use graph_check::Checked;
use std::alloc::{AllocError, Allocator};
use std::collections::VecDeque;
use tags::value::Value;

/// `count` empty places.
fn empty<A: Allocator>(alloc: A, count: usize) -> Result<Vec<Option<Value>, A>, AllocError>
    ensures { IfOk result (λ v. v.items ≡ nones count) }
{
    let mut places = Vec::new(alloc);
    push_empty(&mut places, count)?;
    Ok(places)
}

/// Adds `count` empty places.
fn push_empty<A: Allocator>(
    places: &mut Vec<Option<Value>, A>,
    count: usize,
) -> Result<(), AllocError>
    ensures { OnOk result (places.new.items ≡ places.old.items ++ nones count) }
{
    for _made in 0..count {
        places.push(None)?;
    }
    Ok(())
}

/// The cells of all arrays, empty.
fn empty_cells<'a, A: Allocator>(
    alloc: A,
    arrays: &[Array<'a>],
) -> Result<Vec<Option<Value>, A>, AllocError>
    ensures { IfOk result (λ v. v.items ≡ no_cells arrays.now) }
{
    let mut cells = Vec::new(alloc);
    for array in arrays {
        push_empty(&mut cells, array.len as usize)?;
    }
    Ok(cells)
}

/// The tokens for the inputs of main.
fn entering<A: Allocator>(alloc: A, inputs: &[i64]) -> Result<VecDeque<Token, A>, AllocError>
    ensures { IfOk result (λ q. q.items ≡ entering_tokens 0 0 (map (λ z. Value.Int z) inputs.now)) }
{
    let mut fresh = VecDeque::new(alloc);
    for (node, input) in inputs.iter().enumerate() {
        fresh.push_back(Token {
            context: 0,
            spot: Spot::Operand { node, position: 0 },
            value: Value::Int(*input),
        })?;
    }
    Ok(fresh)
}

/// The start of a run.
pub fn start<'a, A: Allocator + Clone>(
    alloc: A,
    checked: &Checked<'a, A>,
    inputs: &[i64],
) -> Result<State<A>, AllocError>
    ensures { IfOk result (λ s. (plain s.invocations s.fresh.items [] s.deferred.items s.cells.items s.outputs.items
        ≡ start_of checked.now inputs.now) × (s.waiting.items ≡ [])) }
{
    let main = checked.main_place();
    Ok(State {
        invocations: Invocations::of_main(alloc.clone()?, main)?,
        fresh: entering(alloc.clone()?, inputs)?,
        waiting: Vec::new(alloc.clone()?),
        deferred: Vec::new(alloc.clone()?),
        cells: empty_cells(alloc.clone()?, arrays_of(checked))?,
        outputs: empty(alloc, output_count(checked.graph(), main))?,
    })
}

/// Does at most `steps` activities.
#[tactic(auto, using(crate::proofs::RowRuns::run_stops, crate::proofs::RowRuns::run_stays, crate::proofs::RowRuns::run_breaks))]
pub fn run<'a, A: Allocator + Clone>(
    checked: &Checked<'a, A>,
    uses: &[BlockUses<A>],
    state: &mut State<A>,
    steps: u64,
) -> Result<MeanEnd, AllocError>
    requires listed { uses.now ≡ listed_in checked.now.blocks }
    requires few { total_of checked.now.arrays ≤ 65536 }
    requires has_end { run_among checked.now steps (plain state.old.invocations state.old.fresh.items [] state.old.deferred.items
        state.old.cells.items state.old.outputs.items) (rows_of (map (λ v. v.items) state.old.waiting.items)) ≢ None }
    ensures { let old = plain state.old.invocations state.old.fresh.items [] state.old.deferred.items state.old.cells.items state.old.outputs.items in
        let new = plain state.new.invocations state.new.fresh.items [] state.new.deferred.items state.new.cells.items state.new.outputs.items in
        IfOk result (λ e. run_among checked.now steps old (rows_of (map (λ v. v.items) state.old.waiting.items)) ≡ Some (e, new)) }
{
    let mut spare = Spare::new(state.waiting.allocator().clone()?)?;
    let mut left = steps;
    loop {
        match next_act(checked, state, &mut spare)? {
            Ok(act) => {
                if left == 0 {
                    return Ok(MeanEnd::Steps);
                }
                left -= 1;
                perform(checked, uses, state, &act, &spare.taken, &spare.values)?;
            }
            Err(end) => return Ok(end),
        }
    }
}

/// Adds a cell, if it is full.
fn push_if<A: Allocator>(
    full: &mut Vec<Full, A>,
    array: usize,
    index: u32,
    held: Option<Value>,
) -> Result<(), AllocError>
    ensures { OnOk result (full.new.items ≡ full.old.items ++ full_if array index held) }
{
    if let Some(value) = held {
        full.push(Full {
            array,
            index,
            value,
        })?;
    }
    Ok(())
}

/// Adds the full ones of an array's cells, from a first cell on.
fn push_full<A: Allocator>(
    full: &mut Vec<Full, A>,
    cells: &[Option<Value>],
    array: usize,
    first: usize,
    len: u32,
) -> Result<(), AllocError>
    requires { first ≤ 65536 }
    ensures { OnOk result (full.new.items ≡ full.old.items ++ full_from cells.now array first 0 len) }
{
    for index in 0..len {
        push_if(full, array, index, held(cells, first + index as usize))?;
    }
    Ok(())
}

/// The full cells, in order.
fn full_cells<'a, A: Allocator>(
    alloc: A,
    arrays: &[Array<'a>],
    cells: &[Option<Value>],
) -> Result<Vec<Full, A>, AllocError>
    requires { total_of arrays.now ≤ 65536 }
    ensures { IfOk result (λ v. v.items ≡ full_in cells.now 0 0 arrays.now) }
{
    let mut full = Vec::new(alloc);
    let mut first: usize = 0;
    for (i, array) in arrays.iter().enumerate() {
        push_full(&mut full, cells, i, first, array.len)?;
        first += array.len as usize;
    }
    Ok(full)
}

fn run_to_end<'a, A: Allocator + Clone>(
    alloc: A,
    checked: &Checked<'a, A>,
    inputs: &[i64],
    steps: u64,
) -> Result<MeanReport<A>, AllocError>
    requires few { total_of checked.now.arrays ≤ 65536 }
    requires has_end { run_result checked.now inputs.now steps ≢ None }
    ensures { IfOk result (λ r. run_result checked.now inputs.now steps ≡ Some (r.end, r.outputs.items, r.cells.items)) }
{
    let mut state = start(alloc.clone()?, checked, inputs)?;
    let uses = list_uses(alloc.clone()?, blocks_of(checked))?;
    let end = run(checked, &uses, &mut state, steps)?;
    let cells = full_cells(alloc, arrays_of(checked), &state.cells)?;
    let State {
        invocations: _,
        fresh: _,
        waiting: _,
        deferred: _,
        cells: _,
        outputs,
    } = state;
    Ok(MeanReport {
        end,
        outputs,
        cells,
    })
}

/// What the graph means on these inputs: a list of tagged tokens, one for each input at first, is rewritten one activity
/// at a time, up to `steps` activities.
///
/// The first token in the list's order that can act acts first. New tokens go after those that were not looked at yet,
/// and tokens that were looked at and can't act after all others. A run ends at rest, at the first store that has both
/// operands and a full cell, or where one more activity than allowed is enabled.
///
/// The report is true of the meaning: a run of at most `steps` of its activities, in some order, reaches a state that has
/// exactly the outputs and the full cells that are reported. `Rest` is reported only if no activity is enabled in that state and no
/// store clashes, `Clash` only if a store clashes at that cell, and `Steps` only after exactly `steps` activities with one
/// more enabled. A rest is the only outcome: every other order of activities leads to the same one. After a clash none reaches
/// rest without one.
///
/// `WrongInputs` is checked first: the number of inputs is not that of main. `Memory` is returned if a growth was refused, and
/// only then: no run meets joined tokens without a deed, or a turn whose number is above the greatest u64.
pub fn mean<'a, A: Allocator + Clone>(
    alloc: A,
    checked: &Checked<'a, A>,
    inputs: &[i64],
    steps: u64,
) -> Result<MeanReport<A>, MeanFault>
    ensures wrong { result ≡ Err MeanFault.WrongInputs ↔ (length inputs.now ≢ inputs_at checked.now (main_place checked.now)) }
    ensures run_result { IfOk result (λ r. run_result checked.now inputs.now steps ≡ Some (r.end, r.outputs.items, r.cells.items)) }
    ensures meant { IfOk result (λ r. IsMeant checked.now inputs.now steps r.end r.outputs.items r.cells.items) }
{
    if inputs.len() != input_count(checked.graph(), checked.main_place()) {
        return Err(MeanFault::WrongInputs);
    }
    match run_to_end(alloc, checked, inputs, steps) {
        Ok(report) => Ok(report),
        Err(_) => Err(MeanFault::Memory),
    }
}
