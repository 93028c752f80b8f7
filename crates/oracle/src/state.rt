//! A state of a run: the tokens, the cells, and the outputs.

ghost use Rattle.std.specs.Prelude.{◌≡◌, ◌≢◌, ◌≤◌, ◌∷◌, ◌++◌, [], map, None, Some, slice_get, IfOk, OnOk, MatchOption, MatchResult};
ghost use Rattle.oracle.specs.Lines.{total_of};
ghost use Rattle.oracle.specs.Acting as Acting;
ghost use Rattle.oracle.specs.Deeds as Deeds;
ghost use Rattle.oracle.specs.Pairing.{taken_in};
ghost use Rattle.oracle.specs.Sending.{entering_tokens};
ghost use Rattle.oracle.specs.Telling.{told};
ghost use Rattle.oracle.specs.Running.{plain, join_of, Alone, Joins, Fails, entered, performed};
ghost use Rattle.oracle.specs.Running as Running;
ghost use Rattle.oracle.specs.Uses.{listed_in};
ghost use Rattle.oracle.specs.Rows.{rows_of, with_row, next_among, Goes, Stays, Breaks};

use crate::deeds::{Act, Task, deed_of};
use crate::gather::{Row, Spare, Taken, keep_memory, leave, reach, take_partners};
use crate::invocations::{Invocation, Invocations, Made};
use crate::lines::{block_at, input_count};
use crate::report::MeanEnd;
use crate::sending::{Sent, enter, enter_all, send, send_to_uses, steer};
use crate::shapes::{Shape, shape_of};
use crate::tokens::Token;
use crate::uses::{BlockUses, uses_at};
use graph_check::Checked;
use std::alloc::{AllocError, Allocator};
use std::collections::VecDeque;
use tags::value::Value;

/// The list of tokens has three parts, in this order. A token that was looked at and could not act goes to a later part.
#[derive(Drop)]
pub struct State<A: Allocator> {
    pub invocations: Invocations<A>,
    /// Tokens that were not looked at since they arrived.
    pub fresh: VecDeque<Token, A>,
    /// Tokens with partners that are not among those that wait, in a row for each invocation.
    pub waiting: Vec<Row<A>, A>,
    /// Tokens of fetches whose cells are empty.
    pub deferred: Vec<Token, A>,
    pub cells: Vec<Option<Value>, A>,
    pub outputs: Vec<Option<Value>, A>,
}

/// Names the run of one activity at a time, which has a join of its own.
pub struct InRun;

/// Names the run of a wave at a time.
pub struct InWave;

/// What the memory says to a deed.
#[derive(Clone, Copy, Debug)]
pub enum Gate {
    Free,
    /// The cell of a fetch is empty.
    Defers,
    /// The cell of a store is full.
    Clashes { array: usize, index: u32 },
}

/// What the activity does that takes these values.
#[inline(always)]
fn act_on<'a, A: Allocator>(
    checked: &Checked<'a, A>,
    context: usize,
    invocation: &Invocation,
    shape: &Shape,
    taken: &Taken,
    listed: &[Value],
) -> Act
    requires few { total_of checked.now.arrays ≤ 65536 }
    requires known { Acting.deed_in checked.now context invocation.now shape.now (taken_in taken.now listed.now) ≢ None }
    ensures { Acting.deed_in checked.now context invocation.now shape.now (taken_in taken.now listed.now) ≡ Some (told result) }
{
    match deed_of(checked, context, invocation, *shape, taken, listed) {
        Some(act) => act,
        None => unreachable!(),
    }
}

/// Joins a token with its partners for an activity, and lists the values that it takes. Where one is missing the token is left to
/// wait.
#[inline(always)]
fn join_for<'a, A: Allocator + Clone>(
    checked: &Checked<'a, A>,
    waiting: &mut Vec<Token, A>,
    token: &Token,
    invocation: &Invocation,
    shape: &Shape,
    spare: &mut Spare<A>,
) -> Result<Option<Act>, AllocError>
    requires few { total_of checked.now.arrays ≤ 65536 }
    requires never_fails { Running.join_shape checked.now waiting.old.items token.now invocation.now (Some shape.now) ≢ Fails }
    ensures { IfOk result (λ r. MatchOption r
        ((Running.join_shape checked.now waiting.old.items token.now invocation.now (Some shape.now) ≡ Alone)
        × (waiting.new.items ≡ waiting.old.items ++ token.now ∷ []))
        (λ act. Running.join_shape checked.now waiting.old.items token.now invocation.now (Some shape.now)
        ≡ Joins waiting.new.items (taken_in spare.new.taken spare.new.values.items) (told act))) }
{
    if !take_partners(spare, waiting, token, *shape)? {
        leave(waiting, token, &mut spare.rows)?;
        return Ok(None);
    }
    keep_memory(waiting, &mut spare.rows)?;
    let act = act_on(
        checked,
        token.context,
        invocation,
        shape,
        &spare.taken,
        &spare.values,
    );
    Ok(Some(act))
}

/// Joins a token with its partners, which are taken out. Where one is missing, or where no activity takes the token, it is
/// left to wait. `By` names what joins them: each has its own copy of this, which is built into its loop.
fn join<'a, A: Allocator + Clone, By>(
    checked: &Checked<'a, A>,
    invocations: &Invocations<A>,
    waiting: &mut Vec<Token, A>,
    token: &Token,
    spare: &mut Spare<A>,
) -> Result<Option<Act>, AllocError>
    requires few { total_of checked.now.arrays ≤ 65536 }
    requires never_fails { join_of checked.now invocations.now waiting.old.items token.now ≢ Fails }
    ensures { IfOk result (λ r. MatchOption r
        ((join_of checked.now invocations.now waiting.old.items token.now ≡ Alone) × (waiting.new.items ≡ waiting.old.items ++ token.now ∷ []))
        (λ act. join_of checked.now invocations.now waiting.old.items token.now ≡ Joins waiting.new.items (taken_in spare.new.taken spare.new.values.items)
        (told act))) }
{
    if let Some(invocation) = invocations.get(token.context) {
        if let Some(shape) = shape_of(checked, invocation, token.spot) {
            return join_for(checked, waiting, token, invocation, &shape, spare);
        }
    }
    leave(waiting, token, &mut spare.rows)?;
    Ok(None)
}

/// What the cell holds.
#[inline(always)]
pub fn held(cells: &[Option<Value>], cell: usize) -> Option<Value>
    ensures { result ≡ Acting.held_in cells.now cell }
{
    match cells.get(cell) {
        Some(held) => *held,
        None => None,
    }
}

/// Asks the cell of a fetch or a store.
#[inline(always)]
pub fn ask(cells: &[Option<Value>], act: &Act) -> Gate
    ensures { result ≡ Acting.gate_of cells.now (told act.now) }
{
    match act.task {
        Task::Reads { cell, .. } => {
            if held(cells, cell).is_none() {
                Gate::Defers
            } else {
                Gate::Free
            }
        }
        Task::Fills {
            cell,
            array,
            index,
            ..
        } => {
            if held(cells, cell).is_some() {
                Gate::Clashes { array, index }
            } else {
                Gate::Free
            }
        }
        _ => Gate::Free,
    }
}

/// Joins a token with its partners, which wait in its invocation's row.
#[inline(always)]
pub fn join_among<'a, A: Allocator + Clone, By>(
    checked: &Checked<'a, A>,
    invocations: &Invocations<A>,
    rows: &mut Vec<Row<A>, A>,
    token: &Token,
    spare: &mut Spare<A>,
) -> Result<Option<Act>, AllocError>
    requires few { total_of checked.now.arrays ≤ 65536 }
    requires never_fails { join_of checked.now invocations.now (rows_of (map (λ v. v.items) rows.old.items) token.now.context) token.now ≢ Fails }
    ensures { let old = rows_of (map (λ v. v.items) rows.old.items) in
        let new = rows_of (map (λ v. v.items) rows.new.items) in
        let row = old token.now.context in
        IfOk result (λ r. MatchOption r
        ((join_of checked.now invocations.now row token.now ≡ Alone) × (with_row old token.now.context (row ++ token.now ∷ []) ≡ new))
        (λ act. (join_of checked.now invocations.now row token.now ≡ Joins (new token.now.context) (taken_in spare.new.taken spare.new.values.items) (told act))
        × (with_row old token.now.context (new token.now.context) ≡ new))) }
{
    reach(rows, token.context)?;
    join::<A, By>(checked, invocations, &mut rows[token.context], token, spare)
}

/// The first activity of the first token in the list that can act. Where it takes more than two values they are listed.
#[inline(always)]
pub fn next_act<'a, A: Allocator + Clone>(
    checked: &Checked<'a, A>,
    state: &mut State<A>,
    spare: &mut Spare<A>,
) -> Result<Result<Act, MeanEnd>, AllocError>
    requires few { total_of checked.now.arrays ≤ 65536 }
    requires never_broken { next_among checked.now (plain state.old.invocations state.old.fresh.items [] state.old.deferred.items
        state.old.cells.items state.old.outputs.items) (rows_of (map (λ v. v.items) state.old.waiting.items)) ≢ Breaks }
    ensures { let old = plain state.old.invocations state.old.fresh.items [] state.old.deferred.items state.old.cells.items state.old.outputs.items in
        let new = plain state.new.invocations state.new.fresh.items [] state.new.deferred.items state.new.cells.items state.new.outputs.items in
        let from = rows_of (map (λ v. v.items) state.old.waiting.items) in
        let to = rows_of (map (λ v. v.items) state.new.waiting.items) in
        IfOk result (λ r. MatchResult r (λ act. next_among checked.now old from ≡ Goes new to (taken_in spare.new.taken spare.new.values.items)
        (told act))
        (λ e. next_among checked.now old from ≡ Stays new e)) }
{
    while let Some(token) = state.fresh.pop_front() {
        let waiting = &mut state.waiting;
        if let Some(act) = join_among::<A, InRun>(
            checked,
            &state.invocations,
            waiting,
            &token,
            spare,
        )? {
            match ask(&state.cells, &act) {
                Gate::Free => return Ok(Ok(act)),
                Gate::Defers => state.deferred.push(token)?,
                Gate::Clashes { array, index } => return Ok(Err(MeanEnd::Clash { array, index })),
            }
        }
    }
    Ok(Err(MeanEnd::Rest))
}

/// Sends a value on a port of a node of an invocation, whose uses are looked for.
#[tactic(auto, using(crate::proofs::Earlier::ordered_in))]
fn send_unlisted<'a, A: Allocator>(
    checked: &Checked<'a, A>,
    fresh: &mut VecDeque<Token, A>,
    sent: &Sent,
    invocation: &Invocation,
    node: usize,
    port: usize,
) -> Result<(), AllocError>
    ensures { OnOk result (fresh.new.items ≡ fresh.old.items ++ Running.sent_if checked.now sent.now node port (Some invocation.now)) }
{
    match block_at(checked.graph(), invocation.block) {
        Some(block) => send(fresh, sent, invocation.made, node, port, block),
        None => Ok(()),
    }
}

/// Sends a value on a port of a node of an invocation. The uses of most nodes are listed.
#[inline(always)]
fn send_at<'a, A: Allocator>(
    checked: &Checked<'a, A>,
    uses: &[BlockUses<A>],
    fresh: &mut VecDeque<Token, A>,
    sent: &Sent,
    invocation: &Invocation,
    node: usize,
    port: usize,
) -> Result<(), AllocError>
    requires listed { uses.now ≡ listed_in checked.now.blocks }
    ensures { OnOk result (fresh.new.items ≡ fresh.old.items ++ Running.sent_if checked.now sent.now node port (Some invocation.now)) }
{
    match uses_at(uses, invocation.block, node) {
        Some(listed) => {
            let inputs = input_count(checked.graph(), invocation.block);
            send_to_uses(fresh, sent, invocation.made, inputs, port, listed)
        }
        None => send_unlisted(checked, fresh, sent, invocation, node, port),
    }
}

/// Sends a value on a port of a node.
#[inline(always)]
fn send_from<'a, A: Allocator + Clone>(
    checked: &Checked<'a, A>,
    uses: &[BlockUses<A>],
    invocations: &Invocations<A>,
    fresh: &mut VecDeque<Token, A>,
    sent: &Sent,
    node: usize,
    port: usize,
) -> Result<(), AllocError>
    requires listed { uses.now ≡ listed_in checked.now.blocks }
    ensures { OnOk result (fresh.new.items ≡ fresh.old.items ++ Running.sent_in checked.now invocations.now sent.now node port) }
{
    match invocations.get(sent.context) {
        Some(invocation) => send_at(checked, uses, fresh, sent, invocation, node, port),
        None => Ok(()),
    }
}

/// Sends a predicate to the arms of a conditional of an invocation.
fn steer_at<'a, A: Allocator>(
    checked: &Checked<'a, A>,
    fresh: &mut VecDeque<Token, A>,
    sent: &Sent,
    invocation: &Invocation,
    cond: usize,
) -> Result<(), AllocError>
    ensures { OnOk result (fresh.new.items ≡ fresh.old.items ++ Running.steered_if checked.now sent.now cond (Some invocation.now)) }
{
    match block_at(checked.graph(), invocation.block) {
        Some(block) => steer(fresh, sent, cond, block),
        None => Ok(()),
    }
}

/// Sends a predicate to the arms of a conditional.
fn steer_from<'a, A: Allocator + Clone>(
    checked: &Checked<'a, A>,
    invocations: &Invocations<A>,
    fresh: &mut VecDeque<Token, A>,
    sent: &Sent,
    cond: usize,
) -> Result<(), AllocError>
    ensures { OnOk result (fresh.new.items ≡ fresh.old.items ++ Running.steered_in checked.now invocations.now sent.now cond) }
{
    match invocations.get(sent.context) {
        Some(invocation) => steer_at(checked, fresh, sent, invocation, cond),
        None => Ok(()),
    }
}

/// All deferred fetches will be looked at again.
fn wake<A: Allocator>(
    fresh: &mut VecDeque<Token, A>,
    deferred: &mut Vec<Token, A>,
) -> Result<(), AllocError>
    ensures { OnOk result ((fresh.new.items ≡ fresh.old.items ++ deferred.old.items) × (deferred.new.items ≡ [])) }
{
    append(fresh, deferred)?;
    deferred.clear();
    Ok(())
}

fn append<A: Allocator>(fresh: &mut VecDeque<Token, A>, tokens: &[Token]) -> Result<(), AllocError>
    ensures { OnOk result (fresh.new.items ≡ fresh.old.items ++ tokens.now) }
{
    for token in tokens {
        fresh.push_back(*token)?;
    }
    Ok(())
}

/// Fills a place, if it exists.
fn fill(places: &mut [Option<Value>], place: usize, value: Value)
    ensures { places.new ≡ Acting.filled_in places.old place value }
{
    if place < places.len() {
        places[place] = Some(value);
    }
}

/// Sends a value on a port of a node.
#[inline(always)]
fn send_value<'a, A: Allocator + Clone>(
    checked: &Checked<'a, A>,
    uses: &[BlockUses<A>],
    state: &mut State<A>,
    context: usize,
    node: usize,
    port: usize,
    value: Value,
) -> Result<(), AllocError>
    requires listed { uses.now ≡ listed_in checked.now.blocks }
    ensures { let old = plain state.old.invocations state.old.fresh.items [] state.old.deferred.items state.old.cells.items state.old.outputs.items in
        let new = plain state.new.invocations state.new.fresh.items [] state.new.deferred.items state.new.cells.items state.new.outputs.items in
        OnOk result ((new ≡ performed checked.now old [] (Deeds.Sends context node port value)) × (state.new.waiting.items ≡ state.old.waiting.items)) }
{
    let sent = Sent { context, value };
    let invocations = &state.invocations;
    send_from(
        checked,
        uses,
        invocations,
        &mut state.fresh,
        &sent,
        node,
        port,
    )
}

/// Sends a predicate to the arms of a conditional.
fn steer_value<'a, A: Allocator + Clone>(
    checked: &Checked<'a, A>,
    state: &mut State<A>,
    context: usize,
    cond: usize,
    value: Value,
) -> Result<(), AllocError>
    ensures { let old = plain state.old.invocations state.old.fresh.items [] state.old.deferred.items state.old.cells.items state.old.outputs.items in
        let new = plain state.new.invocations state.new.fresh.items [] state.new.deferred.items state.new.cells.items state.new.outputs.items in
        OnOk result ((new ≡ performed checked.now old [] (Deeds.Steers context cond value)) × (state.new.waiting.items ≡ state.old.waiting.items)) }
{
    let sent = Sent { context, value };
    steer_from(checked, &state.invocations, &mut state.fresh, &sent, cond)
}

/// Sends a value to an input of the invocation of that name, which is made if it does not exist.
#[inline(always)]
fn enter_value<A: Allocator + Clone>(
    state: &mut State<A>,
    made: &Made,
    block: usize,
    input: usize,
    value: Value,
) -> Result<(), AllocError>
    ensures { let old = plain state.old.invocations state.old.fresh.items [] state.old.deferred.items state.old.cells.items state.old.outputs.items in
        let new = plain state.new.invocations state.new.fresh.items [] state.new.deferred.items state.new.cells.items state.new.outputs.items in
        OnOk result ((new ≡ entered old made.now block input value) × (state.new.waiting.items ≡ state.old.waiting.items)) }
{
    let context = state.invocations.number_of(made, block)?;
    let sent = Sent { context, value };
    enter(&mut state.fresh, &sent, input)
}

/// The values that were taken enter an invocation.
fn enter_taken<A: Allocator>(
    fresh: &mut VecDeque<Token, A>,
    context: usize,
    taken: &Taken,
    listed: &[Value],
) -> Result<(), AllocError>
    ensures { OnOk result (fresh.new.items ≡ fresh.old.items ++ entering_tokens context 0 (taken_in taken.now listed.now)) }
{
    match taken {
        Taken::One(value) => enter_all(fresh, context, &[*value]),
        Taken::Two(first, second) => enter_all(fresh, context, &[*first, *second]),
        Taken::Listed => enter_all(fresh, context, listed),
    }
}

/// Does what the activity does with the values that it took.
#[inline(always)]
pub fn perform<'a, A: Allocator + Clone>(
    checked: &Checked<'a, A>,
    uses: &[BlockUses<A>],
    state: &mut State<A>,
    act: &Act,
    taken: &Taken,
    listed: &[Value],
) -> Result<(), AllocError>
    requires listed { uses.now ≡ listed_in checked.now.blocks }
    ensures { let old = plain state.old.invocations state.old.fresh.items [] state.old.deferred.items state.old.cells.items state.old.outputs.items in
        let new = plain state.new.invocations state.new.fresh.items [] state.new.deferred.items state.new.cells.items state.new.outputs.items in
        OnOk result ((new ≡ performed checked.now old (taken_in taken.now listed.now) (told act.now)) × (state.new.waiting.items ≡ state.old.waiting.items)) }
{
    let value = act.value;
    match act.task {
        Task::Sends {
            context,
            node,
            port,
        } => send_value(checked, uses, state, context, node, port, value),
        Task::Steers { context, cond } => steer_value(checked, state, context, cond, value),
        Task::Enters { made, block, input } => enter_value(state, &made, block, input, value),
        Task::EntersAll { made, block } => {
            let context = state.invocations.number_of(&made, block)?;
            enter_taken(&mut state.fresh, context, taken, listed)
        }
        Task::Stops => Ok(()),
        Task::Reads {
            context,
            node,
            cell,
        } => answer(checked, uses, state, context, node, cell),
        Task::Fills {
            context,
            node,
            cell,
            ..
        } => fill_cell(checked, uses, state, context, node, cell, value),
        Task::Puts { number } => {
            fill(&mut state.outputs, number, value);
            Ok(())
        }
    }
}

/// Sends what a cell holds.
fn answer<'a, A: Allocator + Clone>(
    checked: &Checked<'a, A>,
    uses: &[BlockUses<A>],
    state: &mut State<A>,
    context: usize,
    node: usize,
    cell: usize,
) -> Result<(), AllocError>
    requires listed { uses.now ≡ listed_in checked.now.blocks }
    ensures { let old = plain state.old.invocations state.old.fresh.items [] state.old.deferred.items state.old.cells.items state.old.outputs.items in
        let new = plain state.new.invocations state.new.fresh.items [] state.new.deferred.items state.new.cells.items state.new.outputs.items in
        OnOk result ((new ≡ performed checked.now old [] (Deeds.Reads context node cell)) × (state.new.waiting.items ≡ state.old.waiting.items)) }
{
    match held(&state.cells, cell) {
        Some(value) => send_value(checked, uses, state, context, node, 0, value),
        None => Ok(()),
    }
}

/// Fills a cell, sends the value, and has the deferred fetches looked at again.
fn fill_cell<'a, A: Allocator + Clone>(
    checked: &Checked<'a, A>,
    uses: &[BlockUses<A>],
    state: &mut State<A>,
    context: usize,
    node: usize,
    cell: usize,
    value: Value,
) -> Result<(), AllocError>
    requires listed { uses.now ≡ listed_in checked.now.blocks }
    ensures { let old = plain state.old.invocations state.old.fresh.items [] state.old.deferred.items state.old.cells.items state.old.outputs.items in
        let new = plain state.new.invocations state.new.fresh.items [] state.new.deferred.items state.new.cells.items state.new.outputs.items in
        OnOk result ((new ≡ performed checked.now old [] (Deeds.Fills context node cell 0 0 value)) × (state.new.waiting.items ≡ state.old.waiting.items)) }
{
    let sent = Sent { context, value };
    fill(&mut state.cells, cell, sent.value);
    wake(&mut state.fresh, &mut state.deferred)?;
    let invocations = &state.invocations;
    send_from(checked, uses, invocations, &mut state.fresh, &sent, node, 0)
}
