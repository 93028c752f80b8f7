//! A wave: all tokens that were there before it are looked at, and then all that act do so.

ghost use Rattle.std.specs.Prelude.{◌≡◌, ◌≢◌, ◌≤◌, ◌<◌, [], map, IfOk, OnOk, MatchResult};
ghost use Rattle.oracle.specs.Lines.{total_of};
ghost use Rattle.oracle.specs.Running.{plain};
ghost use Rattle.oracle.specs.Rows.{rows_of};
ghost use Rattle.oracle.specs.Pairing.{taken_in};
ghost use Rattle.oracle.specs.Telling.{told};
ghost use Rattle.oracle.specs.Uses.{listed_in};
ghost use Rattle.oracle.specs.Gathering.{gathered, Found, Clashed, Failed, performed_all, Does, Hits, wave_among, Passes, Halts, Breaks};

use crate::deeds::Act;
use crate::gather::{Spare, Taken};
use crate::report::MeanEnd;
use crate::state::{Gate, InWave, State, ask, join_among, perform};
use crate::uses::BlockUses;
use graph_check::Checked;
use std::alloc::{AllocError, Allocator};
use std::mem;
use tags::value::Value;

/// An activity with the values that it took.
#[derive(Drop)]
struct Activity<A: Allocator> {
    values: Vec<Value, A>,
    act: Act,
}

/// Lists the values that were taken, where they are not listed.
fn list_taken<A: Allocator>(values: &mut Vec<Value, A>, taken: &Taken) -> Result<(), AllocError>
    ensures { OnOk result (values.new.items ≡ taken_in taken.now values.old.items) }
{
    match taken {
        Taken::One(value) => {
            values.clear();
            values.push(*value)?;
        }
        Taken::Two(first, second) => {
            values.clear();
            values.push(*first)?;
            values.push(*second)?;
        }
        Taken::Listed => {}
    }
    Ok(())
}

/// An activity with the values that it took. The list is empty then.
fn with_values<A: Allocator + Clone>(
    act: Act,
    spare: &mut Spare<A>,
) -> Result<Activity<A>, AllocError>
    ensures { IfOk result (λ a. (a.values.items ≡ taken_in spare.old.taken spare.old.values.items) × (a.act ≡ act)) }
{
    list_taken(&mut spare.values, &spare.taken)?;
    let none = Vec::new(spare.values.allocator().clone()?);
    let values = mem::replace(&mut spare.values, none);
    Ok(Activity { values, act })
}

/// Looks at all fresh tokens, and returns the activities that act. None is done yet. A store to a full cell is the end.
fn gather<'a, A: Allocator + Clone>(
    checked: &Checked<'a, A>,
    state: &mut State<A>,
) -> Result<Result<Vec<Activity<A>, A>, MeanEnd>, AllocError>
    requires few { total_of checked.now.arrays ≤ 65536 }
    requires never_failed { gathered checked.now state.old.invocations state.old.cells.items state.old.fresh.items
        (rows_of (map (λ v. v.items) state.old.waiting.items)) state.old.deferred.items [] ≢ Failed }
    ensures found { let all = gathered checked.now state.old.invocations state.old.cells.items state.old.fresh.items
        (rows_of (map (λ v. v.items) state.old.waiting.items)) state.old.deferred.items [] in
        IfOk result (λ r. MatchResult r
        (λ acts. all ≡ Found (rows_of (map (λ v. v.items) state.new.waiting.items)) state.new.deferred.items
        (map (λ a. (a.values.items, told a.act)) acts.items))
        (λ e. all ≡ Clashed e)) }
    ensures kept { IfOk result (λ r. IfOk r (λ acts. plain state.new.invocations state.new.fresh.items [] [] state.new.cells.items
        state.new.outputs.items ≡ plain state.old.invocations [] [] [] state.old.cells.items state.old.outputs.items)) }
{
    let mut acts = Vec::new(state.waiting.allocator().clone()?);
    let mut spare = Spare::new(state.waiting.allocator().clone()?)?;
    while let Some(token) = state.fresh.pop_front() {
        let waiting = &mut state.waiting;
        if let Some(act) = join_among::<A, InWave>(
            checked,
            &state.invocations,
            waiting,
            &token,
            &mut spare,
        )? {
            match ask(&state.cells, &act) {
                Gate::Free => {
                    let activity = with_values(act, &mut spare)?;
                    acts.push(activity)?;
                }
                Gate::Defers => state.deferred.push(token)?,
                Gate::Clashes { array, index } => return Ok(Err(MeanEnd::Clash { array, index })),
            }
        }
    }
    Ok(Ok(acts))
}

/// Does the activities one after the other. A store to a cell that one of them filled is the end.
fn perform_all<'a, A: Allocator + Clone>(
    checked: &Checked<'a, A>,
    uses: &[BlockUses<A>],
    state: &mut State<A>,
    acts: &[Activity<A>],
) -> Result<Result<(), MeanEnd>, AllocError>
    requires listed { uses.now ≡ listed_in checked.now.blocks }
    ensures done { let old = plain state.old.invocations state.old.fresh.items [] state.old.deferred.items state.old.cells.items state.old.outputs.items in
        let new = plain state.new.invocations state.new.fresh.items [] state.new.deferred.items state.new.cells.items state.new.outputs.items in
        let all = performed_all checked.now old (map (λ a. (a.values.items, told a.act)) acts.now) in
        IfOk result (λ r. MatchResult r (λ u. all ≡ Does new) (λ e. all ≡ Hits e)) }
    ensures waiting { IfOk result (λ r. state.new.waiting.items ≡ state.old.waiting.items) }
{
    for activity in acts {
        if let Gate::Clashes { array, index } = ask(&state.cells, &activity.act) {
            return Ok(Err(MeanEnd::Clash { array, index }));
        }
        perform(
            checked,
            uses,
            state,
            &activity.act,
            &Taken::Listed,
            &activity.values,
        )?;
    }
    Ok(Ok(()))
}

/// Does a wave of at most `left` activities, and returns how many there were. If no activity is enabled, a store clashes, or
/// the wave has more, there is no wave, and the end is returned.
pub fn next_wave<'a, A: Allocator + Clone>(
    checked: &Checked<'a, A>,
    uses: &[BlockUses<A>],
    state: &mut State<A>,
    left: u64,
) -> Result<Result<u64, MeanEnd>, AllocError>
    requires listed { uses.now ≡ listed_in checked.now.blocks }
    requires few { total_of checked.now.arrays ≤ 65536 }
    requires never_broken { wave_among checked.now left (plain state.old.invocations state.old.fresh.items [] state.old.deferred.items
        state.old.cells.items state.old.outputs.items) (rows_of (map (λ v. v.items) state.old.waiting.items)) ≢ Breaks }
    ensures wave { let old = plain state.old.invocations state.old.fresh.items [] state.old.deferred.items state.old.cells.items state.old.outputs.items in
        let new = plain state.new.invocations state.new.fresh.items [] state.new.deferred.items state.new.cells.items state.new.outputs.items in
        let all = wave_among checked.now left old (rows_of (map (λ v. v.items) state.old.waiting.items)) in
        IfOk result (λ r. MatchResult r (λ n. all ≡ Passes new (rows_of (map (λ v. v.items) state.new.waiting.items)) n) (λ e. all ≡ Halts e)) }
    ensures some { IfOk result (λ r. IfOk r (λ n. 0 < n)) }
    ensures few { IfOk result (λ r. IfOk r (λ n. n ≤ left)) }
{
    let acts = match gather(checked, state)? {
        Ok(acts) => acts,
        Err(end) => return Ok(Err(end)),
    };
    let count = acts.len() as u64;
    if count == 0 {
        return Ok(Err(MeanEnd::Rest));
    }
    if count > left {
        return Ok(Err(MeanEnd::Steps));
    }
    match perform_all(checked, uses, state, &acts)? {
        Ok(()) => Ok(Ok(count)),
        Err(end) => Ok(Err(end)),
    }
}
