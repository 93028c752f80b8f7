//! How many invocations the meaning calls for.

ghost use Rattle.std.specs.Prelude.{◌≡◌, ◌≢◌, ◌↔◌, ◌≤◌, ◌-◌, [], length, None, IfOk, IfSome, IfNone};
ghost use Rattle.oracle.specs.Calling.{Rests, CallsFor, iterations_in};
ghost use Rattle.oracle.specs.Lines.{total_of, inputs_at};
ghost use Rattle.oracle.specs.Running.{Plain, main_place, run_result};

use crate::invocations::Invocations;
use crate::lines::{blocks_of, input_count};
use crate::report::{CallCounts, MeanEnd, MeanFault};
use crate::runs::{run, start};
use crate::tokens::Token;
use crate::uses::list_uses;
use graph_check::Checked;
use std::alloc::{AllocError, Allocator};

/// The counts of these invocations, if no fetch is deferred.
fn counts_of<A: Allocator + Clone>(
    invocations: &Invocations<A>,
    deferred: &[Token],
) -> Option<CallCounts>
    ensures some { IfSome result (λ n. (deferred.now ≡ []) × (n.invocations ≡ length invocations.now - 1) × (n.iterations ≡ iterations_in invocations.now)) }
    ensures none { IfNone result (deferred.now ≢ []) }
{
    if deferred.is_empty() {
        Some(invocations.counts())
    } else {
        None
    }
}

fn run_counted<'a, A: Allocator + Clone>(
    alloc: A,
    checked: &Checked<'a, A>,
    inputs: &[i64],
    steps: u64,
) -> Result<Option<CallCounts>, AllocError>
    requires few { total_of checked.now.arrays ≤ 65536 }
    requires has_end { run_result checked.now inputs.now steps ≢ None }
    ensures counts { IfOk result (λ r. IfSome r (λ n. (s : Plain) × Rests checked.now inputs.now steps s × (s.deferred ≡ [])
        × (n.invocations ≡ length s.invocations - 1) × (n.iterations ≡ iterations_in s.invocations))) }
    ensures none { IfOk result (λ r. IfNone r ((s : Plain) → Rests checked.now inputs.now steps s → s.deferred ≢ [])) }
{
    let mut state = start(alloc.clone()?, checked, inputs)?;
    let uses = list_uses(alloc, blocks_of(checked))?;
    match run(checked, &uses, &mut state, steps)? {
        MeanEnd::Rest => Ok(counts_of(&state.invocations, &state.deferred)),
        _ => Ok(None),
    }
}

/// How many invocations beside main the graph's meaning on these inputs calls for. `None` where it is not at rest after at most `steps`
/// activities, and where a fetch waits there.
///
/// They are the invocations beside main in which the first input passes, in a run of the meaning to its end: every other run to rest has the same
/// ones, and no run calls for others.
///
/// `WrongInputs` is checked first: the number of inputs is not that of main. `Memory` is returned if a growth was refused, and only then.
pub fn call_counts<'a, A: Allocator + Clone>(
    alloc: A,
    checked: &Checked<'a, A>,
    inputs: &[i64],
    steps: u64,
) -> Result<Option<CallCounts>, MeanFault>
    ensures wrong { result ≡ Err MeanFault.WrongInputs ↔ (length inputs.now ≢ inputs_at checked.now (main_place checked.now)) }
    ensures calls { IfOk result (λ r. IfSome r (λ n. CallsFor checked.now inputs.now steps n.invocations n.iterations)) }
    ensures none { IfOk result (λ r. IfNone r ((s : Plain) → Rests checked.now inputs.now steps s → s.deferred ≢ [])) }
{
    if inputs.len() != input_count(checked.graph(), checked.main_place()) {
        return Err(MeanFault::WrongInputs);
    }
    match run_counted(alloc, checked, inputs, steps) {
        Ok(counts) => Ok(counts),
        Err(_) => Err(MeanFault::Memory),
    }
}
