//! The fetches that wait where the meaning is at rest.

ghost use Rattle.std.specs.Prelude.{◌≡◌, ◌≢◌, ◌↔◌, ◌≤◌, ◌++◌, ◌∷◌, [], length, None, IfOk, OnOk, IfSome, IfNone};
ghost use Rattle.oracle.specs.Calling.{Rests};
ghost use Rattle.oracle.specs.Fetches.{fetch_at, fetch_under, fetches_of};
ghost use Rattle.oracle.specs.Lines.{total_of, inputs_at};
ghost use Rattle.oracle.specs.Running.{Plain, main_place, run_result};

use crate::invocations::Invocations;
use crate::lines::{Line, blocks_of, input_count, line_at};
use crate::report::{MeanEnd, MeanFault, WaitingFetch};
use crate::runs::{run, start};
use crate::tokens::{Spot, Token};
use crate::uses::list_uses;
use graph_check::Checked;
use semantics::graph::Kind;
use std::alloc::{AllocError, Allocator};
use tags::value::Value;

/// Adds the fetch that a token at this spot of the block is for.
fn push_at<'a, A: Allocator>(
    fetches: &mut Vec<WaitingFetch, A>,
    checked: &Checked<'a, A>,
    block: usize,
    spot: Spot,
    value: Value,
) -> Result<(), AllocError>
    ensures { OnOk result (fetches.new.items ≡ fetches.old.items ++ fetch_at checked.now block spot value) }
{
    if let (Spot::Operand { node, .. }, Value::Int(index)) = (spot, value) {
        if let Line::Node {
            kind: Kind::Fetch { array },
            ..
        } = line_at(checked, block, node)
        {
            fetches.push(WaitingFetch {
                block,
                node,
                array,
                index,
            })?;
        }
    }
    Ok(())
}

/// Adds the fetch that a token is for.
fn push_of<'a, A: Allocator + Clone>(
    fetches: &mut Vec<WaitingFetch, A>,
    checked: &Checked<'a, A>,
    invocations: &Invocations<A>,
    token: &Token,
) -> Result<(), AllocError>
    ensures { OnOk result (fetches.new.items ≡ fetches.old.items ++ fetches_of checked.now invocations.now (token.now ∷ [])) }
{
    match invocations.get(token.context) {
        Some(invocation) => push_at(fetches, checked, invocation.block, token.spot, token.value),
        None => Ok(()),
    }
}

/// The fetches that these tokens are for, in order.
fn list_fetches<'a, A: Allocator + Clone>(
    alloc: A,
    checked: &Checked<'a, A>,
    invocations: &Invocations<A>,
    tokens: &[Token],
) -> Result<Vec<WaitingFetch, A>, AllocError>
    ensures { IfOk result (λ v. v.items ≡ fetches_of checked.now invocations.now tokens.now) }
{
    let mut fetches = Vec::new(alloc);
    for token in tokens {
        push_of(&mut fetches, checked, invocations, token)?;
    }
    Ok(fetches)
}

fn run_to_rest<'a, A: Allocator + Clone>(
    alloc: A,
    checked: &Checked<'a, A>,
    inputs: &[i64],
    steps: u64,
) -> Result<Option<Vec<WaitingFetch, A>>, AllocError>
    requires few { total_of checked.now.arrays ≤ 65536 }
    requires has_end { run_result checked.now inputs.now steps ≢ None }
    ensures fetches { IfOk result (λ r. IfSome r (λ v. (s : Plain) × Rests checked.now inputs.now steps s
        × (v.items ≡ fetches_of checked.now s.invocations s.deferred))) }
    ensures none { IfOk result (λ r. IfNone r ((s : Plain) → Rests checked.now inputs.now steps s → ⊥)) }
{
    let mut state = start(alloc.clone()?, checked, inputs)?;
    let uses = list_uses(alloc.clone()?, blocks_of(checked))?;
    match run(checked, &uses, &mut state, steps)? {
        MeanEnd::Rest => {
            let fetches = list_fetches(alloc, checked, &state.invocations, &state.deferred)?;
            Ok(Some(fetches))
        }
        _ => Ok(None),
    }
}

/// The fetches that wait where the graph's meaning on these inputs is at rest, after at most `steps` activities; `None` where it
/// is not at rest by then. They are those of the run that `mean` makes: every other order of activities leaves as many for each cell.
///
/// `WrongInputs` is checked first: the number of inputs is not that of main. `Memory` is returned if a growth was refused, and only then.
pub fn waiting_fetches<'a, A: Allocator + Clone>(
    alloc: A,
    checked: &Checked<'a, A>,
    inputs: &[i64],
    steps: u64,
) -> Result<Option<Vec<WaitingFetch, A>>, MeanFault>
    ensures wrong { result ≡ Err MeanFault.WrongInputs ↔ (length inputs.now ≢ inputs_at checked.now (main_place checked.now)) }
    ensures fetches { IfOk result (λ r. IfSome r (λ v. (s : Plain) × Rests checked.now inputs.now steps s
        × (v.items ≡ fetches_of checked.now s.invocations s.deferred))) }
    ensures none { IfOk result (λ r. IfNone r ((s : Plain) → Rests checked.now inputs.now steps s → ⊥)) }
{
    if inputs.len() != input_count(checked.graph(), checked.main_place()) {
        return Err(MeanFault::WrongInputs);
    }
    match run_to_rest(alloc, checked, inputs, steps) {
        Ok(fetches) => Ok(fetches),
        Err(_) => Err(MeanFault::Memory),
    }
}
