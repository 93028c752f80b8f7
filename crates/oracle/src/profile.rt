//! The waves of the greedy schedule: the meaning with unlimited processors.

ghost use Rattle.std.specs.Prelude.{◌≡◌, ◌≢◌, ◌↔◌, ◌≤◌, length, Some, None, IfOk};
ghost use Rattle.oracle.specs.Lines.{total_of, inputs_at};
ghost use Rattle.oracle.specs.Running.{main_place};
ghost use Rattle.oracle.specs.Gathering.{wave_counts};
ghost use Rattle.oracle.specs.Waves.{AreWavesOf};

use crate::lines::{blocks_of, input_count};
use crate::report::{MeanFault, WaveReport};
use crate::runs::start;
use crate::uses::list_uses;
use crate::wave::next_wave;
use graph_check::Checked;
use std::alloc::{AllocError, Allocator};

/// Does waves until there is no further one.
fn run_waves<'a, A: Allocator + Clone>(
    alloc: A,
    checked: &Checked<'a, A>,
    inputs: &[i64],
    steps: u64,
) -> Result<WaveReport<A>, AllocError>
    requires few { total_of checked.now.arrays ≤ 65536 }
    requires has_end { wave_counts checked.now inputs.now steps ≢ None }
    ensures { IfOk result (λ r. wave_counts checked.now inputs.now steps ≡ Some (r.end, r.counts.items)) }
{
    let mut state = start(alloc.clone()?, checked, inputs)?;
    let uses = list_uses(alloc.clone()?, blocks_of(checked))?;
    let mut counts = Vec::new(alloc);
    let mut left = steps;
    loop {
        match next_wave(checked, &uses, &mut state, left)? {
            Ok(count) => {
                counts.push(count)?;
                left -= count;
            }
            Err(end) => return Ok(WaveReport { end, counts }),
        }
    }
}

/// The waves of the greedy schedule of the graph on these inputs, of at most `steps` activities in all. It is the schedule of
/// unlimited processors: every activity that is enabled at the beginning of a wave happens in it, and no other, so that what
/// they make is used in later waves.
///
/// Each count is how many activities a wave of the meaning has, in order from the first. `Rest` is reported only if after the last
/// wave no activity is enabled and no store clashes. `Clash` is reported if the activities that are enabled after the last wave, done
/// one after the other, lead to a store at a full cell, which is that one: so no wave has two stores to one cell.
/// `Steps` is reported if the next wave would bring the activities above the number that is allowed: a wave is never cut.
///
/// `WrongInputs` is checked first: the number of inputs is not that of main. `Memory` is returned if a growth was refused, and
/// only then.
pub fn waves<'a, A: Allocator + Clone>(
    alloc: A,
    checked: &Checked<'a, A>,
    inputs: &[i64],
    steps: u64,
) -> Result<WaveReport<A>, MeanFault>
    ensures wrong { result ≡ Err MeanFault.WrongInputs ↔ (length inputs.now ≢ inputs_at checked.now (main_place checked.now)) }
    ensures run_result { IfOk result (λ r. wave_counts checked.now inputs.now steps ≡ Some (r.end, r.counts.items)) }
    ensures meant { IfOk result (λ r. AreWavesOf checked.now inputs.now steps r.end r.counts.items) }
{
    if inputs.len() != input_count(checked.graph(), checked.main_place()) {
        return Err(MeanFault::WrongInputs);
    }
    match run_waves(alloc, checked, inputs, steps) {
        Ok(report) => Ok(report),
        Err(_) => Err(MeanFault::Memory),
    }
}
