//! What a machine needs so that each run of a graph completes, whatever the order of its events.

ghost use Rattle.std.specs.Prelude.{◌≡◌, ◌≢◌, ◌+◌, ◌^◌, ◌≤◌, ◌⊎◌, IfOk, IfSome, IfNone, length};
ghost use Rattle.semantics.specs.Faithful.{largest};
ghost use Rattle.oracle.specs.Lines.{inputs_at};
ghost use Rattle.oracle.specs.Running.{main_place};
ghost use Rattle.driver.specs.Needs.{least_steps, AreEnough, AreFramesFor, AreNeedsOf, AreUntold};

use crate::compiling::plan;
use code::{CodeBlock, Plan};
use graph_check::Checked;
use oracle::{CallCounts, MeanFault, call_counts};
use std::alloc::{AllocError, Allocator};

/// What suffices in every order, where each loop's bound is at least the number of iterations.
#[derive(Clone, Copy, Debug, PartialEq, Eq)]
pub struct MachineNeeds {
    /// Frames of all elements together: one for main, and one for each invocation that the meaning calls for.
    pub frames: u128,
    /// The least limit of steps for each element that is above the most events that these invocations can make.
    pub steps: u128,
    /// The iterations of all loops together.
    pub iterations: u64,
}

/// How many instructions the largest of these blocks has.
fn largest_of<A: Allocator>(blocks: &[CodeBlock<A>]) -> usize
    ensures { result ≡ largest blocks.now }
{
    let mut most = 0;
    for block in blocks {
        let count = block.instrs.len();
        if most < count {
            most = count;
        }
    }
    most
}

/// The least limit of steps that suffices. `None` where it has more than 128 bits.
fn steps_of(instructions: usize, called: usize) -> Option<u128>
    ensures some { IfSome result (λ n. n ≡ least_steps instructions called) }
    ensures none { IfNone result (2 ^ 128 ≤ least_steps instructions called) }
{
    let each = 6 * (instructions as u128 + 1);
    let all = each.checked_mul(1 + called as u128)?;
    all.checked_add(1)
}

/// What these numbers of invocations need in code whose largest block has so many instructions.
fn needs_of(counts: CallCounts, instructions: usize) -> Option<MachineNeeds>
    ensures frames { IfSome result (λ n. n.frames ≡ 1 + counts.invocations) }
    ensures steps { IfSome result (λ n. n.steps ≡ least_steps instructions counts.invocations) }
    ensures iterations { IfSome result (λ n. n.iterations ≡ counts.iterations) }
    ensures none { IfNone result (2 ^ 128 ≤ least_steps instructions counts.invocations) }
{
    match steps_of(instructions, counts.invocations) {
        Some(steps) => Some(MachineNeeds {
            frames: 1 + counts.invocations as u128,
            steps,
            iterations: counts.iterations as u64,
        }),
        None => None,
    }
}

/// What these numbers of invocations need in the code of this plan.
fn needs_in<A: Allocator>(plan: &Plan<A>, counts: CallCounts) -> Option<MachineNeeds>
    ensures frames { IfSome result (λ n. n.frames ≡ 1 + counts.invocations) }
    ensures steps { IfSome result (λ n. n.steps ≡ least_steps (largest plan.now.program.blocks) counts.invocations) }
    ensures iterations { IfSome result (λ n. n.iterations ≡ counts.iterations) }
    ensures none { IfNone result (2 ^ 128 ≤ least_steps (largest plan.now.program.blocks) counts.invocations) }
{
    needs_of(counts, largest_of(&plan.program.blocks))
}

/// What a machine needs for the graph on these inputs, by a run of its meaning of at most `activities` activities. `None` where that does not come
/// to rest, where a fetch waits there, where the number of inputs is not that of main, and where the steps have more than 128 bits.
///
/// Each run completes, in every order, on a machine that has these frames, with a limit of at least these steps, if each loop's bound is at least the
/// number of iterations and the run is not cut off: `completion::needs_suffice`.
pub fn machine_needs<'a, A: Allocator + Clone>(
    alloc: A,
    checked: &Checked<'a, A>,
    inputs: &[i64],
    activities: u64,
) -> Result<Option<MachineNeeds>, AllocError>
    ensures needs { IfOk result (λ r. IfSome r (λ n. AreNeedsOf checked.now inputs.now activities n.frames n.steps n.iterations)) }
    ensures none { IfOk result (λ r. IfNone r (AreUntold checked.now inputs.now activities)) }
{
    let counts = match call_counts(alloc.clone()?, checked, inputs, activities) {
        Ok(Some(counts)) => counts,
        Ok(None) | Err(MeanFault::WrongInputs) => return Ok(None),
        Err(MeanFault::Memory) => return Err(AllocError),
    };
    let plan = plan(&alloc, checked)?;
    Ok(needs_in(&plan, counts))
}

/// The most frames of an element.
const FRAMES: u128 = 1_024;

/// How many frames each element gets so that a run of a graph wants none, whatever the order of its events.
#[derive(Clone, Copy, Debug, PartialEq, Eq)]
pub enum EnoughFrames {
    /// The least number with which all elements together have enough.
    Each(u64),
    /// All elements together would need this many, and cannot have them.
    TooMany(u128),
    /// No number is known: the meaning does not come to rest with no fetch waiting.
    Untold,
}

/// The frames of each of these elements where a frame is wanted for main and for each of these invocations.
fn frames_for(called: usize, elements: u64) -> EnoughFrames
    ensures { AreFramesFor elements (1 + called) result }
{
    let frames = 1 + called as u128;
    let elements = u128::from(elements);
    if elements * FRAMES < frames {
        return EnoughFrames::TooMany(frames);
    }
    EnoughFrames::Each(frames.div_ceil(elements) as u64)
}

/// So many frames for each of these elements that no run of the graph on these inputs wants a frame, in whatever order, by a run of the
/// meaning of at most `activities` activities.
///
/// Each element has at most 1024 frames. That no run wants one with this number: `completion::frames_are_not_wanted`.
pub fn enough_frames<'a, A: Allocator + Clone>(
    alloc: A,
    checked: &Checked<'a, A>,
    inputs: &[i64],
    activities: u64,
    elements: u64,
) -> Result<EnoughFrames, AllocError>
    ensures { IfOk result (λ frames. (length inputs.now ≢ inputs_at checked.now (main_place checked.now)) ⊎ AreEnough checked.now inputs.now activities
        elements frames) }
{
    match call_counts(alloc, checked, inputs, activities) {
        Ok(Some(counts)) => Ok(frames_for(counts.invocations, elements)),
        Ok(None) | Err(MeanFault::WrongInputs) => Ok(EnoughFrames::Untold),
        Err(MeanFault::Memory) => Err(AllocError),
    }
}
