//! From a plan to one in which operators have literal operands: a literal that goes to an operator from the source of
//! its other operand is a part of the operator's code.
//!
//! The operator waits for no second word then, and has no slot. Where the literal has another source, the operator has
//! to wait for it, and all stays.
#![tactic(auto)]

ghost use Rattle.std.specs.Prelude.{◌≡◌, IfOk};
ghost use Rattle.folding.specs.Folded.{folded};

mod blocks;
mod folds;
mod layout;
mod loops;
mod moved;
mod namers;
mod sound;

use blocks::fold_block;
use code::{Plan, Program};
pub use loops::folding_keeps_loops;
pub use sound::folding_keeps_plans_sound;
use std::alloc::{AllocError, Allocator};

/// The plan with literal operands. A `lit` that nothing else uses is left out; entries, landings and marks stay with
/// their instructions, and the holders that are left are numbered on in order.
///
/// Each port of such an operator has to be named once, and so has that of the `lit`; what names the `lit` names the
/// operator's other port from the same list of destinations. The other operand arrives at the left port. Which operators
/// these are is determined by the plan as it is given. It takes time in proportion to the plan's instructions and
/// destinations, its landings and holders.
///
/// It fails where a growth is refused, or where a destination would be 2^32 instructions ahead.
pub fn fold<A: Allocator + Clone>(alloc: A, plan: &Plan<A>) -> Result<Plan<A>, AllocError>
    ensures exact { IfOk result (λ p. p ≡ folded plan.now) }
{
    let mut blocks = Vec::with_capacity(alloc.clone()?, plan.program.blocks.len())?;
    let mut marks = Vec::with_capacity(alloc.clone()?, plan.program.blocks.len())?;
    for (number, block) in plan.program.blocks.iter().enumerate() {
        let fold = fold_block(alloc.clone()?, plan, block, plan.marks_of(number))?;
        blocks.push(fold.block)?;
        marks.push(fold.marks)?;
    }
    Ok(Plan {
        program: Program {
            blocks,
            arrays: Vec::from_slice(alloc, &plan.program.arrays)?,
            main: plan.program.main,
        },
        plain: plan.plain,
        marks,
    })
}
