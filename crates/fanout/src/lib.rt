//! From a plan to one in which no instruction has more than two destinations: a tree of `copy` leads to the others, as
//! deep as the logarithm of their number.
//!
//! The copies of an instruction are directly after it, or, if it is in a row that must not be cut, directly
//! after the row: the entries of a block, or the landing of a link.
#![tactic(auto)]

ghost use Rattle.std.specs.Prelude.{◌≡◌, IfOk};
ghost use Rattle.fanout.specs.Narrowed.{narrowed};
ghost use Rattle.fanout.specs.Laws.{AllInstrs, HasFew, IsShaped, HasItsDests, StaysPlan, MarksStay, LoopsStay, InstrsStay, LandingsStay, DestsStay, StaysWired};

mod blocks;
mod layout;
pub mod loops;
mod rows;
mod sides;
pub mod sound;
mod trees;

use blocks::narrow_block;
use code::{Plan, Program};
use std::alloc::{AllocError, Allocator};

/// What any plan keeps when it is narrowed: it stays a plan, marked at its switches and nowhere else, with its loops as
/// they were, each instruction in its place and each landing of a link in a row. If each destination leaves the row of
/// the instruction that names it, all destinations lead to later instructions of their block, as they did before.
pub fn narrowed_plan_is_plan()
    ensures plan { StaysPlan }
    ensures marks { MarksStay }
    ensures loops { LoopsStay }
    ensures places { InstrsStay }
    ensures landings { LandingsStay }
    ensures dests { DestsStay }
    ensures wired { StaysWired }
{}

/// The plan with trees of copies for destinations. Each instruction keeps its slot and its mark.
///
/// An instruction sends to two places, or to one for each of its two kinds of destinations: a switch on either side, a
/// link with its signals, which keeps its landing. A `give` and a `drain` send to one place. Where there are more
/// destinations, a copy takes the place of all those of a side. It takes time in proportion to the plan's instructions and
/// destinations, and its landings.
///
/// It fails where a growth is refused, or where a destination would be 2^32 instructions ahead.
pub fn narrow<A: Allocator + Clone>(alloc: A, plan: &Plan<A>) -> Result<Plan<A>, AllocError>
    ensures exact { IfOk result (λ p. p ≡ narrowed plan.now) }
    ensures few { IfOk result (λ p. AllInstrs HasFew p.program) }
    ensures dests { IfOk result (λ p. AllInstrs IsShaped plan.now.program → AllInstrs HasItsDests p.program) }
{
    let mut blocks = Vec::with_capacity(alloc.clone()?, plan.program.blocks.len())?;
    let mut marks = Vec::with_capacity(alloc.clone()?, plan.program.blocks.len())?;
    for (number, block) in plan.program.blocks.iter().enumerate() {
        let narrow = narrow_block(alloc.clone()?, plan, block, plan.marks_of(number))?;
        blocks.push(narrow.block)?;
        marks.push(narrow.marks)?;
    }
    Ok(Plan {
        program: Program {
            blocks,
            arrays: Vec::from_slice(alloc, &plan.program.arrays)?,
            main: plan.program.main,
        },
        plain: plan.plain,
        marks,
    })
}
