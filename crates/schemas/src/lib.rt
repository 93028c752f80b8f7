//! The compiler's first pass, for every kind of node: from a checked graph to a plan, which is a program with any number
//! of destinations at an instruction and with a slot of its own for each meeting place and each loop.
//!
//! Each block has plain code, and each block that some loop names has the code of a loop variant too, in which one
//! iteration sends to the next one. The code of a block is, in order: the entries for the continuation and the inputs; the
//! nodes in their order, each with what belongs to it; the returns, or the turn of an iteration; the joins of the ends,
//! from the last conditional to the first one; and `release`. Every arc goes forward.
//!
//! An end is an instruction, or a side of a switch, that goes nowhere in its region: `release` fires when all ends of the
//! root have arrived, and an end of an arm counts when the arm is taken (explicit token store: Papadopoulos and Culler, ISCA
//! 1990; tagged tokens and bounded loops: Arvind and Nikhil, IEEE Transactions on Computers 1990).
#![tactic(auto)]

ghost use Rattle.std.specs.Prelude.{◌≡◌, ℕ, ◌+◌, ◌<◌, ◌≤◌, Bool, List, map, length, All, IfOk, OnOk};
ghost use Rattle.semantics.specs.Graph.{flow_of};
ghost use Rattle.schemas.specs.Blocks as Blocks;
ghost use Rattle.schemas.specs.Expanded as Expanded;

mod block;
mod builder;
mod ends;
mod flow;
mod plans;
mod rows;
mod scope;
mod tail;
mod triggers;
mod uses;
mod variants;

use code::Plan;
pub use folding::fold;
use graph_check::Checked;
use std::alloc::{AllocError, Allocator};

/// The plan of a checked graph.
///
/// It takes all its memory from the allocator, and fails only where a growth is refused. Then nothing is left of the plan.
pub fn expand<'a, A: Allocator + Clone>(
    alloc: A,
    checked: &Checked<'a, A>,
) -> Result<Plan<A>, AllocError>
    ensures exact { IfOk result (λ p. p ≡ Expanded.expanded (flow_of checked.now)) }
{
    let flow = flow::resolve(alloc.clone()?, checked)?;
    plans::plan_of(alloc, flow)
}
