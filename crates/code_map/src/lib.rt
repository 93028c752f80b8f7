//! The map of an object: for each instruction the part of the graph for which the compiler made it.
//!
//! What a step of the schemas adds to the code of a block belongs to that for which the step is made. The passes carry it on:
//! folding leaves instructions out, and narrowing adds copies, which belong to what the instruction belongs to whose destinations
//! they lead to. Neither looks at the marks of switches to decide what moves, so the places of instructions go through both in
//! the place of marks, and the owners are read off at the end.
#![tactic(auto)]

ghost use Rattle.std.specs.Prelude.{◌≡◌, IfOk};
ghost use Rattle.semantics.specs.Graph.{flow_of};
ghost use Rattle.code_map.specs.Carried.{owners_of};

mod blocks;
mod carried;
mod ends;
mod joins;
mod laws;
mod looped;
mod nodes;
mod owner;
mod part;
mod rows;
mod triggers;
mod uses;

use blocks::expanded_owners;
use carried::{joined, number};
use fanout::narrow;
use folding::fold;
use graph_check::Checked;
pub use laws::{
    blocks_are_found, bodies_have_owners, examples_have_owners, joins_have_owners,
    object_has_owners, places_are_joined, places_give_owners, plain_has_owners, plain_is_found,
    rows_are_owned, tails_have_owners, variant_has_owners, variant_is_found,
};
pub use owner::Owner;
pub use part::Part;
use schemas::expand;
use std::alloc::{AllocError, Allocator};

/// The owner of each instruction of a graph's object, as instructions are numbered through all code blocks. It fails only where
/// a growth is refused, or where a block of code had 2^32 instructions.
pub fn code_map<'a, A: Allocator + Clone>(
    alloc: A,
    checked: &Checked<'a, A>,
) -> Result<Vec<Owner, A>, AllocError>
    ensures exact { IfOk result (λ v. v.items ≡ owners_of (flow_of checked.now)) }
{
    let plan = expand(alloc.clone()?, checked)?;
    let owners = expanded_owners(alloc.clone()?, checked, &plan)?;
    let numbered = number(alloc.clone()?, plan)?;
    let folded = fold(alloc.clone()?, &numbered)?;
    let narrowed = narrow(alloc.clone()?, &folded)?;
    joined(alloc, &owners, &folded, &narrowed)
}
