//! One element of the explicit token store machine: what it holds, and a step of it.
#![tactic(auto)]

pub mod bundled;
pub mod company;
mod contents;
pub mod firing;
pub mod grant_order;
pub mod instructions;
pub mod lane;
pub mod requests;
mod waiting;

ghost use Rattle.element.specs.Openings.{OthersStay};

/// Where one element makes an event, the parts of the others stay.
#[tactic(auto, using(crate::proofs::Opening::others_stay))]
pub fn others_stay()
    ensures { OthersStay }
{}
