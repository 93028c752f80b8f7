//! Where the destinations of the plan of every graph lead.

ghost use Rattle.law_wiring.specs.Arcs.{ArcsGoForward, PlansHaveSizes};

/// Each destination of the plan of a well-formed graph is a later instruction of its block, past the entries, and a right
/// port is one of an instruction with two operands. It leaves the row of the instruction that names it. A landing begins
/// at a left port and lies in its block whole. So no arc leads to an entry, and each arc to a right port meets another.
/// Each code block has 1 to 16 inputs and outputs, and more than its entries.
#[tactic(auto, using(crate::proofs::ArcsLaws::arcs_go_forward, crate::proofs::ArcsLaws::plans_have_sizes))]
pub fn arcs_go_forward()
    ensures forward { ArcsGoForward }
    ensures sizes { PlansHaveSizes }
{}
