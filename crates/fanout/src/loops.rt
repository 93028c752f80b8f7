//! What narrowing keeps of a plan's loops.

ghost use Rattle.fanout.specs.Loops.{KeepsArrays, StillHasBounds};

/// The loops of a narrowed plan open with the bounds of the graph's loops, if those of the plan do. Its arrays are the
/// plan's.
pub fn narrowing_keeps_loops()
    ensures bounds { StillHasBounds }
    ensures arrays { KeepsArrays }
{}
