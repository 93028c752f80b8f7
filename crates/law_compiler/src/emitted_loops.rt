//! What the code of an object keeps of its plan's loops.

ghost use Rattle.law_compiler.specs.EmittedLoops.{EmittedHasBounds, EmittedKeepsArrays};

/// The loops of emitted code open with the bounds of the graph's loops, if those of its plan do and each block of the plan
/// has its list of slots. Its arrays are the plan's.
pub fn emitted_code_keeps_loops()
    ensures bounds { EmittedHasBounds }
    ensures arrays { EmittedKeepsArrays }
{}
