//! What the plan of every graph keeps.

ghost use Rattle.law_wiring.specs.Bounds.{HoldersAreNumbered, LoopsKeepBounds, SwitchesAreMarked};

/// The loops of each code block of a plan open with the bounds of its graph block's loops, in their order. Each switch has
/// a mark, and nothing else has one. The holders of a code block are numbered in order of its instructions: each
/// instruction at which two words meet is one, and so is each loop, which its `open` identifies.
pub fn plans_keep_to_their_graphs()
    ensures bounds { LoopsKeepBounds }
    ensures marks { SwitchesAreMarked }
    ensures holders { HoldersAreNumbered }
{}
