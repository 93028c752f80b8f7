//! The code of an object does what the plan that it was made from does.

ghost use Rattle.law_compiler.specs.EmittedSameRuns.{EmittedHasSameEvents, EmittedIsFaithful, EmittedReleasesLast, EmittedKeepsBounds, EmittedHoldsAlone};
ghost use Rattle.law_compiler.specs.EmittedSameRuns.{OwnSlotsAreGood, OwnSlotsHaveSameEvents, OwnSlotsAreFaithful};

/// Emitted code has the events of the plan with its slots: each token does the same, in each store, and so each run of
/// the one is a run of the other. So what an object holds of the plan's code keeps the promises of that code: it is
/// faithful to a graph, nothing names a frame when it is released, loops keep their bounds, and a slot has one holder at
/// a time.
pub fn emitted_code_is_faithful()
    ensures events { EmittedHasSameEvents }
    ensures faithful { EmittedIsFaithful }
    ensures release { EmittedReleasesLast }
    ensures credits { EmittedKeepsBounds }
    ensures holders { EmittedHoldsAlone }
{}

/// A slot for each holder is a good choice where a block has at most 512 of them, and the code with these slots has the
/// events of the plan's program.
pub fn own_slots_are_faithful()
    ensures good { OwnSlotsAreGood }
    ensures events { OwnSlotsHaveSameEvents }
    ensures faithful { OwnSlotsAreFaithful }
{}
