//! Folded plans are as faithful as their plans.

ghost use Rattle.law_passes.specs.Fold.{FoldsRunAlike};
ghost use Rattle.law_passes.specs.Kept.{KeptSlotsFolds, KeptSlotsRunsAlike, KeptSlotsFaithful, KeptSlotsTidy, KeptSlotsLands, KeptSlotsKeepBounds};
ghost use Rattle.law_passes.specs.Kept.{KeptSlotsOrderly, KeptSlotsKeep};

/// The runs of a plan with literals in the code of operators are those of the plan, up to the events of literals.
pub fn folded_runs_are_alike()
    ensures folds { FoldsRunAlike }
    ensures kept_folds { KeptSlotsFolds }
    ensures kept_alike { KeptSlotsRunsAlike }
    ensures kept_faithful { KeptSlotsFaithful }
    ensures kept_tidy { KeptSlotsTidy }
    ensures kept_lands { KeptSlotsLands }
    ensures kept_bounds { KeptSlotsKeepBounds }
    ensures kept_orderly { KeptSlotsOrderly }
    ensures kept_keeps { KeptSlotsKeep }
{}
