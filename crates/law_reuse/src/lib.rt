//! Slots that holders share, and frames that are used again: a run over them is a run in which each holder has a slot of its own and each frame is
//! used once.
//!
//! **The statement.** `shared_slots_are_faithful` (`specs/Slots`, `specs/Frames`, `specs/FramesGenerations` and `specs/Bounds`), for a wired and
//! orderly plan with good slots: each run of its code that hands out no frame twice is a run of the plan, event by event. Each run in which frames
//! may be used again has its unfolded run over the plan. So the code is as faithful as the plan; nothing else names a frame that is released; two
//! holders that share a slot never hold it at the same time; and loops keep their bounds in each tenure of a frame.
//!
//! **Why it holds.**
//! 1. The position of an instruction is its block and its place there; its event uses its slot in one of seven ways (`SlotsPlaced`, `SlotsTurns`).
//! 2. A holder has something only from when one of its ports got a token until its end was reached, and the arcs that were used show both
//!    (`SlotsFillings`, `SlotsUsedArcs`, `SlotsFirings`).
//! 3. Good slots require of two holders of one slot that the second begins after the end of the first, or that they lie on different sides of a mark.
//!    So in one invocation they are never both live (`SlotsShares`, `SlotsInvocation`), and while a holder is live, each other holder of its slot is
//!    empty (`SlotsNeighbours`).
//! 4. So an event over the code's slots is an event over the plan's slots (`SlotsPlacedEvents`), and a run that uses each frame once is a run of the
//!    plan (`SlotsRuns`).
//! 5. Nothing names a frame that is not out (`FramesNames`): when a frame is released nothing else names it, so from then on it stands for a frame
//!    that was never used (`FramesFreed`).
//! 6. Rules do not look at the numbers of frames (`FramesRenames`). So if a frame is renamed each time it is handed out, the run is one that uses
//!    each frame once (`FramesFold`, `Frames`).
//! 7. The clauses of faithfulness speak of what renaming leaves unchanged (`SlotsClauses`, `FramesTheorem`), and what is counted since a release is
//!    what a tenure counts (`BoundsTenures`).
//!
//! **The files**, by chapter.
//! - `Slots`: slots that holders share, in runs that use each frame once; `Frames`: frames that are used again; `Bounds`: the credits of loops.
#![tactic(auto)]

ghost use Rattle.law_reuse.specs.Slots.{OnceRunsAreOwn};
ghost use Rattle.law_reuse.specs.FramesGenerations.{RunsUnfold};
ghost use Rattle.law_reuse.specs.Frames.{SharedSlotsAreFaithful, ReleasesAreLast, HoldersAreAlone};
ghost use Rattle.law_reuse.specs.Bounds.{CodeUsesAgain};

/// The runs of the code of a wired and orderly plan with good slots are runs of the plan.
///
/// Each run that hands out no frame twice is a run of the plan with the same events, the same tokens, cells, outputs and
/// frames, in which each holder has a slot of its own. Each run in which frames may be used again has its unfolded run over the
/// plan, in which each frame is used once: the use of a frame has as its number how often the frame was released. So the code is
/// as faithful as the plan, nothing else names a frame that is released, and two holders that share a slot never hold it at the
/// same time. If the plan's loops keep their bounds in runs that use each frame once, the code's loops keep them in each tenure
/// of a frame.
pub fn shared_slots_are_faithful()
    ensures own { OnceRunsAreOwn }
    ensures unfold { RunsUnfold }
    ensures faithful { SharedSlotsAreFaithful }
    ensures release { ReleasesAreLast }
    ensures alone { HoldersAreAlone }
    ensures again { CodeUsesAgain }
{}
