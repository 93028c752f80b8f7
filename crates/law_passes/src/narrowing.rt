//! Narrowed plans keep what their plans keep, and their code is faithful.

ghost use Rattle.law_passes.specs.Narrowed.{NarrowedSpreads, NarrowingKeeps, NarrowedIsTidy, NarrowedIsReady, NarrowedCodeIsFaithful};

/// The runs of a narrowed plan that use each frame once are those of the plan, up to the events of copies. So it keeps all
/// that the plan keeps, and its code over good slots is faithful, with frames and slots that are used again.
pub fn narrowing_keeps()
    ensures spreads { NarrowedSpreads }
    ensures keeps { NarrowingKeeps }
    ensures tidy { NarrowedIsTidy }
    ensures ready { NarrowedIsReady }
    ensures code { NarrowedCodeIsFaithful }
{}
