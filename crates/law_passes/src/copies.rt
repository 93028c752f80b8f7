//! Plans with copies inserted.

ghost use Rattle.law_passes.specs.Spreads.{SpreadPlansKeep, SpreadPlansStayTidy};

/// A plan that is another one with copies inserted keeps what passes must keep, and is tidy if that one is.
pub fn copies_keep()
    ensures spread { SpreadPlansKeep }
    ensures tidy { SpreadPlansStayTidy }
{}
