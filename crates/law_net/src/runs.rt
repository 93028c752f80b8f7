//! What holds of the net of contexts by the wires alone, and along its runs.

ghost use Rattle.law_net.specs.ContextsPackages.{HoldsOf, WordsAreFit, InletsAreFed, ArmsAreEntered, RivalsAreApart};
ghost use Rattle.law_net.specs.ContextsPackages.{OfRuns, IsOnce, Agrees, IsOfOneBlock, IsCaused, IsMatching, BoundIsKept, Lands};

/// The net keeps the laws of its wires, for all graphs.
pub fn arms_hold()
    ensures words { HoldsOf WordsAreFit }
    ensures fed { HoldsOf InletsAreFed }
    ensures entered { HoldsOf ArmsAreEntered }
    ensures rivals { HoldsOf RivalsAreApart }
{}

/// So, along each run that keeps to the net: ports get one token, of one block and along an arc that was used,
/// switches agree, and continuations land.
pub fn runs_keep()
    ensures once { OfRuns IsOnce }
    ensures agree { OfRuns Agrees }
    ensures block { OfRuns IsOfOneBlock }
    ensures caused { OfRuns IsCaused }
    ensures lands { OfRuns Lands }
{}

/// No token is excluded, and loops keep their bounds.
pub fn tokens_match()
    ensures matching { OfRuns IsMatching }
    ensures bound { OfRuns BoundIsKept }
{}
