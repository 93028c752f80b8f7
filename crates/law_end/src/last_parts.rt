//! What is left of a context when its last part has fired, in every net.

ghost use Rattle.law_net.specs.ContextsPackages.{OfRuns, ReleasesLast};
ghost use Rattle.law_end.specs.Over.{OfNets, EndsAreLast, CallsAreOver, LoopsAreOver};

/// When the last part of a context has fired, all parts in open arms have fired, and nothing of the context is left; and
/// what it invoked is over, where it says so.
pub fn ends_are_last()
    ensures ends { OfNets EndsAreLast }
    ensures calls { OfNets CallsAreOver }
    ensures loops { OfNets LoopsAreOver }
{}

/// So nothing names a frame any more when it can be taken back.
pub fn frames_return()
    ensures release { OfRuns ReleasesLast }
{}
