//! What is left of a run at rest, where nothing is wanted and no reader waits: nothing.

ghost use Rattle.law_net.specs.ContextsPackages.{OfRuns, CleanAtRest};

/// At rest no frame is out and every slot is empty.
pub fn nothing_is_left()
    ensures clean { OfRuns CleanAtRest }
{}
