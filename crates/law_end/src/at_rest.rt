//! What the machine shows in every run of the net, and at rest.

ghost use Rattle.law_end.specs.Rest.{AllCausedByMeaning, AllExactAtRest, AllSecondStores};

/// A store that meets a full cell is a second store of the meaning; and at rest, where neither a frame nor a credit is
/// wanted, the machine shows what the graph means. Each frame and each credit that it asked for is for an invocation that the
/// meaning calls for.
pub fn rest_holds()
    ensures second_store { AllSecondStores }
    ensures exact { AllExactAtRest }
    ensures cause { AllCausedByMeaning }
{}
