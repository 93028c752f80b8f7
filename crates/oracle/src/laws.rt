//! How the run agrees with the meaning.

ghost use Rattle.oracle.specs.Agreeing.{JoinsAgree, SendingAgrees};
ghost use Rattle.oracle.specs.Calling.{CallsAreTold};
ghost use Rattle.oracle.specs.Naming.{DeedsAreKnown, EnteringAgrees};
ghost use Rattle.oracle.specs.Reporting.{RunsEnd, ReportsAreTrue};
ghost use Rattle.oracle.specs.Waves.{WorkIsOne, SpanIsLow};

/// What the steps of a run do is what the meaning says: each join of a token with its partners is an activity of the
/// meaning, with its deed, and no other token is touched; a deed names only what exists; an invocation that is entered
/// has one number, and all others keep theirs; what is sent on a port is what the meaning sends.
pub fn steps_agree()
    ensures joins { JoinsAgree }
    ensures known { DeedsAreKnown }
    ensures entering { EnteringAgrees }
    ensures sending { SendingAgrees }
{}

/// The run that `mean` makes has an end on each well-formed graph, within any number of steps below 2^64: it never meets
/// joined tokens without a deed, nor a turn whose number is above the greatest u64. And what it reports is true of the meaning.
pub fn runs_are_meant()
    ensures ends { RunsEnd }
    ensures reports { ReportsAreTrue }
{}

/// What the waves say of every schedule. The work does not depend on the order: each run of the meaning to rest has as many
/// activities as the waves have in all. And there are at most as many waves as activities.
pub fn waves_are_meant()
    ensures work { WorkIsOne }
    ensures span { SpanIsLow }
{}

/// Where the run that `mean` makes came to rest and no fetch is deferred, its invocations beside main are those that the meaning calls for, and no
/// others.
pub fn calls_are_told()
    ensures { CallsAreTold }
{}
