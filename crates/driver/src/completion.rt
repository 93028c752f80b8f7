//! Which runs complete.

ghost use Rattle.driver.specs.Completes.{ReportsComplete, ModesComplete, QuietReportsComplete};
ghost use Rattle.driver.specs.Completes.{OwnBoundsSuffice, OwnBoundsSufficeIn, OwnBoundsSufficeQuietly};
ghost use Rattle.driver.specs.Completes.{KeptOrderSuffices, KeptOrderSufficesIn, KeptOrderSufficesQuietly};
ghost use Rattle.driver.specs.Needs.{FramesAreNotWanted, FramesAreNotWantedInModes, FramesAreNotWantedQuietly};
ghost use Rattle.driver.specs.Needs.{NeedsSuffice, NeedsSufficeInModes, NeedsSufficeQuietly};

/// A report of a run over a machine that is large enough for what the graph's meaning calls for ends at rest with no deferred reader, in any order of
/// the events, in each mode, and where the report lists no events: so it has the only outcome of the meaning.
///
/// Large enough: a frame for main and for each invocation that any run of the meaning calls for; a limit of steps for each element above the most events
/// that these can make; and for each loop a bound that is at least the number of iterations of all loops. The run must not have been cut off: by a refusal
/// of memory, by a gate, or since a list of steps was used up.
pub fn reports_complete()
    ensures reports { ReportsComplete }
    ensures modes { ModesComplete }
    ensures quiet { QuietReportsComplete }
{}

/// The same loop by loop: each loop's bound needs only be at least the number of the loop's own iterations, in one invocation of it.
///
/// So it is where no run of the meaning calls for iteration `k`, numbered from 0, of a loop with bound `k`. One run of the meaning to its end tells:
/// `law_loops_complete::own_bounds_suffice`. The frames, the steps, and what cuts a run off are as for [`reports_complete`].
pub fn own_bounds_suffice()
    ensures reports { OwnBoundsSuffice }
    ensures modes { OwnBoundsSufficeIn }
    ensures quiet { OwnBoundsSufficeQuietly }
{}

/// The same where some run of the meaning to its end keeps each loop within its bound: then every order does.
///
/// A run keeps a loop with bound `k` within it if, whenever iteration `u` of it has an activity, fewer than `k - 1` of the iterations before `u - 1` have
/// one later. The frames, the steps, and what cuts a run off are as for [`reports_complete`].
pub fn kept_order_suffices()
    ensures reports { KeptOrderSuffices }
    ensures modes { KeptOrderSufficesIn }
    ensures quiet { KeptOrderSufficesQuietly }
{}

/// What `needs::machine_needs` counts in one run of the meaning suffices in every order.
///
/// A report of a run over a machine that has these frames, these steps, and loops whose bounds are at least the iterations ends at rest with no
/// deferred reader, if the run was not cut off.
pub fn needs_suffice()
    ensures reports { NeedsSuffice }
    ensures modes { NeedsSufficeInModes }
    ensures quiet { NeedsSufficeQuietly }
{}

/// With a frame for main and one for each invocation that one run of the meaning calls for, no request for a frame waits when a run ends.
///
/// So it is of each end, in every order: with the frames that `needs::enough_frames` gives a run may starve for credits, and never for frames.
pub fn frames_are_not_wanted()
    ensures reports { FramesAreNotWanted }
    ensures modes { FramesAreNotWantedInModes }
    ensures quiet { FramesAreNotWantedQuietly }
{}
