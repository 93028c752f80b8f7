//! Which credits suffice, loop by loop: code that waits for a credit only where a loop has outgrown its bound completes where none does.
//!
//! **The statement.** A loop with bound `k` outgrows it where some run of the meaning calls for iteration `k`, numbered from 0, in one invocation
//! (`Outgrows`, in `specs/Loops`). Let faithful code wait for a credit only where some loop has outgrown its bound (`WaitsForMore`; that the
//! compiler's code does is the law of `law_loop_credits`). Where the meaning of a well-formed graph rests well, and no loop outgrows its bound, each run of that code that was not
//! cut off completes, in every order, on each machine with frames and steps enough (`LoopsComplete`, in `specs/LoopsComplete`). So a bound of at least
//! the loop's own iterations, in one invocation, suffices. One run of the meaning to its end tells (`OneRunBounds`).
//!
//! `WithinCompletes`, in `specs/Within`, is the same of code that starves for credits alone only where no run of the meaning to its end keeps each
//! loop within its bound. That the compiler's code is such code is the law of `law_loop_credits`. `FirstMissing` is a step towards it.
//!
//! **Why it holds.**
//! 1. By `RoomyRunsComplete` (`law_completion`) it is enough that no run starves for a credit.
//! 2. Where an iteration waits for one, a loop has outgrown its bound; so none waits where none does (`LoopsComplete`).
//! 3. What is due in any run has an activity in each run to the end (`among`, `law_completion`): the first input passes in it. So one run tells.
//! 4. An activity that is enabled at the start of a run is made by the run or enabled after it, by the diamond, since no second store is met. So the
//!    first activity of a run to the end that another run has not made is enabled where that one has come to (`Within`).
#![tactic(auto)]

ghost use Rattle.law_loops_complete.specs.LoopsComplete.{OneRunBounds, LoopsComplete};
ghost use Rattle.law_loops_complete.specs.Within.{WithinCompletes, FirstMissing};

/// Code that waits for a credit only where a loop has outgrown its bound completes where none does; one run of the meaning tells whether one does.
pub fn own_bounds_suffice()
    ensures tells { OneRunBounds }
    ensures complete { LoopsComplete }
{}

/// Code that starves for credits alone only where no run of the meaning keeps within completes where one does. Of a run to the end, the first activity
/// that another run has not made is enabled where that one has come to.
pub fn kept_runs_complete()
    ensures complete { WithinCompletes }
    ensures missing { FirstMissing }
{}
