//! Which runs come to their end: with frames, credits and steps enough for what the meaning calls for, true code always comes to rest, in every order.
//!
//! **The statement.** `graphs_complete` (`TotalGraph`, in `specs/TotalGraph`), for a well-formed graph whose meaning, on these inputs, comes to rest
//! with no second store and no fetch waiting. Let no run of the meaning call for more than `d` invocations beside main, of which at most `t` are
//! iterations of loops. Where a machine has `1 + d` frames in all, more than `6 (n + 1) (1 + d)` steps for each element (`n` are the instructions of
//! the largest code block), and each loop's bound is at least `t`, each run of true code that was not cut off ends at `Rest` with no deferred reader.
//! By `exact` of `Faithful` its outputs and cells are then those of the meaning. Cut off: memory was refused, a gate stopped it, or its order was a
//! list of steps that was used up. `OneRunTells` and `OneRunCounts`: any one run of the meaning to its end tells `d` and `t`.
//!
//! Code is true (`IsTrueCode`, in `specs/Total`) if it is faithful, nothing names a frame when it is released, loops keep their bounds in each tenure
//! of a frame, and all instructions of a holder use one slot. The compiler's code is (`law_compiled_code_completes`).
//!
//! **Why it holds.** A run can end in few ways. `Clash` and `Stuck` are excluded by `Faithful`, since the meaning rests well. For the others:
//! 1. Each frame that is out, and each request that waits, is main's or was asked for; and where a request waits all frames are out. So with a frame
//!    for main and for each request that was taken, none waits (`FramesOut`).
//! 2. By `cause` of `Faithful` a run takes no more requests than some run of the meaning calls for invocations, and no more credits than that one
//!    calls for iterations. What a run of the meaning calls for it calls for however it goes on, and it can go on to the state at rest, where each
//!    invocation that is due has an activity of its own (`DueGrows`). So one run to the end counts for all: they are the same activities in another
//!    order (`OneRun`).
//! 3. By `bound` the run's events are then fewer than the steps that one element may make: it does not end at `Steps`.
//! 4. A frame that is out has a tenure (`Tenures`). In it, what a loop has granted and the one that waits for a credit are no more than the credits
//!    that were sought (`CreditsSought`). All instructions of a holder use one slot (`OneSlot`), so at rest the loop of a slot with a waiter has
//!    granted its whole bound: one more than all iterations would have been sought. So none waits. The code's bounds are the graph's
//!    (`BoundsCredits`).
//! 5. So the run ends at `Rest`. By `exact` its readers are the fetches that wait in the meaning: none (`TotalEnds`, `Graphs`).
//!
//! **The files**, by chapter.
//! - `specs/Total`: what suffices, for any flow and plan; `specs/TotalGraph`: the theorem of graphs; `specs/TotalProgram`: the calls and iterations
//!   of a program's evaluation, which tell it for programs (`law_program_counts`).
#![tactic(auto)]

ghost use Rattle.law_completion.specs.Total.{FramesSuffice, LengthBounds, RoomyRunsRest, RoomyRunsComplete, RunsRest, RunsComplete, BoundsAreCredits};
ghost use Rattle.law_completion.specs.Total.{CodeHasOneSlot};
ghost use Rattle.law_completion.specs.TotalGraph.{OneRunTells, OneRunCounts, TotalGraph};

/// A run that has enough comes to rest, and completes where no fetch waits in the meaning.
///
/// Where there are frames for main and for all requests, no request waits. A run of the meaning to its end has an activity for each invocation that
/// any run calls for. The code of a plan has one slot for each holder, and faithful code has the bounds of the graph's loops.
pub fn enough_suffices()
    ensures frames { FramesSuffice }
    ensures length { LengthBounds }
    ensures room_rest { RoomyRunsRest }
    ensures room_complete { RoomyRunsComplete }
    ensures rest { RunsRest }
    ensures complete { RunsComplete }
    ensures bounds { BoundsAreCredits }
    ensures slots { CodeHasOneSlot }
{}

/// True code of a graph completes in every order, on each machine that is large enough for what the meaning calls for.
///
/// One run of the meaning to its end tells how large that is: by its number of activities, or more sharply by the invocations whose first input
/// passes in it.
pub fn graphs_complete()
    ensures tells { OneRunTells }
    ensures counts { OneRunCounts }
    ensures total { TotalGraph }
{}
