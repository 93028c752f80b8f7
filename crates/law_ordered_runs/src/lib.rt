//! Programs that read each cell behind the store that fills it: their meaning comes to rest with what they compute, one iteration after another, and so
//! they complete on a machine that is large enough, in every order.
//!
//! **The statements.** Let a program have an evaluation on its inputs in which each cell is read behind the store that fills it, in the order of the
//! text, iteration after iteration (`EvaluatesInOrder`, in `specs/InOrderCompletes`). That is a condition on the program's own evaluation, which knows
//! no graph.
//! - `programs_run_in_order` (`ProgramsRunInOrder`, in `specs/InOrder`): the meaning of its graph has a run to rest, with no second store and no fetch
//!   waiting, whose outputs and cells are just those that the program computes, and in which all of an iteration takes place before any of a later one.
//! - `programs_complete_in_order` (in `specs/InOrderCompletes`): so, with `law_program_counts`, no run of the meaning calls for more invocations than
//!   the evaluation has calls and iterations (`ProgramsComeToRest`); and true code of the graph completes, in every order, on a machine with a frame for
//!   main and for each of these, with steps for these, and with bounds that are at least the iterations of all loops (`ProgramsInOrderComplete`). Faithful
//!   code completes there whatever the bounds are, if it starves for credits alone only where no run of the meaning to its end keeps within
//!   (`ProgramsInOrderCompleteWithin`). That is a condition on the code; `law_loop_credits` proves it of the compiler's.
//! - `one_after_another_keeps`: a run in which iterations take place one after another keeps each loop within its bound, if that is at least 2.
//! - `runs_go_on` (`specs/RunsGoOn`): an activity all of whose tokens have been present has happened, or can happen where the memory allows it; a run in
//!   which all such have happened is at rest.
//!
//! **Why they hold.**
//! 1. A token that has been present is there or was taken by one activity, and who took one of an activity's tokens where all have been present is that
//!    activity (`GoingOn`). So a run can always be extended by an activity whose tokens have come (`Extending`), and what is due, given, full or
//!    active stays so (`Staying`). So where its operands have values a node happens (`UsesSent`, `Lines`).
//! 2. The run of a program is made by recursion on the evaluation (`ReachingAll`), with no regard to what else the run has: from a run in which a part
//!    is active and its names have their values, one is reached in which its sources have the values that the part is evaluated to, and its stores
//!    are made (`Reaching`). A fetch finds its cell full, since that was filled before; a store finds its cell empty, since none is filled twice
//!    (`Memory`).
//! 3. What a part adds to the run (`Doing`) belongs to the part's nodes, or to what is made there, and is in order: parts of different nodes are, and so
//!    is what takes place in an invocation and round it (`Order`).
//! 4. And then the part is closed: however the run goes on, each activity at the part's nodes all of whose tokens come has happened (`Closing`). A node
//!    takes from one place once. In an arm that is not chosen only its enters happen: each other token there would show that its arm is taken (`Origins`,
//!    `Silent`), and the enters of arms within are others (`EntersPast`). No iteration is due after one whose flag is false.
//! 5. By the kinds of parts: `ReachingParts`, `ReachingCells`, `ReachingArms`, `ReachingCalls`, `ReachingTurns`, `ReachingLoops`; and main, from the
//!    start (`ReachingMain`). All of main is closed, so the run is over.
#![tactic(auto)]

ghost use Rattle.law_ordered_runs.specs.InOrder.{OneAfterAnotherKeeps, ProgramsRunInOrder};
ghost use Rattle.law_ordered_runs.specs.InOrderCompletes.{ProgramsComeToRest, ProgramsInOrderComplete, ProgramsInOrderCompleteWithin};
ghost use Rattle.law_ordered_runs.specs.RunsGoOn.{ClosedRunsRest, RunsGoOn};

/// An activity all of whose tokens have been present has happened, or can happen where the memory allows it. A run in which each such activity has
/// happened is at rest, without a second store and without a waiting fetch.
pub fn runs_go_on()
    ensures goes_on { RunsGoOn }
    ensures rests { ClosedRunsRest }
{}

/// A run in which the iterations of each loop take place one after another keeps each loop within its bound, if that is at least 2.
pub fn one_after_another_keeps()
    ensures keeps { OneAfterAnotherKeeps }
{}

/// The meaning of a program that reads each cell behind the store that fills it, in the order of the text, has a run to rest that computes what the
/// program computes, and in which the iterations of each loop take place one after another.
pub fn programs_run_in_order()
    ensures runs { ProgramsRunInOrder }
{}

/// A program that reads each cell behind the store that fills it completes, in every order, on a machine with a frame for main, for each call and for
/// each iteration of its own evaluation.
///
/// Its meaning comes to rest, with no fetch waiting, and calls for no more than these. True code of its graph completes where each loop's bound is at
/// least the iterations of all loops. Faithful code completes whatever the bounds are, if it starves for credits alone only where no run of the
/// meaning to its end keeps each loop within its bound: the compiler's code is such code (`law_loop_credits`).
pub fn programs_complete_in_order()
    ensures rests { ProgramsComeToRest }
    ensures completes { ProgramsInOrderComplete }
    ensures within { ProgramsInOrderCompleteWithin }
{
    law_program_counts::programs_complete_counted();
}
