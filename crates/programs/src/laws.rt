//! What reports say of programs, by whatever means the report was made.

ghost use Rattle.programs.specs.InOrder.{OrderedProgramsComplete};
ghost use Rattle.programs.specs.Laws.{ReportsShowPrograms, ModesShowPrograms, QuietReportsShowPrograms, RefusalsAreTheTexts, ProgramsComplete, CountedProgramsComplete};
ghost use Rattle.programs.specs.Laws.{OwnBoundsSufficeProgram, KeptOrderSufficesProgram};

/// A report of the text of a lowered program's graph is true of the program.
///
/// Where the headline holds of a report of that text, and the report ends at rest with no deferred reader, its outputs and
/// cells are those that the program computes by its own evaluator: in any order of the events, in each mode, and where the
/// report lists no events. What refuses a run of the graph refuses a run of its text.
pub fn reports_show_programs()
    ensures programs { ReportsShowPrograms }
    ensures modes { ModesShowPrograms }
    ensures quiet { QuietReportsShowPrograms }
    ensures refusals { RefusalsAreTheTexts }
{}

/// A report of a program's run over a machine that is large enough for what the meaning of its graph calls for shows the program.
///
/// Large enough is what `driver::completion` says. If the run was not cut off, it ends at rest with no deferred reader, so its outputs and cells are
/// those that the program computes.
pub fn programs_complete()
    ensures { ProgramsComplete }
{}

/// How large a machine has to be is told by the program's own evaluation: a frame for main, one for each call and one for each iteration of a loop.
///
/// Each loop's bound has to be at least the iterations of all loops. Then a report that was not cut off shows the program, in every mode.
pub fn programs_complete_counted()
    ensures { CountedProgramsComplete }
{
    law_program_counts::programs_complete_counted();
}

/// The same loop by loop: each loop's bound needs only be at least the number of the loop's own iterations, in one invocation of it.
///
/// So it is where no run of the meaning of the program's graph calls for iteration `k`, numbered from 0, of a loop with bound `k`. The frames and the
/// steps are counted in the program's own evaluation.
pub fn own_bounds_suffice()
    ensures { OwnBoundsSufficeProgram }
{
    law_program_counts::programs_complete_counted();
}

/// The same where some run of the meaning of the program's graph to its end keeps each loop within its bound: then every order does.
///
/// What that is `driver::completion::kept_order_suffices` says. The frames and the steps are counted in the program's own evaluation.
pub fn kept_order_suffices()
    ensures { KeptOrderSufficesProgram }
{
    law_program_counts::programs_complete_counted();
}

/// What an ordinary sequential run of a program computes, the machine computes, in every mode and every order of the elements' steps.
///
/// Let the program read each cell behind the store that fills it, in the order of the text, iteration after iteration. Where the machine has a frame for
/// main, for each call and for each iteration of that evaluation, and steps for these, a report that was not cut off ends at rest with no deferred
/// reader, and has the evaluation's outputs and cells. So it is whatever the bounds of the program's loops are.
pub fn programs_complete_in_order()
    ensures { OrderedProgramsComplete }
{
    law_ordered_runs::programs_complete_in_order();
}
