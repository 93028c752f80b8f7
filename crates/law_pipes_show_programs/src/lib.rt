//! What `ets run` prints of what `ets lower` printed shows the program.
//!
//! **The statement.** `pipes_show_programs` (`CommandsShowPrograms`, in `specs/Pipes`): where the words `lower` printed of a text all that they print, the
//! text has a program, which is lowered to a graph; and what `run` then prints of it is the report of a run of that graph, or a refusal with its cause.
//! Where that report ends at rest with no deferred reader, its outputs and cells are exactly those of the program. It ends so, unless memory was
//! refused, where the machine that was asked for is large enough for what the graph's meaning calls for. And it ends so, with what the program's own
//! evaluation computes, where that reads each cell behind the store that fills it, on a machine that has a frame for main, for each call and for each
//! iteration of the evaluation, and steps for these.
//!
//! **Why it holds.** What `run` makes of such an input is a law of `commands` (`pipes_run_programs`). A report of a lowered program's graph shows
//! the program (`programs::laws::reports_show_programs`), and ends at rest on a machine that is large enough (`driver::completion::reports_complete`,
//! `programs::laws::programs_complete_in_order`).
#![tactic(auto)]

ghost use Rattle.law_pipes_show_programs.specs.Pipes.{CommandsShowPrograms};

/// What `run` prints of what `lower` printed of a text shows the program of that text.
///
/// It is the text of a report, in which, at rest with no deferred reader, are the outputs and the cells of the program, by its own evaluator. On a
/// machine that is large enough it is at rest with no deferred reader, unless memory was refused. Where the program reads each cell behind its store a
/// frame for main, for each call and for each iteration, and steps for these, are enough.
pub fn pipes_show_programs()
    ensures { CommandsShowPrograms }
{
    law_ordered_runs::programs_complete_in_order();
}
