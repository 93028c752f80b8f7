//! Runs of programs. The promise is the contract of `run_program`.

ghost use Rattle.std.specs.Prelude.{MatchResult};
ghost use Rattle.programs.specs.Promise.{ReportsProgram};
ghost use Rattle.programs.specs.Refused.{IsRefusedRun};

use crate::compiling::compile_program;
use crate::fault::RunRefusal;
use driver::order::Order;
use driver::resources::Resources;
use driver::running::run_code_quietly;
use loaded::Loaded;
use rounds::Gate;
use schedule::config::Config;
use schedule::report::Report;
use std::alloc::Allocator;
use std::sync::Wait;
use std::thread::Threads;

/// Runs the program of the text on these inputs: it is lowered to a graph, that is compiled, and its code is run in the given
/// order. What follows a line `inputs` in the text is no part of it. Gives a report that lists no events, so a long run takes no
/// more memory than a short one.
pub fn run_program<R: Threads + Wait + Sync, A: Allocator + Clone + Send + Sync, G: Gate + Sync>(
    resources: Resources<'_, A, R, G>,
    text: &[u8],
    inputs: &[i64],
    config: Config,
    order: Order,
) -> Result<Report<A>, RunRefusal>
    ensures { MatchResult result (ReportsProgram order text.now inputs.now config G.may_stop) (IsRefusedRun text.now inputs.now config) }
{
    let object = compile_program(resources.alloc.clone()?, text)?;
    let code = Loaded::new(resources.alloc.clone()?, object.as_object())?;
    let report = run_code_quietly(resources, &code, inputs, config, order)?;
    Ok(report)
}
