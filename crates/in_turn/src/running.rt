//! Runs of elements that take turns.

ghost use Rattle.std.specs.Prelude.{◌≡◌, MatchResult, false};
ghost use Rattle.driver.specs.declared.order.Order.{Order};
ghost use Rattle.driver.specs.Headline.{ReportsQuietly};
ghost use Rattle.driver.specs.Objects.{ShowsObjectIn};
ghost use Rattle.driver.specs.Refused.{IsRefused, IsRefusedObject};

use driver::compiling::{Compiled, compile};
use driver::emulation::Emulated;
use driver::fault::Fault;
use driver::running::{run_code_quietly_in_turn, start_code};
use loaded::Loaded;
use schedule::config::Config;
use schedule::report::Report;
use schedule::take::Take;
use std::alloc::Allocator;

/// The report of a run of the object, in this order of the tokens. It lists the events.
pub fn run_code_in_turn<A: Allocator + Clone>(
    alloc: A,
    code: &Loaded<'_, A>,
    inputs: &[i64],
    config: Config,
    take: Take,
) -> Result<Report<A>, Fault>
    ensures { MatchResult result (ShowsObjectIn (Order.InTurn take) code.now.bytes inputs.now config false)
        (IsRefusedObject code.now.bytes inputs.now config) }
{
    let mut store = None;
    let machine = start_code(alloc, &mut store, code, inputs, config)?;
    Ok(machine.run_in_turn(take))
}

/// Runs the text's graph in this order of the tokens. Gives the graph, and a report that lists no events, so a long run takes no more
/// memory than a short one.
pub fn run_text_in_turn<'a, A: Allocator + Clone>(
    alloc: A,
    text: &'a [u8],
    inputs: &[i64],
    config: Config,
    take: Take,
) -> Result<Emulated<'a, A>, Fault>
    ensures { MatchResult result (λ e. ReportsQuietly (Order.InTurn take) text.now e.checked inputs.now config false e.report)
        (IsRefused text.now inputs.now config) }
{
    let Compiled { checked, object } = compile(alloc.clone()?, text)?;
    let code = Loaded::new(alloc.clone()?, object.as_object())?;
    let report = run_code_quietly_in_turn(alloc, &code, inputs, config, take)?;
    Ok(Emulated { checked, report })
}
