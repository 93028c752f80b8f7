//! The export that gives the values of a run's report.

ghost use Rattle.std.specs.Prelude.{◌≡◌, ◌≤◌, ◌<◌, IfOk, IfErr, MatchResult, length, map};
ghost use Rattle.ets_core.specs.Runs.{IsNoRunOf, IsRunOf, Runs, Told, lacks};
ghost use Rattle.ets_core.specs.Values.{cell_of, event_of, value_of};
ghost use Rattle.commands.specs.Refusals.{refused_as};
ghost use Rattle.outcomes.specs.Outcomes.{ending_of};
ghost use Rattle.driver.specs.declared.order.Order.{Order};
ghost use Rattle.driver.specs.Refused.{IsRefusedObject};
ghost use Rattle.ets_core.specs.Runs.{Shows};
ghost use Rattle.ets_core.specs.Taken.{config_of};

use crate::giving::is_too_long;
use crate::taking::{EtsHow, config_of, take_of};
use crate::values::{
    EtsCell, EtsEvent, EtsReport, EtsValue, cells_of, events_of, report_of, values_of,
};
use answers::{EtsResult, fill, result_of};
use driver::fault::Fault;
use driver::running::{open_code, run_code_quietly_in_turn};
use in_turn::printing::refusal_of;
use in_turn::running::run_code_in_turn;
use outcomes::{Ending, Outcome, Refusal};
use schedule::config::StartFault;
use schedule::report::Report;
use schedule::take::Take;
use std::alloc::{AllocError, Global};

/// The report of a run of the object in this order of the tokens. It lists the events where they are asked for.
fn run_taking(
    alloc: Global,
    bytes: &[u8],
    inputs: &[i64],
    how: &EtsHow,
    take: Take,
) -> Result<Report<Global>, Fault>
    ensures { MatchResult result (Shows how.now.events take bytes.now inputs.now how.now) (IsRefusedObject bytes.now inputs.now (config_of how.now)) }
{
    let code = open_code(&alloc, bytes)?;
    match how.events {
        0 => run_code_quietly_in_turn(alloc, &code, inputs, config_of(how), take),
        _ => run_code_in_turn(alloc, &code, inputs, config_of(how), take),
    }
}

/// The report of a run of the object as it is asked for, or why there is none.
fn run(alloc: Global, bytes: &[u8], inputs: &[i64], how: &EtsHow) -> Result<Report<Global>, Refusal>
    ensures { MatchResult result (IsRunOf bytes.now inputs.now how.now) (IsNoRunOf bytes.now inputs.now how.now) }
{
    if is_too_long(bytes) {
        return Err(Refusal::Input);
    }
    let Some(take) = take_of(how.take) else {
        return Err(Refusal::Start(StartFault::BadConfig));
    };
    match run_taking(alloc, bytes, inputs, how, take) {
        Ok(report) => Ok(report),
        Err(fault) => Err(refusal_of(fault)),
    }
}

/// The lists of a report.
#[derive(Drop)]
struct Lists {
    outputs: Vec<EtsValue>,
    cells: Vec<EtsCell>,
    events: Vec<EtsEvent>,
}

/// The lists of the report as C has them.
fn lists_of(alloc: Global, report: &Report<Global>) -> Result<Lists, AllocError>
    ensures outputs { IfOk result (λ l. l.outputs.items ≡ map value_of report.now.outputs) }
    ensures cells { IfOk result (λ l. l.cells.items ≡ map cell_of report.now.cells) }
    ensures events { IfOk result (λ l. l.events.items ≡ map event_of report.now.events) }
{
    let outputs = values_of(alloc, report.outputs.as_slice())?;
    let cells = cells_of(alloc, &report.cells)?;
    let events = events_of(alloc, &report.events)?;
    Ok(Lists {
        outputs,
        cells,
        events,
    })
}

/// 1 where so many items have no room.
fn lacks(needed: usize, room: usize) -> usize
    ensures exact { result ≡ lacks needed room }
    ensures bounded { result ≤ 1 }
{
    if room < needed { 1 } else { 0 }
}

/// Runs an object on these inputs, with its elements in turn. The report says how the run ended, and how many outputs, full cells and events
/// there are; each buffer is filled where it is long enough. What is needed is how many of the buffers are too short. Where the object does
/// not run nothing is written.
#[unsafe(no_mangle)]
pub extern "C" fn ets_run(
    alloc: Global,
    object: &[u8],
    inputs: &[i64],
    how: &EtsHow,
    report: &mut EtsReport,
    outputs: &mut [EtsValue],
    cells: &mut [EtsCell],
    events: &mut [EtsEvent],
) -> EtsResult
    ensures { Runs object.now inputs.now how.now
        (record { report = report.old; outputs = outputs.old; cells = cells.old; events = events.old })
        (record { report = report.new; outputs = outputs.new; cells = cells.new; events = events.new }) result }
{
    let ran = match run(alloc, object, inputs, how) {
        Ok(ran) => ran,
        Err(refusal) => return result_of(&Outcome::Refused(refusal), 0, 0),
    };
    let Ok(lists) = lists_of(alloc, &ran) else {
        return result_of(&Outcome::Refused(Refusal::Memory), 0, 0);
    };
    let short = lacks(lists.outputs.len(), outputs.len())
        + lacks(lists.cells.len(), cells.len())
        + lacks(lists.events.len(), events.len());
    *report = report_of(&ran);
    fill(outputs, &lists.outputs);
    fill(cells, &lists.cells);
    fill(events, &lists.events);
    result_of(&Outcome::Reported(Ending::of(&ran)), short, 0)
}
