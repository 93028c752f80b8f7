//! The whole way: text to object, object to machine, machine to report. The headline is the contract of `emulate`.

ghost use Rattle.std.specs.Prelude.{◌≡◌, ◌<◌, All, IfOk, MatchResult, true, false};
ghost use Rattle.semantics.specs.Graph as Graphs;
ghost use Rattle.driver.specs.Refused.{IsGoodText, IsReady, IsRefused, IsRefusedObject};
ghost use Rattle.driver.specs.Needs.{AreEnough};
ghost use Rattle.mode.specs.declared.Mode.{Mode};
ghost use Rattle.driver.specs.Headline.{ReportsTruthIn, ReportsTruthByList, ReportsQuietly, stops_in};
ghost use Rattle.schedule.specs.declared.take.Take.{Take};
ghost use Rattle.schedule.specs.declared.take.Take.TheVariants.{Oldest};
ghost use Rattle.driver.specs.declared.order.Order.{Order};
ghost use Rattle.schedule.specs.Unlisted.{Quietly};
ghost use Rattle.driver.specs.Objects.{ShowsObject, ShowsObjectIn, RunsObject};
ghost use Rattle.driver.specs.Orders.{RunsByTurns, RunsByList, order_of};

use crate::compiling::{Compiled, compile};
use crate::fault::Fault;
use crate::needs::{EnoughFrames, enough_frames};
use crate::order::Order;
use crate::resources::Resources;
use crate::running::{check_start, open_code, run_code, run_code_picks, run_code_quietly};
use graph_check::Checked;
use loaded::Loaded;
use mode::Mode;
use rounds::Gate;
use schedule::config::Config;
use schedule::report::Report;
use schedule::take::Take;
use std::alloc::Allocator;
use std::sync::Wait;
use std::thread::Threads;

/// A run of the text's graph.
#[derive(Drop)]
pub struct Emulated<'a, A: Allocator> {
    pub checked: Checked<'a, A>,
    pub report: Report<A>,
}

/// The report of a run, in the given order, of the object with these bytes.
pub fn run_object<R: Threads + Wait + Sync, A: Allocator + Clone + Send + Sync, G: Gate + Sync>(
    resources: Resources<'_, A, R, G>,
    bytes: &[u8],
    inputs: &[i64],
    config: Config,
    order: Order,
) -> Result<Report<A>, Fault>
    ensures shows { MatchResult result (ShowsObject bytes.now inputs.now config false (stops_in order G.may_stop))
        (IsRefusedObject bytes.now inputs.now config) }
    ensures turns { (take : Take) → order ≡ Order.InTurn take → IfOk result (RunsObject bytes.now inputs.now config (RunsByTurns take)) }
{
    let code = open_code(&resources.alloc, bytes)?;
    run_code(resources, &code, inputs, config, order)
}

/// The report of a run, in the given mode, of the object with these bytes. In the mode `One` the elements take turns, and each
/// takes its oldest token.
pub fn emulate_object<R: Threads + Wait + Sync, A: Allocator + Clone + Send + Sync, G: Gate + Sync>(
    alloc: A,
    bytes: &[u8],
    inputs: &[i64],
    config: Config,
    mode: Mode,
    rt: &R,
    gate: &G,
) -> Result<Report<A>, Fault>
    ensures shows { MatchResult result (ShowsObject bytes.now inputs.now config false (stops_in (order_of mode Oldest) G.may_stop))
        (IsRefusedObject bytes.now inputs.now config) }
    ensures turns { mode ≡ Mode.One → IfOk result (RunsObject bytes.now inputs.now config (RunsByTurns Oldest)) }
{
    let order = Order::in_mode(mode, Take::Oldest);
    run_object(Resources { alloc, rt, gate }, bytes, inputs, config, order)
}

/// Like `run_object`, also in the order of its events, but the report lists no events, so a long run takes no more memory than a
/// short one.
pub fn emulate_object_quietly<
    R: Threads + Wait + Sync,
    A: Allocator + Clone + Send + Sync,
    G: Gate + Sync,
>(
    resources: Resources<'_, A, R, G>,
    bytes: &[u8],
    inputs: &[i64],
    config: Config,
    order: Order,
) -> Result<Report<A>, Fault>
    ensures { MatchResult result (Quietly (ShowsObjectIn order bytes.now inputs.now config G.may_stop)) (IsRefusedObject bytes.now inputs.now config) }
{
    let code = open_code(&resources.alloc, bytes)?;
    run_code_quietly(resources, &code, inputs, config, order)
}

/// The report of a run, in the order of a list, of the object with these bytes. Each entry of the list names an element, and
/// one of its tokens by its place in the queue, modulo the queue's length.
pub fn emulate_object_picks<A: Allocator + Clone>(
    alloc: A,
    bytes: &[u8],
    inputs: &[i64],
    config: Config,
    picks: &[(u32, u64)],
) -> Result<Report<A>, Fault>
    requires { All (λ pick. pick.0 < config.elements) picks.now }
    ensures shows { MatchResult result (ShowsObject bytes.now inputs.now config true false) (IsRefusedObject bytes.now inputs.now config) }
    ensures list { IfOk result (RunsObject bytes.now inputs.now config (RunsByList picks.now)) }
{
    let code = open_code(&alloc, bytes)?;
    run_code_picks(alloc, &code, inputs, config, picks)
}

/// Checks whether a run of the text's graph can start. An `Err` says what refuses it.
pub fn start_text<A: Allocator + Clone>(
    alloc: A,
    text: &[u8],
    inputs: &[i64],
    config: Config,
) -> Result<(), Fault>
    ensures { MatchResult result (λ _. IsReady text.now inputs.now config) (IsRefused text.now inputs.now config) }
{
    let compiled = compile(alloc.clone()?, text)?;
    let code = Loaded::new(alloc.clone()?, compiled.object.as_object())?;
    check_start(alloc, &code, inputs, config)?;
    Ok(())
}

/// How many frames each element gets so that a run of the text's graph wants none, where one could start with this configuration, whose limit of steps is
/// that of the activities of the meaning, too. An `Err` says what refuses it.
pub fn enough_for_text<A: Allocator + Clone>(
    alloc: A,
    text: &[u8],
    inputs: &[i64],
    config: Config,
) -> Result<EnoughFrames, Fault>
    ensures { MatchResult result (λ frames. IsReady text.now inputs.now config
        × (g : Graphs.Graph) × IsGoodText text.now g × AreEnough g inputs.now config.steps config.elements frames)
        (IsRefused text.now inputs.now config) }
{
    let compiled = compile(alloc.clone()?, text)?;
    let code = Loaded::new(alloc.clone()?, compiled.object.as_object())?;
    check_start(alloc.clone()?, &code, inputs, config)?;
    let frames = enough_frames(
        alloc,
        &compiled.checked,
        inputs,
        config.steps,
        config.elements,
    )?;
    Ok(frames)
}

/// Runs the text's graph in the given order. Gives the graph, and a report that lists no events, so a long run takes no more
/// memory than a short one.
pub fn run_text<'a, R: Threads + Wait + Sync, A: Allocator + Clone + Send + Sync, G: Gate + Sync>(
    resources: Resources<'_, A, R, G>,
    text: &'a [u8],
    inputs: &[i64],
    config: Config,
    order: Order,
) -> Result<Emulated<'a, A>, Fault>
    ensures { MatchResult result (λ e. ReportsQuietly order text.now e.checked inputs.now config G.may_stop e.report) (IsRefused text.now inputs.now config) }
{
    let Compiled { checked, object } = compile(resources.alloc.clone()?, text)?;
    let code = Loaded::new(resources.alloc.clone()?, object.as_object())?;
    let report = run_code_quietly(resources, &code, inputs, config, order)?;
    Ok(Emulated { checked, report })
}

/// The report of a run of the text's graph in the given mode: the text is compiled, and its object is run. In the mode `One` the
/// elements take turns, and each takes its oldest token.
pub fn emulate<R: Threads + Wait + Sync, A: Allocator + Clone + Send + Sync, G: Gate + Sync>(
    alloc: A,
    text: &[u8],
    inputs: &[i64],
    config: Config,
    mode: Mode,
    rt: &R,
    gate: &G,
) -> Result<Report<A>, Fault>
    ensures { MatchResult result (λ report. (g : Graphs.Graph) × ReportsTruthIn (order_of mode Oldest) text.now g inputs.now config G.may_stop report)
        (IsRefused text.now inputs.now config) }
{
    let compiled = compile(alloc.clone()?, text)?;
    let bytes = compiled.object.bytes();
    let report = emulate_object(alloc, bytes, inputs, config, mode, rt, gate)?;
    Ok(report)
}

/// The report of a run of the text's graph in the order of a list. Each entry names an element, and one of its tokens by its place
/// in the queue, modulo the queue's length.
pub fn emulate_picks<A: Allocator + Clone>(
    alloc: A,
    text: &[u8],
    inputs: &[i64],
    config: Config,
    picks: &[(u32, u64)],
) -> Result<Report<A>, Fault>
    requires { All (λ pick. pick.0 < config.elements) picks.now }
    ensures { MatchResult result (λ report. (g : Graphs.Graph) × ReportsTruthByList text.now g inputs.now config picks.now report)
        (IsRefused text.now inputs.now config) }
{
    let compiled = compile(alloc.clone()?, text)?;
    let bytes = compiled.object.bytes();
    let report = emulate_object_picks(alloc, bytes, inputs, config, picks)?;
    Ok(report)
}
