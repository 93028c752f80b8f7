//! Runs of an object that also say what each of their events did.

ghost use Rattle.std.specs.Prelude.{◌≡◌, Bool, false, IfOk, MatchResult};
ghost use Rattle.schedule.specs.declared.take.Take.{Take};
ghost use Rattle.driver.specs.declared.order.Order.{Order};
ghost use Rattle.driver.specs.Headline.{stops_in};
ghost use Rattle.driver.specs.ListedEvents.{AreMoments};
ghost use Rattle.driver.specs.Objects.{ShowsObject, RunsObject};
ghost use Rattle.driver.specs.Orders.{RunsByTurns, RunsByRounds};
ghost use Rattle.driver.specs.Refused.{IsRefusedObject};

use crate::fault::Fault;
use crate::order::Order;
use crate::resources::Resources;
use crate::running::{run_code, run_code_counted};
use loaded::Loaded;
use object_view::OwnedObject;
use replay::{Moment, ReplayRefusal, replay};
use rounds::{Counted, Gate};
use schedule::config::Config;
use schedule::main_code::MainCode;
use schedule::report::Report;
use schedule::take::Take;
use std::alloc::{AllocError, Allocator};
use std::sync::Wait;
use std::thread::Threads;

/// A run of an object, with the moment of each of its events.
#[derive(Drop)]
pub struct Watched<A: Allocator> {
    pub report: Report<A>,
    /// What each event did, and what the machine held after it.
    pub moments: Vec<Moment, A>,
}

/// The moments of the events that the report lists. The report is of a run of the object.
fn moments_of<A: Allocator + Clone>(
    alloc: A,
    code: &Loaded<'_, A>,
    inputs: &[i64],
    config: Config,
    report: &Report<A>,
) -> Result<Vec<Moment, A>, AllocError>
    requires { (may_stop : Bool) × ShowsObject code.now.bytes inputs.now config false may_stop report.now }
    ensures { IfOk result (λ v. AreMoments code.now.bytes inputs.now config report.now v.items) }
{
    // What the bytes promise: they are the object of this code.
    let _bytes = code.object().bytes();
    let _width = code.slots();
    let count = code.inputs();
    let frames = (config.elements * config.frames) as u32;
    match replay(alloc, code, frames, count, &report.events) {
        Ok(moments) => Ok(moments),
        Err(ReplayRefusal::Memory) => Err(AllocError),
        Err(ReplayRefusal::NotARun) => unreachable!(),
    }
}

/// Runs the object in the given order, lists the events, and says what each of them did.
pub fn watch_code<R: Threads + Wait + Sync, A: Allocator + Clone + Send + Sync, G: Gate + Sync>(
    resources: Resources<'_, A, R, G>,
    code: &Loaded<'_, A>,
    inputs: &[i64],
    config: Config,
    order: Order,
) -> Result<Watched<A>, Fault>
    ensures shows { MatchResult result (λ w. ShowsObject code.now.bytes inputs.now config false (stops_in order G.may_stop) w.report)
        (IsRefusedObject code.now.bytes inputs.now config) }
    ensures turns { (take : Take) → order ≡ Order.InTurn take → IfOk result (λ w. RunsObject code.now.bytes inputs.now config (RunsByTurns take) w.report) }
    ensures moments { IfOk result (λ w. AreMoments code.now.bytes inputs.now config w.report w.moments.items) }
{
    let alloc = resources.alloc.clone()?;
    let report = run_code(resources, code, inputs, config, order)?;
    let moments = moments_of(alloc, code, inputs, config, &report)?;
    Ok(Watched { report, moments })
}

/// Like `watch_code`, of an object that is not ready yet.
pub fn watch_object<R: Threads + Wait + Sync, A: Allocator + Clone + Send + Sync, G: Gate + Sync>(
    resources: Resources<'_, A, R, G>,
    object: &OwnedObject<A>,
    inputs: &[i64],
    config: Config,
    order: Order,
) -> Result<Watched<A>, Fault>
    ensures shows { MatchResult result (λ w. ShowsObject object.now.bytes inputs.now config false (stops_in order G.may_stop) w.report)
        (IsRefusedObject object.now.bytes inputs.now config) }
    ensures turns { (take : Take) → order ≡ Order.InTurn take → IfOk result (λ w. RunsObject object.now.bytes inputs.now config (RunsByTurns take) w.report) }
    ensures moments { IfOk result (λ w. AreMoments object.now.bytes inputs.now config w.report w.moments.items) }
{
    let code = Loaded::new(resources.alloc.clone()?, object.as_object())?;
    watch_code(resources, &code, inputs, config, order)
}

/// A run of an object in rounds, with the moment of each of its events.
#[derive(Drop)]
pub struct WatchedRounds<A: Allocator> {
    pub watched: Watched<A>,
    /// How many rounds the run made.
    pub rounds: u64,
}

/// Runs the object in rounds, in this order of the tokens, lists the events, and says what each of them did, and how many rounds there were.
pub fn watch_rounds<R: Threads + Wait + Sync, A: Allocator + Clone + Send + Sync, G: Gate + Sync>(
    resources: Resources<'_, A, R, G>,
    code: &Loaded<'_, A>,
    inputs: &[i64],
    config: Config,
    take: Take,
) -> Result<WatchedRounds<A>, Fault>
    ensures shows { MatchResult result (λ w. ShowsObject code.now.bytes inputs.now config false G.may_stop w.watched.report)
        (IsRefusedObject code.now.bytes inputs.now config) }
    ensures rounds { IfOk result (λ w. RunsObject code.now.bytes inputs.now config (RunsByRounds take G.may_stop w.rounds) w.watched.report) }
    ensures moments { IfOk result (λ w. AreMoments code.now.bytes inputs.now config w.watched.report w.watched.moments.items) }
{
    let alloc = resources.alloc.clone()?;
    let counted = run_code_counted(resources, code, inputs, config, take)?;
    let Counted { report, rounds } = counted;
    let moments = moments_of(alloc, code, inputs, config, &report)?;
    Ok(WatchedRounds {
        watched: Watched { report, moments },
        rounds,
    })
}
