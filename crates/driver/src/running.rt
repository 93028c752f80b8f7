//! Runs of an object that was opened. Its code is made ready once, and any number of runs start on it.

ghost use Rattle.std.specs.Prelude.{◌≡◌, ◌<◌, All, IfOk, MatchResult, true, false};
ghost use Rattle.object_view.specs.Reading.{opened};
ghost use Rattle.schedule.specs.declared.take.Take.{Take};
ghost use Rattle.schedule.specs.Unlisted.{Quietly};
ghost use Rattle.driver.specs.declared.order.Order.{Order};
ghost use Rattle.driver.specs.Disassembled.{IsOpened};
ghost use Rattle.driver.specs.Headline.{stops_in};
ghost use Rattle.driver.specs.Objects.{ShowsObject, ShowsObjectIn, RunsObject, StartsObject};
ghost use Rattle.driver.specs.Orders.{RunsByTurns, RunsByList, RunsByRounds};
ghost use Rattle.driver.specs.Refused.{IsNoObject, IsReadyObject, IsRefusedObject};

use crate::fault::Fault;
use crate::modes::{run_in, run_quietly_in};
use crate::order::Order;
use crate::resources::Resources;
use frame_store::store::Store;
use loaded::Loaded;
use object_view::Object;
use rounds::{Counted, Gate, run_counted_taking};
use schedule::config::Config;
use schedule::machine::Machine;
use schedule::report::Report;
use schedule::take::Take;
use std::alloc::Allocator;
use std::sync::Wait;
use std::thread::Threads;

/// Opens the object with these bytes, and makes it ready to be run.
pub fn open_code<'a, A: Allocator + Clone>(
    alloc: &A,
    bytes: &'a [u8],
) -> Result<Loaded<'a, A>, Fault>
    ensures opened { MatchResult result (λ code. (code ≡ opened bytes.now) × IsOpened bytes.now) (IsNoObject bytes.now) }
    ensures bytes { IfOk result (λ code. code.bytes ≡ bytes.now) }
{
    let object = Object::open(bytes)?;
    let code = Loaded::new(alloc.clone()?, object)?;
    Ok(code)
}

/// A machine at its start on the object, or what refuses it. Its slots lie in `store`, whatever that held before.
pub fn start_code<'m, 'a, A: Allocator + Clone>(
    alloc: A,
    store: &'m mut Option<Store<A>>,
    code: &'m Loaded<'a, A>,
    inputs: &[i64],
    config: Config,
) -> Result<Machine<'m, Loaded<'a, A>, A>, Fault>
    ensures { MatchResult result (λ machine. StartsObject code.now.bytes inputs.now config machine) (IsRefusedObject code.now.bytes inputs.now config) }
{
    // What the bytes promise: they are the object of this code, and of no other.
    let _bytes = code.object().bytes();
    let machine = Machine::start(alloc, store, code, inputs, config)?;
    Ok(machine)
}

/// Checks whether a run of the object can start. An `Err` says what refuses it.
pub fn check_start<A: Allocator + Clone>(
    alloc: A,
    code: &Loaded<'_, A>,
    inputs: &[i64],
    config: Config,
) -> Result<(), Fault>
    ensures { MatchResult result (λ _. IsReadyObject code.now.bytes inputs.now config) (IsRefusedObject code.now.bytes inputs.now config) }
{
    let mut store = None;
    let _machine = start_code(alloc, &mut store, code, inputs, config)?;
    Ok(())
}

/// The report of a run of the object in the given order.
pub fn run_code<R: Threads + Wait + Sync, A: Allocator + Clone + Send + Sync, G: Gate + Sync>(
    resources: Resources<'_, A, R, G>,
    code: &Loaded<'_, A>,
    inputs: &[i64],
    config: Config,
    order: Order,
) -> Result<Report<A>, Fault>
    ensures shows { MatchResult result (ShowsObject code.now.bytes inputs.now config false (stops_in order G.may_stop))
        (IsRefusedObject code.now.bytes inputs.now config) }
    ensures turns { (take : Take) → order ≡ Order.InTurn take → IfOk result (RunsObject code.now.bytes inputs.now config (RunsByTurns take)) }
{
    let Resources { alloc, rt, gate } = resources;
    let mut store = None;
    let machine = start_code(alloc, &mut store, code, inputs, config)?;
    Ok(run_in(machine, order, rt, gate))
}

/// Like `run_code`, also in the order of its events, but the report lists no events, so a long run takes no more memory than
/// a short one.
pub fn run_code_quietly<
    R: Threads + Wait + Sync,
    A: Allocator + Clone + Send + Sync,
    G: Gate + Sync,
>(
    resources: Resources<'_, A, R, G>,
    code: &Loaded<'_, A>,
    inputs: &[i64],
    config: Config,
    order: Order,
) -> Result<Report<A>, Fault>
    ensures { MatchResult result (Quietly (ShowsObjectIn order code.now.bytes inputs.now config G.may_stop)) (IsRefusedObject code.now.bytes inputs.now config) }
{
    let Resources { alloc, rt, gate } = resources;
    let mut store = None;
    let machine = start_code(alloc, &mut store, code, inputs, config)?;
    Ok(run_quietly_in(machine, order, rt, gate))
}

/// Like `run_code_quietly`, of elements that take turns, with their tokens in this order. It starts no thread.
pub fn run_code_quietly_in_turn<A: Allocator + Clone>(
    alloc: A,
    code: &Loaded<'_, A>,
    inputs: &[i64],
    config: Config,
    take: Take,
) -> Result<Report<A>, Fault>
    ensures { MatchResult result (Quietly (ShowsObjectIn (Order.InTurn take) code.now.bytes inputs.now config false))
        (IsRefusedObject code.now.bytes inputs.now config) }
{
    let mut store = None;
    let machine = start_code(alloc, &mut store, code, inputs, config)?;
    Ok(machine.run_quietly_in_turn(take))
}

/// The report of a run of the object in the order of a list. Each entry of the list names an element, and one of its tokens by
/// its place in the queue, modulo the queue's length.
pub fn run_code_picks<A: Allocator + Clone>(
    alloc: A,
    code: &Loaded<'_, A>,
    inputs: &[i64],
    config: Config,
    picks: &[(u32, u64)],
) -> Result<Report<A>, Fault>
    requires { All (λ pick. pick.0 < config.elements) picks.now }
    ensures shows { MatchResult result (ShowsObject code.now.bytes inputs.now config true false) (IsRefusedObject code.now.bytes inputs.now config) }
    ensures list { IfOk result (RunsObject code.now.bytes inputs.now config (RunsByList picks.now)) }
{
    let mut store = None;
    let machine = start_code(alloc, &mut store, code, inputs, config)?;
    Ok(machine.run(picks))
}

/// The report of a run of the object in rounds, in this order of the tokens, and how many rounds it made.
pub fn run_code_counted<
    R: Threads + Wait + Sync,
    A: Allocator + Clone + Send + Sync,
    G: Gate + Sync,
>(
    resources: Resources<'_, A, R, G>,
    code: &Loaded<'_, A>,
    inputs: &[i64],
    config: Config,
    take: Take,
) -> Result<Counted<A>, Fault>
    ensures shows { MatchResult result (λ c. ShowsObject code.now.bytes inputs.now config false G.may_stop c.report)
        (IsRefusedObject code.now.bytes inputs.now config) }
    ensures rounds { IfOk result (λ c. RunsObject code.now.bytes inputs.now config (RunsByRounds take G.may_stop c.rounds) c.report) }
{
    let Resources { alloc, rt, gate } = resources;
    let mut store = None;
    let machine = start_code(alloc, &mut store, code, inputs, config)?;
    Ok(run_counted_taking(machine, rt, gate, take))
}
