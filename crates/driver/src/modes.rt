//! The modes in which a machine runs.

ghost use Rattle.std.specs.Prelude.{◌≡◌, ℤ, List, false};
ghost use Rattle.schedule.specs.Shown.{ShowsInOrder};
ghost use Rattle.schedule.specs.declared.take.Take.{Take};
ghost use Rattle.schedule.specs.Setting.{size};
ghost use Rattle.schedule.specs.Runs.{Began};
ghost use Rattle.schedule.specs.Unlisted.{ShowsQuietly, Quietly, RunsTaking};
ghost use Rattle.driver.specs.declared.order.Order.{Order};
ghost use Rattle.driver.specs.Headline.{stops_in};

use crate::order::Order;
use machine::{run_quietly_taking as run_free_quietly_taking, run_taking as run_free_taking};
use rounds::{Gate, run_quietly_taking, run_taking};
use schedule::machine::Machine;
use schedule::main_code::MainCode;
use schedule::report::Report;
use std::alloc::Allocator;
use std::sync::Wait;
use std::thread::Threads;

/// The report of a run in the given order.
pub fn run_in<
    R: Threads + Wait + Sync,
    C: MainCode + Sync,
    A: Allocator + Clone + Send + Sync,
    G: Gate + Sync,
>(machine: Machine<'_, C, A>, order: Order, rt: &R, gate: &G) -> Report<A>
    ensures shows { (inputs : List ℤ) → Began inputs machine.entry.state machine.entry.events → ShowsInOrder machine.entry.state.setting.program
        (size machine.entry.state.setting) inputs machine.entry.state.setting.steps false (stops_in order G.may_stop) result }
    ensures turns { (take : Take) → order ≡ Order.InTurn take → RunsTaking take machine.entry result }
{
    match order {
        Order::InTurn(take) => machine.run_in_turn(take),
        Order::InRounds(take) => run_taking(machine, rt, gate, take),
        Order::Free(take) => run_free_taking(machine, take, rt, gate),
    }
}

/// The same, but the report lists no events.
pub fn run_quietly_in<
    R: Threads + Wait + Sync,
    C: MainCode + Sync,
    A: Allocator + Clone + Send + Sync,
    G: Gate + Sync,
>(machine: Machine<'_, C, A>, order: Order, rt: &R, gate: &G) -> Report<A>
    ensures turns { (take : Take) → order ≡ Order.InTurn take → Quietly (RunsTaking take machine.entry) result }
    ensures shows { (inputs : List ℤ) → Began inputs machine.entry.state machine.entry.events → ShowsQuietly machine.entry.state.setting.program
        (size machine.entry.state.setting) inputs machine.entry.state.setting.steps false (stops_in order G.may_stop) result }
{
    match order {
        Order::InTurn(take) => machine.run_quietly_in_turn(take),
        Order::InRounds(take) => run_quietly_taking(machine, rt, gate, take),
        Order::Free(take) => run_free_quietly_taking(machine, take, rt, gate),
    }
}
