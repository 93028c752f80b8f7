//! The turns of an element, until it leaves.

ghost use Rattle.std.specs.Prelude.{◌≡◌, ◌≢◌, [], Bool, None, Some, OnOk, IfOk, IfSome, IfNone};
ghost use Rattle.element.specs.Holding.{held_of};
ghost use Rattle.schedule.specs.State.{setting_in};
ghost use Rattle.schedule.specs.Setting.{IsGoodSetting};
ghost use Rattle.schedule.specs.declared.halt.Halt.{Halt};
ghost use Rattle.machine.specs.declared.runner.Departure.{Departure};
ghost use Rattle.machine.specs.ByDepth.{HasNoReason, HaltsFreely};
ghost use Rattle.machine.specs.Runners.{Runs, Keeps, IsClear, StaysAt, IsDeparture, Ended};

use crate::attendance::Attendance;
use crate::blocks::make_block;
use crate::bundle::NearMesh;
use crate::bundling::{fill_bundles, offer_all};
use crate::by_depth::{has_none, others_in};
use crate::runner::{Departure, Lost, Runner};
use crate::taking::take_all;
use crate::turn_length::{LOOK, turn_of};
use rounds::Gate;
use schedule::halt::Halt;
use schedule::log::Log;
use schedule::main_code::MainCode;
use schedule::shape::Shape;
use schedule::take::Take;
use std::alloc::{AllocError, Allocator};
use std::sync::Wait;
use std::thread;

// Whether the element has tokens for a whole turn, and looked at the mailboxes a short while ago, or has nobody who would post any.
fn is_busy<C: MainCode, A: Allocator, L: Log>(
    runner: &Runner<'_, C, A, L>,
    shape: &Shape<'_, C>,
    order: Take,
) -> bool
    requires { IsGoodSetting (setting_in C.program C.width shape.now) }
{
    if shape.elements == 1 {
        return true;
    }
    let turn = turn_of(shape, runner.lane.element());
    let every = LOOK / turn;
    every > 1 && runner.blocks % every != 0 && others_in(&runner.lane, order) >= turn
}

// Takes what others posted, if it is time to look.
fn take<C: MainCode, A: Allocator, L: Log>(
    runner: &mut Runner<'_, C, A, L>,
    mesh: &NearMesh<A>,
    shape: &Shape<'_, C>,
    order: Take,
) -> Option<Halt>
    requires good { IsGoodSetting (setting_in C.program C.width shape.now) }
    requires runs { Runs L.KEEPS_EVENTS (setting_in C.program C.width shape.now) mesh.now runner.old }
    requires clear { IsClear runner.old }
    ensures stays { StaysAt runner.old runner.new }
    ensures keeps { Keeps L.KEEPS_EVENTS (setting_in C.program C.width shape.now) mesh.now runner.old runner.new }
    ensures clear { IfNone result (IsClear runner.new) }
    ensures halts { IfSome result (λ halt. halt ≡ Halt.Memory) }
{
    if is_busy(runner, shape, order) {
        return None;
    }
    take_all(runner, mesh, shape)
}

// Takes what others posted, and makes a block of events.
fn work<C: MainCode, A: Allocator + Clone, L: Log, G: Gate>(
    runner: &mut Runner<'_, C, A, L>,
    mesh: &NearMesh<A>,
    shape: &Shape<'_, C>,
    gate: &G,
    order: Take,
) -> Result<Option<Halt>, Lost>
    requires good { IsGoodSetting (setting_in C.program C.width shape.now) }
    requires runs { Runs L.KEEPS_EVENTS (setting_in C.program C.width shape.now) mesh.now runner.old }
    requires clear { IsClear runner.old }
    ensures stays { StaysAt runner.old runner.new }
    ensures keeps { OnOk result (Keeps L.KEEPS_EVENTS (setting_in C.program C.width shape.now) mesh.now runner.old runner.new) }
    ensures halts { IfOk result (λ halt. HaltsFreely order (setting_in C.program C.width shape.now) G.may_stop (held_of runner.new.lane) halt) }
    ensures whole { IfOk result (λ halt. halt ≡ None → HasNoReason order (setting_in C.program C.width shape.now) (held_of runner.new.lane)) }
    ensures unbundled { IfOk result (λ halt. halt ≡ None → (runner.new.unqueued.tokens ≡ []) × (runner.new.bundled ≡ 0)) }
{
    match take(runner, mesh, shape, order) {
        Some(halt) => Ok(Some(halt)),
        None => make_block(runner, mesh, shape, gate, order),
    }
}

// Bundles what the block made for others, and offers it, if it is time to.
fn pass_on<C: MainCode, A: Allocator + Clone, L: Log>(
    runner: &mut Runner<'_, C, A, L>,
    mesh: &NearMesh<A>,
    shape: &Shape<'_, C>,
    order: Take,
) -> Result<(), AllocError>
    requires good { IsGoodSetting (setting_in C.program C.width shape.now) }
    requires runs { Runs L.KEEPS_EVENTS (setting_in C.program C.width shape.now) mesh.now runner.old }
    requires unbundled { (runner.old.unqueued.tokens ≡ []) × (runner.old.bundled ≡ 0) }
    ensures stays { StaysAt runner.old runner.new }
    ensures keeps { Keeps L.KEEPS_EVENTS (setting_in C.program C.width shape.now) mesh.now runner.old runner.new }
    ensures clear { OnOk result (IsClear runner.new) }
    ensures lane { held_of runner.new.lane ≡ held_of runner.old.lane }
{
    fill_bundles(runner, mesh, shape)?;
    if is_busy(runner, shape, order) {
        return Ok(());
    }
    offer_all(runner, mesh, shape)
}

// Whether the element leaves between two turns.
fn look<C: MainCode, A: Allocator, L: Log>(
    runner: &mut Runner<'_, C, A, L>,
    mesh: &NearMesh<A>,
    shape: &Shape<'_, C>,
    order: Take,
) -> Option<Departure>
    requires runs { Runs L.KEEPS_EVENTS (setting_in C.program C.width shape.now) mesh.now runner.old }
    requires clear { IsClear runner.old }
    requires whole { HasNoReason order (setting_in C.program C.width shape.now) (held_of runner.old.lane) }
    ensures stays { StaysAt runner.old runner.new }
    ensures keeps { Keeps L.KEEPS_EVENTS (setting_in C.program C.width shape.now) mesh.now runner.old runner.new }
    ensures departure { IfSome result (λ departure. (may_stop : Bool) → IsDeparture order (setting_in C.program C.width shape.now) may_stop runner.new departure) }
    ensures clear { IsClear runner.new }
    ensures waits { result ≢ Some Departure.Waited }
{
    let _ = shape;
    let _ = order;
    if mesh.stopped(&mut runner.seat) != 0 {
        return Some(Departure::Stopped);
    }
    if runner.lane.queue().len() == 0 {
        if mesh.live(&mut runner.seat) == 0 {
            return Some(Departure::Rested);
        }
    }
    None
}

// One turn: why the element leaves after it, if it does, where it need not wait.
fn make_turn<C: MainCode, A: Allocator + Clone, L: Log, G: Gate>(
    runner: &mut Runner<'_, C, A, L>,
    mesh: &NearMesh<A>,
    shape: &Shape<'_, C>,
    gate: &G,
    order: Take,
) -> Result<Option<Departure>, Lost>
    requires good { IsGoodSetting (setting_in C.program C.width shape.now) }
    requires runs { Runs L.KEEPS_EVENTS (setting_in C.program C.width shape.now) mesh.now runner.old }
    requires clear { IsClear runner.old }
    ensures stays { StaysAt runner.old runner.new }
    ensures keeps { OnOk result (Keeps L.KEEPS_EVENTS (setting_in C.program C.width shape.now) mesh.now runner.old runner.new) }
    ensures departure { IfOk result (λ departure. IfSome departure (IsDeparture order (setting_in C.program C.width shape.now) G.may_stop runner.new)) }
    ensures clear { IfOk result (λ departure. departure ≡ None → IsClear runner.new) }
    ensures waits { IfOk result (λ departure. departure ≢ Some Departure.Waited) }
{
    if let Some(halt) = work(runner, mesh, shape, gate, order)? {
        return Ok(Some(Departure::Halted(halt)));
    }
    match pass_on(runner, mesh, shape, order) {
        Ok(()) => Ok(look(runner, mesh, shape, order)),
        Err(_) => Ok(Some(Departure::Halted(Halt::Memory))),
    }
}

// An element that has no token, and has looked this often for one, waits, or leaves.
fn wait_or_leave(attendance: &Attendance, elements: u32, looks: &mut u64) -> Option<Departure>
    ensures { IfSome result (λ departure. departure ≡ Departure.Waited) }
{
    if !attendance.may_wait(elements, *looks) {
        return Some(Departure::Waited);
    }
    *looks = looks.wrapping_add(1);
    thread::yield_now();
    None
}

// One turn, and a wait where the element has no token, or made no event and holds all its tokens back: why it leaves then, if it does.
fn turn<C: MainCode, A: Allocator + Clone, L: Log, G: Gate>(
    runner: &mut Runner<'_, C, A, L>,
    mesh: &NearMesh<A>,
    shape: &Shape<'_, C>,
    gate: &G,
    attendance: &Attendance,
    order: Take,
    looks: &mut u64,
) -> Result<Option<Departure>, Lost>
    requires good { IsGoodSetting (setting_in C.program C.width shape.now) }
    requires runs { Runs L.KEEPS_EVENTS (setting_in C.program C.width shape.now) mesh.now runner.old }
    requires clear { IsClear runner.old }
    ensures stays { StaysAt runner.old runner.new }
    ensures keeps { OnOk result (Keeps L.KEEPS_EVENTS (setting_in C.program C.width shape.now) mesh.now runner.old runner.new) }
    ensures departure { IfOk result (λ departure. IfSome departure (IsDeparture order (setting_in C.program C.width shape.now) G.may_stop runner.new)) }
    ensures clear { IfOk result (λ departure. departure ≡ None → IsClear runner.new) }
    ensures waits { IfOk result (λ departure. departure ≡ Some Departure.Waited → IsClear runner.new) }
{
    let made = runner.lane.made();
    if let Some(departure) = make_turn(runner, mesh, shape, gate, order)? {
        return Ok(Some(departure));
    }
    if !has_none(&runner.lane, order) {
        return Ok(None);
    }
    let is_done = runner.lane.queue().len() == 0 || runner.lane.made() == made;
    if !is_done {
        return Ok(None);
    }
    Ok(wait_or_leave(attendance, shape.elements, looks))
}

// Turns until the element leaves.
fn go<R: Wait, C: MainCode, A: Allocator + Clone, L: Log, G: Gate>(
    rt: &R,
    runner: &mut Runner<'_, C, A, L>,
    mesh: &NearMesh<A>,
    shape: &Shape<'_, C>,
    gate: &G,
    attendance: &Attendance,
    order: Take,
) -> Result<Departure, Lost>
    requires good { IsGoodSetting (setting_in C.program C.width shape.now) }
    requires runs { Runs L.KEEPS_EVENTS (setting_in C.program C.width shape.now) mesh.now runner.old }
    requires clear { IsClear runner.old }
    ensures stays { StaysAt runner.old runner.new }
    ensures keeps { OnOk result (Keeps L.KEEPS_EVENTS (setting_in C.program C.width shape.now) mesh.now runner.old runner.new) }
    ensures departure { IfOk result (IsDeparture order (setting_in C.program C.width shape.now) G.may_stop runner.new) }
    ensures clear { IfOk result (λ departure. departure ≡ Departure.Waited → IsClear runner.new) }
{
    let mut looks = 0;
    'turns: for _ in rt.forever() {
        if let Some(departure) = turn(runner, mesh, shape, gate, attendance, order, &mut looks)? {
            return Ok(departure);
        }
    }
    unreachable!()
}

// Calls for a stop, where the element leaves for a reason of its own.
fn call_stop<C: MainCode, A: Allocator, L: Log>(
    runner: &mut Runner<'_, C, A, L>,
    mesh: &NearMesh<A>,
    shape: &Shape<'_, C>,
)
    requires at { (runner.old.seat.mesh ≡ mesh.now) × (runner.old.seat.joined ≡ []) }
    ensures stays { StaysAt runner.old runner.new }
    ensures keeps { Keeps L.KEEPS_EVENTS (setting_in C.program C.width shape.now) mesh.now runner.old runner.new }
    ensures lane { held_of runner.new.lane ≡ held_of runner.old.lane }
    ensures last { (runner.new.seat.own.last ≡ runner.old.seat.own.last) × (runner.new.departure ≡ runner.old.departure) }
    ensures clear { IsClear runner.old → IsClear runner.new }
{
    let _ = shape;
    match runner.departure {
        Departure::Lost | Departure::Halted(_) => {
            let _set = mesh.stop(&mut runner.seat, 1);
        }
        Departure::Rested | Departure::Stopped | Departure::Waited => {}
    }
}

// Runs the element until it leaves: why it does.
fn leave<R: Wait, C: MainCode, A: Allocator + Clone, L: Log, G: Gate>(
    rt: &R,
    runner: &mut Runner<'_, C, A, L>,
    mesh: &NearMesh<A>,
    shape: &Shape<'_, C>,
    gate: &G,
    attendance: &Attendance,
    order: Take,
) -> Departure
    requires good { IsGoodSetting (setting_in C.program C.width shape.now) }
    requires runs { Runs L.KEEPS_EVENTS (setting_in C.program C.width shape.now) mesh.now runner.old }
    requires clear { IsClear runner.old }
    ensures stays { StaysAt runner.old runner.new }
    ensures keeps { result ≢ Departure.Lost → Keeps L.KEEPS_EVENTS (setting_in C.program C.width shape.now) mesh.now runner.old runner.new }
    ensures departure { IsDeparture order (setting_in C.program C.width shape.now) G.may_stop runner.new result }
    ensures clear { result ≡ Departure.Waited → IsClear runner.new }
{
    match go(rt, runner, mesh, shape, gate, attendance, order) {
        Ok(departure) => departure,
        Err(Lost) => Departure::Lost,
    }
}

/// The element begins: it enters the gate.
pub fn begin<C: MainCode, A: Allocator, L: Log, G: Gate>(
    runner: &Runner<'_, C, A, L>,
    gate: &G,
    attendance: &Attendance,
) {
    gate.enter(runner.lane.element());
    attendance.begin();
}

/// Runs the element in this order of its tokens until no token is live, until another calls for a stop, until it has waited in vain for others to begin, or
/// until it has a reason of its own to halt, and calls for a stop then.
pub fn run<R: Wait, C: MainCode, A: Allocator + Clone, L: Log, G: Gate>(
    rt: &R,
    runner: &mut Runner<'_, C, A, L>,
    mesh: &NearMesh<A>,
    shape: &Shape<'_, C>,
    gate: &G,
    attendance: &Attendance,
    order: Take,
)
    requires good { IsGoodSetting (setting_in C.program C.width shape.now) }
    requires runs { Runs L.KEEPS_EVENTS (setting_in C.program C.width shape.now) mesh.now runner.old }
    requires clear { IsClear runner.old }
    ensures { Ended order L.KEEPS_EVENTS (setting_in C.program C.width shape.now) mesh.now G.may_stop runner.old runner.new }
{
    runner.departure = leave(rt, runner, mesh, shape, gate, attendance, order);
    call_stop(runner, mesh, shape);
}
