//! An element takes what others posted to it.

ghost use Rattle.std.specs.Prelude.{◌≡◌, ◌<◌, All, IfSome, IfNone};
ghost use Rattle.tags.specs.Addresses.{element_of};
ghost use Rattle.element.specs.Holding.{fixed_of};
ghost use Rattle.schedule.specs.State.{RunsAs, setting_in};
ghost use Rattle.schedule.specs.Setting.{IsGoodSetting};
ghost use Rattle.schedule.specs.declared.halt.Halt.{Halt};
ghost use Rattle.machine.specs.Runners.{Runs, Keeps, IsClear, StaysAt, Receives};

use crate::bundle::{NearBundle, NearMesh, Reach};
use crate::runner::Runner;
use crate::spares::keep_spare;
use schedule::halt::Halt;
use schedule::log::Log;
use schedule::main_code::MainCode;
use schedule::shape::Shape;
use std::alloc::Allocator;

// Puts a bundle into the queue. Where there is no room for it, or where it was begun for another reach, it stays unqueued; the second case
// occurs in no run.
fn receive_or_hold<C: MainCode, A: Allocator, L: Log>(
    runner: &mut Runner<'_, C, A, L>,
    shape: &Shape<'_, C>,
    bundle: NearBundle<A>,
) -> Option<Halt>
    requires good { IsGoodSetting (setting_in C.program C.width shape.now) }
    requires runs { RunsAs (setting_in C.program C.width shape.now) (fixed_of runner.old.lane) }
    requires addressed { All (λ t. element_of runner.old.lane.held.part.shape.elements t.to ≡ runner.old.lane.held.part.shape.element) bundle.tokens }
    ensures none { IfNone result (Receives (setting_in C.program C.width shape.now) runner.old bundle.tokens runner.new) }
    ensures some { IfSome result (λ halt. (halt ≡ Halt.Memory) × (runner.new.lane ≡ runner.old.lane)
        × (runner.new ≡ record runner.old { lane = runner.new.lane; unqueued = bundle })) }
{
    if let Some(tokens) = bundle.within(Reach::of(shape)) {
        if runner.lane.receive_all(tokens).is_ok() {
            keep_spare(&mut runner.spare, bundle);
            return None;
        }
    }
    runner.unqueued = bundle;
    Some(Halt::Memory)
}

// Takes a bundle of the element `from`, if there is one.
fn take_from<C: MainCode, A: Allocator, L: Log>(
    runner: &mut Runner<'_, C, A, L>,
    mesh: &NearMesh<A>,
    shape: &Shape<'_, C>,
    from: u32,
) -> Option<Halt>
    requires good { IsGoodSetting (setting_in C.program C.width shape.now) }
    requires runs { Runs L.KEEPS_EVENTS (setting_in C.program C.width shape.now) mesh.now runner.old }
    requires clear { IsClear runner.old }
    requires from { from < shape.now.elements }
    ensures stays { StaysAt runner.old runner.new }
    ensures keeps { Keeps L.KEEPS_EVENTS (setting_in C.program C.width shape.now) mesh.now runner.old runner.new }
    ensures clear { IfNone result (IsClear runner.new) }
    ensures halts { IfSome result (λ halt. halt ≡ Halt.Memory) }
{
    match mesh.take(&mut runner.seat, from) {
        Some(bundle) => receive_or_hold(runner, shape, bundle),
        None => None,
    }
}

/// Takes what lies in the boxes to this element.
pub fn take_all<C: MainCode, A: Allocator, L: Log>(
    runner: &mut Runner<'_, C, A, L>,
    mesh: &NearMesh<A>,
    shape: &Shape<'_, C>,
) -> Option<Halt>
    requires good { IsGoodSetting (setting_in C.program C.width shape.now) }
    requires runs { Runs L.KEEPS_EVENTS (setting_in C.program C.width shape.now) mesh.now runner.old }
    requires clear { IsClear runner.old }
    ensures stays { StaysAt runner.old runner.new }
    ensures keeps { Keeps L.KEEPS_EVENTS (setting_in C.program C.width shape.now) mesh.now runner.old runner.new }
    ensures clear { IfNone result (IsClear runner.new) }
    ensures halts { IfSome result (λ halt. halt ≡ Halt.Memory) }
{
    for from in 0..shape.elements {
        if let Some(halt) = take_from(runner, mesh, shape, from) {
            return Some(halt);
        }
    }
    None
}
