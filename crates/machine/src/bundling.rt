//! An element offers to others what it made for them.

ghost use Rattle.std.specs.Prelude.{◌≡◌, ◌<◌, ◌≤◌, ◌∷◌, [], All, length, take, OnOk, OnErr};
ghost use Rattle.element.specs.Holding.{held_of};
ghost use Rattle.schedule.specs.State.{setting_in};
ghost use Rattle.schedule.specs.Setting.{IsGoodSetting};
ghost use Rattle.law_linearization.specs.History.{bounds_of};
ghost use Rattle.machine.specs.Runners.{Runs, Keeps, IsClear, StaysAt, KeepsTokens, Fits};

use crate::bundle::{NearBundle, NearMesh, Reach};
use crate::runner::Runner;
use crate::spares::{empty_bundle, keep_spare};
use element::bundled::element_of_packed;
use packed::token::PackedToken;
use schedule::log::Log;
use schedule::main_code::MainCode;
use schedule::shape::Shape;
use std::alloc::{AllocError, Allocator};
use std::mem;

// Puts a token into the bundle of its element. After an error all bundles have the tokens that they had.
#[inline(always)]
fn keep<A: Allocator>(
    unposted: &mut Vec<NearBundle<A>, A>,
    elements: u32,
    token: &PackedToken,
) -> Result<(), AllocError>
    requires some { 0 < elements }
    requires count { length unposted.old.items ≡ elements }
    requires near { Fits elements unposted.old.items token.now }
    ensures ok { OnOk result (KeepsTokens elements unposted.old.items unposted.new.items (token.now ∷ [])) }
    ensures err { OnErr result (KeepsTokens elements unposted.old.items unposted.new.items []) }
{
    let to = element_of_packed(token, elements) as usize;
    unposted[to].push(token)
}

// Puts tokens into the bundles of their elements until memory is refused: how many are there then.
fn fill<A: Allocator>(
    unposted: &mut Vec<NearBundle<A>, A>,
    elements: u32,
    sent: &[PackedToken],
) -> usize
    requires some { 0 < elements }
    requires count { length unposted.old.items ≡ elements }
    requires near { All (Fits elements unposted.old.items) sent.now }
    ensures few { result ≤ length sent.now }
    ensures keeps { KeepsTokens elements unposted.old.items unposted.new.items (take result sent.now) }
{
    for at in 0..sent.len() {
        let Ok(()) = keep(unposted, elements, &sent[at]) else {
            return at;
        };
    }
    sent.len()
}

/// Puts what the last block made for other elements into the bundles. After an error the others are not bundled.
pub fn fill_bundles<C: MainCode, A: Allocator, L: Log>(
    runner: &mut Runner<'_, C, A, L>,
    mesh: &NearMesh<A>,
    shape: &Shape<'_, C>,
) -> Result<(), AllocError>
    requires good { IsGoodSetting (setting_in C.program C.width shape.now) }
    requires runs { Runs L.KEEPS_EVENTS (setting_in C.program C.width shape.now) mesh.now runner.old }
    requires unbundled { runner.old.bundled ≡ 0 }
    ensures stays { StaysAt runner.old runner.new }
    ensures keeps { Keeps L.KEEPS_EVENTS (setting_in C.program C.width shape.now) mesh.now runner.old runner.new }
    ensures bundled { OnOk result ((runner.new.sent.items ≡ []) × (runner.new.bundled ≡ 0) × (runner.new.unqueued.tokens ≡ runner.old.unqueued.tokens)) }
    ensures lane { held_of runner.new.lane ≡ held_of runner.old.lane }
{
    let _ = mesh;
    runner.bundled = fill(&mut runner.unposted, shape.elements, &runner.sent);
    if runner.bundled < runner.sent.len() {
        return Err(AllocError);
    }
    runner.sent.clear();
    runner.bundled = 0;
    Ok(())
}

// Posts the bundle for an element. Where the box is full the bundle stays unposted.
fn post_bundle<C: MainCode, A: Allocator, L: Log>(
    runner: &mut Runner<'_, C, A, L>,
    mesh: &NearMesh<A>,
    shape: &Shape<'_, C>,
    empty: NearBundle<A>,
    to: u32,
)
    requires good { IsGoodSetting (setting_in C.program C.width shape.now) }
    requires runs { Runs L.KEEPS_EVENTS (setting_in C.program C.width shape.now) mesh.now runner.old }
    requires clear { IsClear runner.old }
    requires empty { empty ≡ record { tokens = []; bounds = bounds_of (setting_in C.program C.width shape.now) } }
    requires to { to < shape.now.elements }
    ensures stays { StaysAt runner.old runner.new }
    ensures keeps { Keeps L.KEEPS_EVENTS (setting_in C.program C.width shape.now) mesh.now runner.old runner.new }
    ensures clear { IsClear runner.new }
    ensures lane { held_of runner.new.lane ≡ held_of runner.old.lane }
{
    let _ = shape;
    let at = to as usize;
    let bundle = mem::replace(&mut runner.unposted[at], empty);
    if let Err(back) = mesh.post(&mut runner.seat, to, bundle) {
        let empty = mem::replace(&mut runner.unposted[at], back);
        keep_spare(&mut runner.spare, empty);
    }
}

// Offers the bundle for an element, if it has a token.
fn offer_to<C: MainCode, A: Allocator + Clone, L: Log>(
    runner: &mut Runner<'_, C, A, L>,
    mesh: &NearMesh<A>,
    shape: &Shape<'_, C>,
    to: u32,
) -> Result<(), AllocError>
    requires good { IsGoodSetting (setting_in C.program C.width shape.now) }
    requires runs { Runs L.KEEPS_EVENTS (setting_in C.program C.width shape.now) mesh.now runner.old }
    requires clear { IsClear runner.old }
    requires to { to < shape.now.elements }
    ensures stays { StaysAt runner.old runner.new }
    ensures keeps { Keeps L.KEEPS_EVENTS (setting_in C.program C.width shape.now) mesh.now runner.old runner.new }
    ensures clear { IsClear runner.new }
    ensures lane { held_of runner.new.lane ≡ held_of runner.old.lane }
{
    if runner.unposted[to as usize].is_empty() {
        return Ok(());
    }
    let empty = empty_bundle(&mut runner.spare, Reach::of(shape), &runner.alloc)?;
    post_bundle(runner, mesh, shape, empty, to);
    Ok(())
}

/// Offers all bundles that have a token.
pub fn offer_all<C: MainCode, A: Allocator + Clone, L: Log>(
    runner: &mut Runner<'_, C, A, L>,
    mesh: &NearMesh<A>,
    shape: &Shape<'_, C>,
) -> Result<(), AllocError>
    requires good { IsGoodSetting (setting_in C.program C.width shape.now) }
    requires runs { Runs L.KEEPS_EVENTS (setting_in C.program C.width shape.now) mesh.now runner.old }
    requires clear { IsClear runner.old }
    ensures stays { StaysAt runner.old runner.new }
    ensures keeps { Keeps L.KEEPS_EVENTS (setting_in C.program C.width shape.now) mesh.now runner.old runner.new }
    ensures clear { IsClear runner.new }
    ensures lane { held_of runner.new.lane ≡ held_of runner.old.lane }
{
    for to in 0..shape.elements {
        offer_to(runner, mesh, shape, to)?;
    }
    Ok(())
}
