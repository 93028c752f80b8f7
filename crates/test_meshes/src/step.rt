//! Calls of the mesh, by a seat that is known to hold certain tokens. `rest` names the tokens that it keeps.
ghost use Rattle.std.specs.Prelude.{◌≡◌, ◌<◌, ◌≤◌, ◌+◌, ◌^◌, ◌++◌, [], length, IfSome, IfNone, OnOk, IfErr};
ghost use Rattle.mesh.specs.Deeds.{created};
ghost use Rattle.mesh.specs.Seats.{AllTo, Has, Commits};
ghost use Rattle.test_meshes.specs.Playing.{Holds};

use mesh::{Ask, Mesh, Seat};
use std::alloc::Allocator;
use std::marker::Brand;
use tags::token::Token;

/// A commit by counts: the mesh gets no list.
fn commit_counts<A: Allocator, J: Ask>(
    mesh: &Mesh<Vec<Token, A>, A>,
    seat: &mut Seat<Vec<Token, A>>,
    spent: &[Token],
    made: &[Token],
)
    requires asked { (J.spent ≡ spent.now) × (J.made ≡ made.now) }
    requires mesh { (seat.old.mesh ≡ mesh.now) × (seat.old.joined ≡ []) }
    requires some { 0 < length spent.now }
    requires address { AllTo mesh.now.elements seat.old.own.element spent.now }
    requires held { Has seat.old.own.held spent.now }
    requires few { created seat.old.own.deeds + length made.now ≤ 2 ^ 40 }
    ensures { Commits spent.now made.now seat.old seat.new }
{
    mesh.commit_by::<J>(seat, spent.len() as u64, made.len() as u64);
}

pub fn commit<A: Allocator>(
    mesh: &Mesh<Vec<Token, A>, A>,
    seat: &mut Seat<Vec<Token, A>>,
    spent: &[Token],
    made: &[Token],
    rest: &[Token],
)
    requires some { 0 < length spent.now }
    requires address { AllTo mesh.now.elements seat.old.own.element spent.now }
    requires holds { Holds mesh.now seat.old (spent.now ++ rest.now) }
    requires few { created seat.old.own.deeds + length made.now ≤ 2 ^ 40 }
    ensures element { seat.new.own.element ≡ seat.old.own.element }
    ensures holds { Holds mesh.now seat.new (made.now ++ rest.now) }
    ensures made { created seat.new.own.deeds ≡ created seat.old.own.deeds + length made.now }
{
    let _ = rest;
    commit_counts::<A, Brand>(mesh, seat, spent, made);
}

pub fn post<A: Allocator>(
    mesh: &Mesh<Vec<Token, A>, A>,
    seat: &mut Seat<Vec<Token, A>>,
    to: u32,
    bundle: Vec<Token, A>,
    rest: &[Token],
) -> Result<(), Vec<Token, A>>
    requires to { to < mesh.now.elements }
    requires address { AllTo mesh.now.elements to bundle.items }
    requires holds { Holds mesh.now seat.old (bundle.items ++ rest.now) }
    ensures element { (seat.new.own.element ≡ seat.old.own.element) × (created seat.new.own.deeds ≡ created seat.old.own.deeds) }
    ensures ok { OnOk result (Holds mesh.now seat.new rest.now) }
    ensures err { IfErr result (λ b. (b ≡ bundle) × Holds mesh.now seat.new (bundle.items ++ rest.now)) }
{
    let _ = rest;
    match mesh.post(seat, to, bundle) {
        Ok(()) => Ok(()),
        Err(back) => Err(back),
    }
}

pub fn take<A: Allocator>(
    mesh: &Mesh<Vec<Token, A>, A>,
    seat: &mut Seat<Vec<Token, A>>,
    from: u32,
    rest: &[Token],
) -> Option<Vec<Token, A>>
    requires from { from < mesh.now.elements }
    requires holds { Holds mesh.now seat.old rest.now }
    ensures element { (seat.new.own.element ≡ seat.old.own.element) × (created seat.new.own.deeds ≡ created seat.old.own.deeds) }
    ensures some { IfSome result (λ b. Holds mesh.now seat.new (rest.now ++ b.items) × AllTo mesh.now.elements seat.old.own.element b.items) }
    ensures none { IfNone result (Holds mesh.now seat.new rest.now) }
{
    let _ = rest;
    match mesh.take(seat, from) {
        Some(bundle) => Some(bundle),
        None => None,
    }
}

pub fn live<A: Allocator>(
    mesh: &Mesh<Vec<Token, A>, A>,
    seat: &mut Seat<Vec<Token, A>>,
    rest: &[Token],
) -> u64
    requires holds { Holds mesh.now seat.old rest.now }
    ensures element { (seat.new.own.element ≡ seat.old.own.element) × (created seat.new.own.deeds ≡ created seat.old.own.deeds) }
    ensures holds { Holds mesh.now seat.new rest.now }
{
    let _ = rest;
    mesh.live(seat)
}
