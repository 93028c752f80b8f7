//! The mesh and its seats.
ghost use Rattle.std.specs.Prelude.{◌≡◌, ◌≢◌, ◌<◌, ◌≤◌, ◌+◌, ◌^◌, ◌==◌, [], length, ℕ, IfErr, IfSome, IfNone, OnOk, IsTrue};
ghost use Rattle.mesh.specs.declared.view.Deed.TheVariants.{FoundFull, FoundEmpty, Stopped, SawStop};
ghost use Rattle.mesh.specs.Deeds.{created, knows_reason, Says};
ghost use Rattle.mesh.specs.Seats.{AllTo, Has, Posts, Commits, Counts, noting, having_taken};

use crate::board::{Board, Place};
use crate::boxes::{post_at, take_at};
use crate::bundle::Bundle;
use crate::plays::Ask;
use crate::words::{commit_at, commit_by_at, live_at, stop_at, stopped_at};
use std::alloc::Allocator;
use std::marker::Model;
use tags::token::Token;

mod joining;
mod opening;

/// The boxes, the live word and the stop word that the seats of 1 to 16 elements share. A reference to it may go to any
/// number of threads. Contracts see which mesh it is, the number of its elements, and the tokens that it began with.
#[derive(Drop)]
pub struct Mesh<B: Bundle, A: Allocator> {
    board: Board<B, A>,
}

impl<B: Bundle, A: Allocator> Model for Mesh<B, A> {
    ghost use Rattle.mesh.specs.Seats.{MeshId, mesh_id};
    ghost use Rattle.mesh.specs.Places.{IsBuilt};

    ghost Value = { MeshId };

    ghost view = { λ m. mesh_id m.board.shared.table_id m.board.shared.key.elements m.board.shared.key.start.items };

    ghost invariant = { λ m. IsBuilt m.board.shared.table_id m.board.shared.key.elements };
}

/// One element's place at a mesh. Contracts see its mesh, the history of commits that it has seen, and the account of
/// its element: what it did and found, the tokens that it holds, and the history that it saw last.
#[derive(Drop)]
pub struct Seat<B: Bundle> {
    element: u32,
    place: Place<B>,
}

impl<B: Bundle> Model for Seat<B> {
    ghost use Rattle.mesh.specs.Seats.{SeatView, seat_view};
    ghost use Rattle.mesh.specs.Places.{IsReady};

    ghost Value = { SeatView };

    ghost view = { λ s. seat_view s.place.table_id s.place.me.0 };

    ghost invariant = { λ s. IsReady s.element s.place.me };
}

impl<B: Bundle, A: Allocator> Mesh<B, A> {
    /// Adds a commit to the history: the seat's element spent these tokens, and made those. The spent ones are at least
    /// one, addressed to the element, and held by the seat: a seat holds the start tokens for its element, what it made
    /// and what it took, less what it spent or posted. No seat makes more than 2^40 tokens.
    pub fn commit(&self, seat: &mut Seat<B>, spent: &[Token], made: &[Token])
        requires mesh { (seat.old.mesh ≡ self.now) × (seat.old.joined ≡ []) }
        requires some { 0 < length spent.now }
        requires address { AllTo self.now.elements seat.old.own.element spent.now }
        requires held { Has seat.old.own.held spent.now }
        requires few { created seat.old.own.deeds + length made.now ≤ 2 ^ 40 }
        ensures { Commits spent.now made.now seat.old seat.new }
    {
        commit_at(
            &self.board.shared,
            &mut seat.place,
            seat.element,
            spent,
            made,
        );
    }

    /// The same commit by counts alone: how many tokens the seat's element spent, and how many it made. Which they are, the
    /// call picks in its proof (`Ask`), so that no list of them need be in memory.
    pub fn commit_by<J: Ask>(&self, seat: &mut Seat<B>, spent: u64, made: u64)
        requires asked { (length J.spent ≡ spent) × (length J.made ≡ made) }
        requires mesh { (seat.old.mesh ≡ self.now) × (seat.old.joined ≡ []) }
        requires some { 0 < spent }
        requires address { AllTo self.now.elements seat.old.own.element J.spent }
        requires held { Has seat.old.own.held J.spent }
        requires few { created seat.old.own.deeds + made ≤ 2 ^ 40 }
        ensures { Commits J.spent J.made seat.old seat.new }
    {
        commit_by_at::<B, A, J>(
            &self.board.shared,
            &mut seat.place,
            seat.element,
            spent,
            made,
        );
    }

    /// Puts a bundle, of tokens for the element `to` that the seat holds, into the box to that element. Where the box was
    /// found full, the bundle is returned and nothing has changed except that the seat has looked.
    pub fn post(&self, seat: &mut Seat<B>, to: u32, bundle: B) -> Result<(), B>
        requires mesh { (seat.old.mesh ≡ self.now) × (seat.old.joined ≡ []) }
        requires to { to < self.now.elements }
        requires address { AllTo self.now.elements to (B.tokens bundle) }
        requires held { Has seat.old.own.held (B.tokens bundle) }
        ensures ok { OnOk result (Posts to (B.tokens bundle) seat.old seat.new) }
        ensures err { IfErr result (λ b. (b ≡ bundle) × (seat.new ≡ noting seat.old (FoundFull to (B.tokens bundle)))) }
    {
        post_at(
            &self.board.shared,
            &mut seat.place,
            seat.element,
            to,
            bundle,
        )
    }

    /// Takes the bundle out of the box from the element `from`: None where the box was found empty. The tokens of a
    /// bundle are addressed to the element that takes it.
    pub fn take(&self, seat: &mut Seat<B>, from: u32) -> Option<B>
        requires mesh { (seat.old.mesh ≡ self.now) × (seat.old.joined ≡ []) }
        requires from { from < self.now.elements }
        ensures some { IfSome result (λ b. (seat.new ≡ having_taken seat.old from (B.tokens b)) × AllTo self.now.elements seat.old.own.element (B.tokens b)) }
        ensures none { IfNone result (seat.new ≡ noting seat.old (FoundEmpty from)) }
    {
        take_at(&self.board.shared, &mut seat.place, seat.element, from)
    }

    /// How many tokens are live after a history that begins with all that the seat has seen. It is 0 only where the seat
    /// holds none.
    pub fn live(&self, seat: &mut Seat<B>) -> u64
        requires mesh { (seat.old.mesh ≡ self.now) × (seat.old.joined ≡ []) }
        ensures counts { Counts result seat.old seat.new }
        ensures held { length seat.old.own.held ≤ result }
    {
        live_at(&self.board.shared, &mut seat.place, seat.element)
    }

    /// Sets the reason to stop, which is not 0, where none was set. It is true where this call set it.
    pub fn stop(&self, seat: &mut Seat<B>, reason: u64) -> bool
        requires mesh { (seat.old.mesh ≡ self.now) × (seat.old.joined ≡ []) }
        requires reason { reason ≢ 0 }
        ensures found { (found : ℕ) × (seat.new ≡ noting seat.old (Stopped reason found)) × (result ≡ (found == 0)) }
        ensures one { (word : ℕ) × (word ≢ 0) × Says word seat.new.own.deeds }
    {
        stop_at(&self.board.shared, &mut seat.place, seat.element, reason) == 0
    }

    /// The reason to stop, or 0 where none was set. It is not 0 for a seat that has called `stop` or seen a reason.
    pub fn stopped(&self, seat: &mut Seat<B>) -> u64
        requires mesh { (seat.old.mesh ≡ self.now) × (seat.old.joined ≡ []) }
        ensures found { seat.new ≡ noting seat.old (SawStop result) }
        ensures one { Says result seat.new.own.deeds }
        ensures never { IsTrue (knows_reason seat.old.own.deeds) → result ≢ 0 }
    {
        stopped_at(&self.board.shared, &mut seat.place, seat.element)
    }
}
