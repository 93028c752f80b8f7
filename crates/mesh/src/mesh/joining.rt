//! All seats made one.
ghost use Rattle.std.specs.Prelude.{◌≡◌, ◌<◌, ◌≤◌, ◌++◌, length, map, ℕ};
ghost use Rattle.mesh.specs.Seats.{AreAll, AreAt, accounts, Leaves, HasCommits, Agree, Includes, IsFinal, OneStop};

use super::{Mesh, Seat};
use crate::board::LIVE;
use crate::bundle::Bundle;
use crate::plays::{Both, Settle};
use std::alloc::Allocator;

impl<B: Bundle, A: Allocator> Mesh<B, A> {
    /// Makes one seat of those of all elements, in the order of `new`. It has the account of each, and it has seen the
    /// whole history. It is there to be read by contracts: no other call takes it.
    pub fn join_seats(&self, seats: Vec<Seat<B>, A>) -> Seat<B>
        requires { AreAll self.now seats.items }
        ensures mesh { result.mesh ≡ self.now }
        ensures accounts { accounts result ≡ map (λ s. s.own) seats.items }
        ensures history { (count : ℕ) × Leaves result.mesh result.seen count }
        ensures commits { HasCommits result }
        ensures bundles { Agree result }
        ensures seen { Includes result }
        ensures no_more { IsFinal result }
        ensures stop { OneStop result }
    {
        let top = &self.board.shared;
        let mut all = self.joined(seats);
        top.load::<Settle>(&mut all.place, LIVE);
        all
    }

    fn joined(&self, mut seats: Vec<Seat<B>, A>) -> Seat<B>
        requires some { 0 < length seats.items }
        requires seats { AreAt self.now seats.items }
        ensures mesh { result.mesh ≡ self.now }
        ensures accounts { accounts result ≡ map (λ s. s.own) seats.items }
    {
        let Some(mut all) = seats.pop() else {
            unreachable!()
        };
        while let Some(mut seat) = seats.pop() {
            let Seat { place, element: _ } = all;
            self.board.shared.join_seat::<Both>(&mut seat.place, place);
            all = seat;
        }
        all
    }
}
