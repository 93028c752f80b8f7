//! What an element does with a token for one of its cells.

ghost use Rattle.std.specs.Prelude.{◌≡◌, ◌+◌, ◌%◌, ◌<◌, ◌≤◌, ◌^◌, [], ◌++◌, length, vec_len};
ghost use Rattle.std.specs.Vec.{vec_capacity};
ghost use Rattle.tags.specs.declared.token.To.{To};
ghost use Rattle.element.specs.Holding.{held_in, part_of, shape_of, elsewhere, queued, cleared, IsSoundLane};
ghost use Rattle.semantics.specs.Machine.{answers};
ghost use Rattle.element.specs.Parts.{bounds};
ghost use Rattle.semantics.specs.Program.{Program};
ghost use Rattle.element.specs.Near.{IsNearToken};
ghost use Rattle.element.specs.Acts.{ActsAs};
ghost use Rattle.element.specs.Changed.{OwnsCell};

use super::Contents;
use crate::firing::answer;
use crate::lane::Stepped;
use istructure::{FetchAnswer, StoreAnswer};
use packed::token::PackedToken;
use std::alloc::Allocator;
use tags::token::{Token, Word};
use tags::value::Value;

impl<'m, A: Allocator> Contents<'m, A> {
    pub(super) fn at_fetch(
        &mut self,
        at: usize,
        token: Token,
        cell: u32,
        sent: &mut Vec<PackedToken, A>,
    ) -> Stepped
    where
        A: Clone,
        requires some { 0 < self.old.elements }
        requires here { cell % self.old.elements ≡ self.old.element }
        requires there { at < length self.old.queue.items }
        requires few { self.old.queue.gone < 2 ^ 63 }
        requires address { token.to ≡ To.Fetch cell }
        requires own { OwnsCell (part_of self.old) cell }
        ensures { (p : Program) → IsSoundLane p (held_in self.old) → IsNearToken (bounds p (shape_of self.old)) token
            → ActsAs p (held_in self.old) at token sent.old.items result (held_in self.new) sent.new.items }
    {
        let Word::Back(cont) = token.word else {
            return Stepped::Stuck { rule: 4 };
        };
        if self.make_room(1, sent).is_err() {
            return Stepped::Memory;
        }
        match self.cells.fetch(cell, cont) {
            FetchAnswer::Now(value) => {
                self.take(at);
                self.send(answer(cont, Word::Val(value)), sent);
                Stepped::Did
            }
            FetchAnswer::Deferred => {
                self.take(at);
                Stepped::Did
            }
            FetchAnswer::Memory => Stepped::Memory,
            FetchAnswer::NotHere => unreachable!(),
        }
    }

    pub(super) fn at_store(
        &mut self,
        at: usize,
        token: Token,
        cell: u32,
        value: &Value,
        sent: &mut Vec<PackedToken, A>,
    ) -> Stepped
    where
        A: Clone,
        requires some { 0 < self.old.elements }
        requires here { cell % self.old.elements ≡ self.old.element }
        requires there { at < length self.old.queue.items }
        requires few { self.old.queue.gone < 2 ^ 63 }
        requires address { token.to ≡ To.Store cell value.now }
        requires own { OwnsCell (part_of self.old) cell }
        requires answered { self.old.answered.items ≡ [] }
        ensures { (p : Program) → IsSoundLane p (held_in self.old) → IsNearToken (bounds p (shape_of self.old)) token
            → ActsAs p (held_in self.old) at token sent.old.items result (held_in self.new) sent.new.items }
    {
        let Word::Back(cont) = token.word else {
            return Stepped::Stuck { rule: 4 };
        };
        let Some(answers) = self.cells.readers(cell).checked_add(1) else {
            return Stepped::Memory;
        };
        if self.make_room(answers, sent).is_err() {
            return Stepped::Memory;
        }
        match self.cells.store(cell, *value, &mut self.answered) {
            StoreAnswer::Stored => {
                self.take(at);
                self.answer_all(value, sent);
                self.send(answer(cont, Word::Val(*value)), sent);
                Stepped::Did
            }
            StoreAnswer::Second => Stepped::Clash { cell },
            StoreAnswer::Memory => Stepped::Memory,
            StoreAnswer::NotHere => unreachable!(),
        }
    }

    // Sends a value to each reader that is listed, in order, and clears the list.
    fn answer_all(&mut self, value: &Value, sent: &mut Vec<PackedToken, A>)
        requires some { 0 < self.old.elements }
        requires room { length self.old.queue.items + vec_len self.old.answered + 1 ≤ self.old.queue.room }
        requires sent_room { vec_len sent.old + vec_len self.old.answered + 1 ≤ vec_capacity sent.old }
        ensures held { held_in self.new ≡ cleared (queued (held_in self.old) (answers self.old.answered.items value.now)) }
        ensures sent { sent.new.items ≡ sent.old.items ++ elsewhere (shape_of self.old) (answers self.old.answered.items value.now) }
        ensures room { length self.new.queue.items < self.new.queue.room }
        ensures sent_room { vec_len sent.new < vec_capacity sent.new }
    {
        for k in 0..self.answered.len() {
            let reader = self.answered[k];
            self.send(answer(reader, Word::Val(*value)), sent);
        }
        self.answered.clear();
    }
}
