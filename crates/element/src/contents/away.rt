//! What an element does at once with tokens that go to no instruction.

ghost use Rattle.std.specs.Prelude.{◌≡◌, ◌==◌, ◌+◌, ◌%◌, ◌<◌, ◌≤◌, ◌^◌, true, false, [], ◌∷◌, ◌++◌, length, IsSome, vec_len};
ghost use Rattle.std.specs.Vec.{vec_capacity};
ghost use Rattle.tags.specs.declared.token.To.{To};
ghost use Rattle.semantics.specs.Rule as Rule;
ghost use Rattle.semantics.specs.Program.{Program};
ghost use Rattle.element.specs.Holding.{held_in, part_of, shape_of, elsewhere, queued, taken, IsSoundLane};
ghost use Rattle.element.specs.Parts.{bounds};
ghost use Rattle.element.specs.Near.{IsNearToken};
ghost use Rattle.element.specs.Acts.{CanAct, ActsAs};
ghost use Rattle.element.specs.Changed.{OwnsCell};
ghost use Rattle.element.specs.Requests.{is_for_manager};
ghost use Rattle.element.specs.declared.lane.Stepped.TheVariants.{Did};

use super::Contents;
use super::requests::{release, request_within};
use crate::company::Company;
use crate::firing::answer;
use crate::instructions::Instructions;
use istructure::{FetchAnswer, StoreAnswer};
use packed::token::PackedToken;
use std::alloc::Allocator;
use tags::token::{Cont, FrameId, To, Word};
use tags::value::Value;

impl<'m, A: Allocator> Contents<'m, A> {
    // The same as `acts_away`. What has to lie in memory to go out of line, a copy of the token, is made here. A request that is held back
    // does not go there.
    #[inline(always)]
    pub(super) fn acts_elsewhere<C: Instructions, T: Company>(
        &mut self,
        code: &C,
        at: usize,
        token: &PackedToken,
        sent: &mut Vec<PackedToken, A>,
    ) -> bool
    where
        A: Clone,
        requires known { 0 < T.COUNT → self.old.elements ≡ T.COUNT }
        requires can { CanAct (C.program code.now) (C.width code.now) (held_in self.old) at token.now }
        requires spare { length self.old.queue.items + 3 ≤ self.old.queue.room }
        requires sent_spare { (T.COUNT == 1) ≡ false → vec_len sent.old + 2 ≤ vec_capacity sent.old }
        ensures did { result ≡ true → ActsAs (C.program code.now) (held_in self.old) at token.now sent.old.items Did (held_in self.new) sent.new.items }
        ensures not { result ≡ false → held_in self.new ≡ held_in self.old }
        ensures unsent { result ≡ false → sent.new.items ≡ sent.old.items }
        ensures held { T.HOLDS ≡ true → result ≡ true → is_for_manager token.now.to ≡ false }
        ensures len { length self.new.queue.items ≤ length self.old.queue.items + 2 }
        ensures capacity { self.new.queue.room ≡ self.old.queue.room }
        ensures sent_len { vec_len sent.new ≤ vec_len sent.old + 2 }
        ensures sent_capacity { vec_capacity sent.new ≡ vec_capacity sent.old }
    {
        if T::HOLDS && matches!(token.to(), To::Manager) {
            return false;
        }
        let again = *token;
        self.acts_away::<C, T>(code, at, again, sent)
    }

    // What a token that goes to no instruction does at once, and whether it does. Else nothing is changed.
    #[inline(never)]
    fn acts_away<C: Instructions, T: Company>(
        &mut self,
        _code: &C,
        at: usize,
        token: PackedToken,
        sent: &mut Vec<PackedToken, A>,
    ) -> bool
    where
        A: Clone,
        requires known { 0 < T.COUNT → self.old.elements ≡ T.COUNT }
        requires can { CanAct (C.program _code.now) (C.width _code.now) (held_in self.old) at token }
        requires spare { length self.old.queue.items + 3 ≤ self.old.queue.room }
        requires sent_spare { (T.COUNT == 1) ≡ false → vec_len sent.old + 2 ≤ vec_capacity sent.old }
        ensures did { result ≡ true → ActsAs (C.program _code.now) (held_in self.old) at token sent.old.items Did (held_in self.new) sent.new.items }
        ensures not { result ≡ false → held_in self.new ≡ held_in self.old }
        ensures unsent { result ≡ false → sent.new.items ≡ sent.old.items }
        ensures held { T.HOLDS ≡ true → result ≡ true → is_for_manager token.to ≡ false }
        ensures len { length self.new.queue.items ≤ length self.old.queue.items + 2 }
        ensures capacity { self.new.queue.room ≡ self.old.queue.room }
        ensures sent_len { vec_len sent.new ≤ vec_len sent.old + 2 }
        ensures sent_capacity { vec_capacity sent.new ≡ vec_capacity sent.old }
    {
        match token.to() {
            To::Fetch { cell } => self.fetches::<T>(at, &token, cell, sent),
            To::Store { cell, value } => self.stores::<T>(at, &token, cell, &value, sent),
            To::Manager => self.grants_unheld::<T>(at, &token, sent),
            To::Release { frame } => self.frees::<T>(at, &token, frame, sent),
            _ => false,
        }
    }

    // A token for a cell that reads it. Where the reader waits and there is no room for it, it is not done at once.
    #[inline(always)]
    fn fetches<T: Company>(
        &mut self,
        at: usize,
        token: &PackedToken,
        cell: u32,
        sent: &mut Vec<PackedToken, A>,
    ) -> bool
    where
        A: Clone,
        requires known { 0 < T.COUNT → self.old.elements ≡ T.COUNT }
        requires some { self.old.element < self.old.elements }
        requires here { cell % self.old.elements ≡ self.old.element }
        requires there { at < length self.old.queue.items }
        requires few { self.old.queue.gone < 2 ^ 63 }
        requires address { token.now.to ≡ To.Fetch cell }
        requires own { OwnsCell (part_of self.old) cell }
        requires spare { length self.old.queue.items + 3 ≤ self.old.queue.room }
        requires sent_spare { (T.COUNT == 1) ≡ false → vec_len sent.old + 2 ≤ vec_capacity sent.old }
        ensures did { result ≡ true → (p : Program) → IsSoundLane p (held_in self.old)
            → IsNearToken (bounds p (shape_of self.old)) token.now → ActsAs p (held_in self.old) at token.now sent.old.items Did (held_in self.new) sent.new.items }
        ensures not { result ≡ false → held_in self.new ≡ held_in self.old }
        ensures unsent { result ≡ false → sent.new.items ≡ sent.old.items }
        ensures len { length self.new.queue.items ≤ length self.old.queue.items + 2 }
        ensures capacity { self.new.queue.room ≡ self.old.queue.room }
        ensures sent_len { vec_len sent.new ≤ vec_len sent.old + 2 }
        ensures sent_capacity { vec_capacity sent.new ≡ vec_capacity sent.old }
    {
        let Word::Back(cont) = token.word().unpack() else {
            return false;
        };
        match self.cells.fetch_within(cell, cont) {
            FetchAnswer::Now(value) => self.answers::<T>(at, cont, Word::Val(value), sent),
            FetchAnswer::Deferred => self.is_taken(at),
            FetchAnswer::Memory => false,
            FetchAnswer::NotHere => unreachable!(),
        }
    }

    // A token for a cell that fills it, where no reader waits.
    #[inline(always)]
    fn stores<T: Company>(
        &mut self,
        at: usize,
        token: &PackedToken,
        cell: u32,
        value: &Value,
        sent: &mut Vec<PackedToken, A>,
    ) -> bool
    where
        A: Clone,
        requires known { 0 < T.COUNT → self.old.elements ≡ T.COUNT }
        requires some { self.old.element < self.old.elements }
        requires here { cell % self.old.elements ≡ self.old.element }
        requires there { at < length self.old.queue.items }
        requires few { self.old.queue.gone < 2 ^ 63 }
        requires address { token.now.to ≡ To.Store cell value.now }
        requires own { OwnsCell (part_of self.old) cell }
        requires answered { self.old.answered.items ≡ [] }
        requires spare { length self.old.queue.items + 3 ≤ self.old.queue.room }
        requires sent_spare { (T.COUNT == 1) ≡ false → vec_len sent.old + 2 ≤ vec_capacity sent.old }
        ensures did { result ≡ true → (p : Program) → IsSoundLane p (held_in self.old)
            → IsNearToken (bounds p (shape_of self.old)) token.now → ActsAs p (held_in self.old) at token.now sent.old.items Did (held_in self.new) sent.new.items }
        ensures not { result ≡ false → held_in self.new ≡ held_in self.old }
        ensures unsent { result ≡ false → sent.new.items ≡ sent.old.items }
        ensures len { length self.new.queue.items ≤ length self.old.queue.items + 2 }
        ensures capacity { self.new.queue.room ≡ self.old.queue.room }
        ensures sent_len { vec_len sent.new ≤ vec_len sent.old + 2 }
        ensures sent_capacity { vec_capacity sent.new ≡ vec_capacity sent.old }
    {
        let Word::Back(cont) = token.word().unpack() else {
            return false;
        };
        if self.cells.readers(cell) != 0 {
            return false;
        }
        match self.cells.store(cell, *value, &mut self.answered) {
            StoreAnswer::Stored => self.answers::<T>(at, cont, Word::Val(*value), sent),
            StoreAnswer::Second | StoreAnswer::Memory => false,
            StoreAnswer::NotHere => unreachable!(),
        }
    }

    // A request for a frame, which is not done where requests are held back.
    #[inline(always)]
    fn grants_unheld<T: Company>(
        &mut self,
        at: usize,
        token: &PackedToken,
        sent: &mut Vec<PackedToken, A>,
    ) -> bool
        requires known { 0 < T.COUNT → self.old.elements ≡ T.COUNT }
        requires some { self.old.element < self.old.elements }
        requires there { at < length self.old.queue.items }
        requires few { self.old.queue.gone < 2 ^ 63 }
        requires address { token.now.to ≡ To.Manager }
        requires served { self.old.element ≡ 0 }
        requires manager { IsSome self.old.manager }
        requires spare { length self.old.queue.items + 3 ≤ self.old.queue.room }
        requires sent_spare { (T.COUNT == 1) ≡ false → vec_len sent.old + 2 ≤ vec_capacity sent.old }
        ensures did { result ≡ true → (p : Program) → IsSoundLane p (held_in self.old)
            → IsNearToken (bounds p (shape_of self.old)) token.now → ActsAs p (held_in self.old) at token.now sent.old.items Did (held_in self.new) sent.new.items }
        ensures not { result ≡ false → held_in self.new ≡ held_in self.old }
        ensures unsent { result ≡ false → sent.new.items ≡ sent.old.items }
        ensures len { length self.new.queue.items ≤ length self.old.queue.items + 2 }
        ensures capacity { self.new.queue.room ≡ self.old.queue.room }
        ensures sent_len { vec_len sent.new ≤ vec_len sent.old + 2 }
        ensures sent_capacity { vec_capacity sent.new ≡ vec_capacity sent.old }
        ensures held { T.HOLDS ≡ true → result ≡ false }
    {
        if T::HOLDS {
            return false;
        }
        self.grants::<T>(at, token, sent)
    }

    // A request for a frame. Where it waits and there is no room for it, it is not done at once.
    #[inline(always)]
    fn grants<T: Company>(
        &mut self,
        at: usize,
        token: &PackedToken,
        sent: &mut Vec<PackedToken, A>,
    ) -> bool
        requires known { 0 < T.COUNT → self.old.elements ≡ T.COUNT }
        requires some { self.old.element < self.old.elements }
        requires there { at < length self.old.queue.items }
        requires few { self.old.queue.gone < 2 ^ 63 }
        requires address { token.now.to ≡ To.Manager }
        requires served { self.old.element ≡ 0 }
        requires manager { IsSome self.old.manager }
        requires spare { length self.old.queue.items + 3 ≤ self.old.queue.room }
        requires sent_spare { (T.COUNT == 1) ≡ false → vec_len sent.old + 2 ≤ vec_capacity sent.old }
        ensures did { result ≡ true → (p : Program) → IsSoundLane p (held_in self.old)
            → IsNearToken (bounds p (shape_of self.old)) token.now → ActsAs p (held_in self.old) at token.now sent.old.items Did (held_in self.new) sent.new.items }
        ensures not { result ≡ false → held_in self.new ≡ held_in self.old }
        ensures unsent { result ≡ false → sent.new.items ≡ sent.old.items }
        ensures len { length self.new.queue.items ≤ length self.old.queue.items + 2 }
        ensures capacity { self.new.queue.room ≡ self.old.queue.room }
        ensures sent_len { vec_len sent.new ≤ vec_len sent.old + 2 }
        ensures sent_capacity { vec_capacity sent.new ≡ vec_capacity sent.old }
    {
        let Word::Back(cont) = token.word().unpack() else {
            return false;
        };
        match request_within(&mut self.manager, cont) {
            Ok(Some(frame)) => self.answers::<T>(at, cont, Word::Frame(frame), sent),
            Ok(None) => self.is_taken(at),
            Err(_) => false,
        }
    }

    // The release of a frame.
    #[inline(always)]
    fn frees<T: Company>(
        &mut self,
        at: usize,
        _token: &PackedToken,
        frame: FrameId,
        sent: &mut Vec<PackedToken, A>,
    ) -> bool
        requires known { 0 < T.COUNT → self.old.elements ≡ T.COUNT }
        requires some { self.old.element < self.old.elements }
        requires there { at < length self.old.queue.items }
        requires few { self.old.queue.gone < 2 ^ 63 }
        requires address { _token.now.to ≡ To.Release frame }
        requires served { self.old.element ≡ 0 }
        requires manager { IsSome self.old.manager }
        requires spare { length self.old.queue.items + 3 ≤ self.old.queue.room }
        requires sent_spare { (T.COUNT == 1) ≡ false → vec_len sent.old + 2 ≤ vec_capacity sent.old }
        ensures did { result ≡ true → (p : Program) → IsSoundLane p (held_in self.old)
            → ActsAs p (held_in self.old) at _token.now sent.old.items Did (held_in self.new) sent.new.items }
        ensures not { result ≡ false → held_in self.new ≡ held_in self.old }
        ensures unsent { result ≡ false → sent.new.items ≡ sent.old.items }
        ensures len { length self.new.queue.items ≤ length self.old.queue.items + 2 }
        ensures capacity { self.new.queue.room ≡ self.old.queue.room }
        ensures sent_len { vec_len sent.new ≤ vec_len sent.old + 2 }
        ensures sent_capacity { vec_capacity sent.new ≡ vec_capacity sent.old }
    {
        match release(&mut self.manager, frame) {
            Ok(Some((cont, frame))) => self.answers::<T>(at, cont, Word::Frame(frame), sent),
            Ok(None) => self.is_taken(at),
            Err(_) => false,
        }
    }

    // The token is taken out, and a word goes to a continuation.
    #[inline(always)]
    fn answers<T: Company>(
        &mut self,
        at: usize,
        cont: Cont,
        word: Word,
        sent: &mut Vec<PackedToken, A>,
    ) -> bool
        requires known { 0 < T.COUNT → self.old.elements ≡ T.COUNT }
        requires some { self.old.element < self.old.elements }
        requires there { at < length self.old.queue.items }
        requires few { self.old.queue.gone < 2 ^ 63 }
        requires spare { length self.old.queue.items + 3 ≤ self.old.queue.room }
        requires sent_spare { (T.COUNT == 1) ≡ false → vec_len sent.old + 2 ≤ vec_capacity sent.old }
        ensures held { held_in self.new ≡ queued (taken (held_in self.old) at) (Rule.token (Rule.back_to cont) word ∷ []) }
        ensures sent { sent.new.items ≡ sent.old.items ++ elsewhere (shape_of self.old) (Rule.token (Rule.back_to cont) word ∷ []) }
        ensures did { result ≡ true }
        ensures len { length self.new.queue.items ≤ length self.old.queue.items + 2 }
        ensures capacity { self.new.queue.room ≡ self.old.queue.room }
        ensures sent_len { vec_len sent.new ≤ vec_len sent.old + 2 }
        ensures sent_capacity { vec_capacity sent.new ≡ vec_capacity sent.old }
    {
        self.take(at);
        self.send_packed::<T>(PackedToken::pack(answer(cont, word)), sent);
        true
    }

    // The token is taken out, and nothing is made.
    #[inline(always)]
    fn is_taken(&mut self, at: usize) -> bool
        requires there { at < length self.old.queue.items }
        requires few { self.old.queue.gone < 2 ^ 63 }
        ensures held { held_in self.new ≡ taken (held_in self.old) at }
        ensures did { result ≡ true }
        ensures len { length self.new.queue.items ≤ length self.old.queue.items + 2 }
        ensures capacity { self.new.queue.room ≡ self.old.queue.room }
    {
        self.take(at);
        true
    }
}
