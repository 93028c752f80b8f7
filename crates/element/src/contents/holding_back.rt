//! Events of the only element, which holds requests for frames back: they are put aside while it takes other tokens.

ghost use Rattle.std.specs.Prelude.{◌≡◌, ℕ, ◌+◌, ◌*◌, ◌<◌, ◌≤◌, ◌^◌, true, false, [], ◌∷◌, length, remove, vec_len};
ghost use Rattle.std.specs.Vec.{vec_capacity};
ghost use Rattle.semantics.specs.Program.{Program};
ghost use Rattle.element.specs.Holding.{held_in, shape_of, taken, IsSoundLane};
ghost use Rattle.element.specs.Requests.{asks_first};
ghost use Rattle.element.specs.Steps.{Does};
ghost use Rattle.element.specs.ByDepth.{TakesByDepth, MakesByDepth, whole, offered, AreAside};

use super::Contents;
use crate::company::{Alone, AloneByDepth};
use crate::grant_order::GrantOrder;
use crate::instructions::Instructions;
use packed::token::PackedToken;
use std::alloc::Allocator;
use tags::token::{FrameId, To, Word};

/// From how many tokens on that were taken out no request is put aside.
const LONG: usize = 4_611_686_018_427_387_904;

// Takes the token in that place out. One that is last, or last but one, goes by one move.
#[inline(always)]
fn take_out<A: Allocator>(tokens: &mut Vec<PackedToken, A>, at: usize)
    requires { at < vec_len tokens.old }
    ensures items { tokens.new.items ≡ remove tokens.old.items at }
    ensures len { vec_len tokens.new + 1 ≡ vec_len tokens.old }
    ensures capacity { vec_capacity tokens.new ≡ vec_capacity tokens.old }
{
    if tokens.len() - at <= 2 {
        tokens.swap_remove(at);
    } else {
        tokens.remove(at);
    }
}

impl<'m, A: Allocator> Contents<'m, A> {
    // Whether the oldest token asks for a frame.
    fn asks(&self) -> bool
        requires { 0 < length self.now.queue.items }
        ensures { result ≡ asks_first self.now.queue.items }
    {
        matches!(self.queue.packed(0).to(), To::Manager)
    }

    // Puts the oldest token aside.
    #[inline(never)]
    fn hold(&mut self, order: &mut GrantOrder<A>, aside: &mut Vec<PackedToken, A>)
        requires some { 0 < length self.old.queue.items }
        requires few { self.old.queue.gone < 2 ^ 63 }
        requires asks { asks_first self.old.queue.items ≡ true }
        requires room { vec_len aside.old < vec_capacity aside.old }
        ensures whole { whole aside.new.items (held_in self.new) ≡ whole aside.old.items (held_in self.old) }
        ensures are { (p : Program) → AreAside p aside.old.items (held_in self.old) → AreAside p aside.new.items (held_in self.new) }
        ensures shape { shape_of self.new ≡ shape_of self.old }
        ensures len { length self.new.queue.items + 1 ≡ length self.old.queue.items }
        ensures aside { vec_len aside.new ≡ vec_len aside.old + 1 }
        ensures room { self.new.queue.room ≡ self.old.queue.room }
        ensures gone { self.new.queue.gone ≡ self.old.queue.gone + 1 }
        ensures capacity { vec_capacity aside.new ≡ vec_capacity aside.old }
    {
        let token = self.queue.packed(0);
        order.hold(&token);
        aside.push_reserved(token);
        self.take(0);
    }

    // The frame that the oldest token brings, if it brings one.
    #[inline(always)]
    fn given(&self) -> Option<FrameId> {
        if self.queue.len() == 0 {
            return None;
        }
        match self.queue.packed(0).word().unpack() {
            Word::Frame(frame) => Some(frame),
            _ => None,
        }
    }

    // Puts a token that was put aside first again.
    fn offer(&mut self, token: PackedToken)
        requires room { length self.old.queue.items < self.old.queue.room }
        requires some { 0 < self.old.queue.gone }
        ensures held { held_in self.new ≡ offered token (held_in self.old) }
        ensures room { self.new.queue.room ≡ self.old.queue.room }
    {
        self.queue.put_back(token);
    }

    // Puts the tokens that were put aside first again.
    fn put_back(&mut self, aside: &mut Vec<PackedToken, A>)
        requires room { length self.old.queue.items + vec_len aside.old ≤ self.old.queue.room }
        requires gone { vec_len aside.old ≤ self.old.queue.gone }
        ensures whole { held_in self.new ≡ whole aside.old.items (held_in self.old) }
        ensures none { aside.new.items ≡ [] }
    {
        'tokens: while let Some(token) = aside.pop() {
            self.offer(token);
        }
    }

    // Grants the request that is the first in order, where no other token is left, and answers whether it did. Else nothing is changed.
    #[inline(never)]
    fn grants_first<C: Instructions>(
        &mut self,
        code: &C,
        order: &mut GrantOrder<A>,
        aside: &mut Vec<PackedToken, A>,
        sent: &mut Vec<PackedToken, A>,
    ) -> bool
    where
        A: Clone,
        requires one { self.old.elements ≡ 1 }
        requires none { self.old.queue.items ≡ [] }
        requires some { 0 < vec_len aside.old }
        requires are { AreAside (C.program code.now) aside.old.items (held_in self.old) }
        requires width { C.width code.now ≤ self.old.bank.width }
        requires few { self.old.queue.gone < 2 ^ 63 }
        requires spare { 4 ≤ self.old.queue.room }
        ensures did { result ≡ true → (pick : ℕ) × TakesByDepth (whole aside.old.items (held_in self.old)).queue pick
            × Does (C.program code.now) (whole aside.old.items (held_in self.old)) pick [] (whole aside.new.items (held_in self.new)) [] }
        ensures not { result ≡ false → held_in self.new ≡ held_in self.old }
        ensures same { result ≡ false → aside.new.items ≡ aside.old.items }
        ensures are { AreAside (C.program code.now) aside.new.items (held_in self.new) }
        ensures sent { sent.new.items ≡ sent.old.items }
        ensures gone { self.new.queue.gone ≡ self.old.queue.gone }
        ensures fewer { result ≡ true → vec_len aside.new + 1 ≡ vec_len aside.old }
        ensures len { length self.new.queue.items ≤ 3 }
        ensures room { self.new.queue.room ≡ self.old.queue.room }
        ensures capacity { vec_capacity aside.new ≡ vec_capacity aside.old }
        ensures shape { shape_of self.new ≡ shape_of self.old }
    {
        let at = order.best(aside);
        let request = aside[at];
        self.offer(request);
        if !self.acts_elsewhere::<C, Alone>(code, 0, &request, sent) {
            self.take(0);
            return false;
        }
        take_out(aside, at);
        order.grant(code, at, self.given());
        true
    }

    // Puts the oldest token aside where it asks for a frame, or grants a request where no other token is left, and answers whether it did
    // either. Else nothing is changed.
    #[inline(always)]
    fn goes_on<C: Instructions>(
        &mut self,
        code: &C,
        order: &mut GrantOrder<A>,
        aside: &mut Vec<PackedToken, A>,
        sent: &mut Vec<PackedToken, A>,
    ) -> bool
    where
        A: Clone,
        requires one { self.old.elements ≡ 1 }
        requires are { AreAside (C.program code.now) aside.old.items (held_in self.old) }
        requires width { C.width code.now ≤ self.old.bank.width }
        requires few { self.old.queue.gone < 2 ^ 63 }
        requires spare { length self.old.queue.items + vec_len aside.old + 3 ≤ self.old.queue.room }
        requires room { length self.old.queue.items + vec_len aside.old ≤ vec_capacity aside.old }
        requires short { vec_len aside.old ≤ 4611686018427387904 }
        ensures exact { (steps : ℕ) → self.old.queue.gone < steps + vec_len aside.old → (n : ℕ) × MakesByDepth (C.program code.now) steps n
            (whole aside.old.items (held_in self.old)) (whole aside.new.items (held_in self.new)) }
        ensures are { AreAside (C.program code.now) aside.new.items (held_in self.new) }
        ensures sent { sent.new.items ≡ sent.old.items }
        ensures most { self.new.queue.gone + vec_len aside.old ≤ self.old.queue.gone + vec_len aside.new + 1 }
        ensures least { self.old.queue.gone + vec_len aside.new ≤ self.new.queue.gone + vec_len aside.old }
        ensures len { length self.new.queue.items + vec_len aside.new + 2 * (self.old.queue.gone + vec_len aside.new)
            ≤ length self.old.queue.items + vec_len aside.old + 2 * (self.new.queue.gone + vec_len aside.old) }
        ensures fewer { result ≡ true → length self.new.queue.items + 4 * (self.old.queue.gone + vec_len aside.new)
            < length self.old.queue.items + 4 * (self.new.queue.gone + vec_len aside.old) }
        ensures same_room { self.new.queue.room ≡ self.old.queue.room }
        ensures short { vec_len aside.new ≤ 4611686018427387904 }
        ensures capacity { vec_capacity aside.new ≡ vec_capacity aside.old }
        ensures shape { shape_of self.new ≡ shape_of self.old }
    {
        if self.queue.len() == 0 {
            if aside.is_empty() {
                return false;
            }
            return self.grants_first(code, order, aside, sent);
        }
        if LONG <= self.queue.gone() {
            return false;
        }
        if !self.asks() {
            return false;
        }
        self.hold(order, aside);
        true
    }

    // Makes events up to the one that is the `end`-th, until a request is the oldest token, and then goes on. It answers whether it may go on
    // once more.
    #[inline(always)]
    fn makes_some<C: Instructions>(
        &mut self,
        code: &C,
        end: u64,
        order: &mut GrantOrder<A>,
        aside: &mut Vec<PackedToken, A>,
        sent: &mut Vec<PackedToken, A>,
    ) -> bool
    where
        A: Clone,
        requires one { self.old.elements ≡ 1 }
        requires are { AreAside (C.program code.now) aside.old.items (held_in self.old) }
        requires width { C.width code.now ≤ self.old.bank.width }
        requires end { self.old.queue.gone ≤ end + vec_len aside.old }
        requires few { end < 2 ^ 61 }
        requires short { vec_len aside.old ≤ 4611686018427387904 }
        requires room { length self.old.queue.items + vec_len aside.old + 2 * (end + vec_len aside.old) + 1 ≤ self.old.queue.room + 2 * self.old.queue.gone }
        requires aside_room { length self.old.queue.items + vec_len aside.old + 2 * (end + vec_len aside.old) ≤ vec_capacity aside.old
            + 2 * self.old.queue.gone }
        ensures exact { (steps : ℕ) → end ≤ steps → (n : ℕ) × MakesByDepth (C.program code.now) steps n (whole aside.old.items (held_in self.old))
            (whole aside.new.items (held_in self.new)) }
        ensures are { AreAside (C.program code.now) aside.new.items (held_in self.new) }
        ensures sent { sent.new.items ≡ sent.old.items }
        ensures end { self.new.queue.gone ≤ end + vec_len aside.new }
        ensures short { vec_len aside.new ≤ 4611686018427387904 }
        ensures room { length self.new.queue.items + vec_len aside.new + 2 * (end + vec_len aside.new) + 1 ≤ self.new.queue.room + 2 * self.new.queue.gone }
        ensures aside_room { length self.new.queue.items + vec_len aside.new + 2 * (end + vec_len aside.new) ≤ vec_capacity aside.new
            + 2 * self.new.queue.gone }
        ensures fewer { result ≡ true → length self.new.queue.items + 4 * (self.old.queue.gone + vec_len aside.new)
            < length self.old.queue.items + 4 * (self.new.queue.gone + vec_len aside.old) }
        ensures shape { shape_of self.new ≡ shape_of self.old }
    {
        let made = (self.queue.gone() - aside.len()) as u64;
        let left = end - made;
        if left == 0 {
            return false;
        }
        if self.make_among_few::<C, AloneByDepth>(code, left, sent) {
            return false;
        }
        self.goes_on(code, order, aside, sent)
    }

    // Makes events up to that one, as long as it may go on.
    #[inline(never)]
    fn makes_all<C: Instructions>(
        &mut self,
        code: &C,
        end: u64,
        order: &mut GrantOrder<A>,
        aside: &mut Vec<PackedToken, A>,
        sent: &mut Vec<PackedToken, A>,
    )
    where
        A: Clone,
        requires one { self.old.elements ≡ 1 }
        requires are { AreAside (C.program code.now) aside.old.items (held_in self.old) }
        requires width { C.width code.now ≤ self.old.bank.width }
        requires end { self.old.queue.gone ≤ end + vec_len aside.old }
        requires few { end < 2 ^ 61 }
        requires short { vec_len aside.old ≤ 4611686018427387904 }
        requires room { length self.old.queue.items + vec_len aside.old + 2 * (end + vec_len aside.old) + 1 ≤ self.old.queue.room + 2 * self.old.queue.gone }
        requires aside_room { length self.old.queue.items + vec_len aside.old + 2 * (end + vec_len aside.old) ≤ vec_capacity aside.old
            + 2 * self.old.queue.gone }
        ensures exact { (steps : ℕ) → end ≤ steps → (n : ℕ) × MakesByDepth (C.program code.now) steps n (whole aside.old.items (held_in self.old))
            (whole aside.new.items (held_in self.new)) }
        ensures are { AreAside (C.program code.now) aside.new.items (held_in self.new) }
        ensures sent { sent.new.items ≡ sent.old.items }
        ensures end { self.new.queue.gone ≤ end + vec_len aside.new }
        ensures short { vec_len aside.new ≤ 4611686018427387904 }
        ensures room { length self.new.queue.items + vec_len aside.new + 2 * (end + vec_len aside.new) + 1 ≤ self.new.queue.room + 2 * self.new.queue.gone }
        ensures aside_room { length self.new.queue.items + vec_len aside.new + 2 * (end + vec_len aside.new) ≤ vec_capacity aside.new
            + 2 * self.new.queue.gone }
        ensures shape { shape_of self.new ≡ shape_of self.old }
    {
        'turns: while self.makes_some(code, end, order, aside, sent) {}
    }

    /// The only element makes up to so many events, each at once: each with its oldest token that is no request for a frame, or with a request
    /// where it has no other token. It stops before a token that is not done at once. It puts requests aside while it does, where there was
    /// nothing before and is nothing then.
    pub fn make_by_depth<C: Instructions>(
        &mut self,
        code: &C,
        events: u64,
        order: &mut GrantOrder<A>,
        aside: &mut Vec<PackedToken, A>,
        sent: &mut Vec<PackedToken, A>,
    )
    where
        A: Clone,
        requires one { self.old.elements ≡ 1 }
        requires none { aside.old.items ≡ [] }
        requires sound { IsSoundLane (C.program code.now) (held_in self.old) }
        requires width { C.width code.now ≤ self.old.bank.width }
        requires few { self.old.queue.gone + events < 2 ^ 61 }
        requires room { length self.old.queue.items + 2 * events + 1 ≤ self.old.queue.room }
        requires aside_room { length self.old.queue.items + 2 * events ≤ vec_capacity aside.old }
        ensures exact { (steps : ℕ) → self.old.queue.gone + events ≤ steps → (n : ℕ) × MakesByDepth (C.program code.now) steps n (held_in self.old)
            (held_in self.new) }
        ensures sound { IsSoundLane (C.program code.now) (held_in self.new) }
        ensures shape { shape_of self.new ≡ shape_of self.old }
        ensures most { self.new.queue.gone ≤ self.old.queue.gone + events }
        ensures none { aside.new.items ≡ [] }
        ensures sent { sent.new.items ≡ sent.old.items }
    {
        let end = self.queue.gone() as u64 + events;
        self.makes_all(code, end, order, aside, sent);
        self.put_back(aside);
    }
}
