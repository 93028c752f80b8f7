//! Tokens are taken out of the queue, and sent: into the queue, or to other elements.

ghost use Rattle.std.specs.Prelude.{◌≡◌, ◌+◌, ◌*◌, ◌<◌, ◌≤◌, ◌^◌, ◌%◌, [], ◌∷◌, ◌++◌, ◌==◌, true, false, length, OnOk, IfOk, vec_len};
ghost use Rattle.std.specs.Vec.{vec_capacity};
ghost use Rattle.element.specs.Holding.{held_in, shape_of, elsewhere, queued, taken};
ghost use Rattle.tags.specs.Addresses.{element_of};
ghost use Rattle.tags.specs.declared.token.Port.{Port};
ghost use Rattle.tags.specs.declared.token.To.{To};
ghost use Rattle.element.specs.Fired.{point_of, tokens_of, outside_of, to_half};

use super::Contents;
use super::executing::PackedArrival;
use crate::bundled::{element_for, element_of_packed};
use crate::company::Company;
use crate::firing::{Made, Point, SIGNAL};
use crate::instructions::dest_in;
use packed::token::PackedToken;
use packed::word::PackedWord;
use std::alloc::{AllocError, Allocator};
use tags::token::{To, Token, Word};

/// For how many tokens room is made at once.
const ROOM: usize = 64;

/// And where requests for frames are put aside: they are put back whenever there is no more room.
const LONG_ROOM: usize = 2048;

impl<'m, A: Allocator> Contents<'m, A> {
    /// Makes room, and answers for how many events there is room: each takes a token out, and puts at most three in. After an
    /// error nothing is changed.
    #[inline(always)]
    pub fn ration(&mut self) -> Result<u64, AllocError>
        ensures held { held_in self.new ≡ held_in self.old }
        ensures some { IfOk result (λ events. 0 < events) }
        ensures room { IfOk result (λ events. length self.new.queue.items + 2 * events + 1 ≤ self.new.queue.room) }
    {
        self.queue.reserve(ROOM)?;
        let spare = self.queue.spare();
        Ok(((spare - 1) / 2) as u64)
    }

    /// As `ration`, with room for many events.
    #[inline(never)]
    pub fn long_ration(&mut self) -> Result<u64, AllocError>
        ensures held { held_in self.new ≡ held_in self.old }
        ensures some { IfOk result (λ events. 0 < events) }
        ensures room { IfOk result (λ events. length self.new.queue.items + 2 * events + 1 ≤ self.new.queue.room) }
    {
        self.queue.reserve(LONG_ROOM)?;
        let events = (self.queue.spare() - 1) / 2;
        Ok(events as u64)
    }

    // Makes room for `tokens` more tokens. After an error nothing is changed.
    #[inline(always)]
    pub(super) fn make_room(
        &mut self,
        tokens: usize,
        sent: &mut Vec<PackedToken, A>,
    ) -> Result<(), AllocError>
        ensures held { held_in self.new ≡ held_in self.old }
        ensures sent { sent.new.items ≡ sent.old.items }
        ensures room { OnOk result (length self.new.queue.items + tokens ≤ self.new.queue.room) }
        ensures sent_room { OnOk result (vec_len sent.new + tokens ≤ vec_capacity sent.new) }
    {
        self.queue.reserve(tokens)?;
        sent.reserve(tokens)
    }

    // Takes the token at `at` out of the queue.
    #[inline(always)]
    pub(super) fn take(&mut self, at: usize)
        requires there { at < length self.old.queue.items }
        requires few { self.old.queue.gone < 2 ^ 63 }
        ensures held { held_in self.new ≡ taken (held_in self.old) at }
        ensures len { length self.new.queue.items + 1 ≡ length self.old.queue.items }
        ensures capacity { self.new.queue.room ≡ self.old.queue.room }
    {
        if at == 0 {
            self.queue.pop_front();
        } else {
            self.queue.remove(at);
        }
    }

    // Whether this element takes tokens with this address.
    #[inline(always)]
    fn serves(&self, to: &To) -> bool
        requires some { 0 < self.now.elements }
        ensures { result ≡ (element_of self.now.elements to.now == self.now.element) }
    {
        element_for(to, self.elements) == self.element
    }

    // Puts a token last into the queue, or last among those for other elements.
    #[inline(always)]
    pub(super) fn send(&mut self, token: Token, sent: &mut Vec<PackedToken, A>)
        requires some { 0 < self.old.elements }
        requires room { length self.old.queue.items < self.old.queue.room }
        requires sent_room { vec_len sent.old < vec_capacity sent.old }
        ensures held { held_in self.new ≡ queued (held_in self.old) (token ∷ []) }
        ensures sent { sent.new.items ≡ sent.old.items ++ elsewhere (shape_of self.old) (token ∷ []) }
        ensures len { length self.new.queue.items ≤ length self.old.queue.items + 1 }
        ensures capacity { self.new.queue.room ≡ self.old.queue.room }
        ensures sent_len { vec_len sent.new ≤ vec_len sent.old + 1 }
        ensures sent_capacity { vec_capacity sent.new ≡ vec_capacity sent.old }
    {
        let serves = self.serves(&token.to);
        let token = PackedToken::pack(token);
        if serves {
            self.queue.push_packed(token);
        } else {
            sent.push_reserved(token);
        }
    }

    // Sends a word to the destination that a half word gives, if it gives one.
    #[inline(always)]
    pub(super) fn send_to(
        &mut self,
        point: Point,
        word: &Word,
        half: u32,
        sent: &mut Vec<PackedToken, A>,
    )
        requires some { 0 < self.old.elements }
        requires near { point.ip < 2 ^ 30 }
        requires room { length self.old.queue.items < self.old.queue.room }
        requires sent_room { vec_len sent.old < vec_capacity sent.old }
        ensures held { held_in self.new ≡ queued (held_in self.old) (to_half (point_of point) word.now half) }
        ensures sent { sent.new.items ≡ sent.old.items ++ elsewhere (shape_of self.old) (to_half (point_of point) word.now half) }
        ensures len { length self.new.queue.items ≤ length self.old.queue.items + 1 }
        ensures capacity { self.new.queue.room ≡ self.old.queue.room }
        ensures sent_len { vec_len sent.new ≤ vec_len sent.old + 1 }
        ensures sent_capacity { vec_capacity sent.new ≡ vec_capacity sent.old }
    {
        if let Some(dest) = dest_in(half) {
            let to = To::Instr {
                frame: point.frame,
                ip: point.ip + dest.ahead,
                port: dest.port,
            };
            self.send(Token { to, word: *word }, sent);
        }
    }

    // The same, where the frame lies on this element: so does the destination, and no token goes to another element.
    #[inline(always)]
    pub(super) fn send_near(&mut self, arrival: &PackedArrival, word: &PackedWord, half: u32)
        requires near { arrival.now.point.ip < 2 ^ 30 }
        requires address { (q : Port) × (arrival.now.token.to ≡ To.Instr arrival.now.point.frame arrival.now.point.ip q) }
        requires own { arrival.now.point.frame % self.old.elements ≡ self.old.element }
        requires room { length self.old.queue.items < self.old.queue.room }
        ensures held { held_in self.new ≡ queued (held_in self.old) (to_half (point_of arrival.now.point) word.now half) }
        ensures none { elsewhere (shape_of self.old) (to_half (point_of arrival.now.point) word.now half) ≡ [] }
        ensures len { length self.new.queue.items ≤ length self.old.queue.items + 1 }
        ensures capacity { self.new.queue.room ≡ self.old.queue.room }
    {
        if let Some(dest) = dest_in(half) {
            let token = arrival.token.onward(dest.ahead, dest.port, word);
            self.queue.push_packed(token);
        }
    }

    // Whether this element takes the packed token.
    #[inline(always)]
    fn keeps<T: Company>(&self, token: &PackedToken) -> bool
        requires known { 0 < T.COUNT → self.now.elements ≡ T.COUNT }
        requires there { self.now.element < self.now.elements }
        ensures own { result ≡ true → element_of self.now.elements token.now.to ≡ self.now.element }
        ensures other { result ≡ false → (element_of self.now.elements token.now.to == self.now.element) ≡ false }
        ensures together { result ≡ false → (T.COUNT == 1) ≡ false }
    {
        T::COUNT == 1 || element_of_packed(token, self.team::<T>()) == self.element
    }

    // Puts a packed token last into the queue, or last among those for other elements.
    #[inline(always)]
    pub(super) fn send_packed<T: Company>(
        &mut self,
        token: PackedToken,
        sent: &mut Vec<PackedToken, A>,
    )
        requires known { 0 < T.COUNT → self.old.elements ≡ T.COUNT }
        requires some { self.old.element < self.old.elements }
        requires room { length self.old.queue.items < self.old.queue.room }
        requires sent_room { (T.COUNT == 1) ≡ false → vec_len sent.old < vec_capacity sent.old }
        ensures held { held_in self.new ≡ queued (held_in self.old) (token ∷ []) }
        ensures sent { sent.new.items ≡ sent.old.items ++ elsewhere (shape_of self.old) (token ∷ []) }
        ensures len { length self.new.queue.items ≤ length self.old.queue.items + 1 }
        ensures capacity { self.new.queue.room ≡ self.old.queue.room }
        ensures sent_len { vec_len sent.new ≤ vec_len sent.old + 1 }
        ensures sent_capacity { vec_capacity sent.new ≡ vec_capacity sent.old }
    {
        if self.keeps::<T>(&token) {
            self.send_here(token);
        } else {
            sent.push_reserved(token);
        }
    }

    // The same of a token that goes to element 0.
    #[inline(always)]
    pub(super) fn send_to_first<T: Company>(
        &mut self,
        token: PackedToken,
        sent: &mut Vec<PackedToken, A>,
    )
        requires known { 0 < T.COUNT → self.old.elements ≡ T.COUNT }
        requires some { self.old.element < self.old.elements }
        requires first { element_of self.old.elements token.to ≡ 0 }
        requires room { length self.old.queue.items < self.old.queue.room }
        requires sent_room { (T.COUNT == 1) ≡ false → vec_len sent.old < vec_capacity sent.old }
        ensures held { held_in self.new ≡ queued (held_in self.old) (token ∷ []) }
        ensures sent { sent.new.items ≡ sent.old.items ++ elsewhere (shape_of self.old) (token ∷ []) }
        ensures len { length self.new.queue.items ≤ length self.old.queue.items + 1 }
        ensures capacity { self.new.queue.room ≡ self.old.queue.room }
        ensures sent_len { vec_len sent.new ≤ vec_len sent.old + 1 }
        ensures sent_capacity { vec_capacity sent.new ≡ vec_capacity sent.old }
    {
        if T::COUNT == 1 || self.element == 0 {
            self.send_here(token);
        } else {
            sent.push_reserved(token);
        }
    }

    // Puts a token for this element last into the queue.
    #[inline(always)]
    pub(super) fn send_here(&mut self, token: PackedToken)
        requires own { element_of self.old.elements token.to ≡ self.old.element }
        requires room { length self.old.queue.items < self.old.queue.room }
        ensures held { held_in self.new ≡ queued (held_in self.old) (token ∷ []) }
        ensures none { elsewhere (shape_of self.old) (token ∷ []) ≡ [] }
        ensures len { length self.new.queue.items ≤ length self.old.queue.items + 1 }
        ensures capacity { self.new.queue.room ≡ self.old.queue.room }
    {
        self.queue.push_packed(token);
    }

    // Sends what leaves the frame, in order.
    #[inline(always)]
    pub(super) fn send_outside(&mut self, made: &Made, sent: &mut Vec<PackedToken, A>)
        requires some { 0 < self.old.elements }
        requires room { length self.old.queue.items + 2 ≤ self.old.queue.room }
        requires sent_room { vec_len sent.old + 2 ≤ vec_capacity sent.old }
        ensures held { held_in self.new ≡ queued (held_in self.old) (outside_of made.now) }
        ensures sent { sent.new.items ≡ sent.old.items ++ elsewhere (shape_of self.old) (outside_of made.now) }
        ensures len { length self.new.queue.items ≤ length self.old.queue.items + 2 }
        ensures capacity { self.new.queue.room ≡ self.old.queue.room }
        ensures sent_len { vec_len sent.new ≤ vec_len sent.old + 2 }
        ensures sent_capacity { vec_capacity sent.new ≡ vec_capacity sent.old }
    {
        if let Some(frame) = made.released {
            let to = To::Release { frame };
            self.send(Token { to, word: SIGNAL }, sent);
        }
        if let Some(token) = made.outside {
            self.send(token, sent);
        }
    }

    // Sends what an instruction made, in order.
    #[inline(always)]
    pub(super) fn send_all(&mut self, point: Point, made: &Made, sent: &mut Vec<PackedToken, A>)
        requires some { 0 < self.old.elements }
        requires near { point.ip < 2 ^ 30 }
        requires room { length self.old.queue.items + 4 ≤ self.old.queue.room }
        requires sent_room { vec_len sent.old + 4 ≤ vec_capacity sent.old }
        ensures held { held_in self.new ≡ queued (held_in self.old) (tokens_of (point_of point) made.now) }
        ensures sent { sent.new.items ≡ sent.old.items ++ elsewhere (shape_of self.old) (tokens_of (point_of point) made.now) }
    {
        self.send_outside(made, sent);
        self.send_to(point, &made.word, made.first, sent);
        self.send_to(point, &made.word, made.second, sent);
    }
}
