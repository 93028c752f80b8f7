//! What an element holds, and what it does with a token. During an event it is not sound.

ghost use Rattle.std.specs.Prelude.{◌≡◌, ◌==◌, ℕ, ◌+◌, ◌*◌, ◌%◌, ◌<◌, ◌≤◌, ◌^◌, true, false, [], ◌∷◌, ◌++◌, length, OnOk, OnErr, IfOk, IfSome, IfNone, None, replicate, vec_len};
ghost use Rattle.std.specs.Vec.{vec_capacity};
ghost use Rattle.element.specs.Holding.{held_in, part_of, shape_of, with_queue, IsSoundLane};
ghost use Rattle.frame_store.specs.BankViews.{bank_states};
ghost use Rattle.semantics.specs.Program.{Program};
ghost use Rattle.element.specs.Acts.{CanAct, ActsAs};
ghost use Rattle.element.specs.Steps.{Steps, Picks, SendsEvents};
ghost use Rattle.element.specs.ByDepth.{SendsOthers};
ghost use Rattle.element.specs.Openings.{opened, shape_at, IsOpening, StartsAs};

use crate::company::{Company, Together};
use crate::firing::Point;
use crate::instructions::Instructions;
use crate::lane::Stepped;
use crate::waiting::{Few, Many, Waiting};
use arrayvec::ArrayVec;
use executing::Arrival;
use frame_manager::Manager;
use frame_store::bank::BankMut;
use istructure::Cells;
use packed::token::PackedToken;
use std::alloc::{AllocError, Allocator};
use tags::token::{Cont, To, Token};
use tags::value::Value;
use token_queue::queue::TokenQueue;

mod away;
mod executing;
mod holding_back;
mod host;
mod memory;
mod requests;
mod sending;
mod slots;

/// From how many waiting tokens on events are made by generations.
const MANY: usize = 16;

/// How many events are made before it is asked again whether there are many tokens.
const FEW_EVENTS: usize = 64;

/// What an element holds: the slots of its frames, its cells, its tokens, and on element 0 the frame manager, the outputs
/// and the done mark.
#[derive(Drop)]
pub struct Contents<'m, A: Allocator> {
    pub element: u32,
    pub elements: u32,
    pub bank: BankMut<'m>,
    pub cells: Cells<A>,
    pub manager: Option<Manager<A>>,
    /// The tokens, oldest first.
    pub queue: TokenQueue<A>,
    pub outputs: ArrayVec<Option<Value>, 16>,
    pub done: bool,
    /// The readers that a store answers; empty between the events.
    pub answered: Vec<Cont, A>,
}

// The index that a pick selects among `count`.
#[tactic(auto, using(crate::proofs::Quotients::below))]
#[inline(always)]
fn among(pick: u64, count: usize) -> usize
    requires { 0 < count }
    ensures exact { result ≡ pick % count }
    ensures within { result < count }
{
    let count = count as u64;
    if pick < count {
        return pick as usize;
    }
    (pick % count) as usize
}

// `count` outputs that are not filled.
fn no_outputs(count: u32) -> ArrayVec<Option<Value>, 16>
    requires { count ≤ 16 }
    ensures { result.items ≡ replicate count None }
{
    let mut outputs = ArrayVec::from([None; 16]);
    outputs.truncate(count as usize);
    outputs
}

impl<'m, A: Allocator> Contents<'m, A> {
    /// A lane with no tokens, over the slots and the cells of its element, and on element 0 with the frame manager and as
    /// many outputs as main has.
    pub fn new(
        alloc: A,
        element: u32,
        elements: u32,
        bank: BankMut<'m>,
        cells: Cells<A>,
        manager: Option<Manager<A>>,
        outputs: u32,
    ) -> Result<Contents<'m, A>, AllocError>
    where
        A: Clone,
        requires { outputs ≤ 16 }
        ensures exact { IfOk result (λ lane. held_in lane ≡ opened (shape_at element elements bank.entry) (bank_states bank.entry) cells manager outputs) }
        ensures starts { IfOk result (λ lane. (p : Program) → IsOpening p (part_of lane) → IsSoundLane p (held_in lane) × StartsAs p (part_of lane)) }
    {
        let queue = TokenQueue::new(alloc.clone()?);
        Ok(Contents {
            element,
            elements,
            bank,
            cells,
            manager,
            queue,
            outputs: no_outputs(outputs),
            done: false,
            answered: Vec::new(alloc),
        })
    }

    /// Puts tokens for this element last into the queue. After an error nothing is changed.
    pub fn receive(&mut self, tokens: &[PackedToken]) -> Result<(), AllocError>
        ensures ok { OnOk result (held_in self.new ≡ with_queue (held_in self.old) (self.old.queue.items ++ tokens.now)) }
        ensures err { OnErr result (held_in self.new ≡ held_in self.old) }
    {
        self.queue.reserve(tokens.len())?;
        for token in tokens {
            self.queue.push_packed(*token);
        }
        Ok(())
    }

    /// Puts a token for this element last into the queue. After an error nothing is changed.
    pub fn receive_one(&mut self, token: PackedToken) -> Result<(), AllocError>
        ensures ok { OnOk result (held_in self.new ≡ with_queue (held_in self.old) (self.old.queue.items ++ token ∷ [])) }
        ensures err { OnErr result (held_in self.new ≡ held_in self.old) }
    {
        self.queue.reserve(1)?;
        self.queue.push_packed(token);
        Ok(())
    }

    /// Lets all its tokens go. That makes no event.
    pub fn clear_queue(&mut self)
        ensures { held_in self.new ≡ with_queue (held_in self.old) [] }
    {
        self.queue.clear();
    }

    /// How many events it has made: each counts a token as taken out of the queue, and nothing else does.
    #[inline(always)]
    pub fn made(&self) -> u64
        ensures { result ≡ (held_in self.now).made }
    {
        self.queue.gone() as u64
    }

    /// The token that `pick` names, as `step` takes it.
    #[inline(always)]
    pub fn token(&self, pick: u64) -> Option<Token>
        ensures some { IfSome result (Picks (held_in self.now) pick) }
        ensures none { IfNone result (self.now.queue.items ≡ []) }
    {
        let waiting = self.queue.len();
        if waiting == 0 {
            return None;
        }
        let at = among(pick, waiting);
        Some(self.queue.get(at))
    }

    // What the token at `at` of the queue does.
    #[inline(always)]
    fn act<C: Instructions, Site>(
        &mut self,
        code: &C,
        at: usize,
        token: PackedToken,
        sent: &mut Vec<PackedToken, A>,
    ) -> Stepped
    where
        A: Clone,
        requires { CanAct (C.program code.now) (C.width code.now) (held_in self.old) at token }
        ensures { ActsAs (C.program code.now) (held_in self.old) at token sent.old.items result (held_in self.new) sent.new.items }
    {
        if self.queue.has_room(3)
            && sent.capacity() - sent.len() >= 2
            && self.acts_at_once::<C, Together, Site>(code, at, &token, sent)
        {
            return Stepped::Did;
        }
        self.act_otherwise(code, at, token, sent)
    }

    // The same, out of line. What has to lie in memory for that, a copy of the token first of all, is made here.
    #[inline(always)]
    fn act_otherwise<C: Instructions>(
        &mut self,
        code: &C,
        at: usize,
        token: PackedToken,
        sent: &mut Vec<PackedToken, A>,
    ) -> Stepped
    where
        A: Clone,
        requires { CanAct (C.program code.now) (C.width code.now) (held_in self.old) at token }
        ensures { ActsAs (C.program code.now) (held_in self.old) at token sent.old.items result (held_in self.new) sent.new.items }
    {
        let again = token;
        self.act_unpacked(code, at, again, sent)
    }

    // The same, of the token unpacked.
    #[inline(never)]
    fn act_unpacked<C: Instructions>(
        &mut self,
        code: &C,
        at: usize,
        token: PackedToken,
        sent: &mut Vec<PackedToken, A>,
    ) -> Stepped
    where
        A: Clone,
        requires { CanAct (C.program code.now) (C.width code.now) (held_in self.old) at token }
        ensures { ActsAs (C.program code.now) (held_in self.old) at token sent.old.items result (held_in self.new) sent.new.items }
    {
        let token = token.unpack();
        self.act_anywhere(code, at, &token, sent)
    }

    // What any token does.
    fn act_anywhere<C: Instructions>(
        &mut self,
        code: &C,
        at: usize,
        token: &Token,
        sent: &mut Vec<PackedToken, A>,
    ) -> Stepped
    where
        A: Clone,
        requires { CanAct (C.program code.now) (C.width code.now) (held_in self.old) at token.now }
        ensures { ActsAs (C.program code.now) (held_in self.old) at token.now sent.old.items result (held_in self.new) sent.new.items }
    {
        let to = token.to;
        match to {
            To::Instr { frame, ip, port } => {
                let point = Point { frame, ip };
                self.read_again(code, token, &Arrival { at, point, port }, sent)
            }
            To::Fetch { cell } => self.at_fetch(at, *token, cell, sent),
            To::Store { cell, value } => self.at_store(at, *token, cell, &value, sent),
            To::Manager => self.at_manager(at, *token, sent),
            To::Release { frame } => self.at_release(at, *token, frame, sent),
            To::Host { port } => self.at_host(at, *token, port),
        }
    }

    /// The element takes the token that `pick`, modulo the number of its tokens, names from the oldest on. The token is
    /// taken out and the others close up. New tokens go last: into the queue, and those for other elements into `sent`;
    /// those to the outside come first, then those to the first destination and to the second; a store answers its
    /// readers in the order in which they came, and then the continuation of the store. After `Clash`, `Stuck` and
    /// `Memory` nothing is changed.
    #[inline(always)]
    pub fn step<C: Instructions, Site>(
        &mut self,
        pick: u64,
        code: &C,
        sent: &mut Vec<PackedToken, A>,
    ) -> Stepped
    where
        A: Clone,
        requires sound { IsSoundLane (C.program code.now) (held_in self.old) }
        requires width { C.width code.now ≤ self.old.bank.width }
        requires few { self.old.queue.gone < 2 ^ 63 }
        ensures exact { Steps (C.program code.now) (held_in self.old) pick sent.old.items result (held_in self.new) sent.new.items }
        ensures sound { IsSoundLane (C.program code.now) (held_in self.new) }
        ensures shape { shape_of self.new ≡ shape_of self.old }
        ensures made { self.new.queue.gone ≤ self.old.queue.gone + 1 }
    {
        let waiting = self.queue.len();
        if waiting == 0 {
            return Stepped::Idle;
        }
        let at = among(pick, waiting);
        let token = self.queue.packed(at);
        self.act::<C, Site>(code, at, token, sent)
    }

    /// The element takes its oldest token in the way that is for any token, as `step` does with the pick 0.
    #[inline(always)]
    pub fn step_otherwise<C: Instructions>(
        &mut self,
        code: &C,
        sent: &mut Vec<PackedToken, A>,
    ) -> Stepped
    where
        A: Clone,
        requires sound { IsSoundLane (C.program code.now) (held_in self.old) }
        requires width { C.width code.now ≤ self.old.bank.width }
        requires few { self.old.queue.gone < 2 ^ 63 }
        requires some { 0 < length self.old.queue.items }
        ensures exact { Steps (C.program code.now) (held_in self.old) 0 sent.old.items result (held_in self.new) sent.new.items }
        ensures sound { IsSoundLane (C.program code.now) (held_in self.new) }
        ensures shape { shape_of self.new ≡ shape_of self.old }
        ensures made { self.new.queue.gone ≤ self.old.queue.gone + 1 }
    {
        let token = self.queue.packed(0);
        self.act_otherwise(code, 0, token, sent)
    }

    // Makes so many events, each at once and with the oldest token, and answers whether it made them all: it stops where there is no
    // token, and before one that is not done at once. Where many tokens wait each event has one of these.
    #[inline(never)]
    fn make_part<C: Instructions, T: Company, W: Waiting>(
        &mut self,
        code: &C,
        events: usize,
        sent: &mut Vec<PackedToken, A>,
    ) -> bool
    where
        A: Clone,
        requires known { 0 < T.COUNT → self.old.elements ≡ T.COUNT }
        requires many { W.MANY ≡ true → events ≤ length self.old.queue.items }
        requires sound { IsSoundLane (C.program code.now) (held_in self.old) }
        requires width { C.width code.now ≤ self.old.bank.width }
        requires few { self.old.queue.gone + events < 2 ^ 63 }
        requires room { length self.old.queue.items + 2 * events + 1 ≤ self.old.queue.room }
        requires sent_room { (T.COUNT == 1) ≡ false → vec_len sent.old + 2 * events ≤ vec_capacity sent.old }
        ensures exact { (steps : ℕ) → self.old.queue.gone + events ≤ steps → (made : ℕ) × SendsEvents (C.program code.now) steps made (held_in self.old)
            sent.old.items (held_in self.new) sent.new.items }
        ensures others { T.HOLDS ≡ true → (steps : ℕ) → self.old.queue.gone + events ≤ steps → (made : ℕ) × SendsOthers (C.program code.now) steps made
            (held_in self.old) sent.old.items (held_in self.new) sent.new.items }
        ensures sound { IsSoundLane (C.program code.now) (held_in self.new) }
        ensures shape { shape_of self.new ≡ shape_of self.old }
        ensures all { result ≡ true → self.new.queue.gone ≡ self.old.queue.gone + events }
        ensures most { self.new.queue.gone ≤ self.old.queue.gone + events }
        ensures part { result ≡ false → self.new.queue.gone < self.old.queue.gone + events }
        ensures least { self.old.queue.gone ≤ self.new.queue.gone }
        ensures len { length self.new.queue.items ≤ length self.old.queue.items + 2 * events }
        ensures made_len { length self.new.queue.items + 2 * self.old.queue.gone ≤ length self.old.queue.items + 2 * self.new.queue.gone }
        ensures capacity { self.new.queue.room ≡ self.old.queue.room }
        ensures sent_len { vec_len sent.new ≤ vec_len sent.old + 2 * events }
        ensures sent_capacity { vec_capacity sent.new ≡ vec_capacity sent.old }
    {
        let mut gone = self.queue.gone();
        let end = gone + events;
        'events: while gone != end {
            if !W::MANY && gone == self.queue.come() {
                return false;
            }
            let token = self.queue.oldest(gone);
            if !self.acts_at_once::<C, T, W>(code, 0, &token, sent) {
                return false;
            }
            gone += 1;
        }
        true
    }

    // Whether one more token may be taken, where so many were taken and no more than `end` are to be. As many wait as it takes to come to
    // `stop`: the queue is asked only after them.
    #[inline(always)]
    fn may_take(&self, gone: usize, end: usize, stop: &mut usize) -> bool
        requires gone { gone ≡ self.now.queue.gone }
        requires few { gone < 2 ^ 63 }
        requires end { gone ≤ end }
        requires stop { stop.old ≤ end }
        requires waiting { stop.old ≤ gone + length self.now.queue.items }
        ensures yes { result ≡ true → gone < stop.new }
        ensures no { result ≡ false → stop.new ≡ gone }
        ensures stop { stop.new ≤ end }
        ensures waiting { stop.new ≤ gone + length self.now.queue.items }
    {
        if gone < *stop {
            return true;
        }
        *stop = self.queue.come().min(end);
        gone < *stop
    }

    // The same as `make_at_once`, for where few tokens wait at most times: as many are taken as wait before the queue is asked again.
    #[inline(always)]
    fn make_among_few<C: Instructions, T: Company>(
        &mut self,
        code: &C,
        events: u64,
        sent: &mut Vec<PackedToken, A>,
    ) -> bool
    where
        A: Clone,
        requires known { 0 < T.COUNT → self.old.elements ≡ T.COUNT }
        requires sound { IsSoundLane (C.program code.now) (held_in self.old) }
        requires width { C.width code.now ≤ self.old.bank.width }
        requires few { self.old.queue.gone + events < 2 ^ 63 }
        requires room { length self.old.queue.items + 2 * events + 1 ≤ self.old.queue.room }
        requires sent_room { (T.COUNT == 1) ≡ false → vec_len sent.old + 2 * events ≤ vec_capacity sent.old }
        ensures exact { (steps : ℕ) → self.old.queue.gone + events ≤ steps → (made : ℕ) × SendsEvents (C.program code.now) steps made (held_in self.old)
            sent.old.items (held_in self.new) sent.new.items }
        ensures others { T.HOLDS ≡ true → (steps : ℕ) → self.old.queue.gone + events ≤ steps → (made : ℕ) × SendsOthers (C.program code.now) steps made
            (held_in self.old) sent.old.items (held_in self.new) sent.new.items }
        ensures sound { IsSoundLane (C.program code.now) (held_in self.new) }
        ensures shape { shape_of self.new ≡ shape_of self.old }
        ensures all { result ≡ true → self.new.queue.gone ≡ self.old.queue.gone + events }
        ensures most { self.new.queue.gone ≤ self.old.queue.gone + events }
        ensures part { result ≡ false → self.new.queue.gone < self.old.queue.gone + events }
        ensures least { self.old.queue.gone ≤ self.new.queue.gone }
        ensures len { length self.new.queue.items + 2 * self.old.queue.gone ≤ length self.old.queue.items + 2 * self.new.queue.gone }
        ensures capacity { self.new.queue.room ≡ self.old.queue.room }
    {
        let mut gone = self.queue.gone();
        let end = gone + events as usize;
        let mut stop = self.queue.come().min(end);
        'events: while self.may_take(gone, end, &mut stop) {
            let token = self.queue.oldest(gone);
            if !self.acts_at_once::<C, T, Many>(code, 0, &token, sent) {
                return false;
            }
            gone += 1;
        }
        gone == end
    }

    /// Makes so many events, each at once and with the oldest token, and answers whether it made them all: it stops where there is
    /// no token, and before one that is not done at once. Tokens for other elements go last into `sent`, which has room for two an
    /// event.
    #[inline(always)]
    pub fn make_at_once<C: Instructions, T: Company>(
        &mut self,
        code: &C,
        events: u64,
        sent: &mut Vec<PackedToken, A>,
    ) -> bool
    where
        A: Clone,
        requires known { 0 < T.COUNT → self.old.elements ≡ T.COUNT }
        requires sound { IsSoundLane (C.program code.now) (held_in self.old) }
        requires width { C.width code.now ≤ self.old.bank.width }
        requires few { self.old.queue.gone + events < 2 ^ 63 }
        requires room { length self.old.queue.items + 2 * events + 1 ≤ self.old.queue.room }
        requires sent_room { (T.COUNT == 1) ≡ false → vec_len sent.old + 2 * events ≤ vec_capacity sent.old }
        ensures exact { (steps : ℕ) → self.old.queue.gone + events ≤ steps → (made : ℕ) × SendsEvents (C.program code.now) steps made (held_in self.old)
            sent.old.items (held_in self.new) sent.new.items }
        ensures others { T.HOLDS ≡ true → (steps : ℕ) → self.old.queue.gone + events ≤ steps → (made : ℕ) × SendsOthers (C.program code.now) steps made
            (held_in self.old) sent.old.items (held_in self.new) sent.new.items }
        ensures sound { IsSoundLane (C.program code.now) (held_in self.new) }
        ensures shape { shape_of self.new ≡ shape_of self.old }
        ensures all { result ≡ true → self.new.queue.gone ≡ self.old.queue.gone + events }
        ensures most { self.new.queue.gone ≤ self.old.queue.gone + events }
        ensures part { result ≡ false → self.new.queue.gone < self.old.queue.gone + events }
        ensures least { self.old.queue.gone ≤ self.new.queue.gone }
        ensures len { length self.new.queue.items + 2 * self.old.queue.gone ≤ length self.old.queue.items + 2 * self.new.queue.gone }
        ensures capacity { self.new.queue.room ≡ self.old.queue.room }
    {
        let mut left = events as usize;
        'parts: while left != 0 {
            let waiting = self.queue.len();
            if waiting < MANY {
                let part = left.min(FEW_EVENTS);
                if !self.make_part::<C, T, Few>(code, part, sent) {
                    return false;
                }
                left -= part;
            } else {
                let part = left.min(waiting);
                if !self.make_part::<C, T, Many>(code, part, sent) {
                    return false;
                }
                left -= part;
            }
        }
        true
    }
}
