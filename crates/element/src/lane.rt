//! The lane of an element: what it holds, with the code that it runs. It is sound between its events.

ghost use Rattle.std.specs.Prelude.{◌≡◌, ◌==◌, ℕ, ◌+◌, ◌<◌, ◌≤◌, ◌*◌, ◌^◌, true, false, [], ◌∷◌, length, All, OnOk, OnErr, IfOk, IfSome, IfNone, slice_index_or, vec_len};
ghost use Rattle.std.specs.Vec.{vec_capacity};
ghost use Rattle.tags.specs.declared.slot.SlotState.TheVariants.{Empty};
ghost use Rattle.frame_store.specs.BankViews.{bank_states};
ghost use Rattle.element.specs.Parts.{slot_place};
ghost use Rattle.element.specs.Holding.{fixed_of, with_more, emptied, IsFor, IsSpent, IsSoundLane};
ghost use Rattle.element.specs.Steps.{Steps, Stays, Picks, MakesEvents, SendsEvents};
ghost use Rattle.element.specs.ByDepth.{MakesByDepth};
ghost use Rattle.element.specs.Openings.{opened, shape_at, IsOpening, StartsAs};

use crate::company::{Alone, Company};
use crate::contents::Contents;
use crate::grant_order::GrantOrder;
use crate::instructions::Instructions;
use arrayvec::ArrayVec;
use frame_manager::Manager;
use frame_store::bank::BankMut;
use istructure::Cells;
use packed::token::PackedToken;
use std::alloc::{AllocError, Allocator};
use std::marker::Model;
use tags::slot::SlotState;
use tags::token::{FrameId, Token};
use tags::value::Value;
use token_queue::queue::TokenQueue;

/// For how many tokens for other elements room is made at once.
const ROOM: usize = 64;

/// From how many events on none is made by depth at once.
const MANY: u64 = 1_099_511_627_776;

/// What a step did.
#[derive(Clone, Copy, Debug, PartialEq, Eq)]
pub enum Stepped {
    /// There was no token.
    Idle,
    /// One event.
    Did,
    /// Nothing: the token stores in this cell, which is full.
    Clash { cell: u32 },
    /// Nothing: the rule of this number excludes the token.
    Stuck { rule: u8 },
    /// Nothing: a growth was refused.
    Memory,
}

/// An element's lane. Contracts see the program that it runs, how many events it may make, and what it holds: the slots of
/// its frames, its cells, its tokens, and on element 0 the frame manager, the outputs and the done mark. At all times what
/// it holds is sound, and it has made no more events than it may.
#[derive(Drop)]
pub struct Lane<'m, C: Instructions, A: Allocator> {
    code: &'m C,
    steps: u64,
    contents: Contents<'m, A>,
}

impl<'m, C: Instructions, A: Allocator> Model for Lane<'m, C, A> {
    ghost use Rattle.element.specs.Holding.{LaneView, held_in, IsRunnable};

    ghost Value = { LaneView };

    ghost view = { λ l. record { program = C.program l.code.now; steps = l.steps; held = held_in l.contents } };

    ghost invariant = { λ l. IsRunnable (C.width l.code.now) (record { program = C.program l.code.now; steps = l.steps; held = held_in l.contents }) };
}

// Makes room among the tokens for other elements, and answers for how many events there is room: each makes two at most. After an
// error nothing is changed. Where there are no others, no event needs any.
#[inline(always)]
fn room_in<T: Company, A: Allocator>(sent: &mut Vec<PackedToken, A>) -> Result<u64, AllocError>
    ensures sent { sent.new.items ≡ sent.old.items }
    ensures some { IfOk result (λ events. 0 < events) }
    ensures room { IfOk result (λ events. (T.COUNT == 1) ≡ false → vec_len sent.new + 2 * events ≤ vec_capacity sent.new) }
{
    if T::COUNT == 1 {
        return Ok(u64::MAX);
    }
    sent.reserve(ROOM)?;
    Ok(((sent.capacity() - sent.len()) / 2) as u64)
}

impl<'m, C: Instructions, A: Allocator> Lane<'m, C, A> {
    /// A lane with no tokens, which may make `steps` events of this code, over the slots and the cells of its element, and on
    /// element 0 with the frame manager and as many outputs as main has.
    pub fn new(
        alloc: A,
        code: &'m C,
        steps: u64,
        element: u32,
        elements: u32,
        bank: BankMut<'m>,
        cells: Cells<A>,
        manager: Option<Manager<A>>,
        outputs: u32,
    ) -> Result<Lane<'m, C, A>, AllocError>
    where
        A: Clone,
        requires outputs { outputs ≤ 16 }
        requires opening { IsOpening (C.program code.now) (opened (shape_at element elements bank) (bank_states bank) cells manager outputs).part }
        requires width { C.width code.now ≤ bank.width }
        requires few { steps < 2 ^ 63 }
        ensures exact { IfOk result (λ lane. lane
            ≡ record {
              program = C.program code.now;
              steps = steps;
              held = opened (shape_at element elements bank.entry) (bank_states bank.entry)
                  cells manager outputs;
            }) }
        ensures sound { IfOk result (λ lane. IsSoundLane lane.program lane.held) }
        ensures starts { IfOk result (λ lane. StartsAs lane.program lane.held.part) }
    {
        let contents = Contents::new(alloc, element, elements, bank, cells, manager, outputs)?;
        Ok(Lane {
            code,
            steps,
            contents,
        })
    }

    /// The number of its element.
    #[inline(always)]
    pub fn element(&self) -> u32
        ensures { result ≡ self.now.held.part.shape.element }
    {
        self.contents.element
    }

    /// How many events it has made.
    #[inline(always)]
    pub fn made(&self) -> u64
        ensures { result ≡ self.now.held.made }
    {
        self.contents.made()
    }

    /// Whether it has made all its events.
    #[inline(always)]
    pub fn is_spent(&self) -> bool
        ensures yes { result ≡ true → IsSpent self.now }
        ensures no { result ≡ false → self.now.held.made < self.now.steps }
    {
        self.contents.made() == self.steps
    }

    /// Its tokens, oldest first.
    #[inline(always)]
    pub fn queue(&self) -> &TokenQueue<A>
        ensures { result.now.items ≡ self.now.held.queue }
    {
        &self.contents.queue
    }

    /// Its cells.
    pub fn cells(&self) -> &Cells<A>
        ensures { result.now ≡ self.now.held.part.cells }
    {
        &self.contents.cells
    }

    /// The frame manager, on element 0.
    pub fn manager(&self) -> &Option<Manager<A>>
        ensures { result.now ≡ self.now.held.part.manager }
    {
        &self.contents.manager
    }

    /// What a slot holds of a frame that lies here.
    pub fn slot_state(&self, frame: FrameId, slot: u32) -> SlotState
        requires frame { frame < self.now.held.part.shape.elements * self.now.held.part.shape.frames }
        requires slot { slot < self.now.held.part.shape.width }
        ensures { result ≡ slice_index_or self.now.held.part.states (slot_place self.now.held.part.shape frame slot) Empty }
    {
        self.contents.slot_state(frame, slot)
    }

    /// The outputs.
    pub fn into_outputs(self) -> ArrayVec<Option<Value>, 16>
        ensures { result.items ≡ self.entry.held.part.outputs }
    {
        let Lane { contents, .. } = self;
        let Contents { outputs, .. } = contents;
        outputs
    }

    /// Puts tokens for this element last into the queue. After an error nothing is changed.
    pub fn receive_all(&mut self, tokens: &[PackedToken]) -> Result<(), AllocError>
        requires { All (IsFor (fixed_of self.old)) tokens.now }
        ensures ok { OnOk result (self.new ≡ with_more self.old tokens.now) }
        ensures err { OnErr result (self.new ≡ self.old) }
    {
        self.contents.receive(tokens)
    }

    /// Puts a token for this element last into the queue. After an error nothing is changed.
    pub fn receive(&mut self, token: PackedToken) -> Result<(), AllocError>
        requires { IsFor (fixed_of self.old) token }
        ensures ok { OnOk result (self.new ≡ with_more self.old (token ∷ [])) }
        ensures err { OnErr result (self.new ≡ self.old) }
    {
        self.contents.receive_one(token)?;
        Ok(())
    }

    /// Lets all its tokens go. That makes no event.
    pub fn clear_queue(&mut self)
        ensures { self.new ≡ emptied self.old }
    {
        self.contents.clear_queue();
    }

    /// The token that `pick` names, as `step` takes it.
    #[inline(always)]
    pub fn token(&self, pick: u64) -> Option<Token>
        ensures some { IfSome result (Picks self.now.held pick) }
        ensures none { IfNone result (self.now.held.queue ≡ []) }
    {
        self.contents.token(pick)
    }

    /// The element takes the token that `pick`, modulo the number of its tokens, names from the oldest on; `None` where it has a
    /// token and has made all its events. The token is taken out and the others close up. New tokens go last: into the queue, and
    /// those for other elements into `sent`; those to the outside come first, then those to the first destination and to the
    /// second; a store answers its readers in the order in which they came, and then the continuation of the store. After `Clash`,
    /// `Stuck` and `Memory` nothing is changed. `Site` stands for where it is called: each has code of its own, which a loop with
    /// a site of its own has built into it.
    #[inline(always)]
    pub fn step<Site>(&mut self, pick: u64, sent: &mut Vec<PackedToken, A>) -> Option<Stepped>
    where
        A: Clone,
        ensures exact { IfSome result (λ stepped. Steps self.old.program self.old.held pick sent.old.items stepped self.new.held sent.new.items) }
        ensures allowed { IfSome result (λ stepped. 0 < length self.old.held.queue → self.old.held.made < self.old.steps) }
        ensures spent { IfNone result (IsSpent self.old × (0 < length self.old.held.queue) × Stays self.old.held sent.old.items self.new.held sent.new.items) }
        ensures sound { IsSoundLane self.new.program self.new.held }
        ensures most { self.new.held.made ≤ self.new.steps }
        ensures fixed { fixed_of self.new ≡ fixed_of self.old }
    {
        if self.contents.queue.len() == 0 {
            return Some(Stepped::Idle);
        }
        if self.contents.made() == self.steps {
            return None;
        }
        Some(self.contents.step::<C, Site>(pick, self.code, sent))
    }

    /// As `step` with the pick 0, in the way that is for any token: after a turn the oldest one mostly needs it.
    #[inline(always)]
    pub fn step_otherwise(&mut self, sent: &mut Vec<PackedToken, A>) -> Option<Stepped>
    where
        A: Clone,
        ensures exact { IfSome result (λ stepped. Steps self.old.program self.old.held 0 sent.old.items stepped self.new.held sent.new.items) }
        ensures allowed { IfSome result (λ stepped. 0 < length self.old.held.queue → self.old.held.made < self.old.steps) }
        ensures spent { IfNone result (IsSpent self.old × (0 < length self.old.held.queue) × Stays self.old.held sent.old.items self.new.held sent.new.items) }
        ensures sound { IsSoundLane self.new.program self.new.held }
        ensures most { self.new.held.made ≤ self.new.steps }
        ensures fixed { fixed_of self.new ≡ fixed_of self.old }
    {
        if self.contents.queue.len() == 0 {
            return Some(Stepped::Idle);
        }
        if self.is_spent() {
            return None;
        }
        Some(self.contents.step_otherwise(self.code, sent))
    }

    /// Notes the frame that the token got which the lane took last, if it asked for one. In `sent` lie the tokens that it made for others.
    pub fn note_frame(&self, taken: &PackedToken, sent: &[PackedToken], order: &mut GrantOrder<A>) {
        let answer = match sent.last() {
            Some(token) => *token,
            None => {
                let Some(last) = self.contents.queue.len().checked_sub(1) else {
                    return;
                };
                self.contents.queue.packed(last)
            }
        };
        order.note(self.code, taken, &answer);
    }

    /// How many elements there are.
    #[inline(always)]
    pub fn elements(&self) -> u32
        ensures { result ≡ self.now.held.part.shape.elements }
    {
        self.contents.elements
    }

    /// How many frames it has.
    pub fn frames(&self) -> usize
        ensures { result ≡ self.now.held.part.shape.frames }
    {
        self.contents.bank.frames()
    }

    /// The element makes one event after another, each at once and with its oldest token, as long as it has one, it may make one
    /// more event, and the token is one that is done at once. It is the only element, so no token is made for another one. It ends
    /// with an error where more room was refused; then it has a token, and may make one more event.
    #[inline(always)]
    pub fn turn(&mut self, sent: &mut Vec<PackedToken, A>) -> Result<(), AllocError>
    where
        A: Clone,
        requires one { self.old.held.part.shape.elements ≡ 1 }
        ensures exact { (events : ℕ) × MakesEvents self.old.program self.old.steps events self.old.held self.new.held }
        ensures none { sent.new.items ≡ sent.old.items }
        ensures refused { OnErr result ((0 < length self.new.held.queue) × (self.new.held.made < self.new.steps)) }
        ensures sound { IsSoundLane self.new.program self.new.held }
        ensures most { self.new.held.made ≤ self.new.steps }
        ensures fixed { fixed_of self.new ≡ fixed_of self.old }
    {
        'rations: while self.makes_ration::<Alone>(u64::MAX, sent)? {}
        Ok(())
    }

    /// As `turn`, but it makes up to `most` events, and no more than there is room for at once, and it may be one of several elements:
    /// tokens for others go last into `sent`. It answers whether it made some and may go on: where it did not, it made fewer than
    /// `most`: there is no token, it may make no more events, or the oldest token is not done at once.
    #[inline(always)]
    pub fn makes_ration<T: Company>(
        &mut self,
        most: u64,
        sent: &mut Vec<PackedToken, A>,
    ) -> Result<bool, AllocError>
    where
        A: Clone,
        requires known { 0 < T.COUNT → self.old.held.part.shape.elements ≡ T.COUNT }
        requires some { 0 < most }
        ensures exact { (events : ℕ) × SendsEvents self.old.program self.old.steps events self.old.held sent.old.items self.new.held sent.new.items }
        ensures some { IfOk result (λ all. all ≡ true → self.old.held.made < self.new.held.made) }
        ensures within { self.new.held.made ≤ self.old.held.made + most }
        ensures fewer { OnErr result (self.new.held.made < self.old.held.made + most) }
        ensures part { IfOk result (λ all. all ≡ false → self.new.held.made < self.old.held.made + most) }
        ensures refused { OnErr result ((0 < length self.new.held.queue) × (self.new.held.made < self.new.steps)) }
        ensures sound { IsSoundLane self.new.program self.new.held }
        ensures most { self.new.held.made ≤ self.new.steps }
        ensures fixed { fixed_of self.new ≡ fixed_of self.old }
    {
        let allowed = self.steps - self.contents.made();
        if allowed == 0 || self.contents.queue.len() == 0 {
            return Ok(false);
        }
        let events = allowed
            .min(self.contents.ration()?)
            .min(room_in::<T, A>(sent)?)
            .min(most);
        Ok(self.contents.make_at_once::<C, T>(self.code, events, sent))
    }

    /// The only element makes one event after another, each at once, as many as there is room for, and takes requests for frames only where it
    /// has no other token: each event takes its oldest token that is no request, or a request where all are. It stops before a token that is
    /// not done at once. Requests lie in `aside` meanwhile. Where room is refused nothing is changed.
    #[inline(always)]
    pub fn turn_by_depth(
        &mut self,
        order: &mut GrantOrder<A>,
        aside: &mut Vec<PackedToken, A>,
        sent: &mut Vec<PackedToken, A>,
    )
    where
        A: Clone,
        requires one { self.old.held.part.shape.elements ≡ 1 }
        requires none { aside.old.items ≡ [] }
        ensures exact { (events : ℕ) × MakesByDepth self.old.program self.old.steps events self.old.held self.new.held }
        ensures aside { aside.new.items ≡ [] }
        ensures sent { sent.new.items ≡ sent.old.items }
        ensures sound { IsSoundLane self.new.program self.new.held }
        ensures most { self.new.held.made ≤ self.new.steps }
        ensures fixed { fixed_of self.new ≡ fixed_of self.old }
    {
        let made = self.contents.made();
        let allowed = self.steps - made;
        if MANY <= made {
            return;
        }
        let Ok(room) = self.contents.long_ration() else {
            return;
        };
        let most = allowed.min(room).min(MANY);
        let waiting = self.contents.queue.len();
        let tokens = waiting.saturating_add(2 * most as usize);
        if aside.reserve(tokens).is_err() || order.make_room_held(tokens).is_err() {
            return;
        }
        self.contents
            .make_by_depth(self.code, most, order, aside, sent);
    }
}
