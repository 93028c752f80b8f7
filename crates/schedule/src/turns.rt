//! Runs in which the elements take turns, and element 0 holds back requests for frames.

ghost use Rattle.std.specs.Prelude.{◌≡◌, ℕ, ◌<◌, ◌≤◌, ◌⊎◌, List, Option, [], length, Some, true, false, IfSome, IfNone, map, ◌-◌, ◌/◌};
ghost use Rattle.semantics.specs.Machine.{Events};
ghost use Rattle.schedule.specs.State.{State, state_of, IsWell};
ghost use Rattle.schedule.specs.Runs.{steps_over};
ghost use Rattle.schedule.specs.Steps.{logged};
ghost use Rattle.element.specs.Holding.{held_of};
ghost use Rattle.schedule.specs.Setting.{Setting};
ghost use Rattle.element.specs.Requests.{held_back};
ghost use Rattle.schedule.specs.Turns.{first_queue, others, free_frames, AreFew, MayTake, MayPass, TakesTurn, PlaysTurns, PlaysTaking, AreInTurn, Leads};

use crate::counting::frames_out;
use crate::elements::{Elements, Order};
use crate::grants::Grants;
use crate::halt::Halt;
use crate::log::{EventLog, Log};
use crate::main_code::MainCode;
use crate::take::Take;
use element::grant_order::GrantOrder;
use element::instructions::Instructions;
use element::lane::Lane;
use element::requests::requests_before;
use packed::token::PackedToken;
use std::alloc::Allocator;
use token_queue::queue::TokenQueue;

// How many tokens are few, where so many frames are free: none on one element, and on several up to one for each 16 frames.
fn few(elements: u32, free: u64) -> u64
    ensures one { elements ≡ 1 → result ≡ 0 }
    ensures several { (elements ≡ 1 → ⊥) → result ≡ (free - 1) / 16 }
{
    if elements == 1 {
        return 0;
    }
    free.saturating_sub(1) / 16
}

// How many tokens a queue has besides the requests that it begins with.
fn besides<A: Allocator>(queue: &TokenQueue<A>, held: usize) -> usize
    requires { held ≡ held_back queue.now.items }
    ensures { result ≡ length queue.now.items - held }
{
    queue.len() - held
}

// Whether the lanes have at most so many tokens besides the first `held` of the first lane.
fn are_at_most<C: Instructions, A: Allocator>(
    lanes: &[Lane<'_, C, A>],
    held: usize,
    most: usize,
) -> bool
    requires some { 0 < length lanes.now }
    requires held { held ≡ held_back (first_queue (map held_of lanes.now)) }
    ensures yes { result ≡ true → others (map held_of lanes.now) ≤ most }
    ensures no { result ≡ false → most < others (map held_of lanes.now) }
{
    let first = besides(lanes[0].queue(), held);
    if most < first {
        return false;
    }
    let mut left = most - first;
    for place in 1..lanes.len() {
        let tokens = lanes[place].queue().len();
        if left < tokens {
            return false;
        }
        left -= tokens;
    }
    true
}

impl<'m, C: MainCode, A: Allocator> Elements<'m, C, A> {
    // Whether few tokens are left besides the requests that element 0 holds back.
    fn are_few(&self, held: usize) -> bool
        requires well { IsWell C.program C.width self.now }
        requires held { held ≡ held_back (first_queue (map held_of self.now.lanes.items)) }
        ensures yes { result ≡ true → AreFew (state_of C.program C.width self.now).setting (map held_of self.now.lanes.items) }
        ensures no { result ≡ false → AreFew (state_of C.program C.width self.now).setting (map held_of self.now.lanes.items) → ⊥ }
    {
        let frames = u64::from(self.shape.elements * self.shape.frames);
        let free = frames.saturating_sub(frames_out(self.lanes[0].manager()));
        let most = few(self.shape.elements, free) as usize;
        are_at_most(&self.lanes, held, most)
    }

    // The token that element 0 takes where no token is on its way, or `None` where it is passed over.
    fn choose(&self, order: &GrantOrder<A>) -> Option<usize>
        requires well { IsWell C.program C.width self.now }
        requires sent { self.now.sent.items ≡ [] }
        requires arrived { self.now.arrived ≡ 0 }
        ensures some { IfSome result (λ pick. (first_queue (state_of C.program C.width self.now).lanes ≡ [])
            ⊎ MayTake (state_of C.program C.width self.now) 0 pick) }
        ensures none { IfNone result (MayPass (state_of C.program C.width self.now) 0) }
    {
        let queue = self.lanes[0].queue();
        let held = requests_before(queue, 0);
        if held == 0 {
            return Some(0);
        }
        if self.are_few(held) {
            return Some(order.best_of(queue, held));
        }
        if held == queue.len() {
            return None;
        }
        Some(held)
    }

    // The token of element 0 at this place, if there is one.
    fn first_token(&self, at: usize) -> Option<PackedToken>
        requires { IsWell C.program C.width self.now }
    {
        let queue = self.lanes[0].queue();
        if queue.len() <= at {
            return None;
        }
        Some(queue.packed(at))
    }

    // Notes the frame that the token got which element 0 took last, if it asked for one.
    fn note_frame(&self, taken: Option<PackedToken>, order: &mut GrantOrder<A>)
        requires { IsWell C.program C.width self.now }
    {
        if let Some(taken) = taken {
            self.lanes[0].note_frame(&taken, &self.sent, order);
        }
    }

    // Makes the step of element 0 where no token is on its way, if it makes one, and answers whether the run halts there.
    fn take_first<L: Log>(
        &mut self,
        order: &mut GrantOrder<A>,
        log: &mut EventLog<A, L>,
    ) -> Option<Halt>
    where
        A: Clone,
        requires well { IsWell C.program C.width self.old }
        requires sent { self.old.sent.items ≡ [] }
        requires arrived { self.old.arrived ≡ 0 }
        ensures well { IsWell C.program C.width self.new }
        ensures exact { (turn : Option ℕ) × (events : Events) × TakesTurn (state_of C.program C.width self.old) 0 turn
            (state_of C.program C.width self.new) events result × (log.new.events.items ≡ logged L.KEEPS_EVENTS log.old.events.items events) }
    {
        let Some(pick) = self.choose(order) else {
            return None;
        };
        let taken = self.first_token(pick);
        let halt = self.advance::<L, ()>(Order::InTurn, 0, pick as u64, log);
        self.note_frame(taken, order);
        halt
    }

    // Makes what the turn of an element has, and answers whether the run halts there.
    fn take_turn<L: Log>(
        &mut self,
        element: u32,
        grants: &mut Option<Grants<A>>,
        log: &mut EventLog<A, L>,
    ) -> Option<Halt>
    where
        A: Clone,
        requires well { IsWell C.program C.width self.old }
        requires element { element < self.old.shape.elements }
        ensures well { IsWell C.program C.width self.new }
        ensures exact { (turn : Option ℕ) × (events : Events) × TakesTurn (state_of C.program C.width self.old) element turn
            (state_of C.program C.width self.new) events result × (log.new.events.items ≡ logged L.KEEPS_EVENTS log.old.events.items events) }
    {
        if element != 0 {
            return self.advance::<L, ()>(Order::InTurn, element, 0, log);
        }
        let frames = (self.shape.elements * self.shape.frames) as usize;
        if self.settle().is_ok() {
            if let Some(grants) = grants {
                if grants.order.make_room(frames).is_ok() {
                    return self.take_first(&mut grants.order, log);
                }
            }
        }
        let refused = self.refused(0);
        self.halts(Order::InTurn, refused)
    }

    /// Makes one step after another, the elements in turn, and answers why it makes no more. Each takes its oldest token; but element 0
    /// holds back the requests for frames that its queue begins with, and takes one of these only where few other tokens are left.
    pub fn play_by_depth<L: Log>(
        &mut self,
        grants: &mut Option<Grants<A>>,
        log: &mut EventLog<A, L>,
    ) -> Halt
    where
        A: Clone,
        requires { IsWell C.program C.width self.old }
        ensures well { IsWell C.program C.width self.new }
        ensures exact { (turns : List (ℕ × Option ℕ)) × (events : Events) × AreInTurn self.old.shape.elements 0 turns
            × PlaysTurns turns (state_of C.program C.width self.old) (state_of C.program C.width self.new) result events
            × (log.new.events.items ≡ logged L.KEEPS_EVENTS log.old.events.items events) }
    {
        'passes: loop {
            for element in 0..self.shape.elements {
                match self.take_turn(element, grants, log) {
                    None => {}
                    Some(halt) => return halt,
                }
            }
        }
    }

    // Lets the one element make as many events at once as it has room for, if no token is on its way.
    #[tactic(auto, using(crate::proofs::Turning::leads_none))]
    fn run_by_depth(&mut self, grants: &mut Option<Grants<A>>)
    where
        A: Clone,
        requires well { IsWell C.program C.width self.old }
        requires one { self.old.shape.elements ≡ 1 }
        ensures well { IsWell C.program C.width self.new }
        ensures shape { self.new.shape ≡ self.old.shape }
        ensures exact { (made : Events) × Leads 1 (state_of C.program C.width self.old) made 0 (state_of C.program C.width self.new) }
        ensures fewer { steps_over (state_of C.program C.width self.new) ≤ steps_over (state_of C.program C.width self.old) }
    {
        if !self.is_settled() {
            return;
        }
        let frames = (self.shape.elements * self.shape.frames) as usize;
        let Some(grants) = grants else {
            return;
        };
        if grants.order.make_room(frames).is_err() {
            return;
        }
        grants.aside.clear();
        let lane = &mut self.lanes[0];
        lane.turn_by_depth(&mut grants.order, &mut grants.aside, &mut self.sent);
    }

    // Makes as many events as the one element makes at once, and then what a turn has, and answers whether the run halts there.
    fn take_turns<L: Log>(
        &mut self,
        grants: &mut Option<Grants<A>>,
        log: &mut EventLog<A, L>,
    ) -> Option<Halt>
    where
        A: Clone,
        requires well { IsWell C.program C.width self.old }
        requires one { self.old.shape.elements ≡ 1 }
        ensures well { IsWell C.program C.width self.new }
        ensures exact { (before : Events) × (mid : State) × Leads 1 (state_of C.program C.width self.old) before 0 mid
            × (steps_over mid ≤ steps_over (state_of C.program C.width self.old))
            × (mid.setting ≡ (state_of C.program C.width self.old).setting) × (turn : Option ℕ) × (events : Events)
            × TakesTurn mid 0 turn (state_of C.program C.width self.new) events result
            × (log.new.events.items ≡ logged L.KEEPS_EVENTS log.old.events.items events) }
    {
        self.run_by_depth(grants);
        self.take_turn(0, grants, log)
    }

    // The same as `play_by_depth`, of one element, where no event is listed: it is always in turn.
    fn play_alone_by_depth<L: Log>(
        &mut self,
        grants: &mut Option<Grants<A>>,
        log: &mut EventLog<A, L>,
    ) -> Halt
    where
        A: Clone,
        requires well { IsWell C.program C.width self.old }
        requires one { self.old.shape.elements ≡ 1 }
        requires quiet { L.KEEPS_EVENTS ≡ false }
        ensures well { IsWell C.program C.width self.new }
        ensures exact { (turns : List (ℕ × Option ℕ)) × (events : Events) × AreInTurn self.old.shape.elements 0 turns
            × PlaysTurns turns (state_of C.program C.width self.old) (state_of C.program C.width self.new) result events
            × (log.new.events.items ≡ logged L.KEEPS_EVENTS log.old.events.items events) }
    {
        'turns: loop {
            match self.take_turns(grants, log) {
                None => {}
                Some(halt) => return halt,
            }
        }
    }

    /// Makes one step after another, the elements in turn, and answers why it makes no more: as `play_by_depth`.
    fn play_depth<L: Log>(
        &mut self,
        grants: &mut Option<Grants<A>>,
        log: &mut EventLog<A, L>,
    ) -> Halt
    where
        A: Clone,
        requires { IsWell C.program C.width self.old }
        ensures well { IsWell C.program C.width self.new }
        ensures exact { (turns : List (ℕ × Option ℕ)) × (events : Events) × AreInTurn self.old.shape.elements 0 turns
            × PlaysTurns turns (state_of C.program C.width self.old) (state_of C.program C.width self.new) result events
            × (log.new.events.items ≡ logged L.KEEPS_EVENTS log.old.events.items events) }
    {
        if self.shape.elements != 1 {
            self.play_by_depth(grants, log)
        } else if L::KEEPS_EVENTS {
            self.play_by_depth(grants, log)
        } else {
            self.play_alone_by_depth(grants, log)
        }
    }

    /// Makes one step after another, the elements in turn, in the given order of their tokens, and answers why it makes no more.
    pub fn play_taking<L: Log>(
        &mut self,
        take: Take,
        grants: Option<Grants<A>>,
        log: &mut EventLog<A, L>,
    ) -> Halt
    where
        A: Clone,
        requires { IsWell C.program C.width self.old }
        ensures well { IsWell C.program C.width self.new }
        ensures exact { (events : Events) × PlaysTaking take (state_of C.program C.width self.old) (state_of C.program C.width self.new) result events
            × (log.new.events.items ≡ logged L.KEEPS_EVENTS log.old.events.items events) }
    {
        match take {
            Take::Oldest => self.play_in_turn(log),
            Take::Depth => {
                let mut grants = grants;
                self.play_depth(&mut grants, log)
            }
        }
    }
}
