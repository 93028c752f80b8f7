//! The elements of the machine: their lanes, and the tokens that are on their way from one to another.

ghost use Rattle.std.specs.Prelude.{◌≡◌, ℕ, ◌<◌, [], length, map, All, IfOk, OnOk, Some, true, false, slice_get, vec_len};
ghost use Rattle.std.specs.Vec.{vec_capacity};
ghost use Rattle.semantics.specs.Machine.{Events};
ghost use Rattle.semantics.specs.Report.{sum_below};
ghost use Rattle.element.specs.Holding.{Holding, held_of};
ghost use Rattle.schedule.specs.Setting.{total};
ghost use Rattle.schedule.specs.Reported.{credits_below, ShowsLaneParts};
ghost use Rattle.schedule.specs.State.{State, state_of, IsWell, IsSoundState, tokens_in};
ghost use Rattle.schedule.specs.Alone.{LeadsTo};
ghost use Rattle.schedule.specs.Steps.{Steps, logged};
ghost use Rattle.schedule.specs.Turns.{TakesNone};
ghost use Rattle.schedule.specs.Runs.{HasToken, is_by_list, IsHalt, Advances, Plays, rounds_of};

use crate::alone::make_events;
use crate::counting::{credits_in, deferred, frames_out, full_cells, requests};
use crate::delivery::{deliver, has_token_for};
use crate::halt::Halt;
use crate::log::{EventLog, Log};
use crate::main_code::MainCode;
use crate::shape::Shape;
use arrayvec::ArrayVec;
use element::lane::{Lane, Stepped};
use packed::token::PackedToken;
use std::alloc::{AllocError, Allocator};
use std::marker::PhantomData;
use tags::value::Value;

/// The site of the loop of one element where each event is listed, which has the code of a step built into it.
struct Listed<L: Log> {
    _log: PhantomData<L>,
}

/// The order in which the elements make their events.
#[derive(Clone, Copy, Debug, PartialEq, Eq)]
pub enum Order {
    /// That of a list. An element that has made all its events is passed over.
    ByList,
    /// In turn, up to the first element that has a token and has made all its events.
    InTurn,
}

/// The lanes of all elements, and the tokens that are on their way.
#[derive(Drop)]
pub struct Elements<'m, C: MainCode, A: Allocator> {
    pub shape: Shape<'m, C>,
    pub lanes: Vec<Lane<'m, C, A>, A>,
    /// The tokens that the last event made for other elements.
    pub sent: Vec<PackedToken, A>,
    /// How many of these have arrived.
    pub arrived: usize,
}

impl<'m, C: MainCode, A: Allocator> Elements<'m, C, A> {
    /// Delivers the tokens that are on their way.
    #[inline(always)]
    pub fn settle(&mut self) -> Result<(), AllocError>
        requires { IsWell C.program C.width self.old }
        ensures well { IsWell C.program C.width self.new }
        ensures same { state_of C.program C.width self.new ≡ state_of C.program C.width self.old }
        ensures sent { OnOk result (self.new.sent.items ≡ []) }
        ensures arrived { OnOk result (self.new.arrived ≡ 0) }
    {
        deliver(
            &mut self.lanes,
            self.shape.elements,
            &mut self.sent,
            &mut self.arrived,
        )
    }

    // Whether no token is on its way. One element sends none, so there it is always so.
    pub(crate) fn is_settled(&self) -> bool
        ensures sent { result ≡ true → self.now.sent.items ≡ [] }
        ensures arrived { result ≡ true → self.now.arrived ≡ 0 }
    {
        self.sent.is_empty() && self.arrived == 0
    }

    // Whether the element has a token.
    #[inline(always)]
    fn has_token(&self, element: u32) -> bool
        requires well { IsWell C.program C.width self.now }
        requires element { element < self.now.shape.elements }
        ensures yes { result ≡ true → (h : Holding) → slice_get (state_of C.program C.width self.now).lanes element ≡ Some h → 0 < length h.queue }
        ensures no { result ≡ false → (h : Holding) → slice_get (state_of C.program C.width self.now).lanes element ≡ Some h → h.queue ≡ [] }
    {
        let waiting = self.lanes[element as usize].queue().len();
        waiting != 0 || has_token_for(&self.sent, self.arrived, self.shape.elements, element)
    }

    // Whether the element has a token, and may make one more event. Memory is asked for only then, so that a run that is refused any ends.
    #[inline(always)]
    fn may_step(&self, element: u32) -> bool
        requires well { IsWell C.program C.width self.now }
        requires element { element < self.now.shape.elements }
    {
        self.has_token(element) && !self.lanes[element as usize].is_spent()
    }

    // What a step answers that makes no event: that there is no token, that all events are made, or else that memory is refused.
    #[cold]
    #[inline(never)]
    pub(crate) fn refused(&self, element: u32) -> Option<Stepped>
        requires well { IsWell C.program C.width self.now }
        requires element { element < self.now.shape.elements }
        ensures exact { (pick : ℕ) → Steps (state_of C.program C.width self.now) element pick result (state_of C.program C.width self.now) [] }
        ensures none { TakesNone result }
    {
        if !self.has_token(element) {
            return Some(Stepped::Idle);
        }
        if self.lanes[element as usize].is_spent() {
            return None;
        }
        Some(Stepped::Memory)
    }

    // Whether the element may make an event: then it delivers the tokens that are on their way, and makes room to note the event, and
    // answers whether there was memory for both.
    #[inline(always)]
    fn is_ready<L: Log>(&mut self, element: u32, log: &mut EventLog<A, L>) -> bool
        requires well { IsWell C.program C.width self.old }
        requires element { element < self.old.shape.elements }
        ensures well { IsWell C.program C.width self.new }
        ensures same { state_of C.program C.width self.new ≡ state_of C.program C.width self.old }
        ensures events { log.new.events.items ≡ log.old.events.items }
        ensures sent { result ≡ true → self.new.sent.items ≡ [] }
        ensures arrived { result ≡ true → self.new.arrived ≡ 0 }
        ensures room { result ≡ true → L.KEEPS_EVENTS ≡ true → vec_len log.new.events < vec_capacity log.new.events }
    {
        if !self.may_step(element) {
            return false;
        }
        if self.settle().is_err() {
            return false;
        }
        log.make_room().is_ok()
    }

    // A step with no token on its way, where there is room to note an event.
    #[inline(always)]
    fn step_lane<L: Log, Site>(
        &mut self,
        element: u32,
        pick: u64,
        log: &mut EventLog<A, L>,
    ) -> Option<Stepped>
    where
        A: Clone,
        requires well { IsWell C.program C.width self.old }
        requires element { element < self.old.shape.elements }
        requires sent { self.old.sent.items ≡ [] }
        requires arrived { self.old.arrived ≡ 0 }
        requires room { L.KEEPS_EVENTS ≡ true → vec_len log.old.events < vec_capacity log.old.events }
        ensures well { IsWell C.program C.width self.new }
        ensures exact { (events : Events) × Steps (state_of C.program C.width self.old) element pick result (state_of C.program C.width self.new)
            events × (log.new.events.items ≡ logged L.KEEPS_EVENTS log.old.events.items events) }
    {
        let lane = &mut self.lanes[element as usize];
        let Some(token) = lane.token(pick) else {
            return Some(Stepped::Idle);
        };
        let stepped = lane.step::<Site>(pick, &mut self.sent)?;
        log.note_step(element, token, stepped);
        Some(stepped)
    }

    /// The element takes the token that `pick`, modulo the number of its tokens, names from the oldest on; `None` where it
    /// has a token and has made all its events.
    #[inline(always)]
    pub fn step<L: Log, Site>(
        &mut self,
        element: u32,
        pick: u64,
        log: &mut EventLog<A, L>,
    ) -> Option<Stepped>
    where
        A: Clone,
        requires well { IsWell C.program C.width self.old }
        requires element { element < self.old.shape.elements }
        ensures well { IsWell C.program C.width self.new }
        ensures exact { (events : Events) × Steps (state_of C.program C.width self.old) element pick result (state_of C.program C.width self.new)
            events × (log.new.events.items ≡ logged L.KEEPS_EVENTS log.old.events.items events) }
    {
        if !self.is_ready(element, log) {
            return self.refused(element);
        }
        self.step_lane::<L, Site>(element, pick, log)
    }

    // Whether there is a token.
    fn has_tokens(&self) -> bool
        requires well { IsWell C.program C.width self.now }
        ensures yes { result ≡ true → HasToken (state_of C.program C.width self.now) }
        ensures no { result ≡ false → tokens_in (state_of C.program C.width self.now).lanes ≡ [] }
    {
        for element in 0..self.shape.elements {
            if self.has_token(element) {
                return true;
            }
        }
        false
    }

    // Makes one step of a run, and answers whether the run halts there. A run over a list passes over an element that has
    // made all its events. Each answer of the step goes its own way, so that after an event nothing is asked.
    #[inline(always)]
    pub(crate) fn advance<L: Log, Site>(
        &mut self,
        order: Order,
        element: u32,
        pick: u64,
        log: &mut EventLog<A, L>,
    ) -> Option<Halt>
    where
        A: Clone,
        requires well { IsWell C.program C.width self.old }
        requires element { element < self.old.shape.elements }
        ensures well { IsWell C.program C.width self.new }
        ensures exact { (events : Events) × Advances (is_by_list order) (state_of C.program C.width self.old) element pick
            (state_of C.program C.width self.new) events result × (log.new.events.items ≡ logged L.KEEPS_EVENTS log.old.events.items events) }
    {
        if !self.is_ready(element, log) {
            let refused = self.refused(element);
            return self.halts(order, refused);
        }
        match self.step_lane::<L, Site>(element, pick, log) {
            None => self.halts(order, None),
            Some(Stepped::Did) => None,
            Some(other) => self.halts(order, Some(other)),
        }
    }

    // The same as `halted`. What has to lie in memory to go out of line is made here, and not at each event.
    #[inline(always)]
    pub(crate) fn halts(&self, order: Order, stepped: Option<Stepped>) -> Option<Halt>
        requires well { IsWell C.program C.width self.now }
        ensures { IsHalt (is_by_list order) stepped (state_of C.program C.width self.now) result }
    {
        let other = stepped;
        self.halted(order, other)
    }

    // Whether a run halts at a step that made no event.
    #[cold]
    #[inline(never)]
    fn halted(&self, order: Order, stepped: Option<Stepped>) -> Option<Halt>
        requires well { IsWell C.program C.width self.now }
        ensures { IsHalt (is_by_list order) stepped (state_of C.program C.width self.now) result }
    {
        match stepped {
            Some(Stepped::Did) => None,
            None => match order {
                Order::ByList => None,
                Order::InTurn => Some(Halt::Steps),
            },
            Some(Stepped::Idle) => (!self.has_tokens()).then_some(Halt::NoToken),
            Some(Stepped::Clash { cell }) => Some(Halt::Clash { cell }),
            Some(Stepped::Stuck { rule }) => Some(Halt::Stuck { rule }),
            Some(Stepped::Memory) => Some(Halt::Memory),
        }
    }

    /// Makes one step for each element and pick of the list, in order, and answers why it makes no more.
    pub fn play<L: Log>(&mut self, picks: &[(u32, u64)], log: &mut EventLog<A, L>) -> Halt
    where
        A: Clone,
        requires well { IsWell C.program C.width self.old }
        requires elements { All (λ pick. pick.0 < self.old.shape.elements) picks.now }
        ensures well { IsWell C.program C.width self.new }
        ensures exact { (events : Events) × Plays true picks.now (state_of C.program C.width self.old) (state_of C.program C.width self.new) result
            events × (log.new.events.items ≡ logged L.KEEPS_EVENTS log.old.events.items events) }
    {
        for (element, pick) in picks {
            match self.advance::<L, ()>(Order::ByList, *element, *pick, log) {
                None => {}
                Some(halt) => return halt,
            }
        }
        if self.has_tokens() {
            Halt::Steps
        } else {
            Halt::NoToken
        }
    }

    // Lets the one element make one event after another where no token is on its way, and answers why it makes no more.
    #[inline(always)]
    fn run_alone(&mut self) -> Option<Stepped>
    where
        A: Clone,
        requires well { IsWell C.program C.width self.old }
        requires one { self.old.shape.elements ≡ 1 }
        requires sent { self.old.sent.items ≡ [] }
        requires arrived { self.old.arrived ≡ 0 }
        ensures well { IsWell C.program C.width self.new }
        ensures shape { self.new.shape ≡ self.old.shape }
        ensures exact { (made : Events) × (last : State) × LeadsTo 1 (state_of C.program C.width self.old) made last × (events : Events)
            × Steps last 0 0 result (state_of C.program C.width self.new) events }
    {
        let lane = &mut self.lanes[0];
        make_events(lane, &mut self.sent)
    }

    // The same as `play_in_turn`, of one element, where no event is listed: the element is always in turn.
    #[inline(never)]
    fn play_alone<L: Log>(&mut self, log: &mut EventLog<A, L>) -> Halt
    where
        A: Clone,
        requires well { IsWell C.program C.width self.old }
        requires one { self.old.shape.elements ≡ 1 }
        requires quiet { L.KEEPS_EVENTS ≡ false }
        ensures well { IsWell C.program C.width self.new }
        ensures exact { (rounds : ℕ) × (events : Events) × Plays false (rounds_of rounds self.old.shape.elements)
            (state_of C.program C.width self.old) (state_of C.program C.width self.new) result events
            × (log.new.events.items ≡ logged L.KEEPS_EVENTS log.old.events.items events) }
    {
        if !self.is_settled() {
            return self.play_passes(log);
        }
        let stepped = self.run_alone();
        match self.halts(Order::InTurn, stepped) {
            None => self.play_passes(log),
            Some(halt) => halt,
        }
    }

    // The same as `play_in_turn`, of one element, where each event is listed. After as many steps as there may be events it goes on
    // as with any number of elements. That steps are counted lets each way through an event lead straight on to the next one.
    #[inline(never)]
    fn play_listed<L: Log>(&mut self, log: &mut EventLog<A, L>) -> Halt
    where
        A: Clone,
        requires well { IsWell C.program C.width self.old }
        requires one { self.old.shape.elements ≡ 1 }
        ensures well { IsWell C.program C.width self.new }
        ensures exact { (rounds : ℕ) × (events : Events) × Plays false (rounds_of rounds self.old.shape.elements)
            (state_of C.program C.width self.old) (state_of C.program C.width self.new) result events
            × (log.new.events.items ≡ logged L.KEEPS_EVENTS log.old.events.items events) }
    {
        let mut left = self.shape.steps;
        'events: while left != 0 {
            match self.advance::<L, Listed<L>>(Order::InTurn, 0, 0, log) {
                None => {}
                Some(halt) => return halt,
            }
            left -= 1;
        }
        self.play_passes(log)
    }

    // The same as `play_in_turn`, of any number of elements.
    fn play_passes<L: Log>(&mut self, log: &mut EventLog<A, L>) -> Halt
    where
        A: Clone,
        requires { IsWell C.program C.width self.old }
        ensures well { IsWell C.program C.width self.new }
        ensures exact { (rounds : ℕ) × (events : Events) × Plays false (rounds_of rounds self.old.shape.elements)
            (state_of C.program C.width self.old) (state_of C.program C.width self.new) result events
            × (log.new.events.items ≡ logged L.KEEPS_EVENTS log.old.events.items events) }
    {
        'passes: loop {
            for element in 0..self.shape.elements {
                match self.advance::<L, ()>(Order::InTurn, element, 0, log) {
                    None => {}
                    Some(halt) => return halt,
                }
            }
        }
    }

    /// Makes one step after another, each with the oldest token of an element, the elements in turn, and answers why it
    /// makes no more.
    pub fn play_in_turn<L: Log>(&mut self, log: &mut EventLog<A, L>) -> Halt
    where
        A: Clone,
        requires { IsWell C.program C.width self.old }
        ensures well { IsWell C.program C.width self.new }
        ensures exact { (rounds : ℕ) × (events : Events) × Plays false (rounds_of rounds self.old.shape.elements)
            (state_of C.program C.width self.old) (state_of C.program C.width self.new) result events
            × (log.new.events.items ≡ logged L.KEEPS_EVENTS log.old.events.items events) }
    {
        if self.shape.elements != 1 {
            self.play_passes(log)
        } else if L::KEEPS_EVENTS {
            self.play_listed(log)
        } else {
            self.play_alone(log)
        }
    }

    // How many requests for credits wait.
    fn credits(&self) -> u64
        requires { IsSoundState (state_of C.program C.width self.now) }
        ensures { result ≡ sum_below (total (state_of C.program C.width self.now).setting)
            (λ f. credits_below self.now.shape.elements (map held_of self.now.lanes.items) (C.width self.now.shape.code.now) f) }
    {
        let width = self.shape.code.slots();
        let mut count: u64 = 0;
        for frame in 0..self.shape.elements * self.shape.frames {
            let lane = &self.lanes[(frame % self.shape.elements) as usize];
            count += credits_in(lane, frame, width);
        }
        count
    }

    /// What the lanes hold, for a report.
    pub fn add_up(self, alloc: A) -> Result<LaneTotals<A>, AllocError>
        requires { IsSoundState (state_of C.program C.width self) }
        ensures { IfOk result (λ reported. ShowsLaneParts (state_of C.program C.width self.entry).setting (map held_of self.entry.lanes.items)
            reported.outputs.items reported.cells.items reported.deferred reported.requests reported.credits reported.out) }
    {
        let number = self.shape.code.cells();
        let cells = full_cells(alloc, &self.lanes, self.shape.elements, number)?;
        let deferred = deferred(&self.lanes, self.shape.elements, number)?;
        let credits = self.credits();
        let Elements { mut lanes, .. } = self;
        let first = lanes.swap_remove(0);
        let requests = requests(first.manager());
        let out = frames_out(first.manager());
        let outputs = first.into_outputs();
        Ok(LaneTotals {
            outputs,
            cells,
            deferred,
            requests,
            credits,
            out,
        })
    }
}

/// What lanes hold, for a report.
#[derive(Drop)]
pub struct LaneTotals<A: Allocator> {
    pub outputs: ArrayVec<Option<Value>, 16>,
    pub cells: Vec<(u32, Value), A>,
    pub deferred: u64,
    pub requests: u64,
    pub credits: u64,
    pub out: u64,
}
