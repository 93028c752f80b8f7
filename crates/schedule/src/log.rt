//! Where the events of a run are noted, if they are.

ghost use Rattle.std.specs.Prelude.{◌≡◌, ◌<◌, [], ◌∷◌, ◌++◌, OnOk, true, vec_len};
ghost use Rattle.std.specs.Vec.{vec_capacity};
ghost use Rattle.schedule.specs.Steps.{events_of, logged};

use element::lane::Stepped;
use std::alloc::{AllocError, Allocator};
use std::marker::PhantomData;
use tags::token::Token;

/// Whether the events of a run are listed.
pub trait Log {
    ghost use Rattle.std.specs.Prelude.{Bool};

    ghost KEEPS_EVENTS: { Bool };

    /// Whether they are.
    const KEEPS_EVENTS: bool;
}

/// Each event is listed.
pub struct FullLog;

impl Log for FullLog {
    ghost use Rattle.std.specs.Prelude.{true};

    ghost KEEPS_EVENTS = { true };

    const KEEPS_EVENTS: bool = true;
}

/// No event is listed, so a long run takes no more memory than a short one.
pub struct NoLog;

impl Log for NoLog {
    ghost use Rattle.std.specs.Prelude.{false};

    ghost KEEPS_EVENTS = { false };

    const KEEPS_EVENTS: bool = false;
}

/// The events of a run in order, where they are listed.
#[derive(Drop)]
pub struct EventLog<A: Allocator, L: Log> {
    /// Each event so far: the element, and the token that it took.
    pub events: Vec<(u32, Token), A>,
    log: PhantomData<L>,
}

impl<A: Allocator, L: Log> EventLog<A, L> {
    /// A log with no events. It takes no memory.
    pub fn new(alloc: A) -> EventLog<A, L>
        ensures { result.events.items ≡ [] }
    {
        EventLog {
            events: Vec::new(alloc),
            log: PhantomData,
        }
    }

    /// Makes room for an event.
    #[inline(always)]
    pub fn make_room(&mut self) -> Result<(), AllocError>
        ensures same { self.new.events.items ≡ self.old.events.items }
        ensures room { OnOk result (L.KEEPS_EVENTS ≡ true → vec_len self.new.events < vec_capacity self.new.events) }
    {
        if L::KEEPS_EVENTS {
            self.events.reserve(1)
        } else {
            Ok(())
        }
    }

    /// Notes that the element took the token.
    #[inline(always)]
    pub fn note(&mut self, element: u32, token: Token)
        requires { L.KEEPS_EVENTS ≡ true → vec_len self.old.events < vec_capacity self.old.events }
        ensures { self.new.events.items ≡ logged L.KEEPS_EVENTS self.old.events.items ((element, token) ∷ []) }
    {
        if L::KEEPS_EVENTS {
            self.events.push_reserved((element, token));
        }
    }

    /// Notes what a step did.
    #[inline(always)]
    pub fn note_step(&mut self, element: u32, token: Token, stepped: Stepped)
        requires { L.KEEPS_EVENTS ≡ true → vec_len self.old.events < vec_capacity self.old.events }
        ensures { self.new.events.items ≡ logged L.KEEPS_EVENTS self.old.events.items (events_of stepped element token) }
    {
        match stepped {
            Stepped::Did => self.note(element, token),
            _ => {}
        }
    }

    /// Takes the events of another log, and puts them last.
    pub fn append(&mut self, other: &mut EventLog<A, L>) -> Result<(), AllocError>
        ensures events { self.new.events.items ++ other.new.events.items ≡ self.old.events.items ++ other.old.events.items }
        ensures cleared { OnOk result (other.new.events.items ≡ []) }
    {
        self.events.append(&mut other.events)
    }

    /// A log of no events, in which none will be listed.
    pub fn forget(self) -> EventLog<A, NoLog>
        ensures { result.events.items ≡ [] }
    {
        let EventLog { mut events, .. } = self;
        events.clear();
        EventLog {
            events,
            log: PhantomData,
        }
    }
}
