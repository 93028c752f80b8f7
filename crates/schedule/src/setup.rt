//! A machine that is taken apart.

ghost use Rattle.std.specs.Prelude.{◌≡◌, ℤ, List, [], Bool, true, false};
ghost use Rattle.tags.specs.declared.token.Token.{Token};
ghost use Rattle.semantics.specs.Machine.{Events, outputs_of};
ghost use Rattle.schedule.specs.declared.halt.Halt.{Halt};
ghost use Rattle.schedule.specs.Unlisted.{ShowsBut};
ghost use Rattle.schedule.specs.Setting.{size};
ghost use Rattle.schedule.specs.State.{IsSoundState, setting_in};
ghost use Rattle.schedule.specs.Runs.{Began, HaltsAs, NamesCell};
ghost use Rattle.schedule.specs.Reported.{IsReportOf, opening_picture};
ghost use Rattle.schedule.specs.Apart.{state_in, so_far_of, with_arriving};

use crate::elements::Elements;
use crate::halt::Halt;
use crate::log::{EventLog, Log};
use crate::main_code::MainCode;
use crate::report::Report;
use crate::reporting::{opening_report, report_of};
use crate::shape::Shape;
use element::lane::Lane;
use packed::token::PackedToken;
use std::alloc::Allocator;

/// What a machine has besides its lanes.
#[derive(Drop)]
pub struct Setup<'m, C: MainCode, A: Allocator, L: Log> {
    pub shape: Shape<'m, C>,
    pub log: EventLog<A, L>,
    // The list in which tokens were on their way.
    pub(crate) sent: Vec<PackedToken, A>,
    pub alloc: A,
}

/// A machine taken apart: its lanes in order, and the rest.
pub type Apart<'m, C, A, L> = (Setup<'m, C, A, L>, Vec<Lane<'m, C, A>, A>);

impl<'m, C: MainCode, A: Allocator, L: Log> Setup<'m, C, A, L> {
    /// What all lanes hold, with the events and the end of a run that halted so, whatever tokens are on their way; of a run whose events were not noted it
    /// shows all but these. Where its own lists are refused it is the report of the machine before its first event, with the end `Memory`.
    pub fn report(self, lanes: Vec<Lane<'m, C, A>, A>, halt: Halt) -> Report<A>
    where
        A: Clone,
        requires sound { IsSoundState (state_in C.program C.width self lanes.items) }
        requires cell { NamesCell (C.program self.shape.code.now) halt }
        ensures reported { IsReportOf (so_far_of C.program C.width self.entry lanes.entry.items) halt result }
        ensures unlisted { self.entry.log.events.items ≡ [] → result.events ≡ [] }
        ensures shows { (inputs : List ℤ) (by_list : Bool) (arriving : List Token) (events : Events)
            → IsSoundState (with_arriving (state_in C.program C.width self.entry lanes.entry.items) arriving)
            → Began inputs (with_arriving (state_in C.program C.width self.entry lanes.entry.items) arriving) events
            → HaltsAs (with_arriving (state_in C.program C.width self.entry lanes.entry.items) arriving) by_list halt
            → ShowsBut (C.program self.entry.shape.code.now) (size (setting_in C.program C.width self.entry.shape)) inputs self.entry.shape.steps
            by_list false self.entry.log.events.items events result }
        ensures stopped { halt ≡ Halt.Stop → (inputs : List ℤ) (by_list : Bool) (arriving : List Token) (events : Events)
            → IsSoundState (with_arriving (state_in C.program C.width self.entry lanes.entry.items) arriving)
            → Began inputs (with_arriving (state_in C.program C.width self.entry lanes.entry.items) arriving) events
            → ShowsBut (C.program self.entry.shape.code.now) (size (setting_in C.program C.width self.entry.shape)) inputs self.entry.shape.steps
            by_list true self.entry.log.events.items events result }
    {
        let Setup {
            shape,
            log,
            mut sent,
            alloc,
        } = self;
        let EventLog { events, .. } = log;
        sent.clear();
        let elements = Elements {
            shape,
            lanes,
            sent,
            arrived: 0,
        };
        report_of(elements, events, alloc, halt)
    }

    /// The report of the machine before its first event, with the end `Memory`.
    pub fn refused(self) -> Report<A>
        ensures { result ≡ opening_picture (outputs_of (C.program self.entry.shape.code.now)) }
    {
        let Setup {
            shape,
            log,
            alloc,
            ..
        } = self;
        let EventLog { events, .. } = log;
        opening_report(alloc, shape.code.outputs(), events)
    }
}
