//! What the books of a run have of an event.

use crate::moment::Deed;
use std::alloc::Allocator;
use std::marker::Model;
use tags::slot::SlotState;
use tags::token::{Cont, FrameId, Token, Word};
use tags::value::Value;

/// What an event changed: one slot, cell, frame, request or output.
#[derive(Clone, Copy, Debug, PartialEq, Eq)]
pub enum Change {
    /// None of these.
    Nothing,
    /// A slot of a frame has this state then.
    Slot {
        frame: FrameId,
        slot: u32,
        state: SlotState,
    },
    /// One more reader of a cell waits, after those that wait.
    Reader {
        cell: u32,
        cont: Cont,
    },
    /// A cell has this value then, and no reader.
    Filled {
        cell: u32,
        value: Value,
    },
    /// A frame is out then.
    Out {
        frame: FrameId,
    },
    /// A frame is free then.
    Free {
        frame: FrameId,
    },
    /// One more request waits, after those that wait.
    Queued {
        cont: Cont,
    },
    /// The request that waited longest waits no more: it is given this frame, which stays out.
    Handed {
        frame: FrameId,
    },
    /// An output has this value then.
    Output {
        port: u32,
        value: Value,
    },
    /// All is done: this word went to the port after the outputs.
    Done {
        port: u32,
        word: Word,
    },
}

/// What the books of a run have of an event. All tokens of a run are numbered from 0 in the order in which they are made, those of
/// the start first.
#[derive(Drop)]
pub struct Entry<A: Allocator> {
    /// The number of the token that it took.
    pub number: u64,
    pub deed: Deed,
    pub change: Change,
    /// The tokens that it made, in order.
    pub made: Vec<Token, A>,
}

impl<A: Allocator> Model for Entry<A> {
    ghost use Rattle.replay.specs.Views.{EntryView};

    ghost Value = { EntryView };

    ghost view = { λ e. record { number = e.number; deed = e.deed; change = e.change; made = e.made.items } };
}

/// The books of a run's events from one on: what the machine has before it, and an entry for each event.
#[derive(Drop)]
pub struct Books<A: Allocator> {
    /// What the earlier events changed, one after the other. Of no earlier events there is none.
    pub changes: Vec<Change, A>,
    /// The tokens that are on their way before the first of the events, in the order in which they were made.
    pub tokens: Vec<Token, A>,
    /// The numbers of these tokens.
    pub numbers: Vec<u64, A>,
    /// The number of the next token that is made.
    pub next: u64,
    pub entries: Vec<Entry<A>, A>,
}

impl<A: Allocator> Model for Books<A> {
    ghost use Rattle.replay.specs.Views.{BooksView};

    ghost Value = { BooksView };

    ghost view = { λ b. record { changes = b.changes.items; tokens = b.tokens.items; numbers = b.numbers.items; next = b.next; entries = b.entries.items } };
}
