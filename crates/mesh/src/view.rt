//! What a seat knows, as the table keeps it. No value of these types is made.

use std::collections::LinkedList;
use tags::token::Token;

/// One commit of an element: the tokens that it spent, and those that it made.
pub struct Commit {
    pub element: u32,
    pub spent: LinkedList<Token>,
    pub made: LinkedList<Token>,
}

/// What an element did, or what a look of it found.
pub enum Deed {
    /// Spent these, made those.
    Committed(LinkedList<Token>, LinkedList<Token>),
    /// Put this bundle into the box to that element.
    Posted(u32, LinkedList<Token>),
    /// Found the box to that element full, while it held this bundle.
    FoundFull(u32, LinkedList<Token>),
    /// Took this bundle out of the box from that element.
    Took(u32, LinkedList<Token>),
    /// Found the box from that element empty.
    FoundEmpty(u32),
    /// Read this number of live tokens.
    SawLive(u64),
    /// Tried to set the first as the reason to stop, and found the second: 0 where it was set.
    Stopped(u64, u64),
    /// Read that reason to stop, or 0.
    SawStop(u64),
}

/// Where an element is between the two steps of a call.
pub enum Stage {
    Idle,
    /// It holds the empty slot of its box to that element.
    Posting(u32),
    /// It holds the full slot of its box from that element, with that bundle.
    Taking(u32, LinkedList<Token>),
}

/// One element's part.
pub struct Part {
    pub element: u32,
    /// In their order.
    pub deeds: LinkedList<Deed>,
    /// The tokens that it holds, in any order.
    pub held: LinkedList<Token>,
    pub stage: Stage,
    /// The history as its own last commit or read of the live word saw it.
    pub last: LinkedList<Commit>,
}

/// What a seat at the table knows.
pub struct View {
    /// How many elements the mesh has.
    pub elements: u32,
    pub start: LinkedList<Token>,
    /// The parts of the elements from here on are this seat's too, and fresh.
    pub spare: u32,
    pub parts: LinkedList<Part>,
    /// A beginning of the history.
    pub seen: LinkedList<Commit>,
}
