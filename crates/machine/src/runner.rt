//! An element that runs freely, with all that it holds.

use crate::bundle::{NearBundle, NearSeat};
use element::grant_order::GrantOrder;
use element::instructions::Instructions;
use element::lane::Lane;
use ordering::log::BlockLog;
use packed::token::PackedToken;
use schedule::halt::Halt;
use schedule::log::{EventLog, Log};
use std::alloc::Allocator;

/// An element cannot report what it did: memory for its notes was refused, or its commits made more tokens than a mesh counts
/// (that does not happen in a run that fits in memory).
#[derive(Clone, Copy, Debug, PartialEq, Eq)]
pub struct Lost;

/// Why an element makes no more events.
#[derive(Clone, Copy, Debug, PartialEq, Eq)]
pub enum Departure {
    /// It cannot report what it did.
    Lost,
    /// For a reason of its own.
    Halted(Halt),
    /// No token is live.
    Rested,
    /// Another element called for a stop.
    Stopped,
    /// It has no token that it might take, and others have not begun: it waited for them in vain.
    Waited,
}

/// A lane with its seat, and the tokens that it holds outside its queue.
#[derive(Drop)]
pub struct Runner<'m, C: Instructions, A: Allocator, L: Log> {
    pub lane: Lane<'m, C, A>,
    pub seat: NearSeat<A>,
    /// What its last block made for other elements.
    pub sent: Vec<PackedToken, A>,
    /// How many of these lie in bundles already.
    pub bundled: usize,
    /// For each element the tokens that are not posted yet.
    pub unposted: Vec<NearBundle<A>, A>,
    /// What it took and could not put into its queue.
    pub unqueued: NearBundle<A>,
    /// Bundles that are done with, whose memory is used again.
    pub spare: Vec<NearBundle<A>, A>,
    /// The events of its turn.
    pub log: EventLog<A, L>,
    /// In which order it grants requests for frames that it holds back.
    pub order: GrantOrder<A>,
    /// Its blocks, where events are listed.
    pub notes: BlockLog<A>,
    /// How many tokens its commits made.
    pub created: u64,
    /// How many blocks it asked for.
    pub blocks: u64,
    pub departure: Departure,
    pub alloc: A,
}
