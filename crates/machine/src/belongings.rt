//! What an element that runs freely holds besides its lane and its seat.

use crate::bundle::NearBundle;
use element::grant_order::GrantOrder;
use ordering::log::BlockLog;
use packed::token::PackedToken;
use schedule::log::{EventLog, Log};
use std::alloc::Allocator;

/// Its lists, with their memory.
#[derive(Drop)]
pub struct Belongings<A: Allocator, L: Log> {
    pub sent: Vec<PackedToken, A>,
    pub unposted: Vec<NearBundle<A>, A>,
    pub unqueued: NearBundle<A>,
    pub spare: Vec<NearBundle<A>, A>,
    pub log: EventLog<A, L>,
    pub order: GrantOrder<A>,
    pub notes: BlockLog<A>,
    pub alloc: A,
}
