//! What can be seen of an event.

/// What an event did.
#[derive(Clone, Copy, Debug, PartialEq, Eq)]
pub enum Deed {
    /// A token arrived at an instruction and waits in its slot: for the other word, or, of a `drain`, for the credits that are out.
    Waited,
    /// An instruction fired, whether it made tokens or not, and whatever its slot holds then.
    Fired,
    /// A fetch found a value.
    Answered,
    /// A fetch found none, and its reader waits.
    Deferred,
    /// A value was stored, and no reader waited for it.
    Stored,
    /// A value was stored, and readers that waited are answered.
    Served,
    /// A request for a frame was given one.
    Given,
    /// A request waits, for a frame, or in the slot of a `take` for a credit.
    Queued,
    /// A frame that was handed back is free.
    Freed,
    /// A frame that was handed back was given to a request that waited.
    HandedOn,
    /// A result, or the signal that all is done, arrived at the host.
    Arrived,
}

/// What an event did, and what the machine holds after it.
#[derive(Clone, Copy, Debug, PartialEq, Eq)]
pub struct Moment {
    pub deed: Deed,
    /// How many tokens there are.
    pub tokens: u64,
    /// How many slots of all frames are not empty.
    pub full_slots: u64,
    /// How many frames are out.
    pub frames_out: u64,
}
