//! Why events are not replayed.

ghost use Rattle.std.specs.Prelude.{◌≡◌};
ghost use Rattle.replay.specs.declared.fault.ReplayRefusal.TheVariants.{Memory};

use std::alloc::{AllocError, AllocFailed};

/// Why events are not replayed.
#[derive(Clone, Copy, Debug, PartialEq, Eq)]
pub enum ReplayRefusal {
    /// They are not those of a run of this code; of books, of one in which the free frame of least number is handed out, and a released frame
    /// goes to the request that has waited longest.
    NotARun,
    /// A growth was refused, or there is more than a number of 64 bits counts.
    Memory,
}

impl From<AllocError> for ReplayRefusal {
    ghost from_gives = { λ _ e. e ≡ Memory };

    fn from(_: AllocError) -> ReplayRefusal {
        ReplayRefusal::Memory
    }
}

impl<T: Drop> From<AllocFailed<T>> for ReplayRefusal {
    ghost from_gives = { λ _ e. e ≡ Memory };

    fn from(_: AllocFailed<T>) -> ReplayRefusal {
        ReplayRefusal::Memory
    }
}
