//! Why no slots were assigned.

ghost use Rattle.std.specs.Prelude.{◌≡◌};
ghost use Rattle.slot_alloc.specs.declared.faults.AssignFault.TheVariants.{Memory};

use std::alloc::{AllocError, AllocFailed};
use thiserror::Error;

/// Why no slots were assigned.
#[derive(Clone, Copy, Debug, PartialEq, Eq, Error)]
pub enum AssignFault {
    /// A holder of that block needs one more slot than a frame has.
    #[error("block {block} needs more slots than a frame has")]
    TooManySlots { block: u64 },
    /// A growth was refused.
    #[error("a growth was refused")]
    Memory,
}

impl From<AllocError> for AssignFault {
    ghost from_gives = { λ _ e. e ≡ Memory };

    fn from(_error: AllocError) -> AssignFault {
        AssignFault::Memory
    }
}

impl<T: Drop> From<AllocFailed<T>> for AssignFault {
    ghost from_gives = { λ _ e. e ≡ Memory };

    fn from(_error: AllocFailed<T>) -> AssignFault {
        AssignFault::Memory
    }
}
