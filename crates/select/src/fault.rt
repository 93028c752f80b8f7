//! Why no code was emitted.

ghost use Rattle.std.specs.Prelude.{◌≡◌};
ghost use Rattle.select.specs.declared.fault.EmitFault.TheVariants.{Memory};

use std::alloc::{AllocError, AllocFailed};
use thiserror::Error;

/// Why no code was emitted.
#[derive(Clone, Copy, Debug, PartialEq, Eq, Error)]
pub enum EmitFault {
    /// That block has more than 32,768 instructions, or brings the table of literals above 65,536. It is the first one.
    #[error("block {block} goes beyond what an object can have")]
    TooFar { block: u64 },
    /// A growth was refused.
    #[error("a growth was refused")]
    Memory,
}

impl From<AllocError> for EmitFault {
    ghost from_gives = { λ _ e. e ≡ Memory };

    fn from(_error: AllocError) -> EmitFault {
        EmitFault::Memory
    }
}

impl<T: Drop> From<AllocFailed<T>> for EmitFault {
    ghost from_gives = { λ _ e. e ≡ Memory };

    fn from(_error: AllocFailed<T>) -> EmitFault {
        EmitFault::Memory
    }
}
