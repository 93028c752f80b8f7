//! The one refusal.

use std::alloc::AllocError;

/// A growth was refused.
#[derive(Clone, Copy, Debug, PartialEq, Eq, Drop)]
pub struct Memory;

impl From<AllocError> for Memory {
    fn from(_refused: AllocError) -> Memory {
        Memory
    }
}
