//! What a slot of a frame holds.

use crate::token::{Cont, Word};

/// The state of a slot: its presence bits and what they say is there (Papadopoulos and Culler, ISCA 1990, with this
/// project's credits for k-bounded loops).
#[derive(Clone, Copy, Debug, PartialEq, Eq)]
pub enum SlotState {
    Empty,
    /// A word that arrived on the left port waits for its partner.
    Left(Word),
    /// A word that arrived on the right port waits for its partner.
    Right(Word),
    /// How many iterations may still begin.
    Credits(u32),
    /// No credit is left, and this one waits for the next.
    Waiter(Cont),
    /// The loop has ended, and this number of iterations have not given their credit back.
    Draining(u32),
}
