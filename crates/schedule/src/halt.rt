//! Why a run halts.

/// Why a run makes no further event.
#[derive(Clone, Copy, Debug, PartialEq, Eq)]
pub enum Halt {
    /// No token is left.
    NoToken,
    /// A token stores in this cell, which is full.
    Clash { cell: u32 },
    /// An element that had made all its events had a token to take, or the picks are used up.
    Steps,
    /// The rule of this number excludes a token.
    Stuck { rule: u8 },
    /// A growth was refused.
    Memory,
    /// No further event was allowed to begin. No run of `Machine` halts so.
    Stop,
}
