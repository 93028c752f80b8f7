//! How the processing elements of a run take turns.
#![tactic(auto)]

/// How the elements take turns.
#[derive(Clone, Copy, Debug, PartialEq, Eq)]
pub enum Mode {
    /// One event after another, on one thread.
    One,
    /// In rounds, each element in a thread of its own.
    Rounds,
    /// Free, each element in a thread of its own for the whole run.
    Free,
}
