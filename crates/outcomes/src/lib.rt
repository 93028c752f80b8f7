//! The outcome of a command: why it has no result, or how what it ran ended. The exit status is a function of that, and so
//! is what is reported to a person on standard error.
#![tactic(auto)]

mod outcome;
mod refusal;

pub use outcome::{Ending, FailedRow, MadeFault, Outcome, status_of};
pub use refusal::Refusal;
