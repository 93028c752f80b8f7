//! What the exports for C answer: a text in the caller's buffer, and numbers that say what became of it.
#![tactic(auto)]

mod filling;
mod result;

pub use filling::fill;
pub use result::{EtsResult, Place, answer, result_of};
