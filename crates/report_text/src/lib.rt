//! Reports as texts: what a run reported, and what the meaning of a graph gave.
#![tactic(auto)]

mod cells;
mod ends;
mod objects;
mod outputs;
mod writing;

pub use objects::write_object_report;
pub use writing::{write_meaning, write_report};
