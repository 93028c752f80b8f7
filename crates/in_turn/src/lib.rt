//! Runs of elements that take turns on one thread, and what is printed of them. The inputs are integers, and no thread is started.
#![tactic(auto)]

pub mod printing;
pub mod running;
