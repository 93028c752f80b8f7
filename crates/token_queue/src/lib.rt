//! A queue of tokens.
#![tactic(auto)]

pub mod queue;
