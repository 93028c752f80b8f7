//! Programs that are run from their text to their report, in each mode. They are in a crate of their own, since a crate with tests
//! is proved twice.
#![tactic(auto)]

#[cfg(test)]
mod runs;
