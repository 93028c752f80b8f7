//! Tests of the passes between a plan and an object: slots, code and bytes. They are in a crate of their own, since a crate
//! with tests is proved twice. `test_sessions` shows listings, and the objects that are refused.
#![tactic(auto)]

#[cfg(test)]
mod assigned;
#[cfg(test)]
mod emitted;
#[cfg(test)]
mod opened;
