//! Tests of the map of an object, in a crate of their own, since a crate with tests is proved twice.
#![tactic(auto)]

#[cfg(test)]
mod maps;
#[cfg(test)]
mod texts;
