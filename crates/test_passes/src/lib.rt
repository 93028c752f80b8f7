//! Tests of the passes from a graph to a plan: small graphs and plans made by hand go through one pass each. They are in a
//! crate of their own, since a crate with tests is proved twice.
#![tactic(auto)]

#[cfg(test)]
mod expanded;
#[cfg(test)]
mod folded;
#[cfg(test)]
mod narrowed;
