//! Random well-formed graphs of all kinds, and random orders of steps.

pub mod blocks;
mod deeds;
pub mod dice;
pub mod graphs;
pub mod kind;
pub mod orders;
