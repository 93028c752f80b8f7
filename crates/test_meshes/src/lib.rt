//! Callers of the mesh: players in a ring, in threads of their own.
#![tactic(auto)]

pub mod player;
pub mod ring;
#[cfg(test)]
mod row;
pub mod step;
