//! Elements that run freely: each in a thread of its own for the whole run, over the mailboxes of a mesh.
#![tactic(auto)]

mod attendance;
mod belongings;
mod blocks;
mod bundle;
mod bundling;
mod by_depth;
mod free;
mod runner;
mod spares;
mod starting;
mod taking;
mod turn_length;
mod turns;

pub use free::{run, run_quietly, run_quietly_taking, run_taking};
