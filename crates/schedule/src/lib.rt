//! The machine that runs code for the explicit token store: up to 16 elements on one thread, one token an event, in any
//! order that the caller picks.
#![tactic(auto)]

mod alone;
pub mod config;
mod counting;
mod delivery;
mod elements;
mod grants;
pub mod halt;
mod locating;
pub mod log;
pub mod machine;
pub mod main_code;
mod opening;
pub mod report;
mod reporting;
pub mod setup;
pub mod shape;
pub mod take;
mod turns;

pub use counting::frames_out;
