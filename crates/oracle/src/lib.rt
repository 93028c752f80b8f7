//! What a graph means, by a plain run: a list of tagged tokens is rewritten one activity at a time (Arvind and Nikhil, IEEE
//! Transactions on Computers 39(3), 1990).
#![tactic(auto)]

mod calls;
mod deeds;
mod fetches;
mod gather;
mod invocations;
mod laws;
mod lines;
mod profile;
mod report;
mod runs;
mod sending;
mod shapes;
mod state;
mod tokens;
mod uses;
mod wave;

pub use calls::call_counts;
pub use fetches::waiting_fetches;
pub use laws::{calls_are_told, runs_are_meant, steps_agree, waves_are_meant};
pub use profile::waves;
pub use report::{CallCounts, Full, MeanEnd, MeanFault, MeanReport, WaitingFetch, WaveReport};
pub use runs::mean;
