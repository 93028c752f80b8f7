//! What each command prints, and the whole program over a reader and a writer: `serving::serve`. `driver` defines what a run
//! and a compiled object are.
#![tactic(auto)]

pub mod assembling;
mod comparing;
mod drawing;
mod enough;
pub mod feed;
pub mod filed;
pub mod input;
pub mod lowered;
pub mod orders;
pub mod paging;
pub mod piped;
pub mod profiling;
pub mod refusal;
pub mod refusal_text;
pub mod serving;
pub mod tracing;
