//! Traces as texts: the events of a run, what each one did, and what the machine holds after it, as lines and in the Trace Event
//! format.
#![tactic(auto)]

mod chrome;
mod columns;
mod lines;
mod words;

pub use chrome::write_chrome;
pub use lines::write_events;
pub use words::send_word;
