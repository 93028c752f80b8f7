//! A reader that also keeps what goes through it. It passes on the same bytes as the reader inside it.
#![tactic(auto)]

mod reader;
mod start;

pub use reader::KeepingReader;
pub use start::Start;
