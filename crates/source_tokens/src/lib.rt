//! The text of a program: its tokens, exactly, the program and the inputs that it holds, and lines and columns.
#![tactic(auto)]

mod beginning;
mod lexing;
mod parting;
mod placing;
mod refusal;
mod runs;
mod signs;

pub use beginning::Beginning;
pub use lexing::{lex, name_at};
pub use parting::{Parted, split};
pub use placing::{LineColumn, Reached, first_place, position, reach};
pub use refusal::{Detail, Expected, Form, Head, Opened, ProgramRefusal, Stop, Within};
pub use runs::run_len;
