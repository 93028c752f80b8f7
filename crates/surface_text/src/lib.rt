//! The programs of texts with derived forms: what a text's tokens say is read by the parser's automaton, exactly.
#![tactic(auto)]

mod after;
mod bodies;
mod expected;
mod forms;
mod items;
mod lexeme;
mod names;
mod operands;
mod outcome;
mod parser;
mod reaction;
mod reading;
mod refusal;
mod signs;
mod texts;

pub use reading::{Parsed, Unread, parse};
pub use refusal::{Expected, Form, Opened, ProgramRefusal, Stop, Within};
pub use texts::{SurfaceText, read_program};
