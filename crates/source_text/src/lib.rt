//! The programs of texts: what a text's tokens say is read by the parser's automaton, exactly.
#![tactic(auto)]

mod after;
mod bodies;
mod expected;
mod items;
mod lexeme;
mod names;
mod numbers;
mod operands;
mod outcome;
mod parser;
mod reaction;
mod reading;
mod signs;
mod texts;

pub use reading::{Parsed, Unread, parse};
pub use texts::{SourceText, read_program};
