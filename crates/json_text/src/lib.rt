//! The JSON of a text that a command prints: one object, whose keys are of the text's lines. Numbers up to 2 ^ 53 - 1 are numbers;
//! greater ones, and all values of 64 bits, are strings.
#![tactic(auto)]

mod form;
mod law;
mod object;
mod row;
mod slot;
mod string;
mod value;
mod words;

pub use law::strings_are_whole;
pub use object::write_json;
