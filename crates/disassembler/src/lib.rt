//! The listing of an object: its code as lines of text.
#![tactic(auto)]

mod column;
mod line;
mod listing;
mod literals;

pub use line::{list_operand, port_letter};
pub use listing::{instr_in, list, list_with_literals};
pub use literals::literal_of;
