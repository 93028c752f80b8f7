//! The map of an object as text: for each instruction a line with the part of the graph for which the compiler made it, and with
//! its place in the program where the graph was made of one.
#![tactic(auto)]

mod laws;
mod line;
mod map;
mod placing;

pub use laws::each_instruction_has_a_line;
pub use map::write_code_map;
pub use placing::ProgramPlaces;
