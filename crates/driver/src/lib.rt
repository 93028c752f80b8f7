//! From the text of a graph to its object, and to the report of its run. The headline is the contract of `emulation::emulate`,
//! and of `emulation::run_text`, which lists no events.
#![tactic(auto)]

pub mod books;
pub mod compiling;
pub mod completion;
pub mod emulation;
pub mod fault;
pub mod meaning;
pub mod modes;
pub mod needs;
pub mod objects;
pub mod order;
pub mod resources;
pub mod running;
pub mod values;
pub mod watching;
