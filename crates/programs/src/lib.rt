//! Programs that are run: a text's program is lowered to a graph, which is compiled, and its code is run. What a report says of
//! the program is the contract of `running::run_program`.
#![tactic(auto)]

pub mod compiling;
pub mod fault;
pub mod laws;
pub mod running;
