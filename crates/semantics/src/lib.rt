//! The definitions that every contract of the project cites: graph, meaning, program, machine, and when they agree.
#![tactic(auto)]

pub mod graph;
pub mod opcode;
pub mod program;
pub mod report;
pub mod version;
pub mod words;
