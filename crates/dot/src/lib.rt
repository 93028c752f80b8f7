//! Pictures as text in Graphviz's language DOT: of a graph, and of the code of an object.
#![tactic(auto)]

mod code_dot;
mod graph_dot;

pub use code_dot::write_code_dot;
pub use graph_dot::write_graph_dot;
