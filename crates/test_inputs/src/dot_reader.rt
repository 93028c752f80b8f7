//! Reads pictures in Graphviz's language DOT, in any layout: as much of the language as `ets dot` writes.

mod pictures;
mod tokens;

pub use pictures::{Edge, Node, Picture, read};
