//! What tests and measurements are given: graphs, plans and objects, made by hand, by pieces or at random; and a reader of pictures.
#![tactic(auto)]

pub mod dot_reader;
pub mod graph_texts;
pub mod objects;
pub mod parts;
pub mod pieces;
pub mod plans;
pub mod random_graphs;
pub mod rationed;
