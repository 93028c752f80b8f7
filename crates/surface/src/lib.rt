//! The derived forms of the source language: their tokens and trees, the rules that they keep, and what each of them is
//! short for. A program of them is made into one of the core, which is the language of `source`, and means what that means.
//!
//! Definitions alone, and the types in which code has such programs.
#![tactic(auto)]

pub mod fault;
pub mod program;
pub mod token;
pub mod word;
