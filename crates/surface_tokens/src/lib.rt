//! The tokens of a text with derived forms, exactly. What they begin with is what the core's begin with, and three things more:
//! comments between `/*` and `*/`, the sign `..`, and seven words, which the core reserves.
//!
//! Its parts, its places and the bytes of its names are those of any program: `source_tokens` has them.
#![tactic(auto)]

mod beginning;
mod comments;
mod lexing;
mod words;

pub use lexing::lex;
