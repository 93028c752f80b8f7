//! Values, words, tokens and the states of a slot: the plain data of the explicit token store.
#![tactic(auto)]

pub mod slot;
pub mod token;
pub mod value;
