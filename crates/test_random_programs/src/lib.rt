//! Random programs of the source language. Each is written token by token, with a list of what is still to be written: no part is built
//! before it is written. Loops and functions that call themselves count down from 3 or less, so most programs end soon. A change in a
//! text has with it the places that are before it.
#![tactic(auto)]

pub mod damage;
pub mod evaluation;
mod expressions;
mod items;
mod parts;
mod statements;
mod writer;

pub use items::{Scale, program};
