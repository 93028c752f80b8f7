//! Words, tokens and the states of slots as they lie in memory: in words of 64 bits. Each packed type has the value that it
//! stands for as its model, so that contracts speak of words, tokens and states alone. A token for an instruction has
//! exactly the words of the slot in which it waits.
#![tactic(auto)]

pub mod packing;
pub mod token;
pub mod word;
