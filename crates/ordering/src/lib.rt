//! The blocks of events of elements that ran freely are put into one legal order. It uses no threads.
#![tactic(auto)]

mod legal_order;
pub mod log;
mod pool;
mod rest;

pub use legal_order::order;
