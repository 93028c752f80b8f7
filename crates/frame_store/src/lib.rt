//! The slots of all frames in one vector, lent out in banks.
#![tactic(auto)]

pub mod bank;
pub mod frame;
pub mod lent;
pub mod slot;
pub mod store;
pub mod store_bank;
