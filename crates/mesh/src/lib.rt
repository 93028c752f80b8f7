//! Mailboxes between elements that run freely, and one history of their commits.
//!
//! A mesh has one box, of one bundle of tokens, for each ordered pair of elements (an element with itself, too), a word
//! that counts the live tokens, and a word for the reason to stop. Each element has a seat. Any number of threads may
//! work at once, each with seats of its own, and no call waits. `docs/proofs/mesh.md` says what is promised.
#![tactic(auto)]

mod board;
mod boxes;
mod bundle;
mod memory;
mod mesh;
mod plays;
pub mod view;
mod words;

pub use bundle::Bundle;
pub use memory::Memory;
pub use mesh::{Mesh, Seat};
pub use plays::Ask;
