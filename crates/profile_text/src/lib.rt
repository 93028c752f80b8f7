//! A profile as texts: how many activities the meaning of a graph has, how many waves, what the machine took, and what suffices in every order, as
//! lines and as a picture.
#![tactic(auto)]

mod lines;
mod numbers;
mod picture;
mod sufficient;

pub use lines::{MachineRow, write_profile};
pub use picture::write_svg;
pub use sufficient::Sufficient;
