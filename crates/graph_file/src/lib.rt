//! Graphs as texts: the reader and the writer.
#![tactic(auto)]

mod cause;
mod fault;
mod fields;
mod lines;
mod nodes;
mod parts;
mod reading;
mod whole;
mod words;
mod writing;

pub use cause::{Limit, LineCause, NumberCause, ReadCause, ReadRefusal, Unended};
pub use fault::{ReadFault, ReadFaultKind};
pub use fields::{literal, number};
pub use parts::{FieldPlace, Parts};
pub use reading::{read, read_graph};
pub use writing::{send_kind, write};
