//! Files that the words of a command line name: their bytes, or why they cannot be read; what they have, as their content shows; and the inputs
//! among the words, as the lines that a command reads.
#![tactic(auto)]

mod bytes;
mod content;
mod lines;
mod unread;

pub use bytes::{LIMIT, read_bytes};
pub use content::{Content, Reads, content_of, reads_of};
pub use lines::{are_given, send_inputs};
pub use unread::{Unread, send_unread};
