//! What instructions of an object belong to.

use crate::part::Part;

/// What an instruction of an object belongs to: a part of a block of the graph.
#[derive(Clone, Copy, Debug, PartialEq, Eq)]
pub struct Owner {
    /// The number of the block.
    pub block: u32,
    /// Whether it is in the code of a loop's iteration, and not in that of a call.
    pub turns: bool,
    pub part: Part,
}
