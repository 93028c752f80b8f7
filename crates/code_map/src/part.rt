//! The parts of a block of which code is made.

/// What an instruction of a block belongs to.
#[derive(Clone, Copy, Debug, PartialEq, Eq)]
pub enum Part {
    /// The entry of the block, which takes the continuation.
    Continuation,
    /// The node of that number: an input, whose instruction is its entry, or the node of a line. A call has all that it asks for a
    /// frame, sends arguments and takes results with; a loop has its credits as well, and a conditional has the switch of its triggers.
    Node { node: u32 },
    /// The return of that output.
    Output { output: u32 },
    /// The turn of a loop's iteration: the switches by its flag, the next iteration, the end of the loop, and the joins of these two.
    Turn,
    /// The joins of the ends in the arms of that node, which is a conditional, and the copy in which they end.
    Joins { node: u32 },
    /// The joins of the ends outside all arms, and the release of the frame.
    Release,
}
