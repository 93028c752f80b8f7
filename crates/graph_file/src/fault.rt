//! Why a text could not be read.

use thiserror::Error;

/// What is wrong with a text: the first fault of its lines in order.
#[derive(Clone, Copy, Debug, PartialEq, Eq, Error)]
pub enum ReadFaultKind {
    /// The text begins with neither header.
    #[error("the text begins with neither header")]
    NoHeader,
    /// A line of no form that is allowed there.
    #[error("a line of no form that may stand here")]
    BadLine,
    /// A number, a literal or a source that is not well written or too large, or a length of 0.
    #[error("a bad number, literal or source")]
    BadNumber,
    /// A name that is not well written or longer than 32 bytes.
    #[error("a bad name")]
    BadName,
    /// The text ends inside a block, or its last line has no line feed.
    #[error("the text ends inside a block or a line")]
    Unended,
    /// The text ends outside a block, and no `main` line was met.
    #[error("the text has no main line")]
    NoMain,
    /// A limit on arrays, cells, blocks, nodes, inputs, outputs or sources is passed.
    #[error("a limit is passed")]
    TooMany,
    /// There is something after the `main` line.
    #[error("something stands after the main line")]
    TrailingText,
    /// A growth was refused.
    #[error("out of memory")]
    Memory,
}

/// A fault, and the line at which it is, from 1.
#[derive(Clone, Copy, Debug, PartialEq, Eq, Error)]
#[error("line {line}: {kind}")]
pub struct ReadFault {
    pub kind: ReadFaultKind,
    pub line: u64,
}
