//! Why a text is no listing of an object.

use thiserror::Error;

/// What is wrong with a listing first.
#[derive(Clone, Copy, Debug, PartialEq, Eq, Error)]
pub enum AsmFaultKind {
    /// A line of no form that is allowed there.
    #[error("a line of no form that may stand here")]
    BadLine,
    /// A number or a literal that is not well written or too large, or a line's number that is not the next one.
    #[error("a bad number")]
    BadNumber,
    /// No operation has the name.
    #[error("no operation has this name")]
    BadName,
    /// A slot where the operation uses none, none where it uses one, or one that the block does not have.
    #[error("a bad slot")]
    BadSlot,
    /// A destination that is not well written or leaves the block, a right port of an instruction that takes one token, or a
    /// wrong number of destinations.
    #[error("a bad destination")]
    BadDestination,
    /// An operand that the operation does not have, or that names nothing.
    #[error("a bad operand")]
    BadOperand,
    /// An origin that is not well written, or is given where no fault is made or in version 1.
    #[error("a bad origin")]
    BadOrigin,
    /// Literals that do not ascend or are too many, or one that is not in the table.
    #[error("a bad literal")]
    BadLiteral,
    /// The text ends before the first line of a block.
    #[error("the text ends before the first block")]
    Unended,
    /// The version is neither 1 nor 2.
    #[error("the version is neither 1 nor 2")]
    BadVersion,
    /// A count, a block's numbers, an array's length, or the block that is run.
    #[error("a bad count, block or array")]
    BadTable,
    /// A growth was refused.
    #[error("out of memory")]
    Memory,
}

/// A fault, and the line that it is about, from 1.
#[derive(Clone, Copy, Debug, PartialEq, Eq, Error)]
#[error("line {line}: {kind}")]
pub struct AsmFault {
    pub kind: AsmFaultKind,
    pub line: u64,
}
