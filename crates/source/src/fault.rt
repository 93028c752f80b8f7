//! Why a program is refused, and where.

use thiserror::Error;

/// What is wrong with a program.
#[derive(Clone, Copy, Debug, PartialEq, Eq, Error)]
pub enum FaultKind {
    /// A byte that begins no token.
    #[error("a byte that begins no token")]
    BadByte,
    /// A number that is not well written, or above 9223372036854775807 with no `-` directly before it.
    #[error("a bad number")]
    BadNumber,
    /// A name of more than 24 bytes, with `__` in it, with `_` as its first byte, or reserved.
    #[error("a bad name")]
    BadName,
    /// A token that does not continue what is before it.
    #[error("something else should stand here")]
    Unexpected,
    /// The program ends before it is complete.
    #[error("the program ends too early")]
    Unended,
    /// More than 200 expressions, signs before an operand and conditionals are open at once.
    #[error("nested too deeply")]
    TooDeep,
    /// A `:=` after something that is not a cell of an array.
    #[error("what is stored to is no cell of an array")]
    NotACell,
    /// A name of an array, of a function or of a value that stands for something else already.
    #[error("this name stands for something else already")]
    SameName,
    /// A name that stands for nothing.
    #[error("no value, array or function has this name")]
    NoSuchName,
    /// A number of values other than the number that is needed.
    #[error("a wrong number of values")]
    Arity,
    /// A loop's bound that is not 2 to 64.
    #[error("a bound is not 2 to 64")]
    BadBound,
    /// An array's length that is not 1 to 65,536, or a number of results that is not 1 to 16.
    #[error("a length is not 1 to 65536, or a number of results is not 1 to 16")]
    BadCount,
    /// More than 64 arrays, 65,536 cells or 16 parameters.
    #[error("too many arrays, cells or parameters")]
    TooMany,
    /// A loop's names and the outside names that a turn uses are more than 15.
    #[error("a turn carries more than 15 values")]
    TooWide,
    /// A block with more than 1,024 nodes, or more than 256 blocks.
    #[error("a block has more than 1024 nodes, or there are more than 256 blocks")]
    TooBig,
    /// No function is called `main`.
    #[error("no function main")]
    NoMain,
    /// A growth was refused.
    #[error("out of memory")]
    Memory,
}

/// A fault, and its place: how many bytes of the program's text are before it.
#[derive(Clone, Copy, Debug, PartialEq, Eq, Error)]
#[error("{kind}")]
pub struct Fault {
    pub kind: FaultKind,
    pub at: usize,
}

/// A fault as it is reported: its line, and its column in bytes, both from 1.
#[derive(Clone, Copy, Debug, PartialEq, Eq, Error)]
#[error("line {line}, column {column}: {kind}")]
pub struct ProgramFault {
    pub kind: FaultKind,
    pub line: usize,
    pub column: usize,
}
