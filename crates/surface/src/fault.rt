//! Why a program with derived forms is refused, and where.

use thiserror::Error;

/// What is wrong with a program.
#[derive(Clone, Copy, Debug, PartialEq, Eq, Error)]
pub enum FaultKind {
    /// What may be wrong with a program of the core, too.
    #[error("{kind}")]
    Core { kind: source::fault::FaultKind },
    /// A `/*` with no `*/` after it.
    #[error("a comment does not end")]
    BadComment,
    /// A step of a constant that is no integer of 64 bits, or a part of it that is no number, constant or operator.
    #[error("no constant of 64 bits")]
    BadConst,
    /// More than three dimensions; an array as a parameter of `main`; or a function with no parameter that is a value.
    #[error("an array has one to three dimensions, and a function a parameter that is a value")]
    BadArray,
}

/// A fault, and its place: how many bytes of the program's text are before it.
#[derive(Clone, Copy, Debug, PartialEq, Eq, Error)]
#[error("{kind}")]
pub struct Fault {
    pub kind: FaultKind,
    pub at: usize,
}

/// A fault as it is reported: its line, and its column in bytes, both from 1.
#[derive(Clone, Copy, Debug, PartialEq, Eq, Error)]
#[error("line {line}, column {column}: {kind}")]
pub struct ProgramFault {
    pub kind: FaultKind,
    pub line: usize,
    pub column: usize,
}
