//! Why a text is refused: its first fault, and what was known where that was found.

ghost use Rattle.std.specs.Prelude.{◌≡◌};
ghost use Rattle.graph_file.specs.Causes.{fault_kind, fault_of};
ghost use Rattle.graph_file.specs.declared.fault.ReadFaultKind.TheVariants.{Memory};

use crate::fault::{ReadFault, ReadFaultKind};
use crate::parts::FieldPlace;
use std::alloc::{AllocError, AllocFailed};

/// Why a line has none of the forms that are allowed there.
#[derive(Clone, Copy, Debug)]
pub enum LineCause {
    /// A byte that no line has.
    Byte(FieldPlace),
    /// A space that does not separate two fields. An empty line has none, and is reported so.
    Space(FieldPlace),
    /// Before the first block: it begins with neither `array` nor `block` nor `main`.
    NoItem,
    /// After a block: it begins with neither `block` nor `main`.
    NoBlock,
    /// It begins with `array`, `block` or `main`, and has this many fields after that, where another number belongs.
    Fields(u64),
    /// After an `out` line: it is not `end`.
    NoEnd,
    /// Inside a block: its first field is not a region.
    NoRegion,
    /// It has a region alone.
    NoKind,
    /// The field after its region is not the kind of a node of this version.
    UnknownKind,
    /// It has this many fields after its kind, which has operands, and takes another number of them and of sources.
    Operands(u64),
    /// Its kind has no operands, and takes another number of sources.
    Sources { has: u64, wants: u64 },
}

/// What is not well written, or too large.
#[derive(Clone, Copy, Debug)]
pub enum NumberCause {
    Number(FieldPlace),
    Literal(FieldPlace),
    Source(FieldPlace),
    /// The length of an array is 0.
    NoCells,
}

/// A limit of texts.
#[derive(Clone, Copy, Debug)]
pub enum Limit {
    Arrays,
    /// Of all arrays together.
    Cells,
    Blocks,
    /// The inputs, or the outputs, of a block.
    Ports,
    /// Of a block, inputs counted.
    Nodes,
    /// Of a line.
    Sources,
}

/// Where a text ends too early.
#[derive(Clone, Copy, Debug)]
pub enum Unended {
    /// Inside a line.
    Line,
    /// Inside a block, before its `out` line.
    Nodes,
    /// Inside a block, after its `out` line.
    Block,
}

/// What is wrong with a text first: a kind of fault, with what was known where it was found.
#[derive(Clone, Copy, Debug)]
pub enum ReadCause {
    NoHeader,
    BadLine(LineCause),
    BadNumber(NumberCause),
    BadName(FieldPlace),
    Unended(Unended),
    NoMain,
    TooMany(Limit),
    TrailingText,
    Memory,
}

impl ReadCause {
    /// The kind of the fault.
    fn kind(self) -> ReadFaultKind
        ensures { result ≡ fault_kind self }
    {
        match self {
            ReadCause::NoHeader => ReadFaultKind::NoHeader,
            ReadCause::BadLine(_) => ReadFaultKind::BadLine,
            ReadCause::BadNumber(_) => ReadFaultKind::BadNumber,
            ReadCause::BadName(_) => ReadFaultKind::BadName,
            ReadCause::Unended(_) => ReadFaultKind::Unended,
            ReadCause::NoMain => ReadFaultKind::NoMain,
            ReadCause::TooMany(_) => ReadFaultKind::TooMany,
            ReadCause::TrailingText => ReadFaultKind::TrailingText,
            ReadCause::Memory => ReadFaultKind::Memory,
        }
    }
}

/// Why a text is refused.
#[derive(Clone, Copy, Debug)]
pub struct ReadRefusal {
    pub cause: ReadCause,
    /// The number of the line, from 1.
    pub line: u64,
    /// The number of the line with which the block begins that is open there.
    pub head: Option<u64>,
}

impl ReadRefusal {
    /// The fault.
    pub fn fault(self) -> ReadFault
        ensures { result ≡ fault_of self }
    {
        ReadFault {
            kind: self.cause.kind(),
            line: self.line,
        }
    }
}

impl From<AllocError> for ReadCause {
    ghost from_gives = { λ _ cause. fault_kind cause ≡ Memory };

    fn from(_e: AllocError) -> ReadCause {
        ReadCause::Memory
    }
}

impl<T: Drop> From<AllocFailed<T>> for ReadCause {
    ghost from_gives = { λ _ cause. fault_kind cause ≡ Memory };

    fn from(_e: AllocFailed<T>) -> ReadCause {
        ReadCause::Memory
    }
}
