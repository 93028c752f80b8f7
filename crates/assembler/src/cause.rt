//! Why a text is no listing of an object: its first fault, and what was known where that was found.

ghost use Rattle.std.specs.Prelude.{◌≡◌};
ghost use Rattle.assembler.specs.Causes.{fault_kind, fault_of, unfit_kind};
ghost use Rattle.assembler.specs.declared.fault.AsmFaultKind.TheVariants.{Memory};

use crate::fault::{AsmFault, AsmFaultKind};
use graph_file::FieldPlace;
use std::alloc::{AllocError, AllocFailed};

/// Why a line has none of the forms that are allowed there.
#[derive(Clone, Copy, Debug)]
pub enum AsmLineCause {
    /// The first line with words is not the first line of a listing.
    NoHead,
    /// It does not come after the lines before it.
    Misplaced,
    /// A word is missing, there is one more, or one is not the word that its form has there.
    Misshapen,
}

/// What is not well written, too large, or not the number that belongs there.
#[derive(Clone, Copy, Debug)]
pub enum AsmNumberCause {
    Number(FieldPlace),
    Literal(FieldPlace),
    /// The number of the line among those of its kind, which is another one.
    Next { place: FieldPlace, wanted: u64 },
}

/// What is wrong with a word in the place of a slot.
#[derive(Clone, Copy, Debug)]
pub enum SlotCause {
    /// The operation has a slot, and the word is not a number.
    Wanted,
    /// The operation has no slot, and the word is not `-`.
    Unwanted,
}

/// A word of the line of an instruction, in their order.
#[derive(Clone, Copy, Debug)]
pub enum InstrWord {
    Number,
    Name,
    Slot,
    First,
    Second,
    Operand,
    Origin,
}

impl InstrWord {
    /// How many words of the line are before it.
    pub fn index(self) -> usize {
        self as usize
    }
}

/// Why a code has no object.
#[derive(Clone, Copy, Debug, PartialEq, Eq)]
pub enum Unfit {
    BadVersion,
    /// The number of blocks or of arrays, or the block that is run.
    BadCounts,
    ManyLiterals,
    /// The numbers of a block.
    BadBlock,
    /// The length of an array, or that of all arrays.
    BadArray,
    /// A literal of the table is not above the one before.
    LiteralOrder,
    /// The literal of an instruction is not in the table.
    NoLiteral,
    BadOperand,
    BadSlot,
    BadDestination,
    BadOrigin,
}

impl Unfit {
    /// The kind of the fault.
    fn kind(self) -> AsmFaultKind
        ensures { result ≡ unfit_kind self }
    {
        match self {
            Unfit::BadVersion => AsmFaultKind::BadVersion,
            Unfit::BadCounts | Unfit::BadBlock | Unfit::BadArray => AsmFaultKind::BadTable,
            Unfit::ManyLiterals | Unfit::LiteralOrder | Unfit::NoLiteral => {
                AsmFaultKind::BadLiteral
            }
            Unfit::BadOperand => AsmFaultKind::BadOperand,
            Unfit::BadSlot => AsmFaultKind::BadSlot,
            Unfit::BadDestination => AsmFaultKind::BadDestination,
            Unfit::BadOrigin => AsmFaultKind::BadOrigin,
        }
    }
}

/// What is wrong with a listing first: a kind of fault, with what was known where it was found.
#[derive(Clone, Copy, Debug)]
pub enum AsmCause {
    BadLine(AsmLineCause),
    BadNumber(AsmNumberCause),
    BadName,
    BadSlot(SlotCause),
    /// This word is not written as a destination.
    BadDestination(InstrWord),
    BadOperand,
    BadOrigin,
    Unended,
    /// All lines are well written, and their code has no object.
    Unfit(Unfit),
    Memory,
}

impl AsmCause {
    /// The kind of the fault.
    fn kind(self) -> AsmFaultKind
        ensures { result ≡ fault_kind self }
    {
        match self {
            AsmCause::BadLine(_) => AsmFaultKind::BadLine,
            AsmCause::BadNumber(_) => AsmFaultKind::BadNumber,
            AsmCause::BadName => AsmFaultKind::BadName,
            AsmCause::BadSlot(_) => AsmFaultKind::BadSlot,
            AsmCause::BadDestination(_) => AsmFaultKind::BadDestination,
            AsmCause::BadOperand => AsmFaultKind::BadOperand,
            AsmCause::BadOrigin => AsmFaultKind::BadOrigin,
            AsmCause::Unended => AsmFaultKind::Unended,
            AsmCause::Unfit(unfit) => unfit.kind(),
            AsmCause::Memory => AsmFaultKind::Memory,
        }
    }

    /// The cause at the first line with words, which has a form of its own.
    pub(crate) fn at_head(self) -> AsmCause
        ensures { fault_kind result ≡ fault_kind self }
    {
        match self {
            AsmCause::BadLine(_) => AsmCause::BadLine(AsmLineCause::NoHead),
            _ => self,
        }
    }
}

/// Why a text is no listing of an object.
#[derive(Clone, Copy, Debug)]
pub struct AsmRefusal {
    pub cause: AsmCause,
    /// The number of the line, from 1.
    pub line: u64,
}

impl AsmRefusal {
    /// The fault.
    pub fn fault(self) -> AsmFault
        ensures { result ≡ fault_of self }
    {
        AsmFault {
            kind: self.cause.kind(),
            line: self.line,
        }
    }
}

impl From<AllocError> for AsmCause {
    ghost from_gives = { λ _ cause. fault_kind cause ≡ Memory };

    fn from(_e: AllocError) -> AsmCause {
        AsmCause::Memory
    }
}

impl<T: Drop> From<AllocFailed<T>> for AsmCause {
    ghost from_gives = { λ _ cause. fault_kind cause ≡ Memory };

    fn from(_e: AllocFailed<T>) -> AsmCause {
        AsmCause::Memory
    }
}

impl From<AllocError> for AsmRefusal {
    ghost from_gives = { λ _ refusal. fault_kind refusal.cause ≡ Memory };

    fn from(e: AllocError) -> AsmRefusal {
        AsmRefusal {
            cause: AsmCause::from(e),
            line: 0,
        }
    }
}
