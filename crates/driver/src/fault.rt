//! Why a text has no object or no report.

ghost use Rattle.std.specs.Prelude.{◌≡◌};
ghost use Rattle.driver.specs.Refused.{refusal_of};
ghost use Rattle.driver.specs.Reported.{IsUnread, IsUnchecked, unassigned_as, unemitted_as, unmeant_as};
ghost use Rattle.driver.specs.declared.fault.Fault.TheVariants.{Memory, Object};

use graph_check::{CheckFaultKind, CheckRefusal};
use graph_file::{ReadFaultKind, ReadRefusal};
use object_view::ObjectFault;
use oracle::MeanFault;
use schedule::config::StartFault;
use select::EmitFault;
use slot_alloc::AssignFault;
use std::alloc::AllocError;

/// Why a text or an object has no report.
#[derive(Debug, Drop)]
pub enum Fault {
    /// The text is not the text of a graph: this is its first fault. Lack of memory is never reported so.
    Read(ReadRefusal),
    /// The graph is not well formed: this is its first fault. Lack of memory is never reported so.
    Check(CheckRefusal),
    /// The code block of this number is the first in which a holder finds no slot of a frame open, where each takes the least that it may share.
    TooManySlots(u64),
    /// The code block with this number is the first that is too long for an object, or the first with which there are too many
    /// literals.
    TooFar(u64),
    /// The bytes are not an object: this is their first fault.
    Object(ObjectFault),
    /// The run cannot start, for another reason than lack of memory.
    Start(StartFault),
    Memory,
}

impl From<AllocError> for Fault {
    ghost from_gives = { λ _ reported. reported ≡ Memory };

    fn from(_error: AllocError) -> Fault {
        Fault::Memory
    }
}

impl From<ReadRefusal> for Fault {
    ghost from_gives = { λ refusal reported. IsUnread refusal reported };

    fn from(refusal: ReadRefusal) -> Fault {
        match refusal.fault().kind {
            ReadFaultKind::Memory => Fault::Memory,
            _ => Fault::Read(refusal),
        }
    }
}

impl From<CheckRefusal> for Fault {
    ghost from_gives = { λ refusal reported. IsUnchecked refusal reported };

    fn from(refusal: CheckRefusal) -> Fault {
        match refusal.fault().kind {
            CheckFaultKind::Memory => Fault::Memory,
            _ => Fault::Check(refusal),
        }
    }
}

impl From<AssignFault> for Fault {
    ghost from_gives = { λ fault reported. reported ≡ unassigned_as fault };

    fn from(fault: AssignFault) -> Fault {
        match fault {
            AssignFault::TooManySlots { block } => Fault::TooManySlots(block),
            AssignFault::Memory => Fault::Memory,
        }
    }
}

impl From<EmitFault> for Fault {
    ghost from_gives = { λ fault reported. reported ≡ unemitted_as fault };

    fn from(fault: EmitFault) -> Fault {
        match fault {
            EmitFault::TooFar { block } => Fault::TooFar(block),
            EmitFault::Memory => Fault::Memory,
        }
    }
}

impl From<MeanFault> for Fault {
    ghost from_gives = { λ fault reported. reported ≡ unmeant_as fault };

    fn from(fault: MeanFault) -> Fault {
        match fault {
            MeanFault::WrongInputs => Fault::Start(StartFault::WrongInputs),
            MeanFault::Memory => Fault::Memory,
        }
    }
}

impl From<ObjectFault> for Fault {
    ghost from_gives = { λ fault reported. reported ≡ Object fault };

    fn from(fault: ObjectFault) -> Fault {
        Fault::Object(fault)
    }
}

impl From<StartFault> for Fault {
    ghost from_gives = { λ fault reported. reported ≡ refusal_of fault };

    fn from(fault: StartFault) -> Fault {
        match fault {
            StartFault::Memory => Fault::Memory,
            StartFault::WrongInputs => Fault::Start(StartFault::WrongInputs),
            StartFault::NoFrames => Fault::Start(StartFault::NoFrames),
            StartFault::BadConfig => Fault::Start(StartFault::BadConfig),
        }
    }
}
