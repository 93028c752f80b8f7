//! Why a text is not lowered.

ghost use Rattle.std.specs.Prelude.{◌≡◌};
ghost use Rattle.lowered_text.specs.Reported.{IsUntold};
ghost use Rattle.lowered_text.specs.declared.fault.LowerFault.TheVariants.{Memory};

use source::fault::FaultKind;
use source_tokens::ProgramRefusal;
use std::alloc::AllocError;
use std::io;

/// Why a text has no graph.
#[derive(Debug, Drop)]
pub enum LowerFault {
    /// The text has no program, or one that breaks a rule or is too big: this is its first fault. Lack of memory is never this fault.
    Program(ProgramRefusal),
    Memory,
}

impl From<AllocError> for LowerFault {
    ghost from_gives = { λ _ reported. reported ≡ Memory };

    fn from(_error: AllocError) -> LowerFault {
        LowerFault::Memory
    }
}

impl From<ProgramRefusal> for LowerFault {
    ghost from_gives = { λ refusal reported. IsUntold refusal.fault reported };

    fn from(refusal: ProgramRefusal) -> LowerFault {
        match refusal.fault.kind {
            FaultKind::Memory => LowerFault::Memory,
            _ => LowerFault::Program(refusal),
        }
    }
}

/// Why nothing, or only a beginning, was written.
#[derive(Debug, Drop)]
pub enum LowerRefusal {
    /// The text has no graph, and nothing was written.
    Fault(LowerFault),
    /// A write failed. A beginning was written.
    Write(io::Error),
}
