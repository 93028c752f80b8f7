//! Why a program has no report.

ghost use Rattle.std.specs.Prelude.{◌≡◌};
ghost use Rattle.programs.specs.Refused.{IsUnrun, unlowered_as};
ghost use Rattle.programs.specs.declared.fault.RunRefusal.TheVariants.{Memory};

use driver::fault::Fault;
use lowered_text::fault::LowerFault;
use source_tokens::ProgramRefusal;
use std::alloc::AllocError;

/// Why a text has no report of a run of its program.
#[derive(Debug, Drop)]
pub enum RunRefusal {
    /// The text has no program, or one that breaks a rule or is too big: this is its first fault. Lack of memory is never reported so.
    Program(ProgramRefusal),
    /// The program's graph has no object, or the run cannot start. Lack of memory is never reported so.
    Graph(Fault),
    Memory,
}

impl From<AllocError> for RunRefusal {
    ghost from_gives = { λ _ reported. reported ≡ Memory };

    fn from(_error: AllocError) -> RunRefusal {
        RunRefusal::Memory
    }
}

impl From<LowerFault> for RunRefusal {
    ghost from_gives = { λ fault reported. reported ≡ unlowered_as fault };

    fn from(fault: LowerFault) -> RunRefusal {
        match fault {
            LowerFault::Program(refusal) => RunRefusal::Program(refusal),
            LowerFault::Memory => RunRefusal::Memory,
        }
    }
}

impl From<Fault> for RunRefusal {
    ghost from_gives = { λ fault reported. IsUnrun fault reported };

    fn from(fault: Fault) -> RunRefusal {
        match fault {
            Fault::Memory => RunRefusal::Memory,
            _ => RunRefusal::Graph(fault),
        }
    }
}
