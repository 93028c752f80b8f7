//! The refusal that each fault is reported as.

ghost use Rattle.std.specs.Prelude.{◌≡◌};
ghost use Rattle.commands.specs.Refusals.{refused_as, unlowered_as, unread_as};

use crate::input::InputFault;
use driver::fault::Fault;
use lowered_text::fault::LowerFault;
use outcomes::Refusal;

/// The refusal of a missing input.
pub(crate) fn input_refusal(fault: InputFault) -> Refusal
    ensures { result ≡ unread_as fault }
{
    match fault {
        InputFault::Input => Refusal::Input,
        InputFault::Memory => Refusal::Memory,
    }
}

/// The refusal of a text or an object that has no report.
pub fn fault_refusal(fault: Fault) -> Refusal
    ensures { result ≡ refused_as fault }
{
    match fault {
        Fault::Read(refusal) => Refusal::Read(refusal),
        Fault::Check(refusal) => Refusal::Check(refusal),
        Fault::TooManySlots(block) => Refusal::TooManySlots(block),
        Fault::TooFar(block) => Refusal::TooFar(block),
        Fault::Object(fault) => Refusal::Object(fault),
        Fault::Start(fault) => Refusal::Start(fault),
        Fault::Memory => Refusal::Memory,
    }
}

/// The refusal of a program that is not lowered.
pub fn lower_refusal(fault: LowerFault) -> Refusal
    ensures { result ≡ unlowered_as fault }
{
    match fault {
        LowerFault::Program(refusal) => Refusal::Program(refusal),
        LowerFault::Memory => Refusal::Memory,
    }
}
