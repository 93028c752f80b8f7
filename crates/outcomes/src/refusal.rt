//! Why a command has no result.

ghost use Rattle.std.specs.Prelude.{◌≡◌};

use assembler::AsmRefusal;
use graph_check::CheckRefusal;
use graph_file::ReadRefusal;
use object_view::ObjectFault;
use schedule::config::StartFault;
use source_tokens::ProgramRefusal;
use std::alloc::AllocError;

/// Why a command has no result: the fault as it was found, with its place and its cause.
#[derive(Clone, Copy, Debug)]
pub enum Refusal {
    /// Standard input is too long, or a read failed.
    Input,
    Read(ReadRefusal),
    Check(CheckRefusal),
    /// In the code block with this number a holder finds no slot of a frame open, where each takes the least that it may share.
    TooManySlots(u64),
    /// The code block with this number is too long for an object, or has too many literals.
    TooFar(u64),
    /// This line of the inputs, counted from 1, is not an integer.
    InputLine(u64),
    Start(StartFault),
    /// This many frames of all elements together suffice in every order, and the elements cannot have so many.
    TooManyFrames(u128),
    /// No number of frames is known to suffice: the meaning does not come to rest with no reader waiting.
    NotAtRest,
    /// Standard input is not an object.
    Object(ObjectFault),
    /// Standard input is no listing of an object.
    Asm(AsmRefusal),
    /// Standard input has no program that can be lowered.
    Program(ProgramRefusal),
    Memory,
}

impl From<AllocError> for Refusal {
    fn from(_refused: AllocError) -> Refusal
        ensures { result ≡ Refusal.Memory }
    {
        Refusal::Memory
    }
}
