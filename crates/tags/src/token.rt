//! Tokens: where they go, and what they carry.

ghost use Rattle.std.specs.Prelude.{◌≡◌, ◌<◌};

use crate::value::Value;

/// The number of a frame, from 0, over all elements.
pub type FrameId = u32;

/// An input port of an instruction.
#[derive(Clone, Copy, Debug, PartialEq, Eq)]
pub enum Port {
    Left,
    Right,
}

/// A continuation: where an answer goes.
#[derive(Clone, Copy, Debug, PartialEq, Eq)]
pub enum Cont {
    Frame { frame: FrameId, ip: u32, port: Port },
    Host { port: u32 },
}

/// What a token carries.
#[derive(Clone, Copy, Debug, PartialEq, Eq)]
pub enum Word {
    Val(Value),
    Frame(FrameId),
    Back(Cont),
}

/// Where a token goes: an instruction in a frame, a cell, the frame manager, or the host.
#[derive(Clone, Copy, Debug, PartialEq, Eq)]
pub enum To {
    Instr { frame: FrameId, ip: u32, port: Port },
    Fetch { cell: u32 },
    Store { cell: u32, value: Value },
    Manager,
    Release { frame: FrameId },
    Host { port: u32 },
}

impl To {
    ghost use Rattle.tags.specs.Addresses.{element_of};

    /// The element, one of `elements`, that takes a token with this address.
    pub fn element(&self, elements: u32) -> u32
        requires { 0 < elements }
        ensures { result ≡ element_of elements self.now }
    {
        match *self {
            To::Instr { frame, .. } => frame % elements,
            To::Fetch { cell } | To::Store { cell, .. } => cell % elements,
            To::Manager | To::Release { .. } | To::Host { .. } => 0,
        }
    }
}

/// A token. A fetch, a store and a request for a frame carry the continuation of their answer as the word.
#[derive(Clone, Copy, Debug, PartialEq, Eq)]
pub struct Token {
    pub to: To,
    pub word: Word,
}
