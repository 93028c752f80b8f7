//! Instructions as they are in an object.

ghost use Rattle.std.specs.Prelude.{◌≡◌};
ghost use Rattle.object_view.specs.Reading as Reading;

use crate::words;
use semantics::program::{Dest, Op};
use tags::value::Origin;

/// An instruction of an object. A switch sends to `first` where it is true and else to `second`; a link has its landing
/// in `first` and signals to `second`; any other sends to both.
#[derive(Clone, Copy, Debug, PartialEq, Eq)]
pub struct CodeInstr {
    pub op: Op,
    /// The origin of a fault that the instruction makes.
    pub origin: Origin,
    /// The slot in which its operands meet or its credits are; 0 where it has none.
    pub slot: u32,
    pub first: Option<Dest>,
    pub second: Option<Dest>,
}

/// An instruction of which the destinations and the origin are still the bits of the object, for a caller that may not need them.
#[derive(Clone, Copy, Debug, PartialEq, Eq)]
pub struct PackedInstr {
    pub op: Op,
    /// The number of the origin: 0 for one that is not recorded, else one more than 1,024 times the block and the node.
    pub origin: u64,
    /// The slot in the lowest 16 bits, and in the next 32 the half words of the destinations: each has 15 bits of how many instructions
    /// it lies ahead, 0 where there is none, and above them the bit of the right port.
    pub bits: u64,
}

impl PackedInstr {
    /// The instruction.
    #[inline(always)]
    pub fn unpacked(self) -> CodeInstr
        ensures { result ≡ Reading.unpacked self }
    {
        CodeInstr {
            op: self.op,
            origin: words::origin_of(self.origin),
            slot: (self.bits % 65_536) as u32,
            first: words::dest_of((self.bits / 65_536 % 65_536) as u32),
            second: words::dest_of((self.bits / 4_294_967_296 % 65_536) as u32),
        }
    }
}
