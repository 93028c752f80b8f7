//! The code that an element runs, as it reads it.

ghost use Rattle.std.specs.Prelude.{◌≡◌, ℕ, ◌+◌, ◌<◌, ◌≤◌, ◌^◌, IfSome};
ghost use Rattle.std.specs.Option.{option_map};
ghost use Rattle.semantics.specs.Program.{Program, instr_at, first_of};
ghost use Rattle.semantics.specs.Rule.{array_base, array_len};
ghost use Rattle.element.specs.Decoded as Decoded;
ghost use Rattle.element.specs.Decoded.{instr_of, origin_in, IsShort};

use semantics::program::{Dest, Op};
use std::marker::Model;
use tags::token::Port;
use tags::value::{NodeNumber, Origin};

/// An instruction with at most two destinations. A switch sends to the first where it is true and else to the second; a
/// link has its landing in the first and a signal to the second; any other sends to both. Destinations and origin are the
/// bits of an object, so that only what is needed of them is unpacked.
#[derive(Clone, Copy, Debug)]
pub struct Instruction {
    pub op: Op,
    /// The number of the origin: 0 for one that is not given, else one more than 1,024 times the block and the node.
    pub origin: u64,
    /// The slot of its frame in which its operands meet, 0 where it has none, in the lowest 16 bits, and in the next 32 the half words
    /// of its destinations. They are taken apart where they are used: what is done to each instruction as it is read would part the
    /// two choices that it leads to.
    pub bits: u64,
}

impl Model for Instruction {
    ghost use Rattle.std.specs.Prelude.{ℕ, ◌+◌, ◌*◌, ◌/◌, ◌%◌, ◌<◌};
    ghost use Rattle.std.proofs.Common.{ap, ◌∙◌};
    ghost use Rattle.std.proofs.Math.Nat.{mod-add-div};
    ghost use Rattle.element.specs.Short.{ShortInstr};

    ghost Value = { ShortInstr };

    ghost view = { λ i. record { op = i.op; origin = i.origin; slot = i.bits % 65536; first = i.bits / 65536 % 65536; second = i.bits / 65536 / 65536 } };

    ghost invariant = { λ i. i.bits < 281474976710656 };

    ghost inverse = { λ i. record { op = i.op; origin = i.origin; bits = i.slot + 65536 * (i.first + 65536 * i.second) } };

    ghost inverse_ok = { λ i h j. record {
      op = i.op;
      origin = i.origin;
      bits = (ap (λ (upper : ℕ). i.bits % 65536 + 65536 * upper)
          (mod-add-div (i.bits / 65536) 65536) ∙ mod-add-div i.bits 65536) j;
    } };
}

impl Instruction {
    /// The slot of its frame in which its operands meet; 0 where it has none.
    #[inline(always)]
    pub fn slot(&self) -> u32
        ensures { result ≡ self.now.slot }
    {
        (self.bits % 65_536) as u32
    }

    /// The half word of the first destination: 15 bits of how many instructions it lies ahead, 0 where there is none, and
    /// above them the bit of the right port.
    #[inline(always)]
    pub fn first(&self) -> u32
        ensures { result ≡ self.now.first }
    {
        (self.bits / 65_536 % 65_536) as u32
    }

    /// That of the second one.
    #[inline(always)]
    pub fn second(&self) -> u32
        ensures { result ≡ self.now.second }
    {
        (self.bits / 4_294_967_296) as u32
    }

    /// The origin of a fault that the instruction makes.
    #[inline(always)]
    pub fn origin(&self) -> Origin
        ensures { result ≡ origin_in self.now.origin }
    {
        if self.origin == 0 {
            return Origin::Untold;
        }
        let place = self.origin - 1;
        Origin::At {
            block: (place / 1024 % 256) as u8,
            node: NodeNumber::new((place % 1024) as u16),
        }
    }
}

/// The destination that a half word gives, if it gives one.
#[inline(always)]
pub fn dest_in(half: u32) -> Option<Dest>
    ensures { result ≡ Decoded.dest_in half }
{
    let ahead = half % 32_768;
    if ahead == 0 {
        return None;
    }
    let port = if half / 32_768 == 0 {
        Port::Left
    } else {
        Port::Right
    };
    Some(Dest { ahead, port })
}

/// An array among the cells of all arrays.
#[derive(Clone, Copy, Debug, PartialEq, Eq)]
pub struct Array {
    /// The number of its first cell.
    pub base: u32,
    /// How many cells it has.
    pub len: u32,
}

/// What can be read of the code. It is a program, and an upper limit of the slots that an instruction names.
pub trait Instructions {
    ghost program: { Self → Program };

    ghost width: { Self → ℕ };

    /// A number of instructions from the first one on, at most all of them, whose tokens may be looked at in packed form.
    fn count(&self) -> usize
        ensures { result ≤ 2 ^ 31 }
    {
        0
    }

    /// The instruction of this number.
    fn instr(&self, ip: u32) -> Option<Instruction>
        ensures exact { option_map instr_of result ≡ instr_at (program self.now) ip }
        ensures short { IfSome result (IsShort (width self.now) ip) };

    /// The number of the block's first instruction.
    fn entry(&self, block: u16) -> u32
        ensures exact { result ≡ first_of (program self.now) block }
        ensures short { result < 2 ^ 30 };

    /// Where an array lies.
    fn array(&self, number: u8) -> Array
        ensures base { result.base ≡ array_base (program self.now) number }
        ensures len { result.len ≡ array_len (program self.now) number }
        ensures short { result.base + result.len < 2 ^ 32 };
}
