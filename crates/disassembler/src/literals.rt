//! The literals that instructions use.

ghost use Rattle.std.specs.Prelude.{◌≡◌};
ghost use Rattle.disassembler.specs.Listing as Listing;

use semantics::program::Op;

/// The literal that an operation has as its operand, if it has one.
pub fn literal_of(op: Op) -> Option<i64>
    ensures { result ≡ Listing.literal_of op }
{
    match op {
        Op::Apply2Right { op: _, literal } => Some(literal),
        Op::Apply2Left { op: _, literal } => Some(literal),
        Op::Lit { literal } => Some(literal),
        _ => None,
    }
}
