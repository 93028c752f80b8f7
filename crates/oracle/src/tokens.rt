//! Tagged tokens.

ghost use Rattle.std.specs.Prelude.{◌≡◌};
ghost use Rattle.oracle.specs.Lines as Lines;

use tags::value::Value;

/// Where a token is in a block: at a port of a node, at a result, or at a turn of a loop.
#[derive(Clone, Copy, Debug, PartialEq, Eq)]
pub enum Spot {
    Operand { node: usize, position: usize },
    Predicate { node: usize },
    Out { number: usize },
    Flag { number: usize },
    Carried { number: usize },
}

/// A value on its way, with the number of the invocation that it is in.
#[derive(Clone, Copy, Debug)]
pub struct Token {
    pub context: usize,
    pub spot: Spot,
    pub value: Value,
}

/// What tells spots apart: what kind of place it is, and two numbers.
#[inline(always)]
fn parts_of(spot: Spot) -> (u8, usize, usize)
    ensures { result ≡ Lines.parts_of spot }
{
    match spot {
        Spot::Operand { node, position } => (0, node, position),
        Spot::Predicate { node } => (1, node, 0),
        Spot::Out { number } => (2, number, 0),
        Spot::Flag { number } => (3, number, 0),
        Spot::Carried { number } => (4, number, 0),
    }
}

/// Whether both are one spot.
#[inline(always)]
pub fn same_spot(left: Spot, right: Spot) -> bool
    ensures { result ≡ Lines.same_spot left right }
{
    let (kind, number, position) = parts_of(left);
    let (k, n, i) = parts_of(right);
    kind == k && number == n && position == i
}
