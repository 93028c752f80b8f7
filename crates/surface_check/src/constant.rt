//! The operators on constants.

ghost use Rattle.std.specs.Prelude.{◌≡◌, ◌<◌, true, false, pos, neg_ℤ, IfSome, IfNone};
ghost use Rattle.operators.specs.declared.Binary.TheVariants as binary;
ghost use Rattle.surface.specs.declared.fault.FaultKind.TheVariants.{BadConst};
ghost use Rattle.surface.specs.Constants as constants;

use operators::{Binary, Unary, apply1, apply2};
use source::word::InfixSign;
use surface::fault::{Fault, FaultKind};
use tags::value::Value;

/// No constant of 64 bits is there.
pub(crate) fn no_constant(at: usize) -> Fault
    ensures { result ≡ record { kind = BadConst; at = at } }
{
    Fault {
        kind: FaultKind::BadConst,
        at,
    }
}

/// The number, if 64 bits hold it.
fn in_64_bits(at: usize, number: i128) -> Result<i64, Fault>
    ensures { result ≡ constants.in_64_bits at number }
{
    if -9_223_372_036_854_775_808 <= number && number <= 9_223_372_036_854_775_807 {
        Ok(number as i64)
    } else {
        Err(no_constant(at))
    }
}

/// What an operator of graphs gives, if it is no fault.
fn integer(at: usize, value: Value) -> Result<i64, Fault>
    ensures { result ≡ constants.integer_in at value }
{
    match value {
        Value::Int(number) => in_64_bits(at, number as i128),
        Value::Fault { .. } => Err(no_constant(at)),
    }
}

fn is_shift(y: i64) -> bool
    ensures { result ≡ constants.is_shift y }
{
    0 <= y && y < 64
}

fn quotient(at: usize, x: i64, y: i64) -> Result<i64, Fault>
    ensures { result ≡ constants.directly at binary.Div x y }
{
    if x < -9_223_372_036_854_775_807 && y < 0 && -2 < y {
        return Err(no_constant(at));
    }
    integer(at, apply2(Binary::Div, Value::Int(x), Value::Int(y)))
}

fn multiplied(at: usize, x: i64, y: i64) -> Result<i64, Fault>
    ensures { result ≡ constants.directly at binary.Mul x y }
{
    in_64_bits(at, x as i128 * y as i128)
}

/// By how much a shift is, if it is by 0 to 63.
fn shift_of(y: i64) -> Option<u32>
    ensures shift { IfSome result (λ n. (constants.is_shift y ≡ true) × (y ≡ pos n)) }
    ensures small { IfSome result (λ n. n < 64) }
    ensures none { IfNone result (constants.is_shift y ≡ false) }
{
    if is_shift(y) { Some(y as u32) } else { None }
}

#[tactic(auto, using(crate::proofs::Places::shifts_by))]
fn shifted_left(at: usize, x: i64, y: i64) -> Result<i64, Fault>
    ensures { result ≡ constants.directly at binary.Shl x y }
{
    match shift_of(y) {
        Some(n) => in_64_bits(at, x as i128 * 2u64.pow(n) as i128),
        None => Err(no_constant(at)),
    }
}

fn shifted_right(at: usize, x: i64, y: i64) -> Result<i64, Fault>
    ensures { result ≡ constants.directly at binary.Shr x y }
{
    if !is_shift(y) {
        return Err(no_constant(at));
    }
    integer(at, apply2(Binary::Shr, Value::Int(x), Value::Int(y)))
}

fn directly(at: usize, op: Binary, x: i64, y: i64) -> Result<i64, Fault>
    ensures { result ≡ constants.directly at op x y }
{
    match op {
        Binary::Add => in_64_bits(at, x as i128 + y as i128),
        Binary::Sub => in_64_bits(at, x as i128 - y as i128),
        Binary::Mul => multiplied(at, x, y),
        Binary::Div => quotient(at, x, y),
        Binary::Shl => shifted_left(at, x, y),
        Binary::Shr => shifted_right(at, x, y),
        Binary::Rem => integer(at, apply2(Binary::Rem, Value::Int(x), Value::Int(y))),
        Binary::And => integer(at, apply2(Binary::And, Value::Int(x), Value::Int(y))),
        Binary::Or => integer(at, apply2(Binary::Or, Value::Int(x), Value::Int(y))),
        Binary::Xor => integer(at, apply2(Binary::Xor, Value::Int(x), Value::Int(y))),
        Binary::Eq => integer(at, apply2(Binary::Eq, Value::Int(x), Value::Int(y))),
        Binary::Ne => integer(at, apply2(Binary::Ne, Value::Int(x), Value::Int(y))),
        Binary::Lt => integer(at, apply2(Binary::Lt, Value::Int(x), Value::Int(y))),
        Binary::Le => integer(at, apply2(Binary::Le, Value::Int(x), Value::Int(y))),
    }
}

/// Of two constants, or `BadConst` at the operator's place.
pub(crate) fn combined(at: usize, sign: InfixSign, x: i64, y: i64) -> Result<i64, Fault>
    ensures { result ≡ constants.combined at sign x y }
{
    match sign {
        InfixSign::Direct { op } => directly(at, op, x, y),
        InfixSign::Greater => directly(at, Binary::Lt, y, x),
        InfixSign::AtLeast => directly(at, Binary::Le, y, x),
    }
}

/// The number with its sign changed.
pub(crate) fn negated(at: usize, number: u64) -> Result<i64, Fault>
    ensures { result ≡ constants.in_64_bits at (neg_ℤ (pos number)) }
{
    in_64_bits(at, -(number as i128))
}

/// Of one constant, or `BadConst` at the operator's place.
pub(crate) fn inverted(at: usize, op: Unary, x: i64) -> Result<i64, Fault>
    ensures { result ≡ constants.inverted at op x }
{
    match op {
        Unary::Neg => in_64_bits(at, -(x as i128)),
        Unary::Not => integer(at, apply1(Unary::Not, Value::Int(x))),
    }
}
