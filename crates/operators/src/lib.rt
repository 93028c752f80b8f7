//! The operators on values.
#![tactic(auto)]

ghost use Rattle.std.specs.Prelude.{◌≡◌};
ghost use Rattle.operators.specs.Values as Values;

use tags::value::{FaultKind, Origin, Value};

/// An operator on one value.
#[derive(Clone, Copy, Debug, PartialEq, Eq)]
pub enum Unary {
    /// Minus, wrapping.
    Neg,
    /// The complement, bit by bit.
    Not,
}

/// An operator on two values.
#[derive(Clone, Copy, Debug, PartialEq, Eq)]
pub enum Binary {
    Add,
    Sub,
    Mul,
    /// The quotient, truncated towards zero.
    Div,
    /// The remainder, with the dividend's sign.
    Rem,
    And,
    Or,
    Xor,
    /// To the left by the low six bits of the right operand; high bits are dropped.
    Shl,
    /// To the right by the low six bits of the right operand; the sign stays.
    Shr,
    Eq,
    Ne,
    Lt,
    Le,
}

impl Binary {
    /// Whether it divides, and so makes a fault where its right operand is 0. No other operator makes one.
    #[inline(always)]
    pub fn is_division(self) -> bool
        ensures { result ≡ Values.is_division self }
    {
        matches!(self, Binary::Div | Binary::Rem)
    }
}

/// Whether the value is an integer other than 0. A fault is false.
pub fn truth(value: Value) -> bool
    ensures { result ≡ Values.truth value }
{
    match value {
        Value::Int(number) => number != 0,
        Value::Fault { .. } => false,
    }
}

fn on_int(op: Unary, x: i64) -> i64
    ensures { result ≡ Values.on_int op x }
{
    match op {
        Unary::Neg => x.wrapping_neg(),
        Unary::Not => !x,
    }
}

/// The operator's result: a fault is passed on.
pub fn apply1(op: Unary, value: Value) -> Value
    ensures { result ≡ Values.apply1 op value }
{
    match value {
        Value::Int(number) => Value::Int(on_int(op, number)),
        Value::Fault { kind, origin } => Value::Fault { kind, origin },
    }
}

fn flag(holds: bool) -> Value
    ensures { result ≡ Values.flag_of holds }
{
    Value::Int(if holds { 1 } else { 0 })
}

fn shift_of(y: i64) -> u32
    ensures { result ≡ Values.shift_of y }
{
    (y.cast_unsigned() % 64) as u32
}

fn quotient(x: i64, y: i64, origin: Origin) -> Value
    ensures { result ≡ Values.on_ints Binary.Div x y origin }
{
    if y == 0 {
        return Value::Fault {
            kind: FaultKind::Zero,
            origin,
        };
    }
    Value::Int(x.wrapping_div(y))
}

fn remainder(x: i64, y: i64, origin: Origin) -> Value
    ensures { result ≡ Values.on_ints Binary.Rem x y origin }
{
    if y == 0 {
        return Value::Fault {
            kind: FaultKind::Zero,
            origin,
        };
    }
    Value::Int(x.wrapping_rem(y))
}

fn on_ints(op: Binary, x: i64, y: i64, origin: Origin) -> Value
    ensures { result ≡ Values.on_ints op x y origin }
{
    match op {
        Binary::Add => Value::Int(x.wrapping_add(y)),
        Binary::Sub => Value::Int(x.wrapping_sub(y)),
        Binary::Mul => Value::Int(x.wrapping_mul(y)),
        Binary::Div => quotient(x, y, origin),
        Binary::Rem => remainder(x, y, origin),
        Binary::And => Value::Int(x & y),
        Binary::Or => Value::Int(x | y),
        Binary::Xor => Value::Int(x ^ y),
        Binary::Shl => Value::Int(x.wrapping_shl(shift_of(y))),
        Binary::Shr => Value::Int(x.wrapping_shr(shift_of(y))),
        Binary::Eq => flag(x == y),
        Binary::Ne => flag(x != y),
        Binary::Lt => flag(x < y),
        Binary::Le => flag(x <= y),
    }
}

/// The operator's result: a faulty operand is passed on, the left one first, and a fault that the operator makes gets
/// the origin.
pub fn apply2_at(op: Binary, left: Value, right: Value, origin: Origin) -> Value
    ensures { result ≡ Values.apply2 op left right origin }
{
    match (left, right) {
        (Value::Int(x), Value::Int(y)) => on_ints(op, x, y, origin),
        (Value::Int(_), Value::Fault { kind, origin }) => Value::Fault { kind, origin },
        (Value::Fault { kind, origin }, _) => Value::Fault { kind, origin },
    }
}

/// The operator's result, where a fault that it makes has no origin.
pub fn apply2(op: Binary, left: Value, right: Value) -> Value
    ensures { result ≡ Values.apply2 op left right Origin.Untold }
{
    apply2_at(op, left, right, Origin::Untold)
}
