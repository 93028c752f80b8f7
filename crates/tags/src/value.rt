//! Values: integers, and faults with the place where they were made.

ghost use Rattle.std.specs.Prelude.{◌≡◌, ◌≢◌, ◌<◌, ◌≤◌, IfSome, IsNone};
ghost use Rattle.tags.specs.Packed.{origin_code, packed, IsOrigin, IsValue, PackingIsExact};

use std::marker::Model;

/// What went wrong where a fault was made.
#[derive(Clone, Copy, Debug, PartialEq, Eq)]
pub enum FaultKind {
    /// A division by zero.
    Zero,
    /// An index outside its array.
    Range,
}

/// The number of a node in its graph block, inputs counted: below 1,024. Contracts see it as a number.
#[derive(Clone, Copy, Debug, PartialEq, Eq)]
pub struct NodeNumber {
    number: u16,
}

impl Model for NodeNumber {
    ghost use Rattle.std.specs.Prelude.{ℕ, ◌<◌};

    ghost Value = { ℕ };

    ghost view = { λ n. n.number };

    ghost invariant = { λ n. n.number < 1024 };

    ghost inverse = { λ n. record { number = n } };
}

impl NodeNumber {
    /// One more than the greatest number of a node.
    pub const LIMIT: u16 = 1024;

    pub fn new(number: u16) -> NodeNumber
        requires { number < 1024 }
        ensures { result ≡ number }
    {
        NodeNumber { number }
    }

    pub fn get(self) -> u16
        ensures same { result ≡ self }
        ensures below { result < 1024 }
    {
        self.number
    }
}

/// Where a fault was made: not recorded, or at a node of a graph block.
#[derive(Clone, Copy, Debug, PartialEq, Eq)]
pub enum Origin {
    Untold,
    At { block: u8, node: NodeNumber },
}

/// A value of a graph: an integer in two's complement of 64 bits, or a fault.
#[derive(Clone, Copy, Debug, PartialEq, Eq)]
pub enum Value {
    Int(i64),
    Fault { kind: FaultKind, origin: Origin },
}

impl Origin {
    /// The greatest code of an origin.
    pub const GREATEST_CODE: u32 = 262_144;

    /// 0 for an origin that is not recorded, else one more than 1,024 times the block and the node.
    pub fn code(self) -> u32
        ensures exact { result ≡ origin_code self }
        ensures bounded { result ≤ 262144 }
    {
        match self {
            Origin::Untold => 0,
            Origin::At { block, node } => 1 + 1024 * u32::from(block) + u32::from(node.get()),
        }
    }

    /// The origin that has the code, and `None` where none has.
    pub fn from_code(code: u64) -> Option<Origin>
        ensures same { IfSome result (λ o. origin_code o ≡ code) }
        ensures there { IfSome result IsOrigin }
        ensures none { IsNone result → (o : Origin) → IsOrigin o → origin_code o ≢ code }
    {
        if code == 0 {
            return Some(Origin::Untold);
        }
        let place = code - 1;
        if place >= 262_144 {
            return None;
        }
        Some(Origin::At {
            block: (place / 1024) as u8,
            node: NodeNumber::new((place % 1024) as u16),
        })
    }
}

impl Value {
    /// The value as two words: `[0, bits]` for an integer, and the kind (1 zero, 2 range) with the origin's code for a
    /// fault.
    pub fn pack(&self) -> [u64; 2]
        ensures { result ≡ packed self.now }
    {
        match *self {
            Value::Int(number) => [0, number.cast_unsigned()],
            Value::Fault { kind, origin } => [
                match kind {
                    FaultKind::Zero => 1,
                    FaultKind::Range => 2,
                },
                u64::from(origin.code()),
            ],
        }
    }

    /// The value that has these words, and `None` where none has.
    pub fn unpack(words: [u64; 2]) -> Option<Value>
        ensures same { IfSome result (λ v. packed v ≡ words) }
        ensures there { IfSome result IsValue }
        ensures none { IsNone result → (v : Value) → IsValue v → packed v ≢ words }
    {
        let kind = match words[0] {
            0 => return Some(Value::Int(words[1].cast_signed())),
            1 => FaultKind::Zero,
            2 => FaultKind::Range,
            _ => return None,
        };
        let origin = Origin::from_code(words[1])?;
        Some(Value::Fault { kind, origin })
    }
}

/// No two values have the same words.
pub fn packing_is_exact()
    ensures { PackingIsExact }
{}
