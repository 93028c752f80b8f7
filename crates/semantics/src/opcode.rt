//! Opcodes: operations without their operands. All that has to be known of an operation, except what it does, is known here.

ghost use Rattle.std.specs.Prelude.{◌≡◌};
ghost use Rattle.semantics.specs.Opcodes as Opcodes;

use crate::program::{Dest, Op};
use crate::words::{Operator, binary_word, operator_of, unary_word};
use operators::{Binary, Unary};
use tags::token::Port;

/// An operation without its operand.
#[derive(Clone, Copy, Debug, PartialEq, Eq)]
pub enum Opcode {
    Apply1 { op: Unary },
    Apply2 { op: Binary },
    Apply2Right { op: Binary },
    Apply2Left { op: Binary },
    Lit,
    Copy,
    Sync,
    Switch,
    Fetch,
    Store,
    Frame,
    Link,
    Send,
    Return,
    Ask,
    Open,
    Take,
    Give,
    Drain,
    Release,
}

/// The number of an operator's code.
#[inline(always)]
fn binary_code(op: Binary) -> u8
    ensures { result ≡ Opcodes.binary_code op }
{
    match op {
        Binary::Add => 1,
        Binary::Sub => 2,
        Binary::Mul => 3,
        Binary::Div => 4,
        Binary::Rem => 5,
        Binary::And => 6,
        Binary::Or => 7,
        Binary::Xor => 8,
        Binary::Shl => 9,
        Binary::Shr => 10,
        Binary::Eq => 11,
        Binary::Ne => 12,
        Binary::Lt => 13,
        Binary::Le => 14,
    }
}

#[inline(always)]
fn binary_of(code: u8) -> Option<Binary>
    ensures { result ≡ Opcodes.binary_of code }
{
    match code {
        1 => Some(Binary::Add),
        2 => Some(Binary::Sub),
        3 => Some(Binary::Mul),
        4 => Some(Binary::Div),
        5 => Some(Binary::Rem),
        6 => Some(Binary::And),
        7 => Some(Binary::Or),
        8 => Some(Binary::Xor),
        9 => Some(Binary::Shl),
        10 => Some(Binary::Shr),
        11 => Some(Binary::Eq),
        12 => Some(Binary::Ne),
        13 => Some(Binary::Lt),
        14 => Some(Binary::Le),
        _ => None,
    }
}

#[inline(always)]
fn flagged(op: Binary, flag: u8) -> Option<Opcode>
    ensures { result ≡ Opcodes.flagged op flag }
{
    match flag {
        0 => Some(Opcode::Apply2 { op }),
        1 => Some(Opcode::Apply2Right { op }),
        2 => Some(Opcode::Apply2Left { op }),
        _ => None,
    }
}

#[inline(always)]
fn unflagged(code: u8) -> Option<Opcode>
    ensures { result ≡ Opcodes.unflagged code }
{
    match code {
        15 => Some(Opcode::Apply1 { op: Unary::Neg }),
        16 => Some(Opcode::Apply1 { op: Unary::Not }),
        17 => Some(Opcode::Lit),
        18 => Some(Opcode::Copy),
        19 => Some(Opcode::Sync),
        20 => Some(Opcode::Switch),
        21 => Some(Opcode::Fetch),
        22 => Some(Opcode::Store),
        23 => Some(Opcode::Frame),
        24 => Some(Opcode::Link),
        25 => Some(Opcode::Send),
        26 => Some(Opcode::Return),
        27 => Some(Opcode::Ask),
        28 => Some(Opcode::Open),
        29 => Some(Opcode::Take),
        30 => Some(Opcode::Give),
        31 => Some(Opcode::Drain),
        32 => Some(Opcode::Release),
        _ => None,
    }
}

/// The opcode of an operator.
fn with_operator(operator: Operator) -> Opcode
    ensures { result ≡ Opcodes.with_operator operator }
{
    match operator {
        Operator::One(op) => Opcode::Apply1 { op },
        Operator::Two(op) => Opcode::Apply2 { op },
    }
}

/// The opcode of the operator that the bytes are the word of.
#[tactic(auto, unfolding(crate::specs::Opcodes::operator_named))]
fn operator_named(bytes: &[u8]) -> Option<Opcode>
    ensures { result ≡ Opcodes.operator_named bytes.now }
{
    operator_of(bytes).map(|operator| with_operator(operator))
}

impl Opcode {
    /// What the code and the flag of an object's instruction say, and `None` if there is no such code or it has no such flag.
    #[tactic(auto, unfolding(crate::specs::Opcodes::opcode_of))]
    #[inline(always)]
    pub fn of_code(code: u8, flag: u8) -> Option<Opcode>
        ensures { result ≡ Opcodes.opcode_of code flag }
    {
        match binary_of(code) {
            Some(op) => flagged(op, flag),
            None => { if flag == 0 { unflagged(code) } else { None } }
        }
    }

    /// The code in an object.
    #[inline(always)]
    pub fn code(self) -> u8
        ensures { result ≡ Opcodes.code_number self }
    {
        match self {
            Opcode::Apply1 { op: Unary::Neg } => 15,
            Opcode::Apply1 { op: Unary::Not } => 16,
            Opcode::Apply2 { op } | Opcode::Apply2Right { op } | Opcode::Apply2Left { op } => {
                binary_code(op)
            }
            Opcode::Lit => 17,
            Opcode::Copy => 18,
            Opcode::Sync => 19,
            Opcode::Switch => 20,
            Opcode::Fetch => 21,
            Opcode::Store => 22,
            Opcode::Frame => 23,
            Opcode::Link => 24,
            Opcode::Send => 25,
            Opcode::Return => 26,
            Opcode::Ask => 27,
            Opcode::Open => 28,
            Opcode::Take => 29,
            Opcode::Give => 30,
            Opcode::Drain => 31,
            Opcode::Release => 32,
        }
    }

    /// The flag in an object: 1 where the right operand is a literal, 2 where the left one is.
    #[inline(always)]
    pub fn flag(self) -> u8
        ensures { result ≡ Opcodes.flag_number self }
    {
        match self {
            Opcode::Apply2Right { .. } => 1,
            Opcode::Apply2Left { .. } => 2,
            _ => 0,
        }
    }

    /// The word in a listing. That of an operator is its word in the text of a graph, whichever of its operands is a literal.
    pub fn word(self) -> &'static [u8]
        ensures { result.now ≡ Opcodes.opcode_word self }
    {
        match self {
            Opcode::Apply1 { op } => unary_word(op),
            Opcode::Apply2 { op } | Opcode::Apply2Right { op } | Opcode::Apply2Left { op } => {
                binary_word(op)
            }
            Opcode::Lit => b"lit",
            Opcode::Copy => b"copy",
            Opcode::Sync => b"sync",
            Opcode::Switch => b"switch",
            Opcode::Fetch => b"fetch",
            Opcode::Store => b"store",
            Opcode::Frame => b"frame",
            Opcode::Link => b"link",
            Opcode::Send => b"send",
            Opcode::Return => b"return",
            Opcode::Ask => b"ask",
            Opcode::Open => b"open",
            Opcode::Take => b"take",
            Opcode::Give => b"give",
            Opcode::Drain => b"drain",
            Opcode::Release => b"release",
        }
    }

    /// The opcode that the bytes are the word of; that of an operator takes both operands from tokens.
    #[tactic(auto, unfolding(crate::specs::Opcodes::opcode_named))]
    pub fn of_word(bytes: &[u8]) -> Option<Opcode>
        ensures { result ≡ Opcodes.opcode_named bytes.now }
    {
        if bytes == b"lit".as_slice() {
            Some(Opcode::Lit)
        } else if bytes == b"copy".as_slice() {
            Some(Opcode::Copy)
        } else if bytes == b"sync".as_slice() {
            Some(Opcode::Sync)
        } else if bytes == b"switch".as_slice() {
            Some(Opcode::Switch)
        } else if bytes == b"fetch".as_slice() {
            Some(Opcode::Fetch)
        } else if bytes == b"store".as_slice() {
            Some(Opcode::Store)
        } else if bytes == b"frame".as_slice() {
            Some(Opcode::Frame)
        } else if bytes == b"link".as_slice() {
            Some(Opcode::Link)
        } else if bytes == b"send".as_slice() {
            Some(Opcode::Send)
        } else if bytes == b"return".as_slice() {
            Some(Opcode::Return)
        } else if bytes == b"ask".as_slice() {
            Some(Opcode::Ask)
        } else if bytes == b"open".as_slice() {
            Some(Opcode::Open)
        } else if bytes == b"take".as_slice() {
            Some(Opcode::Take)
        } else if bytes == b"give".as_slice() {
            Some(Opcode::Give)
        } else if bytes == b"drain".as_slice() {
            Some(Opcode::Drain)
        } else if bytes == b"release".as_slice() {
            Some(Opcode::Release)
        } else {
            operator_named(bytes)
        }
    }

    /// The operation with its operand: a literal, or the number that the operand is.
    #[inline(always)]
    pub fn with(self, operand: u64, literal: i64) -> Op
        ensures { result ≡ Opcodes.with self operand literal }
    {
        let small = (operand % 256) as u8;
        match self {
            Opcode::Apply1 { op } => Op::Apply1 { op },
            Opcode::Apply2 { op } => Op::Apply2 { op },
            Opcode::Apply2Right { op } => Op::Apply2Right { op, literal },
            Opcode::Apply2Left { op } => Op::Apply2Left { op, literal },
            Opcode::Lit => Op::Lit { literal },
            Opcode::Copy => Op::Copy,
            Opcode::Sync => Op::Sync,
            Opcode::Switch => Op::Switch,
            Opcode::Fetch => Op::Fetch { array: small },
            Opcode::Store => Op::Store { array: small },
            Opcode::Frame => Op::Frame,
            Opcode::Link => Op::Link {
                block: (operand % 65_536) as u16,
            },
            Opcode::Send => Op::Send {
                block: (operand / 65_536 % 65_536) as u16,
                entry: (operand % 65_536) as u16,
            },
            Opcode::Return => Op::Return { offset: small },
            Opcode::Ask => Op::Ask { offset: small },
            Opcode::Open => Op::Open { bound: small },
            Opcode::Take => Op::Take { bound: small },
            Opcode::Give => Op::Give { bound: small },
            Opcode::Drain => Op::Drain { bound: small },
            Opcode::Release => Op::Release { offset: small },
        }
    }

    // One of its operations: they all take the same tokens, use a slot or none, and make faults or none.
    #[inline(always)]
    fn plain(self) -> Op
        ensures { result ≡ Opcodes.plain self }
    {
        self.with(0, 0)
    }

    /// Whether it takes two tokens, which meet in a slot.
    #[inline(always)]
    pub fn takes_two(self) -> bool
        ensures { result ≡ Opcodes.takes_two self }
    {
        self.plain().takes_two()
    }

    /// Whether it uses a slot: it takes two tokens, or keeps credits there.
    #[inline(always)]
    pub fn uses_slot(self) -> bool
        ensures { result ≡ Opcodes.takes_slot self }
    {
        self.plain().uses_slot()
    }

    /// Whether it may make a fault, so that it may have an origin.
    #[inline(always)]
    pub fn may_fault(self) -> bool
        ensures { result ≡ Opcodes.makes_faults self }
    {
        self.plain().may_fault()
    }

    /// Whether the operand may be this, by the rules that need no table: none, or a bound of 2 to 64.
    pub fn may_have(self, operand: u64) -> bool
        ensures { result ≡ Opcodes.may_have self operand }
    {
        match self {
            Opcode::Open | Opcode::Take | Opcode::Give | Opcode::Drain => 2 <= operand
                && operand <= 64,
            Opcode::Apply1 { .. }
            | Opcode::Apply2 { .. }
            | Opcode::Copy
            | Opcode::Sync
            | Opcode::Switch
            | Opcode::Frame => operand == 0,
            _ => true,
        }
    }

    /// Whether it may have these destinations and no others.
    pub fn may_go_to(self, first: Option<Dest>, second: Option<Dest>) -> bool
        ensures { result ≡ Opcodes.may_go_to self first second }
    {
        match self {
            Opcode::Fetch | Opcode::Store | Opcode::Frame | Opcode::Ask => {
                first.is_some() && second.is_none()
            }
            Opcode::Link => match first {
                Some(dest) => dest.port == Port::Left,
                None => false,
            },
            Opcode::Take | Opcode::Release => first.is_none() && second.is_none(),
            Opcode::Give | Opcode::Drain => second.is_none(),
            Opcode::Switch => true,
            _ => first.is_some() || second.is_none(),
        }
    }
}
