//! The plain data of programs for the explicit token store.

ghost use Rattle.std.specs.Prelude.{◌≡◌, Some, None, if◌then◌else◌};
ghost use Rattle.semantics.specs.Program.{Instr, uses_slot};
ghost use Rattle.semantics.specs.Rule.{slot_of};
ghost use Rattle.semantics.specs.Plan.{is_credit};
ghost use Rattle.semantics.specs.Wired.{is_dyadic};
ghost use Rattle.semantics.specs.Bytes as Bytes;
ghost use Rattle.semantics.specs.Opcodes.{opcode_for, op_word, may_fault, has_sides};

use crate::opcode::Opcode;
use operators::{Binary, Unary};
use tags::token::Port;

/// A later instruction of the same block, by its distance in instructions, and one of its ports.
#[derive(Clone, Copy, Debug, PartialEq, Eq)]
pub struct Dest {
    pub ahead: u32,
    pub port: Port,
}

/// What an instruction does, with its operand.
#[derive(Clone, Copy, Debug, PartialEq, Eq)]
pub enum Op {
    Apply1 { op: Unary },
    Apply2 { op: Binary },
    /// With its right operand from the code.
    Apply2Right { op: Binary, literal: i64 },
    /// With its left operand from the code.
    Apply2Left { op: Binary, literal: i64 },
    Lit { literal: i64 },
    Copy,
    Sync,
    Switch,
    Fetch { array: u8 },
    Store { array: u8 },
    Frame,
    Link { block: u16 },
    Send { block: u16, entry: u16 },
    Return { offset: u8 },
    Ask { offset: u8 },
    Open { bound: u8 },
    Take { bound: u8 },
    Give { bound: u8 },
    Drain { bound: u8 },
    Release { offset: u8 },
}

impl Op {
    /// The operation without its operand.
    #[inline(always)]
    pub fn opcode(self) -> Opcode
        ensures { result ≡ opcode_for self }
    {
        match self {
            Op::Apply1 { op } => Opcode::Apply1 { op },
            Op::Apply2 { op } => Opcode::Apply2 { op },
            Op::Apply2Right { op, .. } => Opcode::Apply2Right { op },
            Op::Apply2Left { op, .. } => Opcode::Apply2Left { op },
            Op::Lit { .. } => Opcode::Lit,
            Op::Copy => Opcode::Copy,
            Op::Sync => Opcode::Sync,
            Op::Switch => Opcode::Switch,
            Op::Fetch { .. } => Opcode::Fetch,
            Op::Store { .. } => Opcode::Store,
            Op::Frame => Opcode::Frame,
            Op::Link { .. } => Opcode::Link,
            Op::Send { .. } => Opcode::Send,
            Op::Return { .. } => Opcode::Return,
            Op::Ask { .. } => Opcode::Ask,
            Op::Open { .. } => Opcode::Open,
            Op::Take { .. } => Opcode::Take,
            Op::Give { .. } => Opcode::Give,
            Op::Drain { .. } => Opcode::Drain,
            Op::Release { .. } => Opcode::Release,
        }
    }

    /// The word in a listing.
    pub fn word(self) -> &'static [u8]
        ensures { result.now ≡ op_word self }
    {
        self.opcode().word()
    }

    /// Whether it takes two tokens, which meet in its slot.
    #[inline(always)]
    pub fn takes_two(self) -> bool
        ensures result { result ≡ is_dyadic self }
        ensures instr { (i : Instr) → i.op ≡ self → Bytes.is_dyadic (Some i) ≡ result }
    {
        matches!(
            self,
            Op::Apply2 { .. }
                | Op::Sync
                | Op::Switch
                | Op::Store { .. }
                | Op::Send { .. }
                | Op::Return { .. }
                | Op::Ask { .. }
                | Op::Release { .. }
        )
    }

    /// Whether it handles the credits of a loop, which its slot has.
    #[inline(always)]
    pub fn is_credit(self) -> bool
        ensures { result ≡ is_credit self }
    {
        matches!(
            self,
            Op::Open { .. } | Op::Take { .. } | Op::Give { .. } | Op::Drain { .. }
        )
    }

    /// Whether an instruction with this operation uses its slot.
    #[inline(always)]
    pub fn uses_slot(self) -> bool
        ensures result { result ≡ uses_slot self }
        ensures slot { (i : Instr) → slot_of i self ≡ (if result then Some i.slot else None) }
    {
        self.takes_two() || self.is_credit()
    }

    /// The slot of an instruction with this operation that names this slot; none where it uses none.
    #[inline(always)]
    pub fn slot_in(self, slot: u32) -> Option<u32>
        ensures { (i : Instr) → i.slot ≡ slot → result ≡ slot_of i self }
    {
        if self.uses_slot() { Some(slot) } else { None }
    }

    /// Whether it may make a fault, and so may have an origin.
    #[inline(always)]
    pub fn may_fault(self) -> bool
        ensures { result ≡ may_fault self }
    {
        match self {
            Op::Apply2 { op } | Op::Apply2Right { op, .. } | Op::Apply2Left { op, .. } => {
                op.is_division()
            }
            Op::Fetch { .. } | Op::Store { .. } => true,
            _ => false,
        }
    }

    /// Whether its first and second destinations get different tokens.
    #[inline(always)]
    pub fn has_sides(self) -> bool
        ensures { result ≡ has_sides self }
    {
        matches!(self, Op::Switch | Op::Link { .. })
    }
}

/// Whose predicate a switch of a plan takes: none, where the instruction is no switch; that of the conditional at a node
/// of its block; or that of the loop.
#[derive(Clone, Copy, Debug, PartialEq, Eq)]
pub enum Mark {
    Unmarked,
    OfCond { cond: u32 },
    OfFlag,
}
