//! The holders of a plan's slots.

ghost use Rattle.std.specs.Prelude.{◌≡◌, option_map};
ghost use Rattle.code.specs.Holders.{instrs_in, holders_in, holding, is_of, held_by};

use crate::{Instr, Plan};
use semantics::program::Op;
use std::alloc::Allocator;

/// What holds a slot of a block: an instruction that uses one, or a loop with its open, give, take and drain.
#[derive(Clone, Copy, Debug, PartialEq, Eq)]
pub struct Holder {
    /// What it does. A loop opens.
    pub op: Op,
}

impl Holder {
    // The holder of an instruction that does this.
    fn of(op: Op) -> Holder
        ensures { result.op ≡ holding op }
    {
        match op {
            Op::Take { bound } | Op::Give { bound } | Op::Drain { bound } => Holder {
                op: Op::Open { bound },
            },
            _ => Holder { op },
        }
    }
}

// Whether the instruction has the holder of that number.
fn has_holder<A: Allocator>(instr: &Instr<A>, number: u32) -> bool
    ensures { result ≡ is_of number instr.now }
{
    instr.op.uses_slot() && instr.slot == number
}

// The first of these instructions that has the holder of that number says what it does.
fn first_held<A: Allocator>(instrs: &[Instr<A>], number: u32) -> Option<Holder>
    ensures { option_map (λ h. h.op) result ≡ held_by instrs.now number }
{
    for instr in instrs {
        if has_holder(instr, number) {
            return Some(Holder::of(instr.op));
        }
    }
    None
}

/// The holders of a block, by number. Only the block's instructions are stored, which say what they are.
#[derive(Drop)]
pub struct Holders<'p, A: Allocator> {
    pub instrs: &'p [Instr<A>],
    /// How many holders there are.
    pub count: u32,
}

impl<'p, A: Allocator> Holders<'p, A> {
    /// How many holders there are.
    pub fn len(&self) -> u32
        ensures { result ≡ self.now.count }
    {
        self.count
    }

    /// The holder of that number; none where no instruction has it.
    pub fn get(&self, number: u32) -> Option<Holder>
        ensures { option_map (λ h. h.op) result ≡ held_by self.now.instrs.now number }
    {
        first_held(self.instrs, number)
    }
}

impl<A: Allocator> Plan<A> {
    /// The holders of that block; none where there is no such block.
    pub fn holders(&self, block: usize) -> Holders<'_, A>
        ensures instrs { result.instrs.now ≡ instrs_in self.now block }
        ensures count { result.count ≡ holders_in self.now block }
    {
        match self.program.blocks.get(block) {
            Some(found) => Holders {
                instrs: &found.instrs,
                count: found.slots,
            },
            None => Holders {
                instrs: &[],
                count: 0,
            },
        }
    }
}
