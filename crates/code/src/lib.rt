//! Programs for the explicit token store as the compiler makes them. Contracts see each type as the record of the
//! definitions that it stands for.
#![tactic(auto)]

ghost use Rattle.std.specs.Prelude.{◌≡◌, length, map, slice_get};
ghost use Rattle.std.specs.Option.{option_copied};

pub use holders::{Holder, Holders};
use semantics::program::{Dest, Mark, Op};
use std::alloc::Allocator;
use std::marker::Model;
use tags::value::Origin;

mod holders;

/// An instruction with any number of destinations. A switch sends to the first ones where it is true and else to the
/// second ones; a link has its landing in the first ones and signals to the second ones; any other sends to all.
#[derive(Drop)]
pub struct Instr<A: Allocator> {
    pub op: Op,
    /// The origin of a fault that the instruction makes.
    pub origin: Origin,
    /// The slot in which its operands meet, or its holder's number in a plan; 0 where it has none.
    pub slot: u32,
    pub firsts: Vec<Dest, A>,
    pub seconds: Vec<Dest, A>,
}

impl<A: Allocator> Model for Instr<A> {
    ghost use Rattle.semantics.specs.Program.{Instr};

    ghost Value = { Instr };

    ghost view = { λ i. record { op = i.op; origin = i.origin; slot = i.slot; firsts = i.firsts.items; seconds = i.seconds.items } };
}

/// A code block. Its first instruction takes the continuation, and the next ones its inputs.
#[derive(Drop)]
pub struct CodeBlock<A: Allocator> {
    pub inputs: u32,
    pub outputs: u32,
    /// How many slots a frame of it has.
    pub slots: u32,
    pub instrs: Vec<Instr<A>, A>,
}

impl<A: Allocator> Model for CodeBlock<A> {
    ghost use Rattle.semantics.specs.Program.{CodeBlock};

    ghost Value = { CodeBlock };

    ghost view = { λ b. record { inputs = b.inputs; outputs = b.outputs; slots = b.slots; instrs = b.instrs.items } };
}

/// A program: code blocks, the lengths of the arrays, and the number of the block that is run.
#[derive(Drop)]
pub struct Program<A: Allocator> {
    pub blocks: Vec<CodeBlock<A>, A>,
    pub arrays: Vec<u32, A>,
    pub main: u32,
}

impl<A: Allocator> Model for Program<A> {
    ghost use Rattle.semantics.specs.Program.{Program};

    ghost Value = { Program };

    ghost view = { λ p. record { blocks = p.blocks.items; arrays = p.arrays.items; main = p.main } };
}

/// A plan: a program as the compiler makes it, before slots are chosen. The slot of an instruction that uses one is its
/// holder's number, and the slots of a block are its holders. The instructions of a loop's slot have one holder; each
/// other instruction that uses a slot is a holder of its own.
#[derive(Drop)]
pub struct Plan<A: Allocator> {
    pub program: Program<A>,
    /// The code blocks below this number are plain, and the others are loop variants.
    pub plain: u32,
    /// The marks of the instructions of each block. An instruction that has none is unmarked.
    pub marks: Vec<Vec<Mark, A>, A>,
}

impl<A: Allocator> Model for Plan<A> {
    ghost use Rattle.std.specs.Prelude.{map};
    ghost use Rattle.semantics.specs.Plan.{Plan};

    ghost Value = { Plan };

    ghost view = { λ p. record { program = p.program; plain = p.plain; marks = map (λ v. v.items) p.marks.items } };
}

impl<A: Allocator> Plan<A> {
    ghost use Rattle.code.specs.Marks.{marks_in};

    /// The marks of that block; none where there is no such block.
    pub fn marks_of(&self, block: usize) -> &[Mark]
        ensures { result.now ≡ marks_in self.now block }
    {
        match self.marks.get(block) {
            Some(marks) => marks,
            None => &[],
        }
    }
}

/// For each block a list of slots, one for each of its holders by number. Contracts see the lists.
#[derive(Drop)]
pub struct Slots<A: Allocator> {
    blocks: Vec<Vec<u16, A>, A>,
}

impl<A: Allocator> Model for Slots<A> {
    ghost use Rattle.std.specs.Prelude.{ℕ, List, map};

    ghost Value = { List (List ℕ) };

    ghost view = { λ s. map (λ v. v.items) s.blocks.items };
}

impl<A: Allocator> Slots<A> {
    /// Any lists of slots.
    pub fn of(blocks: Vec<Vec<u16, A>, A>) -> Slots<A>
        ensures { result ≡ map (λ v. v.items) blocks.items }
    {
        Slots { blocks }
    }

    /// How many blocks have a list.
    pub fn len(&self) -> usize
        ensures { result ≡ length self.now }
    {
        self.blocks.len()
    }

    /// The slots of that block.
    pub fn block(&self, block: usize) -> Option<&[u16]>
        ensures { option_copied result ≡ slice_get self.now block }
    {
        match self.blocks.get(block) {
            Some(slots) => Some(slots),
            None => None,
        }
    }
}

/// Code: a program with its table of literals, which an object holds in ascending order. It may have literals that no
/// instruction uses.
#[derive(Drop)]
pub struct Code<A: Allocator> {
    pub program: Program<A>,
    pub literals: Vec<i64, A>,
}

impl<A: Allocator> Model for Code<A> {
    ghost use Rattle.semantics.specs.Program.{Code};

    ghost Value = { Code };

    ghost view = { λ c. record { program = c.program; literals = c.literals.items } };
}
