//! An opened object made ready to be run: where its blocks begin and where its arrays lie are looked up, not counted anew.
#![tactic(auto)]

ghost use Rattle.std.specs.Prelude.{◌≡◌, ◌≤◌, ◌<◌, length, sum, IfOk};
ghost use Rattle.std.specs.Option.{option_map};
ghost use Rattle.semantics.specs.Program.{first_of};
ghost use Rattle.semantics.specs.Machine.{outputs_of};
ghost use Rattle.element.specs.Decoded.{instr_of};
ghost use Rattle.object_view.specs.Reading.{shown, unpacked};
ghost use Rattle.schedule.specs.Setting.{FitsSlots};
ghost use Rattle.loaded.specs.Ready.{widest, inputs_of};

mod making;

use element::instructions::{Array, Instruction, Instructions};
use making::{arrays_of, cells_of, entries_of, most_slots};
use object_view::{Object, PackedInstr};
use schedule::main_code::MainCode;
use std::alloc::{AllocError, Allocator};
use std::marker::Model;

/// An object with the number of each block's first instruction, and with the place of each array among the cells, which
/// are numbered through all arrays in order. Contracts see the object.
#[derive(Drop)]
pub struct Loaded<'a, A: Allocator> {
    object: Object<'a>,
    /// The number of each block's first instruction.
    entries: Vec<u32, A>,
    arrays: Vec<Array, A>,
    /// How many instructions all blocks have together.
    instrs: u32,
    /// How many cells all arrays have together.
    cells: u32,
    /// The most slots of any block, and at least 1.
    slots: u32,
}

impl<'a, A: Allocator> Model for Loaded<'a, A> {
    ghost use Rattle.object_view.specs.Reading.{Opened};
    ghost use Rattle.loaded.specs.Ready.{IsReady};

    ghost Value = { Opened };

    ghost view = { λ l. l.object };

    ghost invariant = { λ l. IsReady l.object l.entries.items l.arrays.items l.instrs l.cells l.slots };
}

// The same instruction, as an element reads it.
#[inline(always)]
fn instruction_of(instr: PackedInstr) -> Instruction
    ensures { instr_of result ≡ shown (unpacked instr) }
{
    Instruction {
        op: instr.op,
        origin: instr.origin,
        bits: instr.bits % 281_474_976_710_656,
    }
}

impl<'a, A: Allocator> Loaded<'a, A> {
    /// Makes an object ready. Takes time in proportion to the square of the number of blocks.
    pub fn new(alloc: A, object: Object<'a>) -> Result<Loaded<'a, A>, AllocError>
    where
        A: Clone,
        ensures { IfOk result (λ l. l ≡ object.entry) }
    {
        // What the bytes promise: the code is lawful.
        let _bytes = object.bytes();
        let entries = entries_of(alloc.clone()?, &object)?;
        let arrays = arrays_of(alloc, &object)?;
        let cells = cells_of(&object);
        let instrs = object.instr_count();
        let slots = most_slots(&object);
        Ok(Loaded {
            object,
            entries,
            arrays,
            instrs,
            cells,
            slots,
        })
    }

    /// The object that was made ready.
    pub fn object(&self) -> &Object<'a>
        ensures { result.now ≡ self.now }
    {
        &self.object
    }
}

impl<'a, A: Allocator> Instructions for Loaded<'a, A> {
    ghost program = { λ l. l.code.program };

    ghost width = { λ l. widest l.code.program.blocks };

    #[inline(always)]
    fn count(&self) -> usize {
        self.object.instrs()
    }

    #[inline(always)]
    fn instr(&self, ip: u32) -> Option<Instruction> {
        match self.object.packed(ip) {
            Some(instr) => Some(instruction_of(instr)),
            None => None,
        }
    }

    fn entry(&self, block: u16) -> u32 {
        match self.entries.get(block as usize) {
            Some(entry) => *entry,
            None => self.instrs,
        }
    }

    fn array(&self, number: u8) -> Array {
        match self.arrays.get(number as usize) {
            Some(array) => *array,
            None => Array {
                base: self.cells,
                len: 0,
            },
        }
    }
}

impl<'a, A: Allocator> MainCode for Loaded<'a, A> {
    fn inputs(&self) -> u32 {
        match self.object.block(self.object.main()) {
            Some(block) => block.inputs,
            None => 0,
        }
    }

    fn outputs(&self) -> u32 {
        match self.object.block(self.object.main()) {
            Some(block) => block.outputs,
            None => 0,
        }
    }

    fn main_entry(&self) -> u32 {
        self.entry(self.object.main() as u16)
    }

    fn arrays(&self) -> u8 {
        self.object.array_count() as u8
    }

    fn cells(&self) -> u32
        ensures cells { result ≡ sum self.now.code.program.arrays }
        ensures few { result ≤ 65536 }
    {
        self.cells
    }

    fn slots(&self) -> u32 {
        self.slots
    }
}
