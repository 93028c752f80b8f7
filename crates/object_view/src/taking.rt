//! Objects taken apart: the code that is in their bytes, as a value that outlives them.

ghost use Rattle.std.specs.Prelude.{◌≡◌, ◌<◌, ℕ, IfOk, length, option_map, option_to_list, slice_get};
ghost use Rattle.semantics.specs.Program as Told;
ghost use Rattle.object_view.specs.Reading.{shown};
ghost use Rattle.object_view.specs.Taking.{IsBlockAt};

use crate::instr::CodeInstr;
use crate::object::{BlockView, Object};
use code::{Code, CodeBlock, Instr, Program};
use semantics::program::Dest;
use std::alloc::{AllocError, Allocator};

/// At most one destination.
fn dests_of<A: Allocator>(alloc: A, dest: Option<Dest>) -> Result<Vec<Dest, A>, AllocError>
    ensures { IfOk result (λ v. v.items ≡ option_to_list dest) }
{
    let mut dests = Vec::new(alloc);
    if let Some(dest) = dest {
        dests.push(dest)?;
    }
    Ok(dests)
}

/// An instruction with its destinations.
fn instr_of<A: Allocator + Clone>(alloc: A, instr: CodeInstr) -> Result<Instr<A>, AllocError>
    ensures { IfOk result (λ i. i ≡ shown instr) }
{
    let firsts = dests_of(alloc.clone()?, instr.first)?;
    let seconds = dests_of(alloc, instr.second)?;
    Ok(Instr {
        op: instr.op,
        origin: instr.origin,
        slot: instr.slot,
        firsts,
        seconds,
    })
}

/// The instruction of that number in a block.
fn instr_in(object: &Object<'_>, block: &BlockView, number: u32) -> Option<CodeInstr>
    ensures { (k : ℕ) → (b : Told.CodeBlock) → IsBlockAt object.now.code.program k b block.now → number < length b.instrs → option_map shown result
        ≡ slice_get b.instrs number }
{
    let Some(left) = object.instr_count().checked_sub(block.first) else {
        return None;
    };
    if number < left {
        object.instr(block.first + number)
    } else {
        None
    }
}

/// The instructions of a block.
fn instrs_of<A: Allocator + Clone>(
    alloc: A,
    object: &Object<'_>,
    block: &BlockView,
) -> Result<Vec<Instr<A>, A>, AllocError>
    ensures { (k : ℕ) → (b : Told.CodeBlock) → IsBlockAt object.now.code.program k b block.now → IfOk result (λ v. v.items ≡ b.instrs) }
{
    let mut instrs = Vec::with_capacity(alloc.clone()?, block.instrs as usize)?;
    for number in 0..block.instrs {
        let Some(instr) = instr_in(object, block, number) else {
            return Ok(instrs);
        };
        instrs.push(instr_of(alloc.clone()?, instr)?)?;
    }
    Ok(instrs)
}

/// A block with its instructions.
fn block_of<A: Allocator + Clone>(
    alloc: A,
    object: &Object<'_>,
    block: &BlockView,
) -> Result<CodeBlock<A>, AllocError>
    ensures { (k : ℕ) → (b : Told.CodeBlock) → IsBlockAt object.now.code.program k b block.now → IfOk result (λ x. x ≡ b) }
{
    let instrs = instrs_of(alloc, object, block)?;
    Ok(CodeBlock {
        inputs: block.inputs,
        outputs: block.outputs,
        slots: block.slots,
        instrs,
    })
}

/// The blocks.
fn blocks_of<A: Allocator + Clone>(
    alloc: A,
    object: &Object<'_>,
) -> Result<Vec<CodeBlock<A>, A>, AllocError>
    ensures { IfOk result (λ v. v.items ≡ object.now.code.program.blocks) }
{
    let mut blocks = Vec::with_capacity(alloc.clone()?, object.block_count() as usize)?;
    for number in 0..object.block_count() {
        let Some(block) = object.block(number) else {
            return Ok(blocks);
        };
        blocks.push(block_of(alloc.clone()?, object, &block)?)?;
    }
    Ok(blocks)
}

/// The literals.
fn literals_of<A: Allocator>(alloc: A, object: &Object<'_>) -> Result<Vec<i64, A>, AllocError>
    ensures { IfOk result (λ v. v.items ≡ object.now.code.literals) }
{
    let mut literals = Vec::with_capacity(alloc, object.literal_count() as usize)?;
    for number in 0..object.literal_count() {
        let Some(literal) = object.literal(number) else {
            return Ok(literals);
        };
        literals.push(literal)?;
    }
    Ok(literals)
}

/// The lengths of the arrays.
fn arrays_of<A: Allocator>(alloc: A, object: &Object<'_>) -> Result<Vec<u32, A>, AllocError>
    ensures { IfOk result (λ v. v.items ≡ object.now.code.program.arrays) }
{
    // What the bytes promise: each length has room in 32 bits.
    let _bytes = object.bytes();
    let mut arrays = Vec::with_capacity(alloc, object.array_count() as usize)?;
    for number in 0..object.array_count() {
        let Some(len) = object.array(number) else {
            return Ok(arrays);
        };
        arrays.push(len as u32)?;
    }
    Ok(arrays)
}

impl<'a> Object<'a> {
    /// The code of the object, which no longer needs the bytes. Takes time in proportion to the number of instructions, and to
    /// the square of the number of blocks.
    pub fn to_code<A: Allocator + Clone>(&self, alloc: A) -> Result<Code<A>, AllocError>
        ensures { IfOk result (λ c. c ≡ self.now.code) }
    {
        let blocks = blocks_of(alloc.clone()?, self)?;
        let arrays = arrays_of(alloc.clone()?, self)?;
        let literals = literals_of(alloc, self)?;
        let main = self.main();
        Ok(Code {
            program: Program {
                blocks,
                arrays,
                main,
            },
            literals,
        })
    }
}
