//! The instructions and the marks of a block.

ghost use Rattle.std.specs.Prelude.{◌≡◌, IfOk};
ghost use Rattle.folding.specs.Folded as of_blocks;

use crate::layout::Layout;
use crate::moved::{count_of, moved};
use code::{CodeBlock, Instr, Plan};
use semantics::program::Mark;
use std::alloc::{AllocError, Allocator};

/// The instructions of a block in their new places.
fn moved_all<A: Allocator + Clone>(
    alloc: A,
    layout: &Layout<A>,
    instrs: &[Instr<A>],
) -> Result<Vec<Instr<A>, A>, AllocError>
    ensures { IfOk result (λ v. v.items ≡ of_blocks.moved_from layout.now 0 instrs.now) }
{
    let mut list = Vec::with_capacity(alloc.clone()?, instrs.len())?;
    for (number, instr) in instrs.iter().enumerate() {
        if !layout.is_gone(number) {
            list.push(moved(alloc.clone()?, layout, number, instr)?)?;
        }
    }
    Ok(list)
}

fn mark_of(marks: &[Mark], number: usize) -> Mark
    ensures { result ≡ of_blocks.mark_of marks.now number }
{
    match marks.get(number) {
        Some(mark) => *mark,
        None => Mark::Unmarked,
    }
}

/// The marks of the instructions of a block in their new places.
fn moved_marks<A: Allocator>(
    alloc: A,
    layout: &Layout<A>,
    marks: &[Mark],
    instrs: &[Instr<A>],
) -> Result<Vec<Mark, A>, AllocError>
    ensures { IfOk result (λ v. v.items ≡ of_blocks.marks_from layout.now marks.now 0 instrs.now) }
{
    let mut list = Vec::with_capacity(alloc, instrs.len())?;
    for (number, _instr) in instrs.iter().enumerate() {
        if !layout.is_gone(number) {
            list.push(mark_of(marks, number))?;
        }
    }
    Ok(list)
}

/// A block with its marks.
#[derive(Drop)]
pub(crate) struct Marked<A: Allocator> {
    pub block: CodeBlock<A>,
    pub marks: Vec<Mark, A>,
}

/// The block with literal operands, and its marks.
pub(crate) fn fold_block<A: Allocator + Clone>(
    alloc: A,
    plan: &Plan<A>,
    block: &CodeBlock<A>,
    marks: &[Mark],
) -> Result<Marked<A>, AllocError>
    ensures block { IfOk result (λ m. m.block ≡ of_blocks.folded_block plan.now block.now) }
    ensures marks { IfOk result (λ m. m.marks.items ≡ of_blocks.folded_marks plan.now marks.now block.now) }
{
    let layout = Layout::of(alloc.clone()?, plan, block)?;
    let instrs = moved_all(alloc.clone()?, &layout, &block.instrs)?;
    let marks = moved_marks(alloc, &layout, marks, &block.instrs)?;
    Ok(Marked {
        block: CodeBlock {
            inputs: block.inputs,
            outputs: block.outputs,
            slots: count_of(layout.slots())?,
            instrs,
        },
        marks,
    })
}
