//! The instructions and the marks of a block.

ghost use Rattle.std.specs.Prelude.{◌≡◌, ◌++◌, [], IfOk, OnOk, replicate};
ghost use Rattle.semantics.specs.declared.program.Mark.TheVariants.{Unmarked};
ghost use Rattle.fanout.specs.Narrowed as of_blocks;
ghost use Rattle.fanout.specs.Rows as of_rows;

use crate::layout::{Layout, size};
use crate::sides::part_all;
use crate::trees::{moved, push_copies};
use code::{CodeBlock, Instr, Plan};
use semantics::program::Mark;
use std::alloc::{AllocError, Allocator};

/// What waits follows the instruction of that number, if it is not tied to the next one.
fn release<T, A: Allocator>(
    layout: &Layout<A>,
    number: usize,
    waiting: &mut Vec<T, A>,
    list: &mut Vec<T, A>,
) -> Result<(), AllocError>
    ensures list { OnOk result (list.new.items ≡ list.old.items ++ of_blocks.released (of_rows.is_tied layout.now.tied number) waiting.old.items) }
    ensures waiting { OnOk result (waiting.new.items ≡ of_blocks.held (of_rows.is_tied layout.now.tied number) waiting.old.items) }
{
    if !layout.is_tied(number) {
        list.append(waiting)?;
    }
    Ok(())
}

/// The instructions of a block with their copies. Their destinations are in two sides.
fn spread<A: Allocator + Clone>(
    alloc: A,
    layout: &Layout<A>,
    instrs: &[Instr<A>],
) -> Result<Vec<Instr<A>, A>, AllocError>
    ensures { IfOk result (λ v. v.items ≡ of_blocks.spread layout.now 0 [] instrs.now) }
{
    let mut list = Vec::with_capacity(alloc.clone()?, instrs.len())?;
    let mut waiting = Vec::new(alloc.clone()?);
    for (number, instr) in instrs.iter().enumerate() {
        list.push(moved(alloc.clone()?, layout, number, instr)?)?;
        push_copies(alloc.clone()?, layout, number, instr, &mut waiting)?;
        release(layout, number, &mut waiting, &mut list)?;
    }
    list.append(&mut waiting)?;
    Ok(list)
}

fn mark_of(marks: &[Mark], number: usize) -> Mark
    ensures { result ≡ of_blocks.mark_of marks.now number }
{
    match marks.get(number) {
        Some(mark) => *mark,
        None => Mark::Unmarked,
    }
}

/// Adds `count` marks of copies.
fn push_unmarked<A: Allocator>(count: usize, marks: &mut Vec<Mark, A>) -> Result<(), AllocError>
    ensures { OnOk result (marks.new.items ≡ marks.old.items ++ replicate count Unmarked) }
{
    for _copy in 0..count {
        marks.push(Mark::Unmarked)?;
    }
    Ok(())
}

/// The marks of the instructions of a block and of their copies.
fn spread_marks<A: Allocator + Clone>(
    alloc: A,
    layout: &Layout<A>,
    marks: &[Mark],
    instrs: &[Instr<A>],
) -> Result<Vec<Mark, A>, AllocError>
    ensures { IfOk result (λ v. v.items ≡ of_blocks.spread_marks layout.now.tied marks.now 0 [] instrs.now) }
{
    let mut list = Vec::with_capacity(alloc.clone()?, instrs.len())?;
    let mut waiting = Vec::new(alloc);
    for (number, instr) in instrs.iter().enumerate() {
        list.push(mark_of(marks, number))?;
        push_unmarked(size(instr)?, &mut waiting)?;
        release(layout, number, &mut waiting, &mut list)?;
    }
    list.append(&mut waiting)?;
    Ok(list)
}

/// A block with its marks.
#[derive(Drop)]
pub(crate) struct Marked<A: Allocator> {
    pub block: CodeBlock<A>,
    pub marks: Vec<Mark, A>,
}

/// The block with copies, and its marks.
pub(crate) fn narrow_block<A: Allocator + Clone>(
    alloc: A,
    plan: &Plan<A>,
    block: &CodeBlock<A>,
    marks: &[Mark],
) -> Result<Marked<A>, AllocError>
    ensures block { IfOk result (λ m. m.block ≡ of_blocks.narrowed_block plan.now block.now) }
    ensures marks { IfOk result (λ m. m.marks.items ≡ of_blocks.narrowed_marks plan.now marks.now block.now) }
{
    let parts = part_all(alloc.clone()?, &block.instrs)?;
    let layout = Layout::of(alloc.clone()?, plan, block.inputs, &parts)?;
    let instrs = spread(alloc.clone()?, &layout, &parts)?;
    let marks = spread_marks(alloc, &layout, marks, &parts)?;
    Ok(Marked {
        block: CodeBlock {
            inputs: block.inputs,
            outputs: block.outputs,
            slots: block.slots,
            instrs,
        },
        marks,
    })
}
