//! Instructions in their places, and trees of copies.

ghost use Rattle.std.specs.Prelude.{◌≡◌, ◌+◌, ◌-◌, ◌<◌, ◌++◌, IfOk, OnOk, length};
ghost use Rattle.fanout.specs.Trees as of_trees;
ghost use Rattle.fanout.specs.Sides as of_sides;

use crate::layout::{Layout, plus};
use crate::sides::copies;
use code::Instr;
use semantics::program::{Dest, Op};
use std::alloc::{AllocError, Allocator};
use tags::token::Port;
use tags::value::Origin;

/// A destination, by its place and the place of what names it. A block in which it is too far ahead does not fit into memory.
fn dest_at(from: usize, to: usize, port: Port) -> Result<Dest, AllocError>
    ensures { IfOk result (λ d. d ≡ of_trees.dest_at from to port) }
{
    match u32::try_from(to.saturating_sub(from)) {
        Ok(ahead) => Ok(Dest { ahead, port }),
        Err(_) => Err(AllocError),
    }
}

/// A destination of the instruction of that number, named by what is at a place.
fn leaf<A: Allocator>(
    layout: &Layout<A>,
    number: usize,
    at: usize,
    dest: Dest,
) -> Result<Dest, AllocError>
    ensures { IfOk result (λ d. d ≡ of_trees.leaf layout.now number at dest) }
{
    let to = layout.place(plus(number, dest.ahead as usize)?);
    dest_at(at, to, dest.port)
}

/// A child of a copy of that number, which is at a place. The children are numbered on after those of the copies
/// before it: the first ones are copies, and the others the destinations in their order.
fn child<A: Allocator>(
    layout: &Layout<A>,
    number: usize,
    at: usize,
    copy: usize,
    dests: &[Dest],
    child: usize,
) -> Result<Dest, AllocError>
    ensures { IfOk result (λ d. d ≡ of_trees.child layout.now number at copy dests.now child) }
{
    if child < copies(dests) {
        return dest_at(copy, child, Port::Left);
    }
    match dests.get(child - copies(dests)) {
        Some(dest) => leaf(layout, number, at, *dest),
        None => dest_at(at, at, Port::Left),
    }
}

/// The copy of that number of a side of an instruction, which is at a place.
fn copy_at<A: Allocator + Clone>(
    alloc: A,
    layout: &Layout<A>,
    number: usize,
    at: usize,
    copy: usize,
    dests: &[Dest],
) -> Result<Instr<A>, AllocError>
    requires { copy < length dests.now }
    ensures { IfOk result (λ i. i ≡ of_trees.copy_at layout.now number at copy dests.now) }
{
    let mut firsts = Vec::new(alloc.clone()?);
    firsts.push(child(layout, number, at, copy, dests, 2 * copy + 1)?)?;
    let mut seconds = Vec::new(alloc);
    seconds.push(child(layout, number, at, copy, dests, 2 * copy + 2)?)?;
    Ok(Instr {
        op: Op::Copy,
        origin: Origin::Untold,
        slot: 0,
        firsts,
        seconds,
    })
}

/// Adds the copies of a side of an instruction, of which the first one is at `root`.
fn push_tree<A: Allocator + Clone>(
    alloc: A,
    layout: &Layout<A>,
    number: usize,
    root: usize,
    dests: &[Dest],
    instrs: &mut Vec<Instr<A>, A>,
) -> Result<(), AllocError>
    ensures { OnOk result (instrs.new.items ≡ instrs.old.items ++ of_trees.tree layout.now number root dests.now (of_sides.copies dests.now)) }
{
    for copy in 0..copies(dests) {
        let at = plus(root, copy)?;
        let instr = copy_at(alloc.clone()?, layout, number, at, copy, dests)?;
        instrs.push(instr)?;
    }
    Ok(())
}

/// A side of an instruction, which is at a place: its destination, or the first copy, which is at `root`.
fn side<A: Allocator>(
    alloc: A,
    layout: &Layout<A>,
    number: usize,
    at: usize,
    root: usize,
    dests: &[Dest],
) -> Result<Vec<Dest, A>, AllocError>
    ensures { IfOk result (λ v. v.items ≡ of_trees.side layout.now number at root dests.now) }
{
    let mut side = Vec::new(alloc);
    if dests.len() > 1 {
        side.push(dest_at(at, root, Port::Left)?)?;
        return Ok(side);
    }
    for dest in dests {
        side.push(leaf(layout, number, at, *dest)?)?;
    }
    Ok(side)
}

/// The instruction of that number in its place.
pub(crate) fn moved<A: Allocator + Clone>(
    alloc: A,
    layout: &Layout<A>,
    number: usize,
    instr: &Instr<A>,
) -> Result<Instr<A>, AllocError>
    ensures { IfOk result (λ i. i ≡ of_trees.moved layout.now number instr.now) }
{
    let at = layout.place(number);
    let root = layout.base(number);
    let next = plus(root, copies(&instr.firsts))?;
    let firsts = side(alloc.clone()?, layout, number, at, root, &instr.firsts)?;
    let seconds = side(alloc, layout, number, at, next, &instr.seconds)?;
    Ok(Instr {
        op: instr.op,
        origin: instr.origin,
        slot: instr.slot,
        firsts,
        seconds,
    })
}

/// Adds the copies of the instruction of that number.
pub(crate) fn push_copies<A: Allocator + Clone>(
    alloc: A,
    layout: &Layout<A>,
    number: usize,
    instr: &Instr<A>,
    instrs: &mut Vec<Instr<A>, A>,
) -> Result<(), AllocError>
    ensures { OnOk result (instrs.new.items ≡ instrs.old.items ++ of_trees.copies_of layout.now number instr.now) }
{
    let root = layout.base(number);
    let next = plus(root, copies(&instr.firsts))?;
    push_tree(alloc.clone()?, layout, number, root, &instr.firsts, instrs)?;
    push_tree(alloc, layout, number, next, &instr.seconds, instrs)
}
