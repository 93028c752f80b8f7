//! Instructions in their new places, with their new operands.

ghost use Rattle.std.specs.Prelude.{◌≡◌, ◌+◌, ◌++◌, IfOk, OnOk};
ghost use Rattle.folding.specs.Moved as of_moved;

use crate::layout::Layout;
use code::Instr;
use semantics::program::Dest;
use std::alloc::{AllocError, Allocator};
use tags::token::Port;

/// A number of instructions or holders. A block with more of them does not fit into memory.
pub(crate) fn count_of(number: usize) -> Result<u32, AllocError>
    ensures { IfOk result (λ count. count ≡ number) }
{
    match u32::try_from(number) {
        Ok(count) => Ok(count),
        Err(_) => Err(AllocError),
    }
}

/// The place so far ahead. A block with more instructions than can be counted does not fit into memory.
fn target(number: usize, ahead: u32) -> Result<usize, AllocError>
    ensures { IfOk result (λ place. place ≡ number + ahead) }
{
    match number.checked_add(ahead as usize) {
        Some(place) => Ok(place),
        None => Err(AllocError),
    }
}

/// A destination, by its place and the place of what names it.
fn dest_at(from: usize, to: usize, port: Port) -> Result<Dest, AllocError>
    ensures { IfOk result (λ d. d ≡ of_moved.dest_at from to port) }
{
    let ahead = count_of(to.saturating_sub(from))?;
    Ok(Dest { ahead, port })
}

/// Whether no word arrives at that port any more.
fn is_shut<A: Allocator>(layout: &Layout<A>, number: usize, port: Port) -> bool
    ensures { result ≡ of_moved.is_shut layout.now number port }
{
    layout.is_gone(number) || layout.fold(number).is_closed(port)
}

/// A destination of the instruction of that number, to one of another number.
fn new_dest<A: Allocator>(
    layout: &Layout<A>,
    number: usize,
    to: usize,
    port: Port,
) -> Result<Dest, AllocError>
    ensures { IfOk result (λ d. d ≡ of_moved.new_dest layout.now number to port) }
{
    let port = layout.fold(to).new_port(port);
    dest_at(layout.place(number), layout.place(to), port)
}

/// Adds a destination of the instruction of that number in its new place, if it still gets words.
fn push_dest<A: Allocator>(
    layout: &Layout<A>,
    number: usize,
    dest: Dest,
    dests: &mut Vec<Dest, A>,
) -> Result<(), AllocError>
    ensures { OnOk result (dests.new.items ≡ dests.old.items ++ of_moved.moved_dest layout.now number dest) }
{
    let to = target(number, dest.ahead)?;
    if !is_shut(layout, to, dest.port) {
        dests.push(new_dest(layout, number, to, dest.port)?)?;
    }
    Ok(())
}

/// The destinations of the instruction of that number in their new places.
fn moved_dests<A: Allocator>(
    alloc: A,
    layout: &Layout<A>,
    number: usize,
    dests: &[Dest],
) -> Result<Vec<Dest, A>, AllocError>
    ensures { IfOk result (λ v. v.items ≡ of_moved.moved_dests layout.now number dests.now) }
{
    let mut list = Vec::with_capacity(alloc, dests.len())?;
    for dest in dests {
        push_dest(layout, number, *dest, &mut list)?;
    }
    Ok(list)
}

/// The new holder of the instruction of that number; a folded one has none.
fn new_slot<A: Allocator>(layout: &Layout<A>, number: usize, holder: u32) -> Result<u32, AllocError>
    ensures { IfOk result (λ slot. slot ≡ of_moved.new_slot layout.now number holder) }
{
    if layout.fold(number).is_folded() {
        return Ok(0);
    }
    count_of(layout.holder(holder as usize))
}

/// The instruction of that number in its new place.
pub(crate) fn moved<A: Allocator + Clone>(
    alloc: A,
    layout: &Layout<A>,
    number: usize,
    instr: &Instr<A>,
) -> Result<Instr<A>, AllocError>
    ensures { IfOk result (λ i. i ≡ of_moved.moved layout.now number instr.now) }
{
    let firsts = moved_dests(alloc.clone()?, layout, number, &instr.firsts)?;
    let seconds = moved_dests(alloc, layout, number, &instr.seconds)?;
    Ok(Instr {
        op: layout.fold(number).new_op(instr.op),
        origin: instr.origin,
        slot: new_slot(layout, number, instr.slot)?,
        firsts,
        seconds,
    })
}
