//! The destinations of an instruction in two sides.

ghost use Rattle.std.specs.Prelude.{◌≡◌, ◌++◌, IfOk, map};
ghost use Rattle.fanout.specs.Sides as of_sides;

use code::Instr;
use semantics::program::{Dest, Op};
use std::alloc::{AllocError, Allocator};

/// How the destinations of an instruction are split into two sides. From each side it sends to one place.
#[derive(Clone, Copy)]
pub(crate) enum Parting {
    /// First and second destinations differ.
    AsTheyAre,
    /// The instruction sends to one place.
    InOne,
    /// It sends to two places: the first half of all its destinations, and the second half.
    InHalves,
}

impl Parting {
    fn of(op: Op) -> Parting
        ensures { result ≡ of_sides.parting_of op }
    {
        match op {
            Op::Switch | Op::Link { .. } => Parting::AsTheyAre,
            Op::Give { .. } | Op::Drain { .. } => Parting::InOne,
            _ => Parting::InHalves,
        }
    }
}

/// How many copies lead from one place to such destinations.
pub(crate) fn copies(dests: &[Dest]) -> usize
    ensures { result ≡ of_sides.copies dests.now }
{
    dests.len().saturating_sub(1)
}

/// First and second destinations in one list.
fn joined<A: Allocator>(
    alloc: A,
    firsts: &[Dest],
    seconds: &[Dest],
) -> Result<Vec<Dest, A>, AllocError>
    ensures { IfOk result (λ v. v.items ≡ firsts.now ++ seconds.now) }
{
    let mut all = Vec::from_slice(alloc, firsts)?;
    all.extend_from_slice(seconds)?;
    Ok(all)
}

/// The first half of a list, which is the longer one.
fn first_half<A: Allocator>(alloc: A, dests: &[Dest]) -> Result<Vec<Dest, A>, AllocError>
    ensures { IfOk result (λ v. v.items ≡ of_sides.first_half dests.now) }
{
    let half = dests.len() - dests.len() / 2;
    Vec::from_slice(alloc, &dests[..half])
}

/// The second half of a list.
fn last_half<A: Allocator>(alloc: A, dests: &[Dest]) -> Result<Vec<Dest, A>, AllocError>
    ensures { IfOk result (λ v. v.items ≡ of_sides.last_half dests.now) }
{
    let half = dests.len() - dests.len() / 2;
    Vec::from_slice(alloc, &dests[half..])
}

/// The first side of an instruction.
fn firsts_of<A: Allocator + Clone>(alloc: A, instr: &Instr<A>) -> Result<Vec<Dest, A>, AllocError>
    ensures { IfOk result (λ v. v.items ≡ of_sides.firsts_of (of_sides.parting_of instr.now.op) instr.now.firsts instr.now.seconds) }
{
    match Parting::of(instr.op) {
        Parting::AsTheyAre => Vec::from_slice(alloc, &instr.firsts),
        Parting::InOne => joined(alloc, &instr.firsts, &instr.seconds),
        Parting::InHalves => {
            let all = joined(alloc.clone()?, &instr.firsts, &instr.seconds)?;
            first_half(alloc, &all)
        }
    }
}

/// The second side of an instruction.
fn seconds_of<A: Allocator + Clone>(alloc: A, instr: &Instr<A>) -> Result<Vec<Dest, A>, AllocError>
    ensures { IfOk result (λ v. v.items ≡ of_sides.seconds_of (of_sides.parting_of instr.now.op) instr.now.firsts instr.now.seconds) }
{
    match Parting::of(instr.op) {
        Parting::AsTheyAre => Vec::from_slice(alloc, &instr.seconds),
        Parting::InOne => Ok(Vec::new(alloc)),
        Parting::InHalves => {
            let all = joined(alloc.clone()?, &instr.firsts, &instr.seconds)?;
            last_half(alloc, &all)
        }
    }
}

/// An instruction with its destinations in two sides.
fn part<A: Allocator + Clone>(alloc: A, instr: &Instr<A>) -> Result<Instr<A>, AllocError>
    ensures { IfOk result (λ i. i ≡ of_sides.parted instr.now) }
{
    let firsts = firsts_of(alloc.clone()?, instr)?;
    let seconds = seconds_of(alloc, instr)?;
    Ok(Instr {
        op: instr.op,
        origin: instr.origin,
        slot: instr.slot,
        firsts,
        seconds,
    })
}

/// Instructions with their destinations in two sides.
pub(crate) fn part_all<A: Allocator + Clone>(
    alloc: A,
    instrs: &[Instr<A>],
) -> Result<Vec<Instr<A>, A>, AllocError>
    ensures { IfOk result (λ v. v.items ≡ map of_sides.parted instrs.now) }
{
    let mut parts = Vec::with_capacity(alloc.clone()?, instrs.len())?;
    for instr in instrs {
        parts.push(part(alloc.clone()?, instr)?)?;
    }
    Ok(parts)
}
