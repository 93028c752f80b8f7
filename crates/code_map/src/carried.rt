//! What the passes make of the places of instructions, which go through them in the place of marks.

ghost use Rattle.std.specs.Prelude.{◌≡◌, ◌++◌, map, IfOk, OnOk};
ghost use Rattle.code_map.specs.Carried as Carried;
ghost use Rattle.code_map.specs.Numbered as Numbered;

use crate::owner::Owner;
use crate::part::Part;
use crate::rows::push_all;
use code::{Instr, Plan};
use semantics::program::{Mark, Op};
use std::alloc::{AllocError, Allocator};

/// For each instruction of a block, by their number, its place in the place of a mark.
fn places<A: Allocator>(alloc: A, count: usize) -> Result<Vec<Mark, A>, AllocError>
    ensures { IfOk result (λ v. v.items ≡ Numbered.places count) }
{
    let mut marks = Vec::with_capacity(alloc, count)?;
    for place in 0..count {
        // So many instructions do not fit into memory.
        let Ok(cond) = u32::try_from(place) else {
            return Err(AllocError);
        };
        marks.push(Mark::OfCond { cond })?;
    }
    Ok(marks)
}

/// For each code block of a plan the places of its instructions.
fn all_places<A: Allocator + Clone>(
    alloc: A,
    plan: &Plan<A>,
) -> Result<Vec<Vec<Mark, A>, A>, AllocError>
    ensures { IfOk result (λ v. map (λ ms. ms.items) v.items ≡ map Numbered.numbers_of plan.now.program.blocks) }
{
    let mut marks = Vec::with_capacity(alloc.clone()?, plan.program.blocks.len())?;
    for block in &plan.program.blocks {
        marks.push(places(alloc.clone()?, block.instrs.len())?)?;
    }
    Ok(marks)
}

/// The plan in which each instruction is marked with its place.
pub(crate) fn number<A: Allocator + Clone>(alloc: A, plan: Plan<A>) -> Result<Plan<A>, AllocError>
    ensures { IfOk result (λ p. p ≡ Numbered.numbered plan) }
{
    let numbers = all_places(alloc, &plan)?;
    let Plan {
        program,
        plain,
        marks: _,
    } = plan;
    Ok(Plan {
        program,
        plain,
        marks: numbers,
    })
}

/// The owner of that number.
fn owner_at(owners: &[Owner], number: usize) -> Owner
    ensures { result ≡ Carried.owner_at owners.now number }
{
    match owners.get(number) {
        Some(owner) => *owner,
        None => Owner {
            block: 0,
            turns: false,
            part: Part::Continuation,
        },
    }
}

/// The owner of an instruction that has the place of another one, or of a copy.
fn owner_of(owners: &[Owner], mark: Mark) -> Owner
    ensures { result ≡ Numbered.owner_by owners.now mark }
{
    match mark {
        Mark::OfCond { cond } => owner_at(owners, cond as usize),
        _ => owner_at(&[], 0),
    }
}

/// How many copies narrowing makes of an instruction with that operation and so many destinations of either kind.
fn copy_count(op: Op, firsts: usize, seconds: usize) -> Result<usize, AllocError>
    ensures { IfOk result (λ n. n ≡ Numbered.copy_count op firsts seconds) }
{
    // More destinations than can be counted do not fit into memory.
    let Some(all) = firsts.checked_add(seconds) else {
        return Err(AllocError);
    };
    match op {
        Op::Switch | Op::Link { .. } => Ok(firsts.saturating_sub(1) + seconds.saturating_sub(1)),
        Op::Give { .. } | Op::Drain { .. } => Ok(all.saturating_sub(1)),
        _ => Ok(all.saturating_sub(2)),
    }
}

/// Adds the owner of an instruction for each of its copies.
fn push_sides<A: Allocator>(
    copies: &mut Vec<Owner, A>,
    instr: &Instr<A>,
    owner: Owner,
) -> Result<(), AllocError>
    ensures { OnOk result (copies.new.items ≡ copies.old.items ++ Numbered.all_copied instr.now owner) }
{
    let count = copy_count(instr.op, instr.firsts.len(), instr.seconds.len())?;
    push_all(copies, count, owner)
}

fn mark_at(marks: &[Mark], place: usize) -> Mark
    ensures { result ≡ Numbered.mark_at marks.now place }
{
    match marks.get(place) {
        Some(mark) => *mark,
        None => Mark::Unmarked,
    }
}

/// The owners of the copies that narrowing makes of a block's instructions, in order.
fn copies_of<A: Allocator>(
    alloc: A,
    owners: &[Owner],
    instrs: &[Instr<A>],
    marks: &[Mark],
) -> Result<Vec<Owner, A>, AllocError>
    ensures { IfOk result (λ v. v.items ≡ Numbered.copies_from owners.now marks.now 0 instrs.now) }
{
    let mut copies = Vec::new(alloc);
    for (place, instr) in instrs.iter().enumerate() {
        let owner = owner_of(owners, mark_at(marks, place));
        push_sides(&mut copies, instr, owner)?;
    }
    Ok(copies)
}

/// Adds the owners of the instructions that have these marks in the end: places, and for the copies none.
fn push_marked<A: Allocator>(
    map: &mut Vec<Owner, A>,
    owners: &[Owner],
    copies: &[Owner],
    marks: &[Mark],
) -> Result<(), AllocError>
    ensures { OnOk result (map.new.items ≡ map.old.items ++ Numbered.picked owners.now copies.now 0 marks.now) }
{
    let mut next = 0;
    for mark in marks {
        if let Mark::OfCond { .. } = *mark {
            map.push(owner_of(owners, *mark))?;
        } else {
            map.push(owner_at(copies, next))?;
            next += 1;
        }
    }
    Ok(())
}

/// The owners of a code block.
fn owners_in<A: Allocator>(owners: &[Vec<Owner, A>], code: usize) -> &[Owner]
    ensures { result.now ≡ Numbered.owners_in (map (λ v. v.items) owners.now) code }
{
    match owners.get(code) {
        Some(owners) => owners,
        None => &[],
    }
}

/// The owners of all instructions of an object, by those of the plan and by the places that the passes made of its marks.
pub(crate) fn joined<A: Allocator + Clone>(
    alloc: A,
    owners: &[Vec<Owner, A>],
    folded: &Plan<A>,
    narrowed: &Plan<A>,
) -> Result<Vec<Owner, A>, AllocError>
    ensures { IfOk result (λ v. v.items ≡ Numbered.joined (map (λ os. os.items) owners.now) folded.now narrowed.now) }
{
    let mut map = Vec::new(alloc.clone()?);
    for (code, block) in folded.program.blocks.iter().enumerate() {
        let owners = owners_in(owners, code);
        let copies = copies_of(alloc.clone()?, owners, &block.instrs, folded.marks_of(code))?;
        push_marked(&mut map, owners, &copies, narrowed.marks_of(code))?;
    }
    Ok(map)
}
