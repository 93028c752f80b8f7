//! Instructions with their slots, destinations and origins.

ghost use Rattle.std.specs.Prelude.{◌≡◌, ◌<◌, ℕ, IfOk, Some, Contains, All, map, length, slice_get};
ghost use Rattle.semantics.specs.Rule as Rule;
ghost use Rattle.semantics.specs.Opcodes as Opcodes;
ghost use Rattle.semantics.specs.Sharing as Sharing;
ghost use Rattle.semantics.specs.Placed as Placed;
ghost use Rattle.select.specs.Emitted as Emitted;
ghost use Rattle.semantics.specs.Versions.{version_number};

use code::{CodeBlock, Instr, Slots};
use semantics::program::Dest;
use semantics::version::Version;
use std::alloc::{AllocError, Allocator};
use tags::value::Origin;

/// The slot of an instruction in a block whose holders have these slots; 0 where it uses none.
fn slot_of<A: Allocator>(instr: &Instr<A>, slots: &[u16]) -> u32
    ensures { result ≡ Sharing.placed_slot slots.now (Rule.slot_of instr.now instr.now.op) }
{
    let Some(holder) = instr.op.slot_in(instr.slot) else {
        return 0;
    };
    match slots.get(holder as usize) {
        Some(slot) => u32::from(*slot),
        None => 0,
    }
}

/// The origin that an object has for an instruction.
fn origin_of<A: Allocator>(instr: &Instr<A>, version: Version) -> Origin
    ensures { result ≡ Emitted.stated (version_number version) (Opcodes.may_fault instr.now.op) instr.now.origin }
{
    match version {
        Version::Two if instr.op.may_fault() => instr.origin,
        _ => Origin::Untold,
    }
}

/// The first destinations in an object.
fn firsts_of<A: Allocator>(alloc: A, instr: &Instr<A>) -> Result<Vec<Dest, A>, AllocError>
    ensures { IfOk result (λ v. v.items ≡ Emitted.firsts_of (Opcodes.has_sides instr.now.op) instr.now.firsts instr.now.seconds) }
{
    if instr.op.has_sides() {
        return Vec::from_slice(alloc, &instr.firsts);
    }
    let mut firsts = Vec::new(alloc);
    if let Some(dest) = instr.firsts.first().or(instr.seconds.first()) {
        firsts.push(*dest)?;
    }
    Ok(firsts)
}

/// The second destinations in an object.
fn seconds_of<A: Allocator>(alloc: A, instr: &Instr<A>) -> Result<Vec<Dest, A>, AllocError>
    ensures { IfOk result (λ v. v.items ≡ Emitted.seconds_of (Opcodes.has_sides instr.now.op) instr.now.firsts instr.now.seconds) }
{
    if instr.op.has_sides() {
        return Vec::from_slice(alloc, &instr.seconds);
    }
    match instr.firsts.split_first() {
        Some((_, rest)) => {
            let mut seconds = Vec::from_slice(alloc, rest)?;
            seconds.extend_from_slice(&instr.seconds)?;
            Ok(seconds)
        }
        None => match instr.seconds.split_first() {
            Some((_, rest)) => Vec::from_slice(alloc, rest),
            None => Ok(Vec::new(alloc)),
        },
    }
}

/// An instruction of an object, of a block whose holders have these slots.
fn emit_instr<A: Allocator + Clone>(
    alloc: A,
    instr: &Instr<A>,
    slots: &[u16],
    version: Version,
) -> Result<Instr<A>, AllocError>
    ensures { IfOk result (λ i. i ≡ Emitted.emitted (version_number version)
        (record instr.now { slot = Sharing.placed_slot slots.now (Rule.slot_of instr.now instr.now.op) })) }
{
    let firsts = firsts_of(alloc.clone()?, instr)?;
    let seconds = seconds_of(alloc, instr)?;
    Ok(Instr {
        op: instr.op,
        origin: origin_of(instr, version),
        slot: slot_of(instr, slots),
        firsts,
        seconds,
    })
}

/// The instructions of a block whose holders have these slots.
fn emit_instrs<A: Allocator + Clone>(
    alloc: A,
    instrs: &[Instr<A>],
    slots: &[u16],
    version: Version,
) -> Result<Vec<Instr<A>, A>, AllocError>
    ensures { IfOk result (λ v. v.items ≡ Emitted.emitted_instrs (version_number version) (Sharing.placed_instrs slots.now instrs.now)) }
{
    let mut emitted = Vec::with_capacity(alloc.clone()?, instrs.len())?;
    for instr in instrs {
        emitted.push(emit_instr(alloc.clone()?, instr, slots, version)?)?;
    }
    Ok(emitted)
}

/// How many slots a frame needs for these.
fn needed(slots: &[u16]) -> u32
    ensures { result ≡ Placed.needed slots.now }
{
    let mut most = 0;
    for slot in slots {
        most = most.max(u32::from(*slot) + 1);
    }
    most
}

/// The blocks of an object, of a plan whose holders have these slots.
pub(crate) fn emit_blocks<A: Allocator + Clone>(
    alloc: A,
    blocks: &[CodeBlock<A>],
    slots: &Slots<A>,
    version: Version,
) -> Result<Vec<CodeBlock<A>, A>, AllocError>
    ensures { IfOk result (λ v. v.items ≡ Emitted.emitted_blocks (version_number version) (Placed.placed_blocks slots.now blocks.now)) }
{
    let mut emitted = Vec::with_capacity(alloc.clone()?, blocks.len())?;
    for (number, block) in blocks.iter().enumerate() {
        let Some(list) = slots.block(number) else {
            return Ok(emitted);
        };
        let instrs = emit_instrs(alloc.clone()?, &block.instrs, list, version)?;
        emitted.push(CodeBlock {
            inputs: block.inputs,
            outputs: block.outputs,
            slots: needed(list),
            instrs,
        })?;
    }
    Ok(emitted)
}
