//! From a plan with slots to the code of an object.
//!
//! Each instruction has its place of the plan, and the slot of its holder (explicit token store: Papadopoulos
//! and Culler, ISCA 1990). Literals move into a table that ascends.
#![tactic(auto)]

ghost use Rattle.std.specs.Prelude.{◌≡◌, IfOk, IfErr, OnOk, None, All, Contains};
ghost use Rattle.semantics.specs.Bytes.{IsCode};
ghost use Rattle.semantics.specs.Versions.{version_number};
ghost use Rattle.select.specs.Emitted.{code_of};
ghost use Rattle.select.specs.Emittable.{IsEmittable};
ghost use Rattle.select.specs.Literals as Literals;

mod fault;
mod instrs;
mod literals;

use code::{Code, Plan, Program, Slots};
pub use fault::EmitFault;
use instrs::emit_blocks;
use literals::table_of;
use semantics::version::Version;
use std::alloc::Allocator;

/// The code of a plan whose holders have these slots, in time n log n of its instructions.
///
/// Each instruction is in its place, with its holder's slot. First and second destinations differ at a switch and at
/// a link; elsewhere one is the first and the others are second ones. There are origins where the version has them. The
/// table has each literal that an instruction uses, once, in ascending order.
///
/// `TooFar` names the first block that has more than 32,768 instructions or with which the table has more than 65,536
/// literals; `Memory` says that a growth was refused. Where the plan and its slots are fit for an object, so is the code.
pub fn emit<A: Allocator + Clone>(
    alloc: A,
    plan: &Plan<A>,
    slots: &Slots<A>,
    version: Version,
) -> Result<Code<A>, EmitFault>
    ensures program { IfOk result (λ c. c.program ≡ code_of version plan.now slots.now) }
    ensures literals { IfOk result (λ c. c.literals ≡ Literals.table_of plan.now.program.blocks) }
    ensures ascending { IfOk result (λ c. Literals.IsAscending c.literals) }
    ensures all_used { IfOk result (λ c. All (Contains c.literals) (Literals.used_in plan.now.program.blocks)) }
    ensures only_used { IfOk result (λ c. All (Contains (Literals.used_in plan.now.program.blocks)) c.literals) }
    ensures spelling { IfOk result (λ c. IsEmittable plan.now slots.now → IsCode (version_number version) c) }
    ensures not_far { OnOk result (Literals.too_far plan.now.program.blocks ≡ None) }
    ensures refused { IfErr result (Literals.IsRefused plan.now.program.blocks) }
{
    let literals = table_of(alloc.clone()?, &plan.program.blocks)?;
    let blocks = emit_blocks(alloc.clone()?, &plan.program.blocks, slots, version)?;
    let arrays = Vec::from_slice(alloc, &plan.program.arrays)?;
    Ok(Code {
        program: Program {
            blocks,
            arrays,
            main: plan.program.main,
        },
        literals,
    })
}
