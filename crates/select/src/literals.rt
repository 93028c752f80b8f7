//! The table of literals.

ghost use Rattle.std.specs.Prelude.{◌≡◌, IfOk, IfErr, OnOk, None, All, FitsSigned, length, ◌≤◌};
ghost use Rattle.std.specs.Int.{w64};
ghost use Rattle.select.specs.Literals as Literals;

use crate::fault::EmitFault;
use code::{CodeBlock, Instr};
use semantics::program::Op;
use std::alloc::{AllocError, Allocator};
use std::collections::BTreeSet;

/// The most instructions of a block of an object.
const MAX_INSTRS: usize = 32_768;

/// The most literals of an object.
const MAX_LITERALS: usize = 65_536;

/// The literal that an operation uses, if it uses one.
fn literal_of(op: Op) -> Option<i64>
    ensures { result ≡ Literals.literal_of op }
{
    match op {
        Op::Apply2Right { op: _, literal } => Some(literal),
        Op::Apply2Left { op: _, literal } => Some(literal),
        Op::Lit { literal } => Some(literal),
        _ => None,
    }
}

/// Enters the literals that instructions use.
fn enter<A: Allocator + Clone>(
    table: &mut BTreeSet<i64, A>,
    instrs: &[Instr<A>],
) -> Result<(), AllocError>
    ensures { OnOk result (table.new.keys ≡ Literals.entered table.old.keys (Literals.used_by instrs.now)) }
{
    for instr in instrs {
        if let Some(literal) = literal_of(instr.op) {
            table.insert(literal)?;
        }
    }
    Ok(())
}

/// The literals that blocks use, or the first block that goes too far.
fn gather<A: Allocator + Clone>(
    alloc: A,
    blocks: &[CodeBlock<A>],
) -> Result<BTreeSet<i64, A>, EmitFault>
    ensures table { IfOk result (λ table. table.keys ≡ Literals.table_of blocks.now) }
    ensures none { OnOk result (Literals.too_far blocks.now ≡ None) }
    ensures refused { IfErr result (Literals.IsRefused blocks.now) }
{
    let mut table = BTreeSet::new(alloc);
    for (number, block) in blocks.iter().enumerate() {
        if block.instrs.len() > MAX_INSTRS {
            return Err(EmitFault::TooFar {
                block: number as u64,
            });
        }
        enter(&mut table, &block.instrs)?;
        if table.len() > MAX_LITERALS {
            return Err(EmitFault::TooFar {
                block: number as u64,
            });
        }
    }
    Ok(table)
}

/// The table of literals of an object, or the first block that goes too far.
pub(crate) fn table_of<A: Allocator + Clone>(
    alloc: A,
    blocks: &[CodeBlock<A>],
) -> Result<Vec<i64, A>, EmitFault>
    ensures table { IfOk result (λ v. v.items ≡ Literals.table_of blocks.now) }
    ensures none { OnOk result (Literals.too_far blocks.now ≡ None) }
    ensures fit { IfOk result (λ v. All (λ z. FitsSigned w64 z) v.items) }
    ensures ascending { IfOk result (λ v. Literals.IsAscending v.items) }
    ensures refused { IfErr result (Literals.IsRefused blocks.now) }
{
    let table = gather(alloc.clone()?, blocks)?;
    let mut literals = Vec::with_capacity(alloc, table.len())?;
    for literal in table {
        literals.push(literal)?;
    }
    Ok(literals)
}
