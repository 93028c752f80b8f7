//! Of each holder of a block, in which of 64 lanes all its ports are after the chosen arcs.

ghost use Rattle.std.specs.Prelude.{◌≡◌, ◌<◌, IfOk, length};
ghost use Rattle.slot_alloc.specs.Words as of_words;

use crate::choices::{Choice, holder_of};
use crate::passes::{Flows, pass};
use crate::row::Row;
use code::{CodeBlock, Instr, Plan};
use semantics::program::{Mark, Op};
use std::alloc::{AllocError, Allocator};

/// The lanes in which the ports at which a holder is met are after the chosen arcs at an instruction: both, or for a
/// loop that of `open`.
fn ports_led(op: Op, flows: Flows) -> u64
    ensures { result ≡ of_words.ports_led op flows }
{
    match op {
        Op::Open { .. } => flows.left.led(),
        Op::Take { .. } | Op::Give { .. } | Op::Drain { .. } => u64::MAX,
        _ => flows.left.led() & flows.right.led(),
    }
}

/// Crosses out the holder of an instruction in each lane in which a port is not after the chosen arcs.
fn note<A: Allocator>(row: &mut Row<A>, instr: &Instr<A>, flows: Flows)
    ensures { row.new ≡ of_words.noted row.old instr.now flows }
{
    if let Some(holder) = holder_of(instr) {
        row.keep(holder as usize, ports_led(instr.op, flows));
    }
}

/// Crosses out each holder in the lanes in which one of its ports is not after the chosen arcs.
fn note_all<A: Allocator>(row: &mut Row<A>, instrs: &[Instr<A>], flows: &[Flows])
    requires { length flows.now ≡ length instrs.now }
    ensures { row.new ≡ of_words.row_from row.old flows.now 0 instrs.now }
{
    for (place, instr) in instrs.iter().enumerate() {
        note(row, instr, flows[place]);
    }
}

/// The lanes of each holder: those in which all its ports are after the chosen arcs.
pub(crate) fn row_of<A: Allocator + Clone>(
    alloc: A,
    plan: &Plan<A>,
    block: &CodeBlock<A>,
    marks: &[Mark],
    choice: Choice,
    known: &[Mark],
) -> Result<Row<A>, AllocError>
    ensures { IfOk result (λ r. r ≡ of_words.row_of plan.now choice known.now marks.now block.now) }
{
    let flows = pass(alloc.clone()?, plan, block, marks, choice, known)?;
    let mut row = Row::full(alloc, block.slots as usize)?;
    note_all(&mut row, &block.instrs, &flows);
    Ok(row)
}
