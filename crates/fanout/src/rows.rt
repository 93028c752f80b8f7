//! Which instructions of a block are in a row that must not be cut.

ghost use Rattle.std.specs.Prelude.{◌≡◌, ◌+◌, ◌-◌, ◌<◌, ◌≤◌, ◌^◌, IfOk, length, slice_set, true};
ghost use Rattle.semantics.specs.Plan as of_plans;
ghost use Rattle.fanout.specs.Rows as of_rows;

use code::{Instr, Plan};
use semantics::program::{Dest, Op};
use std::alloc::{AllocError, Allocator};

/// Ties an instruction to the next one, if it is there.
fn tie_one(tied: &mut [bool], from: usize, ahead: usize)
    requires { from ≤ length tied.old }
    ensures { tied.new ≡ slice_set tied.old (from + ahead) true }
{
    if ahead < tied.len() - from {
        tied[from + ahead] = true;
    }
}

/// Ties `count` instructions, each to the next one: those that begin `ahead` instructions after an instruction.
fn tie(tied: &mut [bool], from: usize, ahead: u32, count: u64)
    requires from { from ≤ length tied.old }
    requires few { count < 2 ^ 33 }
    ensures { tied.new ≡ of_rows.tie tied.old (from + ahead) count }
{
    for k in 0..count {
        tie_one(tied, from, ahead as usize + k as usize);
    }
}

/// Ties the instructions of the landings that begin at such destinations.
fn tie_landings(tied: &mut [bool], from: usize, size: u64, dests: &[Dest])
    requires from { from ≤ length tied.old }
    requires few { size < 2 ^ 33 }
    ensures { tied.new ≡ of_rows.tie_landings tied.old from size dests.now }
{
    for dest in dests {
        tie(tied, from, dest.ahead, size.saturating_sub(1));
    }
}

/// How many instructions in a row a link to a block has as its landing.
fn landing<A: Allocator>(plan: &Plan<A>, block: u16) -> u64
    ensures exact { result ≡ of_plans.landing plan.now block }
    ensures few { result < 2 ^ 33 }
{
    match plan.program.blocks.get(block as usize) {
        None => 0,
        Some(linked) if u32::from(block) < plan.plain => u64::from(linked.outputs) + 1,
        Some(linked) => u64::from(linked.inputs) + 3,
    }
}

/// Ties the instructions of the landing of an instruction, if it is a link.
fn tie_instr<A: Allocator>(plan: &Plan<A>, tied: &mut [bool], from: usize, instr: &Instr<A>)
    requires { from ≤ length tied.old }
    ensures { tied.new ≡ of_rows.tie_instr plan.now tied.old from instr.now instr.now.op }
{
    if let Op::Link { block } = instr.op {
        tie_landings(tied, from, landing(plan, block), &instr.firsts);
    }
}

/// For each instruction of a block with `inputs` inputs, whether the next one has to follow it directly: the entries are
/// in a row, and so is each landing.
pub(crate) fn tied_in<A: Allocator>(
    alloc: A,
    plan: &Plan<A>,
    inputs: u32,
    instrs: &[Instr<A>],
) -> Result<Vec<bool, A>, AllocError>
    ensures exact { IfOk result (λ v. v.items ≡ of_rows.tied_in plan.now inputs instrs.now) }
    ensures all { IfOk result (λ v. length v.items ≡ length instrs.now) }
{
    let mut tied = vec![in alloc; false; instrs.len()]?;
    tie(&mut tied, 0, 0, u64::from(inputs));
    for (place, instr) in instrs.iter().enumerate() {
        tie_instr(plan, &mut tied, place, instr);
    }
    Ok(tied)
}

/// How many instructions are together from the first on.
pub(crate) fn run(tied: &[bool]) -> usize
    ensures exact { result ≡ of_rows.run tied.now }
    ensures within { result ≤ length tied.now }
{
    for (place, flag) in tied.iter().enumerate() {
        if !*flag {
            return place + 1;
        }
    }
    tied.len()
}
