//! Which codes have an object.

ghost use Rattle.std.specs.Prelude.{◌≡◌, ◌≤◌, ◌⊎◌, All, FitsSigned, IfOk, OnOk, length, slice_get};
ghost use Rattle.std.specs.Int.{w64};
ghost use Rattle.std.specs.List.{list_all};
ghost use Rattle.semantics.specs.Bytes as Bytes;
ghost use Rattle.semantics.specs.Rule.{slot_of};
ghost use Rattle.assembler.specs.Checks as Checks;

use crate::cause::Unfit;
use code::{Code, CodeBlock, Instr};
use semantics::program::{Dest, Op};
use std::alloc::{AllocError, Allocator};
use std::collections::BTreeSet;
use tags::token::Port;
use tags::value::Origin;

/// Why a code has no object, and the index of the line that says so among those with words.
#[derive(Clone, Copy, Debug, PartialEq, Eq)]
pub(crate) struct Refusal {
    pub(crate) unfit: Unfit,
    pub(crate) index: u64,
}

/// A refusal for that reason, unless it fits.
fn unless(fits: bool, unfit: Unfit, index: u64) -> Result<(), Refusal>
    ensures { result ≡ Checks.unless fits unfit index }
{
    if fits {
        Ok(())
    } else {
        Err(Refusal { unfit, index })
    }
}

/// The literals of a table, in whatever order it has them, so that each is found in few steps.
fn set_of<A: Allocator + Clone>(alloc: A, table: &[i64]) -> Result<BTreeSet<i64, A>, AllocError>
    ensures { IfOk result (λ literals. Checks.IsSetOf literals table.now) }
{
    let mut literals = BTreeSet::new(alloc);
    for literal in table {
        literals.insert(*literal)?;
    }
    Ok(literals)
}

/// The literals of a code's table, likewise.
pub(crate) fn literals_of<A: Allocator + Clone>(
    alloc: A,
    code: &Code<A>,
) -> Result<BTreeSet<i64, A>, AllocError>
    ensures { IfOk result (λ literals. Checks.IsSetOf literals code.now.literals) }
{
    set_of(alloc, &code.literals)
}

/// Whether the literal is in the table, which has these literals.
fn has_literal<A: Allocator>(_code: &Code<A>, literals: &BTreeSet<i64, A>, literal: i64) -> bool
    requires { Checks.IsSetOf literals.now _code.now.literals }
    ensures { result ≡ Checks.has_literal _code.now.literals literal }
{
    literals.contains(&literal)
}

/// Whether the literal of an operation is in the table, which has these literals.
fn literal_fits<A: Allocator>(code: &Code<A>, literals: &BTreeSet<i64, A>, op: Op) -> bool
    requires { Checks.IsSetOf literals.now code.now.literals }
    ensures { result ≡ Checks.literal_fits code.now op }
{
    match op {
        Op::Apply2Right { literal, .. } => has_literal(code, literals, literal),
        Op::Apply2Left { literal, .. } => has_literal(code, literals, literal),
        Op::Lit { literal } => has_literal(code, literals, literal),
        _ => true,
    }
}

/// Whether the block has the entry.
fn enters<A: Allocator>(code: &Code<A>, block: u16, entry: u16) -> bool
    ensures { result ≡ Checks.enters (slice_get code.now.program.blocks block) entry }
{
    match code.program.blocks.get(usize::from(block)) {
        Some(block) => u32::from(entry) <= block.inputs,
        None => false,
    }
}

fn is_bound(k: u8) -> bool
    ensures { result ≡ Checks.is_bound k }
{
    2 <= k && k <= 64
}

/// Whether there is what an operand names.
fn operand_fits<A: Allocator>(code: &Code<A>, op: Op) -> bool
    ensures { result ≡ Checks.operand_fits code.now op }
{
    match op {
        Op::Fetch { array } | Op::Store { array } => usize::from(array) < code.program.arrays.len(),
        Op::Link { block } => usize::from(block) < code.program.blocks.len(),
        Op::Send { block, entry } => enters(code, block, entry),
        Op::Open { bound } | Op::Take { bound } | Op::Give { bound } | Op::Drain { bound } =>
            is_bound(bound),
        _ => true,
    }
}

/// Whether the block has the slot, or there is none where none is used.
fn slot_fits<A: Allocator>(slots: u32, instr: &Instr<A>) -> bool
    ensures { result ≡ Checks.slot_fits slots (slot_of instr.now instr.now.op) instr.now.slot }
{
    if instr.op.uses_slot() {
        instr.slot < slots
    } else {
        instr.slot == 0
    }
}

fn is_left(dest: &Dest) -> bool
    ensures { result ≡ Checks.is_left dest.now }
{
    matches!(dest.port, Port::Left)
}

fn are_left(dests: &[Dest]) -> bool
    ensures { result ≡ list_all Checks.is_left dests.now }
{
    dests.iter().all(|dest| is_left(dest))
}

/// Whether the operation may have these destinations, by their number.
fn shape_fits(op: Op, firsts: &[Dest], seconds: &[Dest]) -> bool
    ensures { result ≡ Checks.shape_fits op firsts.now seconds.now }
{
    let first = firsts.len();
    let second = seconds.len();
    match op {
        Op::Fetch { .. } | Op::Store { .. } | Op::Frame | Op::Ask { .. } => {
            first == 1 && second == 0
        }
        Op::Link { .. } => first == 1 && are_left(firsts) && second <= 1,
        Op::Take { .. } | Op::Release { .. } => first == 0 && second == 0,
        Op::Give { .. } | Op::Drain { .. } => first <= 1 && second == 0,
        Op::Switch => first <= 1 && second <= 1,
        _ => first <= 1 && second <= first,
    }
}

/// Whether two tokens meet at the instruction of that number.
fn is_dyadic<A: Allocator>(instrs: &[Instr<A>], number: u64) -> bool
    ensures { result ≡ Bytes.is_dyadic (slice_get instrs.now number) }
{
    match instrs.get(number as usize) {
        Some(instr) => instr.op.takes_two(),
        None => false,
    }
}

/// Whether a destination of the instruction of that number is a later one, with a right port only where it takes two tokens.
fn dest_fits<A: Allocator>(instrs: &[Instr<A>], number: u32, dest: &Dest) -> bool
    ensures { result ≡ Checks.dest_fits instrs.now number dest.now }
{
    let to = u64::from(number) + u64::from(dest.ahead);
    0 < dest.ahead && to < instrs.len() as u64 && (is_left(dest) || is_dyadic(instrs, to))
}

/// The same of each of them.
fn all_fit<A: Allocator>(instrs: &[Instr<A>], number: u32, dests: &[Dest]) -> bool
    ensures { result ≡ list_all (Checks.dest_fits instrs.now number) dests.now }
{
    dests.iter().all(|dest| dest_fits(instrs, number, dest))
}

/// Whether the destinations fit.
fn dests_fit<A: Allocator>(block: &CodeBlock<A>, number: u32, instr: &Instr<A>) -> bool
    ensures { result ≡ Checks.dests_fit block.now number instr.now }
{
    shape_fits(instr.op, &instr.firsts, &instr.seconds)
        && all_fit(&block.instrs, number, &instr.firsts)
        && all_fit(&block.instrs, number, &instr.seconds)
}

/// Whether an origin is allowed there.
fn origin_fits(version: u32, op: Op, origin: Origin) -> bool
    ensures { result ≡ Checks.origin_fits version op origin }
{
    match origin {
        Origin::Untold => true,
        Origin::At { block: _, node: _ } => version == 2 && op.may_fault(),
    }
}

/// The first refusal of an instruction.
#[tactic(auto, unfolding(crate::specs::Checks::instr_checked))]
fn check_instr<A: Allocator>(
    version: u32,
    code: &Code<A>,
    literals: &BTreeSet<i64, A>,
    block: &CodeBlock<A>,
    index: u64,
    number: u32,
    instr: &Instr<A>,
) -> Result<(), Refusal>
    requires literals { Checks.IsSetOf literals.now code.now.literals }
    requires index { index ≤ 4294967296 }
    ensures { result ≡ Checks.instr_checked version code.now block.now index number instr.now }
{
    let line = index + u64::from(number);
    unless(
        literal_fits(code, literals, instr.op),
        Unfit::NoLiteral,
        line,
    )?;
    unless(operand_fits(code, instr.op), Unfit::BadOperand, line)?;
    unless(slot_fits(block.slots, instr), Unfit::BadSlot, line)?;
    unless(dests_fit(block, number, instr), Unfit::BadDestination, line)?;
    unless(
        origin_fits(version, instr.op, instr.origin),
        Unfit::BadOrigin,
        line,
    )
}

/// The first refusal of a block's instructions.
fn check_instrs<A: Allocator>(
    version: u32,
    code: &Code<A>,
    literals: &BTreeSet<i64, A>,
    block: &CodeBlock<A>,
    index: u64,
) -> Result<(), Refusal>
    requires literals { Checks.IsSetOf literals.now code.now.literals }
    requires few { length block.now.instrs ≤ 32768 }
    requires index { index ≤ 4294967296 }
    ensures { result ≡ Checks.each (Checks.instr_checked version code.now block.now index) 0 block.now.instrs }
{
    for (number, instr) in block.instrs.iter().enumerate() {
        check_instr(version, code, literals, block, index, number as u32, instr)?;
    }
    Ok(())
}

/// Whether the numbers of a block are within their limits.
fn entry_fits<A: Allocator>(block: &CodeBlock<A>) -> bool
    ensures { result ≡ Checks.entry_fits block.now }
{
    let instrs = block.instrs.len() as u64;
    1 <= block.inputs
        && block.inputs <= 16
        && 1 <= block.outputs
        && block.outputs <= 16
        && u64::from(block.inputs) + 1 <= instrs
        && instrs <= 32_768
        && block.slots <= 512
}

/// The first refusal of a block, whose line has that index.
#[tactic(auto, unfolding(crate::specs::Checks::block_checked))]
fn check_block<A: Allocator>(
    version: u32,
    code: &Code<A>,
    literals: &BTreeSet<i64, A>,
    index: u64,
    block: &CodeBlock<A>,
) -> Result<(), Refusal>
    requires literals { Checks.IsSetOf literals.now code.now.literals }
    requires index { index ≤ 4294967295 }
    ensures exact { result ≡ Checks.block_checked version code.now index block.now }
    ensures few { OnOk result (length block.now.instrs ≤ 32768) }
{
    unless(entry_fits(block), Unfit::BadBlock, index)?;
    check_instrs(version, code, literals, block, index + 1)
}

/// The first refusal of the blocks, or else how many lines they and the first one have.
#[tactic(auto, unfolding(crate::specs::Checks::blocks_checked))]
fn check_blocks<A: Allocator>(
    version: u32,
    code: &Code<A>,
    literals: &BTreeSet<i64, A>,
) -> Result<u64, Refusal>
    requires literals { Checks.IsSetOf literals.now code.now.literals }
    requires few { length code.now.program.blocks ≤ 512 }
    ensures { Checks.Counts result (Checks.blocks_checked version code.now) (Checks.lines_before code.now.program.blocks (length code.now.program.blocks)) }
{
    let mut index = 1;
    for block in &code.program.blocks {
        check_block(version, code, literals, index, block)?;
        index += 1 + block.instrs.len() as u64;
    }
    Ok(index)
}

/// The first refusal of the arrays.
fn check_arrays(index: u64, arrays: &[u32]) -> Result<(), Refusal>
    requires few { length arrays.now ≤ 64 }
    requires index { index ≤ 4294967296 }
    ensures { result ≡ Checks.arrays_checked index 0 arrays.now }
{
    let mut line = index;
    let mut cells = 0;
    for length in arrays {
        let more = cells + u64::from(*length);
        let fits = 1 <= *length && *length <= 65_536 && more <= 65_536;
        unless(fits, Unfit::BadArray, line)?;
        cells = more;
        line += 1;
    }
    Ok(())
}

/// The first refusal of the literals.
fn check_literals(index: u64, literals: &[i64]) -> Result<(), Refusal>
    requires few { length literals.now ≤ 65536 }
    requires index { index ≤ 4294967396 }
    ensures { result ≡ Checks.literals_checked index literals.now }
{
    let mut line = index;
    let mut rest = literals;
    while let [first, second, ..] = rest {
        line += 1;
        unless(*first < *second, Unfit::LiteralOrder, line)?;
        rest = &rest[1..];
    }
    Ok(())
}

/// Whether the counts are within their limits.
fn counts_fit<A: Allocator>(code: &Code<A>) -> bool
    ensures { result ≡ Checks.counts_fit code.now }
{
    let blocks = code.program.blocks.len() as u64;
    1 <= blocks
        && blocks <= 512
        && u64::from(code.program.main) < blocks
        && code.program.arrays.len() <= 64
}

/// The first refusal of the version and the counts.
#[tactic(auto, unfolding(crate::specs::Checks::head_checked))]
fn check_head<A: Allocator>(version: u32, code: &Code<A>) -> Result<(), Refusal>
    ensures exact { result ≡ Checks.head_checked version code.now }
    ensures version { OnOk result ((version ≡ 1) ⊎ (version ≡ 2)) }
    ensures blocks { OnOk result (length code.now.program.blocks ≤ 512) }
    ensures arrays { OnOk result (length code.now.program.arrays ≤ 64) }
    ensures literals { OnOk result (length code.now.literals ≤ 65536) }
{
    unless(version == 1 || version == 2, Unfit::BadVersion, 0)?;
    unless(counts_fit(code), Unfit::BadCounts, 0)?;
    unless(code.literals.len() <= 65_536, Unfit::ManyLiterals, 0)
}

/// Literals are integers of 64 bits.
fn are_words(literals: &[i64])
    ensures { All (λ z. FitsSigned w64 z) literals.now }
{
    for place in 0..literals.len() {
        let _word = literals[place];
    }
}

/// The first refusal of a code whose table has these literals.
#[tactic(auto, unfolding(crate::specs::Checks::code_checked))]
pub(crate) fn check_code<A: Allocator>(
    version: u32,
    code: &Code<A>,
    literals: &BTreeSet<i64, A>,
) -> Result<(), Refusal>
    requires literals { Checks.IsSetOf literals.now code.now.literals }
    ensures exact { result ≡ Checks.code_checked version code.now }
    ensures version { OnOk result ((version ≡ 1) ⊎ (version ≡ 2)) }
    ensures words { All (λ z. FitsSigned w64 z) code.now.literals }
{
    are_words(&code.literals);
    check_head(version, code)?;
    let index = check_blocks(version, code, literals)?;
    check_arrays(index, &code.program.arrays)?;
    check_literals(index + code.program.arrays.len() as u64, &code.literals)
}
