//! Which operators take an operand from the code, and which literals are left out then.

ghost use Rattle.std.specs.Prelude.{◌≡◌, IfOk, slice_get};
ghost use Rattle.folding.specs.Folds as of_folds;

use crate::namers::{Namer, Namers, namer_at};
use code::{CodeBlock, Instr, Plan};
use semantics::program::{Dest, Op};
use std::alloc::{AllocError, Allocator};
use tags::token::Port;

/// Which operand an instruction takes from the code.
#[derive(Clone, Copy)]
pub(crate) enum Fold {
    /// The instruction is as it was.
    Unchanged,
    /// It is an operator with this right operand.
    OnRight { literal: i64 },
    /// It is an operator with this left operand.
    LeftLiteral { literal: i64 },
}

impl Fold {
    pub fn is_folded(self) -> bool
        ensures { result ≡ of_folds.is_folded self }
    {
        !matches!(self, Fold::Unchanged)
    }

    /// Whether no word arrives at that port any more.
    pub fn is_closed(self, port: Port) -> bool
        ensures { result ≡ of_folds.is_closed self port }
    {
        match (self, port) {
            (Fold::OnRight { .. }, Port::Right) => true,
            (Fold::LeftLiteral { .. }, Port::Left) => true,
            _ => false,
        }
    }

    /// The port at which a word for that port arrives now.
    pub fn new_port(self, port: Port) -> Port
        ensures { result ≡ of_folds.new_port self port }
    {
        match self {
            Fold::Unchanged => port,
            _ => Port::Left,
        }
    }

    /// What an instruction that did this does now.
    pub fn new_op(self, op: Op) -> Op
        ensures { result ≡ of_folds.new_op self op }
    {
        match (self, op) {
            (Fold::OnRight { literal }, Op::Apply2 { op }) => Op::Apply2Right { op, literal },
            (Fold::LeftLiteral { literal }, Op::Apply2 { op }) => Op::Apply2Left { op, literal },
            _ => op,
        }
    }
}

fn literal_at<A: Allocator>(instrs: &[Instr<A>], place: usize) -> Option<i64>
    ensures { result ≡ of_folds.literal_at (slice_get instrs.now place) }
{
    match instrs.get(place)?.op {
        Op::Lit { literal } => Some(literal),
        _ => None,
    }
}

/// Whether two ports are named once each, and from one list of destinations.
fn same_source(one: Namer, other: Namer) -> bool
    ensures { result ≡ of_folds.same_source one other }
{
    match (one, other) {
        (
            Namer::One { from, second },
            Namer::One {
                from: other_from,
                second: other_second,
            },
        ) => from == other_from && second == other_second,
        _ => false,
    }
}

/// The literal that goes to a port with this namer, if it is a `lit` whose own source is that of another port.
fn literal_by<A: Allocator>(
    lefts: &[Namer],
    instrs: &[Instr<A>],
    namer: Namer,
    other: Namer,
) -> Option<i64>
    ensures { result ≡ of_folds.literal_by lefts.now instrs.now namer other }
{
    match namer {
        Namer::One { from, second: _ } if same_source(namer_at(lefts, from), other) => {
            literal_at(instrs, from)
        }
        _ => None,
    }
}

/// By the literal of the left port, and by that of the right one.
fn fold_by(left: Option<i64>, right: Option<i64>) -> Fold
    ensures { result ≡ of_folds.fold_by left right }
{
    match (left, right) {
        (_, Some(literal)) => Fold::OnRight { literal },
        (Some(literal), None) => Fold::LeftLiteral { literal },
        (None, None) => Fold::Unchanged,
    }
}

/// What the instruction of that number takes from the code.
fn fold_of<A: Allocator>(namers: &Namers<A>, instrs: &[Instr<A>], number: usize, op: Op) -> Fold
    ensures { result ≡ of_folds.fold_of namers.now instrs.now number op }
{
    if !matches!(op, Op::Apply2 { .. }) {
        return Fold::Unchanged;
    }
    let left = namer_at(&namers.lefts, number);
    let right = namer_at(&namers.rights, number);
    fold_by(
        literal_by(&namers.lefts, instrs, left, right),
        literal_by(&namers.lefts, instrs, right, left),
    )
}

/// What each instruction takes from the code.
fn folds_in<A: Allocator>(
    alloc: A,
    namers: &Namers<A>,
    instrs: &[Instr<A>],
) -> Result<Vec<Fold, A>, AllocError>
    ensures { IfOk result (λ v. v.items ≡ of_folds.folds_from namers.now instrs.now 0 instrs.now) }
{
    let mut folds = Vec::with_capacity(alloc, instrs.len())?;
    for (number, instr) in instrs.iter().enumerate() {
        folds.push(fold_of(namers, instrs, number, instr.op))?;
    }
    Ok(folds)
}

/// What each instruction of a block takes from the code.
pub(crate) fn folds_of<A: Allocator + Clone>(
    alloc: A,
    plan: &Plan<A>,
    block: &CodeBlock<A>,
) -> Result<Vec<Fold, A>, AllocError>
    ensures { IfOk result (λ v. v.items ≡ of_folds.folds_of plan.now block.now) }
{
    let namers = Namers::of(alloc.clone()?, plan, block)?;
    folds_in(alloc, &namers, &block.instrs)
}

pub(crate) fn fold_at(folds: &[Fold], place: usize) -> Fold
    ensures { result ≡ of_folds.fold_at folds.now place }
{
    match folds.get(place) {
        Some(fold) => *fold,
        None => Fold::Unchanged,
    }
}

/// Whether a destination of the instruction of that number is a port at which no word arrives any more.
fn closed_to(folds: &[Fold], number: usize, dest: Dest) -> bool
    ensures { result ≡ of_folds.closed_to folds.now number dest }
{
    let ahead = dest.ahead as usize;
    ahead < folds.len().saturating_sub(number)
        && fold_at(folds, number + ahead).is_closed(dest.port)
}

fn all_closed(folds: &[Fold], number: usize, dests: &[Dest]) -> bool
    ensures { result ≡ of_folds.all_closed folds.now number dests.now }
{
    for dest in dests {
        if !closed_to(folds, number, *dest) {
            return false;
        }
    }
    true
}

fn is_used(firsts: &[Dest], seconds: &[Dest]) -> bool
    ensures { result ≡ of_folds.is_used firsts.now seconds.now }
{
    !(firsts.is_empty() && seconds.is_empty())
}

fn is_lit(op: Op) -> bool
    ensures { result ≡ of_folds.is_lit op }
{
    matches!(op, Op::Lit { .. })
}

/// Whether the instruction of that number is a literal of which all uses are in the code now.
fn is_gone<A: Allocator>(folds: &[Fold], number: usize, instr: &Instr<A>) -> bool
    ensures { result ≡ of_folds.is_gone folds.now number instr.now }
{
    is_lit(instr.op)
        && is_used(&instr.firsts, &instr.seconds)
        && all_closed(folds, number, &instr.firsts)
        && all_closed(folds, number, &instr.seconds)
}

/// Which instructions are left out.
pub(crate) fn gone_in<A: Allocator>(
    alloc: A,
    folds: &[Fold],
    instrs: &[Instr<A>],
) -> Result<Vec<bool, A>, AllocError>
    ensures { IfOk result (λ v. v.items ≡ of_folds.gone_from folds.now 0 instrs.now) }
{
    let mut gone = Vec::with_capacity(alloc, instrs.len())?;
    for (number, instr) in instrs.iter().enumerate() {
        gone.push(is_gone(folds, number, instr))?;
    }
    Ok(gone)
}
