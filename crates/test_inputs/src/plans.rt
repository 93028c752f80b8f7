//! Plans of one block, made by hand.

use code::{CodeBlock, Instr, Plan, Program};
use operators::Binary;
use semantics::program::{Dest, Mark, Op};
use std::alloc::{AllocError, Allocator};
use tags::token::Port;
use tags::value::Origin;

/// Destinations; each is given by how far ahead it lies, and by its port.
pub type Dests = &'static [(u32, Port)];

pub const L: Port = Port::Left;

pub const R: Port = Port::Right;

pub const NONE: Dests = &[];

pub const ADD: Op = Op::Apply2 { op: Binary::Add };

fn dests_of<A: Allocator>(alloc: A, dests: &[(u32, Port)]) -> Result<Vec<Dest, A>, AllocError> {
    let mut list = Vec::new(alloc);
    for (ahead, port) in dests {
        list.push(Dest {
            ahead: *ahead,
            port: *port,
        })?;
    }
    Ok(list)
}

/// An instruction with its first and its second destinations.
pub fn instr_of<A: Allocator + Clone>(
    alloc: A,
    op: Op,
    origin: Origin,
    slot: u32,
    firsts: &[(u32, Port)],
    seconds: &[(u32, Port)],
) -> Result<Instr<A>, AllocError> {
    Ok(Instr {
        op,
        origin,
        slot,
        firsts: dests_of(alloc.clone()?, firsts)?,
        seconds: dests_of(alloc, seconds)?,
    })
}

/// A plan of one block with one output, and with these instructions and their marks.
pub fn plan_of<A: Allocator + Clone>(
    alloc: A,
    inputs: u32,
    holders: u32,
    instrs: Vec<Instr<A>, A>,
    marks: Vec<Mark, A>,
) -> Result<Plan<A>, AllocError> {
    let mut blocks = Vec::new(alloc.clone()?);
    blocks.push(CodeBlock {
        inputs,
        outputs: 1,
        slots: holders,
        instrs,
    })?;
    let mut all_marks = Vec::new(alloc.clone()?);
    all_marks.push(marks)?;
    Ok(Plan {
        program: Program {
            blocks,
            arrays: Vec::new(alloc),
            main: 0,
        },
        plain: 1,
        marks: all_marks,
    })
}

/// Whether these are the destinations.
pub fn has_dests(list: &[Dest], dests: &[(u32, Port)]) -> bool {
    list.len() == dests.len()
        && list.iter().zip(dests.iter()).all(|(dest, (ahead, port))| dest.ahead == *ahead
            && dest.port == *port)
}

/// The mark of an instruction in a plan whose switches have this mark: no other instruction has one.
pub fn mark_of(op: Op, mark: Mark) -> Mark {
    match op {
        Op::Switch => mark,
        _ => Mark::Unmarked,
    }
}

/// Whether the instruction does this.
pub fn has_op<A: Allocator>(instr: &Instr<A>, op: Op) -> bool {
    instr.op == op
}

/// Whether the instruction does this, and sends to these destinations.
pub fn is_instr<A: Allocator>(instr: &Instr<A>, op: Op, firsts: Dests, seconds: Dests) -> bool {
    has_op(instr, op) && has_dests(&instr.firsts, firsts) && has_dests(&instr.seconds, seconds)
}
