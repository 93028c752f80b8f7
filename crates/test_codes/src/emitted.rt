//! Plans made by hand, and the code that is emitted for them.

use code::{Code, Instr, Plan, Slots};
use operators::Binary;
use select::{EmitFault, emit};
use semantics::program::{Dest, Op};
use semantics::version::Version;
use std::alloc::{AllocError, Allocator};
use std::test::Fail;
use tags::token::Port;
use tags::value::{NodeNumber, Origin};
use test_inputs::plans::{L, NONE, R, instr_of, plan_of};
use test_inputs::rationed::{Rationed, is_next_refused};

const fn left(ahead: u32) -> Dest {
    Dest {
        ahead,
        port: Port::Left,
    }
}

const fn right(ahead: u32) -> Dest {
    Dest {
        ahead,
        port: Port::Right,
    }
}

/// Node 7 of block 3.
fn node_seven() -> Origin {
    Origin::At {
        block: 3,
        node: NodeNumber::new(7),
    }
}

fn instr<A: Allocator + Clone>(
    alloc: A,
    op: Op,
    slot: u32,
    firsts: &[(u32, Port)],
) -> Result<Instr<A>, AllocError> {
    instr_of(alloc, op, node_seven(), slot, firsts, NONE)
}

/// A plan of one block with two inputs.
fn two_inputs<A: Allocator + Clone>(
    alloc: A,
    slots: u32,
    instrs: Vec<Instr<A>, A>,
) -> Result<Plan<A>, AllocError> {
    let marks = Vec::new(alloc.clone()?);
    plan_of(alloc, 2, slots, instrs, marks)
}

/// The instructions of a block that does the operation on its two inputs.
fn adder_instr<A: Allocator + Clone>(
    alloc: A,
    number: u32,
    op: Op,
) -> Result<Instr<A>, AllocError> {
    match number {
        0 => instr(alloc, Op::Copy, 0, &[(4, L), (5, L)]),
        1 => instr(alloc, Op::Copy, 0, &[(2, L)]),
        2 => instr(alloc, Op::Copy, 0, &[(1, R)]),
        3 => instr(alloc, op, 0, &[(1, R)]),
        4 => instr(alloc, Op::Return { offset: 0 }, 1, &[(1, R)]),
        _ => instr(alloc, Op::Release { offset: 1 }, 2, &[]),
    }
}

fn adder<A: Allocator + Clone>(alloc: A, op: Op) -> Result<Plan<A>, AllocError> {
    let mut instrs = Vec::new(alloc.clone()?);
    for number in 0..6 {
        instrs.push(adder_instr(alloc.clone()?, number, op)?)?;
    }
    two_inputs(alloc, 3, instrs)
}

fn slots_of<A: Allocator + Clone>(alloc: A, slots: &[u16]) -> Result<Slots<A>, AllocError> {
    let holders = Vec::from_slice(alloc.clone()?, slots)?;
    let mut lists = Vec::new(alloc);
    lists.push(holders)?;
    Ok(Slots::of(lists))
}

/// The slot and the destinations of an instruction, and whether its origin is given.
#[derive(Clone, Copy, PartialEq, Eq)]
struct Shape {
    slot: u32,
    first: Option<Dest>,
    second: Option<Dest>,
    has_origin: bool,
}

impl Shape {
    const fn without_origin(slot: u32, first: Option<Dest>, second: Option<Dest>) -> Shape {
        Shape {
            slot,
            first,
            second,
            has_origin: false,
        }
    }

    fn of<A: Allocator>(instr: &Instr<A>) -> Shape {
        Shape {
            slot: instr.slot,
            first: instr.firsts.first().copied(),
            second: instr.seconds.first().copied(),
            has_origin: instr.origin == node_seven(),
        }
    }
}

/// The shapes of the instructions of the first block.
fn shapes_of<A: Allocator, B: Allocator>(
    alloc: B,
    code: &Code<A>,
) -> Result<Vec<Shape, B>, AllocError> {
    let mut shapes = Vec::new(alloc);
    if let Some(block) = code.program.blocks.first() {
        for instr in &block.instrs {
            shapes.push(Shape::of(instr))?;
        }
    }
    Ok(shapes)
}

/// The shapes of the code of a block that does the operation on its two inputs, with these slots.
fn emitted_shapes<A: Allocator + Clone>(
    alloc: A,
    op: Op,
    slots: &[u16],
    version: Version,
) -> Result<Vec<Shape, A>, Fail> {
    let plan = adder(alloc.clone()?, op)?;
    let slots = slots_of(alloc.clone()?, slots)?;
    let code = emit(alloc.clone()?, &plan, &slots, version)?;
    Ok(shapes_of(alloc, &code)?)
}

/// A divider gives its origin, but not in the first version.
#[test]
fn an_adder_and_dividers(rt: HostRuntime) -> Result<(), Fail> {
    let add = Op::Apply2 { op: Binary::Add };
    let shapes = emitted_shapes(rt.alloc(), add, &[0, 1, 2], Version::One)?;
    let wanted = [
        Shape::without_origin(0, Some(left(4)), Some(left(5))),
        Shape::without_origin(0, Some(left(2)), None),
        Shape::without_origin(0, Some(right(1)), None),
        Shape::without_origin(0, Some(right(1)), None),
        Shape::without_origin(1, Some(right(1)), None),
        Shape::without_origin(2, None, None),
    ];
    assert!(rt; shapes.as_slice() == wanted.as_slice());
    let divide = Op::Apply2 { op: Binary::Div };
    let shapes = emitted_shapes(rt.alloc(), divide, &[2, 0, 1], Version::Two)?;
    let divider = Shape {
        slot: 2,
        first: Some(right(1)),
        second: None,
        has_origin: true,
    };
    assert!(rt; shapes.get(3) == Some(&divider));
    assert!(rt; shapes.get(4) == Some(&Shape::without_origin(0, Some(right(1)), None)));
    let shapes = emitted_shapes(rt.alloc(), divide, &[0, 1, 2], Version::One)?;
    assert!(rt; shapes.get(3) == Some(&Shape::without_origin(0, Some(right(1)), None)));
    Ok(())
}

/// A plan whose literals are out of order, and that has one of them twice.
fn literal_plan<A: Allocator + Clone>(alloc: A) -> Result<Plan<A>, AllocError> {
    let mut instrs = Vec::new(alloc.clone()?);
    for literal in &[7, -7, 7] {
        instrs.push(instr(alloc.clone()?, Op::Lit { literal: *literal }, 0, &[(1, L)])?)?;
    }
    instrs.push(instr(alloc.clone()?, Op::Copy, 0, &[])?)?;
    two_inputs(alloc, 0, instrs)
}

#[test]
fn literals_ascend(rt: HostRuntime) -> Result<(), Fail> {
    let plan = literal_plan(rt.alloc())?;
    let slots = slots_of(rt.alloc(), &[])?;
    let code = emit(rt.alloc(), &plan, &slots, Version::One)?;
    assert_eq!(rt; code.literals.as_slice(), [-7i64, 7].as_slice());
    Ok(())
}

fn copies<A: Allocator + Clone>(alloc: A, count: u32) -> Result<Plan<A>, AllocError> {
    let mut instrs = Vec::new(alloc.clone()?);
    for _ in 0..count {
        instrs.push(instr(alloc.clone()?, Op::Copy, 0, &[])?)?;
    }
    two_inputs(alloc, 0, instrs)
}

fn fault_of<A: Allocator>(emitted: &Result<Code<A>, EmitFault>) -> Option<EmitFault> {
    match emitted {
        Ok(_) => None,
        Err(fault) => Some(*fault),
    }
}

#[test]
fn a_block_goes_so_far(rt: HostRuntime) -> Result<(), Fail> {
    let slots = slots_of(rt.alloc(), &[])?;
    for (count, fault) in [
        (32_768, None),
        (32_769, Some(EmitFault::TooFar { block: 0 })),
    ] {
        let plan = copies(rt.alloc(), count)?;
        let emitted = emit(rt.alloc(), &plan, &slots, Version::One);
        assert_eq!(rt; fault_of(&emitted), fault);
    }
    Ok(())
}

/// How far a plan got on its way to code.
#[derive(Clone, Copy, PartialEq, Eq)]
enum Stage {
    NoPlan,
    NoCode,
    Code,
}

fn stage_of<A: Allocator + Clone>(alloc: A, again: A, more: A) -> Stage {
    let Ok(plan) = literal_plan(alloc) else {
        return Stage::NoPlan;
    };
    let Ok(slots) = slots_of(again, &[]) else {
        return Stage::NoPlan;
    };
    match emit(more, &plan, &slots, Version::One) {
        Ok(_) => Stage::Code,
        Err(_) => Stage::NoCode,
    }
}

/// Each growth is refused in turn, until none is.
#[test]
fn refuses_each_growth(rt: HostRuntime) -> Result<(), Fail> {
    let mut stages = Vec::new(rt.alloc());
    for at in 1..10_000u64 {
        let heap = Rationed::new(rt.alloc(), at);
        let stage = stage_of(&heap, &heap, &heap);
        let whole = is_next_refused(&heap);
        assert_eq!(rt; stage == Stage::Code, whole, "{at}");
        if stages.last() != Some(&stage) {
            stages.push(stage)?;
        }
        if whole {
            break;
        }
    }
    assert!(rt; stages.as_slice() == [Stage::NoPlan, Stage::NoCode, Stage::Code].as_slice());
    Ok(())
}
