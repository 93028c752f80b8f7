//! Plans made by hand, and where narrowing puts copies.

use code::{CodeBlock, Instr, Plan, Program};
use fanout::narrow;
use semantics::program::{Mark, Op};
use std::alloc::{AllocError, Allocator};
use std::test::Fail;
use tags::value::Origin;
use test_inputs::plans::{ADD, Dests, L, NONE, R, has_op, instr_of, is_instr, mark_of};
use test_inputs::rationed::{Rationed, is_next_refused};

/// The operation of an instruction, and its first and its second destinations.
type Line = (Op, Dests, Dests);

fn instr<A: Allocator + Clone>(alloc: A, slot: u32, line: Line) -> Result<Instr<A>, AllocError> {
    let (op, firsts, seconds) = line;
    instr_of(alloc, op, Origin::Untold, slot, firsts, seconds)
}

fn block_of<A: Allocator + Clone>(
    alloc: A,
    inputs: u32,
    outputs: u32,
    lines: &[Line],
) -> Result<CodeBlock<A>, AllocError> {
    let mut instrs = Vec::new(alloc.clone()?);
    let mut slots: u32 = 0;
    for line in lines {
        instrs.push(instr(alloc.clone()?, slots, *line)?)?;
        slots = slots.wrapping_add(1);
    }
    Ok(CodeBlock {
        inputs,
        outputs,
        slots,
        instrs,
    })
}

/// The marks of these instructions: only switches have one.
fn marks_of<A: Allocator>(alloc: A, lines: &[Line]) -> Result<Vec<Mark, A>, AllocError> {
    let mut marks = Vec::new(alloc);
    for line in lines {
        let (op, _, _) = *line;
        marks.push(mark_of(op, Mark::OfFlag))?;
    }
    Ok(marks)
}

/// A plan whose first block has these instructions. The second block, which links may name, has two inputs and three outputs.
/// The blocks below number `plain` are plain.
fn plan_of<A: Allocator + Clone>(
    alloc: A,
    inputs: u32,
    lines: &[Line],
    plain: u32,
) -> Result<Plan<A>, AllocError> {
    let mut blocks = Vec::new(alloc.clone()?);
    blocks.push(block_of(alloc.clone()?, inputs, 1, lines)?)?;
    blocks.push(block_of(alloc.clone()?, 2, 3, &[])?)?;
    let arrays = Vec::new(alloc.clone()?);
    let mut marks = Vec::new(alloc.clone()?);
    marks.push(marks_of(alloc, lines)?)?;
    Ok(Plan {
        program: Program {
            blocks,
            arrays,
            main: 0,
        },
        plain,
        marks,
    })
}

/// Whether the first block of the plan has exactly these instructions.
fn has_lines<A: Allocator>(plan: &Plan<A>, lines: &[Line]) -> bool {
    match plan.program.blocks.first() {
        None => false,
        Some(block) => {
            block.instrs.len() == lines.len()
                && block.instrs.iter().zip(lines.iter()).all(|(instr, line)| {
                    let (op, firsts, seconds) = *line;
                    is_instr(instr, op, firsts, seconds)
                })
        }
    }
}

/// A link with four signals, and a landing of four copies, of which the first two are wide.
const LINKED: [Line; 9] = [
    (
        Op::Link { block: 1 },
        &[(1, L)],
        &[(5, L), (5, R), (6, L), (6, R)],
    ),
    (Op::Copy, &[(4, L), (4, R), (5, L)], NONE),
    (Op::Copy, &[(3, L), (3, R), (4, L), (4, R)], NONE),
    (Op::Copy, &[(5, L)], NONE),
    (Op::Copy, &[(4, R)], NONE),
    (ADD, NONE, NONE),
    (ADD, NONE, NONE),
    (Op::Copy, NONE, NONE),
    (ADD, NONE, NONE),
];

/// A block with this number of inputs, and its instructions after narrowing.
struct Case {
    name: &'static str,
    inputs: u32,
    lines: &'static [Line],
    wanted: &'static [Line],
}

static CASES: [Case; 5] = [
    Case {
        name: "an entry with five uses has three copies",
        inputs: 0,
        lines: &[
            (Op::Copy, &[(2, L), (2, R), (3, L), (3, R), (1, L)], NONE),
            (Op::Copy, &[(1, L)], NONE),
            (ADD, NONE, NONE),
            (ADD, NONE, NONE),
        ],
        wanted: &[
            (Op::Copy, &[(1, L)], &[(3, L)]),
            (Op::Copy, &[(1, L)], &[(4, L)]),
            (Op::Copy, &[(3, R)], &[(4, L)]),
            (Op::Copy, &[(3, R)], &[(1, L)]),
            (Op::Copy, &[(1, L)], NONE),
            (ADD, NONE, NONE),
            (ADD, NONE, NONE),
        ],
    },
    Case {
        name: "copies of entries are after the last one",
        inputs: 2,
        lines: &[
            (Op::Copy, &[(3, L), (4, L), (4, R)], NONE),
            (Op::Copy, &[(2, L), (2, R), (3, L)], NONE),
            (Op::Copy, &[(1, R)], NONE),
            (ADD, NONE, NONE),
            (ADD, NONE, NONE),
        ],
        wanted: &[
            (Op::Copy, &[(3, L)], &[(6, R)]),
            (Op::Copy, &[(3, L)], &[(5, L)]),
            (Op::Copy, &[(3, R)], NONE),
            (Op::Copy, &[(2, L)], &[(3, L)]),
            (Op::Copy, &[(1, L)], &[(1, R)]),
            (ADD, NONE, NONE),
            (ADD, NONE, NONE),
        ],
    },
    Case {
        name: "each side of a switch has its own tree",
        inputs: 0,
        lines: &[
            (Op::Switch, &[(1, L), (2, L), (3, L)], &[(1, R), (3, R)]),
            (ADD, NONE, NONE),
            (Op::Copy, NONE, NONE),
            (ADD, NONE, NONE),
        ],
        wanted: &[
            (Op::Switch, &[(1, L)], &[(3, L)]),
            (Op::Copy, &[(1, L)], &[(3, L)]),
            (Op::Copy, &[(3, L)], &[(4, L)]),
            (Op::Copy, &[(1, R)], &[(3, R)]),
            (ADD, NONE, NONE),
            (Op::Copy, NONE, NONE),
            (ADD, NONE, NONE),
        ],
    },
    Case {
        name: "a landing is not cut",
        inputs: 0,
        lines: &LINKED,
        wanted: &[
            (Op::Link { block: 1 }, &[(4, L)], &[(1, L)]),
            (Op::Copy, &[(1, L)], &[(2, L)]),
            (Op::Copy, &[(9, L)], &[(9, R)]),
            (Op::Copy, &[(9, L)], &[(9, R)]),
            (Op::Copy, &[(4, L)], &[(8, L)]),
            (Op::Copy, &[(4, L)], &[(5, L)]),
            (Op::Copy, &[(8, L)], NONE),
            (Op::Copy, &[(7, R)], NONE),
            (Op::Copy, &[(3, L)], &[(3, R)]),
            (Op::Copy, &[(2, L)], &[(2, R)]),
            (Op::Copy, &[(2, L)], &[(2, R)]),
            (ADD, NONE, NONE),
            (ADD, NONE, NONE),
            (Op::Copy, NONE, NONE),
            (ADD, NONE, NONE),
        ],
    },
    Case {
        name: "a give sends to one place",
        inputs: 0,
        lines: &[
            (Op::Give { bound: 2 }, &[(1, L)], &[(1, R)]),
            (Op::Sync, NONE, NONE),
        ],
        wanted: &[
            (Op::Give { bound: 2 }, &[(1, L)], NONE),
            (Op::Copy, &[(1, L)], &[(1, R)]),
            (Op::Sync, NONE, NONE),
        ],
    },
];

/// Only a switch has a mark afterwards, too.
#[test]
fn copies_are_where_they_should_be(rt: HostRuntime) -> Result<(), Fail> {
    let alloc = rt.alloc();
    for case in &CASES {
        let plan = plan_of(alloc, case.inputs, case.lines, 2)?;
        let narrowed = narrow(alloc, &plan)?;
        assert!(rt; has_lines(&narrowed, case.wanted), "{}", case.name);
        let marks = marks_of(alloc, case.wanted)?;
        assert_eq!(rt; narrowed.marks_of(0), marks.as_slice(), "{}", case.name);
    }
    Ok(())
}

#[test]
fn a_landing_of_a_loop_has_its_values_and_three_more(rt: HostRuntime) -> Result<(), Fail> {
    let alloc = rt.alloc();
    let plan = plan_of(alloc, 0, &LINKED, 1)?;
    let narrowed = narrow(alloc, &plan)?;
    match narrowed.program.blocks.first() {
        None => assert!(rt; false, "no block"),
        Some(block) => {
            let wide = block.instrs.iter().skip(9).take(3);
            assert_eq!(rt; block.instrs.len(), 15);
            assert!(rt; wide.fold(true, |all, instr| all && has_op(instr, Op::Copy)));
        }
    }
    Ok(())
}

/// A plan of `blocks` blocks, each of `count` copies in a row; each copy names the five instructions after it.
fn long_plan<A: Allocator + Clone>(
    alloc: A,
    blocks: u32,
    count: u32,
) -> Result<Plan<A>, AllocError> {
    let mut list = Vec::new(alloc.clone()?);
    let mut marks = Vec::new(alloc.clone()?);
    for _block in 0..blocks {
        let mut instrs = Vec::new(alloc.clone()?);
        for slot in 0..count {
            instrs.push(instr(
                alloc.clone()?,
                slot,
                (Op::Copy, &[(1, L), (2, L), (3, L), (4, L), (5, L)], NONE),
            )?)?;
        }
        list.push(CodeBlock {
            inputs: 16,
            outputs: 1,
            slots: 0,
            instrs,
        })?;
        marks.push(Vec::new(alloc.clone()?))?;
    }
    Ok(Plan {
        program: Program {
            blocks: list,
            arrays: Vec::new(alloc),
            main: 0,
        },
        plain: blocks,
        marks,
    })
}

#[test]
fn many_blocks_are_narrowed(rt: HostRuntime) -> Result<(), Fail> {
    let alloc = rt.alloc();
    let plan = long_plan(alloc, 64, 1000)?;
    let narrowed = narrow(alloc, &plan)?;
    let mut total: u64 = 0;
    for block in &narrowed.program.blocks {
        total = total.wrapping_add(block.instrs.len() as u64);
    }
    assert_eq!(rt; total, 256_000);
    Ok(())
}

/// Each growth of the pass is refused in turn: the answer is the error, and the plan once no growth is refused.
#[test]
fn each_growth_is_refused_in_turn(rt: HostRuntime) -> Result<(), Fail> {
    let mut refused = 0u64;
    let mut whole = false;
    for growth in 1..10_000u64 {
        let plenty = Rationed::new(rt.alloc(), 0);
        let scarce = Rationed::new(rt.alloc(), growth);
        let plan = plan_of(&plenty, 0, &LINKED, 2)?;
        let narrowed = narrow(&scarce, &plan);
        whole = is_next_refused(&scarce);
        assert_eq!(rt; narrowed.is_ok(), whole, "{growth}");
        if whole {
            break;
        }
        refused = refused.wrapping_add(1);
    }
    assert!(rt; whole && refused > 0);
    Ok(())
}
