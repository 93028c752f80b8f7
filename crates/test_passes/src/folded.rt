//! Plans made by hand, and their literal operands.

use code::{Instr, Plan};
use folding::fold;
use operators::Binary;
use semantics::program::{Mark, Op};
use std::alloc::{AllocError, Allocator};
use std::test::Fail;
use tags::value::{NodeNumber, Origin};
use test_inputs::plans::{ADD, Dests, L, NONE, R, instr_of, is_instr, mark_of, plan_of};
use test_inputs::rationed::{Rationed, is_next_refused};

/// The number of a line, the operation of its instruction, its holder, and its first and its second destinations.
type Line = (u16, Op, u32, Dests, Dests);

const SUB: Op = Op::Apply2 { op: Binary::Sub };

const ADD_ONE: Op = Op::Apply2Right {
    op: Binary::Add,
    literal: 1,
};

const FROM_ONE: Op = Op::Apply2Left {
    op: Binary::Sub,
    literal: 1,
};

const ONE: Op = Op::Lit { literal: 1 };

const TWO: Op = Op::Lit { literal: 2 };

const RETURN: Op = Op::Return { offset: 0 };

const RELEASE: Op = Op::Release { offset: 1 };

fn origin_of(line: u16) -> Origin {
    Origin::At {
        block: 0,
        node: NodeNumber::new(line % NodeNumber::LIMIT),
    }
}

fn instr<A: Allocator + Clone>(alloc: A, line: Line) -> Result<Instr<A>, AllocError> {
    let (number, op, slot, firsts, seconds) = line;
    instr_of(alloc, op, origin_of(number), slot, firsts, seconds)
}

/// The mark of each switch.
const MARK: Mark = Mark::OfCond { cond: 3 };

/// A plan of one block with one input, `holders` holders, and these instructions.
fn lines_plan<A: Allocator + Clone>(
    alloc: A,
    holders: u32,
    lines: &[Line],
) -> Result<Plan<A>, AllocError> {
    let mut instrs = Vec::new(alloc.clone()?);
    let mut marks = Vec::new(alloc.clone()?);
    for line in lines {
        let (_, op, _, _, _) = *line;
        instrs.push(instr(alloc.clone()?, *line)?)?;
        marks.push(mark_of(op, MARK))?;
    }
    plan_of(alloc, 1, holders, instrs, marks)
}

fn is_line<A: Allocator>(instr: &Instr<A>, line: Line) -> bool {
    let (number, op, slot, firsts, seconds) = line;
    is_instr(instr, op, firsts, seconds) && instr.origin == origin_of(number) && instr.slot == slot
}

/// The first instruction or mark that differs from the lines; `None` where the block has exactly these lines.
fn first_other<A: Allocator>(plan: &Plan<A>, lines: &[Line]) -> Option<usize> {
    let block = plan.program.blocks.get(0)?;
    let marks = plan.marks_of(0);
    for (place, line) in lines.iter().enumerate() {
        let (_, op, _, _, _) = *line;
        match (block.instrs.get(place), marks.get(place)) {
            (Some(instr), Some(mark)) if is_line(instr, *line) && *mark == mark_of(op, MARK) => {}
            _ => return Some(place),
        }
    }
    if block.instrs.len() == lines.len() && marks.len() == lines.len() {
        None
    } else {
        Some(lines.len())
    }
}

fn holders<A: Allocator>(plan: &Plan<A>) -> Option<u32> {
    Some(plan.program.blocks.get(0)?.slots)
}

/// A plan of one block, and what it is after folding: the instructions, and the number of holders.
struct Case {
    name: &'static str,
    holders: u32,
    lines: &'static [Line],
    wanted_holders: u32,
    wanted: &'static [Line],
}

static CASES: [Case; 6] = [
    Case {
        name: "the right operand is in the code",
        holders: 3,
        lines: &[
            (0, Op::Copy, 0, &[(4, L), (5, L)], NONE),
            (1, Op::Copy, 0, &[(1, L), (2, L)], NONE),
            (2, ONE, 0, &[(1, R)], NONE),
            (3, ADD, 0, &[(1, R)], NONE),
            (4, RETURN, 1, &[(1, R)], NONE),
            (5, RELEASE, 2, NONE, NONE),
        ],
        wanted_holders: 2,
        wanted: &[
            (0, Op::Copy, 0, &[(3, L), (4, L)], NONE),
            (1, Op::Copy, 0, &[(1, L)], NONE),
            (3, ADD_ONE, 0, &[(1, R)], NONE),
            (4, RETURN, 0, &[(1, R)], NONE),
            (5, RELEASE, 1, NONE, NONE),
        ],
    },
    Case {
        name: "the left operand is in the code",
        holders: 3,
        lines: &[
            (0, Op::Copy, 0, &[(4, L), (5, L)], NONE),
            (1, Op::Copy, 0, &[(1, L), (2, R)], NONE),
            (2, ONE, 0, &[(1, L)], NONE),
            (3, SUB, 0, &[(1, R)], NONE),
            (4, RETURN, 1, &[(1, R)], NONE),
            (5, RELEASE, 2, NONE, NONE),
        ],
        wanted_holders: 2,
        wanted: &[
            (0, Op::Copy, 0, &[(3, L), (4, L)], NONE),
            (1, Op::Copy, 0, &[(1, L)], NONE),
            (3, FROM_ONE, 0, &[(1, R)], NONE),
            (4, RETURN, 0, &[(1, R)], NONE),
            (5, RELEASE, 1, NONE, NONE),
        ],
    },
    Case {
        name: "a literal with another use stays",
        holders: 4,
        lines: &[
            (0, Op::Copy, 0, &[(4, L), (6, L)], NONE),
            (1, Op::Copy, 0, &[(1, L), (2, L)], NONE),
            (2, ONE, 0, &[(1, R), (2, R)], NONE),
            (3, ADD, 0, &[(2, L)], NONE),
            (4, RETURN, 1, &[(1, R)], NONE),
            (5, Op::Sync, 2, &[(1, R)], NONE),
            (6, RELEASE, 3, NONE, NONE),
        ],
        wanted_holders: 3,
        wanted: &[
            (0, Op::Copy, 0, &[(4, L), (6, L)], NONE),
            (1, Op::Copy, 0, &[(1, L), (2, L)], NONE),
            (2, ONE, 0, &[(2, R)], NONE),
            (3, ADD_ONE, 0, &[(2, L)], NONE),
            (4, RETURN, 0, &[(1, R)], NONE),
            (5, Op::Sync, 1, &[(1, R)], NONE),
            (6, RELEASE, 2, NONE, NONE),
        ],
    },
    Case {
        name: "two operands from one literal stay",
        holders: 3,
        lines: &[
            (0, Op::Copy, 0, &[(4, L), (5, L)], NONE),
            (1, Op::Copy, 0, &[(1, L)], NONE),
            (2, ONE, 0, &[(1, L), (1, R)], NONE),
            (3, ADD, 0, &[(1, R)], NONE),
            (4, RETURN, 1, &[(1, R)], NONE),
            (5, RELEASE, 2, NONE, NONE),
        ],
        wanted_holders: 3,
        wanted: &[
            (0, Op::Copy, 0, &[(4, L), (5, L)], NONE),
            (1, Op::Copy, 0, &[(1, L)], NONE),
            (2, ONE, 0, &[(1, L), (1, R)], NONE),
            (3, ADD, 0, &[(1, R)], NONE),
            (4, RETURN, 1, &[(1, R)], NONE),
            (5, RELEASE, 2, NONE, NONE),
        ],
    },
    // One literal is the trigger of another, and both are operands of one operator. The operator takes the second one as its
    // literal operand.
    Case {
        name: "a literal for another stays",
        holders: 3,
        lines: &[
            (0, Op::Copy, 0, &[(5, L), (6, L)], NONE),
            (1, Op::Copy, 0, &[(1, L)], NONE),
            (2, TWO, 0, &[(1, L), (2, L)], NONE),
            (3, ONE, 0, &[(1, R)], NONE),
            (4, ADD, 0, &[(1, R)], NONE),
            (5, RETURN, 1, &[(1, R)], NONE),
            (6, RELEASE, 2, NONE, NONE),
        ],
        wanted_holders: 2,
        wanted: &[
            (0, Op::Copy, 0, &[(4, L), (5, L)], NONE),
            (1, Op::Copy, 0, &[(1, L)], NONE),
            (2, TWO, 0, &[(1, L)], NONE),
            (4, ADD_ONE, 0, &[(1, R)], NONE),
            (5, RETURN, 0, &[(1, R)], NONE),
            (6, RELEASE, 1, NONE, NONE),
        ],
    },
    // A switch sends to a literal and its operator on one side, and to another literal and its operator on different sides.
    Case {
        name: "a side of a switch is a source",
        holders: 5,
        lines: &[
            (0, Op::Copy, 0, &[(7, L), (8, L)], NONE),
            (1, Op::Copy, 0, &[(1, L), (1, R)], NONE),
            (2, Op::Switch, 0, &[(1, L), (2, L), (3, L)], &[(4, L)]),
            (3, ONE, 0, &[(1, R)], NONE),
            (4, ADD, 1, &[(3, R)], NONE),
            (5, ONE, 0, &[(1, R)], NONE),
            (6, ADD, 2, &[(1, R)], NONE),
            (7, RETURN, 3, &[(1, R)], NONE),
            (8, RELEASE, 4, NONE, NONE),
        ],
        wanted_holders: 4,
        wanted: &[
            (0, Op::Copy, 0, &[(6, L), (7, L)], NONE),
            (1, Op::Copy, 0, &[(1, L), (1, R)], NONE),
            (2, Op::Switch, 0, &[(1, L), (2, L)], &[(3, L)]),
            (4, ADD_ONE, 0, &[(3, R)], NONE),
            (5, ONE, 0, &[(1, R)], NONE),
            (6, ADD, 1, &[(1, R)], NONE),
            (7, RETURN, 2, &[(1, R)], NONE),
            (8, RELEASE, 3, NONE, NONE),
        ],
    },
];

#[test]
fn literals_become_operands(rt: HostRuntime) -> Result<(), Fail> {
    let alloc = rt.alloc();
    for case in &CASES {
        let plan = fold(alloc, &lines_plan(alloc, case.holders, case.lines)?)?;
        assert_eq!(rt; first_other(&plan, case.wanted), None, "{}", case.name);
        assert_eq!(rt; holders(&plan), Some(case.wanted_holders), "{}", case.name);
    }
    Ok(())
}

/// A sum with a literal, which becomes an operand.
const SUM: [Line; 4] = [
    (0, Op::Copy, 0, &[(3, L)], NONE),
    (1, Op::Copy, 0, &[(1, L), (2, L)], NONE),
    (2, ONE, 0, &[(1, R)], NONE),
    (3, ADD, 0, NONE, NONE),
];

/// Each growth of the pass is refused in turn: the answer is the error, and the plan once no growth is refused.
#[test]
fn refuses_each_growth(rt: HostRuntime) -> Result<(), Fail> {
    let mut refused = 0u64;
    let mut whole = false;
    for at in 1..10_000u64 {
        let plenty = Rationed::new(rt.alloc(), 0);
        let scarce = Rationed::new(rt.alloc(), at);
        let plan = lines_plan(&plenty, 1, &SUM)?;
        let folded = fold(&scarce, &plan);
        whole = is_next_refused(&scarce);
        assert_eq!(rt; folded.is_ok(), whole, "{at}");
        if whole {
            break;
        }
        refused = refused.wrapping_add(1);
    }
    assert!(rt; whole && refused > 0);
    Ok(())
}
