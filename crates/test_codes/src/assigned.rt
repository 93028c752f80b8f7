//! Plans made by hand, and which slots are good for them.

use code::{Holder, Instr, Plan, Slots};
use operators::Binary;
use semantics::program::{Mark, Op};
use slot_alloc::{AssignFault, assign, check_slots};
use std::alloc::{AllocError, Allocator};
use std::test::Fail;
use tags::value::Origin;
use test_inputs::plans::{ADD, Dests, L, NONE, R, instr_of, mark_of, plan_of};
use test_inputs::rationed::{Rationed, is_next_refused};

/// The operation of an instruction, its holder, and its first and its second destinations.
type Line = (Op, u32, Dests, Dests);

const MUL: Op = Op::Apply2 { op: Binary::Mul };

const AND: Op = Op::Apply2 { op: Binary::And };

const OR: Op = Op::Apply2 { op: Binary::Or };

fn instr<A: Allocator + Clone>(alloc: A, line: Line) -> Result<Instr<A>, AllocError> {
    let (op, slot, firsts, seconds) = line;
    instr_of(alloc, op, Origin::Untold, slot, firsts, seconds)
}

/// A plan of one block with these instructions. All its switches have the mark `mark`.
fn lines_plan<A: Allocator + Clone>(
    alloc: A,
    holders: u32,
    lines: &[Line],
    mark: Mark,
) -> Result<Plan<A>, AllocError> {
    let mut instrs = Vec::new(alloc.clone()?);
    let mut marks = Vec::new(alloc.clone()?);
    for line in lines {
        let (op, _, _, _) = *line;
        instrs.push(instr(alloc.clone()?, *line)?)?;
        marks.push(mark_of(op, mark))?;
    }
    plan_of(alloc, 1, holders, instrs, marks)
}

/// Whether the slots are a good choice for the plan.
fn is_good<A: Allocator + Clone>(
    alloc: A,
    plan: &Plan<A>,
    slots: &[u16],
) -> Result<bool, AllocError> {
    let mut lists = Vec::new(alloc.clone()?);
    lists.push(slots.to_vec(alloc.clone()?)?)?;
    check_slots(alloc, plan, &Slots::of(lists))
}

/// The sum of two inputs: holders 0 to 2 are `add`, `return` and `release`.
const SUM: &[Line] = &[
    (Op::Copy, 0, &[(4, L), (5, L)], NONE),
    (Op::Copy, 0, &[(2, L)], NONE),
    (Op::Copy, 0, &[(1, R)], NONE),
    (ADD, 0, &[(1, R)], NONE),
    (Op::Return { offset: 0 }, 1, &[(1, R)], NONE),
    (Op::Release { offset: 1 }, 2, NONE, NONE),
];

/// `or` of an input with itself, then `and` of that with itself.
const CHAIN: &[Line] = &[
    (Op::Copy, 0, &[(4, L), (5, L)], NONE),
    (Op::Copy, 0, &[(1, L), (1, R)], NONE),
    (OR, 0, &[(1, L), (1, R)], NONE),
    (AND, 1, &[(1, R)], NONE),
    (Op::Return { offset: 0 }, 2, &[(1, R)], NONE),
    (Op::Release { offset: 1 }, 3, NONE, NONE),
];

/// An `add` in the upper arm of a conditional and a `mul` in the lower arm: holders 2 and 3.
const ARMS: &[Line] = &[
    (Op::Copy, 0, &[(8, L), (9, L)], NONE),
    (Op::Copy, 0, &[(1, L), (1, R), (2, L), (2, R)], NONE),
    (Op::Switch, 0, &[(2, L), (2, R)], &[(5, R)]),
    (Op::Switch, 1, &[(4, R)], &[(2, L), (2, R)]),
    (ADD, 2, &[(2, L)], NONE),
    (MUL, 3, &[(1, L)], NONE),
    (Op::Copy, 0, &[(2, R)], NONE),
    (Op::Sync, 6, NONE, NONE),
    (Op::Return { offset: 0 }, 4, &[(1, R)], NONE),
    (Op::Release { offset: 1 }, 5, NONE, NONE),
];

/// The sum and the product of an input with itself: holders 0 and 1.
const INDEPENDENT: &[Line] = &[
    (Op::Copy, 0, NONE, NONE),
    (Op::Copy, 0, &[(1, L), (1, R), (2, L), (2, R)], NONE),
    (ADD, 0, NONE, NONE),
    (MUL, 1, NONE, NONE),
];

/// The sum of an input with itself, which a switch lets the continuation pass to the return: holders 0 to 3 are `add`, the
/// switch, `return` and `release`.
const LATE_RETURN: &[Line] = &[
    (Op::Copy, 0, &[(3, L), (5, L)], NONE),
    (Op::Copy, 0, &[(1, L), (1, R)], NONE),
    (ADD, 0, &[(1, R), (2, R)], NONE),
    (Op::Switch, 1, &[(1, L)], &[(1, L)]),
    (Op::Return { offset: 0 }, 2, &[(1, R)], NONE),
    (Op::Release { offset: 1 }, 3, NONE, NONE),
];

/// The same sum, with a switch that lets the continuation pass from the return to the release: holders 0 to 3 are `add`,
/// `return`, the switch and `release`.
const LATE_RELEASE: &[Line] = &[
    (Op::Copy, 0, &[(3, L), (4, L)], NONE),
    (Op::Copy, 0, &[(1, L), (1, R)], NONE),
    (ADD, 0, &[(1, R)], NONE),
    (Op::Return { offset: 0 }, 1, &[(1, R), (2, R)], NONE),
    (Op::Switch, 2, &[(1, L)], &[(1, L)]),
    (Op::Release { offset: 1 }, 3, NONE, NONE),
];

/// The sum and the product of an input with itself, both returned: holders 0 to 5 are `add`, `mul`, their returns, the `sync`
/// of these, and `release`.
const TWO_RETURNS: &[Line] = &[
    (Op::Copy, 0, &[(4, L), (5, L), (7, L)], NONE),
    (Op::Copy, 0, &[(1, L), (1, R), (2, L), (2, R)], NONE),
    (ADD, 0, &[(2, R)], NONE),
    (MUL, 1, &[(2, R)], NONE),
    (Op::Return { offset: 0 }, 2, &[(2, L)], NONE),
    (Op::Return { offset: 1 }, 3, &[(1, R)], NONE),
    (Op::Sync, 4, &[(1, R)], NONE),
    (Op::Release { offset: 2 }, 5, NONE, NONE),
];

/// A give before the open of its loop.
const CREDITS: &[Line] = &[
    (Op::Copy, 0, NONE, NONE),
    (Op::Give { bound: 3 }, 0, NONE, NONE),
    (Op::Open { bound: 3 }, 0, NONE, NONE),
];

/// A plan, which choices of slots are good for it and which are not, and which one is made, where that is said.
struct Case {
    name: &'static str,
    holders: u32,
    lines: &'static [Line],
    mark: Mark,
    good: &'static [&'static [u16]],
    crowded: &'static [&'static [u16]],
    assigned: Option<&'static [u16]>,
}

static CASES: [Case; 9] = [
    Case {
        name: "the return waits beside the sum",
        holders: 3,
        lines: SUM,
        mark: Mark::Unmarked,
        good: &[&[0, 1, 2], &[511, 0, 7]],
        crowded: &[&[0, 0, 1], &[0, 1, 1], &[512, 0, 7], &[0, 1], &[0, 1, 2, 3]],
        assigned: None,
    },
    Case {
        name: "one comes after the other",
        holders: 4,
        lines: CHAIN,
        mark: Mark::Unmarked,
        good: &[&[0, 0, 1, 2]],
        crowded: &[&[0, 1, 0, 2]],
        assigned: None,
    },
    Case {
        name: "arms of a conditional share",
        holders: 7,
        lines: ARMS,
        mark: Mark::OfCond { cond: 1 },
        good: &[&[0, 1, 2, 2, 3, 4, 5]],
        crowded: &[&[0, 0, 2, 3, 4, 5, 6]],
        assigned: None,
    },
    Case {
        name: "sides of a loop's flag share",
        holders: 7,
        lines: ARMS,
        mark: Mark::OfFlag,
        good: &[&[0, 1, 2, 2, 3, 4, 5]],
        crowded: &[],
        assigned: None,
    },
    Case {
        name: "sides of other switches do not share",
        holders: 7,
        lines: ARMS,
        mark: Mark::Unmarked,
        good: &[],
        crowded: &[&[0, 1, 2, 2, 3, 4, 5]],
        assigned: None,
    },
    Case {
        name: "independent operators do not share",
        holders: 2,
        lines: INDEPENDENT,
        mark: Mark::Unmarked,
        good: &[&[1, 0]],
        crowded: &[&[0, 0]],
        assigned: Some(&[0, 1]),
    },
    Case {
        name: "a late return shares with the sum",
        holders: 4,
        lines: LATE_RETURN,
        mark: Mark::Unmarked,
        good: &[&[0, 1, 2, 3], &[0, 1, 0, 2]],
        crowded: &[
            &[0, 0, 1, 2],
            &[0, 1, 1, 2],
            &[0, 1, 2, 0],
            &[0, 1, 2, 1],
            &[0, 1, 2, 2],
            &[0, 1, 0, 0],
        ],
        assigned: Some(&[0, 1, 0, 2]),
    },
    Case {
        name: "a late release shares with the return",
        holders: 4,
        lines: LATE_RELEASE,
        mark: Mark::Unmarked,
        good: &[&[0, 1, 2, 1], &[0, 1, 2, 0]],
        crowded: &[&[0, 0, 1, 2], &[0, 1, 0, 2], &[0, 1, 1, 2], &[0, 1, 2, 2]],
        assigned: Some(&[0, 1, 2, 0]),
    },
    Case {
        name: "two returns share with nothing",
        holders: 6,
        lines: TWO_RETURNS,
        mark: Mark::Unmarked,
        good: &[&[0, 1, 2, 3, 4, 5]],
        crowded: &[
            &[0, 0, 2, 3, 4, 5],
            &[0, 1, 0, 3, 4, 5],
            &[0, 1, 1, 3, 4, 5],
            &[0, 1, 2, 0, 4, 5],
            &[0, 1, 2, 1, 4, 5],
            &[0, 1, 2, 2, 4, 5],
            &[0, 1, 2, 3, 0, 5],
            &[0, 1, 2, 3, 1, 5],
            &[0, 1, 2, 3, 2, 5],
            &[0, 1, 2, 3, 3, 5],
            &[0, 1, 2, 3, 4, 0],
            &[0, 1, 2, 3, 4, 1],
            &[0, 1, 2, 3, 4, 2],
            &[0, 1, 2, 3, 4, 3],
            &[0, 1, 2, 3, 4, 4],
        ],
        assigned: Some(&[0, 1, 2, 3, 4, 5]),
    },
];

#[test]
fn slots_are_good_or_crowded(rt: HostRuntime) -> Result<(), Fail> {
    let alloc = rt.alloc();
    for case in &CASES {
        let name = case.name;
        let plan = lines_plan(alloc, case.holders, case.lines, case.mark)?;
        for slots in case.good {
            assert!(rt; is_good(alloc, &plan, slots)?, "{name}: {slots:?}");
        }
        for slots in case.crowded {
            assert!(rt; !is_good(alloc, &plan, slots)?, "{name}: {slots:?}");
        }
        let slots = assign(alloc, &plan).map_err(|_| "assigned")?;
        assert!(rt; check_slots(alloc, &plan, &slots)?, "{name}");
        if let Some(wanted) = case.assigned {
            assert_eq!(rt; slots.block(0), Some(wanted), "{name}");
        }
    }
    Ok(())
}

#[test]
fn holders_tell_what_they_do(rt: HostRuntime) -> Result<(), Fail> {
    let heap = Rationed::new(rt.alloc(), 0);
    let plan = lines_plan(&heap, 3, SUM, Mark::Unmarked)?;
    let left = heap.left();
    let holders = plan.holders(0);
    assert_eq!(rt; holders.len(), 3);
    assert!(rt;
        matches!(
            holders.get(1),
            Some(Holder {
                op: Op::Return { offset: 0 }
            })
        )
    );
    assert!(rt;
        matches!(
            holders.get(2),
            Some(Holder {
                op: Op::Release { offset: 1 }
            })
        )
    );
    assert!(rt; holders.get(3).is_none());
    assert_eq!(rt; plan.holders(1).len(), 0);
    assert_eq!(rt; heap.left(), left);
    let credits = lines_plan(&heap, 1, CREDITS, Mark::Unmarked)?;
    assert!(rt;
        matches!(
            credits.holders(0).get(0),
            Some(Holder {
                op: Op::Open { bound: 3 }
            })
        )
    );
    Ok(())
}

/// A block of `count` instructions `and`, each of which takes the result of the one before at both ports.
fn long_chain<A: Allocator + Clone>(alloc: A, count: u32) -> Result<Plan<A>, AllocError> {
    let mut instrs = Vec::new(alloc.clone()?);
    instrs.push(instr(alloc.clone()?, (Op::Copy, 0, &[(1, L), (1, R)], NONE))?)?;
    for holder in 0..count {
        instrs.push(instr(alloc.clone()?, (AND, holder, &[(1, L), (1, R)], NONE))?)?;
    }
    let marks = Vec::new(alloc.clone()?);
    plan_of(alloc, 1, count, instrs, marks)
}

#[test]
fn a_long_chain_needs_few_slots(rt: HostRuntime) -> Result<(), Fail> {
    let alloc = rt.alloc();
    let plan = long_chain(alloc, 600)?;
    let slots = assign(alloc, &plan).map_err(|_| "assigned")?;
    let list = slots.block(0).ok_or("no list")?;
    assert_eq!(rt; list.len(), 600);
    assert!(rt; list.iter().all(|slot| *slot < 8));
    Ok(())
}

/// A block of `count` instructions `and` side by side.
fn wide_plan<A: Allocator + Clone>(alloc: A, count: u32) -> Result<Plan<A>, AllocError> {
    let mut instrs = Vec::new(alloc.clone()?);
    for holder in 0..count {
        instrs.push(instr(alloc.clone()?, (AND, holder, NONE, NONE))?)?;
    }
    let marks = Vec::new(alloc.clone()?);
    plan_of(alloc, 1, count, instrs, marks)
}

#[test]
fn slots_run_out(rt: HostRuntime) -> Result<(), Fail> {
    let alloc = rt.alloc();
    let full = wide_plan(alloc, 512)?;
    assert!(rt; assign(alloc, &full).is_ok());
    let crowded = wide_plan(alloc, 513)?;
    match assign(alloc, &crowded) {
        Ok(_) => assert!(rt; false, "assigned"),
        Err(fault) => assert_eq!(rt; fault, AssignFault::TooManySlots { block: 0 }),
    }
    Ok(())
}

/// Each growth of both calls is refused in turn: the answer is the error, and that the slots are good once no growth is refused.
#[test]
fn each_growth_is_refused_in_turn(rt: HostRuntime) -> Result<(), Fail> {
    let mut unassigned = 0u64;
    let mut unchecked = 0u64;
    let mut whole = false;
    for growth in 1..10_000u64 {
        let plenty = Rationed::new(rt.alloc(), 0);
        let scarce = Rationed::new(rt.alloc(), growth);
        let plan = lines_plan(&plenty, 3, SUM, Mark::Unmarked)?;
        let checked = match assign(&scarce, &plan) {
            Ok(slots) => check_slots(&scarce, &plan, &slots).ok(),
            Err(fault) => {
                assert_eq!(rt; fault, AssignFault::Memory, "{growth}");
                assert!(rt; !is_next_refused(&scarce), "{growth}");
                unassigned = unassigned.wrapping_add(1);
                continue;
            }
        };
        whole = is_next_refused(&scarce);
        assert_eq!(rt; checked, whole.then_some(true), "{growth}");
        if whole {
            break;
        }
        unchecked = unchecked.wrapping_add(1);
    }
    assert!(rt; whole && unassigned > 0 && unchecked > 0);
    Ok(())
}
