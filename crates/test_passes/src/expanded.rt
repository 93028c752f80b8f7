//! The plans of small graphs, instruction by instruction.

use code::{CodeBlock, Plan};
use graph_check::check;
use graph_file::read;
use schemas::expand;
use semantics::program::{Mark, Op};
use std::alloc::{AllocError, Allocator, Global};
use std::process::Abort;
use std::test::Fail;
use test_inputs::plans::{ADD, Dests, L, NONE, R, is_instr};
use test_inputs::rationed::{Rationed, is_next_refused};

/// The graph of the block `m`, which gives the sum of its two inputs, and of the block `g`, which gives its first input and does
/// not use its second one.
const BOTH: &[u8] =
    b"etsgraph 1\nblock g 2 1\nout 0.0\nend\nblock m 2 1\n- add 0.0 1.0\nout 2.0\nend\nmain m\n";

/// The plan of a text's graph. The pass alone takes its rooms from the second allocator.
fn plan_of<A: Allocator + Clone>(
    rt: &impl Abort,
    plenty: A,
    scarce: A,
    text: &[u8],
) -> Result<Plan<A>, AllocError> {
    let Ok(graph) = read(plenty, text) else {
        rt.exit(101)
    };
    let Ok(checked) = check(graph) else {
        rt.exit(102)
    };
    expand(scarce, &checked)
}

/// The plan of a text's graph.
fn whole_plan(rt: &impl Abort, alloc: Global, text: &[u8]) -> Result<Plan<Global>, AllocError> {
    plan_of(rt, alloc, alloc, text)
}

/// Ends the process unless the block has these operations, with these slots and destinations.
fn expect_code<R: Abort, A: Allocator>(
    rt: &R,
    block: &CodeBlock<A>,
    expected: &[(Op, u32, Dests)],
) {
    assert_eq!(rt; block.instrs.len(), expected.len());
    for (instr, (op, slot, firsts)) in block.instrs.iter().zip(expected) {
        assert!(rt; is_instr(instr, *op, firsts, NONE) && instr.slot == *slot);
    }
}

fn expect_adder<R: Abort, A: Allocator>(rt: &R, block: &CodeBlock<A>) {
    assert_eq!(rt; block.slots, 3);
    let expected: [(Op, u32, Dests); 6] = [
        (Op::Copy, 0, &[(4, L), (5, L)]),
        (Op::Copy, 0, &[(2, L)]),
        (Op::Copy, 0, &[(1, R)]),
        (ADD, 0, &[(1, R)]),
        (Op::Return { offset: 0 }, 1, &[(1, R)]),
        (Op::Release { offset: 1 }, 2, &[]),
    ];
    expect_code(rt, block, &expected);
}

/// In the second graph, the unused input goes to the left port of the join, and the signal of the `return` to its right port.
#[test]
fn plans_of_small_graphs(rt: HostRuntime) -> Result<(), Fail> {
    let plan = whole_plan(&rt, rt.alloc(), test_inputs::graph_texts::ADD)?;
    assert_eq!(rt; plan.program.main, 0);
    assert_eq!(rt; plan.plain, 1);
    assert_eq!(rt; plan.program.blocks.len(), 1);
    expect_adder(&rt, &plan.program.blocks[0]);
    assert_eq!(rt; plan.marks_of(0), [Mark::Unmarked; 6].as_slice());
    let plan = whole_plan(&rt, rt.alloc(), BOTH)?;
    assert_eq!(rt; plan.program.main, 1);
    assert_eq!(rt; plan.plain, 2);
    assert_eq!(rt; plan.program.blocks.len(), 2);
    let expected: [(Op, u32, Dests); 6] = [
        (Op::Copy, 0, &[(3, L), (5, L)]),
        (Op::Copy, 0, &[(2, R)]),
        (Op::Copy, 0, &[(2, L)]),
        (Op::Return { offset: 0 }, 0, &[(1, R)]),
        (Op::Sync, 1, &[(1, R)]),
        (Op::Release { offset: 1 }, 2, &[]),
    ];
    expect_code(&rt, &plan.program.blocks[0], &expected);
    expect_adder(&rt, &plan.program.blocks[1]);
    Ok(())
}

/// Each growth is refused in turn: the answer is the error, and the plan once no growth is refused.
#[test]
fn refuses_each_growth(rt: HostRuntime) -> Result<(), Fail> {
    let plenty = Rationed::new(rt.alloc(), 0);
    let mut refused = 0u64;
    let mut whole = false;
    for at in 1..10_000u64 {
        let scarce = Rationed::new(rt.alloc(), at);
        let is_made = plan_of(&rt, &plenty, &scarce, BOTH).is_ok();
        whole = is_next_refused(&scarce);
        assert_eq!(rt; is_made, whole, "{at}");
        if whole {
            break;
        }
        refused = refused.wrapping_add(1);
    }
    assert!(rt; whole && refused > 0);
    Ok(())
}
