//! Maps of the objects of graphs: they have an owner for each instruction, and where an instruction has an origin, its owner is
//! that node.

use code::{Instr, Program};
use code_map::{Owner, Part, code_map};
use fanout::narrow;
use folding::fold;
use graph::{Graph, Name, Node};
use graph_check::{Checked, check};
use graph_file::read;
use schemas::expand;
use select::emit;
use semantics::graph::Kind;
use semantics::program::Op;
use slot_alloc::assign;
use std::alloc::{AllocError, Allocator, Global};
use std::process::Abort;
use std::test::Fail;
use tags::value::Origin;
use test_inputs::graph_texts;
use test_inputs::random_graphs::graphs;
use test_inputs::rationed::{Rationed, is_next_refused};

/// The graph of a text.
fn checked_of<'a, R: Abort, A: Allocator + Clone>(
    rt: &R,
    alloc: A,
    text: &'a [u8],
) -> Checked<'a, A> {
    let Ok(graph) = read(alloc, text) else {
        rt.exit(101)
    };
    let Ok(checked) = check(graph) else {
        rt.exit(102)
    };
    checked
}

/// The program of a graph's object.
fn program_of<'a, R: Abort, A: Allocator + Clone>(
    rt: &R,
    alloc: A,
    checked: &Checked<'a, A>,
) -> Result<Program<A>, AllocError> {
    let wide = expand(alloc.clone()?, checked)?;
    let folded = fold(alloc.clone()?, &wide)?;
    let plan = narrow(alloc.clone()?, &folded)?;
    let Ok(slots) = assign(alloc.clone()?, &plan) else {
        rt.exit(103)
    };
    let Ok(code) = emit(alloc, &plan, &slots, checked.graph().version) else {
        rt.exit(104)
    };
    Ok(code.program)
}

/// The node line of an owner, if it is one.
fn node_of<'g, 'a, A: Allocator>(graph: &'g Graph<'a, A>, owner: Owner) -> Option<&'g Node<'a, A>> {
    let block = graph.blocks.get(owner.block as usize)?;
    match owner.part {
        Part::Node { node } if node >= block.inputs => {
            block.nodes.get((node - block.inputs) as usize)
        }
        _ => None,
    }
}

/// Whether code for a node of that kind may have that operation.
fn fits_kind<'a>(op: Op, kind: &Kind<Name<'a>>) -> bool {
    let invokes = matches!(
        kind,
        Kind::Call { .. } | Kind::StrictCall { .. } | Kind::Loop { .. }
    );
    match op {
        Op::Copy => true,
        Op::Lit { .. } => matches!(kind, Kind::Lit { .. }),
        Op::Apply1 { .. } => matches!(kind, Kind::Apply1 { .. }),
        Op::Apply2 { .. } | Op::Apply2Right { .. } | Op::Apply2Left { .. } => {
            matches!(kind, Kind::Apply2 { .. })
        }
        Op::Sync => matches!(kind, Kind::StrictCall { .. }),
        Op::Switch => matches!(kind, Kind::Cond | Kind::Enter),
        Op::Fetch { .. } => matches!(kind, Kind::Fetch { .. }),
        Op::Store { .. } => matches!(kind, Kind::Store { .. }),
        Op::Frame | Op::Link { .. } | Op::Send { .. } => invokes,
        Op::Open { .. } | Op::Take { .. } | Op::Give { .. } | Op::Drain { .. } => {
            matches!(kind, Kind::Loop { .. })
        }
        Op::Return { .. } | Op::Ask { .. } | Op::Release { .. } => false,
    }
}

/// Whether an instruction that belongs to no node line may have that operation.
fn fits_part(op: Op, part: Part) -> bool {
    match part {
        Part::Continuation | Part::Node { .. } => op == Op::Copy,
        Part::Output { .. } => matches!(op, Op::Return { .. } | Op::Copy),
        Part::Turn => !matches!(op, Op::Release { .. } | Op::Link { .. } | Op::Lit { .. }),
        Part::Joins { .. } => matches!(op, Op::Sync | Op::Copy),
        Part::Release => matches!(op, Op::Sync | Op::Copy | Op::Release { .. }),
    }
}

/// Ends the process unless the owner of an instruction is that of its origin, and one that has such an instruction.
fn expect_owner<'a, R: Abort, A: Allocator>(
    rt: &R,
    graph: &Graph<'a, A>,
    instr: &Instr<A>,
    owner: Owner,
) {
    if let Origin::At { block, node } = instr.origin {
        assert_eq!(rt; owner.block, u32::from(block));
        assert_eq!(rt;
            owner.part,
            Part::Node {
                node: u32::from(node.get())
            }
        );
    }
    match node_of(graph, owner) {
        Some(node) => assert!(rt; fits_kind(instr.op, &node.kind)),
        None => assert!(rt; fits_part(instr.op, owner.part)),
    }
}

/// Ends the process unless the map of the text's object has an owner for each instruction, that of its origin.
fn expect_map<R: Abort>(rt: &R, alloc: Global, text: &[u8]) -> Result<(), AllocError> {
    let checked = checked_of(rt, alloc, text);
    let program = program_of(rt, alloc, &checked)?;
    let map = code_map(alloc, &checked)?;
    let mut ip = 0usize;
    for block in &program.blocks {
        for instr in &block.instrs {
            assert!(rt; ip < map.len());
            expect_owner(rt, checked.graph(), instr, map[ip]);
            ip = ip.wrapping_add(1);
        }
    }
    assert_eq!(rt; map.len(), ip);
    Ok(())
}

#[test]
fn maps_of_small_graphs(rt: HostRuntime) -> Result<(), Fail> {
    let alloc = rt.alloc();
    for text in [
        graph_texts::ADD,
        graph_texts::FIVE_RESULTS,
        graph_texts::SIGN,
        graph_texts::FACTORIAL,
        graph_texts::EARLY_RESULT,
        graph_texts::READERS,
        graph_texts::NEVER_FILLED,
        graph_texts::SECOND_STORE,
        graph_texts::SUM_LOOP,
        graph_texts::ARRAY_LOOP,
        graph_texts::LATE_RESULT,
        graph_texts::INNER_FAULT,
    ] {
        expect_map(&rt, alloc, text)?;
    }
    Ok(())
}

/// Those of the second version have origins.
#[test]
fn maps_of_random_graphs(rt: HostRuntime) -> Result<(), Fail> {
    let alloc = rt.alloc();
    for seed in 0..6 {
        let graph = graphs::Graph::random(alloc, graphs::Part::All, seed)?;
        expect_map(&rt, alloc, &graph.text)?;
    }
    Ok(())
}

/// Whether the map of the text's object is that one, if it is made. The map alone takes its rooms from the second allocator.
fn is_map<R: Abort, A: Allocator + Clone>(
    rt: &R,
    plenty: A,
    scarce: A,
    text: &[u8],
    map: &[Owner],
) -> Option<bool> {
    let checked = checked_of(rt, plenty, text);
    match code_map(scarce, &checked) {
        Ok(owners) => Some(owners.as_slice() == map),
        Err(_) => None,
    }
}

/// Each growth is refused in turn, until none is, and the map is that of plenty.
#[test]
fn refused_growths(rt: HostRuntime) -> Result<(), Fail> {
    let checked = checked_of(&rt, rt.alloc(), graph_texts::SUM_LOOP);
    let map = code_map(rt.alloc(), &checked)?;
    let plenty = Rationed::new(rt.alloc(), 0);
    let mut refused = 0u64;
    let mut whole = false;
    for growth in 1..5_000u64 {
        let scarce = Rationed::new(rt.alloc(), growth);
        let found = is_map(&rt, &plenty, &scarce, graph_texts::SUM_LOOP, &map);
        whole = is_next_refused(&scarce);
        assert_eq!(rt; found.is_some(), whole, "{growth}");
        assert!(rt; found != Some(false));
        if whole {
            break;
        }
        refused = refused.wrapping_add(1);
    }
    assert!(rt; whole && refused > 100, "{refused}");
    Ok(())
}
