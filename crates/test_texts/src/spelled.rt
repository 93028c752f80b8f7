//! What is written for a graph that was read.

use dot::write_graph_dot;
use graph_file::{ReadFaultKind, read, write};
use std::test::Fail;
use test_inputs::graph_texts::{ADD, EARLY_RESULT, LATE_RESULT, SUM_LOOP};
use test_inputs::rationed::writer::{Failure, Taker};
use test_inputs::rationed::{Rationed, is_next_refused};

/// Texts of graphs; one has a strict call, and one a literal that is as low as can be.
const GRAPHS: [&[u8]; 5] = [
    ADD,
    EARLY_RESULT,
    SUM_LOOP,
    LATE_RESULT,
    b"etsgraph 2\nblock m 1 1\n- cond 0.0\n1+ enter 0.0\n1- enter 0.0\n1+ scall m 2.0\n1- lit -9223372036854775808 3.0\n- merge 1 4.0 3.0\nout 6.0\nend\nmain m\n",
];

#[test]
fn graphs(rt: HostRuntime) -> Result<(), Fail> {
    let heap = Rationed::new(rt.alloc(), 0);
    for text in GRAPHS {
        let graph = read(&heap, text)?;
        let left = heap.left();
        let mut out = Vec::new(rt.alloc());
        write(&graph, &mut out)?;
        assert_eq!(rt; out.as_slice(), text);
        write_graph_dot(&graph, &mut out)?;
        assert_eq!(rt; heap.left(), left);
    }
    Ok(())
}

#[test]
fn failing_writers(rt: HostRuntime) -> Result<(), Fail> {
    let graph = read(rt.alloc(), ADD)?;
    for room in 0..57usize {
        let mut taker = Taker::new(rt.alloc(), 1, room, Failure::Broken);
        let answer = write(&graph, &mut taker);
        assert_eq!(rt; answer.is_ok(), room == 56);
        assert_eq!(rt; taker.taken.len(), room);
        assert!(rt; ADD.starts_with(&taker.taken));
    }
    Ok(())
}

/// Each growth is refused in turn, until none is.
#[test]
fn refused_growths(rt: HostRuntime) -> Result<(), Fail> {
    let mut refused = 0u64;
    let mut whole = false;
    for n in 1..10_000u64 {
        let heap = Rationed::new(rt.alloc(), n);
        let fault = match read(&heap, ADD) {
            Ok(_) => None,
            Err(fault) => Some(fault.kind),
        };
        whole = is_next_refused(&heap);
        if whole {
            assert_eq!(rt; fault, None, "{n}");
            break;
        }
        assert_eq!(rt; fault, Some(ReadFaultKind::Memory), "{n}");
        refused = refused.wrapping_add(1);
    }
    assert!(rt; whole && refused > 0);
    Ok(())
}
