//! A graph that the checker accepts, and what it finds in it.

use graph::Name;
use graph_check::{CheckFaultKind, check};
use graph_file::read;
use std::test::Fail;
use test_inputs::rationed::{Rationed, is_next_refused};

/// The blocks `g` and `b`, and a block with each kind of node.
const EACH_KIND: &[u8] = b"etsgraph 2
array A 1
array B 1
block g 1 1
out 0.0
end
block b 1 2
out 0.0 0.0
end
block m 1 1
- lit 0 0.0
- cond 1.0
2+ enter 0.0
2- enter 1.0
2- neg 4.0
- merge 2 3.0 5.0
- add 6.0 1.0
- fetch A 7.0
- store B 8.0 0.0
- call g 9.0
- scall g 10.0
- loop b 64 11.0
out 12.0
end
main m
";

#[test]
fn accepts_each_kind(rt: HostRuntime) -> Result<(), Fail> {
    match check(read(rt.alloc(), EACH_KIND)?) {
        Err(_) => assert!(rt; false, "refused"),
        Ok(checked) => {
            assert_eq!(rt; checked.graph().blocks.len(), 3);
            assert_eq!(rt; checked.main_place(), 2);
            assert_eq!(rt; checked.place_of_block(&Name { bytes: b"b" }), 1);
            assert_eq!(rt; checked.place_of_block(&Name { bytes: b"A" }), 3);
            assert_eq!(rt; checked.place_of_array(&Name { bytes: b"B" }), 1);
            assert_eq!(rt; checked.place_of_array(&Name { bytes: b"C" }), 2);
        }
    }
    Ok(())
}

/// Each growth of the check is refused in turn, until none is.
#[test]
fn refuses_each_growth(rt: HostRuntime) -> Result<(), Fail> {
    let mut refused = 0u64;
    let mut whole = false;
    for growth in 1..10_000u64 {
        let heap = Rationed::new(rt.alloc(), growth);
        let Ok(graph) = read(&heap, EACH_KIND) else {
            continue;
        };
        let fault = match check(graph) {
            Ok(_) => None,
            Err(fault) => Some(fault.kind),
        };
        whole = is_next_refused(&heap);
        if whole {
            assert_eq!(rt; fault, None, "{growth}");
            break;
        }
        assert_eq!(rt; fault, Some(CheckFaultKind::Memory), "{growth}");
        refused = refused.wrapping_add(1);
    }
    assert!(rt; whole && refused > 0);
    Ok(())
}
