//! Two free elements run side by side: each waits for the other one in the middle of its work.

use driver::emulation::run_text;
use driver::order::Order;
use driver::resources::Resources;
use rounds::Gate;
use schedule::config::Config;
use schedule::take::Take;
use semantics::report::End;
use std::alloc::Global;
use std::io::Write;
use std::sync::atomic::{AtomicBool, Ordering};
use std::test::Fail;

/// Holds back the first question of element 1 and the 200th of element 0 until the other one was asked.
#[derive(Drop)]
struct Pair {
    came: [AtomicBool; 2],
    saw: [AtomicBool; 2],
}

impl Gate for Pair {
    ghost use Rattle.std.specs.Prelude.{false};

    ghost may_stop = { false };

    fn enter(&self, _element: u32) {}

    fn go_on(&self, element: u32, blocks: u64) -> bool {
        let (here, there) = match (element, blocks) {
            (0, 199) => (0, 1),
            (1, 0) => (1, 0),
            _ => return true,
        };
        self.came[here].store(true, Ordering::SeqCst);
        for _ in 0..1_000_000_000u64 {
            if self.came[there].load(Ordering::SeqCst) {
                self.saw[here].store(true, Ordering::SeqCst);
                return true;
            }
        }
        true
    }
}

/// A call whose frame lies on the other element, next to a chain of 600 nodes.
fn call_beside_chain(alloc: Global) -> Result<Vec<u8>, Fail> {
    let mut text = Vec::new(alloc);
    text.extend_from_slice(
        b"etsgraph 1\nblock g 1 1\n- neg 0.0\nout 1.0\nend\nblock m 1 2\n- call g 0.0\n- and 0.0 0.0\n",
    )?;
    for node in 2..=600u32 {
        writeln!(text, "- and {node}.0 {node}.0")?;
    }
    text.extend_from_slice(b"out 1.0 601.0\nend\nmain m\n")?;
    Ok(text)
}

/// While element 0 is in the middle of its chain, element 1 begins. So its token was posted, taken and seen meanwhile.
#[test]
fn two(rt: HostRuntime) -> Result<(), Fail> {
    let gate = Pair {
        came: [AtomicBool::new(false), AtomicBool::new(false)],
        saw: [AtomicBool::new(false), AtomicBool::new(false)],
    };
    let config = Config {
        elements: 2,
        frames: 2,
        steps: 1_000_000,
        turn: 1,
    };
    let text = call_beside_chain(rt.alloc())?;
    let resources = Resources {
        alloc: rt.alloc(),
        rt: &rt,
        gate: &gate,
    };
    let emulated = run_text(
        resources,
        &text,
        [7].as_slice(),
        config,
        Order::Free(Take::Oldest),
    )
    .map_err(|_| "a report")?;
    assert_eq!(rt; emulated.report.end, End::Rest);
    assert!(rt; gate.saw[0].load(Ordering::SeqCst) && gate.saw[1].load(Ordering::SeqCst));
    Ok(())
}
