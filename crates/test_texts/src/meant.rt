//! Meanings for whose growths there is no room.

use oracle::{MeanEnd, MeanFault, mean};
use std::alloc::Allocator;
use std::process::Abort;
use std::test::Fail;
use test_inputs::graph_texts::{EARLY_RESULT, READERS, SUM_LOOP};
use test_inputs::rationed::{Rationed, is_next_refused};

/// More activities than any run here takes.
const ENOUGH: u64 = 1_000_000;

/// Whether growth number `ration` was refused, with the outcome of the run.
fn rationed_run<B: Allocator + Clone>(
    rt: &impl Abort,
    inner: B,
    text: &[u8],
    inputs: &[i64],
    ration: u64,
) -> Result<(bool, Result<MeanEnd, MeanFault>), Fail> {
    let plenty = Rationed::new(inner.clone()?, 0);
    let scarce = Rationed::new(inner, ration);
    let Ok(graph) = graph_file::read(&plenty, text) else {
        rt.exit(101)
    };
    let Ok(checked) = graph_check::check(graph) else {
        rt.exit(102)
    };
    let end = mean(&scarce, &checked, inputs, ENOUGH).map(|report| report.end);
    Ok((!is_next_refused(&scarce), end))
}

/// Each growth that is refused is reported; with all of them granted, the run comes to rest.
#[test]
fn tells_each_refused_growth(rt: HostRuntime) -> Result<(), Fail> {
    for (text, inputs) in [
        (READERS, [8].as_slice()),
        (EARLY_RESULT, &[4, 3]),
        (SUM_LOOP, &[5]),
    ] {
        let mut refused = 0u64;
        let mut rests = false;
        for ration in 1..1_000 {
            match rationed_run(&rt, rt.alloc(), text, inputs, ration)? {
                (true, end) => assert_eq!(rt; end, Err(MeanFault::Memory), "{ration}"),
                (false, end) => {
                    assert_eq!(rt; end, Ok(MeanEnd::Rest), "{ration}");
                    rests = true;
                    break;
                }
            }
            refused = refused.wrapping_add(1);
        }
        assert!(rt; rests);
        assert!(rt; refused > 0);
    }
    Ok(())
}
