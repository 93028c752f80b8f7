//! Each growth is refused in turn.

use commands::serving::serve;
use rounds::Open;
use std::test::Fail;
use test_inputs::graph_texts::{ADD, with_inputs};
use test_inputs::rationed::{Rationed, is_next_refused};

const REST: &[u8] = b"output 0 5\ndeferred 0\nwaiting 0 0\nframes 0\nend Rest\n";

/// The reports of a run that is refused memory: before its result, after it, and once its frame is back.
const REFUSED: [&[u8]; 3] = [
    b"output 0 -\ndeferred 0\nwaiting 0 0\nframes 1\nend Memory\n",
    b"output 0 5\ndeferred 0\nwaiting 0 0\nframes 1\nend Memory\n",
    b"output 0 5\ndeferred 0\nwaiting 0 0\nframes 0\nend Memory\n",
];

/// A growth is refused in each run but the last: it is reported in place of the report, or by its end.
#[test]
fn each_growth_refused(rt: HostRuntime) -> Result<(), Fail> {
    let input = with_inputs(rt.alloc(), ADD, b"2\n3\n")?;
    let mut before = 0u64;
    let mut within = 0u64;
    let mut whole = false;
    for at in 1..2000u64 {
        let heap = Rationed::new(rt.alloc(), at);
        let mut text = Vec::new(rt.alloc());
        let mut reader = input.as_slice();
        let status = serve(
            ["ets", "run"].as_slice(),
            &mut reader,
            &mut text,
            &heap,
            rt.alloc(),
            &rt,
            &Open,
        );
        if is_next_refused(&heap) {
            assert_eq!(rt; status, 0, "{at}");
            assert_eq!(rt; text.as_slice(), REST);
            whole = true;
            break;
        }
        if status == 1 {
            assert_eq!(rt; text.as_slice(), b"refused: memory\n".as_slice(), "{at}");
            before = before.wrapping_add(1);
        } else {
            assert_eq!(rt; status, 6, "{at}");
            assert!(rt;
                REFUSED.iter().any(|report| text.as_slice() == *report),
                "{at}"
            );
            within = within.wrapping_add(1);
        }
    }
    assert!(rt; whole && before > 0 && within > 0);
    Ok(())
}
