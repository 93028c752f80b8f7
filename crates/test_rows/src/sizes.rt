//! Graphs at the limits of an object.

use std::alloc::Global;
use std::io::Write;
use std::test::Fail;
use test_served::answer;

/// The text of `blocks` blocks. Each is a chain of 1,023 literals that are different from all others.
fn literals(alloc: Global, blocks: u32) -> Result<Vec<u8>, Fail> {
    let mut text = b"etsgraph 1\n".to_vec(alloc)?;
    for block in 0..blocks {
        writeln!(text, "block b{block} 1 1")?;
        for node in 0..1023u32 {
            let value = 1023 * (block as u64) + (node as u64) + 1;
            writeln!(text, "- lit {value} {node}.0")?;
        }
        text.extend_from_slice(b"out 1023.0\nend\n")?;
    }
    text.extend_from_slice(b"main b0\n")?;
    Ok(text)
}

#[test]
fn literals_run_out(rt: HostRuntime) -> Result<(), Fail> {
    let alloc = rt.alloc();
    let text = literals(alloc, 65)?;
    let wanted = b"refused: emit TooFar block 64\n".as_slice();
    let refused = answer(&rt, alloc, &["ets", "compile"], &text);
    assert_eq!(rt; refused.text.as_slice(), wanted);
    assert_eq!(rt; refused.status, 1);
    let text = literals(alloc, 64)?;
    let object = answer(&rt, alloc, &["ets", "compile"], &text);
    assert_eq!(rt; object.status, 0);
    Ok(())
}
