//! Graphs whose profile is known, and an object that was typed.

use crate::lines::{count, sum};
use std::alloc::{AllocError, Global};
use std::sync::Wait;
use std::thread::Threads;
use test_inputs::graph_texts::{SUM_LOOP, with_change, with_inputs};
use test_served::answer;

/// A chain: each node waits for the one before it.
pub const CHAIN: &[u8] = b"etsgraph 1
block m 1 1
- neg 0.0
- neg 1.0
- neg 2.0
- neg 3.0
out 4.0
end
main m
5
";

/// The sum of eight numbers, by pairs.
pub const TREE: &[u8] = b"etsgraph 1
block m 8 1
- add 0.0 1.0
- add 2.0 3.0
- add 4.0 5.0
- add 6.0 7.0
- add 8.0 9.0
- add 10.0 11.0
- add 12.0 13.0
out 14.0
end
main m
1
2
3
4
5
6
7
8
";

/// An object that adds its two inputs, as it may be typed, and a literal that no instruction uses.
pub const LISTING: &[u8] = b"ets 1 main 0
block 0 inputs 2 outputs 1 slots 3
0 copy    - +4l +5l -      ; the continuation: to return and to release
1 copy    - +2l -   -      ; input 0
2 copy    - +1r -   -      ; input 1
3 add     0 +1r -   -
4 return  1 +1r -   o0
5 release 2 -   -   o1
literal 0 -7
";

/// Whether the graph has this work and this span, and parallelism 1 exactly where they are equal.
pub fn looks_right<R: Threads + Wait + Sync>(
    rt: &R,
    alloc: Global,
    input: &[u8],
    work: u64,
    span: u64,
) -> bool {
    let profile = answer(rt, alloc, &["ets", "profile", "--elements", "1"], input);
    sum(&profile.text, b"work ", 1) == work
        && sum(&profile.text, b"span ", 1) == span
        && count(&profile.text, b"parallelism 1.00") == u64::from(work == span)
}

/// Whether the loop that sums the numbers up to its input has the profile that it should have, with this text in the place of
/// its bound.
pub fn loop_looks_right<R: Threads + Wait + Sync>(
    rt: &R,
    alloc: Global,
    bound: &[u8],
) -> Result<bool, AllocError> {
    let graph = with_change(alloc, SUM_LOOP, b"loop b 2", bound)?;
    let input = with_inputs(alloc, &graph, b"100\n")?;
    Ok(looks_right(rt, alloc, &input, 1_007, 504))
}
