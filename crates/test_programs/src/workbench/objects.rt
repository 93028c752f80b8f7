//! An object that adds.

use std::alloc::Global;
use std::sync::Wait;
use std::thread::Threads;
use test_served::{answer, reassembles, reassembles_with_literals};

/// Whether the listing, with a literal that no instruction uses, is of an object that adds 2 and 3, and is obtained again from what is
/// listed of it with its literals, and not from what is listed without them.
pub fn adds<R: Threads + Wait + Sync>(rt: &R, alloc: Global, listing: &[u8]) -> bool {
    let object = answer(rt, alloc, &["ets", "asm"], listing);
    let report = answer(rt, alloc, &["ets", "exec", "2", "3"], &object.text);
    object.status == 0
        && reassembles_with_literals(rt, alloc, &object.text)
        && !reassembles(rt, alloc, &object.text)
        && report.text.starts_with(b"output 0 5\n")
}
