//! Runs in random orders, and runs of the object.

use crate::lines::after;
use crate::workbench::STEPS;
use std::alloc::Global;
use std::sync::Wait;
use std::thread::Threads;
use test_served::answer;

/// Whether five random orders have the report of the run.
pub fn agree<R: Threads + Wait + Sync>(rt: &R, alloc: Global, input: &[u8]) -> bool {
    let run = answer(rt, alloc, &["ets", "run", "--steps", STEPS], input);
    let orders = answer(
        rt,
        alloc,
        &["ets", "orders", "--steps", STEPS, "--count", "5"],
        input,
    );
    orders.text.starts_with(b"orders 5 same\n")
        && after(&orders.text, b"orders 5 same") == run.text.as_slice()
        && orders.status == run.status
}
