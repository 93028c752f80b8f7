//! Runs the program in memory.

use anyhow::ensure;
use std::alloc::Global;
use std::sync::Wait;
use std::thread::Threads;
use test_served::answer;

/// What the program prints. It has to end with status 0.
pub fn printed<R: Threads + Wait + Sync>(
    rt: &R,
    alloc: Global,
    words: &[&str],
    input: &[u8],
) -> anyhow::Result<Vec<u8>> {
    let outcome = answer(rt, alloc, words, input);
    ensure!(outcome.status == 0, "status {}", outcome.status);
    Ok(outcome.text)
}
