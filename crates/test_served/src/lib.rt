//! The whole program in memory, for programs that test it: words and an input in, a text and a status out.
#![tactic(auto)]

pub mod ways;

use commands::serving::serve;
use rounds::Open;
use std::alloc::Global;
use std::sync::Wait;
use std::thread::Threads;

/// What the program printed, and its exit status.
#[derive(Drop)]
pub struct Outcome {
    pub text: Vec<u8>,
    pub status: u8,
}

/// What the program prints for these words of a command line on this input.
pub fn answer<R: Threads + Wait + Sync>(
    rt: &R,
    alloc: Global,
    words: &[&str],
    input: &[u8],
) -> Outcome {
    let mut text = Vec::new(alloc);
    let mut reader = input;
    let status = serve(words, &mut reader, &mut text, alloc, alloc, rt, &Open);
    Outcome { text, status }
}

/// Whether what these words list of the object is assembled as the same object.
fn has_listing<R: Threads + Wait + Sync>(
    rt: &R,
    alloc: Global,
    words: &[&str],
    object: &[u8],
) -> bool {
    let listing = answer(rt, alloc, words, object);
    let again = answer(rt, alloc, &["ets", "asm"], &listing.text);
    listing.status == 0 && again.status == 0 && again.text.as_slice() == object
}

/// Whether the object's listing is assembled as the same object.
pub fn reassembles<R: Threads + Wait + Sync>(rt: &R, alloc: Global, object: &[u8]) -> bool {
    has_listing(rt, alloc, &["ets", "dis"], object)
}

/// Whether the object's listing with its literals is assembled as the same object.
pub fn reassembles_with_literals<R: Threads + Wait + Sync>(
    rt: &R,
    alloc: Global,
    object: &[u8],
) -> bool {
    has_listing(rt, alloc, &["ets", "dis", "--literals"], object)
}
