//! The commands for objects and orders, on an example.

use commands::input::split_at_main;
use std::alloc::{AllocError, Global};
use std::str;
use std::sync::Wait;
use std::thread::Threads;
use test_served::{answer, reassembles, reassembles_with_literals};

/// The words that run an object on the integers of these lines.
fn exec_words<'a>(alloc: Global, lines: &'a [u8]) -> Result<Vec<&'a str>, AllocError> {
    let mut words: Vec<&'a str> = Vec::new(alloc);
    words.extend_from_slice(&["ets", "exec", "--"])?;
    for line in lines.split(|byte| *byte == b'\n') {
        if let Ok(word) = str::from_utf8(line)
            && !word.is_empty()
        {
            words.push(word)?;
        }
    }
    Ok(words)
}

/// Whether the line of a report names an array. A run gives its name, and an object's run its number.
fn names_array(line: &[u8]) -> bool {
    line.starts_with(b"cell ") || line.starts_with(b"end Clash ")
}

/// The report with the first word alone of each line that names an array.
fn nameless(alloc: Global, report: &[u8]) -> Result<Vec<u8>, AllocError> {
    let mut lines = Vec::new(alloc);
    for line in report.split(|byte| *byte == b'\n') {
        let kept = if names_array(line) {
            line.get(..4).unwrap_or(line)
        } else {
            line
        };
        lines.extend_from_slice(kept)?;
        lines.push(b'\n')?;
    }
    Ok(lines)
}

/// What is wrong with the example's object, its run, and its runs in random orders, if anything is: the object is not obtained again
/// from one of its listings; it runs in another way than its graph does; or the orders of a graph that comes to rest differ.
pub fn fault_of<R: Threads + Wait + Sync>(
    rt: &R,
    alloc: Global,
    input: &[u8],
) -> Result<Option<&'static str>, AllocError> {
    let (text, lines) = split_at_main(input);
    let object = answer(rt, alloc, &["ets", "compile"], text);
    if object.status != 0
        || !reassembles(rt, alloc, &object.text)
        || !reassembles_with_literals(rt, alloc, &object.text)
    {
        return Ok(Some("does not come back"));
    }
    let run = answer(rt, alloc, &["ets", "run"], input);
    let words = exec_words(alloc, lines)?;
    let exec = answer(rt, alloc, &words, &object.text);
    if exec.status != run.status || nameless(alloc, &exec.text)? != nameless(alloc, &run.text)? {
        return Ok(Some("runs in another way as an object"));
    }
    let orders = answer(rt, alloc, &["ets", "orders", "--count", "5"], input);
    if run.status == 0 && !orders.text.starts_with(b"orders 5 same\n") {
        return Ok(Some("has other values in another order"));
    }
    Ok(None)
}
