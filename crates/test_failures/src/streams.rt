//! Readers and writers that fail, under every command. For each command line and its input: a reader that gives one byte for
//! each call, or seven, changes nothing. A reader that fails at any of its calls gives `refused: input`. A writer that fails at
//! any byte, with an error or by taking nothing, gets exactly the bytes before that one, and the status is 1. Prints how often
//! each failed, and `agree`, or the first answer that differs.

mod cases;
mod trials;

use cases::{CASES, Input, Inputs};
use std::alloc::Global;
use std::io::{self, Write};
use std::sync::Wait;
use std::thread::Threads;
use test_served::answer;
use trials::Trial;

/// Whether all answers agree. Prints that for each command line, or which answer differs.
pub fn agree<R: Threads + Wait + Sync, W: Write>(
    rt: &R,
    alloc: Global,
    out: &mut W,
) -> io::Result<bool> {
    let inputs = Inputs::new(rt, alloc)?;
    for case in CASES {
        let input = inputs.bytes(case.input);
        let whole = answer(rt, alloc, case.words, input);
        let trial = Trial::new(case, input, &whole);
        let Some(failures) = trial.run(rt, alloc, out)? else {
            return Ok(false);
        };
        if case.input == Input::Help {
            writeln!(out, "{}: at each byte", case.name)?;
        } else {
            writeln!(out, "{}: {failures}", case.name)?;
        }
    }
    writeln!(out, "agree")?;
    Ok(true)
}
