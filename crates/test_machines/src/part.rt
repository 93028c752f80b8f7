//! A part of the machine that a section of a script is about.

use crate::tally::{Line, Tally};
use crate::words::Words;
use std::alloc::{AllocError, Global};
use test_inputs::rationed::Rationed;

/// The memory that a section has.
pub type Heap<'h> = &'h Rationed<Global>;

/// What is played.
pub trait Part {
    /// Does what a line says, and writes the answer. `None` where it is not understood.
    fn act(&mut self, words: &mut Words<'_>, answer: &mut String) -> Option<()>;
}

/// Plays lines, one after another, on the part that has this memory.
pub fn play<P: Part>(
    part: &mut P,
    heap: Heap<'_>,
    lines: &[Line<'_>],
    tally: &mut Tally,
) -> Result<(), AllocError> {
    for line in lines {
        let quiet = line.operation.strip_prefix("quietly ");
        let mut words = Words::of(quiet.unwrap_or(line.operation));
        let mut answer = String::new(tally.alloc);
        let left = heap.left();
        if part.act(&mut words, &mut answer).is_none() {
            answer.push_str("not understood")?;
        }
        if quiet.is_some() && heap.left() != left {
            answer.push_str(", and took memory")?;
        }
        tally.take(line, answer.as_str())?;
    }
    Ok(())
}
