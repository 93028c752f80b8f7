//! One command line, in which each growth is refused in turn.

use crate::growths::rows::{Answer, Row};
use commands::serving::serve;
use rounds::Open;
use std::alloc::Global;
use std::fmt;
use std::sync::Wait;
use std::thread::Threads;
use test_inputs::rationed::{Rationed, is_next_refused};
use test_served::Outcome;

/// More growths than any of the command lines has.
const ENOUGH: u64 = 100_000;

/// How often a growth was refused, and how that was reported.
#[derive(Clone, Copy)]
pub struct Refusals {
    /// Reported by a line in place of an answer.
    pub before: u64,
    /// Reported by a report with the end `Memory`.
    pub within: u64,
}

impl fmt::Display for Refusals {
    fn fmt<W: fmt::Write>(&self, f: &mut fmt::Formatter<W>) -> fmt::Result {
        write!(
            f,
            "{} growths refused before a run, {} in it, and then none",
            self.before, self.within
        )
    }
}

/// The answer where growth number `ration`, counted from 1, is refused; and whether there was one growth fewer than that. An
/// allocator that has refused once grants all growths after it.
fn rationed_answer<R: Threads + Wait + Sync>(
    rt: &R,
    alloc: Global,
    row: &Row<'_>,
    ration: u64,
) -> (Outcome, bool) {
    let heap = Rationed::new(alloc, ration);
    let mut text = Vec::new(alloc);
    let mut reader = row.input;
    let status = serve(row.words, &mut reader, &mut text, &heap, alloc, rt, &Open);
    let is_over = is_next_refused(&heap);
    (Outcome { text, status }, is_over)
}

/// Whether the line says that an output is missing.
fn is_missing(line: &[u8]) -> bool {
    line.starts_with(b"output ") && line.ends_with(b" -")
}

/// The line; that of an event without the number, which is another where events before it are missing.
fn without_number(line: &[u8]) -> &[u8] {
    let Some(rest) = line.strip_prefix(b"event ") else {
        return line;
    };
    match rest.iter().position(|byte| *byte == b' ') {
        Some(end) => rest.get(end..).unwrap_or(rest),
        None => rest,
    }
}

/// Whether the line is in the text; that of an event perhaps with another number.
fn has_line(text: &[u8], wanted: &[u8]) -> bool {
    text.split(|byte| *byte == b'\n')
        .any(|line| without_number(line) == without_number(wanted))
}

/// Whether the line says something that the whole text says, too, where it says anything of the run.
fn is_known(line: &[u8], whole: &[u8]) -> bool {
    let tells = [b"output ".as_slice(), b"cell ", b"event "];
    !tells.iter().any(|word| line.starts_with(*word)) || is_missing(line) || has_line(whole, line)
}

/// Whether all outputs, cells and events that a report with the end `Memory` has are also in the whole text.
fn is_part(text: &[u8], whole: &[u8]) -> bool {
    text.split(|byte| *byte == b'\n')
        .all(|line| is_known(line, whole))
}

/// The line without a comma at its end.
fn without_comma(line: &[u8]) -> &[u8] {
    line.strip_suffix(b",").unwrap_or(line)
}

/// Whether the text is a list in JSON that has only lines of the whole one.
fn is_json_part(text: &[u8], whole: &[u8]) -> bool {
    text.ends_with(b"\n]}\n")
        && text.split(|byte| *byte == b'\n').all(|line| {
            whole
                .split(|byte| *byte == b'\n')
                .any(|wanted| without_comma(wanted) == without_comma(line))
        })
}

/// Whether the answer says that a growth was refused in a run, and nothing of the run that the whole answer does not say.
fn is_reported(row: &Row<'_>, answer: &Outcome) -> bool {
    let text = answer.text.as_slice();
    match row.answer {
        Answer::Text => false,
        Answer::Report => {
            answer.status == 6 && text.ends_with(b"\nend Memory\n") && is_part(text, row.wanted)
        }
        Answer::Json => answer.status == 6 && is_json_part(text, row.wanted),
        Answer::Orders => {
            answer.status == 1
                && text.starts_with(b"orders differ\norder 1\n")
                && has_line(text, b"end Memory")
                && is_part(text, row.wanted)
        }
    }
}

/// Whether the answer is the whole one.
fn is_whole(row: &Row<'_>, answer: &Outcome) -> bool {
    answer.status == row.status && answer.text.as_slice() == row.wanted
}

/// How often a growth is refused before none is, if each refusal is reported and the last answer is the whole one. Else an `Err` with
/// the number of the growth where that is not so.
pub fn refuse_each<R: Threads + Wait + Sync>(
    rt: &R,
    alloc: Global,
    row: &Row<'_>,
) -> Result<Refusals, u64> {
    let mut refusals = Refusals {
        before: 0,
        within: 0,
    };
    for ration in 1..ENOUGH {
        let (answer, is_over) = rationed_answer(rt, alloc, row, ration);
        let text = answer.text.as_slice();
        if is_over {
            return if is_whole(row, &answer) {
                Ok(refusals)
            } else {
                Err(ration)
            };
        }
        if answer.status == 1 && text == b"refused: memory\n".as_slice() {
            refusals.before = refusals.before.wrapping_add(1);
        } else if is_reported(row, &answer) {
            refusals.within = refusals.within.wrapping_add(1);
        } else {
            return Err(ration);
        }
    }
    Err(ENOUGH)
}
