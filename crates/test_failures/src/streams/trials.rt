//! The trials of one command line.

use crate::streams::cases::{Case, Input};
use commands::serving::serve;
use rounds::Open;
use std::alloc::Global;
use std::fmt;
use std::io::{self, Write};
use std::sync::Wait;
use std::thread::Threads;
use test_inputs::rationed::reader::Feeder;
use test_inputs::rationed::writer::{Failure, Taker, WRITERS};
use test_served::Outcome;

/// More calls than any reader gets.
const ENOUGH: u64 = 1_000_000;

/// How many readers and how many writers failed.
#[derive(Drop)]
pub struct Failures {
    bytes: usize,
    status: u8,
    reads: u64,
    writes: u64,
}

impl fmt::Display for Failures {
    fn fmt<W: fmt::Write>(&self, f: &mut fmt::Formatter<W>) -> fmt::Result {
        write!(
            f,
            "{} bytes, status {}; {} readers and {} writers that fail",
            self.bytes, self.status, self.reads, self.writes
        )
    }
}

/// A command line, its input, and its answer where nothing fails.
#[derive(Drop)]
pub struct Trial<'a> {
    case: Case,
    input: &'a [u8],
    whole: &'a Outcome,
}

impl<'a> Trial<'a> {
    pub fn new(case: Case, input: &'a [u8], whole: &'a Outcome) -> Trial<'a> {
        Trial { case, input, whole }
    }

    /// The answer over a reader that gives `chunk` bytes for each call and fails after `calls` calls.
    fn fed<R: Threads + Wait + Sync>(
        &self,
        rt: &R,
        alloc: Global,
        chunk: usize,
        calls: u64,
    ) -> Outcome {
        let mut text = Vec::new(alloc);
        let mut reader = Feeder {
            rest: self.input,
            chunk,
            calls,
        };
        let words = self.case.words;
        let status = serve(words, &mut reader, &mut text, alloc, alloc, rt, &Open);
        Outcome { text, status }
    }

    fn is_whole(&self, answer: &Outcome) -> bool {
        answer.status == self.whole.status && answer.text.as_slice() == self.whole.text.as_slice()
    }

    /// How many calls a reader gets that gives `chunk` bytes for each call. The last call finds the end.
    fn calls(&self, chunk: usize) -> u64 {
        if matches!(self.case.input, Input::Nothing | Input::Help) {
            return 0;
        }
        let full = self.input.len().div_ceil(chunk.max(1));
        (full as u64).wrapping_add(1)
    }

    /// How often a reader of `chunk` bytes for each call fails, if each failure is reported and nothing else is.
    fn reads<R: Threads + Wait + Sync>(&self, rt: &R, alloc: Global, chunk: usize) -> Option<u64> {
        let calls = self.calls(chunk);
        for granted in 0..calls {
            let answer = self.fed(rt, alloc, chunk, granted);
            if answer.status != 1 || answer.text.as_slice() != b"refused: input\n".as_slice() {
                return None;
            }
        }
        if self.is_whole(&self.fed(rt, alloc, chunk, calls))
            && self.is_whole(&self.fed(rt, alloc, chunk, ENOUGH))
        {
            Some(calls)
        } else {
            None
        }
    }

    /// Whether a writer that takes `chunk` bytes for each call and has room for `room` bytes gets a beginning of the answer.
    fn is_cut<R: Threads + Wait + Sync>(
        &self,
        rt: &R,
        alloc: Global,
        chunk: usize,
        room: usize,
        failure: Failure,
    ) -> bool {
        let mut writer = Taker::new(alloc, chunk, room, failure);
        let mut reader = self.input;
        let words = self.case.words;
        let status = serve(words, &mut reader, &mut writer, alloc, alloc, rt, &Open);
        let all = self.whole.text.as_slice();
        let wanted = if room < all.len() {
            1
        } else {
            self.whole.status
        };
        let kept = all.get(..room).unwrap_or(all);
        status == wanted && writer.taken.as_slice() == kept
    }

    /// How many writers fail, if each of them gets a beginning of the answer.
    fn writes<R: Threads + Wait + Sync>(&self, rt: &R, alloc: Global) -> Option<u64> {
        let mut failed = 0u64;
        let bytes = self.whole.text.len();
        for (failure, chunk) in WRITERS {
            for room in 0..bytes {
                if !self.is_cut(rt, alloc, chunk, room, failure) {
                    return None;
                }
                failed = failed.wrapping_add(1);
            }
            if !self.is_cut(rt, alloc, chunk, bytes, failure) {
                return None;
            }
        }
        Some(failed)
    }

    /// How many readers and writers failed, if all answers are as they should be. Else prints which answer is not.
    pub fn run<R: Threads + Wait + Sync, W: Write>(
        &self,
        rt: &R,
        alloc: Global,
        out: &mut W,
    ) -> io::Result<Option<Failures>> {
        let (Some(slow), Some(fast)) = (self.reads(rt, alloc, 1), self.reads(rt, alloc, 7)) else {
            writeln!(out, "{}: a reader that fails differs", self.case.name)?;
            return Ok(None);
        };
        let Some(writes) = self.writes(rt, alloc) else {
            writeln!(out, "{}: a writer that fails differs", self.case.name)?;
            return Ok(None);
        };
        Ok(Some(Failures {
            bytes: self.whole.text.len(),
            status: self.whole.status,
            reads: slow.wrapping_add(fast),
            writes,
        }))
    }
}
