//! The process: what the program does with its words and with its three streams. It serves the words, writes out what the buffer
//! of standard output holds, and then writes to standard error what explains the run, if anything does.
#![tactic(auto)]

mod answering;
mod explaining;
mod filed;
mod folder;
mod sending;

ghost use Rattle.std.specs.Prelude.{◌≡◌, IfOk, MatchResult, drop, map};
ghost use Rattle.std.specs.Io.KnownBytes.{Keeps};
ghost use Rattle.std.specs.IoError.{error_kind};
ghost use Rattle.std.specs.declared.io.ErrorKind.{ErrorKind};
ghost use Rattle.hints.specs.Hints.{wants_hint};
ghost use Rattle.process.specs.Process.{Ends, IsWanted, exits};
ghost use Rattle.process.specs.Hinted.{accounts_by_hint};

use answering::answer;
use driver::resources::Resources;
pub use explaining::{Explain, Hints};
pub use filed::{run_program, run_words};
pub use folder::{Folder, SystemFiles};
use keeping::{KeepingReader, Start};
use outcomes::Outcome;
use rounds::Open;
pub use sending::HintSent;
use sending::send_hint;
use std::alloc::Global;
use std::convert::AsStr;
use std::io::{self, BufWriter, Read, Write};
use std::marker::Brand;
use std::sync::Wait;
use std::thread::Threads;

/// What a process leaves.
#[derive(Drop)]
pub struct Ended<I, W> {
    /// The outcome of the words. `None` where a write failed, or where the file that they name could not be read.
    pub outcome: Option<Outcome>,
    /// The exit status.
    pub status: u8,
    /// What was reported on standard error.
    pub hint_sent: HintSent,
    /// Standard input, with what was not read.
    pub reader: I,
    /// Standard output, with all that was written.
    pub writer: W,
}

/// The exit status of a failed write.
const FAILED: u8 = 1;

/// The exit status for the outcome of the words.
fn exit_status(outcome: Option<Outcome>) -> u8
    ensures { result ≡ exits outcome }
{
    match outcome {
        Some(outcome) => outcome.status(),
        None => FAILED,
    }
}

/// Runs the process. Keeping begins with this reader.
fn run_from<
    B: Start,
    X: Explain,
    S: AsStr,
    I: Read + Drop,
    W: Write + Drop,
    E: Write,
    R: Threads + Wait + Sync,
>(
    words: &[S],
    reader: I,
    writer: W,
    errors: &mut E,
    explainer: &X,
    resources: Resources<'_, Global, R, Open>,
) -> io::Result<Ended<I, W>>
    requires { B.remaining ≡ I.remaining reader }
    ensures { MatchResult result
        (λ e. Ends X.accounts (map S.text (drop 1 words.now)) (I.remaining reader) (I.remaining e.reader) (W.contents writer) (W.contents e.writer)
        (E.contents errors.old) (E.contents errors.new) e.outcome e.status e.hint_sent)
        (λ e. (error_kind e ≡ ErrorKind.OutOfMemory) × Keeps (E.contents errors.old) (E.contents errors.new)) }
{
    let alloc = resources.alloc;
    let mut reader: KeepingReader<I, Global, B> = KeepingReader::new(alloc, reader);
    let mut writer = BufWriter::new(alloc, writer)?;
    let outcome = answer(words, &mut reader, &mut writer, resources);
    let (writer, _unwritten) = writer.into_parts();
    let input = reader.kept();
    let hint_sent = send_hint(explainer, alloc, words, None, input, outcome, errors);
    Ok(Ended {
        outcome,
        status: exit_status(outcome),
        hint_sent,
        reader: reader.into_inner(),
        writer,
    })
}

/// Runs the process, and lets `explainer` explain the run. `words` are the words of the command line, the program's name first.
/// An `Err` says that memory for the buffer of standard output was refused: nothing was read, written or reported.
pub fn run_explained<
    X: Explain,
    S: AsStr,
    I: Read + Drop,
    W: Write + Drop,
    E: Write,
    R: Threads + Wait + Sync,
>(
    words: &[S],
    reader: I,
    writer: W,
    errors: &mut E,
    explainer: &X,
    resources: Resources<'_, Global, R, Open>,
) -> io::Result<Ended<I, W>>
    ensures { MatchResult result
        (λ e. Ends X.accounts (map S.text (drop 1 words.now)) (I.remaining reader) (I.remaining e.reader) (W.contents writer) (W.contents e.writer)
        (E.contents errors.old) (E.contents errors.new) e.outcome e.status e.hint_sent)
        (λ e. (error_kind e ≡ ErrorKind.OutOfMemory) × Keeps (E.contents errors.old) (E.contents errors.new)) }
{
    run_from::<Brand, X, S, I, W, E, R>(words, reader, writer, errors, explainer, resources)
}

/// Runs the process: `words` are the words of the command line, the program's name first, and the others are standard input,
/// standard output and standard error. A hint that cannot be made or written changes neither the status nor standard output. An
/// `Err` says that memory for the buffer of standard output was refused: nothing was read, written or reported.
pub fn run_process<S: AsStr, I: Read + Drop, W: Write + Drop, E: Write, R: Threads + Wait + Sync>(
    words: &[S],
    reader: I,
    writer: W,
    errors: &mut E,
    alloc: Global,
    rt: &R,
) -> io::Result<Ended<I, W>>
    ensures ends { MatchResult result
        (λ e. Ends accounts_by_hint (map S.text (drop 1 words.now)) (I.remaining reader) (I.remaining e.reader) (W.contents writer)
        (W.contents e.writer) (E.contents errors.old) (E.contents errors.new) e.outcome e.status e.hint_sent)
        (λ e. (error_kind e ≡ ErrorKind.OutOfMemory) × Keeps (E.contents errors.old) (E.contents errors.new)) }
    ensures wants { IfOk result (λ e. IsWanted (wants_hint e.outcome) e.hint_sent) }
{
    let gate = &Open;
    let resources = Resources { alloc, rt, gate };
    run_explained(words, reader, writer, errors, &Hints, resources)
}
