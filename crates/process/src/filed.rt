//! The process where its words name a file.

ghost use Rattle.std.specs.Prelude.{◌≡◌, ◌≤◌, ◌⊎◌, MatchResult, drop, length, map};
ghost use Rattle.std.specs.Io.KnownBytes.{Keeps};
ghost use Rattle.std.specs.IoError.{error_kind};
ghost use Rattle.std.specs.declared.io.ErrorKind.{ErrorKind};
ghost use Rattle.command_line.specs.Files.{given};
ghost use Rattle.process.specs.Hinted.{accounts_by_hint};
ghost use Rattle.process.specs.Files.{EndsGiven, EndsRead, EndsUnread, EndsOver, Warns};

use crate::answering::answer_read;
use crate::explaining::{Explain, Hints};
use crate::folder::{Folder, read_named};
use crate::sending::{HintSent, send_hint};
use crate::{Ended, exit_status, run_explained};
use command_line::{FileName, FileRequest, Given, Request, read_given};
use commands::filed::input_of;
use commands::serving::arguments_of;
use driver::resources::Resources;
use files::{Content, Reads, Unread, content_of, reads_of, send_unread};
use outcomes::Refusal;
use rounds::Open;
use sink::send;
use std::alloc::Global;
use std::convert::AsStr;
use std::io::{self, BufWriter, Read, Write};
use std::sync::Wait;
use std::thread::Threads;
use warnings::warnings_text;

/// The exit status where a file cannot be read.
const UNREAD: u8 = 1;

/// The name of a file, as text.
fn text_of<'a>(name: &FileName<'a>) -> &'a str
    ensures { result.now ≡ name.now }
{
    name.text
}

/// Says that the file cannot be read.
fn run_unread<I, W: Write, E: Write>(
    file: &FileRequest<'_>,
    unread: Unread,
    reader: I,
    writer: W,
    errors: &mut E,
) -> Ended<I, W>
    ensures { EndsUnread file.now (W.contents writer) (W.contents result.writer) (E.contents errors.old) (E.contents errors.new) result.outcome result.status }
{
    let _is_told = send_unread(errors, text_of(&file.name), unread).is_ok();
    Ended {
        outcome: None,
        status: UNREAD,
        hint_sent: HintSent::Nothing,
        reader,
        writer,
    }
}

/// The text of the program in these bytes, where the command of this request works on its graph.
fn program_in<'a>(bytes: &'a [u8], request: &Request) -> Option<&'a [u8]> {
    match (content_of(bytes), reads_of(request)) {
        (Content::Program, Reads::Inputs | Reads::Graph) => Some(bytes),
        _ => None,
    }
}

/// Whether the command of this request lowers the program that these bytes have.
fn lowers_program(bytes: &[u8], request: &Request) -> bool {
    match content_of(bytes) {
        Content::Program => {
            matches!(request, Request::Lower(_)) || reads_of(request) != Reads::Bytes
        }
        Content::Graph | Content::Object => false,
    }
}

/// The warnings of the program that these bytes have; none where the command does not lower it, or memory is refused.
fn warnings_of(alloc: Global, bytes: &[u8], request: &Request) -> Vec<u8> {
    if lowers_program(bytes, request) {
        if let Ok(lines) = warnings_text(&alloc, bytes) {
            return lines;
        }
    }
    Vec::new(alloc)
}

/// Writes the warnings to standard error, unless they are to be left out.
fn send_warnings<E: Write>(alloc: Global, bytes: &[u8], file: &FileRequest<'_>, errors: &mut E)
    ensures { Warns file.now.options.quiet (E.contents errors.old) (E.contents errors.new) }
{
    if !file.options.quiet {
        let lines = warnings_of(alloc, bytes, &file.request);
        let _is_told = send(errors, &lines).is_ok();
    }
}

/// What the command read of the file with these bytes; where that is nothing, the file.
fn shown_of<'a>(input: &'a Result<Vec<u8>, Refusal>, bytes: &'a [u8]) -> &'a [u8]
    ensures { MatchResult input.now (λ v. result.now ≡ v.items) (λ _. result.now ≡ bytes.now) }
{
    match input {
        Ok(input) => input.as_slice(),
        Err(_refusal) => bytes,
    }
}

/// Runs the process over the bytes of the file.
fn run_read<X: Explain, S: AsStr, I: Drop, W: Write + Drop, E: Write, R: Threads + Wait + Sync>(
    words: &[S],
    file: &FileRequest<'_>,
    bytes: &[u8],
    reader: I,
    writer: W,
    errors: &mut E,
    explainer: &X,
    resources: Resources<'_, Global, R, Open>,
) -> io::Result<Ended<I, W>>
    requires { length bytes.now ≤ 67108864 }
    ensures { MatchResult result
        (λ e. EndsOver X.accounts (map S.text (drop 1 words.now)) file.now bytes.now (W.contents writer) (W.contents e.writer)
        (E.contents errors.old) (E.contents errors.new) e.outcome e.status e.hint_sent)
        (λ e. (error_kind e ≡ ErrorKind.OutOfMemory) × Keeps (E.contents errors.old) (E.contents errors.new)) }
{
    let alloc = resources.alloc;
    let mut writer = BufWriter::new(alloc, writer)?;
    let input = input_of(&alloc, bytes, &file.request, &file.inputs);
    let outcome = answer_read(words, file, bytes, &input, &mut writer, resources);
    let (writer, _unwritten) = writer.into_parts();
    send_warnings(alloc, bytes, file, errors);
    let program = program_in(bytes, &file.request);
    let shown = shown_of(&input, bytes);
    let hint_sent = send_hint(
        explainer,
        alloc,
        words,
        program,
        Some(shown),
        outcome,
        errors,
    );
    Ok(Ended {
        outcome,
        status: exit_status(outcome),
        hint_sent,
        reader,
        writer,
    })
}

/// Runs the process, where the words name this file.
fn run_file<
    X: Explain,
    F: Folder,
    S: AsStr,
    I: Read + Drop,
    W: Write + Drop,
    E: Write,
    R: Threads + Wait + Sync,
>(
    words: &[S],
    file: &FileRequest<'_>,
    reader: I,
    writer: W,
    errors: &mut E,
    explainer: &X,
    folder: &F,
    resources: Resources<'_, Global, R, Open>,
) -> io::Result<Ended<I, W>>
    ensures { MatchResult result
        (λ e. EndsRead X.accounts F.has (map S.text (drop 1 words.now)) file.now (I.remaining reader) (W.contents writer) (W.contents e.writer)
        (E.contents errors.old) (E.contents errors.new) e.outcome e.status e.hint_sent
        ⊎ EndsUnread file.now (W.contents writer) (W.contents e.writer) (E.contents errors.old) (E.contents errors.new) e.outcome e.status)
        (λ e. (error_kind e ≡ ErrorKind.OutOfMemory) × Keeps (E.contents errors.old) (E.contents errors.new)) }
{
    let mut reader = reader;
    match read_named(folder, &mut reader, resources.alloc, text_of(&file.name)) {
        Ok(bytes) => run_read(
            words, file, &bytes, reader, writer, errors, explainer, resources,
        ),
        Err(unread) => Ok(run_unread(file, unread, reader, writer, errors)),
    }
}

/// Runs the process, and lets `explainer` explain the run. `words` are the words of the command line, the program's name first; a
/// file that they name is one of `folder`, and the file `-` is the reader. An `Err` says that memory for the buffer of standard
/// output was refused: nothing was written or reported.
pub fn run_words<
    X: Explain,
    F: Folder,
    S: AsStr,
    I: Read + Drop,
    W: Write + Drop,
    E: Write,
    R: Threads + Wait + Sync,
>(
    words: &[S],
    reader: I,
    writer: W,
    errors: &mut E,
    explainer: &X,
    folder: &F,
    resources: Resources<'_, Global, R, Open>,
) -> io::Result<Ended<I, W>>
    ensures { MatchResult result
        (λ e. EndsGiven X.accounts F.has (map S.text (drop 1 words.now)) (I.remaining reader) (I.remaining e.reader) (W.contents writer)
        (W.contents e.writer) (E.contents errors.old) (E.contents errors.new) e.outcome e.status e.hint_sent (given (map S.text (drop 1 words.now))))
        (λ e. (error_kind e ≡ ErrorKind.OutOfMemory) × Keeps (E.contents errors.old) (E.contents errors.new)) }
{
    match read_given(arguments_of(words)) {
        Given::Words => run_explained(words, reader, writer, errors, explainer, resources),
        Given::Help(command) => {
            let words = ["ets", "help", command.word()];
            run_explained(&words, reader, writer, errors, explainer, resources)
        }
        Given::File(file) => run_file(
            words, &file, reader, writer, errors, explainer, folder, resources,
        ),
    }
}

/// Runs the process: `words` are the words of the command line, the program's name first; a file that they name is one of `folder`,
/// and the others are standard input, which is the file `-`, standard output and standard error. A hint that cannot be made or
/// written changes neither the status nor standard output. An `Err` says that memory for the buffer of standard output was refused:
/// nothing was written or reported.
pub fn run_program<
    F: Folder,
    S: AsStr,
    I: Read + Drop,
    W: Write + Drop,
    E: Write,
    R: Threads + Wait + Sync,
>(
    words: &[S],
    reader: I,
    writer: W,
    errors: &mut E,
    folder: &F,
    alloc: Global,
    rt: &R,
) -> io::Result<Ended<I, W>>
    ensures { MatchResult result
        (λ e. EndsGiven accounts_by_hint F.has (map S.text (drop 1 words.now)) (I.remaining reader) (I.remaining e.reader) (W.contents writer)
        (W.contents e.writer) (E.contents errors.old) (E.contents errors.new) e.outcome e.status e.hint_sent (given (map S.text (drop 1 words.now))))
        (λ e. (error_kind e ≡ ErrorKind.OutOfMemory) × Keeps (E.contents errors.old) (E.contents errors.new)) }
{
    let gate = &Open;
    let resources = Resources { alloc, rt, gate };
    run_words(words, reader, writer, errors, &Hints, folder, resources)
}
