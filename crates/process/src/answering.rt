//! The answer on standard output, and its outcome.

ghost use Rattle.std.specs.Prelude.{◌≡◌, [], IfSome, MatchResult, Ok, drop, map, option_map};
ghost use Rattle.std.specs.Io.Buffered.{writer_buffer, writer_contents, writer_inner};
ghost use Rattle.std.specs.Io.KnownBytes.{Keeps};
ghost use Rattle.commands.specs.Served.{Refuses};
ghost use Rattle.mapped.specs.Paned.{PrintsFilePage};
ghost use Rattle.process.specs.Process.{Answers};
ghost use Rattle.process.specs.Files.{AnswersInput, Chosen, Json, Mapped, Picked, PrintsInput, Shown, asks_json, page_asked};

use chosen_cells::write_chosen;
use command_line::{FileOptions, FileRequest, Format, Request, RunOptions, option_value};
use commands::filed::answer_input;
use commands::serving::{arguments_of, refuse, serve_words};
use driver::resources::Resources;
use json_text::write_json;
use mapped::{print_code_map, print_file_page};
use outcomes::{Outcome, Refusal};
use rounds::Open;
use std::alloc::{Allocator, Global};
use std::convert::AsStr;
use std::io::{self, BufWriter, Read, Write};
use std::sync::Wait;
use std::thread::Threads;

/// The line of a refusal of memory.
const MEMORY: &[u8] = b"refused: memory\n";

/// Writes out all that the buffer holds. Gives the outcome, where no write failed.
fn flushed<W: Write + Drop, A: Allocator>(
    writer: &mut BufWriter<W, A>,
    served: io::Result<Outcome>,
) -> Option<Outcome>
    ensures kept { Keeps (writer_contents W.contents writer.old) (writer_contents W.contents writer.new) }
    ensures whole { IfSome result (λ outcome. (served ≡ Ok outcome) × (writer_buffer writer.new ≡ [])) }
{
    match writer.flush() {
        Ok(()) => served.ok(),
        Err(_fault) => None,
    }
}

/// Serves the words, and writes out all that the buffer holds. Gives the outcome, where no write failed.
pub fn answer<S: AsStr, I: Read, W: Write + Drop, R: Threads + Wait + Sync>(
    words: &[S],
    reader: &mut I,
    writer: &mut BufWriter<W>,
    resources: Resources<'_, Global, R, Open>,
) -> Option<Outcome>
    ensures { Answers (map S.text (drop 1 words.now)) (I.remaining reader.old) (writer_contents W.contents writer.old)
        (W.contents (writer_inner writer.new)) result }
{
    let global = resources.alloc;
    let served = serve_words(words, reader, writer, resources, global);
    flushed(writer, served)
}

/// The options and the last events of the page that is asked for, if one is.
fn page_asked(request: &Request) -> Option<(&RunOptions, Option<u64>)>
    ensures { option_map (λ p. (p.0.now, p.1)) result ≡ page_asked request.now }
{
    match request {
        Request::Trace {
            options,
            last,
            format: Format::Html,
        } => Some((options, *last)),
        _ => None,
    }
}

/// Prints the page of a run of this input, which was read of a file with these bytes, or the refusal.
fn answer_page<W: Write, R: Threads + Wait + Sync>(
    bytes: &[u8],
    options: &RunOptions,
    last: Option<u64>,
    input: &Result<Vec<u8>, Refusal>,
    writer: &mut W,
    resources: Resources<'_, Global, R, Open>,
) -> io::Result<Outcome>
    ensures { MatchResult input.now (λ v. PrintsFilePage result (W.contents writer.old) (W.contents writer.new) bytes.now v.items options.now last)
        (Refuses result (W.contents writer.old) (W.contents writer.new)) }
{
    match input {
        Ok(input) => print_file_page(resources, bytes, input, options, last, writer),
        Err(refusal) => refuse(writer, refusal),
    }
}

/// Prints what is asked for of this input, which was read of a file with these bytes, or the refusal.
fn answer_over<W: Write, R: Threads + Wait + Sync>(
    bytes: &[u8],
    request: &Request,
    input: &Result<Vec<u8>, Refusal>,
    writer: &mut W,
    resources: Resources<'_, Global, R, Open>,
) -> io::Result<Outcome>
    ensures { PrintsInput bytes.now request.now input.now result (W.contents writer.old) (W.contents writer.new) }
{
    match page_asked(request) {
        Some((options, last)) => answer_page(bytes, options, last, input, writer, resources),
        None => answer_input(request, input, writer, resources),
    }
}

/// Prints what is chosen of the text that is asked for of this input.
fn answer_chosen<W: Write, R: Threads + Wait + Sync>(
    cells: Option<&str>,
    grid: Option<&str>,
    bytes: &[u8],
    request: &Request,
    input: &Result<Vec<u8>, Refusal>,
    writer: &mut W,
    resources: Resources<'_, Global, R, Open>,
) -> io::Result<Outcome>
    ensures { Chosen (λ s o a. PrintsInput bytes.now request.now input.now s o a) (option_map (λ s. s.now) cells.entry) (option_map (λ s. s.now) grid.entry)
        result (W.contents writer.old) (W.contents writer.new) }
{
    let Resources { alloc, rt, gate } = resources;
    let mut text = Vec::new(alloc);
    match answer_over(
        bytes,
        request,
        input,
        &mut text,
        Resources { alloc, rt, gate },
    ) {
        Ok(outcome) => match write_chosen(writer, cells, grid, &text) {
            Ok(()) => Ok(outcome),
            Err(fault) => Err(fault),
        },
        Err(_refused) => {
            let refused: Result<Vec<u8>, Refusal> = Err(Refusal::Memory);
            answer_over(
                bytes,
                request,
                &refused,
                writer,
                Resources { alloc, rt, gate },
            )
        }
    }
}

/// Prints what is asked for of this input with these words, which give these options, as text; or the refusal.
fn answer_picked<S: AsStr, W: Write, R: Threads + Wait + Sync>(
    words: &[S],
    options: FileOptions,
    bytes: &[u8],
    request: &Request,
    input: &Result<Vec<u8>, Refusal>,
    writer: &mut W,
    resources: Resources<'_, Global, R, Open>,
) -> io::Result<Outcome>
    ensures { Picked options (map S.text (drop 1 words.now)) (λ s o a. PrintsInput bytes.now request.now input.now s o a) result (W.contents writer.old)
        (W.contents writer.new) }
{
    if options.cells || options.grid {
        let words = arguments_of(words);
        let cells = option_value("cells", words);
        let grid = option_value("grid", words);
        answer_chosen(cells, grid, bytes, request, input, writer, resources)
    } else {
        answer_over(bytes, request, input, writer, resources)
    }
}

/// Prints the JSON of that. Where memory for the text is refused, it is that of the refusal.
fn answer_json<S: AsStr, W: Write, R: Threads + Wait + Sync>(
    words: &[S],
    options: FileOptions,
    bytes: &[u8],
    request: &Request,
    input: &Result<Vec<u8>, Refusal>,
    writer: &mut W,
    resources: Resources<'_, Global, R, Open>,
) -> io::Result<Outcome>
    ensures { Json (λ s o a. Picked options (map S.text (drop 1 words.now)) (λ s o a. PrintsInput bytes.now request.now input.now s o a) s o a) result
        (W.contents writer.old) (W.contents writer.new) }
{
    let mut text = Vec::new(resources.alloc);
    match answer_picked(words, options, bytes, request, input, &mut text, resources) {
        Ok(outcome) => match write_json(writer, &text) {
            Ok(()) => Ok(outcome),
            Err(fault) => Err(fault),
        },
        Err(_refused) => match write_json(writer, MEMORY) {
            Ok(()) => Ok(Outcome::Refused(Refusal::Memory)),
            Err(fault) => Err(fault),
        },
    }
}

/// Whether the words, which give these options, ask for JSON.
fn asks_json<S: AsStr>(words: &[S], options: FileOptions) -> bool
    ensures { result ≡ asks_json options (map S.text (drop 1 words.now)) }
{
    options.format
        && match option_value("format", arguments_of(words)) {
            Some(format) => format == "json",
            None => false,
        }
}

/// Prints what is asked for of this input with these words, which give these options; or the refusal.
fn answer_shown<S: AsStr, W: Write, R: Threads + Wait + Sync>(
    words: &[S],
    options: FileOptions,
    bytes: &[u8],
    request: &Request,
    input: &Result<Vec<u8>, Refusal>,
    writer: &mut W,
    resources: Resources<'_, Global, R, Open>,
) -> io::Result<Outcome>
    ensures { Shown options (map S.text (drop 1 words.now)) (λ s o a. PrintsInput bytes.now request.now input.now s o a) result (W.contents writer.old)
        (W.contents writer.new) }
{
    if asks_json(words, options) {
        answer_json(words, options, bytes, request, input, writer, resources)
    } else {
        answer_picked(words, options, bytes, request, input, writer, resources)
    }
}

/// Prints that, or the map of the code of the file with these bytes, if the options ask for it.
fn answer_mapped<S: AsStr, W: Write, R: Threads + Wait + Sync>(
    words: &[S],
    file: &FileRequest<'_>,
    bytes: &[u8],
    input: &Result<Vec<u8>, Refusal>,
    writer: &mut W,
    resources: Resources<'_, Global, R, Open>,
) -> io::Result<Outcome>
    ensures { Mapped file.now.options.map bytes.now
        (λ s o a. Shown file.now.options (map S.text (drop 1 words.now)) (λ s o a. PrintsInput bytes.now file.now.request input.now s o a) s o a) result
        (W.contents writer.old) (W.contents writer.new) }
{
    if file.options.map {
        print_code_map(resources.alloc, bytes, writer)
    } else {
        answer_shown(
            words,
            file.options,
            bytes,
            &file.request,
            input,
            writer,
            resources,
        )
    }
}

/// Prints what is asked for of this input with these words, which give these options, or the refusal; or of the file with these bytes,
/// where the map of its code is asked for; and writes out all that the buffer holds. Gives the outcome, where no write failed.
pub fn answer_read<S: AsStr, W: Write + Drop, R: Threads + Wait + Sync>(
    words: &[S],
    file: &FileRequest<'_>,
    bytes: &[u8],
    input: &Result<Vec<u8>, Refusal>,
    writer: &mut BufWriter<W>,
    resources: Resources<'_, Global, R, Open>,
) -> Option<Outcome>
    ensures { AnswersInput file.now.options (map S.text (drop 1 words.now)) bytes.now file.now.request input.now (writer_contents W.contents writer.old)
        (W.contents (writer_inner writer.new)) result }
{
    let served = answer_mapped(words, file, bytes, input, writer, resources);
    flushed(writer, served)
}
