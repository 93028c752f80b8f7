//! Hints: what a person reads on standard error when a graph, an object or a listing is refused, when a report has an end
//! that is not rest, or when the words of a command line are a mistake. Hints change nothing on standard output. A hint is made
//! from the outcome of the words (`outcomes::Outcome`), from the words, and from the input that was read, which it quotes.
#![tactic(auto)]

ghost use Rattle.std.specs.Prelude.{◌≡◌, IfOk, is_some};
ghost use Rattle.hints.specs.Hints.{wants_hint};

mod blocks;
mod by_depth;
mod catalog;
mod faults;
mod fields;
mod graphs;
mod line;
mod line_list;
mod lines;
mod listings;
mod message;
mod more_faults;
mod objects;
mod programs;
mod readers;
mod runs;
mod sources;
mod texts;
mod words;

use by_depth::advised;
use catalog::{Text, found};
use command_line::{Asked, Given, Request, read_given, read_words};
use graphs::{code_fault, graph_fault};
pub use line::{Hint, Line};
use lines::{line_at, split_graph, text_of, word_at};
use listings::listing_fault;
use message::{Found, Special, nowhere};
use more_faults::{MoreFaults, more_faults};
use objects::object_fault;
use oracle::CallCounts;
use outcomes::{Ending, Outcome, Refusal};
use programs::{kind_cause, program_fault};
use readers::{ReaderCells, invocations_of, reader_cells};
use runs::{
    Case, Named, at_only_line, end_fault, given_fault, input_fault, is_of_object, memory_cause,
    not_at_rest, page_fault, profile_fault, start_fault, too_many_frames,
};
use semantics::report::End;
use sources::{Program, Sought, Source, places_of, program_of};
use std::alloc::{AllocError, Allocator};
use std::convert::AsStr;
use texts::text_fault;
use words::runs_graph;

/// How many frames a machine has at most: 1024 on each of 16 elements.
const FRAMES: usize = 16_384;

/// The greatest bound of a loop.
const BOUNDS: usize = 64;

/// What the input is, where it is something else than what the command reads.
fn other_input(input: &[u8], command: &str) -> Option<Text> {
    let group = match input {
        [] => "other/empty/",
        _ if input.starts_with(b"ETSOBJCT") => "other/object/",
        _ if input.starts_with(b"//") => "other/program/",
        _ if input.starts_with(b"refused: ") => "other/refusal/",
        _ => found("head/", text_of(word_at(input, 0)))?,
    };
    let reads = found("reads/", command).unwrap_or("graph");
    found(group, command).or(found(group, reads))
}

/// Why this input, which `command` reads, was refused.
fn of_input<'a>(case: &Case<'_, '_, 'a>, command: &'a str, refusal: Refusal) -> Option<Found<'a>> {
    let input = case.input?;
    if let Some(cause) = other_input(input, command) {
        let line = line_at(input, 1);
        return Some(Found::of(None, cause, [command; 2], [line; 3], [0; 6]));
    }
    // Commands that run the graph read the inputs of the run after it.
    let text = match runs_graph(case.request) {
        true => split_graph(input).0,
        false => input,
    };
    match refusal {
        Refusal::Read(refusal) => Some(text_fault(refusal, text, command)),
        Refusal::Check(refusal) => graph_fault(text, refusal),
        Refusal::TooManySlots(block) => code_fault(text, block, "too-many-slots"),
        Refusal::TooFar(block) => code_fault(text, block, "too-far"),
        Refusal::Object(_fault) => object_fault(input),
        Refusal::Asm(refusal) => Some(listing_fault(refusal, input)),
        Refusal::Program(refusal) => Some(program_fault(input, refusal)),
        Refusal::InputLine(number) => Some(input_fault(input, number)),
        Refusal::Input
        | Refusal::Start(_)
        | Refusal::TooManyFrames(_)
        | Refusal::NotAtRest
        | Refusal::Memory => None,
    }
}

/// Why the request of these words was refused. `None` where the place cannot be found, or the input was not kept.
fn placed<'a, S: AsStr>(
    case: &Case<'_, '_, 'a>,
    words: &'a [S],
    refusal: Refusal,
) -> Option<Found<'a>> {
    let (first, rest) = words.split_first()?;
    let command = match case.request {
        Request::Dot { code: true } => "dot --code",
        _ => first.as_str(),
    };
    match refusal {
        Refusal::Input | Refusal::Memory => None,
        Refusal::Start(fault) => start_fault(case, fault),
        Refusal::TooManyFrames(frames) => Some(too_many_frames(case.request, frames)),
        Refusal::NotAtRest => Some(not_at_rest(case.request)),
        Refusal::InputLine(number)
            if is_of_object(case.request) || case.named == Named::FileAndInputs => {
            given_fault(rest, number, case.named != Named::Nothing)
        }
        // A file has a program only where it is lowered.
        Refusal::Program(_) => of_input(case, "lower", refusal),
        _ => of_input(case, command, refusal),
    }
}

/// What is said of a refusal whose place is nowhere, or cannot be found.
fn unlocated<'a>(request: &Request, refusal: Refusal) -> Found<'a> {
    let (cause, kind) = match refusal {
        Refusal::Read(refusal) => ("kind", Special::Reading(refusal.fault().kind)),
        Refusal::Check(refusal) => ("kind", Special::Checking(refusal.fault().kind)),
        Refusal::Program(refusal) => {
            let kind = refusal.fault.kind;
            (kind_cause(kind), Special::Programming(kind))
        }
        Refusal::Input => ("unread", Special::Nothing),
        Refusal::Memory => (memory_cause(request), Special::Nothing),
        Refusal::Asm(_refusal) => ("assembling-fault", Special::Nothing),
        Refusal::Object(_fault) => ("object-refusal", Special::Nothing),
        _ => ("other-refusal", Special::Nothing),
    };
    nowhere(cause, [""; 2]).with([kind; 2])
}

/// What was asked for, and whether the words name a file and inputs. Words that ask for nothing have a mistake, and no
/// other outcome.
fn asked_of<S: AsStr>(words: &[S]) -> (Request, Named) {
    if let Given::File(file) = read_given(words) {
        let named = Named::after_file(&file.inputs);
        return (file.request, named);
    }
    match read_words(words) {
        Asked::Request(request) => (request, Named::Nothing),
        _ => (Request::Check, Named::Nothing),
    }
}

/// Why the words did not get what they asked for, where there is something to say.
fn cause_of<'a, S: AsStr>(
    words: &'a [S],
    program: Option<Program<'_, 'a>>,
    input: Option<&'a [u8]>,
    outcome: Option<Outcome>,
) -> Option<Found<'a>>
    ensures { is_some result ≡ wants_hint outcome }
{
    let (request, named) = asked_of(words);
    let request = &request;
    let case = Case {
        request,
        input,
        program,
        named,
    };
    match outcome {
        None => Some(nowhere("unwritten", [""; 2])),
        Some(Outcome::Done | Outcome::Drawn(_)) => None,
        Some(Outcome::Mistake) => Some(words::mistake(words)),
        Some(Outcome::Refused(refusal)) => {
            let found = placed(&case, words, refusal);
            Some(found.unwrap_or(unlocated(request, refusal)))
        }
        Some(Outcome::Reported(ending)) => end_fault(&case, ending),
        Some(Outcome::Profiled { end, failed }) => profile_fault(&case, end, failed),
        Some(Outcome::Paged { events, .. }) => page_fault(events),
        Some(Outcome::Differed) => Some(nowhere("orders-differ", [""; 2])),
    }
}

/// The cells that a hint names of a run that ended at rest: those for which readers wait, where its graph was read.
fn named_cells<A: Allocator + Clone>(
    alloc: A,
    input: Option<&[u8]>,
    outcome: Option<Outcome>,
) -> Result<Option<ReaderCells>, AllocError> {
    let Some(
        Outcome::Reported(
            Ending::Run {
                end: End::Rest,
                fault: None,
                ..
            },
        ),
    ) = outcome
    else {
        return Ok(None);
    };
    let cells = reader_cells(alloc, input.unwrap_or(b""))?;
    Ok((cells.count > 0).then_some(cells))
}

/// What is said of a run that wants frames, where the meaning calls for so much. `None` where no machine has so many frames, or where no loop's bound can be
/// as many as the iterations.
fn frames_cause(counts: CallCounts) -> Option<Text> {
    match counts.iterations {
        _ if counts.invocations >= FRAMES => None,
        0 => Some("no-frame-of-enough"),
        1..=BOUNDS => Some("no-frame-of-enough-bounds"),
        _ => None,
    }
}

/// What is said of a run that wants credits alone on a machine with so many frames, where the meaning calls for so much. `None` where these frames may be too
/// few.
fn credits_cause(counts: CallCounts, frames: u64) -> Option<Text> {
    match counts.iterations {
        _ if counts.invocations as u64 >= frames => None,
        0..=BOUNDS => Some("no-credit-of-enough"),
        _ => Some("no-credit-of-enough-own"),
    }
}

/// What is said of a run whose loops want credits alone, with the loops whose bounds are less than these iterations. Where that is one, it is the one whose
/// bound is too small, and its line is the place, if there is no other.
fn with_loops<'a>(found: Found<'a>, source: Source<'_, 'a>, iterations: u64) -> Found<'a> {
    let loops = source.lines(Sought::LoopsBelow(iterations));
    let found = found.with([Special::Loops(loops); 2]);
    at_only_line(found, source, loops)
}

/// The frames that suffice where a run of a graph wants frames, or credits though its frames suffice, with a cause that says so. `None` where that is not
/// known.
fn enough_frames<'a, A: Allocator + Clone>(
    alloc: A,
    found: &Found<'a>,
    program: Option<Program<'_, 'a>>,
    input: Option<&'a [u8]>,
) -> Result<Option<Found<'a>>, AllocError> {
    if found.cause != "no-frame" && found.cause != "no-credit" {
        return Ok(None);
    }
    let input = input.unwrap_or(b"");
    let Some(counts) = invocations_of(alloc, input)? else {
        return Ok(None);
    };
    let is_of_frames = found.cause == "no-frame";
    let cause = match is_of_frames {
        true => frames_cause(counts),
        false => credits_cause(counts, found.numbers[3]),
    };
    let Some(cause) = cause else {
        return Ok(None);
    };
    let mut numbers = found.numbers;
    numbers[4] = (counts.invocations as u64).saturating_add(1);
    numbers[5] = counts.iterations as u64;
    let found = Found {
        cause,
        numbers,
        ..*found
    };
    Ok(Some(match is_of_frames {
        true => found,
        false => {
            let graph = split_graph(input).0;
            with_loops(found, Source { graph, program }, counts.iterations as u64)
        }
    }))
}

/// The first faults of other functions, where this input was refused for a fault of its program.
fn more_of<A: Allocator + Clone>(
    alloc: &A,
    input: Option<&[u8]>,
    outcome: Option<Outcome>,
) -> Result<MoreFaults, AllocError> {
    match (outcome, input) {
        (Some(Outcome::Refused(Refusal::Program(refusal))), Some(text)) => {
            more_faults(alloc, text, refusal)
        }
        _ => Ok(MoreFaults::none()),
    }
}

/// What a hint is of, as far as its words depend on it.
#[derive(Clone, Copy)]
struct Said {
    /// The words name a file.
    is_file: bool,
    /// A program is known, of which the graph was made.
    is_program: bool,
}

/// A loop in the text of a graph.
const LOOP_OF_GRAPH: &str = "`loop F k ..`";

/// The line that shows this cause, and more faults after it. Of a file it says what it would say of standard input, and of a program's loop
/// how that is written there.
fn line_of<A: Allocator + Clone>(
    alloc: A,
    found: &Found<'_>,
    more: MoreFaults,
    said: Said,
) -> Result<Line<A>, AllocError> {
    let text = format!(in alloc.clone()?; "{found}{more}")?;
    match text.as_str().strip_prefix("standard input is ") {
        Some(rest) if said.is_file => {
            let text = format!(in alloc.clone()?; "the file is {rest}")?;
            return Line::of(alloc, text.as_str());
        }
        _ => {}
    }
    match text.as_str().split_once(LOOP_OF_GRAPH) {
        Some((before, after)) if said.is_program => {
            let text = format!(in alloc.clone()?; "{before}`loop k (..)`{after}")?;
            Line::of(alloc, text.as_str())
        }
        _ => Line::of(alloc, text.as_str()),
    }
}

/// Whether the words name a file.
fn name_file<S: AsStr>(words: &[S]) -> bool {
    matches!(read_given(words), Given::File(_))
}

/// What was found, with the cells for which readers wait, where they are known, at a fetch that waits.
fn with_cells<'a>(
    found: Found<'a>,
    program: Option<Program<'_, 'a>>,
    input: &'a [u8],
    cells: ReaderCells,
) -> Found<'a> {
    let graph = split_graph(input).0;
    let found = Found {
        cause: "readers-of-cells",
        parts: [input; 3],
        specials: [Special::Readers(cells); 2],
        ..found
    };
    let Some(fetch) = cells.fetch else {
        return found;
    };
    let source = Source { graph, program };
    source.at(found, fetch).unwrap_or(found)
}

/// The hint that a person gets after a command over this input, whose graph was made of that program, if it is known.
fn explained<'a, S: AsStr, A: Allocator + Clone>(
    alloc: A,
    words: &'a [S],
    program: Option<Program<'_, 'a>>,
    input: Option<&'a [u8]>,
    outcome: Option<Outcome>,
) -> Result<Option<Hint<A>>, AllocError>
    ensures { IfOk result (λ hint. is_some hint ≡ wants_hint outcome) }
{
    let words = words.get(1..).unwrap_or(words);
    let Some(found) = cause_of(words, program, input, outcome) else {
        return Ok(None);
    };
    let found = advised(&alloc, &asked_of(words).0, input, found)?;
    let found = match named_cells(alloc.clone()?, input, outcome)? {
        Some(cells) => with_cells(found, program, input.unwrap_or(b""), cells),
        None => found,
    };
    let found = enough_frames(alloc.clone()?, &found, program, input)?.unwrap_or(found);
    let said = Said {
        is_file: name_file(words),
        is_program: program.is_some(),
    };
    let place = match found.place {
        Some(cause) => Some(line_of(
            alloc.clone()?,
            &Found { cause, ..found },
            MoreFaults::none(),
            said,
        )?),
        None => None,
    };
    let more = more_of(&alloc, input, outcome)?;
    let cause = line_of(alloc, &found, more, said)?;
    Ok(Some(Hint { place, cause }))
}

/// The hint that a person gets after a command. `words` are the words of the command line, the program's name first. `input` is
/// what the command read, if that was kept. `outcome` is the outcome of the words; `None` where a write failed. There is a hint
/// exactly where one is wanted.
pub fn explain<'a, S: AsStr, A: Allocator + Clone>(
    alloc: A,
    words: &'a [S],
    input: Option<&'a [u8]>,
    outcome: Option<Outcome>,
) -> Result<Option<Hint<A>>, AllocError>
    ensures { IfOk result (λ hint. is_some hint ≡ wants_hint outcome) }
{
    explained(alloc, words, None, input, outcome)
}

/// The same after a command over the graph of a program, with places in the text of the program. `input` is that graph, and its inputs.
pub fn explain_program<'a, S: AsStr, A: Allocator + Clone>(
    alloc: A,
    words: &'a [S],
    text: &'a [u8],
    input: Option<&'a [u8]>,
    outcome: Option<Outcome>,
) -> Result<Option<Hint<A>>, AllocError>
    ensures { IfOk result (λ hint. is_some hint ≡ wants_hint outcome) }
{
    let nodes = places_of(&alloc, text)?;
    let program = Program {
        text: program_of(text),
        nodes: &nodes,
    };
    explained(alloc, words, Some(program), input, outcome)
}
