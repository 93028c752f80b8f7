//! Why a run does not start, and why it did not end at rest.

ghost use Rattle.std.specs.Prelude.{◌≡◌, ◌==◌, is_some, nat_lt, not};
ghost use Rattle.outcomes.specs.Outcomes.{exit_status, meaning_status};
ghost use Rattle.hints.specs.Hints.{end_wants, ending_wants, ends_faulty, profile_wants, rests_waiting};

use crate::blocks::Block;
use crate::catalog::Text;
use crate::faults::found_fault;
use crate::fields::literal_fault;
use crate::line_list::LineList;
use crate::lines::{
    is_full, is_line_feed, last_line, line_at, split_graph, text_at, text_of, word_at,
};
use crate::message::{Counted, Found, Special, nowhere};
use crate::sources::{Program, Sought as SoughtNodes, Source};
use crate::words::{Sought, first_of, plain_at};
use command_line::{Inputs, Request, RunOptions, Sizes, Take};
use mode::Mode;
use object_view::Object;
use oracle::MeanEnd;
use outcomes::{Ending, FailedRow, MadeFault};
use schedule::config::StartFault;
use semantics::report::End;
use std::convert::AsStr;

/// The most inputs of a block.
const MOST_INPUTS: u64 = 16;
/// The most steps of an element.
const STEPS: u64 = 4_294_967_296;
/// The most steps of a turn.
const TURN: u64 = 65_536;
/// The most picks of an order.
const PICKS: u64 = 4_194_304;

/// What the rules exclude, from the first.
const RULES: [Text; 6] = [
    "rule 1 excludes a token: it goes to an instruction that is not there",
    "rule 2 excludes a token: it goes to the right port of an instruction that takes one token",
    "rule 3 excludes a token: the slot of its instruction is in a state in which the instruction does not take it",
    "rule 4 excludes a token: its word, or the one that it meets, is of a kind that is not taken there: a value, a frame or a continuation",
    "rule 5 excludes a token: it gives back a frame that is not out",
    "rule 6 excludes a token: it goes to an output of main that has its value, or that is not there",
];

/// Whether the words name a file, and inputs after it that take the place of those in the file.
#[derive(Clone, Copy, Debug, PartialEq, Eq)]
pub enum Named {
    Nothing,
    File,
    FileAndInputs,
}

impl Named {
    /// What the words name after a file with these inputs.
    pub fn after_file(inputs: &Inputs) -> Named {
        match inputs {
            Inputs::Integers(integers) if integers.as_slice().is_empty() => Named::File,
            _ => Named::FileAndInputs,
        }
    }
}

/// What was asked for, and the input that was read for it, if that was kept.
#[derive(Clone, Copy)]
pub struct Case<'r, 'p, 'a> {
    pub request: &'r Request,
    pub input: Option<&'a [u8]>,
    /// The program that the graph of the input was made of, if that is known.
    pub program: Option<Program<'p, 'a>>,
    pub named: Named,
}

impl<'r, 'p, 'a> Case<'r, 'p, 'a> {
    /// The graph that was run, where it was kept.
    pub fn source(&self) -> Option<Source<'p, 'a>> {
        if is_of_object(self.request) {
            return None;
        }
        let graph = split_graph(self.input?).0;
        let program = self.program;
        Some(Source { graph, program })
    }
}

/// What is wrong with input `number`, which is this.
fn at_input<'a>(place: Text, cause: Text, number: u64, input: &'a [u8]) -> Found<'a> {
    let numbers = [number, 0, 0, 0, 0, 0];
    Found::of(Some(place), cause, [""; 2], [input; 3], numbers)
}

/// The cause for line `number` of the inputs, which is not an integer.
pub fn input_fault(input: &[u8], number: u64) -> Found<'_> {
    let line = line_at(split_graph(input).1, number);
    match line {
        [] => at_input("no-input-line", "input-kinds", number, line),
        [.., b'\r'] => at_input("input-line", "return-in-inputs", number, line),
        _ => at_input("input-line", literal_fault(line), number, line),
    }
}

/// The cause for input `number` of the words after a command, which is the first that is not an integer. `has_file` says whether
/// they name a file.
pub fn given_fault<'a, S: AsStr>(words: &'a [S], number: u64, has_file: bool) -> Option<Found<'a>> {
    let input = match has_file {
        true => plain_at(words, number)?.as_bytes(),
        false => first_of(Sought::Input, words)?.as_bytes(),
    };
    Some(at_input(
        "input $a of the command line is `$p`",
        literal_fault(input),
        number,
        input,
    ))
}

/// The cause for a run of this graph that was given another number of inputs than main has: those of the command line, or those after the graph.
fn inputs_fault<'a>(case: &Case<'_, '_, 'a>, input: &'a [u8]) -> Option<Found<'a>> {
    let (text, lines) = split_graph(input);
    let name = text_at(line_at(text, last_line(text)), 1);
    let wants = Block::of(text, Some(name), 0)?.inputs;
    let has = lines.split(is_line_feed).filter(is_full).count() as u64;
    let numbers = [has, wants, 0, 0, 0, 0];
    let cause = match case.named {
        Named::Nothing => "graph-inputs",
        Named::File => "file-inputs",
        Named::FileAndInputs if has > MOST_INPUTS => "many-inputs",
        Named::FileAndInputs => "given-inputs",
    };
    Some(Found::of(None, cause, [name; 2], [b""; 3], numbers))
}

/// The cause for a run of an object that was given these inputs, where its main block wants another number.
fn object_inputs_fault<'a>(object: &[u8], inputs: &Inputs) -> Option<Found<'a>> {
    let object = Object::open(object).ok()?;
    let main = object.main();
    let wants = u64::from(object.block(main)?.inputs);
    let (cause, has) = match inputs {
        Inputs::Integers(integers) => ("object-inputs", integers.len() as u64),
        Inputs::TooMany => ("many-inputs", 0),
        Inputs::NoInteger(_) => return None,
    };
    let numbers = [has, wants, u64::from(main), 0, 0, 0];
    Some(Found::of(None, cause, [""; 2], [b""; 3], numbers))
}

/// A cause that shows a number.
fn numbered<'a>(cause: Text, number: u64) -> Found<'a> {
    Found::of(None, cause, [""; 2], [b""; 3], [number, 0, 0, 0, 0, 0])
}

/// The options of a request that can be refused because of them.
fn options_of(request: &Request) -> Option<&RunOptions> {
    match request {
        Request::Run(options)
        | Request::RunEnough(options)
        | Request::Exec { options, .. }
        | Request::Trace { options, .. }
        | Request::Profile { options, .. }
        | Request::Orders { options, .. } => Some(options),
        _ => None,
    }
}

/// What is wrong with numbers of elements, and the first that is wrong; 63 stands for all above 62.
fn sizes_cause(sizes: Sizes) -> Option<(Text, u64)> {
    for elements in 0..63u64 {
        if sizes.has(elements) && (elements == 0 || 16 < elements) {
            return Some(("elements", elements));
        }
    }
    sizes
        .has(63)
        .then_some(("--elements is 1 to 16, and not above 62", 63))
}

/// What is wrong with the words of the mode and of the order.
fn way_cause(options: &RunOptions) -> (Text, u64) {
    let cause = match (options.mode, options.take) {
        (None, _) => "mode",
        (Some(_), None) => "take",
        (Some(_), Some(_)) => "no-depth",
    };
    (cause, 0)
}

/// Whether a number of steps of a turn is given that is outside its limits.
fn is_no_turn(turn: Option<u64>) -> bool {
    matches!(turn, Some(turn) if turn == 0 || TURN < turn)
}

/// The first option whose value is outside its limits, and the value.
fn option_fault<'a>(request: &Request) -> Option<Found<'a>> {
    let options = options_of(request)?;
    let (cause, value) = match request {
        _ if options.elements == 0 || 16 < options.elements => ("elements", options.elements),
        _ if options.frames == 0 || 1_024 < options.frames => ("frames", options.frames),
        _ if STEPS < options.steps => ("--steps is 0 to 4294967296, and not $a", options.steps),
        _ if is_no_turn(options.turn) => (
            "--turn is 1 to 65536, and not $a",
            options.turn.unwrap_or(0),
        ),
        Request::Orders { count: 0, .. } => ("--count is at least 1, and not 0", 0),
        Request::Profile { sizes, .. } => sizes_cause(*sizes).unwrap_or(way_cause(options)),
        _ => way_cause(options),
    };
    Some(numbered(cause, value))
}

/// Why a run of this case does not start. `None` where that is not known, as where the input was not kept.
pub fn start_fault<'a>(case: &Case<'_, '_, 'a>, fault: StartFault) -> Option<Found<'a>> {
    match fault {
        StartFault::Memory => return None,
        StartFault::NoFrames => return Some(numbered("frames", options_of(case.request)?.frames)),
        StartFault::BadConfig => return option_fault(case.request),
        StartFault::WrongInputs => (),
    }
    let input = case.input?;
    if let Request::Exec { inputs, .. } = case.request {
        return object_inputs_fault(input, inputs);
    }
    inputs_fault(case, input)
}

/// The most frames of an element, and of all elements.
const FRAMES: [u64; 2] = [1_024, 16_384];

/// The cause for a run whose elements cannot have this many frames together, which are enough.
pub fn too_many_frames<'a>(request: &Request, frames: u128) -> Found<'a> {
    let frames = u64::try_from(frames).unwrap_or(u64::MAX);
    let elements = options_of(request).map_or(0, |options| options.elements);
    let cause = match frames {
        _ if frames > FRAMES[1] => "enough-nowhere",
        _ => "enough-elements",
    };
    let numbers = [frames, elements, frames.div_ceil(FRAMES[0]), 0, 0, 0];
    Found::of(None, cause, [""; 2], [b""; 3], numbers)
}

/// The cause for a run whose frames are not known, since the meaning does not come to rest.
pub fn not_at_rest<'a>(request: &Request) -> Found<'a> {
    let steps = options_of(request).map_or(0, |options| options.steps);
    numbered("enough-unknown", steps)
}

/// What is said where memory is refused.
pub fn memory_cause(request: &Request) -> Text {
    match request {
        Request::Run(_) | Request::RunEnough(_) | Request::Exec { .. } => "run-memory",
        Request::Trace { .. } | Request::Orders { .. } | Request::Profile { svg: false, .. } =>
            "event-memory",
        _ => "memory was refused: this input wants more than there is",
    }
}

/// What ran out in a run, how much there was of it, and the most of it. Picks of an order are events of all elements together.
fn run_steps_cause(request: &Request) -> Counted {
    match request {
        Request::Orders { options, .. } => {
            let cause = match options.elements {
                _ if options.steps >= PICKS => "picks-end",
                1 => "steps-end",
                _ => "steps-or-picks-end",
            };
            (cause, options.steps, PICKS)
        }
        Request::Run(options)
        | Request::RunEnough(options)
        | Request::Exec { options, .. }
        | Request::Trace { options, .. }
        | Request::Profile { options, .. } => ("steps-end", options.steps, STEPS),
        _ => ("activities-end", 0, STEPS),
    }
}

/// What ran out in the meaning, how much there was of it, and the most of it.
fn meaning_steps_cause(request: &Request) -> Counted {
    match request {
        Request::Profile { options, .. } => ("wave-end", options.steps, STEPS),
        Request::Mean { steps } => ("activities-end", *steps, STEPS),
        _ => ("activities-end", 0, STEPS),
    }
}

/// Whether an object was run.
pub fn is_of_object(request: &Request) -> bool {
    matches!(request, Request::Exec { .. })
}

/// Whether a run was made for each row of a profile.
fn is_of_rows(request: &Request) -> bool {
    matches!(request, Request::Profile { .. })
}

/// Why this many requests for frames and for credits wait.
fn starved_cause(request: &Request, frames: u64, credits: u64) -> Text {
    match (frames, credits) {
        _ if frames != 0 && is_of_rows(request) => "no-frame-in-row",
        (_, 0) => "no-frame",
        (0, _) if is_of_object(request) => "no-credit-of-code",
        (0, _) => "no-credit",
        _ => "no-frame-no-credit",
    }
}

/// Why a run clashed: at a cell of an array whose name is known where a graph was read that was kept.
fn clash_cause(case: &Case<'_, '_, '_>) -> Text {
    let is_named = case.input.is_some() && !is_of_object(case.request);
    if is_named { "named-clash" } else { "clash" }
}

/// Why a run did not end at rest, of which so many requests for frames and for credits wait, with two numbers: these, or others.
fn run_cause(case: &Case<'_, '_, '_>, end: End, frames: u64, credits: u64) -> Option<Counted>
    ensures { is_some result ≡ not (exit_status end == 0) }
{
    let request = case.request;
    match end {
        End::Rest | End::Stop => None,
        End::Memory => Some((memory_cause(request), 0, 0)),
        End::Starved => Some((starved_cause(request, frames, credits), frames, credits)),
        End::Clash { array, index } => {
            Some((clash_cause(case), u64::from(index), u64::from(array)))
        }
        End::Steps => Some(run_steps_cause(request)),
        End::Stuck { .. } if is_of_object(request) => Some(("stuck-object", 0, 0)),
        End::Stuck { .. } => Some(("stuck", 0, 0)),
    }
}

/// What is said of readers that wait.
fn readers_cause(request: &Request) -> Text {
    if is_of_object(request) {
        "readers-of-object"
    } else {
        "readers"
    }
}

/// What is said of so many readers that wait at rest, with two numbers.
fn rest_cause(request: &Request, end: End, readers: u64) -> Option<Counted>
    ensures { is_some result ≡ rests_waiting end readers }
{
    match end {
        End::Rest => (readers > 0).then_some((readers_cause(request), readers, 0)),
        End::Starved
        | End::Clash { .. }
        | End::Steps
        | End::Stuck { .. }
        | End::Memory
        | End::Stop => None,
    }
}

/// Why the meaning did not end at rest, with two numbers.
fn meaning_cause(case: &Case<'_, '_, '_>, end: MeanEnd) -> Option<Counted>
    ensures { is_some result ≡ not (meaning_status end == 0) }
{
    match end {
        MeanEnd::Rest => None,
        MeanEnd::Clash { array, index } => {
            Some((clash_cause(case), u64::from(index), array as u64))
        }
        MeanEnd::Steps => Some(meaning_steps_cause(case.request)),
    }
}

/// What is to be said of how what was run ended, with two numbers.
fn end_cause(case: &Case<'_, '_, '_>, ending: Ending) -> Option<Counted>
    ensures { is_some result ≡ end_wants ending }
{
    match ending {
        Ending::Run {
            end,
            frames,
            credits,
            readers,
            ..
        } => match run_cause(case, end, frames, credits) {
            Some(cause) => Some(cause),
            None => rest_cause(case.request, end, readers),
        },
        Ending::Meaning(end) => meaning_cause(case, end),
    }
}

/// The rule that excludes a token at this ending.
fn rule_of(ending: Ending) -> Option<Text> {
    match ending {
        Ending::Run {
            end: End::Stuck { rule },
            ..
        } => RULES.get(usize::from(rule.wrapping_sub(1))).copied(),
        _ => None,
    }
}

/// What shows this cause, of which the second number may be that of an array.
fn shown<'a>(
    case: &Case<'_, '_, 'a>,
    place: Option<Text>,
    counted: Counted,
    others: [u64; 2],
) -> Found<'a> {
    let (cause, first, second) = counted;
    let line = line_at(case.input.unwrap_or(b""), second.saturating_add(2));
    let parts = [word_at(line, 1); 3];
    let numbers = [first, second, others[0], others[1], 0, 0];
    Found::of(place, cause, [""; 2], parts, numbers)
}

/// How many frames all elements of a run have together.
fn frames_of(request: &Request) -> u64 {
    match (request, options_of(request)) {
        (Request::RunEnough(_), _) => u64::MAX,
        (_, Some(options)) => options.elements.saturating_mul(options.frames),
        (_, None) => 0,
    }
}

/// Whether the elements of a run with these options take turns on one thread.
pub fn runs_in_turn(options: &RunOptions) -> bool {
    options.mode == Some(Mode::One)
}

/// What is said to one whose run wants frames, while so many readers wait: of the order of tokens, where there is another one that may want fewer, or of the
/// order in which cells are filled and read.
fn order_advice(request: &Request, readers: u64) -> Special {
    let Some(options) = options_of(request) else {
        return Special::Nothing;
    };
    match (request, options.take) {
        (Request::Orders { .. }, _) => Special::Nothing,
        (_, Some(Take::Oldest)) => Special::Depth(None),
        (_, Some(Take::Depth)) if readers > 0 => Special::Unfilled,
        _ => Special::Nothing,
    }
}

/// How many readers wait at the end.
fn readers_of(ending: Ending) -> u64 {
    match ending {
        Ending::Run { readers, .. } => readers,
        Ending::Meaning(_) => 0,
    }
}

/// What was found of a clash, with the stores of the array: at the line of the store, where there is one alone.
fn with_stores<'a>(case: &Case<'_, '_, 'a>, found: Found<'a>) -> Found<'a> {
    let (Some(source), "named-clash") = (case.source(), found.cause) else {
        return found;
    };
    let lines = source.lines(SoughtNodes::Stores(text_of(found.parts[0])));
    if lines.is_many() {
        let cause = "named-clash-of";
        return Found { cause, ..found }.with([Special::Lines(lines); 2]);
    }
    at_only_line(found, source, lines)
}

/// What was found, at the line of the list, where there is one alone, and no place is known.
pub fn at_only_line<'a>(found: Found<'a>, source: Source<'_, 'a>, lines: LineList) -> Found<'a> {
    let (None, Some(number)) = (found.place, lines.only()) else {
        return found;
    };
    let line = line_at(source.text(), number);
    let mut numbers = found.numbers;
    numbers[2] = number;
    let parts = [found.parts[0], found.parts[1], line];
    Found {
        place: Some("line $c is `$s`"),
        parts,
        numbers,
        ..found
    }
}

/// The fault of an output or of a cell, where the run ended at rest.
fn fault_at_rest(ending: Ending) -> Option<MadeFault>
    ensures { is_some result ≡ ends_faulty ending }
{
    match ending {
        Ending::Run { end, fault, .. } => match end {
            End::Rest => fault,
            End::Starved
            | End::Clash { .. }
            | End::Steps
            | End::Stuck { .. }
            | End::Memory
            | End::Stop => None,
        },
        Ending::Meaning(_) => None,
    }
}

/// What is to be said of how what was run ended, and the rule that excludes a token. The last number shown is that of all frames.
pub fn end_fault<'a>(case: &Case<'_, '_, 'a>, ending: Ending) -> Option<Found<'a>>
    ensures { is_some result ≡ ending_wants ending }
{
    if let Some(fault) = fault_at_rest(ending) {
        let source = case.source();
        return Some(found_fault(source, fault));
    }
    let counted = end_cause(case, ending)?;
    let others = [0, frames_of(case.request)];
    let found = shown(case, rule_of(ending), counted, others);
    let advice = order_advice(case.request, readers_of(ending));
    Some(with_stores(case, found.with([Special::Nothing, advice])))
}

/// Why the run of a row of a profile did not end at rest.
fn row_fault<'a>(case: &Case<'_, '_, 'a>, row: FailedRow) -> Option<Found<'a>>
    ensures { is_some result ≡ not (exit_status row.end == 0) }
{
    let counted = run_cause(case, row.end, row.frames, row.credits)?;
    let each = match options_of(case.request) {
        Some(options) => options.frames,
        None => 0,
    };
    let frames = row.elements.saturating_mul(each);
    let found = shown(case, Some("failed-row"), counted, [row.elements, frames]);
    Some(found.with([Special::Nothing, order_advice(case.request, 0)]))
}

/// Why the meaning of a profile did not end at rest, or else the run of a row.
pub fn profile_fault<'a>(
    case: &Case<'_, '_, 'a>,
    end: MeanEnd,
    failed: Option<FailedRow>,
) -> Option<Found<'a>>
    ensures { is_some result ≡ profile_wants end failed }
{
    match meaning_cause(case, end) {
        Some(counted) => Some(shown(case, None, counted, [0; 2])),
        None => row_fault(case, failed?),
    }
}

/// What is said of a page that shows this many events.
pub fn page_fault<'a>(events: u64) -> Option<Found<'a>>
    ensures { is_some result ≡ nat_lt 1000000 events }
{
    (events > 1_000_000).then_some(nowhere("large-page", [""; 2]))
}
