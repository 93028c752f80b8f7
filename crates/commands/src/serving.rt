//! The program over a reader and a writer.

ghost use Rattle.std.specs.Prelude.{◌≡◌, MatchResult, None, drop, false, map};
ghost use Rattle.object_view.specs.Checks.{first_refusal};
ghost use Rattle.driver.specs.Disassembled.{listing_of, listing_with_literals_of, picture_of, upgrade_of};
ghost use Rattle.commands.specs.Served.{by_depth, config_of, is_order, order_in, token_order, turn_of, IsRunOf, IsNoRunOf, IsMeaningOf, IsNoMeaningOf, Refuses, PrintsRun, PrintsMeaning, PrintsCheck};
ghost use Rattle.commands.specs.Served.{PrintsObject, PrintsOf, PrintsPicture, PrintsExec, IsExecOf, IsNoExecOf, Prints};
ghost use Rattle.commands.specs.Answered.{Answers, ServesRequest, Says, ServesAsked, ServesWords, Serves};

use crate::assembling::print_assembled;
use crate::enough::print_run_with_enough;
use crate::feed::{option_refusal, read_feed};
use crate::input::{LinesFault, parse_integers, read_input, split_at_main};
use crate::lowered::{print_lowered, print_map};
use crate::orders::print_orders;
use crate::profiling::{format_of, print_profile};
use crate::refusal::{fault_refusal, input_refusal};
use crate::refusal_text::write_refusal;
use crate::tracing::print_trace;
use command_line::{
    Asked, Inputs, Literals, Lowering, Request, RunOptions, Take, read_words, version_line,
};
use command_texts::{help_text, mistake_text};
use dot::write_graph_dot;
use driver::compiling::{CompileRefusal, check_text, write_object};
use driver::emulation::{Emulated, run_text};
use driver::meaning::{Meant, mean_text};
use driver::objects::{
    ObjectRefusal, disassemble, disassemble_with_literals, draw_object, upgrade_object,
};
use driver::order::Order;
use driver::resources::Resources;
use driver::running::{check_start, open_code, run_code_quietly};
use loaded::Loaded;
use mode::Mode;
use outcomes::{Ending, Outcome, Refusal};
use report_text::{write_meaning, write_object_report, write_report};
use rounds::Gate;
use schedule::config::{Config, StartFault};
use schedule::report::Report;
use schedule::take::Take as TokenOrder;
use sink::send;
use std::alloc::{AllocError, Allocator, Global};
use std::convert::AsStr;
use std::io::{self, Read, Write};
use std::sync::Wait;
use std::thread::Threads;

/// The exit status of a failed write.
const UNWRITTEN: u8 = 1;

/// How many steps an element takes in one turn at most, where nothing is said.
const TURN: u64 = 64;

/// The same of one that runs free: after each turn it looks at what all the elements share.
const FREE_TURN: u64 = 2_048;

// How many steps an element takes in one turn at most.
fn turn_of(options: &RunOptions) -> u64
    ensures { result ≡ turn_of options.now }
{
    if let Some(turn) = options.turn {
        return turn;
    }
    match options.mode {
        Some(Mode::Free) => FREE_TURN,
        _ => TURN,
    }
}

/// How the machine is to be configured.
pub(crate) fn config_of(options: &RunOptions) -> Config
    ensures { result ≡ config_of options.now }
{
    Config {
        elements: options.elements,
        frames: options.frames,
        steps: options.steps,
        turn: turn_of(options),
    }
}

/// Whether runs in random orders take tokens in this order. None takes them by depth.
pub(crate) fn is_order(take: Option<Take>) -> bool
    ensures { result ≡ is_order take }
{
    matches!(take, Some(Take::Oldest))
}

/// The order of the tokens that is asked for; the oldest first, where the word names none.
pub(crate) fn token_order(take: Option<Take>) -> TokenOrder
    ensures { result ≡ token_order take }
{
    match take {
        Some(Take::Depth) => TokenOrder::Depth,
        Some(Take::Oldest) | None => TokenOrder::Oldest,
    }
}

/// The order by depth, where this mode exists.
fn by_depth(mode: Option<Mode>) -> Option<Order>
    ensures { result ≡ by_depth mode }
{
    match mode {
        Some(Mode::One) => Some(Order::InTurn(TokenOrder::Depth)),
        Some(Mode::Rounds) => Some(Order::InRounds(TokenOrder::Depth)),
        Some(Mode::Free) => Some(Order::Free(TokenOrder::Depth)),
        None => None,
    }
}

/// The order that is asked for, where there are runs in it.
pub(crate) fn order_in(options: &RunOptions) -> Option<Order>
    ensures { result ≡ order_in options.now }
{
    match options.take {
        Some(Take::Oldest) => Some(Order::in_mode(options.mode?, TokenOrder::Oldest)),
        Some(Take::Depth) => by_depth(options.mode),
        None => None,
    }
}

/// Runs the graph of the input on the integers after it. The causes of a refusal are checked in the order of the work; whether
/// the order exists is checked last.
fn run_input<'a, R: Threads + Wait + Sync, A: Allocator + Clone + Send + Sync, G: Gate + Sync>(
    resources: Resources<'_, A, R, G>,
    input: &'a [u8],
    options: &RunOptions,
) -> Result<Emulated<'a, A>, Refusal>
    requires { G.may_stop ≡ false }
    ensures { MatchResult result (λ e. IsRunOf input.now options.now e.checked e.report) (IsNoRunOf input.now options.now) }
{
    let feed = match read_feed(&resources.alloc, input) {
        Ok(feed) => feed,
        Err(refusal) => return Err(refusal),
    };
    let config = config_of(options);
    let Some(order) = order_in(options) else {
        return Err(option_refusal(resources.alloc, feed.text, &feed.integers, config));
    };
    match run_text(resources, feed.text, &feed.integers, config, order) {
        Ok(emulated) => Ok(emulated),
        Err(fault) => Err(fault_refusal(fault)),
    }
}

/// Prints the line of the refusal, which is the outcome.
pub fn refuse<W: Write>(writer: &mut W, refusal: &Refusal) -> io::Result<Outcome>
    ensures { Refuses result (W.contents writer.old) (W.contents writer.new) refusal.now }
{
    match write_refusal(writer, refusal) {
        Ok(()) => Ok(Outcome::Refused(*refusal)),
        Err(fault) => Err(fault),
    }
}

/// Runs the graph of the input on the integers after it, and prints the report, or why there is none. Gives the outcome.
pub fn print_run<
    R: Threads + Wait + Sync,
    A: Allocator + Clone + Send + Sync,
    G: Gate + Sync,
    W: Write,
>(
    resources: Resources<'_, A, R, G>,
    input: &[u8],
    options: &RunOptions,
    writer: &mut W,
) -> io::Result<Outcome>
    requires { G.may_stop ≡ false }
    ensures { PrintsRun result (W.contents writer.old) (W.contents writer.new) input.now options.now }
{
    match run_input(resources, input, options) {
        Ok(emulated) => match write_report(writer, emulated.checked.graph(), &emulated.report) {
            Ok(()) => Ok(Outcome::Reported(Ending::of(&emulated.report))),
            Err(fault) => Err(fault),
        },
        Err(refusal) => refuse(writer, &refusal),
    }
}

/// Runs the meaning of the graph of the input on the integers after it. The causes of a refusal are checked in the order of the work.
fn mean_input<'a, A: Allocator + Clone>(
    alloc: A,
    input: &'a [u8],
    steps: u64,
) -> Result<Meant<'a, A>, Refusal>
    ensures { MatchResult result (λ m. IsMeaningOf input.now steps m.checked m.report.end m.report.outputs.items m.report.cells.items)
        (IsNoMeaningOf input.now) }
{
    let (text, lines) = split_at_main(input);
    let Ok(room) = alloc.clone() else {
        return Err(Refusal::Memory);
    };
    let integers = match parse_integers(room, lines) {
        Ok(integers) => integers,
        Err(LinesFault::Memory) => return Err(Refusal::Memory),
        Err(LinesFault::BadLine(line)) => {
            return match check_text(alloc, text) {
                Ok(_checked) => Err(Refusal::InputLine(line)),
                Err(fault) => Err(fault_refusal(fault)),
            };
        }
    };
    match mean_text(alloc, text, &integers, steps) {
        Ok(meant) => Ok(meant),
        Err(fault) => Err(fault_refusal(fault)),
    }
}

/// Runs the meaning of the graph of the input on the integers after it, for at most `steps` activities. Prints what it gave, or
/// why it was not run. Gives the outcome.
pub fn print_meaning<A: Allocator + Clone, W: Write>(
    alloc: A,
    input: &[u8],
    steps: u64,
    writer: &mut W,
) -> io::Result<Outcome>
    ensures { PrintsMeaning result (W.contents writer.old) (W.contents writer.new) input.now steps }
{
    match mean_input(alloc, input, steps) {
        Ok(meant) => match write_meaning(writer, meant.checked.graph(), &meant.report) {
            Ok(()) => Ok(Outcome::Reported(Ending::Meaning(meant.report.end))),
            Err(fault) => Err(fault),
        },
        Err(refusal) => refuse(writer, &refusal),
    }
}

/// Prints `ok` where the text has a well-formed graph, or what is wrong with it. Gives the outcome.
pub fn print_check<A: Allocator + Clone, W: Write>(
    alloc: A,
    text: &[u8],
    writer: &mut W,
) -> io::Result<Outcome>
    ensures { PrintsCheck result (W.contents writer.old) (W.contents writer.new) text.now }
{
    match check_text(alloc, text) {
        Ok(_checked) => match send(writer, b"ok\n") {
            Ok(()) => Ok(Outcome::Done),
            Err(fault) => Err(fault),
        },
        Err(fault) => refuse(writer, &fault_refusal(fault)),
    }
}

/// Prints the object of the text's graph, or why there is none. Gives the outcome.
pub fn print_object<A: Allocator + Clone, W: Write>(
    alloc: A,
    text: &[u8],
    writer: &mut W,
) -> io::Result<Outcome>
    ensures { PrintsObject result (W.contents writer.old) (W.contents writer.new) text.now }
{
    match write_object(alloc, text, writer) {
        Ok(()) => Ok(Outcome::Done),
        Err(CompileRefusal::Fault(fault)) => refuse(writer, &fault_refusal(fault)),
        Err(CompileRefusal::Write(fault)) => Err(fault),
    }
}

/// Prints the listing of the object with these bytes, or why they are not an object. Gives the outcome.
pub fn print_listing<W: Write>(bytes: &[u8], writer: &mut W) -> io::Result<Outcome>
    ensures { PrintsOf listing_of result (W.contents writer.old) (W.contents writer.new) bytes.now }
{
    match disassemble(bytes, writer) {
        Ok(()) => Ok(Outcome::Done),
        Err(ObjectRefusal::Object(fault)) => refuse(writer, &Refusal::Object(fault)),
        Err(ObjectRefusal::Write(fault)) => Err(fault),
    }
}

/// Prints the listing of the object with these bytes and its table of literals, or why they are not an object. Gives the
/// outcome.
pub fn print_listing_with_literals<W: Write>(bytes: &[u8], writer: &mut W) -> io::Result<Outcome>
    ensures { PrintsOf listing_with_literals_of result (W.contents writer.old) (W.contents writer.new) bytes.now }
{
    match disassemble_with_literals(bytes, writer) {
        Ok(()) => Ok(Outcome::Done),
        Err(ObjectRefusal::Object(fault)) => refuse(writer, &Refusal::Object(fault)),
        Err(ObjectRefusal::Write(fault)) => Err(fault),
    }
}

/// Prints, as version 2, the object with these bytes, or why they are not an object. Gives the outcome.
pub fn print_upgrade<W: Write>(bytes: &[u8], writer: &mut W) -> io::Result<Outcome>
    ensures { PrintsOf upgrade_of result (W.contents writer.old) (W.contents writer.new) bytes.now }
{
    match upgrade_object(bytes, writer) {
        Ok(()) => Ok(Outcome::Done),
        Err(ObjectRefusal::Object(fault)) => refuse(writer, &Refusal::Object(fault)),
        Err(ObjectRefusal::Write(fault)) => Err(fault),
    }
}

/// Prints the picture of the text's graph, or what is wrong with the graph. Gives the outcome.
pub fn print_graph_picture<A: Allocator + Clone, W: Write>(
    alloc: A,
    text: &[u8],
    writer: &mut W,
) -> io::Result<Outcome>
    ensures { PrintsPicture result (W.contents writer.old) (W.contents writer.new) text.now }
{
    match check_text(alloc, text) {
        Ok(checked) => match write_graph_dot(checked.graph(), writer) {
            Ok(()) => Ok(Outcome::Done),
            Err(fault) => Err(fault),
        },
        Err(fault) => refuse(writer, &fault_refusal(fault)),
    }
}

/// Prints the picture of the code of the object with these bytes, or why they are not an object. Gives the outcome.
pub fn print_code_picture<W: Write>(bytes: &[u8], writer: &mut W) -> io::Result<Outcome>
    ensures { PrintsOf picture_of result (W.contents writer.old) (W.contents writer.new) bytes.now }
{
    match draw_object(bytes, writer) {
        Ok(()) => Ok(Outcome::Done),
        Err(ObjectRefusal::Object(fault)) => refuse(writer, &Refusal::Object(fault)),
        Err(ObjectRefusal::Write(fault)) => Err(fault),
    }
}

/// Runs the object on these inputs. Whether the order exists is checked last.
fn exec_object<R: Threads + Wait + Sync, A: Allocator + Clone + Send + Sync, G: Gate + Sync>(
    resources: Resources<'_, A, R, G>,
    code: &Loaded<'_, A>,
    options: &RunOptions,
    inputs: &[i64],
) -> Result<Report<A>, Refusal>
    requires { G.may_stop ≡ false }
    ensures { MatchResult result
        (λ r. IsExecOf code.now.bytes options.now (Inputs.Integers (record { items = inputs.now })) r)
        (IsNoExecOf code.now.bytes options.now (Inputs.Integers (record { items = inputs.now }))) }
{
    let config = config_of(options);
    match order_in(options) {
        Some(order) => match run_code_quietly(resources, code, inputs, config, order) {
            Ok(report) => Ok(report),
            Err(fault) => Err(fault_refusal(fault)),
        },
        None => match check_start(resources.alloc, code, inputs, config) {
            Ok(_ready) => Err(Refusal::Start(StartFault::BadConfig)),
            Err(fault) => Err(fault_refusal(fault)),
        },
    }
}

/// Runs the object on the inputs of the command line, if these are good.
fn exec_inputs<R: Threads + Wait + Sync, A: Allocator + Clone + Send + Sync, G: Gate + Sync>(
    resources: Resources<'_, A, R, G>,
    code: &Loaded<'_, A>,
    options: &RunOptions,
    inputs: &Inputs,
) -> Result<Report<A>, Refusal>
    requires may_stop { G.may_stop ≡ false }
    requires object { first_refusal code.now.bytes ≡ None }
    ensures { MatchResult result (λ r. IsExecOf code.now.bytes options.now inputs.now r) (IsNoExecOf code.now.bytes options.now inputs.now) }
{
    match inputs {
        Inputs::Integers(integers) => exec_object(resources, code, options, integers.as_slice()),
        Inputs::NoInteger(number) => Err(Refusal::InputLine(*number)),
        Inputs::TooMany => Err(Refusal::Start(StartFault::WrongInputs)),
    }
}

/// Runs the object with these bytes on the inputs of the command line. Prints the report, or why there is none. Gives the
/// outcome.
pub fn print_exec<
    R: Threads + Wait + Sync,
    A: Allocator + Clone + Send + Sync,
    G: Gate + Sync,
    W: Write,
>(
    resources: Resources<'_, A, R, G>,
    bytes: &[u8],
    options: &RunOptions,
    inputs: &Inputs,
    writer: &mut W,
) -> io::Result<Outcome>
    requires { G.may_stop ≡ false }
    ensures { PrintsExec result (W.contents writer.old) (W.contents writer.new) bytes.now options.now inputs.now }
{
    let code = match open_code(&resources.alloc, bytes) {
        Ok(code) => code,
        Err(fault) => return refuse(writer, &fault_refusal(fault)),
    };
    match exec_inputs(resources, &code, options, inputs) {
        Ok(report) => match write_object_report(writer, code.object(), &report) {
            Ok(()) => Ok(Outcome::Reported(Ending::of(&report))),
            Err(fault) => Err(fault),
        },
        Err(refusal) => refuse(writer, &refusal),
    }
}

/// Prints what the words of the command line ask for, of all that the reader has.
pub(crate) fn answer<
    R: Threads + Wait + Sync,
    A: Allocator + Clone + Send + Sync,
    G: Gate + Sync,
    W: Write,
>(
    request: &Request,
    input: &[u8],
    writer: &mut W,
    resources: Resources<'_, A, R, G>,
) -> io::Result<Outcome>
    requires { G.may_stop ≡ false }
    ensures { Answers result (W.contents writer.old) (W.contents writer.new) input.now request.now }
{
    match request {
        Request::Check => print_check(resources.alloc, input, writer),
        Request::Compile => print_object(resources.alloc, input, writer),
        Request::Dis {
            literals: Literals::Omitted,
        } => print_listing(input, writer),
        Request::Dis {
            literals: Literals::Included,
        } => print_listing_with_literals(input, writer),
        Request::Asm => print_assembled(resources.alloc, input, writer),
        Request::Lower(Lowering::Graph) => print_lowered(resources.alloc, input, writer),
        Request::Lower(Lowering::Map) => print_map(resources.alloc, input, writer),
        Request::Upgrade => print_upgrade(input, writer),
        Request::Run(options) => print_run(resources, input, options, writer),
        Request::RunEnough(options) => print_run_with_enough(resources, input, options, writer),
        Request::Mean { steps } => print_meaning(resources.alloc, input, *steps, writer),
        Request::Dot { code: true } => print_code_picture(input, writer),
        Request::Dot { code: false } => print_graph_picture(resources.alloc, input, writer),
        Request::Exec { options, inputs } => print_exec(resources, input, options, inputs, writer),
        Request::Orders {
            options,
            count,
            seed,
        } => print_orders(resources.alloc, input, options, *count, *seed, writer),
        Request::Trace {
            options,
            last,
            format,
        } => print_trace(resources, input, options, *last, *format, writer),
        Request::Profile {
            options,
            sizes,
            svg,
        } => print_profile(resources, input, options, *sizes, format_of(*svg), writer),
    }
}

/// Reads all that the reader has, and prints what is asked for, or why that is not possible. Gives the outcome.
pub fn serve_request<
    R: Threads + Wait + Sync,
    A: Allocator + Clone + Send + Sync,
    G: Gate + Sync,
    I: Read,
    W: Write,
>(
    request: &Request,
    reader: &mut I,
    writer: &mut W,
    resources: Resources<'_, A, R, G>,
) -> io::Result<Outcome>
    requires { G.may_stop ≡ false }
    ensures { ServesRequest (I.remaining reader.old) result (W.contents writer.old) (W.contents writer.new) request.now }
{
    let Ok(room) = resources.alloc.clone() else {
        return refuse(writer, &Refusal::Memory);
    };
    match read_input(room, reader) {
        Ok(input) => answer(request, &input, writer, resources),
        Err(fault) => refuse(writer, &input_refusal(fault)),
    }
}

/// What is printed for a fault of the command line that has no other text.
const NO_TEXT: &[u8] = b"error: unknown command line\n";

/// Prints the text, and gives `outcome`.
fn print_text<W: Write>(writer: &mut W, text: &[u8], outcome: Outcome) -> io::Result<Outcome>
    ensures { Prints result (W.contents writer.old) (W.contents writer.new) text.now outcome }
{
    match send(writer, text) {
        Ok(()) => Ok(outcome),
        Err(fault) => Err(fault),
    }
}

/// Prints the text of a command line that is not a request, and gives `outcome`.
fn say<W: Write>(
    writer: &mut W,
    text: Result<Option<String>, AllocError>,
    outcome: Outcome,
) -> io::Result<Outcome>
    ensures { Says result (W.contents writer.old) (W.contents writer.new) outcome }
{
    match text {
        Ok(Some(text)) => print_text(writer, text.as_bytes(), outcome),
        Ok(None) => print_text(writer, NO_TEXT, outcome),
        Err(_refused) => refuse(writer, &Refusal::Memory),
    }
}

/// The words without the program's name.
pub fn arguments_of<S>(words: &[S]) -> &[S]
    ensures { result.now ≡ drop 1 words.now }
{
    match words.split_first() {
        Some((_program, arguments)) => arguments,
        None => words,
    }
}

fn program_of<S: AsStr>(words: &[S]) -> &str {
    match words.first() {
        Some(program) => program.as_str(),
        None => "ets",
    }
}

/// Prints what is asked for, or the text of a command line that is not a request. Gives the outcome.
fn serve_asked<
    R: Threads + Wait + Sync,
    A: Allocator + Clone + Send + Sync,
    G: Gate + Sync,
    S: AsStr,
    I: Read,
    W: Write,
>(
    asked: &Asked,
    words: &[S],
    reader: &mut I,
    writer: &mut W,
    resources: Resources<'_, A, R, G>,
    global: Global,
) -> io::Result<Outcome>
    requires { G.may_stop ≡ false }
    ensures { ServesAsked (I.remaining reader.old) result (W.contents writer.old) (W.contents writer.new) asked.now }
{
    match asked {
        Asked::Request(request) => serve_request(request, reader, writer, resources),
        Asked::Help(topic) => say(
            writer,
            help_text(global, program_of(words), *topic),
            Outcome::Done,
        ),
        Asked::Version => print_text(writer, version_line(), Outcome::Done),
        Asked::Mistake => say(writer, mistake_text(global, words), Outcome::Mistake),
    }
}

/// Prints what the words of the command line ask for. Gives the outcome, which determines the exit status and says why.
pub fn serve_words<
    R: Threads + Wait + Sync,
    A: Allocator + Clone + Send + Sync,
    G: Gate + Sync,
    S: AsStr,
    I: Read,
    W: Write,
>(
    words: &[S],
    reader: &mut I,
    writer: &mut W,
    resources: Resources<'_, A, R, G>,
    global: Global,
) -> io::Result<Outcome>
    requires { G.may_stop ≡ false }
    ensures { ServesWords (map S.text (drop 1 words.now)) (I.remaining reader.old) result (W.contents writer.old) (W.contents writer.new) }
{
    let asked = read_words(arguments_of(words));
    serve_asked(&asked, words, reader, writer, resources, global)
}

/// The whole program over a reader and a writer. `words` are the words of the command line, the program's name first. The
/// elements ask a gate that stops no run. Gives the exit status: 0 at rest or done, 1 refused or a failed write, 2 starved, 3 a
/// clash, 4 out of steps, 5 stuck, 6 out of memory.
pub fn serve<
    R: Threads + Wait + Sync,
    A: Allocator + Clone + Send + Sync,
    G: Gate + Sync,
    S: AsStr,
    I: Read,
    W: Write,
>(words: &[S], reader: &mut I, writer: &mut W, alloc: A, global: Global, rt: &R, gate: &G) -> u8
    requires { G.may_stop ≡ false }
    ensures { Serves (map S.text (drop 1 words.now)) (I.remaining reader.old) (W.contents writer.old) (W.contents writer.new) result }
{
    let resources = Resources { alloc, rt, gate };
    match serve_words(words, reader, writer, resources, global) {
        Ok(outcome) => outcome.status(),
        Err(_fault) => UNWRITTEN,
    }
}
