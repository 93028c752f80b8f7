//! The events of a run.

ghost use Rattle.std.specs.Prelude.{◌≡◌, ◌≤◌, ◌++◌, drop, false, length, MatchResult};
ghost use Rattle.object_view.specs.Reading.{opened};
ghost use Rattle.driver.specs.ListedEvents.{IsWatched};
ghost use Rattle.driver.specs.Refused.{IsRefused};
ghost use Rattle.sink.specs.Sends.{Sends};
ghost use Rattle.trace_text.specs.TraceText.{chrome_text, trace_text};
ghost use Rattle.report_text.specs.ReportText.{report_text};
ghost use Rattle.commands.specs.Served.{IsNoRunOf};
ghost use Rattle.commands.specs.Traced.{IsTraceOf, PrintsEvents, PrintsTrace, events_text, first_of, traced};

use crate::feed::{option_refusal, read_feed};
use crate::paging::print_page;
use crate::refusal::fault_refusal;
use crate::serving::{config_of, order_in, refuse};
use command_line::{EventFormat, Format, RunOptions};
use driver::compiling::{Compiled, compile};
use driver::fault::Fault;
use driver::order::Order;
use driver::resources::Resources;
use driver::watching::{Watched, watch_object};
use outcomes::{Ending, Outcome, Refusal};
use replay::Moment;
use report_text::write_report;
use rounds::Gate;
use schedule::config::Config;
use schedule::report::Report;
use std::alloc::Allocator;
use std::io::{self, Write};
use std::sync::Wait;
use std::thread::Threads;
use tags::token::Token;
use trace_text::{write_chrome, write_events};

/// The number of the first event that is printed, of `count`.
pub(crate) fn first_of_last(count: usize, last: Option<u64>) -> usize
    ensures { result ≡ first_of count last }
{
    match last {
        None => 0,
        Some(last) => (count as u64).saturating_sub(last) as usize,
    }
}

/// The events from that place on.
pub(crate) fn events_from(events: &[(u32, Token)], first: usize) -> &[(u32, Token)]
    ensures { result.now ≡ drop first events.now }
{
    if first < events.len() {
        &events[first..]
    } else {
        &[]
    }
}

/// The moments from that place on.
fn moments_from(moments: &[Moment], first: usize) -> &[Moment]
    ensures { result.now ≡ drop first moments.now }
{
    if first < moments.len() {
        &moments[first..]
    } else {
        &[]
    }
}

/// A run of the graph of an input, with what each of its events did.
#[derive(Drop)]
struct Traced<'a, A: Allocator> {
    compiled: Compiled<'a, A>,
    watched: Watched<A>,
}

/// Writes the events from number `first` on as lines, and after them the report.
fn write_lines<A: Allocator, W: Write>(
    writer: &mut W,
    run: &Traced<'_, A>,
    first: usize,
) -> io::Result<()>
    ensures { Sends result (W.contents writer.old) (W.contents writer.new)
        (trace_text (opened run.now.compiled.object.bytes).code.program first
        (drop first run.now.watched.report.events) (drop first run.now.watched.moments.items)
        ++ report_text run.now.compiled.checked.arrays run.now.watched.report) }
{
    let object = run.compiled.object.as_object();
    // What the bytes promise: they are the object.
    let _bytes = object.bytes();
    let report = &run.watched.report;
    let events = events_from(&report.events, first);
    let moments = moments_from(&run.watched.moments, first);
    write_events(writer, &object, first as u64, events, moments)?;
    write_report(writer, run.compiled.checked.graph(), report)
}

/// Writes the events from number `first` on as JSON.
fn write_json<A: Allocator, W: Write>(
    writer: &mut W,
    run: &Traced<'_, A>,
    elements: u64,
    first: usize,
) -> io::Result<()>
    requires { elements ≤ 16 }
    ensures { Sends result (W.contents writer.old) (W.contents writer.new)
        (chrome_text (opened run.now.compiled.object.bytes).code.program elements first
        (drop first run.now.watched.report.events) (drop first run.now.watched.moments.items)) }
{
    let object = run.compiled.object.as_object();
    // What the bytes promise: they are the object.
    let _bytes = object.bytes();
    let report = &run.watched.report;
    let events = events_from(&report.events, first);
    let moments = moments_from(&run.watched.moments, first);
    write_chrome(
        writer,
        &object,
        elements as u32,
        first as u64,
        events,
        moments,
    )
}

/// Writes the run's events, or only the last ones, in the format, and after lines the report.
fn write_trace<A: Allocator, W: Write>(
    writer: &mut W,
    run: &Traced<'_, A>,
    elements: u64,
    last: Option<u64>,
    format: EventFormat,
) -> io::Result<()>
    requires { elements ≤ 16 }
    ensures { Sends result (W.contents writer.old) (W.contents writer.new)
        (events_text format (first_of (length run.now.watched.report.events) last) elements
        run.now.compiled.checked run.now.compiled.object.bytes run.now.watched.report run.now.watched.moments.items) }
{
    let report = &run.watched.report;
    let first = first_of_last(report.events.len(), last);
    match format {
        EventFormat::Lines => write_lines(writer, run, first),
        EventFormat::Chrome => write_json(writer, run, elements, first),
    }
}

/// Compiles the graph of the text, runs it in the given order, and says what each event did.
fn watch_text<'a, R: Threads + Wait + Sync, A: Allocator + Clone + Send + Sync, G: Gate + Sync>(
    resources: Resources<'_, A, R, G>,
    text: &'a [u8],
    inputs: &[i64],
    config: Config,
    order: Order,
) -> Result<Traced<'a, A>, Fault>
    ensures { MatchResult result
        (λ t. IsWatched order text.now t.compiled.checked t.compiled.object.bytes inputs.now config G.may_stop t.watched.report t.watched.moments.items)
        (IsRefused text.now inputs.now config) }
{
    let compiled = compile(resources.alloc.clone()?, text)?;
    let watched = watch_object(resources, &compiled.object, inputs, config, order)?;
    Ok(Traced { compiled, watched })
}

/// Runs the graph of the input on the integers after it, and says what each event did. The causes of a refusal are checked in the order of
/// the work; whether the order exists is checked last.
fn watch_input<'a, R: Threads + Wait + Sync, A: Allocator + Clone + Send + Sync, G: Gate + Sync>(
    resources: Resources<'_, A, R, G>,
    input: &'a [u8],
    options: &RunOptions,
) -> Result<Traced<'a, A>, Refusal>
    requires { G.may_stop ≡ false }
    ensures { MatchResult result
        (λ t. IsTraceOf input.now options.now t.compiled.checked t.compiled.object.bytes t.watched.report t.watched.moments.items)
        (IsNoRunOf input.now options.now) }
{
    let feed = match read_feed(&resources.alloc, input) {
        Ok(feed) => feed,
        Err(refusal) => return Err(refusal),
    };
    let config = config_of(options);
    let Some(order) = order_in(options) else {
        return Err(option_refusal(resources.alloc, feed.text, &feed.integers, config));
    };
    match watch_text(resources, feed.text, &feed.integers, config, order) {
        Ok(traced) => Ok(traced),
        Err(fault) => Err(fault_refusal(fault)),
    }
}

/// The outcome of a run whose events were printed in this format. The report follows them only where they are lines.
fn outcome_of<A: Allocator>(format: EventFormat, report: &Report<A>) -> Outcome
    ensures { result ≡ traced format report.now }
{
    match format {
        EventFormat::Lines => Outcome::Reported(Ending::of(report)),
        EventFormat::Chrome => Outcome::Drawn(Ending::of(report)),
    }
}

/// Runs the graph of the input on the integers after it, and prints its events, or only the last ones: as lines, followed by the report, or
/// as JSON; or why there are none. Gives the outcome.
fn print_events<
    R: Threads + Wait + Sync,
    A: Allocator + Clone + Send + Sync,
    G: Gate + Sync,
    W: Write,
>(
    resources: Resources<'_, A, R, G>,
    input: &[u8],
    options: &RunOptions,
    last: Option<u64>,
    format: EventFormat,
    writer: &mut W,
) -> io::Result<Outcome>
    requires { G.may_stop ≡ false }
    ensures { PrintsEvents result (W.contents writer.old) (W.contents writer.new) input.now options.now last format }
{
    let run = match watch_input(resources, input, options) {
        Ok(run) => run,
        Err(refusal) => return refuse(writer, &refusal),
    };
    match write_trace(writer, &run, options.elements, last, format) {
        Ok(()) => Ok(outcome_of(format, &run.watched.report)),
        Err(fault) => Err(fault),
    }
}

/// Runs the graph of the input on the integers after it, and prints its events, or a page that shows the run, in this format, or of only the
/// last events; or why there is no run. Gives the outcome.
pub fn print_trace<
    R: Threads + Wait + Sync,
    A: Allocator + Clone + Send + Sync,
    G: Gate + Sync,
    W: Write,
>(
    resources: Resources<'_, A, R, G>,
    input: &[u8],
    options: &RunOptions,
    last: Option<u64>,
    format: Format,
    writer: &mut W,
) -> io::Result<Outcome>
    requires { G.may_stop ≡ false }
    ensures { PrintsTrace result (W.contents writer.old) (W.contents writer.new) input.now options.now last format }
{
    match format {
        Format::Events(format) => print_events(resources, input, options, last, format, writer),
        Format::Html => print_page(resources, input, options, last, b"", writer),
    }
}
