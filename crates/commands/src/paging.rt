//! The page that shows a run.

ghost use Rattle.std.specs.Prelude.{◌≡◌, ◌≤◌, ◌*◌, ◌++◌, false, drop, length, IfOk, MatchResult};
ghost use Rattle.html_text.specs.DataText.{data_text};
ghost use Rattle.html_text.specs.PageText.{part_text, html_text};
ghost use Rattle.html_text.specs.declared.page.Part.TheVariants.{Top, ToListing, ToReport, ToData};
ghost use Rattle.disassembler.specs.Listing.{listing};
ghost use Rattle.report_text.specs.ReportText.{report_text};
ghost use Rattle.driver.specs.Disassembled.{listing_of};
ghost use Rattle.driver.specs.ListedEvents.{ListsEvents};
ghost use Rattle.driver.specs.Refused.{IsRefused};
ghost use Rattle.sink.specs.Sends.{Sends};
ghost use Rattle.commands.specs.Served.{IsNoRunOf};
ghost use Rattle.commands.specs.Traced.{IsPageOf, PrintsPage, first_of, page_text, paged};

use crate::feed::{option_refusal, read_feed};
use crate::refusal::fault_refusal;
use crate::serving::{config_of, order_in, refuse};
use crate::tracing::{events_from, first_of_last};
use command_line::RunOptions;
use disassembler::list;
use driver::books::books_of;
use driver::compiling::{Compiled, compile};
use driver::emulation::run_object;
use driver::fault::Fault;
use driver::order::Order;
use driver::resources::Resources;
use graph::Graph;
use html_text::{Part, write_data, write_mark, write_part};
use object_view::Object;
use outcomes::{Ending, Outcome, Refusal};
use replay::Books;
use report_text::write_report;
use rounds::Gate;
use schedule::config::Config;
use schedule::report::Report;
use sink::send;
use std::alloc::Allocator;
use std::io::{self, Write};
use std::sync::Wait;
use std::thread::Threads;
use tags::token::Token;

/// Writes the page's beginning, and the input.
fn write_source<W: Write>(writer: &mut W, input: &[u8]) -> io::Result<()>
    ensures { Sends result (W.contents writer.old) (W.contents writer.new) (part_text Top ++ input.now) }
{
    write_part(writer, Part::Top)?;
    send(writer, input)
}

/// Writes the listing of the code.
fn write_listing<W: Write>(writer: &mut W, object: &Object<'_>) -> io::Result<()>
    ensures { Sends result (W.contents writer.old) (W.contents writer.new) (part_text ToListing ++ listing object.now.version object.now.code.program) }
{
    write_part(writer, Part::ToListing)?;
    list(object, writer)
}

/// Writes the report.
fn write_result<'a, A: Allocator, W: Write>(
    writer: &mut W,
    graph: &Graph<'a, A>,
    report: &Report<A>,
) -> io::Result<()>
    ensures { Sends result (W.contents writer.old) (W.contents writer.new) (part_text ToReport ++ report_text graph.now.arrays report.now) }
{
    write_part(writer, Part::ToReport)?;
    write_report(writer, graph, report)
}

/// A run of the graph of an input, with the books of its events.
#[derive(Drop)]
struct Paged<'a, A: Allocator> {
    compiled: Compiled<'a, A>,
    report: Report<A>,
    /// The number of the first event that is shown.
    first: usize,
    books: Books<A>,
}

/// Writes the data of the events that are shown.
fn write_events<A: Allocator, W: Write>(
    writer: &mut W,
    options: &RunOptions,
    run: &Paged<'_, A>,
) -> io::Result<()>
    requires elements { options.now.elements ≤ 16 }
    requires frames { options.now.frames ≤ 1024 }
    ensures { Sends result (W.contents writer.old) (W.contents writer.new)
        (data_text options.now.elements (options.now.elements * options.now.frames) run.now.first (drop run.now.first run.now.report.events) run.now.books) }
{
    let report = &run.report;
    write_data(
        writer,
        options.elements as u32,
        (options.elements * options.frames) as u32,
        run.first as u64,
        events_from(&report.events, run.first),
        &run.books,
    )
}

/// Writes that data, and the text of the source's pane.
fn write_shown<A: Allocator, W: Write>(
    writer: &mut W,
    options: &RunOptions,
    run: &Paged<'_, A>,
    pane: &[u8],
) -> io::Result<()>
    requires elements { options.now.elements ≤ 16 }
    requires frames { options.now.frames ≤ 1024 }
    ensures { Sends result (W.contents writer.old) (W.contents writer.new)
        (data_text options.now.elements (options.now.elements * options.now.frames) run.now.first (drop run.now.first run.now.report.events)
        run.now.books ++ pane.now) }
{
    write_events(writer, options, run)?;
    send(writer, pane)
}

/// Writes what is between the report and the script.
fn write_run<A: Allocator, W: Write>(
    writer: &mut W,
    options: &RunOptions,
    run: &Paged<'_, A>,
    pane: &[u8],
) -> io::Result<()>
    requires elements { options.now.elements ≤ 16 }
    requires frames { options.now.frames ≤ 1024 }
    ensures { Sends result (W.contents writer.old) (W.contents writer.new)
        (part_text ToData ++ (data_text options.now.elements (options.now.elements * options.now.frames) run.now.first
        (drop run.now.first run.now.report.events) run.now.books ++ pane.now)) }
{
    write_part(writer, Part::ToData)?;
    write_shown(writer, options, run, pane)
}

/// Writes the page.
fn write_page<A: Allocator, W: Write>(
    writer: &mut W,
    input: &[u8],
    options: &RunOptions,
    run: &Paged<'_, A>,
    pane: &[u8],
) -> io::Result<()>
    requires elements { options.now.elements ≤ 16 }
    requires frames { options.now.frames ≤ 1024 }
    ensures { Sends result (W.contents writer.old) (W.contents writer.new)
        (page_text input.now options.now run.now.first run.now.compiled.checked run.now.compiled.object.bytes run.now.report run.now.books pane.now) }
{
    let object = run.compiled.object.as_object();
    // What the bytes promise: they are the object.
    let _bytes = object.bytes();
    write_source(writer, input)?;
    write_listing(writer, &object)?;
    let report = &run.report;
    write_result(writer, run.compiled.checked.graph(), report)?;
    write_run(writer, options, run, pane)?;
    write_part(writer, Part::Script)?;
    let events: &[(u32, Token)] = &report.events;
    write_mark(writer, events.len().saturating_sub(run.first))
}

/// A run of a text's graph whose report lists the events.
#[derive(Drop)]
struct ReportedRun<'a, A: Allocator> {
    compiled: Compiled<'a, A>,
    report: Report<A>,
}

/// Compiles the graph of the text, and runs it in the given order.
fn list_text<'a, R: Threads + Wait + Sync, A: Allocator + Clone + Send + Sync, G: Gate + Sync>(
    resources: Resources<'_, A, R, G>,
    text: &'a [u8],
    inputs: &[i64],
    config: Config,
    order: Order,
) -> Result<ReportedRun<'a, A>, Fault>
    ensures { MatchResult result
        (λ l. ListsEvents order text.now l.compiled.checked l.compiled.object.bytes inputs.now config G.may_stop l.report)
        (IsRefused text.now inputs.now config) }
{
    let compiled = compile(resources.alloc.clone()?, text)?;
    let bytes = compiled.object.bytes();
    let report = run_object(resources, bytes, inputs, config, order)?;
    Ok(ReportedRun { compiled, report })
}

/// Runs the graph of the input on the integers after it, and keeps the books of its events, or of the last ones.
fn page_input<'a, R: Threads + Wait + Sync, A: Allocator + Clone + Send + Sync, G: Gate + Sync>(
    resources: Resources<'_, A, R, G>,
    input: &'a [u8],
    options: &RunOptions,
    last: Option<u64>,
) -> Result<Paged<'a, A>, Refusal>
    requires { G.may_stop ≡ false }
    ensures page { MatchResult result
        (λ p. IsPageOf input.now options.now p.first p.compiled.checked p.compiled.object.bytes p.report p.books)
        (IsNoRunOf input.now options.now) }
    ensures first { IfOk result (λ p. p.first ≡ first_of (length p.report.events) last) }
{
    let feed = match read_feed(&resources.alloc, input) {
        Ok(feed) => feed,
        Err(refusal) => return Err(refusal),
    };
    let config = config_of(options);
    let Some(order) = order_in(options) else {
        return Err(option_refusal(resources.alloc, feed.text, &feed.integers, config));
    };
    let Ok(alloc) = resources.alloc.clone() else {
        return Err(Refusal::Memory);
    };
    let reported_run = match list_text(resources, feed.text, &feed.integers, config, order) {
        Ok(reported_run) => reported_run,
        Err(fault) => return Err(fault_refusal(fault)),
    };
    let ReportedRun { compiled, report } = reported_run;
    let events: &[(u32, Token)] = &report.events;
    let first = first_of_last(events.len(), last);
    match books_of(
        alloc,
        &compiled.object,
        &feed.integers,
        config,
        &report,
        first,
    ) {
        Ok(books) => Ok(Paged {
            compiled,
            report,
            first,
            books,
        }),
        Err(_) => Err(Refusal::Memory),
    }
}

/// The outcome of a run whose page shows the events from number `first` on.
fn shown<A: Allocator>(report: &Report<A>, first: usize) -> Outcome
    ensures { result ≡ paged first report.now }
{
    let events = report.events.len().saturating_sub(first);
    Outcome::Paged {
        ending: Ending::of(report),
        events: events as u64,
    }
}

/// Runs the graph of the input on the integers after it, and prints a page that shows all its events or only the last ones; or why there is
/// none. `pane` is the text of the source's pane, which is after the run's data; empty if there is none. Gives the outcome.
pub fn print_page<
    R: Threads + Wait + Sync,
    A: Allocator + Clone + Send + Sync,
    G: Gate + Sync,
    W: Write,
>(
    resources: Resources<'_, A, R, G>,
    input: &[u8],
    options: &RunOptions,
    last: Option<u64>,
    pane: &[u8],
    writer: &mut W,
) -> io::Result<Outcome>
    requires { G.may_stop ≡ false }
    ensures { PrintsPage result (W.contents writer.old) (W.contents writer.new) input.now options.now last pane.now }
{
    let run = match page_input(resources, input, options, last) {
        Ok(run) => run,
        Err(refusal) => return refuse(writer, &refusal),
    };
    match write_page(writer, input, options, &run, pane) {
        Ok(()) => Ok(shown(&run.report, run.first)),
        Err(fault) => Err(fault),
    }
}
