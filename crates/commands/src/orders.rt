//! Runs of a graph in random orders.

ghost use Rattle.std.specs.Prelude.{◌≡◌, ◌<◌, ℕ, List, IfErr, IfOk, IfSome, IsNone, MatchResult, false, true};
ghost use Rattle.semantics.specs.Graph as Graphs;
ghost use Rattle.driver.specs.Refused.{IsCompiled, IsRefused};
ghost use Rattle.sink.specs.Sends.{Sends};
ghost use Rattle.commands.specs.Agreed.{Agree, AllAgree, Differ, HasNoOrder, IsFirstOther, IsNoOrderOf, IsOrder, PrintsOrders, differing_text};
ghost use Rattle.commands.specs.Agreed.{order_text, same_line, same_text};
ghost use Rattle.commands.specs.Served.{is_order};
ghost use Rattle.commands.specs.Played.{PlaysDrawn};

use crate::comparing::are_same;
use crate::drawing::{draw, first_number};
use crate::feed::{option_refusal, read_feed};
use crate::refusal::fault_refusal;
use crate::refusal_text::write_numbered;
use crate::serving::{config_of, is_order, refuse};
use command_line::RunOptions;
use driver::compiling::{Compiled, compile};
use driver::fault::Fault;
use driver::running::start_code;
use graph::Graph;
use graph_check::Checked;
use itoa::Buffer;
use loaded::Loaded;
use outcomes::{Ending, Outcome, Refusal};
use report_text::write_report;
use schedule::config::Config;
use schedule::halt::Halt;
use schedule::machine::Machine;
use schedule::main_code::MainCode;
use schedule::report::Report;
use sink::{send, send_all};
use std::alloc::{AllocError, Allocator};
use std::io::{self, Write};

/// How many picks are drawn at a time.
const PICKS: u32 = 4096;

/// How many such portions of picks are drawn for a run, at most.
const TIMES: u32 = 1024;

/// A report of another order that differs from the first one's.
#[derive(Drop)]
pub struct Other<A: Allocator> {
    /// The number of the order, counted from 0.
    pub number: u64,
    pub report: Report<A>,
}

/// The reports of all orders.
#[derive(Drop)]
pub struct Reports<A: Allocator> {
    pub first: Report<A>,
    /// The first report that differs from it.
    pub other: Option<Other<A>>,
}

/// The runs of a graph in all orders.
#[derive(Drop)]
pub struct Orders<'a, A: Allocator> {
    pub checked: Checked<'a, A>,
    pub reports: Reports<A>,
}

/// Plays the machine in one order, by as many picks as the run takes, up to the greatest number that is drawn. They are drawn in portions,
/// each of which continues the run.
fn play_drawn<C: MainCode, A: Allocator + Clone>(
    alloc: &A,
    machine: &mut Machine<'_, C, A>,
    elements: u64,
    first: u64,
) -> Result<Halt, AllocError>
    requires some { 0 < elements }
    requires elements { machine.old.state.setting.elements ≡ elements }
    ensures { IfOk result (PlaysDrawn elements first machine.old machine.new) }
{
    let mut number = first;
    for _time in 0..TIMES {
        let drawn = draw(alloc.clone()?, elements, PICKS, number)?;
        let halt = machine.play(&drawn.picks);
        if halt != Halt::Steps {
            return Ok(halt);
        }
        number = drawn.next;
    }
    // No further pick is drawn.
    Ok(machine.play(&[]))
}

/// The report of the object's run in one order.
fn run_order<A: Allocator + Clone>(
    alloc: &A,
    code: &Loaded<'_, A>,
    inputs: &[i64],
    config: Config,
    seed: u64,
    order: u64,
) -> Result<Report<A>, Fault>
    requires { 0 < config.elements }
    ensures { (text : List ℕ) (g : Graphs.Graph) → IsCompiled text g code.now.bytes → MatchResult result (IsOrder text inputs.now config seed order g)
        (IsRefused text inputs.now config) }
{
    let mut store = None;
    let mut machine = start_code(alloc.clone()?, &mut store, code, inputs, config)?;
    let halt = play_drawn(
        alloc,
        &mut machine,
        config.elements,
        first_number(seed, order),
    )?;
    Ok(machine.report(halt))
}

/// The reports of the object's runs in `count` orders, or until one has a report that differs from the first.
fn run_code_orders<A: Allocator + Clone>(
    alloc: &A,
    code: &Loaded<'_, A>,
    inputs: &[i64],
    config: Config,
    count: u64,
    seed: u64,
) -> Result<Reports<A>, Fault>
    requires elements { 0 < config.elements }
    requires some { 0 < count }
    ensures same { (text : List ℕ) (g : Graphs.Graph) → IsCompiled text g code.now.bytes
        → IfOk result (λ o. IsNone o.other → AllAgree text inputs.now config seed count g o.first) }
    ensures other { (text : List ℕ) (g : Graphs.Graph) → IsCompiled text g code.now.bytes
        → IfOk result (λ o. IfSome o.other (λ x. IsFirstOther text inputs.now config seed count g o.first x.number g x.report)) }
    ensures refused { (text : List ℕ) (g : Graphs.Graph) → IsCompiled text g code.now.bytes → IfErr result (IsRefused text inputs.now config) }
{
    let first = run_order(alloc, code, inputs, config, seed, 0)?;
    for number in 1..count {
        let report = run_order(alloc, code, inputs, config, seed, number)?;
        if !are_same(&first, &report) {
            let other = Some(Other { number, report });
            return Ok(Reports { first, other });
        }
    }
    Ok(Reports { first, other: None })
}

/// Compiles the graph of the text, and runs it in `count` orders, or until one has a report that differs from the first.
fn run_orders<'a, A: Allocator + Clone>(
    alloc: A,
    text: &'a [u8],
    inputs: &[i64],
    config: Config,
    count: u64,
    seed: u64,
) -> Result<Orders<'a, A>, Fault>
    requires elements { 0 < config.elements }
    requires some { 0 < count }
    ensures same { IfOk result (λ o. IsNone o.reports.other → AllAgree text.now inputs.now config seed count o.checked o.reports.first) }
    ensures other { IfOk result (λ o. IfSome o.reports.other (λ x. IsFirstOther text.now inputs.now config seed count o.checked o.reports.first
        x.number o.checked x.report)) }
    ensures refused { IfErr result (IsRefused text.now inputs.now config) }
{
    let Compiled { checked, object } = compile(alloc.clone()?, text)?;
    let code = Loaded::new(alloc.clone()?, object.as_object())?;
    let reports = run_code_orders(&alloc, &code, inputs, config, count, seed)?;
    Ok(Orders { checked, reports })
}

/// Whether no order is asked for, or none that there is.
fn lacks_order(options: &RunOptions, count: u64) -> bool
    ensures none { result ≡ true → HasNoOrder options.now count }
    ensures some { result ≡ false → 0 < count }
    ensures ordered { result ≡ false → is_order options.now.take ≡ true }
{
    count == 0 || !is_order(options.take)
}

/// Runs the graph of the input, on the integers after it, in `count` orders. The causes of a refusal are checked in the order of the work;
/// whether any order was asked for, and one that there is, is checked last.
fn make_orders<'a, A: Allocator + Clone>(
    alloc: A,
    input: &'a [u8],
    options: &RunOptions,
    count: u64,
    seed: u64,
) -> Result<Orders<'a, A>, Refusal>
    ensures same { IfOk result (λ o. IsNone o.reports.other → Agree input.now options.now count seed o.checked o.reports.first) }
    ensures other { IfOk result (λ o. IfSome o.reports.other (λ x. Differ input.now options.now count seed o.checked o.reports.first x.number
        o.checked x.report)) }
    ensures refused { IfErr result (IsNoOrderOf input.now options.now count) }
{
    let feed = match read_feed(&alloc, input) {
        Ok(feed) => feed,
        Err(refusal) => return Err(refusal),
    };
    let config = config_of(options);
    if config.elements == 0 || lacks_order(options, count) {
        return Err(option_refusal(alloc, feed.text, &feed.integers, config));
    }
    match run_orders(alloc, feed.text, &feed.integers, config, count, seed) {
        Ok(orders) => Ok(orders),
        Err(fault) => Err(fault_refusal(fault)),
    }
}

/// Writes that all orders have one report.
fn send_same<W: Write>(writer: &mut W, count: u64) -> io::Result<()>
    ensures { Sends result (W.contents writer.old) (W.contents writer.new) (same_line count) }
{
    let mut digits = Buffer::new();
    send_all(
        writer,
        &[b"orders ", digits.format(count).as_bytes(), b" same\n"],
    )
}

/// Writes that all orders have one report, and that report.
fn write_same<'a, A: Allocator, W: Write>(
    writer: &mut W,
    count: u64,
    graph: &Graph<'a, A>,
    report: &Report<A>,
) -> io::Result<()>
    ensures { Sends result (W.contents writer.old) (W.contents writer.new) (same_text count graph.now report.now) }
{
    send_same(writer, count)?;
    write_report(writer, graph, report)
}

/// Writes the report of one order.
fn write_order<'a, A: Allocator, W: Write>(
    writer: &mut W,
    number: u64,
    graph: &Graph<'a, A>,
    report: &Report<A>,
) -> io::Result<()>
    requires { number < 18446744073709551615 }
    ensures { Sends result (W.contents writer.old) (W.contents writer.new) (order_text number graph.now report.now) }
{
    write_numbered(writer, b"order ", number + 1)?;
    write_report(writer, graph, report)
}

/// Writes that two orders have different reports, and both reports.
fn write_differing<'a, A: Allocator, W: Write>(
    writer: &mut W,
    graph: &Graph<'a, A>,
    first: &Report<A>,
    number: u64,
    other: &Report<A>,
) -> io::Result<()>
    requires { number < 18446744073709551615 }
    ensures { Sends result (W.contents writer.old) (W.contents writer.new) (differing_text graph.now first.now number graph.now other.now) }
{
    send(writer, b"orders differ\n")?;
    write_order(writer, 0, graph, first)?;
    write_order(writer, number, graph, other)
}

/// Runs the graph of the input in `count` orders, which a seed chooses. Prints that all have one report, and that report; or the report of
/// the first order and that of the first one that differs from it; or why there are none. Gives the outcome.
pub fn print_orders<A: Allocator + Clone, W: Write>(
    alloc: A,
    input: &[u8],
    options: &RunOptions,
    count: u64,
    seed: u64,
    writer: &mut W,
) -> io::Result<Outcome>
    ensures { PrintsOrders result (W.contents writer.old) (W.contents writer.new) input.now options.now count seed }
{
    let Orders { checked, reports } = match make_orders(alloc, input, options, count, seed) {
        Ok(orders) => orders,
        Err(refusal) => return refuse(writer, &refusal),
    };
    let Reports { first, other } = reports;
    match other {
        None => match write_same(writer, count, checked.graph(), &first) {
            Ok(()) => Ok(Outcome::Reported(Ending::of(&first))),
            Err(fault) => Err(fault),
        },
        Some(other) => {
            match write_differing(writer, checked.graph(), &first, other.number, &other.report) {
                Ok(()) => Ok(Outcome::Differed),
                Err(fault) => Err(fault),
            }
        }
    }
}
