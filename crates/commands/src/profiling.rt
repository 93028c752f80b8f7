//! How much parallelism a graph has.

ghost use Rattle.std.specs.Prelude.{◌≡◌, ◌≢◌, ◌+◌, ◌⊎◌, ℕ, List, [], false, true, length, map, IfErr, IfNone, IfOk, IfSome, MatchResult, is_some};
ghost use Rattle.semantics.specs.Graph.{Graph};
ghost use Rattle.profile_text.specs.Picture.{greatest_from};
ghost use Rattle.semantics.specs.declared.report.End.{End};
ghost use Rattle.sink.specs.Sends.{Sends};
ghost use Rattle.outcomes.specs.declared.refusal.Refusal.{Refusal as AsRefusal};
ghost use Rattle.driver.specs.Refused.{IsCompiled, IsGoodText, IsRefused};
ghost use Rattle.commands.specs.Served.{IsReportedAs};
ghost use Rattle.commands.specs.Profiled.{AreRows, IsChosen, IsNoProfileOf, IsNoRow, IsProfileOf, IsRow, IsSufficient, LacksOrder, PrintsProfile};
ghost use Rattle.commands.specs.Profiled.{config_with, format_of, quantity_in, profiled, sizes_below, sufficient_of, text_of, first_failed};

use crate::feed::{option_refusal, read_feed};
use crate::refusal::fault_refusal;
use crate::serving::{config_of, refuse, token_order};
use command_line::{RunOptions, Sizes};
use driver::compiling::compile_graph;
use driver::meaning::{Waved, waves_text};
use driver::needs::{MachineNeeds, machine_needs};
use driver::resources::Resources;
use driver::watching::{WatchedRounds, watch_rounds};
use graph_check::Checked;
use loaded::Loaded;
use outcomes::{Ending, FailedRow, Outcome, Refusal, status_of};
use profile_text::{MachineRow, Sufficient, write_profile, write_svg};
use replay::Moment;
use rounds::{Gate, Open};
use schedule::config::Config;
use schedule::report::Report;
use semantics::report::End;
use std::alloc::Allocator;
use std::io::{self, Write};
use std::sync::Wait;
use std::thread::Threads;

/// How many numbers of elements there may be.
const SIZES: u64 = 64;

/// The greatest bound of a loop.
const BOUNDS: u64 = 64;

/// What a profile is printed as.
#[derive(Clone, Copy)]
pub enum ProfileFormat {
    /// Lines, with a row for each number of elements.
    Lines,
    /// A picture of the waves.
    Picture,
}

/// What the option `--svg` asks for.
pub(crate) fn format_of(svg: bool) -> ProfileFormat
    ensures { result ≡ format_of svg }
{
    if svg {
        ProfileFormat::Picture
    } else {
        ProfileFormat::Lines
    }
}

/// What the machine is set to for a row.
fn config_with(options: &RunOptions, elements: u64) -> Config
    ensures { result ≡ config_with options.now elements }
{
    Config {
        elements,
        frames: options.frames,
        steps: options.steps,
        turn: 1,
    }
}

/// What a machine holds, and a moment counts.
#[derive(Clone, Copy)]
enum Quantity {
    Tokens,
    Slots,
    Frames,
}

/// How much of it there is after an event.
fn quantity_in(quantity: Quantity, moment: &Moment) -> u64
    ensures { result ≡ quantity_in quantity moment.now }
{
    match quantity {
        Quantity::Tokens => moment.tokens,
        Quantity::Slots => moment.full_slots,
        Quantity::Frames => moment.frames_out,
    }
}

/// The greatest amount of it at any time, where there was this much at the start.
fn most_of(quantity: Quantity, first: u64, moments: &[Moment]) -> u64
    ensures { result ≡ greatest_from first (map (quantity_in quantity) moments.now) }
{
    let mut most = first;
    for moment in moments {
        let number = quantity_in(quantity, moment);
        if most < number {
            most = number;
        }
    }
    most
}

/// The row that the moments and the report of a run of this number of rounds give.
fn row_of<A: Allocator>(
    elements: u64,
    inputs: &[i64],
    rounds: u64,
    moments: &[Moment],
    report: &Report<A>,
) -> MachineRow
    ensures number { result.elements ≡ elements }
    ensures rounds { result.rounds ≡ rounds }
    ensures tokens { result.tokens ≡ greatest_from (length inputs.now + 1) (map (quantity_in Quantity.Tokens) moments.now) }
    ensures slots { result.slots ≡ greatest_from 0 (map (quantity_in Quantity.Slots) moments.now) }
    ensures frames { result.frames ≡ greatest_from 1 (map (quantity_in Quantity.Frames) moments.now) }
    ensures end { result.end ≡ report.now.end }
    ensures waiting { (result.waiting_frames ≡ report.now.waiting_frames) × (result.waiting_credits ≡ report.now.waiting_credits) }
{
    MachineRow {
        elements,
        rounds,
        tokens: most_of(Quantity::Tokens, inputs.len() as u64 + 1, moments),
        slots: most_of(Quantity::Slots, 0, moments),
        frames: most_of(Quantity::Frames, 1, moments),
        end: report.end,
        waiting_frames: report.waiting_frames,
        waiting_credits: report.waiting_credits,
    }
}

/// Whether the run was cut off because memory was refused. A list of events that could not grow is empty then.
fn wants_memory<A: Allocator>(report: &Report<A>) -> bool
    ensures { result ≡ false → report.now.end ≢ End.Memory }
{
    matches!(report.end, End::Memory)
}

/// The row of the object's run in rounds on this number of elements, in the order of the tokens that is asked for, which asks no gate. A run that was refused memory has none.
fn measure<R: Threads + Wait + Sync, A: Allocator + Clone + Send + Sync, G: Gate + Sync>(
    resources: &Resources<'_, A, R, G>,
    code: &Loaded<'_, A>,
    inputs: &[i64],
    options: &RunOptions,
    elements: u64,
) -> Result<MachineRow, Refusal>
    ensures { (text : List ℕ) (g : Graph) → IsCompiled text g code.now.bytes → MatchResult result (IsRow text inputs.now options.now elements)
        (IsReportedAs (IsRefused text inputs.now (config_with options.now elements))) }
{
    let config = config_with(options, elements);
    let Ok(alloc) = resources.alloc.clone() else {
        return Err(Refusal::Memory);
    };
    let rt = resources.rt;
    let ungated = Resources {
        alloc,
        rt,
        gate: &Open,
    };
    let WatchedRounds { watched, rounds } = match watch_rounds(
        ungated,
        code,
        inputs,
        config,
        token_order(options.take),
    ) {
        Ok(counted) => counted,
        Err(fault) => return Err(fault_refusal(fault)),
    };
    if wants_memory(&watched.report) {
        return Err(Refusal::Memory);
    }
    Ok(row_of(elements, inputs, rounds, &watched.moments, &watched.report))
}

/// A row of the object for each number of elements, in order.
fn rows_of<R: Threads + Wait + Sync, A: Allocator + Clone + Send + Sync, G: Gate + Sync>(
    resources: &Resources<'_, A, R, G>,
    code: &Loaded<'_, A>,
    inputs: &[i64],
    options: &RunOptions,
    sizes: Sizes,
) -> Result<Vec<MachineRow, A>, Refusal>
    ensures { (text : List ℕ) (g : Graph) → IsCompiled text g code.now.bytes → MatchResult result
        (λ v. AreRows text inputs.now options.now (sizes_below sizes 64) v.items)
        (λ f. (f ≡ AsRefusal.Memory) ⊎ IsNoRow text inputs.now options.now sizes f) }
{
    let Ok(room) = resources.alloc.clone() else {
        return Err(Refusal::Memory);
    };
    let mut rows = Vec::new(room);
    for elements in 0..SIZES {
        if sizes.has(elements) {
            let row = match measure(resources, code, inputs, options, elements) {
                Ok(row) => row,
                Err(refusal) => return Err(refusal),
            };
            let Ok(()) = rows.push(row) else {
                return Err(Refusal::Memory);
            };
        }
    }
    Ok(rows)
}

/// Whether no number is in the set.
fn has_none(sizes: Sizes) -> bool
    ensures some { result ≡ false → IsChosen sizes }
    ensures none { result ≡ true → sizes_below sizes 64 ≡ [] }
{
    for elements in 0..SIZES {
        if sizes.has(elements) {
            return false;
        }
    }
    true
}

/// Compiles the graph, and makes a row for each number of elements, in order. Where there is no number, nothing is compiled.
fn rows_of_graph<'a, R: Threads + Wait + Sync, A: Allocator + Clone + Send + Sync, G: Gate + Sync>(
    resources: &Resources<'_, A, R, G>,
    checked: &Checked<'a, A>,
    inputs: &[i64],
    options: &RunOptions,
    sizes: Sizes,
) -> Result<Vec<MachineRow, A>, Refusal>
    ensures { (text : List ℕ) → IsGoodText text checked.now → MatchResult result
        (λ v. AreRows text inputs.now options.now (sizes_below sizes 64) v.items)
        (λ f. (f ≡ AsRefusal.Memory) ⊎ IsNoRow text inputs.now options.now sizes f) }
{
    let Ok(room) = resources.alloc.clone() else {
        return Err(Refusal::Memory);
    };
    if has_none(sizes) {
        return Ok(Vec::new(room));
    }
    let object = match compile_graph(room, checked) {
        Ok(object) => object,
        Err(fault) => return Err(fault_refusal(fault)),
    };
    let Ok(room) = resources.alloc.clone() else {
        return Err(Refusal::Memory);
    };
    let Ok(code) = Loaded::new(room, object.as_object()) else {
        return Err(Refusal::Memory);
    };
    rows_of(resources, &code, inputs, options, sizes)
}

/// The rows that are printed: none with a picture.
fn rows_beside<'a, R: Threads + Wait + Sync, A: Allocator + Clone + Send + Sync, G: Gate + Sync>(
    resources: &Resources<'_, A, R, G>,
    checked: &Checked<'a, A>,
    inputs: &[i64],
    options: &RunOptions,
    sizes: Sizes,
    format: ProfileFormat,
) -> Result<Vec<MachineRow, A>, Refusal>
    ensures { (text : List ℕ) → IsGoodText text checked.now → MatchResult result
        (λ v. format ≡ ProfileFormat.Lines → AreRows text inputs.now options.now (sizes_below sizes 64) v.items)
        (λ f. (f ≡ AsRefusal.Memory) ⊎ ((format ≡ ProfileFormat.Lines) × IsNoRow text inputs.now options.now sizes f)) }
{
    match format {
        ProfileFormat::Lines => rows_of_graph(resources, checked, inputs, options, sizes),
        ProfileFormat::Picture => match resources.alloc.clone() {
            Ok(room) => Ok(Vec::new(room)),
            Err(_refused) => Err(Refusal::Memory),
        },
    }
}

/// The refusal of rows in an order of the tokens that does not exist: an earlier cause of refusal, if there is one, or else that.
fn order_refusal<R: Threads + Wait + Sync, A: Allocator + Clone + Send + Sync, G: Gate + Sync>(
    resources: &Resources<'_, A, R, G>,
    text: &[u8],
    inputs: &[i64],
    options: &RunOptions,
    format: ProfileFormat,
) -> Option<Refusal>
    ensures some { IfSome result (λ f. (f ≡ AsRefusal.Memory) ⊎ ((format ≡ ProfileFormat.Lines) × LacksOrder text.now inputs.now options.now f)) }
    ensures none { IfNone result (format ≡ ProfileFormat.Lines → is_some options.now.take ≡ true) }
{
    if options.take.is_some() {
        return None;
    }
    match format {
        ProfileFormat::Lines => match resources.alloc.clone() {
            Ok(room) => Some(option_refusal(room, text, inputs, config_of(options))),
            Err(_refused) => Some(Refusal::Memory),
        },
        ProfileFormat::Picture => None,
    }
}

/// What is printed of what a machine needs: nothing, where no loop's bound can be as many as the iterations.
fn sufficient_of(needs: Option<MachineNeeds>) -> Option<Sufficient>
    ensures { result ≡ sufficient_of needs }
{
    match needs {
        Some(needs) => {
            if BOUNDS < needs.iterations {
                return None;
            }
            Some(Sufficient {
                frames: needs.frames,
                steps: needs.steps,
                iterations: needs.iterations,
            })
        }
        None => None,
    }
}

/// What suffices in every order, as it is printed. With a picture nothing is.
#[tactic(auto, using(crate::proofs::Sufficing::shown_sufficient))]
fn sufficient_beside<
    'a,
    R: Threads + Wait + Sync,
    A: Allocator + Clone + Send + Sync,
    G: Gate + Sync,
>(
    resources: &Resources<'_, A, R, G>,
    checked: &Checked<'a, A>,
    inputs: &[i64],
    activities: u64,
    format: ProfileFormat,
) -> Result<Option<Sufficient>, Refusal>
    ensures { MatchResult result
        (λ s. format ≡ ProfileFormat.Lines → IsSufficient checked.now inputs.now activities s)
        (λ f. f ≡ AsRefusal.Memory) }
{
    let Ok(room) = resources.alloc.clone() else {
        return Err(Refusal::Memory);
    };
    match format {
        ProfileFormat::Lines => match machine_needs(room, checked, inputs, activities) {
            Ok(needs) => Ok(sufficient_of(needs)),
            Err(_refused) => Err(Refusal::Memory),
        },
        ProfileFormat::Picture => Ok(None),
    }
}

/// The waves of a graph's meaning, what the machine took, and what suffices.
#[derive(Drop)]
struct Profile<'a, A: Allocator> {
    waves: Waved<'a, A>,
    rows: Vec<MachineRow, A>,
    sufficient: Option<Sufficient>,
}

/// The profile of the graph of the input on the integers after it. The causes of a refusal are checked in the order of the work.
fn make_profile<'a, R: Threads + Wait + Sync, A: Allocator + Clone + Send + Sync, G: Gate + Sync>(
    resources: &Resources<'_, A, R, G>,
    input: &'a [u8],
    options: &RunOptions,
    sizes: Sizes,
    format: ProfileFormat,
) -> Result<Profile<'a, A>, Refusal>
    ensures { MatchResult result
        (λ p. IsProfileOf input.now options.now sizes format p.waves.checked p.waves.report.end p.waves.report.counts.items p.rows.items p.sufficient)
        (IsNoProfileOf input.now options.now sizes format) }
{
    let feed = match read_feed(&resources.alloc, input) {
        Ok(feed) => feed,
        Err(refusal) => return Err(refusal),
    };
    let Ok(room) = resources.alloc.clone() else {
        return Err(Refusal::Memory);
    };
    let waves = match waves_text(room, feed.text, &feed.integers, options.steps) {
        Ok(waves) => waves,
        Err(fault) => return Err(fault_refusal(fault)),
    };
    let inputs = &feed.integers;
    if let Some(refusal) = order_refusal(resources, feed.text, inputs, options, format) {
        return Err(refusal);
    }
    let rows = match rows_beside(resources, &waves.checked, inputs, options, sizes, format) {
        Ok(rows) => rows,
        Err(refusal) => return Err(refusal),
    };
    match sufficient_beside(resources, &waves.checked, inputs, options.steps, format) {
        Ok(sufficient) => Ok(Profile {
            waves,
            rows,
            sufficient,
        }),
        Err(refusal) => Err(refusal),
    }
}

/// Writes the lines of a profile, or the picture of its waves.
fn write_made<A: Allocator, W: Write>(
    writer: &mut W,
    profile: &Profile<'_, A>,
    format: ProfileFormat,
) -> io::Result<()>
    ensures { Sends result (W.contents writer.old) (W.contents writer.new)
        (text_of format profile.now.waves.checked profile.now.waves.report.end profile.now.waves.report.counts.items profile.now.rows.items
        profile.now.sufficient) }
{
    let waves = &profile.waves;
    match format {
        ProfileFormat::Lines => write_profile(
            writer,
            waves.checked.graph(),
            &waves.report,
            &profile.rows,
            profile.sufficient,
        ),
        ProfileFormat::Picture => write_svg(writer, &waves.report.counts),
    }
}

/// The first row whose run did not end at rest.
fn first_failed(rows: &[MachineRow]) -> Option<FailedRow>
    ensures { result ≡ first_failed rows.now }
{
    for row in rows {
        if status_of(row.end) != 0 {
            return Some(FailedRow {
                elements: row.elements,
                end: row.end,
                frames: row.waiting_frames,
                credits: row.waiting_credits,
            });
        }
    }
    None
}

/// The outcome of a profile. A picture does not report how the meaning ended.
fn profiled<A: Allocator>(format: ProfileFormat, profile: &Profile<'_, A>) -> Outcome
    ensures { result ≡ profiled format profile.now.waves.report.end profile.now.rows.items }
{
    let end = profile.waves.report.end;
    match format {
        ProfileFormat::Lines => Outcome::Profiled {
            end,
            failed: first_failed(&profile.rows),
        },
        ProfileFormat::Picture => Outcome::Drawn(Ending::Meaning(end)),
    }
}

/// Prints how much parallelism the graph of the input has, on the integers after it: its waves as a picture, or as lines, with a row
/// for each number of elements and what suffices in every order; or why there is none. The runs of the rows ask no gate. Gives the outcome.
pub fn print_profile<
    R: Threads + Wait + Sync,
    A: Allocator + Clone + Send + Sync,
    G: Gate + Sync,
    W: Write,
>(
    resources: Resources<'_, A, R, G>,
    input: &[u8],
    options: &RunOptions,
    sizes: Sizes,
    format: ProfileFormat,
    writer: &mut W,
) -> io::Result<Outcome>
    ensures { PrintsProfile result (W.contents writer.old) (W.contents writer.new) input.now options.now sizes format }
{
    let profile = match make_profile(&resources, input, options, sizes, format) {
        Ok(profile) => profile,
        Err(refusal) => return refuse(writer, &refusal),
    };
    match write_made(writer, &profile, format) {
        Ok(()) => Ok(profiled(format, &profile)),
        Err(fault) => Err(fault),
    }
}
