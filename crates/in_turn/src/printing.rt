//! What is printed of runs on integers.

ghost use Rattle.std.specs.Prelude.{◌≡◌};
ghost use Rattle.commands.specs.Refusals.{refused_as};
ghost use Rattle.commands.specs.Served.{Refuses};
ghost use Rattle.in_turn.specs.Printed.{PrintsMeaningOn, PrintsObjectRunOn, PrintsRunOn};

use crate::running::run_text_in_turn;
use commands::refusal_text::write_refusal;
use driver::fault::Fault;
use driver::meaning::mean_text;
use driver::running::{open_code, run_code_quietly_in_turn};
use outcomes::{Ending, Outcome, Refusal};
use report_text::{write_meaning, write_object_report, write_report};
use schedule::config::Config;
use schedule::take::Take;
use std::alloc::Allocator;
use std::io::{self, Write};

/// The refusal of a text or an object that has no report.
pub fn refusal_of(fault: Fault) -> Refusal
    ensures { result ≡ refused_as fault }
{
    match fault {
        Fault::Read(refusal) => Refusal::Read(refusal),
        Fault::Check(refusal) => Refusal::Check(refusal),
        Fault::TooManySlots(block) => Refusal::TooManySlots(block),
        Fault::TooFar(block) => Refusal::TooFar(block),
        Fault::Object(fault) => Refusal::Object(fault),
        Fault::Start(fault) => Refusal::Start(fault),
        Fault::Memory => Refusal::Memory,
    }
}

/// Prints the line of the refusal, which is the outcome.
pub fn print_refusal<W: Write>(writer: &mut W, refusal: Refusal) -> io::Result<Outcome>
    ensures { Refuses result (W.contents writer.old) (W.contents writer.new) refusal }
{
    match write_refusal(writer, &refusal) {
        Ok(()) => Ok(Outcome::Refused(refusal)),
        Err(fault) => Err(fault),
    }
}

/// Runs the text's graph on these inputs, in this order of the tokens, and prints the report, or why there is none. Gives the outcome.
pub fn print_run_on<A: Allocator + Clone, W: Write>(
    alloc: A,
    text: &[u8],
    inputs: &[i64],
    config: Config,
    take: Take,
    writer: &mut W,
) -> io::Result<Outcome>
    ensures { PrintsRunOn text.now inputs.now config take result (W.contents writer.old) (W.contents writer.new) }
{
    match run_text_in_turn(alloc, text, inputs, config, take) {
        Ok(emulated) => match write_report(writer, emulated.checked.graph(), &emulated.report) {
            Ok(()) => Ok(Outcome::Reported(Ending::of(&emulated.report))),
            Err(fault) => Err(fault),
        },
        Err(fault) => print_refusal(writer, refusal_of(fault)),
    }
}

/// Runs the object with these bytes on these inputs, in this order of the tokens, and prints the report, or why there is none. Gives the
/// outcome.
pub fn print_object_run_on<A: Allocator + Clone, W: Write>(
    alloc: A,
    bytes: &[u8],
    inputs: &[i64],
    config: Config,
    take: Take,
    writer: &mut W,
) -> io::Result<Outcome>
    ensures { PrintsObjectRunOn bytes.now inputs.now config take result (W.contents writer.old) (W.contents writer.new) }
{
    let code = match open_code(&alloc, bytes) {
        Ok(code) => code,
        Err(fault) => return print_refusal(writer, refusal_of(fault)),
    };
    match run_code_quietly_in_turn(alloc, &code, inputs, config, take) {
        Ok(report) => match write_object_report(writer, code.object(), &report) {
            Ok(()) => Ok(Outcome::Reported(Ending::of(&report))),
            Err(fault) => Err(fault),
        },
        Err(fault) => print_refusal(writer, refusal_of(fault)),
    }
}

/// Runs the meaning of the text's graph on these inputs, for at most `steps` activities. Prints what it gave, or why it was not run. Gives
/// the outcome.
pub fn print_meaning_on<A: Allocator + Clone, W: Write>(
    alloc: A,
    text: &[u8],
    inputs: &[i64],
    steps: u64,
    writer: &mut W,
) -> io::Result<Outcome>
    ensures { PrintsMeaningOn text.now inputs.now steps result (W.contents writer.old) (W.contents writer.new) }
{
    match mean_text(alloc, text, inputs, steps) {
        Ok(meant) => match write_meaning(writer, meant.checked.graph(), &meant.report) {
            Ok(()) => Ok(Outcome::Reported(Ending::Meaning(meant.report.end))),
            Err(fault) => Err(fault),
        },
        Err(fault) => print_refusal(writer, refusal_of(fault)),
    }
}
