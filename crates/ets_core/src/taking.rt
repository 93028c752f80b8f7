//! How a run is asked for.

ghost use Rattle.std.specs.Prelude.{◌≡◌};
ghost use Rattle.commands.specs.Served.{Refuses};
ghost use Rattle.in_turn.specs.Printed.{PrintsRunOn, PrintsObjectRunOn};
ghost use Rattle.ets_core.specs.Taken.{PrintsTaking, config_of, take_of};
ghost use Rattle.schedule.specs.declared.config.StartFault.{StartFault as Starting};
ghost use Rattle.outcomes.specs.declared.refusal.Refusal.{Refusal as AsRefusal};

use in_turn::printing::{print_object_run_on, print_refusal, print_run_on};
use outcomes::{Outcome, Refusal};
use schedule::config::{Config, StartFault};
use schedule::take::Take;
use std::alloc::Global;
use std::io::{self, Write};

/// How a machine is to run.
#[repr(C)]
#[derive(Clone, Copy, Debug)]
pub struct EtsHow {
    /// How many elements: 1 to 16.
    pub elements: u64,
    /// How many frames each element has: 1 to 1,024.
    pub frames: u64,
    /// How many events each element may make: up to 4,294,967,296.
    pub steps: u64,
    /// In which order an element takes its tokens: 0 its oldest one, 1 by depth.
    pub take: u32,
    /// Whether the events are listed: 0 not.
    pub events: u32,
}

/// How many events an element makes in a turn at most. In the mode `one` nothing depends on it.
const TURN: u64 = 64;

pub(crate) fn config_of(how: &EtsHow) -> Config
    ensures { result ≡ config_of how.now }
{
    Config {
        elements: how.elements,
        frames: how.frames,
        steps: how.steps,
        turn: TURN,
    }
}

/// The order of the tokens that this number stands for, if it stands for one.
pub(crate) fn take_of(take: u32) -> Option<Take>
    ensures { result ≡ take_of take }
{
    match take {
        0 => Some(Take::Oldest),
        1 => Some(Take::Depth),
        _ => None,
    }
}

/// Runs the text's graph on these inputs, and prints the report, or why there is none. Gives the outcome.
pub(crate) fn print_run<W: Write>(
    alloc: Global,
    text: &[u8],
    inputs: &[i64],
    how: &EtsHow,
    writer: &mut W,
) -> io::Result<Outcome>
    ensures { PrintsTaking (λ take. PrintsRunOn text.now inputs.now (config_of how.now) take) (take_of how.now.take) result (W.contents writer.old)
        (W.contents writer.new) }
{
    match take_of(how.take) {
        Some(take) => print_run_on(alloc, text, inputs, config_of(how), take, writer),
        None => print_refusal(writer, Refusal::Start(StartFault::BadConfig)),
    }
}

/// Runs the object with these bytes on these inputs, and prints the report, or why there is none. Gives the outcome.
pub(crate) fn print_object_run<W: Write>(
    alloc: Global,
    bytes: &[u8],
    inputs: &[i64],
    how: &EtsHow,
    writer: &mut W,
) -> io::Result<Outcome>
    ensures { PrintsTaking (λ take. PrintsObjectRunOn bytes.now inputs.now (config_of how.now) take) (take_of how.now.take) result
        (W.contents writer.old) (W.contents writer.new) }
{
    match take_of(how.take) {
        Some(take) => print_object_run_on(alloc, bytes, inputs, config_of(how), take, writer),
        None => print_refusal(writer, Refusal::Start(StartFault::BadConfig)),
    }
}
