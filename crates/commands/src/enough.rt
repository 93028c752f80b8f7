//! Runs with as many frames as are enough in every order.

ghost use Rattle.std.specs.Prelude.{◌≡◌, MatchResult, false};
ghost use Rattle.driver.specs.declared.needs.EnoughFrames.{EnoughFrames as Enough};
ghost use Rattle.commands.specs.Enough.{HasNoEnough, PrintsEnough, Tells, with_frames};

use crate::feed::{option_refusal, read_feed};
use crate::refusal::fault_refusal;
use crate::serving::{config_of, order_in, print_run, refuse};
use command_line::RunOptions;
use driver::emulation::enough_for_text;
use driver::needs::EnoughFrames;
use driver::resources::Resources;
use outcomes::{Outcome, Refusal};
use rounds::Gate;
use std::alloc::Allocator;
use std::io::{self, Write};
use std::sync::Wait;
use std::thread::Threads;

/// The options with this number of frames for each element.
fn with_frames(options: &RunOptions, frames: u64) -> RunOptions
    ensures { result ≡ with_frames options.now frames }
{
    RunOptions {
        elements: options.elements,
        frames,
        steps: options.steps,
        mode: options.mode,
        turn: options.turn,
        take: options.take,
    }
}

/// As many frames for each element as are enough for the graph of the input, on the integers after it, in every order. A run with one frame is
/// refused first for what is wrong with it, in the order of the work.
fn enough_for<A: Allocator + Clone>(
    alloc: &A,
    input: &[u8],
    options: &RunOptions,
) -> Result<u64, Refusal>
    ensures { MatchResult result (λ n. Tells input.now options.now (Enough.Each n)) (HasNoEnough input.now options.now) }
{
    let feed = match read_feed(alloc, input) {
        Ok(feed) => feed,
        Err(refusal) => return Err(refusal),
    };
    let Ok(room) = alloc.clone() else {
        return Err(Refusal::Memory);
    };
    let config = config_of(&with_frames(options, 1));
    let Some(_order) = order_in(options) else {
        return Err(option_refusal(room, feed.text, &feed.integers, config));
    };
    match enough_for_text(room, feed.text, &feed.integers, config) {
        Ok(EnoughFrames::Each(frames)) => Ok(frames),
        Ok(EnoughFrames::TooMany(frames)) => Err(Refusal::TooManyFrames(frames)),
        Ok(EnoughFrames::Untold) => Err(Refusal::NotAtRest),
        Err(fault) => Err(fault_refusal(fault)),
    }
}

/// Runs the graph of the input on the integers after it with as many frames for each element as are enough in every order. Prints the
/// report, or why there is none. Gives the outcome.
pub(crate) fn print_run_with_enough<
    R: Threads + Wait + Sync,
    A: Allocator + Clone + Send + Sync,
    G: Gate + Sync,
    W: Write,
>(
    resources: Resources<'_, A, R, G>,
    input: &[u8],
    options: &RunOptions,
    writer: &mut W,
) -> io::Result<Outcome>
    requires { G.may_stop ≡ false }
    ensures { PrintsEnough result (W.contents writer.old) (W.contents writer.new) input.now options.now }
{
    match enough_for(&resources.alloc, input, options) {
        Ok(frames) => print_run(resources, input, &with_frames(options, frames), writer),
        Err(refusal) => refuse(writer, &refusal),
    }
}
