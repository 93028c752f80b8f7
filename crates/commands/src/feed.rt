//! The two parts of an input: the text of a graph, and the integers after it.

ghost use Rattle.std.specs.Prelude.{◌≡◌, ◌⊎◌, MatchResult};
ghost use Rattle.schedule.specs.declared.config.StartFault.{StartFault as Starting};
ghost use Rattle.driver.specs.Refused.{IsReady, IsRefused};
ghost use Rattle.outcomes.specs.declared.refusal.Refusal.{Refusal as AsRefusal};
ghost use Rattle.commands.specs.Feed.{IsFeed, IsNoFeed};
ghost use Rattle.commands.specs.Served.{IsRefusedLine, IsReportedAs};

use crate::input::{LinesFault, parse_integers, split_at_main};
use crate::refusal::fault_refusal;
use driver::compiling::compile;
use driver::emulation::start_text;
use outcomes::Refusal;
use schedule::config::{Config, StartFault};
use std::alloc::Allocator;

/// The two parts of an input.
#[derive(Drop)]
pub struct Feed<'a, A: Allocator> {
    /// The text of the graph.
    pub text: &'a [u8],
    pub integers: Vec<i64, A>,
}

/// The refusal of an input in which this line is not an integer.
fn line_refusal<A: Allocator + Clone>(alloc: &A, text: &[u8], line: u64) -> Refusal
    ensures { IsRefusedLine text.now line result }
{
    let Ok(room) = alloc.clone() else {
        return Refusal::Memory;
    };
    match compile(room, text) {
        Ok(_compiled) => Refusal::InputLine(line),
        Err(fault) => fault_refusal(fault),
    }
}

/// Reads the text of the graph and the integers from the input.
pub fn read_feed<'a, A: Allocator + Clone>(
    alloc: &A,
    input: &'a [u8],
) -> Result<Feed<'a, A>, Refusal>
    ensures { MatchResult result (λ feed. IsFeed input.now feed.text.now feed.integers.items) (IsNoFeed input.now) }
{
    let (text, lines) = split_at_main(input);
    let Ok(room) = alloc.clone() else {
        return Err(Refusal::Memory);
    };
    match parse_integers(room, lines) {
        Ok(integers) => Ok(Feed { text, integers }),
        Err(LinesFault::Memory) => Err(Refusal::Memory),
        Err(LinesFault::BadLine(line)) => Err(line_refusal(alloc, text, line)),
    }
}

/// The refusal of a run whose options are bad: an earlier cause of refusal, if there is one, or else that they are bad.
pub(crate) fn option_refusal<A: Allocator + Clone>(
    alloc: A,
    text: &[u8],
    inputs: &[i64],
    config: Config,
) -> Refusal
    ensures { IsReportedAs (IsRefused text.now inputs.now config) result ⊎ (IsReady text.now inputs.now config
        × (result ≡ AsRefusal.Start Starting.BadConfig)) }
{
    match start_text(alloc, text, inputs, config) {
        Ok(()) => Refusal::Start(StartFault::BadConfig),
        Err(fault) => fault_refusal(fault),
    }
}
