//! What the elements made in a round is gathered.

ghost use Rattle.std.specs.Prelude.{◌≡◌, ◌++◌, [], length, OnOk};
ghost use Rattle.rounds.specs.Rounds.{lane_held, lanes_held, lane_fixed, lanes_fixed, tokens_sent, events_noted, halts_in};

use crate::turn::Turner;
use element::instructions::Instructions;
use packed::token::PackedToken;
use schedule::log::{EventLog, Log};
use std::alloc::{AllocError, Allocator};

fn take_events<C: Instructions, A: Allocator, L: Log>(
    turner: &mut Turner<'_, C, A, L>,
    all: &mut EventLog<A, L>,
) -> Result<(), AllocError>
    ensures held { lane_held turner.new ≡ lane_held turner.old }
    ensures fixed { lane_fixed turner.new ≡ lane_fixed turner.old }
    ensures sent { turner.new.sent.items ≡ turner.old.sent.items }
    ensures halt { turner.new.halt ≡ turner.old.halt }
    ensures events { all.new.events.items ++ turner.new.log.events.items ≡ all.old.events.items ++ turner.old.log.events.items }
    ensures cleared { OnOk result (turner.new.log.events.items ≡ []) }
{
    let Turner { log, .. } = turner;
    all.append(log)
}

fn take_tokens<C: Instructions, A: Allocator, L: Log>(
    turner: &mut Turner<'_, C, A, L>,
    tokens: &mut Vec<PackedToken, A>,
) -> Result<(), AllocError>
    ensures held { lane_held turner.new ≡ lane_held turner.old }
    ensures fixed { lane_fixed turner.new ≡ lane_fixed turner.old }
    ensures events { turner.new.log.events.items ≡ turner.old.log.events.items }
    ensures halt { turner.new.halt ≡ turner.old.halt }
    ensures tokens { tokens.new.items ++ turner.new.sent.items ≡ tokens.old.items ++ turner.old.sent.items }
    ensures cleared { OnOk result (turner.new.sent.items ≡ []) }
{
    let Turner { sent, .. } = turner;
    tokens.append(sent)
}

/// Takes the events of all elements, in order.
pub fn gather_events<C: Instructions, A: Allocator, L: Log>(
    turners: &mut [Turner<'_, C, A, L>],
    all: &mut EventLog<A, L>,
) -> Result<(), AllocError>
    ensures lanes { lanes_held turners.new ≡ lanes_held turners.old }
    ensures fixed { lanes_fixed turners.new ≡ lanes_fixed turners.old }
    ensures sent { tokens_sent turners.new ≡ tokens_sent turners.old }
    ensures halts { halts_in turners.new ≡ halts_in turners.old }
    ensures events { all.new.events.items ++ events_noted turners.new ≡ all.old.events.items ++ events_noted turners.old }
    ensures cleared { OnOk result (events_noted turners.new ≡ []) }
    ensures count { length turners.new ≡ length turners.old }
{
    for at in 0..turners.len() {
        let turner = &mut turners[at];
        take_events(turner, all)?;
    }
    Ok(())
}

/// Takes the tokens that all elements made for others, in order.
pub fn gather_tokens<C: Instructions, A: Allocator, L: Log>(
    turners: &mut [Turner<'_, C, A, L>],
    tokens: &mut Vec<PackedToken, A>,
) -> Result<(), AllocError>
    ensures lanes { lanes_held turners.new ≡ lanes_held turners.old }
    ensures fixed { lanes_fixed turners.new ≡ lanes_fixed turners.old }
    ensures events { events_noted turners.new ≡ events_noted turners.old }
    ensures halts { halts_in turners.new ≡ halts_in turners.old }
    ensures tokens { tokens.new.items ++ tokens_sent turners.new ≡ tokens.old.items ++ tokens_sent turners.old }
    ensures cleared { OnOk result (tokens_sent turners.new ≡ []) }
    ensures count { length turners.new ≡ length turners.old }
{
    for at in 0..turners.len() {
        let turner = &mut turners[at];
        take_tokens(turner, tokens)?;
    }
    Ok(())
}
