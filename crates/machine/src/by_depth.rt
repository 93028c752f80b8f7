//! The turn of element 0 where it holds back the requests for frames that its queue begins with.

ghost use Rattle.std.specs.Prelude.{◌≡◌, ◌≤◌, ◌<◌, ◌^◌, ◌-◌, ℕ, List, length, min, true};
ghost use Rattle.tags.specs.declared.token.Token.{Token};
ghost use Rattle.element.specs.Holding.{fixed_of, IsSoundLane};
ghost use Rattle.element.specs.Requests.{is_for_manager};
ghost use Rattle.schedule.specs.State.{setting_in};
ghost use Rattle.schedule.specs.Steps.{logged};
ghost use Rattle.mesh.specs.Seats.{Counts};
ghost use Rattle.rounds.specs.Turns.{by};
ghost use Rattle.rounds.specs.ByDepth.{IsWholeByDepth};
ghost use Rattle.machine.specs.ByDepth.{besides, TakesSpending, HasNone};
ghost use Rattle.machine.specs.Runners.{Runs, Keeps, StaysAt};

use crate::bundle::NearMesh;
use crate::runner::Runner;
use element::grant_order::GrantOrder;
use element::instructions::Instructions;
use element::lane::Lane;
use element::requests::requests_before;
use packed::token::PackedToken;
use rounds::{grant_all, take_others};
use schedule::halt::Halt;
use schedule::log::{EventLog, Log};
use schedule::main_code::MainCode;
use schedule::shape::Shape;
use schedule::take::Take;
use std::alloc::Allocator;
use tags::token::To;
use token_queue::queue::TokenQueue;

/// What a turn did: how many tokens it spent that the queue had before it, and why the element makes no more events.
#[derive(Clone, Copy, Debug)]
pub struct Turned {
    pub spent: u64,
    pub halt: Option<Halt>,
}

// Whether the token asks for a frame.
fn is_request(token: &PackedToken) -> bool
    ensures { result ≡ is_for_manager token.now.to }
{
    matches!(token.to(), To::Manager)
}

// How many tokens of the queue are no requests, where these are not more than `most`.
fn count_others<A: Allocator>(queue: &TokenQueue<A>, most: u64) -> u64
    ensures { result ≡ min most (besides queue.now.items) }
{
    let mut others = 0;
    for at in 0..queue.len() {
        if others == most {
            return most;
        }
        if !is_request(&queue.packed(at)) {
            others += 1;
        }
    }
    others
}

/// Whether the element has no token, or none but requests that it holds back in this order.
pub fn has_none<C: Instructions, A: Allocator>(lane: &Lane<'_, C, A>, order: Take) -> bool
    ensures { result ≡ true → HasNone order lane.now.held }
{
    let queue = lane.queue();
    match order {
        Take::Oldest => queue.len() == 0,
        Take::Depth => {
            queue.len() == 0 || (lane.element() == 0 && requests_before(queue, 0) == queue.len())
        }
    }
}

/// How many tokens the element has that it does not hold back in this order.
pub fn others_in<C: Instructions, A: Allocator>(lane: &Lane<'_, C, A>, order: Take) -> u64 {
    let queue = lane.queue();
    if order == Take::Depth && lane.element() == 0 {
        return (queue.len() - requests_before(queue, 0)) as u64;
    }
    queue.len() as u64
}

/// How many tokens are live, besides so many.
pub fn live_besides<C: MainCode, A: Allocator, L: Log>(
    runner: &mut Runner<'_, C, A, L>,
    mesh: &NearMesh<A>,
    shape: &Shape<'_, C>,
    held: usize,
) -> u128
    requires runs { Runs L.KEEPS_EVENTS (setting_in C.program C.width shape.now) mesh.now runner.old }
    ensures stays { StaysAt runner.old runner.new }
    ensures keeps { Keeps L.KEEPS_EVENTS (setting_in C.program C.width shape.now) mesh.now runner.old runner.new }
    ensures others { runner.new ≡ record runner.old { seat = runner.new.seat } }
    ensures exact { (live : ℕ) × Counts live runner.old.seat runner.new.seat × (result ≡ live - held) }
    ensures few { result < 2 ^ 80 }
{
    let _ = shape;
    let live = mesh.live(&mut runner.seat);
    u128::from(live.saturating_sub(held as u64))
}

/// The lane grants requests for frames that it holds back, as long as few other tokens are left, and then it takes its oldest other tokens,
/// up to `turn` tokens in all. There are `ordinary` others before its turn.
pub fn take_turn_by_depth<C: Instructions, A: Allocator + Clone, L: Log>(
    lane: &mut Lane<'_, C, A>,
    order: &mut GrantOrder<A>,
    sent: &mut Vec<PackedToken, A>,
    log: &mut EventLog<A, L>,
    turn: u64,
    ordinary: u128,
) -> Turned
    requires { ordinary < 2 ^ 80 }
    ensures sound { IsSoundLane lane.old.program lane.old.held → IsSoundLane lane.new.program lane.new.held }
    ensures turns { (taken : List Token) × TakesSpending lane.old.program lane.old.steps turn ordinary lane.old.held sent.old.items taken lane.new.held
        sent.new.items result.halt result.spent
        × (log.new.events.items ≡ logged L.KEEPS_EVENTS log.old.events.items (by lane.old.held.part.shape.element taken)) × (length taken ≤ turn) }
    ensures whole { IsWholeByDepth turn lane.old.held lane.new.held result.halt }
    ensures fixed { fixed_of lane.new ≡ fixed_of lane.old }
{
    let others = count_others(lane.queue(), turn);
    let first = lane.made();
    match grant_all(lane, order, sent, log, turn, ordinary) {
        Ok(granted) => {
            let halt = take_others(lane, sent, log, turn - granted);
            let events = lane.made() - first;
            Turned {
                spent: granted + others.min(events - granted),
                halt,
            }
        }
        Err(halt) => Turned {
            spent: lane.made() - first,
            halt: Some(halt),
        },
    }
}
