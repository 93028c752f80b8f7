//! The turn of element 0 where it holds back the requests for frames that its queue begins with.

ghost use Rattle.std.specs.Prelude.{◌≡◌, ℕ, ◌+◌, ◌-◌, ◌<◌, ◌≤◌, ◌^◌, ◌⊎◌, List, [], ◌∷◌, length, true, false, Some, IfOk, IfErr, OnOk, OnErr};
ghost use Rattle.tags.specs.declared.token.Token.{Token};
ghost use Rattle.element.specs.Holding.{fixed_of, IsSoundLane};
ghost use Rattle.element.specs.Requests.{held_back};
ghost use Rattle.element.specs.Steps.{Does, Stays};
ghost use Rattle.schedule.specs.Steps.{logged};
ghost use Rattle.rounds.specs.Turns.{by};
ghost use Rattle.rounds.specs.ByDepth.{AreFew, GrantsNone, Takes, MayGrant, MayTake, TurnsByDepth, IsWholeByDepth, HaltsTaking};

use element::grant_order::GrantOrder;
use element::instructions::Instructions;
use element::lane::{Lane, Stepped};
use element::requests::requests_before;
use packed::token::PackedToken;
use schedule::frames_out;
use schedule::halt::Halt;
use schedule::log::{EventLog, Log};
use std::alloc::Allocator;

/// Whether so many tokens are few besides the requests that the element holds back.
pub fn are_few<C: Instructions, A: Allocator>(lane: &Lane<'_, C, A>, ordinary: u128) -> bool
    requires { ordinary < 2 ^ 100 }
    ensures yes { result ≡ true → AreFew ordinary lane.now.held }
    ensures no { result ≡ false → AreFew ordinary lane.now.held → ⊥ }
{
    if ordinary == 0 {
        return true;
    }
    if lane.elements() < 2 {
        return false;
    }
    let elements = u128::from(lane.elements());
    let frames = elements * lane.frames() as u128;
    let out = u128::from(frames_out(lane.manager()));
    16 * ordinary < frames.saturating_sub(out)
}

// Makes the event with the token at this place.
fn take<C: Instructions, A: Allocator + Clone, L: Log>(
    lane: &mut Lane<'_, C, A>,
    at: usize,
    sent: &mut Vec<PackedToken, A>,
    log: &mut EventLog<A, L>,
) -> Result<(), Halt>
    requires { at < length lane.old.held.queue }
    ensures did { OnOk result ((does : Does lane.old.program lane.old.held at sent.old.items lane.new.held sent.new.items)
        × (log.new.events.items ≡ logged L.KEEPS_EVENTS log.old.events.items (by lane.old.held.part.shape.element (does.token ∷ [])))) }
    ensures few { OnOk result (lane.old.held.made < lane.old.steps) }
    ensures stays { OnErr result (Stays lane.old.held sent.old.items lane.new.held sent.new.items) }
    ensures unnoted { OnErr result (log.new.events.items ≡ log.old.events.items) }
    ensures halts { IfErr result (λ halt. HaltsTaking (λ h pick. pick ≡ at) lane.old.program lane.old.steps false lane.new.held (Some halt)) }
    ensures sound { OnOk result (IsSoundLane lane.new.program lane.new.held) }
    ensures fixed { fixed_of lane.new ≡ fixed_of lane.old }
{
    let pick = at as u64;
    let Some(token) = lane.token(pick) else {
        unreachable!();
    };
    if log.make_room().is_err() {
        return Err(Halt::Memory);
    }
    let Some(stepped) = lane.step::<L>(pick, sent) else {
        return Err(Halt::Steps);
    };
    match stepped {
        Stepped::Did => {
            log.note(lane.element(), token);
            Ok(())
        }
        Stepped::Idle => unreachable!(),
        Stepped::Clash { cell } => Err(Halt::Clash { cell }),
        Stepped::Stuck { rule } => Err(Halt::Stuck { rule }),
        Stepped::Memory => Err(Halt::Memory),
    }
}

// Takes the request that is the first in order, of so many.
fn grant<C: Instructions, A: Allocator + Clone, L: Log>(
    lane: &mut Lane<'_, C, A>,
    order: &mut GrantOrder<A>,
    held: usize,
    sent: &mut Vec<PackedToken, A>,
    log: &mut EventLog<A, L>,
) -> Result<(), Halt>
    requires some { 0 < held }
    requires held { held ≡ held_back lane.old.held.queue }
    requires within { held ≤ length lane.old.held.queue }
    ensures did { OnOk result ((pick : ℕ) × (pick < held_back lane.old.held.queue)
        × (does : Does lane.old.program lane.old.held pick sent.old.items lane.new.held sent.new.items)
        × (log.new.events.items ≡ logged L.KEEPS_EVENTS log.old.events.items (by lane.old.held.part.shape.element (does.token ∷ [])))) }
    ensures few { OnOk result (lane.old.held.made < lane.old.steps) }
    ensures stays { OnErr result (Stays lane.old.held sent.old.items lane.new.held sent.new.items) }
    ensures unnoted { OnErr result (log.new.events.items ≡ log.old.events.items) }
    ensures halts { IfErr result (λ halt. HaltsTaking (λ h pick. pick < held_back h.queue) lane.old.program lane.old.steps false lane.new.held
        (Some halt)) }
    ensures sound { OnOk result (IsSoundLane lane.new.program lane.new.held) }
    ensures fixed { fixed_of lane.new ≡ fixed_of lane.old }
{
    let frames = lane.frames().saturating_mul(lane.elements() as usize);
    if order.make_room(frames).is_err() {
        return Err(Halt::Memory);
    }
    let at = order.best_of(lane.queue(), held);
    let request = lane.queue().packed(at);
    match take(lane, at, sent, log) {
        Ok(()) => {
            lane.note_frame(&request, sent, order);
            Ok(())
        }
        Err(halt) => Err(halt),
    }
}

/// Grants requests as long as few other tokens are left, up to `turn` of them, and answers how many it granted.
pub fn grant_all<C: Instructions, A: Allocator + Clone, L: Log>(
    lane: &mut Lane<'_, C, A>,
    order: &mut GrantOrder<A>,
    sent: &mut Vec<PackedToken, A>,
    log: &mut EventLog<A, L>,
    turn: u64,
    ordinary: u128,
) -> Result<u64, Halt>
    requires { ordinary < 2 ^ 80 }
    ensures sound { IsSoundLane lane.old.program lane.old.held → IsSoundLane lane.new.program lane.new.held }
    ensures turns { (granted : List Token) × Takes (MayGrant ordinary) lane.old.program lane.old.steps 0 lane.old.held sent.old.items granted
        lane.new.held sent.new.items
        × (log.new.events.items ≡ logged L.KEEPS_EVENTS log.old.events.items (by lane.old.held.part.shape.element granted)) }
    ensures count { IfOk result (λ n. lane.new.held.made ≡ lane.old.held.made + n) }
    ensures few { IfOk result (λ n. n ≤ turn) }
    ensures none { IfOk result (λ n. GrantsNone (ordinary + n) lane.new.held ⊎ (n ≡ turn)) }
    ensures fewer { IfErr result (λ halt. lane.new.held.made < lane.old.held.made + turn) }
    ensures halts { IfErr result (λ halt. HaltsTaking (MayGrant ordinary (lane.new.held.made - lane.old.held.made)) lane.old.program lane.old.steps
        false lane.new.held (Some halt)) }
    ensures fixed { fixed_of lane.new ≡ fixed_of lane.old }
{
    'grants: for granted in 0..turn {
        let held = requests_before(lane.queue(), 0);
        if held == 0 {
            return Ok(granted);
        }
        if !are_few(lane, ordinary + u128::from(granted)) {
            return Ok(granted);
        }
        match grant(lane, order, held, sent, log) {
            Ok(()) => {}
            Err(halt) => return Err(halt),
        }
    }
    Ok(turn)
}

/// Takes the oldest tokens that are no requests it holds back, up to `turn` of them.
pub fn take_others<C: Instructions, A: Allocator + Clone, L: Log>(
    lane: &mut Lane<'_, C, A>,
    sent: &mut Vec<PackedToken, A>,
    log: &mut EventLog<A, L>,
    turn: u64,
) -> Option<Halt>
    ensures sound { IsSoundLane lane.old.program lane.old.held → IsSoundLane lane.new.program lane.new.held }
    ensures turns { (taken : List Token) × Takes MayTake lane.old.program lane.old.steps 0 lane.old.held sent.old.items taken lane.new.held sent.new.items
        × (log.new.events.items ≡ logged L.KEEPS_EVENTS log.old.events.items (by lane.old.held.part.shape.element taken)) × (length taken ≤ turn) }
    ensures whole { IsWholeByDepth turn lane.old.held lane.new.held result }
    ensures halts { HaltsTaking (MayTake 0) lane.old.program lane.old.steps false lane.new.held result }
    ensures fixed { fixed_of lane.new ≡ fixed_of lane.old }
{
    let mut held = 0;
    'others: for _done in 0..turn {
        let requests = requests_before(lane.queue(), held);
        if requests == lane.queue().len() {
            return None;
        }
        match take(lane, requests, sent, log) {
            Ok(()) => {}
            Err(halt) => return Some(halt),
        }
        held = requests;
    }
    None
}

/// The lane grants requests for frames that it holds back, as long as few other tokens are left, and then it takes its oldest other tokens,
/// up to `turn` tokens in all. There are `ordinary` others before its turn.
pub fn take_turn_by_depth<C: Instructions, A: Allocator + Clone, L: Log>(
    lane: &mut Lane<'_, C, A>,
    order: &mut GrantOrder<A>,
    sent: &mut Vec<PackedToken, A>,
    log: &mut EventLog<A, L>,
    turn: u64,
    ordinary: u128,
) -> Option<Halt>
    requires { ordinary < 2 ^ 80 }
    ensures sound { IsSoundLane lane.old.program lane.old.held → IsSoundLane lane.new.program lane.new.held }
    ensures turns { (taken : List Token) × TurnsByDepth lane.old.program lane.old.steps turn ordinary false lane.old.held sent.old.items taken
        lane.new.held sent.new.items result
        × (log.new.events.items ≡ logged L.KEEPS_EVENTS log.old.events.items (by lane.old.held.part.shape.element taken)) × (length taken ≤ turn) }
    ensures whole { IsWholeByDepth turn lane.old.held lane.new.held result }
    ensures fixed { fixed_of lane.new ≡ fixed_of lane.old }
{
    match grant_all(lane, order, sent, log, turn, ordinary) {
        Ok(granted) => take_others(lane, sent, log, turn - granted),
        Err(halt) => Some(halt),
    }
}
