//! The turn of one element.

ghost use Rattle.std.specs.Prelude.{◌≡◌, ◌+◌, ◌<◌, ◌≤◌, ◌^◌, List, [], length, true, false, Some, IfOk, IfErr};
ghost use Rattle.tags.specs.declared.token.Token.{Token};
ghost use Rattle.element.specs.Holding.{fixed_of, IsSoundLane};
ghost use Rattle.schedule.specs.Steps.{logged};
ghost use Rattle.rounds.specs.Turns.{by, Turns, IsWhole, HaltsLane, TookTurn};
ghost use Rattle.rounds.specs.ByDepth.{TookTurnByDepth, TookTaking};

use crate::by_depth::take_turn_by_depth;
use crate::gate::Gate;
use element::company::{Alone, Company, Four, Together, Two};
use element::grant_order::GrantOrder;
use element::instructions::Instructions;
use element::lane::{Lane, Stepped};
use packed::token::PackedToken;
use schedule::halt::Halt;
use schedule::log::{EventLog, Log};
use schedule::take::Take;
use std::alloc::Allocator;

/// A lane with what it made in its turn.
#[derive(Drop)]
pub struct Turner<'m, C: Instructions, A: Allocator, L: Log> {
    pub lane: Lane<'m, C, A>,
    /// The tokens for other elements.
    pub sent: Vec<PackedToken, A>,
    /// The events that it made.
    pub log: EventLog<A, L>,
    /// Why it makes no more events.
    pub halt: Option<Halt>,
    /// How many turns it began with a token.
    pub blocks: u64,
    /// In which order it grants requests for frames that it holds back.
    pub order: GrantOrder<A>,
}

/// The lane takes its oldest tokens, up to `turn` of them.
pub fn take_turn<C: Instructions, A: Allocator + Clone, L: Log>(
    lane: &mut Lane<'_, C, A>,
    sent: &mut Vec<PackedToken, A>,
    log: &mut EventLog<A, L>,
    turn: u64,
) -> Option<Halt>
    ensures sound { IsSoundLane lane.old.program lane.old.held → IsSoundLane lane.new.program lane.new.held }
    ensures turns { (taken : List Token) × Turns lane.old.program lane.old.steps lane.old.held sent.old.items taken lane.new.held sent.new.items
        × (log.new.events.items ≡ logged L.KEEPS_EVENTS log.old.events.items (by lane.old.held.part.shape.element taken)) × (length taken ≤ turn) }
    ensures whole { IsWhole turn lane.old.held lane.new.held result }
    ensures halts { HaltsLane lane.old.program lane.old.steps false lane.new.held result }
    ensures fixed { fixed_of lane.new ≡ fixed_of lane.old }
{
    if L::KEEPS_EVENTS {
        return take_each(lane, sent, log, turn);
    }
    match lane.elements() {
        1 => take_unlisted::<C, A, Alone>(lane, sent, turn),
        2 => take_unlisted::<C, A, Two>(lane, sent, turn),
        4 => take_unlisted::<C, A, Four>(lane, sent, turn),
        _ => take_unlisted::<C, A, Together>(lane, sent, turn),
    }
}

// The element makes some events, up to `most`; false where it has no token.
#[inline(always)]
fn make_some<C: Instructions, A: Allocator + Clone, T: Company>(
    lane: &mut Lane<'_, C, A>,
    sent: &mut Vec<PackedToken, A>,
    most: u64,
) -> Result<bool, Halt>
    requires known { 0 < T.COUNT → lane.old.held.part.shape.elements ≡ T.COUNT }
    requires some { 0 < most }
    ensures sound { IsSoundLane lane.new.program lane.new.held }
    ensures turns { (taken : List Token) × Turns lane.old.program lane.old.steps lane.old.held sent.old.items taken lane.new.held sent.new.items
        × (lane.new.held.made ≡ lane.old.held.made + length taken) }
    ensures within { lane.new.held.made ≤ lane.old.held.made + most }
    ensures some { IfOk result (λ some. some ≡ true → lane.old.held.made < lane.new.held.made) }
    ensures none { IfOk result (λ some. some ≡ false → lane.new.held.queue ≡ []) }
    ensures fewer { IfErr result (λ halt. lane.new.held.made < lane.old.held.made + most) }
    ensures halts { IfErr result (λ halt. HaltsLane lane.old.program lane.old.steps false lane.new.held (Some halt)) }
    ensures fixed { fixed_of lane.new ≡ fixed_of lane.old }
{
    match lane.makes_ration::<T>(most, sent) {
        Err(_) => Err(Halt::Memory),
        Ok(true) => Ok(true),
        Ok(false) => match lane.step_otherwise(sent) {
            None => Err(Halt::Steps),
            Some(Stepped::Did) => Ok(true),
            Some(Stepped::Idle) => Ok(false),
            Some(Stepped::Clash { cell }) => Err(Halt::Clash { cell }),
            Some(Stepped::Stuck { rule }) => Err(Halt::Stuck { rule }),
            Some(Stepped::Memory) => Err(Halt::Memory),
        },
    }
}

// The same where no event is listed: between two events nothing but the lane is looked at.
#[inline(never)]
fn take_unlisted<C: Instructions, A: Allocator + Clone, T: Company>(
    lane: &mut Lane<'_, C, A>,
    sent: &mut Vec<PackedToken, A>,
    turn: u64,
) -> Option<Halt>
    requires known { 0 < T.COUNT → lane.old.held.part.shape.elements ≡ T.COUNT }
    ensures sound { IsSoundLane lane.old.program lane.old.held → IsSoundLane lane.new.program lane.new.held }
    ensures turns { (taken : List Token) × Turns lane.old.program lane.old.steps lane.old.held sent.old.items taken lane.new.held sent.new.items
        × (length taken ≤ turn) }
    ensures whole { IsWhole turn lane.old.held lane.new.held result }
    ensures halts { HaltsLane lane.old.program lane.old.steps false lane.new.held result }
    ensures fixed { fixed_of lane.new ≡ fixed_of lane.old }
{
    let first = lane.made();
    'events: loop {
        let left = turn - (lane.made() - first);
        if left == 0 {
            return None;
        }
        match make_some::<C, A, T>(lane, sent, left) {
            Ok(true) => {}
            Ok(false) => return None,
            Err(halt) => return Some(halt),
        }
    }
}

// The same where events may be listed: it takes one token after another.
fn take_each<C: Instructions, A: Allocator + Clone, L: Log>(
    lane: &mut Lane<'_, C, A>,
    sent: &mut Vec<PackedToken, A>,
    log: &mut EventLog<A, L>,
    turn: u64,
) -> Option<Halt>
    ensures sound { IsSoundLane lane.old.program lane.old.held → IsSoundLane lane.new.program lane.new.held }
    ensures turns { (taken : List Token) × Turns lane.old.program lane.old.steps lane.old.held sent.old.items taken lane.new.held sent.new.items
        × (log.new.events.items ≡ logged L.KEEPS_EVENTS log.old.events.items (by lane.old.held.part.shape.element taken)) × (length taken ≤ turn) }
    ensures whole { IsWhole turn lane.old.held lane.new.held result }
    ensures halts { HaltsLane lane.old.program lane.old.steps false lane.new.held result }
    ensures fixed { fixed_of lane.new ≡ fixed_of lane.old }
{
    'events: for _done in 0..turn {
        let Some(token) = lane.token(0) else {
            return None;
        };
        if log.make_room().is_err() {
            return Some(Halt::Memory);
        }
        let Some(stepped) = lane.step::<L>(0, sent) else {
            return Some(Halt::Steps);
        };
        match stepped {
            Stepped::Did => log.note(lane.element(), token),
            Stepped::Idle => return None,
            Stepped::Clash { cell } => return Some(Halt::Clash { cell }),
            Stepped::Stuck { rule } => return Some(Halt::Stuck { rule }),
            Stepped::Memory => return Some(Halt::Memory),
        }
    }
    None
}

// Whether the lane may take its turn: it asks the gate only where it has a token.
fn may_go_on<C: Instructions, A: Allocator, G: Gate>(
    lane: &Lane<'_, C, A>,
    gate: &G,
    blocks: u64,
) -> bool
    ensures stop { result ≡ false → G.may_stop ≡ true }
    ensures some { result ≡ false → 0 < length lane.now.held.queue }
{
    lane.queue().len() == 0 || gate.go_on(lane.element(), blocks)
}

// The element asks the gate, and takes its turn.
fn make_turn<C: Instructions, A: Allocator + Clone, L: Log, G: Gate>(
    turner: &mut Turner<'_, C, A, L>,
    gate: &G,
    turn: u64,
)
    ensures { TookTurn turn L.KEEPS_EVENTS G.may_stop turner.old turner.new }
{
    gate.enter(turner.lane.element());
    let Turner {
        lane,
        sent,
        log,
        halt,
        blocks,
        ..
    } = turner;
    if !may_go_on(lane, gate, *blocks) {
        *halt = Some(Halt::Stop);
        return;
    }
    *blocks = blocks.wrapping_add(u64::from(lane.queue().len() != 0));
    *halt = take_turn(lane, sent, log, turn);
}

// The same where the element holds requests for frames back. There are `ordinary` other tokens.
fn make_turn_by_depth<C: Instructions, A: Allocator + Clone, L: Log, G: Gate>(
    turner: &mut Turner<'_, C, A, L>,
    gate: &G,
    turn: u64,
    ordinary: u128,
)
    requires { ordinary < 2 ^ 80 }
    ensures { TookTurnByDepth turn ordinary L.KEEPS_EVENTS G.may_stop turner.old turner.new }
{
    gate.enter(turner.lane.element());
    if !may_go_on(&turner.lane, gate, turner.blocks) {
        turner.halt = Some(Halt::Stop);
        return;
    }
    let has_token = turner.lane.queue().len() != 0;
    turner.blocks = turner.blocks.wrapping_add(u64::from(has_token));
    let Turner {
        lane,
        sent,
        log,
        order,
        ..
    } = turner;
    turner.halt = take_turn_by_depth(lane, order, sent, log, turn, ordinary);
}

/// The element asks the gate, and takes its turn in the given order of its tokens. There are `ordinary` tokens in all that element 0 does
/// not hold back, if it holds any back in this order.
pub fn make_turn_taking<C: Instructions, A: Allocator + Clone, L: Log, G: Gate>(
    turner: &mut Turner<'_, C, A, L>,
    gate: &G,
    turn: u64,
    take: Take,
    ordinary: u128,
)
    requires { ordinary < 2 ^ 80 }
    ensures { TookTaking take turn ordinary L.KEEPS_EVENTS G.may_stop turner.old turner.new }
{
    match take {
        Take::Oldest => make_turn(turner, gate, turn),
        Take::Depth => {
            if turner.lane.element() == 0 {
                make_turn_by_depth(turner, gate, turn, ordinary);
            } else {
                make_turn(turner, gate, turn);
            }
        }
    }
}
