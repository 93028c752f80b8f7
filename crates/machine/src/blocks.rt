//! An element makes a block of events, and commits it.

ghost use Rattle.std.specs.Prelude.{◌≡◌, ◌<◌, ◌≤◌, ◌+◌, ◌^◌, ◌++◌, ◌-◌, [], drop, length, None, false, OnOk, IfOk};
ghost use Rattle.element.specs.Holding.{Holding, held_of};
ghost use Rattle.schedule.specs.State.{setting_in};
ghost use Rattle.schedule.specs.Setting.{IsGoodSetting};
ghost use Rattle.mesh.specs.Deeds.{created};
ghost use Rattle.mesh.specs.Seats.{AllTo, Has, Commits};
ghost use Rattle.schedule.specs.declared.take.Take.{Take};
ghost use Rattle.ordering.specs.Noted.{noted_in, with_block};
ghost use Rattle.machine.specs.Blocks.{turn_of};
ghost use Rattle.machine.specs.ByDepth.{HasNoReason, HaltsFreely};
ghost use Rattle.machine.specs.Runners.{IsRunning, Runs, Keeps, IsClear, StaysAt, HasMade, NotesBlock, tokens_of};

use crate::bundle::NearMesh;
use crate::by_depth::{live_besides, take_turn_by_depth};
use crate::runner::{Lost, Runner};
use crate::turn_length::turn_of;
use element::instructions::Instructions;
use element::requests::requests_before;
use mesh::Ask;
use ordering::log::{BlockLog, Counts};
use packed::token::PackedToken;
use rounds::{Gate, are_few, take_turn};
use schedule::halt::Halt;
use schedule::log::Log;
use schedule::main_code::MainCode;
use schedule::shape::Shape;
use schedule::take::Take;
use std::alloc::{AllocError, Allocator};
use std::marker::Brand;
use tags::token::Token;
use token_queue::queue::TokenQueue;

// How many tokens the commits of an element may make.
const MOST: u64 = 1 << 40;

// The commit of a block, by the numbers of tokens that it spent and made.
fn commit_counts<J: Ask, C: Instructions, A: Allocator, L: Log>(
    runner: &mut Runner<'_, C, A, L>,
    mesh: &NearMesh<A>,
    spent: u64,
    made: u64,
)
    requires asked { (length J.spent ≡ spent) × (length J.made ≡ made) }
    requires mesh { (runner.old.seat.mesh ≡ mesh.now) × (runner.old.seat.joined ≡ []) }
    requires some { 0 < spent }
    requires address { AllTo mesh.now.elements runner.old.seat.own.element J.spent }
    requires held { Has runner.old.seat.own.held J.spent }
    requires few { created runner.old.seat.own.deeds + made ≤ 2 ^ 40 }
    ensures commits { Commits J.spent J.made runner.old.seat runner.new.seat }
    ensures others { runner.new ≡ record runner.old { seat = runner.new.seat } }
{
    mesh.commit_by::<J>(&mut runner.seat, spent, made);
}

// Notes the tokens that events took.
fn note_taken<A: Allocator>(notes: &mut BlockLog<A>, log: &[(u32, Token)]) -> Result<(), AllocError>
    ensures { OnOk result (noted_in notes.new ≡ record {
      taken = (noted_in notes.old).taken ++ tokens_of log.now;
      made = (noted_in notes.old).made;
      blocks = (noted_in notes.old).blocks;
    }) }
{
    for entry in log {
        notes.reserve(1, 0, 0)?;
        notes.note_event(entry.1);
    }
    Ok(())
}

// Notes that these tokens of the queue, from a place on, were made.
fn note_queue<A: Allocator>(
    notes: &mut BlockLog<A>,
    queue: &TokenQueue<A>,
    from: usize,
) -> Result<(), AllocError>
    requires { from ≤ length queue.now.items }
    ensures { OnOk result (noted_in notes.new ≡ record {
      taken = (noted_in notes.old).taken;
      made = (noted_in notes.old).made
          ++ drop from queue.now.items;
      blocks = (noted_in notes.old).blocks;
    }) }
{
    for behind in 0..queue.len() - from {
        notes.reserve(0, 1, 0)?;
        notes.note_made(queue.get(from + behind));
    }
    Ok(())
}

// Notes that these tokens were made.
fn note_sent<A: Allocator>(notes: &mut BlockLog<A>, sent: &[PackedToken]) -> Result<(), AllocError>
    ensures { OnOk result (noted_in notes.new ≡ record {
      taken = (noted_in notes.old).taken;
      made = (noted_in notes.old).made
          ++ sent.now;
      blocks = (noted_in notes.old).blocks;
    }) }
{
    for token in sent {
        notes.reserve(0, 1, 0)?;
        notes.note_made(token.unpack());
    }
    Ok(())
}

// Notes the counts of a block.
fn note_counts<A: Allocator>(notes: &mut BlockLog<A>, counts: Counts) -> Result<(), AllocError>
    ensures { OnOk result (noted_in notes.new ≡ with_block (noted_in notes.old) counts) }
{
    notes.reserve(0, 0, 1)?;
    notes.end_block(counts);
    Ok(())
}

// Notes the block in the log of the turn, where events are listed.
fn note_block<C: Instructions, A: Allocator, L: Log>(
    runner: &mut Runner<'_, C, A, L>,
    spent: u64,
    made: u64,
) -> Result<(), AllocError>
    requires { (length runner.old.sent.items ≤ made) × (made ≤ length runner.old.lane.held.queue + length runner.old.sent.items) }
    ensures notes { OnOk result (NotesBlock L.KEEPS_EVENTS spent made runner.old runner.new) }
    ensures others { runner.new ≡ record runner.old { log = runner.new.log; notes = runner.new.notes } }
{
    if !L::KEEPS_EVENTS {
        return Ok(());
    }
    let counts = Counts {
        events: runner.log.events.len(),
        spent: spent as usize,
        made: made as usize,
    };
    let from = runner.lane.queue().len() - (counts.made - runner.sent.len());
    note_taken(&mut runner.notes, &runner.log.events)?;
    note_queue(&mut runner.notes, runner.lane.queue(), from)?;
    note_sent(&mut runner.notes, &runner.sent)?;
    note_counts(&mut runner.notes, counts)?;
    runner.log.events.clear();
    Ok(())
}

// Commits a block of `events` events, before which the queue had `before` tokens. The first events took `spent` of these, and what
// the block left is last in the queue, or was sent. It needs no memory, so events are always committed.
fn commit<C: MainCode, A: Allocator, L: Log>(
    runner: &mut Runner<'_, C, A, L>,
    mesh: &NearMesh<A>,
    shape: &Shape<'_, C>,
    before: u64,
    events: u64,
    spent: u64,
) -> Result<(), Lost>
    requires made { (start : Holding) × (old : Holding) × HasMade L.KEEPS_EVENTS (setting_in C.program C.width shape.now) mesh.now start old before
        events spent runner.old }
    ensures stays { StaysAt runner.old runner.new }
    ensures keeps { OnOk result ((start : Holding) (old : Holding) → HasMade L.KEEPS_EVENTS (setting_in C.program C.width shape.now) mesh.now start
        old before events spent runner.old → IsRunning L.KEEPS_EVENTS (setting_in C.program C.width shape.now) mesh.now start runner.new) }
    ensures lane { held_of runner.new.lane ≡ held_of runner.old.lane }
    ensures others { (runner.new.unqueued.tokens ≡ runner.old.unqueued.tokens) × (runner.new.bundled ≡ runner.old.bundled) }
{
    let _ = shape;
    if events == 0 {
        return Ok(());
    }
    let left = runner.lane.queue().len() as u64 - (before - spent);
    let sent = runner.sent.len() as u64;
    let room = MOST - runner.created;
    if sent > room || left > room - sent {
        return Err(Lost);
    }
    commit_counts::<Brand, C, A, L>(runner, mesh, spent, left + sent);
    runner.created += left + sent;
    match note_block(runner, spent, left + sent) {
        Ok(()) => Ok(()),
        Err(_) => Err(Lost),
    }
}

// Makes a turn of events, oldest token first, and commits them.
fn make_events<C: MainCode, A: Allocator + Clone, L: Log>(
    runner: &mut Runner<'_, C, A, L>,
    mesh: &NearMesh<A>,
    shape: &Shape<'_, C>,
) -> Result<Option<Halt>, Lost>
    requires good { IsGoodSetting (setting_in C.program C.width shape.now) }
    requires runs { Runs L.KEEPS_EVENTS (setting_in C.program C.width shape.now) mesh.now runner.old }
    requires clear { IsClear runner.old }
    ensures stays { StaysAt runner.old runner.new }
    ensures keeps { OnOk result (Keeps L.KEEPS_EVENTS (setting_in C.program C.width shape.now) mesh.now runner.old runner.new) }
    ensures halts { IfOk result (λ halt. HaltsFreely Take.Oldest (setting_in C.program C.width shape.now) false (held_of runner.new.lane) halt) }
    ensures whole { IfOk result (λ halt. halt ≡ None → HasNoReason Take.Oldest (setting_in C.program C.width shape.now) (held_of runner.new.lane)) }
    ensures unbundled { (runner.new.unqueued.tokens ≡ []) × (runner.new.bundled ≡ 0) }
    ensures few { runner.new.lane.held.made ≤ runner.old.lane.held.made + turn_of (setting_in C.program C.width shape.now)
        runner.old.lane.held.part.shape.element }
{
    let before = runner.lane.queue().len() as u64;
    let first = runner.lane.made();
    let turn = turn_of(shape, runner.lane.element());
    let Runner {
        lane,
        sent,
        log,
        ..
    } = runner;
    let halt = take_turn(lane, sent, log, turn);
    let events = runner.lane.made() - first;
    let spent = events.min(before);
    commit(runner, mesh, shape, before, events, spent)?;
    Ok(halt)
}

// Makes a turn of events by depth, and commits them. There are `ordinary` tokens that the element does not hold back.
fn make_events_by_depth<C: MainCode, A: Allocator + Clone, L: Log>(
    runner: &mut Runner<'_, C, A, L>,
    mesh: &NearMesh<A>,
    shape: &Shape<'_, C>,
    ordinary: u128,
) -> Result<Option<Halt>, Lost>
    requires good { IsGoodSetting (setting_in C.program C.width shape.now) }
    requires runs { Runs L.KEEPS_EVENTS (setting_in C.program C.width shape.now) mesh.now runner.old }
    requires clear { IsClear runner.old }
    requires first { runner.old.lane.held.part.shape.element ≡ 0 }
    requires few { ordinary < 2 ^ 80 }
    ensures stays { StaysAt runner.old runner.new }
    ensures keeps { OnOk result (Keeps L.KEEPS_EVENTS (setting_in C.program C.width shape.now) mesh.now runner.old runner.new) }
    ensures halts { IfOk result (λ halt. HaltsFreely Take.Depth (setting_in C.program C.width shape.now) false (held_of runner.new.lane) halt) }
    ensures whole { IfOk result (λ halt. halt ≡ None → HasNoReason Take.Depth (setting_in C.program C.width shape.now) (held_of runner.new.lane)) }
    ensures unbundled { (runner.new.unqueued.tokens ≡ []) × (runner.new.bundled ≡ 0) }
    ensures few { runner.new.lane.held.made ≤ runner.old.lane.held.made + turn_of (setting_in C.program C.width shape.now)
        runner.old.lane.held.part.shape.element }
{
    let before = runner.lane.queue().len() as u64;
    let first = runner.lane.made();
    let turn = turn_of(shape, runner.lane.element());
    let Runner {
        lane,
        sent,
        log,
        order,
        ..
    } = runner;
    let turned = take_turn_by_depth(lane, order, sent, log, turn, ordinary);
    let events = runner.lane.made() - first;
    commit(runner, mesh, shape, before, events, turned.spent)?;
    Ok(turned.halt)
}

// Makes a block of events, if the element has a token and the gate lets it.
fn make_block_by_age<C: MainCode, A: Allocator + Clone, L: Log, G: Gate>(
    runner: &mut Runner<'_, C, A, L>,
    mesh: &NearMesh<A>,
    shape: &Shape<'_, C>,
    gate: &G,
) -> Result<Option<Halt>, Lost>
    requires good { IsGoodSetting (setting_in C.program C.width shape.now) }
    requires runs { Runs L.KEEPS_EVENTS (setting_in C.program C.width shape.now) mesh.now runner.old }
    requires clear { IsClear runner.old }
    ensures stays { StaysAt runner.old runner.new }
    ensures keeps { OnOk result (Keeps L.KEEPS_EVENTS (setting_in C.program C.width shape.now) mesh.now runner.old runner.new) }
    ensures halts { IfOk result (λ halt. HaltsFreely Take.Oldest (setting_in C.program C.width shape.now) G.may_stop (held_of runner.new.lane) halt) }
    ensures whole { IfOk result (λ halt. halt ≡ None → HasNoReason Take.Oldest (setting_in C.program C.width shape.now) (held_of runner.new.lane)) }
    ensures unbundled { (runner.new.unqueued.tokens ≡ []) × (runner.new.bundled ≡ 0) }
    ensures few { runner.new.lane.held.made ≤ runner.old.lane.held.made + turn_of (setting_in C.program C.width shape.now)
        runner.old.lane.held.part.shape.element }
{
    if runner.lane.queue().len() == 0 {
        return Ok(None);
    }
    if !gate.go_on(runner.lane.element(), runner.blocks) {
        return Ok(Some(Halt::Stop));
    }
    runner.blocks = runner.blocks.wrapping_add(1);
    make_events(runner, mesh, shape)
}

// The same where the element holds requests for frames back. It makes no block where it has no token but such requests, and grants none of them.
fn make_block_by_depth<C: MainCode, A: Allocator + Clone, L: Log, G: Gate>(
    runner: &mut Runner<'_, C, A, L>,
    mesh: &NearMesh<A>,
    shape: &Shape<'_, C>,
    gate: &G,
) -> Result<Option<Halt>, Lost>
    requires good { IsGoodSetting (setting_in C.program C.width shape.now) }
    requires runs { Runs L.KEEPS_EVENTS (setting_in C.program C.width shape.now) mesh.now runner.old }
    requires clear { IsClear runner.old }
    requires first { runner.old.lane.held.part.shape.element ≡ 0 }
    ensures stays { StaysAt runner.old runner.new }
    ensures keeps { OnOk result (Keeps L.KEEPS_EVENTS (setting_in C.program C.width shape.now) mesh.now runner.old runner.new) }
    ensures halts { IfOk result (λ halt. HaltsFreely Take.Depth (setting_in C.program C.width shape.now) G.may_stop (held_of runner.new.lane) halt) }
    ensures whole { IfOk result (λ halt. halt ≡ None → HasNoReason Take.Depth (setting_in C.program C.width shape.now) (held_of runner.new.lane)) }
    ensures unbundled { (runner.new.unqueued.tokens ≡ []) × (runner.new.bundled ≡ 0) }
    ensures few { runner.new.lane.held.made ≤ runner.old.lane.held.made + turn_of (setting_in C.program C.width shape.now)
        runner.old.lane.held.part.shape.element }
{
    let tokens = runner.lane.queue().len();
    if tokens == 0 {
        return Ok(None);
    }
    let held = requests_before(runner.lane.queue(), 0);
    let ordinary = live_besides(runner, mesh, shape, held);
    if held == tokens && !are_few(&runner.lane, ordinary) {
        return Ok(None);
    }
    if !gate.go_on(runner.lane.element(), runner.blocks) {
        return Ok(Some(Halt::Stop));
    }
    runner.blocks = runner.blocks.wrapping_add(1);
    make_events_by_depth(runner, mesh, shape, ordinary)
}

/// Makes a block of events in this order of the tokens, if the element has a token that it may take and the gate lets it.
pub fn make_block<C: MainCode, A: Allocator + Clone, L: Log, G: Gate>(
    runner: &mut Runner<'_, C, A, L>,
    mesh: &NearMesh<A>,
    shape: &Shape<'_, C>,
    gate: &G,
    order: Take,
) -> Result<Option<Halt>, Lost>
    requires good { IsGoodSetting (setting_in C.program C.width shape.now) }
    requires runs { Runs L.KEEPS_EVENTS (setting_in C.program C.width shape.now) mesh.now runner.old }
    requires clear { IsClear runner.old }
    ensures stays { StaysAt runner.old runner.new }
    ensures keeps { OnOk result (Keeps L.KEEPS_EVENTS (setting_in C.program C.width shape.now) mesh.now runner.old runner.new) }
    ensures halts { IfOk result (λ halt. HaltsFreely order (setting_in C.program C.width shape.now) G.may_stop (held_of runner.new.lane) halt) }
    ensures whole { IfOk result (λ halt. halt ≡ None → HasNoReason order (setting_in C.program C.width shape.now) (held_of runner.new.lane)) }
    ensures unbundled { (runner.new.unqueued.tokens ≡ []) × (runner.new.bundled ≡ 0) }
    ensures few { runner.new.lane.held.made ≤ runner.old.lane.held.made + turn_of (setting_in C.program C.width shape.now)
        runner.old.lane.held.part.shape.element }
{
    match order {
        Take::Oldest => make_block_by_age(runner, mesh, shape, gate),
        Take::Depth => {
            if runner.lane.element() == 0 {
                make_block_by_depth(runner, mesh, shape, gate)
            } else {
                make_block_by_age(runner, mesh, shape, gate)
            }
        }
    }
}
