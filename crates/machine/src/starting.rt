//! Runners are made of lanes and seats, and taken apart.

ghost use Rattle.std.specs.Prelude.{◌≡◌, ℕ, [], ◌++◌, length, map, All, OnOk, IfOk};
ghost use Rattle.crossbeam_utils.specs.Padded.{padded_value};
ghost use Rattle.element.specs.Holding.{held_of, fixed_of};
ghost use Rattle.element.specs.Near.{Bounds};
ghost use Rattle.schedule.specs.State.{tokens_in};
ghost use Rattle.machine.specs.Bundles.{bounds_within};
ghost use Rattle.machine.specs.Starts.{AreBlank, AreEmpty, IsNew, lanes_in, lanes_fixed, seats_in, logs_in};

use crate::belongings::Belongings;
use crate::bundle::{NearBundle, NearSeat, Reach};
use crate::runner::{Departure, Runner};
use crossbeam_utils::CachePadded;
use element::grant_order::GrantOrder;
use element::instructions::Instructions;
use element::lane::Lane;
use ordering::log::BlockLog;
use schedule::log::{EventLog, Log};
use std::alloc::{AllocError, Allocator};
use tags::token::Token;

// Puts the tokens of a lane after others.
fn list_queue<C: Instructions, A: Allocator>(
    lane: &Lane<'_, C, A>,
    tokens: &mut Vec<Token, A>,
) -> Result<(), AllocError>
    ensures { OnOk result (tokens.new.items ≡ tokens.old.items ++ lane.now.held.queue) }
{
    let queue = lane.queue();
    for at in 0..queue.len() {
        tokens.push(queue.get(at))?;
    }
    Ok(())
}

/// All tokens of the lanes, in order.
pub fn tokens_of<C: Instructions, A: Allocator>(
    alloc: A,
    lanes: &[Lane<'_, C, A>],
) -> Result<Vec<Token, A>, AllocError>
    ensures { IfOk result (λ tokens. tokens.items ≡ tokens_in (map held_of lanes.now)) }
{
    let mut tokens = Vec::new(alloc);
    for at in 0..lanes.len() {
        list_queue(&lanes[at], &mut tokens)?;
    }
    Ok(tokens)
}

// An empty bundle for each element.
fn bundles<A: Allocator + Clone>(
    alloc: &A,
    elements: u32,
    reach: Reach,
) -> Result<Vec<NearBundle<A>, A>, AllocError>
    ensures { IfOk result (λ all. AreEmpty elements (bounds_within reach) all.items) }
{
    let mut all = Vec::with_capacity(alloc.clone()?, elements as usize)?;
    for _to in 0..elements {
        all.push(NearBundle::new(alloc.clone()?, reach))?;
    }
    Ok(all)
}

fn belongings<A: Allocator + Clone, L: Log>(
    alloc: &A,
    elements: u32,
    reach: Reach,
) -> Result<Belongings<A, L>, AllocError>
    ensures { IfOk result (AreBlank elements (bounds_within reach)) }
{
    let unposted = bundles(alloc, elements, reach)?;
    let sent = Vec::new(alloc.clone()?);
    let unqueued = NearBundle::new(alloc.clone()?, reach);
    let spare = Vec::with_capacity(alloc.clone()?, elements as usize)?;
    let log = EventLog::new(alloc.clone()?);
    let order = GrantOrder::new(alloc)?;
    let notes = BlockLog::new(alloc.clone()?)?;
    Ok(Belongings {
        sent,
        unposted,
        unqueued,
        spare,
        log,
        order,
        notes,
        alloc: alloc.clone()?,
    })
}

fn runner<'m, C: Instructions, A: Allocator, L: Log>(
    lane: Lane<'m, C, A>,
    seat: NearSeat<A>,
    belongings: Belongings<A, L>,
) -> Runner<'m, C, A, L>
    ensures new { (n : ℕ) (b : Bounds) → AreBlank n b belongings → IsNew n b result }
    ensures parts { (result.lane ≡ lane.entry) × (result.seat ≡ seat) }
{
    let Belongings {
        sent,
        unposted,
        unqueued,
        spare,
        log,
        order,
        notes,
        alloc,
    } = belongings;
    Runner {
        lane,
        seat,
        sent,
        bundled: 0,
        unposted,
        unqueued,
        spare,
        log,
        order,
        notes,
        created: 0,
        blocks: 0,
        departure: Departure::Lost,
        alloc,
    }
}

/// A runner for each lane, with the seat of its element, in order.
pub fn runners_of<'m, C: Instructions, A: Allocator + Clone, L: Log>(
    alloc: &A,
    mut lanes: Vec<Lane<'m, C, A>, A>,
    mut seats: Vec<NearSeat<A>, A>,
    elements: u32,
    reach: Reach,
) -> Result<Vec<CachePadded<Runner<'m, C, A, L>>, A>, AllocError>
    requires { length seats.items ≡ length lanes.items }
    ensures lanes { IfOk result (λ ps. lanes_in ps.items ≡ map held_of lanes.entry.items) }
    ensures fixed { IfOk result (λ ps. lanes_fixed ps.items ≡ map fixed_of lanes.entry.items) }
    ensures seats { IfOk result (λ ps. seats_in ps.items ≡ seats.items) }
    ensures new { IfOk result (λ ps. All (λ p. IsNew elements (bounds_within reach) (padded_value p)) ps.items) }
{
    let mut runners = Vec::with_capacity(alloc.clone()?, lanes.len())?;
    'each: for _at in 0..lanes.len() {
        let belongings = belongings(alloc, elements, reach)?;
        let lane = lanes.remove(0);
        let seat = seats.remove(0);
        let one = runner(lane, seat, belongings);
        runners.push(CachePadded::new(one))?;
    }
    Ok(runners)
}

/// Takes the runners apart into lanes, seats and notes, in order.
pub fn parts_in<'m, C: Instructions, A: Allocator, L: Log>(
    runners: Vec<CachePadded<Runner<'m, C, A, L>>, A>,
    lanes: &mut Vec<Lane<'m, C, A>, A>,
    seats: &mut Vec<NearSeat<A>, A>,
    logs: &mut Vec<BlockLog<A>, A>,
) -> Result<(), AllocError>
    requires { (lanes.old.items ≡ []) × (seats.old.items ≡ []) × (logs.old.items ≡ []) }
    ensures lanes { OnOk result (map held_of lanes.new.items ≡ lanes_in runners.entry.items) }
    ensures seats { OnOk result (seats.new.items ≡ seats_in runners.entry.items) }
    ensures logs { OnOk result (logs.new.items ≡ logs_in runners.entry.items) }
{
    for padded in runners {
        let Runner {
            lane,
            seat,
            notes,
            ..
        } = padded.into_inner();
        lanes.push(lane)?;
        seats.push(seat)?;
        logs.push(notes)?;
    }
    Ok(())
}
