//! Free runs.

ghost use Rattle.std.specs.Prelude.{◌≡◌, ◌≢◌, ◌<◌, ◌≤◌, ◌^◌, [], ℕ, ℤ, List, length, map, All, IfOk, IfSome, IfNone, OnOk, Some, true, false, slice_get};
ghost use Rattle.crossbeam_utils.specs.Padded.{padded_value};
ghost use Rattle.semantics.specs.Machine.{Events};
ghost use Rattle.semantics.specs.declared.report.End.{End};
ghost use Rattle.schedule.specs.Shown.{ShowsInOrder};
ghost use Rattle.element.specs.Holding.{held_of, fixed_of};
ghost use Rattle.schedule.specs.Setting.{size, IsGoodSetting};
ghost use Rattle.schedule.specs.State.{IsSoundState, RunsAs, setting_in, tokens_in};
ghost use Rattle.schedule.specs.Runs.{Began};
ghost use Rattle.schedule.specs.Unlisted.{ShowsQuietly, with_events};
ghost use Rattle.mesh.specs.Seats.{AreFresh};
ghost use Rattle.rounds.specs.Turns.{arriving};
ghost use Rattle.rounds.specs.Counted.{IsFirst, NoneHalts};
ghost use Rattle.rounds.specs.Rounds.{ShowsOn};
ghost use Rattle.machine.specs.declared.runner.Departure.{Departure};
ghost use Rattle.machine.specs.Bundles.{bounds_within};
ghost use Rattle.machine.specs.Runners.{Runs, IsClear, Ended};
ghost use Rattle.machine.specs.Ends.{reasons_of, EndsFreely, EndsTaking, EndsOn};
ghost use Rattle.machine.specs.Starts.{IsNew, Lists, lanes_in, lanes_fixed, seats_in, departures_in, IsHaltOf, AllWait, AllEnded};

use crate::attendance::Attendance;
use crate::bundle::{NearMesh, NearSeat, Reach};
use crate::runner::{Departure, Runner};
use crate::starting::{parts_in, runners_of, tokens_of};
use crate::turns;
use crossbeam_utils::CachePadded;
use element::instructions::Instructions;
use element::lane::Lane;
use mesh::Mesh;
use ordering::log::BlockLog;
use ordering::order;
use rounds::Gate;
use schedule::halt::Halt;
use schedule::log::Log;
use schedule::machine::Machine;
use schedule::main_code::MainCode;
use schedule::report::Report;
use schedule::setup::Setup;
use schedule::shape::Shape;
use schedule::take::Take;
use std::alloc::{AllocError, Allocator};
use std::sync::Wait;
use std::thread;
use std::thread::Threads;
use tags::token::Token;

// In how many threads so many elements run: in the first pass each has one of its own.
fn threads_of(is_first: bool, elements: usize) -> usize
    requires { 0 < elements }
    ensures { 0 < result }
{
    if is_first { elements } else { 1 }
}

// All elements run. In the first pass they begin, each in a thread of its own; in another one this thread runs one after the other.
fn run_each<
    R: Threads + Wait + Sync,
    C: MainCode + Sync,
    A: Allocator + Clone + Send + Sync,
    L: Log + Send,
    G: Gate + Sync,
>(
    rt: &R,
    runners: &mut [CachePadded<Runner<'_, C, A, L>>],
    mesh: &NearMesh<A>,
    shape: &Shape<'_, C>,
    gate: &G,
    attendance: &Attendance,
    take: Take,
    is_first: bool,
)
    requires some { 0 < length runners.old }
    requires good { IsGoodSetting (setting_in C.program C.width shape.now) }
    requires ready { All (λ p. Runs L.KEEPS_EVENTS (setting_in C.program C.width shape.now) mesh.now (padded_value p) × IsClear (padded_value p)) runners.old }
    ensures each { AllEnded take L.KEEPS_EVENTS (setting_in C.program C.width shape.now) mesh.now G.may_stop runners.old runners.new }
    ensures count { length runners.new ≡ length runners.old }
{
    let threads = threads_of(is_first, runners.len());
    thread::for_each_mut(
        rt,
        runners,
        threads,
        &|_: usize, padded: &mut CachePadded<Runner<'_, C, A, L>>| -> ()
            requires { IsGoodSetting (setting_in C.program C.width shape.now) × Runs L.KEEPS_EVENTS (setting_in C.program C.width shape.now) mesh.now
                (padded_value padded.old) × IsClear (padded_value padded.old) }
            ensures { Ended take L.KEEPS_EVENTS (setting_in C.program C.width shape.entry.now) mesh.entry.now G.may_stop (padded_value padded.old)
                (padded_value padded.new) }
        {
            let runner: &mut Runner<'_, C, A, L> = padded;
            if is_first {
                turns::begin(runner, gate, attendance);
            }
            turns::run(rt, runner, mesh, shape, gate, attendance, take);
        },
    );
}

// Whether all elements have waited in vain.
fn all_wait<C: Instructions, A: Allocator, L: Log>(
    runners: &[CachePadded<Runner<'_, C, A, L>>],
) -> bool
    ensures { result ≡ true → AllWait runners.now }
{
    for at in 0..runners.len() {
        let runner: &Runner<'_, C, A, L> = &runners[at];
        let Departure::Waited = runner.departure else {
            return false;
        };
    }
    true
}

// All elements run until one of them halts or is lost, or sees that no token is live. Where some threads could not be started the others
// wait for them in vain. Then no element has a token that it could take, but there are tokens in mailboxes or bundles: so in each pass after the
// first one an element goes on, until it has none.
fn run_passes<
    R: Threads + Wait + Sync,
    C: MainCode + Sync,
    A: Allocator + Clone + Send + Sync,
    L: Log + Send,
    G: Gate + Sync,
>(
    rt: &R,
    runners: &mut [CachePadded<Runner<'_, C, A, L>>],
    mesh: &NearMesh<A>,
    shape: &Shape<'_, C>,
    gate: &G,
    take: Take,
)
    requires some { 0 < length runners.old }
    requires good { IsGoodSetting (setting_in C.program C.width shape.now) }
    requires ready { All (λ p. Runs L.KEEPS_EVENTS (setting_in C.program C.width shape.now) mesh.now (padded_value p) × IsClear (padded_value p)) runners.old }
    ensures each { AllEnded take L.KEEPS_EVENTS (setting_in C.program C.width shape.now) mesh.now G.may_stop runners.old runners.new }
    ensures count { length runners.new ≡ length runners.old }
{
    let attendance = Attendance::new();
    run_each(rt, runners, mesh, shape, gate, &attendance, take, true);
    'passes: for _pass in 0..u64::MAX {
        if !all_wait(runners) {
            return;
        }
        run_each(rt, runners, mesh, shape, gate, &attendance, take, false);
    }
}

// All elements run.
fn run_all<
    R: Threads + Wait + Sync,
    C: MainCode + Sync,
    A: Allocator + Clone + Send + Sync,
    L: Log + Send,
    G: Gate + Sync,
>(
    rt: &R,
    runners: &mut Vec<CachePadded<Runner<'_, C, A, L>>, A>,
    mesh: &NearMesh<A>,
    shape: &Shape<'_, C>,
    gate: &G,
    take: Take,
)
    requires some { 0 < length runners.old.items }
    requires good { IsGoodSetting (setting_in C.program C.width shape.now) }
    requires ready { All (λ p. Runs L.KEEPS_EVENTS (setting_in C.program C.width shape.now) mesh.now (padded_value p) × IsClear (padded_value p))
        runners.old.items }
    ensures each { AllEnded take L.KEEPS_EVENTS (setting_in C.program C.width shape.now) mesh.now G.may_stop runners.old.items runners.new.items }
    ensures count { length runners.new.items ≡ length runners.old.items }
{
    run_passes(rt, runners, mesh, shape, gate, take);
}

// Whether an element is lost.
fn is_lost<C: Instructions, A: Allocator, L: Log>(
    runners: &[CachePadded<Runner<'_, C, A, L>>],
) -> bool
    ensures { result ≡ false → (i : ℕ) → slice_get (departures_in runners.now) i ≡ Some Departure.Lost → ⊥ }
{
    for at in 0..runners.len() {
        let runner: &Runner<'_, C, A, L> = &runners[at];
        if let Departure::Lost = runner.departure {
            return true;
        }
    }
    false
}

// The reason of the element of least number that halted for one of its own.
fn first_halt<C: Instructions, A: Allocator, L: Log>(
    runners: &[CachePadded<Runner<'_, C, A, L>>],
) -> Option<Halt>
    ensures least { IfSome result (IsFirst (reasons_of (departures_in runners.now))) }
    ensures none { IfNone result (NoneHalts (reasons_of (departures_in runners.now))) }
{
    for at in 0..runners.len() {
        let runner: &Runner<'_, C, A, L> = &runners[at];
        if let Departure::Halted(halt) = runner.departure {
            return Some(halt);
        }
    }
    None
}

// Whether an element saw that no token is live.
fn is_rested<C: Instructions, A: Allocator, L: Log>(
    runners: &[CachePadded<Runner<'_, C, A, L>>],
) -> bool
    ensures { result ≡ true → (e : ℕ) × (slice_get (departures_in runners.now) e ≡ Some Departure.Rested) }
{
    for at in 0..runners.len() {
        let runner: &Runner<'_, C, A, L> = &runners[at];
        if let Departure::Rested = runner.departure {
            return true;
        }
    }
    false
}

// Why the run halted, if that can be reported.
fn why<C: Instructions, A: Allocator, L: Log>(
    runners: &[CachePadded<Runner<'_, C, A, L>>],
) -> Option<Halt>
    ensures { IfSome result (IsHaltOf (departures_in runners.now)) }
{
    if is_lost(runners) {
        return None;
    }
    match first_halt(runners) {
        Some(halt) => Some(halt),
        None => {
            if is_rested(runners) {
                Some(Halt::NoToken)
            } else {
                None
            }
        }
    }
}

// What a run is made of: the mesh and the runners, room for the lanes, the seats and the logs on the way back, and the tokens that
// the lanes have.
#[derive(Drop)]
struct Ready<'m, C: Instructions, A: Allocator, L: Log> {
    mesh: NearMesh<A>,
    runners: Vec<CachePadded<Runner<'m, C, A, L>>, A>,
    lanes: Vec<Lane<'m, C, A>, A>,
    seats: Vec<NearSeat<A>, A>,
    logs: Vec<BlockLog<A>, A>,
    tokens: Vec<Token, A>,
}

fn make_ready<'m, C: Instructions, A: Allocator + Clone, L: Log>(
    alloc: &A,
    lanes: Vec<Lane<'m, C, A>, A>,
    elements: u32,
    reach: Reach,
) -> Result<Ready<'m, C, A, L>, AllocError>
    requires elements { (0 < elements) × (elements ≤ 16) }
    requires count { length lanes.items ≡ elements }
    ensures mesh { IfOk result (λ r. (r.mesh.elements ≡ elements) × (r.mesh.start ≡ tokens_in (map held_of lanes.entry.items))) }
    ensures lanes { IfOk result (λ r. (lanes_in r.runners.items ≡ map held_of lanes.entry.items) × (length r.runners.items ≡ elements)) }
    ensures fixed { IfOk result (λ r. lanes_fixed r.runners.items ≡ map fixed_of lanes.entry.items) }
    ensures seats { IfOk result (λ r. AreFresh r.mesh (seats_in r.runners.items)) }
    ensures new { IfOk result (λ r. All (λ p. IsNew elements (bounds_within reach) (padded_value p)) r.runners.items) }
    ensures room { IfOk result (λ r. (r.lanes.items ≡ []) × (r.seats.items ≡ []) × (r.logs.items ≡ [])) }
    ensures tokens { IfOk result (λ r. r.tokens.items ≡ tokens_in (map held_of lanes.entry.items)) }
{
    let spare = Vec::with_capacity(alloc.clone()?, lanes.len())?;
    let back = Vec::with_capacity(alloc.clone()?, lanes.len())?;
    let logs = Vec::with_capacity(alloc.clone()?, lanes.len())?;
    let tokens = tokens_of(alloc.clone()?, &lanes)?;
    if tokens.len() > 1 << 40 {
        return Err(AllocError);
    }
    let Ok((mesh, seats)) = Mesh::new(alloc.clone()?, elements, &tokens) else {
        return Err(AllocError);
    };
    let runners = runners_of(alloc, lanes, seats, elements, reach)?;
    Ok(Ready {
        mesh,
        runners,
        lanes: spare,
        seats: back,
        logs,
        tokens,
    })
}

// Lists the events of all blocks, where events are listed, after those that are listed already.
fn list_events<C: MainCode, A: Allocator + Clone, L: Log>(
    setup: &mut Setup<'_, C, A, L>,
    logs: &[BlockLog<A>],
    opening: &[Token],
) -> Result<(), AllocError>
    requires few { length logs.now < 2 ^ 32 }
    ensures setting { setting_in C.program C.width setup.new.shape ≡ setting_in C.program C.width setup.old.shape }
    ensures unlisted { L.KEEPS_EVENTS ≡ false → setup.new.log.events.items ≡ setup.old.log.events.items }
    ensures keeps_events { OnOk result (L.KEEPS_EVENTS ≡ true → Lists logs.now opening.now setup.old.log.events.items setup.new.log.events.items) }
{
    if !L::KEEPS_EVENTS {
        return Ok(());
    }
    let mut events = order(logs, opening, setup.alloc.clone()?)?;
    setup.log.events.append(&mut events)?;
    Ok(())
}

fn run_apart<
    R: Threads + Wait + Sync,
    C: MainCode + Sync,
    A: Allocator + Clone + Send + Sync,
    L: Log + Send,
    G: Gate + Sync,
>(
    mut setup: Setup<'_, C, A, L>,
    lanes: Vec<Lane<'_, C, A>, A>,
    take: Take,
    rt: &R,
    gate: &G,
) -> Report<A>
    requires sound { IsSoundState (arriving (setting_in C.program C.width setup.shape) (map held_of lanes.items) []) }
    requires runs { All (RunsAs (setting_in C.program C.width setup.shape)) (map fixed_of lanes.items) }
    ensures unlisted { L.KEEPS_EVENTS ≡ false → setup.entry.log.events.items ≡ [] → result.events ≡ [] }
    ensures ends { (inputs : List ℤ) (events : Events)
        → Began inputs (arriving (setting_in C.program C.width setup.entry.shape) (map held_of lanes.entry.items) []) events → result.end ≢ End.Memory
        → EndsOn take L.KEEPS_EVENTS (setting_in C.program C.width setup.entry.shape) inputs G.may_stop setup.entry.log.events.items events result }
    ensures shows { (inputs : List ℤ) (events : Events)
        → Began inputs (arriving (setting_in C.program C.width setup.entry.shape) (map held_of lanes.entry.items) []) events
        → ShowsOn L.KEEPS_EVENTS (C.program setup.entry.shape.code.now) (size (setting_in C.program C.width setup.entry.shape)) inputs
        setup.entry.shape.steps G.may_stop setup.entry.log.events.items events result }
{
    let reach = Reach::of(&setup.shape);
    let elements = setup.shape.elements;
    let Ok(ready) = make_ready::<C, A, L>(&setup.alloc, lanes, elements, reach) else {
        return setup.refused();
    };
    let Ready {
        mesh,
        mut runners,
        mut lanes,
        mut seats,
        mut logs,
        tokens,
    } = ready;
    run_all(rt, &mut runners, &mesh, &setup.shape, gate, take);
    let Some(halt) = why(&runners) else {
        return setup.refused();
    };
    let Ok(()) = parts_in(runners, &mut lanes, &mut seats, &mut logs) else {
        return setup.refused();
    };
    let _joined = mesh.join_seats(seats);
    match list_events(&mut setup, &logs, &tokens) {
        Ok(()) => setup.report(lanes, halt),
        Err(_) => setup.refused(),
    }
}

// Lets all elements run freely in this order of their tokens, with what is reported of the run.
fn run_machine<
    R: Threads + Wait + Sync,
    C: MainCode + Sync,
    A: Allocator + Clone + Send + Sync,
    L: Log + Send,
    G: Gate + Sync,
>(machine: Machine<'_, C, A, L>, take: Take, rt: &R, gate: &G) -> Report<A>
    ensures unlisted { L.KEEPS_EVENTS ≡ false → machine.entry.events ≡ [] → result.events ≡ [] }
    ensures ends { (inputs : List ℤ) (events : Events) → Began inputs machine.entry.state events → result.end ≢ End.Memory
        → EndsOn take L.KEEPS_EVENTS machine.entry.state.setting inputs G.may_stop machine.entry.events events result }
    ensures shows { (inputs : List ℤ) (events : Events) → Began inputs machine.entry.state events
        → ShowsOn L.KEEPS_EVENTS machine.entry.state.setting.program (size machine.entry.state.setting) inputs machine.entry.state.setting.steps
        G.may_stop machine.entry.events events result }
{
    match machine.into_lanes() {
        Ok((setup, lanes)) => run_apart(setup, lanes, take, rt, gate),
        Err(machine) => machine.report(Halt::Memory),
    }
}

/// Lets all elements run freely until the run halts, and reports. Each element runs in a thread of its own from the first event to the last: it enters the gate
/// once, and then repeatedly takes what others posted to it, asks the gate, makes a block of events with its oldest tokens, commits it, and posts what it made for
/// others. A block has up to `turn` events; one of element 0, which others ask for frames, up to an eighth of them, where there are others and `turn` is 128 or
/// more. Where several elements halt, the one of least number says why the run does. The events are listed block by block, in a legal order. Where threads could not
/// be started, elements that have no token do not wait for those that have not begun: they leave, and then this thread runs all elements, one after the other,
/// again and again.
pub fn run<
    R: Threads + Wait + Sync,
    C: MainCode + Sync,
    A: Allocator + Clone + Send + Sync,
    G: Gate + Sync,
>(machine: Machine<'_, C, A>, rt: &R, gate: &G) -> Report<A>
    ensures shows { (inputs : List ℤ) → Began inputs machine.entry.state machine.entry.events → ShowsInOrder machine.entry.state.setting.program
        (size machine.entry.state.setting) inputs machine.entry.state.setting.steps false G.may_stop result }
    ensures ends { (inputs : List ℤ) → Began inputs machine.entry.state machine.entry.events → result.end ≢ End.Memory
        → EndsFreely machine.entry.state.setting inputs G.may_stop result }
{
    run_taking(machine, Take::Oldest, rt, gate)
}

/// As `run`, but the report lists no events: there is a run that it shows. A long run takes no more memory than a short one.
pub fn run_quietly<
    R: Threads + Wait + Sync,
    C: MainCode + Sync,
    A: Allocator + Clone + Send + Sync,
    G: Gate + Sync,
>(machine: Machine<'_, C, A>, rt: &R, gate: &G) -> Report<A>
    ensures shows { (inputs : List ℤ) → Began inputs machine.entry.state machine.entry.events → ShowsQuietly machine.entry.state.setting.program
        (size machine.entry.state.setting) inputs machine.entry.state.setting.steps false G.may_stop result }
    ensures ends { (inputs : List ℤ) → Began inputs machine.entry.state machine.entry.events → result.end ≢ End.Memory → (events : Events)
        × EndsFreely machine.entry.state.setting inputs G.may_stop (with_events result events) }
{
    run_quietly_taking(machine, Take::Oldest, rt, gate)
}

/// As `run`, in the given order of the tokens. By depth element 0 holds back the requests for frames that its queue begins with: at the beginning of a
/// block it grants some of them, as long as few other tokens are live, and then it takes its oldest other tokens. Where it has no token but such requests,
/// and few others are not left, it makes no block, and does not ask the gate: it waits for others as one that has no token.
pub fn run_taking<
    R: Threads + Wait + Sync,
    C: MainCode + Sync,
    A: Allocator + Clone + Send + Sync,
    G: Gate + Sync,
>(machine: Machine<'_, C, A>, take: Take, rt: &R, gate: &G) -> Report<A>
    ensures shows { (inputs : List ℤ) → Began inputs machine.entry.state machine.entry.events → ShowsInOrder machine.entry.state.setting.program
        (size machine.entry.state.setting) inputs machine.entry.state.setting.steps false G.may_stop result }
    ensures ends { (inputs : List ℤ) → Began inputs machine.entry.state machine.entry.events → result.end ≢ End.Memory
        → EndsTaking take machine.entry.state.setting inputs G.may_stop result }
{
    run_machine(machine, take, rt, gate)
}

/// As `run_quietly`, in the given order of the tokens.
pub fn run_quietly_taking<
    R: Threads + Wait + Sync,
    C: MainCode + Sync,
    A: Allocator + Clone + Send + Sync,
    G: Gate + Sync,
>(machine: Machine<'_, C, A>, take: Take, rt: &R, gate: &G) -> Report<A>
    ensures shows { (inputs : List ℤ) → Began inputs machine.entry.state machine.entry.events → ShowsQuietly machine.entry.state.setting.program
        (size machine.entry.state.setting) inputs machine.entry.state.setting.steps false G.may_stop result }
    ensures ends { (inputs : List ℤ) → Began inputs machine.entry.state machine.entry.events → result.end ≢ End.Memory → (events : Events)
        × EndsTaking take machine.entry.state.setting inputs G.may_stop (with_events result events) }
{
    run_machine(machine.without_events(), take, rt, gate)
}
