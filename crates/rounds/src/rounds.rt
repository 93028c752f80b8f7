//! Rounds.

ghost use Rattle.std.specs.Prelude.{◌≡◌, ◌<◌, ◌≤◌, ◌-◌, ◌^◌, ◌++◌, [], ℕ, ℤ, List, length, map, All, slice_index_or, IfOk, IfSome, IfNone, OnOk, Some, None, true, false};
ghost use Rattle.semantics.specs.Machine.{Events};
ghost use Rattle.schedule.specs.Shown.{ShowsInOrder};
ghost use Rattle.element.specs.Holding.{held_of, fixed_of};
ghost use Rattle.element.specs.Requests.{held_back};
ghost use Rattle.schedule.specs.Setting.{size};
ghost use Rattle.schedule.specs.State.{IsSoundState, RunsAs, setting_in, tokens_in};
ghost use Rattle.schedule.specs.Runs.{Began};
ghost use Rattle.schedule.specs.Apart.{so_far_of};
ghost use Rattle.schedule.specs.Unlisted.{ShowsQuietly, without_events};
ghost use Rattle.schedule.specs.declared.take.Take.{Take};
ghost use Rattle.schedule.specs.Turns.{others};
ghost use Rattle.rounds.specs.Counted.{IsFirst, NoneHalts, IsWhy, ReportsTaking, ReportsRounds};
ghost use Rattle.rounds.specs.Turns.{arriving};
ghost use Rattle.rounds.specs.ByDepth.{TookTaking};
ghost use Rattle.rounds.specs.Rounds.{lanes_held, lanes_fixed, tokens_sent, IsCleared, halts_in, IsBetween, Rounds, MadeRound, ShowsOn};

use crate::delivering::deliver_all;
use crate::gate::Gate;
use crate::gathering::{gather_events, gather_tokens};
use crate::turn::{Turner, make_turn_taking};
use element::grant_order::GrantOrder;
use element::instructions::Instructions;
use element::lane::Lane;
use element::requests::requests_before;
use packed::token::PackedToken;
use schedule::halt::Halt;
use schedule::log::{EventLog, Log};
use schedule::machine::Machine;
use schedule::main_code::MainCode;
use schedule::report::Report;
use schedule::setup::Setup;
use schedule::take::Take;
use std::alloc::{AllocError, Allocator};
use std::sync::Wait;
use std::thread;
use std::thread::Threads;
use token_queue::queue::TokenQueue;

// Where the elements of a round make their turns.
#[derive(Clone, Copy)]
enum Threading {
    // Each element in a thread of its own.
    Apart,
    // One element after another, in the thread of the caller.
    Together,
}

// How rounds are made: where, and in which order each element takes its tokens.
#[derive(Clone, Copy)]
struct Way {
    threading: Threading,
    take: Take,
}

// In how many threads so many elements make their turns.
fn threads_of(threading: Threading, elements: usize) -> usize
    requires { 0 < elements }
    ensures { 0 < result }
{
    match threading {
        Threading::Apart => elements,
        Threading::Together => 1,
    }
}

// How many tokens a queue has.
fn count<A: Allocator>(queue: &TokenQueue<A>) -> u128
    ensures exact { result ≡ length queue.now.items }
    ensures few { result < 2 ^ 64 }
{
    queue.len() as u128
}

// How many tokens it has besides the requests for frames that it begins with.
fn besides<A: Allocator>(queue: &TokenQueue<A>) -> u128
    ensures exact { result ≡ length queue.now.items - held_back queue.now.items }
    ensures few { result < 2 ^ 64 }
{
    (queue.len() - requests_before(queue, 0)) as u128
}

// How many tokens there are besides the requests for frames that the first element holds back.
fn ordinary<C: Instructions, A: Allocator, L: Log>(turners: &[Turner<'_, C, A, L>]) -> u128
    requires some { 0 < length turners.now }
    requires few { length turners.now ≤ 16 }
    ensures exact { result ≡ others (lanes_held turners.now) }
    ensures few { result < 2 ^ 80 }
{
    let mut tokens = besides(turners[0].lane.queue());
    for place in 1..turners.len() {
        tokens += count(turners[place].lane.queue());
    }
    tokens
}

// The same where element 0 holds requests back.
fn ordinary_in<C: Instructions, A: Allocator, L: Log>(
    take: Take,
    turners: &[Turner<'_, C, A, L>],
) -> u128
    requires some { 0 < length turners.now }
    requires few { length turners.now ≤ 16 }
    ensures exact { take ≡ Take.Depth → result ≡ others (lanes_held turners.now) }
    ensures few { result < 2 ^ 80 }
{
    match take {
        Take::Oldest => 0,
        Take::Depth => ordinary(turners),
    }
}

// Each element makes its turn.
fn make_turns<
    R: Threads + Sync,
    C: Instructions + Sync,
    A: Allocator + Clone + Send,
    L: Log + Send,
    G: Gate + Sync,
>(rt: &R, way: Way, turners: &mut [Turner<'_, C, A, L>], gate: &G, turn: u64, ordinary: u128)
    requires some { 0 < length turners.old }
    requires few { ordinary < 2 ^ 80 }
    ensures each { (i : ℕ) (d : _) → i < length turners.old → TookTaking way.take turn ordinary L.KEEPS_EVENTS G.may_stop (slice_index_or turners.old i d)
        (slice_index_or turners.new i d) }
    ensures count { length turners.new ≡ length turners.old }
{
    let threads = threads_of(way.threading, turners.len());
    thread::for_each_mut(
        rt,
        turners,
        threads,
        &|_: usize, turner: &mut Turner<'_, C, A, L>| -> ()
            requires { ordinary < 2 ^ 80 }
            ensures { TookTaking way.take turn ordinary L.KEEPS_EVENTS G.may_stop turner.old turner.new }
        { make_turn_taking(turner, gate, turn, way.take, ordinary) },
    );
}

// The first reason of an element to halt.
fn first_halt<C: Instructions, A: Allocator, L: Log>(
    turners: &[Turner<'_, C, A, L>],
) -> Option<Halt>
    ensures first { IfSome result (λ halt. IsFirst (halts_in turners.now) halt) }
    ensures none { IfNone result (NoneHalts (halts_in turners.now)) }
{
    for at in 0..turners.len() {
        if let Some(halt) = turners[at].halt {
            return Some(halt);
        }
    }
    None
}

// Whether no element has a token.
fn is_idle<C: Instructions, A: Allocator, L: Log>(turners: &[Turner<'_, C, A, L>]) -> bool
    ensures yes { result ≡ true → tokens_in (lanes_held turners.now) ≡ [] }
    ensures no { result ≡ false → 0 < length (tokens_in (lanes_held turners.now)) }
{
    for at in 0..turners.len() {
        if turners[at].lane.queue().len() != 0 {
            return false;
        }
    }
    true
}

// Why the run halts after a round, in which no token is on its way.
fn why<C: Instructions, A: Allocator, L: Log>(turners: &[Turner<'_, C, A, L>]) -> Option<Halt>
    ensures { IsWhy (lanes_held turners.now) (halts_in turners.now) result }
{
    match first_halt(turners) {
        Some(halt) => Some(halt),
        None => {
            if is_idle(turners) {
                Some(Halt::NoToken)
            } else {
                None
            }
        }
    }
}

// Each element makes its turn, and what they made is gathered; false where the list of tokens could not grow.
fn make_round<
    R: Threads + Sync,
    C: MainCode + Sync,
    A: Allocator + Clone + Send,
    L: Log + Send,
    G: Gate + Sync,
>(
    rt: &R,
    way: Way,
    setup: &mut Setup<'_, C, A, L>,
    turners: &mut [Turner<'_, C, A, L>],
    tokens: &mut Vec<PackedToken, A>,
    gate: &G,
) -> Result<bool, AllocError>
    requires some { 0 < length turners.old }
    requires between { IsBetween (setting_in C.program C.width setup.old.shape) turners.old }
    requires tokens { tokens.old.items ≡ [] }
    ensures setting { setting_in C.program C.width setup.new.shape ≡ setting_in C.program C.width setup.old.shape }
    ensures made { OnOk result (MadeRound way.take (setting_in C.program C.width setup.old.shape) L.KEEPS_EVENTS G.may_stop turners.old
        setup.old.log.events.items turners.new setup.new.log.events.items (tokens.new.items ++ tokens_sent turners.new)) }
    ensures all { IfOk result (λ all. all ≡ true → tokens_sent turners.new ≡ []) }
    ensures count { length turners.new ≡ length turners.old }
{
    let ordinary = ordinary_in(way.take, turners);
    make_turns(rt, way, turners, gate, setup.shape.turn, ordinary);
    gather_events(turners, &mut setup.log)?;
    match gather_tokens(turners, tokens) {
        Ok(()) => Ok(true),
        Err(_) => Ok(false),
    }
}

// A round of all elements.
fn make_whole_round<
    R: Threads + Sync,
    C: MainCode + Sync,
    A: Allocator + Clone + Send,
    L: Log + Send,
    G: Gate + Sync,
>(
    rt: &R,
    way: Way,
    setup: &mut Setup<'_, C, A, L>,
    turners: &mut Vec<Turner<'_, C, A, L>, A>,
    tokens: &mut Vec<PackedToken, A>,
    gate: &G,
) -> Result<bool, AllocError>
    requires some { 0 < length turners.old.items }
    requires between { IsBetween (setting_in C.program C.width setup.old.shape) turners.old.items }
    requires tokens { tokens.old.items ≡ [] }
    ensures setting { setting_in C.program C.width setup.new.shape ≡ setting_in C.program C.width setup.old.shape }
    ensures made { OnOk result (MadeRound way.take (setting_in C.program C.width setup.old.shape) L.KEEPS_EVENTS G.may_stop turners.old.items
        setup.old.log.events.items turners.new.items setup.new.log.events.items (tokens.new.items ++ tokens_sent turners.new.items)) }
    ensures all { IfOk result (λ all. all ≡ true → tokens_sent turners.new.items ≡ []) }
    ensures count { length turners.new.items ≡ length turners.old.items }
{
    make_round(rt, way, setup, turners, tokens, gate)
}

// One round: why the run halts after it, if it does. An error is that the list of events could not grow.
fn round<
    R: Threads + Sync,
    C: MainCode + Sync,
    A: Allocator + Clone + Send,
    L: Log + Send,
    G: Gate + Sync,
>(
    rt: &R,
    way: Way,
    setup: &mut Setup<'_, C, A, L>,
    turners: &mut Vec<Turner<'_, C, A, L>, A>,
    tokens: &mut Vec<PackedToken, A>,
    gate: &G,
) -> Result<Option<Halt>, AllocError>
    requires between { IsBetween (setting_in C.program C.width setup.old.shape) turners.old.items }
    requires tokens { tokens.old.items ≡ [] }
    ensures setting { setting_in C.program C.width setup.new.shape ≡ setting_in C.program C.width setup.old.shape }
    ensures rounds { IfOk result (λ halt. Rounds way.take (setting_in C.program C.width setup.old.shape) L.KEEPS_EVENTS G.may_stop 1 turners.old.items
        setup.old.log.events.items turners.new.items setup.new.log.events.items halt) }
    ensures tokens { IfOk result (λ halt. halt ≡ None → tokens.new.items ≡ []) }
{
    let all = make_whole_round(rt, way, setup, turners, tokens, gate)?;
    if !all {
        return Ok(Some(Halt::Memory));
    }
    match deliver_all(turners, setup.shape.elements, tokens) {
        Ok(()) => Ok(why(turners)),
        Err(_) => Ok(Some(Halt::Memory)),
    }
}

// Why a run halted, and after how many rounds.
#[derive(Clone, Copy)]
struct Played {
    halt: Halt,
    rounds: u64,
}

// Rounds until the run halts. An error is that the list of events could not grow.
fn play<
    R: Threads + Wait + Sync,
    C: MainCode + Sync,
    A: Allocator + Clone + Send,
    L: Log + Send,
    G: Gate + Sync,
>(
    rt: &R,
    way: Way,
    setup: &mut Setup<'_, C, A, L>,
    turners: &mut Vec<Turner<'_, C, A, L>, A>,
    tokens: &mut Vec<PackedToken, A>,
    gate: &G,
) -> Result<Played, AllocError>
    requires between { IsBetween (setting_in C.program C.width setup.old.shape) turners.old.items }
    requires tokens { tokens.old.items ≡ [] }
    ensures setting { setting_in C.program C.width setup.new.shape ≡ setting_in C.program C.width setup.old.shape }
    ensures rounds { IfOk result (λ p. Rounds way.take (setting_in C.program C.width setup.old.shape) L.KEEPS_EVENTS G.may_stop p.rounds turners.old.items
        setup.old.log.events.items turners.new.items setup.new.log.events.items (Some p.halt)) }
{
    let mut rounds = 0;
    'rounds: for _ in rt.forever() {
        rounds += 1;
        if let Some(halt) = round(rt, way, setup, turners, tokens, gate)? {
            return Ok(Played { halt, rounds });
        }
    }
    unreachable!()
}

// A lane before its first turn, with lists that are empty.
fn turner<'m, C: Instructions, A: Allocator, L: Log>(
    lane: Lane<'m, C, A>,
    sent: Vec<PackedToken, A>,
    log: EventLog<A, L>,
    order: GrantOrder<A>,
) -> Turner<'m, C, A, L>
    ensures lane { result.lane ≡ lane.entry }
    ensures lists { (result.sent.items ≡ sent.items) × (result.log.events.items ≡ log.events.items) }
{
    Turner {
        lane,
        sent,
        log,
        halt: None,
        blocks: 0,
        order,
    }
}

fn turners_of<'m, C: Instructions, A: Allocator, L: Log>(
    alloc: &A,
    mut lanes: Vec<Lane<'m, C, A>, A>,
) -> Result<Vec<Turner<'m, C, A, L>, A>, AllocError>
where
    A: Clone,
    ensures lanes { IfOk result (λ ts. lanes_held ts.items ≡ map held_of lanes.entry.items) }
    ensures fixed { IfOk result (λ ts. lanes_fixed ts.items ≡ map fixed_of lanes.entry.items) }
    ensures cleared { IfOk result (λ ts. IsCleared ts.items) }
{
    let mut turners = Vec::with_capacity(alloc.clone()?, lanes.len())?;
    'each: for _at in 0..lanes.len() {
        let sent = Vec::new(alloc.clone()?);
        let log = EventLog::new(alloc.clone()?);
        let order = GrantOrder::new(alloc)?;
        turners.push(turner(lanes.remove(0), sent, log, order))?;
    }
    Ok(turners)
}

// The lanes, in their order.
fn lanes_in<'m, C: Instructions, A: Allocator, L: Log>(
    turners: Vec<Turner<'m, C, A, L>, A>,
    lanes: &mut Vec<Lane<'m, C, A>, A>,
) -> Result<(), AllocError>
    requires { lanes.old.items ≡ [] }
    ensures { OnOk result (map held_of lanes.new.items ≡ lanes_held turners.entry.items) }
{
    for turner in turners {
        let Turner { lane, .. } = turner;
        lanes.push(lane)?;
    }
    Ok(())
}

type Ready<'m, C, A, L> = (
    Vec<Turner<'m, C, A, L>, A>,
    Vec<PackedToken, A>,
    Vec<Lane<'m, C, A>, A>,
);

fn ready<'m, C: Instructions, A: Allocator, L: Log>(
    alloc: &A,
    lanes: Vec<Lane<'m, C, A>, A>,
) -> Result<Ready<'m, C, A, L>, AllocError>
where
    A: Clone,
    ensures lanes { IfOk result (λ r. lanes_held r.0.items ≡ map held_of lanes.entry.items) }
    ensures fixed { IfOk result (λ r. lanes_fixed r.0.items ≡ map fixed_of lanes.entry.items) }
    ensures cleared { IfOk result (λ r. IsCleared r.0.items × (r.1.items ≡ []) × (r.2.items ≡ [])) }
{
    let spare = Vec::with_capacity(alloc.clone()?, lanes.len())?;
    let tokens = Vec::new(alloc.clone()?);
    let turners = turners_of(alloc, lanes)?;
    Ok((turners, tokens, spare))
}

/// The report of a run, and how many rounds it made.
#[derive(Drop)]
pub struct Counted<A: Allocator> {
    pub report: Report<A>,
    /// The round after which the run halted counts, too. Where memory was refused, and the report is that of the machine before its
    /// first event, the rounds need not be those that were made.
    pub rounds: u64,
}

fn run_apart<
    R: Threads + Wait + Sync,
    C: MainCode + Sync,
    A: Allocator + Clone + Send,
    L: Log + Send,
    G: Gate + Sync,
>(
    mut setup: Setup<'_, C, A, L>,
    lanes: Vec<Lane<'_, C, A>, A>,
    rt: &R,
    way: Way,
    gate: &G,
) -> Counted<A>
    requires sound { IsSoundState (arriving (setting_in C.program C.width setup.shape) (map held_of lanes.items) []) }
    requires runs { All (RunsAs (setting_in C.program C.width setup.shape)) (map fixed_of lanes.items) }
    ensures unlisted { L.KEEPS_EVENTS ≡ false → setup.entry.log.events.items ≡ [] → result.report.events ≡ [] }
    ensures shows { (inputs : List ℤ) (events : Events)
        → Began inputs (arriving (setting_in C.program C.width setup.entry.shape) (map held_of lanes.entry.items) []) events
        → ShowsOn L.KEEPS_EVENTS (C.program setup.entry.shape.code.now) (size (setting_in C.program C.width setup.entry.shape)) inputs
        setup.entry.shape.steps G.may_stop setup.entry.log.events.items events result.report }
    ensures truth { ReportsTaking way.take L.KEEPS_EVENTS G.may_stop (so_far_of C.program C.width setup.entry lanes.entry.items) result.rounds result.report }
{
    let Ok((mut turners, mut tokens, mut spare)) = ready(&setup.alloc, lanes) else {
        return unmade(setup.refused());
    };
    let Ok(played) = play(rt, way, &mut setup, &mut turners, &mut tokens, gate) else {
        return unmade(setup.refused());
    };
    match lanes_in(turners, &mut spare) {
        Ok(()) => Counted {
            report: setup.report(spare, played.halt),
            rounds: played.rounds,
        },
        Err(_) => unmade(setup.refused()),
    }
}

// The report of the machine before its first round.
fn unmade<A: Allocator>(report: Report<A>) -> Counted<A>
    ensures report { result.report ≡ report }
    ensures rounds { result.rounds ≡ 0 }
{
    Counted { report, rounds: 0 }
}

// Rounds until the run halts, with what is reported of it.
fn run_machine<
    R: Threads + Wait + Sync,
    C: MainCode + Sync,
    A: Allocator + Clone + Send,
    L: Log + Send,
    G: Gate + Sync,
>(machine: Machine<'_, C, A, L>, rt: &R, way: Way, gate: &G) -> Counted<A>
    ensures unlisted { L.KEEPS_EVENTS ≡ false → machine.entry.events ≡ [] → result.report.events ≡ [] }
    ensures shows { (inputs : List ℤ) (events : Events) → Began inputs machine.entry.state events
        → ShowsOn L.KEEPS_EVENTS machine.entry.state.setting.program (size machine.entry.state.setting) inputs machine.entry.state.setting.steps
        G.may_stop machine.entry.events events result.report }
    ensures truth { ReportsTaking way.take L.KEEPS_EVENTS G.may_stop machine.entry result.rounds result.report }
{
    match machine.into_lanes() {
        Ok((setup, lanes)) => run_apart(setup, lanes, rt, way, gate),
        Err(machine) => unmade(machine.report(Halt::Memory)),
    }
}

// Rounds until the run halts, with a report that lists the events.
fn run_listed<
    R: Threads + Wait + Sync,
    C: MainCode + Sync,
    A: Allocator + Clone + Send,
    G: Gate + Sync,
>(machine: Machine<'_, C, A>, rt: &R, way: Way, gate: &G) -> Counted<A>
    ensures shows { (inputs : List ℤ) → Began inputs machine.entry.state machine.entry.events → ShowsInOrder machine.entry.state.setting.program
        (size machine.entry.state.setting) inputs machine.entry.state.setting.steps false G.may_stop result.report }
    ensures truth { ReportsTaking way.take true G.may_stop machine.entry result.rounds result.report }
{
    run_machine(machine, rt, way, gate)
}

/// Makes rounds until the run halts, and reports. In each round every element asks the gate, and makes up to `turn` events
/// with its oldest tokens, in a thread of its own; then the tokens for others are delivered, in the order of the elements.
/// Where several elements halt, the one of least number says why the run does.
pub fn run<
    R: Threads + Wait + Sync,
    C: MainCode + Sync,
    A: Allocator + Clone + Send,
    G: Gate + Sync,
>(machine: Machine<'_, C, A>, rt: &R, gate: &G) -> Report<A>
    ensures shows { (inputs : List ℤ) → Began inputs machine.entry.state machine.entry.events → ShowsInOrder machine.entry.state.setting.program
        (size machine.entry.state.setting) inputs machine.entry.state.setting.steps false G.may_stop result }
    ensures truth { (rounds : ℕ) × ReportsRounds true G.may_stop machine.entry rounds result }
{
    run_taking(machine, rt, gate, Take::Oldest)
}

/// As `run`, in the given order of the tokens. With `Take::Depth` each element takes its oldest tokens, but element 0 holds back the requests
/// for frames that its queue begins with: at the beginning of its turn it grants some of them where few other tokens are left in the machine,
/// and then it takes its oldest other tokens. Which of them it grants is a choice, and the same in each run; where there is no room to note it,
/// memory is refused.
pub fn run_taking<
    R: Threads + Wait + Sync,
    C: MainCode + Sync,
    A: Allocator + Clone + Send,
    G: Gate + Sync,
>(machine: Machine<'_, C, A>, rt: &R, gate: &G, take: Take) -> Report<A>
    ensures shows { (inputs : List ℤ) → Began inputs machine.entry.state machine.entry.events → ShowsInOrder machine.entry.state.setting.program
        (size machine.entry.state.setting) inputs machine.entry.state.setting.steps false G.may_stop result }
    ensures truth { (rounds : ℕ) × ReportsTaking take true G.may_stop machine.entry rounds result }
{
    let way = Way {
        threading: Threading::Apart,
        take,
    };
    run_listed(machine, rt, way, gate).report
}

/// As `run`, and answers how many rounds were made, too. All turns are made in the thread of the caller, one element's after
/// another's: no thread is started.
pub fn run_counted<
    R: Threads + Wait + Sync,
    C: MainCode + Sync,
    A: Allocator + Clone + Send,
    G: Gate + Sync,
>(machine: Machine<'_, C, A>, rt: &R, gate: &G) -> Counted<A>
    ensures shows { (inputs : List ℤ) → Began inputs machine.entry.state machine.entry.events → ShowsInOrder machine.entry.state.setting.program
        (size machine.entry.state.setting) inputs machine.entry.state.setting.steps false G.may_stop result.report }
    ensures truth { ReportsRounds true G.may_stop machine.entry result.rounds result.report }
{
    run_counted_taking(machine, rt, gate, Take::Oldest)
}

/// As `run_counted`, in the given order of the tokens, as `run_taking`.
pub fn run_counted_taking<
    R: Threads + Wait + Sync,
    C: MainCode + Sync,
    A: Allocator + Clone + Send,
    G: Gate + Sync,
>(machine: Machine<'_, C, A>, rt: &R, gate: &G, take: Take) -> Counted<A>
    ensures shows { (inputs : List ℤ) → Began inputs machine.entry.state machine.entry.events → ShowsInOrder machine.entry.state.setting.program
        (size machine.entry.state.setting) inputs machine.entry.state.setting.steps false G.may_stop result.report }
    ensures truth { ReportsTaking take true G.may_stop machine.entry result.rounds result.report }
{
    let way = Way {
        threading: Threading::Together,
        take,
    };
    run_listed(machine, rt, way, gate)
}

/// As `run`, but the report lists no events: there is a run that it shows. A long run takes no more memory than a short one.
pub fn run_quietly<
    R: Threads + Wait + Sync,
    C: MainCode + Sync,
    A: Allocator + Clone + Send,
    G: Gate + Sync,
>(machine: Machine<'_, C, A>, rt: &R, gate: &G) -> Report<A>
    ensures shows { (inputs : List ℤ) → Began inputs machine.entry.state machine.entry.events → ShowsQuietly machine.entry.state.setting.program
        (size machine.entry.state.setting) inputs machine.entry.state.setting.steps false G.may_stop result }
    ensures truth { (rounds : ℕ) × ReportsRounds false G.may_stop (without_events machine.entry.state) rounds result }
{
    run_quietly_taking(machine, rt, gate, Take::Oldest)
}

/// As `run_taking`, but the report lists no events: there is a run that it shows. A long run takes no more memory than a short one.
pub fn run_quietly_taking<
    R: Threads + Wait + Sync,
    C: MainCode + Sync,
    A: Allocator + Clone + Send,
    G: Gate + Sync,
>(machine: Machine<'_, C, A>, rt: &R, gate: &G, take: Take) -> Report<A>
    ensures shows { (inputs : List ℤ) → Began inputs machine.entry.state machine.entry.events → ShowsQuietly machine.entry.state.setting.program
        (size machine.entry.state.setting) inputs machine.entry.state.setting.steps false G.may_stop result }
    ensures truth { (rounds : ℕ) × ReportsTaking take false G.may_stop (without_events machine.entry.state) rounds result }
{
    let way = Way {
        threading: Threading::Apart,
        take,
    };
    run_machine(machine.without_events(), rt, way, gate).report
}
