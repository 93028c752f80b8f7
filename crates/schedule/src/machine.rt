//! The machine: its start, its steps, and its runs.

ghost use Rattle.std.specs.Prelude.{◌≡◌, ℕ, ℤ, List, Bool, true, false, ◌<◌, ◌≤◌, ◌^◌, ◌↔◌, ◌∷◌, ◌++◌, [], length, map, All, IfOk, OnOk, MatchResult, IsTrue};
ghost use Rattle.semantics.specs.Machine.{Events};
ghost use Rattle.element.specs.Holding.{held_of, fixed_of, bounds_at};
ghost use Rattle.schedule.specs.Setting.{inputs_of};
ghost use Rattle.schedule.specs.State.{AllFrom, IsAt, delivered};
ghost use Rattle.schedule.specs.Starts.{IsGood, IsCause, Opens, setting_of, start_tokens};
ghost use Rattle.schedule.specs.Steps.{Steps, logged};
ghost use Rattle.schedule.specs.Runs.{SoFar, Began, BeganIfNoted, Plays, HaltsAs, NamesCell, rounds_of};
ghost use Rattle.schedule.specs.declared.halt.Halt.{Halt};
ghost use Rattle.schedule.specs.Reported.{IsReportOf};
ghost use Rattle.schedule.specs.Shown.{ShowsInOrder};
ghost use Rattle.schedule.specs.Setting.{size};
ghost use Rattle.schedule.specs.State.{State};
ghost use Rattle.schedule.specs.Unlisted.{Quietly, RunsInTurn, RunsTaking, ReportsSoFar, ShowsBut, so_far_with, without_events};
ghost use Rattle.schedule.specs.State.{IsSoundState, RunsAs, setting_in};
ghost use Rattle.schedule.specs.Apart.{so_far_of, state_in};
ghost use Rattle.schedule.specs.Turns.{PlaysTaking};

use crate::config::{Config, StartFault};
use crate::delivery::receive;
use crate::elements::Elements;
use crate::grants::Grants;
use crate::halt::Halt;
use crate::log::{EventLog, FullLog, Log, NoLog};
use crate::main_code::MainCode;
use crate::opening::fresh_lanes;
use crate::report::Report;
use crate::reporting::report_of;
use crate::setup::{Apart, Setup};
use crate::shape::Shape;
use crate::take::Take;
use element::instructions::Instructions;
use element::lane::{Lane, Stepped};
use frame_store::store::Store;
use std::alloc::{AllocError, Allocator};
use std::marker::Model;
use tags::token::{Cont, Port, To, Token, Word};
use tags::value::Value;

/// A machine that runs code. Contracts see what its lanes hold, each token where it is addressed to, and the events that it lists.
#[derive(Drop)]
pub struct Machine<'m, C: MainCode, A: Allocator, L: Log = FullLog> {
    elements: Elements<'m, C, A>,
    log: EventLog<A, L>,
    alloc: A,
}

impl<'m, C: MainCode, A: Allocator, L: Log> Model for Machine<'m, C, A, L> {
    ghost use Rattle.schedule.specs.State.{state_of, IsWell};
    ghost use Rattle.schedule.specs.Runs.{SoFar};

    ghost Value = { SoFar };

    ghost view = { λ m. record { state = state_of C.program C.width m.elements; events = m.log.events.items } };

    ghost invariant = { λ m. IsWell C.program C.width m.elements };
}

fn has_good_numbers(config: &Config) -> bool
    ensures { IsTrue result ↔ IsGood config.now }
{
    1 <= config.elements
        && config.elements <= 16
        && config.frames <= 1024
        && config.steps <= 4_294_967_296
        && 1 <= config.turn
        && config.turn <= 65_536
}

// Gives the lanes the tokens at the start.
fn give_inputs<C: Instructions, A: Allocator>(
    lanes: &mut Vec<Lane<'_, C, A>, A>,
    elements: u32,
    first: u32,
    inputs: &[i64],
) -> Result<(), AllocError>
    requires some { 0 < elements }
    requires count { length lanes.old.items ≡ elements }
    requires at { AllFrom (IsAt elements) 0 (map held_of lanes.old.items) }
    requires short { first < 2 ^ 30 }
    requires few { length inputs.now ≤ 16 }
    requires frames { All (λ f. 0 < (bounds_at f).frames) (map fixed_of lanes.old.items) }
    ensures fixed { map fixed_of lanes.new.items ≡ map fixed_of lanes.old.items }
    ensures ok { OnOk result (map held_of lanes.new.items ≡ delivered (start_tokens first inputs.now) (map held_of lanes.old.items)) }
    ensures count { length lanes.new.items ≡ length lanes.old.items }
{
    receive(
        lanes,
        elements,
        Token {
            to: To::Instr {
                frame: 0,
                ip: first,
                port: Port::Left,
            },
            word: Word::Back(Cont::Host { port: 0 }),
        },
    )?;
    let mut ip = first;
    for input in inputs {
        ip += 1;
        let token = Token {
            to: To::Instr {
                frame: 0,
                ip,
                port: Port::Left,
            },
            word: Word::Val(Value::Int(*input)),
        };
        receive(lanes, elements, token)?;
    }
    Ok(())
}

// The machine before its first event, over a store that it makes.
fn open<'m, C: MainCode, A: Allocator>(
    alloc: A,
    store: &'m mut Option<Store<A>>,
    code: &'m C,
    inputs: &[i64],
    config: &Config,
) -> Result<Machine<'m, C, A>, AllocError>
where
    A: Clone,
    requires good { IsGood config.now }
    requires some_frame { 0 < config.now.frames }
    requires few { length inputs.now ≤ 16 }
    requires arity { length inputs.now ≡ inputs_of (C.program code.now) }
    ensures { IfOk result (λ machine. Opens (C.program code.now) (C.width code.now) config.now inputs.now machine) }
{
    let elements = config.elements as u32;
    let frames = config.frames as u32;
    let made = Store::new(
        alloc.clone()?,
        elements as usize,
        frames as usize,
        code.slots() as usize,
    )?;
    let store = store.insert(made);
    let mut lanes = fresh_lanes(alloc.clone()?, store, code, config.steps)?;
    give_inputs(&mut lanes, elements, code.main_entry(), inputs)?;
    let elements = Elements {
        shape: Shape {
            code,
            elements,
            frames,
            steps: config.steps,
            turn: config.turn,
        },
        lanes,
        sent: Vec::new(alloc.clone()?),
        arrived: 0,
    };
    Ok(Machine {
        elements,
        log: EventLog::new(alloc.clone()?),
        alloc,
    })
}

impl<'m, C: MainCode, A: Allocator> Machine<'m, C, A> {
    /// The machine before its first event, or the first cause in the order of `StartFault` that forbids it. Its slots lie
    /// in `store`, whatever that was.
    pub fn start(
        alloc: A,
        store: &'m mut Option<Store<A>>,
        code: &'m C,
        inputs: &[i64],
        config: Config,
    ) -> Result<Machine<'m, C, A>, StartFault>
    where
        A: Clone,
        ensures { MatchResult result (λ machine. Opens (C.program code.now) (C.width code.now) config inputs.now machine)
            (IsCause (C.program code.now) config inputs.now) }
    {
        if inputs.len() != code.inputs() as usize {
            return Err(StartFault::WrongInputs);
        }
        if config.frames == 0 {
            return Err(StartFault::NoFrames);
        }
        if !has_good_numbers(&config) {
            return Err(StartFault::BadConfig);
        }
        match open(alloc, store, code, inputs, &config) {
            Ok(machine) => Ok(machine),
            Err(_) => Err(StartFault::Memory),
        }
    }

    /// Makes one step for each element and pick of the list, in order, and reports. It stops early where no token is left,
    /// where a token stores in a full cell or is excluded, and for lack of memory; an element that has made all its events
    /// is passed over. The end is `Steps` where the list ends with a token left.
    pub fn run(mut self, picks: &[(u32, u64)]) -> Report<A>
    where
        A: Clone,
        requires { All (λ pick. pick.0 < self.state.setting.elements) picks.now }
        ensures plays { (last : SoFar) × (halt : Halt) × (made : Events) × Plays true picks.now self.entry.state last.state halt made
            × (last.events ≡ self.entry.events ++ made) × IsReportOf last halt result }
        ensures shows { (inputs : List ℤ) → Began inputs self.entry.state self.entry.events → ShowsInOrder self.entry.state.setting.program
            (size self.entry.state.setting) inputs self.entry.state.setting.steps true false result }
    {
        let halt = self.play(picks);
        self.report(halt)
    }

    /// Makes one step after another, each with the oldest token of an element, the elements in turn, and reports. It stops
    /// where no token is left, where a token stores in a full cell or is excluded, for lack of memory, and with the end
    /// `Steps` at the first element that has a token and has made all its events.
    pub fn run_one(mut self) -> Report<A>
    where
        A: Clone,
        ensures plays { (last : SoFar) × (halt : Halt) × (rounds : ℕ) × (made : Events)
            × Plays false (rounds_of rounds self.entry.state.setting.elements) self.entry.state last.state halt made
            × (last.events ≡ self.entry.events ++ made) × IsReportOf last halt result }
        ensures shows { (inputs : List ℤ) → Began inputs self.entry.state self.entry.events → ShowsInOrder self.entry.state.setting.program
            (size self.entry.state.setting) inputs self.entry.state.setting.steps false false result }
    {
        let halt = self.play_in_turn();
        self.report(halt)
    }

    /// As `run_one`, in the given order of the tokens.
    pub fn run_in_turn(mut self, take: Take) -> Report<A>
    where
        A: Clone,
        ensures { RunsTaking take self.entry result }
    {
        let halt = self.play_taking(take);
        self.report(halt)
    }

    /// The same machine without the list of its events.
    pub fn without_events(self) -> Machine<'m, C, A, NoLog>
        ensures { result ≡ without_events self.entry.state }
    {
        let Machine {
            elements,
            log,
            alloc,
        } = self;
        Machine {
            elements,
            log: log.forget(),
            alloc,
        }
    }

    /// As `run_one`, but the report lists no events: with the events of the run that the elements made in turn it is the report
    /// of `run_one`. A long run takes no more memory than a short one.
    pub fn run_quietly(self) -> Report<A>
    where
        A: Clone,
        ensures { Quietly (RunsInTurn self.entry) result }
    {
        let mut quiet = self.without_events();
        let halt = quiet.play_in_turn();
        quiet.report(halt)
    }

    /// As `run_in_turn`, but the report lists no events: with the events of the run that the elements made in turn it is the report
    /// of `run_in_turn`. A long run takes no more memory than a short one.
    pub fn run_quietly_in_turn(self, take: Take) -> Report<A>
    where
        A: Clone,
        ensures { Quietly (RunsTaking take self.entry) result }
    {
        let mut unlisted = self.without_events();
        let halt = unlisted.play_taking(take);
        unlisted.report(halt)
    }
}

impl<'m, C: MainCode, A: Allocator, L: Log> Machine<'m, C, A, L> {
    /// The element takes the token that `pick`, modulo the number of its tokens, names from the oldest on; `None` where it
    /// has a token and has made all its events. The token is taken out, the others close up, and those that the event
    /// makes go last, each where it is addressed to. After `Clash`, `Stuck` and `Memory` nothing is changed.
    pub fn step(&mut self, element: u32, pick: u64) -> Option<Stepped>
    where
        A: Clone,
        requires { element < self.old.state.setting.elements }
        ensures steps { (made : Events) × Steps self.old.state element pick result self.new.state made
            × (self.new.events ≡ logged L.KEEPS_EVENTS self.old.events made)
            × ((inputs : List ℤ) (before : Events) → Began inputs self.old.state before → Began inputs self.new.state (before ++ made)) }
        ensures began { (inputs : List ℤ) → BeganIfNoted L.KEEPS_EVENTS inputs self.old → BeganIfNoted L.KEEPS_EVENTS inputs self.new }
        ensures setting { self.new.state.setting ≡ self.old.state.setting }
    {
        self.elements.step::<L, ()>(element, pick, &mut self.log)
    }

    /// Makes one step for each element and pick of the list, in order, and answers why it makes no more. It stops early
    /// where no token is left, where a token stores in a full cell or is excluded, and for lack of memory; an element that
    /// has made all its events is passed over. The answer is `Steps` where the list ends with a token left.
    pub fn play(&mut self, picks: &[(u32, u64)]) -> Halt
    where
        A: Clone,
        requires { All (λ pick. pick.0 < self.old.state.setting.elements) picks.now }
        ensures plays { (made : Events) × Plays true picks.now self.old.state self.new.state result made
            × (self.new.events ≡ logged L.KEEPS_EVENTS self.old.events made)
            × ((inputs : List ℤ) (before : Events) → Began inputs self.old.state before → Began inputs self.new.state (before ++ made)) }
        ensures began { (inputs : List ℤ) → BeganIfNoted L.KEEPS_EVENTS inputs self.old → BeganIfNoted L.KEEPS_EVENTS inputs self.new }
        ensures halts { HaltsAs self.new.state true result }
        ensures setting { self.new.state.setting ≡ self.old.state.setting }
        ensures cell { NamesCell self.new.state.setting.program result }
    {
        self.elements.play(picks, &mut self.log)
    }

    /// Makes one step after another, each with the oldest token of an element, the elements in turn, and answers why it
    /// makes no more. It stops where no token is left, where a token stores in a full cell or is excluded, for lack of
    /// memory, and at the first element that has a token and has made all its events.
    pub fn play_in_turn(&mut self) -> Halt
    where
        A: Clone,
        ensures plays { (rounds : ℕ) × (made : Events) × Plays false (rounds_of rounds self.old.state.setting.elements) self.old.state self.new.state
            result made × (self.new.events ≡ logged L.KEEPS_EVENTS self.old.events made)
            × ((inputs : List ℤ) (before : Events) → Began inputs self.old.state before → Began inputs self.new.state (before ++ made)) }
        ensures began { (inputs : List ℤ) → BeganIfNoted L.KEEPS_EVENTS inputs self.old → BeganIfNoted L.KEEPS_EVENTS inputs self.new }
        ensures halts { HaltsAs self.new.state false result }
        ensures setting { self.new.state.setting ≡ self.old.state.setting }
        ensures cell { NamesCell self.new.state.setting.program result }
    {
        self.elements.play_in_turn(&mut self.log)
    }

    /// As `play_in_turn`, in the given order of the tokens. With `Take::Depth` memory is refused, too, where the ages of the frames have no
    /// room.
    pub fn play_taking(&mut self, take: Take) -> Halt
    where
        A: Clone,
        ensures plays { (made : Events) × PlaysTaking take self.old.state self.new.state result made
            × (self.new.events ≡ logged L.KEEPS_EVENTS self.old.events made)
            × ((inputs : List ℤ) (before : Events) → Began inputs self.old.state before → Began inputs self.new.state (before ++ made)) }
        ensures began { (inputs : List ℤ) → BeganIfNoted L.KEEPS_EVENTS inputs self.old → BeganIfNoted L.KEEPS_EVENTS inputs self.new }
        ensures halts { HaltsAs self.new.state false result }
        ensures setting { self.new.state.setting ≡ self.old.state.setting }
        ensures cell { NamesCell self.new.state.setting.program result }
    {
        let grants = Grants::new(&self.alloc).ok();
        self.elements.play_taking(take, grants, &mut self.log)
    }

    /// What the machine holds and what happened, with the end of a run that halted so; of a machine that lists no events all but
    /// these. Where its own lists are refused it is the report of the machine before its first event, with the end `Memory`.
    pub fn report(self, halt: Halt) -> Report<A>
    where
        A: Clone,
        requires { NamesCell self.state.setting.program halt }
        ensures reported { IsReportOf self.entry halt result }
        ensures quietly { self.entry.events ≡ [] → (events : Events) → Quietly (ReportsSoFar (so_far_with self.entry.state events) halt) result }
        ensures any { (inputs : List ℤ) (by_list : Bool) (events : Events) → Began inputs self.entry.state events
            → HaltsAs self.entry.state by_list halt → ShowsBut self.entry.state.setting.program (size self.entry.state.setting) inputs
            self.entry.state.setting.steps by_list false self.entry.events events result }
        ensures shows { (inputs : List ℤ) (by_list : Bool) → Began inputs self.entry.state self.entry.events → HaltsAs self.entry.state by_list halt
            → ShowsInOrder self.entry.state.setting.program (size self.entry.state.setting) inputs self.entry.state.setting.steps by_list false result }
    {
        let Machine {
            elements,
            log,
            alloc,
        } = self;
        let EventLog { events, .. } = log;
        report_of(elements, events, alloc, halt)
    }

    /// The machine taken apart, with each token in the queue of the lane that it is addressed to. Each lane runs its code.
    /// After an error it is as before.
    pub fn into_lanes(self) -> Result<Apart<'m, C, A, L>, Machine<'m, C, A, L>>
    where
        ensures apart { MatchResult result (λ apart. (so_far_of C.program C.width apart.0 apart.1.items ≡ self.entry)
            × IsSoundState (state_in C.program C.width apart.0 apart.1.items)) (λ machine. machine ≡ self.entry) }
        ensures runs { IfOk result (λ apart. All (RunsAs (setting_in C.program C.width apart.0.shape)) (map fixed_of apart.1.items)) }
    {
        let Machine {
            mut elements,
            log,
            alloc,
        } = self;
        if elements.settle().is_err() {
            return Err(Machine {
                elements,
                log,
                alloc,
            });
        }
        let Elements {
            shape,
            lanes,
            sent,
            ..
        } = elements;
        let setup = Setup {
            shape,
            log,
            sent,
            alloc,
        };
        Ok((setup, lanes))
    }
}
