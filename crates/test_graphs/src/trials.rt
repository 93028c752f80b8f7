//! The runs of one graph.

ghost use Rattle.std.specs.Prelude.{◌≡◌, ◌<◌, All};

use crate::tally::{Runs, Tally};
use crate::verdict::{Verdict, verdict_of};
use driver::emulation::{emulate, emulate_picks, run_text};
use driver::fault::Fault;
use driver::order::Order;
use driver::resources::Resources;
use mode::Mode;
use oracle::MeanReport;
use rounds::Open;
use schedule::config::Config;
use schedule::report::Report;
use schedule::take::Take;
use semantics::report::End;
use std::alloc::{AllocError, Global};
use std::io::{self, Write};
use std::sync::Wait;
use std::thread::Threads;
use test_inputs::random_graphs::dice::Dice;
use test_inputs::random_graphs::graphs::{Graph, Part};
use test_inputs::random_graphs::orders::picks;

/// Random orders of each graph.
const ORDERS: u64 = 4;

/// The numbers of frames of an element that are tried one after another, until one is enough.
const FRAMES: [u64; 14] = [1, 2, 3, 4, 5, 6, 8, 10, 13, 16, 24, 40, 100, 1_024];

fn config(elements: u64, frames: u64) -> Config
    ensures { result.elements ≡ elements }
{
    Config {
        elements,
        frames,
        steps: 65_536,
        turn: 64,
    }
}

/// A graph, its meaning, what is known of its runs, and how the last one was made.
#[derive(Drop)]
pub struct Trials<'a> {
    graph: &'a Graph,
    meaning: &'a MeanReport<Global>,
    /// How many readers wait at rest, once a run has rested.
    pub deferred: Option<u64>,
    /// The greatest number of events of a run so far.
    events: u64,
    way: &'static str,
    config: Config,
    picks: Vec<(u32, u64)>,
    end: Option<End>,
}

impl<'a> Trials<'a> {
    pub fn new(alloc: Global, graph: &'a Graph, meaning: &'a MeanReport<Global>) -> Trials<'a> {
        Trials {
            graph,
            meaning,
            deferred: None,
            events: 0,
            way: "",
            config: config(1, 1),
            picks: Vec::new(alloc),
            end: None,
        }
    }

    /// Compares that run with the meaning.
    fn judge(
        &mut self,
        runs: &mut Runs,
        config: Config,
        run: &Result<Report<Global>, Fault>,
    ) -> Verdict {
        let verdict = verdict_of(self.graph, self.meaning, self.deferred, run);
        runs.count(verdict);
        self.config = config;
        self.end = None;
        if let Ok(report) = run {
            self.end = Some(report.end);
            self.events = self.events.max(report.events.len() as u64);
            if verdict == Verdict::Rested {
                self.deferred = Some(report.deferred);
            }
        }
        verdict
    }

    /// Whether a run in this mode agrees.
    fn agrees_in<R: Threads + Wait + Sync>(
        &mut self,
        rt: &R,
        alloc: Global,
        runs: &mut Runs,
        mode: Mode,
        config: Config,
    ) -> bool {
        self.way = match mode {
            Mode::One => "in turn",
            Mode::Rounds => "in rounds",
            Mode::Free => "free",
        };
        let text = &self.graph.text;
        let run = emulate(alloc, text, &self.graph.inputs, config, mode, rt, &Open);
        self.judge(runs, config, &run) != Verdict::Differs
    }

    /// Whether a free run agrees.
    fn agrees_free<R: Threads + Wait + Sync>(
        &mut self,
        rt: &R,
        alloc: Global,
        runs: &mut Runs,
        config: Config,
    ) -> bool {
        self.way = "free";
        let text = &self.graph.text;
        let inputs = &self.graph.inputs;
        let resources = Resources {
            alloc,
            rt,
            gate: &Open,
        };
        let run = run_text(resources, text, inputs, config, Order::Free(Take::Oldest)).map(
            |emulated| emulated.report,
        );
        self.judge(runs, config, &run) != Verdict::Differs
    }

    /// Whether a run in rounds agrees, and is not starved, that has plenty of frames, on a number of elements that differs from
    /// graph to graph. Only graphs of the part of calls have such a run.
    fn agrees_widely<R: Threads + Wait + Sync>(
        &mut self,
        rt: &R,
        alloc: Global,
        runs: &mut Runs,
    ) -> bool {
        let elements = match self.events % 3 {
            0 => 1,
            1 => 2,
            _ => 16,
        };
        self.graph.part != Part::Calls
            || self.agrees_in(rt, alloc, runs, Mode::Rounds, config(elements, 256))
                && !matches!(self.end, Some(End::Starved))
    }

    /// Makes a run in the order of a list, and compares it with the meaning.
    fn run_by_list(
        &mut self,
        alloc: Global,
        runs: &mut Runs,
        elements: u32,
        frames: u64,
        picks: &[(u32, u64)],
    ) -> Verdict
        requires { All (λ pick. pick.0 < elements) picks.now }
    {
        let config = config(u64::from(elements), frames);
        let run = emulate_picks(alloc, &self.graph.text, &self.graph.inputs, config, picks);
        self.judge(runs, config, &run)
    }

    /// Whether runs in a random order agree. There is one run with few frames; in the part of calls there are runs with more
    /// and more frames, until there are just enough.
    fn agrees_by_list(
        &mut self,
        alloc: Global,
        runs: &mut Runs,
        dice: &mut Dice,
    ) -> Result<bool, AllocError> {
        self.way = "in the order of these picks";
        let elements = (dice.throw(65_536) % 16) as u32 + 1;
        let most = self.events.wrapping_add(32).wrapping_mul(2);
        let count = most.wrapping_mul(u64::from(elements));
        let picks = picks(alloc, dice, elements, count)?;
        let mut verdict = Verdict::Starved;
        if self.graph.part == Part::All {
            let frames = dice.throw(6).wrapping_add(1);
            verdict = self.run_by_list(alloc, runs, elements, frames, &picks);
        } else {
            for frames in FRAMES {
                if verdict == Verdict::Starved {
                    verdict = self.run_by_list(alloc, runs, elements, frames, &picks);
                }
            }
        }
        self.picks = picks;
        Ok(verdict != Verdict::Differs)
    }

    /// Whether all runs agree with the meaning; stops at the first that differs. `free` of the runs are by free elements.
    pub fn all_agree<R: Threads + Wait + Sync>(
        &mut self,
        rt: &R,
        alloc: Global,
        tally: &mut Tally,
        dice: &mut Dice,
        free: u64,
    ) -> Result<bool, AllocError> {
        let many = config(1, 1_024);
        let some = config(3, dice.throw(16).wrapping_add(1));
        if !self.agrees_in(rt, alloc, &mut tally.runs, Mode::One, many)
            || !self.agrees_in(rt, alloc, &mut tally.runs, Mode::Rounds, some)
            || !self.agrees_widely(rt, alloc, &mut tally.wide)
        {
            return Ok(false);
        }
        for _ in 0..free {
            if !self.agrees_free(rt, alloc, &mut tally.free, some) {
                return Ok(false);
            }
        }
        for _ in 0..ORDERS {
            if !self.agrees_by_list(alloc, &mut tally.runs, dice)? {
                return Ok(false);
            }
        }
        Ok(true)
    }

    /// Prints how the last run was made.
    pub fn write_out<W: Write>(&self, out: &mut W) -> io::Result<()> {
        let elements = self.config.elements;
        let frames = self.config.frames;
        let end = self.end;
        let way = self.way;
        writeln!(
            out,
            "differs on {elements} elements, {frames} frames, {end:?}, {way}"
        )?;
        for (element, place) in &self.picks {
            write!(out, " {element}:{place}")?;
        }
        writeln!(out)
    }
}
