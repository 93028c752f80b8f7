//! The numbers that are printed for all graphs and their runs.

use crate::verdict::Verdict;
use oracle::MeanEnd;
use std::io::{self, Write};
use test_inputs::random_graphs::graphs::Graph;
use test_inputs::random_graphs::kind::{KINDS, NAMES};

/// How many runs there were of each outcome.
#[derive(Clone, Copy)]
pub struct Runs {
    rested: u64,
    starved: u64,
    clashed: u64,
    /// Those that clashed at the cell at which the meaning does.
    as_meant: u64,
    cut_off: u64,
}

impl Runs {
    fn new() -> Runs {
        Runs {
            rested: 0,
            starved: 0,
            clashed: 0,
            as_meant: 0,
            cut_off: 0,
        }
    }

    /// Counts a run.
    pub fn count(&mut self, verdict: Verdict) {
        match verdict {
            Verdict::Rested => self.rested = self.rested.wrapping_add(1),
            Verdict::Starved => self.starved = self.starved.wrapping_add(1),
            Verdict::Clashed { is_meant } => {
                self.clashed = self.clashed.wrapping_add(1);
                self.as_meant = self.as_meant.wrapping_add(u64::from(is_meant));
            }
            Verdict::CutOff => self.cut_off = self.cut_off.wrapping_add(1),
            Verdict::Differs => {}
        }
    }

    /// How many there were in all.
    fn all(&self) -> u64 {
        self.rested
            .wrapping_add(self.starved)
            .wrapping_add(self.clashed)
            .wrapping_add(self.cut_off)
    }

    /// Prints the numbers.
    fn print<W: Write>(&self, out: &mut W, name: &str, runs: &str) -> io::Result<()> {
        let Runs {
            rested,
            starved,
            clashed,
            as_meant,
            cut_off,
        } = self;
        writeln!(
            out,
            "{name}: {runs}: {rested} rested, {starved} starved, {clashed} clashed, {as_meant} of them where the meaning does; {cut_off} cut off"
        )
    }

    /// Prints the numbers that do not depend on which thread came first.
    fn print_free<W: Write>(&self, out: &mut W, name: &str) -> io::Result<()> {
        let all = self.all();
        let rest = if self.rested > 0 { "some" } else { "none" };
        let cut_off = self.cut_off;
        writeln!(
            out,
            "{name}: free runs: {all}, {rest} of which rested, {cut_off} cut off"
        )
    }
}

/// How many there were of each.
#[derive(Drop)]
pub struct Tally {
    graphs: u64,
    rest: u64,
    clash: u64,
    /// Graphs at rest in which readers wait.
    wait: u64,
    kinds: [u64; KINDS],
    pub runs: Runs,
    /// Runs in rounds with plenty of frames.
    pub wide: Runs,
    /// Runs of free elements. How each of them ends may depend on which thread came first.
    pub free: Runs,
}

impl Tally {
    pub fn new() -> Tally {
        Tally {
            graphs: 0,
            rest: 0,
            clash: 0,
            wait: 0,
            kinds: [0; KINDS],
            runs: Runs::new(),
            wide: Runs::new(),
            free: Runs::new(),
        }
    }

    /// Counts a graph, and the end of its meaning.
    pub fn count_graph(&mut self, graph: &Graph, end: MeanEnd) {
        self.graphs = self.graphs.wrapping_add(1);
        match end {
            MeanEnd::Rest => self.rest = self.rest.wrapping_add(1),
            MeanEnd::Clash { .. } => self.clash = self.clash.wrapping_add(1),
            MeanEnd::Steps => return,
        }
        for (sum, count) in self.kinds.iter_mut().zip(&graph.counts) {
            *sum = sum.wrapping_add(*count);
        }
    }

    /// Counts a graph at rest in which readers wait.
    pub fn count_waiting(&mut self) {
        self.wait = self.wait.wrapping_add(1);
    }

    /// Prints the numbers.
    pub fn print<W: Write>(&self, out: &mut W, name: &str) -> io::Result<()> {
        let Tally {
            graphs,
            rest,
            clash,
            wait,
            ..
        } = self;
        let long = graphs.wrapping_sub(*rest).wrapping_sub(*clash);
        writeln!(
            out,
            "{name}: {graphs} graphs, of which {rest} rest, {wait} with readers that wait; {clash} clash, {long} are too long"
        )?;
        write!(out, "{name}: nodes:")?;
        for (count, kind) in self.kinds.iter().zip(&NAMES) {
            write!(out, " {count} {kind}")?;
        }
        writeln!(out)?;
        self.runs.print(out, name, "runs")?;
        if self.wide.all() > 0 {
            self.wide.print(out, name, "runs with plenty of frames")?;
        }
        self.free.print_free(out, name)
    }
}
