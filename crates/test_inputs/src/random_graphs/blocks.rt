//! Blocks: how each begins and ends, and lines of nodes whose values are those of their regions.

use crate::random_graphs::graphs::Graph;
use crate::random_graphs::kind::Kind;
use std::alloc::{AllocError, Global};
use std::io::{self, Write};

/// A node: the region that it lies in, and how many results it has.
///
/// Region 0 is the root, and 2 * C + 1 and 2 * C + 2 are the arms of the conditional at place C.
#[derive(Clone, Copy)]
pub struct Node {
    pub region: u64,
    pub ports: u64,
}

/// A conditional: its node and region, and how many conditionals it lies in, itself counted.
#[derive(Clone, Copy)]
pub struct Conditional {
    pub node: u64,
    pub region: u64,
    pub depth: u64,
}

/// A result of a node.
#[derive(Clone, Copy)]
pub struct Source {
    pub node: u64,
    pub port: u64,
}

/// The fuel of a block.
pub const FUEL: Source = Source { node: 0, port: 0 };

impl Graph {
    /// The conditional with this region as one of its arms.
    pub fn conditional_of(&self, region: u64) -> Option<Conditional> {
        let arm = region.checked_sub(1)?;
        self.conditionals.get((arm / 2) as usize).copied()
    }

    /// Writes the line of the next node, which has `ports` results. Gives the node's number.
    pub fn add(
        &mut self,
        region: u64,
        kind: Kind,
        ports: u64,
        sources: &[Source],
    ) -> io::Result<u64> {
        match self.conditional_of(region) {
            None => write!(self.text, "- {kind}")?,
            Some(conditional) => {
                let node = conditional.node;
                let side = if region % 2 == 1 { '+' } else { '-' };
                write!(self.text, "{node}{side} {kind}")?;
            }
        }
        self.write_sources(sources)?;
        let number = self.nodes.len() as u64;
        self.nodes.push(Node { region, ports })?;
        if let Some(count) = self.counts.get_mut(kind.place()) {
            *count = count.wrapping_add(1);
        }
        Ok(number)
    }

    /// Writes the sources, and ends the line.
    fn write_sources(&mut self, sources: &[Source]) -> io::Result<()> {
        for source in sources {
            let node = source.node;
            let port = source.port;
            write!(self.text, " {node}.{port}")?;
        }
        writeln!(self.text)
    }

    /// Adds a node with one result, and gives that result.
    pub fn put(&mut self, region: u64, kind: Kind, sources: &[Source]) -> io::Result<Source> {
        let node = self.add(region, kind, 1, sources)?;
        Ok(Source { node, port: 0 })
    }

    /// Some value of the region; later ones are chosen more often.
    pub fn value(&mut self, region: u64) -> Option<Source> {
        let mut seen = 0u64;
        let mut chosen = None;
        for (number, node) in self.nodes.iter().enumerate() {
            if node.region == region && node.ports > 0 {
                seen = seen.wrapping_add(1);
                if self.dice.throw(seen) == 0 || self.dice.throw(6) == 0 {
                    chosen = Some((number as u64, node.ports));
                }
            }
        }
        let (node, ports) = chosen?;
        let port = self.dice.throw(ports);
        Some(Source { node, port })
    }

    /// Adds an arm that is taken only where there is fuel, and what is left of the fuel there. With that the block calls its
    /// own team.
    fn add_guard(&mut self) -> io::Result<()> {
        let zero = self.put(0, Kind::Lit(0), &[FUEL])?;
        let has_fuel = self.put(0, Kind::Binary("lt"), &[zero, FUEL])?;
        let node = self.add(0, Kind::Cond, 0, &[has_fuel])?;
        self.conditionals.push(Conditional {
            node,
            region: 0,
            depth: 1,
        })?;
        let fuel = self.put(1, Kind::Enter, &[FUEL])?;
        let one = self.put(1, Kind::Lit(1), &[fuel])?;
        let left = self.put(1, Kind::Binary("sub"), &[fuel, one])?;
        self.guarded = Some((1, left));
        Ok(())
    }

    /// Adds the flag of an iteration and its fuel for the next iteration. Only a few flags do not depend on the fuel.
    fn add_turn(&mut self) -> io::Result<(Source, Source)> {
        let zero = self.put(0, Kind::Lit(0), &[FUEL])?;
        let one = self.put(0, Kind::Lit(1), &[FUEL])?;
        let left = self.put(0, Kind::Binary("sub"), &[FUEL, one])?;
        let mut flag = self.put(0, Kind::Binary("lt"), &[zero, FUEL])?;
        if let Some(value) = self.value(0) {
            match self.dice.throw(24) {
                0 => flag = value,
                1..=4 => flag = self.put(0, Kind::Binary("and"), &[flag, value])?,
                5 => flag = self.put(0, Kind::Binary("div"), &[flag, value])?,
                _ => {}
            }
        }
        Ok((flag, left))
    }

    /// Writes block `block`.
    pub fn write_block(&mut self, block: u64) -> io::Result<()> {
        self.block = block;
        self.nodes.clear();
        self.conditionals.clear();
        self.guarded = None;
        self.recursions = 0;
        let shape = self.shape(block);
        let inputs = shape.inputs;
        let outputs = shape.outputs;
        writeln!(self.text, "block b{block} {inputs} {outputs}")?;
        for _ in 0..inputs {
            self.nodes.push(Node {
                region: 0,
                ports: 1,
            })?;
        }
        if self.dice.throw(2) == 0 && !(self.careful && self.is_main()) {
            self.add_guard()?;
        }
        let deeds = if self.is_main() { 40 } else { 20 };
        for _ in 0..self.dice.throw(deeds) {
            self.add_some()?;
        }
        self.end_block()
    }

    /// Writes the merges of the arm with fuel, the results, and the end of the block.
    fn end_block(&mut self) -> io::Result<()> {
        let shape = self.shape(self.block);
        if self.guarded.is_some() {
            self.put(2, Kind::Enter, &[FUEL])?;
            self.merge(0)?;
            self.merge(0)?;
        }
        let turn = if shape.turns {
            Some(self.add_turn()?)
        } else {
            None
        };
        let mut results: Vec<Source> = Vec::new(*self.text.allocator());
        if let Some((flag, left)) = turn {
            results.push(flag)?;
            results.push(left)?;
        }
        for _ in results.len() as u64..shape.outputs {
            let result_source = self.value(0).unwrap_or(FUEL);
            results.push(result_source)?;
        }
        write!(self.text, "out")?;
        self.write_sources(&results)?;
        writeln!(self.text, "end")
    }

    /// The value `first` and some other values of the region, `count` in all.
    pub fn arguments(
        &mut self,
        region: u64,
        first: Source,
        count: u64,
    ) -> Result<Vec<Source>, AllocError> {
        let alloc: Global = *self.text.allocator();
        let mut arguments = Vec::new(alloc);
        arguments.push(first)?;
        for _ in 1..count {
            let argument = self.value(region).unwrap_or(first);
            arguments.push(argument)?;
        }
        Ok(arguments)
    }
}
