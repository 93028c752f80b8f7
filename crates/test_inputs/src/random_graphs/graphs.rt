//! Random well-formed graphs: blocks of random shapes, the last of which is run.
//!
//! Input 0 of each block is its fuel. A block calls blocks of earlier teams with little fuel, and those of its own team with
//! less than it has, in an arm that is taken only where it has some; so most graphs end.

use crate::random_graphs::blocks::{Conditional, Node, Source};
use crate::random_graphs::dice::Dice;
use crate::random_graphs::kind::KINDS;
use std::alloc::{AllocError, Global};
use std::io::{self, Write};

/// The integers that literals and inputs are chosen from.
pub const INTEGERS: [i64; 8] = [0, 1, -1, 2, -7, 100, i64::MIN, i64::MAX];

/// Which kind of graph is made.
#[derive(Clone, Copy, PartialEq, Eq)]
pub enum Part {
    /// Graphs without loops.
    Calls,
    /// Graphs of all kinds.
    All,
}

/// What is known of a block before it is written.
#[derive(Clone, Copy)]
pub struct Shape {
    pub inputs: u64,
    pub outputs: u64,
    /// The block has the form of a loop's iteration: first a flag, then one result for each input.
    pub turns: bool,
    /// The number of the block's team. Blocks of one team call one another.
    pub team: u64,
}

/// An array: its cells, and how many of them main has filled, each once.
#[derive(Clone, Copy)]
pub struct Array {
    pub len: u64,
    pub filled: u32,
}

/// A graph, and what is known of the block that is being written.
#[derive(Drop)]
pub struct Graph {
    /// The graph, as `ets` reads it.
    pub text: Vec<u8>,
    pub inputs: Vec<i64>,
    pub shapes: Vec<Shape>,
    pub arrays: Vec<Array>,
    /// How many nodes of each kind the graph has.
    pub counts: [u64; KINDS],
    pub part: Part,
    pub version: u64,
    /// Whether only main fills cells, and each cell once.
    pub careful: bool,
    pub dice: Dice,
    /// The number of the block that is being written.
    pub block: u64,
    pub nodes: Vec<Node>,
    pub conditionals: Vec<Conditional>,
    /// The arm in which the block calls its own team, and what is left of its fuel there.
    pub guarded: Option<(u64, Source)>,
    /// How often the block calls its own team.
    pub recursions: u64,
}

impl Graph {
    /// The graph that this seed chooses.
    pub fn random(alloc: Global, part: Part, seed: u64) -> io::Result<Graph> {
        let mut graph = Graph {
            text: Vec::new(alloc),
            inputs: Vec::new(alloc),
            shapes: Vec::new(alloc),
            arrays: Vec::new(alloc),
            counts: [0; KINDS],
            part,
            version: 1,
            careful: false,
            dice: Dice::new(seed),
            block: 0,
            nodes: Vec::new(alloc),
            conditionals: Vec::new(alloc),
            guarded: None,
            recursions: 0,
        };
        graph.version = graph.dice.throw(2).wrapping_add(1);
        graph.careful = graph.dice.throw(4) > 0;
        graph.choose_shapes()?;
        graph.write()?;
        graph.choose_inputs()?;
        Ok(graph)
    }

    /// The shape of block `block`.
    pub fn shape(&self, block: u64) -> Shape {
        match self.shapes.get(block as usize) {
            Some(shape) => *shape,
            None => Shape {
                inputs: 1,
                outputs: 1,
                turns: false,
                team: 0,
            },
        }
    }

    /// Whether the block that is being written is main.
    pub fn is_main(&self) -> bool {
        self.block.wrapping_add(1) == self.shapes.len() as u64
    }

    fn choose_shapes(&mut self) -> Result<(), AllocError> {
        let blocks = self.dice.throw(5).wrapping_add(1);
        let mut team = 0u64;
        for block in 0..blocks {
            let inputs = self.dice.throw(3).wrapping_add(1);
            let turns = self.part == Part::All && self.dice.throw(2) == 0;
            let outputs = if turns {
                inputs.wrapping_add(1)
            } else {
                self.dice.throw(4).wrapping_add(1)
            };
            if self.dice.throw(2) == 0 || block.wrapping_add(1) == blocks {
                team = team.wrapping_add(1);
            }
            self.shapes.push(Shape {
                inputs,
                outputs,
                turns,
                team,
            })?;
        }
        Ok(())
    }

    fn write(&mut self) -> io::Result<()> {
        let version = self.version;
        writeln!(self.text, "etsgraph {version}")?;
        let arrays = self.dice.throw(4);
        for array in 0..arrays {
            let len = self.dice.throw(12).wrapping_add(1);
            writeln!(self.text, "array A{array} {len}")?;
            self.arrays.push(Array { len, filled: 0 })?;
        }
        let blocks = self.shapes.len() as u64;
        for block in 0..blocks {
            self.write_block(block)?;
        }
        let main = blocks.wrapping_sub(1);
        writeln!(self.text, "main b{main}")
    }

    fn choose_inputs(&mut self) -> Result<(), AllocError> {
        let fuel = self.dice.integer(4);
        self.inputs.push(fuel)?;
        for _ in 1..self.shape(self.block).inputs {
            let input = self.integer();
            self.inputs.push(input)?;
        }
        Ok(())
    }

    /// One of the integers.
    pub fn integer(&mut self) -> i64 {
        INTEGERS[self.dice.throw(8) as usize % 8]
    }
}
