//! Where a node is, for a person: in the program that the graph was made of, or in the graph.

use crate::blocks::Block;
use crate::catalog::Text;
use crate::line_list::LineList;
use crate::lines::{is, is_line_feed, line_at, text_at};
use crate::message::{Found, window};
use crate::programs::token_at;
use lowered_text::fault::LowerFault;
use lowered_text::programs::{make, read_good};
use lowering::Named;
use source_tokens::{position, split};
use std::alloc::{AllocError, Allocator};

/// A node of a graph, by the number of its block and by its own.
#[derive(Clone, Copy, PartialEq, Eq)]
pub struct Node {
    pub block: u64,
    pub node: u64,
}

/// A node of the graph that a program is lowered to, and the place in the program's text that it is made for.
#[derive(Clone, Copy)]
pub struct NodePlace {
    node: Node,
    at: usize,
}

/// A program, and the places of the nodes of its graph.
#[derive(Clone, Copy)]
pub struct Program<'r, 'a> {
    pub text: &'a [u8],
    pub nodes: &'r [NodePlace],
}

/// What was run: the text of a graph, and the program that it was made of, if that is known.
#[derive(Clone, Copy)]
pub struct Source<'r, 'a> {
    pub graph: &'a [u8],
    pub program: Option<Program<'r, 'a>>,
}

/// What nodes are looked for.
#[derive(Clone, Copy)]
pub enum Sought<'n> {
    /// Stores into the array with this name.
    Stores(&'n str),
    /// Loops whose bounds are less than this.
    LoopsBelow(u64),
}

impl Sought<'_> {
    /// Whether this line of a graph is that of such a node.
    fn has(&self, line: &[u8]) -> bool {
        let kind = text_at(line, 1);
        match *self {
            Sought::Stores(name) => is(kind, "store") && is(text_at(line, 2), name),
            Sought::LoopsBelow(bound) => {
                is(kind, "loop") && text_at(line, 3).parse().is_ok_and(|own: u64| own < bound)
            }
        }
    }
}

impl<'r, 'a> Program<'r, 'a> {
    /// The place in the text that the node is made for.
    fn place_of(&self, node: Node) -> Option<usize> {
        let place = self.nodes.iter().find(|place| place.node == node)?;
        Some(place.at)
    }

    /// What was found, at the token that the node is made for.
    fn at(&self, found: Found<'a>, node: Node) -> Option<Found<'a>> {
        let at = self.place_of(node)?;
        let place = position(self.text, at);
        let (number, column) = (place.line as u64, place.column as u64);
        let line = line_at(self.text, number);
        let seen = window(line, column);
        let text = match line.len() {
            len if seen.len() < len => "line $e is `..$s`; at column $f is `$q`",
            _ => "line $e is `$s`; at column $f is `$q`",
        };
        let words = [found.words[0], found.words[1]];
        Some(found.placed(
            text,
            words,
            [token_at(self.text, at), seen],
            [number, column],
        ))
    }
}

impl<'r, 'a> Source<'r, 'a> {
    /// What was found, at the line of the node in the graph.
    fn in_graph(&self, found: Found<'a>, node: Node) -> Option<Found<'a>> {
        let block = Block::of(self.graph, None, node.block)?;
        let number = block.line.saturating_add(1).saturating_add(node.node);
        let number = number.saturating_sub(block.inputs);
        let line = line_at(self.graph, number);
        let text = "node $e of block $1, line $f, is `$s`";
        let words = [block.name, found.words[1]];
        Some(found.placed(text, words, [line; 2], [node.node, number]))
    }

    /// What was found, at the place of the node: in the program, where that is known, or else in the graph.
    pub fn at(&self, found: Found<'a>, node: Node) -> Option<Found<'a>> {
        match self.program {
            Some(program) => program.at(found, node),
            None => self.in_graph(found, node),
        }
    }

    /// The line of the node in the program, where that is known.
    fn line_in_program(&self, node: Node) -> Option<u64> {
        let program = self.program?;
        let at = program.place_of(node)?;
        Some(position(program.text, at).line as u64)
    }

    /// The lines of these nodes: in the program, where that is known, or else in the graph.
    pub fn lines(&self, sought: Sought<'_>) -> LineList {
        let mut lines = LineList::none();
        let (mut block, mut node) = (0u64, 0u64);
        for (place, line) in self.graph.split(is_line_feed).enumerate() {
            if is(text_at(line, 0), "block") {
                block = block.saturating_add(1);
                node = text_at(line, 2).parse().unwrap_or(0);
                continue;
            }
            if sought.has(line) {
                let own = Node {
                    block: block.saturating_sub(1),
                    node,
                };
                let number = (place as u64).saturating_add(1);
                lines.add(self.line_in_program(own).unwrap_or(number));
            }
            node = node.saturating_add(1);
        }
        lines
    }

    /// The text that lines are of.
    pub fn text(&self) -> &'a [u8] {
        match self.program {
            Some(program) => program.text,
            None => self.graph,
        }
    }
}

/// The number of the line of a node; 0 where there is no such block.
fn number_of(graph: &[u8], node: Node) -> u64 {
    let Some(block) = Block::of(graph, None, node.block) else {
        return 0;
    };
    let number = block.line.saturating_add(1).saturating_add(node.node);
    number.saturating_sub(block.inputs)
}

/// The name after the kind of a node, in its line; empty where there is none.
pub fn name_at(graph: &[u8], node: Node) -> &str {
    text_at(line_at(graph, number_of(graph, node)), 2)
}

/// The text of the program in this text.
pub fn program_of(text: &[u8]) -> &[u8] {
    split(text).program
}

/// The places of the nodes of this program.
fn nodes_of<A: Allocator + Clone>(
    alloc: &A,
    named: Named<'_, A>,
    program: &[u8],
) -> Result<Vec<NodePlace, A>, AllocError> {
    let mut nodes = Vec::new(alloc.clone()?);
    let made = match make(alloc, program, &named) {
        Ok(made) => made,
        Err(LowerFault::Memory) => return Err(AllocError),
        Err(LowerFault::Program(_refusal)) => return Ok(nodes),
    };
    for (number, places) in made.places.iter().enumerate() {
        let block = number as u64;
        let mut node = u64::from(places.inputs);
        for at in &places.nodes {
            nodes.push(NodePlace {
                node: Node { block, node },
                at: *at,
            })?;
            node = node.saturating_add(1);
        }
    }
    Ok(nodes)
}

/// The places of the nodes of the program in this text. There are none where it has no graph.
pub fn places_of<A: Allocator + Clone>(
    alloc: &A,
    text: &[u8],
) -> Result<Vec<NodePlace, A>, AllocError> {
    match read_good(alloc, text) {
        Ok((named, parts)) => nodes_of(alloc, named, parts.program),
        Err(LowerFault::Memory) => Err(AllocError),
        Err(LowerFault::Program(_refusal)) => Ok(Vec::new(alloc.clone()?)),
    }
}
