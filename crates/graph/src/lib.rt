//! Graphs as their texts have them: arrays, code blocks, and the block that is run. Contracts see each type as the record
//! of the definitions that it stands for.
#![tactic(auto)]

use semantics::graph::{Kind, Region, Source};
use semantics::version::Version;
use std::alloc::Allocator;
use std::marker::Model;

/// A name, borrowed from the text. Contracts see its bytes.
#[derive(Drop)]
pub struct Name<'a> {
    pub bytes: &'a [u8],
}

impl<'a> Model for Name<'a> {
    ghost use Rattle.std.specs.Prelude.{ℕ, List};

    ghost Value = { List ℕ };

    ghost view = { λ n. n.bytes.now };
}

/// An array of cells.
#[derive(Drop)]
pub struct Array<'a> {
    pub name: Name<'a>,
    /// How many cells it has.
    pub len: u32,
}

impl<'a> Model for Array<'a> {
    ghost use Rattle.std.specs.Prelude.{ℕ, List};

    ghost Value = { List ℕ × ℕ };

    ghost view = { λ a. (a.name, a.len) };
}

/// A node line: where the node lies, what it does, and the sources of its operands.
#[derive(Drop)]
pub struct Node<'a, A: Allocator> {
    pub region: Region,
    pub kind: Kind<Name<'a>>,
    pub sources: Vec<Source, A>,
}

impl<'a, A: Allocator> Model for Node<'a, A> {
    ghost use Rattle.std.specs.Prelude.{ℕ, List};
    ghost use Rattle.semantics.specs.Graph.{Node};

    ghost Value = { Node (List ℕ) };

    ghost view = { λ n. record { region = n.region; kind = n.kind; sources = n.sources.items } };
}

/// A code block with its name. The inputs are the nodes below `inputs`, and the node lines count on from there.
#[derive(Drop)]
pub struct Block<'a, A: Allocator> {
    pub name: Name<'a>,
    pub inputs: u32,
    pub outputs: u32,
    pub nodes: Vec<Node<'a, A>, A>,
    /// The sources of the outputs.
    pub results: Vec<Source, A>,
}

impl<'a, A: Allocator> Model for Block<'a, A> {
    ghost use Rattle.std.specs.Prelude.{ℕ, List};
    ghost use Rattle.semantics.specs.Graph.{Block};

    ghost Value = { List ℕ × Block (List ℕ) };

    ghost view = { λ b. (b.name, record { inputs = b.inputs; outputs = b.outputs; nodes = b.nodes.items; results = b.results.items }) };
}

/// A graph: its arrays, its code blocks, and the name of the block that is run. Every graph has a text: it has the form and
/// is within the limits of texts. Who makes one proves that.
#[derive(Drop)]
pub struct Graph<'a, A: Allocator> {
    pub version: Version,
    pub arrays: Vec<Array<'a>, A>,
    pub blocks: Vec<Block<'a, A>, A>,
    pub main: Name<'a>,
}

impl<'a, A: Allocator> Model for Graph<'a, A> {
    ghost use Rattle.semantics.specs.Graph.{Graph};

    ghost Value = { Graph };

    ghost use Rattle.semantics.specs.Versions.{version_number};

    ghost view = { λ g. record { version = version_number g.version; arrays = g.arrays.items; blocks = g.blocks.items; main = g.main } };

    ghost use Rattle.semantics.specs.Text.{HasText};

    ghost invariant = { λ g. HasText record { version = version_number g.version; arrays = g.arrays.items; blocks = g.blocks.items; main = g.main } };
}
