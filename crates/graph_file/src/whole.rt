//! What a whole text says.

ghost use Rattle.std.specs.Prelude.{◌≡◌};
ghost use Rattle.semantics.specs.Text.{HasText};

use graph::{Array, Block, Graph, Name};
use semantics::version::Version;
use std::alloc::Allocator;
use std::marker::Model;

/// What a whole text says, before it is a graph: the reader looked at each limit, and `read` proves of the text as a whole that
/// none is passed. Contracts see the record of the graph.
#[derive(Drop)]
pub(crate) struct Whole<'a, A: Allocator> {
    pub version: Version,
    pub arrays: Vec<Array<'a>, A>,
    pub blocks: Vec<Block<'a, A>, A>,
    pub main: Name<'a>,
}

impl<'a, A: Allocator> Model for Whole<'a, A> {
    ghost use Rattle.semantics.specs.Graph.{Graph};
    ghost use Rattle.semantics.specs.Versions.{version_number};

    ghost Value = { Graph };

    ghost view = { λ w. record { version = version_number w.version; arrays = w.arrays.items; blocks = w.blocks.items; main = w.main } };
}

impl<'a, A: Allocator> Whole<'a, A> {
    /// The graph.
    pub(crate) fn graph(self) -> Graph<'a, A>
        requires limits { HasText self }
        ensures { result ≡ self.entry }
    {
        let Whole {
            version,
            arrays,
            blocks,
            main,
        } = self;
        Graph {
            version,
            arrays,
            blocks,
            main,
        }
    }
}
