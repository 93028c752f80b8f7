//! What a program is lowered to, before it is a graph.

use graph::Node;
use semantics::graph::Source;
use std::alloc::Allocator;
use std::marker::Model;

/// A node line, and the place of the token that it is made for.
#[derive(Drop)]
pub struct Made<'a, A: Allocator> {
    pub at: usize,
    pub node: Node<'a, A>,
}

impl<'a, A: Allocator> Model for Made<'a, A> {
    ghost use Rattle.source.specs.Lowered.{Made};

    ghost Value = { Made };

    ghost view = { λ m. record { at = m.at; node = m.node } };
}

/// A block of a function: the function's own, numbered 0, or that of its k-th loop.
#[derive(Drop)]
pub struct MadeBlock<'a, A: Allocator> {
    pub at: usize,
    pub number: usize,
    pub inputs: usize,
    pub nodes: Vec<Made<'a, A>, A>,
    pub results: Vec<Source, A>,
}

impl<'a, A: Allocator> Model for MadeBlock<'a, A> {
    ghost use Rattle.source.specs.Lowered.{MadeBlock};

    ghost Value = { MadeBlock };

    ghost view = { λ b. record { at = b.at; loop = b.number; inputs = b.inputs; nodes = b.nodes.items; results = b.results.items } };
}

/// A block with the name of its function.
#[derive(Drop)]
pub struct OfFunction<'a, A: Allocator> {
    pub function: &'a [u8],
    pub block: MadeBlock<'a, A>,
}

impl<'a, A: Allocator> Model for OfFunction<'a, A> {
    ghost use Rattle.std.specs.Prelude.{ℕ, List};
    ghost use Rattle.source.specs.Lowered.{MadeBlock};

    ghost Value = { List ℕ × MadeBlock };

    ghost view = { λ b. (b.function.now, b.block) };
}
