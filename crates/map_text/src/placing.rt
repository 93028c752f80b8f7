//! What the lines of the map name: blocks by their names, and nodes by their places in a program.

ghost use Rattle.std.specs.Prelude.{◌≡◌, map};
ghost use Rattle.semantics.specs.Graph.{block_names};
ghost use Rattle.map_text.specs.MapText as MapText;

use code_map::{Owner, Part};
use graph::{Block, Graph};
use lowering::Places;
use std::alloc::Allocator;
use std::marker::Model;

/// The program of which a graph was made, and for each block of the graph the places in the program for which its nodes were made.
#[derive(Drop)]
pub struct ProgramPlaces<'p, 'q, A: Allocator> {
    pub program: &'p [u8],
    pub places: &'q [Places<A>],
}

impl<'p, 'q, A: Allocator> Model for ProgramPlaces<'p, 'q, A> {
    ghost use Rattle.map_text.specs.MapText as MapText;

    ghost Value = { MapText.ProgramPlaces };

    ghost view = { λ p. record { program = p.program.now; places = p.places.now } };
}

/// The blocks of a graph, by their names.
pub(crate) fn blocks_of<'g, 'a, A: Allocator>(graph: &'g Graph<'a, A>) -> &'g [Block<'a, A>]
    ensures { map (λ b. b.0) result.now ≡ block_names graph.now }
{
    &graph.blocks
}

/// The name of block number `block`; empty where there is no such block.
pub(crate) fn name_at<'g, 'a, A: Allocator>(blocks: &'g [Block<'a, A>], block: u32) -> &'g [u8]
    ensures { result.now ≡ MapText.name_at (map (λ b. b.0) blocks.now) block }
{
    match blocks.get(block as usize) {
        Some(block) => block.name.bytes,
        None => b"",
    }
}

/// The place in the program for which a node of a block was made. An input has none.
fn node_place<A: Allocator>(places: &Places<A>, node: u32) -> Option<usize>
    ensures { result ≡ MapText.node_place places.now node }
{
    if node < places.inputs {
        return None;
    }
    match places.nodes.get((node - places.inputs) as usize) {
        Some(place) => Some(*place),
        None => None,
    }
}

/// The place in the program for which the node of an owner was made, if the owner has one.
pub(crate) fn owner_place<A: Allocator>(places: &[Places<A>], owner: Owner) -> Option<usize>
    ensures { result ≡ MapText.owner_place places.now owner }
{
    match owner.part {
        Part::Node { node } | Part::Joins { node } => match places.get(owner.block as usize) {
            Some(places) => node_place(places, node),
            None => None,
        },
        _ => None,
    }
}
