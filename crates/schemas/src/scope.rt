//! What the code of a block depends on.

ghost use Rattle.std.specs.Prelude.{◌≡◌, ◌<◌, ◌≤◌, Some};
ghost use Rattle.semantics.specs.Versions.{version_number};
ghost use Rattle.semantics.specs.Meaning.{origin_in};
ghost use Rattle.schemas.specs.Blocks as Blocks;
ghost use Rattle.schemas.specs.Scopes as Scopes;

use crate::flow::Block;
use crate::uses::Uses;
use semantics::graph::Source;
use semantics::version::Version;
use std::alloc::Allocator;
use std::marker::Model;
use tags::value::{NodeNumber, Origin};

/// A block with what its code depends on: its number, all blocks, the numbers of the loop variants' code, which of its
/// conditionals have triggers that something takes, and how often its nodes are used. Contracts see the record of these.
#[derive(Drop)]
pub(crate) struct Scope<'b, A: Allocator> {
    pub version: Version,
    pub number: u8,
    pub blocks: &'b [Block<A>],
    pub variants: &'b [u16],
    pub block: &'b Block<A>,
    pub triggers: &'b [bool],
    pub uses: &'b [Uses],
}

impl<'b, A: Allocator> Model for Scope<'b, A> {
    ghost use Rattle.semantics.specs.Versions.{version_number};
    ghost use Rattle.schemas.specs.Scopes.{Scope};

    ghost Value = { Scope };

    ghost view = { λ s. record {
      version = version_number s.version;
      number = s.number;
      blocks = s.blocks.now;
      variants = s.variants.now;
      block =
          s.block.now;
      triggers = s.triggers.now;
      uses = s.uses.now;
    } };
}

/// The origin of a fault of that node: only faults of the second version have one.
pub(crate) fn origin_of(version: Version, block: u8, node: u32) -> Origin
    requires { node < 1024 }
    ensures { result ≡ origin_in (version_number version) (Some block) node }
{
    match version {
        Version::One => Origin::Untold,
        Version::Two => Origin::At {
            block,
            node: NodeNumber::new(node as u16),
        },
    }
}

/// The code block of a block's loop variant.
fn variant_of(variants: &[u16], block: u32) -> u16
    ensures { result ≡ Blocks.variant_of variants.now block }
{
    match variants.get(block as usize) {
        Some(variant) => *variant,
        None => 0,
    }
}

/// How many outputs a block has.
fn outputs_of<A: Allocator>(blocks: &[Block<A>], block: u32) -> u32
    ensures { result ≡ Blocks.outputs_of blocks.now block }
{
    match blocks.get(block as usize) {
        Some(block) => block.outputs,
        None => 0,
    }
}

/// The source of a conditional's predicate.
pub(crate) fn predicate_of<A: Allocator>(block: &Block<A>, cond: u32) -> Source
    ensures { result ≡ Scopes.predicate_of block.now cond }
{
    const NOWHERE: Source = Source { node: 0, port: 0 };
    if cond < block.inputs {
        return NOWHERE;
    }
    match block.nodes.get((cond - block.inputs) as usize) {
        Some(node) => crate::builder::first_source(&node.sources),
        None => NOWHERE,
    }
}

impl<'b, A: Allocator> Scope<'b, A> {
    /// How many outputs a block has.
    #[tactic(auto, using(crate::proofs::Small::outputs_are_few))]
    pub fn outputs(&self, block: u32) -> u32
        requires { Blocks.FewOutputs self.now.blocks }
        ensures exact { result ≡ Blocks.outputs_of self.now.blocks block }
        ensures few { result ≤ 16 }
    {
        outputs_of(self.blocks, block)
    }

    /// The code block of a block's loop variant.
    pub fn variant(&self, block: u32) -> u16
        ensures { result ≡ Blocks.variant_of self.now.variants block }
    {
        variant_of(self.variants, block)
    }
}
