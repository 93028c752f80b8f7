//! How often the outputs of nodes are used.

ghost use Rattle.std.specs.Prelude.{◌≡◌, ℕ, ◌+◌, ◌≤◌, length, replicate, true, false, IfOk};
ghost use Rattle.semantics.specs.Graph.{node_count};
ghost use Rattle.schemas.specs.declared.uses.Uses.TheVariants.{Never};
ghost use Rattle.schemas.specs.Triggers as Triggers;
ghost use Rattle.schemas.specs.UseCounts as UseCounts;

use crate::flow::{Block, Node};
use crate::scope::predicate_of;
use crate::triggers::has_trigger;
use semantics::graph::{Kind, Region, Source};
use std::alloc::{AllocError, Allocator};

/// How often a value is used.
#[derive(Clone, Copy)]
pub enum Uses {
    Never,
    Once,
    Often,
}

impl Uses {
    fn more(self) -> Uses
        ensures { result ≡ UseCounts.more self }
    {
        match self {
            Uses::Never => Uses::Once,
            Uses::Once | Uses::Often => Uses::Often,
        }
    }

    pub fn is_often(self) -> bool
        ensures { result ≡ UseCounts.is_often self }
    {
        matches!(self, Uses::Often)
    }
}

/// The uses of a node.
pub(crate) fn uses_at(uses: &[Uses], node: usize) -> Uses
    ensures { result ≡ UseCounts.uses_at uses.now node }
{
    match uses.get(node) {
        Some(uses) => *uses,
        None => Uses::Never,
    }
}

fn note(uses: &mut [Uses], source: Source)
    ensures { uses.new ≡ UseCounts.noted uses.old source }
{
    let node = source.node as usize;
    if node < uses.len() {
        uses[node] = uses[node].more();
    }
}

/// Notes a use that is two destinations.
fn note_twice(uses: &mut [Uses], source: Source)
    ensures { uses.new ≡ UseCounts.noted_use uses.old source true }
{
    note(uses, source);
    note(uses, source);
}

/// Notes a use of each of the sources.
fn note_sources(uses: &mut [Uses], sources: &[Source])
    ensures { uses.new ≡ UseCounts.noted_sources uses.old sources.now false }
{
    for source in sources {
        note(uses, *source);
    }
}

/// Notes a use of each of the sources that is two destinations.
fn note_sources_twice(uses: &mut [Uses], sources: &[Source])
    ensures { uses.new ≡ UseCounts.noted_sources uses.old sources.now true }
{
    for source in sources {
        note_twice(uses, *source);
    }
}

/// Notes that an `enter` of that region takes the predicate.
fn note_predicate<A: Allocator>(uses: &mut [Uses], block: &Block<A>, region: Region)
    ensures { uses.new ≡ UseCounts.noted_predicate uses.old block.now region }
{
    if let Region::Arm { cond, side: _ } = region {
        note(uses, predicate_of(block, cond));
    }
}

/// Notes the source of a conditional: the switch of its triggers, if it has one, takes it at both ports.
fn note_conditional(uses: &mut [Uses], triggers: &[bool], cond: u32, sources: &[Source])
    ensures { uses.new ≡ UseCounts.noted_conditional uses.old (Triggers.has_trigger triggers.now cond) sources.now }
{
    if has_trigger(triggers, cond) {
        note_sources_twice(uses, sources);
    }
}

/// Notes what the node of that number takes. A strict call also joins its sources, so each has two destinations there.
fn note_node<A: Allocator>(
    uses: &mut [Uses],
    block: &Block<A>,
    triggers: &[bool],
    number: u32,
    node: &Node<A>,
)
    ensures { uses.new ≡ UseCounts.noted_node uses.old block.now triggers.now number node.now }
{
    match &node.kind {
        Kind::Cond => note_conditional(uses, triggers, number, &node.sources),
        Kind::Enter => {
            note_sources(uses, &node.sources);
            note_predicate(uses, block, node.region);
        }
        Kind::StrictCall { .. } => note_sources_twice(uses, &node.sources),
        _ => note_sources(uses, &node.sources),
    }
}

/// Notes what such nodes of a block take, whose first one has that number.
fn note_nodes<A: Allocator>(
    uses: &mut [Uses],
    block: &Block<A>,
    triggers: &[bool],
    first: u32,
    nodes: &[Node<A>],
)
    requires { first + length nodes.now ≤ 1024 }
    ensures { uses.new ≡ UseCounts.noted_nodes uses.old block.now triggers.now first nodes.now }
{
    for (index, node) in nodes.iter().enumerate() {
        note_node(uses, block, triggers, first + index as u32, node);
    }
}

/// How often the nodes of a block use each node.
fn uses_by_nodes<A: Allocator>(
    alloc: A,
    block: &Block<A>,
    triggers: &[bool],
    nodes: usize,
) -> Result<Vec<Uses, A>, AllocError>
    requires { block.now.inputs + length block.now.nodes ≤ 1024 }
    ensures { IfOk result (λ v. v.items ≡ UseCounts.noted_nodes (replicate nodes Never) block.now triggers.now block.now.inputs block.now.nodes) }
{
    let mut uses = vec![in alloc; Uses::Never; nodes]?;
    note_nodes(&mut uses, block, triggers, block.inputs, &block.nodes);
    Ok(uses)
}

/// Notes the results of a call: each is returned.
#[tactic(auto, using(crate::proofs::Results::plain_results))]
fn note_returns(uses: &mut [Uses], results: &[Source])
    ensures { uses.new ≡ UseCounts.noted_results uses.old false results.now }
{
    note_sources(uses, results);
}

/// Notes the results of an iteration: the first one is the flag, which each switch takes.
fn note_turn(uses: &mut [Uses], results: &[Source])
    ensures { uses.new ≡ UseCounts.noted_results uses.old true results.now }
{
    if let Some((flag, values)) = results.split_first() {
        note_twice(uses, *flag);
        note_sources(uses, values);
    }
}

/// How often each node of a block is used in a call.
pub(crate) fn plain_uses<A: Allocator>(
    alloc: A,
    block: &Block<A>,
    triggers: &[bool],
    nodes: usize,
) -> Result<Vec<Uses, A>, AllocError>
    requires { block.now.inputs + length block.now.nodes ≤ 1024 }
    ensures { IfOk result (λ v. v.items ≡ UseCounts.uses_of block.now triggers.now false nodes) }
{
    let mut uses = uses_by_nodes(alloc, block, triggers, nodes)?;
    note_returns(&mut uses, &block.results);
    Ok(uses)
}

/// How often each node of a block is used in an iteration.
pub(crate) fn variant_uses<A: Allocator>(
    alloc: A,
    block: &Block<A>,
    triggers: &[bool],
    nodes: usize,
) -> Result<Vec<Uses, A>, AllocError>
    requires { block.now.inputs + length block.now.nodes ≤ 1024 }
    ensures { IfOk result (λ v. v.items ≡ UseCounts.uses_of block.now triggers.now true nodes) }
{
    let mut uses = uses_by_nodes(alloc, block, triggers, nodes)?;
    note_turn(&mut uses, &block.results);
    Ok(uses)
}
