//! Graphs whose names are resolved.

ghost use Rattle.std.specs.Prelude.{◌≡◌, ℕ, List, map, IfOk};
ghost use Rattle.semantics.specs.Graph.{flow_of, place_of, array_names, block_names, resolved_kind, resolved_block};
ghost use Rattle.semantics.specs.Text.{HasText};
ghost use Rattle.schemas.specs.Expanded.{IsSmallFlow};
ghost use Rattle.schemas.specs.Flows.{NamedArray, NamedBlock, resolved_node, resolved_named, array_length};

use graph::{Array, Name};
use graph_check::Checked;
use semantics::graph::{Kind, Region, Source};
use semantics::version::Version;
use std::alloc::{AllocError, Allocator};
use std::marker::Model;

/// A node that names arrays and blocks by their places.
#[derive(Drop)]
pub(crate) struct Node<A: Allocator> {
    pub region: Region,
    pub kind: Kind<u32>,
    pub sources: Vec<Source, A>,
}

impl<A: Allocator> Model for Node<A> {
    ghost use Rattle.std.specs.Prelude.{ℕ};
    ghost use Rattle.semantics.specs.Graph.{Node};

    ghost Value = { Node ℕ };

    ghost view = { λ n. record { region = n.region; kind = n.kind; sources = n.sources.items } };
}

/// A block of such nodes.
#[derive(Drop)]
pub(crate) struct Block<A: Allocator> {
    pub inputs: u32,
    pub outputs: u32,
    pub nodes: Vec<Node<A>, A>,
    pub results: Vec<Source, A>,
}

impl<A: Allocator> Model for Block<A> {
    ghost use Rattle.std.specs.Prelude.{ℕ};
    ghost use Rattle.semantics.specs.Graph.{Block};

    ghost Value = { Block ℕ };

    ghost view = { λ b. record { inputs = b.inputs; outputs = b.outputs; nodes = b.nodes.items; results = b.results.items } };
}

/// A graph of such blocks: the lengths of its arrays, its blocks, and the place of the one that is run.
#[derive(Drop)]
pub(crate) struct Flow<A: Allocator> {
    pub version: Version,
    pub arrays: Vec<u32, A>,
    pub blocks: Vec<Block<A>, A>,
    pub main: u32,
}

impl<A: Allocator> Model for Flow<A> {
    ghost use Rattle.semantics.specs.Versions.{version_number};
    ghost use Rattle.semantics.specs.Graph.{Flow};

    ghost Value = { Flow };

    ghost view = { λ f. record { version = version_number f.version; arrays = f.arrays.items; blocks = f.blocks.items; main = f.main } };
}

/// The graph with the place of each name for the name.
#[tactic(auto, using(crate::proofs::Small::block_place_is_small))]
pub(crate) fn resolve<'a, A: Allocator + Clone>(
    alloc: A,
    checked: &Checked<'a, A>,
) -> Result<Flow<A>, AllocError>
    ensures exact { IfOk result (λ f. f ≡ flow_of checked.now) }
    ensures small { IfOk result IsSmallFlow }
{
    let graph = checked.graph();
    Ok(Flow {
        version: graph.version,
        arrays: array_lengths(alloc.clone()?, &graph.arrays)?,
        blocks: resolve_blocks(alloc, checked, &graph.blocks)?,
        main: checked.main_place() as u32,
    })
}

fn resolve_blocks<'a, A: Allocator + Clone>(
    alloc: A,
    checked: &Checked<'a, A>,
    blocks: &[graph::Block<'a, A>],
) -> Result<Vec<Block<A>, A>, AllocError>
    requires limits { HasText checked.now }
    ensures { IfOk result (λ v. v.items ≡ map (resolved_named checked.now) blocks.now) }
{
    let mut resolved = Vec::with_capacity(alloc.clone()?, blocks.len())?;
    for block in blocks {
        resolved.push(resolve_block(alloc.clone()?, checked, block)?)?;
    }
    Ok(resolved)
}

fn resolve_block<'a, A: Allocator + Clone>(
    alloc: A,
    checked: &Checked<'a, A>,
    block: &graph::Block<'a, A>,
) -> Result<Block<A>, AllocError>
    requires limits { HasText checked.now }
    ensures { IfOk result (λ b. b ≡ resolved_named checked.now block.now) }
{
    Ok(Block {
        inputs: block.inputs,
        outputs: block.outputs,
        nodes: resolve_nodes(alloc.clone()?, checked, &block.nodes)?,
        results: block.results.to_vec(alloc)?,
    })
}

fn resolve_nodes<'a, A: Allocator + Clone>(
    alloc: A,
    checked: &Checked<'a, A>,
    nodes: &[graph::Node<'a, A>],
) -> Result<Vec<Node<A>, A>, AllocError>
    requires limits { HasText checked.now }
    ensures { IfOk result (λ v. v.items ≡ map (resolved_node checked.now) nodes.now) }
{
    let mut resolved = Vec::with_capacity(alloc.clone()?, nodes.len())?;
    for node in nodes {
        resolved.push(resolve_node(alloc.clone()?, checked, node)?)?;
    }
    Ok(resolved)
}

fn resolve_node<'a, A: Allocator + Clone>(
    alloc: A,
    checked: &Checked<'a, A>,
    node: &graph::Node<'a, A>,
) -> Result<Node<A>, AllocError>
    requires limits { HasText checked.now }
    ensures { IfOk result (λ n. n ≡ resolved_node checked.now node.now) }
{
    Ok(Node {
        region: node.region,
        kind: resolve_kind(checked, &node.kind),
        sources: node.sources.to_vec(alloc)?,
    })
}

fn resolve_kind<'a, A: Allocator>(checked: &Checked<'a, A>, kind: &Kind<Name<'a>>) -> Kind<u32>
    requires limits { HasText checked.now }
    ensures { result ≡ resolved_kind (array_names checked.now) (block_names checked.now) kind.now }
{
    match kind {
        Kind::Lit { value } => Kind::Lit { value: *value },
        Kind::Apply1 { op } => Kind::Apply1 { op: *op },
        Kind::Apply2 { op } => Kind::Apply2 { op: *op },
        Kind::Cond => Kind::Cond,
        Kind::Enter => Kind::Enter,
        Kind::Merge { cond } => Kind::Merge { cond: *cond },
        Kind::Fetch { array } => Kind::Fetch {
            array: array_number(checked, array),
        },
        Kind::Store { array } => Kind::Store {
            array: array_number(checked, array),
        },
        Kind::Call { block } => Kind::Call {
            block: block_number(checked, block),
        },
        Kind::StrictCall { block } => Kind::StrictCall {
            block: block_number(checked, block),
        },
        Kind::Loop { block, bound } => Kind::Loop {
            block: block_number(checked, block),
            bound: *bound,
        },
    }
}

/// The lengths of the arrays, in order.
fn array_lengths<'a, A: Allocator>(
    alloc: A,
    arrays: &[Array<'a>],
) -> Result<Vec<u32, A>, AllocError>
    ensures { IfOk result (λ v. v.items ≡ map array_length arrays.now) }
{
    let mut lengths = Vec::with_capacity(alloc, arrays.len())?;
    for array in arrays {
        lengths.push(array.len)?;
    }
    Ok(lengths)
}

/// The place of an array's name, or how many arrays there are where none has it.
#[tactic(auto, using(crate::proofs::Small::array_place_is_small))]
fn array_number<'a, A: Allocator>(checked: &Checked<'a, A>, name: &Name<'a>) -> u32
    requires limits { HasText checked.now }
    ensures { result ≡ place_of name.now (array_names checked.now) }
{
    checked.place_of_array(name) as u32
}

/// The place of a block's name, or how many blocks there are where none has it.
#[tactic(auto, using(crate::proofs::Small::block_place_is_small))]
fn block_number<'a, A: Allocator>(checked: &Checked<'a, A>, name: &Name<'a>) -> u32
    requires limits { HasText checked.now }
    ensures { result ≡ place_of name.now (block_names checked.now) }
{
    checked.place_of_block(name) as u32
}
