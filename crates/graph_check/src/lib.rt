//! Well-formed graphs: a graph is checked once, and its first fault, if it has one, is returned.
#![tactic(auto)]

ghost use Rattle.std.specs.Prelude.{◌≡◌, IfOk, IfErr, OnOk};
ghost use Rattle.semantics.specs.Graph.{place_of, array_names, block_names};
ghost use Rattle.semantics.specs.WellFormed.{WellFormed};
ghost use Rattle.semantics.specs.Text.{HasText};
ghost use Rattle.graph_check.specs.Causes.{fault_in, fault_of};
ghost use Rattle.graph_check.specs.FirstFault.{main_fault, all_blocks_fault, IsRefusal};

use graph::{Block, Graph, Name};
use std::alloc::Allocator;
use std::marker::Model;

mod blocks;
mod causes;
mod faults;
mod names;
mod nodes;

use blocks::{check_block, located};
pub use causes::{ArityCause, CheckCause, CheckRefusal, NameOf, RegionCause};
pub use faults::{CheckFault, CheckFaultKind};
use names::Named;
use nodes::require;

/// A graph that is well formed and within the limits, with its names looked up. Contracts see the graph.
#[derive(Drop)]
pub struct Checked<'a, A: Allocator> {
    named: Named<'a, A>,
}

impl<'a, A: Allocator> Model for Checked<'a, A> {
    ghost use Rattle.semantics.specs.Graph.{Graph};
    ghost use Rattle.semantics.specs.WellFormed.{WellFormed};
    ghost use Rattle.semantics.specs.Text.{HasText};

    ghost Value = { Graph };

    ghost view = { λ c. c.named };

    ghost invariant = { λ c. WellFormed c.named × HasText c.named };
}

impl<'a, A: Allocator> Checked<'a, A> {
    /// The graph.
    pub fn graph(&self) -> &Graph<'a, A>
        ensures same { result.now ≡ self.now }
        ensures well { WellFormed self.now }
        ensures limits { HasText self.now }
    {
        self.named.graph()
    }

    /// The place of the array of that name, or the number of arrays where there is none.
    pub fn place_of_array(&self, name: &Name<'a>) -> usize
        ensures { result ≡ place_of name.now (array_names self.now) }
    {
        self.named.place_of_array(name)
    }

    /// The place of the block of that name, or the number of blocks where there is none.
    pub fn place_of_block(&self, name: &Name<'a>) -> usize
        ensures { result ≡ place_of name.now (block_names self.now) }
    {
        self.named.place_of_block(name)
    }

    /// The place of the block that is run.
    pub fn main_place(&self) -> usize
        ensures { result ≡ place_of self.now.main (block_names self.now) }
    {
        self.named.place_of_main()
    }
}

/// The block to run exists.
fn check_main<'a, A: Allocator>(named: &Named<'a, A>) -> Result<(), CheckRefusal>
    ensures { fault_in result ≡ main_fault named.now }
{
    let cause = CheckCause::NoSuchName(NameOf::Main);
    located(require(named.has_main(), cause), None, None)
}

/// The blocks in order.
fn check_blocks<'a, A: Allocator>(
    named: &Named<'a, A>,
    blocks: &[Block<'a, A>],
) -> Result<(), CheckRefusal>
    ensures { fault_in result ≡ all_blocks_fault named.now blocks.now }
{
    for (i, block) in blocks.iter().enumerate() {
        check_block(named, i as u64, block)?;
    }
    Ok(())
}

fn blocks_of<'b, 'a, A: Allocator>(graph: &'b Graph<'a, A>) -> &'b [Block<'a, A>]
    ensures same { result.now ≡ graph.now.blocks }
    ensures limits { HasText graph.now }
{
    &graph.blocks
}

/// Returns a well-formed graph as checked, and refuses any other with its first fault.
///
/// The order is: the names of the arrays, the names of the blocks, the name of the block that is run, then the blocks in
/// order. In a block: inputs, outputs, the node lines in order, the line of outputs. At a node: its region (with the
/// conditional of a merge), the name, the number of sources and the shape of the block that it names, the bound, then its
/// sources from left to right, each for an earlier node, its port and its region. At the line of outputs: the number of
/// sources, then the sources from left to right in the same way.
///
/// `Memory` is returned, with no block and no node, where a growth was refused. A name is looked up in a map, so the time
/// is that of the text by the logarithm of the number of names.
pub fn check<'a, A: Allocator + Clone>(graph: Graph<'a, A>) -> Result<Checked<'a, A>, CheckFault>
    ensures checked { IfOk result (λ c. c ≡ graph.entry) }
    ensures well { OnOk result (WellFormed graph.entry) }
    ensures refused { IfErr result (IsRefusal graph.entry) }
{
    match check_graph(graph) {
        Ok(checked) => Ok(checked),
        Err(refusal) => Err(refusal.fault()),
    }
}

/// Returns a well-formed graph as checked, or why it is refused: what `check` returns, with what was known where the fault was found.
pub fn check_graph<'a, A: Allocator + Clone>(
    graph: Graph<'a, A>,
) -> Result<Checked<'a, A>, CheckRefusal>
    ensures checked { IfOk result (λ c. c ≡ graph.entry) }
    ensures well { OnOk result (WellFormed graph.entry) }
    ensures refused { IfErr result (λ r. IsRefusal graph.entry (fault_of r)) }
{
    let named = Named::of(graph)?;
    check_main(&named)?;
    check_blocks(&named, blocks_of(named.graph()))?;
    Ok(Checked { named })
}
