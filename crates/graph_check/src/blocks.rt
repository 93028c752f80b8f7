//! What is checked at a block.

ghost use Rattle.std.specs.Prelude.{◌≡◌, ℕ, List, ◌<◌, ◌+◌, ◌^◌, length};
ghost use Rattle.semantics.specs.Graph as of_graphs;
ghost use Rattle.graph_check.specs.Causes.{fault_in, kind_in};
ghost use Rattle.graph_check.specs.FirstFault as of_faults;

use crate::causes::{ArityCause, CheckCause, CheckRefusal, Taker};
use crate::names::Named;
use crate::nodes::{check_node, check_source, require};
use graph::{Block, Node};
use semantics::graph::{Region, Source};
use std::alloc::Allocator;

/// A fault with its place.
pub(crate) fn located(
    outcome: Result<(), CheckCause>,
    block: Option<u64>,
    node: Option<u64>,
) -> Result<(), CheckRefusal>
    ensures { fault_in result ≡ of_faults.fault_at block node (kind_in outcome) }
{
    match outcome {
        Ok(()) => Ok(()),
        Err(cause) => Err(CheckRefusal { cause, block, node }),
    }
}

/// The sources of the outputs from left to right.
fn check_outputs<'a, A: Allocator>(
    named: &Named<'a, A>,
    block: &Block<'a, A>,
    n: u64,
    sources: &[Source],
) -> Result<(), CheckCause>
    ensures { kind_in result ≡ of_faults.outputs_fault named.now block.now.1 n sources.now }
{
    for source in sources {
        check_source(named, block, n, Region::Root, Taker::Outputs, *source)?;
    }
    Ok(())
}

/// How many nodes a block has, inputs counted.
fn node_count<'a, A: Allocator>(block: &Block<'a, A>) -> u64
    ensures { result ≡ of_graphs.node_count block.now.1 }
{
    u64::from(block.inputs) + block.nodes.len() as u64
}

/// The line of outputs.
fn check_results<'a, A: Allocator>(
    named: &Named<'a, A>,
    block: &Block<'a, A>,
) -> Result<(), CheckCause>
    ensures { kind_in result ≡ of_faults.results_fault named.now block.now.1 }
{
    let has = block.results.len() as u64;
    let wants = u64::from(block.outputs);
    let cause = CheckCause::Arity(ArityCause::Outputs { has, wants });
    require(has == wants, cause)?;
    check_outputs(named, block, node_count(block), &block.results)
}

/// The node lines of a block in order.
fn check_lines<'a, A: Allocator>(
    named: &Named<'a, A>,
    number: u64,
    block: &Block<'a, A>,
    inputs: u32,
    nodes: &[Node<'a, A>],
) -> Result<(), CheckRefusal>
    requires { length nodes.now < 2 ^ 63 }
    ensures { fault_in result ≡ of_faults.lines_fault named.now number block.now.1 inputs nodes.now }
{
    for (i, node) in nodes.iter().enumerate() {
        let n = u64::from(inputs) + i as u64;
        located(check_node(named, block, n, node), Some(number), Some(n))?;
    }
    Ok(())
}

/// A block, of which that is the place.
pub(crate) fn check_block<'a, A: Allocator>(
    named: &Named<'a, A>,
    number: u64,
    block: &Block<'a, A>,
) -> Result<(), CheckRefusal>
    ensures { fault_in result ≡ of_faults.block_fault named.now number block.now.1 }
{
    let here = Some(number);
    located(require(block.inputs > 0, CheckCause::NoInput), here, None)?;
    located(require(block.outputs > 0, CheckCause::NoOutput), here, None)?;
    check_lines(named, number, block, block.inputs, &block.nodes)?;
    located(check_results(named, block), here, Some(node_count(block)))
}
