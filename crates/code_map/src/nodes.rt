//! How many instructions each part of a block has, up to the joins of its ends.

ghost use Rattle.std.specs.Prelude.{◌≡◌, ◌+◌, ◌≤◌, length, map, IfOk, OnOk};
ghost use Rattle.semantics.specs.Graph.{flow_of, place_of, block_names};
ghost use Rattle.schemas.specs.Flows.{resolved_node, resolved_named};
ghost use Rattle.schemas.specs.Blocks as Blocks;
ghost use Rattle.code_map.specs.Counts as Counts;

use crate::part::Part;
use crate::rows::Rows;
use crate::triggers::has_trigger;
use crate::uses::UseTable;
use graph::{Block, Name, Node};
use graph_check::Checked;
use semantics::graph::{Kind, Region, Source};
use std::alloc::{AllocError, Allocator};

/// How many outputs the block of that name has.
fn outputs_of<'a, A: Allocator>(checked: &Checked<'a, A>, name: &Name<'a>) -> usize
    ensures { result ≡ Blocks.outputs_of (flow_of checked.now).blocks (place_of name.now (block_names checked.now)) }
{
    match checked.graph().blocks.get(checked.place_of_block(name)) {
        Some(block) => block.outputs as usize,
        None => 0,
    }
}

/// Adds what a call consists of.
fn push_call<A: Allocator>(
    rows: &mut Rows<A>,
    arguments: usize,
    outputs: usize,
    number: u32,
    region: Region,
) -> Result<(), AllocError>
    ensures { OnOk result (rows.new ≡ Counts.laid_call rows.old arguments outputs number region) }
{
    let part = Part::Node { node: number };
    rows.push(4, part, region)?;
    rows.push(arguments, part, region)?;
    rows.push(outputs, part, region)
}

/// Adds the instructions of the node of that number.
fn push_node<'a, A: Allocator>(
    rows: &mut Rows<A>,
    checked: &Checked<'a, A>,
    triggers: &[bool],
    uses: &UseTable<A>,
    number: u32,
    node: &Node<'a, A>,
) -> Result<(), AllocError>
    ensures { OnOk result (rows.new ≡ Counts.laid_node rows.old (flow_of checked.now).blocks triggers.now uses.now number (resolved_node checked.now node.now)) }
{
    let part = Part::Node { node: number };
    let region = node.region;
    let sources = node.sources.len();
    match &node.kind {
        Kind::Lit { .. } | Kind::Apply1 { .. } | Kind::Apply2 { .. } | Kind::Merge { .. } => {
            rows.push(1, part, region)
        }
        Kind::Cond => rows.push(usize::from(has_trigger(triggers, number)), part, region),
        Kind::Enter => rows.push(usize::from(region != Region::Root), part, region),
        Kind::Fetch { .. } | Kind::Store { .. } => {
            let shared = uses.is_often(number);
            rows.push(1 + usize::from(shared), part, region)
        }
        Kind::Call { block } => {
            let outputs = outputs_of(checked, block);
            push_call(rows, sources, outputs, number, region)
        }
        Kind::StrictCall { .. } if sources == 0 => Ok(()),
        Kind::StrictCall { block } => {
            rows.push(sources - 1, part, region)?;
            let outputs = outputs_of(checked, block);
            push_call(rows, sources, outputs, number, region)
        }
        Kind::Loop { .. } => {
            rows.push(4, part, region)?;
            push_call(rows, sources, sources, number, region)
        }
    }
}

/// Adds the instructions of all nodes of a block.
fn push_nodes<'a, A: Allocator>(
    rows: &mut Rows<A>,
    checked: &Checked<'a, A>,
    triggers: &[bool],
    uses: &UseTable<A>,
    block: &Block<'a, A>,
) -> Result<(), AllocError>
    requires few { block.now.1.inputs + length block.now.1.nodes ≤ 1024 }
    ensures { OnOk result (rows.new ≡ Counts.laid_nodes rows.old (flow_of checked.now).blocks triggers.now uses.now block.now.1.inputs (resolved_named checked.now block.now).nodes) }
{
    for (index, node) in block.nodes.iter().enumerate() {
        push_node(
            rows,
            checked,
            triggers,
            uses,
            block.inputs + index as u32,
            node,
        )?;
    }
    Ok(())
}

/// The entries of a block.
fn entries<A: Allocator + Clone>(alloc: A, inputs: u32) -> Result<Rows<A>, AllocError>
    ensures { IfOk result (λ r. r ≡ Counts.laid_entries inputs) }
{
    let mut rows = Rows {
        parts: Vec::new(alloc.clone()?),
        regions: Vec::new(alloc),
    };
    rows.push(1, Part::Continuation, Region::Root)?;
    for input in 0..inputs {
        rows.push(1, Part::Node { node: input }, Region::Root)?;
    }
    Ok(rows)
}

/// The entries and the nodes of a block.
pub(crate) fn body<'a, A: Allocator + Clone>(
    alloc: A,
    checked: &Checked<'a, A>,
    triggers: &[bool],
    uses: &UseTable<A>,
    block: &Block<'a, A>,
) -> Result<Rows<A>, AllocError>
    requires few { block.now.1.inputs + length block.now.1.nodes ≤ 1024 }
    ensures { IfOk result (λ r. r ≡ Counts.laid_body (flow_of checked.now).blocks triggers.now uses.now (resolved_named checked.now block.now)) }
{
    let mut rows = entries(alloc, block.inputs)?;
    push_nodes(&mut rows, checked, triggers, uses, block)?;
    Ok(rows)
}

/// Adds the returns of a plain block.
#[tactic(auto, using(crate::proofs::Counted::outputs_kept))]
pub(crate) fn push_outputs<A: Allocator>(
    rows: &mut Rows<A>,
    results: &[Source],
) -> Result<(), AllocError>
    requires few { length results.now ≤ 16 }
    ensures { OnOk result (rows.new ≡ Counts.laid_outputs rows.old 0 results.now) }
{
    for index in 0..results.len() {
        let output = index as u32;
        rows.push(1, Part::Output { output }, Region::Root)?;
    }
    Ok(())
}

/// Adds the turn of an iteration, whose flag has the number of a conditional that no node is.
pub(crate) fn push_turn<A: Allocator>(
    rows: &mut Rows<A>,
    flag: u32,
    results: &[Source],
) -> Result<(), AllocError>
    ensures { OnOk result (rows.new ≡ Counts.laid_turn rows.old flag results.now) }
{
    if results.is_empty() {
        return Ok(());
    }
    let on = Region::Arm {
        cond: flag,
        side: true,
    };
    let off = Region::Arm {
        cond: flag,
        side: false,
    };
    rows.push(4, Part::Turn, Region::Root)?;
    rows.push(results.len(), Part::Turn, Region::Root)?;
    rows.push(results.len(), Part::Turn, on)?;
    rows.push(results.len(), Part::Turn, off)
}
