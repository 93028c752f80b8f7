//! The owners of the instructions of a plan, block by block.

ghost use Rattle.std.specs.Prelude.{◌≡◌, Bool, ◌+◌, ◌≤◌, length, map, All, IfOk, OnOk};
ghost use Rattle.semantics.specs.Graph as Graph;
ghost use Rattle.semantics.specs.Graph.{flow_of};
ghost use Rattle.code.specs.Holders.{instrs_in};
ghost use Rattle.schemas.specs.Expanded.{expanded};
ghost use Rattle.schemas.specs.Flows.{resolved_named};
ghost use Rattle.schemas.specs.Variants as Variants;
ghost use Rattle.code_map.specs.Owners as Owners;
ghost use Rattle.code_map.specs.Counts as Counts;
ghost use Rattle.code_map.specs.Joins as Joins;
ghost use Rattle.code_map.specs.Found as Found;

use crate::ends::ends_of;
use crate::joins::Joined;
use crate::looped::looped_of;
use crate::nodes::{body, push_outputs, push_turn};
use crate::owner::Owner;
use crate::part::Part;
use crate::rows::Rows;
use crate::triggers::triggers_of;
use crate::uses::uses_of;
use code::{Instr, Plan};
use graph::Block;
use graph_check::Checked;
use semantics::graph::{Region, Source};
use semantics::program::Mark;
use std::alloc::{AllocError, Allocator};

/// The instructions of a code block of a plan; none where there is no such block.
fn instrs_of<A: Allocator>(plan: &Plan<A>, code: usize) -> &[Instr<A>]
    ensures { result.now ≡ instrs_in plan.now code }
{
    match plan.program.blocks.get(code) {
        Some(block) => &block.instrs,
        None => &[],
    }
}

/// How many nodes a block has, with its inputs.
#[tactic(auto, using(crate::proofs::Counted::nodes_counted))]
fn node_count<'a, A: Allocator>(checked: &Checked<'a, A>, block: &Block<'a, A>) -> u32
    requires few { block.now.1.inputs + length block.now.1.nodes ≤ 1024 }
    ensures { result ≡ Graph.node_count (resolved_named checked.now block.now) }
{
    block.inputs + block.nodes.len() as u32
}

/// Adds the returns of a call, or the turn of an iteration.
fn push_tail<A: Allocator>(
    rows: &mut Rows<A>,
    turns: bool,
    count: u32,
    results: &[Source],
) -> Result<(), AllocError>
    requires few { length results.now ≤ 16 }
    ensures { OnOk result (rows.new ≡ Counts.laid_tail rows.old turns count results.now) }
{
    if turns {
        push_turn(rows, count, results)
    } else {
        push_outputs(rows, results)
    }
}

/// The parts and the regions of a block's instructions up to the joins of its ends.
fn rows_of<'a, A: Allocator + Clone>(
    alloc: A,
    checked: &Checked<'a, A>,
    block: &Block<'a, A>,
    turns: bool,
) -> Result<Rows<A>, AllocError>
    requires few { block.now.1.inputs + length block.now.1.nodes ≤ 1024 }
    requires results { length block.now.1.results ≤ 16 }
    ensures { IfOk result (λ r. r ≡ Found.rows_of (flow_of checked.now).blocks (resolved_named checked.now block.now) turns) }
{
    let count = node_count(checked, block);
    let nodes = count as usize;
    let triggers = triggers_of(alloc.clone()?, checked, block, nodes)?;
    let uses = uses_of(alloc.clone()?, checked, block, &triggers, turns, nodes)?;
    let mut rows = body(alloc, checked, &triggers, &uses, block)?;
    push_tail(&mut rows, turns, count, &block.results)?;
    Ok(rows)
}

/// Adds the joins of the two sides of an iteration's turn; a call has none.
fn close_flag<A: Allocator>(
    joined: &mut Joined<A>,
    turns: bool,
    count: u32,
) -> Result<(), AllocError>
    ensures { OnOk result (joined.new ≡ Joins.closed_flag joined.old turns count) }
{
    if turns {
        joined.close(count, Region::Root, Part::Turn)
    } else {
        Ok(())
    }
}

/// The parts of a block's instructions, which are given with their marks: those of a call, or of an iteration.
#[tactic(auto, unfolding(crate::specs::Found::parts_of))]
fn parts_of<'a, A: Allocator + Clone>(
    alloc: A,
    checked: &Checked<'a, A>,
    block: &Block<'a, A>,
    turns: bool,
    instrs: &[Instr<A>],
    marks: &[Mark],
) -> Result<Vec<Part, A>, AllocError>
    requires few { block.now.1.inputs + length block.now.1.nodes ≤ 1024 }
    requires results { length block.now.1.results ≤ 16 }
    ensures { IfOk result (λ v. v.items ≡ Found.parts_of (flow_of checked.now).blocks (resolved_named checked.now block.now) turns instrs.now marks.now) }
{
    let count = node_count(checked, block);
    let rows = rows_of(alloc.clone()?, checked, block, turns)?;
    let ends = ends_of(alloc, instrs, marks, &rows.regions)?;
    let mut joined = Joined {
        parts: rows.parts,
        ends,
    };
    close_flag(&mut joined, turns, count)?;
    joined.close_nodes(checked, block.inputs, &block.nodes)?;
    joined.release()?;
    Ok(joined.parts)
}

/// The parts with their block.
fn owned<A: Allocator>(
    alloc: A,
    parts: &[Part],
    block: u32,
    turns: bool,
) -> Result<Vec<Owner, A>, AllocError>
    ensures { IfOk result (λ v. v.items ≡ Owners.owned block turns parts.now) }
{
    let mut owners = Vec::with_capacity(alloc, parts.len())?;
    for part in parts {
        owners.push(Owner {
            block,
            turns,
            part: *part,
        })?;
    }
    Ok(owners)
}

/// Adds the owners of a block's next code.
fn push_block<'a, A: Allocator + Clone>(
    alloc: A,
    owners: &mut Vec<Vec<Owner, A>, A>,
    checked: &Checked<'a, A>,
    plan: &Plan<A>,
    number: u32,
    turns: bool,
    block: &Block<'a, A>,
) -> Result<(), AllocError>
    requires few { block.now.1.inputs + length block.now.1.nodes ≤ 1024 }
    requires results { length block.now.1.results ≤ 16 }
    ensures { OnOk result (map (λ v. v.items) owners.new.items ≡ Found.with_block (flow_of checked.now).blocks plan.now (map (λ v. v.items) owners.old.items) number turns (resolved_named checked.now block.now)) }
{
    let code = owners.len();
    let parts = parts_of(
        alloc.clone()?,
        checked,
        block,
        turns,
        instrs_of(plan, code),
        plan.marks_of(code),
    )?;
    owners.push(owned(alloc, &parts, number, turns)?)?;
    Ok(())
}

/// Adds the owners of the plain code of all blocks.
fn push_plain<'a, A: Allocator + Clone>(
    alloc: A,
    owners: &mut Vec<Vec<Owner, A>, A>,
    checked: &Checked<'a, A>,
    plan: &Plan<A>,
    blocks: &[Block<'a, A>],
) -> Result<(), AllocError>
    requires few { length blocks.now ≤ 256 }
    requires small { All Found.IsSmall blocks.now }
    ensures { OnOk result (map (λ v. v.items) owners.new.items ≡ Found.all_plain (flow_of checked.now).blocks plan.now (map (λ v. v.items) owners.old.items) 0 (map (resolved_named checked.now) blocks.now)) }
{
    for (number, block) in blocks.iter().enumerate() {
        push_block(
            alloc.clone()?,
            owners,
            checked,
            plan,
            number as u32,
            false,
            block,
        )?;
    }
    Ok(())
}

/// Adds those of the loop variants of the blocks that some loop names.
fn push_variants<'a, A: Allocator + Clone>(
    alloc: A,
    owners: &mut Vec<Vec<Owner, A>, A>,
    checked: &Checked<'a, A>,
    plan: &Plan<A>,
    blocks: &[Block<'a, A>],
    looped: &[bool],
) -> Result<(), AllocError>
    requires few { length blocks.now ≤ 256 }
    requires small { All Found.IsSmall blocks.now }
    requires graph { map (resolved_named checked.now) blocks.now ≡ (flow_of checked.now).blocks }
    requires looped { Variants.AreLooped (map (resolved_named checked.now) blocks.now) looped.now }
    ensures { OnOk result (map (λ v. v.items) owners.new.items ≡ Found.all_variants (flow_of checked.now).blocks plan.now (map (λ v. v.items) owners.old.items) 0 (map (resolved_named checked.now) blocks.now)) }
{
    for (number, block) in blocks.iter().enumerate() {
        if looped[number] {
            push_block(
                alloc.clone()?,
                owners,
                checked,
                plan,
                number as u32,
                true,
                block,
            )?;
        }
    }
    Ok(())
}

/// For each code block of a graph's plan the owners of its instructions.
#[tactic(auto, using(crate::proofs::Codes::found_owners, crate::proofs::Codes::small_blocks))]
pub(crate) fn expanded_owners<'a, A: Allocator + Clone>(
    alloc: A,
    checked: &Checked<'a, A>,
    plan: &Plan<A>,
) -> Result<Vec<Vec<Owner, A>, A>, AllocError>
    requires plan { plan.now ≡ expanded (flow_of checked.now) }
    ensures { IfOk result (λ v. map (λ os. os.items) v.items ≡ Owners.expanded_owners (flow_of checked.now)) }
{
    let blocks = &checked.graph().blocks;
    let looped = looped_of(alloc.clone()?, checked)?;
    let mut owners = Vec::new(alloc.clone()?);
    push_plain(alloc.clone()?, &mut owners, checked, plan, blocks)?;
    push_variants(alloc, &mut owners, checked, plan, blocks, &looped)?;
    Ok(owners)
}
