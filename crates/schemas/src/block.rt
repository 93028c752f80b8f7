//! The code of a block: entries, nodes, outputs, joins and `release`.

ghost use Rattle.std.specs.Prelude.{◌≡◌, ℕ, ◌+◌, ◌-◌, ◌*◌, ◌<◌, ◌≤◌, ◌^◌, length, IfOk, OnOk, All};
ghost use Rattle.semantics.specs.Graph.{node_count};
ghost use Rattle.semantics.specs.Meaning.{origin_in};
ghost use Rattle.schemas.specs.Builds as Builds;
ghost use Rattle.schemas.specs.Ends as Ends;
ghost use Rattle.schemas.specs.Rows as Rows;
ghost use Rattle.schemas.specs.Triggers as Triggers;
ghost use Rattle.schemas.specs.Blocks as Blocks;

use crate::builder::{Builder, Outlet};
use crate::ends::{End, close, close_nodes, ends_of, release};
use crate::flow::{Block, Node};
use crate::rows;
use crate::scope::{Scope, origin_of, predicate_of};
use crate::tail::{iterate, returns};
use crate::triggers::has_trigger;
use crate::uses::uses_at;
use code::CodeBlock;
use semantics::graph::{Kind, Region, Source};
use semantics::program::{Mark, Op};
use std::alloc::{AllocError, Allocator};
use std::marker::Model;

/// A code block with the marks of its instructions.
#[derive(Drop)]
pub(crate) struct Coded<A: Allocator> {
    pub code: CodeBlock<A>,
    pub marks: Vec<Mark, A>,
}

impl<A: Allocator> Model for Coded<A> {
    ghost use Rattle.schemas.specs.Blocks.{Coded};

    ghost Value = { Coded };

    ghost view = { λ c. record { code = c.code; marks = c.marks.items } };
}

/// A `fetch` or a `store`. Where its answer has more than one use, a copy after it takes the answer.
fn answered<A: Allocator + Clone>(
    builder: &mut Builder<A>,
    scope: &Scope<'_, A>,
    op: Op,
    number: u32,
    region: Region,
    sources: &[Source],
) -> Result<(), AllocError>
    requires room { length builder.old.instrs < 2 ^ 27 }
    requires number { number < 1024 }
    ensures exact { OnOk result (builder.new ≡ Blocks.answered builder.old scope.now op number region sources.now) }
    ensures longer { OnOk result (length builder.new.instrs ≤ length builder.old.instrs + 2) }
{
    let origin = origin_of(scope.version, scope.number, number);
    if uses_at(scope.uses, number as usize).is_often() {
        rows::shared_answer(builder, op, origin, region, sources)
    } else {
        rows::operator(builder, op, origin, region, sources)
    }
}

/// An operator, or a literal.
fn operated<A: Allocator + Clone>(
    builder: &mut Builder<A>,
    scope: &Scope<'_, A>,
    op: Op,
    number: u32,
    region: Region,
    sources: &[Source],
) -> Result<(), AllocError>
    requires room { length builder.old.instrs < 2 ^ 27 }
    requires number { number < 1024 }
    ensures exact { OnOk result (builder.new ≡ Rows.operator builder.old op (origin_in scope.now.version (Some scope.now.number) number) region sources.now) }
    ensures longer { OnOk result (length builder.new.instrs ≤ length builder.old.instrs + 1) }
{
    let origin = origin_of(scope.version, scope.number, number);
    rows::operator(builder, op, origin, region, sources)
}

/// A conditional. Where calls in its arms need a trigger, it gives them one, and else it has no instruction.
fn divided<A: Allocator + Clone>(
    builder: &mut Builder<A>,
    scope: &Scope<'_, A>,
    number: u32,
    region: Region,
    sources: &[Source],
) -> Result<(), AllocError>
    requires room { length builder.old.instrs < 2 ^ 27 }
    requires number { number < 1024 }
    ensures exact { OnOk result (builder.new ≡ Rows.conditional builder.old (Triggers.has_trigger scope.now.triggers number) number region sources.now) }
    ensures longer { OnOk result (length builder.new.instrs ≤ length builder.old.instrs + 1) }
{
    if has_trigger(scope.triggers, number) {
        rows::trigger_switch(builder, number, region, sources)
    } else {
        builder.exit(Outlet::first(0))
    }
}

/// An `enter` of an arm. It leaves by the side of its arm.
fn entered<A: Allocator + Clone>(
    builder: &mut Builder<A>,
    scope: &Scope<'_, A>,
    region: Region,
    sources: &[Source],
) -> Result<(), AllocError>
    requires room { length builder.old.instrs < 2 ^ 27 }
    ensures exact { OnOk result (builder.new ≡ Blocks.entered builder.old scope.now region sources.now) }
    ensures longer { OnOk result (length builder.new.instrs ≤ length builder.old.instrs + 1) }
{
    match region {
        Region::Arm { cond, side } => {
            let predicate = predicate_of(scope.block, cond);
            let place = rows::enter(builder, cond, region, sources, predicate)?;
            builder.exit(if side {
                Outlet::first(place)
            } else {
                Outlet::second(place)
            })
        }
        Region::Root => Ok(()),
    }
}

/// A loop over the loop variant of a block.
#[tactic(auto, unfolding(crate::specs::Blocks::repeated))]
fn repeated<A: Allocator + Clone>(
    builder: &mut Builder<A>,
    scope: &Scope<'_, A>,
    block: u32,
    bound: u8,
    region: Region,
    sources: &[Source],
) -> Result<(), AllocError>
    requires room { length builder.old.instrs < 2 ^ 27 }
    requires few { length sources.now ≤ 16 }
    ensures exact { OnOk result (builder.new ≡ Blocks.repeated builder.old scope.now block bound region sources.now) }
    ensures longer { OnOk result (length builder.new.instrs ≤ length builder.old.instrs + 40) }
{
    let variant = scope.variant(block);
    rows::repeat(builder, variant, bound, region, sources)
}

/// Adds the code of the node of that number.
#[tactic(auto, unfolding(crate::specs::Blocks::with_kind))]
fn push_node<A: Allocator + Clone>(
    builder: &mut Builder<A>,
    scope: &Scope<'_, A>,
    number: u32,
    node: &Node<A>,
) -> Result<(), AllocError>
    requires room { length builder.old.instrs < 2 ^ 27 }
    requires number { number < 1024 }
    requires node { Blocks.IsSmallNode node.now }
    requires outputs { Blocks.FewOutputs scope.now.blocks }
    ensures exact { OnOk result (builder.new ≡ Blocks.with_node builder.old scope.now number node.now) }
    ensures longer { OnOk result (length builder.new.instrs ≤ length builder.old.instrs + 64) }
{
    let region = node.region;
    let sources = &node.sources;
    match &node.kind {
        Kind::Lit { value } => {
            let op = Op::Lit { literal: *value };
            operated(builder, scope, op, number, region, sources)
        }
        Kind::Apply1 { op } => {
            let op = Op::Apply1 { op: *op };
            operated(builder, scope, op, number, region, sources)
        }
        Kind::Apply2 { op } => {
            let op = Op::Apply2 { op: *op };
            operated(builder, scope, op, number, region, sources)
        }
        Kind::Cond => divided(builder, scope, number, region, sources),
        Kind::Enter => entered(builder, scope, region, sources),
        Kind::Merge { .. } => rows::merge(builder, region, sources),
        Kind::Fetch { array } => {
            let array = *array as u8;
            answered(builder, scope, Op::Fetch { array }, number, region, sources)
        }
        Kind::Store { array } => {
            let array = *array as u8;
            answered(builder, scope, Op::Store { array }, number, region, sources)
        }
        Kind::Call { block } => {
            let outputs = scope.outputs(*block);
            rows::call(builder, *block as u16, outputs, region, sources)
        }
        Kind::StrictCall { block } => {
            let outputs = scope.outputs(*block);
            rows::strict_call(builder, *block as u16, outputs, region, sources)
        }
        Kind::Loop { block, bound } => {
            repeated(builder, scope, *block, *bound as u8, region, sources)
        }
    }
}

/// Adds the code of all nodes, in order.
#[tactic(auto, unfolding(crate::specs::Blocks::with_nodes))]
fn push_nodes<A: Allocator + Clone>(
    builder: &mut Builder<A>,
    scope: &Scope<'_, A>,
    first: u32,
    nodes: &[Node<A>],
) -> Result<(), AllocError>
    requires room { length builder.old.instrs ≤ 17 }
    requires few { first + length nodes.now ≤ 1024 }
    requires nodes { All Blocks.IsSmallNode nodes.now }
    requires outputs { Blocks.FewOutputs scope.now.blocks }
    ensures exact { OnOk result (builder.new ≡ Blocks.with_nodes builder.old scope.now first nodes.now) }
    ensures longer { OnOk result (length builder.new.instrs ≤ 2 ^ 17) }
{
    for (index, node) in nodes.iter().enumerate() {
        push_node(builder, scope, first + index as u32, node)?;
    }
    Ok(())
}

/// Adds the entries of `inputs` inputs.
fn push_inputs<A: Allocator + Clone>(
    builder: &mut Builder<A>,
    scope: &Scope<'_, A>,
    inputs: u32,
) -> Result<(), AllocError>
    requires room { length builder.old.instrs ≤ 1 }
    requires few { inputs ≤ 16 }
    ensures exact { OnOk result (builder.new ≡ Blocks.with_inputs builder.old scope.now inputs) }
    ensures longer { OnOk result (length builder.new.instrs ≡ length builder.old.instrs + inputs) }
{
    for number in 0..inputs {
        let origin = origin_of(scope.version, scope.number, number);
        let place = builder.add(Op::Copy, origin, Mark::Unmarked, Region::Root)?;
        builder.exit(Outlet::first(place))?;
    }
    Ok(())
}

/// The entries: a copy that takes the continuation, and one for each input.
#[tactic(auto, unfolding(crate::specs::Blocks::entries))]
fn entries<A: Allocator + Clone>(
    alloc: A,
    scope: &Scope<'_, A>,
    inputs: u32,
) -> Result<Builder<A>, AllocError>
    requires few { inputs ≤ 16 }
    requires inputs { inputs ≡ scope.now.block.inputs }
    ensures exact { IfOk result (λ b. b ≡ Blocks.entries scope.now) }
    ensures few { IfOk result (λ b. length b.instrs ≤ 17) }
{
    let mut builder = Builder::new(alloc)?;
    builder.quiet(Op::Copy, Region::Root)?;
    push_inputs(&mut builder, scope, inputs)?;
    Ok(builder)
}

/// The entries and the nodes.
fn body<A: Allocator + Clone>(
    alloc: A,
    scope: &Scope<'_, A>,
    block: &Block<A>,
) -> Result<Builder<A>, AllocError>
    requires small { Blocks.IsSmallBlock block.now }
    requires block { block.now ≡ scope.now.block }
    requires outputs { Blocks.FewOutputs scope.now.blocks }
    ensures exact { IfOk result (λ b. b ≡ Blocks.body scope.now) }
    ensures few { IfOk result (λ b. length b.instrs ≤ 2 ^ 17) }
{
    let mut builder = entries(alloc, scope, block.inputs)?;
    push_nodes(&mut builder, scope, block.inputs, &block.nodes)?;
    Ok(builder)
}

/// Adds the joins of the ends and `release`.
#[tactic(auto, unfolding(crate::specs::Blocks::finished))]
fn finish<A: Allocator + Clone>(
    builder: &mut Builder<A>,
    ends: &mut Vec<End, A>,
    block: &Block<A>,
    offset: u8,
) -> Result<(), AllocError>
    requires small { Blocks.IsSmallBlock block.now }
    requires instrs { length builder.old.instrs ≤ 2 ^ 25 }
    requires ends { length ends.old.items ≤ 2 ^ 19 - 2048 }
    ensures exact { OnOk result (builder.new ≡ Blocks.finished (Ends.closing builder.old ends.old.items) block.now offset) }
{
    close_nodes(builder, ends, block.inputs, &block.nodes)?;
    release(builder, ends, offset)
}

/// The code that a builder has.
fn code_of<A: Allocator>(builder: Builder<A>, block: &Block<A>) -> Coded<A>
    ensures { result ≡ Blocks.code_of block.now builder }
{
    let slots = builder.holders();
    let (instrs, marks) = builder.into_parts();
    Coded {
        code: CodeBlock {
            inputs: block.inputs,
            outputs: block.outputs,
            slots,
            instrs,
        },
        marks,
    }
}

/// The plain code of a block.
#[tactic(auto, unfolding(crate::specs::Blocks::plain_build))]
pub(crate) fn plain<A: Allocator + Clone>(
    alloc: A,
    scope: &Scope<'_, A>,
    block: &Block<A>,
) -> Result<Coded<A>, AllocError>
    requires small { Blocks.IsSmallBlock block.now }
    requires block { block.now ≡ scope.now.block }
    requires outputs { Blocks.FewOutputs scope.now.blocks }
    ensures { IfOk result (λ c. c ≡ Blocks.code_of block.now (Blocks.plain_build scope.now)) }
{
    let mut builder = body(alloc.clone()?, scope, block)?;
    returns(&mut builder, &block.results)?;
    let mut ends = ends_of(alloc, &builder)?;
    finish(&mut builder, &mut ends, block, block.outputs as u8)?;
    Ok(code_of(builder, block))
}

/// The code of a block's loop variant, which is the code block of that number.
#[tactic(auto, unfolding(crate::specs::Blocks::variant_build))]
pub(crate) fn variant<A: Allocator + Clone>(
    alloc: A,
    scope: &Scope<'_, A>,
    block: &Block<A>,
    code: u16,
) -> Result<Coded<A>, AllocError>
    requires small { Blocks.IsSmallBlock block.now }
    requires block { block.now ≡ scope.now.block }
    requires outputs { Blocks.FewOutputs scope.now.blocks }
    ensures { IfOk result (λ c. c ≡ Blocks.code_of block.now (Blocks.variant_build scope.now code)) }
{
    let mut builder = body(alloc.clone()?, scope, block)?;
    let cond = block.inputs + block.nodes.len() as u32;
    iterate(&mut builder, code, cond, &block.results)?;
    let mut ends = ends_of(alloc, &builder)?;
    close(&mut builder, &mut ends, cond, Region::Root)?;
    finish(&mut builder, &mut ends, block, block.inputs as u8)?;
    Ok(code_of(builder, block))
}
