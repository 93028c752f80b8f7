//! The plan of a whole graph.

ghost use Rattle.std.specs.Prelude.{◌≡◌, ℕ, ◌<◌, ◌≤◌, true, false, length, map, All, IfOk, OnOk, Some, slice_get};
ghost use Rattle.semantics.specs.Versions.{version_number};
ghost use Rattle.semantics.specs.Graph.{node_count};
ghost use Rattle.schemas.specs.Blocks as Blocks;
ghost use Rattle.schemas.specs.Expanded as Expanded;
ghost use Rattle.schemas.specs.Variants as Variants;

use crate::block::{self, Coded};
use crate::flow::{Block, Flow};
use crate::scope::Scope;
use crate::triggers::triggers_of;
use crate::uses::{plain_uses, variant_uses};
use crate::variants::{looped_of, variants_of};
use code::{CodeBlock, Plan, Program};
use semantics::program::Mark;
use semantics::version::Version;
use std::alloc::{AllocError, Allocator};
use std::marker::Model;

/// The code blocks so far, with their marks.
#[derive(Drop)]
struct Codes<A: Allocator> {
    blocks: Vec<CodeBlock<A>, A>,
    marks: Vec<Vec<Mark, A>, A>,
}

impl<A: Allocator> Model for Codes<A> {
    ghost use Rattle.std.specs.Prelude.{map};
    ghost use Rattle.schemas.specs.Expanded.{Codes};

    ghost Value = { Codes };

    ghost view = { λ c. record { blocks = c.blocks.items; marks = map (λ v. v.items) c.marks.items } };
}

impl<A: Allocator> Codes<A> {
    fn push(&mut self, coded: Coded<A>) -> Result<(), AllocError>
        ensures { OnOk result (self.new ≡ Expanded.with_code self.old coded) }
    {
        let Coded { code, marks } = coded;
        self.blocks.push(code)?;
        self.marks.push(marks)?;
        Ok(())
    }
}

/// The plain code of the block of that number.
#[tactic(auto, unfolding(crate::specs::Expanded::plain_code))]
fn plain_code<A: Allocator + Clone>(
    alloc: A,
    version: Version,
    blocks: &[Block<A>],
    variants: &[u16],
    number: u8,
    block: &Block<A>,
) -> Result<Coded<A>, AllocError>
    requires small { Blocks.IsSmallBlock block.now }
    requires outputs { Blocks.FewOutputs blocks.now }
    ensures { IfOk result (λ c. c ≡ Expanded.plain_code (version_number version) blocks.now variants.now number block.now) }
{
    let nodes = block.inputs as usize + block.nodes.len();
    let triggers = triggers_of(alloc.clone()?, block, nodes)?;
    let uses = plain_uses(alloc.clone()?, block, &triggers, nodes)?;
    let scope = Scope {
        version,
        number,
        blocks,
        variants,
        block,
        triggers: &triggers,
        uses: &uses,
    };
    block::plain(alloc, &scope, block)
}

/// The code of the loop variant of the block of that number.
#[tactic(auto, unfolding(crate::specs::Expanded::variant_code))]
fn variant_code<A: Allocator + Clone>(
    alloc: A,
    version: Version,
    blocks: &[Block<A>],
    variants: &[u16],
    number: u8,
    block: &Block<A>,
) -> Result<Coded<A>, AllocError>
    requires small { Blocks.IsSmallBlock block.now }
    requires outputs { Blocks.FewOutputs blocks.now }
    ensures { IfOk result (λ c. c ≡ Expanded.variant_code (version_number version) blocks.now variants.now number block.now) }
{
    let nodes = block.inputs as usize + block.nodes.len();
    let triggers = triggers_of(alloc.clone()?, block, nodes)?;
    let uses = variant_uses(alloc.clone()?, block, &triggers, nodes)?;
    let scope = Scope {
        version,
        number,
        blocks,
        variants,
        block,
        triggers: &triggers,
        uses: &uses,
    };
    let code = scope.variant(u32::from(number));
    block::variant(alloc, &scope, block, code)
}

/// Adds the plain code of all blocks.
fn push_plain<A: Allocator + Clone>(
    alloc: A,
    codes: &mut Codes<A>,
    version: Version,
    blocks: &[Block<A>],
    variants: &[u16],
) -> Result<(), AllocError>
    requires few { length blocks.now ≤ 256 }
    requires small { All Blocks.IsSmallBlock blocks.now }
    requires outputs { Blocks.FewOutputs blocks.now }
    ensures { OnOk result (codes.new ≡ Expanded.plain_codes codes.old (version_number version) blocks.now variants.now 0 blocks.now) }
{
    for (number, block) in blocks.iter().enumerate() {
        codes.push(plain_code(
            alloc.clone()?,
            version,
            blocks,
            variants,
            number as u8,
            block,
        )?)?;
    }
    Ok(())
}

/// Adds the code of the loop variants of those blocks that some loop names.
fn push_variants<A: Allocator + Clone>(
    alloc: A,
    codes: &mut Codes<A>,
    version: Version,
    blocks: &[Block<A>],
    variants: &[u16],
    looped: &[bool],
) -> Result<(), AllocError>
    requires few { length blocks.now ≤ 256 }
    requires small { All Blocks.IsSmallBlock blocks.now }
    requires outputs { Blocks.FewOutputs blocks.now }
    requires looped { Variants.AreLooped blocks.now looped.now }
    ensures { OnOk result (codes.new ≡ Expanded.variant_codes codes.old (version_number version) blocks.now variants.now 0 blocks.now) }
{
    for (number, block) in blocks.iter().enumerate() {
        if looped[number] {
            codes.push(variant_code(
                alloc.clone()?,
                version,
                blocks,
                variants,
                number as u8,
                block,
            )?)?;
        }
    }
    Ok(())
}

/// The code of all blocks: the plain code, and then the loop variants.
fn codes_of<A: Allocator + Clone>(
    alloc: A,
    version: Version,
    blocks: &[Block<A>],
) -> Result<Codes<A>, AllocError>
    requires few { length blocks.now ≤ 256 }
    requires small { All Blocks.IsSmallBlock blocks.now }
    requires outputs { Blocks.FewOutputs blocks.now }
    ensures { IfOk result (λ c. c ≡ Expanded.codes_of (version_number version) blocks.now) }
{
    let looped = looped_of(alloc.clone()?, blocks)?;
    let variants = variants_of(alloc.clone()?, blocks, &looped)?;
    let mut codes = Codes {
        blocks: Vec::new(alloc.clone()?),
        marks: Vec::new(alloc.clone()?),
    };
    push_plain(alloc.clone()?, &mut codes, version, blocks, &variants)?;
    push_variants(alloc, &mut codes, version, blocks, &variants, &looped)?;
    Ok(codes)
}

/// The plan of a graph with its names resolved.
pub(crate) fn plan_of<A: Allocator + Clone>(alloc: A, flow: Flow<A>) -> Result<Plan<A>, AllocError>
    requires { Expanded.IsSmallFlow flow }
    ensures { IfOk result (λ p. p ≡ Expanded.expanded flow) }
{
    let Codes { blocks, marks } = codes_of(alloc, flow.version, &flow.blocks)?;
    let plain = flow.blocks.len() as u32;
    let Flow {
        version: _,
        arrays,
        blocks: _,
        main,
    } = flow;
    Ok(Plan {
        program: Program {
            blocks,
            arrays,
            main,
        },
        plain,
        marks,
    })
}
