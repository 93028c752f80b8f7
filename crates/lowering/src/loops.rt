//! Ends of loops.

ghost use Rattle.std.specs.Prelude.{◌≡◌, ◌+◌, ◌∷◌, ◌++◌, [], OnOk, IfOk, length, map};
ghost use Rattle.source.specs.Lowered.{source_in, turn_block};
ghost use Rattle.source.specs.Outside.{bare};
ghost use Rattle.lowering.specs.Loops.{resumed, turn_ended, arm_closed, turn_closed, loop_ended};

use crate::frame::{Arms, Begun, LoopEnd, Turning};
use crate::machine::Machine;
use crate::made::MadeBlock;
use crate::scope::Scope;
use crate::turns::{next_loop, number_of, width};
use crate::values::{inputs, ports};
use graph::Name;
use semantics::graph::{Kind, Source};
use std::alloc::{AllocError, Allocator};
use std::mem;

/// What names stand for, after other sources.
fn add_sources<'a, A: Allocator + Clone>(
    scope: &Scope<'a, A>,
    names: &[Name<'a>],
    sources: &mut Vec<Source, A>,
) -> Result<(), AllocError>
    ensures { OnOk result (sources.new.items ≡ sources.old.items ++ map (source_in scope.now) names.now) }
{
    for name in names {
        sources.push(scope.source(name.bytes))?;
    }
    Ok(())
}

/// What names stand for.
pub fn all_sources<'a, A: Allocator + Clone>(
    alloc: &A,
    scope: &Scope<'a, A>,
    names: &[Name<'a>],
) -> Result<Vec<Source, A>, AllocError>
    ensures { IfOk result (λ v. v.items ≡ map (source_in scope.now) names.now) }
{
    let mut sources = Vec::new(alloc.clone()?);
    add_sources(scope, names, &mut sources)?;
    Ok(sources)
}

/// How many names a loop has.
#[tactic(auto, using(crate::proofs::HowMany::so_many_bare))]
fn own<'a, A: Allocator>(begun: &Begun<'a, A>) -> Result<u32, AllocError>
    ensures { IfOk result (λ n. n ≡ length (bare begun.now.names)) }
{
    number_of(begun.names.len())
}

/// The bound of a loop, which is at most 64.
fn bound_of(bound: u64) -> Result<u32, AllocError>
    ensures { IfOk result (λ n. n ≡ bound) }
{
    match u32::try_from(bound) {
        Ok(number) => Ok(number),
        Err(_) => Err(AllocError),
    }
}

impl<'a, A: Allocator + Clone> Machine<'a, A> {
    /// The block of a turn: its results are the flag, the next values, and the outside names unchanged.
    fn take_block(
        &mut self,
        begun: &Begun<'a, A>,
        number: usize,
    ) -> Result<MadeBlock<'a, A>, AllocError>
        ensures taken { OnOk result (self.new ≡ record self.old { nodes = []; sources = [] }) }
        ensures block { IfOk result (λ b. b ≡ turn_block begun.now.at number (bare begun.now.names) begun.now.outs (record {
          nodes = self.old.nodes;
          sources = self.old.sources;
          blocks = [];
        })) }
    {
        let first = own(begun)?;
        let inputs_of_block = width(begun)?;
        let mut through = inputs(&self.alloc, first, begun.outs.len())?;
        let mut results = self.take_sources()?;
        results.append(&mut through)?;
        let nodes = self.take_nodes()?;
        Ok(MadeBlock {
            at: begun.at,
            number,
            inputs: inputs_of_block as usize,
            nodes,
            results,
        })
    }

    /// The blocks before a loop, then that of its turn, and then those of the loops in it.
    fn add_block(
        &mut self,
        before: Vec<MadeBlock<'a, A>, A>,
        block: MadeBlock<'a, A>,
    ) -> Result<(), AllocError>
        ensures { OnOk result (self.new ≡ record self.old { blocks = before.entry.items ++ block.entry ∷ self.old.blocks }) }
    {
        let mut inner = mem::replace(&mut self.blocks, before);
        self.blocks.push(block)?;
        self.blocks.append(&mut inner)?;
        Ok(())
    }

    /// The machine is at a loop again, whose turn became this block. Returns what the loop's node takes.
    fn resume(
        &mut self,
        turn: Turning<'a, A>,
        block: MadeBlock<'a, A>,
    ) -> Result<Vec<Source, A>, AllocError>
        ensures resumed { OnOk result (self.new ≡ resumed self.old turn.entry block.entry) }
        ensures sources { IfOk result (λ v. v.items ≡ turn.entry.firsts ++ map (source_in turn.entry.scope) turn.entry.outs) }
    {
        self.add_block(turn.blocks, block)?;
        let begun = turn.begun;
        let mut sources = turn.firsts;
        add_sources(&turn.scope, &begun.outs, &mut sources)?;
        let _inner = mem::replace(&mut self.scope, turn.scope);
        self.site = turn.site;
        self.spot.next = turn.spot.next;
        self.nodes = turn.nodes;
        self.sources = begun.outer;
        Ok(sources)
    }

    /// A turn ends: its block, and the node of the loop.
    pub fn end_turn(
        &mut self,
        at: usize,
        bound: u32,
        turn: Turning<'a, A>,
    ) -> Result<(), AllocError>
        ensures { OnOk result (self.new ≡ turn_ended self.old at bound turn.entry self.old.frames) }
    {
        let names = own(&turn.begun)?;
        let number = next_loop(turn.spot.loops)?;
        let made = self.take_block(&turn.begun, number)?;
        let values = ports(&self.alloc, turn.spot.next, u64::from(names))?;
        let block = Name {
            bytes: turn.block.bytes,
        };
        let sources = self.resume(turn, made)?;
        self.put(at, Kind::Loop { block, bound }, sources)?;
        self.give_all(values)
    }

    /// The arm of a turn with its test first ends, and so does the turn.
    fn close_arm(&mut self, at: usize, bound: u32, arms: Arms<'a, A>) -> Result<(), AllocError>
        ensures { OnOk result (self.new ≡ arm_closed self.old at bound arms.entry self.old.frames) }
    {
        if let Some(turn) = self.frames.pop_turn() {
            self.come_back(arms, turn.begun.at, &turn.begun.names)?;
            self.end_turn(at, bound, turn)?;
        }
        Ok(())
    }

    /// The test after a body ends, and so does the turn: its results are the flag and the values of the body.
    fn close_test(
        &mut self,
        at: usize,
        bound: u32,
        mut values: Vec<Source, A>,
    ) -> Result<(), AllocError>
        ensures { OnOk result (self.new ≡ turn_closed (record self.old { sources = self.old.sources ++ values.items }) at bound self.old.frames) }
    {
        self.sources.append(&mut values)?;
        if let Some(turn) = self.frames.pop_turn() {
            self.end_turn(at, bound, turn)?;
        }
        Ok(())
    }

    /// A loop ends.
    pub fn end_loop(&mut self, at: usize, bound: u64) -> Result<(), AllocError>
        ensures { OnOk result (self.new ≡ loop_ended self.old at bound self.old.frames) }
    {
        let bound = bound_of(bound)?;
        match self.frames.pop_loop_end() {
            Some(LoopEnd::Arm { arms }) => self.close_arm(at, bound, arms),
            Some(LoopEnd::Test { values }) => self.close_test(at, bound, values),
            None => Ok(()),
        }
    }
}
