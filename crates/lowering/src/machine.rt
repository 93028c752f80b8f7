//! The machine that goes over the words of a program, and makes its blocks.

ghost use Rattle.std.specs.Prelude.{◌≡◌, ◌+◌, ◌-◌, ◌∷◌, ◌++◌, [], length, take, drop, OnOk, IfOk};
ghost use Rattle.lowering.specs.State.{after};
ghost use Rattle.lowering.specs.Operators.{one_node, before_last, last_of, with_node, with_sources};

use crate::frame::{Site, Spot};
use crate::frames::Frames;
use crate::loop_names::LoopName;
use crate::made::{Made, MadeBlock, OfFunction};
use crate::plan::Plan;
use crate::scope::Scope;
use graph::{Name, Node};
use semantics::graph::{Kind, Source};
use std::alloc::{AllocError, Allocator};
use std::collections::VecDeque;
use std::marker::Model;
use std::mem;

/// Where the machine is, what is open, and what is made.
#[derive(Drop)]
pub struct Machine<'a, A: Allocator> {
    pub site: Site<'a>,
    pub spot: Spot,
    pub scope: Scope<'a, A>,
    pub sources: Vec<Source, A>,
    pub number: bool,
    pub nodes: Vec<Made<'a, A>, A>,
    pub blocks: Vec<MadeBlock<'a, A>, A>,
    pub plans: VecDeque<Plan<'a, A>, A>,
    pub frames: Frames<'a, A>,
    pub done: Vec<OfFunction<'a, A>, A>,
    /// The names of the loops whose turns did not begin yet.
    pub loops: VecDeque<LoopName<'a>, A>,
    pub alloc: A,
}

impl<'a, A: Allocator> Model for Machine<'a, A> {
    ghost use Rattle.lowering.specs.State.{State};

    ghost Value = { State };

    ghost view = { λ m. record {
      site = record { function = m.site.function.now; region = m.site.region; trigger = m.site.trigger };
      spot = record { next = m.spot.next; loops = m.spot.loops };
      scope = m.scope;
      sources = m.sources.items;
      number = m.number;
      nodes = m.nodes.items;
      blocks = m.blocks.items;
      plans = m.plans.items;
      frames = m.frames;
      done = m.done.items;
    } };
}

/// The next number of a node. A block whose nodes 32 bits cannot count is beyond all memory.
pub fn next_number(number: u32) -> Result<u32, AllocError>
    ensures { IfOk result (λ n. n ≡ number + 1) }
{
    match number.checked_add(1) {
        Some(next) => Ok(next),
        None => Err(AllocError),
    }
}

impl<'a, A: Allocator + Clone> Machine<'a, A> {
    /// The blocks that are made.
    pub fn into_done(self) -> Vec<OfFunction<'a, A>, A>
        ensures { result.items ≡ self.entry.done }
    {
        self.done
    }

    /// Takes all values.
    pub fn take_sources(&mut self) -> Result<Vec<Source, A>, AllocError>
        ensures taken { OnOk result (self.new ≡ record self.old { sources = [] }) }
        ensures sources { IfOk result (λ v. v.items ≡ self.old.sources) }
    {
        let none = Vec::new(self.alloc.clone()?);
        Ok(mem::replace(&mut self.sources, none))
    }

    /// Takes all nodes.
    pub fn take_nodes(&mut self) -> Result<Vec<Made<'a, A>, A>, AllocError>
        ensures taken { OnOk result (self.new ≡ record self.old { nodes = [] }) }
        ensures nodes { IfOk result (λ v. v.items ≡ self.old.nodes) }
    {
        let none = Vec::new(self.alloc.clone()?);
        Ok(mem::replace(&mut self.nodes, none))
    }

    /// Takes the blocks of all loops.
    pub fn take_blocks(&mut self) -> Result<Vec<MadeBlock<'a, A>, A>, AllocError>
        ensures taken { OnOk result (self.new ≡ record self.old { blocks = [] }) }
        ensures blocks { IfOk result (λ v. v.items ≡ self.old.blocks) }
    {
        let none = Vec::new(self.alloc.clone()?);
        Ok(mem::replace(&mut self.blocks, none))
    }

    /// One node more, without its values.
    pub fn put(
        &mut self,
        at: usize,
        kind: Kind<Name<'a>>,
        sources: Vec<Source, A>,
    ) -> Result<(), AllocError>
        ensures { OnOk result (self.new ≡ with_node self.old at kind.entry sources.items) }
    {
        let next = next_number(self.spot.next)?;
        let region = self.site.region;
        self.nodes.push(Made {
            at,
            node: Node {
                region,
                kind,
                sources,
            },
        })?;
        self.spot.next = next;
        Ok(())
    }

    /// One value more.
    pub fn give(&mut self, source: Source) -> Result<(), AllocError>
        ensures { OnOk result (self.new ≡ with_sources self.old (source ∷ [])) }
    {
        self.sources.push(source)?;
        Ok(())
    }

    /// One node more that has one value.
    #[tactic(auto, using(crate::proofs::Nodes::one_more))]
    pub fn put_one(
        &mut self,
        at: usize,
        kind: Kind<Name<'a>>,
        sources: Vec<Source, A>,
    ) -> Result<(), AllocError>
        ensures { OnOk result (self.new ≡ after self.old (one_node self.old.site self.old.spot at kind.entry sources.items 1)) }
    {
        let node = self.spot.next;
        self.put(at, kind, sources)?;
        self.give(Source { node, port: 0 })
    }

    /// The last so many values.
    pub fn last(&mut self, n: usize) -> Result<Vec<Source, A>, AllocError>
        ensures { IfOk result (λ v. (v.items ≡ last_of n self.old.sources) × (self.new ≡ record self.old { sources = before_last n self.old.sources })) }
    {
        let at = self.sources.len().saturating_sub(n);
        self.sources.split_off(at)
    }
}
