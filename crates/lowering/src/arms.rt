//! Conditionals.

ghost use Rattle.std.specs.Prelude.{◌≡◌, ◌+◌, ◌∷◌, ◌++◌, [], OnOk, IfOk, length, map};
ghost use Rattle.source.specs.Lowered.{first_of, merges, inputs_from, or_predicate, source_in};
ghost use Rattle.lowering.specs.Operators.{with_node};
ghost use Rattle.lowering.specs.Conditionals.{entered, chosen_by, arms_of, first_arm, second_arm, if_ended, with_merges, entered_nodes, enters_of, with_enters};
ghost use Rattle.lowering.specs.Opened.{is_first};
ghost use Rattle.lowering.specs.State.{FirstArm, Looping};
ghost use Rattle.semantics.specs.declared.graph.Kind.TheVariants as node;

use crate::frame::{Arms, Open, SecondArm, Side, Site};
use crate::loops::all_sources;
use crate::machine::Machine;
use crate::scope::{Scope, scope_of};
use crate::values::{copied, inputs, single};
use graph::Name;
use semantics::graph::{Kind, Source};
use std::alloc::{AllocError, Allocator};
use std::mem;

/// The source of a predicate.
fn first(sources: &[Source]) -> Source
    ensures { result ≡ first_of sources.now }
{
    match sources.first() {
        Some(source) => *source,
        None => Source { node: 0, port: 0 },
    }
}

impl<'a, A: Allocator + Clone> Machine<'a, A> {
    /// The node of a conditional of the last value.
    fn choose(&mut self, at: usize) -> Result<Arms<'a, A>, AllocError>
        ensures chosen { OnOk result (self.new ≡ record (chosen_by self.old (arms_of self.old 1) at) { scope = []; sources = [] }) }
        ensures arms { IfOk result (λ a. a ≡ arms_of self.old 1) }
    {
        let cond = self.spot.next;
        let predicate = self.last(1)?;
        let gathered = copied(&self.alloc, &predicate)?;
        self.put(at, Kind::Cond, gathered)?;
        let outer = self.take_sources()?;
        let empty = Scope::new(&self.alloc)?;
        let scope = mem::replace(&mut self.scope, empty);
        Ok(Arms {
            site: self.site,
            scope,
            outer,
            predicate,
            cond,
        })
    }

    fn put_enter(&mut self, at: usize, source: Source) -> Result<(), AllocError>
        ensures { OnOk result (self.new ≡ with_node self.old at node.Enter (source ∷ [])) }
    {
        let sources = single(&self.alloc, source)?;
        self.put(at, Kind::Enter, sources)
    }

    /// An `enter` of each source.
    #[tactic(auto, using(crate::proofs::Nodes::enter_step, crate::proofs::Nodes::no_merges))]
    pub fn put_enters(&mut self, at: usize, sources: &[Source]) -> Result<(), AllocError>
        ensures { OnOk result (self.new ≡ with_merges self.old (entered_nodes self.old.site at sources.now)) }
    {
        for i in 0..sources.len() {
            self.put_enter(at, sources[i])?;
        }
        Ok(())
    }

    /// What an arm takes from outside: what each name stands for, or the predicate where there is no name.
    #[tactic(auto, using(crate::proofs::Nodes::some_taken))]
    pub fn taken(
        &self,
        arms: &Arms<'a, A>,
        names: &[Name<'a>],
    ) -> Result<Vec<Source, A>, AllocError>
        ensures { IfOk result (λ v. v.items ≡ or_predicate (first_of arms.now.predicate) (map (source_in arms.now.scope) names.now)) }
    {
        if names.is_empty() {
            return single(&self.alloc, first(&arms.predicate));
        }
        all_sources(&self.alloc, &arms.scope, names)
    }

    /// An `enter` of each source that an arm takes from outside, within the arm. What the arm has are their values.
    pub fn enter_all(
        &mut self,
        arms: &Arms<'a, A>,
        side: Side,
        at: usize,
        names: &[Name<'a>],
    ) -> Result<Vec<Source, A>, AllocError>
        ensures entered { OnOk result (self.new ≡ with_enters self.old arms.now (is_first side) at names.now) }
        ensures values { IfOk result (λ v. v.items ≡ (enters_of self.old arms.now (is_first side) at names.now).sources) }
    {
        let node = self.spot.next;
        self.site = Site {
            function: arms.site.function,
            region: side.arm(arms.cond),
            trigger: Source { node, port: 0 },
        };
        let taken = self.taken(arms, names)?;
        self.put_enters(at, &taken)?;
        let values = inputs(&self.alloc, node, taken.len())?;
        Ok(values)
    }

    /// An arm begins.
    fn enter(
        &mut self,
        arms: &Arms<'a, A>,
        side: Side,
        at: usize,
        names: &[Name<'a>],
    ) -> Result<(), AllocError>
        ensures { OnOk result (self.new ≡ entered self.old arms.now (is_first side) at names.now) }
    {
        let enters = self.enter_all(arms, side, at, names)?;
        let scope = scope_of(&self.alloc, names, &enters)?;
        let none = Vec::new(self.alloc.clone()?);
        let _outer = mem::replace(&mut self.scope, scope);
        self.sources = none;
        Ok(())
    }

    /// The predicate of a conditional ends, and its first arm begins.
    pub fn begin_if(&mut self) -> Result<(), AllocError>
        ensures { OnOk result (self.new ≡ first_arm self.old FirstArm self.old.plans) }
    {
        if let Some(plan) = self.plans.pop_front() {
            let arms = self.choose(plan.at)?;
            self.enter(&arms, Side::First, plan.at, &plan.names)?;
            self.frames.push(Open::FirstArm { arms })?;
        }
        Ok(())
    }

    /// The test of a turn ends, and the arm that goes on begins.
    pub fn begin_while(&mut self) -> Result<(), AllocError>
        ensures { OnOk result (self.new ≡ first_arm self.old Looping self.old.plans) }
    {
        if let Some(plan) = self.plans.pop_front() {
            let arms = self.choose(plan.at)?;
            self.enter(&arms, Side::First, plan.at, &plan.names)?;
            self.frames.push(Open::Looping { arms })?;
        }
        Ok(())
    }

    /// The second arm begins.
    pub fn begin_else(&mut self) -> Result<(), AllocError>
        ensures { OnOk result (self.new ≡ second_arm self.old self.old.plans self.old.frames) }
    {
        if let Some(arms) = self.frames.pop_first_arm() {
            if let Some(plan) = self.plans.pop_front() {
                let left = self.take_sources()?;
                self.enter(&arms, Side::Second, plan.at, &plan.names)?;
                let second = SecondArm { arms, left };
                self.frames.push(Open::Right { second })?;
            }
        }
        Ok(())
    }

    /// A merge of each two values.
    #[tactic(auto, using(crate::proofs::Nodes::merge_step, crate::proofs::Nodes::no_merges, crate::proofs::Nodes::merges_end, crate::proofs::Nodes::merges_length))]
    pub fn merge(
        &mut self,
        cond: u32,
        at: usize,
        left: &[Source],
        right: &[Source],
    ) -> Result<Vec<Source, A>, AllocError>
        ensures merged { OnOk result (self.new ≡ with_merges self.old (merges self.old.site at cond left.now right.now)) }
        ensures values { IfOk result (λ v. v.items ≡ inputs_from self.old.spot.next (length (merges self.old.site at cond left.now right.now))) }
    {
        let node = self.spot.next;
        let count = left.len().min(right.len());
        for i in 0..count {
            let mut sources = single(&self.alloc, left[i])?;
            sources.push(right[i])?;
            self.put(at, Kind::Merge { cond }, sources)?;
        }
        inputs(&self.alloc, node, count)
    }

    /// A conditional ends.
    pub fn end_if(&mut self, at: usize) -> Result<(), AllocError>
        ensures { OnOk result (self.new ≡ if_ended self.old at self.old.frames) }
    {
        if let Some(second) = self.frames.pop_second_arm() {
            let arms = second.arms;
            let right = self.take_sources()?;
            self.site = arms.site;
            let values = self.merge(arms.cond, at, &second.left, &right)?;
            let _inner = mem::replace(&mut self.scope, arms.scope);
            self.sources = arms.outer;
            self.give_all(values)?;
        }
        Ok(())
    }
}
