//! Loops.

ghost use Rattle.std.specs.Prelude.{◌≡◌, ◌+◌, ◌∷◌, ◌++◌, [], OnOk, IfOk, length, map};
ghost use Rattle.source.specs.Lowered.{loop_name, scoped, turn_scope};
ghost use Rattle.source.specs.Outside.{bare};
ghost use Rattle.lowering.specs.Conditionals.{with_all};
ghost use Rattle.lowering.specs.Loops.{loop_begun, named_first, turning, turn_begun, tested, came_back, passing, passed};

use crate::frame::{Arms, Begun, Open, Side, Site, Spot, Turning};
use crate::loop_names::next_loop_name;
use crate::machine::Machine;
use crate::names::NameAt;
use crate::scope::{Scope, scope_of};
use crate::values::inputs;
use graph::Name;
use semantics::graph::{Region, Source};
use std::alloc::{AllocError, Allocator};
use std::mem;

/// Names without their places.
pub fn bare_names<'a, A: Allocator + Clone>(
    alloc: &A,
    names: &[NameAt<'a>],
) -> Result<Vec<Name<'a>, A>, AllocError>
    ensures { IfOk result (λ v. v.items ≡ bare names.now) }
{
    let mut all = Vec::new(alloc.clone()?);
    for x in names {
        all.push(Name { bytes: x.name })?;
    }
    Ok(all)
}

/// The names that a loop carries: its own, and then the outside names of its turn.
fn carried<'a, A: Allocator + Clone>(
    alloc: &A,
    names: &[NameAt<'a>],
    outs: &[Name<'a>],
) -> Result<Vec<Name<'a>, A>, AllocError>
    ensures { IfOk result (λ v. v.items ≡ bare names.now ++ outs.now) }
{
    let mut all = bare_names(alloc, names)?;
    for name in outs {
        all.push(Name { bytes: name.bytes })?;
    }
    Ok(all)
}

/// A number of nodes. What 32 bits cannot count is beyond all memory.
pub fn number_of(count: usize) -> Result<u32, AllocError>
    ensures { IfOk result (λ n. n ≡ count) }
{
    match u32::try_from(count) {
        Ok(number) => Ok(number),
        Err(_) => Err(AllocError),
    }
}

/// One loop more.
pub fn next_loop(loops: usize) -> Result<usize, AllocError>
    ensures { IfOk result (λ n. n ≡ loops + 1) }
{
    match loops.checked_add(1) {
        Some(next) => Ok(next),
        None => Err(AllocError),
    }
}

/// How many values a loop carries.
#[tactic(auto, using(crate::proofs::HowMany::so_many_bare))]
pub fn width<'a, A: Allocator>(begun: &Begun<'a, A>) -> Result<u32, AllocError>
    ensures { IfOk result (λ n. n ≡ length (bare begun.now.names) + length begun.now.outs) }
{
    match begun.names.len().checked_add(begun.outs.len()) {
        Some(count) => number_of(count),
        None => Err(AllocError),
    }
}

/// What names stand for when a turn begins: inputs of its block.
#[tactic(auto, using(crate::proofs::Nodes::turn_inputs))]
fn first_scope<'a, A: Allocator + Clone>(
    alloc: &A,
    begun: &Begun<'a, A>,
) -> Result<Scope<'a, A>, AllocError>
    ensures { IfOk result (λ s. s ≡ turn_scope (bare begun.now.names) begun.now.outs) }
{
    let names = carried(alloc, &begun.names, &begun.outs)?;
    let values = inputs(alloc, 0, names.len())?;
    scope_of(alloc, &names, &values)
}

/// What names stand for in a test after a body with these values.
fn test_scope<'a, A: Allocator + Clone>(
    alloc: &A,
    begun: &Begun<'a, A>,
    values: &[Source],
) -> Result<Scope<'a, A>, AllocError>
    ensures { IfOk result (λ s. s ≡ scoped (bare begun.now.names) values.now (turn_scope (bare begun.now.names) begun.now.outs)) }
{
    let names = bare_names(alloc, &begun.names)?;
    let mut scope = first_scope(alloc, begun)?;
    scope.bind_all(&names, values)?;
    Ok(scope)
}

impl<'a, A: Allocator + Clone> Machine<'a, A> {
    /// A loop begins, with its first values.
    pub fn begin_loop(&mut self, at: usize) -> Result<(), AllocError>
        ensures { OnOk result (self.new ≡ loop_begun self.old at self.old.plans) }
    {
        if let Some(plan) = self.plans.pop_front() {
            let outer = self.take_sources()?;
            let names = Vec::new(self.alloc.clone()?);
            let begun = Begun {
                at,
                outer,
                names,
                outs: plan.names,
            };
            self.frames.push(Open::Firsts { begun })?;
        }
        Ok(())
    }

    /// A name of a loop, whose first value begins.
    pub fn add_name(&mut self, x: NameAt<'a>) -> Result<(), AllocError>
        ensures { OnOk result (self.new ≡ named_first self.old x.entry self.old.frames) }
    {
        if let Some(mut begun) = self.frames.pop_firsts() {
            begun.names.push(x)?;
            self.frames.push(Open::Firsts { begun })?;
        }
        Ok(())
    }

    /// What is around a turn is stored, and nothing of the turn is made yet.
    fn park(
        &mut self,
        begun: Begun<'a, A>,
        scope: Scope<'a, A>,
        block: Name<'a>,
    ) -> Result<Turning<'a, A>, AllocError>
        requires { block ≡ loop_name self.old.site.function (self.old.spot.loops + 1) }
        ensures parked { OnOk result (self.new ≡ record self.old { scope = scope.entry; sources = []; nodes = []; blocks = [] }) }
        ensures kept { IfOk result (λ t. t ≡ turning self.old begun.entry) }
    {
        let firsts = self.take_sources()?;
        let nodes = self.take_nodes()?;
        let blocks = self.take_blocks()?;
        Ok(Turning {
            begun,
            firsts,
            site: self.site,
            spot: self.spot,
            scope: mem::replace(&mut self.scope, scope),
            nodes,
            blocks,
            block,
        })
    }

    /// The first values of a loop end, and its turn begins: a block of its own.
    pub fn begin_turn(&mut self) -> Result<(), AllocError>
        ensures { OnOk result (self.new ≡ turn_begun self.old self.old.frames) }
    {
        if let Some(begun) = self.frames.pop_firsts() {
            let next = width(&begun)?;
            let loops = next_loop(self.spot.loops)?;
            let scope = first_scope(&self.alloc, &begun)?;
            let block = next_loop_name(&mut self.loops, self.site.function, loops)?;
            let turn = self.park(begun, scope, block)?;
            self.site = Site {
                function: self.site.function,
                region: Region::Root,
                trigger: Source { node: 0, port: 0 },
            };
            self.spot = Spot { next, loops };
            self.frames.push(Open::Turned { turn })?;
        }
        Ok(())
    }

    /// The body of a turn ends, and its test begins: the loop's names stand for the values of the body.
    pub fn begin_test(&mut self) -> Result<(), AllocError>
        ensures { OnOk result (self.new ≡ tested self.old self.old.frames) }
    {
        if let Some(turn) = self.frames.pop_turn() {
            let values = self.take_sources()?;
            let scope = test_scope(&self.alloc, &turn.begun, &values)?;
            let _body = mem::replace(&mut self.scope, scope);
            self.frames.push(Open::Turned { turn })?;
            self.frames.push(Open::Ending { values })?;
        }
        Ok(())
    }

    /// The other arm of a test: an `enter` of each name of the loop.
    fn pass(
        &mut self,
        arms: &Arms<'a, A>,
        at: usize,
        names: &[NameAt<'a>],
    ) -> Result<Vec<Source, A>, AllocError>
        ensures entered { OnOk result (self.new ≡ with_all (record self.old { site = passing self.old arms.now }) (passed self.old arms.now at names.now)) }
        ensures values { IfOk result (λ v. v.items ≡ (passed self.old arms.now at names.now).sources) }
    {
        let own = bare_names(&self.alloc, names)?;
        let values = self.enter_all(arms, Side::Second, at, &own)?;
        Ok(values)
    }

    /// The arm of a turn that goes on ends. The other arm gives the loop's names unchanged.
    pub fn come_back(
        &mut self,
        arms: Arms<'a, A>,
        at: usize,
        names: &[NameAt<'a>],
    ) -> Result<(), AllocError>
        ensures { OnOk result (self.new ≡ came_back self.old arms.entry at names.now) }
    {
        let right = self.pass(&arms, at, names)?;
        let left = self.take_sources()?;
        self.site = arms.site;
        let values = self.merge(arms.cond, at, &left, &right)?;
        let _inner = mem::replace(&mut self.scope, arms.scope);
        self.sources = arms.predicate;
        self.give_all(values)
    }
}
