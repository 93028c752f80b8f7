//! Functions.

ghost use Rattle.std.specs.Prelude.{◌≡◌, ◌+◌, ◌∷◌, ◌++◌, [], OnOk, IfOk, length};
ghost use Rattle.source.specs.Lowered.{scoped, inputs_from};
ghost use Rattle.source.specs.Outside.{bare};
ghost use Rattle.lowering.specs.State as state;
ghost use Rattle.lowering.specs.Functions.{between, with_parameter, body_begun, function_ended, of_function};

use crate::frame::{Header, Open, Site, Spot};
use crate::frames::Frames;
use crate::machine::Machine;
use crate::made::{MadeBlock, OfFunction};
use crate::names::{NameAt, nameless};
use crate::scope::{Scope, scope_of};
use crate::turns::{bare_names, number_of};
use crate::values::inputs;
use semantics::graph::{Region, Source};
use std::alloc::{AllocError, Allocator};
use std::collections::VecDeque;
use std::mem;

/// What names stand for when a function begins: its parameters, inputs of its block.
fn function_scope<'a, A: Allocator + Clone>(
    alloc: &A,
    params: &[NameAt<'a>],
) -> Result<Scope<'a, A>, AllocError>
    ensures { IfOk result (λ s. s ≡ scoped (bare params.now) (inputs_from 0 (length params.now)) []) }
{
    let names = bare_names(alloc, params)?;
    let values = inputs(alloc, 0, params.len())?;
    scope_of(alloc, &names, &values)
}

impl<'a, A: Allocator + Clone> Machine<'a, A> {
    /// A function begins.
    pub fn begin_function(&mut self, function: NameAt<'a>) -> Result<(), AllocError>
        ensures { OnOk result (self.new ≡ record self.old { frames = state.Header function.entry [] ∷ self.old.frames }) }
    {
        let params = Vec::new(self.alloc.clone()?);
        let header = Header { function, params };
        self.frames.push(Open::Header { header })
    }

    /// A parameter of it.
    pub fn add_parameter(&mut self, x: NameAt<'a>) -> Result<(), AllocError>
        ensures { OnOk result (self.new ≡ with_parameter self.old x.entry self.old.frames) }
    {
        if let Some(mut header) = self.frames.pop_header() {
            header.params.push(x)?;
            self.frames.push(Open::Header { header })?;
        }
        Ok(())
    }

    /// Its body begins: a block whose inputs are the parameters.
    pub fn begin_body(&mut self) -> Result<(), AllocError>
        ensures { OnOk result (self.new ≡ body_begun self.old self.old.frames) }
    {
        if let Some(header) = self.frames.pop_header() {
            let next = number_of(header.params.len())?;
            let scope = function_scope(&self.alloc, &header.params)?;
            let _before = mem::replace(&mut self.scope, scope);
            self.site = Site {
                function: header.function.name,
                region: Region::Root,
                trigger: Source { node: 0, port: 0 },
            };
            self.spot = Spot { next, loops: 0 };
            self.frames.push(Open::Header { header })?;
        }
        Ok(())
    }

    /// Takes the blocks of a function out of the machine, its own first.
    fn take_function(
        &mut self,
        at: usize,
        inputs: usize,
    ) -> Result<Vec<MadeBlock<'a, A>, A>, AllocError>
        ensures taken { OnOk result (self.new ≡ record self.old { nodes = []; sources = []; blocks = [] }) }
        ensures blocks { IfOk result (λ v. v.items
            ≡ record { at = at; loop = 0; inputs = inputs; nodes = self.old.nodes; results = self.old.sources } ∷ self.old.blocks) }
    {
        let nodes = self.take_nodes()?;
        let results = self.take_sources()?;
        let mut blocks = self.take_blocks()?;
        let block = MadeBlock {
            at,
            number: 0,
            inputs,
            nodes,
            results,
        };
        blocks.insert(0, block)?;
        Ok(blocks)
    }

    /// Nothing is open.
    fn close(&mut self) -> Result<(), AllocError>
        ensures { OnOk result (self.new ≡ record (between self.old.plans self.old.done) {
          sources = self.old.sources;
          nodes = self.old.nodes;
          blocks = self.old.blocks;
        }) }
    {
        let empty = Scope::new(&self.alloc)?;
        let _inner = mem::replace(&mut self.scope, empty);
        let none = Frames::new(self.alloc.clone()?);
        let _open = mem::replace(&mut self.frames, none);
        self.site = Site {
            function: nameless(),
            region: Region::Root,
            trigger: Source { node: 0, port: 0 },
        };
        self.spot = Spot { next: 0, loops: 0 };
        self.number = false;
        Ok(())
    }

    /// A function ends: its own block, and those of its loops.
    pub fn end_function(&mut self) -> Result<(), AllocError>
        ensures { OnOk result (self.new ≡ function_ended self.old self.old.frames) }
    {
        if let Some(header) = self.frames.pop_header() {
            let blocks = self.take_function(header.function.at, header.params.len())?;
            add_blocks(&mut self.done, header.function.name, blocks)?;
            self.close()?;
        }
        Ok(())
    }
}

/// The blocks of the loops of a function.
fn add_blocks<'a, A: Allocator>(
    done: &mut Vec<OfFunction<'a, A>, A>,
    function: &'a [u8],
    blocks: Vec<MadeBlock<'a, A>, A>,
) -> Result<(), AllocError>
    ensures { OnOk result (done.new.items ≡ done.old.items ++ of_function function.now blocks.entry.items) }
{
    let mut rest = VecDeque::from_vec(blocks);
    while let Some(block) = rest.pop_front() {
        done.push(OfFunction { function, block })?;
    }
    Ok(())
}
