//! Lists, calls, and the steps of a body.

ghost use Rattle.std.specs.Prelude.{◌≡◌, ◌∷◌, ◌++◌, [], OnOk};
ghost use Rattle.lowering.specs.Lists.{called, dropped, given, list_begun, let_begun, targeted, let_ended};

use crate::frame::Open;
use crate::machine::Machine;
use crate::names::Target;
use graph::Name;
use semantics::graph::Kind;
use std::alloc::{AllocError, Allocator};
use std::mem;

impl<'a, A: Allocator + Clone> Machine<'a, A> {
    pub fn begin_list(&mut self) -> Result<(), AllocError>
        ensures { OnOk result (self.new ≡ list_begun self.old) }
    {
        let outer = self.take_sources()?;
        self.frames.push(Open::InList { outer })
    }

    /// A call with so many results.
    pub fn call(&mut self, at: usize, kind: Kind<Name<'a>>, results: u64) -> Result<(), AllocError>
        ensures { OnOk result (self.new ≡ called self.old at kind.entry results self.old.frames) }
    {
        if let Some(outer) = self.frames.pop_list() {
            let arguments = mem::replace(&mut self.sources, outer);
            self.put_all(at, kind, arguments, results)?;
        }
        Ok(())
    }

    /// The values of a list are dropped.
    pub fn drop_list(&mut self)
        ensures { self.new ≡ dropped self.old self.old.frames }
    {
        if let Some(outer) = self.frames.pop_list() {
            self.sources = outer;
        }
    }

    /// The values of a list are those of the body.
    pub fn give_list(&mut self) -> Result<(), AllocError>
        ensures { OnOk result (self.new ≡ given self.old self.old.frames) }
    {
        if let Some(mut outer) = self.frames.pop_list() {
            outer.append(&mut self.sources)?;
            self.sources = outer;
        }
        Ok(())
    }

    pub fn begin_let(&mut self) -> Result<(), AllocError>
        ensures { OnOk result (self.new ≡ let_begun self.old) }
    {
        let targets = Vec::new(self.alloc.clone()?);
        self.frames.push(Open::Targets { targets })
    }

    pub fn add_target(&mut self, target: Target<'a>) -> Result<(), AllocError>
        ensures { OnOk result (self.new ≡ targeted self.old target.entry self.old.frames) }
    {
        if let Some(mut targets) = self.frames.pop_targets() {
            targets.push(target)?;
            self.frames.push(Open::Targets { targets })?;
        }
        Ok(())
    }

    pub fn end_let(&mut self) -> Result<(), AllocError>
        ensures { OnOk result (self.new ≡ let_ended self.old self.old.frames) }
    {
        if let Some(outer) = self.frames.pop_list() {
            let values = mem::replace(&mut self.sources, outer);
            if let Some(targets) = self.frames.pop_targets() {
                self.scope.bind_targets(&targets, &values)?;
            }
        }
        Ok(())
    }
}
