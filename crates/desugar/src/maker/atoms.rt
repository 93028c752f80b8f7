//! What stands for itself, or gets a hidden name.

ghost use Rattle.std.specs.Prelude.{◌≡◌, IfOk, OnOk};
ghost use Rattle.desugar.specs.Code.{numbers};
ghost use Rattle.desugar.specs.Steps as steps;

use crate::forms::{push_atom, push_let};
use crate::frame::Atom;
use crate::maker::{Maker, next, since};
use crate::meanings::Meanings;
use std::alloc::{AllocError, Allocator};

/// Not the name of something that would be hidden where it is used: a `for`'s counter, or what it carries.
pub(super) fn unless_hidden<'a, A: Allocator>(
    names: &Meanings<'a, A>,
    counter: usize,
    is_carried: bool,
    atom: Option<Atom<usize>>,
) -> Option<Atom<usize>>
    ensures { result ≡ steps.unless_hidden (numbers names.now.table.now.entries names.now.count) counter is_carried atom }
{
    match atom {
        Some(Atom::Name { name, .. }) if name == counter || is_carried => None,
        _ => atom,
    }
}

impl<A: Allocator> Maker<A> {
    /// Cuts the words of a value off: it stands for itself, or gets a hidden name by a `let`.
    pub(super) fn cut<'a>(
        &mut self,
        names: &Meanings<'a, A>,
        start: usize,
        at: usize,
        atom: Option<Atom<usize>>,
    ) -> Result<Atom<usize>, AllocError>
        ensures state { OnOk result (self.new ≡ steps.cut (numbers names.now.table.now.entries names.now.count) self.old start at atom) }
        ensures atom { IfOk result (λ a. a ≡ steps.atom_of (numbers names.now.table.now.entries names.now.count) self.old at atom) }
    {
        match atom {
            Some(atom) => {
                self.words.truncate(start);
                Ok(atom)
            }
            None => {
                let name = names.hidden(self.given)?;
                push_let(&mut self.lets, at, name, since(&self.words, start))?;
                self.words.truncate(start);
                self.given = next(self.given)?;
                Ok(Atom::Name { at, name })
            }
        }
    }

    /// The value gets a name, also where it is a number.
    pub(super) fn name_made<'a>(
        &mut self,
        names: &Meanings<'a, A>,
        at: usize,
        atom: Atom<usize>,
    ) -> Result<Atom<usize>, AllocError>
        ensures state { OnOk result (self.new ≡ steps.name_left (numbers names.now.table.now.entries names.now.count) self.old at atom) }
        ensures atom { IfOk result (λ a. a ≡ steps.name_made (numbers names.now.table.now.entries names.now.count) self.old at atom) }
    {
        match atom {
            Atom::Name { .. } => Ok(atom),
            Atom::Number { .. } | Atom::Negative { .. } => {
                let name = names.hidden(self.given)?;
                self.held.clear();
                push_atom(&mut self.held, atom)?;
                push_let(&mut self.lets, at, name, &self.held)?;
                self.given = next(self.given)?;
                Ok(Atom::Name { at, name })
            }
        }
    }
}
