//! Stacks of names, in which a name is looked up in one step.

ghost use Rattle.std.specs.Prelude.{◌≡◌, ◌==◌, ◌∷◌, [], ◌<◌, ℕ, IfOk, OnOk, OnErr, length, drop, slice_get, slice_index_or};
ghost use Rattle.std.specs.List.{list_any};
ghost use Rattle.source_check.specs.Steps.{since, back, onto};
ghost use Rattle.source_check.specs.Stack as stack;

use std::alloc::{AllocError, Allocator};
use std::marker::Model;

/// A name, and the place that it had before.
#[derive(Clone, Copy)]
pub struct Binding {
    pub name: usize,
    pub before: usize,
}

/// Makes room for the place of a name.
fn reserve<A: Allocator>(places: &mut Vec<usize, A>, name: usize) -> Result<(), AllocError>
    ensures same { (n : ℕ) → slice_index_or places.new.items n 0 ≡ slice_index_or places.old.items n 0 }
    ensures room { OnOk result (name < length places.new.items) }
{
    while places.len() <= name {
        places.push(0)?;
    }
    Ok(())
}

/// A stack of names. Contracts see the names, the last one first.
#[derive(Drop)]
pub(crate) struct Bindings<A: Allocator> {
    entries: Vec<Binding, A>,
    /// For each name how many entries end with its last one, or 0.
    places: Vec<usize, A>,
}

impl<A: Allocator> Model for Bindings<A> {
    ghost use Rattle.std.specs.Prelude.{ℕ, List};
    ghost use Rattle.source_check.specs.Stack.{turned_round};
    ghost use Rattle.surface_check.specs.Stack.{names_in, IsStack};

    ghost Value = { List ℕ };

    ghost view = { λ b. names_in (turned_round b.entries.items) };

    ghost invariant = { λ b. IsStack b.entries.items b.places.items };
}

impl<A: Allocator> Bindings<A> {
    pub(crate) fn new(alloc: &A) -> Result<Bindings<A>, AllocError>
    where
        A: Clone,
        ensures { IfOk result (λ b. b ≡ []) }
    {
        Ok(Bindings {
            entries: Vec::new(alloc.clone()?),
            places: Vec::new(alloc.clone()?),
        })
    }

    pub(crate) fn len(&self) -> usize
        ensures { result ≡ length self.now }
    {
        self.entries.len()
    }

    /// The place of a name, or 0.
    fn place(&self, name: usize) -> usize
        ensures { result ≡ stack.place name self.now }
    {
        self.places.get(name).copied().unwrap_or(0)
    }

    pub(crate) fn contains(&self, name: usize) -> bool
        ensures { result ≡ list_any (λ x. name == x) self.now }
    {
        self.place(name) > 0
    }

    /// The name is among those after the first `start`.
    pub(crate) fn contains_since(&self, name: usize, start: usize) -> bool
        ensures { result ≡ list_any (λ x. name == x) (since start self.now) }
    {
        self.place(name) > start
    }

    pub(crate) fn push(&mut self, name: usize) -> Result<(), AllocError>
        ensures pushed { OnOk result (self.new ≡ name ∷ self.old) }
        ensures refused { OnErr result (self.new ≡ self.old) }
    {
        let before = self.place(name);
        reserve(&mut self.places, name)?;
        self.entries.push(Binding { name, before })?;
        self.places[name] = self.entries.len();
        Ok(())
    }

    pub(crate) fn pop(&mut self) -> Option<usize>
        ensures value { result ≡ slice_get self.old 0 }
        ensures rest { self.new ≡ drop 1 self.old }
    {
        let binding = self.entries.pop()?;
        if binding.name < self.places.len() {
            self.places[binding.name] = binding.before;
        }
        Some(binding.name)
    }

    /// Keeps the first `len` names.
    pub(crate) fn truncate(&mut self, len: usize)
        ensures { self.new ≡ back len self.old }
    {
        while self.len() > len {
            self.pop();
        }
    }

    #[tactic(auto, using(source_check::proofs::Places::back_none))]
    pub(crate) fn clear(&mut self)
        ensures { self.new ≡ [] }
    {
        self.truncate(0);
    }

    /// How many names are after the first `start`.
    pub(crate) fn len_since(&self, start: usize) -> usize
        ensures { result ≡ length (since start self.now) }
    {
        self.len().saturating_sub(start)
    }

    /// Moves the names after the first `start` to another stack, the last one first.
    pub(crate) fn moves(&mut self, to: &mut Bindings<A>, start: usize) -> Result<(), AllocError>
        ensures moved { OnOk result (to.new ≡ onto (since start self.old) to.old) }
        ensures rest { OnOk result (self.new ≡ back start self.old) }
    {
        while self.len() > start {
            if let Some(name) = self.pop() {
                to.push(name)?;
            }
        }
        Ok(())
    }
}
