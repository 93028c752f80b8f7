//! The parameters of a function that stand for arrays.

ghost use Rattle.std.specs.Prelude.{◌≡◌, ◌++◌, ◌∷◌, [], OnOk};
ghost use Rattle.surface_check.specs.Renamed.{numbers_in};
ghost use Rattle.surface_check.specs.Steps as steps;

use std::alloc::{AllocError, Allocator};
use std::marker::Model;

/// The parameters of a function that stand for arrays, each with its number of dimensions. There are few, and a name is
/// sought among all of them.
#[derive(Drop)]
pub(crate) struct ArrayParameters<A: Allocator> {
    entries: Vec<(usize, u64), A>,
}

impl<A: Allocator> Model for ArrayParameters<A> {
    ghost use Rattle.std.specs.Prelude.{ℕ, List};

    ghost Value = { List (ℕ × ℕ) };

    ghost view = { λ a. a.entries.items };
}

impl<A: Allocator> ArrayParameters<A> {
    pub(crate) fn new(alloc: A) -> ArrayParameters<A>
        ensures { result ≡ [] }
    {
        ArrayParameters {
            entries: Vec::new(alloc),
        }
    }

    pub(crate) fn push(&mut self, name: usize, rank: u64) -> Result<(), AllocError>
        ensures { OnOk result (self.new ≡ self.old ++ (name, rank) ∷ []) }
    {
        self.entries.push((name, rank))?;
        Ok(())
    }

    /// How many dimensions the array has for which the name stands.
    pub(crate) fn get(&self, name: usize) -> Option<u64>
        ensures { result ≡ steps.lookup_by (numbers_in []) self.now name }
    {
        for entry in &self.entries {
            if name == entry.0 {
                return Some(entry.1);
            }
        }
        None
    }

    pub(crate) fn clear(&mut self)
        ensures { self.new ≡ [] }
    {
        self.entries.clear();
    }
}
