//! Sets of names.

ghost use Rattle.std.specs.Prelude.{◌≡◌, ◌||◌, ℕ, List, false, not, IfOk, OnOk};
ghost use Rattle.semantics.specs.Graph.{same_name};
ghost use Rattle.lowering.specs.Uses.{has};

use std::alloc::{AllocError, Allocator};
use std::collections::BTreeSet;

/// Names, each looked up in a few steps.
#[derive(Drop)]
pub struct NameSet<'a, A: Allocator> {
    names: BTreeSet<&'a [u8], A>,
}

impl<'a, A: Allocator> NameSet<'a, A> {
    pub fn new(alloc: A) -> NameSet<'a, A>
        ensures { (x : List ℕ) → has result.names x ≡ false }
    {
        NameSet {
            names: BTreeSet::new(alloc),
        }
    }

    pub fn contains(&self, name: &'a [u8]) -> bool
        ensures { result ≡ has self.now.names name.now }
    {
        self.names.contains(&name)
    }

    /// From now on the name is one of these. Returns whether it is new.
    pub fn add(&mut self, name: &'a [u8]) -> Result<bool, AllocError>
    where
        A: Clone,
        ensures new { IfOk result (λ new. new ≡ not (has self.old.names name.now)) }
        ensures added { OnOk result ((x : List ℕ) → has self.new.names x ≡ (same_name x name.now || has self.old.names x)) }
    {
        match self.names.insert(name) {
            Ok(new) => Ok(new),
            Err(_) => Err(AllocError),
        }
    }
}
