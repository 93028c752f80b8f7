//! The table of what is known: what the item of each name is.

ghost use Rattle.std.specs.Prelude.{◌≡◌, ◌<◌, ◌++◌, ◌∷◌, [], ℕ, None, IfOk, OnOk, length, option_map, slice_index_or};
ghost use Rattle.surface_check.specs.Heads as heads;
ghost use Rattle.surface_check.specs.Pins.{constant_in, array_in};
ghost use Rattle.surface_check.specs.Renamed.{by_number};
ghost use Rattle.surface_check.specs.Table.{TableView, item_in};

use crate::entry::{Entry, Lengths};
use std::alloc::{AllocError, Allocator};
use std::marker::Model;

/// What is known of the items of a program, by the number of an item's name. Contracts see what is known of each name, and
/// the ranks of all parameters, those of one function side by side: how many dimensions the array has that a parameter
/// stands for, or 0 for a value.
#[derive(Drop)]
pub struct Table<A: Allocator> {
    entries: Vec<Option<Entry>, A>,
    ranks: Vec<u64, A>,
}

impl<A: Allocator> Model for Table<A> {
    ghost use Rattle.surface_check.specs.Table.{TableView};

    ghost Value = { TableView };

    ghost view = { λ t. record { entries = t.entries.items; ranks = t.ranks.items } };
}

/// Makes room for the item of a name.
fn reserve<A: Allocator>(entries: &mut Vec<Option<Entry>, A>, name: usize) -> Result<(), AllocError>
    ensures same { (n : ℕ) → slice_index_or entries.new.items n None ≡ slice_index_or entries.old.items n None }
    ensures room { OnOk result (name < length entries.new.items) }
{
    while entries.len() <= name {
        entries.push(None)?;
    }
    Ok(())
}

impl<A: Allocator> Table<A> {
    pub(crate) fn new(alloc: &A) -> Result<Table<A>, AllocError>
    where
        A: Clone,
        ensures { IfOk result (λ t. t ≡ record { entries = []; ranks = [] }) }
    {
        Ok(Table {
            entries: Vec::new(alloc.clone()?),
            ranks: Vec::new(alloc.clone()?),
        })
    }

    /// What the item of this name is, if there is one.
    pub fn get(&self, name: usize) -> Option<Entry>
        ensures { result ≡ item_in self.now.entries name }
    {
        if name < self.entries.len() {
            self.entries[name]
        } else {
            None
        }
    }

    /// The value of the constant of this name, if there is one.
    pub fn constant(&self, name: usize) -> Option<i64>
        ensures { result ≡ constant_in (item_in self.now.entries name) }
    {
        match self.get(name) {
            Some(Entry::Constant { value }) => Some(value),
            Some(Entry::Array { .. } | Entry::Function { .. }) | None => None,
        }
    }

    /// The lengths of the array of this name, if there is one.
    pub fn array(&self, name: usize) -> Option<Lengths>
        ensures { option_map heads.lengths_in result ≡ array_in (item_in self.now.entries name) }
    {
        match self.get(name) {
            Some(Entry::Array { lengths }) => Some(lengths),
            Some(Entry::Constant { .. } | Entry::Function { .. }) | None => None,
        }
    }

    /// The ranks of all parameters.
    pub fn ranks(&self) -> &[u64]
        ensures { result.now ≡ self.now.ranks }
    {
        self.ranks.as_slice()
    }

    pub(crate) fn set(&mut self, name: usize, entry: Entry) -> Result<(), AllocError>
        ensures set { OnOk result (item_in self.new.entries ≡ heads.with_item by_number (item_in self.old.entries) name entry) }
        ensures same { OnOk result (self.new.ranks ≡ self.old.ranks) }
    {
        reserve(&mut self.entries, name)?;
        self.entries[name] = Some(entry);
        Ok(())
    }

    pub(crate) fn push_rank(&mut self, rank: u64) -> Result<(), AllocError>
        ensures pushed { OnOk result (self.new.ranks ≡ self.old.ranks ++ rank ∷ []) }
        ensures same { OnOk result (self.new.entries ≡ self.old.entries) }
    {
        self.ranks.push(rank)?;
        Ok(())
    }
}
