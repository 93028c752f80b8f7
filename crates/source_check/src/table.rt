//! The heads of items: what each name's item is.

ghost use Rattle.std.specs.Prelude.{◌≡◌, ◌⊎◌, [], Err, MatchResult, ◌==◌, ◌<◌, ◌≤◌, ℕ, None, OnOk, length, slice_index_or};
ghost use Rattle.source_check.specs.Heads as heads;
ghost use Rattle.source_check.specs.Stack.{DoesAs, HeadsGive, out_of_memory, by_number, item_in, heads_in};
ghost use Rattle.source.specs.First as first;

use crate::frame::Entry;
use source::fault::{Fault, FaultKind};
use source::word::Word;
use std::alloc::{AllocError, Allocator};
use std::marker::Model;

/// A growth was refused.
pub(crate) const OUT_OF_MEMORY: Fault = Fault {
    kind: FaultKind::Memory,
    at: 0,
};

/// A fault of that kind and place, unless the test holds.
pub(crate) fn must(holds: bool, kind: FaultKind, at: usize) -> Result<(), Fault>
    ensures { result ≡ first.must holds kind at }
{
    if holds {
        Ok(())
    } else {
        Err(Fault { kind, at })
    }
}

/// What each name's item is, by the name's number. Contracts see the list.
#[derive(Drop)]
pub(crate) struct Table<A: Allocator> {
    entries: Vec<Option<Entry>, A>,
}

impl<A: Allocator> Model for Table<A> {
    ghost use Rattle.std.specs.Prelude.{List, Option};
    ghost use Rattle.source_check.specs.declared.frame.Entry.{Entry};

    ghost Value = { List (Option Entry) };

    ghost view = { λ t. t.entries.items };
}

/// Makes room for the item of a name.
fn reserve<A: Allocator>(entries: &mut Vec<Option<Entry>, A>, name: usize) -> Result<(), AllocError>
    ensures same { (n : ℕ) → slice_index_or entries.new.items n None ≡ slice_index_or entries.old.items n None }
    ensures room { OnOk result (name < length entries.new.items) }
{
    while entries.len() <= name {
        entries.push(None)?;
    }
    Ok(())
}

impl<A: Allocator> Table<A> {
    pub(crate) fn new(alloc: A) -> Table<A>
        ensures { result ≡ [] }
    {
        Table {
            entries: Vec::new(alloc),
        }
    }

    pub(crate) fn get(&self, name: usize) -> Option<Entry>
        ensures { result ≡ item_in self.now name }
    {
        if name < self.entries.len() {
            self.entries[name]
        } else {
            None
        }
    }

    pub(crate) fn set(&mut self, name: usize, entry: Entry) -> Result<(), AllocError>
        ensures { OnOk result (item_in self.new ≡ heads.with_item by_number (item_in self.old) name entry) }
    {
        reserve(&mut self.entries, name)?;
        self.entries[name] = Some(entry);
        Ok(())
    }
}

/// The heads that are read so far.
#[derive(Drop)]
pub(crate) struct Heads<A: Allocator> {
    table: Table<A>,
    arrays: u64,
    cells: u64,
    /// The function whose head is read.
    current: Option<usize>,
    params: usize,
    results: u64,
}

impl<A: Allocator> Model for Heads<A> {
    ghost use Rattle.std.specs.Prelude.{ℕ, ◌≤◌};
    ghost use Rattle.source_check.specs.Stack.{HeadsView};

    ghost Value = { HeadsView };

    ghost view = { λ h. record { entries = h.table; arrays = h.arrays; cells = h.cells; current = h.current; params = h.params; results = h.results } };

    ghost invariant = { λ h. h.cells ≤ 65536 };
}

impl<A: Allocator> Heads<A> {
    fn new(alloc: A) -> Heads<A>
        ensures { heads_in result ≡ heads.no_heads }
    {
        Heads {
            table: Table::new(alloc),
            arrays: 0,
            cells: 0,
            current: None,
            params: 0,
            results: 1,
        }
    }

    fn array(&mut self, at: usize, name: usize) -> Result<(), Fault>
        ensures { DoesAs result (heads_in self.new) (heads.array by_number (heads_in self.old) at name) }
    {
        must(self.table.get(name).is_none(), FaultKind::SameName, at)?;
        must(self.arrays < 64, FaultKind::TooMany, at)?;
        let Ok(()) = self.table.set(name, Entry::Array) else {
            return Err(OUT_OF_MEMORY);
        };
        self.arrays += 1;
        Ok(())
    }

    fn array_length(&mut self, at: usize, len: u64) -> Result<(), Fault>
        ensures { DoesAs result (heads_in self.new) (heads.array_length (heads_in self.old) at len) }
    {
        must(1 <= len && len <= 65536, FaultKind::BadCount, at)?;
        must(self.cells + len <= 65536, FaultKind::TooMany, at)?;
        self.cells += len;
        Ok(())
    }

    fn function_name(&mut self, at: usize, name: usize) -> Result<(), Fault>
        ensures { DoesAs result (heads_in self.new) (heads.function_name (heads_in self.old) at name) }
    {
        must(self.table.get(name).is_none(), FaultKind::SameName, at)?;
        self.current = Some(name);
        self.params = 0;
        self.results = 1;
        Ok(())
    }

    fn parameter(&mut self, at: usize) -> Result<(), Fault>
        ensures { DoesAs result (heads_in self.new) (heads.parameter (heads_in self.old) at) }
    {
        must(self.params < 16, FaultKind::TooMany, at)?;
        self.params += 1;
        Ok(())
    }

    fn results_number(&mut self, at: usize, number: u64) -> Result<(), Fault>
        ensures { DoesAs result (heads_in self.new) (heads.results_number (heads_in self.old) at number) }
    {
        must(1 <= number && number <= 16, FaultKind::BadCount, at)?;
        self.results = number;
        Ok(())
    }

    fn head_read(&mut self) -> Result<(), Fault>
        ensures { DoesAs result (heads_in self.new) (heads.head_done by_number (heads_in self.old)) }
    {
        let Some(name) = self.current else {
            return Ok(());
        };
        let entry = Entry::Function {
            params: self.params,
            results: self.results,
        };
        let Ok(()) = self.table.set(name, entry) else {
            return Err(OUT_OF_MEMORY);
        };
        Ok(())
    }

    fn step(&mut self, word: Word<usize>) -> Result<(), Fault>
        ensures { DoesAs result (heads_in self.new) (heads.head_step by_number (heads_in self.old) word) }
    {
        match word {
            Word::Array { at, name } => self.array(at, name),
            Word::Length { at, len } => self.array_length(at, len),
            Word::Function { at, name } => self.function_name(at, name),
            Word::Parameter { at, .. } => self.parameter(at),
            Word::Results { at, number } => self.results_number(at, number),
            Word::Body { .. } => self.head_read(),
            _ => Ok(()),
        }
    }
}

/// Reads the heads of all items.
pub(crate) fn read_heads<A: Allocator + Clone>(
    alloc: &A,
    words: &[Word<usize>],
) -> Result<Table<A>, Fault>
    ensures { MatchResult result (λ table. HeadsGive table (heads.through (heads.head_step by_number) heads.no_heads words.now))
        (λ f. (f ≡ out_of_memory) ⊎ (heads.through (heads.head_step by_number) heads.no_heads words.now ≡ Err f)) }
{
    let Ok(own) = alloc.clone() else {
        return Err(OUT_OF_MEMORY);
    };
    let mut heads = Heads::new(own);
    for &word in words {
        heads.step(word)?;
    }
    Ok(heads.table)
}
