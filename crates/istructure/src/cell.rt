//! One cell.

ghost use Rattle.std.specs.Prelude.{◌≡◌, ◌<◌, ◌+◌, ◌++◌, ◌∷◌, [], IfOk, OnOk, OnErr, length, vec_capacity};
ghost use Rattle.semantics.specs.Machine.{reader_count, value_in};
ghost use Rattle.istructure.specs.CellStates.{state_of};
ghost use Rattle.istructure.specs.Steps.{readers_of, CellFetched, CellStored};

use crate::{FetchAnswer, StoreAnswer};
use std::alloc::{AllocError, Allocator};
use tags::token::Cont;
use tags::value::Value;

/// What a cell holds.
#[derive(Drop)]
pub enum Cell<A: Allocator> {
    Vacant,
    Full(Value),
    /// The readers that wait, in the order in which they came.
    Deferred(Vec<Cont, A>),
}

/// The list of a first reader.
fn first_reader<A: Allocator + Clone>(alloc: &A, reader: Cont) -> Result<Vec<Cont, A>, AllocError>
    ensures { IfOk result (λ v. v.items ≡ reader ∷ []) }
{
    let mut readers = Vec::new(alloc.clone()?);
    readers.push(reader)?;
    Ok(readers)
}

impl<A: Allocator + Clone> Cell<A> {
    /// Answers a reader, or keeps it.
    pub fn fetch(&mut self, alloc: &A, reader: Cont) -> FetchAnswer
        ensures { CellFetched (state_of self.old) reader result (state_of self.new) }
    {
        match self {
            Cell::Full(value) => FetchAnswer::Now(*value),
            Cell::Deferred(readers) => match readers.push(reader) {
                Ok(()) => FetchAnswer::Deferred,
                Err(_) => FetchAnswer::Memory,
            },
            Cell::Vacant => match first_reader(alloc, reader) {
                Ok(readers) => {
                    *self = Cell::Deferred(readers);
                    FetchAnswer::Deferred
                }
                Err(_) => FetchAnswer::Memory,
            },
        }
    }

    /// As `fetch`, but it takes no memory: that there is none is answered where there is no room for one more reader.
    pub fn fetch_within(&mut self, reader: Cont) -> FetchAnswer
        ensures { CellFetched (state_of self.old) reader result (state_of self.new) }
    {
        match self {
            Cell::Full(value) => FetchAnswer::Now(*value),
            Cell::Deferred(readers) => {
                if readers.len() < readers.capacity() {
                    readers.push_reserved(reader);
                    FetchAnswer::Deferred
                } else {
                    FetchAnswer::Memory
                }
            }
            Cell::Vacant => FetchAnswer::Memory,
        }
    }

    /// Fills the cell, and lists its readers after the answers.
    pub fn store<B: Allocator>(&mut self, value: Value, answers: &mut Vec<Cont, B>) -> StoreAnswer
        ensures { CellStored (state_of self.old) value (vec_capacity answers.old) answers.old.items result (state_of self.new) answers.new.items }
    {
        if let Cell::Full(_) = self {
            return StoreAnswer::Second;
        }
        match self.list_readers(answers) {
            Err(_) => StoreAnswer::Memory,
            Ok(()) => {
                *self = Cell::Full(value);
                StoreAnswer::Stored
            }
        }
    }
}

impl<A: Allocator> Cell<A> {
    /// The value, where the cell is full.
    pub fn value(&self) -> Option<Value>
        ensures { result ≡ value_in (state_of self.now) }
    {
        match self {
            Cell::Full(value) => Some(*value),
            _ => None,
        }
    }

    /// How many readers wait.
    pub fn readers(&self) -> usize
        ensures { result ≡ reader_count (state_of self.now) }
    {
        match self {
            Cell::Deferred(readers) => readers.len(),
            _ => 0,
        }
    }

    /// Puts the readers that wait after the answers.
    fn list_readers<B: Allocator>(&self, answers: &mut Vec<Cont, B>) -> Result<(), AllocError>
        ensures ok { OnOk result (answers.new.items ≡ answers.old.items ++ readers_of (state_of self.now)) }
        ensures err { OnErr result (answers.new.items ≡ answers.old.items) }
        ensures full { OnErr result (vec_capacity answers.old < length answers.old.items + length (readers_of (state_of self.now))) }
    {
        match self {
            Cell::Deferred(readers) => answers.extend_from_slice(readers),
            _ => Ok(()),
        }
    }
}
