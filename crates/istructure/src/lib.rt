//! The cells of one element: each is written once, and readers that arrive before that wait (I-structure cells).
#![tactic(auto)]

ghost use Rattle.std.specs.Prelude.{◌≡◌, ℕ, ◌%◌, ◌<◌, ◌≤◌, IfOk, Some, None, vec_capacity};
ghost use Rattle.semantics.specs.Machine.{Vacant};
ghost use Rattle.istructure.specs.OwnCells.{OwnCells, all_vacant, value_at, cell_at, readers_in, place_of};
ghost use Rattle.istructure.specs.Answered.{FetchedAt, StoredAt};
ghost use Rattle.istructure.specs.Holds.{FetchIsEvent, StoreIsEvent};

mod cell;

use cell::Cell;
use std::alloc::{AllocError, Allocator};
use std::marker::Model;
use tags::token::Cont;
use tags::value::Value;

/// The result of a fetch.
#[derive(Clone, Copy, Debug, PartialEq, Eq)]
pub enum FetchAnswer {
    /// The cell is full and holds this value.
    Now(Value),
    /// The cell is not full, and the reader waits for its value.
    Deferred,
    /// The element does not own the cell; nothing changed.
    NotHere,
    /// There was no memory to keep the reader; nothing changed.
    Memory,
}

/// The result of a store.
#[derive(Clone, Copy, Debug, PartialEq, Eq)]
pub enum StoreAnswer {
    /// The cell holds the value, and its readers are answered.
    Stored,
    /// The cell was full before; nothing changed.
    Second,
    /// The element does not own the cell; nothing changed.
    NotHere,
    /// There was no memory to list the readers; nothing changed.
    Memory,
}

/// The cells that one element owns, of cells that lie on the elements in turn.
#[derive(Drop)]
pub struct Cells<A: Allocator> {
    alloc: A,
    element: u32,
    elements: u32,
    cells: Vec<Cell<A>, A>,
}

impl<A: Allocator> Model for Cells<A> {
    ghost use Rattle.std.specs.Prelude.{map, ◌<◌};
    ghost use Rattle.istructure.specs.OwnCells.{OwnCells};
    ghost use Rattle.istructure.specs.CellStates.{state_of};

    ghost Value = { OwnCells };

    ghost view = { λ c. record { element = c.element; elements = c.elements; states = map state_of c.cells.items } };

    ghost invariant = { λ c. c.element < c.elements };
}

impl<A: Allocator + Clone> Cells<A> {
    /// The cells of this element, all vacant, where `cells` cells are distributed among `elements` elements in turn.
    pub fn new(alloc: A, cells: u32, element: u32, elements: u32) -> Result<Cells<A>, AllocError>
        requires { element < elements }
        ensures exact { IfOk result (λ own. own ≡ all_vacant cells element elements) }
        ensures here { IfOk result (λ own. (x : ℕ) → x < cells → x % elements ≡ element → cell_at own x ≡ Some Vacant) }
        ensures beyond { IfOk result (λ own. (x : ℕ) → cells ≤ x → cell_at own x ≡ None) }
    {
        let count = (cells as usize + elements as usize - 1 - element as usize) / elements as usize;
        let mut own = Vec::with_capacity(alloc.clone()?, count)?;
        for _ in 0..count {
            own.push(Cell::Vacant)?;
        }
        Ok(Cells {
            alloc,
            element,
            elements,
            cells: own,
        })
    }

    /// Reads a cell, or defers the reader until it is full.
    pub fn fetch(&mut self, cell: u32, reader: Cont) -> FetchAnswer
        ensures exact { FetchedAt self.old cell reader result self.new }
        ensures event { FetchIsEvent self.old cell reader result self.new }
    {
        let Some(place) = self.place(cell) else {
            return FetchAnswer::NotHere;
        };
        let alloc = &self.alloc;
        let held = &mut self.cells[place];
        held.fetch(alloc, reader)
    }

    /// As `fetch`, but it takes no memory: that there is none is answered where there is no room for one more reader of the cell.
    pub fn fetch_within(&mut self, cell: u32, reader: Cont) -> FetchAnswer
        ensures exact { FetchedAt self.old cell reader result self.new }
        ensures event { FetchIsEvent self.old cell reader result self.new }
    {
        let Some(place) = self.place(cell) else {
            return FetchAnswer::NotHere;
        };
        let held = &mut self.cells[place];
        held.fetch_within(reader)
    }

    /// Fills a cell, and lists the readers that waited after the answers.
    pub fn store<B: Allocator>(
        &mut self,
        cell: u32,
        value: Value,
        answers: &mut Vec<Cont, B>,
    ) -> StoreAnswer
        ensures exact { StoredAt self.old cell value (vec_capacity answers.old) answers.old.items result self.new answers.new.items }
        ensures event { StoreIsEvent self.old cell value result self.new answers.old.items answers.new.items }
    {
        let Some(place) = self.place(cell) else {
            return StoreAnswer::NotHere;
        };
        let held = &mut self.cells[place];
        held.store(value, answers)
    }
}

impl<A: Allocator> Cells<A> {
    fn place(&self, cell: u32) -> Option<usize>
        ensures { result ≡ place_of self.now cell }
    {
        if cell % self.elements != self.element {
            return None;
        }
        let place = (cell / self.elements) as usize;
        (place < self.cells.len()).then_some(place)
    }

    /// The value of a cell that the element owns and that is full.
    pub fn value(&self, cell: u32) -> Option<Value>
        ensures { result ≡ value_at self.now cell }
    {
        self.cells[self.place(cell)?].value()
    }

    /// How many readers wait for a cell.
    pub fn readers(&self, cell: u32) -> usize
        ensures { result ≡ readers_in (cell_at self.now cell) }
    {
        match self.place(cell) {
            None => 0,
            Some(place) => self.cells[place].readers(),
        }
    }
}
