//! Cells, as an evaluation fills them.

use std::alloc::{AllocError, Global};
use tags::value::Value;

/// A cell: its value, and the number of the last pass that stored to it.
#[derive(Clone, Copy)]
struct Cell {
    value: Option<Value>,
    stored: u64,
}

/// The cells of all arrays, through all passes over a program.
#[derive(Drop)]
pub struct Memory {
    cells: Vec<Cell>,
    pass: u64,
    /// Whether the pass has filled a cell.
    pub is_changed: bool,
    /// Whether a pass has stored to one cell twice.
    pub has_clash: bool,
    /// How many fetches of the pass found an empty cell.
    pub waiting: u64,
}

impl Memory {
    pub fn new(alloc: Global, count: u64) -> Result<Memory, AllocError> {
        let mut cells = Vec::new(alloc);
        for _ in 0..count {
            cells.push(Cell {
                value: None,
                stored: 0,
            })?;
        }
        Ok(Memory {
            cells,
            pass: 0,
            is_changed: false,
            has_clash: false,
            waiting: 0,
        })
    }

    /// Begins a pass.
    pub fn begin(&mut self) {
        self.pass = self.pass.wrapping_add(1);
        self.is_changed = false;
        self.waiting = 0;
    }

    /// What the cell has, if anything; else the fetch waits.
    pub fn fetch(&mut self, cell: u64) -> Option<Value> {
        let value = match self.cells.get(cell as usize) {
            Some(cell) => cell.value,
            None => None,
        };
        if value.is_none() {
            self.waiting = self.waiting.wrapping_add(1);
        }
        value
    }

    /// Stores a value to the cell, which each pass does anew, unless it waits. Gives it.
    pub fn store(&mut self, cell: u64, value: Option<Value>) -> Option<Value> {
        if value.is_none() {
            return None;
        }
        let Some(cell) = self.cells.get_mut(cell as usize) else {
            return value;
        };
        if cell.stored == self.pass {
            self.has_clash = true;
        }
        cell.stored = self.pass;
        if cell.value.is_none() {
            cell.value = value;
            self.is_changed = true;
        }
        value
    }

    /// What the cell has.
    pub fn value(&self, cell: u64) -> Option<Value> {
        self.cells.get(cell as usize)?.value
    }

    /// How many cells are full.
    pub fn full(&self) -> usize {
        self.cells
            .iter()
            .filter(|cell| cell.value.is_some())
            .count()
    }
}
