//! The cells of all arrays.

ghost use Rattle.std.specs.Prelude.{◌≡◌, ℕ, OnOk};
ghost use Rattle.semantics.specs.Machine.{put_at};
ghost use Rattle.replay.specs.Known.{kept};
ghost use Rattle.replay.specs.declared.cells.Cell.TheVariants.{Vacant};

use std::alloc::{AllocError, Allocator};
use std::collections::HashMap;
use std::hash::{BuildHasherDefault, FoldHasher};

/// What is known of a cell: not its value, and of its readers only their number.
#[derive(Clone, Copy, Debug, PartialEq, Eq)]
pub enum Cell {
    Vacant,
    Full,
    Deferred { readers: u64 },
}

/// The cells that are not vacant.
#[derive(Drop)]
pub struct Cells<A: Allocator> {
    states: HashMap<u32, Cell, BuildHasherDefault<FoldHasher>, A>,
}

impl<A: Allocator> Cells<A> {
    /// All are vacant.
    pub fn new(alloc: A) -> Cells<A>
        ensures { (x : ℕ) → kept result x ≡ Vacant }
    {
        Cells {
            states: HashMap::new(alloc),
        }
    }

    pub fn cell(&self, number: u32) -> Cell
        ensures { result ≡ kept self.now number }
    {
        match self.states.get(&number) {
            Some(cell) => *cell,
            None => Cell::Vacant,
        }
    }

    /// The cell is this then.
    pub fn set(&mut self, number: u32, cell: Cell) -> Result<(), AllocError>
    where
        A: Clone,
        ensures { OnOk result ((x : ℕ) → kept self.new x ≡ put_at (kept self.old) number cell x) }
    {
        self.states.insert(number, cell)?;
        Ok(())
    }
}
