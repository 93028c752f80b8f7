//! What the names of a program stand for, by their numbers.

ghost use Rattle.std.specs.Prelude.{◌≡◌, ◌+◌, ◌*◌, IfOk};
ghost use Rattle.surface.specs.Known.{product, some_or};
ghost use Rattle.surface_check.specs.Heads.{lengths_in};
ghost use Rattle.desugar.specs.Code.{numbers};
ghost use Rattle.desugar.specs.Steps as steps;

use std::alloc::{AllocError, Allocator};
use surface_check::entry::Lengths;
use surface_check::table::Table;

/// A program has so many names. Those that the table has are constants, arrays and functions; hidden names have the numbers
/// after all of them.
#[derive(Drop)]
pub(crate) struct Meanings<'a, A: Allocator> {
    pub(crate) table: &'a Table<A>,
    pub(crate) count: usize,
}

/// The product.
fn multiplied(number: u64, other: u64) -> Result<u64, AllocError>
    ensures { IfOk result (λ n. n ≡ number * other) }
{
    match number.checked_mul(other) {
        Some(product) => Ok(product),
        None => Err(AllocError),
    }
}

/// How many cells an array with these lengths has.
fn cells_of(lengths: Lengths) -> Result<u64, AllocError>
    ensures { IfOk result (λ n. n ≡ product (lengths_in lengths)) }
{
    match lengths {
        Lengths::One { first } => multiplied(first, 1),
        Lengths::Two { first, second } => multiplied(first, multiplied(second, 1)?),
        Lengths::Three {
            first,
            second,
            third,
        } => multiplied(first, multiplied(second, multiplied(third, 1)?)?),
    }
}

/// A number that is not below 0, else 0.
fn natural(constant: Option<i64>) -> u64
    ensures { result ≡ steps.natural constant }
{
    match constant {
        Some(value) if value >= 0 => value as u64,
        Some(_) | None => 0,
    }
}

impl<'a, A: Allocator> Meanings<'a, A> {
    /// The value of the constant of this name, if there is one.
    pub(crate) fn constant(&self, name: usize) -> Option<i64>
        ensures { result ≡ (numbers self.now.table.now.entries self.now.count).constant name }
    {
        if name < self.count {
            self.table.constant(name)
        } else {
            None
        }
    }

    /// The same, where a number is wanted that is not below 0.
    pub(crate) fn number(&self, name: usize) -> u64
        ensures { result ≡ steps.natural ((numbers self.now.table.now.entries self.now.count).constant name) }
    {
        natural(self.constant(name))
    }

    /// How many cells the array of this name has.
    pub(crate) fn cells(&self, name: usize) -> Result<u64, AllocError>
        ensures { IfOk result (λ n. n ≡ (numbers self.now.table.now.entries self.now.count).cells name) }
    {
        if name >= self.count {
            return Ok(1);
        }
        match self.table.array(name) {
            Some(lengths) => cells_of(lengths),
            None => Ok(1),
        }
    }

    /// The hidden name of this number.
    pub(crate) fn hidden(&self, given: usize) -> Result<usize, AllocError>
        ensures { IfOk result (λ n. n ≡ (numbers self.now.table.now.entries self.now.count).hidden given) }
    {
        match self.count.checked_add(given) {
            Some(name) => Ok(name),
            None => Err(AllocError),
        }
    }
}
