//! A word for each holder of a block.

ghost use Rattle.std.specs.Prelude.{◌≡◌, ◌<◌, ◌-◌, ◌^◌, IfOk, length, replicate, slice_set, slice_index_or, bit_and};

use std::alloc::{AllocError, Allocator};
use std::marker::Model;

/// A word for each holder, of 64 lanes. Contracts see the list.
#[derive(Drop)]
pub(crate) struct Row<A: Allocator> {
    words: Vec<u64, A>,
}

impl<A: Allocator> Model for Row<A> {
    ghost use Rattle.std.specs.Prelude.{List, ℕ};

    ghost Value = { List ℕ };

    ghost view = { λ r. r.words.items };
}

impl<A: Allocator> Row<A> {
    /// `count` words with all lanes.
    pub fn full(alloc: A, count: usize) -> Result<Row<A>, AllocError>
        ensures { IfOk result (λ r. r ≡ replicate count (2 ^ 64 - 1)) }
    {
        let words = vec![in alloc; u64::MAX; count]?;
        Ok(Row { words })
    }

    /// The lanes of that holder; none if there is no such word.
    pub fn at(&self, number: usize) -> u64
        ensures { result ≡ slice_index_or self.now number 0 }
    {
        match self.words.get(number) {
            Some(word) => *word,
            None => 0,
        }
    }

    /// Clears all but such lanes of that holder, if it is there.
    pub fn keep(&mut self, number: usize, lanes: u64)
        ensures { self.new ≡ slice_set self.old number (bit_and (slice_index_or self.old number 0) lanes) }
    {
        if number < self.words.len() {
            self.words[number] &= lanes;
        }
    }
}
