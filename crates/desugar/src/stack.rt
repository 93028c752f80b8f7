//! Stacks.

ghost use Rattle.std.specs.Prelude.{◌≡◌, ◌+◌, ◌∷◌, [], MatchOption, OnOk, drop};

use std::alloc::{AllocError, Allocator};
use std::marker::Model;

/// A stack. Contracts see the last item first.
#[derive(Drop)]
pub(crate) struct Stack<T, A: Allocator> {
    items: Vec<T, A>,
}

impl<T, A: Allocator> Model for Stack<T, A> {
    ghost use Rattle.std.specs.Prelude.{List, reverse};

    ghost Value = { List T };

    ghost view = { λ s. reverse s.items.items };
}

impl<T: Copy + Drop, A: Allocator> Stack<T, A> {
    pub(crate) fn new(alloc: A) -> Stack<T, A>
        ensures { result ≡ [] }
    {
        Stack {
            items: Vec::new(alloc),
        }
    }

    /// The item after which there are `depth` others.
    #[tactic(auto, using(crate::proofs::Stacks::seen_at, crate::proofs::Stacks::none_at))]
    pub(crate) fn at(&self, depth: usize) -> Option<T>
        ensures { MatchOption result (drop depth self.now ≡ []) (λ x. drop depth self.now ≡ x ∷ drop (depth + 1) self.now) }
    {
        if depth < self.items.len() {
            Some(self.items[self.items.len() - 1 - depth])
        } else {
            None
        }
    }

    /// The last item.
    pub(crate) fn top(&self) -> Option<T>
        ensures { MatchOption result (self.now ≡ []) (λ x. self.now ≡ x ∷ drop 1 self.now) }
    {
        self.at(0)
    }

    /// The item before the last one.
    pub(crate) fn second(&self) -> Option<T>
        ensures { MatchOption result (drop 1 self.now ≡ []) (λ x. drop 1 self.now ≡ x ∷ drop 2 self.now) }
    {
        self.at(1)
    }

    /// The item before that.
    pub(crate) fn third(&self) -> Option<T>
        ensures { MatchOption result (drop 2 self.now ≡ []) (λ x. drop 2 self.now ≡ x ∷ drop 3 self.now) }
    {
        self.at(2)
    }

    pub(crate) fn push(&mut self, item: T) -> Result<(), AllocError>
        ensures { OnOk result (self.new ≡ item ∷ self.old) }
    {
        self.items.push(item)?;
        Ok(())
    }

    /// Takes so many items away.
    #[tactic(auto, using(crate::proofs::Stacks::closed, crate::proofs::Stacks::none_at))]
    pub(crate) fn close(&mut self, count: usize)
        ensures { self.new ≡ drop count self.old }
    {
        if count < self.items.len() {
            self.items.truncate(self.items.len() - count);
        } else {
            self.items.clear();
        }
    }

    /// Another item in place of so many.
    pub(crate) fn replace(&mut self, count: usize, item: T) -> Result<(), AllocError>
        ensures { OnOk result (self.new ≡ item ∷ drop count self.old) }
    {
        self.close(count);
        self.push(item)
    }
}
