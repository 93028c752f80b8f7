//! Which calls are strict, before they end.

ghost use Rattle.std.specs.Prelude.{◌≡◌, [], drop, IfOk, OnOk, OnErr};
ghost use Rattle.surface_check.specs.Machine as machine;

use source::word::Word as CoreWord;
use std::alloc::{AllocError, Allocator};
use std::marker::Model;
use surface::word::Word;

/// Of each word that is left, whether the call that would begin at it is strict, which only its end says. Contracts see the
/// next word's first.
#[derive(Drop)]
pub(crate) struct Ahead<A: Allocator> {
    stricts: Vec<bool, A>,
}

impl<A: Allocator> Model for Ahead<A> {
    ghost use Rattle.std.specs.Prelude.{List, Bool, reverse};

    ghost Value = { List Bool };

    ghost view = { λ a. reverse a.stricts.items };
}

/// The calls that end in the words after one and begin before them. Contracts see the one that ends first as the first.
#[derive(Drop)]
struct Closing<A: Allocator> {
    stricts: Vec<bool, A>,
}

impl<A: Allocator> Model for Closing<A> {
    ghost use Rattle.std.specs.Prelude.{List, Bool, reverse};

    ghost Value = { List Bool };

    ghost view = { λ c. reverse c.stricts.items };
}

impl<A: Allocator> Closing<A> {
    /// Whether the one is strict that ends first.
    fn first(&self) -> bool
        ensures { result ≡ machine.first_or_false self.now }
    {
        match self.stricts.last() {
            Some(strict) => *strict,
            None => false,
        }
    }

    /// One word before these.
    fn step(&mut self, word: &Word<usize>) -> Result<(), AllocError>
        ensures { OnOk result (self.new ≡ machine.word_closing word.now self.old) }
    {
        match *word {
            Word::Core {
                word: CoreWord::Callee { .. },
            } => {
                self.stricts.pop();
                Ok(())
            }
            Word::Core {
                word: CoreWord::Call { strict, .. },
            } => {
                self.stricts.push(strict)?;
                Ok(())
            }
            _ => Ok(()),
        }
    }
}

impl<A: Allocator> Ahead<A> {
    /// Goes over all words once, from the last one to the first.
    pub(crate) fn new(alloc: &A, words: &[Word<usize>]) -> Result<Ahead<A>, AllocError>
    where
        A: Clone,
        ensures { IfOk result (λ a. a ≡ machine.ahead words.now) }
    {
        let mut closing = Closing {
            stricts: Vec::new(alloc.clone()?),
        };
        let mut stricts = Vec::new(alloc.clone()?);
        for index in (0..words.len()).rev() {
            stricts.push(closing.first())?;
            closing.step(&words[index])?;
        }
        Ok(Ahead { stricts })
    }

    /// That of the next word.
    pub(crate) fn pop(&mut self) -> bool
        ensures value { result ≡ machine.first_or_false self.old }
        ensures rest { self.new ≡ drop 1 self.old }
    {
        match self.stricts.pop() {
            Some(strict) => strict,
            None => false,
        }
    }
}
