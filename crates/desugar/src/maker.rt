//! What is made so far, and the changes that all steps are made of.

mod atoms;
mod bodies;
mod cells;
mod conditionals;
mod counting;
mod items;
mod logic;
mod loops;
mod step;
mod values;

ghost use Rattle.std.specs.Prelude.{◌≡◌, ◌+◌, ◌∷◌, ◌++◌, [], IfOk, OnOk, take, drop};
ghost use Rattle.desugar.specs.NumbersDesugar.{begun};
ghost use Rattle.desugar.specs.Steps as steps;

use crate::frame::{Atom, Finish, Frame, Given};
use crate::stack::Stack;
use source::word::Word as CoreWord;
use std::alloc::{AllocError, Allocator};
use std::marker::Model;

/// What is made so far: the words of the core, and those of the `let`s that go before the statements that are open. Contracts see
/// all but `held`, which has words only while they move.
#[derive(Drop)]
pub(crate) struct Maker<A: Allocator> {
    words: Vec<CoreWord<usize>, A>,
    lets: Vec<CoreWord<usize>, A>,
    held: Vec<CoreWord<usize>, A>,
    /// How many hidden names the function has.
    given: usize,
    /// What the open `for`s carry.
    names: Vec<Given<usize>, A>,
    firsts: Vec<Atom<usize>, A>,
    frames: Stack<Frame<usize>, A>,
}

impl<A: Allocator> Model for Maker<A> {
    ghost use Rattle.std.specs.Prelude.{ℕ};
    ghost use Rattle.desugar.specs.Steps.{State};

    ghost Value = { State ℕ };

    ghost view = { λ m. record { words = m.words.items; lets = m.lets.items; given = m.given; names = m.names.items; firsts = m.firsts.items; stack = m.frames } };
}

/// The items after the first `start`.
pub(crate) fn since<T>(items: &[T], start: usize) -> &[T]
    ensures { result.now ≡ drop start items.now }
{
    &items[start.min(items.len())..]
}

/// One more.
pub(crate) fn next(number: usize) -> Result<usize, AllocError>
    ensures { IfOk result (λ n. n ≡ number + 1) }
{
    match number.checked_add(1) {
        Some(next) => Ok(next),
        None => Err(AllocError),
    }
}

/// The words since a mark are held, and the `let`s since another one come in their place, after `ahead`.
fn open_gap<A: Allocator>(
    words: &mut Vec<CoreWord<usize>, A>,
    lets: &mut Vec<CoreWord<usize>, A>,
    held: &mut Vec<CoreWord<usize>, A>,
    words_mark: usize,
    lets_mark: usize,
    ahead: &[CoreWord<usize>],
) -> Result<(), AllocError>
    ensures words { OnOk result (words.new.items ≡ take words_mark words.old.items ++ ahead.now ++ drop lets_mark lets.old.items) }
    ensures lets { OnOk result (lets.new.items ≡ take lets_mark lets.old.items) }
    ensures held { OnOk result (held.new.items ≡ drop words_mark words.old.items) }
{
    held.clear();
    held.extend_from_slice(since(words, words_mark))?;
    words.truncate(words_mark);
    words.extend_from_slice(ahead)?;
    words.extend_from_slice(since(lets, lets_mark))?;
    lets.truncate(lets_mark);
    Ok(())
}

/// The `let`s since a mark go before the words since another one. This costs nothing where there are none.
#[tactic(auto, using(crate::proofs::Gaps::nothing_moved))]
fn settle<A: Allocator>(
    words: &mut Vec<CoreWord<usize>, A>,
    lets: &mut Vec<CoreWord<usize>, A>,
    held: &mut Vec<CoreWord<usize>, A>,
    words_mark: usize,
    lets_mark: usize,
) -> Result<(), AllocError>
    ensures words { OnOk result (words.new.items ≡ take words_mark words.old.items ++ drop lets_mark lets.old.items ++ drop words_mark words.old.items) }
    ensures lets { OnOk result (lets.new.items ≡ take lets_mark lets.old.items) }
{
    if lets_mark < lets.len() {
        open_gap(words, lets, held, words_mark, lets_mark, &[])?;
        words.extend_from_slice(held)?;
    }
    Ok(())
}

impl<A: Allocator> Maker<A> {
    pub(crate) fn new(alloc: &A) -> Result<Maker<A>, AllocError>
    where
        A: Clone,
        ensures { IfOk result (λ m. m ≡ begun) }
    {
        Ok(Maker {
            words: Vec::new(alloc.clone()?),
            lets: Vec::new(alloc.clone()?),
            held: Vec::new(alloc.clone()?),
            given: 0,
            names: Vec::new(alloc.clone()?),
            firsts: Vec::new(alloc.clone()?),
            frames: Stack::new(alloc.clone()?),
        })
    }

    /// The words that are made.
    pub(crate) fn into_words(self) -> Vec<CoreWord<usize>, A>
        ensures { result.items ≡ self.words }
    {
        self.words
    }

    /// A word is said, and so many parts end where another one begins.
    fn say(
        &mut self,
        word: CoreWord<usize>,
        closed: usize,
        frame: Frame<usize>,
    ) -> Result<(), AllocError>
        ensures { OnOk result (self.new ≡ steps.said self.old (word ∷ []) (frame ∷ drop closed self.old.stack)) }
    {
        self.words.push(word)?;
        self.frames.replace(closed, frame)
    }

    /// A value takes the place of so many parts.
    fn close_as(
        &mut self,
        closed: usize,
        start: usize,
        at: usize,
        level: u64,
    ) -> Result<(), AllocError>
        ensures { OnOk result (self.new ≡ record self.old { stack = steps.plain start at level ∷ drop closed self.old.stack }) }
    {
        self.frames.replace(
            closed,
            Frame::Value {
                start,
                at,
                level,
                atom: None,
                literal: false,
            },
        )
    }

    /// A body begins in place of so many parts.
    fn open_body(&mut self, closed: usize, finish: Finish<usize>) -> Result<(), AllocError>
        ensures { OnOk result (self.new ≡ steps.body_opened self.old [] finish (drop closed self.old.stack)) }
    {
        let words = self.words.len();
        let lets = self.lets.len();
        self.frames.replace(
            closed,
            Frame::Body {
                words,
                lets,
                finish,
            },
        )
    }
}
