//! Loops.

ghost use Rattle.std.specs.Prelude.{◌≡◌, ◌++◌, ◌∷◌, [], OnOk, drop};
ghost use Rattle.desugar.specs.Code.{numbers};
ghost use Rattle.desugar.specs.Steps as steps;

use crate::forms::{push_given_end, push_or_else};
use crate::frame::{Atom, Finish, Frame, Given};
use crate::maker::{Maker, open_gap};
use crate::meanings::Meanings;
use source::word::Word;
use std::alloc::{AllocError, Allocator};

impl<A: Allocator> Maker<A> {
    /// The bound of a loop, or of a `for`.
    pub(super) fn bound(&mut self, at: usize, bound: u64) -> Result<(), AllocError>
        ensures { OnOk result (self.new ≡ steps.bound self.old at bound self.old.stack) }
    {
        match self.frames.top() {
            Some(
                Frame::For {
                    start,
                    at: for_at,
                    ..
                },
            ) => self.frames.replace(
                1,
                Frame::For {
                    start,
                    at: for_at,
                    bound_at: at,
                    bound,
                },
            ),
            _ => {
                self.words.push(Word::Bound { at, bound })?;
                Ok(())
            }
        }
    }

    pub(super) fn loop_opened(&mut self, at: usize) -> Result<(), AllocError>
        ensures { OnOk result (self.new ≡ steps.loop_opened self.old at) }
    {
        let start = self.words.len();
        self.words.push(Word::Loop { at })?;
        self.frames.push(Frame::Loop { start })
    }

    /// A name of a loop, or one that a `for` carries.
    pub(super) fn start_named(&mut self, at: usize, name: usize) -> Result<(), AllocError>
        ensures { OnOk result (self.new ≡ steps.start_named self.old at name self.old.stack) }
    {
        match self.frames.top() {
            Some(Frame::Loop { .. }) => self.words.push(Word::Start { at, name })?,
            _ => self.names.push(Given { at, name })?,
        }
        Ok(())
    }

    /// The first value of a name ends that a `for` carries.
    fn first_carried<'a>(
        &mut self,
        names: &Meanings<'a, A>,
        start: usize,
        at: usize,
        atom: Option<Atom<usize>>,
    ) -> Result<(), AllocError>
        ensures { OnOk result (self.new ≡ record (steps.cut (numbers names.now.table.now.entries names.now.count) self.old start at atom) {
          firsts = self.old.firsts ++ steps.atom_of (numbers names.now.table.now.entries names.now.count) self.old at atom ∷ [];
          stack = drop 1 self.old.stack;
        }) }
    {
        let first = self.cut(names, start, at, atom)?;
        self.firsts.push(first)?;
        self.frames.close(1);
        Ok(())
    }

    /// The first value of a name ends.
    pub(super) fn first<'a>(&mut self, names: &Meanings<'a, A>) -> Result<(), AllocError>
        ensures { OnOk result (self.new ≡ steps.first (numbers names.now.table.now.entries names.now.count) self.old self.old.stack) }
    {
        match self.frames.top() {
            Some(
                Frame::Value {
                    start,
                    at,
                    atom,
                    ..
                },
            ) => match self.frames.second() {
                Some(Frame::Loop { .. }) => {
                    self.words.push(Word::First)?;
                    self.frames.close(1);
                    Ok(())
                }
                _ => self.first_carried(names, start, at, atom),
            },
            _ => Ok(()),
        }
    }

    /// A test begins with this word, in place of so many parts.
    pub(super) fn test_opened(&mut self, word: Word<usize>, closed: usize) -> Result<(), AllocError>
        ensures { OnOk result (self.new ≡ steps.test_opened self.old word (drop closed self.old.stack)) }
    {
        self.words.push(word)?;
        let words = self.words.len();
        let lets = self.lets.len();
        self.frames.replace(closed, Frame::Test { words, lets })
    }

    /// A test ends, with its `let`s.
    fn tested(&mut self, at: usize, words: usize, lets: usize) -> Result<(), AllocError>
        ensures { OnOk result (self.new ≡ steps.tested self.old at words lets self.old.stack (drop lets self.old.lets)) }
    {
        if self.lets.len() <= lets {
            return Ok(());
        }
        let ahead = [Word::Number { at, number: 1 }, Word::Then];
        open_gap(
            &mut self.words,
            &mut self.lets,
            &mut self.held,
            words,
            lets,
            &ahead,
        )?;
        self.words.push(Word::List)?;
        self.words.extend_from_slice(&self.held)?;
        push_given_end(&mut self.words)?;
        let zero = Atom::Number {
            at,
            number: 0,
            brackets: 0,
        };
        push_or_else(&mut self.words, at, zero)
    }

    /// The test ends, and the body begins.
    pub(super) fn body_after_test(&mut self) -> Result<(), AllocError>
        ensures { OnOk result (self.new ≡ steps.while self.old self.old.stack) }
    {
        match (self.frames.top(), self.frames.second()) {
            (Some(Frame::Value { at, .. }), Some(Frame::Test { words, lets })) => {
                self.tested(at, words, lets)?;
                self.words.push(Word::While)?;
                self.open_body(2, Finish::Plain)
            }
            _ => Ok(()),
        }
    }

    /// The body ends, and the test begins.
    pub(super) fn until(&mut self) -> Result<(), AllocError>
        ensures { OnOk result (self.new ≡ steps.until self.old self.old.stack) }
    {
        match self.frames.top() {
            Some(Frame::Body { .. }) => self.test_opened(Word::Until, 1),
            _ => Ok(()),
        }
    }

    pub(super) fn end_loop(&mut self, at: usize, bound: u64) -> Result<(), AllocError>
        ensures { OnOk result (self.new ≡ steps.end_loop self.old at bound self.old.stack) }
    {
        match (self.frames.top(), self.frames.second(), self.frames.third()) {
            (Some(Frame::Body { .. }), Some(Frame::Loop { start }), _) => {
                self.words.push(Word::EndLoop { at, bound })?;
                self.close_as(2, start, at, 9)
            }
            (
                Some(Frame::Value { at: test_at, .. }),
                Some(Frame::Test { words, lets }),
                Some(Frame::Loop { start }),
            ) => {
                self.tested(test_at, words, lets)?;
                self.words.push(Word::EndLoop { at, bound })?;
                self.close_as(3, start, at, 9)
            }
            _ => Ok(()),
        }
    }
}
