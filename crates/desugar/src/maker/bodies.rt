//! Bodies and their statements.

ghost use Rattle.std.specs.Prelude.{◌≡◌, ◌∷◌, [], OnOk, drop};
ghost use Rattle.source.specs.declared.word.Word.TheVariants as word;
ghost use Rattle.desugar.specs.Forms.{atom_words, giving};
ghost use Rattle.desugar.specs.declared.frame.Finish.TheVariants as finish;
ghost use Rattle.desugar.specs.Steps as steps;

use crate::forms::{push_atom, push_given_end, push_giving};
use crate::frame::{Atom, Finish, Frame};
use crate::maker::{Maker, open_gap, settle, since};
use source::word::Word;
use std::alloc::{AllocError, Allocator};

impl<A: Allocator> Maker<A> {
    /// After a statement another one begins, in place of so many parts.
    fn next_statement(
        &mut self,
        closed: usize,
        lets: usize,
        finish: Finish<usize>,
    ) -> Result<(), AllocError>
        ensures { OnOk result (self.new ≡ steps.next_statement self.old lets finish (drop closed self.old.stack)) }
    {
        let words = self.words.len();
        self.frames.replace(
            closed,
            Frame::Body {
                words,
                lets,
                finish,
            },
        )
    }

    /// A statement ends with these words.
    pub(super) fn statement_ended(&mut self, ending: &[Word<usize>]) -> Result<(), AllocError>
        ensures { OnOk result (self.new ≡ steps.statement_ended self.old ending.now self.old.stack) }
    {
        match self.frames.top() {
            Some(
                Frame::Body {
                    words,
                    lets,
                    finish,
                },
            ) => {
                settle(&mut self.words, &mut self.lets, &mut self.held, words, lets)?;
                self.words.extend_from_slice(ending)?;
                self.next_statement(1, lets, finish)
            }
            _ => Ok(()),
        }
    }

    /// The statement ends that an `if` without an `else` is.
    pub(super) fn when_ended(&mut self) -> Result<(), AllocError>
        ensures { OnOk result (self.new ≡ steps.when_ended self.old self.old.stack) }
    {
        match (self.frames.top(), self.frames.second()) {
            (Some(Frame::Value { .. }), Some(Frame::Body { .. })) => {
                self.frames.close(1);
                self.statement_ended(&[Word::Part, Word::Do])
            }
            _ => Ok(()),
        }
    }

    /// A body ends whose last statement gives its own values.
    fn finished_plain(&mut self, words: usize, lets: usize) -> Result<(), AllocError>
        ensures { OnOk result (self.new ≡ steps.settled self.old words lets [] [] (word.Give ∷ []) self.old.stack) }
    {
        settle(&mut self.words, &mut self.lets, &mut self.held, words, lets)?;
        self.words.push(Word::Give)?;
        Ok(())
    }

    /// A body ends whose last statement is only done.
    fn finished_giving(
        &mut self,
        words: usize,
        lets: usize,
        value: Atom<usize>,
    ) -> Result<(), AllocError>
        ensures { OnOk result (self.new ≡ steps.settled self.old words lets [] [] (word.Do ∷ giving (atom_words value)) self.old.stack) }
    {
        settle(&mut self.words, &mut self.lets, &mut self.held, words, lets)?;
        self.words.push(Word::Do)?;
        push_giving(&mut self.words, value)
    }

    /// A body ends that gives a value before those of its last statement.
    fn finished_first(
        &mut self,
        words: usize,
        lets: usize,
        value: Atom<usize>,
    ) -> Result<(), AllocError>
        ensures { OnOk result (self.new ≡ steps.finished self.old words lets (finish.First value) self.old.stack) }
    {
        open_gap(
            &mut self.words,
            &mut self.lets,
            &mut self.held,
            words,
            lets,
            &[],
        )?;
        self.words.push(Word::List)?;
        push_atom(&mut self.words, value)?;
        self.words.push(Word::Part)?;
        self.words.extend_from_slice(since(&self.held, 1))?;
        self.words.push(Word::Give)?;
        Ok(())
    }

    /// With what the body gives.
    fn finished(
        &mut self,
        words: usize,
        lets: usize,
        finish: Finish<usize>,
    ) -> Result<(), AllocError>
        ensures { OnOk result (self.new ≡ steps.finished self.old words lets finish self.old.stack) }
    {
        match finish {
            Finish::Plain => self.finished_plain(words, lets),
            Finish::Giving { value } => self.finished_giving(words, lets, value),
            Finish::First { value } => self.finished_first(words, lets, value),
        }
    }

    /// The body gives its values.
    pub(super) fn given(&mut self) -> Result<(), AllocError>
        ensures { OnOk result (self.new ≡ steps.given self.old self.old.stack) }
    {
        match self.frames.top() {
            Some(
                Frame::Body {
                    words,
                    lets,
                    finish,
                },
            ) => {
                self.finished(words, lets, finish)?;
                self.next_statement(1, lets, finish)
            }
            _ => Ok(()),
        }
    }

    /// An `if` after an `else` ends: without braces, where it needs no `let`.
    pub(super) fn chained(&mut self, words: usize, lets: usize) -> Result<(), AllocError>
        ensures { OnOk result (self.new ≡ steps.chained self.old words lets self.old.stack (drop lets self.old.lets)) }
    {
        if self.lets.len() <= lets {
            self.words.push(Word::Chain)?;
            return Ok(());
        }
        open_gap(
            &mut self.words,
            &mut self.lets,
            &mut self.held,
            words,
            lets,
            &[],
        )?;
        self.words.push(Word::List)?;
        self.words.extend_from_slice(&self.held)?;
        push_given_end(&mut self.words)
    }

    pub(super) fn chain(&mut self) -> Result<(), AllocError>
        ensures { OnOk result (self.new ≡ steps.chain self.old self.old.stack) }
    {
        match (self.frames.top(), self.frames.second()) {
            (
                Some(Frame::Value { .. }),
                Some(
                    Frame::Body {
                        words,
                        lets,
                        finish,
                    },
                ),
            ) => {
                self.chained(words, lets)?;
                self.next_statement(2, lets, finish)
            }
            _ => Ok(()),
        }
    }
}
