//! `and` and `or`.

ghost use Rattle.std.specs.Prelude.{◌≡◌, ◌∷◌, ◌++◌, [], OnOk, drop};
ghost use Rattle.desugar.specs.Code.{numbers};
ghost use Rattle.desugar.specs.Forms as forms;
ghost use Rattle.desugar.specs.Steps as steps;

use crate::forms::{
    atom_level, push_atom, push_given_end, push_giving, push_left_end, push_or_else, push_right_end,
};
use crate::frame::{Atom, Frame};
use crate::maker::{Maker, open_gap};
use crate::meanings::Meanings;
use operators::Binary;
use source::word::Word;
use std::alloc::{AllocError, Allocator};

impl<A: Allocator> Maker<A> {
    /// The right operand of `and` begins in place of the left one, which is asked for more than its truth where `left` is there.
    fn and_opened(&mut self, start: usize, left: Option<Atom<usize>>) -> Result<(), AllocError>
        ensures { OnOk result (self.new ≡ steps.and_opened self.old start left [] (drop 1 self.old.stack)) }
    {
        let words = self.words.len();
        let lets = self.lets.len();
        self.frames.replace(
            1,
            Frame::And {
                start,
                words,
                lets,
                left,
            },
        )
    }

    /// `truth` says whether only the truth of both operands is asked.
    pub(super) fn and_then<'a>(
        &mut self,
        names: &Meanings<'a, A>,
        truth: bool,
    ) -> Result<(), AllocError>
        ensures { OnOk result (self.new ≡ steps.and_then (numbers names.now.table.now.entries names.now.count) self.old truth self.old.stack) }
    {
        match self.frames.top() {
            Some(Frame::Value { start, .. }) if truth => {
                self.words.push(Word::Then)?;
                self.and_opened(start, None)
            }
            Some(
                Frame::Value {
                    start,
                    at,
                    atom,
                    ..
                },
            ) => {
                let left = self.cut(names, start, at, atom)?;
                push_atom(&mut self.words, left)?;
                self.words.push(Word::Then)?;
                self.and_opened(start, Some(left))
            }
            _ => Ok(()),
        }
    }

    /// What is given where the left operand of `and` is not true.
    fn left_or_zero(&mut self, at: usize, left: Option<Atom<usize>>) -> Result<(), AllocError>
        ensures { OnOk result (self.new ≡ steps.said self.old (forms.or_else at (steps.left_or_zero at left)) self.old.stack) }
    {
        let zero = Atom::Number {
            at,
            number: 0,
            brackets: 0,
        };
        push_or_else(&mut self.words, at, left.unwrap_or(zero))
    }

    pub(super) fn end_and(&mut self, at: usize) -> Result<(), AllocError>
        ensures { OnOk result (self.new ≡ steps.end_and self.old at self.old.stack) }
    {
        match (self.frames.top(), self.frames.second()) {
            (
                Some(Frame::Value { .. }),
                Some(
                    Frame::And {
                        start,
                        words,
                        lets,
                        left,
                    },
                ),
            ) => {
                open_gap(
                    &mut self.words,
                    &mut self.lets,
                    &mut self.held,
                    words,
                    lets,
                    &[],
                )?;
                self.words.push(Word::List)?;
                self.words.extend_from_slice(&self.held)?;
                push_given_end(&mut self.words)?;
                self.left_or_zero(at, left)?;
                self.close_as(2, start, at, 9)
            }
            _ => Ok(()),
        }
    }

    pub(super) fn or_then<'a>(&mut self, names: &Meanings<'a, A>) -> Result<(), AllocError>
        ensures { OnOk result (self.new ≡ steps.or_then (numbers names.now.table.now.entries names.now.count) self.old self.old.stack) }
    {
        match self.frames.top() {
            Some(
                Frame::Value {
                    start,
                    at,
                    atom,
                    ..
                },
            ) => {
                let left = self.cut(names, start, at, atom)?;
                push_atom(&mut self.words, left)?;
                self.words.push(Word::Then)?;
                push_giving(&mut self.words, left)?;
                self.words.push(Word::Else)?;
                let words = self.words.len();
                let lets = self.lets.len();
                self.frames.replace(
                    1,
                    Frame::Or {
                        start,
                        words,
                        lets,
                        left,
                    },
                )
            }
            _ => Ok(()),
        }
    }

    pub(super) fn end_or(&mut self, at: usize) -> Result<(), AllocError>
        ensures { OnOk result (self.new ≡ steps.end_or self.old at self.old.stack) }
    {
        match (self.frames.top(), self.frames.second()) {
            (
                Some(Frame::Value { level, .. }),
                Some(
                    Frame::Or {
                        start,
                        words,
                        lets,
                        left,
                    },
                ),
            ) => {
                open_gap(
                    &mut self.words,
                    &mut self.lets,
                    &mut self.held,
                    words,
                    lets,
                    &[],
                )?;
                self.words.push(Word::List)?;
                push_atom(&mut self.words, left)?;
                push_left_end(&mut self.words, Binary::Or, atom_level(left))?;
                self.words.extend_from_slice(&self.held)?;
                push_right_end(&mut self.words, at, Binary::Or, level)?;
                push_given_end(&mut self.words)?;
                self.words.push(Word::EndIf { at })?;
                self.close_as(2, start, at, 9)
            }
            _ => Ok(()),
        }
    }
}
