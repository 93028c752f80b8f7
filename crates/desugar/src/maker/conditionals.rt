//! Conditionals.

ghost use Rattle.std.specs.Prelude.{◌≡◌, OnOk, drop};
ghost use Rattle.desugar.specs.Code.{numbers};
ghost use Rattle.desugar.specs.Steps as steps;

use crate::forms::{push_atom, push_or_else};
use crate::frame::{Atom, Finish, Frame};
use crate::maker::Maker;
use crate::meanings::Meanings;
use source::word::Word;
use std::alloc::{AllocError, Allocator};

impl<A: Allocator> Maker<A> {
    /// The arm begins of an `if` without a last `else`.
    fn when_opened(&mut self, start: usize, test: Atom<usize>) -> Result<(), AllocError>
        ensures { OnOk result (self.new ≡ steps.when_opened self.old start test (drop 1 self.old.stack)) }
    {
        push_atom(&mut self.words, test)?;
        self.words.push(Word::Then)?;
        self.frames.replace(1, Frame::When { start, test })?;
        self.open_body(0, Finish::Giving { value: test })
    }

    /// The first arm begins. `is_when` says whether there is no last `else`.
    pub(super) fn first_arm<'a>(
        &mut self,
        names: &Meanings<'a, A>,
        is_when: bool,
    ) -> Result<(), AllocError>
        ensures { OnOk result (self.new ≡ steps.first_arm (numbers names.now.table.now.entries names.now.count) self.old is_when self.old.stack) }
    {
        match self.frames.top() {
            Some(
                Frame::Value {
                    start,
                    at,
                    atom,
                    ..
                },
            ) if is_when => {
                let test = self.cut(names, start, at, atom)?;
                self.when_opened(start, test)
            }
            Some(Frame::Value { start, .. }) => {
                self.words.push(Word::Then)?;
                self.frames.replace(1, Frame::If { start })?;
                self.open_body(0, Finish::Plain)
            }
            _ => Ok(()),
        }
    }

    /// What is after the first arm begins: another arm, or a chain of them.
    pub(super) fn second_arm(&mut self) -> Result<(), AllocError>
        ensures { OnOk result (self.new ≡ steps.second_arm self.old self.old.stack) }
    {
        match (self.frames.top(), self.frames.second()) {
            (Some(Frame::Body { .. }), Some(Frame::If { .. })) => {
                self.words.push(Word::Else)?;
                self.open_body(1, Finish::Plain)
            }
            (Some(Frame::Body { .. }), Some(Frame::When { start, .. })) => {
                self.words.push(Word::Else)?;
                let words = self.words.len();
                let lets = self.lets.len();
                self.frames.replace(2, Frame::Chain { start, words, lets })
            }
            _ => Ok(()),
        }
    }

    pub(super) fn end_if(&mut self, at: usize) -> Result<(), AllocError>
        ensures { OnOk result (self.new ≡ steps.end_if self.old at self.old.stack) }
    {
        match (self.frames.top(), self.frames.second()) {
            (Some(Frame::Body { .. }), Some(Frame::If { start })) => {
                self.words.push(Word::EndIf { at })?;
                self.close_as(2, start, at, 9)
            }
            _ => Ok(()),
        }
    }

    pub(super) fn end_when(&mut self, at: usize) -> Result<(), AllocError>
        ensures { OnOk result (self.new ≡ steps.end_when self.old at self.old.stack) }
    {
        match (self.frames.top(), self.frames.second()) {
            (Some(Frame::Body { .. }), Some(Frame::When { start, test })) => {
                push_or_else(&mut self.words, at, test)?;
                self.close_as(2, start, at, 9)
            }
            (Some(Frame::Value { .. }), Some(Frame::Chain { start, words, lets })) => {
                self.chained(words, lets)?;
                self.words.push(Word::EndIf { at })?;
                self.close_as(2, start, at, 9)
            }
            _ => Ok(()),
        }
    }
}
