//! Cells, calls and the parts of lists.

ghost use Rattle.std.specs.Prelude.{◌≡◌, OnOk};
ghost use Rattle.desugar.specs.Steps as steps;

use crate::frame::Frame;
use crate::maker::Maker;
use source::word::Word;
use std::alloc::{AllocError, Allocator};

impl<A: Allocator> Maker<A> {
    /// A cell, or a call, begins with this word.
    pub(super) fn opened(&mut self, word: Word<usize>) -> Result<(), AllocError>
        ensures { OnOk result (self.new ≡ steps.opened self.old word) }
    {
        let start = self.words.len();
        self.words.push(word)?;
        self.frames.push(Frame::List { start })
    }

    /// The value of an index, or of a part, ends with this word.
    pub(super) fn passed(&mut self, word: Word<usize>) -> Result<(), AllocError>
        ensures { OnOk result (self.new ≡ steps.passed self.old word self.old.stack) }
    {
        match self.frames.top() {
            Some(Frame::Value { .. }) => {
                self.words.push(word)?;
                self.frames.close(1);
                Ok(())
            }
            _ => Ok(()),
        }
    }

    /// A fetch, or a store, ends with this word.
    pub(super) fn cell_ended(
        &mut self,
        word: Word<usize>,
        at: usize,
        level: u64,
    ) -> Result<(), AllocError>
        ensures { OnOk result (self.new ≡ steps.cell_ended self.old word at level self.old.stack) }
    {
        match (self.frames.top(), self.frames.second()) {
            (Some(Frame::Value { .. }), Some(Frame::List { start })) => {
                self.words.push(word)?;
                self.close_as(2, start, at, level)
            }
            _ => Ok(()),
        }
    }

    /// A call ends with this word.
    pub(super) fn call_ended(&mut self, word: Word<usize>, at: usize) -> Result<(), AllocError>
        ensures { OnOk result (self.new ≡ steps.call_ended self.old word at self.old.stack) }
    {
        match self.frames.top() {
            Some(Frame::List { start }) => {
                self.words.push(word)?;
                self.close_as(1, start, at, 9)
            }
            _ => Ok(()),
        }
    }

    /// The length of an array ends, of which only the place is kept.
    fn length_passed(&mut self) -> Result<(), AllocError>
        ensures { OnOk result (self.new ≡ steps.length_passed self.old self.old.stack) }
    {
        match (self.frames.top(), self.frames.second()) {
            (
                Some(Frame::Value { at, .. }),
                Some(
                    Frame::Cells {
                        words,
                        lets,
                        array,
                        ..
                    },
                ),
            ) => self.frames.replace(
                2,
                Frame::Cells {
                    words,
                    lets,
                    array,
                    last: at,
                },
            ),
            _ => Ok(()),
        }
    }

    /// A part of a list ends. `is_length` says whether it is a length of an array.
    pub(super) fn part(&mut self, is_length: bool) -> Result<(), AllocError>
        ensures { OnOk result (self.new ≡ steps.part self.old is_length) }
    {
        if is_length {
            self.length_passed()
        } else {
            self.passed(Word::Part)
        }
    }
}
