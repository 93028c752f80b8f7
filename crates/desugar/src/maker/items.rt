//! Items.

ghost use Rattle.std.specs.Prelude.{◌≡◌, ◌∷◌, ◌++◌, [], OnOk, length};
ghost use Rattle.source.specs.declared.word.Word.TheVariants as word;
ghost use Rattle.desugar.specs.Code.{numbers};
ghost use Rattle.desugar.specs.Steps as steps;
ghost use Rattle.desugar.specs.declared.frame.Finish.TheVariants as finish;
ghost use Rattle.desugar.specs.declared.frame.Frame.TheVariants as frame;

use crate::frame::{Finish, Frame};
use crate::maker::Maker;
use crate::meanings::Meanings;
use source::word::Word;
use std::alloc::{AllocError, Allocator};

impl<A: Allocator> Maker<A> {
    /// A word that is only said.
    pub(super) fn said(&mut self, word: Word<usize>) -> Result<(), AllocError>
        ensures { OnOk result (self.new ≡ steps.said self.old (word ∷ []) self.old.stack) }
    {
        self.words.push(word)?;
        Ok(())
    }

    pub(super) fn array_opened(&mut self, at: usize, array: usize) -> Result<(), AllocError>
        ensures { OnOk result (self.new ≡ steps.said self.old (word.Array at array ∷ []) (frame.Cells (length (self.old.words ++ word.Array at array ∷ [])) (length self.old.lets) array 0 ∷ self.old.stack)) }
    {
        self.words.push(Word::Array { at, name: array })?;
        let words = self.words.len();
        let lets = self.lets.len();
        self.frames.push(Frame::Cells {
            words,
            lets,
            array,
            last: 0,
        })
    }

    /// The lengths of an array end: it has so many cells.
    pub(super) fn end_array<'a>(&mut self, names: &Meanings<'a, A>) -> Result<(), AllocError>
        ensures { OnOk result (self.new ≡ steps.end_array (numbers names.now.table.now.entries names.now.count) self.old self.old.stack) }
    {
        match self.frames.top() {
            Some(
                Frame::Cells {
                    words,
                    lets,
                    array,
                    last,
                },
            ) => {
                let len = names.cells(array)?;
                self.words.truncate(words);
                self.words.push(Word::Length { at: last, len })?;
                self.lets.truncate(lets);
                self.frames.close(1);
                Ok(())
            }
            _ => Ok(()),
        }
    }

    pub(super) fn constant_opened(&mut self) -> Result<(), AllocError>
        ensures { OnOk result (self.new ≡ record self.old { stack = frame.Constant (length self.old.words) (length self.old.lets) ∷ self.old.stack }) }
    {
        let words = self.words.len();
        let lets = self.lets.len();
        self.frames.push(Frame::Constant { words, lets })
    }

    /// The value of a constant ends, whose words are cut off.
    pub(super) fn end_constant(&mut self) -> Result<(), AllocError>
        ensures { OnOk result (self.new ≡ steps.end_constant self.old self.old.stack) }
    {
        match (self.frames.top(), self.frames.second()) {
            (Some(Frame::Value { .. }), Some(Frame::Constant { words, lets })) => {
                self.words.truncate(words);
                self.lets.truncate(lets);
                self.frames.close(2);
                Ok(())
            }
            _ => Ok(()),
        }
    }

    /// The body of a function begins, which has no hidden names yet.
    pub(super) fn function_opened(&mut self, at: usize) -> Result<(), AllocError>
        ensures { OnOk result (self.new ≡ steps.body_opened (record self.old { given = 0 }) (word.Body at ∷ []) finish.Plain self.old.stack) }
    {
        self.given = 0;
        self.words.push(Word::Body { at })?;
        self.open_body(0, Finish::Plain)
    }

    pub(super) fn end_function(&mut self) -> Result<(), AllocError>
        ensures { OnOk result (self.new ≡ steps.end_function self.old self.old.stack) }
    {
        match self.frames.top() {
            Some(Frame::Body { .. }) => {
                self.words.push(Word::EndFunction)?;
                self.frames.close(1);
                Ok(())
            }
            _ => Ok(()),
        }
    }
}
