//! Values.

ghost use Rattle.std.specs.Prelude.{◌≡◌, ◌∷◌, [], Some, true, OnOk};
ghost use Rattle.desugar.specs.Forms.{atom_words};
ghost use Rattle.desugar.specs.Steps as steps;
ghost use Rattle.desugar.specs.declared.frame.Atom.TheVariants as atom_case;
ghost use Rattle.source.specs.declared.word.Word.TheVariants as word;

use crate::forms::{bracketed, negated, push_atom, push_left_end, push_right_end, sign_level};
use crate::frame::{Atom, Frame};
use crate::maker::Maker;
use operators::{Binary, Unary};
use source::word::{InfixSign, Word};
use std::alloc::{AllocError, Allocator};

impl<A: Allocator> Maker<A> {
    /// A value that stands for itself.
    fn atom_valued(
        &mut self,
        atom: Atom<usize>,
        at: usize,
        level: u64,
        literal: bool,
    ) -> Result<(), AllocError>
        ensures { OnOk result (self.new ≡ steps.valued self.old (atom_words atom) at level (Some atom) literal) }
    {
        let start = self.words.len();
        push_atom(&mut self.words, atom)?;
        self.frames.push(Frame::Value {
            start,
            at,
            level,
            atom: Some(atom),
            literal,
        })
    }

    /// A number as it is written.
    pub(super) fn written(&mut self, at: usize, number: u64) -> Result<(), AllocError>
        ensures { OnOk result (self.new ≡ steps.valued self.old (word.Number at number ∷ []) at 9 (Some (atom_case.Number at number 0)) true) }
    {
        let atom = Atom::Number {
            at,
            number,
            brackets: 0,
        };
        self.atom_valued(atom, at, 9, true)
    }

    /// A name: a constant's value stands in its place.
    pub(super) fn named(
        &mut self,
        at: usize,
        name: usize,
        constant: Option<i64>,
    ) -> Result<(), AllocError>
        ensures { OnOk result (self.new ≡ steps.named self.old at name constant) }
    {
        match constant {
            None => self.atom_valued(Atom::Name { at, name }, at, 9, false),
            Some(value) if value >= 0 => {
                let atom = Atom::Number {
                    at,
                    number: value as u64,
                    brackets: 0,
                };
                self.atom_valued(atom, at, 9, false)
            }
            Some(value) => {
                let atom = Atom::Negative {
                    sign_at: at,
                    at,
                    number: value.unsigned_abs(),
                    brackets: 0,
                };
                self.atom_valued(atom, at, 8, false)
            }
        }
    }

    pub(super) fn bracket(&mut self) -> Result<(), AllocError>
        ensures { OnOk result (self.new ≡ steps.bracket self.old self.old.stack) }
    {
        match self.frames.top() {
            Some(
                Frame::Value {
                    start,
                    at,
                    atom,
                    ..
                },
            ) => {
                let frame = Frame::Value {
                    start,
                    at,
                    level: 9,
                    atom: bracketed(atom)?,
                    literal: false,
                };
                self.say(Word::Bracket, 1, frame)
            }
            _ => Ok(()),
        }
    }

    pub(super) fn prefix(&mut self, at: usize, op: Unary) -> Result<(), AllocError>
        ensures { OnOk result (self.new ≡ steps.prefix self.old at op self.old.stack) }
    {
        match self.frames.top() {
            Some(
                Frame::Value {
                    start,
                    atom,
                    literal,
                    ..
                },
            ) => {
                let frame = Frame::Value {
                    start,
                    at,
                    level: 8,
                    atom: negated(at, op, literal, atom),
                    literal: false,
                };
                self.say(Word::Prefix { at, op }, 1, frame)
            }
            _ => Ok(()),
        }
    }

    pub(super) fn infix_ended(&mut self, at: usize, sign: InfixSign) -> Result<(), AllocError>
        ensures { OnOk result (self.new ≡ steps.infix_ended self.old at sign self.old.stack) }
    {
        match (self.frames.top(), self.frames.second()) {
            (Some(Frame::Value { .. }), Some(Frame::Value { start, .. })) => {
                self.words.push(Word::Infix { at, sign })?;
                self.close_as(2, start, at, sign_level(sign))
            }
            _ => Ok(()),
        }
    }

    pub(super) fn not_ended(&mut self, at: usize) -> Result<(), AllocError>
        ensures { OnOk result (self.new ≡ steps.not_ended self.old at self.old.stack) }
    {
        match self.frames.top() {
            Some(Frame::Value { start, level, .. }) => {
                push_left_end(&mut self.words, Binary::Eq, level)?;
                self.words.push(Word::Number { at, number: 0 })?;
                push_right_end(&mut self.words, at, Binary::Eq, 9)?;
                self.close_as(1, start, at, 1)
            }
            _ => Ok(()),
        }
    }
}
