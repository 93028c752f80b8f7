//! Instructions that pass a word on to their destinations, and make nothing else.

ghost use Rattle.std.specs.Prelude.{◌≡◌, IfSome};
ghost use Rattle.semantics.specs.Rule as Rule;
ghost use Rattle.element.specs.Decoded.{instr_of};
ghost use Rattle.element.specs.Fired.{passed_on};
ghost use Rattle.semantics.specs.Program.{Program};

use crate::instructions::Instruction;
use operators::{apply1, apply2_at};
use packed::word::PackedWord;
use semantics::program::Op;
use tags::token::Word;
use tags::value::Value;

/// A word that goes to destinations of its own frame, which are half words of the instruction, or 0.
#[derive(Clone, Copy)]
pub struct Passed {
    pub word: PackedWord,
    pub first: u32,
    pub second: u32,
}

/// A kind of instruction with one input that passes a word on.
pub trait Passes {
    /// What it passes on to its destinations, where it is of this kind and has no use of its word, or the word is an integer.
    fn passes(instr: &Instruction, word: &PackedWord) -> Option<Passed>
        ensures { IfSome result (λ x. (p : Program) (s : Rule.Point) → Rule.fire_one p s (instr_of instr.now) instr.now.op word.now ≡ Some (passed_on s x)) };
}

/// An operator on one value.
pub struct Computes;

impl Passes for Computes {
    #[inline(always)]
    fn passes(instr: &Instruction, word: &PackedWord) -> Option<Passed> {
        match (instr.op, word.as_int()) {
            (Op::Apply1 { op }, Some(number)) => {
                let value = apply1(op, Value::Int(number));
                Some(to_both(instr, PackedWord::pack(Word::Val(value))))
            }
            _ => None,
        }
    }
}

/// An operator with a literal on the right.
pub struct AppliesRight;

impl Passes for AppliesRight {
    #[inline(always)]
    fn passes(instr: &Instruction, word: &PackedWord) -> Option<Passed> {
        match (instr.op, word.as_int()) {
            (Op::Apply2Right { op, literal }, Some(number)) => {
                let right = Value::Int(literal);
                let value = apply2_at(op, Value::Int(number), right, instr.origin());
                Some(to_both(instr, PackedWord::pack(Word::Val(value))))
            }
            _ => None,
        }
    }
}

/// An operator with a literal on the left.
pub struct AppliesLeft;

impl Passes for AppliesLeft {
    #[inline(always)]
    fn passes(instr: &Instruction, word: &PackedWord) -> Option<Passed> {
        match (instr.op, word.as_int()) {
            (Op::Apply2Left { op, literal }, Some(number)) => {
                let left = Value::Int(literal);
                let value = apply2_at(op, left, Value::Int(number), instr.origin());
                Some(to_both(instr, PackedWord::pack(Word::Val(value))))
            }
            _ => None,
        }
    }
}

/// `lit`.
pub struct Literals;

impl Passes for Literals {
    #[inline(always)]
    fn passes(instr: &Instruction, _word: &PackedWord) -> Option<Passed> {
        match instr.op {
            Op::Lit { literal } => Some(to_both(instr, PackedWord::int(literal))),
            _ => None,
        }
    }
}

/// `copy`.
pub struct Copies;

impl Passes for Copies {
    #[inline(always)]
    fn passes(instr: &Instruction, word: &PackedWord) -> Option<Passed> {
        match instr.op {
            Op::Copy => Some(to_both(instr, *word)),
            _ => None,
        }
    }
}

/// A word to both destinations.
#[inline(always)]
pub(super) fn to_both(instr: &Instruction, word: PackedWord) -> Passed
    ensures { (s : Rule.Point) → passed_on s result ≡ Rule.to_all s word (instr_of instr.now) }
{
    Passed {
        word,
        first: instr.first(),
        second: instr.second(),
    }
}
