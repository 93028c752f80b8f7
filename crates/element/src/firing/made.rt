//! The tokens that an instruction makes.

ghost use Rattle.std.specs.Prelude.{◌≡◌, ◌++◌, ◌∷◌, [], option_to_list, take};
ghost use Rattle.semantics.specs.Rule as Rule;
ghost use Rattle.element.specs.Decoded.{instr_of};
ghost use Rattle.element.specs.Fired.{point_of, tokens_of};

use crate::instructions::Instruction;
use tags::token::{FrameId, Token, Word};
use tags::value::Value;

/// Where an instruction is: its frame, and its number.
#[derive(Clone, Copy, Debug, PartialEq, Eq)]
pub struct Point {
    pub frame: FrameId,
    pub ip: u32,
}

/// The tokens that an instruction makes, at most four, in order: the release of a frame, a token that leaves, and a word
/// to each of two destinations, which are the half words of the instruction, or 0.
#[derive(Clone, Copy, Debug, PartialEq, Eq)]
pub struct Made {
    pub released: Option<FrameId>,
    pub outside: Option<Token>,
    pub word: Word,
    pub first: u32,
    pub second: u32,
}

/// A word that only says that something happened.
pub const SIGNAL: Word = Word::Val(Value::Int(0));

/// No tokens.
pub const NONE: Made = Made {
    released: None,
    outside: None,
    word: SIGNAL,
    first: 0,
    second: 0,
};

#[inline(always)]
pub(super) fn one(token: Token, made: &mut Made)
    ensures { (s : Rule.Point) → tokens_of s made.new ≡ token ∷ [] }
{
    made.released = None;
    made.outside = Some(token);
    made.first = 0;
    made.second = 0;
}

#[inline(always)]
pub(super) fn nothing(made: &mut Made)
    ensures { (s : Rule.Point) → tokens_of s made.new ≡ [] }
{
    made.released = None;
    made.outside = None;
    made.first = 0;
    made.second = 0;
}

// One token or none, and then a word to each destination.
#[inline(always)]
fn before_all(
    outside: Option<Token>,
    point: Point,
    word: Word,
    instr: &Instruction,
    made: &mut Made,
)
    ensures { tokens_of (point_of point) made.new ≡ option_to_list outside ++ Rule.to_all (point_of point) word (instr_of instr.now) }
{
    made.released = None;
    made.outside = outside;
    made.word = word;
    made.first = instr.first();
    made.second = instr.second();
}

#[inline(always)]
pub(super) fn to_all(point: Point, word: Word, instr: &Instruction, made: &mut Made)
    ensures { tokens_of (point_of point) made.new ≡ Rule.to_all (point_of point) word (instr_of instr.now) }
{
    before_all(None, point, word, instr, made);
}

#[inline(always)]
pub(super) fn to_first(point: Point, word: Word, instr: &Instruction, made: &mut Made)
    ensures { tokens_of (point_of point) made.new ≡ Rule.to_each (point_of point) word (take 1 (instr_of instr.now).firsts) }
{
    made.released = None;
    made.outside = None;
    made.word = word;
    made.first = instr.first();
    made.second = 0;
}

#[inline(always)]
pub(super) fn to_second(
    outside: Token,
    point: Point,
    word: Word,
    instr: &Instruction,
    made: &mut Made,
)
    ensures { tokens_of (point_of point) made.new ≡ outside ∷ Rule.to_each (point_of point) word (instr_of instr.now).seconds }
{
    made.released = None;
    made.outside = Some(outside);
    made.word = word;
    made.first = 0;
    made.second = instr.second();
}

// A token, and then a signal to each destination.
#[inline(always)]
pub(super) fn and_signals(token: Token, point: Point, instr: &Instruction, made: &mut Made)
    ensures { tokens_of (point_of point) made.new ≡ token ∷ Rule.to_all (point_of point) Rule.signal (instr_of instr.now) }
{
    before_all(Some(token), point, SIGNAL, instr, made);
}
