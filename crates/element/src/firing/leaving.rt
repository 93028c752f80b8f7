//! Instructions that send a token away: into another frame, or to a cell.

ghost use Rattle.std.specs.Prelude.{◌≡◌, [], ◌∷◌, IfSome, Some};
ghost use Rattle.semantics.specs.Rule as Rule;
ghost use Rattle.element.specs.Decoded.{instr_of, IsShort};
ghost use Rattle.element.specs.Fired.{point_of, left_on};

use super::arrays::{Indexed, index_in};
use super::continuations::{answer_to, landing_at};
use super::made::Point;
use crate::instructions::{Instruction, Instructions};
use packed::token::PackedToken;
use packed::word::PackedWord;
use semantics::program::Op;
use tags::token::{Port, To, Token, Word};
use tags::value::Value;

/// What an instruction makes that sends a token away: the token, and then signals to destinations of the own frame, which are half
/// words of the instruction, or 0.
#[derive(Clone, Copy)]
pub struct Leaving {
    pub token: PackedToken,
    pub first: u32,
    pub second: u32,
}

/// A token that is sent away, and no signals.
#[inline(always)]
pub(super) fn alone(token: PackedToken) -> Leaving
    ensures { (s : Rule.Point) → left_on s result ≡ token ∷ [] }
{
    Leaving {
        token,
        first: 0,
        second: 0,
    }
}

/// A kind of instruction with one input that sends a token away.
pub trait Leaves {
    /// What it makes of its word, where it is of this kind and the word is of the kind that it takes.
    fn leave<C: Instructions>(
        code: &C,
        point: Point,
        instr: &Instruction,
        word: &PackedWord,
    ) -> Option<Leaving>
        requires short { IsShort (C.width code.now) point.ip instr.now }
        ensures { IfSome result (λ x. Rule.fire_one (C.program code.now) (point_of point) (instr_of instr.now) instr.now.op word.now
            ≡ Some (left_on (point_of point) x)) };
}

/// `link`.
pub struct Links;

impl Leaves for Links {
    #[inline(always)]
    fn leave<C: Instructions>(
        code: &C,
        point: Point,
        instr: &Instruction,
        word: &PackedWord,
    ) -> Option<Leaving> {
        match (instr.op, word.unpack()) {
            (Op::Link { block }, Word::Frame(frame)) => {
                let landing = PackedWord::pack(Word::Back(landing_at(point, instr)));
                let token = PackedToken::to_instr(frame, code.entry(block), Port::Left, &landing);
                Some(Leaving {
                    token,
                    first: 0,
                    second: instr.second(),
                })
            }
            _ => None,
        }
    }
}

/// `fetch`.
pub struct Fetches;

impl Leaves for Fetches {
    #[inline(always)]
    fn leave<C: Instructions>(
        code: &C,
        point: Point,
        instr: &Instruction,
        word: &PackedWord,
    ) -> Option<Leaving> {
        match (instr.op, word.as_int()) {
            (Op::Fetch { array }, Some(index)) => {
                let cells = code.array(array);
                match index_in(cells.len, Value::Int(index), instr.origin()) {
                    Indexed::Outside(_) => None,
                    Indexed::Place(place) => {
                        let to = To::Fetch {
                            cell: cells.base + place,
                        };
                        let word = Word::Back(answer_to(point, instr));
                        Some(alone(PackedToken::pack(Token { to, word })))
                    }
                }
            }
            _ => None,
        }
    }
}
