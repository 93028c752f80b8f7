//! Instructions with one input.

ghost use Rattle.std.specs.Prelude.{◌≡◌, ◌<◌, ◌^◌, ◌∷◌, [], IfSome};
ghost use Rattle.tags.specs.declared.token.Port.TheVariants.{Left};
ghost use Rattle.tags.specs.declared.token.Word.{Word};
ghost use Rattle.tags.specs.declared.token.To.{To};
ghost use Rattle.semantics.specs.Rule as Rule;
ghost use Rattle.element.specs.Decoded.{instr_of, dest_in, IsShort};
ghost use Rattle.element.specs.Fired.{point_of, tokens_of, fired_by};

use super::arrays::{Element, asks_for};
use super::continuations::{answer_to, landing_at};
use super::made::{Made, Point, SIGNAL, one, to_all, to_second};
use super::outcomes::Firing;
use crate::instructions::{Instruction, Instructions};
use operators::{apply1, apply2_at};
use semantics::program::Op;
use tags::token::{FrameId, Port, To, Token, Word};
use tags::value::Value;

/// What an instruction with one input makes of its word.
#[inline(always)]
pub(super) fn fire_one<C: Instructions>(
    code: &C,
    point: Point,
    instr: &Instruction,
    word: Word,
    made: &mut Made,
) -> Firing
    requires short { IsShort (C.width code.now) point.ip instr.now }
    ensures { fired_by result (tokens_of (point_of point) made.new) ≡ Rule.fire_one (C.program code.now) (point_of point) (instr_of instr.now)
        instr.now.op word }
{
    let value = match (instr.op, word) {
        (Op::Apply1 { op }, Word::Val(value)) => apply1(op, value),
        (Op::Apply2Right { op, literal }, Word::Val(value)) => {
            apply2_at(op, value, Value::Int(literal), instr.origin())
        }
        (Op::Apply2Left { op, literal }, Word::Val(value)) => {
            apply2_at(op, Value::Int(literal), value, instr.origin())
        }
        (Op::Lit { literal }, _) => Value::Int(literal),
        (Op::Copy, _) => {
            to_all(point, word, instr, made);
            return Firing::Fired;
        }
        (Op::Fetch { array }, Word::Val(index)) => {
            asks_for(code, point, instr, Element { array, index }, made);
            return Firing::Fired;
        }
        (Op::Frame, _) => {
            one(frame_request(point, instr), made);
            return Firing::Fired;
        }
        (Op::Link { block }, Word::Frame(frame)) => {
            link(code.entry(block), frame, point, instr, made);
            return Firing::Fired;
        }
        _ => return Firing::WrongKind,
    };
    to_all(point, Word::Val(value), instr, made);
    Firing::Fired
}

/// The request for a frame.
#[inline(always)]
pub fn frame_request(point: Point, instr: &Instruction) -> Token
    requires near { point.ip < 2 ^ 30 }
    requires short { IfSome (dest_in instr.now.first) (λ d. d.ahead < 2 ^ 30) }
    ensures { result ≡ Rule.token To.Manager (Word.Back (Rule.answer_to (point_of point) (instr_of instr.now).firsts)) }
{
    Token {
        to: To::Manager,
        word: Word::Back(answer_to(point, instr)),
    }
}

// The continuation goes to the first instruction of a block in the frame.
#[inline(always)]
fn link(first: u32, frame: FrameId, point: Point, instr: &Instruction, made: &mut Made)
    requires near { point.ip < 2 ^ 30 }
    requires short { IfSome (dest_in instr.now.first) (λ d. d.ahead < 2 ^ 30) }
    ensures { tokens_of (point_of point) made.new ≡ Rule.token (To.Instr frame first Left)
        (Word.Back (Rule.landing_at (point_of point) (instr_of instr.now).firsts)) ∷ Rule.to_each (point_of point) Rule.signal (instr_of instr.now).seconds }
{
    let token = Token {
        to: To::Instr {
            frame,
            ip: first,
            port: Port::Left,
        },
        word: Word::Back(landing_at(point, instr)),
    };
    to_second(token, point, SIGNAL, instr, made);
}
