//! Instructions with two inputs, of words as they lie: a kind for each operation, so that each goes a way of its own.

ghost use Rattle.std.specs.Prelude.{◌≡◌, ◌+◌, ◌<◌, ◌^◌, [], ◌∷◌, IfSome, Some};
ghost use Rattle.tags.specs.declared.token.To.{To};
ghost use Rattle.semantics.specs.Program.{Program};
ghost use Rattle.semantics.specs.Rule as Rule;
ghost use Rattle.element.specs.Decoded.{instr_of, IsShort};
ghost use Rattle.element.specs.Fired.{point_of, passed_on, left_on, HasRoomInWord};

use super::arrays::{Indexed, index_in};
use super::continuations::answer_to;
use super::leaving::{Leaving, alone};
use super::made::Point;
use super::passing::{Passed, to_both};
use super::two_inputs::entry_at;
use crate::instructions::{Instruction, Instructions};
use operators::{apply2_at, truth};
use packed::token::PackedToken;
use packed::word::PackedWord;
use semantics::program::Op;
use tags::token::{Cont, Port, To, Token, Word};
use tags::value::Value;

/// A kind of instruction with two inputs: what it makes of its words, where it is of this kind and they are of the kinds that
/// it takes.
pub trait Pair {
    /// A word that it passes on to its own destinations.
    fn passes(instr: &Instruction, left: &PackedWord, right: &PackedWord) -> Option<Passed>
        ensures { IfSome result (λ x. (p : Program) (s : Rule.Point) → Rule.fire_two p s (instr_of instr.now) instr.now.op left.now right.now
            ≡ Some (passed_on s x)) };

    /// A token that it sends away, and signals.
    fn leave<C: Instructions>(
        code: &C,
        point: Point,
        instr: &Instruction,
        left: &PackedWord,
        right: &PackedWord,
    ) -> Option<Leaving>
        requires short { IsShort (C.width code.now) point.ip instr.now }
        requires room { HasRoomInWord left.now }
        ensures { IfSome result (λ x. Rule.fire_two (C.program code.now) (point_of point) (instr_of instr.now) instr.now.op left.now right.now
            ≡ Some (left_on (point_of point) x)) };

    /// The token that it sends after the one that releases its frame.
    #[inline(always)]
    fn release(
        point: Point,
        instr: &Instruction,
        left: &PackedWord,
        right: &PackedWord,
    ) -> Option<PackedToken>
        requires room { HasRoomInWord left.now }
        ensures { IfSome result (λ t. (p : Program) → Rule.fire_two p (point_of point) (instr_of instr.now) instr.now.op left.now right.now
            ≡ Some (Rule.token (To.Release point.frame) Rule.signal ∷ t ∷ [])) }
    {
        None
    }
}

/// An operator on two words.
pub struct Operates;

impl Pair for Operates {
    #[inline(always)]
    fn passes(instr: &Instruction, left: &PackedWord, right: &PackedWord) -> Option<Passed> {
        match (instr.op, left.as_int(), right.as_int()) {
            (Op::Apply2 { op }, Some(x), Some(y)) => {
                let value = apply2_at(op, Value::Int(x), Value::Int(y), instr.origin());
                Some(to_both(instr, PackedWord::pack(Word::Val(value))))
            }
            _ => None,
        }
    }

    #[inline(always)]
    fn leave<C: Instructions>(
        _code: &C,
        _point: Point,
        _instr: &Instruction,
        _left: &PackedWord,
        _right: &PackedWord,
    ) -> Option<Leaving> {
        None
    }
}

/// `sync`.
pub struct Syncs;

impl Pair for Syncs {
    #[inline(always)]
    fn passes(instr: &Instruction, _left: &PackedWord, _right: &PackedWord) -> Option<Passed> {
        match instr.op {
            Op::Sync => Some(to_both(instr, PackedWord::int(0))),
            _ => None,
        }
    }

    #[inline(always)]
    fn leave<C: Instructions>(
        _code: &C,
        _point: Point,
        _instr: &Instruction,
        _left: &PackedWord,
        _right: &PackedWord,
    ) -> Option<Leaving> {
        None
    }
}

/// `switch`.
pub struct Switches;

impl Pair for Switches {
    #[inline(always)]
    fn passes(instr: &Instruction, left: &PackedWord, right: &PackedWord) -> Option<Passed> {
        match (instr.op, right.as_int()) {
            (Op::Switch, Some(number)) => {
                let value = Value::Int(number);
                Some(Passed {
                    word: *left,
                    first: if truth(value) {
                        instr.first()
                    } else {
                        instr.second()
                    },
                    second: 0,
                })
            }
            _ => None,
        }
    }

    #[inline(always)]
    fn leave<C: Instructions>(
        _code: &C,
        _point: Point,
        _instr: &Instruction,
        _left: &PackedWord,
        _right: &PackedWord,
    ) -> Option<Leaving> {
        None
    }
}

/// `send`.
pub struct Sends;

impl Pair for Sends {
    #[inline(always)]
    fn passes(_instr: &Instruction, _left: &PackedWord, _right: &PackedWord) -> Option<Passed> {
        None
    }

    #[inline(always)]
    fn leave<C: Instructions>(
        code: &C,
        _point: Point,
        instr: &Instruction,
        left: &PackedWord,
        right: &PackedWord,
    ) -> Option<Leaving> {
        match (instr.op, left.unpack()) {
            (Op::Send { block, entry }, Word::Frame(frame)) => {
                let ip = entry_at(code.entry(block), entry);
                let token = PackedToken::to_instr(frame, ip, Port::Left, right);
                Some(Leaving {
                    token,
                    first: instr.first(),
                    second: instr.second(),
                })
            }
            _ => None,
        }
    }
}

/// `return`.
pub struct Returns;

impl Pair for Returns {
    #[inline(always)]
    fn passes(_instr: &Instruction, _left: &PackedWord, _right: &PackedWord) -> Option<Passed> {
        None
    }

    #[inline(always)]
    fn leave<C: Instructions>(
        _code: &C,
        _point: Point,
        instr: &Instruction,
        left: &PackedWord,
        right: &PackedWord,
    ) -> Option<Leaving> {
        match (instr.op, left.unpack(), right.unpack()) {
            (Op::Return { offset }, Word::Back(Cont::Frame { frame, ip, .. }), Word::Val(_)) => {
                let token = PackedToken::to_instr(frame, further(ip, offset), Port::Left, right);
                Some(Leaving {
                    token,
                    first: instr.first(),
                    second: instr.second(),
                })
            }
            _ => None,
        }
    }
}

// The instruction that lies so far after.
#[inline(always)]
fn further(ip: u32, offset: u8) -> u32
    requires { ip < 2 ^ 31 }
    ensures { result ≡ ip + offset }
{
    ip + u32::from(offset)
}

/// `ask`.
pub struct Asks;

impl Pair for Asks {
    #[inline(always)]
    fn passes(_instr: &Instruction, _left: &PackedWord, _right: &PackedWord) -> Option<Passed> {
        None
    }

    #[inline(always)]
    fn leave<C: Instructions>(
        _code: &C,
        point: Point,
        instr: &Instruction,
        left: &PackedWord,
        _right: &PackedWord,
    ) -> Option<Leaving> {
        let Op::Ask { offset } = instr.op else {
            return None;
        };
        match left.unpack() {
            Word::Back(Cont::Frame { frame, ip, .. }) => {
                let ip = further(ip, offset);
                let answer = PackedWord::pack(Word::Back(answer_to(point, instr)));
                let token = PackedToken::to_instr(frame, ip, Port::Left, &answer);
                Some(alone(token))
            }
            _ => None,
        }
    }
}

/// `store`.
pub struct Stores;

impl Pair for Stores {
    #[inline(always)]
    fn passes(_instr: &Instruction, _left: &PackedWord, _right: &PackedWord) -> Option<Passed> {
        None
    }

    #[inline(always)]
    fn leave<C: Instructions>(
        code: &C,
        point: Point,
        instr: &Instruction,
        left: &PackedWord,
        right: &PackedWord,
    ) -> Option<Leaving> {
        match (instr.op, left.as_int(), right.unpack()) {
            (Op::Store { array }, Some(index), Word::Val(value)) => {
                let cells = code.array(array);
                match index_in(cells.len, Value::Int(index), instr.origin()) {
                    Indexed::Outside(_) => None,
                    Indexed::Place(place) => {
                        let to = To::Store {
                            cell: cells.base + place,
                            value,
                        };
                        let word = Word::Back(answer_to(point, instr));
                        Some(alone(PackedToken::pack(Token { to, word })))
                    }
                }
            }
            _ => None,
        }
    }
}

/// `release`.
pub struct Releases;

impl Pair for Releases {
    #[inline(always)]
    fn passes(_instr: &Instruction, _left: &PackedWord, _right: &PackedWord) -> Option<Passed> {
        None
    }

    #[inline(always)]
    fn leave<C: Instructions>(
        _code: &C,
        _point: Point,
        _instr: &Instruction,
        _left: &PackedWord,
        _right: &PackedWord,
    ) -> Option<Leaving> {
        None
    }

    #[inline(always)]
    fn release(
        _point: Point,
        instr: &Instruction,
        left: &PackedWord,
        _right: &PackedWord,
    ) -> Option<PackedToken> {
        let Op::Release { offset } = instr.op else {
            return None;
        };
        match left.unpack() {
            Word::Back(Cont::Frame { frame, ip, .. }) => {
                let ip = further(ip, offset);
                let signal = PackedWord::int(0);
                Some(PackedToken::to_instr(frame, ip, Port::Left, &signal))
            }
            _ => None,
        }
    }
}
