//! Requests for the elements of arrays.

ghost use Rattle.std.specs.Prelude.{◌≡◌};
ghost use Rattle.operators.specs.Values as Values;
ghost use Rattle.semantics.specs.Rule as Rule;
ghost use Rattle.element.specs.Decoded.{instr_of, origin_in, IsShort};
ghost use Rattle.element.specs.Fired.{point_of, tokens_of, indexed_of, IsWithin};

use super::continuations::answer_to;
use super::made::{Made, Point, one, to_first};
use crate::instructions::{Instruction, Instructions};
use tags::token::{To, Token, Word};
use tags::value::{FaultKind, Origin, Value};

/// An element of an array, as an instruction names it.
#[derive(Clone, Copy, Debug, PartialEq, Eq)]
pub struct Element {
    pub array: u8,
    pub index: Value,
}

/// What an index names in an array.
#[derive(Clone, Copy, Debug, PartialEq, Eq)]
pub enum Indexed {
    Place(u32),
    /// There is no such place: the fault that stands for the element.
    Outside(Value),
}

#[inline(always)]
pub(super) fn index_in(len: u32, index: Value, origin: Origin) -> Indexed
    ensures exact { indexed_of result ≡ Values.index_in len index origin }
    ensures within { IsWithin len result }
{
    match index {
        Value::Int(number) => {
            if 0 <= number && number < i64::from(len) {
                Indexed::Place(number as u32)
            } else {
                Indexed::Outside(Value::Fault {
                    kind: FaultKind::Range,
                    origin,
                })
            }
        }
        Value::Fault { .. } => Indexed::Outside(index),
    }
}

// The request for an element of an array, or the fault where there is none.
#[inline(always)]
pub(super) fn asks_for<C: Instructions>(
    code: &C,
    point: Point,
    instr: &Instruction,
    element: Element,
    made: &mut Made,
)
    requires short { IsShort (C.width code.now) point.ip instr.now }
    ensures { tokens_of (point_of point) made.new ≡ Rule.asks_for (C.program code.now) (point_of point) (instr_of instr.now) element.array
        (Values.index_in (Rule.array_len (C.program code.now) element.array) element.index (origin_in instr.now.origin)) }
{
    let cells = code.array(element.array);
    match index_in(cells.len, element.index, instr.origin()) {
        Indexed::Place(place) => one(
            Token {
                to: To::Fetch {
                    cell: cells.base + place,
                },
                word: Word::Back(answer_to(point, instr)),
            },
            made,
        ),
        Indexed::Outside(fault) => to_first(point, Word::Val(fault), instr, made),
    }
}

// The request to store a value in an array, or the fault where there is no such element.
#[inline(always)]
pub(super) fn puts<C: Instructions>(
    code: &C,
    point: Point,
    instr: &Instruction,
    element: Element,
    value: Value,
    made: &mut Made,
)
    requires short { IsShort (C.width code.now) point.ip instr.now }
    ensures { tokens_of (point_of point) made.new ≡ Rule.puts (C.program code.now) (point_of point) (instr_of instr.now) element.array value
        (Values.index_in (Rule.array_len (C.program code.now) element.array) element.index (origin_in instr.now.origin)) }
{
    let cells = code.array(element.array);
    match index_in(cells.len, element.index, instr.origin()) {
        Indexed::Place(place) => one(
            Token {
                to: To::Store {
                    cell: cells.base + place,
                    value,
                },
                word: Word::Back(answer_to(point, instr)),
            },
            made,
        ),
        Indexed::Outside(fault) => to_first(point, Word::Val(fault), instr, made),
    }
}
