//! Instructions with two inputs.

ghost use Rattle.std.specs.Prelude.{◌≡◌, ◌<◌, ◌^◌, ◌∷◌, [], ◌+◌, if◌then◌else◌};
ghost use Rattle.tags.specs.declared.token.Port.TheVariants.{Left};
ghost use Rattle.tags.specs.declared.token.To.{To};
ghost use Rattle.semantics.specs.Rule as Rule;
ghost use Rattle.element.specs.Decoded.{instr_of, IsShort};
ghost use Rattle.element.specs.Fired.{point_of, tokens_of, fired_by, outcome_by, HasRoomInWord, HasRoomInSlot};
ghost use Rattle.semantics.specs.Program.{Program, Instr};
ghost use Rattle.element.specs.Outcomes.{MeetingIs, LeftHasRoom};

use super::Operand;
use super::arrays::{Element, puts};
use super::continuations::{answer_to, beyond};
use super::made::{Made, Point, SIGNAL, and_signals, one, to_all};
use super::outcomes::{Firing, Outcome, becomes, excluded, fires};
use crate::instructions::{Instruction, Instructions};
use frame_store::slot::Slot;
use operators::{apply2_at, truth};
use packed::token::PackedToken;
use packed::word::PackedWord;
use semantics::program::Op;
use tags::slot::SlotState;
use tags::token::{FrameId, Port, To, Token, Word};

/// What a token meets at an instruction with two inputs.
#[derive(Clone, Copy)]
pub enum Meeting {
    /// The other one: both words.
    Both { left: PackedWord, right: PackedWord },
    /// None: it waits in the slot, which is this one then.
    Waits { slot: Slot },
    /// What it can't meet.
    Apart,
}

/// What a token meets in its slot.
#[inline(always)]
pub fn meet(held: &Slot, point: Point, port: Port, token: &PackedToken) -> Meeting
    requires address { token.now.to ≡ To.Instr point.frame point.ip port }
    requires slot_room { HasRoomInSlot held.now }
    requires word_room { HasRoomInWord token.now.word }
    ensures meets { (p : Program) (s : Rule.Point) (i : Instr) → MeetingIs p s i (Rule.meets p s i held.now port token.now.word) result }
    ensures room { LeftHasRoom result }
{
    if held.is_empty() {
        return Meeting::Waits {
            slot: Slot::waiting(token),
        };
    }
    match port {
        Port::Left => match held.side() {
            Some(Port::Right) => Meeting::Both {
                left: token.word(),
                right: held.word(),
            },
            _ => Meeting::Apart,
        },
        Port::Right => match held.side() {
            Some(Port::Left) => Meeting::Both {
                left: held.word(),
                right: token.word(),
            },
            _ => Meeting::Apart,
        },
    }
}

// An instruction with two inputs.
pub(super) fn meets<C: Instructions>(
    code: &C,
    point: Point,
    instr: &Instruction,
    slot: SlotState,
    operand: Operand,
    made: &mut Made,
) -> Outcome
    requires short { IsShort (C.width code.now) point.ip instr.now }
    requires slot_room { HasRoomInSlot slot }
    requires word_room { HasRoomInWord operand.word }
    ensures { outcome_by result (tokens_of (point_of point) made.new) ≡ Rule.meets (C.program code.now) (point_of point) (instr_of instr.now) slot
        operand.port operand.word }
{
    let word = operand.word;
    match (slot, operand.port) {
        (SlotState::Empty, Port::Left) => becomes(SlotState::Left(word), made),
        (SlotState::Empty, Port::Right) => becomes(SlotState::Right(word), made),
        (SlotState::Left(left), Port::Right) => {
            let fired = fire_two(code, point, instr, left, word, made);
            fires(SlotState::Empty, fired)
        }
        (SlotState::Right(right), Port::Left) => {
            let fired = fire_two(code, point, instr, word, right, made);
            fires(SlotState::Empty, fired)
        }
        _ => excluded(3),
    }
}

/// What an instruction with two inputs makes of its words.
#[inline(always)]
pub fn fire_two<C: Instructions>(
    code: &C,
    point: Point,
    instr: &Instruction,
    left: Word,
    right: Word,
    made: &mut Made,
) -> Firing
    requires short { IsShort (C.width code.now) point.ip instr.now }
    requires room { HasRoomInWord left }
    ensures { fired_by result (tokens_of (point_of point) made.new) ≡ Rule.fire_two (C.program code.now) (point_of point) (instr_of instr.now)
        instr.now.op left right }
{
    match (instr.op, left, right) {
        (Op::Apply2 { op }, Word::Val(x), Word::Val(y)) => {
            let value = apply2_at(op, x, y, instr.origin());
            to_all(point, Word::Val(value), instr, made);
            Firing::Fired
        }
        (Op::Sync, _, _) => {
            to_all(point, SIGNAL, instr, made);
            Firing::Fired
        }
        (Op::Switch, _, Word::Val(value)) => {
            choose(truth(value), point, left, instr, made);
            Firing::Fired
        }
        (Op::Store { array }, Word::Val(index), Word::Val(value)) => {
            puts(code, point, instr, Element { array, index }, value, made);
            Firing::Fired
        }
        (Op::Send { block, entry }, Word::Frame(frame), _) => {
            let to = left_of(frame, entry_at(code.entry(block), entry));
            and_signals(Token { to, word: right }, point, instr, made);
            Firing::Fired
        }
        (Op::Return { offset }, Word::Back(cont), Word::Val(_)) => {
            let to = beyond(cont, offset);
            and_signals(Token { to, word: right }, point, instr, made);
            Firing::Fired
        }
        (Op::Ask { offset }, Word::Back(cont), _) => {
            let to = beyond(cont, offset);
            let word = Word::Back(answer_to(point, instr));
            one(Token { to, word }, made);
            Firing::Fired
        }
        (Op::Release { offset }, Word::Back(cont), _) => {
            released(beyond(cont, offset), point.frame, made);
            Firing::Fired
        }
        _ => Firing::WrongKind,
    }
}

// A switch sends its left word to one side.
#[inline(always)]
fn choose(holds: bool, point: Point, word: Word, instr: &Instruction, made: &mut Made)
    ensures { tokens_of (point_of point) made.new
        ≡ Rule.to_each (point_of point) word (if holds then (instr_of instr.now).firsts else (instr_of instr.now).seconds) }
{
    let side = if holds { instr.first() } else { instr.second() };
    made.released = None;
    made.outside = None;
    made.word = word;
    made.first = side;
    made.second = 0;
}

// The release of the frame, and a signal.
#[inline(always)]
fn released(to: To, frame: FrameId, made: &mut Made)
    ensures { (s : Rule.Point) → tokens_of s made.new ≡ Rule.token (To.Release frame) Rule.signal ∷ Rule.token to Rule.signal ∷ [] }
{
    made.released = Some(frame);
    made.outside = Some(Token { to, word: SIGNAL });
    made.first = 0;
    made.second = 0;
}

// The left port of an instruction in the frame.
#[inline(always)]
fn left_of(frame: FrameId, ip: u32) -> To
    ensures { result ≡ To.Instr frame ip Left }
{
    To::Instr {
        frame,
        ip,
        port: Port::Left,
    }
}

// An entry of the block that begins there.
pub(super) fn entry_at(first: u32, entry: u16) -> u32
    requires { first < 2 ^ 30 }
    ensures { result ≡ first + entry }
{
    first + u32::from(entry)
}
