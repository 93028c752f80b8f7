//! The instructions that keep the credits of a loop.

ghost use Rattle.std.specs.Prelude.{◌≡◌, IfSome};
ghost use Rattle.tags.specs.declared.token.Port.TheVariants.{Left};
ghost use Rattle.tags.specs.declared.token.Cont.{Cont};
ghost use Rattle.tags.specs.declared.token.Word.{Word};
ghost use Rattle.tags.specs.declared.slot.SlotState.TheVariants.{Credits};
ghost use Rattle.semantics.specs.Program.{Program};
ghost use Rattle.semantics.specs.Rule as Rule;
ghost use Rattle.element.specs.Decoded.{instr_of};
ghost use Rattle.element.specs.Fired.{point_of, tokens_of, outcome_by};
ghost use Rattle.element.specs.Outcomes.{CreditIs};

use super::continuations::answer;
use super::made::{Made, Point, SIGNAL};
use super::outcomes::{Outcome, becomes, becomes_signalled, becomes_with, excluded};
use crate::instructions::Instruction;
use frame_store::slot::Slot;
use packed::token::PackedToken;
use packed::word::PackedWord;
use semantics::program::Op;
use tags::slot::SlotState;
use tags::token::{Cont, Word};

/// The immediate result of a credit that is taken or given.
#[derive(Clone, Copy)]
pub enum Credit {
    /// The slot is this one then, and nothing is made.
    SlotOnly { slot: Slot },
    /// The slot is this one then, and a token is made.
    Answered { slot: Slot, token: PackedToken },
    /// There is no immediate result.
    Later,
}

// A slot of this state.
#[inline(always)]
fn holding(state: SlotState) -> Slot
    ensures { result ≡ state }
{
    let mut slot = Slot::empty();
    slot.set(state);
    slot
}

// The signal to a continuation in a frame, if it is one.
#[inline(always)]
fn signal_to(back: &PackedWord) -> Option<PackedToken>
    ensures { IfSome result (λ t. (c : Cont) × (back.now ≡ Word.Back c) × (t ≡ Rule.token (Rule.back_to c) Rule.signal)) }
{
    match back.unpack() {
        Word::Back(Cont::Frame { frame, ip, port }) => {
            let signal = PackedWord::int(0);
            Some(PackedToken::to_instr(frame, ip, port, &signal))
        }
        _ => None,
    }
}

// The continuation waits for a credit.
#[inline(always)]
fn kept_waiting(word: &PackedWord) -> Credit
    ensures { CreditIs (Rule.takes (Credits 0) word.now) result }
{
    match word.unpack() {
        Word::Back(cont) => Credit::SlotOnly {
            slot: holding(SlotState::Waiter(cont)),
        },
        _ => Credit::Later,
    }
}

/// A kind of instruction that takes or gives a credit.
pub trait Counts {
    /// Its immediate result of a left token, where it is of this kind.
    fn at_once(instr: &Instruction, held: &Slot, word: &PackedWord) -> Credit
        ensures { (p : Program) (s : Rule.Point) → CreditIs (Rule.outcome_of p s (instr_of instr.now) instr.now.op held.now Left word.now) result };
}

/// `take`: a credit is taken, or the continuation that asks for it waits.
pub struct Takes;

impl Counts for Takes {
    #[inline(always)]
    fn at_once(instr: &Instruction, held: &Slot, word: &PackedWord) -> Credit {
        let Op::Take { .. } = instr.op else {
            return Credit::Later;
        };
        match held.credits() {
            None => Credit::Later,
            Some(0) => kept_waiting(word),
            Some(credits) => match signal_to(word) {
                None => Credit::Later,
                Some(token) => Credit::Answered {
                    slot: Slot::with_credits(credits - 1),
                    token,
                },
            },
        }
    }
}

/// `give`: a credit is given back while the loop goes on.
pub struct Gives;

impl Counts for Gives {
    #[inline(always)]
    fn at_once(instr: &Instruction, held: &Slot, _word: &PackedWord) -> Credit {
        let Op::Give { bound } = instr.op else {
            return Credit::Later;
        };
        if let Some(credits) = held.credits() {
            return if credits < u32::from(bound) {
                Credit::SlotOnly {
                    slot: Slot::with_credits(credits + 1),
                }
            } else {
                Credit::Later
            };
        }
        let Some(back) = held.waiter() else {
            return Credit::Later;
        };
        match signal_to(&back) {
            None => Credit::Later,
            Some(token) => Credit::Answered {
                slot: Slot::with_credits(0),
                token,
            },
        }
    }
}

// The first credits of a loop, except for the one that begins it.
pub(super) fn opens(
    point: Point,
    instr: &Instruction,
    bound: u8,
    slot: SlotState,
    made: &mut Made,
) -> Outcome
    ensures { outcome_by result (tokens_of (point_of point) made.new) ≡ Rule.opens (point_of point) (instr_of instr.now) bound slot }
{
    match slot {
        SlotState::Empty => {
            let credits = u32::from(bound).saturating_sub(1);
            becomes_signalled(SlotState::Credits(credits), point, instr, made)
        }
        _ => excluded(3),
    }
}

// A credit is taken, or the continuation that asks for it waits.
pub(super) fn takes_credit(slot: SlotState, word: Word, made: &mut Made) -> Outcome
    ensures { (s : Rule.Point) → outcome_by result (tokens_of s made.new) ≡ Rule.takes slot word }
{
    match (slot, word) {
        (SlotState::Credits(0), Word::Back(cont)) => becomes(SlotState::Waiter(cont), made),
        (SlotState::Credits(credits), Word::Back(cont)) => {
            becomes_with(SlotState::Credits(credits - 1), answer(cont, SIGNAL), made)
        }
        (SlotState::Credits(_), _) => excluded(4),
        _ => excluded(3),
    }
}

// A credit is given back.
pub(super) fn gives_credit(
    point: Point,
    instr: &Instruction,
    bound: u8,
    slot: SlotState,
    made: &mut Made,
) -> Outcome
    ensures { outcome_by result (tokens_of (point_of point) made.new) ≡ Rule.gives (point_of point) (instr_of instr.now) bound slot }
{
    match slot {
        SlotState::Credits(credits) => {
            if credits < u32::from(bound) {
                becomes(SlotState::Credits(credits + 1), made)
            } else {
                excluded(3)
            }
        }
        SlotState::Waiter(cont) => becomes_with(SlotState::Credits(0), answer(cont, SIGNAL), made),
        SlotState::Draining(0) => excluded(3),
        SlotState::Draining(1) => becomes_signalled(SlotState::Empty, point, instr, made),
        SlotState::Draining(owed) => becomes(SlotState::Draining(owed - 1), made),
        _ => excluded(3),
    }
}

// The loop has ended: the credits that are still out are waited for.
pub(super) fn drains(
    point: Point,
    instr: &Instruction,
    bound: u8,
    slot: SlotState,
    made: &mut Made,
) -> Outcome
    ensures { outcome_by result (tokens_of (point_of point) made.new) ≡ Rule.drains (point_of point) (instr_of instr.now) bound slot }
{
    let bound = u32::from(bound);
    match slot {
        SlotState::Credits(credits) => {
            if credits == bound {
                becomes_signalled(SlotState::Empty, point, instr, made)
            } else if credits < bound {
                becomes(SlotState::Draining(bound - credits), made)
            } else {
                excluded(3)
            }
        }
        _ => excluded(3),
    }
}
