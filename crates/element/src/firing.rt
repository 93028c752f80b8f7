//! What an instruction does with a token (Papadopoulos and Culler, ISCA 1990; k-bounded loops after Arvind and Nikhil, IEEE
//! Transactions on Computers 39(3), 1990).

ghost use Rattle.std.specs.Prelude.{◌≡◌};
ghost use Rattle.tags.specs.declared.token.Port.TheVariants.{Left};
ghost use Rattle.semantics.specs.Rule as Rule;
ghost use Rattle.element.specs.Decoded.{instr_of, IsShort};
ghost use Rattle.element.specs.Fired.{point_of, tokens_of, outcome_by, HasRoomInWord, HasRoomInSlot, TakesLeftAlone};

mod arrays;
mod continuations;
mod credits;
mod leaving;
mod made;
mod one_input;
mod outcomes;
mod pairs;
mod passing;
mod two_inputs;

use crate::instructions::{Instruction, Instructions};
pub use continuations::answer;
pub use credits::{Counts, Credit, Gives, Takes};
use credits::{drains, gives_credit, opens, takes_credit};
pub use leaving::{Fetches, Leaves, Leaving, Links};
pub use made::{Made, NONE, Point, SIGNAL};
use one_input::fire_one;
pub use one_input::frame_request;
pub use outcomes::Outcome;
use outcomes::{excluded, fires};
pub use pairs::{Asks, Operates, Pair, Releases, Returns, Sends, Stores, Switches, Syncs};
pub use passing::{AppliesLeft, AppliesRight, Computes, Copies, Literals, Passed, Passes};
use semantics::program::Op;
use tags::slot::SlotState;
use tags::token::{Port, Word};
use two_inputs::meets;
pub use two_inputs::{Meeting, fire_two, meet};

/// A word that comes to an instruction on one of its ports.
#[derive(Clone, Copy, Debug, PartialEq, Eq)]
pub struct Operand {
    pub port: Port,
    pub word: Word,
}

/// The result of a word at an instruction whose slot has this state; an instruction that uses no slot leaves the state as
/// it is.
pub fn fire<C: Instructions>(
    code: &C,
    point: Point,
    instr: &Instruction,
    slot: SlotState,
    operand: Operand,
    made: &mut Made,
) -> Outcome
    requires short { IsShort (C.width code.now) point.ip instr.now }
    requires slot_room { HasRoomInSlot slot }
    requires word_room { HasRoomInWord operand.word }
    ensures { outcome_by result (tokens_of (point_of point) made.new) ≡ Rule.outcome_of (C.program code.now) (point_of point) (instr_of instr.now)
        instr.now.op slot operand.port operand.word }
{
    match instr.op {
        Op::Apply2 { .. }
        | Op::Sync
        | Op::Switch
        | Op::Store { .. }
        | Op::Send { .. }
        | Op::Return { .. }
        | Op::Ask { .. }
        | Op::Release { .. } => meets(code, point, instr, slot, operand, made),
        _ => match operand.port {
            Port::Left => fire_left(code, point, instr, slot, operand.word, made),
            Port::Right => excluded(2),
        },
    }
}

// An instruction that takes left tokens alone.
fn fire_left<C: Instructions>(
    code: &C,
    point: Point,
    instr: &Instruction,
    slot: SlotState,
    word: Word,
    made: &mut Made,
) -> Outcome
    requires short { IsShort (C.width code.now) point.ip instr.now }
    requires slot_room { HasRoomInSlot slot }
    requires word_room { HasRoomInWord word }
    requires left { TakesLeftAlone instr.now.op }
    ensures { outcome_by result (tokens_of (point_of point) made.new) ≡ Rule.outcome_of (C.program code.now) (point_of point) (instr_of instr.now)
        instr.now.op slot Left word }
{
    match instr.op {
        Op::Open { bound } => opens(point, instr, bound, slot, made),
        Op::Take { .. } => takes_credit(slot, word, made),
        Op::Give { bound } => gives_credit(point, instr, bound, slot, made),
        Op::Drain { bound } => drains(point, instr, bound, slot, made),
        Op::Apply1 { .. }
        | Op::Apply2Right { .. }
        | Op::Apply2Left { .. }
        | Op::Lit { .. }
        | Op::Copy
        | Op::Fetch { .. }
        | Op::Frame
        | Op::Link { .. } => {
            let fired = fire_one(code, point, instr, word, made);
            fires(slot, fired)
        }
        _ => unreachable!(),
    }
}
