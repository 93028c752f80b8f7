//! The result of a token at an instruction.

ghost use Rattle.std.specs.Prelude.{◌≡◌, ◌∷◌, [], List};
ghost use Rattle.semantics.specs.Rule as Rule;
ghost use Rattle.tags.specs.declared.token.Token.{Token};
ghost use Rattle.element.specs.Decoded.{instr_of};
ghost use Rattle.element.specs.Fired.{point_of, tokens_of, fired_by, outcome_by};

use super::made::{Made, Point, SIGNAL, nothing, one, to_all};
use crate::instructions::Instruction;
use tags::slot::SlotState;
use tags::token::Token;

/// The result of a token at an instruction, besides the tokens that are made.
#[derive(Clone, Copy, Debug, PartialEq, Eq)]
pub enum Outcome {
    /// The slot has this state then.
    Becomes { slot: SlotState },
    /// The rule of this number excludes the token.
    Excluded { rule: u8 },
}

/// Whether an instruction fired on its words.
#[derive(Clone, Copy, Debug, PartialEq, Eq)]
pub enum Firing {
    /// It did, and made tokens.
    Fired,
    /// A word is of a wrong kind.
    WrongKind,
}

// The slot changes where the instruction fired.
pub(super) fn fires(slot: SlotState, firing: Firing) -> Outcome
    ensures { (made : List Token) → outcome_by result made ≡ Rule.fires slot (fired_by firing made) }
{
    match firing {
        Firing::Fired => Outcome::Becomes { slot },
        Firing::WrongKind => Outcome::Excluded { rule: 4 },
    }
}

// The slot changes, and nothing is made.
pub(super) fn becomes(slot: SlotState, made: &mut Made) -> Outcome
    ensures { (s : Rule.Point) → outcome_by result (tokens_of s made.new) ≡ Rule.Becomes slot [] }
{
    nothing(made);
    Outcome::Becomes { slot }
}

// The slot changes, and one token is made.
pub(super) fn becomes_with(slot: SlotState, token: Token, made: &mut Made) -> Outcome
    ensures { (s : Rule.Point) → outcome_by result (tokens_of s made.new) ≡ Rule.Becomes slot (token ∷ []) }
{
    one(token, made);
    Outcome::Becomes { slot }
}

// The slot changes, and a signal goes to each destination.
pub(super) fn becomes_signalled(
    slot: SlotState,
    point: Point,
    instr: &Instruction,
    made: &mut Made,
) -> Outcome
    ensures { outcome_by result (tokens_of (point_of point) made.new) ≡ Rule.Becomes slot (Rule.to_all (point_of point) Rule.signal (instr_of instr.now)) }
{
    to_all(point, SIGNAL, instr, made);
    Outcome::Becomes { slot }
}

pub(super) fn excluded(rule: u8) -> Outcome
    ensures { (made : List Token) → outcome_by result made ≡ Rule.Excluded rule }
{
    Outcome::Excluded { rule }
}
