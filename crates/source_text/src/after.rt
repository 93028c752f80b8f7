//! What may follow an operand.

ghost use Rattle.std.specs.Prelude.{◌≤◌};
ghost use Rattle.law_language.specs.GrammarAutomaton as automaton;
ghost use Rattle.source_text.specs.declared.outcome.Pushes.{Pushes};
ghost use Rattle.source_text.specs.Outcomes.{lexeme_named, Does, AreShallow};

use crate::lexeme::Lexeme;
use crate::outcome::{Outcome, Pushes, passes, refuses, takes};
use crate::signs::{goes_on, infix_of, sign_level};
use law_language::symbol::Symbol;
use operators::Binary;
use source::fault::FaultKind;
use source::token::Sign;
use source::word::{InfixSign, Word};

/// After an operand there is an operator with its operand, or what is for the symbol below.
pub(crate) fn after(
    pushes: &mut Pushes,
    level: u8,
    left: u8,
    depth: u8,
    at: usize,
    lexeme: Lexeme,
) -> Outcome
    requires { depth ≤ 200 }
    ensures does { Does result pushes.new (λ names. automaton.after level left depth at (lexeme_named names lexeme)) }
    ensures shallow { AreShallow result pushes.new }
{
    match lexeme {
        Lexeme::Mark {
            sign: Sign::Becomes,
        } => after_cell(level, left),
        Lexeme::Mark { sign } => match infix_of(sign) {
            Some(infix) => after_infix(pushes, level, left, depth, at, infix),
            None => passes(),
        },
        _ => passes(),
    }
}

/// A `:=` has no cell before it where an operator could be.
fn after_cell(level: u8, left: u8) -> Outcome
    ensures does { (pushes : Pushes) → Does result pushes (λ names. automaton.after_cell level left) }
    ensures shallow { (pushes : Pushes) → AreShallow result pushes }
{
    if goes_on(level, left, InfixSign::Direct { op: Binary::Add }) {
        refuses(FaultKind::NotACell)
    } else {
        passes()
    }
}

fn after_infix(
    pushes: &mut Pushes,
    level: u8,
    left: u8,
    depth: u8,
    at: usize,
    sign: InfixSign,
) -> Outcome
    requires { depth ≤ 200 }
    ensures does { Does result pushes.new (λ names. automaton.after_infix level left depth at sign) }
    ensures shallow { AreShallow result pushes.new }
{
    if !goes_on(level, left, sign) {
        return passes();
    }
    takes(
        pushes,
        &[Word::Left],
        &[
            Symbol::Operand {
                level: sign_level(sign) + 1,
                depth,
            },
            Symbol::Emit {
                word: Word::Infix { at, sign },
            },
            Symbol::After {
                level,
                left: sign_level(sign),
                depth,
            },
        ],
    )
}
