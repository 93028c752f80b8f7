//! What may follow an operand.

ghost use Rattle.std.specs.Prelude.{◌≤◌, ◌+◌, ◌∷◌, [], ◌&&◌, nat_le, if◌then◌else◌};
ghost use Rattle.surface.specs.Words.{named};
ghost use Rattle.law_language.specs.GrammarAutomaton.{infix_of};
ghost use Rattle.law_surface_text.specs.declared.symbol.Symbol.TheVariants.{Operand, Emit, After};
ghost use Rattle.law_surface_text.specs.Automaton as automaton;
ghost use Rattle.surface_text.specs.Outcomes.{lexeme_named, Does, AreShallow};

use crate::lexeme::Lexeme;
use crate::outcome::{Outcome, Pushes, passes, takes};
use crate::signs::{infix_of, left_level, sign_level};
use law_surface_text::symbol::Symbol;
use source::word::Word as CoreWord;
use surface::token::{Keyword, Sign};
use surface::word::Word;

/// An operator between two operands: its level, the least level of the operand on its left, the word after that, and the word after both.
#[derive(Clone, Copy)]
struct Between {
    level: u8,
    left: u8,
    begins: Word<usize>,
    ends: Word<usize>,
}

/// The operator goes on where the whole has to have the level `level`, after an operand of the level `left`.
fn joins(pushes: &mut Pushes, level: u8, left: u8, depth: u8, own: Between) -> Outcome
    requires depth { depth ≤ 200 }
    requires level { own.level ≤ 10 }
    ensures does { Does result pushes.new (λ names. if nat_le level own.level && nat_le own.left left
        then automaton.Takes 0 (named names own.begins ∷ [])
        (Operand (own.level + 1) depth ∷ Emit (named names own.ends) ∷ After level own.level depth ∷ []) else automaton.Passes []) }
    ensures shallow { AreShallow result pushes.new }
{
    if level > own.level || own.left > left {
        return passes(pushes, &[]);
    }
    takes(
        pushes,
        0,
        &[own.begins],
        &[
            Symbol::Operand {
                level: own.level + 1,
                depth,
            },
            Symbol::Emit { word: own.ends },
            Symbol::After {
                level,
                left: own.level,
                depth,
            },
        ],
    )
}

fn after_sign(
    pushes: &mut Pushes,
    level: u8,
    left: u8,
    depth: u8,
    at: usize,
    sign: source::token::Sign,
) -> Outcome
    requires { depth ≤ 200 }
    ensures does { Does result pushes.new (λ names. automaton.after_operator level left depth at (automaton.infix_operator (infix_of sign))) }
    ensures shallow { AreShallow result pushes.new }
{
    match infix_of(sign) {
        Some(infix) => joins(
            pushes,
            level,
            left,
            depth,
            Between {
                level: sign_level(infix),
                left: left_level(infix),
                begins: Word::Core {
                    word: CoreWord::Left,
                },
                ends: Word::Core {
                    word: CoreWord::Infix { at, sign: infix },
                },
            },
        ),
        None => passes(pushes, &[]),
    }
}

/// After an operand there is an operator with its operand, or what is for the symbol below.
pub(crate) fn after(
    pushes: &mut Pushes,
    level: u8,
    left: u8,
    depth: u8,
    at: usize,
    lexeme: Lexeme,
) -> Outcome
    requires { depth ≤ 200 }
    ensures does { Does result pushes.new (λ names. automaton.after level left depth at (lexeme_named names lexeme)) }
    ensures shallow { AreShallow result pushes.new }
{
    match lexeme {
        Lexeme::Mark {
            sign: Sign::Core { sign },
        } => after_sign(pushes, level, left, depth, at, sign),
        Lexeme::Word {
            keyword: Keyword::And,
        } => joins(
            pushes,
            level,
            left,
            depth,
            Between {
                level: 2,
                left: 2,
                begins: Word::AndThen,
                ends: Word::EndAnd { at },
            },
        ),
        Lexeme::Word {
            keyword: Keyword::Or,
        } => joins(
            pushes,
            level,
            left,
            depth,
            Between {
                level: 1,
                left: 1,
                begins: Word::OrElse,
                ends: Word::EndOr { at },
            },
        ),
        _ => passes(pushes, &[]),
    }
}
