//! Bodies, and the parts of a loop.

ghost use Rattle.std.specs.Prelude.{◌<◌, ◌+◌};
ghost use Rattle.law_language.specs.GrammarAutomaton as automaton;
ghost use Rattle.source_text.specs.Outcomes.{lexeme_named, Does, AreShallow};

use crate::lexeme::Lexeme;
use crate::numbers::{is_small, too_large};
use crate::outcome::{Outcome, Pushes, takes, unexpected};
use law_language::symbol::Symbol;
use source::token::{Keyword, Sign};
use source::word::Word;

pub(crate) fn target(pushes: &mut Pushes, at: usize, lexeme: Lexeme) -> Outcome
    ensures does { Does result pushes.new (λ names. automaton.target at (lexeme_named names lexeme)) }
    ensures shallow { AreShallow result pushes.new }
{
    match lexeme {
        Lexeme::Name { name } => takes(pushes, &[Word::Bind { at, name }], &[]),
        Lexeme::Mark {
            sign: Sign::Underscore,
        } => takes(pushes, &[Word::Drop], &[]),
        _ => unexpected(),
    }
}

pub(crate) fn targets(pushes: &mut Pushes, bound: usize, depth: u8, lexeme: Lexeme) -> Outcome
    requires { depth < 200 }
    ensures does { Does result pushes.new (λ names. automaton.targets bound depth (lexeme_named names lexeme)) }
    ensures shallow { AreShallow result pushes.new }
{
    match lexeme {
        Lexeme::Mark { sign: Sign::Comma } => {
            takes(
                pushes,
                &[],
                &[Symbol::Target, Symbol::Targets { at: bound, depth }],
            )
        }
        Lexeme::Mark { sign: Sign::Equals } => takes(
            pushes,
            &[Word::List],
            &[
                Symbol::Operand {
                    level: 0,
                    depth: depth + 1,
                },
                Symbol::LetEnd { at: bound, depth },
            ],
        ),
        _ => unexpected(),
    }
}

pub(crate) fn let_end(pushes: &mut Pushes, bound: usize, depth: u8, lexeme: Lexeme) -> Outcome
    requires { depth < 200 }
    ensures does { Does result pushes.new (λ names. automaton.let_end bound depth (lexeme_named names lexeme)) }
    ensures shallow { AreShallow result pushes.new }
{
    match lexeme {
        Lexeme::Mark { sign: Sign::Comma } => takes(
            pushes,
            &[Word::Part],
            &[
                Symbol::Operand {
                    level: 0,
                    depth: depth + 1,
                },
                Symbol::LetEnd { at: bound, depth },
            ],
        ),
        Lexeme::Mark {
            sign: Sign::Semicolon,
        } => takes(
            pushes,
            &[Word::Part, Word::EndLet { at: bound }],
            &[Symbol::Steps { depth }],
        ),
        _ => unexpected(),
    }
}

pub(crate) fn step_end(pushes: &mut Pushes, depth: u8, lexeme: Lexeme) -> Outcome
    requires { depth < 200 }
    ensures does { Does result pushes.new (λ names. automaton.step_end depth (lexeme_named names lexeme)) }
    ensures shallow { AreShallow result pushes.new }
{
    match lexeme {
        Lexeme::Mark { sign: Sign::Comma } => {
            takes(
                pushes,
                &[Word::Part],
                &[
                    Symbol::Operand {
                        level: 0,
                        depth: depth + 1,
                    },
                    Symbol::StepEnd { depth },
                ],
            )
        }
        Lexeme::Mark {
            sign: Sign::Semicolon,
        } => takes(pushes, &[Word::Part, Word::Do], &[Symbol::Steps { depth }]),
        Lexeme::Mark {
            sign: Sign::CloseBrace,
        } => takes(pushes, &[Word::Part, Word::Give], &[]),
        _ => unexpected(),
    }
}

/// The bound of the loop that is at `start`.
pub(crate) fn bound(
    pushes: &mut Pushes,
    start: usize,
    depth: u8,
    at: usize,
    lexeme: Lexeme,
) -> Outcome
    requires { depth < 200 }
    ensures does { Does result pushes.new (λ names. automaton.bound start depth at (lexeme_named names lexeme)) }
    ensures shallow { AreShallow result pushes.new }
{
    match lexeme {
        Lexeme::Number { number } if is_small(number) => takes(
            pushes,
            &[Word::Bound { at, bound: number }],
            &[
                Symbol::Sign {
                    sign: Sign::OpenParen,
                },
                Symbol::Start { depth },
                Symbol::Starts { depth },
                Symbol::Turn { depth },
                Symbol::Emit {
                    word: Word::EndLoop {
                        at: start,
                        bound: number,
                    },
                },
            ],
        ),
        Lexeme::Number { number } => too_large(number),
        _ => unexpected(),
    }
}

pub(crate) fn start(pushes: &mut Pushes, depth: u8, at: usize, lexeme: Lexeme) -> Outcome
    requires { depth < 200 }
    ensures does { Does result pushes.new (λ names. automaton.start depth at (lexeme_named names lexeme)) }
    ensures shallow { AreShallow result pushes.new }
{
    match lexeme {
        Lexeme::Name { name } => takes(
            pushes,
            &[Word::Start { at, name }],
            &[
                Symbol::Sign { sign: Sign::Equals },
                Symbol::Operand {
                    level: 0,
                    depth: depth + 1,
                },
            ],
        ),
        _ => unexpected(),
    }
}

pub(crate) fn starts(pushes: &mut Pushes, depth: u8, lexeme: Lexeme) -> Outcome
    requires { depth < 200 }
    ensures does { Does result pushes.new (λ names. automaton.starts depth (lexeme_named names lexeme)) }
    ensures shallow { AreShallow result pushes.new }
{
    match lexeme {
        Lexeme::Mark { sign: Sign::Comma } => takes(
            pushes,
            &[Word::First],
            &[Symbol::Start { depth }, Symbol::Starts { depth }],
        ),
        Lexeme::Mark {
            sign: Sign::CloseParen,
        } => takes(pushes, &[Word::First], &[]),
        _ => unexpected(),
    }
}

pub(crate) fn turn(pushes: &mut Pushes, depth: u8, lexeme: Lexeme) -> Outcome
    requires { depth < 200 }
    ensures does { Does result pushes.new (λ names. automaton.turn depth (lexeme_named names lexeme)) }
    ensures shallow { AreShallow result pushes.new }
{
    match lexeme {
        Lexeme::Word {
            keyword: Keyword::While,
        } => takes(
            pushes,
            &[Word::TestFirst],
            &[
                Symbol::Operand {
                    level: 0,
                    depth: depth + 1,
                },
                Symbol::Emit { word: Word::While },
                Symbol::Sign {
                    sign: Sign::OpenBrace,
                },
                Symbol::Steps { depth },
            ],
        ),
        Lexeme::Mark {
            sign: Sign::OpenBrace,
        } => takes(
            pushes,
            &[Word::BodyFirst],
            &[
                Symbol::Steps { depth },
                Symbol::Emit { word: Word::Until },
                Symbol::Keyword {
                    keyword: Keyword::While,
                },
                Symbol::Sign {
                    sign: Sign::OpenParen,
                },
                Symbol::Operand {
                    level: 0,
                    depth: depth + 1,
                },
                Symbol::Sign {
                    sign: Sign::CloseParen,
                },
            ],
        ),
        _ => unexpected(),
    }
}
