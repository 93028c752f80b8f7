//! Arrays and functions.

ghost use Rattle.law_language.specs.GrammarAutomaton as automaton;
ghost use Rattle.source_text.specs.Outcomes.{lexeme_named, Does, AreShallow};

use crate::lexeme::Lexeme;
use crate::numbers::{is_small, too_large};
use crate::outcome::{Outcome, Pushes, takes, unexpected};
use law_language::symbol::Symbol;
use source::token::{Keyword, Sign};
use source::word::Word;

pub(crate) fn items(pushes: &mut Pushes, lexeme: Lexeme) -> Outcome
    ensures does { Does result pushes.new (λ names. automaton.items (lexeme_named names lexeme)) }
    ensures shallow { AreShallow result pushes.new }
{
    match lexeme {
        Lexeme::Word {
            keyword: Keyword::Array,
        } => takes(
            pushes,
            &[],
            &[
                Symbol::ArrayName,
                Symbol::Sign {
                    sign: Sign::OpenBracket,
                },
                Symbol::ArrayLength,
                Symbol::Sign {
                    sign: Sign::CloseBracket,
                },
                Symbol::Sign {
                    sign: Sign::Semicolon,
                },
                Symbol::Items,
            ],
        ),
        Lexeme::Word {
            keyword: Keyword::Fn,
        } => takes(
            pushes,
            &[],
            &[
                Symbol::FunctionName,
                Symbol::Sign {
                    sign: Sign::OpenParen,
                },
                Symbol::Parameter,
                Symbol::Parameters,
                Symbol::Results,
                Symbol::Emit {
                    word: Word::EndFunction,
                },
                Symbol::Items,
            ],
        ),
        _ => unexpected(),
    }
}

pub(crate) fn array_name(pushes: &mut Pushes, at: usize, lexeme: Lexeme) -> Outcome
    ensures does { Does result pushes.new (λ names. automaton.array_name at (lexeme_named names lexeme)) }
    ensures shallow { AreShallow result pushes.new }
{
    match lexeme {
        Lexeme::Name { name } => takes(pushes, &[Word::Array { at, name }], &[]),
        _ => unexpected(),
    }
}

pub(crate) fn array_length(pushes: &mut Pushes, at: usize, lexeme: Lexeme) -> Outcome
    ensures does { Does result pushes.new (λ names. automaton.array_length at (lexeme_named names lexeme)) }
    ensures shallow { AreShallow result pushes.new }
{
    match lexeme {
        Lexeme::Number { number } if is_small(number) => {
            takes(pushes, &[Word::Length { at, len: number }], &[])
        }
        Lexeme::Number { number } => too_large(number),
        _ => unexpected(),
    }
}

pub(crate) fn function_name(pushes: &mut Pushes, at: usize, lexeme: Lexeme) -> Outcome
    ensures does { Does result pushes.new (λ names. automaton.function_name at (lexeme_named names lexeme)) }
    ensures shallow { AreShallow result pushes.new }
{
    match lexeme {
        Lexeme::Name { name } => takes(pushes, &[Word::Function { at, name }], &[]),
        _ => unexpected(),
    }
}

pub(crate) fn parameter(pushes: &mut Pushes, at: usize, lexeme: Lexeme) -> Outcome
    ensures does { Does result pushes.new (λ names. automaton.parameter at (lexeme_named names lexeme)) }
    ensures shallow { AreShallow result pushes.new }
{
    match lexeme {
        Lexeme::Name { name } => takes(pushes, &[Word::Parameter { at, name }], &[]),
        _ => unexpected(),
    }
}

pub(crate) fn parameters(pushes: &mut Pushes, lexeme: Lexeme) -> Outcome
    ensures does { Does result pushes.new (λ names. automaton.parameters (lexeme_named names lexeme)) }
    ensures shallow { AreShallow result pushes.new }
{
    match lexeme {
        Lexeme::Mark { sign: Sign::Comma } => takes(
            pushes,
            &[],
            &[Symbol::Parameter, Symbol::Parameters],
        ),
        Lexeme::Mark {
            sign: Sign::CloseParen,
        } => takes(pushes, &[], &[]),
        _ => unexpected(),
    }
}

pub(crate) fn results(pushes: &mut Pushes, at: usize, lexeme: Lexeme) -> Outcome
    ensures does { Does result pushes.new (λ names. automaton.results at (lexeme_named names lexeme)) }
    ensures shallow { AreShallow result pushes.new }
{
    match lexeme {
        Lexeme::Mark { sign: Sign::Arrow } => {
            takes(pushes, &[], &[Symbol::ResultCount, Symbol::FunctionBody])
        }
        _ => function_body(pushes, at, lexeme),
    }
}

pub(crate) fn result_count(pushes: &mut Pushes, at: usize, lexeme: Lexeme) -> Outcome
    ensures does { Does result pushes.new (λ names. automaton.result_count at (lexeme_named names lexeme)) }
    ensures shallow { AreShallow result pushes.new }
{
    match lexeme {
        Lexeme::Number { number } if is_small(number) => {
            takes(pushes, &[Word::Results { at, number }], &[])
        }
        Lexeme::Number { number } => too_large(number),
        _ => unexpected(),
    }
}

pub(crate) fn function_body(pushes: &mut Pushes, at: usize, lexeme: Lexeme) -> Outcome
    ensures does { Does result pushes.new (λ names. automaton.function_body at (lexeme_named names lexeme)) }
    ensures shallow { AreShallow result pushes.new }
{
    match lexeme {
        Lexeme::Mark {
            sign: Sign::OpenBrace,
        } => takes(pushes, &[Word::Body { at }], &[Symbol::Steps { depth: 0 }]),
        _ => unexpected(),
    }
}
