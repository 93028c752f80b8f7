//! Bodies.

ghost use Rattle.std.specs.Prelude.{◌<◌, ◌+◌};
ghost use Rattle.law_surface_text.specs.Automaton as automaton;
ghost use Rattle.surface_text.specs.Outcomes.{lexeme_named, Does, AreShallow};

use crate::lexeme::Lexeme;
use crate::outcome::{Outcome, Pushes, lacks, passes, refuses, takes};
use law_surface_text::symbol::Symbol;
use source::token::{Keyword as CoreKeyword, Sign as CoreSign};
use source::word::Word as CoreWord;
use surface::token::{Keyword, Sign};
use surface::word::Word;

pub(crate) fn target(pushes: &mut Pushes, at: usize, lexeme: Lexeme) -> Outcome
    ensures does { Does result pushes.new (λ names. automaton.target at (lexeme_named names lexeme)) }
    ensures shallow { AreShallow result pushes.new }
{
    match lexeme {
        Lexeme::Name { name } => {
            takes(
                pushes,
                0,
                &[Word::Core {
                    word: CoreWord::Bind { at, name },
                }],
                &[],
            )
        }
        Lexeme::Mark {
            sign: Sign::Core {
                sign: CoreSign::Underscore,
            },
        } => {
            takes(
                pushes,
                0,
                &[Word::Core {
                    word: CoreWord::Drop,
                }],
                &[],
            )
        }
        _ => refuses(),
    }
}

/// Further targets of a `let`.
pub(crate) fn targets(pushes: &mut Pushes, lexeme: Lexeme) -> Outcome
    ensures does { Does result pushes.new (λ names. automaton.targets (lexeme_named names lexeme)) }
    ensures shallow { AreShallow result pushes.new }
{
    match lexeme {
        Lexeme::Mark {
            sign: Sign::Core {
                sign: CoreSign::Comma,
            },
        } => { takes(pushes, 0, &[], &[Symbol::Target, Symbol::Targets]) }
        _ => passes(pushes, &[]),
    }
}

/// After an arm, an `else` goes on; anything else ends an `if` without one.
pub(crate) fn arm_end(pushes: &mut Pushes, begun: usize, depth: u8, lexeme: Lexeme) -> Outcome
    requires { depth < 199 }
    ensures does { Does result pushes.new (λ names. automaton.arm_end begun depth (lexeme_named names lexeme)) }
    ensures shallow { AreShallow result pushes.new }
{
    match lexeme {
        Lexeme::Word {
            keyword: Keyword::Core {
                keyword: CoreKeyword::Else,
            },
        } => takes(
            pushes,
            0,
            &[Word::Core {
                word: CoreWord::Else,
            }],
            &[Symbol::StepOtherwise { at: begun, depth }],
        ),
        _ => lacks(pushes, &[Word::EndWhen { at: begun }]),
    }
}

/// What follows the `else` of an `if` that begins a step.
pub(crate) fn step_otherwise(
    pushes: &mut Pushes,
    begun: usize,
    depth: u8,
    at: usize,
    lexeme: Lexeme,
) -> Outcome
    requires { depth < 199 }
    ensures does { Does result pushes.new (λ names. automaton.step_otherwise begun depth at (lexeme_named names lexeme)) }
    ensures shallow { AreShallow result pushes.new }
{
    match lexeme {
        Lexeme::Mark {
            sign: Sign::Core {
                sign: CoreSign::OpenBrace,
            },
        } => takes(
            pushes,
            0,
            &[],
            &[
                Symbol::Steps { depth: depth + 1 },
                Symbol::Emit {
                    word: Word::Core {
                        word: CoreWord::EndIf { at: begun },
                    },
                },
            ],
        ),
        Lexeme::Word {
            keyword: Keyword::Core {
                keyword: CoreKeyword::If,
            },
        } => takes(
            pushes,
            depth + 3,
            &[],
            &[
                Symbol::Operand {
                    level: 0,
                    depth: depth + 3,
                },
                Symbol::Emit {
                    word: Word::Core {
                        word: CoreWord::Then,
                    },
                },
                Symbol::Sign {
                    sign: Sign::Core {
                        sign: CoreSign::OpenBrace,
                    },
                },
                Symbol::Steps { depth: depth + 2 },
                Symbol::ArmEnd {
                    at,
                    depth: depth + 1,
                },
                Symbol::ChainEnd { at: begun },
            ],
        ),
        _ => refuses(),
    }
}

/// What follows the values of a step.
pub(crate) fn step_end(pushes: &mut Pushes, depth: u8, lexeme: Lexeme) -> Outcome
    requires { depth < 200 }
    ensures does { Does result pushes.new (λ names. automaton.step_end depth (lexeme_named names lexeme)) }
    ensures shallow { AreShallow result pushes.new }
{
    match lexeme {
        Lexeme::Mark {
            sign: Sign::Core {
                sign: CoreSign::Semicolon,
            },
        } => takes(
            pushes,
            0,
            &[Word::Core { word: CoreWord::Do }],
            &[Symbol::Steps { depth }],
        ),
        Lexeme::Mark {
            sign: Sign::Core {
                sign: CoreSign::CloseBrace,
            },
        } => {
            takes(
                pushes,
                0,
                &[Word::Core {
                    word: CoreWord::Give,
                }],
                &[],
            )
        }
        _ => refuses(),
    }
}

/// After an `if` without its last `else` there is a `;`.
pub(crate) fn when_end(pushes: &mut Pushes, depth: u8, lexeme: Lexeme) -> Outcome
    requires { depth < 200 }
    ensures does { Does result pushes.new (λ names. automaton.when_end depth (lexeme_named names lexeme)) }
    ensures shallow { AreShallow result pushes.new }
{
    match lexeme {
        Lexeme::Mark {
            sign: Sign::Core {
                sign: CoreSign::Semicolon,
            },
        } => { takes(pushes, 0, &[Word::When], &[Symbol::Steps { depth }]) }
        _ => refuses(),
    }
}
