//! Arrays, constants and functions.

ghost use Rattle.std.specs.Prelude.{◌<◌, ◌+◌, ◌^◌};
ghost use Rattle.source.specs.Words.{name_of};
ghost use Rattle.source.specs.declared.token.Keyword.TheVariants as core_keyword;
ghost use Rattle.surface.specs.declared.token.Keyword.TheVariants as keyword;
ghost use Rattle.surface.specs.Spelled.{TheWord};
ghost use Rattle.law_surface_text.specs.Automaton as automaton;
ghost use Rattle.surface_text.specs.Outcomes.{lexeme_named, Does, AreShallow};

use crate::lexeme::{Lexeme, Named};
use crate::operands::is_small;
use crate::outcome::{Outcome, Pushes, passes, refuses, takes};
use law_surface_text::symbol::{NameWord, Symbol};
use source::token::{Keyword as CoreKeyword, Sign as CoreSign};
use source::word::Word as CoreWord;
use surface::token::{Keyword, Sign};
use surface::word::Word;

fn array(pushes: &mut Pushes) -> Outcome
    ensures does { Does result pushes.new (λ names. automaton.items (TheWord (keyword.Core core_keyword.Array))) }
    ensures shallow { AreShallow result pushes.new }
{
    takes(
        pushes,
        0,
        &[],
        &[
            Symbol::Name {
                word: NameWord::Array,
            },
            Symbol::Sign {
                sign: Sign::Core {
                    sign: CoreSign::OpenBracket,
                },
            },
            Symbol::Emit {
                word: Word::Core {
                    word: CoreWord::List,
                },
            },
            Symbol::Operand { level: 0, depth: 1 },
            Symbol::Further { depth: 0 },
            Symbol::Sign {
                sign: Sign::Core {
                    sign: CoreSign::CloseBracket,
                },
            },
            Symbol::Emit {
                word: Word::EndArray,
            },
            Symbol::Sign {
                sign: Sign::Core {
                    sign: CoreSign::Semicolon,
                },
            },
            Symbol::Items,
        ],
    )
}

fn function(pushes: &mut Pushes) -> Outcome
    ensures does { Does result pushes.new (λ names. automaton.items (TheWord (keyword.Core core_keyword.Fn))) }
    ensures shallow { AreShallow result pushes.new }
{
    takes(
        pushes,
        0,
        &[],
        &[
            Symbol::Name {
                word: NameWord::Function,
            },
            Symbol::Sign {
                sign: Sign::Core {
                    sign: CoreSign::OpenParen,
                },
            },
            Symbol::Parameter,
            Symbol::Parameters,
            Symbol::Sign {
                sign: Sign::Core {
                    sign: CoreSign::CloseParen,
                },
            },
            Symbol::Results,
            Symbol::FunctionBody,
            Symbol::Emit {
                word: Word::Core {
                    word: CoreWord::EndFunction,
                },
            },
            Symbol::Items,
        ],
    )
}

pub(crate) fn items(pushes: &mut Pushes, lexeme: Lexeme) -> Outcome
    ensures does { Does result pushes.new (λ names. automaton.items (lexeme_named names lexeme)) }
    ensures shallow { AreShallow result pushes.new }
{
    match lexeme {
        Lexeme::Word {
            keyword: Keyword::Core {
                keyword: CoreKeyword::Array,
            },
        } => array(pushes),
        Lexeme::Word {
            keyword: Keyword::Const,
        } => takes(
            pushes,
            0,
            &[],
            &[
                Symbol::Name {
                    word: NameWord::Constant,
                },
                Symbol::Sign {
                    sign: Sign::Core {
                        sign: CoreSign::Equals,
                    },
                },
                Symbol::Operand { level: 0, depth: 1 },
                Symbol::Emit {
                    word: Word::EndConstant,
                },
                Symbol::Sign {
                    sign: Sign::Core {
                        sign: CoreSign::Semicolon,
                    },
                },
                Symbol::Items,
            ],
        ),
        Lexeme::Word {
            keyword: Keyword::Core {
                keyword: CoreKeyword::Fn,
            },
        } => function(pushes),
        _ => refuses(),
    }
}

/// A name that is one word of its own.
pub(crate) fn one_name(pushes: &mut Pushes, word: NameWord, at: usize, lexeme: Lexeme) -> Outcome
    ensures does { Does result pushes.new (λ names. automaton.one_name word at (lexeme_named names lexeme)) }
    ensures shallow { AreShallow result pushes.new }
{
    let Lexeme::Name { name } = lexeme else {
        return refuses();
    };
    let word = match word {
        NameWord::Array => Word::Core {
            word: CoreWord::Array { at, name },
        },
        NameWord::Constant => Word::Constant { at, name },
        NameWord::Function => Word::Core {
            word: CoreWord::Function { at, name },
        },
        NameWord::Counter => Word::Counter { at, name },
        NameWord::Start => Word::Core {
            word: CoreWord::Start { at, name },
        },
    };
    takes(pushes, 0, &[word], &[])
}

pub(crate) fn parameter(pushes: &mut Pushes, at: usize, lexeme: Lexeme) -> Outcome
    ensures does { Does result pushes.new (λ names. automaton.parameter at (lexeme_named names lexeme)) }
    ensures shallow { AreShallow result pushes.new }
{
    match lexeme {
        Lexeme::Name { name } => takes(pushes, 0, &[], &[Symbol::AfterParameter { at, name }]),
        _ => refuses(),
    }
}

pub(crate) fn after_parameter(pushes: &mut Pushes, named: Named, lexeme: Lexeme) -> Outcome
    ensures does { Does result pushes.new (λ names. automaton.after_parameter named.at (name_of names named.name) (lexeme_named names lexeme)) }
    ensures shallow { AreShallow result pushes.new }
{
    let Named { at, name } = named;
    match lexeme {
        Lexeme::Mark {
            sign: Sign::Core {
                sign: CoreSign::OpenBracket,
            },
        } => { takes(pushes, 0, &[], &[Symbol::Rank { at, name, rank: 1 }]) }
        _ => passes(
            pushes,
            &[Word::Core {
                word: CoreWord::Parameter { at, name },
            }],
        ),
    }
}

/// The dimensions of a parameter, of which there are `rank` so far. There is room to count one more.
pub(crate) fn rank(pushes: &mut Pushes, named: Named, rank: usize, lexeme: Lexeme) -> Outcome
    requires { rank + 1 < 2 ^ 64 }
    ensures does { Does result pushes.new (λ names. automaton.rank named.at (name_of names named.name) rank (lexeme_named names lexeme)) }
    ensures shallow { AreShallow result pushes.new }
{
    let Named { at, name } = named;
    match lexeme {
        Lexeme::Mark {
            sign: Sign::Core {
                sign: CoreSign::Comma,
            },
        } => {
            takes(
                pushes,
                0,
                &[],
                &[Symbol::Rank {
                    at,
                    name,
                    rank: rank + 1,
                }],
            )
        }
        Lexeme::Mark {
            sign: Sign::Core {
                sign: CoreSign::CloseBracket,
            },
        } => { takes(pushes, 0, &[Word::ArrayParameter { at, name, rank }], &[]) }
        _ => refuses(),
    }
}

pub(crate) fn parameters(pushes: &mut Pushes, lexeme: Lexeme) -> Outcome
    ensures does { Does result pushes.new (λ names. automaton.parameters (lexeme_named names lexeme)) }
    ensures shallow { AreShallow result pushes.new }
{
    match lexeme {
        Lexeme::Mark {
            sign: Sign::Core {
                sign: CoreSign::Comma,
            },
        } => { takes(pushes, 0, &[], &[Symbol::Parameter, Symbol::Parameters]) }
        _ => passes(pushes, &[]),
    }
}

pub(crate) fn results(pushes: &mut Pushes, lexeme: Lexeme) -> Outcome
    ensures does { Does result pushes.new (λ names. automaton.results (lexeme_named names lexeme)) }
    ensures shallow { AreShallow result pushes.new }
{
    match lexeme {
        Lexeme::Mark {
            sign: Sign::Core {
                sign: CoreSign::Arrow,
            },
        } => { takes(pushes, 0, &[], &[Symbol::ResultCount]) }
        _ => passes(pushes, &[]),
    }
}

pub(crate) fn result_count(pushes: &mut Pushes, at: usize, lexeme: Lexeme) -> Outcome
    ensures does { Does result pushes.new (λ names. automaton.result_count at (lexeme_named names lexeme)) }
    ensures shallow { AreShallow result pushes.new }
{
    match lexeme {
        Lexeme::Number { number } if is_small(number) => {
            takes(
                pushes,
                0,
                &[Word::Core {
                    word: CoreWord::Results { at, number },
                }],
                &[],
            )
        }
        Lexeme::Name { name } => takes(pushes, 0, &[Word::ConstantResults { at, name }], &[]),
        _ => refuses(),
    }
}

pub(crate) fn function_body(pushes: &mut Pushes, at: usize, lexeme: Lexeme) -> Outcome
    ensures does { Does result pushes.new (λ names. automaton.function_body at (lexeme_named names lexeme)) }
    ensures shallow { AreShallow result pushes.new }
{
    match lexeme {
        Lexeme::Mark {
            sign: Sign::Core {
                sign: CoreSign::OpenBrace,
            },
        } => takes(
            pushes,
            0,
            &[Word::Core {
                word: CoreWord::Body { at },
            }],
            &[Symbol::Steps { depth: 0 }],
        ),
        _ => refuses(),
    }
}
