//! Lists, loops and `for`.

ghost use Rattle.std.specs.Prelude.{◌<◌, ◌≤◌, ◌+◌, [], ◌∷◌, map, length};
ghost use Rattle.source.specs.Words.{name_of};
ghost use Rattle.surface.specs.Words.{named};
ghost use Rattle.law_surface_text.specs.Automaton as automaton;
ghost use Rattle.surface_text.specs.Outcomes.{lexeme_named, Does, AreShallow};

use crate::lexeme::{Lexeme, Named};
use crate::operands::is_small;
use crate::outcome::{Outcome, Pushes, passes, refuses, takes};
use law_surface_text::symbol::{NameWord, Symbol};
use source::token::{Keyword as CoreKeyword, Sign as CoreSign};
use source::word::Word as CoreWord;
use surface::token::{Keyword, Sign};
use surface::word::Word;

/// Further parts of a list.
pub(crate) fn further(pushes: &mut Pushes, depth: u8, lexeme: Lexeme) -> Outcome
    requires { depth < 200 }
    ensures does { Does result pushes.new (λ names. automaton.further depth (lexeme_named names lexeme)) }
    ensures shallow { AreShallow result pushes.new }
{
    let part = Word::Core {
        word: CoreWord::Part,
    };
    match lexeme {
        Lexeme::Mark {
            sign: Sign::Core {
                sign: CoreSign::Comma,
            },
        } => takes(
            pushes,
            0,
            &[part],
            &[
                Symbol::Operand {
                    level: 0,
                    depth: depth + 1,
                },
                Symbol::Further { depth },
            ],
        ),
        _ => passes(pushes, &[part]),
    }
}

/// Further indexes of a cell.
pub(crate) fn indexes(pushes: &mut Pushes, depth: u8, lexeme: Lexeme) -> Outcome
    requires { depth < 200 }
    ensures does { Does result pushes.new (λ names. automaton.indexes depth (lexeme_named names lexeme)) }
    ensures shallow { AreShallow result pushes.new }
{
    match lexeme {
        Lexeme::Mark {
            sign: Sign::Core {
                sign: CoreSign::Comma,
            },
        } => takes(
            pushes,
            0,
            &[Word::NextIndex],
            &[
                Symbol::Operand {
                    level: 0,
                    depth: depth + 1,
                },
                Symbol::Indexes { depth },
            ],
        ),
        _ => passes(pushes, &[]),
    }
}

/// A name with its first value, and further ones, after these words.
fn first_of(pushes: &mut Pushes, words: &[Word<usize>], depth: u8) -> Outcome
    requires depth { depth < 200 }
    requires words { length words.now ≤ 2 }
    ensures does { Does result pushes.new (λ names. automaton.Takes 0 (map (named names) words.now) (automaton.first_of depth [])) }
    ensures shallow { AreShallow result pushes.new }
{
    takes(
        pushes,
        0,
        words,
        &[
            Symbol::Name {
                word: NameWord::Start,
            },
            Symbol::Sign {
                sign: Sign::Core {
                    sign: CoreSign::Equals,
                },
            },
            Symbol::Operand {
                level: 0,
                depth: depth + 1,
            },
            Symbol::Starts { depth },
        ],
    )
}

/// Further names with their first values.
pub(crate) fn starts(pushes: &mut Pushes, depth: u8, lexeme: Lexeme) -> Outcome
    requires { depth < 200 }
    ensures does { Does result pushes.new (λ names. automaton.starts depth (lexeme_named names lexeme)) }
    ensures shallow { AreShallow result pushes.new }
{
    let first = Word::Core {
        word: CoreWord::First,
    };
    match lexeme {
        Lexeme::Mark {
            sign: Sign::Core {
                sign: CoreSign::Comma,
            },
        } => { first_of(pushes, &[first], depth) }
        _ => passes(pushes, &[first]),
    }
}

/// The names after `with`, if there are some.
pub(crate) fn carried(pushes: &mut Pushes, depth: u8, lexeme: Lexeme) -> Outcome
    requires { depth < 200 }
    ensures does { Does result pushes.new (λ names. automaton.carried depth (lexeme_named names lexeme)) }
    ensures shallow { AreShallow result pushes.new }
{
    match lexeme {
        Lexeme::Word {
            keyword: Keyword::With,
        } => first_of(pushes, &[], depth),
        _ => passes(pushes, &[]),
    }
}

/// What follows the bound of a loop.
fn loop_rest(pushes: &mut Pushes, depth: u8, bound: Word<usize>, last: Word<usize>) -> Outcome
    requires { depth < 200 }
    ensures does { Does result pushes.new (λ names. automaton.Takes 0 (named names bound ∷ []) (automaton.loop_rest depth (named names last))) }
    ensures shallow { AreShallow result pushes.new }
{
    takes(
        pushes,
        0,
        &[bound],
        &[
            Symbol::Sign {
                sign: Sign::Core {
                    sign: CoreSign::OpenParen,
                },
            },
            Symbol::Name {
                word: NameWord::Start,
            },
            Symbol::Sign {
                sign: Sign::Core {
                    sign: CoreSign::Equals,
                },
            },
            Symbol::Operand {
                level: 0,
                depth: depth + 1,
            },
            Symbol::Starts { depth },
            Symbol::Sign {
                sign: Sign::Core {
                    sign: CoreSign::CloseParen,
                },
            },
            Symbol::Turn { depth },
            Symbol::Emit { word: last },
        ],
    )
}

/// The bound of the loop that is at `begun`.
pub(crate) fn bound(
    pushes: &mut Pushes,
    begun: usize,
    depth: u8,
    at: usize,
    lexeme: Lexeme,
) -> Outcome
    requires { depth < 200 }
    ensures does { Does result pushes.new (λ names. automaton.bound begun depth at (lexeme_named names lexeme)) }
    ensures shallow { AreShallow result pushes.new }
{
    match lexeme {
        Lexeme::Number { number } if is_small(number) => loop_rest(
            pushes,
            depth,
            Word::Core {
                word: CoreWord::Bound { at, bound: number },
            },
            Word::Core {
                word: CoreWord::EndLoop {
                    at: begun,
                    bound: number,
                },
            },
        ),
        Lexeme::Name { name } => loop_rest(
            pushes,
            depth,
            Word::ConstantBound { at, name },
            Word::EndConstantLoop { at: begun, name },
        ),
        _ => refuses(),
    }
}

/// The test and the body of a loop.
pub(crate) fn turn(pushes: &mut Pushes, depth: u8, lexeme: Lexeme) -> Outcome
    requires { depth < 200 }
    ensures does { Does result pushes.new (λ names. automaton.turn depth (lexeme_named names lexeme)) }
    ensures shallow { AreShallow result pushes.new }
{
    match lexeme {
        Lexeme::Word {
            keyword: Keyword::Core {
                keyword: CoreKeyword::While,
            },
        } => takes(
            pushes,
            0,
            &[Word::Core {
                word: CoreWord::TestFirst,
            }],
            &[
                Symbol::Operand {
                    level: 0,
                    depth: depth + 1,
                },
                Symbol::Emit {
                    word: Word::Core {
                        word: CoreWord::While,
                    },
                },
                Symbol::Sign {
                    sign: Sign::Core {
                        sign: CoreSign::OpenBrace,
                    },
                },
                Symbol::Steps { depth },
            ],
        ),
        Lexeme::Mark {
            sign: Sign::Core {
                sign: CoreSign::OpenBrace,
            },
        } => takes(
            pushes,
            0,
            &[Word::Core {
                word: CoreWord::BodyFirst,
            }],
            &[
                Symbol::Steps { depth },
                Symbol::Emit {
                    word: Word::Core {
                        word: CoreWord::Until,
                    },
                },
                Symbol::Keyword {
                    keyword: CoreKeyword::While,
                },
                Symbol::Sign {
                    sign: Sign::Core {
                        sign: CoreSign::OpenParen,
                    },
                },
                Symbol::Operand {
                    level: 0,
                    depth: depth + 1,
                },
                Symbol::Sign {
                    sign: Sign::Core {
                        sign: CoreSign::CloseParen,
                    },
                },
            ],
        ),
        _ => refuses(),
    }
}

/// What follows the `in` of a `for`, after these words.
fn range_rest(pushes: &mut Pushes, words: &[Word<usize>], depth: u8) -> Outcome
    requires depth { depth < 200 }
    requires words { length words.now ≤ 2 }
    ensures does { Does result pushes.new (λ names. automaton.Takes 0 (map (named names) words.now) (automaton.range_rest depth)) }
    ensures shallow { AreShallow result pushes.new }
{
    takes(
        pushes,
        0,
        words,
        &[
            Symbol::Operand {
                level: 0,
                depth: depth + 1,
            },
            Symbol::Emit { word: Word::Range },
            Symbol::Sign { sign: Sign::Range },
            Symbol::Operand {
                level: 0,
                depth: depth + 1,
            },
            Symbol::Emit {
                word: Word::EndRange,
            },
            Symbol::Carried { depth },
            Symbol::Emit { word: Word::Turns },
            Symbol::Sign {
                sign: Sign::Core {
                    sign: CoreSign::OpenBrace,
                },
            },
            Symbol::Steps { depth },
        ],
    )
}

/// The bound of a `for`, where it has one, and its counter.
pub(crate) fn for_bound(pushes: &mut Pushes, depth: u8, at: usize, lexeme: Lexeme) -> Outcome
    requires { depth < 200 }
    ensures does { Does result pushes.new (λ names. automaton.for_bound depth at (lexeme_named names lexeme)) }
    ensures shallow { AreShallow result pushes.new }
{
    match lexeme {
        Lexeme::Number { number } if is_small(number) => takes(
            pushes,
            0,
            &[Word::Core {
                word: CoreWord::Bound { at, bound: number },
            }],
            &[
                Symbol::Name {
                    word: NameWord::Counter,
                },
                Symbol::Range { depth },
            ],
        ),
        Lexeme::Name { name } => takes(pushes, 0, &[], &[Symbol::AfterForName { at, name, depth }]),
        _ => refuses(),
    }
}

/// The first name is the counter's before `in`, and the bound's before another name.
pub(crate) fn after_for_name(
    pushes: &mut Pushes,
    first: Named,
    depth: u8,
    at: usize,
    lexeme: Lexeme,
) -> Outcome
    requires { depth < 200 }
    ensures does { Does result pushes.new (λ names. automaton.after_for_name first.at (name_of names first.name) depth at (lexeme_named names lexeme)) }
    ensures shallow { AreShallow result pushes.new }
{
    match lexeme {
        Lexeme::Name { name } => takes(
            pushes,
            0,
            &[
                Word::ConstantBound {
                    at: first.at,
                    name: first.name,
                },
                Word::Counter { at, name },
            ],
            &[Symbol::Range { depth }],
        ),
        Lexeme::Word {
            keyword: Keyword::In,
        } => range_rest(
            pushes,
            &[Word::Counter {
                at: first.at,
                name: first.name,
            }],
            depth,
        ),
        _ => refuses(),
    }
}

/// The `in` of a `for`, and what follows it.
pub(crate) fn range(pushes: &mut Pushes, depth: u8, lexeme: Lexeme) -> Outcome
    requires { depth < 200 }
    ensures does { Does result pushes.new (λ names. automaton.range depth (lexeme_named names lexeme)) }
    ensures shallow { AreShallow result pushes.new }
{
    match lexeme {
        Lexeme::Word {
            keyword: Keyword::In,
        } => range_rest(pushes, &[], depth),
        _ => refuses(),
    }
}
