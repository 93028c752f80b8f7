//! Operands.

ghost use Rattle.std.specs.Prelude.{◌≡◌, ◌≤◌, ◌<◌, ◌+◌, ◌^◌, ◌==◌, ◌∷◌, [], nat_lt};
ghost use Rattle.law_surface_text.specs.Automaton as automaton;
ghost use Rattle.law_surface_text.specs.Named.{named_symbol};
ghost use Rattle.surface_text.specs.declared.lexeme.Lexeme.TheVariants.{Number};
ghost use Rattle.surface_text.specs.Outcomes.{lexeme_named, Does, IsShallow, AreShallow};

use crate::lexeme::Lexeme;
use crate::outcome::{Outcome, Pushes, refuses, takes};
use law_surface_text::symbol::Symbol;
use operators::Unary;
use source::token::{Keyword as CoreKeyword, Sign as CoreSign};
use source::word::Word as CoreWord;
use surface::token::{Keyword, Sign};
use surface::word::Word;

/// The largest number, which is allowed only directly after a `-`.
const LARGEST: u64 = 1 << 63;

/// Whether a number is 2 ^ 63.
pub(crate) fn is_largest(number: u64) -> bool
    ensures { result ≡ (number == 2 ^ 63) }
{
    number == LARGEST
}

/// Whether a number is below 2 ^ 63.
pub(crate) fn is_small(number: u64) -> bool
    ensures { result ≡ nat_lt number (2 ^ 63) }
{
    number < LARGEST
}

/// What follows an `if`, and what follows the conditional.
fn conditional(pushes: &mut Pushes, at: usize, depth: u8, last: Symbol<usize>) -> Outcome
    requires deep { depth ≤ 201 }
    requires shallow { depth + 2 ≤ 200 → IsShallow last }
    ensures does { Does result pushes.new (λ names. automaton.Takes (depth + 2) [] (automaton.conditional at depth (named_symbol names last ∷ []))) }
    ensures shallow { AreShallow result pushes.new }
{
    takes(
        pushes,
        depth + 2,
        &[],
        &[
            Symbol::Operand {
                level: 0,
                depth: depth + 2,
            },
            Symbol::Emit {
                word: Word::Core {
                    word: CoreWord::Then,
                },
            },
            Symbol::Sign {
                sign: Sign::Core {
                    sign: CoreSign::OpenBrace,
                },
            },
            Symbol::Steps { depth: depth + 1 },
            Symbol::Emit {
                word: Word::Core {
                    word: CoreWord::Else,
                },
            },
            Symbol::Keyword {
                keyword: CoreKeyword::Else,
            },
            Symbol::Otherwise { depth: depth + 1 },
            Symbol::Emit {
                word: Word::Core {
                    word: CoreWord::EndIf { at },
                },
            },
            last,
        ],
    )
}

fn operand_word(pushes: &mut Pushes, level: u8, depth: u8, at: usize, keyword: Keyword) -> Outcome
    requires { depth ≤ 201 }
    ensures does { Does result pushes.new (λ names. automaton.operand_word level depth at keyword) }
    ensures shallow { AreShallow result pushes.new }
{
    let after = Symbol::After {
        level,
        left: 12,
        depth,
    };
    match keyword {
        Keyword::Core {
            keyword: CoreKeyword::Strict,
        } => { takes(pushes, depth + 1, &[], &[Symbol::Callee { depth }, after]) }
        Keyword::Core {
            keyword: CoreKeyword::If,
        } => conditional(pushes, at, depth, after),
        Keyword::Core {
            keyword: CoreKeyword::Loop,
        } => takes(
            pushes,
            depth + 1,
            &[Word::Core {
                word: CoreWord::Loop { at },
            }],
            &[Symbol::Bound { at, depth }, after],
        ),
        Keyword::For => takes(
            pushes,
            depth + 1,
            &[Word::For { at }],
            &[
                Symbol::ForBound { depth },
                Symbol::Emit {
                    word: Word::EndFor { at },
                },
                after,
            ],
        ),
        Keyword::Not if level <= 3 => takes(
            pushes,
            depth + 1,
            &[],
            &[
                Symbol::Operand {
                    level: 3,
                    depth: depth + 1,
                },
                Symbol::Emit {
                    word: Word::Not { at },
                },
                Symbol::After {
                    level,
                    left: 3,
                    depth,
                },
            ],
        ),
        _ => refuses(),
    }
}

fn operand_sign(pushes: &mut Pushes, level: u8, depth: u8, at: usize, sign: Sign) -> Outcome
    requires { depth ≤ 201 }
    ensures does { Does result pushes.new (λ names. automaton.operand_sign level depth at sign) }
    ensures shallow { AreShallow result pushes.new }
{
    match sign {
        Sign::Core {
            sign: CoreSign::OpenParen,
        } => takes(
            pushes,
            depth + 1,
            &[],
            &[
                Symbol::Operand {
                    level: 0,
                    depth: depth + 1,
                },
                Symbol::Sign {
                    sign: Sign::Core {
                        sign: CoreSign::CloseParen,
                    },
                },
                Symbol::Emit {
                    word: Word::Core {
                        word: CoreWord::Bracket,
                    },
                },
                Symbol::After {
                    level,
                    left: 12,
                    depth,
                },
            ],
        ),
        Sign::Core {
            sign: CoreSign::Minus,
        } => takes(
            pushes,
            depth,
            &[],
            &[
                Symbol::Negated { depth },
                Symbol::Emit {
                    word: Word::Core {
                        word: CoreWord::Prefix { at, op: Unary::Neg },
                    },
                },
                Symbol::After {
                    level,
                    left: 11,
                    depth,
                },
            ],
        ),
        Sign::Core {
            sign: CoreSign::Tilde,
        } => takes(
            pushes,
            depth + 1,
            &[],
            &[
                Symbol::Operand {
                    level: 11,
                    depth: depth + 1,
                },
                Symbol::Emit {
                    word: Word::Core {
                        word: CoreWord::Prefix { at, op: Unary::Not },
                    },
                },
                Symbol::After {
                    level,
                    left: 11,
                    depth,
                },
            ],
        ),
        _ => refuses(),
    }
}

fn operand_number(pushes: &mut Pushes, level: u8, depth: u8, at: usize, number: u64) -> Outcome
    requires { depth ≤ 201 }
    ensures does { Does result pushes.new (λ names. automaton.operand level depth at (lexeme_named names (Number number))) }
    ensures shallow { AreShallow result pushes.new }
{
    if !is_small(number) {
        return refuses();
    }
    takes(
        pushes,
        depth,
        &[Word::Core {
            word: CoreWord::Number { at, number },
        }],
        &[Symbol::After {
            level,
            left: 12,
            depth,
        }],
    )
}

pub(crate) fn operand(
    pushes: &mut Pushes,
    level: u8,
    depth: u8,
    at: usize,
    lexeme: Lexeme,
) -> Outcome
    requires { depth ≤ 201 }
    ensures does { Does result pushes.new (λ names. automaton.operand level depth at (lexeme_named names lexeme)) }
    ensures shallow { AreShallow result pushes.new }
{
    match lexeme {
        Lexeme::Number { number } => operand_number(pushes, level, depth, at, number),
        Lexeme::Name { name } => takes(
            pushes,
            depth,
            &[],
            &[Symbol::AfterName {
                at,
                name,
                level,
                depth,
            }],
        ),
        Lexeme::Mark { sign } => operand_sign(pushes, level, depth, at, sign),
        Lexeme::Word { keyword } => operand_word(pushes, level, depth, at, keyword),
    }
}

/// The operand of a `-`. A number is not deeper, and may be 2 ^ 63.
pub(crate) fn negated(pushes: &mut Pushes, depth: u8, at: usize, lexeme: Lexeme) -> Outcome
    requires { depth ≤ 200 }
    ensures does { Does result pushes.new (λ names. automaton.negated depth at (lexeme_named names lexeme)) }
    ensures shallow { AreShallow result pushes.new }
{
    match lexeme {
        Lexeme::Number { number } if number <= LARGEST => takes(
            pushes,
            0,
            &[Word::Core {
                word: CoreWord::Number { at, number },
            }],
            &[],
        ),
        Lexeme::Number { .. } => refuses(),
        _ => operand(pushes, 11, depth + 1, at, lexeme),
    }
}

pub(crate) fn callee(pushes: &mut Pushes, depth: u8, at: usize, lexeme: Lexeme) -> Outcome
    requires { depth < 200 }
    ensures does { Does result pushes.new (λ names. automaton.callee depth at (lexeme_named names lexeme)) }
    ensures shallow { AreShallow result pushes.new }
{
    match lexeme {
        Lexeme::Name { name } => takes(
            pushes,
            0,
            &[
                Word::Core {
                    word: CoreWord::Callee { at, function: name },
                },
                Word::Core {
                    word: CoreWord::List,
                },
            ],
            &[
                Symbol::Sign {
                    sign: Sign::Core {
                        sign: CoreSign::OpenParen,
                    },
                },
                Symbol::Operand {
                    level: 0,
                    depth: depth + 1,
                },
                Symbol::Further { depth },
                Symbol::Sign {
                    sign: Sign::Core {
                        sign: CoreSign::CloseParen,
                    },
                },
                Symbol::Emit {
                    word: Word::Core {
                        word: CoreWord::Call {
                            at,
                            strict: true,
                            function: name,
                        },
                    },
                },
            ],
        ),
        _ => refuses(),
    }
}

/// After an `else` there is an `if` or a block.
pub(crate) fn otherwise(pushes: &mut Pushes, depth: u8, at: usize, lexeme: Lexeme) -> Outcome
    requires { depth < 200 }
    ensures does { Does result pushes.new (λ names. automaton.otherwise depth at (lexeme_named names lexeme)) }
    ensures shallow { AreShallow result pushes.new }
{
    match lexeme {
        Lexeme::Mark {
            sign: Sign::Core {
                sign: CoreSign::OpenBrace,
            },
        } => { takes(pushes, 0, &[], &[Symbol::Steps { depth }]) }
        Lexeme::Word {
            keyword: Keyword::Core {
                keyword: CoreKeyword::If,
            },
        } => conditional(
            pushes,
            at,
            depth,
            Symbol::Emit {
                word: Word::Core {
                    word: CoreWord::Chain,
                },
            },
        ),
        _ => refuses(),
    }
}
