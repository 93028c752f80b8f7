//! Operands.

ghost use Rattle.std.specs.Prelude.{◌≤◌, ◌<◌, ◌+◌, ◌++◌, ◌∷◌, []};
ghost use Rattle.law_language.specs.GrammarAutomaton as automaton;
ghost use Rattle.source.specs.Words.{name_of};
ghost use Rattle.source_text.specs.declared.lexeme.Lexeme.TheVariants.{Number};
ghost use Rattle.law_language.specs.GrammarNamed.{named_symbol};
ghost use Rattle.source_text.specs.Outcomes.{lexeme_named, Does, IsShallow, AreShallow};

use crate::lexeme::{Called, Lexeme};
use crate::numbers::{LARGEST, is_small, too_large};
use crate::outcome::{Outcome, Pushes, refuses, takes, unexpected};
use law_language::symbol::Symbol;
use operators::Unary;
use source::fault::FaultKind;
use source::token::{Keyword, Sign};
use source::word::Word;

/// How many may be open at once.
pub(crate) const LIMIT: u8 = 200;

/// What follows an `if`, and what follows the conditional.
fn conditional(pushes: &mut Pushes, at: usize, depth: u8, last: Symbol<usize>) -> Outcome
    requires deep { depth + 2 ≤ 200 }
    requires shallow { IsShallow last }
    ensures does { Does result pushes.new (λ names. automaton.Takes [] (automaton.conditional at depth ++ named_symbol names last ∷ [])) }
    ensures shallow { AreShallow result pushes.new }
{
    takes(
        pushes,
        &[],
        &[
            Symbol::Operand {
                level: 0,
                depth: depth + 2,
            },
            Symbol::Emit { word: Word::Then },
            Symbol::Sign {
                sign: Sign::OpenBrace,
            },
            Symbol::Steps { depth: depth + 1 },
            Symbol::Emit { word: Word::Else },
            Symbol::Keyword {
                keyword: Keyword::Else,
            },
            Symbol::Otherwise { depth: depth + 1 },
            Symbol::Emit {
                word: Word::EndIf { at },
            },
            last,
        ],
    )
}

fn operand_word(pushes: &mut Pushes, level: u8, depth: u8, at: usize, keyword: Keyword) -> Outcome
    requires { depth ≤ 201 }
    ensures does { Does result pushes.new (λ names. automaton.operand_word 200 level depth at keyword) }
    ensures shallow { AreShallow result pushes.new }
{
    let after = Symbol::After {
        level,
        left: 9,
        depth,
    };
    match keyword {
        Keyword::If if depth + 2 <= LIMIT => conditional(pushes, at, depth, after),
        Keyword::Strict if depth < LIMIT => takes(pushes, &[], &[Symbol::Callee { depth }, after]),
        Keyword::Loop if depth < LIMIT => {
            takes(
                pushes,
                &[Word::Loop { at }],
                &[Symbol::Bound { at, depth }, after],
            )
        }
        Keyword::If | Keyword::Strict | Keyword::Loop => refuses(FaultKind::TooDeep),
        _ => unexpected(),
    }
}

fn operand_sign(pushes: &mut Pushes, level: u8, depth: u8, at: usize, sign: Sign) -> Outcome
    requires { depth ≤ 201 }
    ensures does { Does result pushes.new (λ names. automaton.operand_sign 200 level depth at sign) }
    ensures shallow { AreShallow result pushes.new }
{
    match sign {
        Sign::OpenParen if depth < LIMIT => takes(
            pushes,
            &[],
            &[
                Symbol::Operand {
                    level: 0,
                    depth: depth + 1,
                },
                Symbol::Sign {
                    sign: Sign::CloseParen,
                },
                Symbol::Emit {
                    word: Word::Bracket,
                },
                Symbol::After {
                    level,
                    left: 9,
                    depth,
                },
            ],
        ),
        Sign::Minus if depth <= LIMIT => takes(
            pushes,
            &[],
            &[
                Symbol::Negated { depth },
                Symbol::Emit {
                    word: Word::Prefix { at, op: Unary::Neg },
                },
                Symbol::After {
                    level,
                    left: 8,
                    depth,
                },
            ],
        ),
        Sign::Tilde if depth < LIMIT => takes(
            pushes,
            &[],
            &[
                Symbol::Operand {
                    level: 8,
                    depth: depth + 1,
                },
                Symbol::Emit {
                    word: Word::Prefix { at, op: Unary::Not },
                },
                Symbol::After {
                    level,
                    left: 8,
                    depth,
                },
            ],
        ),
        Sign::OpenParen | Sign::Minus | Sign::Tilde => refuses(FaultKind::TooDeep),
        _ => unexpected(),
    }
}

fn operand_number(pushes: &mut Pushes, level: u8, depth: u8, at: usize, number: u64) -> Outcome
    requires { depth ≤ 201 }
    ensures does { Does result pushes.new (λ names. automaton.operand 200 level depth at (lexeme_named names (Number number))) }
    ensures shallow { AreShallow result pushes.new }
{
    if !is_small(number) {
        too_large(number)
    } else if depth <= LIMIT {
        takes(
            pushes,
            &[Word::Number { at, number }],
            &[Symbol::After {
                level,
                left: 9,
                depth,
            }],
        )
    } else {
        refuses(FaultKind::TooDeep)
    }
}

pub(crate) fn operand(
    pushes: &mut Pushes,
    level: u8,
    depth: u8,
    at: usize,
    lexeme: Lexeme,
) -> Outcome
    requires { depth ≤ 201 }
    ensures does { Does result pushes.new (λ names. automaton.operand 200 level depth at (lexeme_named names lexeme)) }
    ensures shallow { AreShallow result pushes.new }
{
    match lexeme {
        Lexeme::Number { number } => operand_number(pushes, level, depth, at, number),
        Lexeme::Name { name } if depth <= LIMIT => takes(
            pushes,
            &[],
            &[Symbol::AfterName {
                at,
                name,
                level,
                depth,
            }],
        ),
        Lexeme::Name { .. } => refuses(FaultKind::TooDeep),
        Lexeme::Mark { sign } => operand_sign(pushes, level, depth, at, sign),
        Lexeme::Word { keyword } => operand_word(pushes, level, depth, at, keyword),
    }
}

/// The operand of a `-`. A number is not deeper, and may be 2 ^ 63.
pub(crate) fn negated(pushes: &mut Pushes, depth: u8, at: usize, lexeme: Lexeme) -> Outcome
    requires { depth ≤ 200 }
    ensures does { Does result pushes.new (λ names. automaton.negated 200 depth at (lexeme_named names lexeme)) }
    ensures shallow { AreShallow result pushes.new }
{
    match lexeme {
        Lexeme::Number { number } if number <= LARGEST => {
            takes(pushes, &[Word::Number { at, number }], &[])
        }
        Lexeme::Number { .. } => unexpected(),
        _ => operand(pushes, 8, depth + 1, at, lexeme),
    }
}

pub(crate) fn callee(pushes: &mut Pushes, depth: u8, at: usize, lexeme: Lexeme) -> Outcome
    requires { depth < 200 }
    ensures does { Does result pushes.new (λ names. automaton.callee depth at (lexeme_named names lexeme)) }
    ensures shallow { AreShallow result pushes.new }
{
    match lexeme {
        Lexeme::Name { name } => takes(
            pushes,
            &[Word::Callee { at, function: name }, Word::List],
            &[
                Symbol::Sign {
                    sign: Sign::OpenParen,
                },
                Symbol::Operand {
                    level: 0,
                    depth: depth + 1,
                },
                Symbol::CallEnd {
                    at,
                    strict: true,
                    function: name,
                    depth,
                },
            ],
        ),
        _ => unexpected(),
    }
}

pub(crate) fn call_end(pushes: &mut Pushes, called: Called, depth: u8, lexeme: Lexeme) -> Outcome
    requires { depth < 200 }
    ensures does { Does result pushes.new (λ names. automaton.call_end called.at called.strict (name_of names called.function) depth
        (lexeme_named names lexeme)) }
    ensures shallow { AreShallow result pushes.new }
{
    let Called {
        at,
        strict,
        function,
    } = called;
    match lexeme {
        Lexeme::Mark { sign: Sign::Comma } => takes(
            pushes,
            &[Word::Part],
            &[
                Symbol::Operand {
                    level: 0,
                    depth: depth + 1,
                },
                Symbol::CallEnd {
                    at,
                    strict,
                    function,
                    depth,
                },
            ],
        ),
        Lexeme::Mark {
            sign: Sign::CloseParen,
        } => takes(
            pushes,
            &[
                Word::Part,
                Word::Call {
                    at,
                    strict,
                    function,
                },
            ],
            &[],
        ),
        _ => unexpected(),
    }
}

/// After an `else` there is an `if` or a block.
pub(crate) fn otherwise(pushes: &mut Pushes, depth: u8, at: usize, lexeme: Lexeme) -> Outcome
    requires { depth < 200 }
    ensures does { Does result pushes.new (λ names. automaton.otherwise 200 depth at (lexeme_named names lexeme)) }
    ensures shallow { AreShallow result pushes.new }
{
    match lexeme {
        Lexeme::Mark {
            sign: Sign::OpenBrace,
        } => takes(pushes, &[], &[Symbol::Steps { depth }]),
        Lexeme::Word {
            keyword: Keyword::If,
        } if depth + 2 <= LIMIT => conditional(
            pushes,
            at,
            depth,
            Symbol::Emit { word: Word::Chain },
        ),
        Lexeme::Word {
            keyword: Keyword::If,
        } => refuses(FaultKind::TooDeep),
        _ => unexpected(),
    }
}
