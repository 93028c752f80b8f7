//! What each symbol of the stack does with a token.

ghost use Rattle.std.specs.Prelude.{◌≡◌, ◌≤◌, ◌<◌, ◌+◌, None, IfSome};
ghost use Rattle.source.specs.Words.{name_of};
ghost use Rattle.source.specs.declared.token.Sign.TheVariants as core_sign;
ghost use Rattle.source.specs.declared.token.Keyword.TheVariants as core_keyword;
ghost use Rattle.surface.specs.declared.token.Sign.TheVariants as sign;
ghost use Rattle.surface.specs.declared.token.Keyword.TheVariants as keyword;
ghost use Rattle.surface.specs.Spelled.{TheSign, TheWord};
ghost use Rattle.law_surface_text.specs.declared.symbol.Symbol.TheVariants.{Sign as OneSign, Keyword as OneWord};
ghost use Rattle.law_surface_text.specs.Automaton as automaton;
ghost use Rattle.law_surface_text.specs.Named.{named_symbol};
ghost use Rattle.surface_text.specs.declared.outcome.Pushes.{Pushes};
ghost use Rattle.surface_text.specs.Outcomes.{lexeme_named, Does, Reacts, IsShallow, AreShallow, AreAllShallow};

use crate::after::after;
use crate::bodies::{arm_end, step_end, step_otherwise, target, targets, when_end};
use crate::forms::{
    after_for_name, bound, carried, for_bound, further, indexes, range, starts, turn,
};
use crate::items::{
    after_parameter, function_body, items, one_name, parameter, parameters, rank, result_count,
    results,
};
use crate::lexeme::{Lexeme, Named};
use crate::operands::{callee, negated, operand, otherwise};
use crate::outcome::{Outcome, Pushes, lacks, passes, refuses, takes};
use law_surface_text::symbol::Symbol;
use source::token::{Keyword as CoreKeyword, Sign as CoreSign};
use source::word::Word as CoreWord;
use surface::token::{Keyword, Sign};
use surface::word::Word;

/// What a symbol does with a token: a word may be put before those that it pushes, and the symbols that follow the first value of a step below those.
#[derive(Clone, Copy)]
pub(crate) struct Reaction {
    pub before: Option<Word<usize>>,
    pub outcome: Outcome,
    pub below: Option<u8>,
}

/// The step is what the outcome says.
fn plain(outcome: Outcome) -> Reaction
    ensures does { result ≡ record { before = None; outcome = outcome; below = None } }
    ensures shallow { (pushes : Pushes) → AreShallow outcome pushes → AreAllShallow result pushes }
{
    Reaction {
        before: None,
        outcome,
        below: None,
    }
}

fn call(pushes: &mut Pushes, at: usize, function: usize, level: u8, depth: u8) -> Outcome
    requires { depth ≤ 200 }
    ensures does { Does result pushes.new (λ names. automaton.after_name at (name_of names function) level depth at (TheSign (sign.Core core_sign.OpenParen))) }
    ensures shallow { AreShallow result pushes.new }
{
    takes(
        pushes,
        depth + 1,
        &[
            Word::Core {
                word: CoreWord::Callee { at, function },
            },
            Word::Core {
                word: CoreWord::List,
            },
        ],
        &[
            Symbol::Operand {
                level: 0,
                depth: depth + 1,
            },
            Symbol::Further { depth },
            Symbol::Sign {
                sign: Sign::Core {
                    sign: CoreSign::CloseParen,
                },
            },
            Symbol::Emit {
                word: Word::Core {
                    word: CoreWord::Call {
                        at,
                        strict: false,
                        function,
                    },
                },
            },
            Symbol::After {
                level,
                left: 12,
                depth,
            },
        ],
    )
}

fn cell(pushes: &mut Pushes, at: usize, array: usize, level: u8, depth: u8) -> Outcome
    requires { depth ≤ 200 }
    ensures does { Does result pushes.new (λ names. automaton.after_name at (name_of names array) level depth at (TheSign (sign.Core core_sign.OpenBracket))) }
    ensures shallow { AreShallow result pushes.new }
{
    takes(
        pushes,
        depth + 1,
        &[Word::Core {
            word: CoreWord::Cell { at, array },
        }],
        &[
            Symbol::Operand {
                level: 0,
                depth: depth + 1,
            },
            Symbol::Indexes { depth },
            Symbol::Sign {
                sign: Sign::Core {
                    sign: CoreSign::CloseBracket,
                },
            },
            Symbol::AfterIndexes {
                at,
                array,
                level,
                depth,
            },
        ],
    )
}

/// A name is that of a function before `(`, of an array before `[`, and else of a value.
fn after_name(
    pushes: &mut Pushes,
    named: Named,
    level: u8,
    depth: u8,
    at: usize,
    lexeme: Lexeme,
) -> Reaction
    requires { depth ≤ 200 }
    ensures does { Reacts result pushes.new (λ names. automaton.after_name named.at (name_of names named.name) level depth at (lexeme_named names lexeme)) }
    ensures shallow { AreAllShallow result pushes.new }
{
    match lexeme {
        Lexeme::Mark {
            sign: Sign::Core {
                sign: CoreSign::OpenParen,
            },
        } => { plain(call(pushes, named.at, named.name, level, depth)) }
        Lexeme::Mark {
            sign: Sign::Core {
                sign: CoreSign::OpenBracket,
            },
        } => { plain(cell(pushes, named.at, named.name, level, depth)) }
        _ => Reaction {
            before: Some(Word::Core {
                word: CoreWord::Name {
                    at: named.at,
                    name: named.name,
                },
            }),
            outcome: after(pushes, level, 12, depth, at, lexeme),
            below: None,
        },
    }
}

/// A store is any expression, and no operand.
fn after_indexes(
    pushes: &mut Pushes,
    cell: Named,
    level: u8,
    depth: u8,
    at: usize,
    lexeme: Lexeme,
) -> Reaction
    requires { depth < 200 }
    ensures does { Reacts result pushes.new (λ names. automaton.after_indexes cell.at (name_of names cell.name) level depth at (lexeme_named names lexeme)) }
    ensures shallow { AreAllShallow result pushes.new }
{
    match lexeme {
        Lexeme::Mark {
            sign: Sign::Core {
                sign: CoreSign::Becomes,
            },
        } if level == 0 => plain(takes(
            pushes,
            0,
            &[Word::Core {
                word: CoreWord::Index,
            }],
            &[
                Symbol::Operand {
                    level: 0,
                    depth: depth + 1,
                },
                Symbol::Emit {
                    word: Word::Core {
                        word: CoreWord::Store {
                            at: cell.at,
                            array: cell.name,
                        },
                    },
                },
            ],
        )),
        _ => Reaction {
            before: Some(Word::Core {
                word: CoreWord::Fetch {
                    at: cell.at,
                    array: cell.name,
                },
            }),
            outcome: after(pushes, level, 12, depth, at, lexeme),
            below: None,
        },
    }
}

/// A `let`.
fn let_step(pushes: &mut Pushes, depth: u8, at: usize) -> Outcome
    requires { depth < 200 }
    ensures does { Does result pushes.new (λ names. automaton.steps depth at (TheWord (keyword.Core core_keyword.Let))) }
    ensures shallow { AreShallow result pushes.new }
{
    takes(
        pushes,
        0,
        &[Word::Core {
            word: CoreWord::Let { at },
        }],
        &[
            Symbol::Target,
            Symbol::Targets,
            Symbol::Sign {
                sign: Sign::Core {
                    sign: CoreSign::Equals,
                },
            },
            Symbol::Emit {
                word: Word::Core {
                    word: CoreWord::List,
                },
            },
            Symbol::Operand {
                level: 0,
                depth: depth + 1,
            },
            Symbol::Further { depth },
            Symbol::Sign {
                sign: Sign::Core {
                    sign: CoreSign::Semicolon,
                },
            },
            Symbol::Emit {
                word: Word::Core {
                    word: CoreWord::EndLet { at },
                },
            },
            Symbol::Steps { depth },
        ],
    )
}

/// A step that begins with `if`.
fn if_step(pushes: &mut Pushes, depth: u8, at: usize) -> Outcome
    requires { depth < 200 }
    ensures does { Does result pushes.new (λ names. automaton.steps depth at (TheWord (keyword.Core core_keyword.If))) }
    ensures shallow { AreShallow result pushes.new }
{
    takes(
        pushes,
        depth + 3,
        &[Word::Core {
            word: CoreWord::List,
        }],
        &[
            Symbol::Operand {
                level: 0,
                depth: depth + 3,
            },
            Symbol::Emit {
                word: Word::Core {
                    word: CoreWord::Then,
                },
            },
            Symbol::Sign {
                sign: Sign::Core {
                    sign: CoreSign::OpenBrace,
                },
            },
            Symbol::Steps { depth: depth + 2 },
            Symbol::ArmEnd {
                at,
                depth: depth + 1,
            },
            Symbol::After {
                level: 0,
                left: 12,
                depth: depth + 1,
            },
            Symbol::Further { depth },
            Symbol::StepEnd { depth },
        ],
    )
}

/// What follows a body's brace, or a step's semicolon.
fn steps(pushes: &mut Pushes, depth: u8, at: usize, lexeme: Lexeme) -> Reaction
    requires { depth < 200 }
    ensures does { Reacts result pushes.new (λ names. automaton.steps depth at (lexeme_named names lexeme)) }
    ensures shallow { AreAllShallow result pushes.new }
{
    match lexeme {
        Lexeme::Word {
            keyword: Keyword::Core {
                keyword: CoreKeyword::Let,
            },
        } => { plain(let_step(pushes, depth, at)) }
        Lexeme::Word {
            keyword: Keyword::Core {
                keyword: CoreKeyword::If,
            },
        } => { plain(if_step(pushes, depth, at)) }
        _ => Reaction {
            before: Some(Word::Core {
                word: CoreWord::List,
            }),
            outcome: operand(pushes, 0, depth + 1, at, lexeme),
            below: Some(depth),
        },
    }
}

fn one_sign(pushes: &mut Pushes, sign: Sign, lexeme: Lexeme) -> Outcome
    ensures does { Does result pushes.new (λ names. automaton.step (OneSign sign) 0 (lexeme_named names lexeme)) }
    ensures shallow { AreShallow result pushes.new }
{
    match lexeme {
        Lexeme::Mark { sign: read } if read == sign => takes(pushes, 0, &[], &[]),
        _ => refuses(),
    }
}

fn one_word(pushes: &mut Pushes, keyword: CoreKeyword, lexeme: Lexeme) -> Outcome
    ensures does { Does result pushes.new (λ names. automaton.step (OneWord keyword) 0 (lexeme_named names lexeme)) }
    ensures shallow { AreShallow result pushes.new }
{
    match lexeme {
        Lexeme::Word {
            keyword: Keyword::Core { keyword: read },
        } if read == keyword => { takes(pushes, 0, &[], &[]) }
        _ => refuses(),
    }
}

/// What the symbol does with a token that says this, where what is above it is an `if` that ended without its last `else`.
pub(crate) fn react_lacking(pushes: &mut Pushes, symbol: Symbol<usize>, lexeme: Lexeme) -> Reaction
    requires { IsShallow symbol }
    ensures does { Reacts result pushes.new (λ names. automaton.lacking_step (named_symbol names symbol) (lexeme_named names lexeme)) }
    ensures shallow { AreAllShallow result pushes.new }
{
    match symbol {
        Symbol::ChainEnd { at: begun } => plain(lacks(pushes, &[Word::EndWhen { at: begun }])),
        Symbol::After { .. } | Symbol::Further { .. } => plain(lacks(pushes, &[])),
        Symbol::StepEnd { depth } => plain(when_end(pushes, depth, lexeme)),
        _ => plain(refuses()),
    }
}

/// What the symbol does with a token that says this. There is none where the dimensions of a parameter cannot be counted.
pub(crate) fn react(
    pushes: &mut Pushes,
    symbol: Symbol<usize>,
    at: usize,
    lexeme: Lexeme,
) -> Option<Reaction>
    requires { IsShallow symbol }
    ensures does { IfSome result (λ reaction. Reacts reaction pushes.new (λ names. automaton.step (named_symbol names symbol) at (lexeme_named names lexeme))) }
    ensures shallow { IfSome result (λ reaction. AreAllShallow reaction pushes.new) }
{
    Some(match symbol {
        Symbol::Sign { sign } => plain(one_sign(pushes, sign, lexeme)),
        Symbol::Keyword { keyword } => plain(one_word(pushes, keyword, lexeme)),
        Symbol::Emit { word } => plain(passes(pushes, &[word])),
        Symbol::Name { word } => plain(one_name(pushes, word, at, lexeme)),
        Symbol::Items => plain(items(pushes, lexeme)),
        Symbol::Parameter => plain(parameter(pushes, at, lexeme)),
        Symbol::AfterParameter { at: named, name } => {
            plain(after_parameter(pushes, Named { at: named, name }, lexeme))
        }
        Symbol::Rank {
            at: named,
            name,
            rank: count,
        } => {
            if count == usize::MAX {
                return None;
            }
            plain(rank(pushes, Named { at: named, name }, count, lexeme))
        }
        Symbol::Parameters => plain(parameters(pushes, lexeme)),
        Symbol::Results => plain(results(pushes, lexeme)),
        Symbol::ResultCount => plain(result_count(pushes, at, lexeme)),
        Symbol::FunctionBody => plain(function_body(pushes, at, lexeme)),
        Symbol::Steps { depth } => steps(pushes, depth, at, lexeme),
        Symbol::ArmEnd { at: begun, depth } => plain(arm_end(pushes, begun, depth, lexeme)),
        Symbol::StepOtherwise { at: begun, depth } => {
            plain(step_otherwise(pushes, begun, depth, at, lexeme))
        }
        Symbol::ChainEnd { at: begun } => plain(passes(
            pushes,
            &[
                Word::Core {
                    word: CoreWord::Chain,
                },
                Word::Core {
                    word: CoreWord::EndIf { at: begun },
                },
            ],
        )),
        Symbol::Target => plain(target(pushes, at, lexeme)),
        Symbol::Targets => plain(targets(pushes, lexeme)),
        Symbol::StepEnd { depth } => plain(step_end(pushes, depth, lexeme)),
        Symbol::Operand { level, depth } => plain(operand(pushes, level, depth, at, lexeme)),
        Symbol::Negated { depth } => plain(negated(pushes, depth, at, lexeme)),
        Symbol::After { level, left, depth } => {
            plain(after(pushes, level, left, depth, at, lexeme))
        }
        Symbol::AfterName {
            at: named,
            name,
            level,
            depth,
        } => { after_name(pushes, Named { at: named, name }, level, depth, at, lexeme) }
        Symbol::AfterIndexes {
            at: cell,
            array: name,
            level,
            depth,
        } => { after_indexes(pushes, Named { at: cell, name }, level, depth, at, lexeme) }
        Symbol::Callee { depth } => plain(callee(pushes, depth, at, lexeme)),
        Symbol::Further { depth } => plain(further(pushes, depth, lexeme)),
        Symbol::Indexes { depth } => plain(indexes(pushes, depth, lexeme)),
        Symbol::Otherwise { depth } => plain(otherwise(pushes, depth, at, lexeme)),
        Symbol::Bound { at: begun, depth } => plain(bound(pushes, begun, depth, at, lexeme)),
        Symbol::Starts { depth } => plain(starts(pushes, depth, lexeme)),
        Symbol::Turn { depth } => plain(turn(pushes, depth, lexeme)),
        Symbol::ForBound { depth } => plain(for_bound(pushes, depth, at, lexeme)),
        Symbol::AfterForName {
            at: named,
            name,
            depth,
        } => { plain(after_for_name(pushes, Named { at: named, name }, depth, at, lexeme)) }
        Symbol::Range { depth } => plain(range(pushes, depth, lexeme)),
        Symbol::Carried { depth } => plain(carried(pushes, depth, lexeme)),
    })
}

/// The same, where what is above the symbol is an `if` that ended without its last `else`, or not.
pub(crate) fn react_below(
    pushes: &mut Pushes,
    symbol: Symbol<usize>,
    lacking: bool,
    at: usize,
    lexeme: Lexeme,
) -> Option<Reaction>
    requires { IsShallow symbol }
    ensures does { IfSome result (λ reaction. Reacts reaction pushes.new
        (λ names. automaton.step_below lacking (named_symbol names symbol) at (lexeme_named names lexeme))) }
    ensures shallow { IfSome result (λ reaction. AreAllShallow reaction pushes.new) }
{
    if lacking {
        Some(react_lacking(pushes, symbol, lexeme))
    } else {
        react(pushes, symbol, at, lexeme)
    }
}
