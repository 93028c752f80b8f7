//! What each symbol of the stack does with a token.

ghost use Rattle.std.specs.Prelude.{◌≡◌, ◌≤◌, ◌<◌, None};
ghost use Rattle.source.specs.declared.token.Sign.TheVariants.{OpenParen, OpenBracket};
ghost use Rattle.source.specs.Spelled.{TheSign};
ghost use Rattle.law_language.specs.declared.symbol.Symbol.TheVariants.{Sign as OneSign, Keyword as OneWord};
ghost use Rattle.law_language.specs.GrammarAutomaton as automaton;
ghost use Rattle.source.specs.Words.{name_of};
ghost use Rattle.law_language.specs.GrammarNamed.{named_symbol};
ghost use Rattle.source_text.specs.declared.outcome.Pushes.{Pushes};
ghost use Rattle.source_text.specs.Outcomes.{lexeme_named, Does, Reacts, IsShallow, AreShallow, AreAllShallow};

use crate::after::after;
use crate::bodies::{bound, let_end, start, starts, step_end, target, targets, turn};
use crate::items::{
    array_length, array_name, function_body, function_name, items, parameter, parameters,
    result_count, results,
};
use crate::lexeme::{Called, Lexeme, Named};
use crate::operands::{LIMIT, call_end, callee, negated, operand, otherwise};
use crate::outcome::{Outcome, Pushes, passes, refuses, takes, unexpected};
use law_language::symbol::Symbol;
use source::fault::FaultKind;
use source::token::{Keyword, Sign};
use source::word::Word;

/// What a symbol does with a token: a word may be put before those that it pushes, and a symbol below those.
#[derive(Clone, Copy)]
pub(crate) struct Reaction {
    pub before: Option<Word<usize>>,
    pub outcome: Outcome,
    pub below: Option<Symbol<usize>>,
}

/// The step is what the outcome says.
fn plain(outcome: Outcome) -> Reaction
    ensures does { result ≡ record { before = None; outcome = outcome; below = None } }
    ensures shallow { (pushes : Pushes) → AreShallow outcome pushes → AreAllShallow result pushes }
{
    Reaction {
        before: None,
        outcome,
        below: None,
    }
}

/// A name is that of a function before `(`, of an array before `[`, and else of a value.
fn after_name(
    pushes: &mut Pushes,
    named: Named,
    level: u8,
    depth: u8,
    at: usize,
    lexeme: Lexeme,
) -> Reaction
    requires { depth ≤ 200 }
    ensures does { Reacts result pushes.new (λ names. automaton.after_name 200 named.at (name_of names named.name) level depth at (lexeme_named names lexeme)) }
    ensures shallow { AreAllShallow result pushes.new }
{
    match lexeme {
        Lexeme::Mark {
            sign: Sign::OpenParen,
        } => plain(call(pushes, named.at, named.name, level, depth)),
        Lexeme::Mark {
            sign: Sign::OpenBracket,
        } => plain(cell(pushes, named.at, named.name, level, depth)),
        _ => Reaction {
            before: Some(Word::Name {
                at: named.at,
                name: named.name,
            }),
            outcome: after(pushes, level, 9, depth, at, lexeme),
            below: None,
        },
    }
}

fn call(pushes: &mut Pushes, at: usize, function: usize, level: u8, depth: u8) -> Outcome
    requires { depth ≤ 200 }
    ensures does { Does result pushes.new (λ names. automaton.after_name 200 at (name_of names function) level depth at (TheSign OpenParen)) }
    ensures shallow { AreShallow result pushes.new }
{
    if depth == LIMIT {
        return refuses(FaultKind::TooDeep);
    }
    takes(
        pushes,
        &[Word::Callee { at, function }, Word::List],
        &[
            Symbol::Operand {
                level: 0,
                depth: depth + 1,
            },
            Symbol::CallEnd {
                at,
                strict: false,
                function,
                depth,
            },
            Symbol::After {
                level,
                left: 9,
                depth,
            },
        ],
    )
}

fn cell(pushes: &mut Pushes, at: usize, array: usize, level: u8, depth: u8) -> Outcome
    requires { depth ≤ 200 }
    ensures does { Does result pushes.new (λ names. automaton.after_name 200 at (name_of names array) level depth at (TheSign OpenBracket)) }
    ensures shallow { AreShallow result pushes.new }
{
    if depth == LIMIT {
        return refuses(FaultKind::TooDeep);
    }
    takes(
        pushes,
        &[Word::Cell { at, array }],
        &[
            Symbol::Operand {
                level: 0,
                depth: depth + 1,
            },
            Symbol::Sign {
                sign: Sign::CloseBracket,
            },
            Symbol::AfterIndex {
                at,
                array,
                level,
                depth,
            },
        ],
    )
}

/// A store is any expression, and no operand.
fn after_index(
    pushes: &mut Pushes,
    cell: Named,
    level: u8,
    depth: u8,
    at: usize,
    lexeme: Lexeme,
) -> Reaction
    requires { depth < 200 }
    ensures does { Reacts result pushes.new (λ names. automaton.after_index cell.at (name_of names cell.name) level depth at (lexeme_named names lexeme)) }
    ensures shallow { AreAllShallow result pushes.new }
{
    match lexeme {
        Lexeme::Mark {
            sign: Sign::Becomes,
        } if level == 0 => plain(takes(
            pushes,
            &[Word::Index],
            &[
                Symbol::Operand {
                    level: 0,
                    depth: depth + 1,
                },
                Symbol::Emit {
                    word: Word::Store {
                        at: cell.at,
                        array: cell.name,
                    },
                },
            ],
        )),
        _ => Reaction {
            before: Some(Word::Fetch {
                at: cell.at,
                array: cell.name,
            }),
            outcome: after(pushes, level, 9, depth, at, lexeme),
            below: None,
        },
    }
}

/// What follows a body's brace, or a step's semicolon.
fn steps(pushes: &mut Pushes, depth: u8, at: usize, lexeme: Lexeme) -> Reaction
    requires { depth < 200 }
    ensures does { Reacts result pushes.new (λ names. automaton.steps 200 depth at (lexeme_named names lexeme)) }
    ensures shallow { AreAllShallow result pushes.new }
{
    match lexeme {
        Lexeme::Word {
            keyword: Keyword::Let,
        } => plain(takes(
            pushes,
            &[Word::Let { at }],
            &[Symbol::Target, Symbol::Targets { at, depth }],
        )),
        _ => Reaction {
            before: Some(Word::List),
            outcome: operand(pushes, 0, depth + 1, at, lexeme),
            below: Some(Symbol::StepEnd { depth }),
        },
    }
}

fn one_sign(pushes: &mut Pushes, sign: Sign, lexeme: Lexeme) -> Outcome
    ensures does { Does result pushes.new (λ names. automaton.step 200 (OneSign sign) 0 (lexeme_named names lexeme)) }
    ensures shallow { AreShallow result pushes.new }
{
    match lexeme {
        Lexeme::Mark { sign: read } if read == sign => takes(pushes, &[], &[]),
        _ => unexpected(),
    }
}

fn one_word(pushes: &mut Pushes, keyword: Keyword, lexeme: Lexeme) -> Outcome
    ensures does { Does result pushes.new (λ names. automaton.step 200 (OneWord keyword) 0 (lexeme_named names lexeme)) }
    ensures shallow { AreShallow result pushes.new }
{
    match lexeme {
        Lexeme::Word { keyword: read } if read == keyword => takes(pushes, &[], &[]),
        _ => unexpected(),
    }
}

/// What the symbol does with a token that says this.
pub(crate) fn react(
    pushes: &mut Pushes,
    symbol: Symbol<usize>,
    at: usize,
    lexeme: Lexeme,
) -> Reaction
    requires { IsShallow symbol }
    ensures does { Reacts result pushes.new (λ names. automaton.step 200 (named_symbol names symbol) at (lexeme_named names lexeme)) }
    ensures shallow { AreAllShallow result pushes.new }
{
    match symbol {
        Symbol::Emit { word } => Reaction {
            before: Some(word),
            outcome: passes(),
            below: None,
        },
        Symbol::Steps { depth } => steps(pushes, depth, at, lexeme),
        Symbol::AfterName {
            at: named,
            name,
            level,
            depth,
        } => after_name(pushes, Named { at: named, name }, level, depth, at, lexeme),
        Symbol::AfterIndex {
            at: cell,
            array: name,
            level,
            depth,
        } => after_index(pushes, Named { at: cell, name }, level, depth, at, lexeme),
        Symbol::Sign { sign } => plain(one_sign(pushes, sign, lexeme)),
        Symbol::Keyword { keyword } => plain(one_word(pushes, keyword, lexeme)),
        Symbol::Items => plain(items(pushes, lexeme)),
        Symbol::ArrayName => plain(array_name(pushes, at, lexeme)),
        Symbol::ArrayLength => plain(array_length(pushes, at, lexeme)),
        Symbol::FunctionName => plain(function_name(pushes, at, lexeme)),
        Symbol::Parameter => plain(parameter(pushes, at, lexeme)),
        Symbol::Parameters => plain(parameters(pushes, lexeme)),
        Symbol::Results => plain(results(pushes, at, lexeme)),
        Symbol::ResultCount => plain(result_count(pushes, at, lexeme)),
        Symbol::FunctionBody => plain(function_body(pushes, at, lexeme)),
        Symbol::Target => plain(target(pushes, at, lexeme)),
        Symbol::Targets { at: bound, depth } => plain(targets(pushes, bound, depth, lexeme)),
        Symbol::LetEnd { at: bound, depth } => plain(let_end(pushes, bound, depth, lexeme)),
        Symbol::StepEnd { depth } => plain(step_end(pushes, depth, lexeme)),
        Symbol::Operand { level, depth } => plain(operand(pushes, level, depth, at, lexeme)),
        Symbol::Negated { depth } => plain(negated(pushes, depth, at, lexeme)),
        Symbol::After { level, left, depth } => plain(after(
            pushes, level, left, depth, at, lexeme,
        )),
        Symbol::Callee { depth } => plain(callee(pushes, depth, at, lexeme)),
        Symbol::CallEnd {
            at,
            strict,
            function,
            depth,
        } => {
            let called = Called {
                at,
                strict,
                function,
            };
            plain(call_end(pushes, called, depth, lexeme))
        }
        Symbol::Otherwise { depth } => plain(otherwise(pushes, depth, at, lexeme)),
        Symbol::Bound { at: begun, depth } => plain(bound(pushes, begun, depth, at, lexeme)),
        Symbol::Start { depth } => plain(start(pushes, depth, at, lexeme)),
        Symbol::Starts { depth } => plain(starts(pushes, depth, lexeme)),
        Symbol::Turn { depth } => plain(turn(pushes, depth, lexeme)),
    }
}
