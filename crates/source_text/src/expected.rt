//! What is expected where a token does not go on.

use law_language::symbol::Symbol;
use source::token::{Keyword, Sign};
use source::word::Word;
use source_tokens::{Expected, Form, Within};

/// Whether the symbol may let a token pass, and needs none.
fn may_pass(symbol: Symbol<usize>) -> bool {
    matches!(
        symbol,
        Symbol::Emit { .. }
            | Symbol::After { .. }
            | Symbol::AfterName { .. }
            | Symbol::AfterIndex { .. }
    )
}

/// The first symbol from the top that lets no token pass, and those below it.
fn decisive(stack: &[Symbol<usize>]) -> Option<(&Symbol<usize>, &[Symbol<usize>])> {
    let passing = stack.iter().rev().take_while(|symbol| may_pass(**symbol));
    let rest = stack.get(..stack.len().saturating_sub(passing.count()))?;
    rest.split_last()
}

/// What an expression is a part of that ends with this symbol.
fn ended_by(symbol: Symbol<usize>, below: &[Symbol<usize>]) -> Within {
    match symbol {
        Symbol::LetEnd { .. } => Within::Let,
        Symbol::Starts { .. } => Within::FirstValue,
        Symbol::CallEnd { .. } => Within::Arguments,
        Symbol::Sign { sign } => match (sign, below) {
            (Sign::CloseParen, _) => Within::Group,
            (Sign::CloseBracket, _) => Within::Index,
            (_, [.., Symbol::Emit { word: Word::Else }, Symbol::Steps { .. }]) => Within::Test,
            _ => Within::LoopTest,
        },
        _ => Within::Block,
    }
}

/// What an expression is a part of that is above these symbols.
fn ended_in(stack: &[Symbol<usize>]) -> Within {
    match decisive(stack) {
        Some((symbol, below)) => ended_by(*symbol, below),
        None => Within::Block,
    }
}

/// The form that the sign is a part of, where it does not follow an expression.
fn form_of_sign(sign: Sign, below: &[Symbol<usize>]) -> Option<Form> {
    let form = match (sign, below) {
        (Sign::OpenBracket | Sign::Semicolon, _) => Form::Array,
        (Sign::CloseBracket, [.., Symbol::Sign { .. }]) => Form::Array,
        (Sign::Equals, _) => Form::Loop,
        (Sign::OpenParen, [.., Symbol::Parameter]) => Form::Function,
        (Sign::OpenParen, [.., Symbol::Start { .. }]) => Form::Loop,
        (Sign::OpenParen, [.., Symbol::CallEnd { .. }, Symbol::Operand { .. }]) => Form::StrictCall,
        (Sign::OpenParen, _) => Form::LastTest,
        _ => return None,
    };
    Some(form)
}

/// What a symbol expects that lets no token pass.
fn expected_by(symbol: Symbol<usize>, below: &[Symbol<usize>]) -> Expected {
    match symbol {
        Symbol::Items => Expected::Item,
        Symbol::ArrayName => Expected::Name(Form::Array),
        Symbol::ArrayLength => Expected::Next(Form::Array),
        Symbol::FunctionName | Symbol::Parameter => Expected::Name(Form::Function),
        Symbol::Parameters | Symbol::Results => Expected::Next(Form::Function),
        Symbol::ResultCount | Symbol::FunctionBody => Expected::Next(Form::Function),
        Symbol::Steps { .. } => Expected::Step,
        Symbol::Target => Expected::Name(Form::Let),
        Symbol::Targets { .. } => Expected::Next(Form::Let),
        Symbol::Operand { .. } | Symbol::Negated { .. } => Expected::Operand(ended_in(below)),
        Symbol::Callee { .. } => Expected::Name(Form::StrictCall),
        Symbol::Otherwise { .. } => Expected::Next(Form::Else),
        Symbol::Bound { .. } | Symbol::Turn { .. } => Expected::Next(Form::Loop),
        Symbol::Start { .. } => Expected::Name(Form::Loop),
        Symbol::Keyword {
            keyword: Keyword::Else,
        } => Expected::Next(Form::Else),
        Symbol::Keyword { .. } => Expected::Next(Form::LastTest),
        Symbol::Sign { sign } => match form_of_sign(sign, below) {
            Some(form) => Expected::Next(form),
            None => Expected::Operator(ended_by(symbol, below)),
        },
        _ => Expected::Operator(ended_by(symbol, below)),
    }
}

/// What is expected where the symbol takes no token, which was above the others.
pub(crate) fn expected(symbol: Symbol<usize>, below: &[Symbol<usize>]) -> Expected {
    if !may_pass(symbol) {
        return expected_by(symbol, below);
    }
    match decisive(below) {
        Some((symbol, below)) => expected_by(*symbol, below),
        None => Expected::Item,
    }
}
