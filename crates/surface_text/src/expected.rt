//! What is expected where a token does not go on.

use crate::refusal::{Expected, Form, Within};
use law_surface_text::symbol::{NameWord, Symbol};
use source::token::{Keyword, Sign as CoreSign};
use source::word::Word as CoreWord;
use surface::token::Sign;
use surface::word::Word;

/// Whether the symbol may let a token pass, and needs none.
fn may_pass(symbol: Symbol<usize>) -> bool {
    matches!(
        symbol,
        Symbol::Emit { .. }
            | Symbol::AfterParameter { .. }
            | Symbol::Parameters
            | Symbol::Results
            | Symbol::ArmEnd { .. }
            | Symbol::ChainEnd { .. }
            | Symbol::Targets
            | Symbol::After { .. }
            | Symbol::AfterName { .. }
            | Symbol::AfterIndexes { .. }
            | Symbol::Further { .. }
            | Symbol::Indexes { .. }
            | Symbol::Starts { .. }
            | Symbol::Carried { .. }
    )
}

/// The first symbol from the top that lets no token pass, and those below it.
fn decisive(stack: &[Symbol<usize>]) -> Option<(&Symbol<usize>, &[Symbol<usize>])> {
    let passing = stack.iter().rev().take_while(|symbol| may_pass(**symbol));
    let rest = stack.get(..stack.len().saturating_sub(passing.count()))?;
    rest.split_last()
}

/// What an expression is a part of whose list ends with `)`.
fn in_parens(below: &[Symbol<usize>]) -> Within {
    match below {
        [
            ..,
            Symbol::Emit {
                word: Word::Core {
                    word: CoreWord::Call { .. },
                },
            },
        ] => Within::Arguments,
        [.., Symbol::Turn { .. }] => Within::FirstValue,
        _ => Within::Group,
    }
}

/// What an expression is a part of that ends before a `{`.
fn before_brace(below: &[Symbol<usize>]) -> Within {
    match below {
        [
            ..,
            Symbol::Emit {
                word: Word::EndFor { .. },
            },
            Symbol::Steps { .. },
        ] => Within::RangeEnd,
        [
            ..,
            Symbol::Emit {
                word: Word::Core {
                    word: CoreWord::EndLoop { .. },
                }
                | Word::EndConstantLoop { .. },
            },
            Symbol::Steps { .. },
        ] => Within::LoopTest,
        _ => Within::Test,
    }
}

/// What an expression is a part of that ends with this sign of the core.
fn ended_by_sign(sign: CoreSign, below: &[Symbol<usize>]) -> Within {
    match (sign, below) {
        (CoreSign::CloseParen, _) => in_parens(below),
        (CoreSign::CloseBracket, [.., Symbol::AfterIndexes { .. }]) => Within::Indexes,
        (CoreSign::CloseBracket, _) => Within::Lengths,
        (CoreSign::Semicolon, [.., Symbol::Items]) => Within::Constant,
        (CoreSign::Semicolon, _) => Within::Let,
        (CoreSign::OpenBrace, _) => before_brace(below),
        _ => Within::Block,
    }
}

/// What an expression is a part of that ends with this symbol.
fn ended_by(symbol: Symbol<usize>, below: &[Symbol<usize>]) -> Within {
    match symbol {
        Symbol::Sign { sign } => match sign {
            Sign::Core { sign } => ended_by_sign(sign, below),
            Sign::Range => Within::RangeStart,
        },
        _ => Within::Block,
    }
}

/// What an expression is a part of that is above these symbols.
fn ended_in(stack: &[Symbol<usize>]) -> Within {
    match decisive(stack) {
        Some((symbol, below)) => ended_by(*symbol, below),
        None => Within::Block,
    }
}

/// The form that the sign is a part of, where it does not follow an expression.
fn form_of_sign(sign: CoreSign, below: &[Symbol<usize>]) -> Option<Form> {
    let form = match (sign, below) {
        (CoreSign::OpenBracket, _) => Form::Array,
        (CoreSign::CloseParen, [.., Symbol::Results]) => Form::Function,
        (CoreSign::Equals, [.., Symbol::Emit { .. }]) => Form::Let,
        (CoreSign::Equals, [.., Symbol::Starts { .. }, Symbol::Operand { .. }]) => Form::Loop,
        (CoreSign::Equals, _) => Form::Constant,
        (CoreSign::OpenParen, [.., Symbol::Parameter]) => Form::Function,
        (CoreSign::OpenParen, [.., Symbol::Name { .. }]) => Form::Loop,
        (CoreSign::OpenParen, [.., Symbol::Further { .. }, Symbol::Operand { .. }]) => {
            Form::StrictCall
        }
        (CoreSign::OpenParen, _) => Form::LastTest,
        _ => return None,
    };
    Some(form)
}

/// What a sign of the core expects.
fn expected_by_sign(sign: CoreSign, below: &[Symbol<usize>]) -> Expected {
    match (sign, below) {
        (CoreSign::Semicolon, [.., Symbol::Items]) => Expected::ItemEnd,
        _ => match form_of_sign(sign, below) {
            Some(form) => Expected::Next(form),
            None => Expected::Operator(ended_by_sign(sign, below)),
        },
    }
}

/// What a name of this kind is a part of.
fn form_of_name(word: NameWord) -> Form {
    match word {
        NameWord::Array => Form::Array,
        NameWord::Constant => Form::Constant,
        NameWord::Function => Form::Function,
        NameWord::Counter => Form::For,
        NameWord::Start => Form::Loop,
    }
}

/// What a symbol expects that lets no token pass.
fn expected_by(symbol: Symbol<usize>, below: &[Symbol<usize>]) -> Expected {
    match symbol {
        Symbol::Items => Expected::Item,
        Symbol::Name { word } => Expected::Name(form_of_name(word)),
        Symbol::Parameter => Expected::Name(Form::Function),
        Symbol::Rank { .. } | Symbol::ResultCount => Expected::Next(Form::Function),
        Symbol::FunctionBody => Expected::Next(Form::Function),
        Symbol::Steps { .. } => Expected::Step,
        Symbol::Target => Expected::Name(Form::Let),
        Symbol::Operand { .. } | Symbol::Negated { .. } => Expected::Operand(ended_in(below)),
        Symbol::Callee { .. } => Expected::Name(Form::StrictCall),
        Symbol::StepOtherwise { .. } | Symbol::Otherwise { .. } => Expected::Next(Form::Else),
        Symbol::Bound { .. } | Symbol::Turn { .. } => Expected::Next(Form::Loop),
        Symbol::ForBound { .. } | Symbol::AfterForName { .. } => Expected::Next(Form::For),
        Symbol::Range { .. } => Expected::Next(Form::For),
        Symbol::Keyword {
            keyword: Keyword::Else,
        } => Expected::Next(Form::Else),
        Symbol::Keyword { .. } => Expected::Next(Form::LastTest),
        Symbol::Sign {
            sign: Sign::Core { sign },
        } => expected_by_sign(sign, below),
        _ => Expected::Operator(ended_by(symbol, below)),
    }
}

/// What is expected where the symbol takes no token, which was above the others.
pub(crate) fn expected(symbol: Symbol<usize>, below: &[Symbol<usize>]) -> Expected {
    if !may_pass(symbol) {
        return expected_by(symbol, below);
    }
    match decisive(below) {
        Some((symbol, below)) => expected_by(*symbol, below),
        None => Expected::Item,
    }
}

/// The same, where what is above the symbol is an `if` that ended without its last `else`, or not.
pub(crate) fn expected_below(
    symbol: Symbol<usize>,
    lacking: bool,
    below: &[Symbol<usize>],
) -> Expected {
    if lacking {
        Expected::Next(Form::If)
    } else {
        expected(symbol, below)
    }
}
