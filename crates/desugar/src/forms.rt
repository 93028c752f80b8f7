//! The forms of the core that derived forms are made of, each put after the words that are there.

ghost use Rattle.std.specs.Prelude.{◌≡◌, ◌++◌, suc, IfOk, OnOk, replicate};
ghost use Rattle.source.specs.declared.word.Word.TheVariants as word;
ghost use Rattle.desugar.specs.Forms as forms;
ghost use Rattle.source.specs.Fits as fits;
ghost use Rattle.source.specs.declared.word.InfixSign.TheVariants.{Direct};

use crate::frame::{Atom, Given};
use operators::{Binary, Unary};
use source::word::{InfixSign, Word};
use std::alloc::{AllocError, Allocator};

/// How tightly a sign binds.
pub(crate) fn sign_level(sign: InfixSign) -> u64
    ensures { result ≡ fits.sign_level sign }
{
    match sign {
        InfixSign::Greater | InfixSign::AtLeast => 1,
        InfixSign::Direct { op } => match op {
            Binary::Eq | Binary::Ne | Binary::Lt | Binary::Le => 1,
            Binary::Or => 2,
            Binary::Xor => 3,
            Binary::And => 4,
            Binary::Shl | Binary::Shr => 5,
            Binary::Add | Binary::Sub => 6,
            Binary::Mul | Binary::Div | Binary::Rem => 7,
        },
    }
}

/// The level that the left operand of an operator has at least.
fn left_level(op: Binary) -> u64
    ensures { result ≡ fits.left_level (Direct op) }
{
    sign_level(InfixSign::Direct { op }).max(2)
}

/// The level that the right operand of an operator has at least.
fn right_level(op: Binary) -> u64
    ensures { result ≡ suc (fits.sign_level (Direct op)) }
{
    match op {
        Binary::Eq | Binary::Ne | Binary::Lt | Binary::Le => 2,
        Binary::Or => 3,
        Binary::Xor => 4,
        Binary::And => 5,
        Binary::Shl | Binary::Shr => 6,
        Binary::Add | Binary::Sub => 7,
        Binary::Mul | Binary::Div | Binary::Rem => 8,
    }
}

/// The level of what is in so many brackets.
fn level_in(brackets: usize, level: u64) -> u64
    ensures { result ≡ forms.level_in brackets level }
{
    if brackets == 0 { level } else { 9 }
}

pub(crate) fn atom_level(atom: Atom<usize>) -> u64
    ensures { result ≡ forms.atom_level atom }
{
    match atom {
        Atom::Number { brackets, .. } => level_in(brackets, 9),
        Atom::Negative { brackets, .. } => level_in(brackets, 8),
        Atom::Name { .. } => 9,
    }
}

/// What stands for itself in one more pair of brackets, if it still does.
pub(crate) fn bracketed(atom: Option<Atom<usize>>) -> Result<Option<Atom<usize>>, AllocError>
    ensures { IfOk result (λ a. a ≡ forms.bracketed atom) }
{
    match atom {
        Some(
            Atom::Number {
                at,
                number,
                brackets,
            },
        ) => match brackets.checked_add(1) {
            Some(brackets) => Ok(Some(Atom::Number {
                at,
                number,
                brackets,
            })),
            None => Err(AllocError),
        },
        Some(
            Atom::Negative {
                sign_at,
                at,
                number,
                brackets,
            },
        ) => match brackets.checked_add(1) {
            Some(brackets) => Ok(Some(Atom::Negative {
                sign_at,
                at,
                number,
                brackets,
            })),
            None => Err(AllocError),
        },
        Some(Atom::Name { .. }) | None => Ok(None),
    }
}

/// What stands for itself with a prefix before it: only a number as it is written.
pub(crate) fn negated(
    at: usize,
    op: Unary,
    literal: bool,
    atom: Option<Atom<usize>>,
) -> Option<Atom<usize>>
    ensures { result ≡ forms.negated at op literal atom }
{
    match (op, literal, atom) {
        (
            Unary::Neg,
            true,
            Some(
                Atom::Number {
                    at: number_at,
                    number,
                    ..
                },
            ),
        ) => Some(Atom::Negative {
            sign_at: at,
            at: number_at,
            number,
            brackets: 0,
        }),
        _ => None,
    }
}

/// So many brackets.
fn push_brackets<A: Allocator>(
    words: &mut Vec<Word<usize>, A>,
    brackets: usize,
) -> Result<(), AllocError>
    ensures { OnOk result (words.new.items ≡ words.old.items ++ replicate brackets word.Bracket) }
{
    for _ in 0..brackets {
        words.push(Word::Bracket)?;
    }
    Ok(())
}

pub(crate) fn push_atom<A: Allocator>(
    words: &mut Vec<Word<usize>, A>,
    atom: Atom<usize>,
) -> Result<(), AllocError>
    ensures { OnOk result (words.new.items ≡ words.old.items ++ forms.atom_words atom) }
{
    match atom {
        Atom::Number {
            at,
            number,
            brackets,
        } => {
            words.push(Word::Number { at, number })?;
            push_brackets(words, brackets)
        }
        Atom::Negative {
            sign_at,
            at,
            number,
            brackets,
        } => {
            words.push(Word::Number { at, number })?;
            words.push(Word::Prefix {
                at: sign_at,
                op: Unary::Neg,
            })?;
            push_brackets(words, brackets)
        }
        Atom::Name { at, name } => {
            words.push(Word::Name { at, name })?;
            Ok(())
        }
    }
}

/// Brackets, where what is before has a lower level than is wanted.
fn push_brackets_below<A: Allocator>(
    words: &mut Vec<Word<usize>, A>,
    wanted: u64,
    level: u64,
) -> Result<(), AllocError>
    ensures { OnOk result (words.new.items ≡ words.old.items ++ forms.brackets wanted level) }
{
    if level < wanted {
        words.push(Word::Bracket)?;
    }
    Ok(())
}

/// The end of the left operand of an operator, which has this level.
pub(crate) fn push_left_end<A: Allocator>(
    words: &mut Vec<Word<usize>, A>,
    op: Binary,
    level: u64,
) -> Result<(), AllocError>
    ensures { OnOk result (words.new.items ≡ words.old.items ++ forms.left_end op level) }
{
    push_brackets_below(words, left_level(op), level)?;
    words.push(Word::Left)?;
    Ok(())
}

/// The end of the right operand of an operator, which has this level, and of the operator.
pub(crate) fn push_right_end<A: Allocator>(
    words: &mut Vec<Word<usize>, A>,
    at: usize,
    op: Binary,
    level: u64,
) -> Result<(), AllocError>
    ensures { OnOk result (words.new.items ≡ words.old.items ++ forms.right_end at op level) }
{
    push_brackets_below(words, right_level(op), level)?;
    words.push(Word::Infix {
        at,
        sign: InfixSign::Direct { op },
    })?;
    Ok(())
}

/// A `let` of a name, with its value's words from `start` on of other words.
pub(crate) fn push_let<A: Allocator>(
    words: &mut Vec<Word<usize>, A>,
    at: usize,
    name: usize,
    value: &[Word<usize>],
) -> Result<(), AllocError>
    ensures { OnOk result (words.new.items ≡ words.old.items ++ forms.let_words at name value.now) }
{
    words.push(Word::Let { at })?;
    words.push(Word::Bind { at, name })?;
    words.push(Word::List)?;
    words.extend_from_slice(value)?;
    words.push(Word::Part)?;
    words.push(Word::EndLet { at })?;
    Ok(())
}

/// The end of a body that gives one value.
pub(crate) fn push_given_end<A: Allocator>(
    words: &mut Vec<Word<usize>, A>,
) -> Result<(), AllocError>
    ensures { OnOk result (words.new.items ≡ words.old.items ++ forms.given_end) }
{
    words.push(Word::Part)?;
    words.push(Word::Give)?;
    Ok(())
}

/// A body that gives this.
pub(crate) fn push_giving<A: Allocator>(
    words: &mut Vec<Word<usize>, A>,
    atom: Atom<usize>,
) -> Result<(), AllocError>
    ensures { OnOk result (words.new.items ≡ words.old.items ++ forms.giving (forms.atom_words atom)) }
{
    words.push(Word::List)?;
    push_atom(words, atom)?;
    push_given_end(words)
}

/// The parts of an `if` after its first arm.
pub(crate) fn push_or_else<A: Allocator>(
    words: &mut Vec<Word<usize>, A>,
    at: usize,
    atom: Atom<usize>,
) -> Result<(), AllocError>
    ensures { OnOk result (words.new.items ≡ words.old.items ++ forms.or_else at (forms.atom_words atom)) }
{
    words.push(Word::Else)?;
    push_giving(words, atom)?;
    words.push(Word::EndIf { at })?;
    Ok(())
}

/// Whether the counter of a `for` is before its end.
pub(crate) fn push_goes_on<A: Allocator>(
    words: &mut Vec<Word<usize>, A>,
    at: usize,
    counter: usize,
    end: Atom<usize>,
) -> Result<(), AllocError>
    ensures { OnOk result (words.new.items ≡ words.old.items ++ forms.goes_on at counter end) }
{
    words.push(Word::Name { at, name: counter })?;
    words.push(Word::Left)?;
    push_atom(words, end)?;
    push_right_end(words, at, Binary::Lt, atom_level(end))
}

/// The names that are carried, with their first values, each.
pub(crate) fn push_carried_firsts<A: Allocator>(
    words: &mut Vec<Word<usize>, A>,
    names: &[Given<usize>],
    firsts: &[Atom<usize>],
) -> Result<(), AllocError>
    ensures { OnOk result (words.new.items ≡ words.old.items ++ forms.carried_firsts names.now firsts.now) }
{
    let mut index = 0;
    while index < names.len() && index < firsts.len() {
        let Given { at, name } = names[index];
        words.push(Word::Start { at, name })?;
        push_atom(words, firsts[index])?;
        words.push(Word::First)?;
        index += 1;
    }
    Ok(())
}

pub(crate) fn push_all_bound<A: Allocator>(
    words: &mut Vec<Word<usize>, A>,
    at: usize,
    names: &[Given<usize>],
) -> Result<(), AllocError>
    ensures { OnOk result (words.new.items ≡ words.old.items ++ forms.all_bound at names.now) }
{
    for given in names {
        words.push(Word::Bind {
            at,
            name: given.name,
        })?;
    }
    Ok(())
}

/// Each name as a part of a list.
pub(crate) fn push_all_named<A: Allocator>(
    words: &mut Vec<Word<usize>, A>,
    at: usize,
    names: &[Given<usize>],
) -> Result<(), AllocError>
    ensures { OnOk result (words.new.items ≡ words.old.items ++ forms.all_named at names.now) }
{
    for given in names {
        words.push(Word::Name {
            at,
            name: given.name,
        })?;
        words.push(Word::Part)?;
    }
    Ok(())
}

/// Each value as a part of a list.
pub(crate) fn push_all_given<A: Allocator>(
    words: &mut Vec<Word<usize>, A>,
    firsts: &[Atom<usize>],
) -> Result<(), AllocError>
    ensures { OnOk result (words.new.items ≡ words.old.items ++ forms.all_given firsts.now) }
{
    for first in firsts {
        push_atom(words, *first)?;
        words.push(Word::Part)?;
    }
    Ok(())
}
