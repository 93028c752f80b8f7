//! The flags of words, from the end.

ghost use Rattle.std.specs.Prelude.{length, ◌≡◌, ◌∷◌, ◌==◌, false, None, IfOk, OnOk, take};
ghost use Rattle.std.specs.List.{list_any};
ghost use Rattle.desugar.specs.Flags as flags;
ghost use Rattle.desugar.specs.Flags.{at_end};
ghost use Rattle.desugar.specs.Open.{by_number, before_at, flags_of};

use crate::maker::next;
use crate::stack::Stack;
use source::word::Word as CoreWord;
use std::alloc::{AllocError, Allocator};
use std::marker::Model;
use surface::word::Word;

/// A part that is open from the end.
#[derive(Clone, Copy)]
pub enum Part {
    /// The right operand of `and`: whether only the truth of both is asked.
    Operand { truth: bool },
    /// The first arm of an `if`: whether it is a statement without a last `else`.
    Arm { is_when: bool },
    InLoop,
    /// A `for`: how many names it carries.
    Carries { count: usize },
    Lengths,
    Arguments,
}

/// What is open from the end. The names that one `for` carries are side by side, after those of the `for`s around it.
#[derive(Drop)]
struct Look<A: Allocator> {
    /// Whether only the truth is asked of the expression that ends here.
    truth: bool,
    parts: Stack<Part, A>,
    carried: Stack<usize, A>,
}

impl<A: Allocator> Model for Look<A> {
    ghost use Rattle.std.specs.Prelude.{ℕ};
    ghost use Rattle.desugar.specs.Flags as flags;
    ghost use Rattle.desugar.specs.Open.{opened};

    ghost Value = { flags.Look ℕ };

    ghost view = { λ k. record { truth = k.truth; outer = opened k.carried k.parts } };
}

/// The name is among the last `count`.
fn contains<A: Allocator>(names: &Stack<usize, A>, count: usize, name: usize) -> bool
    ensures { result ≡ list_any (λ x. name == x) (take count names.now) }
{
    let mut depth = 0;
    while depth < count {
        match names.at(depth) {
            Some(other) if other == name => return true,
            Some(_) => depth += 1,
            None => return false,
        }
    }
    false
}

impl<A: Allocator> Look<A> {
    fn new(alloc: &A) -> Result<Look<A>, AllocError>
    where
        A: Clone,
        ensures { IfOk result (λ k. k ≡ at_end) }
    {
        Ok(Look {
            truth: false,
            parts: Stack::new(alloc.clone()?),
            carried: Stack::new(alloc.clone()?),
        })
    }

    /// Whether only the truth is asked of the operands of the innermost `and`.
    fn asked(&self) -> bool
        ensures { result ≡ flags.asked self.now.outer }
    {
        match self.parts.top() {
            Some(Part::Operand { truth }) => truth,
            _ => false,
        }
    }

    /// Whether the innermost `if` is a statement without a last `else`.
    fn is_when(&self) -> bool
        ensures { result ≡ flags.is_when self.now.outer }
    {
        match self.parts.top() {
            Some(Part::Arm { is_when }) => is_when,
            _ => false,
        }
    }

    /// Whether the innermost parts are lengths of an array.
    fn are_lengths(&self) -> bool
        ensures { result ≡ flags.are_lengths self.now.outer }
    {
        matches!(self.parts.top(), Some(Part::Lengths))
    }

    /// Whether the word before is a name that the innermost `for` carries.
    fn is_carried(&self, before: Option<Word<usize>>) -> bool
        ensures { result ≡ flags.is_carried by_number before self.now.outer }
    {
        match (before, self.parts.top()) {
            (
                Some(
                    Word::Core {
                        word: CoreWord::Name { name, .. },
                    },
                ),
                Some(Part::Carries { count }),
            ) => contains(&self.carried, count, name),
            _ => false,
        }
    }

    /// The flag of a word, with the one before it.
    fn flag(&self, before: Option<Word<usize>>, word: Word<usize>) -> bool
        ensures { result ≡ flags.flag by_number before word self.now }
    {
        match word {
            Word::AndThen => self.asked(),
            Word::Core {
                word: CoreWord::Then,
            } => self.is_when(),
            Word::Core {
                word: CoreWord::Part,
            } => self.are_lengths(),
            Word::EndRange => self.is_carried(before),
            _ => false,
        }
    }

    /// The innermost part ends, seen from the end.
    fn close(&mut self, truth: bool)
        ensures { self.new ≡ record { truth = truth; outer = flags.closes self.old.outer } }
    {
        self.truth = truth;
        if let Some(Part::Carries { count }) = self.parts.top() {
            self.carried.close(count);
        }
        self.parts.close(1);
    }

    /// A name of a loop, or one that a `for` carries.
    fn started(&mut self, name: usize) -> Result<(), AllocError>
        ensures { OnOk result (self.new ≡ record { truth = false; outer = flags.started name self.old.outer }) }
    {
        self.truth = false;
        if let Some(Part::Carries { count }) = self.parts.top() {
            let count = next(count)?;
            self.carried.push(name)?;
            self.parts.replace(1, Part::Carries { count })?;
        }
        Ok(())
    }

    /// Before a word that the core has, too.
    fn core_before(&mut self, word: CoreWord<usize>) -> Result<(), AllocError>
        ensures { OnOk result (self.new ≡ flags.core_before word self.old) }
    {
        match word {
            CoreWord::Bracket => (),
            CoreWord::While => self.truth = true,
            CoreWord::EndLoop { .. } => {
                self.truth = true;
                self.parts.push(Part::InLoop)?;
            }
            CoreWord::Start { name, .. } => return self.started(name),
            CoreWord::EndIf { .. } => {
                self.truth = false;
                self.parts.push(Part::Arm { is_when: false })?;
            }
            CoreWord::Call { .. } => {
                self.truth = false;
                self.parts.push(Part::Arguments)?;
            }
            CoreWord::Loop { .. }
            | CoreWord::Then
            | CoreWord::Array { .. }
            | CoreWord::Callee { .. } => self.close(false),
            _ => self.truth = false,
        }
        Ok(())
    }

    /// Before a word.
    fn before(&mut self, word: Word<usize>) -> Result<(), AllocError>
        ensures { OnOk result (self.new ≡ flags.before word self.old) }
    {
        match word {
            Word::Core { word } => return self.core_before(word),
            Word::EndAnd { .. } => self.parts.push(Part::Operand { truth: self.truth })?,
            Word::AndThen => {
                let truth = self.asked();
                self.close(truth);
            }
            Word::EndConstantLoop { .. } => {
                self.truth = true;
                self.parts.push(Part::InLoop)?;
            }
            Word::EndWhen { .. } => {
                self.truth = false;
                self.parts.push(Part::Arm { is_when: true })?;
            }
            Word::EndFor { .. } => {
                self.truth = false;
                self.parts.push(Part::Carries { count: 0 })?;
            }
            Word::For { .. } => self.close(false),
            Word::EndArray => {
                self.truth = false;
                self.parts.push(Part::Lengths)?;
            }
            _ => self.truth = false,
        }
        Ok(())
    }
}

/// The word before that of this index.
#[tactic(auto, using(crate::proofs::Backward::word_is_before))]
fn word_before(words: &[Word<usize>], index: usize) -> Option<Word<usize>>
    ensures { result ≡ before_at words.now index }
{
    if 0 < index {
        words.get(index - 1).copied()
    } else {
        None
    }
}

/// The flag of each word.
pub(crate) fn flags<A: Allocator + Clone>(
    alloc: &A,
    words: &[Word<usize>],
) -> Result<Vec<bool, A>, AllocError>
    ensures flags { IfOk result (λ v. v.items ≡ flags_of None words.now) }
    ensures len { IfOk result (λ v. length v.items ≡ length words.now) }
{
    let mut look = Look::new(alloc)?;
    let mut flags = Vec::new(alloc.clone()?);
    let mut index = words.len();
    while index > 0 {
        let word = words[index - 1];
        flags.push(look.flag(word_before(words, index - 1), word))?;
        look.before(word)?;
        index -= 1;
    }
    flags.reverse();
    Ok(flags)
}
