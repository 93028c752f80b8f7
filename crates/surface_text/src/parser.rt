//! The parser: a stack of symbols, and the words so far.

ghost use Rattle.std.specs.Prelude.{◌≡◌, ◌++◌, ℕ, List, reverse, All, false, true, Ok, MatchResult, OnOk, IfSome, IfErr, option_to_list, ◌⊎◌, if◌then◌else◌, [], ◌∷◌};
ghost use Rattle.law_surface_text.specs.declared.symbol.Symbol.{Symbol};
ghost use Rattle.law_surface_text.specs.declared.symbol.Symbol.TheVariants.{StepEnd, Further};
ghost use Rattle.law_surface_text.specs.Automaton.{would_take, unexpected};
ghost use Rattle.law_surface_text.specs.Named.{named_stack};
ghost use Rattle.source.specs.Tree.{Name};
ghost use Rattle.source.specs.declared.fault.FaultKind.TheVariants.{Memory, Unexpected};
ghost use Rattle.surface.specs.Spelled as spelled;
ghost use Rattle.surface.specs.declared.fault.FaultKind.TheVariants.{Core};
ghost use Rattle.surface_text.specs.Outcomes.{lexeme_named, reaction_named, IsShallow, AreAllShallow};
ghost use Rattle.surface_text.specs.declared.parser.Acted.TheVariants as acted;
ghost use Rattle.surface_text.specs.Running.{below_of, words_named, state, onward, reacted, after_act, ending, kind_or, IsKind, IsBlamed, IsFault};

use crate::expected::{expected, expected_below};
use crate::lexeme::Lexeme;
use crate::operands::is_largest;
use crate::outcome::{Outcome, Pushes};
use crate::reaction::{Reaction, react_below};
use crate::refusal::Expected;
use law_surface_text::symbol::Symbol;
use source::fault::FaultKind;
use source::token::Sign as CoreSign;
use std::alloc::Allocator;
use surface::token::Sign;
use surface::word::Word;

/// How many may be open at once.
const LIMIT: u8 = 200;

/// What a symbol that was on top of the stack did with a token: it took it, or let it pass, and then what ended may be an `if` without its last
/// `else`.
#[derive(Clone, Copy)]
pub(crate) enum Acted {
    Taken,
    Passed,
    Lacked,
}

/// Why a token, or the end, is refused, and what was expected there.
#[derive(Clone, Copy)]
pub(crate) struct Stopped {
    pub kind: FaultKind,
    pub expected: Option<Expected>,
}

/// Why a token is refused, where it is not known what was expected.
fn unexplained(kind: FaultKind) -> Stopped
    ensures { result.kind ≡ kind }
{
    Stopped {
        kind,
        expected: None,
    }
}

/// The kind that is reported, where this one is that of a token that is not expected.
fn kind_or(kind: FaultKind, unexpected: FaultKind) -> FaultKind
    ensures { result ≡ kind_or kind unexpected }
{
    match kind {
        FaultKind::Unexpected => unexpected,
        kind => kind,
    }
}

/// What is expected, the top last, and the words of what was read.
#[derive(Drop)]
pub(crate) struct Parser<A: Allocator> {
    pub stack: Vec<Symbol<usize>, A>,
    pub words: Vec<Word<usize>, A>,
}

impl<A: Allocator> Parser<A> {
    fn push_words(&mut self, words: &[Word<usize>]) -> Result<(), FaultKind>
        ensures words { OnOk result (self.new.words.items ≡ self.old.words.items ++ words.now) }
        ensures stack { self.new.stack.items ≡ self.old.stack.items }
        ensures memory { IfErr result (λ kind. kind ≡ Memory) }
    {
        let Ok(()) = self.words.extend_from_slice(words) else {
            return Err(FaultKind::Memory);
        };
        Ok(())
    }

    fn push_word(&mut self, word: Option<Word<usize>>) -> Result<(), FaultKind>
        ensures words { OnOk result (self.new.words.items ≡ self.old.words.items ++ option_to_list word) }
        ensures stack { self.new.stack.items ≡ self.old.stack.items }
        ensures memory { IfErr result (λ kind. kind ≡ Memory) }
    {
        match word {
            Some(word) => self.push_words(&[word]),
            None => Ok(()),
        }
    }

    /// The first symbol is put on top.
    fn push_symbols(&mut self, symbols: &[Symbol<usize>]) -> Result<(), FaultKind>
        ensures stack { OnOk result (self.new.stack.items ≡ self.old.stack.items ++ reverse symbols.now) }
        ensures words { self.new.words.items ≡ self.old.words.items }
        ensures memory { IfErr result (λ kind. kind ≡ Memory) }
    {
        let mut rest = symbols;
        while let Some((last, before)) = rest.split_last() {
            let Ok(()) = self.stack.push(*last) else {
                return Err(FaultKind::Memory);
            };
            rest = before;
        }
        Ok(())
    }

    /// What follows the first value of a step.
    fn push_below(&mut self, below: Option<u8>) -> Result<(), FaultKind>
        ensures stack { OnOk result (self.new.stack.items ≡ self.old.stack.items ++ below_of below) }
        ensures words { self.new.words.items ≡ self.old.words.items }
        ensures memory { IfErr result (λ kind. kind ≡ Memory) }
    {
        match below {
            Some(depth) => self.push_symbols(&[
                Symbol::Further { depth },
                Symbol::StepEnd { depth },
            ]),
            None => Ok(()),
        }
    }

    /// Does what the symbol that was on top of the stack does.
    fn act(&mut self, reaction: Reaction, pushes: &Pushes) -> Result<Acted, FaultKind>
        requires reaction { AreAllShallow reaction pushes.now }
        requires stack { All IsShallow self.old.stack.items }
        ensures acts { (names : List Name) (at : ℕ) (l : spelled.Lexeme) → MatchResult result
            (λ acted. reacted at l (state names self.old.stack.items self.old.words.items) (reaction_named names reaction pushes.now)
            ≡ after_act acted at l (state names self.new.stack.items self.new.words.items))
            (λ kind. IsKind kind (reacted at l (state names self.old.stack.items self.old.words.items) (reaction_named names reaction pushes.now))) }
        ensures shallow { OnOk result (All IsShallow self.new.stack.items) }
        ensures passed { result ≡ Ok acted.Passed → self.new.stack.items ≡ self.old.stack.items }
        ensures lacked { result ≡ Ok acted.Lacked → self.new.stack.items ≡ self.old.stack.items }
    {
        self.push_word(reaction.before)?;
        match reaction.outcome {
            Outcome::Takes { needed } => {
                if needed > LIMIT {
                    return Err(FaultKind::TooDeep);
                }
                self.push_words(pushes.words.as_slice())?;
                self.push_below(reaction.below)?;
                self.push_symbols(pushes.symbols.as_slice())?;
                Ok(Acted::Taken)
            }
            Outcome::Passes => {
                self.push_words(pushes.words.as_slice())?;
                Ok(Acted::Passed)
            }
            Outcome::Lacks => {
                self.push_words(pushes.words.as_slice())?;
                Ok(Acted::Lacked)
            }
            Outcome::Refuses => Err(FaultKind::Unexpected),
        }
    }

    /// Takes a token, or returns what the automaton says of one that does not go on.
    fn take(&mut self, pushes: &mut Pushes, at: usize, lexeme: Lexeme) -> Result<(), Stopped>
        requires { All IsShallow self.old.stack.items }
        ensures took { (names : List Name) → MatchResult result
            (λ _. onward false at (lexeme_named names lexeme) (state names self.old.stack.items self.old.words.items)
            ≡ Ok (state names self.new.stack.items self.new.words.items))
            (λ stopped. IsKind stopped.kind (onward false at (lexeme_named names lexeme) (state names self.old.stack.items self.old.words.items))) }
        ensures shallow { OnOk result (All IsShallow self.new.stack.items) }
    {
        let mut lacking = false;
        while let Some(symbol) = self.stack.pop() {
            let Some(reaction) = react_below(pushes, symbol, lacking, at, lexeme) else {
                return Err(unexplained(FaultKind::Memory));
            };
            let acted = match self.act(reaction, pushes) {
                Ok(acted) => acted,
                Err(kind) => {
                    return Err(Stopped {
                        kind,
                        expected: Some(expected_below(symbol, lacking, &self.stack)),
                    });
                }
            };
            match acted {
                Acted::Taken => return Ok(()),
                Acted::Passed => lacking = false,
                Acted::Lacked => lacking = true,
            }
        }
        Err(unexplained(FaultKind::Unexpected))
    }

    /// Whether a token that says this would be taken. There is no answer where the dimensions of a parameter cannot be counted.
    fn would_take(&self, pushes: &mut Pushes, lexeme: Lexeme) -> Option<bool>
        requires { All IsShallow self.now.stack.items }
        ensures { IfSome result (λ taken. (names : List Name) → taken ≡ would_take 200 (named_stack names self.now.stack.items) (lexeme_named names lexeme)) }
    {
        let mut lacking = false;
        let mut rest = self.stack.as_slice();
        while let Some((symbol, below)) = rest.split_last() {
            let Some(reaction) = react_below(pushes, *symbol, lacking, 0, lexeme) else {
                return None;
            };
            match reaction.outcome {
                Outcome::Takes { needed } => return Some(needed <= LIMIT),
                Outcome::Passes => lacking = false,
                Outcome::Lacks => lacking = true,
                Outcome::Refuses => return Some(false),
            }
            rest = below;
        }
        Some(false)
    }

    /// This kind, where a token that says this would be taken.
    fn kind_where(&self, pushes: &mut Pushes, lexeme: Lexeme, kind: FaultKind) -> FaultKind
        requires { All IsShallow self.now.stack.items }
        ensures { (names : List Name) → (result ≡ Memory) ⊎ (result ≡ (if would_take 200 (named_stack names self.now.stack.items) (lexeme_named names lexeme)
            then kind else Unexpected)) }
    {
        let Some(taken) = self.would_take(pushes, lexeme) else {
            return FaultKind::Memory;
        };
        if taken { kind } else { FaultKind::Unexpected }
    }

    /// The kind of the fault that this token is where it does not go on, and nothing is too deep.
    fn unexpected(&self, pushes: &mut Pushes, lexeme: Lexeme) -> FaultKind
        requires { All IsShallow self.now.stack.items }
        ensures { (names : List Name) → (result ≡ Memory) ⊎ (result ≡ unexpected 200 (named_stack names self.now.stack.items) (lexeme_named names lexeme)) }
    {
        match lexeme {
            Lexeme::Mark {
                sign: Sign::Core {
                    sign: CoreSign::Becomes,
                },
            } => {
                let plus = Sign::Core {
                    sign: CoreSign::Plus,
                };
                self.kind_where(pushes, Lexeme::Mark { sign: plus }, FaultKind::NotACell)
            }
            Lexeme::Number { number } => {
                if is_largest(number) {
                    self.kind_where(pushes, Lexeme::Number { number: 0 }, FaultKind::BadNumber)
                } else {
                    FaultKind::Unexpected
                }
            }
            _ => FaultKind::Unexpected,
        }
    }

    /// Takes a token, or returns why it does not go on.
    pub(crate) fn read(
        &mut self,
        pushes: &mut Pushes,
        at: usize,
        lexeme: Lexeme,
    ) -> Result<(), Stopped>
        requires { All IsShallow self.old.stack.items }
        ensures took { (names : List Name) → MatchResult result
            (λ _. onward false at (lexeme_named names lexeme) (state names self.old.stack.items self.old.words.items)
            ≡ Ok (state names self.new.stack.items self.new.words.items))
            (λ stopped. IsBlamed names self.old.stack.items (lexeme_named names lexeme) stopped.kind
            (onward false at (lexeme_named names lexeme) (state names self.old.stack.items self.old.words.items))) }
        ensures shallow { OnOk result (All IsShallow self.new.stack.items) }
    {
        let unexpected = self.unexpected(pushes, lexeme);
        match self.take(pushes, at, lexeme) {
            Ok(()) => Ok(()),
            Err(stopped) => Err(Stopped {
                kind: kind_or(stopped.kind, unexpected),
                expected: stopped.expected,
            }),
        }
    }

    /// Does what a symbol that was on top of the stack does at the end: it may add words, and begins no further item.
    fn end(&mut self, symbol: Symbol<usize>) -> Result<(), FaultKind>
        ensures stack { self.new.stack.items ≡ self.old.stack.items }
        ensures ends { (names : List Name) (end : ℕ) (s : List (Symbol ℕ)) → s ≡ self.old.stack.items ++ symbol ∷ [] → MatchResult result
            (λ _. ending end (state names s self.old.words.items) ≡ ending end (state names self.new.stack.items self.new.words.items))
            (λ kind. IsFault (record { kind = Core kind; at = end }) (ending end (state names s self.old.words.items))) }
    {
        match symbol {
            Symbol::Emit { word } => self.push_words(&[word]),
            Symbol::Items => Ok(()),
            _ => Err(FaultKind::Unended),
        }
    }

    /// The words, where no token is left.
    pub(crate) fn finish(mut self) -> Result<Vec<Word<usize>, A>, Stopped>
        ensures { (names : List Name) (end : ℕ) → MatchResult result
            (λ words. ending end (state names self.stack.items self.words.items) ≡ Ok (words_named names words.items))
            (λ stopped. IsFault (record { kind = Core stopped.kind; at = end }) (ending end (state names self.stack.items self.words.items))) }
    {
        while let Some(symbol) = self.stack.pop() {
            if let Err(kind) = self.end(symbol) {
                return Err(Stopped {
                    kind,
                    expected: Some(expected(symbol, &self.stack)),
                });
            }
        }
        Ok(self.words)
    }
}
