//! The parser: a stack of symbols, and the words so far.

ghost use Rattle.std.specs.Prelude.{◌≡◌, ◌++◌, ℕ, List, reverse, All, false, Ok, MatchResult, OnOk, IfErr, option_to_list, if◌then◌else◌, [], ◌∷◌};
ghost use Rattle.law_language.specs.declared.symbol.Symbol.{Symbol};
ghost use Rattle.source.specs.Tree.{Name};
ghost use Rattle.source.specs.Spelled as spelled;
ghost use Rattle.source.specs.declared.fault.FaultKind.TheVariants.{Memory};
ghost use Rattle.source_text.specs.Outcomes.{lexeme_named, reaction_named, IsShallow, AreAllShallow};
ghost use Rattle.source_text.specs.Running.{words_named, state, onward, reacted, ending, IsKind, IsFault};

use crate::expected::expected;
use crate::lexeme::Lexeme;
use crate::outcome::{Outcome, Pushes};
use crate::reaction::{Reaction, react};
use law_language::symbol::Symbol;
use source::fault::FaultKind;
use source::word::Word;
use source_tokens::Expected;
use std::alloc::Allocator;

/// Why a token, or the end, is refused, and what was expected there.
#[derive(Clone, Copy)]
pub(crate) struct Stopped {
    pub kind: FaultKind,
    pub expected: Option<Expected>,
}

/// What is expected, the top last, and the words of what was read.
#[derive(Drop)]
pub(crate) struct Parser<A: Allocator> {
    pub stack: Vec<Symbol<usize>, A>,
    pub words: Vec<Word<usize>, A>,
}

impl<A: Allocator> Parser<A> {
    fn push_words(&mut self, words: &[Word<usize>]) -> Result<(), FaultKind>
        ensures words { OnOk result (self.new.words.items ≡ self.old.words.items ++ words.now) }
        ensures stack { self.new.stack.items ≡ self.old.stack.items }
        ensures memory { IfErr result (λ kind. kind ≡ Memory) }
    {
        let Ok(()) = self.words.extend_from_slice(words) else {
            return Err(FaultKind::Memory);
        };
        Ok(())
    }

    fn push_word(&mut self, word: Option<Word<usize>>) -> Result<(), FaultKind>
        ensures words { OnOk result (self.new.words.items ≡ self.old.words.items ++ option_to_list word) }
        ensures stack { self.new.stack.items ≡ self.old.stack.items }
        ensures memory { IfErr result (λ kind. kind ≡ Memory) }
    {
        match word {
            Some(word) => self.push_words(&[word]),
            None => Ok(()),
        }
    }

    /// The first symbol is put on top.
    fn push_symbols(&mut self, symbols: &[Symbol<usize>]) -> Result<(), FaultKind>
        ensures stack { OnOk result (self.new.stack.items ≡ self.old.stack.items ++ reverse symbols.now) }
        ensures words { self.new.words.items ≡ self.old.words.items }
        ensures memory { IfErr result (λ kind. kind ≡ Memory) }
    {
        let mut rest = symbols;
        while let Some((last, before)) = rest.split_last() {
            let Ok(()) = self.stack.push(*last) else {
                return Err(FaultKind::Memory);
            };
            rest = before;
        }
        Ok(())
    }

    fn push_symbol(&mut self, symbol: Option<Symbol<usize>>) -> Result<(), FaultKind>
        ensures stack { OnOk result (self.new.stack.items ≡ self.old.stack.items ++ option_to_list symbol) }
        ensures words { self.new.words.items ≡ self.old.words.items }
        ensures memory { IfErr result (λ kind. kind ≡ Memory) }
    {
        match symbol {
            Some(symbol) => self.push_symbols(&[symbol]),
            None => Ok(()),
        }
    }

    /// Does what the symbol that was on top of the stack does, and returns whether the token is taken.
    fn act(&mut self, reaction: Reaction, pushes: &Pushes) -> Result<bool, FaultKind>
        requires reaction { AreAllShallow reaction pushes.now }
        requires stack { All IsShallow self.old.stack.items }
        ensures acts { (names : List Name) (at : ℕ) (l : spelled.Lexeme) → MatchResult result
            (λ taken. reacted at l (state names self.old.stack.items self.old.words.items) (reaction_named names reaction pushes.now)
            ≡ (if taken then Ok (state names self.new.stack.items self.new.words.items)
            else onward at l (state names self.new.stack.items self.new.words.items)))
            (λ kind. IsKind kind (reacted at l (state names self.old.stack.items self.old.words.items) (reaction_named names reaction pushes.now))) }
        ensures shallow { OnOk result (All IsShallow self.new.stack.items) }
        ensures smaller { result ≡ Ok false → self.new.stack.items ≡ self.old.stack.items }
    {
        self.push_word(reaction.before)?;
        match reaction.outcome {
            Outcome::Takes => {
                self.push_words(pushes.words.as_slice())?;
                self.push_symbol(reaction.below)?;
                self.push_symbols(pushes.symbols.as_slice())?;
                Ok(true)
            }
            Outcome::Passes => Ok(false),
            Outcome::Refuses { kind } => Err(kind),
        }
    }

    /// Takes a token, or returns why it does not go on.
    pub(crate) fn take(
        &mut self,
        pushes: &mut Pushes,
        at: usize,
        lexeme: Lexeme,
    ) -> Result<(), Stopped>
        requires { All IsShallow self.old.stack.items }
        ensures took { (names : List Name) → MatchResult result
            (λ _. onward at (lexeme_named names lexeme) (state names self.old.stack.items self.old.words.items)
            ≡ Ok (state names self.new.stack.items self.new.words.items))
            (λ stopped. IsKind stopped.kind (onward at (lexeme_named names lexeme) (state names self.old.stack.items self.old.words.items))) }
        ensures shallow { OnOk result (All IsShallow self.new.stack.items) }
    {
        while let Some(symbol) = self.stack.pop() {
            let reaction = react(pushes, symbol, at, lexeme);
            let taken = match self.act(reaction, pushes) {
                Ok(taken) => taken,
                Err(kind) => {
                    return Err(Stopped {
                        kind,
                        expected: Some(expected(symbol, &self.stack)),
                    });
                }
            };
            if taken {
                return Ok(());
            }
        }
        Err(Stopped {
            kind: FaultKind::Unexpected,
            expected: None,
        })
    }

    /// Does what a symbol that was on top of the stack does at the end: it may add words, and begins no further item.
    #[tactic(auto, using(crate::proofs::Acting::ends_with_word, crate::proofs::Acting::ends_with_items, crate::proofs::Acting::ends_early))]
    fn end(&mut self, symbol: Symbol<usize>) -> Result<(), FaultKind>
        ensures stack { self.new.stack.items ≡ self.old.stack.items }
        ensures ends { (names : List Name) (end : ℕ) (s : List (Symbol ℕ)) → s ≡ self.old.stack.items ++ symbol ∷ [] → MatchResult result
            (λ _. ending end (state names s self.old.words.items) ≡ ending end (state names self.new.stack.items self.new.words.items))
            (λ kind. IsFault (record { kind = kind; at = end }) (ending end (state names s self.old.words.items))) }
    {
        match symbol {
            Symbol::Emit { word } => self.push_words(&[word]),
            Symbol::Items => Ok(()),
            _ => Err(FaultKind::Unended),
        }
    }

    /// The words, where no token is left.
    pub(crate) fn finish(mut self) -> Result<Vec<Word<usize>, A>, Stopped>
        ensures { (names : List Name) (end : ℕ) → MatchResult result
            (λ words. ending end (state names self.stack.items self.words.items) ≡ Ok (words_named names words.items))
            (λ stopped. IsFault (record { kind = stopped.kind; at = end }) (ending end (state names self.stack.items self.words.items))) }
    {
        while let Some(symbol) = self.stack.pop() {
            if let Err(kind) = self.end(symbol) {
                return Err(Stopped {
                    kind,
                    expected: Some(expected(symbol, &self.stack)),
                });
            }
        }
        Ok(self.words)
    }
}
