//! The words of a line.

ghost use Rattle.std.specs.Prelude.{◌≡◌, [], ◌∷◌, MatchOption};
ghost use Rattle.assembler.specs.Words.{words_of, has_words};

use graph_file::{FieldPlace, Parts};
use std::marker::Model;

/// The words of a line from the first that was not taken. Contracts see the list of them.
#[derive(Drop)]
pub(crate) struct Words<'a> {
    parts: Parts<'a>,
}

impl<'a> Model for Words<'a> {
    ghost use Rattle.std.specs.Prelude.{ℕ, List};
    ghost use Rattle.assembler.specs.Words.{kept};

    ghost Value = { List (List ℕ) };

    ghost view = { λ w. kept w.parts };
}

impl<'a> Words<'a> {
    /// The words of a line.
    #[tactic(auto, unfolding(crate::specs::Words::words_of))]
    pub(crate) fn of(line: &'a [u8]) -> Words<'a>
        ensures { result ≡ words_of line.now }
    {
        match Parts::of(line, b';').split_first() {
            Some((text, _)) => Words {
                parts: Parts::of(text, b' '),
            },
            None => Words {
                parts: Parts::of(b"", b' '),
            },
        }
    }

    /// The same words once more.
    pub(crate) fn again(&self) -> Words<'a>
        ensures { result ≡ self.now }
    {
        Words {
            parts: self.parts.again(),
        }
    }

    /// The place of this word, where these are the words after it.
    pub(crate) fn place_of(&self, word: &[u8]) -> FieldPlace {
        self.parts.place_of(word)
    }

    /// Whether a word is left.
    pub(crate) fn are_some(self) -> bool
        ensures { result ≡ has_words self.entry }
    {
        match self.split_first() {
            Some(_) => true,
            None => false,
        }
    }

    /// The first word, and the words after it. None where no word is left.
    #[tactic(auto, unfolding(crate::specs::Words::kept))]
    pub(crate) fn split_first(self) -> Option<(&'a [u8], Words<'a>)>
        ensures { MatchOption result (self.entry ≡ []) (λ x. self.entry ≡ x.0.now ∷ x.1) }
    {
        let mut rest = self.parts;
        while let Some((part, after)) = rest.split_first() {
            if !part.is_empty() {
                return Some((part, Words { parts: after }));
            }
            rest = after;
        }
        None
    }
}
