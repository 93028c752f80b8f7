//! Words, packed.

ghost use Rattle.std.specs.Prelude.{◌≡◌, ◌≢◌, ℤ, IfSome, IfNone, slice_index};
ghost use Rattle.tags.specs.declared.value.Value.TheVariants.{Int};
ghost use Rattle.tags.specs.declared.token.Word.TheVariants.{Val};
ghost use Rattle.packed.specs.PackedTokens.{word_in, AreWords, AreWordsOf};

use crate::packing::Fields;
use std::marker::Model;
use tags::token::Word;

/// A word in two words of 64 bits, those of a slot in which it waits except for bits 0 to 7, which are 0 here.
#[derive(Clone, Copy)]
pub struct PackedWord {
    head: u64,
    body: u64,
}

impl Model for PackedWord {
    ghost use Rattle.std.proofs.Common.{sym};
    ghost use Rattle.tags.specs.declared.token.Word.{Word};
    ghost use Rattle.packed.specs.Packing.{head_of, word_parts};
    ghost use Rattle.packed.specs.PackedTokens.{word_in, AreWordsOf};

    ghost Value = { Word };

    ghost view = { λ w. word_in w.head w.body };

    ghost invariant = { λ w. AreWordsOf 0 (word_in w.head w.body) w.head w.body };

    ghost inverse = { λ w. record { head = head_of 0 (word_parts w); body = (word_parts w).body } };

    ghost inverse_ok = { λ a h i. record { head = sym h.head i; body = sym h.body i } };
}

impl PackedWord {
    /// The word, packed.
    #[inline(always)]
    pub fn pack(word: Word) -> PackedWord
        ensures { result ≡ word }
    {
        let words = Fields::of_word(word).words(0);
        PackedWord {
            head: words[0],
            body: words[1],
        }
    }

    /// An integer, packed.
    #[inline(always)]
    pub fn int(number: i64) -> PackedWord
        ensures { result ≡ Val (Int number) }
    {
        PackedWord {
            head: 256,
            body: number.cast_unsigned(),
        }
    }

    /// The word that is packed in two words, whatever is in bits 0 to 7 of the first one.
    #[inline(always)]
    pub fn from_words(head: u64, body: u64) -> PackedWord
        requires { AreWords head body }
        ensures { result ≡ word_in head body }
    {
        PackedWord {
            head: head / 256 * 256,
            body,
        }
    }

    /// The word.
    #[inline(always)]
    pub fn unpack(&self) -> Word
        ensures { result ≡ self.now }
    {
        Fields::from_words(self.head, self.body).word()
    }

    /// The integer that it is, if it is one.
    #[inline(always)]
    pub fn as_int(&self) -> Option<i64>
        ensures some { IfSome result (λ z. self.now ≡ Val (Int z)) }
        ensures none { IfNone result ((z : ℤ) → self.now ≢ Val (Int z)) }
    {
        if self.head == 256 {
            Some(self.body.cast_signed())
        } else {
            None
        }
    }

    /// The two words, with a number in bits 0 to 7 of the first one.
    #[inline(always)]
    pub(crate) fn words(&self, state: u8) -> [u64; 2]
        ensures words { AreWordsOf state self.now (slice_index result 0) (slice_index result 1) }
        ensures word { word_in (slice_index result 0) (slice_index result 1) ≡ self.now }
    {
        [self.head + u64::from(state), self.body]
    }
}
