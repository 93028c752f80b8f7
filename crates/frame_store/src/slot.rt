//! A slot in two words.

use packed::packing::{pack, unpack};
use packed::token::PackedToken;
use packed::word::PackedWord;
use std::marker::Model;
use tags::slot::SlotState;
use tags::token::Port;

/// A slot. Contracts see its state. Its two words are always those of a state.
#[derive(Clone, Copy)]
pub struct Slot {
    head: u64,
    body: u64,
}

impl Model for Slot {
    ghost use Rattle.std.specs.Prelude.{◌≡◌, ℕ, List, [], ◌∷◌, slice_index};
    ghost use Rattle.std.proofs.Common.{ap};
    ghost use Rattle.tags.specs.declared.slot.SlotState.{SlotState};
    ghost use Rattle.packed.specs.Packing.{slot_from, slot_words};

    ghost Value = { SlotState };

    ghost view = { λ s. slot_from s.head s.body };

    ghost invariant = { λ s. slot_words (slot_from s.head s.body) ≡ s.head ∷ s.body ∷ [] };

    ghost inverse = { λ s. record { head = slice_index (slot_words s) 0; body = slice_index (slot_words s) 1 } };

    ghost inverse_ok = { λ s h i. record { head = slice_index (h i) 0; body = slice_index (h i) 1 } };
}

impl Slot {
    ghost use Rattle.std.specs.Prelude.{◌≡◌, ◌≢◌, ◌↔◌, ℕ, true, IsSome, IfSome, IfNone, slice_index};
    ghost use Rattle.tags.specs.declared.slot.SlotState.TheVariants.{Empty, Credits, Waiter};
    ghost use Rattle.tags.specs.declared.token.Cont.{Cont};
    ghost use Rattle.tags.specs.declared.token.Word.TheVariants.{Back};
    ghost use Rattle.packed.specs.Packing.{slot_words};
    ghost use Rattle.packed.specs.PackedTokens.{waits_as, IsForInstr};
    ghost use Rattle.frame_store.specs.Sides.{side_of, word_of};

    /// A slot that is empty.
    #[inline(always)]
    pub fn empty() -> Slot
        ensures { result ≡ Empty }
    {
        Slot { head: 0, body: 0 }
    }

    /// A slot in which the word of a token waits that goes to an instruction: the token's own words.
    #[inline(always)]
    pub fn waiting(token: &PackedToken) -> Slot
        requires { IsForInstr token.now.to }
        ensures { result ≡ waits_as token.now.to token.now.word }
    {
        let words = token.waiting();
        Slot {
            head: words[0],
            body: words[1],
        }
    }

    /// Whether it is empty.
    #[inline(always)]
    pub fn is_empty(&self) -> bool
        ensures { (result ≡ true) ↔ (self.now ≡ Empty) }
    {
        self.head % 256 == 0
    }

    /// The port whose word waits, if one does.
    #[inline(always)]
    pub fn side(&self) -> Option<Port>
        ensures { result ≡ side_of self.now }
    {
        match self.head % 256 {
            1 => Some(Port::Left),
            2 => Some(Port::Right),
            _ => None,
        }
    }

    /// The word that waits.
    #[inline(always)]
    pub fn word(&self) -> PackedWord
        requires { IsSome (side_of self.now) }
        ensures { result ≡ word_of self.now }
    {
        PackedWord::from_words(self.head, self.body)
    }

    /// A slot that holds so many credits.
    #[inline(always)]
    pub fn with_credits(count: u32) -> Slot
        ensures { result ≡ Credits count }
    {
        Slot {
            head: 3,
            body: u64::from(count),
        }
    }

    /// How many credits it holds, if it holds credits.
    #[inline(always)]
    pub fn credits(&self) -> Option<u32>
        ensures some { IfSome result (λ n. self.now ≡ Credits n) }
        ensures none { IfNone result ((n : ℕ) → self.now ≢ Credits n) }
    {
        if self.head % 256 == 3 {
            Some((self.body % 4_294_967_296) as u32)
        } else {
            None
        }
    }

    /// The continuation that waits for a credit, if one does.
    #[inline(always)]
    pub fn waiter(&self) -> Option<PackedWord>
        ensures some { IfSome result (λ w. (c : Cont) × (self.now ≡ Waiter c) × (w ≡ Back c)) }
        ensures none { IfNone result ((c : Cont) → self.now ≢ Waiter c) }
    {
        if self.head % 256 == 4 {
            Some(PackedWord::from_words(self.head, self.body))
        } else {
            None
        }
    }

    /// What the slot holds.
    #[inline(always)]
    pub fn state(&self) -> SlotState
        ensures { result ≡ self.now }
    {
        unpack(self.head, self.body)
    }

    /// The two words of the slot.
    pub fn words(&self) -> [u64; 2]
        ensures { result ≡ slot_words self.now }
    {
        [self.head, self.body]
    }

    /// Changes what the slot holds.
    #[inline(always)]
    pub fn set(&mut self, state: SlotState)
        ensures { self.new ≡ state }
    {
        let words = pack(state);
        self.head = words[0];
        self.body = words[1];
    }
}
