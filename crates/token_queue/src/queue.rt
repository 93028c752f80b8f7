//! Packed tokens in a ring of places.

ghost use Rattle.std.specs.Prelude.{◌≡◌, ◌+◌, ◌-◌, ◌*◌, ◌%◌, ◌^◌, ◌<◌, ◌≤◌, ◌⊎◌, true, false, [], ◌∷◌, ◌++◌, length, OnOk, OnErr, slice_index_or, remove};
ghost use Rattle.token_queue.specs.Ring.{IsPower};

use packed::token::PackedToken;
use std::alloc::{AllocError, Allocator};
use std::marker::Model;
use tags::token::{To, Token, Word};
use tags::value::Value;

/// What lies in a place that has no token of the queue.
const FILLER: Token = Token {
    to: To::Manager,
    word: Word::Val(Value::Int(0)),
};

/// The fewest places that are taken at once.
const FEWEST: usize = 4;

/// Tokens, oldest first. The number of places is 0 or a power of two. Tokens are counted as they come and as they go, and the
/// counts begin again at 2 ^ 64. The oldest token is in the place whose number is how many were taken out, modulo the number of
/// places, and each later one in the next place; a growth keeps that.
#[derive(Drop)]
pub struct TokenQueue<A: Allocator> {
    places: Vec<PackedToken, A>,
    /// One less than the number of places; 0 where there are none.
    mask: usize,
    /// How many were taken out.
    head: usize,
    /// How many were put in.
    tail: usize,
}

impl<A: Allocator> Model for TokenQueue<A> {
    ghost use Rattle.std.specs.Prelude.{◌+◌, ◌%◌, ◌^◌, length};
    ghost use Rattle.token_queue.specs.Tokens.{Tokens};
    ghost use Rattle.token_queue.specs.Ring.{held, IsRing};

    ghost Value = { Tokens };

    ghost view = { λ q. record {
      items = held q.head q.tail q.places.items;
      room = length q.places.items;
      gone = q.head;
    } };

    ghost invariant = { λ q. IsRing (length q.places.items) q.mask q.head q.tail };
}

/// The place of the token of this count.
#[inline(always)]
fn place(_places: usize, mask: usize, count: usize) -> usize
    requires power { IsPower _places }
    requires mask { mask ≡ _places - 1 }
    ensures exact { result ≡ count % _places }
    ensures within { result < _places }
{
    count & mask
}

impl<A: Allocator> TokenQueue<A> {
    /// A queue with no tokens and no room, which takes no memory.
    pub fn new(alloc: A) -> TokenQueue<A>
        ensures items { result.items ≡ [] }
        ensures room { result.room ≡ 0 }
        ensures gone { result.gone ≡ 0 }
    {
        TokenQueue {
            places: Vec::new(alloc),
            mask: 0,
            head: 0,
            tail: 0,
        }
    }

    /// How many tokens there are.
    #[inline(always)]
    pub fn len(&self) -> usize
        ensures { result ≡ length self.now.items }
    {
        self.tail.wrapping_sub(self.head)
    }

    /// How many tokens were taken out, modulo 2 ^ 64.
    #[inline(always)]
    pub fn gone(&self) -> usize
        ensures { result ≡ self.now.gone }
    {
        self.head
    }

    /// How many tokens were put in, modulo 2 ^ 64. Contracts say so where fewer than 2 ^ 63 were taken out.
    #[inline(always)]
    pub fn come(&self) -> usize
        ensures { self.now.gone < 2 ^ 63 → result ≡ self.now.gone + length self.now.items }
    {
        self.tail
    }

    /// For how many more tokens there is room.
    #[inline(always)]
    pub fn spare(&self) -> usize
        ensures { length self.now.items + result ≡ self.now.room }
    {
        self.places.len() - self.len()
    }

    /// Whether there is room for `tokens` more tokens.
    #[inline(always)]
    pub fn has_room(&self, tokens: usize) -> bool
        ensures yes { result ≡ true → length self.now.items + tokens ≤ self.now.room }
        ensures no { result ≡ false → self.now.room < length self.now.items + tokens }
    {
        tokens <= self.spare()
    }

    /// Makes room for `tokens` more tokens; room that is there already stays as it is. After an error nothing is changed.
    #[inline(always)]
    pub fn reserve(&mut self, tokens: usize) -> Result<(), AllocError>
        ensures items { self.new.items ≡ self.old.items }
        ensures gone { self.new.gone ≡ self.old.gone }
        ensures room { OnOk result (length self.new.items + tokens ≤ self.new.room) }
        ensures enough { length self.old.items + tokens ≤ self.old.room → OnOk result (self.new ≡ self.old) }
        ensures doubled { OnOk result ((self.new ≡ self.old) ⊎ (2 * self.old.room ≤ self.new.room)) }
        ensures err { OnErr result (self.new ≡ self.old) }
        ensures full { OnErr result (self.old.room < length self.old.items + tokens) }
    {
        if self.has_room(tokens) {
            return Ok(());
        }
        self.grow(tokens)
    }

    // Takes at least twice the room, and enough for `tokens` more tokens.
    #[tactic(auto, using(crate::proofs::Rings::held_turned, crate::proofs::Rings::held_long))]
    #[inline(never)]
    fn grow(&mut self, tokens: usize) -> Result<(), AllocError>
        ensures items { self.new.items ≡ self.old.items }
        ensures gone { self.new.gone ≡ self.old.gone }
        ensures room { OnOk result (length self.new.items + tokens ≤ self.new.room) }
        ensures doubled { OnOk result (2 * self.old.room ≤ self.new.room) }
        ensures err { OnErr result (self.new ≡ self.old) }
    {
        let count = self.len();
        let needed = count.checked_add(tokens).ok_or(AllocError)?;
        let doubled = self.places.len().saturating_mul(2);
        let places = doubled
            .max(needed)
            .max(FEWEST)
            .checked_next_power_of_two()
            .ok_or(AllocError)?;
        let front = self.head & self.mask;
        self.places.rotate_left(front);
        if let Err(error) = self.places.resize(places, PackedToken::pack(FILLER)) {
            self.places.rotate_right(front);
            return Err(error);
        }
        self.mask = places - 1;
        self.places.rotate_right(self.head & self.mask);
        Ok(())
    }

    /// Puts a packed token last, where there is room.
    #[inline(always)]
    pub fn push_packed(&mut self, token: PackedToken)
        requires { length self.old.items < self.old.room }
        ensures items { self.new.items ≡ self.old.items ++ token ∷ [] }
        ensures len { length self.new.items ≡ length self.old.items + 1 }
        ensures room { self.new.room ≡ self.old.room }
        ensures gone { self.new.gone ≡ self.old.gone }
    {
        let at = place(self.places.len(), self.mask, self.tail);
        self.places[at] = token;
        self.tail = self.tail.wrapping_add(1);
    }

    /// Puts a token that was taken out first again, where there is room: then one fewer was taken out.
    #[inline(always)]
    pub fn put_back(&mut self, token: PackedToken)
        requires room { length self.old.items < self.old.room }
        requires some { 0 < self.old.gone }
        ensures items { self.new.items ≡ token ∷ self.old.items }
        ensures room { self.new.room ≡ self.old.room }
        ensures gone { self.new.gone + 1 ≡ self.old.gone }
    {
        let head = self.head.wrapping_sub(1);
        let at = place(self.places.len(), self.mask, head);
        self.places[at] = token;
        self.head = head;
    }

    /// The token of this number, the oldest being 0.
    #[inline(always)]
    pub fn get(&self, at: usize) -> Token
        requires { at < length self.now.items }
        ensures { result ≡ slice_index_or self.now.items at result }
    {
        self.packed(at).unpack()
    }

    /// The token of this number as it lies there, the oldest being 0.
    #[inline(always)]
    pub fn packed(&self, at: usize) -> PackedToken
        requires { at < length self.now.items }
        ensures { result ≡ slice_index_or self.now.items at result }
    {
        self.places[place(self.places.len(), self.mask, self.head.wrapping_add(at))]
    }

    /// The oldest token as it lies there, by how many were taken out.
    #[inline(always)]
    pub fn oldest(&self, gone: usize) -> PackedToken
        requires some { 0 < length self.now.items }
        requires gone { gone ≡ self.now.gone }
        ensures { result ≡ slice_index_or self.now.items 0 result }
    {
        self.places[place(self.places.len(), self.mask, gone)]
    }

    /// Takes the oldest token out.
    #[inline(always)]
    pub fn pop_front(&mut self)
        requires { 0 < length self.old.items }
        ensures items { self.new.items ≡ remove self.old.items 0 }
        ensures len { length self.new.items + 1 ≡ length self.old.items }
        ensures room { self.new.room ≡ self.old.room }
        ensures gone { self.old.gone < 2 ^ 63 → self.new.gone ≡ self.old.gone + 1 }
    {
        self.head = self.head.wrapping_add(1);
    }

    /// Lets all tokens go, as if they had never been put in. The room stays.
    #[inline(always)]
    pub fn clear(&mut self)
        ensures items { self.new.items ≡ [] }
        ensures room { self.new.room ≡ self.old.room }
        ensures gone { self.new.gone ≡ self.old.gone }
    {
        self.tail = self.head;
    }

    /// Takes the token of this number out, the oldest being 0. Those before it move up.
    #[inline(never)]
    pub fn remove(&mut self, at: usize)
        requires { at < length self.old.items }
        ensures items { self.new.items ≡ remove self.old.items at }
        ensures len { length self.new.items + 1 ≡ length self.old.items }
        ensures room { self.new.room ≡ self.old.room }
        ensures gone { self.old.gone < 2 ^ 63 → self.new.gone ≡ self.old.gone + 1 }
    {
        let places = self.places.len();
        let front = self.head;
        for moved in 0..at {
            let before = at - moved - 1;
            let earlier = self.places[place(places, self.mask, front.wrapping_add(before))];
            self.places[place(places, self.mask, front.wrapping_add(before + 1))] = earlier;
        }
        self.head = front.wrapping_add(1);
    }
}
