//! Tokens that are in a pool, in no order; one token may be there several times.

ghost use Rattle.std.specs.Prelude.{◌≡◌, ℕ, ◌+◌, ◌*◌, ◌≤◌, take, length, slice_get, Some, true, false, OnOk, IfOk};
ghost use Rattle.tags.specs.declared.token.Token.{Token};
ghost use Rattle.ordering.specs.Numbers.{to_number, word_number};
ghost use Rattle.ordering.specs.Pools.{amount, copies, all_copies};

use std::alloc::{AllocError, Allocator};
use std::collections::HashMap;
use std::hash::{BuildHasherDefault, FoldHasher, Hash, Hasher};
use tags::token::{Cont, To, Token, Word};
use tags::value::Value;

/// A token as a key of a map.
#[derive(Clone, Copy, PartialEq, Eq)]
pub struct Key(Token);

impl Hash for Key {
    ghost use Rattle.ordering.specs.Keys.{hashed, same_hashed};

    ghost hash_input = { λ k. hashed k.0 };

    ghost respects_eq = { λ x y e. same_hashed x.0 y.0 e };

    fn hash<H: Hasher>(&self, state: &mut H) {
        state.write_u64(to_number(&self.0.to));
        state.write_u64(word_number(&self.0.word));
    }
}

// Two numbers of 32 bits in one.
fn joined(high: u32, low: u32) -> u64
    ensures { result ≡ high * 4294967296 + low }
{
    u64::from(high) * 4_294_967_296 + u64::from(low)
}

// A number of the address. Few addresses share it.
fn to_number(to: &To) -> u64
    ensures { result ≡ to_number to.now }
{
    match *to {
        To::Instr { frame, ip, .. } => joined(frame, ip),
        To::Fetch { cell } => joined(cell, 1),
        To::Store { cell, .. } => joined(cell, 2),
        To::Manager => 3,
        To::Release { frame } => joined(frame, 4),
        To::Host { port } => joined(port, 5),
    }
}

// A number of the word. Few words share it.
fn word_number(word: &Word) -> u64
    ensures { result ≡ word_number word.now }
{
    match *word {
        Word::Val(Value::Int(number)) => number.cast_unsigned(),
        Word::Val(Value::Fault { .. }) => 0,
        Word::Frame(frame) => joined(frame, 1),
        Word::Back(Cont::Frame { frame, ip, .. }) => joined(frame, ip),
        Word::Back(Cont::Host { port }) => joined(port, 2),
    }
}

/// How often each token is there, if it is: how many more than one.
#[derive(Drop)]
pub struct Pool<A: Allocator> {
    more: HashMap<Key, u64, BuildHasherDefault<FoldHasher>, A>,
}

impl<A: Allocator> Pool<A> {
    /// A pool of no tokens.
    pub fn new(alloc: A) -> Pool<A>
        ensures { (q : Token) → amount result q ≡ 0 }
    {
        Pool {
            more: HashMap::new(alloc),
        }
    }

    // How often the token is there. An error is that there can be no more of it.
    fn count(&self, key: &Key) -> Result<u64, AllocError>
        ensures { IfOk result (λ count. count ≡ amount self.now key.now.0) }
    {
        match self.more.get(key) {
            Some(more) => more.checked_add(1).ok_or(AllocError),
            None => Ok(0),
        }
    }

    // Puts a token in.
    fn put(&mut self, token: Token) -> Result<(), AllocError>
    where
        A: Clone,
        ensures { OnOk result ((q : Token) → amount self.new q ≡ amount self.old q + copies q token) }
    {
        let key = Key(token);
        let count = self.count(&key)?;
        self.more.insert(key, count)?;
        Ok(())
    }

    /// Puts the tokens in.
    pub fn put_all(&mut self, tokens: &[Token]) -> Result<(), AllocError>
    where
        A: Clone,
        ensures { OnOk result ((q : Token) → amount self.new q ≡ amount self.old q + all_copies q tokens.now) }
    {
        for token in tokens {
            self.put(*token)?;
        }
        Ok(())
    }

    // Takes a token out, if it is there.
    fn take(&mut self, token: Token) -> bool
        ensures some { result ≡ true → (q : Token) → amount self.old q ≡ amount self.new q + copies q token }
        ensures none { result ≡ false → amount self.old token ≡ 0 }
        ensures same { result ≡ false → (q : Token) → amount self.new q ≡ amount self.old q }
    {
        let key = Key(token);
        let Some(more) = self.more.get_mut(&key) else {
            return false;
        };
        if *more > 0 {
            *more -= 1;
        } else {
            self.more.remove(&key);
        }
        true
    }

    /// Takes the tokens out, one after the other, up to one that is not there: how many it took.
    pub fn take_first(&mut self, tokens: &[Token]) -> usize
        ensures within { result ≤ length tokens.now }
        ensures taken { (q : Token) → amount self.old q ≡ amount self.new q + all_copies q (take result tokens.now) }
        ensures missing { (t : Token) → slice_get tokens.now result ≡ Some t → amount self.new t ≡ 0 }
    {
        for at in 0..tokens.len() {
            if !self.take(tokens[at]) {
                return at;
            }
        }
        tokens.len()
    }
}
