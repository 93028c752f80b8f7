//! Where a token may be among those that are on their way. It says only where to look first, so no contract speaks of what it answers: who asks looks there.

use std::alloc::{AllocError, Allocator};
use std::collections::HashMap;
use std::hash::{BuildHasherDefault, FoldHasher};
use tags::token::{Cont, Port, To, Token, Word};
use tags::value::Value;

/// By what a token is looked up. Equal tokens have the same key, and few others share it.
#[derive(Clone, Copy, Debug, PartialEq, Eq, Hash)]
struct Key {
    kind: u8,
    to: u64,
    word: u64,
}

/// The first and the last of the numbers of a key.
#[derive(Clone, Copy, Debug, PartialEq, Eq)]
struct Ends {
    first: u64,
    last: u64,
}

/// The numbers of tokens, by these: those of one key in the order in which they came.
#[derive(Drop)]
pub struct TokenIndex<A: Allocator> {
    ends: HashMap<Key, Ends, BuildHasherDefault<FoldHasher>, A>,
    /// The number that came after this one with the same key.
    later: HashMap<u64, u64, BuildHasherDefault<FoldHasher>, A>,
}

// Two numbers of 32 bits in one.
fn joined(high: u32, low: u32) -> u64 {
    u64::from(high) * 4_294_967_296 + u64::from(low)
}

// The address in two numbers.
fn address(to: &To) -> (u8, u64) {
    match *to {
        To::Instr { frame, ip, port } => match port {
            Port::Left => (0, joined(frame, ip)),
            Port::Right => (1, joined(frame, ip)),
        },
        To::Fetch { cell } => (2, u64::from(cell)),
        To::Store { cell, .. } => (3, u64::from(cell)),
        To::Manager => (4, 0),
        To::Release { frame } => (5, u64::from(frame)),
        To::Host { port } => (6, u64::from(port)),
    }
}

// A number of the word. Few words share it.
fn word_number(word: &Word) -> u64 {
    match *word {
        Word::Val(Value::Int(number)) => number.cast_unsigned(),
        Word::Val(Value::Fault { .. }) => 0,
        Word::Frame(frame) => joined(frame, 1),
        Word::Back(Cont::Frame { frame, ip, .. }) => joined(frame, ip),
        Word::Back(Cont::Host { port }) => joined(port, 2),
    }
}

fn key_of(token: &Token) -> Key {
    let (kind, to) = address(&token.to);
    Key {
        kind,
        to,
        word: word_number(&token.word),
    }
}

impl<A: Allocator> TokenIndex<A> {
    /// An index of no tokens.
    pub fn new(alloc: A) -> Result<TokenIndex<A>, AllocError>
    where
        A: Clone,
    {
        let ends = HashMap::new(alloc.clone()?);
        Ok(TokenIndex {
            ends,
            later: HashMap::new(alloc),
        })
    }

    /// The number of the token, the first that came where there are several equal ones.
    pub fn first(&self, token: &Token) -> Option<u64> {
        match self.ends.get(&key_of(token)) {
            Some(ends) => Some(ends.first),
            None => None,
        }
    }

    // Puts the token of this number in.
    fn put(&mut self, token: &Token, number: u64) -> Result<(), AllocError>
    where
        A: Clone,
    {
        let key = key_of(token);
        let first = match self.ends.get(&key).copied() {
            Some(ends) => {
                self.later.insert(ends.last, number)?;
                ends.first
            }
            None => number,
        };
        self.ends.insert(
            key,
            Ends {
                first,
                last: number,
            },
        )?;
        Ok(())
    }

    /// Puts in tokens whose numbers follow one another.
    pub fn put_all(&mut self, tokens: &[Token], first: u64) -> Result<(), AllocError>
    where
        A: Clone,
    {
        let mut number = first;
        for token in tokens {
            self.put(token, number)?;
            number = number.wrapping_add(1);
        }
        Ok(())
    }

    /// Takes out the number that `first` answers.
    pub fn take(&mut self, token: &Token) -> Result<(), AllocError>
    where
        A: Clone,
    {
        let key = key_of(token);
        let Some(ends) = self.ends.get(&key).copied() else {
            return Ok(());
        };
        match self.later.remove(&ends.first) {
            Some(first) => {
                self.ends.insert(key, Ends { first, ..ends })?;
            }
            None => {
                self.ends.remove(&key);
            }
        }
        Ok(())
    }
}
