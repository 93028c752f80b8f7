//! Tokens, packed.

ghost use Rattle.std.specs.Prelude.{◌≡◌, ◌≢◌, ℕ, ◌+◌, ◌*◌, ◌/◌, ◌%◌, ◌<◌, ◌≤◌, IfSome, IfNone, slice_index};
ghost use Rattle.tags.specs.declared.token.Port.{Port};
ghost use Rattle.tags.specs.declared.token.To.{To};
ghost use Rattle.tags.specs.declared.value.Value.{Value};
ghost use Rattle.packed.specs.Packing.{slot_from, slot_words};
ghost use Rattle.packed.specs.PackedTokens.{port_state, to_from, value_from, waits_as, AreWords, IsForInstr, TokenPackingIsExact};
ghost use Rattle.packed.specs.AddressOf.{IsAddressOf};

use crate::packing::{Fields, origin_in};
use crate::word::PackedWord;
use std::marker::Model;
use tags::token::{FrameId, Port, To, Token};
use tags::value::{FaultKind, Value};

/// What is in the low half of word 2 of a token that goes to no instruction: a number above those of all instructions.
const ELSEWHERE: u64 = 2_147_483_648;

/// A token in four words of 64 bits. One for an instruction has the words of the slot in which it waits.
#[derive(Clone, Copy)]
pub struct PackedToken {
    head: u64,
    body: u64,
    place: u64,
    value: u64,
}

impl Model for PackedToken {
    ghost use Rattle.std.proofs.Common.{sym};
    ghost use Rattle.tags.specs.declared.token.Token.{Token};
    ghost use Rattle.packed.specs.Packing.{head_of, word_parts};
    ghost use Rattle.packed.specs.PackedTokens.{token_from, to_state, to_place, to_value, AreTokenWordsOf};

    ghost Value = { Token };

    ghost view = { λ t. token_from t.head t.body t.place t.value };

    ghost invariant = { λ t. AreTokenWordsOf (token_from t.head t.body t.place t.value) t.head t.body t.place t.value };

    ghost inverse = { λ t. record {
      head = head_of (to_state t.to) (word_parts t.word);
      body = (word_parts t.word).body;
      place = to_place t.to;
      value = to_value t.to;
    } };

    ghost inverse_ok = { λ a h i. record { head = sym h.head i; body = sym h.body i; place = sym h.place i; value = sym h.value i } };
}

/// An input of an instruction in a frame.
#[derive(Clone, Copy, Debug, PartialEq, Eq)]
pub struct Input {
    pub frame: FrameId,
    pub ip: u32,
    pub port: Port,
}

/// Where a token goes, as it is packed: what is in bits 0 to 7 of word 0, and words 2 and 3.
#[derive(Clone, Copy, Debug, PartialEq, Eq)]
struct Address {
    state: u8,
    place: u64,
    value: u64,
}

// What is in bits 0 to 7 where a word waits on the port. It is a sum, so that a port that was read from a bit is that bit again.
#[inline(always)]
fn state_of(port: Port) -> u8
    ensures { result ≡ port_state port }
{
    1 + match port {
        Port::Left => 0,
        Port::Right => 1,
    }
}

// Word 2 of a token that goes to no instruction, but to a cell, a frame or a port of the host that has this number.
#[inline(always)]
fn elsewhere(number: u32) -> u64
    ensures { result ≡ 2147483648 + 4294967296 * number }
{
    ELSEWHERE + 4_294_967_296 * u64::from(number)
}

impl Address {
    #[inline(always)]
    fn of(to: To) -> Address
        ensures { IsAddressOf to result }
    {
        let (state, place, value) = match to {
            To::Instr { frame, ip, port } => (
                state_of(port),
                u64::from(ip) + 4_294_967_296 * u64::from(frame),
                0,
            ),
            To::Fetch { cell } => (3, elsewhere(cell), 0),
            To::Store { cell, value } => {
                let fields = Fields::of_value(value);
                (4, elsewhere(cell) + u64::from(fields.kind), fields.body)
            }
            To::Manager => (5, elsewhere(0), 0),
            To::Release { frame } => (6, elsewhere(frame), 0),
            To::Host { port } => (7, elsewhere(port), 0),
        };
        Address {
            state,
            place,
            value,
        }
    }
}

// The value that has this kind and this word 1.
fn value_of(kind: u64, body: u64) -> Value
    ensures { result ≡ value_from kind body }
{
    match kind {
        1 => Value::Int(body.cast_signed()),
        2 => Value::Fault {
            kind: FaultKind::Zero,
            origin: origin_in(body),
        },
        _ => Value::Fault {
            kind: FaultKind::Range,
            origin: origin_in(body),
        },
    }
}

// Where a token goes.
#[inline(always)]
fn to_of(state: u64, place: u64, value: u64) -> To
    ensures { result ≡ to_from state place value }
{
    let low = (place % 4_294_967_296) as u32;
    let high = (place / 4_294_967_296) as u32;
    match state {
        1 => To::Instr {
            frame: high,
            ip: low,
            port: Port::Left,
        },
        2 => To::Instr {
            frame: high,
            ip: low,
            port: Port::Right,
        },
        3 => To::Fetch { cell: high },
        4 => To::Store {
            cell: high,
            value: value_of(place % ELSEWHERE, value),
        },
        5 => To::Manager,
        6 => To::Release { frame: high },
        _ => To::Host { port: high },
    }
}

impl PackedToken {
    /// The token, packed.
    #[inline(always)]
    pub fn pack(token: Token) -> PackedToken
        ensures { result ≡ token }
    {
        let address = Address::of(token.to);
        let words = Fields::of_word(token.word).words(address.state);
        PackedToken {
            head: words[0],
            body: words[1],
            place: address.place,
            value: address.value,
        }
    }

    /// The token that brings a word to an instruction.
    #[inline(always)]
    pub fn to_instr(frame: FrameId, ip: u32, port: Port, word: &PackedWord) -> PackedToken
        ensures { result ≡ record { to = To.Instr frame ip port; word = word.now } }
    {
        let words = word.words(state_of(port));
        PackedToken {
            head: words[0],
            body: words[1],
            place: u64::from(ip) + 4_294_967_296 * u64::from(frame),
            value: 0,
        }
    }

    /// The token that brings a word to an instruction of the same frame, so far ahead of the one that this token goes to.
    #[inline(always)]
    pub fn onward(&self, ahead: u32, port: Port, word: &PackedWord) -> PackedToken
        requires { IsForInstr self.now.to × ((f ip : ℕ) (p : Port) → self.now.to ≡ To.Instr f ip p → ip + ahead < 4294967296) }
        ensures { (f ip : ℕ) (p : Port) → self.now.to ≡ To.Instr f ip p → result ≡ record { to = To.Instr f (ip + ahead) port; word = word.now } }
    {
        let words = word.words(state_of(port));
        PackedToken {
            head: words[0],
            body: words[1],
            place: self.place + u64::from(ahead),
            value: 0,
        }
    }

    /// The token.
    #[inline(always)]
    pub fn unpack(&self) -> Token
        ensures { result ≡ self.now }
    {
        Token {
            to: self.to(),
            word: Fields::from_words(self.head, self.body).word(),
        }
    }

    /// Where it goes.
    #[inline(always)]
    pub fn to(&self) -> To
        ensures { result ≡ self.now.to }
    {
        to_of(self.head % 256, self.place, self.value)
    }

    /// The input of an instruction that it goes to, if it goes to one whose number is below the limit. That it goes to no
    /// instruction, and that the number is too great, are one test.
    #[inline(always)]
    pub fn input_below(&self, limit: usize) -> Option<Input>
        requires { limit ≤ 2147483648 }
        ensures some { IfSome result (λ i. (self.now.to ≡ To.Instr i.frame i.ip i.port) × (i.ip < limit)) }
        ensures none { IfNone result ((f ip : ℕ) (p : Port) → self.now.to ≡ To.Instr f ip p → limit ≤ ip) }
    {
        let ip = (self.place % 4_294_967_296) as u32;
        if limit <= ip as usize {
            return None;
        }
        let port = if self.head % 256 == 1 {
            Port::Left
        } else {
            Port::Right
        };
        Some(Input {
            frame: (self.place / 4_294_967_296) as u32,
            ip,
            port,
        })
    }

    /// The frame of the instruction that it goes to, if it goes to one.
    #[inline(always)]
    pub fn frame(&self) -> Option<FrameId>
        ensures some { IfSome result (λ f. (ip : ℕ) × (p : Port) × (self.now.to ≡ To.Instr f ip p)) }
        ensures none { IfNone result ((f ip : ℕ) (p : Port) → self.now.to ≢ To.Instr f ip p) }
    {
        if 3 <= self.head % 256 {
            return None;
        }
        Some((self.place / 4_294_967_296) as u32)
    }

    /// Its word.
    #[inline(always)]
    pub fn word(&self) -> PackedWord
        ensures { result ≡ self.now.word }
    {
        PackedWord::from_words(self.head, self.body)
    }

    /// The two words of the slot in which it waits, if it goes to an instruction.
    #[inline(always)]
    pub fn waiting(&self) -> [u64; 2]
        requires { IsForInstr self.now.to }
        ensures state { slot_from (slice_index result 0) (slice_index result 1) ≡ waits_as self.now.to self.now.word }
        ensures words { slot_words (waits_as self.now.to self.now.word) ≡ result }
    {
        [self.head, self.body]
    }
}

/// No two tokens have the same words.
pub fn token_packing_is_exact()
    ensures { TokenPackingIsExact }
{}
