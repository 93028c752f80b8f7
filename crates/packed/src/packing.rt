//! The states of a slot as two words of 64 bits.

ghost use Rattle.std.specs.Prelude.{◌≡◌, ◌<◌, ◌+◌, ◌*◌};
ghost use Rattle.tags.specs.Packed.{origin_code, IsOrigin, IsValue};
ghost use Rattle.tags.specs.declared.token.Word.{Word};
ghost use Rattle.packed.specs.Packing.{Parts, port_bit, cont_parts, word_parts, words_of, slot_words, port_from, origin_from, cont_from, word_from};
ghost use Rattle.packed.specs.Packing.{parts_from, slot_from, IsCont, IsWord, IsSlotState, SlotPackingIsExact};

use tags::slot::SlotState;
use tags::token::{Cont, Port, Word};
use tags::value::{FaultKind, NodeNumber, Origin, Value};

/// The fields of a word: its kind, the port of a continuation, what is from bit 32 of word 0 on, and word 1.
#[derive(Clone, Copy)]
pub struct Fields {
    pub kind: u8,
    pub port: u8,
    pub high: u32,
    pub body: u64,
}

impl Fields {
    ghost use Rattle.packed.specs.FieldsOf.{parts_of};

    /// The two words, with `state` as the kind of the state.
    #[inline(always)]
    pub fn words(self, state: u8) -> [u64; 2]
        ensures { result ≡ words_of state (parts_of self) }
    {
        let head = u64::from(state)
            + 256 * u64::from(self.kind)
            + 65_536 * u64::from(self.port)
            + 4_294_967_296 * u64::from(self.high);
        [head, self.body]
    }

    /// The fields that two words have.
    #[inline(always)]
    pub fn from_words(head: u64, body: u64) -> Fields
        ensures { parts_of result ≡ parts_from head body }
    {
        Fields {
            kind: (head / 256 % 256) as u8,
            port: (head / 65_536 % 2) as u8,
            high: (head / 4_294_967_296) as u32,
            body,
        }
    }

    fn of_count(count: u32) -> Fields
        ensures fields { parts_of result ≡ record { kind = 0; port = 0; high = 0; body = count } }
        ensures there { count < 4294967296 }
    {
        Fields {
            kind: 0,
            port: 0,
            high: 0,
            body: u64::from(count),
        }
    }

    #[inline(always)]
    fn of_cont(cont: Cont) -> Fields
        ensures fields { parts_of result ≡ cont_parts cont }
        ensures there { IsCont cont }
    {
        match cont {
            Cont::Frame { frame, ip, port } => Fields {
                kind: 5,
                port: match port {
                    Port::Left => 0,
                    Port::Right => 1,
                },
                high: ip,
                body: u64::from(frame),
            },
            Cont::Host { port } => Fields {
                kind: 6,
                port: 0,
                high: port,
                body: 0,
            },
        }
    }

    #[inline(always)]
    pub(crate) fn of_value(value: Value) -> Fields
        ensures fields { parts_of result ≡ word_parts (Word.Val value) }
        ensures there { IsValue value }
    {
        let (kind, body) = match value {
            Value::Int(number) => (1, number.cast_unsigned()),
            Value::Fault {
                kind: FaultKind::Zero,
                origin,
            } => (2, u64::from(code_of(origin))),
            Value::Fault {
                kind: FaultKind::Range,
                origin,
            } => (3, u64::from(code_of(origin))),
        };
        Fields {
            kind,
            port: 0,
            high: 0,
            body,
        }
    }

    #[inline(always)]
    pub(crate) fn of_word(word: Word) -> Fields
        ensures fields { parts_of result ≡ word_parts word }
        ensures there { IsWord word }
    {
        match word {
            Word::Val(value) => Fields::of_value(value),
            Word::Frame(frame) => Fields {
                kind: 4,
                port: 0,
                high: 0,
                body: u64::from(frame),
            },
            Word::Back(cont) => Fields::of_cont(cont),
        }
    }

    #[inline(always)]
    fn cont(self) -> Cont
        ensures { result ≡ cont_from (parts_of self) }
    {
        if self.kind == 5 {
            Cont::Frame {
                frame: (self.body % 4_294_967_296) as u32,
                ip: self.high,
                port: if self.port == 1 {
                    Port::Right
                } else {
                    Port::Left
                },
            }
        } else {
            Cont::Host { port: self.high }
        }
    }

    #[inline(always)]
    pub(crate) fn word(self) -> Word
        ensures { result ≡ word_from (parts_of self) }
    {
        match self.kind {
            1 => Word::Val(Value::Int(self.body.cast_signed())),
            2 => Word::Val(Value::Fault {
                kind: FaultKind::Zero,
                origin: origin_in(self.body),
            }),
            3 => Word::Val(Value::Fault {
                kind: FaultKind::Range,
                origin: origin_in(self.body),
            }),
            4 => Word::Frame((self.body % 4_294_967_296) as u32),
            _ => Word::Back(self.cont()),
        }
    }
}

fn code_of(origin: Origin) -> u32
    ensures code { result ≡ origin_code origin }
    ensures there { IsOrigin origin }
{
    match origin {
        Origin::Untold => 0,
        Origin::At { block, node } => 1 + 1024 * u32::from(block) + u32::from(node.get()),
    }
}

#[inline(always)]
pub(crate) fn origin_in(code: u64) -> Origin
    ensures { result ≡ origin_from code }
{
    if code == 0 {
        return Origin::Untold;
    }
    let place = code - 1;
    Origin::At {
        block: (place / 1024 % 256) as u8,
        node: NodeNumber::new((place % 1024) as u16),
    }
}

/// The two words of a state.
#[inline(always)]
pub fn pack(state: SlotState) -> [u64; 2]
    ensures words { result ≡ slot_words state }
    ensures there { IsSlotState state }
{
    match state {
        SlotState::Empty => [0, 0],
        SlotState::Left(word) => Fields::of_word(word).words(1),
        SlotState::Right(word) => Fields::of_word(word).words(2),
        SlotState::Credits(count) => Fields::of_count(count).words(3),
        SlotState::Waiter(cont) => Fields::of_cont(cont).words(4),
        SlotState::Draining(count) => Fields::of_count(count).words(5),
    }
}

/// The state that two words stand for.
#[inline(always)]
pub fn unpack(head: u64, body: u64) -> SlotState
    ensures { result ≡ slot_from head body }
{
    let fields = Fields::from_words(head, body);
    match head % 256 {
        0 => SlotState::Empty,
        1 => SlotState::Left(fields.word()),
        2 => SlotState::Right(fields.word()),
        3 => SlotState::Credits((body % 4_294_967_296) as u32),
        4 => SlotState::Waiter(fields.cont()),
        _ => SlotState::Draining((body % 4_294_967_296) as u32),
    }
}

/// No two states have the same words.
#[tactic(auto, using(crate::proofs::Unpacked::packing_exact))]
pub fn slot_packing_is_exact()
    ensures { SlotPackingIsExact }
{}
