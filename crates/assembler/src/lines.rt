//! What the words of a line say.

ghost use Rattle.std.specs.Prelude.{Ok, option_to_list};
ghost use Rattle.assembler.specs.Giving.{Gives};
ghost use Rattle.assembler.specs.Lines as Lines;

use crate::cause::{AsmCause, AsmLineCause, AsmNumberCause, InstrWord, SlotCause};
use crate::fields::{dest_of, op_of, origin_of, slot_from};
use crate::words::Words;
use code::{CodeBlock, Instr};
use graph_file::{literal, number};
use semantics::opcode::Opcode;
use semantics::program::{Dest, Op};
use std::alloc::Allocator;
use tags::value::Origin;

/// The first word, and the words after it.
#[tactic(auto, unfolding(crate::specs::Lines::word_from))]
pub(crate) fn word_from<'a>(words: Words<'a>) -> Result<(&'a [u8], Words<'a>), AsmCause>
    ensures { Gives (λ x. (x.0.now, x.1)) result (Lines.word_from words.entry) }
{
    match words.split_first() {
        Some((word, rest)) => Ok((word, rest)),
        None => Err(AsmCause::BadLine(AsmLineCause::Misshapen)),
    }
}

/// Nothing, if no word is left.
#[tactic(auto, unfolding(crate::specs::Lines::none_from))]
fn none_from(words: Words<'_>) -> Result<(), AsmCause>
    ensures { Gives (λ x. x) result (Lines.none_from words.entry) }
{
    match words.split_first() {
        None => Ok(()),
        Some(_) => Err(AsmCause::BadLine(AsmLineCause::Misshapen)),
    }
}

/// The words after this one.
#[tactic(auto, unfolding(crate::specs::Lines::key_from))]
fn key_from<'a>(key: &[u8], words: Words<'a>) -> Result<Words<'a>, AsmCause>
    ensures { Gives (λ x. x) result (Lines.key_from key.now words.entry) }
{
    let (word, rest) = word_from(words)?;
    if word == key {
        Ok(rest)
    } else {
        Err(AsmCause::BadLine(AsmLineCause::Misshapen))
    }
}

/// A number, and the words after it.
#[tactic(auto, unfolding(crate::specs::Lines::number_from))]
fn number_from<'a>(words: Words<'a>) -> Result<(u32, Words<'a>), AsmCause>
    ensures { Gives (λ x. (x.0, x.1)) result (Lines.number_from words.entry) }
{
    let (word, rest) = word_from(words)?;
    let Some(n) = number(word) else {
        let place = rest.place_of(word);
        return Err(AsmCause::BadNumber(AsmNumberCause::Number(place)));
    };
    Ok((n, rest))
}

/// The words after this number.
#[tactic(auto, unfolding(crate::specs::Lines::count_from, crate::specs::Lines::number_from))]
fn count_from<'a>(n: u64, words: Words<'a>) -> Result<Words<'a>, AsmCause>
    ensures { Gives (λ x. x) result (Lines.count_from n words.entry) }
{
    let (word, rest) = word_from(words)?;
    let place = rest.place_of(word);
    let cause = AsmNumberCause::Next { place, wanted: n };
    let Some(m) = number(word) else {
        return Err(AsmCause::BadNumber(cause));
    };
    if u64::from(m) == n {
        Ok(rest)
    } else {
        Err(AsmCause::BadNumber(cause))
    }
}

/// A number after this word, and the words after it.
#[tactic(auto, unfolding(crate::specs::Lines::keyed_from))]
fn keyed_from<'a>(key: &[u8], words: Words<'a>) -> Result<(u32, Words<'a>), AsmCause>
    ensures { Gives (λ x. (x.0, x.1)) result (Lines.keyed_from key.now words.entry) }
{
    number_from(key_from(key, words)?)
}

/// The version and the block that is run, of the first line.
#[tactic(auto, unfolding(crate::specs::Lines::head_from))]
pub(crate) fn head_from(words: Words<'_>) -> Result<(u32, u32), AsmCause>
    ensures { Gives (λ x. (x.0, x.1)) result (Lines.head_from words.entry) }
{
    let (version, rest) = keyed_from(b"ets", words)?;
    let (main, rest) = keyed_from(b"main", rest)?;
    none_from(rest)?;
    Ok((version, main))
}

/// The block of that number, without instructions, of its line after `block`.
#[tactic(auto, unfolding(crate::specs::Lines::block_from))]
pub(crate) fn block_from<A: Allocator>(
    alloc: A,
    n: u64,
    words: Words<'_>,
) -> Result<CodeBlock<A>, AsmCause>
    ensures { Gives (λ b. b) result (Lines.block_from n words.entry) }
{
    let rest = count_from(n, words)?;
    let (inputs, rest) = keyed_from(b"inputs", rest)?;
    let (outputs, rest) = keyed_from(b"outputs", rest)?;
    let (slots, rest) = keyed_from(b"slots", rest)?;
    none_from(rest)?;
    Ok(CodeBlock {
        inputs,
        outputs,
        slots,
        instrs: Vec::new(alloc),
    })
}

/// The length of the array of that number, of its line after `array`.
#[tactic(auto, unfolding(crate::specs::Lines::array_from))]
pub(crate) fn array_from(n: u64, words: Words<'_>) -> Result<u32, AsmCause>
    ensures { Gives (λ x. x) result (Lines.array_from n words.entry) }
{
    let rest = count_from(n, words)?;
    let (len, rest) = number_from(rest)?;
    none_from(rest)?;
    Ok(len)
}

/// The literal of that number, of its line after `literal`.
#[tactic(auto, unfolding(crate::specs::Lines::literal_from))]
pub(crate) fn literal_from(n: u64, words: Words<'_>) -> Result<i64, AsmCause>
    ensures { Gives (λ x. x) result (Lines.literal_from n words.entry) }
{
    let rest = count_from(n, words)?;
    let (word, rest) = word_from(rest)?;
    let Some(value) = literal(word) else {
        let place = rest.place_of(word);
        return Err(AsmCause::BadNumber(AsmNumberCause::Literal(place)));
    };
    none_from(rest)?;
    Ok(value)
}

/// The origin that the words are, if there are some.
#[tactic(auto, unfolding(crate::specs::Lines::origin_from))]
fn origin_from(words: Words<'_>) -> Result<Origin, AsmCause>
    ensures { Gives (λ x. x) result (Lines.origin_from words.entry) }
{
    let Some((word, rest)) = words.split_first() else {
        return Ok(Origin::Untold);
    };
    match rest.split_first() {
        None => match origin_of(word) {
            Some(origin) => Ok(origin),
            None => Err(AsmCause::BadOrigin),
        },
        Some(_) => Err(AsmCause::BadLine(AsmLineCause::Misshapen)),
    }
}

/// The operation that a name and an operand are.
#[tactic(auto, unfolding(crate::specs::Lines::op_from))]
fn op_from(name: &[u8], operand: &[u8]) -> Result<Op, AsmCause>
    ensures { Gives (λ x. x) result (Lines.op_from name.now operand.now) }
{
    let Some(name) = Opcode::of_word(name) else {
        return Err(AsmCause::BadName);
    };
    match op_of(name, operand) {
        Some(op) => Ok(op),
        None => Err(AsmCause::BadOperand),
    }
}

/// What follows the name of an instruction: slot, both destinations, operand, and the words that are left.
#[derive(Drop)]
struct Tail<'a> {
    slot: &'a [u8],
    first: &'a [u8],
    second: &'a [u8],
    operand: &'a [u8],
    rest: Words<'a>,
}

#[tactic(auto, unfolding(crate::specs::Lines::tail_from))]
fn tail_from<'a>(words: Words<'a>) -> Result<Tail<'a>, AsmCause>
    ensures { Gives (λ t. (t.slot.now, t.first.now, t.second.now, t.operand.now, t.rest)) result (Lines.tail_from words.entry) }
{
    let (slot, rest) = word_from(words)?;
    let (first, rest) = word_from(rest)?;
    let (second, rest) = word_from(rest)?;
    let (operand, rest) = word_from(rest)?;
    Ok(Tail {
        slot,
        first,
        second,
        operand,
        rest,
    })
}

/// The destinations that there are.
fn dests_of<A: Allocator>(alloc: A, dest: Option<Dest>) -> Result<Vec<Dest, A>, AsmCause>
    ensures { Gives (λ v. v.items) result (Ok (option_to_list dest)) }
{
    let mut dests = Vec::new(alloc);
    if let Some(dest) = dest {
        dests.push(dest)?;
    }
    Ok(dests)
}

/// What is wrong with a word that is not the slot of this operation.
fn slot_cause(op: Op) -> SlotCause {
    if op.uses_slot() {
        SlotCause::Wanted
    } else {
        SlotCause::Unwanted
    }
}

/// The instruction of that name, with what follows it.
#[tactic(auto, unfolding(crate::specs::Lines::named_from))]
fn named_from<A: Allocator + Clone>(
    alloc: A,
    name: &[u8],
    tail: Tail<'_>,
) -> Result<Instr<A>, AsmCause>
    ensures { Gives (λ i. i) result (Lines.named_from name.now (
      tail.entry.slot.now,
      tail.entry.first.now,
      tail.entry.second.now,
      tail.entry.operand.now,
      tail.entry.rest,
    )) }
{
    let op = op_from(name, tail.operand)?;
    let Some(slot) = slot_from(op, tail.slot) else {
        return Err(AsmCause::BadSlot(slot_cause(op)));
    };
    let Some(first) = dest_of(tail.first) else {
        return Err(AsmCause::BadDestination(InstrWord::First));
    };
    let Some(second) = dest_of(tail.second) else {
        return Err(AsmCause::BadDestination(InstrWord::Second));
    };
    let origin = origin_from(tail.rest)?;
    Ok(Instr {
        op,
        origin,
        slot,
        firsts: dests_of(alloc.clone()?, first)?,
        seconds: dests_of(alloc, second)?,
    })
}

/// The instruction of that number in its block.
#[tactic(auto, unfolding(crate::specs::Lines::instr_from))]
pub(crate) fn instr_from<A: Allocator + Clone>(
    alloc: A,
    n: u64,
    words: Words<'_>,
) -> Result<Instr<A>, AsmCause>
    ensures { Gives (λ i. i) result (Lines.instr_from n words.entry) }
{
    let rest = count_from(n, words)?;
    let (name, rest) = word_from(rest)?;
    let tail = tail_from(rest)?;
    named_from(alloc, name, tail)
}
