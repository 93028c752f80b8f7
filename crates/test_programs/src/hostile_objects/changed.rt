//! Objects in which some words are changed.

use crate::hostile_objects::object::HEADER;
use std::alloc::{AllocError, Global};
use test_inputs::random_graphs::dice::Dice;

/// How many changes of each word are tried.
const CHANGES: usize = 7;

/// Word number `place`; 0 where there is none.
fn word_at(words: &[u64], place: usize) -> u64 {
    words.get(place).copied().unwrap_or(0)
}

/// What takes the place of a word: 0, 1, all ones, the word before it, the word after it, or the numbers one above and one
/// below it.
fn change_of(words: &[u64], place: usize, change: usize) -> u64 {
    let word = word_at(words, place);
    match change {
        0 => 0,
        1 => 1,
        2 => u64::MAX,
        3 => word_at(words, place.wrapping_sub(1)),
        4 => word_at(words, place.wrapping_add(1)),
        5 => word.wrapping_add(1),
        _ => word.wrapping_sub(1),
    }
}

/// How many changes all objects together have.
pub fn count_of(bases: &[Vec<u64>]) -> usize {
    let mut count = 0usize;
    for base in bases {
        count = count.wrapping_add(base.len().wrapping_mul(CHANGES));
    }
    count
}

/// Change number `number` of all changes of one word of an object.
pub fn one_word(alloc: Global, bases: &[Vec<u64>], number: usize) -> Result<Vec<u64>, AllocError> {
    let mut left = number;
    for base in bases {
        let count = base.len().wrapping_mul(CHANGES);
        if left < count {
            let place = left / CHANGES;
            let mut words = Vec::from_slice(alloc, base)?;
            let change = change_of(base, place, left % CHANGES);
            if let Some(word) = words.get_mut(place) {
                *word = change;
            }
            return Ok(words);
        }
        left -= count;
    }
    Ok(Vec::new(alloc))
}

/// The first word of an instruction, with another opcode, slot, destination or port.
fn changed_head(word: u64, dice: &mut Dice) -> u64 {
    match dice.throw(8) {
        0 => (word & !0xff) | dice.throw(33),
        1 => (word & !0xff) | dice.throw(14).wrapping_add(1),
        2 => (word & !0xff_0000) | dice.throw(4).wrapping_mul(1 << 16),
        3 => (word & !0x7fff_0000_0000) | dice.throw(4).wrapping_mul(1 << 32),
        4 => (word & !0x7fff_0000_0000_0000) | dice.throw(4).wrapping_mul(1 << 48),
        5 => word ^ (1 << 47),
        6 => word & 0xffff_ffff_ffff,
        _ => word ^ dice.throw(1 << 31).wrapping_mul(1 << 33),
    }
}

/// The place of the first word of some instruction.
fn some_head(words: &[u64], dice: &mut Dice) -> usize {
    let tables = word_at(words, 2)
        .wrapping_add(word_at(words, 3))
        .wrapping_add(word_at(words, 4));
    let code = (words.len() as u64)
        .wrapping_sub(HEADER as u64)
        .wrapping_sub(tables);
    let front = (HEADER as u64).wrapping_add(word_at(words, 2));
    dice.throw(code / 2).wrapping_mul(2).wrapping_add(front) as usize
}

/// Some object in which one to three instructions are changed at random.
pub fn random_words(
    alloc: Global,
    bases: &[Vec<u64>],
    dice: &mut Dice,
) -> Result<Vec<u64>, AllocError> {
    let number = dice.throw(bases.len() as u64) as usize;
    let Some(base) = bases.get(number) else {
        return Ok(Vec::new(alloc));
    };
    let mut words = Vec::from_slice(alloc, base)?;
    for _ in 0..dice.throw(3).wrapping_add(1) {
        let head = some_head(base, dice);
        if dice.throw(4) > 0 {
            if let Some(word) = words.get_mut(head) {
                *word = changed_head(*word, dice);
            }
        } else if let Some(word) = words.get_mut(head.wrapping_add(1)) {
            *word = dice.throw(4);
        }
    }
    Ok(words)
}
