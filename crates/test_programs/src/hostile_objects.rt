//! Runs objects that no compiler wrote. The first are some that end in the same way in every order, with few elements and
//! frames and with many. Of the others, half are objects of the compiler with one word changed, a quarter are objects with some
//! instructions changed at random, and a quarter are well-formed objects of random instructions. Each is refused, or else every
//! run of it returns, reports what is possible, and reports the same as other runs that make the same events. Prints how they
//! ended, and `agree`, or the first object that does not agree.

mod bases;
mod changed;
mod made;
mod object;
mod orders;
mod played;
mod runs;
mod scenes;
mod sound;
mod tally;

use crate::sizes::Sizes;
use bases::bases;
use changed::{count_of, one_word, random_words};
use made::random_code;
use object::bytes_of;
use object_view::Object;
use played::scenes_agree;
use runs::{Runnable, Verdict};
use std::alloc::{AllocError, Global};
use std::io::{self, Write};
use std::sync::Wait;
use std::thread::Threads;
use tally::Tally;
use test_inputs::random_graphs::dice::Dice;

/// How many of the others there are where nothing is said.
const OBJECTS: u64 = 500;

/// The inputs of a run: the first ones, for as many inputs as main has.
const INPUTS: [i64; 16] = [2, 3, 0, 1, -1, 5, 7, 0, 1, 2, 3, 4, 5, 6, 7, 8];

/// How an object is made.
#[derive(Clone, Copy, PartialEq, Eq)]
enum Kind {
    OneWord,
    SomeWords,
    Made,
}

impl Kind {
    fn name(self) -> &'static str {
        match self {
            Kind::OneWord => "one word changed",
            Kind::SomeWords => "some words changed",
            Kind::Made => "random code",
        }
    }
}

/// The words of object number `number` of this kind.
fn words_of_kind(
    alloc: Global,
    kind: Kind,
    bases: &[Vec<u64>],
    dice: &mut Dice,
    number: u64,
) -> Result<Vec<u64>, AllocError> {
    match kind {
        Kind::OneWord => {
            let count = count_of(bases).max(1) as u64;
            one_word(alloc, bases, (number.wrapping_mul(1_009) % count) as usize)
        }
        Kind::SomeWords => random_words(alloc, bases, dice),
        Kind::Made => random_code(alloc, dice),
    }
}

/// The lengths of the object's arrays.
fn lengths_of(alloc: Global, object: &Object<'_>) -> Result<Vec<u64>, AllocError> {
    let mut lengths = Vec::new(alloc);
    for number in 0..object.array_count() {
        if let Some(length) = object.array(number) {
            lengths.push(length)?;
        }
    }
    Ok(lengths)
}

/// The verdict on an object whose runs do not agree, on few elements or many, with few frames and with many. `None` where all
/// agree, or where the object is refused.
fn verdict_of<R: Threads + Wait + Sync>(
    rt: &R,
    alloc: Global,
    dice: &mut Dice,
    tally: &mut Tally,
    bytes: &[u8],
) -> Result<Option<Verdict>, AllocError> {
    let object = match Object::open(bytes) {
        Ok(object) => object,
        Err(fault) => {
            tally.count_refused(fault);
            return Ok(None);
        }
    };
    tally.count_opened();
    let count = match object.block(object.main()) {
        Some(block) => block.inputs as usize,
        None => 0,
    };
    let arrays = lengths_of(alloc, &object)?;
    let runnable = Runnable {
        object: bytes,
        arrays: &arrays,
        inputs: INPUTS.get(..count).unwrap_or(&INPUTS),
    };
    let most = if dice.throw(8) == 0 { 16 } else { 3 };
    let elements = (dice.throw(most) % 16) as u32 + 1;
    for frames in [dice.throw(4).wrapping_add(1), 64] {
        match runnable.judge(rt, alloc, dice, elements, frames)? {
            Verdict::Agrees(end) => tally.count_end(end),
            other => return Ok(Some(other)),
        }
    }
    Ok(None)
}

/// Whether the first `objects` objects of this kind agree.
fn kind_agrees<R: Threads + Wait + Sync, W: Write>(
    rt: &R,
    alloc: Global,
    out: &mut W,
    kind: Kind,
    objects: u64,
    seed: u64,
) -> io::Result<bool> {
    let bases = bases(alloc)?;
    let mut dice = Dice::new(seed);
    let mut tally = Tally::new();
    for number in 0..objects {
        let words = words_of_kind(alloc, kind, &bases, &mut dice, number)?;
        let bytes = bytes_of(alloc, &words)?;
        if let Some(verdict) = verdict_of(rt, alloc, &mut dice, &mut tally, &bytes)? {
            let name = kind.name();
            writeln!(out, "{name}: {verdict:?}")?;
            for word in &words {
                writeln!(out, "{word}")?;
            }
            return Ok(false);
        }
    }
    tally.print(out, kind.name())?;
    Ok(true)
}

/// Whether all objects agree.
fn all_agree<R: Threads + Wait + Sync, W: Write>(
    rt: &R,
    alloc: Global,
    out: &mut W,
    sizes: Sizes,
) -> io::Result<bool> {
    let Sizes { count, seed } = sizes;
    let objects = count.unwrap_or(OBJECTS);
    let half = objects / 2;
    let quarter = objects / 4;
    Ok(
        scenes_agree(rt, alloc, out)?
            && kind_agrees(rt, alloc, out, Kind::OneWord, half, seed)?
            && kind_agrees(rt, alloc, out, Kind::SomeWords, quarter, seed)?
            && kind_agrees(rt, alloc, out, Kind::Made, quarter, seed)?,
    )
}

/// Whether all objects agree. Prints how they ended, or what does not agree.
pub fn agree<R: Threads + Wait + Sync, W: Write>(
    rt: &R,
    alloc: Global,
    out: &mut W,
    sizes: Sizes,
) -> io::Result<bool> {
    let agrees = all_agree(rt, alloc, out, sizes)?;
    if agrees {
        writeln!(out, "agree")?;
    }
    Ok(agrees)
}
