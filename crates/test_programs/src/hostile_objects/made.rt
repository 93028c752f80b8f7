//! Well-formed objects of random instructions. Most words go to where their kind is accepted, so that runs go on for a while.

use crate::hostile_objects::object::{Dest, Line, MARK, NONE, entry, push_line};
use std::alloc::{AllocError, Global};
use test_inputs::random_graphs::dice::Dice;

const COPY: u64 = 18;

/// How often a destination is chosen again where the word would not be accepted.
const THROWS: u64 = 8;

/// The kind of the first word that arrives at an instruction.
#[derive(Clone, Copy, PartialEq, Eq)]
enum Carried {
    Nothing,
    Value,
    Frame,
    Continuation,
}

/// An opcode and its flag.
type Code = (u64, u64);

/// A random opcode with its flag. Copies are more frequent than others.
fn random_opcode(dice: &mut Dice) -> Code {
    match dice.throw(40) {
        number if number < 14 => (number + 1, dice.throw(3)),
        number if number < 32 => (number + 1, 0),
        _ => (COPY, 0),
    }
}

/// Whether an instruction takes two tokens.
fn takes_two(code: Code) -> bool {
    match code.0 {
        1..=14 => code.1 == 0,
        19 | 20 | 22 | 25 | 26 | 27 | 32 => true,
        _ => false,
    }
}

/// Whether an instruction needs a destination.
fn has_answer(opcode: u64) -> bool {
    matches!(opcode, 21 | 22 | 23 | 24 | 27)
}

/// Whether an instruction takes words of this kind at this port.
fn is_welcome(opcode: u64, port: u64, carried: Carried) -> bool {
    match opcode {
        17 | 18 | 19 | 23 | 28 | 30 | 31 => true,
        24 => carried == Carried::Frame,
        29 => carried == Carried::Continuation,
        25 if port == 0 => carried == Carried::Frame,
        26 | 27 | 32 if port == 0 => carried == Carried::Continuation,
        20 if port == 0 => true,
        25 | 27 | 32 => true,
        _ => carried == Carried::Value,
    }
}

/// What kind of word an instruction sends on, when a word of kind `carried` arrived at it.
fn sent_by(opcode: u64, carried: Carried) -> Carried {
    match opcode {
        18 | 20 => carried,
        23 => Carried::Frame,
        _ => Carried::Value,
    }
}

/// Whether an instruction works without a destination.
#[derive(Clone, Copy, PartialEq, Eq)]
enum Need {
    Required,
    Optional,
}

/// A block of random instructions.
#[derive(Drop)]
struct Block {
    inputs: u64,
    outputs: u64,
    slots: u64,
    codes: Vec<Code>,
    /// What arrives at the left port and at the right port of each instruction.
    came: Vec<[Carried; 2]>,
}

/// A block with some inputs and outputs, whose instructions have no destinations yet. The last one needs none.
fn random_block(alloc: Global, dice: &mut Dice, arrays: u64) -> Result<Block, AllocError> {
    let inputs = dice.throw(2).wrapping_add(1);
    let count = dice.throw(16).wrapping_add(inputs).wrapping_add(1);
    let mut codes = Vec::new(alloc);
    let mut came = Vec::new(alloc);
    for number in 0..count {
        let mut chosen = random_opcode(dice);
        let is_last = number.wrapping_add(1) == count;
        let is_entry = number <= inputs && dice.throw(8) > 0;
        let lacks_array = arrays == 0 && matches!(chosen.0, 21 | 22);
        if is_entry || lacks_array || (is_last && has_answer(chosen.0)) {
            chosen = (COPY, 0);
        }
        codes.push(chosen)?;
        let first = match number {
            0 => Carried::Continuation,
            _ if number <= inputs => Carried::Value,
            _ => Carried::Nothing,
        };
        came.push([first, Carried::Nothing])?;
    }
    Ok(Block {
        inputs,
        outputs: dice.throw(2).wrapping_add(1),
        slots: count,
        codes,
        came,
    })
}

impl Block {
    /// The code of instruction number `place`.
    fn code(&self, place: usize) -> Code {
        match self.codes.get(place) {
            Some(code) => *code,
            None => (COPY, 0),
        }
    }

    /// The kind of word that arrives at this port.
    fn came_to(&self, place: usize, port: u64) -> Carried {
        match self.came.get(place) {
            Some([left, right]) => if port == 0 { *left } else { *right },
            None => Carried::Nothing,
        }
    }

    /// A port of some later instruction; none where there is no later one. It is one to which nothing goes yet and which
    /// takes the word, if such a port is soon found. Else it is any port if a destination is required, and rarely one if not.
    fn dest(&mut self, dice: &mut Dice, place: usize, sent: Carried, need: Need) -> Dest {
        let last = self.codes.len().saturating_sub(1);
        let room = last.saturating_sub(place).min(6) as u64;
        if room == 0 {
            return NONE;
        }
        let mut ahead = 1;
        let mut port = 0;
        let mut is_found = need == Need::Required || dice.throw(16) == 0;
        for _ in 0..THROWS {
            ahead = dice.throw(room).wrapping_add(1);
            let target = place.wrapping_add(ahead as usize);
            let code = self.code(target);
            port = if takes_two(code) { dice.throw(2) } else { 0 };
            let is_free = self.came_to(target, port) == Carried::Nothing;
            if is_free && is_welcome(code.0, port, sent) {
                is_found = true;
                break;
            }
        }
        if !is_found {
            return NONE;
        }
        if let Some(came) = self.came.get_mut(place.wrapping_add(ahead as usize)) {
            came[(port % 2) as usize] = sent;
        }
        (ahead, port)
    }

    /// Chooses the destinations of an instruction.
    fn dests(&mut self, dice: &mut Dice, place: usize, opcode: u64) -> (Dest, Dest) {
        let came = self.came_to(place, 0);
        let sent = sent_by(opcode, came);
        match opcode {
            29 | 32 => (NONE, NONE),
            21 | 22 | 23 | 27 => (self.dest(dice, place, sent, Need::Required), NONE),
            30 | 31 => (self.dest(dice, place, sent, Need::Optional), NONE),
            24 => {
                let landing = self.dest(dice, place, sent, Need::Required);
                ((landing.0, 0), self.dest(dice, place, sent, Need::Optional))
            }
            _ => {
                let first = self.dest(dice, place, sent, Need::Optional);
                if first == NONE {
                    (NONE, NONE)
                } else {
                    (first, self.dest(dice, place, sent, Need::Optional))
                }
            }
        }
    }

    /// A slot. Most instructions that take two tokens have one of their own; all instructions of loops share one.
    fn slot(&self, dice: &mut Dice, place: usize, code: Code) -> u64 {
        if !takes_two(code) {
            0
        } else if dice.throw(16) == 0 {
            dice.throw(self.slots)
        } else {
            (place as u64).min(self.slots.saturating_sub(1))
        }
    }

    /// Makes an instruction.
    fn line(&mut self, dice: &mut Dice, place: usize, named: Named<'_>) -> Line {
        let code = self.code(place);
        let (opcode, flag) = code;
        let (first, second) = self.dests(dice, place, opcode);
        let slot = self.slot(dice, place, code);
        let operand = named.operand(dice, opcode, flag);
        Line {
            opcode,
            flag,
            slot,
            first,
            second,
            operand,
        }
    }
}

/// What an operand may name: blocks, given by their numbers of inputs, and arrays.
#[derive(Clone, Copy)]
struct Named<'a> {
    inputs: &'a [u64],
    arrays: u64,
}

impl Named<'_> {
    fn operand(self, dice: &mut Dice, opcode: u64, flag: u64) -> u64 {
        match opcode {
            1..=14 if flag == 0 => 0,
            1..=14 | 17 => dice.throw(2),
            21 | 22 => dice.throw(self.arrays),
            24 => dice.throw(self.inputs.len() as u64),
            25 => self.entry(dice),
            26 | 27 | 32 => dice.throw(4),
            28..=31 => dice.throw(3).wrapping_add(2),
            _ => 0,
        }
    }

    /// A block and one of its entries.
    fn entry(self, dice: &mut Dice) -> u64 {
        let number = dice.throw(self.inputs.len() as u64);
        let inputs = self.inputs.get(number as usize).copied().unwrap_or(0);
        let entry = dice.throw(inputs.wrapping_add(1));
        number.wrapping_mul(1 << 16).wrapping_add(entry)
    }
}

/// A well-formed object that no compiler wrote.
pub fn random_code(alloc: Global, dice: &mut Dice) -> Result<Vec<u64>, AllocError> {
    let arrays = dice.throw(3);
    let mut blocks = Vec::new(alloc);
    let mut inputs = Vec::new(alloc);
    for _ in 0..dice.throw(3).wrapping_add(1) {
        let block = random_block(alloc, dice, arrays)?;
        inputs.push(block.inputs)?;
        blocks.push(block)?;
    }
    let count = blocks.len() as u64;
    let mut words = Vec::new(alloc);
    words.extend_from_slice(&[MARK, 1, count, 2, arrays, dice.throw(count)])?;
    for block in &blocks {
        let lines = block.codes.len();
        words.push(entry(lines, block.inputs, block.outputs, block.slots))?;
    }
    let named = Named {
        inputs: &inputs,
        arrays,
    };
    for block in blocks.iter_mut() {
        for place in 0..block.codes.len() {
            push_line(&mut words, block.line(dice, place, named))?;
        }
    }
    words.extend_from_slice(&[u64::MAX, 3])?;
    for _ in 0..arrays {
        words.push(dice.throw(4).wrapping_add(1))?;
    }
    Ok(words)
}
