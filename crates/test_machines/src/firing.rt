//! What instructions make of the words that arrive.

ghost use Rattle.std.specs.Prelude.{◌≡◌, true, [], ◌∷◌};
ghost use Rattle.element.specs.Fired.{HasRoom, HasRoomInWord, HasRoomInSlot};

use crate::operations::operation_of;
use crate::part::Part;
use crate::shown::{push_origin, push_state, push_token, side_of};
use crate::words::Words;
use element::firing::{Made, NONE, Operand, Outcome, Point, SIGNAL, fire};
use element::instructions::{Array, Instruction, Instructions, dest_in};
use semantics::program::Op;
use std::alloc::AllocError;
use tags::slot::SlotState;
use tags::token::{Cont, Port, To, Token, Word};

/// Where the instructions are.
const SEAT: Point = Point { frame: 2, ip: 1 };

// An instruction without a program: what it makes goes to the next one's left port and to the second next one's.
struct NoProgram;

impl Instructions for NoProgram {
    ghost program = { λ s. record { blocks = []; arrays = 4 ∷ []; main = 0 } };

    ghost width = { λ s. 8 };

    fn instr(&self, _ip: u32) -> Option<Instruction> {
        None
    }

    fn entry(&self, _block: u16) -> u32 {
        0
    }

    fn array(&self, number: u8) -> Array {
        if number == 0 {
            Array { base: 0, len: 4 }
        } else {
            Array { base: 4, len: 0 }
        }
    }
}

fn has_room(cont: Cont) -> bool
    ensures { result ≡ true → HasRoom cont }
{
    match cont {
        Cont::Frame { ip, .. } => ip < 2_147_483_648,
        Cont::Host { port } => port < 2_147_483_648,
    }
}

fn word_has_room(word: Word) -> bool
    ensures { result ≡ true → HasRoomInWord word }
{
    match word {
        Word::Back(cont) => has_room(cont),
        _ => true,
    }
}

fn slot_has_room(slot: SlotState) -> bool
    ensures { result ≡ true → HasRoomInSlot slot }
{
    match slot {
        SlotState::Left(word) => word_has_room(word),
        SlotState::Right(word) => word_has_room(word),
        _ => true,
    }
}

/// The outcome of a word at an instruction, and what it makes. `None` where a number is too great.
fn fired(op: Op, slot: &SlotState, port: Port, word: &Word) -> Option<(Outcome, Made)> {
    let held = *slot;
    let came = *word;
    if !slot_has_room(held) {
        return None;
    }
    if !word_has_room(came) {
        return None;
    }
    let instr = Instruction {
        op,
        origin: 0,
        bits: 65_536 * (1 + 65_536 * 2),
    };
    let mut made = NONE;
    let operand = Operand { port, word: *word };
    let outcome = fire(&NoProgram, SEAT, &instr, *slot, operand, &mut made);
    Some((outcome, made))
}

/// Writes a token that was made, after what was written before.
fn push_made(answer: &mut String, to: To, word: Word) -> Result<(), AllocError> {
    answer.push_str(", ")?;
    push_token(answer, Token { to, word })
}

/// Writes the token to the destination that a half word gives, if it gives one.
fn push_sent(answer: &mut String, half: u32, word: Word) -> Result<(), AllocError> {
    let Some(dest) = dest_in(half) else {
        return Ok(());
    };
    let to = To::Instr {
        frame: SEAT.frame,
        ip: SEAT.ip.wrapping_add(dest.ahead),
        port: dest.port,
    };
    push_made(answer, to, word)
}

/// Writes all tokens that were made, in order.
fn push_tokens(answer: &mut String, made: &Made) -> Result<(), AllocError> {
    if let Some(frame) = made.released {
        push_made(answer, To::Release { frame }, SIGNAL)?;
    }
    if let Some(token) = made.outside {
        push_made(answer, token.to, token.word)?;
    }
    push_sent(answer, made.first, made.word)?;
    push_sent(answer, made.second, made.word)
}

/// An operation, the state of its slot, and the port and the word of the token that arrives.
fn push_fired(words: &mut Words<'_>, answer: &mut String) -> Option<()> {
    let op = operation_of(&mut words.piece())?;
    let Some(slot) = words.piece().state() else {
        return None;
    };
    let port = words.port()?;
    let Some(word) = words.carried() else {
        return None;
    };
    let Some((outcome, made)) = fired(op, &slot, port, &word) else {
        return None;
    };
    match outcome {
        Outcome::Becomes { slot } => {
            push_state(answer, slot).ok()?;
            push_tokens(answer, &made).ok()
        }
        Outcome::Excluded { rule } => write!(answer, "excluded by rule {rule}").ok(),
    }
}

/// Writes the destination that a half word gives.
pub fn push_dest(answer: &mut String, half: u32) -> Result<(), AllocError> {
    match dest_in(half) {
        Some(dest) => {
            let ahead = dest.ahead;
            let side = side_of(dest.port);
            write!(answer, "{ahead} {side}")
        }
        None => answer.push_str("none"),
    }
}

/// Writes the origin of this number.
fn push_origin_of(answer: &mut String, origin: u64) -> Result<(), AllocError> {
    let instr = Instruction {
        op: Op::Copy,
        origin,
        bits: 0,
    };
    push_origin(answer, instr.origin())
}

/// Single instructions.
#[derive(Drop)]
pub struct FiringPart;

impl Part for FiringPart {
    fn act(&mut self, words: &mut Words<'_>, answer: &mut String) -> Option<()> {
        match words.word() {
            "fire" => push_fired(words, answer),
            "destination" => push_dest(answer, words.number()?).ok(),
            "origin" => push_origin_of(answer, words.long()?).ok(),
            _ => None,
        }
    }
}
