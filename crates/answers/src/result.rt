//! What an export says in numbers.

ghost use Rattle.std.specs.Prelude.{◌≡◌, length};
ghost use Rattle.answers.specs.Answers.{at_line, in_block, nowhere, or_none, place_in, place_of, result_of, stage_in, stage_of};
ghost use Rattle.answers.specs.Filled.{filled};

use crate::filling::fill;
use outcomes::{Outcome, Refusal};

/// A place in a text or a graph; each number is `NONE` where there is none.
#[repr(C)]
#[derive(Clone, Copy, Debug)]
pub struct Place {
    /// From 1.
    pub line: u64,
    /// From 1.
    pub column: u64,
    pub block: u64,
    pub node: u64,
}

/// What became of a call.
#[repr(C)]
#[derive(Clone, Copy, Debug)]
pub struct EtsResult {
    /// 0 fine, 1 too little room, else at what work there was a refusal.
    pub status: u32,
    /// The exit status that the command has.
    pub exit: u32,
    pub place: Place,
    /// How many bytes there are.
    pub needed: usize,
}

/// A number that is not there.
const NONE: u64 = u64::MAX;

/// The status of a call whose answer has no room.
const ROOM: u32 = 1;

fn or_none(number: Option<u64>) -> u64
    ensures { result ≡ or_none number }
{
    number.unwrap_or(NONE)
}

const NOWHERE: Place = Place {
    line: NONE,
    column: NONE,
    block: NONE,
    node: NONE,
};

fn at_line(line: u64) -> Place
    ensures { result ≡ at_line line }
{
    Place { line, ..NOWHERE }
}

fn in_block(block: Option<u64>, node: Option<u64>) -> Place
    ensures { result ≡ in_block block node }
{
    Place {
        block: or_none(block),
        node: or_none(node),
        ..NOWHERE
    }
}

/// At what work there was a refusal.
fn stage_of(refusal: &Refusal) -> u32
    ensures { result ≡ stage_of refusal.now }
{
    match refusal {
        Refusal::Memory => 2,
        Refusal::Input => 3,
        Refusal::Program(_) => 4,
        Refusal::Read(_) => 5,
        Refusal::Check(_) => 6,
        Refusal::TooManySlots(_) => 7,
        Refusal::TooFar(_) => 8,
        Refusal::Object(_) => 9,
        Refusal::Asm(_) => 10,
        Refusal::Start(_) => 11,
        Refusal::InputLine(_) => 12,
        Refusal::TooManyFrames(_) | Refusal::NotAtRest => 13,
    }
}

/// Where there was a refusal.
fn place_of(refusal: &Refusal) -> Place
    ensures { result ≡ place_of refusal.now }
{
    match refusal {
        Refusal::Program(refusal) => Place {
            line: refusal.fault.line as u64,
            column: refusal.fault.column as u64,
            ..NOWHERE
        },
        Refusal::Read(refusal) => at_line(refusal.fault().line),
        Refusal::Check(refusal) => {
            let fault = refusal.fault();
            in_block(fault.block, fault.node)
        }
        Refusal::TooManySlots(block) | Refusal::TooFar(block) => in_block(Some(*block), None),
        Refusal::Asm(refusal) => at_line(refusal.fault().line),
        Refusal::InputLine(line) => at_line(*line),
        Refusal::Input
        | Refusal::Object(_)
        | Refusal::Start(_)
        | Refusal::TooManyFrames(_)
        | Refusal::NotAtRest
        | Refusal::Memory => NOWHERE,
    }
}

fn stage_in(outcome: &Outcome) -> u32
    ensures { result ≡ stage_in outcome.now }
{
    match outcome {
        Outcome::Refused(refusal) => stage_of(refusal),
        _ => 0,
    }
}

fn place_in(outcome: &Outcome) -> Place
    ensures { result ≡ place_in outcome.now }
{
    match outcome {
        Outcome::Refused(refusal) => place_of(refusal),
        _ => NOWHERE,
    }
}

/// What is said of this outcome, for which there are `needed` items and there is room for so many.
pub fn result_of(outcome: &Outcome, needed: usize, room: usize) -> EtsResult
    ensures { result ≡ result_of outcome.now needed room }
{
    let status = if room < needed {
        ROOM
    } else {
        stage_in(outcome)
    };
    EtsResult {
        status,
        exit: u32::from(outcome.status()),
        place: place_in(outcome),
        needed,
    }
}

/// Answers with the text of this outcome: it is written to the buffer where it fits, and what is said of it tells how long it is.
pub fn answer(outcome: &Outcome, text: &[u8], buffer: &mut [u8]) -> EtsResult
    ensures written { buffer.new ≡ filled text.now buffer.old }
    ensures said { result ≡ result_of outcome.now (length text.now) (length buffer.old) }
{
    let room = buffer.len();
    fill(buffer, text);
    result_of(outcome, text.len(), room)
}
