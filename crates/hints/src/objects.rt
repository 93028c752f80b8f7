//! What is wrong with bytes that are not an object.

use crate::catalog::Text;
use crate::message::Found;
use object_view::{Place, Wrong, find_flaw};

/// The cause for what is wrong with this many bytes, and its three numbers.
fn cause_of(wrong: Wrong, bytes: u64) -> (Text, u64, u64, u64) {
    match wrong {
        Wrong::Header { wants } => ("object-header", bytes, wants, 0),
        Wrong::Length { wants } => ("object-length", bytes, wants, 0),
        Wrong::Magic => ("an object begins with the 8 bytes ETSOBJCT", 0, 0, 0),
        Wrong::Version { version } => ("version $d, where 1 and 2 are known", version, 0, 0),
        Wrong::Count {
            count,
            least,
            most,
            ..
        } => ("range", count, least, most),
        Wrong::Absent { number, count, .. } => ("numbered", number, count, 0),
        Wrong::LiteralOrder => ("literal-order", 0, 0, 0),
        Wrong::Opcode { code, flag } => ("no-opcode", code, flag, 0),
        Wrong::Operand { operand, code } => ("operand", operand, code, 0),
        Wrong::Slot { slot, slots } => ("no-slot", slot, slots, 0),
        Wrong::Slotless { slot, code } => ("slotless", slot, code, 0),
        Wrong::Distance => ("distance", 0, 0, 0),
        Wrong::PastEnd { ahead } => ("past-end", ahead, 0, 0),
        Wrong::RightPort { ahead } => ("right-port", ahead, 0, 0),
        Wrong::Destinations { code } => ("opcode $d does not have these destinations", code, 0, 0),
        Wrong::Target { operand } => ("no-target", operand, 0, 0),
    }
}

/// What that is about.
fn noun_of(wrong: Wrong) -> &'static str {
    match wrong {
        Wrong::Count { what: noun, .. } | Wrong::Absent { noun, .. } => noun,
        _ => "",
    }
}

/// Why the bytes are not an object.
pub fn object_fault(bytes: &[u8]) -> Option<Found<'_>> {
    let (at, wrong) = match find_flaw(bytes) {
        _ if bytes.len() >= 8 && !bytes.starts_with(b"ETSOBJCT") => (Place::Word(0), Wrong::Magic),
        Some(flaw) => (flaw.place, flaw.wrong),
        None => return None,
    };
    let (cause, first, second, third) = cause_of(wrong, bytes.len() as u64);
    let (place, word, number, block) = match at {
        Place::Length => (None, 0, 0, 0),
        Place::Word(word) => (Some("at byte $a of the object"), word, 0, 0),
        Place::Instr {
            block,
            number,
            word,
        } => (Some("at-instruction"), word, number, block),
    };
    let numbers = [word.saturating_mul(8), number, block, first, second, third];
    let words = [noun_of(wrong); 2];
    Some(Found::of(place, cause, words, [b""; 3], numbers))
}
