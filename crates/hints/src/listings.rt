//! What is wrong with a listing, for each cause of a refusal.

use crate::catalog::{Text, found};
use crate::fields::{literal_fault, number_fault};
use crate::lines::{column_of, line_at, said, text_at, word_at, word_count};
use crate::message::{Found, at_line, window};
use assembler::{AsmCause, AsmLineCause, AsmNumberCause, AsmRefusal, InstrWord, SlotCause, Unfit};
use semantics::opcode::Opcode;

/// The causes for lines that are well written, and for which the code has no object, in the order of `Unfit`.
const UNFIT: [Text; 11] = [
    "version $p, where 1 and 2 are known",
    "a listing has 1 to 512 blocks, of which this line names one, and at most 64 arrays",
    "the instructions have more than 65536 different literals, or the table has more",
    "a block has 1 to 16 inputs, 1 to 16 outputs, at most 512 slots, and more instructions than inputs, up to 32768",
    "an array has 1 to 65536 cells, and all arrays have 65536 together at most",
    "literal-order",
    "no line `literal N V` has the literal of this instruction, and where there are such lines they have all literals",
    "no-operand",
    "slot-wanted",
    "a destination is a later instruction of the block, with `r` only where that takes two tokens; how many $p has docs/FORMATS.md says, under `Object file`",
    "origin",
];

/// The cause for an operand that the operation with this name does not have.
fn operand_cause(name: &[u8]) -> Text {
    match Opcode::of_word(name) {
        Some(Opcode::Lit) => "the operand of $p is `#V`, a literal of 64 bits, and not `$q`",
        Some(Opcode::Fetch | Opcode::Store) => "array-operand",
        Some(Opcode::Link) => "the operand of $p is `bN`, a block that there is, and not `$q`",
        Some(Opcode::Send) => "entry-operand",
        Some(Opcode::Return | Opcode::Ask | Opcode::Release) => "offset-operand",
        Some(Opcode::Open | Opcode::Take | Opcode::Give | Opcode::Drain) => "bound-operand",
        Some(Opcode::Apply2 { .. }) => "side-operand",
        _ => "no-operand",
    }
}

/// The cause of a refusal at a line with these words, of which this part is wrong.
fn cause_of(cause: AsmCause, words: &[u8], part: &[u8]) -> Text {
    match cause {
        AsmCause::Unended => "listing-unended",
        // These bytes separate no words, though they look so.
        _ if words.ends_with(b"\r") => "return-in-listing",
        _ if words.contains(&b'\t') => "column $c has a tab: spaces separate words",
        AsmCause::BadLine(AsmLineCause::Misplaced) => "line-order",
        AsmCause::BadLine(_) => "the form is `$1`, and this line has $b word$B",
        AsmCause::BadNumber(AsmNumberCause::Number(_)) => number_fault(part),
        AsmCause::BadNumber(AsmNumberCause::Literal(_)) => literal_fault(part),
        AsmCause::BadNumber(AsmNumberCause::Next { .. }) => "line-number",
        AsmCause::BadSlot(SlotCause::Unwanted) => "slot-unwanted",
        AsmCause::BadSlot(SlotCause::Wanted) => "slot-wanted",
        AsmCause::BadDestination(_) => "no-destination",
        AsmCause::BadOperand | AsmCause::Unfit(Unfit::BadOperand) => operand_cause(part),
        AsmCause::BadOrigin => "origin",
        AsmCause::Unfit(unfit) => UNFIT[unfit as usize],
        AsmCause::BadName | AsmCause::Memory => "operation",
    }
}

/// The part of the line that is wrong, or else the operation.
fn part_of(cause: AsmCause, words: &[u8]) -> &[u8] {
    let word = match cause {
        AsmCause::BadNumber(AsmNumberCause::Number(place) | AsmNumberCause::Literal(place))
        | AsmCause::BadNumber(AsmNumberCause::Next { place, .. }) => return place.field(words),
        AsmCause::BadDestination(word) => word,
        AsmCause::BadOrigin | AsmCause::Unfit(Unfit::BadOrigin) => InstrWord::Origin,
        _ => InstrWord::Name,
    };
    word_at(words, word.index())
}

/// The form that the line should have.
fn form_of<'a>(cause: AsmCause, words: &'a [u8]) -> &'a str {
    let is_first = matches!(cause, AsmCause::BadLine(AsmLineCause::NoHead));
    let subject = if is_first { "ets" } else { text_at(words, 0) };
    let form = found("listing/", subject).or(found("listing/", "instruction"));
    form.unwrap_or("")
}

/// Why the text is not a listing of an object.
pub fn listing_fault<'a>(refusal: AsmRefusal, text: &'a [u8]) -> Found<'a> {
    let line = line_at(text, refusal.line);
    let words = said(line);
    let part = part_of(refusal.cause, words);
    let before = words.split(|byte| *byte == b'\t').next().unwrap_or(words);
    let tab = (before.len() as u64).saturating_add(1);
    let column = match before.len() < words.len() {
        true => tab,
        false => column_of(part, line),
    };
    let seen = window(line, column);
    let (other, wanted) = match refusal.cause {
        AsmCause::BadSlot(_) | AsmCause::Unfit(Unfit::BadSlot) => (InstrWord::Slot, 0),
        AsmCause::BadNumber(AsmNumberCause::Next { wanted, .. }) => (InstrWord::Operand, wanted),
        _ => (InstrWord::Operand, 0),
    };
    let parts = [part, word_at(words, other.index()), seen];
    let numbers = [wanted, word_count(words), tab, 0, 0, refusal.line];
    let cause = cause_of(refusal.cause, words, part);
    let place = match refusal.cause {
        AsmCause::Unended => None,
        _ => Some(at_line(line, seen)),
    };
    let form = form_of(refusal.cause, words);
    Found::of(place, cause, [form; 2], parts, numbers)
}
