//! What is wrong with the program of a text, for each kind of fault.

use crate::catalog::{Text, found};
use crate::lines::{is, line_at, text_of};
use crate::message::{Found, Special, window};
use source::fault::FaultKind;
use source_tokens::{Detail, Expected, ProgramRefusal, Stop, Within, split};

/// The signs of two bytes.
const PAIRS: [&[u8]; 8] = [b":=", b"==", b"!=", b"<=", b">=", b"->", b">>", b"<<"];
/// How things are written of which a name or what is next is missing, in the order of `Form`.
const FORMS: [Text; 7] = [
    "an array is written `array A[8];`, with a number of cells",
    "a function is written `fn f(x, y) { BODY }`, or with two results `fn f(x, y) -> 2 { BODY }`, and has at least one parameter",
    "`let` is written `let x = VALUE;`, or `let x, _ = VALUES;` where `_` drops a value",
    "loop",
    "a loop with its test after the body is written `loop 4 (i = 0) { BODY } while (i < n)`, with the brackets",
    "else",
    "after `strict` comes a call: `strict f(x)`",
];
/// What comes after an expression, in the order of `Within`.
const AFTER: [Text; 8] = [
    "after `$2` could come an operator, `,`, `;`, or the `}` that ends the block",
    "after `$2` could come an operator, `,`, or the `;` that ends the `let`",
    "after `$2` could come an operator, or the `)` that closes the bracket",
    "after `$2` could come an operator, `,`, or the `)` that ends the call",
    "after `$2` could come an operator, or the `]` that ends the index",
    "after `$2` could come an operator, or the `{` of the arm",
    "after `$2` could come an operator, or the `{` of the loop's body",
    "after `$2` could come an operator, `,`, or the `)` that ends the loop's names",
];
/// What is said of a fault of which no more is known, in the order of `FaultKind`.
const KINDS: [Text; 17] = [
    "no token begins like this: other bytes are only in comments, from `//` to the end of the line",
    "a number is decimal, without leading zeros, at most 9223372036854775807; directly after `-` also 9223372036854775808",
    "kind",
    "kind",
    "the program ends before all that was begun is closed: look for a `}`, `)`, `]` or `;` that is missing",
    "more than 200 expressions, signs and `if`s are open here: give a part a name by `let`, or put it into a function",
    "only a cell is filled, and only as a whole expression: `A[i] := v`; within another expression it is in brackets",
    "kind",
    "kind",
    "kind",
    "a loop's bound, how many turns are under way at once, is 2 to 64",
    "an array has 1 to 65536 cells, and a function 1 to 16 results",
    "a program has at most 64 arrays with 65536 cells together, and a function at most 16 parameters",
    "a turn carries at most 15 values: the loop's names, and the names from outside that it uses",
    "a function or a loop makes at most 1024 nodes, and a program at most 256 functions and loops: put a part into a function",
    "a program has a function `main`: its parameters are the inputs, and its results the outputs",
    "kind",
];

fn is_run_byte(byte: &&u8) -> bool {
    byte.is_ascii_alphanumeric() || **byte == b'_'
}

/// The token, or the bad token, that begins at this place: a run of letters, digits and `_`, or a sign. Empty at the end, and past it.
pub fn token_at(text: &[u8], at: usize) -> &[u8] {
    let bytes = text.get(at..).unwrap_or(b"");
    let run = bytes.iter().take_while(is_run_byte).count();
    let is_pair = PAIRS.contains(&bytes.get(..2).unwrap_or(b""));
    let sign = if is_pair { 2 } else { 1 };
    let len = if run > 0 { run } else { sign };
    bytes.get(..len).unwrap_or(bytes)
}

/// The text that says what could come where this is expected.
fn wanted(expected: Expected) -> Text {
    match expected {
        Expected::Item => "item",
        Expected::Step => "step",
        Expected::Operand(_) => "expression",
        Expected::Name(form) | Expected::Next(form) => FORMS[form as usize],
        Expected::Operator(within) => AFTER[within as usize],
    }
}

/// What is wrong with this word after that one, where an operand or a step is expected.
fn wrong_operand(within: Within, before: &str, word: &str) -> Option<Text> {
    let group = match within {
        _ if is(before, word) => "doubled/",
        Within::Arguments if is(before, "(") => "bracket/",
        _ => found("after/", before).unwrap_or("operand/"),
    };
    found(group, word).or(found("operand/", word))
}

/// What is wrong with this word after that one, if something is known of it.
fn wrong(stop: Stop, before: &str, word: &str) -> Option<Text> {
    let within = match stop.expected {
        _ if is(word, "inputs") => return Some("inputs-line"),
        Expected::Item => return found("item/", word),
        Expected::Name(_) => return found("name/", word),
        Expected::Next(_) => return None,
        Expected::Step => Within::Block,
        Expected::Operand(within) | Expected::Operator(within) => within,
    };
    if word.is_empty() || found("next/", word).is_some() {
        return match within {
            Within::Block | Within::Group | Within::Arguments | Within::Index => {
                stop.open.and(Some("the `$q` of line $c is not closed"))
            }
            _ => None,
        };
    }
    match stop.expected {
        Expected::Operator(Within::Block | Within::Let) if is(word, "let") => Some("before-let"),
        Expected::Operator(_) => found("operator/", word),
        _ => wrong_operand(within, before, word),
    }
}

/// What is said of a fault of this kind in a program of which no more is known.
pub fn kind_cause(kind: FaultKind) -> Text {
    KINDS[kind as usize]
}

/// The cause of a refusal of the program at this word, which comes after that one.
fn cause_of(refusal: ProgramRefusal, before: &str, word: &str) -> Text {
    match (refusal.fault.kind, refusal.detail) {
        (FaultKind::Unexpected | FaultKind::Unended, Some(Detail::Stop(stop))) => {
            wrong(stop, before, word).unwrap_or(wanted(stop.expected))
        }
        (FaultKind::Arity, Some(Detail::Function(Some(head)))) if head.results == 1 => "one-result",
        (FaultKind::Arity, Some(Detail::Function(Some(_)))) => "call-results",
        (FaultKind::Arity, _) => found("values/", word).unwrap_or("one-value"),
        (FaultKind::BadName, _) => "bad-name",
        (FaultKind::SameName, _) => "same-name",
        (FaultKind::NoSuchName, Some(Detail::Function(_))) => "there is no function `$p`",
        (FaultKind::NoSuchName, Some(Detail::Array)) => "there is no array `$p`",
        (FaultKind::NoSuchName, _) => "value-unknown",
        (kind, _) => kind_cause(kind),
    }
}

/// Where the token before is, where what is open last is, and in which line; of what is not there, past the end.
fn places_of(refusal: ProgramRefusal) -> (usize, usize, usize) {
    let Some(Detail::Stop(stop)) = refusal.detail else {
        return (usize::MAX, usize::MAX, 0);
    };
    let before = stop.before.unwrap_or(usize::MAX);
    match stop.open {
        Some(opened) => (before, opened.at, opened.line),
        None => (before, usize::MAX, 0),
    }
}

/// Why the text has no program that is lowered.
pub fn program_fault<'a>(text: &'a [u8], refusal: ProgramRefusal) -> Found<'a> {
    let program = split(text).program;
    let (number, column) = (refusal.fault.line as u64, refusal.fault.column as u64);
    let line = line_at(program, number);
    let token = token_at(program, refusal.at);
    let seen = window(line, column);
    let (before, open, opened) = places_of(refusal);
    let (parameters, results) = match refusal.detail {
        Some(Detail::Function(Some(head))) => (head.parameters as u64, head.results),
        _ => (0, 0),
    };
    let (before, word) = (text_of(token_at(program, before)), text_of(token));
    let parts = [token, token_at(program, open), seen];
    let numbers = [number, column, opened as u64, parameters, results, 0];
    let cause = cause_of(refusal, before, word);
    let place = match line.len() {
        _ if token.is_empty() => "the program ends at line $a, column $b",
        len if seen.len() < len => "line $a is `..$s`; at column $b is `$p`",
        _ => "line $a is `$s`; at column $b is `$p`",
    };
    let found = Found::of(Some(place), cause, [word, before], parts, numbers);
    found.with([Special::Programming(refusal.fault.kind); 2])
}
