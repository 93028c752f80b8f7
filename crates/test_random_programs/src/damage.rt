//! Texts in which a byte or a token is changed, and where such a text may be refused.

use source::fault::{FaultKind, ProgramFault};
use source::token::{Keyword, Sign, Token, TokenKind};
use source_tokens::{lex, position};
use std::alloc::{AllocError, Global};
use test_inputs::random_graphs::dice::Dice;

/// A text with a change, or without one, and the places that are before the change.
#[derive(Drop)]
pub struct Changed {
    pub text: Vec<u8>,
    is_changed: bool,
    /// What is before this place has the same tokens as before.
    tokens: usize,
    /// What is before this place obeys the same rules as before.
    items: usize,
}

/// An edit: what is from a place on, up to another, becomes these two pieces.
#[derive(Clone, Copy)]
struct Edit<'a> {
    from: usize,
    to: usize,
    one: &'a [u8],
    two: &'a [u8],
}

/// Numbers at the edges of what is allowed somewhere.
const NUMBERS: [&[u8]; 8] = [
    b"0",
    b"1",
    b"16",
    b"17",
    b"65",
    b"65537",
    b"9223372036854775807",
    b"9223372036854775808",
];

const BYTES: &[u8] = b"?01aZ_~-+<>=:;,(){}[]/ \n\t\xc3";

/// The text from a place up to another.
fn part(text: &[u8], from: usize, to: usize) -> &[u8] {
    match text.get(from..) {
        Some(rest) => rest.get(..to.saturating_sub(from)).unwrap_or(rest),
        None => &[],
    }
}

/// The place of a token, or the end of the text.
fn place_of(text: &[u8], tokens: &[Token], number: usize) -> usize {
    match tokens.get(number) {
        Some(token) => token.at,
        None => text.len(),
    }
}

fn some_place(dice: &mut Dice, count: usize) -> usize {
    dice.throw(count as u64) as usize
}

fn some_number(dice: &mut Dice) -> &'static [u8] {
    let place = some_place(dice, NUMBERS.len());
    NUMBERS.get(place).copied().unwrap_or(b"0".as_slice())
}

/// A change of a byte: it is left out, doubled, or becomes another one.
fn change_byte<'a>(dice: &mut Dice, text: &'a [u8]) -> Edit<'a> {
    let from = some_place(dice, text.len());
    let next = from.wrapping_add(1);
    let other = some_place(dice, BYTES.len());
    let (to, one) = match dice.throw(3) {
        0 => (next, b"".as_slice()),
        1 => (from, part(text, from, next)),
        _ => (next, part(BYTES, other, other.wrapping_add(1))),
    };
    Edit {
        from,
        to,
        one,
        two: b"".as_slice(),
    }
}

/// A change of a token: it is left out, doubled, exchanged with the next one, or becomes another one or a number.
fn change_token<'a>(dice: &mut Dice, text: &'a [u8], tokens: &[Token]) -> Edit<'a> {
    let number = some_place(dice, tokens.len());
    let from = place_of(text, tokens, number);
    let next = place_of(text, tokens, number.wrapping_add(1));
    let after = place_of(text, tokens, number.wrapping_add(2));
    let other = some_place(dice, tokens.len());
    let bytes = part(text, from, next);
    let (to, one, two) = match dice.throw(5) {
        0 => (next, b"".as_slice(), b"".as_slice()),
        1 => (from, bytes, b"".as_slice()),
        2 => (after, part(text, next, after), bytes),
        3 => {
            let start = place_of(text, tokens, other);
            let end = place_of(text, tokens, other.wrapping_add(1));
            (next, part(text, start, end), b"".as_slice())
        }
        _ => (next, some_number(dice), b" ".as_slice()),
    };
    Edit { from, to, one, two }
}

/// The place before which a change at this one changes no token.
fn tokens_before(text: &[u8], tokens: &[Token], from: usize) -> usize {
    let mut before = 0;
    for token in tokens {
        if token.at < from {
            before = token.at;
        }
    }
    match part(text, from.saturating_sub(1), from).first() {
        Some(b' ' | b'\n' | b'\t') => from,
        _ => before,
    }
}

/// Whether a change of these bytes may end a body, or a comment.
fn ends_bodies(bytes: &[u8]) -> bool {
    bytes
        .iter()
        .any(|byte| matches!(*byte, b'{' | b'}' | b'/' | b'\n'))
}

/// The place of the function in whose body a place lies, if it lies in one.
fn function_around(tokens: &[Token], from: usize) -> Option<usize> {
    let mut item = 0;
    let mut is_body = false;
    for token in tokens {
        if token.at >= from {
            break;
        }
        match token.kind {
            TokenKind::Word {
                keyword: Keyword::Fn | Keyword::Array,
            } => {
                item = token.at;
                is_body = false;
            }
            TokenKind::Mark {
                sign: Sign::OpenBrace,
            } => is_body = true,
            _ => {}
        }
    }
    is_body.then_some(item)
}

/// The place before which a change keeps all rules: that of the function in whose body it lies. A change of a head, or of where a body
/// ends, may break rules anywhere.
fn items_before(text: &[u8], tokens: &[Token], edit: Edit<'_>) -> usize {
    let removed = part(text, edit.from, edit.to);
    if ends_bodies(edit.one) || ends_bodies(edit.two) || ends_bodies(removed) {
        return 0;
    }
    function_around(tokens, edit.from).unwrap_or(0)
}

/// The text as it is.
pub fn unchanged(text: Vec<u8>) -> Changed {
    Changed {
        text,
        is_changed: false,
        tokens: 0,
        items: 0,
    }
}

/// The text with some change.
pub fn change(alloc: Global, dice: &mut Dice, text: &[u8]) -> Result<Changed, AllocError> {
    let Ok(tokens) = lex(alloc, text) else {
        return Err(AllocError);
    };
    let edit = if dice.throw(2) == 0 {
        change_byte(dice, text)
    } else {
        change_token(dice, text, &tokens)
    };
    let mut changed = Vec::from_slice(alloc, part(text, 0, edit.from))?;
    changed.extend_from_slice(edit.one)?;
    changed.extend_from_slice(edit.two)?;
    changed.extend_from_slice(part(text, edit.to, text.len()))?;
    Ok(Changed {
        text: changed,
        is_changed: true,
        tokens: tokens_before(text, &tokens, edit.from),
        items: items_before(text, &tokens, edit),
    })
}

/// Whether it is the grammar, with the tokens, that a fault of this kind breaks.
fn is_of_grammar(kind: FaultKind) -> bool {
    matches!(
        kind,
        FaultKind::BadByte
            | FaultKind::BadNumber
            | FaultKind::BadName
            | FaultKind::Unexpected
            | FaultKind::Unended
            | FaultKind::TooDeep
            | FaultKind::NotACell
    )
}

impl Changed {
    /// Whether the text may be refused so: not before its change, but that a program is too large may have been so before; and
    /// without a change only for its size.
    pub fn admits(&self, fault: ProgramFault) -> bool {
        if matches!(fault.kind, FaultKind::TooWide | FaultKind::TooBig) {
            return true;
        }
        if !self.is_changed {
            return false;
        }
        let least = if is_of_grammar(fault.kind) {
            self.tokens
        } else {
            self.items
        };
        let place = position(&self.text, least);
        fault.line > place.line || fault.line == place.line && fault.column >= place.column
    }
}
