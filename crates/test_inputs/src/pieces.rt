//! Texts that are given by pieces, in the tables of tests. A piece is written once or many times, and may contain numbers and
//! bytes.

use itoa::Buffer;
use std::alloc::{AllocError, Global};
use std::str;

/// The value of a hexadecimal digit; 0 for any other byte.
fn digit_value(digit: u8) -> u8 {
    match digit {
        b'0'..=b'9' => digit - b'0',
        b'a'..=b'f' => digit - b'a' + 10,
        _ => 0,
    }
}

/// The byte that two hexadecimal digits spell.
pub fn byte_of(high: u8, low: u8) -> u8 {
    digit_value(high).wrapping_mul(16) | digit_value(low)
}

/// Appends bytes, with the digits in place of each `%`.
fn append_bytes(text: &mut Vec<u8>, bytes: &[u8], digits: &[u8]) -> Result<(), AllocError> {
    for byte in bytes {
        if *byte == b'%' {
            text.extend_from_slice(digits)?;
        } else {
            text.push(*byte)?;
        }
    }
    Ok(())
}

/// Appends a piece, with the number in place of each `%`, and a byte in place of each `\HH`.
pub fn append(text: &mut Vec<u8>, piece: &[u8], number: u64) -> Result<(), AllocError> {
    let mut digits = Buffer::new();
    let digits = digits.format(number).as_bytes();
    for (i, part) in piece.split(|byte| *byte == b'\\').enumerate() {
        match part {
            [high, low, rest @ ..] if i > 0 => {
                text.push(byte_of(*high, *low))?;
                append_bytes(text, rest, digits)?;
            }
            _ => append_bytes(text, part, digits)?,
        }
    }
    Ok(())
}

/// The first word, as a number, and what follows the space after it.
fn split_number(line: &[u8]) -> Option<(u64, &[u8])> {
    let space = line.iter().position(|byte| *byte == b' ')?;
    let number = str::from_utf8(line.get(..space)?).ok()?.parse().ok()?;
    Some((number, line.get(space + 1..)?))
}

/// Appends the piece of a line `FIRST LAST PIECE` once for each number.
pub fn append_repeated(text: &mut Vec<u8>, line: &[u8]) -> Result<(), AllocError> {
    if let Some((first, rest)) = split_number(line) {
        if let Some((last, piece)) = split_number(rest) {
            for number in first..=last {
                append(text, piece, number)?;
            }
        }
    }
    Ok(())
}

/// What is before the first occurrence of these bytes in the text, and what is after it.
fn split_around<'a>(text: &'a [u8], bytes: &[u8]) -> Option<(&'a [u8], &'a [u8])> {
    let place = text
        .windows(bytes.len().max(1))
        .position(|window| window == bytes)?;
    let (front, rest) = text.split_at_checked(place)?;
    Some((front, rest.strip_prefix(bytes)?))
}

/// The text with a piece in place of the first occurrence of these bytes; `None` where they do not occur in it.
pub fn changed(
    alloc: Global,
    text: &[u8],
    bytes: &[u8],
    piece: &[u8],
) -> Result<Option<Vec<u8>>, AllocError> {
    let Some((front, rest)) = split_around(text, bytes) else {
        return Ok(None);
    };
    let mut changed = Vec::from_slice(alloc, front)?;
    append(&mut changed, piece, 0)?;
    changed.extend_from_slice(rest)?;
    Ok(Some(changed))
}

/// Overwrites the text from this place on. Says whether it is as long as that.
pub fn overwrite(text: &mut [u8], place: usize, bytes: &[u8]) -> bool {
    let Some(rest) = text.get_mut(place..) else {
        return false;
    };
    for (old, new) in rest.iter_mut().zip(bytes) {
        *old = *new;
    }
    true
}

/// Appends the bytes of a word, the lowest first. `digits` has the highest digits first.
pub fn append_word(text: &mut Vec<u8>, digits: &[u8]) -> Result<(), AllocError> {
    for pair in digits.chunks(2).rev() {
        if let [high, low] = pair {
            text.push(byte_of(*high, *low))?;
        }
    }
    Ok(())
}
