//! The lines of a text and their words.

use std::str;

fn is_space(byte: &u8) -> bool {
    *byte == b' '
}

pub fn is_line_feed(byte: &u8) -> bool {
    *byte == b'\n'
}

pub fn is_full(bytes: &&[u8]) -> bool {
    !bytes.is_empty()
}

/// Whether the two are the same.
pub fn is(one: &str, other: &str) -> bool {
    one == other
}

/// Line `number` of the text, counted from 1; empty where there is no such line.
pub fn line_at(text: &[u8], number: u64) -> &[u8] {
    let place = number.saturating_sub(1) as usize;
    let mut lines = text.split(is_line_feed);
    lines.nth(place).unwrap_or(b"")
}

/// The number of the last line of a text in which each line has a line feed.
pub fn last_line(text: &[u8]) -> u64 {
    (text.split(is_line_feed).count() as u64).saturating_sub(1)
}

/// The bytes as text; empty where they are none.
pub fn text_of(bytes: &[u8]) -> &str {
    str::from_utf8(bytes).unwrap_or("")
}

/// The word at `place` of a line, counted from 0; empty where there is no such word.
pub fn word_at(line: &[u8], place: usize) -> &[u8] {
    let mut words = line.split(is_space).filter(is_full);
    words.nth(place).unwrap_or(b"")
}

/// That word as text; empty where it is none.
pub fn text_at(line: &[u8], place: usize) -> &str {
    text_of(word_at(line, place))
}

/// How many words a line has.
pub fn word_count(line: &[u8]) -> u64 {
    line.split(is_space).filter(is_full).count() as u64
}

/// The column of the first field of the line that has these bytes, from 1; 1 where there is none.
pub fn column_of(field: &[u8], line: &[u8]) -> u64 {
    let mut column = 1u64;
    for other in line.split(is_space) {
        if other == field {
            return column;
        }
        column = column.saturating_add(other.len() as u64).saturating_add(1);
    }
    1
}

/// What a line of a listing says, before its comment.
pub fn said(line: &[u8]) -> &[u8] {
    line.split(|byte| *byte == b';').next().unwrap_or(line)
}

/// Splits the input in two: the graph's text, up to the end of the first line that begins with `main `, and what follows it.
pub fn split_graph(input: &[u8]) -> (&[u8], &[u8]) {
    let mut is_main = input.starts_with(b"main ");
    for (i, byte) in input.iter().enumerate() {
        if *byte == b'\n' {
            let (before, after) = input.split_at(i + 1);
            if is_main {
                return (before, after);
            }
            is_main = after.starts_with(b"main ");
        }
    }
    (input, b"")
}
