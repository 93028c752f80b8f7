//! The lines of what a command printed.

/// How many lines begin so.
pub fn count(text: &[u8], front: &[u8]) -> u64 {
    let lines = text.split(|byte| *byte == b'\n');
    lines.filter(|line| line.starts_with(front)).count() as u64
}

/// The text from its first line on that does not begin so.
pub fn after<'a>(text: &'a [u8], front: &[u8]) -> &'a [u8] {
    let mut end = 0usize;
    for line in text.split(|byte| *byte == b'\n') {
        if !line.starts_with(front) {
            break;
        }
        end = end.saturating_add(line.len()).saturating_add(1);
    }
    text.get(end..).unwrap_or(&[])
}

/// The number of word `place` of a line, counted from 0; 0 where there is none.
pub fn number(line: &[u8], place: usize) -> u64 {
    for (at, word) in line.split(|byte| *byte == b' ').enumerate() {
        if at == place {
            return digits(word);
        }
    }
    0
}

/// The number that these digits write.
fn digits(word: &[u8]) -> u64 {
    let mut number = 0u64;
    for byte in word {
        if byte.is_ascii_digit() {
            number = number
                .wrapping_mul(10)
                .wrapping_add(u64::from(byte.wrapping_sub(b'0')));
        }
    }
    number
}

/// The numbers of word `place` of all lines that begin so, added up.
pub fn sum(text: &[u8], front: &[u8], place: usize) -> u64 {
    let mut total = 0u64;
    for line in text.split(|byte| *byte == b'\n') {
        if line.starts_with(front) {
            total = total.wrapping_add(number(line, place));
        }
    }
    total
}
