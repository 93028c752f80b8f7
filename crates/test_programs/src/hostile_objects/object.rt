//! Objects as lists of words.

use std::alloc::{AllocError, Global};

/// How many words an object has before its block table.
pub const HEADER: usize = 6;

/// The mark of an object, `ETSOBJCT`, as a word.
pub const MARK: u64 = 0x5443_4a42_4f53_5445;

/// A destination: how far ahead it is, and 1 for the right port or 0 for the left. Where there is no destination, both are 0.
pub type Dest = (u64, u64);

/// No destination.
pub const NONE: Dest = (0, 0);

/// An instruction.
#[derive(Clone, Copy)]
pub struct Line {
    pub opcode: u64,
    pub flag: u64,
    pub slot: u64,
    pub first: Dest,
    pub second: Dest,
    pub operand: u64,
}

impl Line {
    /// The first word of the instruction.
    fn head(self) -> u64 {
        self.opcode
            | self.flag.wrapping_mul(1 << 8)
            | self.slot.wrapping_mul(1 << 16)
            | self.first.0.wrapping_mul(1 << 32)
            | self.first.1.wrapping_mul(1 << 47)
            | self.second.0.wrapping_mul(1 << 48)
            | self.second.1.wrapping_mul(1 << 63)
    }
}

/// The entry of a block in the block table.
pub fn entry(lines: usize, inputs: u64, outputs: u64, slots: u64) -> u64 {
    (lines as u64)
        | inputs.wrapping_mul(1 << 32)
        | outputs.wrapping_mul(1 << 40)
        | slots.wrapping_mul(1 << 48)
}

/// Appends the words of an instruction.
pub fn push_line(words: &mut Vec<u64>, line: Line) -> Result<(), AllocError> {
    words.push(line.head())?;
    words.push(line.operand)?;
    Ok(())
}

/// The words that the bytes make; bytes after the last whole word are left out.
pub fn words_of(alloc: Global, bytes: &[u8]) -> Result<Vec<u64>, AllocError> {
    let mut words = Vec::new(alloc);
    for eight in bytes.chunks_exact(8) {
        let mut word = 0u64;
        for byte in eight.iter().rev() {
            word = word.wrapping_mul(256) | u64::from(*byte);
        }
        words.push(word)?;
    }
    Ok(words)
}

/// The bytes of the words.
pub fn bytes_of(alloc: Global, words: &[u64]) -> Result<Vec<u8>, AllocError> {
    let mut bytes = Vec::new(alloc);
    for word in words {
        bytes.extend_from_slice(&word.to_le_bytes())?;
    }
    Ok(bytes)
}
