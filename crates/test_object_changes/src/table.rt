//! Reads the table, line by line.

use crate::changes::{report_beginnings, report_changes, report_longer};
use crate::outcome::outcome_of;
use std::alloc::{AllocError, Global};
use std::io::{self, Write};
use std::str;
use test_inputs::pieces::{byte_of, overwrite};

/// Appends the bytes that these words spell, one for each word of two digits.
fn append_hex(bytes: &mut Vec<u8>, words: &[u8]) -> Result<(), AllocError> {
    for word in words.split(|byte| *byte == b' ') {
        if let [high, low] = word {
            bytes.push(byte_of(*high, *low))?;
        }
    }
    Ok(())
}

/// The number at the beginning of the words, and what follows it.
fn split_number(words: &[u8]) -> Option<(usize, &[u8])> {
    let end = words
        .iter()
        .position(|byte| *byte == b' ')
        .unwrap_or(words.len());
    let number = str::from_utf8(words.get(..end)?).ok()?.parse().ok()?;
    Some((number, words.get(end..)?))
}

/// The line without its comment.
fn without_comment(line: &[u8]) -> &[u8] {
    match line.iter().position(|byte| *byte == b'#') {
        Some(end) => line.get(..end).unwrap_or(line).trim_ascii_end(),
        None => line,
    }
}

/// The base, the current object, the answer that is expected for it, and how many objects there were before.
#[derive(Drop)]
pub struct Table<W: Write + Drop> {
    alloc: Global,
    writer: W,
    base: Vec<u8>,
    object: Vec<u8>,
    wanted: Vec<u8>,
    number: u64,
    differing: u64,
}

impl<W: Write + Drop> Table<W> {
    /// An empty table that writes its answers to this writer.
    pub fn new(alloc: Global, writer: W) -> Table<W> {
        Table {
            alloc,
            writer,
            base: Vec::new(alloc),
            object: Vec::new(alloc),
            wanted: Vec::new(alloc),
            number: 0,
            differing: 0,
        }
    }

    /// Takes the next line.
    pub fn take(&mut self, line: &[u8]) -> io::Result<()> {
        match without_comment(line) {
            [b'=', b' ', wanted @ ..] => {
                self.judge()?;
                self.number = self.number.wrapping_add(1);
                self.wanted.extend_from_slice(wanted)?;
                self.object.extend_from_slice(&self.base)?;
            }
            [b':', words @ ..] => append_hex(&mut self.object, words)?,
            [b'*', b' ', words @ ..] => self.append_repeated(words)?,
            [b'@', b' ', words @ ..] => self.change(words)?,
            [b'c', b'u', b't', b' ', words @ ..] => {
                if let Some((count, _)) = split_number(words) {
                    self.object.truncate(count);
                }
            }
            [b'e', b'm', b'p', b't', b'y'] => self.object.clear(),
            [b'b', b'a', b's', b'e'] => self.set_base()?,
            _ => (),
        }
        Ok(())
    }

    /// Judges the last object and says how many differ.
    pub fn finish(mut self) -> io::Result<()> {
        self.judge()?;
        let number = self.number;
        let differing = self.differing;
        writeln!(self.writer, "{number} objects, {differing} differ")
    }

    /// Appends the bytes that the words spell, as often as their first word says.
    fn append_repeated(&mut self, words: &[u8]) -> Result<(), AllocError> {
        if let Some((count, words)) = split_number(words) {
            for _ in 0..count {
                append_hex(&mut self.object, words)?;
            }
        }
        Ok(())
    }

    /// Overwrites the bytes that the words name.
    fn change(&mut self, words: &[u8]) -> Result<(), AllocError> {
        if let Some((place, words)) = split_number(words) {
            let mut bytes = Vec::new(self.alloc);
            append_hex(&mut bytes, words)?;
            overwrite(&mut self.object, place, &bytes);
        }
        Ok(())
    }

    /// Makes the current object the base, and reports what becomes of its changes.
    fn set_base(&mut self) -> io::Result<()> {
        self.base.clear();
        self.base.extend_from_slice(&self.object)?;
        report_changes(self.alloc, &mut self.object, &mut self.writer)?;
        report_beginnings(self.alloc, &self.object, &mut self.writer)?;
        report_longer(self.alloc, &self.object, &mut self.writer)?;
        self.object.clear();
        Ok(())
    }

    /// Says whether the outcome of the current object, if there is one, is the expected one, and else what it is.
    fn judge(&mut self) -> io::Result<()> {
        if self.number == 0 {
            return Ok(());
        }
        let name = outcome_of(self.alloc, &self.object)?.name();
        let number = self.number;
        if self.wanted.as_slice() == name.as_bytes() {
            writeln!(self.writer, "{number} ok")?;
        } else {
            self.differing = self.differing.wrapping_add(1);
            writeln!(self.writer, "{number} DIFFERS: got {name}")?;
        }
        self.object.clear();
        self.wanted.clear();
        Ok(())
    }
}
