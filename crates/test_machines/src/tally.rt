//! How many answers there were, and which of them differ from the expected ones.

use std::alloc::{AllocError, Global};
use std::fmt;

/// A line of a script: an operation, and the expected answer.
#[derive(Clone, Copy)]
pub struct Line<'a> {
    pub file: &'a str,
    pub number: u64,
    pub operation: &'a str,
    pub answer: &'a str,
}

impl<'a> Line<'a> {
    pub fn of(file: &'a str, number: u64, text: &'a str) -> Line<'a> {
        let (operation, answer) = match text.split_once(" -> ") {
            Some(parts) => parts,
            None => (text, ""),
        };
        Line {
            file,
            number,
            operation,
            answer,
        }
    }
}

/// How many answers there were, and what is said of those that differ.
#[derive(Drop)]
pub struct Tally {
    pub alloc: Global,
    pub answers: u64,
    pub differing: u64,
    pub differences: String,
}

impl Tally {
    pub fn new(alloc: Global) -> Tally {
        Tally {
            alloc,
            answers: 0,
            differing: 0,
            differences: String::new(alloc),
        }
    }

    /// Counts an answer, and notes it where it is not the one that the line expects.
    pub fn take(&mut self, line: &Line<'_>, came: &str) -> Result<(), AllocError> {
        self.answers = self.answers.wrapping_add(1);
        if came == line.answer {
            return Ok(());
        }
        self.differing = self.differing.wrapping_add(1);
        let file = line.file;
        let number = line.number;
        let operation = line.operation;
        let wanted = line.answer;
        writeln!(self.differences, "{file}:{number}: {operation}")?;
        writeln!(self.differences, "  wanted: {wanted}")?;
        writeln!(self.differences, "  came: {came}")
    }
}

impl fmt::Display for Tally {
    fn fmt<W: fmt::Write>(&self, f: &mut fmt::Formatter<W>) -> fmt::Result {
        f.write_str(self.differences.as_str())?;
        let told = self.answers.wrapping_sub(self.differing);
        let differing = self.differing;
        write!(f, "{told} answers as told, {differing} differ")
    }
}
