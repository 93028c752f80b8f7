//! Lists of lines.

use std::fmt;

/// How many lines a hint names.
const NAMED: usize = 8;

/// The numbers of some lines, from 1: the first ones, in order, and how many there are.
#[derive(Clone, Copy)]
pub struct LineList {
    first: [u64; NAMED],
    count: usize,
}

impl LineList {
    pub fn none() -> LineList {
        LineList {
            first: [0; NAMED],
            count: 0,
        }
    }

    /// Whether the line is one of those that are named.
    fn has(&self, line: u64) -> bool {
        self.first.iter().take(self.count).any(|own| *own == line)
    }

    /// Adds a line, which comes after the others, unless it is among them.
    pub fn add(&mut self, line: u64) {
        if self.has(line) {
            return;
        }
        if self.count < NAMED {
            self.first[self.count] = line;
        }
        self.count = self.count.saturating_add(1);
    }

    /// The line, where there is one alone.
    pub fn only(&self) -> Option<u64> {
        (self.count == 1).then_some(self.first[0])
    }

    /// Whether there are two or more.
    pub fn is_many(&self) -> bool {
        self.count > 1
    }

    /// What is before line number `at` of those that are named.
    fn before(&self, at: usize) -> &'static str {
        match at.saturating_add(1) {
            1 => "",
            place if place == self.count => " and ",
            _ => ", ",
        }
    }

    /// Shows the numbers as `4, 9 and 12`.
    pub fn show<W: fmt::Write>(&self, f: &mut fmt::Formatter<W>) -> fmt::Result {
        for (at, line) in self.first.iter().take(self.count).enumerate() {
            f.write_str(self.before(at))?;
            write!(f, "{line}")?;
        }
        match self.count.saturating_sub(NAMED) {
            0 => Ok(()),
            more => write!(f, " and {more} more"),
        }
    }

    /// Shows lines of loops as `the loop in line 4`, or `one or more of the loops in lines 4 and 9`.
    pub fn show_loops<W: fmt::Write>(&self, f: &mut fmt::Formatter<W>) -> fmt::Result {
        match self.count {
            0 => return f.write_str("a loop"),
            1 => f.write_str("the loop in line ")?,
            _ => f.write_str("one or more of the loops in lines ")?,
        }
        self.show(f)
    }
}
