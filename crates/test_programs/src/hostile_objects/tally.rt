//! What is printed of all objects and their runs.

use object_view::ObjectFault;
use semantics::report::End;
use std::io::{self, Write};

/// The names of refusals, in the order in which they are counted.
const FAULTS: [&str; 9] = [
    "Truncated",
    "BadMagic",
    "BadVersion",
    "BadTable",
    "BadOpcode",
    "BadDestination",
    "BadSlot",
    "BadLiteral",
    "Trailing",
];

/// The names of ends, in the order in which they are counted.
const ENDS: [&str; 11] = [
    "Rest", "Starved", "Clash", "Steps", "Stuck 1", "Stuck 2", "Stuck 3", "Stuck 4", "Stuck 5",
    "Stuck 6", "Memory",
];

fn place_of_fault(fault: ObjectFault) -> usize {
    match fault {
        ObjectFault::Truncated => 0,
        ObjectFault::BadMagic => 1,
        ObjectFault::BadVersion => 2,
        ObjectFault::BadTable => 3,
        ObjectFault::BadOpcode => 4,
        ObjectFault::BadDestination => 5,
        ObjectFault::BadSlot => 6,
        ObjectFault::BadLiteral => 7,
        ObjectFault::Trailing => 8,
    }
}

fn place_of_end(end: End) -> usize {
    match end {
        End::Rest => 0,
        End::Starved => 1,
        End::Clash { .. } => 2,
        End::Steps => 3,
        End::Stuck { rule } => 3usize.wrapping_add(rule as usize),
        End::Memory | End::Stop => 10,
    }
}

fn count_at(counts: &mut [u64], place: usize) {
    if let Some(count) = counts.get_mut(place) {
        *count = count.wrapping_add(1);
    }
}

/// How many objects there were, how many of them were refused, and how the runs of the others ended.
#[derive(Drop)]
pub struct Tally {
    objects: u64,
    opened: u64,
    faults: [u64; 9],
    ends: [u64; 11],
}

impl Tally {
    pub fn new() -> Tally {
        Tally {
            objects: 0,
            opened: 0,
            faults: [0; 9],
            ends: [0; 11],
        }
    }

    /// Counts an object that is refused.
    pub fn count_refused(&mut self, fault: ObjectFault) {
        self.objects = self.objects.wrapping_add(1);
        count_at(&mut self.faults, place_of_fault(fault));
    }

    /// Counts an object that is not refused.
    pub fn count_opened(&mut self) {
        self.objects = self.objects.wrapping_add(1);
        self.opened = self.opened.wrapping_add(1);
    }

    /// Counts the end of a run in which the elements took turns.
    pub fn count_end(&mut self, end: End) {
        count_at(&mut self.ends, place_of_end(end));
    }

    /// Prints the numbers.
    pub fn print<W: Write>(&self, out: &mut W, name: &str) -> io::Result<()> {
        let objects = self.objects;
        let opened = self.opened;
        writeln!(out, "{name}: {objects} objects, {opened} run")?;
        write!(out, "{name}: refused:")?;
        print_counts(out, &self.faults, &FAULTS)?;
        write!(out, "{name}: ends:")?;
        print_counts(out, &self.ends, &ENDS)
    }
}

fn print_counts<W: Write>(out: &mut W, counts: &[u64], names: &[&str]) -> io::Result<()> {
    for (count, name) in counts.iter().zip(names) {
        write!(out, " {count} {name}")?;
    }
    writeln!(out)
}
