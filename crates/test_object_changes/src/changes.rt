//! The base with one byte changed, with its end missing, and with more bytes after its end.

use crate::outcome::{FAULTS, Outcome, outcome_of};
use crate::runs::{ENDINGS, Ending, ending_of};
use object_view::{Object, ObjectFault};
use std::alloc::{AllocError, Allocator};
use std::io::{self, Write};

/// The outcome of each object, and the ending of each run.
#[derive(Drop)]
struct Counts<A: Allocator> {
    outcomes: Vec<Outcome, A>,
    endings: Vec<Ending, A>,
}

impl<A: Allocator + Clone> Counts<A> {
    fn new(alloc: A) -> Result<Counts<A>, AllocError> {
        Ok(Counts {
            outcomes: Vec::new(alloc.clone()?),
            endings: Vec::new(alloc),
        })
    }

    /// Records the outcome of these bytes and, if they are an object, the ending of its run.
    fn enter(&mut self, alloc: A, bytes: &[u8]) -> io::Result<()> {
        self.outcomes.push(outcome_of(alloc.clone()?, bytes)?)?;
        if let Ok(object) = Object::open(bytes) {
            self.endings.push(ending_of(alloc, object)?)?;
        }
        Ok(())
    }
}

/// How often `wanted` is in the list.
fn count<T: PartialEq>(listed: &[T], wanted: &T) -> u64 {
    let mut count = 0u64;
    for one in listed {
        if one == wanted {
            count = count.wrapping_add(1);
        }
    }
    count
}

/// Records each object that differs from this one in one byte. Afterwards the object is as it was.
fn change_each<A: Allocator + Clone>(
    alloc: A,
    object: &mut [u8],
    counts: &mut Counts<A>,
) -> io::Result<()> {
    for place in 0..object.len() {
        let before = object[place];
        for byte in 0..=255u8 {
            if byte != before {
                object[place] = byte;
                counts.enter(alloc.clone()?, object)?;
            }
        }
        object[place] = before;
    }
    Ok(())
}

/// Says how many of the objects that differ from this one in one byte had each outcome, and how many of their runs had each
/// ending.
pub fn report_changes<A: Allocator + Clone, W: Write>(
    alloc: A,
    object: &mut [u8],
    writer: &mut W,
) -> io::Result<()> {
    let mut counts = Counts::new(alloc.clone()?)?;
    change_each(alloc, object, &mut counts)?;
    let all = counts.outcomes.len();
    let same = count(&counts.outcomes, &Outcome::Same);
    let other = count(&counts.outcomes, &Outcome::Other);
    writeln!(writer, "{all} objects with one byte changed")?;
    writeln!(writer, "{same} come back the same")?;
    writeln!(writer, "{other} come back with other bytes")?;
    for fault in FAULTS {
        let outcome = Outcome::Refused(fault);
        let refused = count(&counts.outcomes, &outcome);
        let name = outcome.name();
        writeln!(writer, "{refused} are refused: {name}")?;
    }
    let runs = counts.endings.len();
    writeln!(writer, "{runs} are run")?;
    for ending in ENDINGS {
        let ended = count(&counts.endings, &ending);
        let name = ending.name();
        writeln!(writer, "{ended} {name}")?;
    }
    Ok(())
}

/// Says how many beginnings of the object are refused as they should be.
pub fn report_beginnings<A: Allocator + Clone, W: Write>(
    alloc: A,
    object: &[u8],
    writer: &mut W,
) -> io::Result<()> {
    let all = object.len();
    let mut truncated = 0u64;
    for count in 0..all {
        let outcome = outcome_of(alloc.clone()?, &object[..count])?;
        if outcome == Outcome::Refused(ObjectFault::Truncated) {
            truncated = truncated.wrapping_add(1);
        }
    }
    writeln!(
        writer,
        "{truncated} of {all} beginnings are refused: Truncated"
    )
}

/// Says what becomes of the object with eight bytes after its end.
pub fn report_longer<A: Allocator + Clone, W: Write>(
    alloc: A,
    object: &[u8],
    writer: &mut W,
) -> io::Result<()> {
    let mut longer = Vec::from_slice(alloc.clone()?, object)?;
    longer.extend_from_slice(&[0; 8])?;
    let name = outcome_of(alloc, &longer)?.name();
    writeln!(writer, "with eight bytes behind it: {name}")
}
