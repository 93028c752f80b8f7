//! How much was looked at.

use std::fmt::{self, Display, Formatter, Write};

/// How much was looked at.
#[derive(Drop)]
pub struct Tally {
    /// Objects that were obtained again from each of their listings.
    pub objects: u64,
    /// Graphs that have no object.
    pub refused: u64,
    /// Graphs whose runs were looked at, with the events and waves of all of them.
    pub graphs: u64,
    pub events: u64,
    pub waves: u64,
}

impl Tally {
    pub fn new() -> Tally {
        Tally {
            objects: 0,
            refused: 0,
            graphs: 0,
            events: 0,
            waves: 0,
        }
    }
}

impl Display for Tally {
    fn fmt<W: Write>(&self, f: &mut Formatter<W>) -> fmt::Result {
        write!(
            f,
            "{} objects came back, {} graphs have none; runs of {} graphs: {} events, {} waves",
            self.objects, self.refused, self.graphs, self.events, self.waves
        )
    }
}
