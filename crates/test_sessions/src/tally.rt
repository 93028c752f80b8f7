//! How many sessions were played.

use std::fmt;

/// How many sessions there were, and how many of them did not go as they should.
#[derive(Drop)]
pub struct Tally {
    pub sessions: u64,
    pub differing: u64,
}

impl Tally {
    pub fn new() -> Tally {
        Tally {
            sessions: 0,
            differing: 0,
        }
    }

    /// Counts one session.
    pub fn add(&mut self, went_right: bool) {
        self.sessions = self.sessions.wrapping_add(1);
        if !went_right {
            self.differing = self.differing.wrapping_add(1);
        }
    }
}

impl fmt::Display for Tally {
    fn fmt<W: fmt::Write>(&self, f: &mut fmt::Formatter<W>) -> fmt::Result {
        let sessions = self.sessions;
        let differing = self.differing;
        write!(f, "{sessions} sessions, {differing} differ")
    }
}
