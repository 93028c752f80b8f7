//! A writer that fails.

use std::alloc::Global;
use std::io::{self, ErrorKind, Write};

/// The way in which a writer fails.
#[derive(Clone, Copy, Debug, PartialEq, Eq)]
pub enum Failure {
    /// With an error.
    Broken,
    /// With the error that a call was interrupted.
    Interrupted,
    /// By taking no byte.
    TakesNone,
}

/// All the ways, each with the number of bytes that the writer takes for each call.
pub const WRITERS: [(Failure, usize); 4] = [
    (Failure::Broken, 1),
    (Failure::Interrupted, 1),
    (Failure::TakesNone, 1),
    (Failure::Broken, 5),
];

/// Takes at most `chunk` bytes for each call, and fails once `room` bytes are taken.
#[derive(Drop)]
pub struct Taker {
    pub taken: Vec<u8>,
    pub chunk: usize,
    pub room: usize,
    pub failure: Failure,
}

impl Taker {
    pub fn new(alloc: Global, chunk: usize, room: usize, failure: Failure) -> Taker {
        Taker {
            taken: Vec::new(alloc),
            chunk,
            room,
            failure,
        }
    }
}

impl Write for Taker {
    fn write(&mut self, bytes: &[u8]) -> io::Result<usize> {
        let count = self.chunk.min(bytes.len()).min(self.room);
        if count == 0 {
            return match self.failure {
                Failure::Broken => Err(io::Error::from(ErrorKind::BrokenPipe)),
                Failure::Interrupted => Err(io::Error::from(ErrorKind::Interrupted)),
                Failure::TakesNone => Ok(0),
            };
        }
        let (front, _rest) = bytes.split_at(count);
        self.taken.extend_from_slice(front)?;
        self.room -= count;
        Ok(count)
    }

    fn flush(&mut self) -> io::Result<()> {
        Ok(())
    }
}
