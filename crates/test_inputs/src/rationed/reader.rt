//! A reader that fails.

use std::io::{self, ErrorKind, Read};

/// Gives at most `chunk` bytes for each call, and fails once its calls are used up.
#[derive(Drop)]
pub struct Feeder<'a> {
    pub rest: &'a [u8],
    pub chunk: usize,
    pub calls: u64,
}

impl Read for Feeder<'_> {
    fn read(&mut self, buffer: &mut [u8]) -> io::Result<usize> {
        if self.calls == 0 {
            return Err(io::Error::from(ErrorKind::BrokenPipe));
        }
        self.calls -= 1;
        let count = self.chunk.min(self.rest.len()).min(buffer.len());
        let (front, rest) = self.rest.split_at(count);
        if let Some(place) = buffer.get_mut(..count) {
            place.copy_from_slice(front);
        }
        self.rest = rest;
        Ok(count)
    }
}
