//! Faults of a program in other functions than the one that has its first fault.

use lowered_text::fault::LowerFault;
use lowered_text::programs::read_good;
use source_tokens::{ProgramRefusal, split};
use std::alloc::{AllocError, Allocator};
use std::fmt::{self, Display};

/// How many functions are named, beside the first.
const NAMED: usize = 7;

/// The lines and the columns of the first faults of other functions, in the order of the text.
#[derive(Clone, Copy)]
pub struct MoreFaults {
    places: [(usize, usize); NAMED],
    count: usize,
}

impl MoreFaults {
    pub fn none() -> MoreFaults {
        MoreFaults {
            places: [(0, 0); NAMED],
            count: 0,
        }
    }
}

/// Shows the places, after the cause of the first fault.
impl Display for MoreFaults {
    fn fmt<W: fmt::Write>(&self, f: &mut fmt::Formatter<W>) -> fmt::Result {
        match self.count {
            0 => return Ok(()),
            1 => f.write_str("; another function has a fault, too: at")?,
            _ => f.write_str("; other functions have faults, too: at")?,
        }
        for (number, (line, column)) in self.places.iter().take(self.count).enumerate() {
            f.write_str(if number == 0 { "" } else { ", at" })?;
            write!(f, " line {line} column {column}")?;
        }
        Ok(())
    }
}

/// What is read of a program's text, byte by byte, to find the bodies of its functions.
#[derive(Clone, Copy)]
struct Scan {
    /// How many `{` are open.
    depth: usize,
    /// Whether a comment goes on to the end of the line.
    in_comment: bool,
    before: u8,
    /// Where the body begins that was met last: after its `{`.
    body: usize,
    /// The number of results that the header has since its last `)`.
    results: usize,
}

/// The body of a function: where its text begins and ends, between the brackets, and how many results it has.
#[derive(Clone, Copy)]
struct Body {
    from: usize,
    to: usize,
    results: usize,
}

impl Body {
    fn has(&self, place: usize) -> bool {
        self.from <= place && place <= self.to
    }
}

impl Scan {
    fn new() -> Scan {
        Scan {
            depth: 0,
            in_comment: false,
            before: b' ',
            body: 0,
            results: 1,
        }
    }

    /// Takes a byte outside bodies.
    fn take_header(&mut self, byte: u8) {
        match byte {
            b'>' if self.before == b'-' => self.results = 0,
            b'0'..=b'9' => {
                let digit = usize::from(byte.wrapping_sub(b'0'));
                self.results = self.results.saturating_mul(10).saturating_add(digit);
            }
            b')' => self.results = 1,
            _ => (),
        }
    }

    /// Takes the byte at this place. Gives the body that it ends, if it ends one.
    fn take(&mut self, at: usize, byte: u8) -> Option<Body> {
        let mut ended = None;
        match byte {
            b'\n' => self.in_comment = false,
            _ if self.in_comment => (),
            b'/' if self.before == b'/' => self.in_comment = true,
            b'{' => {
                if self.depth == 0 {
                    self.body = at.saturating_add(1);
                }
                self.depth = self.depth.saturating_add(1);
            }
            b'}' => {
                if self.depth == 1 {
                    ended = Some(Body {
                        from: self.body,
                        to: at,
                        results: self.results,
                    });
                }
                self.depth = self.depth.saturating_sub(1);
            }
            _ if self.depth == 0 => self.take_header(byte),
            _ => (),
        }
        self.before = byte;
        ended
    }
}

/// The body of the function that has this place.
fn body_at(text: &[u8], place: usize) -> Option<Body> {
    let mut scan = Scan::new();
    for (at, byte) in text.iter().enumerate() {
        if let Some(body) = scan.take(at, *byte) {
            if body.has(place) {
                return Some(body);
            }
        }
    }
    None
}

/// The bytes of a body that has as many values as results, and no fault: `0`, `,` and spaces.
fn plain_byte(number: usize, results: usize) -> u8 {
    if results.saturating_mul(2) <= number.saturating_add(1) {
        return b' ';
    }
    if number % 2 == 0 { b'0' } else { b',' }
}

/// Puts values in place of the body, in the same lines.
fn blank(text: &mut [u8], body: Body) {
    let mut number = 0usize;
    for (at, byte) in text.iter_mut().enumerate() {
        if body.from <= at && at < body.to && *byte != b'\n' {
            *byte = plain_byte(number, body.results);
            number = number.saturating_add(1);
        }
    }
}

/// The first faults of other functions than the one that has the first fault of the text's program: each function that has one gets another body, and the
/// program is read again.
pub fn more_faults<A: Allocator + Clone>(
    alloc: &A,
    text: &[u8],
    first: ProgramRefusal,
) -> Result<MoreFaults, AllocError> {
    let mut more = MoreFaults::none();
    let mut own = Vec::from_slice(alloc.clone()?, split(text).program)?;
    let mut place = first.at;
    for number in 0..NAMED {
        let Some(body) = body_at(&own, place) else {
            return Ok(more);
        };
        blank(&mut own, body);
        let refusal = match read_good(alloc, &own) {
            Ok(_good) => return Ok(more),
            Err(LowerFault::Memory) => return Err(AllocError),
            Err(LowerFault::Program(refusal)) => refusal,
        };
        place = refusal.at;
        if body.has(place) {
            return Ok(more);
        }
        more.places[number] = (refusal.fault.line, refusal.fault.column);
        more.count = number.saturating_add(1);
    }
    Ok(more)
}
