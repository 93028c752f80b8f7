//! The lines of a listing, one after the other.

ghost use Rattle.std.specs.Prelude.{◌≡◌, Ok, MatchResult};
ghost use Rattle.assembler.specs.Causes.{fault_of};
ghost use Rattle.assembler.specs.Reading.{text_from};
ghost use Rattle.assembler.specs.Assembling.{IsFirstFault, line_at};
ghost use Rattle.graph_file.specs.Lines.{parts};

use crate::cause::AsmRefusal;
use crate::found::{Found, Part, Said};
use crate::words::Words;
use graph_file::Parts;
use std::alloc::Allocator;

/// The version and the code that a text says, or its first fault.
pub(crate) fn read_text<A: Allocator + Clone>(alloc: A, text: &[u8]) -> Result<Said<A>, AsmRefusal>
    ensures { MatchResult result (λ s. text_from text.now ≡ Ok (s.version, s.code)) (λ r. IsFirstFault (fault_of r) (text_from text.now)) }
{
    let mut state = match Found::nothing(alloc) {
        Ok(found) => (found, Part::Head),
        Err(cause) => return Err(AsmRefusal { cause, line: 0 }),
    };
    let mut lines = Parts::of(text, b'\n');
    let mut line = 0;
    while let Some((bytes, rest)) = lines.split_first() {
        let (found, part) = state;
        line += 1;
        state = match found.line(part, Words::of(bytes)) {
            Ok(next) => next,
            Err(cause) => return Err(AsmRefusal { cause, line }),
        };
        lines = rest;
    }
    let (found, part) = state;
    match found.end(part) {
        Ok(read) => Ok(read),
        Err(cause) => Err(AsmRefusal { cause, line }),
    }
}

/// The number of the line with words that has this index among them, from 1.
pub(crate) fn line_at(text: &[u8], index: u64) -> u64
    ensures { result ≡ line_at 0 index (parts 10 text.now) }
{
    let mut lines = Parts::of(text, b'\n');
    let mut left = index;
    let mut line = 0;
    while let Some((bytes, rest)) = lines.split_first() {
        line += 1;
        if Words::of(bytes).are_some() {
            if left == 0 {
                return line;
            }
            left -= 1;
        }
        lines = rest;
    }
    line
}
