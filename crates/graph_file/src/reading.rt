//! Texts as graphs.

ghost use Rattle.std.specs.Prelude.{◌≡◌, ◌+◌, ◌<◌, ◌^◌, ℕ, List, length, Ok, IfOk, MatchResult};
ghost use Rattle.semantics.specs.Graph.{Graph as Spelled};
ghost use Rattle.semantics.specs.Text.{IsText};
ghost use Rattle.graph_file.specs.declared.fault.ReadFaultKind.TheVariants.{Memory};
ghost use Rattle.graph_file.specs.Causes.{fault_kind, fault_of};
ghost use Rattle.graph_file.specs.Reading.{body_from, text_from, IsFirstFault};

use crate::cause::{ReadCause, ReadRefusal};
use crate::fault::ReadFault;
use crate::lines::{Found, Place};
use crate::parts::Parts;
use crate::whole::Whole;
use graph::Graph;
use semantics::version::Version;
use std::alloc::Allocator;

/// What the lines after the header say.
fn read_body<'a, A: Allocator + Clone>(
    alloc: A,
    version: Version,
    body: &'a [u8],
) -> Result<Whole<'a, A>, ReadRefusal>
    requires { length body.now + 11 < 2 ^ 64 }
    ensures { MatchResult result (λ g. body_from version body.now ≡ Ok g) (λ r. IsFirstFault (fault_of r) (body_from version body.now)) }
{
    let found = match Found::new(alloc, version) {
        Ok(found) => found,
        Err(cause) => return Err(in_header(cause)),
    };
    let mut state = (found, Place::Arrays);
    let mut lines = Parts::of(body, b'\n');
    let mut line = 2;
    while let Some((text, rest)) = lines.split_first() {
        let (found, place) = state;
        let head = place.head(line);
        if rest.has(0) {
            return match found.end(place, text) {
                Ok(whole) => Ok(whole),
                Err(cause) => Err(ReadRefusal { cause, line, head }),
            };
        }
        state = match found.line(place, text) {
            Ok(next) => next,
            Err(cause) => return Err(ReadRefusal { cause, line, head }),
        };
        lines = rest;
        line += 1;
    }
    Err(ReadRefusal {
        cause: ReadCause::NoMain,
        line,
        head: None,
    })
}

/// A refusal at the first line.
fn in_header(cause: ReadCause) -> ReadRefusal
    ensures { fault_of result ≡ record { kind = fault_kind cause; line = 1 } }
{
    ReadRefusal {
        cause,
        line: 1,
        head: None,
    }
}

/// The graph that the text says. The fault is the first one: lines count in order, and in a line its form and the number
/// of its fields, then the limits on arrays, blocks, nodes and sources, then its fields from left to right. `Memory` is
/// returned only where a growth was refused.
pub fn read<'a, A: Allocator + Clone>(alloc: A, text: &'a [u8]) -> Result<Graph<'a, A>, ReadFault>
    // What is read is spelled so.
    ensures found { IfOk result (λ g. IsText text.now g) }
    // What is spelled so is read, unless memory runs out.
    ensures only { (g : Spelled) → IsText text.now g → MatchResult result (λ h. h ≡ g) (λ e. e.kind ≡ Memory) }
    // Which fault it is.
    ensures exact { MatchResult result (λ g. text_from text.now ≡ Ok g) (λ e. IsFirstFault e (text_from text.now)) }
{
    match read_graph(alloc, text) {
        Ok(graph) => Ok(graph),
        Err(refusal) => Err(refusal.fault()),
    }
}

/// The graph that the text says, or why it says none: what `read` returns, with what was known where the fault was found.
pub fn read_graph<'a, A: Allocator + Clone>(
    alloc: A,
    text: &'a [u8],
) -> Result<Graph<'a, A>, ReadRefusal>
    ensures found { IfOk result (λ g. IsText text.now g) }
    ensures only { (g : Spelled) → IsText text.now g → MatchResult result (λ h. h ≡ g) (λ r. fault_kind r.cause ≡ Memory) }
    ensures exact { MatchResult result (λ g. text_from text.now ≡ Ok g) (λ r. IsFirstFault (fault_of r) (text_from text.now)) }
{
    match read_text(alloc, text) {
        Ok(whole) => Ok(whole.graph()),
        Err(refusal) => Err(refusal),
    }
}

#[tactic(auto, unfolding(crate::specs::Reading::text_from))]
fn read_text<'a, A: Allocator + Clone>(
    alloc: A,
    text: &'a [u8],
) -> Result<Whole<'a, A>, ReadRefusal>
    ensures { MatchResult result (λ g. text_from text.now ≡ Ok g) (λ r. IsFirstFault (fault_of r) (text_from text.now)) }
{
    if let Some(body) = text.strip_prefix(b"etsgraph 1\n".as_slice()) {
        read_body(alloc, Version::One, body)
    } else if let Some(body) = text.strip_prefix(b"etsgraph 2\n".as_slice()) {
        read_body(alloc, Version::Two, body)
    } else {
        Err(in_header(ReadCause::NoHeader))
    }
}
