//! Standard input: the text of a graph, and the integers after it.

ghost use Rattle.std.specs.Prelude.{◌≡◌, ◌++◌, ◌<◌, ◌≤◌, IfOk, IfSome, MatchResult, Ok, length};
ghost use Rattle.commands.specs.Input.{begins_main, graph_length, without_end, integers_of, IsBadInput};

use files::{Unread, read_bytes};
use graph_file::{Parts, literal};
use std::alloc::Allocator;
use std::io::Read;

/// Why there is no input.
#[derive(Debug, Drop)]
pub enum InputFault {
    /// A read failed, or the input is longer than the limit.
    Input,
    Memory,
}

/// Reads all bytes of the reader.
pub fn read_input<A: Allocator, R: Read>(alloc: A, reader: &mut R) -> Result<Vec<u8, A>, InputFault>
    ensures all { IfOk result (λ v. IfSome (R.remaining reader.old) (λ xs. v.items ≡ xs)) }
    ensures few { IfOk result (λ v. length v.items ≤ 67108864) }
{
    match read_bytes(alloc, reader) {
        Ok(bytes) => Ok(bytes),
        Err(Unread::Memory) => Err(InputFault::Memory),
        Err(_unread) => Err(InputFault::Input),
    }
}

#[tactic(auto, unfolding(crate::specs::Input::graph_bytes))]
/// Splits the input in two: the graph's text, up to the end of the first line that begins with `main `, and what follows it.
/// Where there is no such line, the whole input is the graph's text.
pub fn split_at_main(input: &[u8]) -> (&[u8], &[u8])
    ensures whole { result.0.now ++ result.1.now ≡ input.now }
    ensures end { length result.0.now ≡ graph_length input.now }
{
    let mut is_main = begins_main(input);
    for (i, byte) in input.iter().enumerate() {
        if *byte == b'\n' {
            if is_main {
                return input.split_at(i + 1);
            }
            is_main = begins_main(&input[i + 1..]);
        }
    }
    input.split_at(input.len())
}

/// Whether the bytes begin with `main `.
fn begins_main(bytes: &[u8]) -> bool
    ensures { result ≡ begins_main bytes.now }
{
    bytes.starts_with(b"main ")
}

/// Why the lines after the graph are not inputs.
#[derive(Debug, Drop)]
pub enum LinesFault {
    /// This line, counted from 1, is not an integer.
    BadLine(u64),
    Memory,
}

/// The lines without the line feed of the last one, where it has one.
fn without_end(lines: &[u8]) -> &[u8]
    requires { 0 < length lines.now }
    ensures { result.now ≡ without_end lines.now }
{
    let last = lines.len() - 1;
    if lines[last] == b'\n' {
        &lines[..last]
    } else {
        lines
    }
}

/// The integers of the lines, one on each line, each written like a literal of a graph's text. The last line may lack its line
/// feed.
pub fn parse_integers<A: Allocator>(alloc: A, lines: &[u8]) -> Result<Vec<i64, A>, LinesFault>
    ensures { MatchResult result (λ v. integers_of lines.now ≡ Ok v.items) (IsBadInput lines.now) }
{
    let mut integers = Vec::new(alloc);
    if lines.is_empty() {
        return Ok(integers);
    }
    let mut rest = Parts::of(without_end(lines), b'\n');
    while let Some((line, after)) = rest.split_first() {
        let Some(integer) = literal(line) else {
            return Err(LinesFault::BadLine(integers.len() as u64 + 1));
        };
        let Ok(()) = integers.push(integer) else {
            return Err(LinesFault::Memory);
        };
        rest = after;
    }
    Ok(integers)
}
