//! The map of a graph's nodes to places in the program.

ghost use Rattle.std.specs.Prelude.{◌≡◌};
ghost use Rattle.sink.specs.Numbered.{numbered};
ghost use Rattle.sink.specs.Sends.{Sends};
ghost use Rattle.source_tokens.specs.Placing.{IsReached, seen_at};
ghost use Rattle.lowered_text.specs.Texts.{node_line, block_lines};

use itoa::Buffer;
use lowering::Places;
use sink::send_all;
use source_tokens::{Reached, first_place, reach};
use std::alloc::Allocator;
use std::io::{self, Write};

/// The line of a node that is made for the token at this place.
fn send_node<W: Write>(writer: &mut W, block: usize, node: u64, place: Reached) -> io::Result<()>
    ensures { Sends result (W.contents writer.old) (W.contents writer.new) (node_line block node (seen_at place)) }
{
    let mut first = Buffer::new();
    let mut second = Buffer::new();
    let mut third = Buffer::new();
    let mut fourth = Buffer::new();
    send_all(
        writer,
        &[
            b"at ",
            first.format(block).as_bytes(),
            b" ",
            second.format(node).as_bytes(),
            b" line ",
            third.format(place.line).as_bytes(),
            b" column ",
            fourth.format(place.column).as_bytes(),
            b"\n",
        ],
    )
}

/// The lines of a block. Each node is made for a token near that of the node before, so its place is looked for from there.
fn send_block<A: Allocator, W: Write>(
    writer: &mut W,
    program: &[u8],
    block: usize,
    places: &Places<A>,
    last: &mut Reached,
) -> io::Result<()>
    requires { IsReached program.now last.old }
    ensures lines { Sends result (W.contents writer.old) (W.contents writer.new) (block_lines program.now block places.now) }
    ensures reached { IsReached program.now last.new }
{
    for (line, at) in places.nodes.iter().enumerate() {
        let node = u64::from(places.inputs) + line as u64;
        let place = reach(program, *last, *at);
        *last = place;
        send_node(writer, block, node, place)?;
    }
    Ok(())
}

/// The lines of all blocks.
pub(crate) fn send_map<A: Allocator, W: Write>(
    writer: &mut W,
    program: &[u8],
    places: &[Places<A>],
) -> io::Result<()>
    ensures { Sends result (W.contents writer.old) (W.contents writer.new) (numbered (block_lines program.now) 0 places.now) }
{
    let mut last = first_place();
    for (block, places) in places.iter().enumerate() {
        send_block(writer, program, block, places, &mut last)?;
    }
    Ok(())
}
