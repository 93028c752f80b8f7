//! The line of an instruction.

ghost use Rattle.std.specs.Prelude.{◌≡◌, ◌++◌, codes, decimal, option_map};
ghost use Rattle.sink.specs.Sends.{Sends};
ghost use Rattle.source_tokens.specs.Placing.{seen_at};
ghost use Rattle.map_text.specs.MapText as MapText;

use code_map::{Owner, Part};
use itoa::Buffer;
use sink::{send, send_all};
use source_tokens::Reached;
use std::io::{self, Write};

/// The instruction, by its code block and its number there, and the name of the graph's block.
fn send_head<W: Write>(writer: &mut W, code: u32, instr: usize, name: &[u8]) -> io::Result<()>
    ensures { Sends result (W.contents writer.old) (W.contents writer.new) (MapText.head_text code instr name.now) }
{
    let mut first = Buffer::new();
    let mut second = Buffer::new();
    send_all(
        writer,
        &[
            b"code ",
            first.format(code).as_bytes(),
            b".",
            second.format(instr).as_bytes(),
            b" for ",
            name,
        ],
    )
}

/// Whether the code is that of a loop's iteration.
fn send_turns<W: Write>(writer: &mut W, turns: bool) -> io::Result<()>
    ensures { Sends result (W.contents writer.old) (W.contents writer.new) (MapText.turns_text turns) }
{
    if turns {
        send(writer, b" iteration")
    } else {
        send(writer, b"")
    }
}

/// The part of the block.
fn send_part<W: Write>(writer: &mut W, part: Part) -> io::Result<()>
    ensures { Sends result (W.contents writer.old) (W.contents writer.new) (MapText.part_text part) }
{
    let mut digits = Buffer::new();
    match part {
        Part::Continuation => send(writer, b" continuation"),
        Part::Node { node } => send_all(writer, &[b" node ", digits.format(node).as_bytes()]),
        Part::Output { output } => {
            send_all(writer, &[b" output ", digits.format(output).as_bytes()])
        }
        Part::Turn => send(writer, b" turn"),
        Part::Joins { node } => send_all(writer, &[b" joins ", digits.format(node).as_bytes()]),
        Part::Release => send(writer, b" release"),
    }
}

/// The place in the program, if there is one, and the end of the line.
fn send_place<W: Write>(writer: &mut W, place: Option<Reached>) -> io::Result<()>
    ensures { Sends result (W.contents writer.old) (W.contents writer.new) (MapText.place_text (option_map seen_at place)) }
{
    match place {
        None => send(writer, b"\n"),
        Some(place) => {
            let mut first = Buffer::new();
            let mut second = Buffer::new();
            send_all(
                writer,
                &[
                    b" line ",
                    first.format(place.line).as_bytes(),
                    b" column ",
                    second.format(place.column).as_bytes(),
                    b"\n",
                ],
            )
        }
    }
}

/// The line of an instruction.
pub(crate) fn send_line<W: Write>(
    writer: &mut W,
    code: u32,
    instr: usize,
    name: &[u8],
    owner: Owner,
    place: Option<Reached>,
) -> io::Result<()>
    ensures { Sends result (W.contents writer.old) (W.contents writer.new) (MapText.line_text code instr name.now owner (option_map seen_at place)) }
{
    send_head(writer, code, instr, name)?;
    send_turns(writer, owner.turns)?;
    send_part(writer, owner.part)?;
    send_place(writer, place)
}
