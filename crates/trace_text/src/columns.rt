//! What is said of an event besides what its token carries: where the token goes, what is done there, and what it did.

ghost use Rattle.std.specs.Prelude.{◌≡◌, ◌++◌};
ghost use Rattle.trace_text.specs.TraceText.{place_from, place_text, at_text, frame_text, name_text, port_text, deed_text};
ghost use Rattle.sink.specs.Sends.{Sends};

use disassembler::port_letter;
use itoa::Buffer;
use object_view::Object;
use replay::Deed;
use sink::send_all;
use std::io::{self, Write};
use tags::token::To;

/// The block of an instruction and its number in the block, and none where there is no such instruction.
fn place_of(object: &Object<'_>, ip: u32) -> Option<(u32, u32)>
    ensures { result ≡ place_from 0 object.now.code.program.blocks ip }
{
    let mut number = ip;
    for block in 0..object.block_count() {
        let Some(view) = object.block(block) else {
            unreachable!();
        };
        if number < view.instrs {
            return Some((block, number));
        }
        number -= view.instrs;
    }
    None
}

/// The place of an instruction, with what is before it.
fn send_place<W: Write>(writer: &mut W, before: &[u8], place: Option<(u32, u32)>) -> io::Result<()>
    ensures { Sends result (W.contents writer.old) (W.contents writer.new) (before.now ++ place_text place) }
{
    match place {
        None => send_all(writer, &[before, b"-"]),
        Some((block, number)) => {
            let mut first = Buffer::new();
            let mut second = Buffer::new();
            let block = first.format(block).as_bytes();
            let number = second.format(number).as_bytes();
            send_all(writer, &[before, block, b".", number])
        }
    }
}

/// Where a token goes, with what is before it.
pub(crate) fn send_at<W: Write>(
    writer: &mut W,
    before: &[u8],
    object: &Object<'_>,
    to: &To,
) -> io::Result<()>
    ensures { Sends result (W.contents writer.old) (W.contents writer.new) (before.now ++ at_text object.now.code.program to.now) }
{
    let mut digits = Buffer::new();
    match *to {
        To::Instr { ip, .. } => send_place(writer, before, place_of(object, ip)),
        To::Fetch { cell } | To::Store { cell, .. } => {
            send_all(writer, &[before, b"cell", digits.format(cell).as_bytes()])
        }
        To::Manager | To::Release { .. } => send_all(writer, &[before, b"manager"]),
        To::Host { port } => send_all(writer, &[before, b"host", digits.format(port).as_bytes()]),
    }
}

/// The frame that a token goes to, or that is handed back, `-` where there is none, with what is before it.
pub(crate) fn send_frame<W: Write>(writer: &mut W, before: &[u8], to: &To) -> io::Result<()>
    ensures { Sends result (W.contents writer.old) (W.contents writer.new) (before.now ++ frame_text to.now) }
{
    match *to {
        To::Instr { frame, .. } | To::Release { frame } => {
            let mut digits = Buffer::new();
            send_all(writer, &[before, digits.format(frame).as_bytes()])
        }
        _ => send_all(writer, &[before, b"-"]),
    }
}

/// The name of what is done where a token goes, `-` where there is no such instruction.
pub(crate) fn name_at(object: &Object<'_>, to: &To) -> &'static [u8]
    ensures { result.now ≡ name_text object.now.code.program to.now }
{
    match *to {
        To::Instr { ip, .. } => match object.instr(ip) {
            Some(instr) => instr.op.word(),
            None => b"-",
        },
        To::Fetch { .. } => b"read",
        To::Store { .. } => b"write",
        To::Manager => b"request",
        To::Release { .. } => b"release",
        To::Host { .. } => b"result",
    }
}

/// The letter of the port that a token goes to, `-` where it goes to no instruction.
pub(crate) fn port_at(to: &To) -> &'static [u8]
    ensures { result.now ≡ port_text to.now }
{
    match *to {
        To::Instr { port, .. } => port_letter(port),
        _ => b"-",
    }
}

/// The word of a deed.
pub(crate) fn deed_word(deed: Deed) -> &'static [u8]
    ensures { result.now ≡ deed_text deed }
{
    match deed {
        Deed::Waited => b"waited",
        Deed::Fired => b"fired",
        Deed::Answered => b"answered",
        Deed::Deferred => b"deferred",
        Deed::Stored => b"stored",
        Deed::Served => b"served",
        Deed::Given => b"given",
        Deed::Queued => b"queued",
        Deed::Freed => b"freed",
        Deed::HandedOn => b"handed",
        Deed::Arrived => b"arrived",
    }
}
