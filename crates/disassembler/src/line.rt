//! The line of an instruction.

ghost use Rattle.std.specs.Prelude.{◌≡◌, ◌++◌, ◌∷◌, [], ℕ, option_to_list, decimal, length};
ghost use Rattle.semantics.specs.Program.{Instr};
ghost use Rattle.semantics.specs.Text.{field};
ghost use Rattle.semantics.specs.Rule.{slot_of};
ghost use Rattle.semantics.specs.Opcodes.{op_word};
ghost use Rattle.disassembler.specs.Listing.{right_in, left_in, slot_text, dest_text, port_letter, operand_text, origin_text, instr_line};
ghost use Rattle.object_view.specs.Reading.{shown};
ghost use Rattle.sink.specs.Sends.{Sends};

use crate::column::gap;
use itoa::Buffer;
use object_view::CodeInstr;
use semantics::program::{Dest, Op};
use sink::{send, send_all};
use std::io::{self, Write};
use tags::token::Port;
use tags::value::Origin;

/// The number of an instruction in its block, in its column.
fn list_number<W: Write>(writer: &mut W, number: u32) -> io::Result<()>
    ensures { Sends result (W.contents writer.old) (W.contents writer.new) (right_in 5 (decimal number)) }
{
    let mut digits = Buffer::new();
    let digits = digits.format(number).as_bytes();
    send_all(writer, &[gap(5, digits.len()), digits])
}

/// The name of an operation, in its column.
fn list_name<W: Write>(writer: &mut W, op: Op) -> io::Result<()>
    ensures { Sends result (W.contents writer.old) (W.contents writer.new) (field (left_in 8 (op_word op))) }
{
    let name = op.word();
    send_all(writer, &[b" ", name, gap(8, name.len())])
}

/// The slot of an instruction, in its column.
fn list_slot<W: Write>(writer: &mut W, instr: &CodeInstr) -> io::Result<()>
    ensures { Sends result (W.contents writer.old) (W.contents writer.new) (field (right_in 4 (slot_text (slot_of (shown instr.now) instr.now.op)))) }
{
    match instr.op.slot_in(instr.slot) {
        None => send(writer, b"    -"),
        Some(slot) => {
            let mut digits = Buffer::new();
            let digits = digits.format(slot).as_bytes();
            send_all(writer, &[b" ", gap(4, digits.len()), digits])
        }
    }
}

/// The letter of a port.
pub fn port_letter(port: Port) -> &'static [u8]
    ensures result { result.now ≡ port_letter port }
    ensures one { length result.now ≡ 1 }
{
    match port {
        Port::Left => b"l",
        Port::Right => b"r",
    }
}

/// A destination, in its column.
fn list_dest<W: Write>(writer: &mut W, dest: Option<Dest>) -> io::Result<()>
    ensures { Sends result (W.contents writer.old) (W.contents writer.new) (field (right_in 7 (dest_text (option_to_list dest)))) }
{
    match dest {
        None => send(writer, b"       -"),
        Some(dest) => {
            let mut digits = Buffer::new();
            let digits = digits.format(dest.ahead).as_bytes();
            let letter = port_letter(dest.port);
            send_all(
                writer,
                &[b" ", gap(7, digits.len() + 2), b"+", digits, letter],
            )
        }
    }
}

/// An operand, with the space before it.
pub fn list_operand<W: Write>(writer: &mut W, op: Op) -> io::Result<()>
    ensures { Sends result (W.contents writer.old) (W.contents writer.new) (field (operand_text op)) }
{
    let mut number = Buffer::new();
    let mut entry = Buffer::new();
    match op {
        Op::Apply2Right { literal, .. } => {
            send_all(writer, &[b" r#", number.format(literal).as_bytes()])
        }
        Op::Apply2Left { literal, .. } => {
            send_all(writer, &[b" l#", number.format(literal).as_bytes()])
        }
        Op::Lit { literal } => send_all(writer, &[b" #", number.format(literal).as_bytes()]),
        Op::Fetch { array } | Op::Store { array } => {
            send_all(writer, &[b" a", number.format(array).as_bytes()])
        }
        Op::Link { block } => send_all(writer, &[b" b", number.format(block).as_bytes()]),
        Op::Send { block, entry: to } => send_all(
            writer,
            &[
                b" b",
                number.format(block).as_bytes(),
                b".",
                entry.format(to).as_bytes(),
            ],
        ),
        Op::Return { offset } | Op::Ask { offset } | Op::Release { offset } => {
            send_all(writer, &[b" o", number.format(offset).as_bytes()])
        }
        Op::Open { bound } | Op::Take { bound } | Op::Give { bound } | Op::Drain { bound } => {
            send_all(writer, &[b" k", number.format(bound).as_bytes()])
        }
        _ => send(writer, b" -"),
    }
}

/// An origin, if it is reported.
fn list_origin<W: Write>(writer: &mut W, origin: Origin) -> io::Result<()>
    ensures { Sends result (W.contents writer.old) (W.contents writer.new) (origin_text origin) }
{
    match origin {
        Origin::Untold => send(writer, b""),
        Origin::At { block, node } => {
            let mut b = Buffer::new();
            let mut n = Buffer::new();
            let b = b.format(block).as_bytes();
            let n = n.format(node.get()).as_bytes();
            send_all(writer, &[b" @", b, b".", n])
        }
    }
}

/// The line of an instruction that has this number in its block.
pub(crate) fn list_instr<W: Write>(writer: &mut W, number: u32, instr: &CodeInstr) -> io::Result<()>
    ensures { Sends result (W.contents writer.old) (W.contents writer.new) (instr_line number (shown instr.now)) }
{
    list_number(writer, number)?;
    list_name(writer, instr.op)?;
    list_slot(writer, instr)?;
    list_dest(writer, instr.first)?;
    list_dest(writer, instr.second)?;
    list_operand(writer, instr.op)?;
    list_origin(writer, instr.origin)?;
    send(writer, b"\n")
}
