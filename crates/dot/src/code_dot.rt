//! The picture of an object's code.

ghost use Rattle.std.specs.Prelude.{◌≡◌, ◌+◌, ◌++◌, ◌∷◌, [], ℕ, codes, decimal, option_to_list};
ghost use Rattle.semantics.specs.Program.{CodeBlock};
ghost use Rattle.semantics.specs.Text.{field};
ghost use Rattle.object_view.specs.Reading.{shown};
ghost use Rattle.disassembler.specs.Listing.{operand_text};
ghost use Rattle.semantics.specs.Opcodes.{op_word};
ghost use Rattle.disassembler.specs.Places.{IsBlockAt};
ghost use Rattle.sink.specs.Numbered.{numbered};
ghost use Rattle.sink.specs.Sends.{Sends};
ghost use Rattle.dot.specs.CodeDot.{instr_box, arc_to, arc, entry_arc, far_arc, instr_dot, code_head, code_block_dot, picture_head, code_dot};

use disassembler::{instr_in, list_operand, port_letter};
use itoa::Buffer;
use object_view::{BlockView, CodeInstr, Object};
use semantics::program::{Dest, Op};
use sink::{send, send_all};
use std::io::{self, Write};
use tags::token::Port;

/// What the box of an instruction begins with.
fn open_box<W: Write>(writer: &mut W, place: u32, number: u32, op: Op) -> io::Result<()>
    ensures { Sends result (W.contents writer.old) (W.contents writer.new) (codes "b" ++ decimal place ++ codes "i" ++ decimal number
        ++ codes " [label=\"" ++ decimal number ++ field (op_word op)) }
{
    let mut block = Buffer::new();
    let mut instr = Buffer::new();
    let block = block.format(place).as_bytes();
    let instr = instr.format(number).as_bytes();
    send_all(
        writer,
        &[
            b"b",
            block,
            b"i",
            instr,
            b" [label=\"",
            instr,
            b" ",
            op.word(),
        ],
    )
}

/// The box of an instruction.
fn send_box<W: Write>(writer: &mut W, place: u32, number: u32, op: Op) -> io::Result<()>
    ensures { Sends result (W.contents writer.old) (W.contents writer.new) (instr_box place number op) }
{
    open_box(writer, place, number, op)?;
    list_operand(writer, op)?;
    send(writer, b"\"]\n")
}

/// The arc to an instruction of the same block.
fn send_arc_to<W: Write>(
    writer: &mut W,
    place: u32,
    number: u32,
    which: u32,
    to: u64,
    port: Port,
) -> io::Result<()>
    ensures { Sends result (W.contents writer.old) (W.contents writer.new) (arc_to place number which to port) }
{
    let mut block = Buffer::new();
    let mut from = Buffer::new();
    let mut target = Buffer::new();
    let mut tail = Buffer::new();
    let block = block.format(place).as_bytes();
    let from = from.format(number).as_bytes();
    let target = target.format(to).as_bytes();
    let tail = tail.format(which).as_bytes();
    let head = port_letter(port);
    send_all(
        writer,
        &[
            b"b",
            block,
            b"i",
            from,
            b" -> b",
            block,
            b"i",
            target,
            b" [taillabel=\"",
            tail,
            b"\" headlabel=\"",
            head,
            b"\"]\n",
        ],
    )
}

/// The arc to a destination, if there is one.
fn send_arc<W: Write>(
    writer: &mut W,
    place: u32,
    number: u32,
    which: u32,
    dest: Option<Dest>,
) -> io::Result<()>
    ensures { Sends result (W.contents writer.old) (W.contents writer.new) (arc place number which (option_to_list dest)) }
{
    match dest {
        Some(dest) => {
            let to = u64::from(number) + u64::from(dest.ahead);
            send_arc_to(writer, place, number, which, to, dest.port)
        }
        None => Ok(()),
    }
}

/// The arc to an entry of a block.
fn send_entry_arc<W: Write>(
    writer: &mut W,
    place: u32,
    number: u32,
    block: u16,
    entry: u16,
) -> io::Result<()>
    ensures { Sends result (W.contents writer.old) (W.contents writer.new) (entry_arc place number block entry) }
{
    let mut from = Buffer::new();
    let mut instr = Buffer::new();
    let mut to = Buffer::new();
    let mut at = Buffer::new();
    let from = from.format(place).as_bytes();
    let instr = instr.format(number).as_bytes();
    let to = to.format(block).as_bytes();
    let at = at.format(entry).as_bytes();
    send_all(
        writer,
        &[
            b"b",
            from,
            b"i",
            instr,
            b" -> b",
            to,
            b"i",
            at,
            b" [style=dotted]\n",
        ],
    )
}

/// The arc to an entry of another block, if there is one.
fn send_far_arc<W: Write>(writer: &mut W, place: u32, number: u32, op: Op) -> io::Result<()>
    ensures { Sends result (W.contents writer.old) (W.contents writer.new) (far_arc place number op) }
{
    match op {
        Op::Link { block } => send_entry_arc(writer, place, number, block, 0),
        Op::Send { block, entry } => send_entry_arc(writer, place, number, block, entry),
        _ => Ok(()),
    }
}

/// The arcs of an instruction to others of its block.
fn send_arcs<W: Write>(writer: &mut W, place: u32, number: u32, instr: &CodeInstr) -> io::Result<()>
    ensures { Sends result (W.contents writer.old) (W.contents writer.new) (arc place number 1 (option_to_list instr.now.first)
        ++ arc place number 2 (option_to_list instr.now.second)) }
{
    send_arc(writer, place, number, 1, instr.first)?;
    send_arc(writer, place, number, 2, instr.second)
}

/// An instruction with its arcs.
fn send_instr<W: Write>(
    writer: &mut W,
    place: u32,
    number: u32,
    instr: &CodeInstr,
) -> io::Result<()>
    ensures { Sends result (W.contents writer.old) (W.contents writer.new) (instr_dot place number (shown instr.now)) }
{
    send_box(writer, place, number, instr.op)?;
    send_arcs(writer, place, number, instr)?;
    send_far_arc(writer, place, number, instr.op)
}

/// The instructions of a block with their arcs.
fn send_instrs<W: Write>(
    writer: &mut W,
    object: &Object<'_>,
    place: u32,
    block: &BlockView,
) -> io::Result<()>
    ensures { (k : ℕ) → (b : CodeBlock) → IsBlockAt object.now.code.program k b block.now
        → Sends result (W.contents writer.old) (W.contents writer.new) (numbered (instr_dot place) 0 b.instrs) }
{
    for number in 0..block.instrs {
        let Some(instr) = instr_in(object, block, number) else {
            return Ok(());
        };
        send_instr(writer, place, number, &instr)?;
    }
    Ok(())
}

/// What the box of a block begins with.
fn open_block<W: Write>(writer: &mut W, place: u32) -> io::Result<()>
    ensures { Sends result (W.contents writer.old) (W.contents writer.new) (code_head place) }
{
    let mut block = Buffer::new();
    let block = block.format(place).as_bytes();
    send_all(
        writer,
        &[
            b"subgraph cluster_b",
            block,
            b" { label=\"block ",
            block,
            b"\"\n",
        ],
    )
}

/// The box of a block.
fn send_block<W: Write>(
    writer: &mut W,
    object: &Object<'_>,
    place: u32,
    block: &BlockView,
) -> io::Result<()>
    ensures { (b : CodeBlock) → IsBlockAt object.now.code.program place b block.now → Sends result (W.contents writer.old) (W.contents writer.new)
        (code_block_dot place b) }
{
    open_block(writer, place)?;
    send_instrs(writer, object, place, block)?;
    send(writer, b"}\n")
}

/// The boxes of the blocks.
fn send_blocks<W: Write>(writer: &mut W, object: &Object<'_>) -> io::Result<()>
    ensures { Sends result (W.contents writer.old) (W.contents writer.new) (numbered code_block_dot 0 object.now.code.program.blocks) }
{
    for place in 0..object.block_count() {
        let Some(block) = object.block(place) else {
            return Ok(());
        };
        send_block(writer, object, place, &block)?;
    }
    Ok(())
}

/// What a picture begins with.
fn open_picture<W: Write>(writer: &mut W, main: u32) -> io::Result<()>
    ensures { Sends result (W.contents writer.old) (W.contents writer.new) (picture_head main) }
{
    let mut block = Buffer::new();
    let block = block.format(main).as_bytes();
    send_all(
        writer,
        &[
            b"digraph ets { label=\"main block ",
            block,
            b"\"\nnode [fontname=\"sans-serif\"] edge [fontsize=8 fontname=\"sans-serif\"]\n",
        ],
    )
}

/// Writes the picture of an object's code: a box for each block, a node for each instruction, and an arc for each destination, link
/// and send. The writer is called until it has taken all of it; after an `Err` a beginning of it was written. Takes no memory.
pub fn write_code_dot<W: Write>(object: &Object<'_>, writer: &mut W) -> io::Result<()>
    ensures { Sends result (W.contents writer.old) (W.contents writer.new) (code_dot object.now.code.program) }
{
    open_picture(writer, object.main())?;
    send_blocks(writer, object)?;
    send(writer, b"}\n")
}
