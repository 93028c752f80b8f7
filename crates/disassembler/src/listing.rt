//! The lines of a whole object.

ghost use Rattle.std.specs.Prelude.{◌≡◌, ◌++◌, ◌∷◌, [], ℕ, ◌<◌, Some, decimal, codes, length, slice_get, option_map};
ghost use Rattle.semantics.specs.Program.{CodeBlock};
ghost use Rattle.object_view.specs.Reading.{shown};
ghost use Rattle.disassembler.specs.Places.{IsBlockAt};
ghost use Rattle.sink.specs.Sends.{Sends};
ghost use Rattle.disassembler.specs.Listing.{instr_line, block_line, block_lines, array_line, literal_line, head_line, listing, listing_with_literals};
ghost use Rattle.sink.specs.Numbered.{numbered};

use crate::line::list_instr;
use itoa::Buffer;
use object_view::{BlockView, CodeInstr, Object};
use sink::{send, send_all};
use std::io::{self, Write};

/// The first line.
fn list_head<W: Write>(writer: &mut W, object: &Object<'_>) -> io::Result<()>
    ensures { Sends result (W.contents writer.old) (W.contents writer.new) (head_line object.now.version object.now.code.program.main) }
{
    let mut first = Buffer::new();
    let mut second = Buffer::new();
    let version = first.format(object.version().number()).as_bytes();
    let main = second.format(object.main()).as_bytes();
    send_all(writer, &[b"ets ", version, b" main ", main, b"\n"])
}

/// The first line of a block.
fn list_block_line<W: Write>(writer: &mut W, number: u32, block: &BlockView) -> io::Result<()>
    ensures { Sends result (W.contents writer.old) (W.contents writer.new) (block_line number block.now.inputs block.now.outputs block.now.slots) }
{
    let mut first = Buffer::new();
    let mut second = Buffer::new();
    let mut third = Buffer::new();
    let mut fourth = Buffer::new();
    let number = first.format(number).as_bytes();
    let inputs = second.format(block.inputs).as_bytes();
    let outputs = third.format(block.outputs).as_bytes();
    let slots = fourth.format(block.slots).as_bytes();
    send_all(
        writer,
        &[
            b"block ",
            number,
            b" inputs ",
            inputs,
            b" outputs ",
            outputs,
            b" slots ",
            slots,
            b"\n",
        ],
    )
}

/// The line of an array.
fn list_array<W: Write>(writer: &mut W, number: u32, length: u64) -> io::Result<()>
    ensures { Sends result (W.contents writer.old) (W.contents writer.new) (array_line number length) }
{
    let mut first = Buffer::new();
    let mut second = Buffer::new();
    let number = first.format(number).as_bytes();
    let length = second.format(length).as_bytes();
    send_all(writer, &[b"array ", number, b" ", length, b"\n"])
}

/// The lines of the arrays.
fn list_arrays<W: Write>(writer: &mut W, object: &Object<'_>) -> io::Result<()>
    ensures { Sends result (W.contents writer.old) (W.contents writer.new) (numbered array_line 0 object.now.code.program.arrays) }
{
    for number in 0..object.array_count() {
        let Some(length) = object.array(number) else {
            return Ok(());
        };
        list_array(writer, number, length)?;
    }
    Ok(())
}

/// The instruction of that number in a block.
pub fn instr_in(object: &Object<'_>, block: &BlockView, number: u32) -> Option<CodeInstr>
    ensures { (k : ℕ) → (b : CodeBlock) → IsBlockAt object.now.code.program k b block.now → number < length b.instrs → option_map shown result
        ≡ slice_get b.instrs number }
{
    let Some(left) = object.instr_count().checked_sub(block.first) else {
        return None;
    };
    if number < left {
        object.instr(block.first + number)
    } else {
        None
    }
}

/// The lines of the instructions of a block.
fn list_instrs<W: Write>(writer: &mut W, object: &Object<'_>, block: &BlockView) -> io::Result<()>
    ensures { (k : ℕ) → (b : CodeBlock) → IsBlockAt object.now.code.program k b block.now
        → Sends result (W.contents writer.old) (W.contents writer.new) (numbered instr_line 0 b.instrs) }
{
    for number in 0..block.instrs {
        let Some(instr) = instr_in(object, block, number) else {
            return Ok(());
        };
        list_instr(writer, number, &instr)?;
    }
    Ok(())
}

/// The lines of a block.
fn list_block<W: Write>(
    writer: &mut W,
    object: &Object<'_>,
    number: u32,
    block: &BlockView,
) -> io::Result<()>
    ensures { (b : CodeBlock) → IsBlockAt object.now.code.program number b block.now → Sends result (W.contents writer.old) (W.contents writer.new)
        (block_lines number b) }
{
    list_block_line(writer, number, block)?;
    list_instrs(writer, object, block)
}

/// The lines of the blocks.
fn list_blocks<W: Write>(writer: &mut W, object: &Object<'_>) -> io::Result<()>
    ensures { Sends result (W.contents writer.old) (W.contents writer.new) (numbered block_lines 0 object.now.code.program.blocks) }
{
    for number in 0..object.block_count() {
        let Some(block) = object.block(number) else {
            return Ok(());
        };
        list_block(writer, object, number, &block)?;
    }
    Ok(())
}

/// The line of a literal.
fn list_literal<W: Write>(writer: &mut W, number: u32, literal: i64) -> io::Result<()>
    ensures { Sends result (W.contents writer.old) (W.contents writer.new) (literal_line number literal) }
{
    let mut first = Buffer::new();
    let mut second = Buffer::new();
    let number = first.format(number).as_bytes();
    let literal = second.format(literal).as_bytes();
    send_all(writer, &[b"literal ", number, b" ", literal, b"\n"])
}

/// The lines of the table of literals.
fn list_table<W: Write>(writer: &mut W, object: &Object<'_>) -> io::Result<()>
    ensures { Sends result (W.contents writer.old) (W.contents writer.new) (numbered literal_line 0 object.now.code.literals) }
{
    for number in 0..object.literal_count() {
        let Some(literal) = object.literal(number) else {
            return Ok(());
        };
        list_literal(writer, number, literal)?;
    }
    Ok(())
}

/// Writes the listing of an object. The writer is called until it has taken all of it; a call that takes no byte is a
/// fault. After an `Err` a beginning of the listing was written. Takes no memory.
pub fn list<W: Write>(object: &Object<'_>, writer: &mut W) -> io::Result<()>
    ensures { Sends result (W.contents writer.old) (W.contents writer.new) (listing object.now.version object.now.code.program) }
{
    list_head(writer, object)?;
    list_blocks(writer, object)?;
    list_arrays(writer, object)
}

/// Writes the listing of an object and its table of literals, as `list` does.
pub fn list_with_literals<W: Write>(object: &Object<'_>, writer: &mut W) -> io::Result<()>
    ensures { Sends result (W.contents writer.old) (W.contents writer.new) (listing_with_literals object.now.version object.now.code) }
{
    list(object, writer)?;
    list_table(writer, object)
}
