//! Writing objects.

ghost use Rattle.std.specs.Prelude.{◌≡◌, ◌≤◌, ◌+◌, ◌<◌, ◌++◌, ◌∷◌, [], ℕ, ℤ, List, All, flat_map, length, int_lt, slice_index_or};
ghost use Rattle.std.specs.Int.{w64, to_le_bytes};
ghost use Rattle.semantics.specs.Bytes as Bytes;
ghost use Rattle.semantics.specs.Versions.{version_number};
ghost use Rattle.object_view.specs.Sending.{IsAscending, HasRoom, HasWords, HasEntry, bytes_of_instr, bytes_of_block, bytes_of_entry};
ghost use Rattle.object_view.specs.Sending.{bytes_of_literal, bytes_of_word, bytes_of_header};
ghost use Rattle.sink.specs.Sends.{Sends};

use crate::object::Object;
use code::{Code, CodeBlock, Instr};
use semantics::program::{Dest, Op};
use semantics::version::Version;
use sink::send;
use std::alloc::Allocator;
use std::io::{self, Write};
use tags::token::Port;

/// Whether the literal at a place of the table is below another one.
fn is_below(literals: &[i64], place: usize, literal: i64) -> bool
    requires { place < length literals.now }
    ensures { result ≡ int_lt (slice_index_or literals.now place literal) literal }
{
    literals[place] < literal
}

/// The number of a literal in the table, which ascends.
fn number_of(literals: &[i64], literal: i64) -> u32
    requires ascend { IsAscending literals.now }
    requires few { length literals.now ≤ 65536 }
    ensures { result ≡ Bytes.number_from 0 literal literals.now }
{
    let mut low = 0;
    let mut high = literals.len();
    while low < high {
        let middle = low + (high - low) / 2;
        if is_below(literals, middle, literal) {
            low = middle + 1;
        } else {
            high = middle;
        }
    }
    low as u32
}

/// An opcode, its flag and its operand.
#[derive(Clone, Copy, Debug, PartialEq, Eq)]
struct Spelling {
    opcode: u8,
    flag: u8,
    operand: u32,
}

/// The operand: the number of a literal in the table, or what the operation names.
fn operand_of(op: Op, literals: &[i64]) -> u32
    requires ascend { IsAscending literals.now }
    requires few { length literals.now ≤ 65536 }
    ensures { result ≡ Bytes.operand_number literals.now op }
{
    match op {
        Op::Apply2Right { literal, .. } => number_of(literals, literal),
        Op::Apply2Left { literal, .. } => number_of(literals, literal),
        Op::Lit { literal } => number_of(literals, literal),
        Op::Fetch { array } | Op::Store { array } => u32::from(array),
        Op::Link { block } => u32::from(block),
        Op::Send { block, entry } => u32::from(entry) + 65_536 * u32::from(block),
        Op::Return { offset } | Op::Ask { offset } | Op::Release { offset } => u32::from(offset),
        Op::Open { bound } | Op::Take { bound } | Op::Give { bound } | Op::Drain { bound } => {
            u32::from(bound)
        }
        Op::Apply1 { .. } | Op::Apply2 { .. } | Op::Copy | Op::Sync | Op::Switch | Op::Frame => 0,
    }
}

/// How an operation is spelt.
fn spelling_of(op: Op, literals: &[i64]) -> Spelling
    requires ascend { IsAscending literals.now }
    requires few { length literals.now ≤ 65536 }
    ensures opcode { result.opcode ≡ (Bytes.head_of literals.now op).opcode }
    ensures flag { result.flag ≡ (Bytes.head_of literals.now op).flag }
    ensures operand { result.operand ≡ (Bytes.head_of literals.now op).operand }
{
    let opcode = op.opcode();
    Spelling {
        opcode: opcode.code(),
        flag: opcode.flag(),
        operand: operand_of(op, literals),
    }
}

/// The half word of a destination, or of none.
fn dest_word(dests: &[Dest]) -> u64
    requires { HasRoom dests.now }
    ensures word { result ≡ Bytes.dest_word dests.now }
    ensures few { result < 65536 }
{
    match dests.first() {
        None => 0,
        Some(dest) => match dest.port {
            Port::Left => u64::from(dest.ahead),
            Port::Right => u64::from(dest.ahead) + 32_768,
        },
    }
}

/// The two words of an instruction.
fn instr_words<A: Allocator>(literals: &[i64], instr: &Instr<A>) -> [u64; 2]
    requires ascend { IsAscending literals.now }
    requires few { length literals.now ≤ 65536 }
    requires there { HasWords instr.now }
    ensures { result ≡ Bytes.instr_words literals.now instr.now }
{
    let spelling = spelling_of(instr.op, literals);
    let first = u64::from(spelling.opcode)
        + 0x100 * u64::from(spelling.flag)
        + 0x1_0000 * u64::from(instr.slot)
        + 0x1_0000_0000 * dest_word(&instr.firsts)
        + 0x1_0000_0000_0000 * dest_word(&instr.seconds);
    let second = u64::from(spelling.operand) + 0x1_0000_0000 * u64::from(instr.origin.code());
    [first, second]
}

/// A block's entry in the block table.
fn entry_word<A: Allocator>(block: &CodeBlock<A>) -> u64
    requires { HasEntry block.now }
    ensures { result ≡ Bytes.block_word block.now }
{
    block.instrs.len() as u64
        + 0x1_0000_0000 * u64::from(block.inputs)
        + 0x100_0000_0000 * u64::from(block.outputs)
        + 0x1_0000_0000_0000 * u64::from(block.slots)
}

/// A word, the lowest byte first.
#[tactic(auto, unfolding(crate::specs::Sending::bytes_of_word))]
fn send_word<W: Write>(writer: &mut W, word: u64) -> io::Result<()>
    ensures { Sends result (W.contents writer.old) (W.contents writer.new) (bytes_of_word word) }
{
    send(writer, &word.to_le_bytes())
}

/// Words, one after the other.
fn send_words<W: Write>(writer: &mut W, words: &[u64]) -> io::Result<()>
    ensures { Sends result (W.contents writer.old) (W.contents writer.new) (flat_map bytes_of_word words.now) }
{
    for word in words {
        send_word(writer, *word)?;
    }
    Ok(())
}

/// A literal, in two's complement.
fn send_literal<W: Write>(writer: &mut W, literal: &i64) -> io::Result<()>
    ensures { Sends result (W.contents writer.old) (W.contents writer.new) (bytes_of_literal literal.now) }
{
    send_word(writer, literal.cast_unsigned())
}

/// The literals.
fn send_literals<W: Write>(writer: &mut W, literals: &[i64]) -> io::Result<()>
    ensures { Sends result (W.contents writer.old) (W.contents writer.new) (flat_map bytes_of_literal literals.now) }
{
    for literal in literals {
        send_literal(writer, literal)?;
    }
    Ok(())
}

/// The lengths of the arrays.
fn send_arrays<W: Write>(writer: &mut W, arrays: &[u32]) -> io::Result<()>
    ensures { Sends result (W.contents writer.old) (W.contents writer.new) (flat_map bytes_of_word arrays.now) }
{
    for len in arrays {
        send_word(writer, u64::from(*len))?;
    }
    Ok(())
}

/// A block's entry.
fn send_entry<A: Allocator, W: Write>(writer: &mut W, block: &CodeBlock<A>) -> io::Result<()>
    requires { HasEntry block.now }
    ensures { Sends result (W.contents writer.old) (W.contents writer.new) (bytes_of_entry block.now) }
{
    send_word(writer, entry_word(block))
}

/// An instruction.
fn send_instr<A: Allocator, W: Write>(
    writer: &mut W,
    literals: &[i64],
    instr: &Instr<A>,
) -> io::Result<()>
    requires ascend { IsAscending literals.now }
    requires few { length literals.now ≤ 65536 }
    requires there { HasWords instr.now }
    ensures { Sends result (W.contents writer.old) (W.contents writer.new) (bytes_of_instr literals.now instr.now) }
{
    send_words(writer, &instr_words(literals, instr))
}

/// The instructions of a block.
fn send_block<A: Allocator, W: Write>(
    writer: &mut W,
    literals: &[i64],
    block: &CodeBlock<A>,
) -> io::Result<()>
    requires ascend { IsAscending literals.now }
    requires few { length literals.now ≤ 65536 }
    requires there { All HasWords block.now.instrs }
    ensures { Sends result (W.contents writer.old) (W.contents writer.new) (bytes_of_block literals.now block.now) }
{
    send_instrs(writer, literals, &block.instrs)
}

/// The block table.
fn send_entries<A: Allocator, W: Write>(writer: &mut W, blocks: &[CodeBlock<A>]) -> io::Result<()>
    requires { All HasEntry blocks.now }
    ensures { Sends result (W.contents writer.old) (W.contents writer.new) (flat_map bytes_of_entry blocks.now) }
{
    for block in blocks {
        send_entry(writer, block)?;
    }
    Ok(())
}

/// Instructions, one after the other.
fn send_instrs<A: Allocator, W: Write>(
    writer: &mut W,
    literals: &[i64],
    instrs: &[Instr<A>],
) -> io::Result<()>
    requires ascend { IsAscending literals.now }
    requires few { length literals.now ≤ 65536 }
    requires there { All HasWords instrs.now }
    ensures { Sends result (W.contents writer.old) (W.contents writer.new) (flat_map (bytes_of_instr literals.now) instrs.now) }
{
    for instr in instrs {
        send_instr(writer, literals, instr)?;
    }
    Ok(())
}

/// The instructions of all blocks.
fn send_blocks<A: Allocator, W: Write>(
    writer: &mut W,
    literals: &[i64],
    blocks: &[CodeBlock<A>],
) -> io::Result<()>
    requires ascend { IsAscending literals.now }
    requires few { length literals.now ≤ 65536 }
    requires there { All (λ b. All HasWords b.instrs) blocks.now }
    ensures { Sends result (W.contents writer.old) (W.contents writer.new) (flat_map (bytes_of_block literals.now) blocks.now) }
{
    for block in blocks {
        send_block(writer, literals, block)?;
    }
    Ok(())
}

fn blocks_of<A: Allocator>(code: &Code<A>) -> &[CodeBlock<A>]
    ensures { result.now ≡ code.now.program.blocks }
{
    &code.program.blocks
}

fn arrays_of<A: Allocator>(code: &Code<A>) -> &[u32]
    ensures { result.now ≡ code.now.program.arrays }
{
    &code.program.arrays
}

fn literals_of<A: Allocator>(code: &Code<A>) -> &[i64]
    ensures { result.now ≡ code.now.literals }
{
    &code.literals
}

fn main_of<A: Allocator>(code: &Code<A>) -> u32
    ensures { result ≡ code.now.program.main }
{
    code.program.main
}

/// The words of the header after its mark.
fn counts<A: Allocator>(version: Version, code: &Code<A>) -> [u64; 5]
    ensures { result ≡ version_number version
        ∷ length code.now.program.blocks
        ∷ length code.now.literals
        ∷ length code.now.program.arrays
        ∷ code.now.program.main
        ∷ [] }
{
    [
        version.number(),
        blocks_of(code).len() as u64,
        literals_of(code).len() as u64,
        arrays_of(code).len() as u64,
        u64::from(main_of(code)),
    ]
}

/// The header.
fn send_header<A: Allocator, W: Write>(
    writer: &mut W,
    version: Version,
    code: &Code<A>,
) -> io::Result<()>
    ensures { Sends result (W.contents writer.old) (W.contents writer.new) (bytes_of_header (version_number version) code.now) }
{
    send(writer, b"ETSOBJCT")?;
    send_words(writer, &counts(version, code))
}

/// Writes the one object of the code in this version. The writer is called until it has taken all of it; a call that
/// takes no byte is a fault. After an `Err` a beginning of the object was written.
pub fn write<A: Allocator, W: Write>(
    code: &Code<A>,
    version: Version,
    writer: &mut W,
) -> io::Result<()>
    requires { Bytes.IsCode (version_number version) code.now }
    ensures { Sends result (W.contents writer.old) (W.contents writer.new) (Bytes.bytes_of (version_number version) code.now) }
{
    let blocks = blocks_of(code);
    let literals = literals_of(code);
    let arrays = arrays_of(code);
    send_header(writer, version, code)?;
    send_entries(writer, blocks)?;
    send_blocks(writer, literals, blocks)?;
    send_literals(writer, literals)?;
    send_arrays(writer, arrays)
}

/// Writes the same code as an object of version 2; what a version 1 object makes has no origin. The writer is called
/// until it has taken all of it; a call that takes no byte is a fault. After an `Err` a beginning was written.
pub fn upgrade<W: Write>(object: &Object<'_>, writer: &mut W) -> io::Result<()>
    ensures { Sends result (W.contents writer.old) (W.contents writer.new) (Bytes.bytes_of 2 object.now.code) }
{
    let bytes = object.bytes();
    let (front, _) = bytes.split_at(8);
    let (_, rest) = bytes.split_at(16);
    send(writer, front)?;
    send_word(writer, 2)?;
    send(writer, rest)
}
