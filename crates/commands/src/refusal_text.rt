//! The line that reports a refusal.

ghost use Rattle.std.specs.Prelude.{◌≡◌, ◌++◌, codes, decimal};
ghost use Rattle.semantics.specs.Text.{line};
ghost use Rattle.outcomes.specs.declared.refusal.Refusal.TheVariants.{Program};
ghost use Rattle.commands.specs.Refusals.{asm_text, asm_word, read_text, read_word, check_text, check_word, object_word, start_word, program_word};
ghost use Rattle.commands.specs.Refusals.{number_or_dash, refusal_line};
ghost use Rattle.sink.specs.Sends.{Sends};

use assembler::{AsmFault, AsmFaultKind};
use graph_check::{CheckFault, CheckFaultKind};
use graph_file::{ReadFault, ReadFaultKind};
use itoa::Buffer;
use object_view::ObjectFault;
use outcomes::Refusal;
use schedule::config::StartFault;
use sink::{send, send_all};
use source::fault::FaultKind;
use source_tokens::ProgramRefusal;
use std::io::{self, Write};

fn read_word(kind: ReadFaultKind) -> &'static [u8]
    ensures { result.now ≡ read_word kind }
{
    match kind {
        ReadFaultKind::NoHeader => b"NoHeader",
        ReadFaultKind::BadLine => b"BadLine",
        ReadFaultKind::BadNumber => b"BadNumber",
        ReadFaultKind::BadName => b"BadName",
        ReadFaultKind::Unended => b"Unended",
        ReadFaultKind::NoMain => b"NoMain",
        ReadFaultKind::TooMany => b"TooMany",
        ReadFaultKind::TrailingText => b"TrailingText",
        ReadFaultKind::Memory => b"Memory",
    }
}

fn check_word(kind: CheckFaultKind) -> &'static [u8]
    ensures { result.now ≡ check_word kind }
{
    match kind {
        CheckFaultKind::SameName => b"SameName",
        CheckFaultKind::NoSuchName => b"NoSuchName",
        CheckFaultKind::Arity => b"Arity",
        CheckFaultKind::SourceNotEarlier => b"SourceNotEarlier",
        CheckFaultKind::NoSuchPort => b"NoSuchPort",
        CheckFaultKind::BadRegion => b"BadRegion",
        CheckFaultKind::CrossesRegion => b"CrossesRegion",
        CheckFaultKind::BadBound => b"BadBound",
        CheckFaultKind::OutNotRoot => b"OutNotRoot",
        CheckFaultKind::NoInput => b"NoInput",
        CheckFaultKind::NoOutput => b"NoOutput",
        CheckFaultKind::Memory => b"Memory",
    }
}

fn object_word(fault: ObjectFault) -> &'static [u8]
    ensures { result.now ≡ object_word fault }
{
    match fault {
        ObjectFault::Truncated => b"Truncated",
        ObjectFault::BadMagic => b"BadMagic",
        ObjectFault::BadVersion => b"BadVersion",
        ObjectFault::BadTable => b"BadTable",
        ObjectFault::BadOpcode => b"BadOpcode",
        ObjectFault::BadDestination => b"BadDestination",
        ObjectFault::BadSlot => b"BadSlot",
        ObjectFault::BadLiteral => b"BadLiteral",
        ObjectFault::Trailing => b"Trailing",
    }
}

fn start_word(fault: StartFault) -> &'static [u8]
    ensures { result.now ≡ start_word fault }
{
    match fault {
        StartFault::WrongInputs => b"WrongInputs",
        StartFault::NoFrames => b"NoFrames",
        StartFault::BadConfig => b"BadConfig",
        StartFault::Memory => b"Memory",
    }
}

/// The number's digits, written into the buffer, or `-` where there is no number.
fn number_or_dash(buffer: &mut Buffer, number: Option<u64>) -> &[u8]
    ensures { result.now ≡ number_or_dash number }
{
    match number {
        Some(number) => buffer.format(number).as_bytes(),
        None => b"-",
    }
}

fn write_read_fault<W: Write>(writer: &mut W, fault: ReadFault) -> io::Result<()>
    ensures { Sends result (W.contents writer.old) (W.contents writer.new) (line (codes "refused: " ++ read_text fault)) }
{
    let mut digits = Buffer::new();
    let kind = read_word(fault.kind);
    let line = digits.format(fault.line).as_bytes();
    send_all(writer, &[b"refused: read ", kind, b" line ", line, b"\n"])
}

fn asm_word(kind: AsmFaultKind) -> &'static [u8]
    ensures { result.now ≡ asm_word kind }
{
    match kind {
        AsmFaultKind::BadLine => b"BadLine",
        AsmFaultKind::BadNumber => b"BadNumber",
        AsmFaultKind::BadName => b"BadName",
        AsmFaultKind::BadSlot => b"BadSlot",
        AsmFaultKind::BadDestination => b"BadDestination",
        AsmFaultKind::BadOperand => b"BadOperand",
        AsmFaultKind::BadOrigin => b"BadOrigin",
        AsmFaultKind::BadLiteral => b"BadLiteral",
        AsmFaultKind::Unended => b"Unended",
        AsmFaultKind::BadVersion => b"BadVersion",
        AsmFaultKind::BadTable => b"BadTable",
        AsmFaultKind::Memory => b"Memory",
    }
}

fn write_asm_fault<W: Write>(writer: &mut W, fault: AsmFault) -> io::Result<()>
    ensures { Sends result (W.contents writer.old) (W.contents writer.new) (line (codes "refused: " ++ asm_text fault)) }
{
    let mut digits = Buffer::new();
    let kind = asm_word(fault.kind);
    let line = digits.format(fault.line).as_bytes();
    send_all(writer, &[b"refused: asm ", kind, b" line ", line, b"\n"])
}

fn program_word(kind: FaultKind) -> &'static [u8]
    ensures { result.now ≡ program_word kind }
{
    match kind {
        FaultKind::BadByte => b"BadByte",
        FaultKind::BadNumber => b"BadNumber",
        FaultKind::BadName => b"BadName",
        FaultKind::Unexpected => b"Unexpected",
        FaultKind::Unended => b"Unended",
        FaultKind::TooDeep => b"TooDeep",
        FaultKind::NotACell => b"NotACell",
        FaultKind::SameName => b"SameName",
        FaultKind::NoSuchName => b"NoSuchName",
        FaultKind::Arity => b"Arity",
        FaultKind::BadBound => b"BadBound",
        FaultKind::BadCount => b"BadCount",
        FaultKind::TooMany => b"TooMany",
        FaultKind::TooWide => b"TooWide",
        FaultKind::TooBig => b"TooBig",
        FaultKind::NoMain => b"NoMain",
        FaultKind::Memory => b"Memory",
    }
}

fn write_program_fault<W: Write>(writer: &mut W, refusal: ProgramRefusal) -> io::Result<()>
    ensures { Sends result (W.contents writer.old) (W.contents writer.new) (refusal_line (Program refusal)) }
{
    let fault = refusal.fault;
    let mut first = Buffer::new();
    let mut second = Buffer::new();
    let kind = program_word(fault.kind);
    let line = number_or_dash(&mut first, Some(fault.line as u64));
    let column = number_or_dash(&mut second, Some(fault.column as u64));
    send_all(
        writer,
        &[
            b"refused: program ",
            kind,
            b" line ",
            line,
            b" column ",
            column,
            b"\n",
        ],
    )
}

fn write_check_fault<W: Write>(writer: &mut W, fault: CheckFault) -> io::Result<()>
    ensures { Sends result (W.contents writer.old) (W.contents writer.new) (line (codes "refused: " ++ check_text fault)) }
{
    let mut first = Buffer::new();
    let mut second = Buffer::new();
    let kind = check_word(fault.kind);
    let block = number_or_dash(&mut first, fault.block);
    let node = number_or_dash(&mut second, fault.node);
    send_all(
        writer,
        &[
            b"refused: check ",
            kind,
            b" block ",
            block,
            b" node ",
            node,
            b"\n",
        ],
    )
}

/// Writes a line of these words and a number.
pub(crate) fn write_numbered<W: Write>(writer: &mut W, words: &[u8], number: u64) -> io::Result<()>
    ensures { Sends result (W.contents writer.old) (W.contents writer.new) (line (words.now ++ decimal number)) }
{
    let mut digits = Buffer::new();
    send_all(writer, &[words, digits.format(number).as_bytes(), b"\n"])
}

/// Writes the line of a refusal for this many frames.
fn write_too_many_frames<W: Write>(writer: &mut W, frames: u128) -> io::Result<()>
    ensures { Sends result (W.contents writer.old) (W.contents writer.new) (line (codes "refused: enough TooManyFrames " ++ decimal frames)) }
{
    let mut digits = Buffer::new();
    let frames = digits.format(frames).as_bytes();
    send_all(writer, &[b"refused: enough TooManyFrames ", frames, b"\n"])
}

/// Writes the line of a refusal. The writer is called until it has taken all of it; a call that takes no byte is a fault.
/// After an `Err` a beginning of the line was written. Takes no memory.
pub fn write_refusal<W: Write>(writer: &mut W, refusal: &Refusal) -> io::Result<()>
    ensures { Sends result (W.contents writer.old) (W.contents writer.new) (refusal_line refusal.now) }
{
    match refusal {
        Refusal::Input => send(writer, b"refused: input\n"),
        Refusal::Read(refusal) => write_read_fault(writer, refusal.fault()),
        Refusal::Check(refusal) => write_check_fault(writer, refusal.fault()),
        Refusal::TooManySlots(block) => {
            write_numbered(writer, b"refused: slots TooManySlots block ", *block)
        }
        Refusal::TooFar(block) => { write_numbered(writer, b"refused: emit TooFar block ", *block) }
        Refusal::InputLine(line) => write_numbered(writer, b"refused: input line ", *line),
        Refusal::Start(fault) => {
            send_all(writer, &[b"refused: start ", start_word(*fault), b"\n"])
        }
        Refusal::TooManyFrames(frames) => write_too_many_frames(writer, *frames),
        Refusal::NotAtRest => send(writer, b"refused: enough NotAtRest\n"),
        Refusal::Object(fault) => {
            send_all(writer, &[b"refused: object ", object_word(*fault), b"\n"])
        }
        Refusal::Asm(refusal) => write_asm_fault(writer, refusal.fault()),
        Refusal::Program(refusal) => write_program_fault(writer, *refusal),
        Refusal::Memory => send(writer, b"refused: memory\n"),
    }
}
