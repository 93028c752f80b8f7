//! What a token carries.

ghost use Rattle.std.specs.Prelude.{◌≡◌};
ghost use Rattle.tags.specs.declared.value.Value.TheVariants.{Fault};
ghost use Rattle.trace_text.specs.TraceText.{kind_word, value_text, cont_text, word_text, carried_text};
ghost use Rattle.sink.specs.Sends.{Sends};

use disassembler::port_letter;
use itoa::Buffer;
use sink::send_all;
use std::io::{self, Write};
use tags::token::{Cont, To, Token, Word};
use tags::value::{FaultKind, Origin, Value};

/// The word of a fault's kind.
fn kind_word(kind: FaultKind) -> &'static [u8]
    ensures { result.now ≡ kind_word kind }
{
    match kind {
        FaultKind::Zero => b"zero",
        FaultKind::Range => b"range",
    }
}

/// A fault.
fn send_fault<W: Write>(writer: &mut W, kind: FaultKind, origin: Origin) -> io::Result<()>
    ensures { Sends result (W.contents writer.old) (W.contents writer.new) (value_text (Fault kind origin)) }
{
    match origin {
        Origin::Untold => send_all(writer, &[b"fault ", kind_word(kind)]),
        Origin::At { block, node } => {
            let mut first = Buffer::new();
            let mut second = Buffer::new();
            let block = first.format(block).as_bytes();
            let node = second.format(node.get()).as_bytes();
            send_all(
                writer,
                &[b"fault ", kind_word(kind), b" at ", block, b" ", node],
            )
        }
    }
}

/// A value.
fn send_value<W: Write>(writer: &mut W, value: Value) -> io::Result<()>
    ensures { Sends result (W.contents writer.old) (W.contents writer.new) (value_text value) }
{
    match value {
        Value::Int(number) => {
            let mut digits = Buffer::new();
            send_all(writer, &[digits.format(number).as_bytes()])
        }
        Value::Fault { kind, origin } => send_fault(writer, kind, origin),
    }
}

/// A continuation.
fn send_cont<W: Write>(writer: &mut W, cont: Cont) -> io::Result<()>
    ensures { Sends result (W.contents writer.old) (W.contents writer.new) (cont_text cont) }
{
    let mut first = Buffer::new();
    match cont {
        Cont::Frame { frame, ip, port } => {
            let mut second = Buffer::new();
            let frame = first.format(frame).as_bytes();
            let ip = second.format(ip).as_bytes();
            send_all(writer, &[b"to ", frame, b" ", ip, b" ", port_letter(port)])
        }
        Cont::Host { port } => { send_all(writer, &[b"to host ", first.format(port).as_bytes()]) }
    }
}

/// A word.
pub fn send_word<W: Write>(writer: &mut W, word: Word) -> io::Result<()>
    ensures { Sends result (W.contents writer.old) (W.contents writer.new) (word_text word) }
{
    match word {
        Word::Val(value) => send_value(writer, value),
        Word::Frame(frame) => {
            let mut digits = Buffer::new();
            send_all(writer, &[b"frame ", digits.format(frame).as_bytes()])
        }
        Word::Back(cont) => send_cont(writer, cont),
    }
}

/// What a token carries, of a store the value that is stored.
pub(crate) fn send_carried<W: Write>(writer: &mut W, token: &Token) -> io::Result<()>
    ensures { Sends result (W.contents writer.old) (W.contents writer.new) (carried_text token.now.to token.now.word) }
{
    match token.to {
        To::Store { value, .. } => send_value(writer, value),
        _ => send_word(writer, token.word),
    }
}
