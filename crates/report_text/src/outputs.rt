//! Values, and the lines of outputs.

ghost use Rattle.std.specs.Prelude.{◌≡◌, ◌++◌, ◌∷◌, [], ℕ, List, codes, decimal};
ghost use Rattle.semantics.specs.Text.{field, line};
ghost use Rattle.report_text.specs.ReportText.{kind_word, origin_text, value_text, output_line, outputs_text};
ghost use Rattle.tags.specs.declared.value.Value.TheVariants.{Fault};
ghost use Rattle.sink.specs.Numbered.{numbered};
ghost use Rattle.sink.specs.Sends.{Sends};

use itoa::Buffer;
use sink::{send, send_all};
use std::io::{self, Write};
use tags::value::{FaultKind, Origin, Value};

/// The word for a kind of fault.
fn kind_word(kind: FaultKind) -> &'static [u8]
    ensures { result.now ≡ kind_word kind }
{
    match kind {
        FaultKind::Zero => b"zero",
        FaultKind::Range => b"range",
    }
}

/// Writes the beginning of a fault, with a space before it.
fn send_kind<W: Write>(writer: &mut W, kind: FaultKind) -> io::Result<()>
    ensures { Sends result (W.contents writer.old) (W.contents writer.new) (field (codes "fault" ++ field (kind_word kind))) }
{
    send_all(writer, &[b" fault ", kind_word(kind)])
}

/// Writes where a fault was made, if that is known, and ends the line.
fn send_origin<W: Write>(writer: &mut W, origin: Origin) -> io::Result<()>
    ensures { Sends result (W.contents writer.old) (W.contents writer.new) (line (origin_text origin)) }
{
    match origin {
        Origin::Untold => send(writer, b"\n"),
        Origin::At { block, node } => {
            let mut first = Buffer::new();
            let mut second = Buffer::new();
            let block = first.format(block).as_bytes();
            let node = second.format(node.get()).as_bytes();
            send_all(writer, &[b" at ", block, b" ", node, b"\n"])
        }
    }
}

/// Writes a fault, with a space before it, and ends the line.
fn send_fault<W: Write>(writer: &mut W, kind: FaultKind, origin: Origin) -> io::Result<()>
    ensures { Sends result (W.contents writer.old) (W.contents writer.new) (line (field (value_text (Fault kind origin)))) }
{
    send_kind(writer, kind)?;
    send_origin(writer, origin)
}

/// Writes a value, with a space before it, and ends the line.
pub(crate) fn send_value<W: Write>(writer: &mut W, value: Value) -> io::Result<()>
    ensures { Sends result (W.contents writer.old) (W.contents writer.new) (line (field (value_text value))) }
{
    match value {
        Value::Int(number) => {
            let mut digits = Buffer::new();
            send_all(writer, &[b" ", digits.format(number).as_bytes(), b"\n"])
        }
        Value::Fault { kind, origin } => send_fault(writer, kind, origin),
    }
}

/// Writes the beginning of an output port's line.
fn send_port<W: Write>(writer: &mut W, port: usize) -> io::Result<()>
    ensures { Sends result (W.contents writer.old) (W.contents writer.new) (codes "output" ++ field (decimal port)) }
{
    let mut digits = Buffer::new();
    send_all(writer, &[b"output ", digits.format(port).as_bytes()])
}

/// Writes the line of an output port, with `-` where the output is missing.
fn send_output<W: Write>(writer: &mut W, port: usize, output: &Option<Value>) -> io::Result<()>
    ensures { Sends result (W.contents writer.old) (W.contents writer.new) (output_line port output.now) }
{
    send_port(writer, port)?;
    match output {
        Some(value) => send_value(writer, *value),
        None => send(writer, b" -\n"),
    }
}

/// Writes the lines of the outputs, in the order of their ports.
pub(crate) fn send_outputs<W: Write>(writer: &mut W, outputs: &[Option<Value>]) -> io::Result<()>
    ensures { Sends result (W.contents writer.old) (W.contents writer.new) (outputs_text outputs.now) }
{
    for (port, output) in outputs.iter().enumerate() {
        send_output(writer, port, output)?;
    }
    Ok(())
}
