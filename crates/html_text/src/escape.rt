//! Bytes of any kind as part of a page.

ghost use Rattle.std.specs.Prelude.{◌≡◌, ◌<◌};
ghost use Rattle.html_text.specs.Plain.{is_special};
ghost use Rattle.html_text.specs.Escape.{is_bare, hex_digit, byte_at, escaped, EscapesAreInert, EscapesAreReadBack};
ghost use Rattle.sink.specs.Sends.{Sends};

use sink::send;
use std::io::{self, Write};

/// Whether a text in a page could end by this byte, or something else begin.
fn is_special(byte: u8) -> bool
    ensures { result ≡ is_special byte }
{
    matches!(byte, b'"' | b'<' | b'>' | b'&' | b'\'' | b'`' | b'\\')
}

/// Whether a byte is written as it is.
fn is_bare(byte: u8) -> bool
    ensures { result ≡ is_bare byte }
{
    (32..127).contains(&byte) && byte != b'%' && !is_special(byte)
}

/// A hexadecimal digit.
fn hex_digit(value: u8) -> u8
    requires { value < 16 }
    ensures { result ≡ hex_digit value }
{
    if value < 10 {
        value + b'0'
    } else {
        value - 10 + b'A'
    }
}

/// A byte of a text.
fn send_byte<W: Write>(writer: &mut W, place: usize, byte: u8) -> io::Result<()>
    ensures { Sends result (W.contents writer.old) (W.contents writer.new) (byte_at place byte) }
{
    if is_bare(byte) {
        send(writer, &[byte])
    } else {
        send(writer, &[b'%', hex_digit(byte / 16), hex_digit(byte % 16)])
    }
}

/// All bytes of a text.
pub(crate) fn send_escaped<W: Write>(writer: &mut W, bytes: &[u8]) -> io::Result<()>
    ensures { Sends result (W.contents writer.old) (W.contents writer.new) (escaped bytes.now) }
{
    for place in 0..bytes.len() {
        send_byte(writer, place, bytes[place])?;
    }
    Ok(())
}

/// What is written of any bytes needs no escape any more: it has none of `"`, `<`, `>`, `&`, `'`, `` ` `` and `\`, and printing characters
/// of ASCII alone. The same bytes are read back from it.
pub fn escapes_are_exact()
    ensures inert { EscapesAreInert }
    ensures read_back { EscapesAreReadBack }
{}
