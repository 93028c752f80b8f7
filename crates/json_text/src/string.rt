//! Strings.

ghost use Rattle.std.specs.Prelude.{◌≡◌, ◌<◌};
ghost use Rattle.std.specs.List.{list_all};
ghost use Rattle.sink.specs.Sends.{Sends};
ghost use Rattle.json_text.specs.Json.{escaped, escaped_byte, hex_digit, is_plain, numbered_byte, string};

use sink::{send, send_all};
use std::io::{self, Write};

/// Whether the byte stands for itself in a string.
fn is_plain(byte: u8) -> bool
    ensures { result ≡ is_plain byte }
{
    b' ' <= byte && byte <= b'~' && byte != b'"' && byte != b'\\'
}

/// The digit of a number below 16.
fn hex_digit(number: u8) -> u8
    requires { number < 16 }
    ensures { result ≡ hex_digit number }
{
    if number < 10 {
        number + b'0'
    } else {
        number + 87
    }
}

/// Writes the byte by its number.
fn send_numbered<W: Write>(writer: &mut W, byte: u8) -> io::Result<()>
    ensures { Sends result (W.contents writer.old) (W.contents writer.new) (numbered_byte byte) }
{
    let digits = [hex_digit(byte / 16), hex_digit(byte % 16)];
    send_all(writer, &[b"\\u00", &digits])
}

/// Writes the byte as it is in a string.
fn send_byte<W: Write>(writer: &mut W, byte: u8) -> io::Result<()>
    ensures { Sends result (W.contents writer.old) (W.contents writer.new) (escaped_byte byte) }
{
    if is_plain(byte) {
        send(writer, &[byte])
    } else if byte == b'"' || byte == b'\\' {
        send(writer, &[b'\\', byte])
    } else if byte == b'\n' {
        send(writer, b"\\n")
    } else {
        send_numbered(writer, byte)
    }
}

/// Writes the bytes, one after the other.
fn send_bytes<W: Write>(writer: &mut W, text: &[u8]) -> io::Result<()>
    ensures { Sends result (W.contents writer.old) (W.contents writer.new) (escaped text.now) }
{
    for byte in text {
        send_byte(writer, *byte)?;
    }
    Ok(())
}

/// Whether all bytes stand for themselves.
fn are_plain(text: &[u8]) -> bool
    ensures { result ≡ list_all is_plain text.now }
{
    text.iter().all(|byte| is_plain(*byte))
}

/// Writes the text as it is in a string.
fn send_escaped<W: Write>(writer: &mut W, text: &[u8]) -> io::Result<()>
    ensures { Sends result (W.contents writer.old) (W.contents writer.new) (escaped text.now) }
{
    if are_plain(text) {
        send(writer, text)
    } else {
        send_bytes(writer, text)
    }
}

/// Writes the string of the text.
pub(crate) fn send_string<W: Write>(writer: &mut W, text: &[u8]) -> io::Result<()>
    ensures { Sends result (W.contents writer.old) (W.contents writer.new) (string text.now) }
{
    send(writer, b"\"")?;
    send_escaped(writer, text)?;
    send(writer, b"\"")
}
