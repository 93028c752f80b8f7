//! Tokens.

ghost use Rattle.std.specs.Prelude.{◌≡◌};
ghost use Rattle.tags.specs.declared.token.To.{To};
ghost use Rattle.html_text.specs.DataText.{token_text, semicolon, listed_token, tokens_text};
ghost use Rattle.sink.specs.Sends.{Sends};

use crate::pieces::{send_number, send_number_word, send_numbers, send_tagged_word};
use disassembler::port_letter;
use sink::send;
use std::io::{self, Write};
use tags::token::{FrameId, Port, To, Token, Word};
use tags::value::Value;

/// A token to an instruction.
fn send_to_instr<W: Write>(
    writer: &mut W,
    frame: FrameId,
    ip: u32,
    port: Port,
    word: Word,
) -> io::Result<()>
    ensures { Sends result (W.contents writer.old) (W.contents writer.new) (token_text (To.Instr frame ip port) word) }
{
    send_numbers(writer, port_letter(port), frame, ip)?;
    send_tagged_word(writer, b":", word)
}

/// A store.
fn send_store<W: Write>(writer: &mut W, cell: u32, value: Value, word: Word) -> io::Result<()>
    ensures { Sends result (W.contents writer.old) (W.contents writer.new) (token_text (To.Store cell value) word) }
{
    send_number_word(writer, b"s", cell, Word::Val(value))?;
    send_tagged_word(writer, b":", word)
}

/// A token.
fn send_token<W: Write>(writer: &mut W, token: &Token) -> io::Result<()>
    ensures { Sends result (W.contents writer.old) (W.contents writer.new) (token_text token.now.to token.now.word) }
{
    match token.to {
        To::Instr { frame, ip, port } => send_to_instr(writer, frame, ip, port, token.word),
        To::Fetch { cell } => send_number_word(writer, b"f", cell, token.word),
        To::Store { cell, value } => send_store(writer, cell, value, token.word),
        To::Manager => send_tagged_word(writer, b"q:", token.word),
        To::Release { frame } => send_number(writer, b"b", frame),
        To::Host { port } => send_number_word(writer, b"h", port, token.word),
    }
}

/// What is before a token of a list.
pub(crate) fn semicolon(place: usize) -> &'static [u8]
    ensures { result.now ≡ semicolon place }
{
    match place {
        0 => b"",
        _ => b";",
    }
}

/// A token of a list.
fn send_listed<W: Write>(writer: &mut W, place: usize, token: &Token) -> io::Result<()>
    ensures { Sends result (W.contents writer.old) (W.contents writer.new) (listed_token place token.now) }
{
    send(writer, semicolon(place))?;
    send_token(writer, token)
}

/// Tokens, with semicolons between them.
pub(crate) fn send_tokens<W: Write>(writer: &mut W, tokens: &[Token]) -> io::Result<()>
    ensures { Sends result (W.contents writer.old) (W.contents writer.new) (tokens_text tokens.now) }
{
    for place in 0..tokens.len() {
        send_listed(writer, place, &tokens[place])?;
    }
    Ok(())
}
