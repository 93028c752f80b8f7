//! What a text begins with.

ghost use Rattle.std.specs.Prelude.{◌≡◌, ◌∷◌, length, option_map, codes};
ghost use Rattle.source.specs.Tokens.{Read, is_blank, begins, line_from, beginning};
ghost use Rattle.source.specs.declared.token.TokenKind.TheVariants.{Mark};
ghost use Rattle.source_tokens.specs.Beginnings.{said, opening, sign_beginning};

use crate::runs::{is_run_byte, read_run, run_len};
use crate::signs::{double_sign, single_sign};
use source::fault::FaultKind;
use source::token::{Sign, TokenKind};

/// What a text that is not empty begins with.
#[derive(Clone, Copy)]
pub enum Beginning {
    /// So many bytes that are no token.
    Skipped { len: usize },
    /// A token of so many bytes.
    Read { kind: TokenKind, len: usize },
    /// A fault.
    Refused { kind: FaultKind },
}

impl Beginning {
    /// What the text begins with. None where it is empty.
    pub fn of(text: &[u8]) -> Option<Beginning>
        ensures { option_map said result ≡ opening text.now }
    {
        let (first, after) = text.split_first()?;
        Some(Beginning::at(*first, after, text))
    }

    /// What the text begins with, which is a byte and the bytes after it.
    fn at(first: u8, after: &[u8], text: &[u8]) -> Beginning
        requires { text.now ≡ first ∷ after.now }
        ensures { said result ≡ beginning first after.now }
    {
        if is_blank(first) {
            Beginning::Skipped { len: 1 }
        } else if begins_comment(text) {
            Beginning::Skipped {
                len: line_len(text),
            }
        } else if is_run_byte(first) {
            read_run(first, &text[..run_len(text)])
        } else {
            read_sign(first, after)
        }
    }
}

/// Whether the byte separates tokens.
fn is_blank(b: u8) -> bool
    ensures { result ≡ is_blank b }
{
    matches!(b, b' ' | b'\t' | b'\r' | b'\n')
}

/// Whether the text begins with a comment.
fn begins_comment(text: &[u8]) -> bool
    ensures { result ≡ begins (codes "//") text.now }
{
    matches!(text, [b'/', b'/', ..])
}

/// How many bytes are before the end of the line.
fn line_len(text: &[u8]) -> usize
    ensures { result ≡ length (line_from text.now) }
{
    text.iter().take_while(|b| **b != b'\n').count()
}

/// The longest sign.
fn read_sign(first: u8, after: &[u8]) -> Beginning
    ensures { said result ≡ sign_beginning first after.now }
{
    if let [second, ..] = after
        && let Some(sign) = double_sign(first, *second)
    {
        return marked(sign, 2);
    }
    match single_sign(first) {
        Some(sign) => marked(sign, 1),
        None => Beginning::Refused {
            kind: FaultKind::BadByte,
        },
    }
}

fn marked(sign: Sign, len: usize) -> Beginning
    ensures { said result ≡ Read (Mark sign) len }
{
    Beginning::Read {
        kind: TokenKind::Mark { sign },
        len,
    }
}
