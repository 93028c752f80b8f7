//! What a text begins with.

ghost use Rattle.std.specs.Prelude.{◌≡◌, option_map, take_while, codes};
ghost use Rattle.source.specs.Tokens.{begins, is_run_byte};
ghost use Rattle.source_tokens.specs.Beginnings.{said as core_said};
ghost use Rattle.surface.specs.Tokens.{comment_len, comment_read};
ghost use Rattle.surface_tokens.specs.Beginnings.{said, opening, with_forms, refused_run, lifted};

use crate::comments::comment_len;
use crate::words::new_word;
use source_tokens::{Beginning as CoreBeginning, run_len};
use surface::fault::FaultKind;
use surface::token::{Keyword, Sign, TokenKind};

/// What a text that is not empty begins with.
#[derive(Clone, Copy)]
pub(crate) enum Beginning {
    /// So many bytes that are no token.
    Skipped { len: usize },
    /// A token of so many bytes.
    Read { kind: TokenKind, len: usize },
    /// A fault.
    Refused { kind: FaultKind },
}

impl Beginning {
    /// What the text begins with. None where it is empty.
    pub(crate) fn of(text: &[u8]) -> Option<Beginning>
        ensures { option_map said result ≡ opening text.now }
    {
        if begins_comment(text) {
            return Some(read_comment(&text[2..]));
        }
        if begins_range(text) {
            return Some(Beginning::Read {
                kind: TokenKind::Mark { sign: Sign::Range },
                len: 2,
            });
        }
        Some(with_forms(CoreBeginning::of(text)?, text))
    }
}

/// Whether the text begins with a comment that may have lines.
fn begins_comment(text: &[u8]) -> bool
    ensures { result ≡ begins (codes "/*") text.now }
{
    matches!(text, [b'/', b'*', ..])
}

/// Whether the text begins with `..`.
fn begins_range(text: &[u8]) -> bool
    ensures { result ≡ begins (codes "..") text.now }
{
    matches!(text, [b'.', b'.', ..])
}

/// The comment whose `/*` is before this.
fn read_comment(after: &[u8]) -> Beginning
    ensures { said result ≡ comment_read (comment_len after.now) }
{
    match comment_len(after) {
        Some(len) => Beginning::Skipped { len: 2 + len },
        None => Beginning::Refused {
            kind: FaultKind::BadComment,
        },
    }
}

/// What the text begins with in the core, as this language has it.
fn with_forms(beginning: CoreBeginning, text: &[u8]) -> Beginning
    ensures { said result ≡ with_forms (take_while is_run_byte text.now) (core_said beginning) }
{
    match beginning {
        CoreBeginning::Skipped { len } => Beginning::Skipped { len },
        CoreBeginning::Read { kind, len } => Beginning::Read {
            kind: lifted(kind),
            len,
        },
        CoreBeginning::Refused {
            kind: source::fault::FaultKind::BadName,
        } => read_refused(&text[..run_len(text)]),
        CoreBeginning::Refused { kind } => Beginning::Refused {
            kind: FaultKind::Core { kind },
        },
    }
}

/// A run that is no name of the core, and none of its words.
fn read_refused(run: &[u8]) -> Beginning
    ensures { said result ≡ refused_run run.now }
{
    match new_word(run) {
        Some(keyword) => Beginning::Read {
            kind: TokenKind::Word { keyword },
            len: run.len(),
        },
        None => Beginning::Refused {
            kind: FaultKind::Core {
                kind: source::fault::FaultKind::BadName,
            },
        },
    }
}

/// A token of the core as one of this language.
fn lifted(kind: source::token::TokenKind) -> TokenKind
    ensures { result ≡ lifted kind }
{
    match kind {
        source::token::TokenKind::Word { keyword } => TokenKind::Word {
            keyword: Keyword::Core { keyword },
        },
        source::token::TokenKind::Mark { sign } => TokenKind::Mark {
            sign: Sign::Core { sign },
        },
        source::token::TokenKind::Number { number } => TokenKind::Number { number },
        source::token::TokenKind::Name { len } => TokenKind::Name { len },
    }
}
