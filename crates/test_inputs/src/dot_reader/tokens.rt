//! The tokens of a text in DOT.

use std::alloc::{AllocError, Global};

/// A token. The bytes of a word in quotes are those between the quotes.
#[derive(Clone, Copy)]
pub enum Token<'a> {
    Word(&'a [u8]),
    /// The braces of a box.
    Open,
    Close,
    /// The brackets of a list of attributes.
    OpenList,
    CloseList,
    Equals,
    Arrow,
}

/// Whether the byte may be part of a word without quotes.
fn is_of_word(byte: u8) -> bool {
    byte.is_ascii_alphanumeric() || byte == b'_' || byte == b'.'
}

/// The token that a byte outside words is. A `-` begins an arrow, and the `>` after it gives the token.
fn sign_of<'a>(byte: u8) -> Option<Token<'a>> {
    match byte {
        b'{' => Some(Token::Open),
        b'}' => Some(Token::Close),
        b'[' => Some(Token::OpenList),
        b']' => Some(Token::CloseList),
        b'=' => Some(Token::Equals),
        b'>' => Some(Token::Arrow),
        _ => None,
    }
}

/// The tokens of the text. A word that ends with the text is left out, and so is a quoted word without its closing quote.
pub fn tokens_of<'a>(alloc: Global, text: &'a [u8]) -> Result<Vec<Token<'a>>, AllocError> {
    let mut tokens = Vec::new(alloc);
    let mut start = 0usize;
    let mut is_quoted = false;
    for (at, byte) in text.iter().enumerate() {
        let byte = *byte;
        if is_quoted {
            if byte == b'"' {
                tokens.push(Token::Word(text.get(start..at).unwrap_or(&[])))?;
                start = at.wrapping_add(1);
                is_quoted = false;
            }
            continue;
        }
        if is_of_word(byte) {
            continue;
        }
        if start < at {
            tokens.push(Token::Word(text.get(start..at).unwrap_or(&[])))?;
        }
        start = at.wrapping_add(1);
        is_quoted = byte == b'"';
        if let Some(sign) = sign_of(byte) {
            tokens.push(sign)?;
        }
    }
    Ok(tokens)
}
