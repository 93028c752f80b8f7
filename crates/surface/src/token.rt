//! The tokens of a text with derived forms.

/// A word of the language. No name is one.
#[derive(Clone, Copy, Debug, PartialEq, Eq)]
pub enum Keyword {
    Core { keyword: source::token::Keyword },
    Const,
    For,
    In,
    With,
    And,
    Or,
    Not,
}

/// A sign. One that is two bytes long is not read as two.
#[derive(Clone, Copy, Debug, PartialEq, Eq)]
pub enum Sign {
    Core { sign: source::token::Sign },
    /// `..`
    Range,
}

/// What a token is. A name has its length, since its bytes are those of the text from the token's place on.
#[derive(Clone, Copy, Debug, PartialEq, Eq)]
pub enum TokenKind {
    Word { keyword: Keyword },
    Mark { sign: Sign },
    Number { number: u64 },
    Name { len: usize },
}

/// A token, and its place: how many bytes of the program's text are before it.
#[derive(Clone, Copy, Debug, PartialEq, Eq)]
pub struct Token {
    pub kind: TokenKind,
    pub at: usize,
}
