//! The tokens of a program's text.

/// A word of the language. No name is one.
#[derive(Clone, Copy, Debug, PartialEq, Eq)]
pub enum Keyword {
    Array,
    Fn,
    Let,
    If,
    Else,
    Loop,
    While,
    Strict,
    Inputs,
}

/// A sign. One that is two bytes long is not read as two.
#[derive(Clone, Copy, Debug, PartialEq, Eq)]
pub enum Sign {
    /// `->`
    Arrow,
    /// `:=`
    Becomes,
    /// `<<`
    ShiftLeft,
    /// `>>`
    ShiftRight,
    /// `==`
    EqualTo,
    /// `!=`
    NotEqualTo,
    /// `<=`
    AtMost,
    /// `>=`
    AtLeast,
    /// `<`
    Less,
    /// `>`
    Greater,
    /// `=`
    Equals,
    /// `+`
    Plus,
    /// `-`
    Minus,
    /// `*`
    Star,
    /// `/`
    Slash,
    /// `%`
    Percent,
    /// `&`
    Ampersand,
    /// `^`
    Caret,
    /// `|`
    Bar,
    /// `~`
    Tilde,
    /// `(`
    OpenParen,
    /// `)`
    CloseParen,
    /// `[`
    OpenBracket,
    /// `]`
    CloseBracket,
    /// `{`
    OpenBrace,
    /// `}`
    CloseBrace,
    /// `,`
    Comma,
    /// `;`
    Semicolon,
    /// `_` alone
    Underscore,
}

/// What a token is. A name has its length, since its bytes are those of the text from the token's place on.
#[derive(Clone, Copy, Debug, PartialEq, Eq)]
pub enum TokenKind {
    Word { keyword: Keyword },
    Mark { sign: Sign },
    Number { number: u64 },
    Name { len: usize },
}

/// A token, and its place: how many bytes of the program's text are before it.
#[derive(Clone, Copy, Debug, PartialEq, Eq)]
pub struct Token {
    pub kind: TokenKind,
    pub at: usize,
}
