//! Signs.

ghost use Rattle.std.specs.Prelude.{◌≡◌, ◌∷◌, [], bytes_eq, find};
ghost use Rattle.source.specs.Tokens.{sign_text};
ghost use Rattle.source_tokens.specs.Signs.{single_signs, double_signs};

use source::token::Sign;

/// The sign that is these two bytes.
pub(crate) fn double_sign(first: u8, second: u8) -> Option<Sign>
    ensures { result ≡ find (λ s. bytes_eq (sign_text s) (first ∷ second ∷ [])) double_signs }
{
    match (first, second) {
        (b'-', b'>') => Some(Sign::Arrow),
        (b':', b'=') => Some(Sign::Becomes),
        (b'<', b'<') => Some(Sign::ShiftLeft),
        (b'>', b'>') => Some(Sign::ShiftRight),
        (b'=', b'=') => Some(Sign::EqualTo),
        (b'!', b'=') => Some(Sign::NotEqualTo),
        (b'<', b'=') => Some(Sign::AtMost),
        (b'>', b'=') => Some(Sign::AtLeast),
        _ => None,
    }
}

/// The sign that is this byte.
pub(crate) fn single_sign(byte: u8) -> Option<Sign>
    ensures { result ≡ find (λ s. bytes_eq (sign_text s) (byte ∷ [])) single_signs }
{
    match byte {
        b'<' => Some(Sign::Less),
        b'>' => Some(Sign::Greater),
        b'=' => Some(Sign::Equals),
        b'+' => Some(Sign::Plus),
        b'-' => Some(Sign::Minus),
        b'*' => Some(Sign::Star),
        b'/' => Some(Sign::Slash),
        b'%' => Some(Sign::Percent),
        b'&' => Some(Sign::Ampersand),
        b'^' => Some(Sign::Caret),
        b'|' => Some(Sign::Bar),
        b'~' => Some(Sign::Tilde),
        b'(' => Some(Sign::OpenParen),
        b')' => Some(Sign::CloseParen),
        b'[' => Some(Sign::OpenBracket),
        b']' => Some(Sign::CloseBracket),
        b'{' => Some(Sign::OpenBrace),
        b'}' => Some(Sign::CloseBrace),
        b',' => Some(Sign::Comma),
        b';' => Some(Sign::Semicolon),
        _ => None,
    }
}
