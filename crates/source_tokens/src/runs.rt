//! Runs of letters, digits and `_`: numbers, words and names.

ghost use Rattle.std.specs.Prelude.{◌≡◌, ◌<◌, length, take_while, bytes_eq, find, true};
ghost use Rattle.std.specs.List.{list_all, list_any};
ghost use Rattle.std.specs.Char.{is_ascii_digit};
ghost use Rattle.source.specs.Tokens.{is_run_byte, is_numeral, numeral_run, has_double, is_name, keyword_text, keywords, kept, word_run, run_read};
ghost use Rattle.source_tokens.specs.Beginnings.{value_of, number_of, said};

use crate::beginning::Beginning;
use source::fault::FaultKind;
use source::token::{Keyword, Sign, TokenKind};

/// The reserved words, which are neither used nor names.
const KEPT: [&str; 22] = [
    "and", "as", "break", "case", "const", "do", "end", "false", "for", "in", "match", "mod",
    "not", "or", "return", "then", "true", "type", "use", "where", "with", "xor",
];
/// The longest name.
const NAME_LEN: usize = 24;
/// The largest number, which fits only after a `-`.
const LARGEST: u64 = 1 << 63;

/// Whether the byte is a letter, a digit or `_`.
pub(crate) fn is_run_byte(b: u8) -> bool
    ensures { result ≡ is_run_byte b }
{
    b.is_ascii_alphanumeric() || b == b'_'
}

/// The length of the run that the text begins with.
pub fn run_len(text: &[u8]) -> usize
    ensures { result ≡ length (take_while is_run_byte text.now) }
{
    text.iter().take_while(|b| is_run_byte(**b)).count()
}

/// What a run that begins with this byte is.
pub(crate) fn read_run(first: u8, run: &[u8]) -> Beginning
    requires { 0 < length run.now }
    ensures { said result ≡ run_read first run.now }
{
    if first.is_ascii_digit() {
        read_numeral(run)
    } else {
        read_word(run)
    }
}

fn read_numeral(run: &[u8]) -> Beginning
    requires { 0 < length run.now }
    ensures { said result ≡ numeral_run run.now }
{
    match number_of(run) {
        Some(number) => Beginning::Read {
            kind: TokenKind::Number { number },
            len: run.len(),
        },
        None => Beginning::Refused {
            kind: FaultKind::BadNumber,
        },
    }
}

/// The number that the run is, at most 2 ^ 63.
fn number_of(run: &[u8]) -> Option<u64>
    requires { 0 < length run.now }
    ensures { result ≡ number_of run.now }
{
    if !is_numeral(run) {
        return None;
    }
    match value_of(run) {
        Some(number) if number <= LARGEST => Some(number),
        _ => None,
    }
}

/// The value of the digits, where it fits.
fn value_of(digits: &[u8]) -> Option<u64>
    requires all_digits { list_all is_ascii_digit digits.now ≡ true }
    requires some { 0 < length digits.now }
    ensures { result ≡ value_of digits.now }
{
    match str::from_utf8(digits) {
        Ok(text) => text.parse().ok(),
        Err(_) => None,
    }
}

/// Whether the run is digits, with no leading zero.
fn is_numeral(run: &[u8]) -> bool
    ensures { result ≡ is_numeral run.now }
{
    match run {
        [b'0', _, ..] => false,
        _ => are_digits(run),
    }
}

fn are_digits(run: &[u8]) -> bool
    ensures { result ≡ list_all is_ascii_digit run.now }
{
    run.iter().all(|b| b.is_ascii_digit())
}

fn read_word(run: &[u8]) -> Beginning
    ensures { said result ≡ word_run run.now }
{
    if run == b"_".as_slice() {
        return Beginning::Read {
            kind: TokenKind::Mark {
                sign: Sign::Underscore,
            },
            len: 1,
        };
    }
    let len = run.len();
    match keyword(run) {
        Some(keyword) => Beginning::Read {
            kind: TokenKind::Word { keyword },
            len,
        },
        None if is_name(run) => Beginning::Read {
            kind: TokenKind::Name { len },
            len,
        },
        None => Beginning::Refused {
            kind: FaultKind::BadName,
        },
    }
}

/// The word of the language that the run is.
fn keyword(run: &[u8]) -> Option<Keyword>
    ensures { result ≡ find (λ k. bytes_eq run.now (keyword_text k)) keywords }
{
    if run == b"array".as_slice() {
        Some(Keyword::Array)
    } else if run == b"fn".as_slice() {
        Some(Keyword::Fn)
    } else if run == b"let".as_slice() {
        Some(Keyword::Let)
    } else if run == b"if".as_slice() {
        Some(Keyword::If)
    } else if run == b"else".as_slice() {
        Some(Keyword::Else)
    } else if run == b"loop".as_slice() {
        Some(Keyword::Loop)
    } else if run == b"while".as_slice() {
        Some(Keyword::While)
    } else if run == b"strict".as_slice() {
        Some(Keyword::Strict)
    } else if run == b"inputs".as_slice() {
        Some(Keyword::Inputs)
    } else {
        None
    }
}

/// Whether the run, which is no word of the language, is a name.
fn is_name(run: &[u8]) -> bool
    ensures { result ≡ is_name run.now }
{
    !matches!(run, [b'_', ..]) && run.len() <= NAME_LEN && !has_double(run) && !is_kept(run)
}

/// Whether two `_` are side by side.
fn has_double(run: &[u8]) -> bool
    ensures { result ≡ has_double run.now }
{
    let mut behind = false;
    for b in run {
        if behind && *b == b'_' {
            return true;
        }
        behind = *b == b'_';
    }
    false
}

/// Whether the run is a reserved word.
fn is_kept(run: &[u8]) -> bool
    ensures { result ≡ list_any (bytes_eq run.now) kept }
{
    is_one_of(run, &KEPT)
}

fn is_one_of(run: &[u8], words: &[&str]) -> bool
    ensures { result ≡ list_any (λ w. bytes_eq run.now w.now) words.now }
{
    words.iter().any(|word| run == word.as_bytes())
}
