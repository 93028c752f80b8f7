//! Tokens, and faults with their places.

use source::fault::FaultKind;
use source::token::{Keyword, Sign, Token, TokenKind};
use source_tokens::{lex, name_at, position};
use std::test::Fail;

fn word(keyword: Keyword, at: usize) -> Token {
    Token {
        kind: TokenKind::Word { keyword },
        at,
    }
}

fn mark(sign: Sign, at: usize) -> Token {
    Token {
        kind: TokenKind::Mark { sign },
        at,
    }
}

fn number(number: u64, at: usize) -> Token {
    Token {
        kind: TokenKind::Number { number },
        at,
    }
}

fn name(len: usize, at: usize) -> Token {
    Token {
        kind: TokenKind::Name { len },
        at,
    }
}

#[test]
fn a_function(rt: HostRuntime) -> Result<(), Fail> {
    let program = b"fn fib(n) -> 2 {\r\n\tn,n // both\r\n}\n";
    let tokens = lex(rt.alloc(), program)?;
    let expected = [
        word(Keyword::Fn, 0),
        name(3, 3),
        mark(Sign::OpenParen, 6),
        name(1, 7),
        mark(Sign::CloseParen, 8),
        mark(Sign::Arrow, 10),
        number(2, 13),
        mark(Sign::OpenBrace, 15),
        name(1, 19),
        mark(Sign::Comma, 20),
        name(1, 21),
        mark(Sign::CloseBrace, 32),
    ];
    assert_eq!(rt; tokens.as_slice(), expected.as_slice());
    assert_eq!(rt; name_at(program, 3, 3), b"fib".as_slice());
    assert_eq!(rt; name_at(program, 32, 3), b"}\n".as_slice());
    assert_eq!(rt; name_at(program, 99, 3), b"".as_slice());
    Ok(())
}

/// Each word, and names that begin as words do.
#[test]
fn each_word(rt: HostRuntime) -> Result<(), Fail> {
    let words = lex(
        rt.alloc(),
        b"array fn let if else loop while strict inputs iff Let",
    )?;
    let expected = [
        word(Keyword::Array, 0),
        word(Keyword::Fn, 6),
        word(Keyword::Let, 9),
        word(Keyword::If, 13),
        word(Keyword::Else, 16),
        word(Keyword::Loop, 21),
        word(Keyword::While, 26),
        word(Keyword::Strict, 32),
        word(Keyword::Inputs, 39),
        name(3, 46),
        name(3, 50),
    ];
    assert_eq!(rt; words.as_slice(), expected.as_slice());
    Ok(())
}

/// Each sign, with the least space between.
#[test]
fn each_sign(rt: HostRuntime) -> Result<(), Fail> {
    let signs = lex(rt.alloc(), b"->:=<<>>==!=<=>=< > = + -*/%&^|~()[]{},;_")?;
    let expected = [
        mark(Sign::Arrow, 0),
        mark(Sign::Becomes, 2),
        mark(Sign::ShiftLeft, 4),
        mark(Sign::ShiftRight, 6),
        mark(Sign::EqualTo, 8),
        mark(Sign::NotEqualTo, 10),
        mark(Sign::AtMost, 12),
        mark(Sign::AtLeast, 14),
        mark(Sign::Less, 16),
        mark(Sign::Greater, 18),
        mark(Sign::Equals, 20),
        mark(Sign::Plus, 22),
        mark(Sign::Minus, 24),
        mark(Sign::Star, 25),
        mark(Sign::Slash, 26),
        mark(Sign::Percent, 27),
        mark(Sign::Ampersand, 28),
        mark(Sign::Caret, 29),
        mark(Sign::Bar, 30),
        mark(Sign::Tilde, 31),
        mark(Sign::OpenParen, 32),
        mark(Sign::CloseParen, 33),
        mark(Sign::OpenBracket, 34),
        mark(Sign::CloseBracket, 35),
        mark(Sign::OpenBrace, 36),
        mark(Sign::CloseBrace, 37),
        mark(Sign::Comma, 38),
        mark(Sign::Semicolon, 39),
        mark(Sign::Underscore, 40),
    ];
    assert_eq!(rt; signs.as_slice(), expected.as_slice());
    Ok(())
}

/// Texts with a fault, and its line and column.
const REFUSED: [(&[u8], FaultKind, usize, usize); 22] = [
    (b"fn main(n) { n ? 1 }", FaultKind::BadByte, 1, 16),
    (b"fn main(n) { 0x1F }", FaultKind::BadNumber, 1, 14),
    (b"fn main(n) { 007 }", FaultKind::BadNumber, 1, 14),
    (
        b"fn main(n) { 99999999999999999999 }",
        FaultKind::BadNumber,
        1,
        14,
    ),
    (
        b"fn main(n) { -9223372036854775809 }",
        FaultKind::BadNumber,
        1,
        15,
    ),
    (b"fn main(n, a__b) { n }", FaultKind::BadName, 1, 12),
    (
        b"fn main(a23456789012345678901234x) { 1 }",
        FaultKind::BadName,
        1,
        9,
    ),
    (b"fn main(match) { 1 }", FaultKind::BadName, 1, 9),
    (b"fn main(_x) { 1 }", FaultKind::BadName, 1, 9),
    (b"__", FaultKind::BadName, 1, 1),
    (b"a_b_c__", FaultKind::BadName, 1, 1),
    (b"1_000", FaultKind::BadNumber, 1, 1),
    (b"1e3", FaultKind::BadNumber, 1, 1),
    (b"00", FaultKind::BadNumber, 1, 1),
    (b"a && b ! c", FaultKind::BadByte, 1, 8),
    (b"a : b", FaultKind::BadByte, 1, 3),
    (b"a.b", FaultKind::BadByte, 1, 2),
    (b"a\r\n\r\n  \x80", FaultKind::BadByte, 3, 3),
    (b"// ? \xff\n\"", FaultKind::BadByte, 2, 1),
    (b"a\n/ / ?", FaultKind::BadByte, 2, 5),
    (b"xor\n?", FaultKind::BadName, 1, 1),
    (b"\x00", FaultKind::BadByte, 1, 1),
];

#[test]
fn refused(rt: HostRuntime) -> Result<(), Fail> {
    for (program, kind, line, column) in REFUSED {
        match lex(rt.alloc(), program) {
            Ok(_) => assert!(rt; false, "line {line}, column {column} is accepted"),
            Err(fault) => {
                assert_eq!(rt; fault.kind, kind);
                let place = position(program, fault.at);
                assert_eq!(rt; (place.line, place.column), (line, column));
            }
        }
    }
    Ok(())
}

/// Texts at the edge of what is refused, and how many tokens they have.
const ACCEPTED: [(&[u8], usize); 9] = [
    (b"fn main(a234567890123456789012_4) { 1 }", 8),
    (b"-9223372036854775808", 2),
    (b"0", 1),
    (b"a_b _ c_", 3),
    (b"matched Match", 2),
    (b"// a\nb", 1),
    (b"a// b\r\nc\x0d", 2),
    (b"--~~-~", 6),
    (b"", 0),
];

#[test]
fn accepted(rt: HostRuntime) -> Result<(), Fail> {
    for (program, count) in ACCEPTED {
        assert_eq!(rt; lex(rt.alloc(), program)?.len(), count);
    }
    Ok(())
}

#[test]
fn places(rt: HostRuntime) {
    let program = b"ab\n\ncd";
    for (at, line, column) in [
        (0, 1, 1),
        (2, 1, 3),
        (3, 2, 1),
        (4, 3, 1),
        (5, 3, 2),
        (6, 3, 3),
        (99, 3, 3),
    ] {
        let place = position(program, at);
        assert_eq!(rt; (place.line, place.column), (line, column), "at {at}");
    }
}
