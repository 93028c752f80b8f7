//! Tokens, and faults with their places.

use source_tokens::{name_at, position};
use std::test::Fail;
use surface::fault::FaultKind;
use surface::token::{Keyword, Sign, Token, TokenKind};
use surface_tokens::lex;

fn word(keyword: Keyword, at: usize) -> Token {
    Token {
        kind: TokenKind::Word { keyword },
        at,
    }
}

fn core_word(keyword: source::token::Keyword, at: usize) -> Token {
    word(Keyword::Core { keyword }, at)
}

fn mark(sign: Sign, at: usize) -> Token {
    Token {
        kind: TokenKind::Mark { sign },
        at,
    }
}

fn core_mark(sign: source::token::Sign, at: usize) -> Token {
    mark(Sign::Core { sign }, at)
}

fn number(number: u64, at: usize) -> Token {
    Token {
        kind: TokenKind::Number { number },
        at,
    }
}

fn name(len: usize, at: usize) -> Token {
    Token {
        kind: TokenKind::Name { len },
        at,
    }
}

/// A `for` with its range, its names and a comment of two lines.
#[test]
fn a_loop(rt: HostRuntime) -> Result<(), Fail> {
    let program = b"for 8 in_1 in 0..n with s = /* one\n// two */ -3 { s } // }";
    let tokens = lex(rt.alloc(), program)?;
    let expected = [
        word(Keyword::For, 0),
        number(8, 4),
        name(4, 6),
        word(Keyword::In, 11),
        number(0, 14),
        mark(Sign::Range, 15),
        name(1, 17),
        word(Keyword::With, 19),
        name(1, 24),
        core_mark(source::token::Sign::Equals, 26),
        core_mark(source::token::Sign::Minus, 45),
        number(3, 46),
        core_mark(source::token::Sign::OpenBrace, 48),
        name(1, 50),
        core_mark(source::token::Sign::CloseBrace, 52),
    ];
    assert_eq!(rt; tokens.as_slice(), expected.as_slice());
    assert_eq!(rt; name_at(program, 6, 4), b"in_1".as_slice());
    Ok(())
}

/// Each word, and names that begin as the new words do.
#[test]
fn each_word(rt: HostRuntime) -> Result<(), Fail> {
    let words = lex(
        rt.alloc(),
        b"const for in with and or not array fn let if else loop while strict inputs fort nota In",
    )?;
    let expected = [
        word(Keyword::Const, 0),
        word(Keyword::For, 6),
        word(Keyword::In, 10),
        word(Keyword::With, 13),
        word(Keyword::And, 18),
        word(Keyword::Or, 22),
        word(Keyword::Not, 25),
        core_word(source::token::Keyword::Array, 29),
        core_word(source::token::Keyword::Fn, 35),
        core_word(source::token::Keyword::Let, 38),
        core_word(source::token::Keyword::If, 42),
        core_word(source::token::Keyword::Else, 45),
        core_word(source::token::Keyword::Loop, 50),
        core_word(source::token::Keyword::While, 55),
        core_word(source::token::Keyword::Strict, 61),
        core_word(source::token::Keyword::Inputs, 68),
        name(4, 75),
        name(4, 80),
        name(2, 85),
    ];
    assert_eq!(rt; words.as_slice(), expected.as_slice());
    Ok(())
}

/// Signs side by side: what begins with `/` or `.`, and what is near it.
#[test]
fn near_signs(rt: HostRuntime) -> Result<(), Fail> {
    let signs = lex(rt.alloc(), b"/ /*/*/*/ **/.._..:=/**//")?;
    let expected = [
        core_mark(source::token::Sign::Slash, 0),
        core_mark(source::token::Sign::Star, 7),
        core_mark(source::token::Sign::Slash, 8),
        core_mark(source::token::Sign::Star, 10),
        core_mark(source::token::Sign::Star, 11),
        core_mark(source::token::Sign::Slash, 12),
        mark(Sign::Range, 13),
        core_mark(source::token::Sign::Underscore, 15),
        mark(Sign::Range, 16),
        core_mark(source::token::Sign::Becomes, 18),
        core_mark(source::token::Sign::Slash, 24),
    ];
    assert_eq!(rt; signs.as_slice(), expected.as_slice());
    Ok(())
}

/// Texts with a comment that does not end, and its line and column.
const OPEN_COMMENTS: [(&[u8], usize, usize); 5] = [
    (b"fn main(n) { /* n }", 1, 14),
    (b"a\n /*/", 2, 2),
    (b"/*", 1, 1),
    (b"/* * /", 1, 1),
    (b"/* /* */ */ /*", 1, 13),
];

#[test]
fn open_comments(rt: HostRuntime) -> Result<(), Fail> {
    for (program, line, column) in OPEN_COMMENTS {
        match lex(rt.alloc(), program) {
            Ok(_) => assert!(rt; false, "line {line}, column {column} is accepted"),
            Err(fault) => {
                assert_eq!(rt; fault.kind, FaultKind::BadComment);
                let place = position(program, fault.at);
                assert_eq!(rt; (place.line, place.column), (line, column));
            }
        }
    }
    Ok(())
}

/// Texts with a fault that the core has, too, and its line and column.
const REFUSED: [(&[u8], source::fault::FaultKind, usize, usize); 11] = [
    (b"/***/ .", source::fault::FaultKind::BadByte, 1, 7),
    (b"a.b", source::fault::FaultKind::BadByte, 1, 2),
    (b"0...n", source::fault::FaultKind::BadByte, 1, 4),
    (b"/* ?\n */ ?", source::fault::FaultKind::BadByte, 2, 5),
    (
        b"for i in 0..n { !i }",
        source::fault::FaultKind::BadByte,
        1,
        17,
    ),
    (b"0..01", source::fault::FaultKind::BadNumber, 1, 4),
    (
        b"0..9223372036854775809",
        source::fault::FaultKind::BadNumber,
        1,
        4,
    ),
    (b"for true in", source::fault::FaultKind::BadName, 1, 5),
    (b"and\nxor", source::fault::FaultKind::BadName, 2, 1),
    (b"in__", source::fault::FaultKind::BadName, 1, 1),
    (b"_for", source::fault::FaultKind::BadName, 1, 1),
];

#[test]
fn refused(rt: HostRuntime) -> Result<(), Fail> {
    for (program, kind, line, column) in REFUSED {
        match lex(rt.alloc(), program) {
            Ok(_) => assert!(rt; false, "line {line}, column {column} is accepted"),
            Err(fault) => {
                assert_eq!(rt; fault.kind, FaultKind::Core { kind });
                let place = position(program, fault.at);
                assert_eq!(rt; (place.line, place.column), (line, column));
            }
        }
    }
    Ok(())
}

/// Texts at the edge of what is refused, and how many tokens they have.
const ACCEPTED: [(&[u8], usize); 10] = [
    (b"/**/", 0),
    (b"/*\xff\x00\n\r\n*/a", 1),
    (b"/***/a/****/b", 2),
    (b"a/* b // */c", 2),
    (b"a// /*\nb", 2),
    (b"0..1..2", 5),
    (b"a..b", 3),
    (b"not-not~not", 5),
    (b"a234567890123456789012_4", 1),
    (b"", 0),
];

#[test]
fn accepted(rt: HostRuntime) -> Result<(), Fail> {
    for (program, count) in ACCEPTED {
        assert_eq!(rt; lex(rt.alloc(), program)?.len(), count);
    }
    Ok(())
}
