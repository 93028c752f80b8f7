//! What is refused, each with its place, and what is accepted in contrast.

use crate::examples::EXAMPLES;
use source::fault::{Fault, FaultKind, ProgramFault};
use source_check::check;
use source_text::read_program;
use source_tokens::position;
use std::alloc::{Allocator, Global};
use std::test::Fail;

/// A program, and the line and the column of its fault.
type Refusal = (&'static [u8], usize, usize);

/// Each kind of fault, and programs that have it.
const REFUSED: [(FaultKind, &[Refusal]); 14] = [
    (
        FaultKind::BadByte,
        &[
            (b"fn main(n) { n ? 1 }", 1, 16),
            // The bytes are checked first of all, and a comment may have any.
            (b"fn main( { // \xff\n  \x80", 2, 3),
        ],
    ),
    (
        FaultKind::BadNumber,
        &[
            (b"fn main(n) { 0x1F }", 1, 14),
            (b"fn main(n) { 007 }", 1, 14),
            (b"fn main(n) { 9223372036854775808 }", 1, 14),
            (b"fn main(n) { n - 9223372036854775808 }", 1, 18),
            (b"fn main(n) { 99999999999999999999 }", 1, 14),
            (b"fn main(n) { -9223372036854775809 }", 1, 15),
            (b"fn main(n) { (9223372036854775808) }", 1, 15),
        ],
    ),
    (
        FaultKind::BadName,
        &[
            (b"fn main(n, a__b) { n }", 1, 12),
            (b"fn main(a23456789012345678901234x) { 1 }", 1, 9),
            (b"fn main(match) { 1 }", 1, 9),
            (b"fn main(_x) { 1 }", 1, 9),
        ],
    ),
    (
        FaultKind::Unexpected,
        &[
            (b"fn main(while) { 1 }", 1, 9),
            (b"fn main(_) { 1 }", 1, 9),
            (b"fn main() { 1 }", 1, 9),
            (b"fn main(n,) { n }", 1, 11),
            (b"fn main(n) { n, }", 1, 17),
            (b"fn main(n) { }", 1, 14),
            (b"fn main(n) { n; }", 1, 17),
            (b"fn main(n) { 1 < n < 3 }", 1, 20),
            (b"fn main(n) { if n { 1 } }", 1, 25),
            (
                b"fn main(n) { loop 4 (i = n) { i - 1 } while i > 0 }",
                1,
                45,
            ),
            (b"let x = 1;", 1, 1),
            (b"fn main(n) { A[0][1] }", 1, 18),
            (b"fn main(n) { 1 } inputs", 1, 18),
            (b"fn main(n) { strict (n) }", 1, 21),
            (b"fn main(n) { n n }", 1, 16),
        ],
    ),
    (
        FaultKind::Unended,
        &[
            (b"fn main(n) { n", 1, 15),
            (b"fn main(n) { // }\n\n", 3, 1),
            (b"fn main(n)", 1, 11),
            // Where the inputs begin, the program ends.
            (b"fn main(n) {\ninputs\n1 }", 2, 1),
        ],
    ),
    (
        FaultKind::NotACell,
        &[
            (b"array A[2];\nfn main(n) { n := 1 }", 2, 16),
            (b"array A[2];\nfn main(n) { 1 + A[0] := 1 }", 2, 23),
            (b"fn main(n) { n := 1 }", 1, 16),
            (b"array A[2];\nfn main(n) { (A[0]) := 1 }", 2, 21),
        ],
    ),
    (
        FaultKind::SameName,
        &[
            (b"fn main(n, n) { n }", 1, 12),
            (b"array f[2];\nfn f(n) { n }", 2, 4),
            (b"array A[2];\narray A[0];", 2, 7),
            (b"fn main(f) { f }\nfn f(x) { x }", 1, 9),
            (b"fn main(n) { let a, a = n, n; a }", 1, 21),
            (b"fn main(n) { let A = x; A }\narray A[1];", 1, 18),
            (
                b"fn main(n) { loop 4 (i = 1, i = 2) while i { i, i } }",
                1,
                29,
            ),
            (b"fn main(n) { loop 4 (main = x) while n { n } }", 1, 22),
        ],
    ),
    (
        FaultKind::BadCount,
        &[
            (b"array A[0];\nfn main(n) { n }", 1, 9),
            (b"array A[65537];\nfn main(n) { n }", 1, 9),
            (b"fn main(n) -> 0 { n }", 1, 15),
            (b"fn main(n) -> 17 { n }", 1, 15),
        ],
    ),
    (
        FaultKind::TooMany,
        &[
            (b"array A[65536];\narray B[1];\nfn main(n) { n }", 2, 9),
            (
                b"fn main(a, b, c, d, e, f, g, h, i, j, k, l, m, n, o, p, q) { a }",
                1,
                57,
            ),
        ],
    ),
    (
        FaultKind::NoMain,
        &[
            (b"fn f(n) { n }\n\n", 3, 1),
            (b"", 1, 1),
            (b"array main[2];", 1, 15),
            (b"fn f(n) { x }", 1, 14),
        ],
    ),
    (
        FaultKind::NoSuchName,
        &[
            (b"fn main(n) { x }", 1, 14),
            (b"fn main(n) { let x = x; x }", 1, 22),
            (b"fn main(n) { g(n) }", 1, 14),
            (b"fn main(n) { A[n] }", 1, 14),
            (
                b"fn main(n) { if n { let y = 1; y } else { 1 + y } }",
                1,
                47,
            ),
            (
                b"fn main(n) { loop 4 (i = n) { let j = i - 1; j } while (i + j) }",
                1,
                61,
            ),
            // What a name stands for decides: a value is no array, and a function no value.
            (b"fn main(n) { n[0] }", 1, 14),
            (b"fn main(n) { 1 + main }", 1, 18),
            // Its own name is looked at before its parts.
            (b"fn main(n) { g(x) }", 1, 14),
            (b"fn main(n) { A[x] := y }", 1, 14),
        ],
    ),
    (
        FaultKind::Arity,
        &[
            (b"fn main(n) { main(n, n) }", 1, 14),
            (b"fn main(n) { n, n }", 1, 12),
            (b"fn two(n) -> 2 { n, n }\nfn main(n) { 1 + two(n) }", 2, 18),
            (b"fn main(n) { let a, b = n; a }", 1, 14),
            (b"fn main(n) { if n { 1, 2 } else { 3 } }", 1, 14),
            (
                b"fn main(n) { 1 + if n { 1 } else if n { 1 } else { 2, 3 } }",
                1,
                34,
            ),
            (b"fn main(n) { loop 4 (i = n) while i { i, i } }", 1, 14),
            (
                b"fn two(n) -> 2 { n, n }\nfn main(n) { if (two(n)) { 1 } else { x } }",
                2,
                18,
            ),
            (
                b"fn two(n) -> 2 { n, n }\nfn main(n) { loop 4 (i = two(n)) while x { i } }",
                2,
                26,
            ),
            (b"fn main(n) { -if n { 1, 2 } else { 3, 4 } }", 1, 15),
        ],
    ),
    (
        FaultKind::BadBound,
        &[
            (b"fn main(n) { loop 1 (i = n) while i { i - 1 } }", 1, 19),
            (b"fn main(n) { loop 65 (i = n) while i { i - 1 } }", 1, 19),
            (b"fn main(n) { loop 0 (main = x) while i { i - 1 } }", 1, 19),
        ],
    ),
    (
        FaultKind::TooWide,
        &[(
            b"fn f(a, b, c, d, e, g, h, i, j, k, l, m, n, o, p, q) { loop 4 (x = 1) while x { a + b + c + d + e + g + h + i + j + k + l + m + n + o + p } }\nfn main(n) { n }",
            1,
            56,
        )],
    ),
];

/// Programs at the edge of what is refused.
const ACCEPTED: [&[u8]; 13] = [
    b"fn main(n) { -9223372036854775808 - -9223372036854775808 }",
    b"fn main(a234567890123456789012_4) { 1 }",
    b"fn main(n) { loop 4 (i = n) { i - 1 } while (i > 0) }",
    b"array A[2];\nfn main(n) { 1 + (A[0] := 1 + n) }",
    b"array A[2];\nfn main(n) { A[0] := A[1] := n }",
    b"fn main(n) { let n = n + 1; let _, n, _ = 1, n, 2; n }",
    b"fn two(n) -> 2 { n, n }\nfn main(n) { add(two(n)) }\nfn add(a, b) { a + b }",
    b"fn two(n) -> 2 { n, n }\nfn main(n) -> 3 { (two(n)), n }",
    b"fn main(n) { if n > 0 { main(n - 1) } else { 7 } }",
    b"fn main(n)->1{let a=1;a--n*-3+~-n&1|n^2<<1>>n}",
    b"array A[65536];\nfn main(n) { loop 64 (i = n) while i { loop 2 (i = i) while i { i - 1 } } }",
    b"fn main(a, b, c, d, e, f, g, h, i, j, k, l, m, n, o, p) -> 16 { a, b, c, d, e, f, g, h, i, j, k, l, m, n, o, p }",
    b"fn main(a, b, c, d, e, g, h, i, j, k, l, m, n, o) { loop 4 (x = 1) while x { a + b + c + d + e + g + h + i + j + k + l + m + n + o } }",
];

/// The first fault of a text, by the reader or by the rules.
fn fault_of(alloc: Global, text: &[u8]) -> Option<ProgramFault> {
    let source = match read_program(alloc, text) {
        Ok(source) => source,
        Err(refusal) => return Some(refusal.fault),
    };
    let text = source.text;
    let Fault { kind, at } = check(&alloc, text.len(), source.program).err()?.fault;
    let place = position(text, at);
    Some(ProgramFault {
        kind,
        line: place.line,
        column: place.column,
    })
}

#[test]
fn refused(rt: HostRuntime) -> Result<(), Fail> {
    for (kind, refusals) in REFUSED {
        for (i, (text, line, column)) in refusals.iter().enumerate() {
            let Some(fault) = fault_of(rt.alloc(), text) else {
                assert!(rt; false, "{kind}, {i}: accepted");
                continue;
            };
            assert_eq!(rt; fault.kind, kind, "{i}");
            assert_eq!(rt; (fault.line, fault.column), (*line, *column), "{kind}, {i}");
        }
    }
    Ok(())
}

#[test]
fn accepted(rt: HostRuntime) -> Result<(), Fail> {
    for (i, text) in ACCEPTED.iter().enumerate() {
        if let Some(fault) = fault_of(rt.alloc(), text) {
            assert!(rt; false, "program {i}: {fault}");
        }
    }
    Ok(())
}

/// The 65th array is refused at its name, and 64 are not.
#[test]
fn too_many_arrays(rt: HostRuntime) -> Result<(), Fail> {
    let mut text = Vec::new(rt.alloc());
    for first in b"ABCDEFGH" {
        for second in b"abcdefgh" {
            text.extend_from_slice(&[b'a', b'r', b'r', b'a', b'y', b' ', *first, *second])?;
            text.extend_from_slice(b"[1];\n")?;
        }
    }
    let arrays = text.len();
    text.extend_from_slice(b"fn main(n) { n }")?;
    assert!(rt; fault_of(rt.alloc(), &text).is_none());
    text.truncate(arrays);
    text.extend_from_slice(b"array Z[1];\nfn main(n) { n }")?;
    let Some(fault) = fault_of(rt.alloc(), &text) else {
        assert!(rt; false, "65 arrays are accepted");
        return Ok(());
    };
    assert_eq!(rt; fault.kind, FaultKind::TooMany);
    assert_eq!(rt; (fault.line, fault.column), (65, 7));
    Ok(())
}

/// Each example keeps the rules, has so many names, and its inputs so many bytes.
#[test]
fn examples(rt: HostRuntime) -> Result<(), Fail> {
    for (i, (text, names, inputs)) in EXAMPLES.iter().enumerate() {
        let source = read_program(rt.alloc(), text)?;
        assert_eq!(rt;
            (source.program.names.len(), source.inputs.len()),
            (*names, *inputs)
        );
        assert!(rt; fault_of(rt.alloc(), text).is_none(), "example {i}");
    }
    Ok(())
}
