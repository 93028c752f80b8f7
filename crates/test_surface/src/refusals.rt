//! Texts that are read, and texts that are refused, each with its fault, its line and its column.

use source::fault::FaultKind as CoreKind;
use std::test::Fail;
use surface::fault::FaultKind;
use surface_text::read_program;

/// Texts with a fault that programs of the core may have, too.
const REFUSED: [(&[u8], CoreKind, usize, usize); 28] = [
    (b"fn main(n) { n + . }", CoreKind::BadByte, 1, 18),
    (
        b"fn main(n) { for i in 0..n {... } }",
        CoreKind::BadByte,
        1,
        31,
    ),
    (b"fn main(n) { !n }", CoreKind::BadByte, 1, 14),
    (b"fn main(n) { true }", CoreKind::BadName, 1, 14),
    (b"fn main(n) { let match = n; n }", CoreKind::BadName, 1, 18),
    (
        b"fn main(n) { let for = n; n }",
        CoreKind::Unexpected,
        1,
        18,
    ),
    (b"fn main(n) { n .. 3 }", CoreKind::Unexpected, 1, 16),
    (
        b"fn main(n) { if n > 1 { n } }",
        CoreKind::Unexpected,
        1,
        29,
    ),
    (
        b"fn main(n) { n, if n > 1 { n }; n }",
        CoreKind::Unexpected,
        1,
        31,
    ),
    (
        b"fn main(n) { let x = if n > 1 { n } else if n { n }; x }",
        CoreKind::Unexpected,
        1,
        52,
    ),
    (
        b"fn main(n) { if n > 1 { n } + 3; n }",
        CoreKind::Unexpected,
        1,
        29,
    ),
    (b"fn main(n) { }", CoreKind::Unexpected, 1, 14),
    (
        b"fn main(n) { for i = 0..n { i } }",
        CoreKind::Unexpected,
        1,
        20,
    ),
    (
        b"fn main(n) { for i in 0 { i } }",
        CoreKind::Unexpected,
        1,
        25,
    ),
    (
        b"fn main(n) { for i in 0..n with { i } }",
        CoreKind::Unexpected,
        1,
        33,
    ),
    (
        b"fn main(n) { for i in 0..n; n }",
        CoreKind::Unexpected,
        1,
        27,
    ),
    (
        b"fn main(n) { for 4 4 in 0..n { i } }",
        CoreKind::Unexpected,
        1,
        20,
    ),
    (
        b"fn main(n) { for 4 i j in 0..n { i } }",
        CoreKind::Unexpected,
        1,
        22,
    ),
    (b"fn main(n) { 1 + not n }", CoreKind::Unexpected, 1, 18),
    (b"fn main(A[ {", CoreKind::Unexpected, 1, 12),
    (b"fn main([]) { 1 }", CoreKind::Unexpected, 1, 9),
    (b"const N 8;", CoreKind::Unexpected, 1, 9),
    (b"const N = ;", CoreKind::Unexpected, 1, 11),
    (
        b"const N = 8, 9;\nfn main(n) { n }",
        CoreKind::Unexpected,
        1,
        12,
    ),
    (b"const N = 8", CoreKind::Unended, 1, 12),
    (
        b"fn main(n) { for i in 0..n := 3 { i } }",
        CoreKind::NotACell,
        1,
        28,
    ),
    (
        b"fn main(n) { for 9223372036854775808 i in 0..n { i } }",
        CoreKind::BadNumber,
        1,
        18,
    ),
    (
        b"const N = 8;\nfn main(n) { for N N i in 0..n { N } }",
        CoreKind::Unexpected,
        2,
        22,
    ),
];

#[test]
fn refused(rt: HostRuntime) -> Result<(), Fail> {
    for (text, kind, line, column) in REFUSED {
        match read_program(rt.alloc(), text) {
            Ok(_) => assert!(rt; false, "line {line}, column {column} is accepted"),
            Err(refusal) => {
                assert_eq!(rt;
                    refusal.fault.kind,
                    FaultKind::Core { kind },
                    "{line}, {column}"
                );
                assert_eq!(rt; (refusal.fault.line, refusal.fault.column), (line, column));
            }
        }
    }
    Ok(())
}

/// Texts with a comment that does not end.
const OPEN_COMMENTS: [(&[u8], usize, usize); 2] = [
    (b"fn main(n) { /* n }", 1, 14),
    (b"fn main(n) { /*/ n }", 1, 14),
];

#[test]
fn open_comments(rt: HostRuntime) -> Result<(), Fail> {
    for (text, line, column) in OPEN_COMMENTS {
        match read_program(rt.alloc(), text) {
            Ok(_) => assert!(rt; false, "line {line}, column {column} is accepted"),
            Err(refusal) => {
                assert_eq!(rt; refusal.fault.kind, FaultKind::BadComment);
                assert_eq!(rt; (refusal.fault.line, refusal.fault.column), (line, column));
            }
        }
    }
    Ok(())
}

/// Texts that are read: they keep the rules, or their faults are of those.
const ACCEPTED: [&[u8]; 70] = [
    b"fn main(n) { /**/ n /* a /* b // c */ + 1 }",
    b"fn main(n) { // /*\nn /* \n*/ }",
    b"fn main(n) { if n > 1 { n } else if n { n }; n }",
    b"fn main(n) { if n > 1 { n } else { 1 } + 3, 4; n }",
    b"fn main(n) { 1 + (not n) and not not n or n }",
    b"const N = 8;\nconst N = 9;\nfn main(n) { n }",
    b"const N = 8;\nfn main(N) { 1 }",
    b"const N = 8;\nfn main(n) { for N in 0..n { N } }",
    b"fn main(n) { for i in 0..n with i = 0 { i } }",
    b"fn main(n) { for i in 0..n with s = 0, s = 1 { i, i } }",
    b"array A[4];\nfn f(A[], n) { n }\nfn main(n) { n }",
    b"fn f(T[], T) { T }\nfn main(n) { n }",
    b"fn f(T[], n) { let T = n; T }\nfn main(n) { n }",
    b"const N = 9223372036854775807 + 1;\nfn main(n) { n }",
    b"const N = 8 / 0;\nfn main(n) { n }",
    b"const N = 1 << 64;\nfn main(n) { n }",
    b"const N = 1 << 63;\nfn main(n) { n }",
    b"const N = -9223372036854775808;\nconst M = -N;\nfn main(n) { n }",
    b"const N = main(8);\nfn main(n) { n }",
    b"const N = 1 and 2;\nfn main(n) { n }",
    b"array A[8];\nconst N = A;\nfn main(n) { n }",
    b"array A[8];\nconst N = A[0];\nfn main(n) { n }",
    b"const N = M;\nconst M = 8;\nfn main(n) { n }",
    b"array A[N];\nconst N = 8;\nfn main(n) { n }",
    b"fn main(n) -> K { n }\nconst K = 1;",
    b"fn main(n) { K }\nconst K = 1;",
    b"const N = 0;\narray A[N];\nfn main(n) { n }",
    b"const N = 8;\narray A[N - 9];\nfn main(n) { n }",
    b"array A[256, 257];\nfn main(n) { n }",
    b"array A[4, 0, 4];\nfn main(n) { n }",
    b"array A[256, 255];\narray B[16, 32];\nfn main(n) { n }",
    b"const K = 17;\nfn main(n) -> K { n }",
    b"array A[2, 2, 2, 2];\nfn main(n) { n }",
    b"fn f(T[,,,], n) { n }\nfn main(n) { n }",
    b"fn main(n, T[]) { n }",
    b"fn f(T[]) { T[0] }\nfn main(n) { n }",
    b"fn main(n) { for 1 i in 0..n { i } }",
    b"const K = 65;\nfn main(n) { loop K (i = 0) while i < n { i + 1 } }",
    b"fn main(n) { for K i in 0..n { i } }",
    b"fn main(n) { for f i in 0..n { i } }\nfn f(x) { x }",
    b"fn main(n) { for i in 0..i { i } }",
    b"fn main(n) { for i in 0..n with s = 0, t = s { s, t } }",
    b"fn main(n) { for i in 0..n { i }, i }",
    b"array A[8];\nfn main(n) { A[0], A, B[0] }",
    b"fn main(n) { strict min(n, n) }",
    b"fn main(n) { len(n) }",
    b"array A[8];\nfn main(n) { abs(n, A) }",
    b"fn main(n) { min(n) }",
    b"fn main(n) { for i in 0..n with s = 0 { s, s } }",
    b"fn f(n) -> 2 { n, n }\nfn main(n) { for i in f(n)..n { i } }",
    b"fn f(n) -> 2 { n, n }\nfn main(n) { if f(n) { n }; n }",
    b"fn f(n) -> 2 { n, n }\nfn main(n) { f(n) and n }",
    b"fn f(n) -> 2 { n, n }\nfn main(n) { not f(n) }",
    b"array A[4, 4];\nfn main(n) { A[n] }",
    b"array A[4];\nfn main(n) { A[n, n] := 1 }",
    b"fn f(T[,], n) { T[n] }\nfn main(n) { n }",
    b"fn f(T[,], n) { f(T, T, n) }\nfn main(n) { n }",
    b"array A[4];\nfn f(T[,], n) { T[n, n] }\nfn main(n) { f(A, n) }",
    b"array A[4];\nfn f(T[], n) { T[n] }\nfn main(n) { f(n, A) }",
    b"array A[4];\nfn f(T[], n) { T[n] }\nfn main(n) { f((A), n) }",
    b"array A[4];\nfn f(n, T[], m, k) { T[n] }\nfn g(n) -> 2 { n, n }\nfn main(n) { f(n, A, g(n)) }",
    b"array A[4];\nfn main(n) { len(A, 1) }",
    b"array A[4];\nfn main(n) { len(A, f) }\nfn f(x) { x }",
    b"array A[4];\nfn main(n) { len(A, m) }",
    b"array A[4];\nfn min(x) { x }\nfn main(n) { min(n) + max(n, len(A)) }",
    b"const N = 8;",
    b"fn main(a, b, c, d, e, f, g, h, i, j, k, l, m, n) { (for x in 0..n with s = 0 { a + b + c + d + e + f + g + h + i + j + k + l + m + n })\n}",
    b"fn main(a, b, c, d, e, f, g, h, i, j, k, l, m, n) { for x in 0..n with s = 0 { a + b + c + d + e + f + g + h + i + j + k + l + n }\n}",
    b"fn main(a, b, c, d, e, f, g, h, i, j, k, l, m, n) { for x in 0..n - 1 with s = 0 { a + b + c + d + e + f + g + h + i + j + k + l + n }\n}",
    b"fn main(a, b, c, d, e, f, g, h, i, j, k, l, m, n) { for x in 0..9 with s = 0 { a + b + c + d + e + f + g + h + i + j + k + l + n }\n}",
];

#[test]
fn accepted(rt: HostRuntime) -> Result<(), Fail> {
    for (number, text) in ACCEPTED.iter().enumerate() {
        assert!(rt; read_program(rt.alloc(), text).is_ok(), "{number}");
    }
    Ok(())
}
