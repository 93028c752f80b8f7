//! Programs with the texts of the graphs that they are lowered to.

/// The graph of each example, in their order.
pub(crate) const GRAPHS: [&[u8]; 14] = [
    COLLATZ,
    EVEN_ODD,
    FACTORIAL,
    FAULTS,
    FIBONACCI,
    GCD,
    MATRIX_PRODUCT,
    MAXIMUM,
    PRECEDENCE,
    PREFIX_SUMS,
    PRODUCER_CONSUMER,
    SQUARE_ROOT,
    SUM,
    WAVEFRONT,
];

/// Small programs, each with its graph.
pub(crate) const SMALL: [(&[u8], &[u8]); 19] = [
    (b"fn main(n) { 5 - -5 }", LITERALS_SMALL),
    (b"fn main(n) { -9223372036854775808 }", LEAST_SMALL),
    (b"fn main(n) { -n + ~-(n) - -(5) }", SIGNS_SMALL),
    (
        b"fn main(n) { n - 2 * n - n << 1 & n ^ n | n }",
        ARITHMETIC_SMALL,
    ),
    (
        b"fn main(a, b) { (a > b) + (a >= b) + (a < b) + (a <= b) }",
        SWAPPED_SMALL,
    ),
    (
        b"array A[2]; fn main(n) { A[1] := n + 3; A[1] }",
        CELLS_SMALL,
    ),
    (
        b"array A[2]; array B[3]; fn main(n) { A[0] := B[n] := 7 }",
        STORED_TWICE_SMALL,
    ),
    (
        b"fn pair(a, b) -> 2 { b, a } fn main(n) { let x, _ = pair(pair(n, 1)); x }",
        PAIRS_SMALL,
    ),
    (
        b"array A[1]; fn f(x, y) { y } fn main(n) { strict f(A[0], n) }",
        STRICT_CALL_SMALL,
    ),
    (
        b"fn main(n) { if n <= 1 { 1 } else { n * main(n - 1) } }",
        FACTORIAL_SMALL,
    ),
    (
        b"fn main(n) { if n { n } else if n + 1 { 2 } else { n, 3; 4 } }",
        ELSE_IF_SMALL,
    ),
    (
        b"fn main(a, b) -> 2 { let c = a; if a { b, a + c } else { let b = c; b, b } }",
        TWO_ARMS_SMALL,
    ),
    (
        b"fn main(n) { let i, s = loop 2 (i = 0, s = 0) while i < n { i + 1, s + i }; s }",
        SUM_UP_SMALL,
    ),
    (
        b"fn main(n) { loop 2 (i = 0) { i + 1 } while (n > i) }",
        COUNT_UP_SMALL,
    ),
    (
        b"fn f(n, m) { loop 3 (i = loop 2 (j = n) { j - 1 } while (j)) while loop 4 (k = i) while k { m } { loop 64 (i = i) { n } while (0) } } fn main(n) { f(n, 2); loop 2 (i = n) while i { i - 1 } }",
        NESTED_SMALL,
    ),
    (
        b"fn main(n) { let n = n + 1; let _, n, _ = 1, n, 2; n }",
        HIDDEN_SMALL,
    ),
    (b"fn main(n) -> 3 { let a = n; a, a, n }", SHARED_SMALL),
    (b"array A[2]; fn main(n) { A[n] := 1 }", MISSES_SMALL),
    (b"fn main(n) { n / 0 > n % 0 }", TWO_FAULTS_SMALL),
];

const COLLATZ: &[u8] = br#"etsgraph 2
block steps 1 1
- lit 0 0.0
- loop steps__1 4 0.0 1.0
out 2.1
end
block steps__1 2 3
- lit 1 0.0
- ne 0.0 2.0
- cond 3.0
4+ enter 0.0
4+ enter 1.0
4+ lit 2 5.0
4+ rem 5.0 7.0
4+ lit 0 5.0
4+ eq 8.0 9.0
4+ cond 10.0
11+ enter 5.0
11+ lit 2 12.0
11+ div 12.0 13.0
11- enter 5.0
11- lit 3 15.0
11- mul 16.0 15.0
11- lit 1 15.0
11- add 17.0 18.0
4+ merge 11 14.0 19.0
4+ lit 1 5.0
4+ add 6.0 21.0
4- enter 0.0
4- enter 1.0
- merge 4 20.0 23.0
- merge 4 22.0 24.0
out 3.0 25.0 26.0
end
block longest 1 2
- lit 1 0.0
- lit -1 0.0
- lit 0 0.0
- loop longest__1 8 1.0 2.0 3.0 0.0
out 4.2 4.1
end
block longest__1 4 5
- call steps 0.0
- lt 1.0 4.0
- lit 1 0.0
- add 0.0 6.0
- cond 5.0
8+ enter 4.0
8+ enter 0.0
8- enter 1.0
8- enter 2.0
- merge 8 9.0 11.0
- merge 8 10.0 12.0
- lt 7.0 3.0
out 15.0 7.0 13.0 14.0 3.0
end
block main 1 3
- call steps 0.0
- lit 30 0.0
- call longest 2.0
out 1.0 3.0 3.1
end
main main
"#;

const EVEN_ODD: &[u8] = br#"etsgraph 2
block is_even 1 1
- lit 0 0.0
- eq 0.0 1.0
- cond 2.0
3+ enter 2.0
3+ lit 1 4.0
3- enter 0.0
3- lit 1 6.0
3- sub 6.0 7.0
3- call is_odd 8.0
- merge 3 5.0 9.0
out 10.0
end
block is_odd 1 1
- lit 0 0.0
- eq 0.0 1.0
- cond 2.0
3+ enter 2.0
3+ lit 0 4.0
3- enter 0.0
3- lit 1 6.0
3- sub 6.0 7.0
3- scall is_even 8.0
- merge 3 5.0 9.0
out 10.0
end
block main 1 2
- call is_even 0.0
- call is_odd 0.0
out 1.0 2.0
end
main main
"#;

const FACTORIAL: &[u8] = br#"etsgraph 2
block factorial 1 1
- lit 1 0.0
- le 0.0 1.0
- cond 2.0
3+ enter 2.0
3+ lit 1 4.0
3- enter 0.0
3- lit 1 6.0
3- sub 6.0 7.0
3- call factorial 8.0
3- mul 6.0 9.0
- merge 3 5.0 10.0
out 11.0
end
block main 1 1
- call factorial 0.0
out 1.0
end
main main
"#;

const FAULTS: &[u8] = br#"etsgraph 2
array A 4
block main 1 4
- lit 0 0.0
- div 0.0 1.0
- lit 9 0.0
- store A 3.0 0.0
- cond 2.0
5+ enter 2.0
5+ lit 1 6.0
5- enter 2.0
5- lit 2 8.0
- merge 5 7.0 9.0
- fetch A 2.0
- lit 5 0.0
- store A 0.0 12.0
- fetch A 0.0
- add 13.0 14.0
out 4.0 10.0 11.0 15.0
end
main main
"#;

const FIBONACCI: &[u8] = br#"etsgraph 2
block fib 1 1
- lit 2 0.0
- lt 0.0 1.0
- cond 2.0
3+ enter 0.0
3- enter 0.0
3- lit 1 5.0
3- sub 5.0 6.0
3- call fib 7.0
3- lit 2 5.0
3- sub 5.0 9.0
3- call fib 10.0
3- add 8.0 11.0
- merge 3 4.0 12.0
out 13.0
end
block fib_loop 1 2
- lit 0 0.0
- lit 1 0.0
- loop fib_loop__1 4 0.0 1.0 2.0
out 3.1 3.2
end
block fib_loop__1 3 4
- lit 0 0.0
- lt 3.0 0.0
- cond 4.0
5+ enter 0.0
5+ enter 2.0
5+ enter 1.0
5+ lit 1 6.0
5+ sub 6.0 9.0
5+ add 8.0 7.0
5- enter 0.0
5- enter 1.0
5- enter 2.0
- merge 5 10.0 12.0
- merge 5 7.0 13.0
- merge 5 11.0 14.0
out 4.0 15.0 16.0 17.0
end
block main 1 3
- call fib 0.0
- call fib_loop 0.0
out 1.0 2.0 2.1
end
main main
"#;

const GCD: &[u8] = br#"etsgraph 2
block gcd 2 1
- lit 0 0.0
- eq 1.0 2.0
- cond 3.0
4+ enter 0.0
4- enter 1.0
4- enter 0.0
4- rem 7.0 6.0
4- call gcd 6.0 8.0
- merge 4 5.0 9.0
out 10.0
end
block main 2 3
- loop main__1 2 0.0 1.0
- call gcd 0.0 1.0
- sub 1.0 1.0
- div 0.0 4.0
out 3.0 2.0 5.0
end
block main__1 2 3
- lit 0 0.0
- ne 1.0 2.0
- cond 3.0
4+ enter 1.0
4+ enter 0.0
4+ rem 6.0 5.0
4- enter 0.0
4- enter 1.0
- merge 4 5.0 8.0
- merge 4 7.0 9.0
out 3.0 10.0 11.0
end
main main
"#;

const MATRIX_PRODUCT: &[u8] = br#"etsgraph 2
array A 64
array B 64
array C 64
block fill 1 1
- lit 0 0.0
- loop fill__1 4 1.0 0.0
out 2.0
end
block fill__1 2 3
- mul 1.0 1.0
- lt 0.0 2.0
- cond 3.0
4+ enter 0.0
4+ enter 1.0
4+ lit 1 5.0
4+ add 5.0 7.0
4+ store A 5.0 8.0
4+ mul 6.0 6.0
4+ sub 10.0 5.0
4+ store B 5.0 11.0
4+ lit 1 5.0
4+ add 5.0 13.0
4- enter 0.0
- merge 4 14.0 15.0
out 3.0 16.0 1.0
end
block dot 3 1
- lit 0 0.0
- lit 0 0.0
- loop dot__1 4 3.0 4.0 2.0 0.0 1.0
out 5.1
end
block dot__1 5 6
- lt 0.0 2.0
- cond 5.0
6+ enter 0.0
6+ enter 1.0
6+ enter 3.0
6+ enter 2.0
6+ enter 4.0
6+ lit 1 7.0
6+ add 7.0 12.0
6+ mul 9.0 10.0
6+ add 14.0 7.0
6+ fetch A 15.0
6+ mul 7.0 10.0
6+ add 17.0 11.0
6+ fetch B 18.0
6+ mul 16.0 19.0
6+ add 8.0 20.0
6- enter 0.0
6- enter 1.0
- merge 6 13.0 22.0
- merge 6 21.0 23.0
out 5.0 24.0 25.0 2.0 3.0 4.0
end
block main 1 2
- call fill 0.0
- lit 0 0.0
- loop main__1 4 2.0 0.0
- lit 0 0.0
- fetch C 4.0
- mul 0.0 0.0
- lit 1 0.0
- sub 6.0 7.0
- fetch C 8.0
out 5.0 9.0
end
block main__1 2 3
- lt 0.0 1.0
- cond 2.0
3+ enter 1.0
3+ enter 0.0
3+ lit 0 4.0
3+ loop main__2 4 6.0 4.0 5.0
3+ lit 1 4.0
3+ add 5.0 8.0
3- enter 0.0
- merge 3 9.0 10.0
out 2.0 11.0 1.0
end
block main__2 3 4
- lt 0.0 1.0
- cond 3.0
4+ enter 2.0
4+ enter 1.0
4+ enter 0.0
4+ mul 5.0 6.0
4+ add 8.0 7.0
4+ call dot 5.0 7.0 6.0
4+ store C 9.0 10.0
4+ lit 1 5.0
4+ add 7.0 12.0
4- enter 0.0
- merge 4 13.0 14.0
out 3.0 15.0 1.0 2.0
end
main main
"#;

const MAXIMUM: &[u8] = br#"etsgraph 2
array A 16
block max 2 1
- lt 0.0 1.0
- cond 2.0
3+ enter 1.0
3- enter 0.0
- merge 3 4.0 5.0
out 6.0
end
block greatest 2 1
- sub 1.0 0.0
- lit 1 0.0
- eq 2.0 3.0
- cond 4.0
5+ enter 0.0
5+ fetch A 6.0
5- enter 0.0
5- enter 1.0
5- add 8.0 9.0
5- lit 2 8.0
5- div 10.0 11.0
5- call greatest 8.0 12.0
5- call greatest 12.0 9.0
5- call max 13.0 14.0
- merge 5 7.0 15.0
out 16.0
end
block main 1 1
- lit 0 0.0
- loop main__1 8 1.0 0.0
- lit 0 0.0
- lit 16 0.0
- call greatest 3.0 4.0
out 5.0
end
block main__1 2 3
- lit 16 0.0
- lt 0.0 2.0
- cond 3.0
4+ enter 1.0
4+ enter 0.0
4+ lit 1103515245 5.0
4+ mul 5.0 7.0
4+ lit 12345 5.0
4+ add 8.0 9.0
4+ lit 2147483647 5.0
4+ and 10.0 11.0
4+ lit 1000 5.0
4+ rem 12.0 13.0
4+ store A 6.0 14.0
4+ lit 1 5.0
4+ add 6.0 16.0
4- enter 0.0
4- enter 1.0
- merge 4 17.0 18.0
- merge 4 12.0 19.0
out 3.0 20.0 21.0
end
main main
"#;

const PRECEDENCE: &[u8] = br#"etsgraph 2
block main 1 14
- lit 1 0.0
- lit 2 0.0
- add 1.0 2.0
- lit 3 0.0
- shl 3.0 4.0
- lit 1 0.0
- lit 1 0.0
- lit 2 0.0
- add 7.0 8.0
- shl 6.0 9.0
- lit 6 0.0
- lit 1 0.0
- lit 1 0.0
- shl 12.0 13.0
- and 11.0 14.0
- lit 7 0.0
- lit 6 0.0
- lit 3 0.0
- and 17.0 18.0
- xor 16.0 19.0
- lit 8 0.0
- lit 3 0.0
- lit 1 0.0
- xor 22.0 23.0
- or 21.0 24.0
- lit 1 0.0
- and 0.0 26.0
- lit 1 0.0
- eq 27.0 28.0
- lit 10 0.0
- lit 3 0.0
- sub 30.0 31.0
- lit 2 0.0
- sub 32.0 33.0
- lit 100 0.0
- lit 10 0.0
- div 35.0 36.0
- lit 5 0.0
- div 37.0 38.0
- lit 3 0.0
- mul 39.0 40.0
- lit 4 0.0
- rem 41.0 42.0
- neg 0.0
- lit 2 0.0
- add 44.0 45.0
- lit 2 0.0
- add 0.0 47.0
- neg 48.0
- lit -1 0.0
- not 50.0
- lit -1 0.0
- sub 51.0 52.0
- lit 2 0.0
- lit -3 0.0
- lit -4 0.0
- mul 55.0 56.0
- sub 54.0 57.0
- lit 6 0.0
- lt 59.0 0.0
- lit 7 0.0
- le 61.0 0.0
- add 60.0 62.0
- lit -9223372036854775808 0.0
- lit 63 0.0
- shr 64.0 65.0
out 5.0 10.0 15.0 20.0 25.0 29.0 34.0 43.0 46.0 49.0 53.0 58.0 63.0 66.0
end
main main
"#;

const PREFIX_SUMS: &[u8] = br#"etsgraph 2
array S 64
block main 1 1
- lit 0 0.0
- lit 0 0.0
- store S 1.0 2.0
- lit 1 0.0
- loop main__1 16 4.0 0.0
- fetch S 0.0
out 6.0
end
block main__1 2 3
- le 0.0 1.0
- cond 2.0
3+ enter 0.0
3+ lit 1 4.0
3+ sub 4.0 5.0
3+ fetch S 6.0
3+ mul 4.0 4.0
3+ add 7.0 8.0
3+ store S 4.0 9.0
3+ lit 1 4.0
3+ add 4.0 11.0
3- enter 0.0
- merge 3 12.0 13.0
out 2.0 14.0 1.0
end
main main
"#;

const PRODUCER_CONSUMER: &[u8] = br#"etsgraph 2
array Q 32
block produce 2 1
- lt 0.0 1.0
- cond 2.0
3+ enter 0.0
3+ enter 1.0
3+ mul 4.0 4.0
3+ lit 1 4.0
3+ add 6.0 7.0
3+ store Q 4.0 8.0
3+ lit 1 4.0
3+ add 4.0 10.0
3+ call produce 11.0 5.0
3- enter 2.0
3- lit 0 13.0
- merge 3 12.0 14.0
out 15.0
end
block consume 2 1
- lt 0.0 1.0
- cond 2.0
3+ enter 0.0
3+ enter 1.0
3+ fetch Q 4.0
3+ lit 1 4.0
3+ add 4.0 7.0
3+ call consume 8.0 5.0
3+ add 6.0 9.0
3- enter 2.0
3- lit 0 11.0
- merge 3 10.0 12.0
out 13.0
end
block main 1 1
- lit 0 0.0
- call consume 1.0 0.0
- lit 0 0.0
- call produce 3.0 0.0
out 2.0
end
main main
"#;

const SQUARE_ROOT: &[u8] = br#"etsgraph 2
block root 1 1
- lit 2 0.0
- lt 0.0 1.0
- cond 2.0
3+ enter 0.0
3- enter 0.0
3- lit 1 5.0
3- add 5.0 6.0
3- lit 2 5.0
3- div 7.0 8.0
3- loop root__1 2 5.0 9.0 5.0
- merge 3 4.0 10.1
out 11.0
end
block root__1 3 4
- lt 1.0 0.0
- cond 3.0
4+ enter 1.0
4+ enter 2.0
4+ div 6.0 5.0
4+ add 5.0 7.0
4+ lit 2 5.0
4+ div 8.0 9.0
4- enter 0.0
4- enter 1.0
- merge 4 5.0 11.0
- merge 4 10.0 12.0
out 3.0 13.0 14.0 2.0
end
block main 1 2
- loop main__1 2 0.0 0.0
- call root 0.0
- le 1.0 2.0
- cond 3.0
4+ enter 1.0
4- enter 0.0
4- call root 6.0
- merge 4 5.0 7.0
out 1.0 8.0
end
block main__1 2 3
- mul 0.0 0.0
- lt 1.0 2.0
- cond 3.0
4+ enter 0.0
4+ enter 1.0
4+ div 6.0 5.0
4+ add 5.0 7.0
4+ lit 2 5.0
4+ div 8.0 9.0
4- enter 0.0
- merge 4 10.0 11.0
out 3.0 12.0 1.0
end
main main
"#;

const SUM: &[u8] = br#"etsgraph 2
block before 1 1
- lit 1 0.0
- lit 0 0.0
- loop before__1 8 1.0 2.0 0.0
out 3.1
end
block before__1 3 4
- le 0.0 2.0
- cond 3.0
4+ enter 0.0
4+ enter 1.0
4+ lit 1 5.0
4+ add 5.0 7.0
4+ add 6.0 5.0
4- enter 0.0
4- enter 1.0
- merge 4 8.0 10.0
- merge 4 9.0 11.0
out 3.0 12.0 13.0 2.0
end
block after 1 1
- lit 1 0.0
- lit 0 0.0
- loop after__1 8 1.0 2.0 0.0
out 3.1
end
block after__1 3 4
- lit 1 0.0
- add 0.0 3.0
- add 1.0 0.0
- le 4.0 2.0
out 6.0 4.0 5.0 2.0
end
block main 1 2
- call before 0.0
- call after 0.0
out 1.0 2.0
end
main main
"#;

const WAVEFRONT: &[u8] = br#"etsgraph 2
array W 100
block cell 3 1
- lit 0 0.0
- eq 0.0 3.0
- cond 4.0
5+ enter 4.0
5+ lit 1 6.0
5- enter 0.0
5- enter 2.0
5- enter 1.0
5- lit 1 8.0
5- sub 8.0 11.0
5- mul 12.0 9.0
5- add 13.0 10.0
5- fetch W 14.0
- merge 5 7.0 15.0
- lit 0 0.0
- eq 1.0 17.0
- cond 18.0
19+ enter 18.0
19+ lit 1 20.0
19- enter 0.0
19- enter 2.0
19- enter 1.0
19- mul 22.0 23.0
19- add 25.0 24.0
19- lit 1 22.0
19- sub 26.0 27.0
19- fetch W 28.0
- merge 19 21.0 29.0
- mul 0.0 2.0
- add 31.0 1.0
- lit 0 0.0
- eq 0.0 33.0
- lit 0 0.0
- eq 1.0 35.0
- or 34.0 36.0
- cond 37.0
38+ enter 37.0
38+ lit 1 39.0
38- enter 16.0
38- enter 30.0
38- add 41.0 42.0
- merge 38 40.0 43.0
- store W 32.0 44.0
out 45.0
end
block main 1 1
- lit 0 0.0
- loop main__1 4 1.0 0.0
- mul 0.0 0.0
- lit 1 0.0
- sub 3.0 4.0
- fetch W 5.0
out 6.0
end
block main__1 2 3
- lt 0.0 1.0
- cond 2.0
3+ enter 1.0
3+ enter 0.0
3+ lit 0 4.0
3+ loop main__2 4 6.0 4.0 5.0
3+ lit 1 4.0
3+ add 5.0 8.0
3- enter 0.0
- merge 3 9.0 10.0
out 2.0 11.0 1.0
end
block main__2 3 4
- lt 0.0 1.0
- cond 3.0
4+ enter 2.0
4+ enter 0.0
4+ enter 1.0
4+ call cell 5.0 6.0 7.0
4+ lit 1 5.0
4+ add 6.0 9.0
4- enter 0.0
- merge 4 10.0 11.0
out 3.0 12.0 1.0 2.0
end
main main
"#;

const LITERALS_SMALL: &[u8] = br#"etsgraph 2
block main 1 1
- lit 5 0.0
- lit -5 0.0
- sub 1.0 2.0
out 3.0
end
main main
"#;

const LEAST_SMALL: &[u8] = br#"etsgraph 2
block main 1 1
- lit -9223372036854775808 0.0
out 1.0
end
main main
"#;

const SIGNS_SMALL: &[u8] = br#"etsgraph 2
block main 1 1
- neg 0.0
- neg 0.0
- not 2.0
- add 1.0 3.0
- lit 5 0.0
- neg 5.0
- sub 4.0 6.0
out 7.0
end
main main
"#;

const ARITHMETIC_SMALL: &[u8] = br#"etsgraph 2
block main 1 1
- lit 2 0.0
- mul 1.0 0.0
- sub 0.0 2.0
- sub 3.0 0.0
- lit 1 0.0
- shl 4.0 5.0
- and 6.0 0.0
- xor 7.0 0.0
- or 8.0 0.0
out 9.0
end
main main
"#;

const SWAPPED_SMALL: &[u8] = br#"etsgraph 2
block main 2 1
- lt 1.0 0.0
- le 1.0 0.0
- add 2.0 3.0
- lt 0.0 1.0
- add 4.0 5.0
- le 0.0 1.0
- add 6.0 7.0
out 8.0
end
main main
"#;

const CELLS_SMALL: &[u8] = br#"etsgraph 2
array A 2
block main 1 1
- lit 1 0.0
- lit 3 0.0
- add 0.0 2.0
- store A 1.0 3.0
- lit 1 0.0
- fetch A 5.0
out 6.0
end
main main
"#;

const STORED_TWICE_SMALL: &[u8] = br#"etsgraph 2
array A 2
array B 3
block main 1 1
- lit 0 0.0
- lit 7 0.0
- store B 0.0 2.0
- store A 1.0 3.0
out 4.0
end
main main
"#;

const PAIRS_SMALL: &[u8] = br#"etsgraph 2
block pair 2 2
out 1.0 0.0
end
block main 1 1
- lit 1 0.0
- call pair 0.0 1.0
- call pair 2.0 2.1
out 3.0
end
main main
"#;

const STRICT_CALL_SMALL: &[u8] = br#"etsgraph 2
array A 1
block f 2 1
out 1.0
end
block main 1 1
- lit 0 0.0
- fetch A 1.0
- scall f 2.0 0.0
out 3.0
end
main main
"#;

const FACTORIAL_SMALL: &[u8] = br#"etsgraph 2
block main 1 1
- lit 1 0.0
- le 0.0 1.0
- cond 2.0
3+ enter 2.0
3+ lit 1 4.0
3- enter 0.0
3- lit 1 6.0
3- sub 6.0 7.0
3- call main 8.0
3- mul 6.0 9.0
- merge 3 5.0 10.0
out 11.0
end
main main
"#;

const ELSE_IF_SMALL: &[u8] = br#"etsgraph 2
block main 1 1
- cond 0.0
1+ enter 0.0
1- enter 0.0
1- lit 1 3.0
1- add 3.0 4.0
1- cond 5.0
6+ enter 5.0
6+ lit 2 7.0
6- enter 3.0
6- lit 3 9.0
6- lit 4 9.0
1- merge 6 8.0 11.0
- merge 1 2.0 12.0
out 13.0
end
main main
"#;

const TWO_ARMS_SMALL: &[u8] = br#"etsgraph 2
block main 2 2
- cond 0.0
2+ enter 1.0
2+ enter 0.0
2+ enter 0.0
2+ add 4.0 5.0
2- enter 0.0
- merge 2 3.0 7.0
- merge 2 6.0 7.0
out 8.0 9.0
end
main main
"#;

const SUM_UP_SMALL: &[u8] = br#"etsgraph 2
block main 1 1
- lit 0 0.0
- lit 0 0.0
- loop main__1 2 1.0 2.0 0.0
out 3.1
end
block main__1 3 4
- lt 0.0 2.0
- cond 3.0
4+ enter 0.0
4+ enter 1.0
4+ lit 1 5.0
4+ add 5.0 7.0
4+ add 6.0 5.0
4- enter 0.0
4- enter 1.0
- merge 4 8.0 10.0
- merge 4 9.0 11.0
out 3.0 12.0 13.0 2.0
end
main main
"#;

const COUNT_UP_SMALL: &[u8] = br#"etsgraph 2
block main 1 1
- lit 0 0.0
- loop main__1 2 1.0 0.0
out 2.0
end
block main__1 2 3
- lit 1 0.0
- add 0.0 2.0
- lt 3.0 1.0
out 4.0 3.0 1.0
end
main main
"#;

const NESTED_SMALL: &[u8] = br#"etsgraph 2
block f 2 1
- loop f__1 2 0.0
- loop f__2 3 2.0 1.0 0.0
out 3.0
end
block f__1 1 2
- lit 1 0.0
- sub 0.0 1.0
out 2.0 2.0
end
block f__2 3 4
- loop f__3 4 0.0 1.0
- cond 3.0
4+ enter 0.0
4+ enter 2.0
4+ loop f__4 64 5.0 6.0
4- enter 0.0
- merge 4 7.0 8.0
out 3.0 9.0 1.0 2.0
end
block f__3 2 3
- cond 0.0
2+ enter 1.0
2- enter 0.0
- merge 2 3.0 4.0
out 0.0 5.0 1.0
end
block f__4 2 3
- lit 0 0.0
out 2.0 1.0 1.0
end
block main 1 1
- lit 2 0.0
- call f 0.0 1.0
- loop main__1 2 0.0
out 3.0
end
block main__1 1 2
- cond 0.0
1+ enter 0.0
1+ lit 1 2.0
1+ sub 2.0 3.0
1- enter 0.0
- merge 1 4.0 5.0
out 0.0 6.0
end
main main
"#;

const HIDDEN_SMALL: &[u8] = br#"etsgraph 2
block main 1 1
- lit 1 0.0
- add 0.0 1.0
- lit 1 0.0
- lit 2 0.0
out 2.0
end
main main
"#;

const SHARED_SMALL: &[u8] = br#"etsgraph 2
block main 1 3
out 0.0 0.0 0.0
end
main main
"#;

const MISSES_SMALL: &[u8] = br#"etsgraph 2
array A 2
block main 1 1
- lit 1 0.0
- store A 0.0 1.0
out 2.0
end
main main
"#;

const TWO_FAULTS_SMALL: &[u8] = br#"etsgraph 2
block main 1 1
- lit 0 0.0
- div 0.0 1.0
- lit 0 0.0
- rem 0.0 3.0
- lt 4.0 2.0
out 5.0
end
main main
"#;
