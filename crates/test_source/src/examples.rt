//! Programs with their inputs.

/// Each example, how many names it has, and how many bytes its inputs have.
pub(crate) const EXAMPLES: [(&[u8], usize, usize); 14] = [
    (COLLATZ, 11, 3),
    (EVEN_ODD, 4, 3),
    (FACTORIAL, 3, 3),
    (FAULTS, 4, 2),
    (FIBONACCI, 7, 3),
    (GCD, 7, 9),
    (MATRIX_PRODUCT, 11, 2),
    (MAXIMUM, 13, 2),
    (PRECEDENCE, 2, 2),
    (PREFIX_SUMS, 4, 3),
    (PRODUCER_CONSUMER, 7, 3),
    (SQUARE_ROOT, 6, 8),
    (SUM, 6, 4),
    (WAVEFRONT, 8, 2),
];

const COLLATZ: &[u8] =
    br#"// How many steps to 1: a loop that tests after its turn, on the new values.
fn steps(n) {
    let _, s = loop 4 (x = n, s = 0) while x != 1 {
        let even = x % 2 == 0;
        if even { x / 2 } else { 3 * x + 1 }, s + 1
    };
    s
}

// the largest number of steps below a limit
fn longest(limit) -> 2 {
    let _, best, at = loop 8 (n = 1, best = -1, at = 0) {
        let s = steps(n);
        let better = s > best;
        n + 1, if better { s, n } else { best, at }
    } while (n < limit);
    at, best
}

fn main(n) -> 3 { steps(n), longest(30) }
inputs
27
"#;

const EVEN_ODD: &[u8] = br#"// Mutual recursion, strict and not.
fn is_even(n) { if n == 0 { 1 } else { is_odd(n - 1) } }
fn is_odd(n) { if n == 0 { 0 } else { strict is_even(n - 1) } }

fn main(n) -> 2 { is_even(n), is_odd(n) }
inputs
13
"#;

const FACTORIAL: &[u8] = br#"// n! by recursion. Each turn of the recursion is a frame of its own.
fn factorial(n) {
    if n <= 1 { 1 } else { n * factorial(n - 1) }
}

fn main(n) { factorial(n) }
inputs
20
"#;

const FAULTS: &[u8] =
    br#"// Faults are values: a faulty predicate counts as false, a bad index gives a fault.
array A[4];

fn main(n) -> 4 {
    let bad = n / 0;
    A[9] := n, if bad { 1 } else { 2 }, A[bad], (A[n] := 5) + A[n]
}
inputs
3
"#;

const FIBONACCI: &[u8] = br#"// The tree of calls is the parallelism: both calls begin at once.
fn fib(n) {
    if n < 2 { n } else { fib(n - 1) + fib(n - 2) }
}

// The same by a loop: two names are carried, and a third counts.
fn fib_loop(n) -> 2 {
    let _, a, b = loop 4 (i = n, a = 0, b = 1) while i > 0 { i - 1, b, a + b };
    a, b
}

fn main(n) -> 3 { fib(n), fib_loop(n) }
inputs
15
"#;

const GCD: &[u8] =
    br#"// Euclid by recursion and by a loop; and what a division by zero is: a value.
fn gcd(a, b) { if b == 0 { a } else { gcd(b, a % b) } }

fn main(a, b) -> 3 {
    let g, _ = loop 2 (x = a, y = b) while y != 0 { y, x % y };
    gcd(a, b), g, a / (b - b)
}
inputs
1071
462
"#;

const MATRIX_PRODUCT: &[u8] =
    br#"// C = A * B, in flat arrays. The three loops overlap as far as their bounds allow.
array A[64];
array B[64];
array C[64];

fn fill(n) {
    loop 4 (i = 0) while i < n * n {
        A[i] := i + 1;
        B[i] := n * n - i;
        i + 1
    }
}

fn dot(i, j, n) {
    let _, s = loop 4 (k = 0, s = 0) while k < n { k + 1, s + A[i * n + k] * B[k * n + j] };
    s
}

fn main(n) -> 2 {
    fill(n);
    loop 4 (i = 0) while i < n {
        loop 4 (j = 0) while j < n { C[i * n + j] := dot(i, j, n); j + 1 };
        i + 1
    };
    C[0], C[n * n - 1]
}
inputs
3
"#;

const MAXIMUM: &[u8] = br#"// The greatest of an array by a tree of calls.
array A[16];

fn max(a, b) { if a < b { b } else { a } }

fn greatest(from, to) {
    if to - from == 1 { A[from] } else {
        let middle = (from + to) / 2;
        max(greatest(from, middle), greatest(middle, to))
    }
}

fn main(seed) {
    loop 8 (i = 0, x = seed) while i < 16 {
        let y = (x * 1103515245 + 12345) & 2147483647;
        A[i] := y % 1000;
        i + 1, y
    };
    greatest(0, 16)
}
inputs
1
"#;

const PRECEDENCE: &[u8] = br#"// What binds tighter, and to which side: the results say it.
fn main(n) -> 14 {
    1 + 2 << 3,             // 24
    1 << 1 + 2,             // 8
    6 & 1 << 1,             // 2
    7 ^ 6 & 3,              // 5
    8 | 3 ^ 1,              // 10
    n & 1 == 1,             // 1: & before ==
    10 - 3 - 2,             // 5
    100 / 10 / 5 * 3 % 4,   // 2
    -n + 2, -(n + 2),       // -5, -9
    ~-1 - -1,               // 1
    2 - -3 * -4,            // -10
    (n > 6) + (n >= 7),     // 2
    -9223372036854775808 >> 63
}
inputs
7
"#;

const PREFIX_SUMS: &[u8] =
    br#"// Prefix sums by single-assignment cells. All turns may run at once; each waits for the cell before.
array S[64];

fn main(n) {
    S[0] := 0;
    loop 16 (i = 1) while i <= n {
        S[i] := S[i - 1] + i * i;
        i + 1
    };
    S[n]
}
inputs
10
"#;

const PRODUCER_CONSUMER: &[u8] = br#"// The consumer may run ahead: it waits cell by cell.
array Q[32];

fn produce(i, n) {
    if i < n {
        Q[i] := i * i + 1;
        produce(i + 1, n)
    } else { 0 }
}

fn consume(i, n) {
    if i < n { Q[i] + consume(i + 1, n) } else { 0 }
}

fn main(n) {
    let total = consume(0, n);
    produce(0, n);
    total
}
inputs
10
"#;

const SQUARE_ROOT: &[u8] = br#"// The integer square root by Newton's steps.
fn root(n) {
    if n < 2 { n } else {
        let _, r = loop 2 (x = n, y = (n + 1) / 2) while y < x {
            y, (y + n / y) / 2
        };
        // of the last turn only the smaller one counts
        r
    }
}

fn main(n) -> 2 {
    let x = loop 2 (x = n) while x * x > n { (x + n / x) / 2 };
    x, if root(n) >= x { x } else { root(n) }
}
inputs
1000000
"#;

const SUM: &[u8] = br#"// 1 + 2 + .. + n, with both forms of loop.
fn before(n) {
    let _, s = loop 8 (i = 1, s = 0) while i <= n { i + 1, s + i };
    s
}

// there is always a first turn, so n has to be 1 at least
fn after(n) {
    let _, s = loop 8 (i = 1, s = 0) { i + 1, s + i } while (i <= n);
    s
}

fn main(n) -> 2 { before(n), after(n) }
inputs
100
"#;

const WAVEFRONT: &[u8] =
    br#"// Each cell waits for its neighbours above and at the left: the parallelism goes in diagonals.
array W[100];

fn cell(i, j, n) {
    let above = if i == 0 { 1 } else { W[(i - 1) * n + j] };
    let left = if j == 0 { 1 } else { W[i * n + j - 1] };
    W[i * n + j] := if (i == 0) | (j == 0) { 1 } else { above + left }
}

fn main(n) {
    loop 4 (i = 0) while i < n {
        loop 4 (j = 0) while j < n { cell(i, j, n); j + 1 };
        i + 1
    };
    W[n * n - 1]
}
inputs
6
"#;
