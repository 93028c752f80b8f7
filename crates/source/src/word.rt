//! Programs in code: a list of words. A program is a tree in the definitions, and its words are the tree in postfix
//! order, so that no code follows a tree: a long sum is as deep a tree as it is long.

use operators::{Binary, Unary};

/// The sign of an operator on two values. Graphs have no operator for `>` and `>=`.
#[derive(Clone, Copy, Debug, PartialEq, Eq)]
pub enum InfixSign {
    Direct { op: Binary },
    Greater,
    AtLeast,
}

/// A word of a program, each with the place of its token. It gives a name by its bytes or, in code, by its number in a
/// table of names.
#[derive(Clone, Copy)]
pub enum Word<N> {
    // Items.
    /// An array begins: its name.
    Array {
        at: usize,
        name: N,
    },
    /// The array's length.
    Length {
        at: usize,
        len: u64,
    },
    /// A function begins: its name.
    Function {
        at: usize,
        name: N,
    },
    /// A parameter of it.
    Parameter {
        at: usize,
        name: N,
    },
    /// The number of its results, where it is written.
    Results {
        at: usize,
        number: u64,
    },
    /// Its body begins.
    Body {
        at: usize,
    },
    /// It ends.
    EndFunction,

    // Expressions.
    Number {
        at: usize,
        number: u64,
    },
    Name {
        at: usize,
        name: N,
    },
    /// The expression before is in brackets.
    Bracket,
    Prefix {
        at: usize,
        op: Unary,
    },
    /// The left operand ends, and the right one begins.
    Left,
    Infix {
        at: usize,
        sign: InfixSign,
    },
    /// An array, whose index begins.
    Cell {
        at: usize,
        array: N,
    },
    Fetch {
        at: usize,
        array: N,
    },
    /// The index ends, and what is stored begins.
    Index,
    Store {
        at: usize,
        array: N,
    },
    /// A function, whose arguments begin.
    Callee {
        at: usize,
        function: N,
    },
    Call {
        at: usize,
        strict: bool,
        function: N,
    },
    /// The predicate ends, and the first arm begins.
    Then,
    /// The second arm begins.
    Else,
    EndIf {
        at: usize,
    },
    /// A loop begins.
    Loop {
        at: usize,
    },
    Bound {
        at: usize,
        bound: u64,
    },
    /// A name of it, whose first value begins.
    Start {
        at: usize,
        name: N,
    },
    /// The first value ends.
    First,
    /// A turn begins, with its test.
    TestFirst,
    /// The test ends, and the body begins.
    While,
    /// A turn begins, with its body.
    BodyFirst,
    /// The body ends, and the test begins.
    Until,
    EndLoop {
        at: usize,
        bound: u64,
    },

    // Lists, and the steps of a body.
    /// A list begins.
    List,
    /// An expression of it ends.
    Part,
    Let {
        at: usize,
    },
    Bind {
        at: usize,
        name: N,
    },
    Drop,
    EndLet {
        at: usize,
    },
    Do,
    /// The list before has the values of the body, which ends.
    Give,
    /// The conditional before is all of the body: it is after an `else`.
    Chain,
}
