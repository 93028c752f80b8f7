//! Why a program is refused.

use source::fault::ProgramFault;
use thiserror::Error;

/// What has a form of its own, of which each token but the last leaves it open how it goes on.
#[derive(Clone, Copy, Debug)]
pub enum Form {
    Array,
    /// The head of a function, up to the brace after it.
    Function,
    /// The names of a `let`, up to its `=`.
    Let,
    /// The head of a loop, up to a first value or to the brace or the `while` after it.
    Loop,
    /// What follows the body of a loop that tests after it, up to the bracket of its test.
    LastTest,
    /// What follows the first arm of an `if`, up to the brace of the other one, or another `if`.
    Else,
    StrictCall,
}

/// What an expression is a part of.
#[derive(Clone, Copy, Debug)]
pub enum Within {
    /// The steps and the values of a body, an arm or a turn.
    Block,
    /// The values of a `let`.
    Let,
    /// An expression in brackets, or the test of a loop after its body.
    Group,
    Arguments,
    Index,
    /// The test of an `if`.
    Test,
    /// The test of a loop before its body.
    LoopTest,
    /// A first value of a loop.
    FirstValue,
}

/// What is expected where a token does not go on, or where the program ends.
#[derive(Clone, Copy, Debug)]
pub enum Expected {
    Item,
    /// A name, in something of this form.
    Name(Form),
    /// What else comes next in something of this form.
    Next(Form),
    /// A `let`, or an expression.
    Step,
    Operand(Within),
    /// An operator, or what comes after an expression there.
    Operator(Within),
}

/// A bracket or a brace that is open: its place, which is the number of bytes before it, and its line.
#[derive(Clone, Copy, Debug)]
pub struct Opened {
    pub at: usize,
    pub line: usize,
}

/// Where the parser stopped.
#[derive(Clone, Copy, Debug)]
pub struct Stop {
    pub expected: Expected,
    /// The place of the token before, if there is one.
    pub before: Option<usize>,
    /// The bracket or the brace that was opened last, and is open.
    pub open: Option<Opened>,
}

/// The head of a function.
#[derive(Clone, Copy, Debug)]
pub struct Head {
    pub parameters: usize,
    pub results: u64,
}

/// What is known of a fault beside its kind and its place.
#[derive(Clone, Copy, Debug)]
pub enum Detail {
    /// Where the parser stopped.
    Stop(Stop),
    /// The name of a function that is called, with its head where there is such a function.
    Function(Option<Head>),
    /// The name of an array that is indexed.
    Array,
}

/// Why a program is refused: its first fault, and what was known where that was found.
#[derive(Clone, Copy, Debug, Error)]
#[error("{fault}")]
pub struct ProgramRefusal {
    pub fault: ProgramFault,
    /// The place of the fault: how many bytes of the program's text are before it.
    pub at: usize,
    pub detail: Option<Detail>,
}
