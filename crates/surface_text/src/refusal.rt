//! Why a program with derived forms is refused.

use surface::fault::ProgramFault;
use thiserror::Error;

/// What has a form of its own, of which each token but the last leaves it open how it goes on.
#[derive(Clone, Copy, Debug, PartialEq, Eq)]
pub enum Form {
    Array,
    Constant,
    /// The head of a function, up to the brace after it.
    Function,
    /// The names of a `let`, up to its `=`.
    Let,
    /// The head of a loop, or a name with a first value, up to that value or to the brace or the `while` after it.
    Loop,
    /// What follows the body of a loop that tests after it, up to the bracket of its test.
    LastTest,
    /// The head of a `for`, up to its `in`.
    For,
    /// What follows an `if` that has no last `else`: that `else`, or a `;`.
    If,
    /// What follows the first arm of an `if`, up to the brace of the other one, or another `if`.
    Else,
    StrictCall,
}

/// What an expression is a part of.
#[derive(Clone, Copy, Debug, PartialEq, Eq)]
pub enum Within {
    /// The steps and the values of a body, an arm or a turn.
    Block,
    /// The lengths of an array.
    Lengths,
    /// The value of a constant.
    Constant,
    /// The values of a `let`.
    Let,
    /// An expression in brackets, or the test of a loop after its body.
    Group,
    Arguments,
    Indexes,
    /// The test of an `if`.
    Test,
    /// The test of a loop before its body.
    LoopTest,
    /// A first value of a loop.
    FirstValue,
    /// The first number of a `for`, up to `..`.
    RangeStart,
    /// The number after `..`, or a first value after `with`.
    RangeEnd,
}

/// What is expected where a token does not go on, or where the program ends.
#[derive(Clone, Copy, Debug, PartialEq, Eq)]
pub enum Expected {
    Item,
    /// The `;` after an array or after a constant, and after a constant's value an operator, too.
    ItemEnd,
    /// A name, in something of this form.
    Name(Form),
    /// What else comes next in something of this form.
    Next(Form),
    /// A `let`, or an expression.
    Step,
    Operand(Within),
    /// An operator, or what comes after an expression there.
    Operator(Within),
}

/// A bracket or a brace that is open: its place, which is the number of bytes before it, and its line.
#[derive(Clone, Copy, Debug, PartialEq, Eq)]
pub struct Opened {
    pub at: usize,
    pub line: usize,
}

/// Where the parser stopped.
#[derive(Clone, Copy, Debug, PartialEq, Eq)]
pub struct Stop {
    pub expected: Expected,
    /// The place of the token before, if there is one.
    pub before: Option<usize>,
    /// The bracket or the brace that was opened last, and is open.
    pub open: Option<Opened>,
}

/// Why a program is refused: its first fault, and where the parser stopped, where that was found by it.
#[derive(Clone, Copy, Debug, Error)]
#[error("{fault}")]
pub struct ProgramRefusal {
    pub fault: ProgramFault,
    /// The place of the fault: how many bytes of the program's text are before it.
    pub at: usize,
    pub stop: Option<Stop>,
}
