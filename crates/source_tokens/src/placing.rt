//! Lines and columns.

ghost use Rattle.std.specs.Prelude.{◌≡◌, ◌≤◌, ℕ, List, min, length};
ghost use Rattle.source.specs.Tokens.{position};
ghost use Rattle.source_tokens.specs.Placing.{IsReached, seen_at};

/// A line, and a column in bytes, both from 1.
#[derive(Clone, Copy, Debug, PartialEq, Eq)]
pub struct LineColumn {
    pub line: usize,
    pub column: usize,
}

/// A place that was reached in a program, which is the number of bytes before it, with its line and its column.
#[derive(Clone, Copy, Debug, PartialEq, Eq)]
pub struct Reached {
    pub at: usize,
    pub line: usize,
    pub column: usize,
}

/// The beginning of a program.
pub fn first_place() -> Reached
    ensures reached { (program : List ℕ) → IsReached program result }
    ensures place { result.at ≡ 0 }
{
    Reached {
        at: 0,
        line: 1,
        column: 1,
    }
}

/// The place `at`, or the end of the program where that is before it. It goes on from a place that was reached, or back from it: the
/// time is that of the bytes between them, and of the line of the place where it goes back to another line.
pub fn reach(program: &[u8], from: Reached, at: usize) -> Reached
    requires { IsReached program.now from }
    ensures reached { IsReached program.now result }
    ensures place { result.at ≡ min at (length program.now) }
    ensures position { seen_at result ≡ position program.now at }
{
    let end = at.min(program.len());
    if end < from.at {
        go_back(program, from, end)
    } else {
        go_on(program, from, end)
    }
}

/// The place `end`, from one that was reached before.
fn go_on(program: &[u8], from: Reached, end: usize) -> Reached
    requires from { IsReached program.now from }
    requires before { from.at ≤ end }
    requires within { end ≤ length program.now }
    ensures reached { IsReached program.now result }
    ensures place { result.at ≡ end }
{
    let mut line = from.line;
    let mut column = from.column;
    for i in from.at..end {
        if program[i] == b'\n' {
            line += 1;
            column = 1;
        } else {
            column += 1;
        }
    }
    Reached {
        at: end,
        line,
        column,
    }
}

/// The place `end`, from one after it that was reached before.
fn go_back(program: &[u8], from: Reached, end: usize) -> Reached
    requires from { IsReached program.now from }
    requires behind { end ≤ from.at }
    ensures reached { IsReached program.now result }
    ensures place { result.at ≡ end }
{
    let mut line = from.line;
    let mut column = from.column;
    let mut same_line = true;
    let mut i = from.at;
    while i > end {
        i -= 1;
        if program[i] == b'\n' {
            line -= 1;
            same_line = false;
        } else if same_line {
            column -= 1;
        }
    }
    if !same_line {
        column = column_at(program, end);
    }
    Reached {
        at: end,
        line,
        column,
    }
}

/// The column of a place, counted from the beginning of its line.
fn column_at(program: &[u8], at: usize) -> usize
    requires { at ≤ length program.now }
    ensures { result ≡ (position program.now at).column }
{
    let mut start = at;
    while start > 0 && program[start - 1] != b'\n' {
        start -= 1;
    }
    at - start + 1
}

/// The line and the column of a place, which is the number of bytes before it.
pub fn position(program: &[u8], at: usize) -> LineColumn
    ensures line { result.line ≡ (position program.now at).line }
    ensures column { result.column ≡ (position program.now at).column }
{
    let Reached { line, column, .. } = reach(program, first_place(), at);
    LineColumn { line, column }
}
