//! What is open while derived forms are made into those of the core.

/// An expression that stands for itself: a number, one below 0 with its sign, or a name. A number may be in brackets.
#[derive(Clone, Copy)]
pub enum Atom<N> {
    Number {
        at: usize,
        number: u64,
        brackets: usize,
    },
    Negative {
        sign_at: usize,
        at: usize,
        number: u64,
        brackets: usize,
    },
    Name {
        at: usize,
        name: N,
    },
}

/// What the last statement of a body gives.
#[derive(Clone, Copy)]
pub enum Finish<N> {
    /// Its own values.
    Plain,
    /// This value, and its own are only done.
    Giving { value: Atom<N> },
    /// This value before its own.
    First { value: Atom<N> },
}

/// A `for`, as far as its counter.
#[derive(Clone, Copy)]
pub struct Counting<N> {
    /// How many words are before it.
    pub start: usize,
    pub at: usize,
    pub bound_at: usize,
    pub bound: u64,
    pub counter_at: usize,
    pub counter: N,
}

/// A value, or a part that is open. `words` and `lets` are how many words and words of `let`s were before it.
#[derive(Clone, Copy)]
pub enum Frame<N> {
    /// A value: how many words are before it, its place, the level of what it is in the core, whether it stands for itself,
    /// and whether it is a number as it is written.
    Value {
        start: usize,
        at: usize,
        level: u64,
        atom: Option<Atom<N>>,
        literal: bool,
    },
    /// The right operand of `and`, after the left one, where more than its truth is asked.
    And {
        start: usize,
        words: usize,
        lets: usize,
        left: Option<Atom<N>>,
    },
    /// The right operand of `or`, after the left one.
    Or {
        start: usize,
        words: usize,
        lets: usize,
        left: Atom<N>,
    },
    /// A cell, or the arguments of a call.
    List {
        start: usize,
    },
    /// A body, at a statement.
    Body {
        words: usize,
        lets: usize,
        finish: Finish<N>,
    },
    /// The arms of an `if`.
    If {
        start: usize,
    },
    /// The arm of an `if` that is a statement without an `else`, or with such a chain after it.
    When {
        start: usize,
        test: Atom<N>,
    },
    /// That chain.
    Chain {
        start: usize,
        words: usize,
        lets: usize,
    },
    /// A loop, and its test.
    Loop {
        start: usize,
    },
    Test {
        words: usize,
        lets: usize,
    },
    /// A `for` before its counter, with its bound.
    For {
        start: usize,
        at: usize,
        bound_at: usize,
        bound: u64,
    },
    /// Its first number.
    From {
        counting: Counting<N>,
    },
    /// The number at which it stops, after the first.
    To {
        counting: Counting<N>,
        first: Atom<N>,
    },
    /// What it carries, and its body. `names` and `firsts` are how many of these were before it.
    Over {
        counting: Counting<N>,
        first: Atom<N>,
        end: Atom<N>,
        names: usize,
        firsts: usize,
    },
    /// An array, whose lengths are read: the place of the last one so far.
    Cells {
        words: usize,
        lets: usize,
        array: N,
        last: usize,
    },
    /// A constant.
    Constant {
        words: usize,
        lets: usize,
    },
}

/// A name where it is given to something.
#[derive(Clone, Copy)]
pub struct Given<N> {
    pub at: usize,
    pub name: N,
}
