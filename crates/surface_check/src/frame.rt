//! What the checker stores of the parts that are open.

/// What an expression is, where it is the number at which a `for` stops.
#[derive(Clone, Copy)]
pub enum Kind<N> {
    /// A number.
    Written,
    /// A constant, a number with `-` before it, or one of these in brackets.
    Constant,
    /// The name of a value.
    Variable { name: N },
    Other,
}

/// The last part: how many values it has, where it is, and what it is.
#[derive(Clone, Copy)]
pub struct Last<N> {
    pub count: u64,
    pub at: usize,
    pub kind: Kind<N>,
}

/// The innermost open turn: how many names were in scope before it, and how many outside names the turns around it use.
#[derive(Clone, Copy)]
pub struct Turn {
    pub base: usize,
    pub start: usize,
}

/// A part that is open.
#[derive(Clone, Copy)]
pub enum Frame {
    /// A list: how many values its parts have so far.
    List {
        sum: u64,
    },
    /// A call of a function of values, or of what is built in.
    Takes {
        params: u64,
        results: u64,
    },
    /// The arguments of a function with parameters for arrays: how many ranks were found before them.
    Passes {
        start: usize,
    },
    /// The indexes of an array: so many dimensions, and so many indexes so far.
    Indexes {
        at: usize,
        rank: u64,
        count: u64,
    },
    /// A list of names: how many were pending before it, and how many values it takes so far.
    Names {
        start: usize,
        targets: u64,
    },
    /// The first arm of an `if`: how many names were in scope before it.
    First {
        mark: usize,
    },
    /// The second arm: how many values the first one has.
    Second {
        mark: usize,
        left: u64,
    },
    /// A turn: the one around it, how many names the loop has, and how many are in scope with them.
    Open {
        outer: Turn,
        names: u64,
        mark: usize,
    },
    /// A turn whose test is after its body: how many values the body has.
    Tested {
        outer: Turn,
        names: u64,
        given: u64,
    },
    /// A function's body: how many results it must have, and where it begins.
    Body {
        results: u64,
        at: usize,
    },
}
