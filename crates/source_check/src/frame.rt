//! What the checker stores of the parts that are open.

/// What an item is: an array, or a function with so many parameters and results.
#[derive(Clone, Copy)]
pub enum Entry {
    Array,
    Function { params: usize, results: u64 },
}

/// How many values the last part has, and where it is.
#[derive(Clone, Copy)]
pub struct Values {
    pub count: u64,
    pub at: usize,
}

/// The innermost open turn: how many names were in scope before it, and how many outside names the turns around it use.
#[derive(Clone, Copy)]
pub struct Turn {
    pub base: usize,
    pub start: usize,
}

/// A part that is open.
#[derive(Clone, Copy)]
pub enum Frame {
    /// A list: how many values its parts have so far.
    List {
        sum: u64,
    },
    /// A list of names: how many were pending before it, and how many values it takes so far.
    Names {
        start: usize,
        targets: u64,
    },
    /// The first arm of an `if`: how many names were in scope before it.
    First {
        mark: usize,
    },
    /// The second arm: how many values the first one has.
    Second {
        mark: usize,
        left: u64,
    },
    /// A turn: the one around it, how many names the loop has, and how many are in scope with them.
    Open {
        outer: Turn,
        names: u64,
        mark: usize,
    },
    /// A turn whose test is after its body: how many values the body has.
    Tested {
        outer: Turn,
        names: u64,
        given: u64,
    },
    /// A function's body: how many results it must have, and where it begins.
    Body {
        results: u64,
        at: usize,
    },
}
