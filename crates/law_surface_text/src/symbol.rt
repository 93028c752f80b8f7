//! The symbols of the parser's stack.

use source::token::Keyword;
use surface::token::Sign;
use surface::word::Word;

/// A name that is one word of its own.
#[derive(Clone, Copy)]
pub enum NameWord {
    Array,
    Constant,
    Function,
    /// The counter of a `for`.
    Counter,
    /// A name of a loop, before its first value.
    Start,
}

/// What is on the parser's stack: what must follow, what may follow, or a word that is appended then. `depth` is how
/// many of the levels that a tree's depth counts are open around it. `level` is the level of the grammar that the whole must
/// have at least, and `left` that of the operand before.
#[derive(Clone, Copy)]
pub enum Symbol<N> {
    // As they are.
    Sign {
        sign: Sign,
    },
    Keyword {
        keyword: Keyword,
    },
    /// A word is appended, and nothing is read.
    Emit {
        word: Word<N>,
    },
    Name {
        word: NameWord,
    },

    // Items.
    Items,
    Parameter,
    /// What may follow the name of a parameter.
    AfterParameter {
        at: usize,
        name: N,
    },
    /// Further dimensions of a parameter, and the bracket after them. There are `rank` so far.
    Rank {
        at: usize,
        name: N,
        rank: usize,
    },
    /// Further parameters.
    Parameters,
    /// The number of results, where it is written.
    Results,
    ResultCount,
    FunctionBody,

    // Bodies.
    /// What follows a body's brace, or a step's semicolon.
    Steps {
        depth: u8,
    },
    /// What may follow an arm of an `if` that begins a step, or of one in its chain.
    ArmEnd {
        at: usize,
        depth: u8,
    },
    /// What follows the `else` after such an arm.
    StepOtherwise {
        at: usize,
        depth: u8,
    },
    /// The end of an `if` with such a chain after its `else`.
    ChainEnd {
        at: usize,
    },
    Target,
    /// Further targets.
    Targets,
    /// What follows the values of a step, and the body from there on.
    StepEnd {
        depth: u8,
    },

    // Expressions.
    /// An expression of this level or a higher one: at level 0 any.
    Operand {
        level: u8,
        depth: u8,
    },
    /// The operand of a `-`.
    Negated {
        depth: u8,
    },
    /// What may follow an operand: operators with theirs.
    After {
        level: u8,
        left: u8,
        depth: u8,
    },
    /// What may follow a name.
    AfterName {
        at: usize,
        name: N,
        level: u8,
        depth: u8,
    },
    /// What may follow the indexes of an array.
    AfterIndexes {
        at: usize,
        array: N,
        level: u8,
        depth: u8,
    },
    /// The function after `strict`, with its arguments.
    Callee {
        depth: u8,
    },
    /// Further parts of a list.
    Further {
        depth: u8,
    },
    /// Further indexes of a cell.
    Indexes {
        depth: u8,
    },
    /// What follows `else`.
    Otherwise {
        depth: u8,
    },
    /// The bound of a loop, and all that follows it.
    Bound {
        at: usize,
        depth: u8,
    },
    /// Further names with their first values.
    Starts {
        depth: u8,
    },
    /// The test and the body of a loop.
    Turn {
        depth: u8,
    },

    // `for`.
    /// The bound of a `for`, where it has one, and its counter with all that follows it.
    ForBound {
        depth: u8,
    },
    /// What may follow the first name of a `for`, which is its bound or its counter.
    AfterForName {
        at: usize,
        name: N,
        depth: u8,
    },
    /// The word `in`, and all that follows it.
    Range {
        depth: u8,
    },
    /// The names after `with`, if there are some.
    Carried {
        depth: u8,
    },
}
