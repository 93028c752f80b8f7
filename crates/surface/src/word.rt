//! Programs with derived forms in code: a list of words, the tree in postfix order, as in the core.

/// A word of a program, each with the place of its token. It gives a name by its bytes or, in code, by its number in a
/// table of names.
#[derive(Clone, Copy)]
pub enum Word<N> {
    /// A word that means in the tree what it means in the core. After an array's name and at the beginning of a statement
    /// there is a list, and in a statement the `if` without an `else` begins as any `if`.
    Core { word: source::word::Word<N> },

    // Items.
    /// The lengths of an array end, and so does the item.
    EndArray,
    /// A constant begins: its name.
    Constant { at: usize, name: N },
    /// The constant's value ends, and so does the item.
    EndConstant,
    /// A parameter that stands for an array, and its number of dimensions.
    ArrayParameter { at: usize, name: N, rank: usize },
    /// The constant that is the number of results.
    ConstantResults { at: usize, name: N },

    // Expressions.
    /// The left operand of `and` ends, and the right one begins.
    AndThen,
    EndAnd { at: usize },
    /// The left operand of `or` ends, and the right one begins.
    OrElse,
    EndOr { at: usize },
    Not { at: usize },
    /// An index ends, and the next one begins.
    NextIndex,
    /// The constant that is a loop's bound.
    ConstantBound { at: usize, name: N },
    EndConstantLoop { at: usize, name: N },

    // `for`.
    /// A `for` begins. Its bound follows, where it has one, and then its counter.
    For { at: usize },
    /// The counter, and the first number begins.
    Counter { at: usize, name: N },
    /// The first number ends, and the number at which the counter stops begins.
    Range,
    /// That one ends. The names after `with` follow, each with its first value.
    EndRange,
    /// The body begins.
    Turns,
    EndFor { at: usize },

    // Steps of a body.
    /// The arm of an `if` ends that has no `else`, or the chain of them that is after one.
    EndWhen { at: usize },
    /// The statement ends that such an `if` is.
    When,
}
