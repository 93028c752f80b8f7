//! What is known of an item.

/// The lengths of an array's dimensions, the first one first.
#[derive(Clone, Copy)]
pub enum Lengths {
    One { first: u64 },
    Two { first: u64, second: u64 },
    Three { first: u64, second: u64, third: u64 },
}

/// What a name of an item stands for. A function has so many parameters, whose ranks are side by side in the table, and so
/// many results.
#[derive(Clone, Copy)]
pub enum Entry {
    Constant {
        value: i64,
    },
    Array {
        lengths: Lengths,
    },
    Function {
        first: usize,
        params: usize,
        results: u64,
    },
}
