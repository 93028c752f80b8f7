//! What a node does.

use std::fmt;

/// How many kinds of nodes there are.
pub const KINDS: usize = 11;

/// The kinds' names, in the order of `Kind::place`.
pub const NAMES: [&str; KINDS] = [
    "literals",
    "unary operators",
    "binary operators",
    "conditionals",
    "enters",
    "merges",
    "fetches",
    "stores",
    "calls",
    "strict calls",
    "loops",
];

/// What a node does. Arrays and blocks are named by their numbers, and the conditional of a merge by its node.
#[derive(Clone, Copy)]
pub enum Kind {
    Lit(i64),
    Unary(&'static str),
    Binary(&'static str),
    Cond,
    Enter,
    Merge(u64),
    Fetch(u64),
    Store(u64),
    Call(u64),
    StrictCall(u64),
    Loop(u64, u64),
}

impl Kind {
    /// Its place among the names.
    pub fn place(self) -> usize {
        match self {
            Kind::Lit(_) => 0,
            Kind::Unary(_) => 1,
            Kind::Binary(_) => 2,
            Kind::Cond => 3,
            Kind::Enter => 4,
            Kind::Merge(_) => 5,
            Kind::Fetch(_) => 6,
            Kind::Store(_) => 7,
            Kind::Call(_) => 8,
            Kind::StrictCall(_) => 9,
            Kind::Loop(_, _) => 10,
        }
    }
}

impl fmt::Display for Kind {
    fn fmt<W: fmt::Write>(&self, f: &mut fmt::Formatter<W>) -> fmt::Result {
        match self {
            Kind::Lit(value) => write!(f, "lit {value}"),
            Kind::Unary(name) => f.write_str(name),
            Kind::Binary(name) => f.write_str(name),
            Kind::Cond => f.write_str("cond"),
            Kind::Enter => f.write_str("enter"),
            Kind::Merge(node) => write!(f, "merge {node}"),
            Kind::Fetch(array) => write!(f, "fetch A{array}"),
            Kind::Store(array) => write!(f, "store A{array}"),
            Kind::Call(block) => write!(f, "call b{block}"),
            Kind::StrictCall(block) => write!(f, "scall b{block}"),
            Kind::Loop(block, bound) => write!(f, "loop b{block} {bound}"),
        }
    }
}
