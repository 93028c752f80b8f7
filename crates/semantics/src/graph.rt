//! The plain data of graphs.

use operators::{Binary, Unary};

/// Where a node lies: in no arm of a conditional, or in an arm of the conditional at a node of its block.
#[derive(Clone, Copy, Debug, PartialEq, Eq)]
pub enum Region {
    Root,
    Arm { cond: u32, side: bool },
}

/// An output port of a node.
#[derive(Clone, Copy, Debug, PartialEq, Eq)]
pub struct Source {
    pub node: u32,
    pub port: u32,
}

/// What a node does. It names arrays and blocks by their names, or by their places once names are resolved.
#[derive(Debug, Drop)]
pub enum Kind<N> {
    Lit { value: i64 },
    Apply1 { op: Unary },
    Apply2 { op: Binary },
    Cond,
    Enter,
    Merge { cond: u32 },
    Fetch { array: N },
    Store { array: N },
    Call { block: N },
    StrictCall { block: N },
    Loop { block: N, bound: u32 },
}
