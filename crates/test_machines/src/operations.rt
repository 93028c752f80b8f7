//! The words of operations.

use crate::words::Words;
use semantics::program::Op;
use semantics::words::{Operator, operator_of};

/// An operator, with a literal where one of its operands is in the code.
fn applied(operator: &str, words: &mut Words<'_>) -> Option<Op> {
    match operator_of(operator.as_bytes())? {
        Operator::One(op) => Some(Op::Apply1 { op }),
        Operator::Two(op) => match words.word() {
            "right" => Some(Op::Apply2Right {
                op,
                literal: words.integer()?,
            }),
            "left" => Some(Op::Apply2Left {
                op,
                literal: words.integer()?,
            }),
            _ => Some(Op::Apply2 { op }),
        },
    }
}

/// The operation that these words name, with its numbers.
pub fn operation_of(words: &mut Words<'_>) -> Option<Op> {
    Some(match words.word() {
        "lit" => Op::Lit {
            literal: words.integer()?,
        },
        "copy" => Op::Copy,
        "sync" => Op::Sync,
        "switch" => Op::Switch,
        "fetch" => Op::Fetch {
            array: words.byte()?,
        },
        "store" => Op::Store {
            array: words.byte()?,
        },
        "frame" => Op::Frame,
        "link" => Op::Link {
            block: words.short()?,
        },
        "send" => Op::Send {
            block: words.short()?,
            entry: words.short()?,
        },
        "return" => Op::Return {
            offset: words.byte()?,
        },
        "ask" => Op::Ask {
            offset: words.byte()?,
        },
        "release" => Op::Release {
            offset: words.byte()?,
        },
        word => return bounded_or_applied(word, words),
    })
}

/// An operation with a loop's bound, or an operator.
fn bounded_or_applied(word: &str, words: &mut Words<'_>) -> Option<Op> {
    Some(match word {
        "open" => Op::Open {
            bound: words.byte()?,
        },
        "take" => Op::Take {
            bound: words.byte()?,
        },
        "give" => Op::Give {
            bound: words.byte()?,
        },
        "drain" => Op::Drain {
            bound: words.byte()?,
        },
        _ => return applied(word, words),
    })
}
