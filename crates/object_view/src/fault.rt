//! Why bytes are no object.

/// The first thing that is wrong with bytes that should be an object.
#[derive(Clone, Copy, Debug, PartialEq, Eq)]
pub enum ObjectFault {
    /// The bytes end too early.
    Truncated,
    /// The bytes do not begin as an object does.
    BadMagic,
    /// The version is neither 1 nor 2.
    BadVersion,
    /// A count, an entry of the block table, the length of an array or an array's number.
    BadTable,
    /// An opcode, its flag, its bound, its origin, or an operand where there is none.
    BadOpcode,
    /// A destination, or a block, an entry or an offset that an instruction names.
    BadDestination,
    /// The number of a slot.
    BadSlot,
    /// The literals do not ascend, or there is no literal of a number that an instruction names.
    BadLiteral,
    /// There are bytes after the object.
    Trailing,
}

/// Where in the bytes something is wrong.
#[derive(Clone, Copy)]
pub enum Place {
    /// In their number.
    Length,
    /// In the word with this number.
    Word(u64),
    /// In the instruction with this number of this block, of which the first word has this number.
    Instr { block: u64, number: u64, word: u64 },
}

/// What is wrong there.
#[derive(Clone, Copy)]
pub enum Wrong {
    /// The header, with the block table, takes this many bytes.
    Header {
        wants: u64,
    },
    /// All that the header and the block table name takes this many bytes.
    Length {
        wants: u64,
    },
    Magic,
    Version {
        version: u64,
    },
    /// A number of these things is not from the least to the most.
    Count {
        what: &'static str,
        count: u64,
        least: u64,
        most: u64,
    },
    /// There are fewer things of this kind.
    Absent {
        noun: &'static str,
        number: u64,
        count: u64,
    },
    /// A literal is not above the one before.
    LiteralOrder,
    Opcode {
        code: u64,
        flag: u64,
    },
    /// The opcode does not have this operand.
    Operand {
        operand: u64,
        code: u64,
    },
    /// The block has fewer slots.
    Slot {
        slot: u64,
        slots: u64,
    },
    /// The opcode takes no slot.
    Slotless {
        slot: u64,
        code: u64,
    },
    /// A right port without a distance.
    Distance,
    /// A destination past the end of its block.
    PastEnd {
        ahead: u64,
    },
    /// A right port of an instruction that takes one token.
    RightPort {
        ahead: u64,
    },
    /// The opcode does not have these destinations.
    Destinations {
        code: u64,
    },
    /// No block, entry or offset is what the operand names.
    Target {
        operand: u64,
    },
}

/// A fault, where it is, and what is wrong there.
#[derive(Clone, Copy)]
pub struct Flaw {
    pub fault: ObjectFault,
    pub place: Place,
    pub wrong: Wrong,
}
