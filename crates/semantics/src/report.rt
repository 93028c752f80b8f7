//! The plain data of reports.

/// How a run ended.
#[derive(Clone, Copy, Debug, PartialEq, Eq)]
pub enum End {
    /// No token is left and no request waits.
    Rest,
    /// No token is left, and a request for a frame or a credit waits.
    Starved,
    /// A store met a full cell; its token and the cell stay.
    Clash { array: u8, index: u32 },
    /// An element that had made as many steps as were allowed had a token to take.
    Steps,
    /// A token met a case that the rule of this number excludes.
    Stuck { rule: u8 },
    /// A growth was refused; the token stays.
    Memory,
    /// The gate let no further step begin.
    Stop,
}
