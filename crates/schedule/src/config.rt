//! How a machine is to run, and why it does not start.

/// How the machine is to run.
#[derive(Clone, Copy, Debug, PartialEq, Eq)]
pub struct Config {
    /// How many elements: 1 to 16.
    pub elements: u64,
    /// How many frames each element has: 1 to 1,024.
    pub frames: u64,
    /// How many events each element may make: up to 4,294,967,296.
    pub steps: u64,
    /// How many events an element makes in a turn at most, and in a block that it commits: 1 to 65,536.
    pub turn: u64,
}

/// Why a machine does not start. The first that holds is reported.
#[derive(Clone, Copy, Debug, PartialEq, Eq)]
pub enum StartFault {
    /// There are not as many inputs as main has.
    WrongInputs,
    /// There is no frame.
    NoFrames,
    /// Another number of the configuration is outside its limits.
    BadConfig,
    /// A growth was refused.
    Memory,
}
