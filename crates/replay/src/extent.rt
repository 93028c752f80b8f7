//! The numbers of a machine whose books are kept.

/// How large the machine is, and where main begins.
#[derive(Clone, Copy, Debug, PartialEq, Eq)]
pub struct Extent {
    /// How many elements there are.
    pub elements: u32,
    /// How many frames all elements have: 1 to 16,384.
    pub frames: u32,
    /// How many slots a frame has: 1 to 512, and no fewer than the code names.
    pub slots: u32,
    /// How many cells all arrays have.
    pub cells: u32,
    /// The number of main's first instruction.
    pub main: u32,
    /// How many outputs main has: at most 16.
    pub outputs: u32,
}
