//! What a machine runs, and how large it is.

use crate::main_code::MainCode;

/// The code of a machine with its sizes.
#[derive(Drop)]
pub struct Shape<'m, C: MainCode> {
    pub code: &'m C,
    /// How many elements there are.
    pub elements: u32,
    /// How many frames each element has.
    pub frames: u32,
    /// How many events each element may make.
    pub steps: u64,
    /// How many events a turn has.
    pub turn: u64,
}
