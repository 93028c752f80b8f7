//! What a run uses of the computer.

/// What a run uses of the computer: memory, threads, and the gate that its elements ask before they go on.
#[derive(Drop)]
pub struct Resources<'r, A, R, G> {
    pub alloc: A,
    pub rt: &'r R,
    pub gate: &'r G,
}
