//! Lists of picks: which element makes the next event, and which of its tokens it takes.

ghost use Rattle.std.specs.Prelude.{◌<◌, All, IfOk};

use std::alloc::{AllocError, Global};
use test_inputs::random_graphs::orders::element_of;

/// A list of `count` picks. Number i, counted from 0, is of element `first + i * step` modulo `elements`, and of token `seed * 31 + i * 17`.
pub fn picks(
    alloc: Global,
    elements: u32,
    first: u64,
    step: u64,
    seed: u64,
    count: u64,
) -> Result<Vec<(u32, u64)>, AllocError>
    requires { 0 < elements }
    ensures { IfOk result (λ v. All (λ pick. pick.0 < elements) v.items) }
{
    let mut picks = Vec::with_capacity(alloc, count as usize)?;
    for i in 0..count {
        let element = element_of(first.wrapping_add(i.wrapping_mul(step)), elements);
        picks.push((
            element,
            seed.wrapping_mul(31).wrapping_add(i.wrapping_mul(17)),
        ))?;
    }
    Ok(picks)
}
