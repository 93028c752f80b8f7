//! Orders in which the elements take turns.

ghost use Rattle.std.specs.Prelude.{◌<◌, All, IfOk};

use std::alloc::{AllocError, Global};
use test_inputs::random_graphs::orders::element_of;

/// A list of `count` picks: the elements take turns, and each takes its oldest token.
pub fn in_turn(alloc: Global, elements: u32, count: u64) -> Result<Vec<(u32, u64)>, AllocError>
    requires { 0 < elements }
    ensures { IfOk result (λ v. All (λ pick. pick.0 < elements) v.items) }
{
    let mut picks = Vec::new(alloc);
    for number in 0..count {
        picks.push((element_of(number, elements), 0))?;
    }
    Ok(picks)
}
