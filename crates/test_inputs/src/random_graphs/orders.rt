//! Random orders of steps.

ghost use Rattle.std.specs.Prelude.{◌<◌, All, IfOk};

use crate::random_graphs::dice::Dice;
use std::alloc::{AllocError, Global};

/// The element that a number stands for: its remainder modulo `elements`.
pub fn element_of(number: u64, elements: u32) -> u32
    requires { 0 < elements }
    ensures { result < elements }
{
    (number % elements as u64) as u32
}

/// A random list of `count` picks, each of an element and of one of its tokens.
pub fn picks(
    alloc: Global,
    dice: &mut Dice,
    elements: u32,
    count: u64,
) -> Result<Vec<(u32, u64)>, AllocError>
    requires { 0 < elements }
    ensures { IfOk result (λ v. All (λ pick. pick.0 < elements) v.items) }
{
    let mut picks = Vec::new(alloc);
    for _ in 0..count {
        let element = element_of(dice.throw(65_536), elements);
        picks.push((element, dice.throw(65_536)))?;
    }
    Ok(picks)
}
