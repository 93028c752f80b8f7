//! What is known of a part before it is lowered.

use graph::Name;
use std::alloc::Allocator;
use std::marker::Model;

/// The outside names of an arm or of a turn, and the place of its `if` or `loop`.
#[derive(Drop)]
pub struct Plan<'a, A: Allocator> {
    pub at: usize,
    pub names: Vec<Name<'a>, A>,
}

impl<'a, A: Allocator> Model for Plan<'a, A> {
    ghost use Rattle.lowering.specs.Plans.{Plan};

    ghost Value = { Plan };

    ghost view = { λ p. record { at = p.at; names = p.names.items } };
}
