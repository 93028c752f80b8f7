//! The table that the seats share.
//! Word 16 a + b is 1 where the box from a to b is full, and slot 16 a + b is that box. Word 256 counts the live tokens,
//! and word 257 is the reason to stop, or 0. The numbers are the same for any number of elements.

use crate::bundle::Bundle;
use crate::view::View;
use atomic_table::{Seat, Shared, Table, TableRule};
use std::alloc::Allocator;
use tags::token::Token;

pub(crate) const BOXES: usize = 256;

pub(crate) const LIVE: usize = 256;

pub(crate) const STOP: usize = 257;

pub(crate) const WORDS: usize = 258;

/// What the table is given once.
#[derive(Drop)]
pub struct Opening<A: Allocator> {
    pub elements: u32,
    pub start: Vec<Token, A>,
}

pub struct Law;

impl<B: Bundle, A: Allocator> TableRule<Option<B>, View, Opening<A>> for Law {
    ghost use Rattle.mesh.specs.Rule.{Preserved, first_view};

    ghost holds = { λ k. Preserved B.tokens k.elements k.start.items };

    ghost first = { λ k. first_view k.elements k.start.items };
}

pub type Board<B, A> = Table<Option<B>, View, Opening<A>, Law, A>;

pub type Top<B, A> = Shared<Option<B>, View, Opening<A>, Law>;

pub type Place<B> = Seat<Option<B>, View>;
