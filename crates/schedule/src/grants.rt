//! What a run keeps that holds requests for frames back.

use element::grant_order::GrantOrder;
use packed::token::PackedToken;
use std::alloc::{AllocError, Allocator};

/// In which order it grants them, and a list in which they lie while one element alone makes events.
#[derive(Drop)]
pub struct Grants<A: Allocator> {
    pub order: GrantOrder<A>,
    pub aside: Vec<PackedToken, A>,
}

impl<A: Allocator + Clone> Grants<A> {
    /// No request was granted.
    pub fn new(alloc: &A) -> Result<Grants<A>, AllocError> {
        Ok(Grants {
            order: GrantOrder::new(alloc)?,
            aside: Vec::new(alloc.clone()?),
        })
    }
}
