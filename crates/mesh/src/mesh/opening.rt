//! A new mesh.
ghost use Rattle.std.specs.Prelude.{◌≡◌, ◌<◌, ◌≤◌, ◌^◌, [], length, IfOk};
ghost use Rattle.mesh.specs.Seats.{AreFresh, mesh_id};

use super::{Mesh, Seat};
use crate::board::{BOXES, Board, LIVE, Opening, Place, Top, WORDS};
use crate::bundle::Bundle;
use crate::memory::Memory;
use crate::plays::Next;
use std::alloc::{AllocError, Allocator};
use tags::token::Token;

// Gives out the elements' parts.
fn deal<B: Bundle, A: Allocator>(
    alloc: A,
    top: &Top<B, A>,
    maker: &mut Place<B>,
    elements: u32,
) -> Result<Vec<Seat<B>, A>, AllocError>
    requires table { (maker.old.table_id ≡ top.now.table_id) × (0 < top.now.table_id.words) × (elements ≤ 16) }
    requires maker { (maker.old.me.0.elements ≡ elements) × (maker.old.me.0.parts ≡ []) × (maker.old.me.0.spare ≡ 0) × (maker.old.me.0.seen ≡ []) }
    ensures seats { IfOk result (λ seats. (length seats.items ≡ elements) × AreFresh (mesh_id top.now.table_id elements maker.old.me.0.start) seats.items) }
{
    let mut seats = Vec::with_capacity(alloc, elements as usize)?;
    for element in 0..elements {
        let place = top.split_seat::<Next>(maker);
        seats.push(Seat { element, place })?;
    }
    Ok(seats)
}

fn begin<B: Bundle, A: Allocator + Clone>(
    alloc: A,
    elements: u32,
    start: &[Token],
) -> Result<(Mesh<B, A>, Vec<Seat<B>, A>), AllocError>
    requires elements { (0 < elements) × (elements ≤ 16) }
    requires start { length start.now ≤ 2 ^ 40 }
    ensures { IfOk result (λ r. (r.0.elements ≡ elements) × (r.0.start ≡ start.now) × (length r.1.items ≡ elements) × AreFresh r.0 r.1.items) }
{
    let mut words = [0u64; WORDS];
    words[LIVE] = start.len() as u64;
    let mut tokens = Vec::with_capacity(alloc.clone()?, start.len())?;
    tokens.extend_from_slice(start)?;
    let about = Opening {
        elements,
        start: tokens,
    };
    let (board, mut maker): (Board<B, A>, Place<B>) = Board::vacant(
        alloc.clone()?,
        &words,
        BOXES,
        &about,
    )?;
    let seats = deal(alloc, &board.shared, &mut maker, elements)?;
    Ok((Mesh { board }, seats))
}

impl<B: Bundle, A: Allocator> Mesh<B, A> {
    /// A mesh of 1 to 16 elements with empty boxes, and a seat for each element, in order. Each seat holds the start
    /// tokens, at most 2^40 in all, that are addressed to its element. This call alone takes memory.
    pub fn new(
        alloc: A,
        elements: u32,
        start: &[Token],
    ) -> Result<(Mesh<B, A>, Vec<Seat<B>, A>), Memory>
    where
        A: Clone,
        requires elements { (0 < elements) × (elements ≤ 16) }
        requires start { length start.now ≤ 2 ^ 40 }
        ensures { IfOk result (λ r. (r.0.elements ≡ elements) × (r.0.start ≡ start.now) × (length r.1.items ≡ elements) × AreFresh r.0 r.1.items) }
    {
        Ok(begin(alloc, elements, start)?)
    }
}
