//! One legal order of the blocks of all elements.

ghost use Rattle.std.specs.Prelude.{◌≡◌, ℕ, ◌<◌, ◌^◌, List, length, slice_get, Some, IsPermutation, OnOk, IfOk, true, false};
ghost use Rattle.tags.specs.declared.token.Token.{Token};
ghost use Rattle.law_linearization.specs.History.{Block};
ghost use Rattle.ordering.specs.declared.rest.Rest.{Rest};
ghost use Rattle.ordering.specs.Pools.{amount};
ghost use Rattle.ordering.specs.Rests.{IsStuck};
ghost use Rattle.ordering.specs.Orders.{IsHistory, IsOrdered, OrderedSoFar, AreWhole, blocks_left};

use crate::log::BlockLog;
use crate::pool::Pool;
use crate::rest::{Rest, go_on};
use std::alloc::{AllocError, Allocator};
use tags::token::Token;

// All blocks of the logs.
fn rests_of<'l, A: Allocator>(
    logs: &'l [BlockLog<A>],
    alloc: A,
) -> Result<Vec<Rest<'l>, A>, AllocError>
    ensures { IfOk result (λ rests. AreWhole logs.now rests.items) }
{
    let mut rests = Vec::with_capacity(alloc, logs.len())?;
    for at in 0..logs.len() {
        let log = &logs[at];
        rests.push(Rest::of(log))?;
    }
    Ok(rests)
}

// Each element in turn goes on as far as the pool lets it: whether one of them took a block.
fn pass<A: Allocator + Clone>(
    rests: &mut Vec<Rest<'_>, A>,
    pool: &mut Pool<A>,
    events: &mut Vec<(u32, Token), A>,
) -> Result<bool, AllocError>
    requires few { length rests.old.items < 2 ^ 32 }
    ensures so_far { OnOk result ((log : List Block) (start last : List Token) → OrderedSoFar (length rests.old.items) log start last
        (amount pool.old) rests.old.items events.old.items → OrderedSoFar (length rests.old.items) log start last (amount pool.new) rests.new.items
        events.new.items) }
    ensures stuck { IfOk result (λ went_on. went_on ≡ false → (e : ℕ) (r : Rest) → slice_get rests.new.items e ≡ Some r → IsStuck (amount pool.new) r) }
    ensures fewer { IfOk result (λ went_on. went_on ≡ true → blocks_left rests.new.items < blocks_left rests.old.items) }
    ensures count { length rests.new.items ≡ length rests.old.items }
{
    let mut went_on = false;
    for at in 0..rests.len() {
        let rest = rests[at];
        let left = go_on(rest, at as u32, pool, events)?;
        went_on |= left.blocks.len() < rest.blocks.len();
        rests[at] = left;
    }
    Ok(went_on)
}

/// The events of all blocks in one legal order, from the tokens of the opening pool on: each with its element and the token that it
/// took. `logs[e]` is the log of element `e`. If there is a legal history of these blocks, all have a place. An error is that memory was
/// refused.
pub fn order<A: Allocator + Clone>(
    logs: &[BlockLog<A>],
    opening: &[Token],
    alloc: A,
) -> Result<Vec<(u32, Token), A>, AllocError>
    requires few { length logs.now < 2 ^ 32 }
    ensures { IfOk result (λ events. (log : List Block) (start last : List Token) → IsHistory logs.now log start last
        → IsPermutation opening.now start → IsOrdered (length logs.now) log start last events.items) }
{
    let mut pool = Pool::new(alloc.clone()?);
    pool.put_all(opening)?;
    let mut rests = rests_of(logs, alloc.clone()?)?;
    let mut events = Vec::new(alloc);
    'passes: while pass(&mut rests, &mut pool, &mut events)? {}
    Ok(events)
}
