//! What is left of an element's log.

ghost use Rattle.std.specs.Prelude.{◌≡◌, ℕ, ◌+◌, ◌<◌, ◌≤◌, ◌++◌, List, length, take, drop, OnOk, IfOk, true, false};
ghost use Rattle.tags.specs.declared.token.Token.{Token};
ghost use Rattle.rounds.specs.Turns.{by};
ghost use Rattle.law_linearization.specs.History.{Block};
ghost use Rattle.ordering.specs.Pools.{amount, all_copies};
ghost use Rattle.ordering.specs.Rests.{first_spent, IsWhole, IsRestOf, Holds, TakesNeeded, GoesOn, IsStuck};

use crate::log::{BlockLog, Counts};
use crate::pool::Pool;
use std::alloc::{AllocError, Allocator};
use tags::token::Token;

/// The blocks of an element that have no place in the order yet.
#[derive(Clone, Copy)]
pub struct Rest<'l> {
    /// The tokens that the next block spends and that were not taken out of the pool for it.
    pub needed: &'l [Token],
    pub taken: &'l [Token],
    pub made: &'l [Token],
    pub blocks: &'l [Counts],
}

// The first `count` tokens, and the others.
fn split(tokens: &[Token], count: usize) -> (&[Token], &[Token])
    ensures front { result.0.now ≡ take count tokens.now }
    ensures back { result.1.now ≡ drop count tokens.now }
{
    tokens.split_at(count.min(tokens.len()))
}

// The tokens that the first of the blocks spends.
fn needed<'l>(taken: &'l [Token], blocks: &[Counts]) -> &'l [Token]
    ensures { result.now ≡ first_spent taken.now blocks.now }
{
    match blocks {
        [block, ..] => split(taken, block.spent).0,
        [] => &[],
    }
}

impl<'l> Rest<'l> {
    fn new(taken: &'l [Token], made: &'l [Token], blocks: &'l [Counts]) -> Rest<'l>
        ensures { IsWhole taken.now made.now blocks.now result }
    {
        Rest {
            needed: needed(taken, blocks),
            taken,
            made,
            blocks,
        }
    }

    /// All blocks of the log.
    pub fn of<A: Allocator>(log: &'l BlockLog<A>) -> Rest<'l>
        ensures { IsWhole log.now.taken.items log.now.made.items log.now.blocks.items result }
    {
        Rest::new(&log.taken, &log.made, &log.blocks)
    }
}

// Notes an event of the element for each of the tokens.
fn note_all<A: Allocator>(
    events: &mut Vec<(u32, Token), A>,
    element: u32,
    tokens: &[Token],
) -> Result<(), AllocError>
    ensures { OnOk result (events.new.items ≡ events.old.items ++ by element tokens.now) }
{
    events.reserve(tokens.len())?;
    for token in tokens {
        events.push((element, *token))?;
    }
    Ok(())
}

// Notes the events of the next block, and puts what it made into the pool: what is left then.
fn end_block<'l, A: Allocator + Clone>(
    rest: Rest<'l>,
    block: Counts,
    later: &'l [Counts],
    element: u32,
    pool: &mut Pool<A>,
    events: &mut Vec<(u32, Token), A>,
) -> Result<Rest<'l>, AllocError>
    ensures left { IfOk result (IsWhole (drop block.events rest.entry.taken.now) (drop block.made rest.entry.made.now) later.now) }
    ensures noted { OnOk result (events.new.items ≡ events.old.items ++ by element (take block.events rest.entry.taken.now)) }
    ensures made { OnOk result ((q : Token) → amount pool.new q ≡ amount pool.old q + all_copies q (take block.made rest.entry.made.now)) }
{
    let (taken, later_taken) = split(rest.taken, block.events);
    let (made, later_made) = split(rest.made, block.made);
    note_all(events, element, taken)?;
    pool.put_all(made)?;
    Ok(Rest::new(later_taken, later_made, later))
}

// Takes tokens that the next block spends out of the pool, one after the other, up to one that is not there: what is
// left then.
fn take_needed<'l, A: Allocator>(rest: Rest<'l>, pool: &mut Pool<A>) -> Rest<'l>
    ensures taken { TakesNeeded (amount pool.old) rest.entry (amount pool.new) result }
    ensures stuck { 0 < length result.needed.now → IsStuck (amount pool.new) result }
{
    let count = pool.take_first(rest.needed);
    Rest {
        needed: split(rest.needed, count).1,
        ..rest
    }
}

// The next block has its place now if its tokens are in the pool: whether there is one and they are.
fn take_block<'l, A: Allocator + Clone>(
    rest: &mut Rest<'l>,
    element: u32,
    pool: &mut Pool<A>,
    events: &mut Vec<(u32, Token), A>,
) -> Result<bool, AllocError>
    ensures goes { OnOk result ((n : ℕ) (tokens : List Token) (blocks : List Block) → Holds (amount pool.old) tokens → IsRestOf rest.old blocks
        → GoesOn n element tokens blocks events.old.items (amount pool.new) rest.new events.new.items) }
    ensures stuck { IfOk result (λ taken. taken ≡ false → IsStuck (amount pool.new) rest.new) }
    ensures same { IfOk result (λ taken. taken ≡ false → length rest.new.blocks.now ≡ length rest.old.blocks.now) }
    ensures less { IfOk result (λ taken. taken ≡ false → (q : Token) → amount pool.new q ≤ amount pool.old q) }
    ensures fewer { IfOk result (λ taken. taken ≡ true → length rest.new.blocks.now < length rest.old.blocks.now) }
{
    let Some((block, later)) = rest.blocks.split_first() else {
        return Ok(false);
    };
    *rest = take_needed(*rest, pool);
    if !rest.needed.is_empty() {
        return Ok(false);
    }
    *rest = end_block(*rest, *block, later, element, pool, events)?;
    Ok(true)
}

/// As many blocks of the element as have their tokens in the pool get the next places: what is left then.
pub fn go_on<'l, A: Allocator + Clone>(
    rest: Rest<'l>,
    element: u32,
    pool: &mut Pool<A>,
    events: &mut Vec<(u32, Token), A>,
) -> Result<Rest<'l>, AllocError>
    ensures goes { IfOk result (λ left. (n : ℕ) (tokens : List Token) (blocks : List Block) → Holds (amount pool.old) tokens
        → IsRestOf rest.entry blocks → GoesOn n element tokens blocks events.old.items (amount pool.new) left events.new.items) }
    ensures stuck { IfOk result (IsStuck (amount pool.new)) }
    ensures fewer { IfOk result (λ left. length left.blocks.now ≤ length rest.entry.blocks.now) }
    ensures less { IfOk result (λ left. length left.blocks.now ≡ length rest.entry.blocks.now → (q : Token) → amount pool.new q ≤ amount pool.old q) }
{
    let mut left = rest;
    'turn: while take_block(&mut left, element, pool, events)? {}
    Ok(left)
}
