//! Lists of picks, which a seed chooses.

ghost use Rattle.std.specs.Prelude.{◌≡◌, ◌<◌, All, IfOk};
ghost use Rattle.commands.specs.Ordered.{first_number, next_number, number_after, pick_of, picks_from};

use std::alloc::{AllocError, Allocator};

/// The next pseudorandom number after `number` (the multiplier and the increment are Knuth's, for 64 bits).
fn next_number(number: u64) -> u64
    ensures { result ≡ next_number number }
{
    number
        .wrapping_mul(6_364_136_223_846_793_005)
        .wrapping_add(1_442_695_040_888_963_407)
}

/// The number before the first one of order number `order`.
pub fn first_number(seed: u64, order: u64) -> u64
    ensures { result ≡ first_number seed order }
{
    seed.wrapping_add(order.wrapping_mul(11_400_714_819_323_198_485))
}

/// A pick that `number` chooses: an element, and one of its tokens.
fn pick_of(elements: u64, number: u64) -> (u32, u64)
    requires { 0 < elements }
    ensures exact { result ≡ pick_of elements number }
    ensures below { result.0 < elements }
{
    let first = next_number(number);
    let second = next_number(first);
    (((first >> 32) % elements) as u32, second >> 16)
}

/// Some picks of an order, and the number before the next ones.
#[derive(Drop)]
pub struct Drawn<A: Allocator> {
    pub picks: Vec<(u32, u64), A>,
    pub next: u64,
}

/// The first `count` picks after this number.
pub fn draw<A: Allocator>(
    alloc: A,
    elements: u64,
    count: u32,
    first: u64,
) -> Result<Drawn<A>, AllocError>
    requires { 0 < elements }
    ensures drawn { IfOk result (λ d. d.picks.items ≡ picks_from elements count first) }
    ensures next { IfOk result (λ d. d.next ≡ number_after count first) }
    ensures below { IfOk result (λ d. All (λ pick. pick.0 < elements) d.picks.items) }
{
    let mut picks = Vec::with_capacity(alloc, count as usize)?;
    let mut number = first;
    for _drawn in 0..count {
        picks.push(pick_of(elements, number))?;
        number = next_number(next_number(number));
    }
    Ok(Drawn {
        picks,
        next: number,
    })
}
