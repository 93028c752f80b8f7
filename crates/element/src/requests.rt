//! The requests for frames that a queue begins with.

ghost use Rattle.std.specs.Prelude.{◌≡◌, ◌≤◌, length};
ghost use Rattle.element.specs.Requests.{is_for_manager, held_back};

use packed::token::PackedToken;
use std::alloc::Allocator;
use tags::token::To;
use token_queue::queue::TokenQueue;

// Whether the token asks for a frame.
#[inline(always)]
fn is_request(token: &PackedToken) -> bool
    ensures { result ≡ is_for_manager token.now.to }
{
    matches!(token.to(), To::Manager)
}

/// How many requests for frames a queue begins with, where the first `known` tokens are requests.
pub fn requests_before<A: Allocator>(queue: &TokenQueue<A>, known: usize) -> usize
    requires known { known ≤ held_back queue.now.items }
    ensures exact { result ≡ held_back queue.now.items }
    ensures within { result ≤ length queue.now.items }
{
    for at in known..queue.len() {
        if !is_request(&queue.packed(at)) {
            return at;
        }
    }
    queue.len()
}
