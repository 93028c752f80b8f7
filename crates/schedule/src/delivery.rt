//! Tokens on their way to other elements.

ghost use Rattle.std.specs.Prelude.{◌≡◌, ◌<◌, ◌≤◌, ◌==◌, [], ◌∷◌, length, map, drop, All, OnOk, OnErr};
ghost use Rattle.std.specs.List.{list_any};
ghost use Rattle.tags.specs.Addresses.{element_of};
ghost use Rattle.element.specs.Holding.{held_of, fixed_of};
ghost use Rattle.schedule.specs.State.{AllFrom, IsAt, IsNearIn, delivered, lanes_of};

use element::bundled::element_of_packed;
use element::instructions::Instructions;
use element::lane::Lane;
use packed::token::PackedToken;
use std::alloc::{AllocError, Allocator};
use tags::token::Token;

/// Puts a token into the lane of its element. After an error nothing is changed.
pub fn receive<C: Instructions, A: Allocator>(
    lanes: &mut Vec<Lane<'_, C, A>, A>,
    elements: u32,
    token: Token,
) -> Result<(), AllocError>
    requires some { 0 < elements }
    requires count { length lanes.old.items ≡ elements }
    requires at { AllFrom (IsAt elements) 0 (map held_of lanes.old.items) }
    requires near { IsNearIn (map fixed_of lanes.old.items) token }
    ensures ok { OnOk result (map held_of lanes.new.items ≡ delivered (token ∷ []) (map held_of lanes.old.items)) }
    ensures err { OnErr result (map held_of lanes.new.items ≡ map held_of lanes.old.items) }
    ensures fixed { map fixed_of lanes.new.items ≡ map fixed_of lanes.old.items }
    ensures count { length lanes.new.items ≡ length lanes.old.items }
{
    receive_packed(lanes, elements, PackedToken::pack(token))
}

// The same of a packed token.
fn receive_packed<C: Instructions, A: Allocator>(
    lanes: &mut Vec<Lane<'_, C, A>, A>,
    elements: u32,
    token: PackedToken,
) -> Result<(), AllocError>
    requires some { 0 < elements }
    requires count { length lanes.old.items ≡ elements }
    requires at { AllFrom (IsAt elements) 0 (map held_of lanes.old.items) }
    requires near { IsNearIn (map fixed_of lanes.old.items) token }
    ensures ok { OnOk result (map held_of lanes.new.items ≡ delivered (token ∷ []) (map held_of lanes.old.items)) }
    ensures err { OnErr result (map held_of lanes.new.items ≡ map held_of lanes.old.items) }
    ensures fixed { map fixed_of lanes.new.items ≡ map fixed_of lanes.old.items }
    ensures count { length lanes.new.items ≡ length lanes.old.items }
{
    let element = element_of_packed(&token, elements) as usize;
    let lane = &mut lanes[element];
    lane.receive(token)
}

// Delivers them one by one.
fn deliver_all<C: Instructions, A: Allocator>(
    lanes: &mut Vec<Lane<'_, C, A>, A>,
    elements: u32,
    sent: &mut Vec<PackedToken, A>,
    arrived: &mut usize,
) -> Result<(), AllocError>
    requires some { 0 < elements }
    requires count { length lanes.old.items ≡ elements }
    requires at { AllFrom (IsAt elements) 0 (map held_of lanes.old.items) }
    requires arrived { arrived.old ≤ length sent.old.items }
    requires near { All (IsNearIn (map fixed_of lanes.old.items)) (drop arrived.old sent.old.items) }
    ensures same { lanes_of lanes.new.items (drop arrived.new sent.new.items) ≡ lanes_of lanes.old.items (drop arrived.old sent.old.items) }
    ensures fixed { map fixed_of lanes.new.items ≡ map fixed_of lanes.old.items }
    ensures sent { OnOk result (sent.new.items ≡ []) }
    ensures arrived { OnOk result (arrived.new ≡ 0) }
    ensures within { arrived.new ≤ length sent.new.items }
    ensures count { length lanes.new.items ≡ length lanes.old.items }
{
    for place in *arrived..sent.len() {
        let token = sent[place];
        match receive_packed(lanes, elements, token) {
            Ok(()) => {}
            Err(error) => {
                *arrived = place;
                return Err(error);
            }
        }
    }
    sent.clear();
    *arrived = 0;
    Ok(())
}

/// Delivers the tokens that are on their way, from the first that has not arrived on. After an error the others are
/// still on their way.
#[inline(always)]
pub fn deliver<C: Instructions, A: Allocator>(
    lanes: &mut Vec<Lane<'_, C, A>, A>,
    elements: u32,
    sent: &mut Vec<PackedToken, A>,
    arrived: &mut usize,
) -> Result<(), AllocError>
    requires some { 0 < elements }
    requires count { length lanes.old.items ≡ elements }
    requires at { AllFrom (IsAt elements) 0 (map held_of lanes.old.items) }
    requires arrived { arrived.old ≤ length sent.old.items }
    requires near { All (IsNearIn (map fixed_of lanes.old.items)) (drop arrived.old sent.old.items) }
    ensures same { lanes_of lanes.new.items (drop arrived.new sent.new.items) ≡ lanes_of lanes.old.items (drop arrived.old sent.old.items) }
    ensures fixed { map fixed_of lanes.new.items ≡ map fixed_of lanes.old.items }
    ensures sent { OnOk result (sent.new.items ≡ []) }
    ensures arrived { OnOk result (arrived.new ≡ 0) }
    ensures within { arrived.new ≤ length sent.new.items }
    ensures count { length lanes.new.items ≡ length lanes.old.items }
{
    if sent.is_empty() {
        return Ok(());
    }
    deliver_all(lanes, elements, sent, arrived)
}

/// Whether some of the tokens from the place on is for the element.
pub fn has_token_for(tokens: &[PackedToken], start: usize, elements: u32, element: u32) -> bool
    requires some { 0 < elements }
    requires start { start ≤ length tokens.now }
    ensures { result ≡ list_any (λ t. element_of elements t.to == element) (drop start tokens.now) }
{
    for place in start..tokens.len() {
        if element_of_packed(&tokens[place], elements) == element {
            return true;
        }
    }
    false
}
