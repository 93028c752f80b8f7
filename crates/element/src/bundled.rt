//! How frames and cells are distributed among the elements: in turn, so that the one of number n is on element n %
//! elements, and has the number n / elements there. Where the elements are a power of two no division is made.

ghost use Rattle.std.specs.Prelude.{◌≡◌, ◌<◌, ◌/◌, ◌%◌};
ghost use Rattle.tags.specs.Addresses.{element_of};

use packed::token::PackedToken;
use tags::token::To;

/// The number that a frame or a cell has among those of its element.
#[tactic(auto, using(crate::proofs::Quotients::quotient))]
#[inline(always)]
pub fn place_of(number: u32, elements: u32) -> u32
    requires { 0 < elements }
    ensures { result ≡ number / elements }
{
    if elements == 1 {
        return number;
    }
    if elements.is_power_of_two() {
        return number >> elements.trailing_zeros();
    }
    number / elements
}

/// The element on which a frame or a cell of this number lies.
#[tactic(auto, using(crate::proofs::Quotients::remainder))]
#[inline(always)]
pub fn owner_of(number: u32, elements: u32) -> u32
    requires { 0 < elements }
    ensures { result ≡ number % elements }
{
    if elements == 1 {
        return 0;
    }
    if elements.is_power_of_two() {
        return number & (elements - 1);
    }
    number % elements
}

/// The element that takes a token with this address.
#[inline(always)]
pub(crate) fn element_for(to: &To, elements: u32) -> u32
    requires { 0 < elements }
    ensures { result ≡ element_of elements to.now }
{
    match *to {
        To::Instr { frame, .. } => owner_of(frame, elements),
        To::Fetch { cell } | To::Store { cell, .. } => owner_of(cell, elements),
        To::Manager | To::Release { .. } | To::Host { .. } => 0,
    }
}

/// The element that takes a packed token.
#[inline(always)]
pub fn element_of_packed(token: &PackedToken, elements: u32) -> u32
    requires { 0 < elements }
    ensures { result ≡ element_of elements token.now.to }
{
    match token.frame() {
        Some(frame) => owner_of(frame, elements),
        None => element_of_other(*token, elements),
    }
}

// The same, out of line. It takes a copy of the token: so the token itself need not lie in memory where it goes to an instruction.
#[inline(never)]
fn element_of_other(token: PackedToken, elements: u32) -> u32
    requires { 0 < elements }
    ensures { result ≡ element_of elements token.to }
{
    element_for(&token.to(), elements)
}
