//! The partners of a token. The tokens that wait are in rows, one for each invocation, and only those of a token's own
//! invocation are searched.

ghost use Rattle.std.specs.Prelude.{◌≡◌, ◌<◌, ◌-◌, take, remove, ◌++◌, ◌∷◌, [], true, false, length, map, is_some, IfOk, IfSome, OnOk};
ghost use Rattle.oracle.specs.Pairing.{AreTaken, taken_in};
ghost use Rattle.oracle.specs.Rows.{rows_of};
ghost use Rattle.oracle.specs.Acting as Acting;

use crate::shapes::{Partner, Shape, list_spots, partner_of};
use crate::tokens::{Spot, Token, same_spot};
use std::alloc::{AllocError, Allocator};
use std::mem;
use tags::value::Value;

/// The tokens that wait in one invocation, in the order in which they arrived.
pub type Row<A> = Vec<Token, A>;

/// The values that an activity takes, in order.
#[derive(Clone, Copy, Debug)]
pub enum Taken {
    One(Value),
    Two(Value, Value),
    /// Those of a list.
    Listed,
}

/// Lists that are used again: rows in which no token waits, the spots of an activity, and the values that it takes. The values that
/// the last one took are beside them, and where there are more than two they are in the list.
#[derive(Drop)]
pub struct Spare<A: Allocator> {
    pub rows: Vec<Row<A>, A>,
    pub spots: Vec<Spot, A>,
    pub values: Vec<Value, A>,
    pub taken: Taken,
}

impl<A: Allocator + Clone> Spare<A> {
    pub fn new(alloc: A) -> Result<Self, AllocError> {
        Ok(Spare {
            rows: Vec::new(alloc.clone()?),
            spots: Vec::new(alloc.clone()?),
            values: Vec::new(alloc),
            taken: Taken::Listed,
        })
    }
}

/// Adds empty rows, up to that of the invocation.
#[inline(always)]
pub fn reach<A: Allocator + Clone>(
    rows: &mut Vec<Row<A>, A>,
    context: usize,
) -> Result<(), AllocError>
    ensures there { OnOk result (context < length rows.new.items) }
    ensures same { OnOk result (rows_of (map (λ v. v.items) rows.new.items) ≡ rows_of (map (λ v. v.items) rows.old.items)) }
{
    while rows.len() <= context {
        let alloc = rows.allocator().clone()?;
        rows.push(Vec::new(alloc))?;
    }
    Ok(())
}

/// Gives an empty row the memory of a spare one.
#[inline(always)]
fn reuse_memory<A: Allocator>(row: &mut Row<A>, spare: &mut Vec<Row<A>, A>)
    ensures { row.new.items ≡ row.old.items }
{
    if row.is_empty() {
        if let Some(mut other) = spare.pop() {
            other.clear();
            mem::swap(row, &mut other);
        }
    }
}

/// Leaves a token to wait in a row.
#[inline(always)]
pub fn leave<A: Allocator>(
    row: &mut Row<A>,
    token: &Token,
    spare: &mut Vec<Row<A>, A>,
) -> Result<(), AllocError>
    ensures { OnOk result (row.new.items ≡ row.old.items ++ token.now ∷ []) }
{
    reuse_memory(row, spare);
    row.push(*token)?;
    Ok(())
}

/// Keeps the memory of an empty row for others.
#[inline(always)]
pub fn keep_memory<A: Allocator + Clone>(
    row: &mut Row<A>,
    spare: &mut Vec<Row<A>, A>,
) -> Result<(), AllocError>
    ensures { OnOk result (row.new.items ≡ row.old.items) }
{
    if row.is_empty() && row.capacity() > 0 {
        let none = Vec::new(row.allocator().clone()?);
        spare.push(mem::replace(row, none))?;
    }
    Ok(())
}

/// Whether the token is at that spot of that invocation.
#[inline(always)]
fn is_at(context: usize, spot: Spot, token: Token) -> bool
    ensures { result ≡ Acting.is_at context spot token }
{
    token.context == context && same_spot(token.spot, spot)
}

/// Where a token waits at that spot of that invocation.
#[inline(always)]
fn find(waiting: &[Token], context: usize, spot: Spot) -> Option<usize>
    ensures first { result ≡ Acting.find_from context spot 0 waiting.now }
    ensures within { IfSome result (λ i. i < length waiting.now) }
{
    for (i, token) in waiting.iter().enumerate() {
        if is_at(context, spot, *token) {
            return Some(i);
        }
    }
    None
}

/// Whether the token or one that waits is at the spot.
fn is_there(waiting: &[Token], token: &Token, spot: Spot) -> bool
    ensures { result ≡ Acting.is_there token.now spot waiting.now }
{
    same_spot(spot, token.spot) || find(waiting, token.context, spot).is_some()
}

/// Whether the token and those that wait are at all these spots.
fn all_there(waiting: &[Token], token: &Token, spots: &[Spot]) -> bool
    ensures { result ≡ Acting.all_there token.now spots.now waiting.now }
{
    for spot in spots {
        if !is_there(waiting, token, *spot) {
            return false;
        }
    }
    true
}

/// Moves the tokens after a place one place towards the front, so that the last one is left over.
#[inline(always)]
fn close(tokens: &mut [Token], place: usize)
    requires { place < length tokens.old }
    ensures long { length tokens.new ≡ length tokens.old }
    ensures moved { take (length tokens.old - 1) tokens.new ≡ remove tokens.old place }
{
    for i in place + 1..tokens.len() {
        tokens[i - 1] = tokens[i];
    }
}

/// Takes the token that waits at a spot of an invocation out, and returns its value, if there is one.
#[inline(always)]
fn take_at<A: Allocator>(waiting: &mut Vec<Token, A>, context: usize, spot: Spot) -> Option<Value>
    ensures left { waiting.new.items ≡ Acting.without waiting.old.items (Acting.find_from context spot 0 waiting.old.items) }
    ensures value { Acting.as_list result ≡ Acting.value_at waiting.old.items (Acting.find_from context spot 0 waiting.old.items) }
    ensures found { is_some result ≡ is_some (Acting.find_from context spot 0 waiting.old.items) }
{
    let place = find(waiting, context, spot)?;
    let value = waiting[place].value;
    close(waiting, place);
    waiting.pop();
    Some(value)
}

/// Takes the token's partner at a spot out, and returns the value there, if there is one.
fn take_one<A: Allocator>(waiting: &mut Vec<Token, A>, token: &Token, spot: Spot) -> Option<Value>
    ensures left { waiting.new.items ≡ Acting.remaining_after token.now spot waiting.old.items }
    ensures value { Acting.as_list result ≡ Acting.value_here token.now spot waiting.old.items }
{
    if same_spot(spot, token.spot) {
        return Some(token.value);
    }
    take_at(waiting, token.context, spot)
}

/// Takes the partners of the token out, and lists the values at all these spots in order, in place of what the list held.
fn take_out<A: Allocator, B: Allocator>(
    values: &mut Vec<Value, B>,
    waiting: &mut Vec<Token, A>,
    token: &Token,
    spots: &[Spot],
) -> Result<(), AllocError>
    ensures left { OnOk result (waiting.new.items ≡ Acting.remaining_of token.now spots.now waiting.old.items) }
    ensures values { OnOk result (values.new.items ≡ Acting.values_of token.now spots.now waiting.old.items) }
{
    values.clear();
    for spot in spots {
        if let Some(value) = take_one(waiting, token, *spot) {
            values.push(value)?;
        }
    }
    Ok(())
}

/// Takes the partners of a token at all spots of an activity, and lists the values there in order. Where one is missing, nothing
/// is taken.
fn take_listed<A: Allocator>(
    spots: &mut Vec<Spot, A>,
    values: &mut Vec<Value, A>,
    waiting: &mut Vec<Token, A>,
    token: &Token,
    shape: Shape,
) -> Result<bool, AllocError>
    ensures { IfOk result (λ b. AreTaken token.now shape waiting.old.items waiting.new.items values.new.items b) }
{
    list_spots(spots, shape)?;
    if !all_there(waiting, token, spots) {
        return Ok(false);
    }
    take_out(values, waiting, token, spots)?;
    Ok(true)
}

/// Takes the partners of a token for an activity. Where one is missing, nothing is taken. More than two values are listed.
#[inline(always)]
pub fn take_partners<A: Allocator>(
    spare: &mut Spare<A>,
    waiting: &mut Vec<Token, A>,
    token: &Token,
    shape: Shape,
) -> Result<bool, AllocError>
    ensures { IfOk result (λ b. AreTaken token.now shape waiting.old.items waiting.new.items (taken_in spare.new.taken spare.new.values.items) b) }
{
    match partner_of(shape, token.spot) {
        Partner::Nothing => {
            spare.taken = Taken::One(token.value);
            Ok(true)
        }
        Partner::Then(spot) => {
            let Some(value) = take_at(waiting, token.context, spot) else {
                return Ok(false);
            };
            spare.taken = Taken::Two(token.value, value);
            Ok(true)
        }
        Partner::First(spot) => {
            let Some(value) = take_at(waiting, token.context, spot) else {
                return Ok(false);
            };
            spare.taken = Taken::Two(value, token.value);
            Ok(true)
        }
        Partner::Listed => {
            spare.taken = Taken::Listed;
            take_listed(&mut spare.spots, &mut spare.values, waiting, token, shape)
        }
    }
}
