//! What a word says: an operand, a slot, a destination, an origin.

ghost use Rattle.std.specs.Prelude.{◌≡◌, option_map};
ghost use Rattle.semantics.specs.Program.{uses_slot};
ghost use Rattle.assembler.specs.Fields as Fields;

use graph_file::{Parts, literal, number};
use operators::Binary;
use semantics::opcode::Opcode;
use semantics::program::{Dest, Op};
use tags::token::Port;
use tags::value::{NodeNumber, Origin};

/// What follows a byte at the front.
#[tactic(auto, unfolding(crate::specs::Fields::tagged))]
fn tagged(bytes: &[u8], tag: u8) -> Option<&[u8]>
    ensures { option_map (λ x. x.now) result ≡ Fields.tagged tag bytes.now }
{
    match bytes {
        [first, rest @ ..] if *first == tag => Some(rest),
        _ => None,
    }
}

/// A number below 256.
#[tactic(auto, unfolding(crate::specs::Fields::small_of))]
fn small(bytes: &[u8]) -> Option<u8>
    ensures { result ≡ Fields.small_of bytes.now }
{
    let n = number(bytes)?;
    if n < 256 { Some(n as u8) } else { None }
}

/// A number below 65,536.
#[tactic(auto, unfolding(crate::specs::Fields::wide_of))]
fn wide(bytes: &[u8]) -> Option<u16>
    ensures { result ≡ Fields.wide_of bytes.now }
{
    let n = number(bytes)?;
    if n < 65_536 { Some(n as u16) } else { None }
}

/// A number below 256 after that byte.
#[tactic(auto, unfolding(crate::specs::Fields::small_behind))]
fn small_behind(bytes: &[u8], tag: u8) -> Option<u8>
    ensures { result ≡ Fields.small_behind tag bytes.now }
{
    small(tagged(bytes, tag)?)
}

/// A number below 65,536 after that byte.
#[tactic(auto, unfolding(crate::specs::Fields::wide_behind))]
fn wide_behind(bytes: &[u8], tag: u8) -> Option<u16>
    ensures { result ≡ Fields.wide_behind tag bytes.now }
{
    wide(tagged(bytes, tag)?)
}

/// A literal after `#`.
#[tactic(auto, unfolding(crate::specs::Fields::literal_behind))]
fn literal_behind(bytes: &[u8]) -> Option<i64>
    ensures { result ≡ Fields.literal_behind bytes.now }
{
    literal(tagged(bytes, b'#')?)
}

/// A literal after that byte and `#`.
#[tactic(auto, unfolding(crate::specs::Fields::side_behind))]
fn side_behind(bytes: &[u8], tag: u8) -> Option<i64>
    ensures { result ≡ Fields.side_behind tag bytes.now }
{
    literal_behind(tagged(bytes, tag)?)
}

/// The operation, where there is no operand.
#[tactic(auto, unfolding(crate::specs::Fields::no_operand))]
fn no_operand(op: Op, bytes: &[u8]) -> Option<Op>
    ensures { result ≡ Fields.no_operand op bytes.now }
{
    if bytes == b"-".as_slice() {
        Some(op)
    } else {
        None
    }
}

/// The operator, with the literal that is there in place of an operand.
#[tactic(auto, unfolding(crate::specs::Fields::binary_from))]
fn binary(op: Binary, bytes: &[u8]) -> Option<Op>
    ensures { result ≡ Fields.binary_from op bytes.now }
{
    if bytes == b"-".as_slice() {
        return Some(Op::Apply2 { op });
    }
    if let Some(literal) = side_behind(bytes, b'r') {
        return Some(Op::Apply2Right { op, literal });
    }
    let literal = side_behind(bytes, b'l')?;
    Some(Op::Apply2Left { op, literal })
}

/// A block and an entry, with a dot between.
#[tactic(auto, unfolding(crate::specs::Fields::entry_of))]
fn entry(bytes: &[u8]) -> Option<(u16, u16)>
    ensures { result ≡ Fields.entry_of bytes.now }
{
    let (block, rest) = Parts::of(bytes, b'.').split_first()?;
    let (entry, rest) = rest.split_first()?;
    if !rest.has(0) {
        return None;
    }
    Some((wide(block)?, wide(entry)?))
}

/// A block and an entry after `b`.
#[tactic(auto, unfolding(crate::specs::Fields::entry_behind))]
fn entry_behind(bytes: &[u8]) -> Option<(u16, u16)>
    ensures { result ≡ Fields.entry_behind bytes.now }
{
    entry(tagged(bytes, b'b')?)
}

/// The operation of that opcode, which a word names, with the operand that is there. A word of an operator does not say that an
/// operand is a literal.
#[tactic(auto, unfolding(crate::specs::Fields::op_of))]
pub(crate) fn op_of(opcode: Opcode, bytes: &[u8]) -> Option<Op>
    ensures { result ≡ Fields.op_of opcode bytes.now }
{
    match opcode {
        Opcode::Apply1 { op } => no_operand(Op::Apply1 { op }, bytes),
        Opcode::Apply2 { op } => binary(op, bytes),
        Opcode::Apply2Right { .. } | Opcode::Apply2Left { .. } => None,
        Opcode::Lit => literal_behind(bytes).map(|literal| Op::Lit { literal }),
        Opcode::Copy => no_operand(Op::Copy, bytes),
        Opcode::Sync => no_operand(Op::Sync, bytes),
        Opcode::Switch => no_operand(Op::Switch, bytes),
        Opcode::Fetch => small_behind(bytes, b'a').map(|array| Op::Fetch { array }),
        Opcode::Store => small_behind(bytes, b'a').map(|array| Op::Store { array }),
        Opcode::Frame => no_operand(Op::Frame, bytes),
        Opcode::Link => wide_behind(bytes, b'b').map(|block| Op::Link { block }),
        Opcode::Send => entry_behind(bytes).map(|(block, entry)| Op::Send { block, entry }),
        Opcode::Return => small_behind(bytes, b'o').map(|offset| Op::Return { offset }),
        Opcode::Ask => small_behind(bytes, b'o').map(|offset| Op::Ask { offset }),
        Opcode::Open => small_behind(bytes, b'k').map(|bound| Op::Open { bound }),
        Opcode::Take => small_behind(bytes, b'k').map(|bound| Op::Take { bound }),
        Opcode::Give => small_behind(bytes, b'k').map(|bound| Op::Give { bound }),
        Opcode::Drain => small_behind(bytes, b'k').map(|bound| Op::Drain { bound }),
        Opcode::Release => small_behind(bytes, b'o').map(|offset| Op::Release { offset }),
    }
}

/// The slot of the operation, or `-` where it uses none.
#[tactic(auto, unfolding(crate::specs::Fields::slot_from))]
pub(crate) fn slot_from(op: Op, bytes: &[u8]) -> Option<u32>
    ensures { result ≡ Fields.slot_from (uses_slot op) bytes.now }
{
    if op.uses_slot() {
        number(bytes)
    } else if bytes == b"-".as_slice() {
        Some(0)
    } else {
        None
    }
}

/// A number of instructions and a port.
#[tactic(auto, unfolding(crate::specs::Fields::dest_behind))]
fn dest_behind(bytes: &[u8]) -> Option<Option<Dest>>
    ensures { result ≡ Fields.dest_behind bytes.now }
{
    let (last, digits) = bytes.split_last()?;
    let port = match *last {
        b'l' => Port::Left,
        b'r' => Port::Right,
        _ => return None,
    };
    let ahead = number(digits)?;
    Some(Some(Dest { ahead, port }))
}

/// A destination, or `-`.
#[tactic(auto, unfolding(crate::specs::Fields::dest_of))]
pub(crate) fn dest_of(bytes: &[u8]) -> Option<Option<Dest>>
    ensures { result ≡ Fields.dest_of bytes.now }
{
    if bytes == b"-".as_slice() {
        return Some(None);
    }
    dest_behind(tagged(bytes, b'+')?)
}

/// The number of a node.
#[tactic(auto, unfolding(crate::specs::Fields::node_of))]
fn node(bytes: &[u8]) -> Option<NodeNumber>
    ensures { result ≡ Fields.node_of bytes.now }
{
    let n = number(bytes)?;
    if n < 1024 {
        Some(NodeNumber::new(n as u16))
    } else {
        None
    }
}

/// A block and a node, with a dot between.
#[tactic(auto, unfolding(crate::specs::Fields::place_in))]
fn place_in(bytes: &[u8]) -> Option<Origin>
    ensures { result ≡ Fields.place_in bytes.now }
{
    let (block, rest) = Parts::of(bytes, b'.').split_first()?;
    let (place, rest) = rest.split_first()?;
    if !rest.has(0) {
        return None;
    }
    Some(Origin::At {
        block: small(block)?,
        node: node(place)?,
    })
}

/// An origin.
#[tactic(auto, unfolding(crate::specs::Fields::origin_of))]
pub(crate) fn origin_of(bytes: &[u8]) -> Option<Origin>
    ensures { result ≡ Fields.origin_of bytes.now }
{
    place_in(tagged(bytes, b'@')?)
}
