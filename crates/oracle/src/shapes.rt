//! Which activity a token takes part in, by the place where it is.

ghost use Rattle.std.specs.Prelude.{◌≡◌, ◌++◌, Some, OnOk};
ghost use Rattle.semantics.specs.Graph.{Graph};
ghost use Rattle.oracle.specs.Lines as Lines;
ghost use Rattle.oracle.specs.Pairing.{IsPartner};

use crate::invocations::{Invocation, Made};
use crate::lines::{block_at, node_at};
use crate::tokens::Spot;
use graph::{Block, Name};
use graph_check::Checked;
use semantics::graph::Kind;
use std::alloc::{AllocError, Allocator};

/// An activity without the values that it takes.
#[derive(Clone, Copy, Debug)]
pub enum Shape {
    /// A node takes this number of operands, all at once.
    Fires { node: usize, count: usize },
    /// An `enter` takes its source and its predicate.
    Gates { node: usize },
    /// A merge, a call or a loop takes an operand by itself.
    Passes { node: usize, position: usize },
    /// A result of a call.
    Returns { number: usize },
    /// A turn of an iteration.
    Turns { number: usize },
    /// A result of main.
    Outputs { number: usize },
}

/// What an activity takes beside a token.
#[derive(Clone, Copy, Debug)]
pub enum Partner {
    /// The activity takes the token alone.
    Nothing,
    /// The token, and then one at this spot.
    Then(Spot),
    /// One at this spot, and then the token.
    First(Spot),
    /// Whatever is at all its spots.
    Listed,
}

/// A node that takes all its operands at once, and has as many as it takes.
#[inline(always)]
fn fires<'a>(kind: &Kind<Name<'a>>, arity: usize) -> bool
    ensures each { (g : Graph) → result ≡ Lines.takes_all (Lines.resolved_in g kind.now) arity }
{
    match kind {
        Kind::Lit { .. } | Kind::Apply1 { .. } | Kind::Cond | Kind::Fetch { .. } => arity == 1,
        Kind::Apply2 { .. } | Kind::Store { .. } => arity == 2,
        Kind::StrictCall { .. } => true,
        Kind::Enter | Kind::Merge { .. } | Kind::Call { .. } | Kind::Loop { .. } => false,
    }
}

#[inline(always)]
fn shape_at_node<'a>(
    kind: &Kind<Name<'a>>,
    arity: usize,
    node: usize,
    position: usize,
) -> Option<Shape>
    ensures each { (g : Graph) → result ≡ Lines.node_shape (Lines.resolved_in g kind.now) arity node position }
{
    match kind {
        Kind::Merge { .. } | Kind::Call { .. } | Kind::Loop { .. } => {
            Some(Shape::Passes { node, position })
        }
        Kind::Enter => {
            if position == 0 {
                Some(Shape::Gates { node })
            } else {
                None
            }
        }
        _ => {
            if fires(kind, arity) && position < arity {
                Some(Shape::Fires { node, count: arity })
            } else {
                None
            }
        }
    }
}

/// The activity that takes an operand of a node.
#[inline(always)]
fn shape_of_operand<'a, A: Allocator>(
    block: &Block<'a, A>,
    node: usize,
    position: usize,
) -> Option<Shape>
    ensures each { (g : Graph) → result ≡ Lines.operand_shape (Lines.line_in g (Some block.now) node) node position }
{
    let inputs = block.inputs as usize;
    if node < inputs {
        return if position == 0 {
            Some(Shape::Fires { node, count: 1 })
        } else {
            None
        };
    }
    let line = node_at(block, node - inputs)?;
    shape_at_node(&line.kind, line.sources.len(), node, position)
}

/// The activity that takes a predicate.
fn shape_of_predicate<'a, A: Allocator>(block: &Block<'a, A>, node: usize) -> Option<Shape>
    ensures each { (g : Graph) → result ≡ Lines.predicate_shape (Lines.line_in g (Some block.now) node) node }
{
    let inputs = block.inputs as usize;
    if node < inputs {
        return None;
    }
    match node_at(block, node - inputs)?.kind {
        Kind::Enter => Some(Shape::Gates { node }),
        _ => None,
    }
}

/// The activity that takes a result of an invocation.
#[inline(always)]
fn shape_of_result(made: Made, number: usize) -> Option<Shape>
    ensures { result ≡ Lines.out_shape made number }
{
    match made {
        Made::Main => Some(Shape::Outputs { number }),
        Made::Called { .. } => Some(Shape::Returns { number }),
        Made::Turned { .. } => None,
    }
}

/// The activity that takes what is at a turn of an iteration.
#[inline(always)]
fn shape_of_turn(made: Made, number: usize) -> Option<Shape>
    ensures { result ≡ Lines.turn_shape made number }
{
    match made {
        Made::Turned { .. } => Some(Shape::Turns { number }),
        _ => None,
    }
}

/// The activity that takes a token at that spot of an invocation.
#[inline(always)]
pub fn shape_of<'a, A: Allocator>(
    checked: &Checked<'a, A>,
    invocation: &Invocation,
    spot: Spot,
) -> Option<Shape>
    ensures { result ≡ Lines.shape_in checked.now invocation.now.made invocation.now.block spot }
{
    match spot {
        Spot::Operand { node, position } => {
            shape_of_operand(block_at(checked.graph(), invocation.block)?, node, position)
        }
        Spot::Predicate { node } => {
            shape_of_predicate(block_at(checked.graph(), invocation.block)?, node)
        }
        Spot::Out { number } => shape_of_result(invocation.made, number),
        Spot::Flag { number } | Spot::Carried { number } => shape_of_turn(invocation.made, number),
    }
}

/// What a node takes beside one of its operands.
#[inline(always)]
fn partner_of_operand(node: usize, count: usize, position: usize) -> Partner
    ensures { IsPartner (Shape.Fires node count) (Spot.Operand node position) result }
{
    match (count, position) {
        (1, 0) => Partner::Nothing,
        (2, 0) => Partner::Then(Spot::Operand { node, position: 1 }),
        (2, 1) => Partner::First(Spot::Operand { node, position: 0 }),
        _ => Partner::Listed,
    }
}

/// What an activity takes beside the token at one of its spots.
#[inline(always)]
pub fn partner_of(shape: Shape, spot: Spot) -> Partner
    ensures { IsPartner shape spot result }
{
    match (shape, spot) {
        (Shape::Fires { node, count }, Spot::Operand { node: at, position }) if at == node => {
            partner_of_operand(node, count, position)
        }
        (
            Shape::Gates { node },
            Spot::Operand {
                node: at,
                position: 0,
            },
        ) if at == node => { Partner::Then(Spot::Predicate { node }) }
        (Shape::Gates { node }, Spot::Predicate { node: at }) if at == node => {
            Partner::First(Spot::Operand { node, position: 0 })
        }
        (
            Shape::Passes { node, position },
            Spot::Operand {
                node: at,
                position: i,
            },
        ) if at == node && i == position => Partner::Nothing,
        (Shape::Returns { number } | Shape::Outputs { number }, Spot::Out { number: at })
            if at == number => { Partner::Nothing }
        (Shape::Turns { number }, Spot::Flag { number: at }) if at == number => {
            Partner::Then(Spot::Carried { number })
        }
        (Shape::Turns { number }, Spot::Carried { number: at }) if at == number => {
            Partner::First(Spot::Flag { number })
        }
        _ => Partner::Listed,
    }
}

/// Adds the spots of a node's operands.
fn push_operands<A: Allocator>(
    spots: &mut Vec<Spot, A>,
    node: usize,
    count: usize,
) -> Result<(), AllocError>
    ensures { OnOk result (spots.new.items ≡ spots.old.items ++ Lines.operand_spots node 0 count) }
{
    for position in 0..count {
        spots.push(Spot::Operand { node, position })?;
    }
    Ok(())
}

/// Lists the spots of the tokens that an activity takes, in order, in place of what the list held.
pub fn list_spots<A: Allocator>(spots: &mut Vec<Spot, A>, shape: Shape) -> Result<(), AllocError>
    ensures { OnOk result (spots.new.items ≡ Lines.spots_in shape) }
{
    spots.clear();
    match shape {
        Shape::Fires { node, count } => push_operands(spots, node, count)?,
        Shape::Gates { node } => {
            spots.push(Spot::Operand { node, position: 0 })?;
            spots.push(Spot::Predicate { node })?;
        }
        Shape::Passes { node, position } => spots.push(Spot::Operand { node, position })?,
        Shape::Returns { number } | Shape::Outputs { number } => spots.push(Spot::Out { number })?,
        Shape::Turns { number } => {
            spots.push(Spot::Flag { number })?;
            spots.push(Spot::Carried { number })?;
        }
    }
    Ok(())
}
