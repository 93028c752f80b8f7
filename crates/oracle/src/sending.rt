//! New tokens.

ghost use Rattle.std.specs.Prelude.{◌≡◌, ◌++◌, ◌∷◌, ◌^◌, ◌+◌, ◌<◌, [], length, OnOk};
ghost use Rattle.oracle.specs.Sending as Sending;
ghost use Rattle.oracle.specs.Uses as Uses;

use crate::invocations::Made;
use crate::tokens::{Spot, Token};
use crate::uses::{NodeUses, Use};
use graph::{Block, Node};
use semantics::graph::{Kind, Region, Source};
use std::alloc::{AllocError, Allocator};
use std::collections::VecDeque;
use tags::value::Value;

/// A value in an invocation.
#[derive(Clone, Copy)]
pub struct Sent {
    pub context: usize,
    pub value: Value,
}

/// Whether the source is that port of that node.
#[inline(always)]
fn is_port(source: Source, node: usize, port: usize) -> bool
    ensures { result ≡ Sending.is_port_of source node port }
{
    source.node as usize == node && source.port as usize == port
}

#[inline(always)]
fn push<A: Allocator>(
    fresh: &mut VecDeque<Token, A>,
    sent: &Sent,
    spot: Spot,
) -> Result<(), AllocError>
    ensures { OnOk result (fresh.new.items ≡ fresh.old.items ++ Sending.token_at sent.now spot ∷ []) }
{
    fresh.push_back(Token {
        context: sent.context,
        spot,
        value: sent.value,
    })?;
    Ok(())
}

/// A token for each of a node's operands that comes from the port.
#[inline(always)]
fn send_to_operands<A: Allocator>(
    fresh: &mut VecDeque<Token, A>,
    sent: &Sent,
    node: usize,
    port: usize,
    at: usize,
    sources: &[Source],
) -> Result<(), AllocError>
    ensures { OnOk result (fresh.new.items ≡ fresh.old.items ++ Sending.operand_tokens sent.now node port at 0 sources.now) }
{
    for (position, source) in sources.iter().enumerate() {
        if is_port(*source, node, port) {
            push(fresh, sent, Spot::Operand { node: at, position })?;
        }
    }
    Ok(())
}

fn send_to_nodes<'a, A: Allocator>(
    fresh: &mut VecDeque<Token, A>,
    sent: &Sent,
    node: usize,
    port: usize,
    inputs: usize,
    nodes: &[Node<'a, A>],
) -> Result<(), AllocError>
    requires { inputs + length nodes.now < 2 ^ 64 }
    ensures { OnOk result (fresh.new.items ≡ fresh.old.items ++ Sending.node_tokens sent.now node port inputs nodes.now) }
{
    for (i, line) in nodes.iter().enumerate() {
        send_to_operands(fresh, sent, node, port, inputs + i, &line.sources)?;
    }
    Ok(())
}

/// A token for each of the nodes' operands that comes from the port. No node before that one has it for a source.
#[inline(always)]
fn send_to_later<'a, A: Allocator>(
    fresh: &mut VecDeque<Token, A>,
    sent: &Sent,
    node: usize,
    port: usize,
    inputs: usize,
    nodes: &[Node<'a, A>],
) -> Result<(), AllocError>
    requires few { inputs + length nodes.now < 2 ^ 64 }
    requires ordered { Sending.AreOrdered inputs nodes.now }
    ensures { OnOk result (fresh.new.items ≡ fresh.old.items ++ Sending.node_tokens sent.now node port inputs nodes.now) }
{
    if node < inputs || node - inputs >= nodes.len() {
        return send_to_nodes(fresh, sent, node, port, inputs, nodes);
    }
    let later = &nodes[node - inputs + 1..];
    send_to_nodes(fresh, sent, node, port, node + 1, later)
}

/// The flag of an iteration goes to each of its turns.
fn send_flags<A: Allocator>(
    fresh: &mut VecDeque<Token, A>,
    sent: &Sent,
    inputs: usize,
) -> Result<(), AllocError>
    ensures { OnOk result (fresh.new.items ≡ fresh.old.items ++ Sending.flag_tokens sent.now 1 inputs) }
{
    for i in 0..inputs {
        push(fresh, sent, Spot::Flag { number: i + 1 })?;
    }
    Ok(())
}

#[inline(always)]
fn send_as_result<A: Allocator>(
    fresh: &mut VecDeque<Token, A>,
    sent: &Sent,
    made: Made,
    inputs: usize,
    number: usize,
) -> Result<(), AllocError>
    ensures { OnOk result (fresh.new.items ≡ fresh.old.items ++ Sending.result_tokens sent.now made inputs number) }
{
    match made {
        Made::Main | Made::Called { .. } => push(fresh, sent, Spot::Out { number }),
        Made::Turned { .. } => {
            if number == 0 {
                send_flags(fresh, sent, inputs)
            } else {
                push(fresh, sent, Spot::Carried { number })
            }
        }
    }
}

#[inline(always)]
fn send_to_results<A: Allocator>(
    fresh: &mut VecDeque<Token, A>,
    sent: &Sent,
    made: Made,
    inputs: usize,
    from: (usize, usize),
    results: &[Source],
) -> Result<(), AllocError>
    ensures { OnOk result (fresh.new.items ≡ fresh.old.items ++ Sending.results_tokens sent.now made inputs from.0 from.1 0 results.now) }
{
    for (number, source) in results.iter().enumerate() {
        if is_port(*source, from.0, from.1) {
            send_as_result(fresh, sent, made, inputs, number)?;
        }
    }
    Ok(())
}

/// A token for each use of the port in the block, which are looked for.
pub fn send<'a, A: Allocator>(
    fresh: &mut VecDeque<Token, A>,
    sent: &Sent,
    made: Made,
    node: usize,
    port: usize,
    block: &Block<'a, A>,
) -> Result<(), AllocError>
    requires ordered { Sending.AreOrdered block.now.1.inputs block.now.1.nodes }
    ensures { OnOk result (fresh.new.items ≡ fresh.old.items ++ Sending.sent_tokens sent.now made node port block.now.1) }
{
    let inputs = block.inputs as usize;
    send_to_later(fresh, sent, node, port, inputs, &block.nodes)?;
    send_to_results(fresh, sent, made, inputs, (node, port), &block.results)
}

/// What is sent to a use of a port. A result of a turn goes to the next one.
#[inline(always)]
fn send_to_use<A: Allocator>(
    fresh: &mut VecDeque<Token, A>,
    sent: &Sent,
    made: Made,
    inputs: usize,
    spot: Spot,
) -> Result<(), AllocError>
    ensures { OnOk result (fresh.new.items ≡ fresh.old.items ++ Uses.use_tokens sent.now made inputs spot) }
{
    match spot {
        Spot::Out { number } => send_as_result(fresh, sent, made, inputs, number),
        _ => push(fresh, sent, spot),
    }
}

/// A token for each of the listed uses that is one of the port.
#[inline(always)]
pub fn send_to_uses<A: Allocator>(
    fresh: &mut VecDeque<Token, A>,
    sent: &Sent,
    made: Made,
    inputs: usize,
    port: usize,
    uses: &NodeUses<A>,
) -> Result<(), AllocError>
    ensures { OnOk result (fresh.new.items ≡ fresh.old.items ++ Uses.used_tokens sent.now made inputs port uses.now) }
{
    send_to_each(fresh, sent, made, inputs, port, &uses.uses)
}

#[inline(always)]
fn send_to_each<A: Allocator>(
    fresh: &mut VecDeque<Token, A>,
    sent: &Sent,
    made: Made,
    inputs: usize,
    port: usize,
    uses: &[Use],
) -> Result<(), AllocError>
    ensures { OnOk result (fresh.new.items ≡ fresh.old.items ++ Uses.used_tokens sent.now made inputs port uses.now) }
{
    for it in uses {
        if it.port as usize == port {
            send_to_use(fresh, sent, made, inputs, it.spot)?;
        }
    }
    Ok(())
}

/// Whether the region is an arm of the conditional.
fn is_arm_of(cond: usize, region: Region) -> bool
    ensures { result ≡ Sending.is_arm_of cond region }
{
    match region {
        Region::Arm { cond: of, .. } => of as usize == cond,
        Region::Root => false,
    }
}

/// Whether the node is an `enter` of an arm of the conditional.
fn is_gate_of<'a, A: Allocator>(cond: usize, line: &Node<'a, A>) -> bool
    ensures { result ≡ Sending.is_gate_of cond line.now.region line.now.kind }
{
    match line.kind {
        Kind::Enter => is_arm_of(cond, line.region),
        _ => false,
    }
}

/// The predicate, for each `enter` of the conditional's arms.
pub fn steer<'a, A: Allocator>(
    fresh: &mut VecDeque<Token, A>,
    sent: &Sent,
    cond: usize,
    block: &Block<'a, A>,
) -> Result<(), AllocError>
    ensures { OnOk result (fresh.new.items ≡ fresh.old.items ++ Sending.steered_tokens sent.now cond block.now.1.inputs block.now.1.nodes) }
{
    steer_nodes(fresh, sent, cond, block.inputs as usize, &block.nodes)
}

fn steer_nodes<'a, A: Allocator>(
    fresh: &mut VecDeque<Token, A>,
    sent: &Sent,
    cond: usize,
    inputs: usize,
    nodes: &[Node<'a, A>],
) -> Result<(), AllocError>
    requires { inputs + length nodes.now < 2 ^ 64 }
    ensures { OnOk result (fresh.new.items ≡ fresh.old.items ++ Sending.steered_tokens sent.now cond inputs nodes.now) }
{
    for (i, line) in nodes.iter().enumerate() {
        if is_gate_of(cond, line) {
            push(fresh, sent, Spot::Predicate { node: inputs + i })?;
        }
    }
    Ok(())
}

/// The values, for the inputs of an invocation from the first one on.
pub fn enter_all<A: Allocator>(
    fresh: &mut VecDeque<Token, A>,
    context: usize,
    values: &[Value],
) -> Result<(), AllocError>
    ensures { OnOk result (fresh.new.items ≡ fresh.old.items ++ Sending.entering_tokens context 0 values.now) }
{
    for (node, value) in values.iter().enumerate() {
        let sent = Sent {
            context,
            value: *value,
        };
        push(fresh, &sent, Spot::Operand { node, position: 0 })?;
    }
    Ok(())
}

/// The value, for that input of an invocation.
#[inline(always)]
pub fn enter<A: Allocator>(
    fresh: &mut VecDeque<Token, A>,
    sent: &Sent,
    input: usize,
) -> Result<(), AllocError>
    ensures { OnOk result (fresh.new.items ≡ fresh.old.items ++ Sending.token_at sent.now (Spot.Operand input 0) ∷ []) }
{
    push(
        fresh,
        sent,
        Spot::Operand {
            node: input,
            position: 0,
        },
    )
}
