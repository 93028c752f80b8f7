//! Literals, operators and cells.

ghost use Rattle.std.specs.Prelude.{◌≡◌, ◌+◌, ◌∷◌, ◌++◌, [], OnOk, IfOk};
ghost use Rattle.source.specs.Lowered.{ports_from, inputs_from, literal, operands, operator_of};
ghost use Rattle.source.specs.Evaluates.{signed};
ghost use Rattle.semantics.specs.declared.graph.Kind.TheVariants as node;
ghost use Rattle.lowering.specs.State.{after};
ghost use Rattle.lowering.specs.Operators.{one_node, operated, as_they_are, prefix, with_sources, last_negated, negated, minus};

use crate::machine::{Machine, next_number};
use crate::made::Made;
use graph::{Name, Node};
use operators::{Binary, Unary};
use semantics::graph::{Kind, Source};
use source::word::InfixSign;
use std::alloc::{AllocError, Allocator};

/// The first ports of a node.
#[tactic(auto, using(crate::proofs::Nodes::ports_more))]
pub fn ports<A: Allocator + Clone>(
    alloc: &A,
    node: u32,
    count: u64,
) -> Result<Vec<Source, A>, AllocError>
    ensures { IfOk result (λ v. v.items ≡ ports_from node 0 count) }
{
    let mut sources = Vec::new(alloc.clone()?);
    let mut port = 0;
    for _ in 0..count {
        sources.push(Source { node, port })?;
        port = next_number(port)?;
    }
    Ok(sources)
}

/// The first ports of so many nodes, one after another.
#[tactic(auto, using(crate::proofs::Nodes::inputs_more))]
pub fn inputs<A: Allocator + Clone>(
    alloc: &A,
    first: u32,
    count: usize,
) -> Result<Vec<Source, A>, AllocError>
    ensures { IfOk result (λ v. v.items ≡ inputs_from first count) }
{
    let mut sources = Vec::new(alloc.clone()?);
    let mut node = first;
    for _ in 0..count {
        sources.push(Source { node, port: 0 })?;
        node = next_number(node)?;
    }
    Ok(sources)
}

/// A list of one source.
pub fn single<A: Allocator + Clone>(alloc: &A, source: Source) -> Result<Vec<Source, A>, AllocError>
    ensures { IfOk result (λ v. v.items ≡ source ∷ []) }
{
    let mut sources = Vec::new(alloc.clone()?);
    sources.push(source)?;
    Ok(sources)
}

/// The same sources.
pub fn copied<A: Allocator + Clone>(
    alloc: &A,
    sources: &[Source],
) -> Result<Vec<Source, A>, AllocError>
    ensures { IfOk result (λ v. v.items ≡ sources.now) }
{
    let mut all = Vec::new(alloc.clone()?);
    all.extend_from_slice(sources)?;
    Ok(all)
}

/// A literal with its sign.
fn with_minus<'a>(kind: Kind<Name<'a>>) -> Kind<Name<'a>>
    ensures { result ≡ minus kind.entry }
{
    match kind {
        Kind::Lit { value } => Kind::Lit {
            value: value.wrapping_neg(),
        },
        other => other,
    }
}

/// The literal of a number, as one with its sign.
fn with_sign<'a, A: Allocator>(at: usize, made: Made<'a, A>) -> Made<'a, A>
    ensures { result ≡ negated at made.entry }
{
    let node = made.node;
    let region = node.region;
    let kind = with_minus(node.kind);
    let sources = node.sources;
    Made {
        at,
        node: Node {
            region,
            kind,
            sources,
        },
    }
}

impl<'a, A: Allocator + Clone> Machine<'a, A> {
    /// What a literal waits for.
    fn trigger(&self) -> Result<Vec<Source, A>, AllocError>
        ensures { IfOk result (λ v. v.items ≡ self.now.site.trigger ∷ []) }
    {
        single(&self.alloc, self.site.trigger)
    }

    /// A literal, which waits for the trigger.
    #[tactic(auto, using(crate::proofs::Nodes::literal_more))]
    pub fn literal(&mut self, at: usize, number: u64) -> Result<(), AllocError>
        ensures { OnOk result (self.new ≡ after self.old (literal self.old.site self.old.spot at (node.Lit (signed number)))) }
    {
        let trigger = self.trigger()?;
        let value = number.cast_signed();
        self.put_one(at, Kind::Lit { value }, trigger)
    }

    /// An operator, a fetch or a store on the last so many values.
    pub fn operate(&mut self, at: usize, kind: Kind<Name<'a>>, n: usize) -> Result<(), AllocError>
        ensures { OnOk result (self.new ≡ operated self.old at kind.entry n as_they_are) }
    {
        let sources = self.last(n)?;
        self.put_one(at, kind, sources)
    }

    /// An operator on two values. `>` and `>=` are `<` and `<=` on the values in the other order.
    pub fn infix(&mut self, at: usize, sign: InfixSign) -> Result<(), AllocError>
        ensures { OnOk result (self.new ≡ operated self.old at (node.Apply2 (operator_of sign)) 2 (operands sign)) }
    {
        let mut sources = self.last(2)?;
        let op = match sign {
            InfixSign::Direct { op } => op,
            InfixSign::Greater => {
                sources.reverse();
                Binary::Lt
            }
            InfixSign::AtLeast => {
                sources.reverse();
                Binary::Le
            }
        };
        self.put_one(at, Kind::Apply2 { op }, sources)
    }

    /// A sign before an operand. A number with `-` directly before it is one literal.
    pub fn prefix(&mut self, at: usize, op: Unary) -> Result<(), AllocError>
        ensures { OnOk result (self.new ≡ prefix self.old at op self.old.number) }
    {
        match op {
            Unary::Neg if self.number => self.negate(at),
            _ => self.operate(at, Kind::Apply1 { op }, 1),
        }
    }

    /// The last node is the literal of a number, and takes its sign.
    #[tactic(auto, using(crate::proofs::Algebra::last_of_nodes))]
    fn negate(&mut self, at: usize) -> Result<(), AllocError>
        ensures { OnOk result (self.new ≡ record self.old { nodes = last_negated at self.old.nodes }) }
    {
        if let Some(made) = self.nodes.pop() {
            self.nodes.push(with_sign(at, made))?;
        }
        Ok(())
    }

    /// One node more, which has so many values.
    #[tactic(auto, using(crate::proofs::Nodes::one_more))]
    pub fn put_all(
        &mut self,
        at: usize,
        kind: Kind<Name<'a>>,
        sources: Vec<Source, A>,
        count: u64,
    ) -> Result<(), AllocError>
        ensures { OnOk result (self.new ≡ after self.old (one_node self.old.site self.old.spot at kind.entry sources.items count)) }
    {
        let values = ports(&self.alloc, self.spot.next, count)?;
        self.put(at, kind, sources)?;
        self.give_all(values)
    }

    /// More values.
    pub fn give_all(&mut self, mut sources: Vec<Source, A>) -> Result<(), AllocError>
        ensures { OnOk result (self.new ≡ with_sources self.old sources.items) }
    {
        self.sources.append(&mut sources)?;
        Ok(())
    }
}
