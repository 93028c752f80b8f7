//! How often the outputs of nodes are used.

ghost use Rattle.std.specs.Prelude.{◌≡◌, ℕ, ◌+◌, ◌≤◌, length, map, replicate, true, false, IfOk};
ghost use Rattle.schemas.specs.declared.uses.Uses.TheVariants.{Never};
ghost use Rattle.schemas.specs.Flows.{resolved_node, resolved_named};
ghost use Rattle.schemas.specs.Triggers as Triggers;
ghost use Rattle.schemas.specs.Scopes as Scopes;
ghost use Rattle.schemas.specs.UseCounts as UseCounts;
ghost use Rattle.code_map.specs.Uses as Uses;

use crate::triggers::has_trigger;
use graph::{Block, Node};
use graph_check::Checked;
use semantics::graph::{Kind, Region, Source};
use std::alloc::{AllocError, Allocator};
use std::marker::Model;

/// How often a value is used.
#[derive(Clone, Copy)]
pub enum Use {
    Never,
    Once,
    Often,
}

impl Use {
    fn more(self) -> Use
        ensures { result ≡ Uses.once_more self }
    {
        match self {
            Use::Never => Use::Once,
            Use::Once | Use::Often => Use::Often,
        }
    }
}

/// How often each node of a block is used. Contracts see the schemas' counts.
#[derive(Drop)]
pub(crate) struct UseTable<A: Allocator> {
    uses: Vec<Use, A>,
}

impl<A: Allocator> Model for UseTable<A> {
    ghost use Rattle.std.specs.Prelude.{List};
    ghost use Rattle.schemas.specs.declared.uses.Uses as Declared;
    ghost use Rattle.code_map.specs.Uses as Uses;

    ghost Value = { List Declared.Uses };

    ghost view = { λ t. Uses.counts_of t.uses.items };
}

impl<A: Allocator> UseTable<A> {
    /// No uses of so many nodes.
    #[tactic(auto, using(crate::proofs::Counted::never_counted))]
    fn of(alloc: A, count: usize) -> Result<UseTable<A>, AllocError>
        ensures { IfOk result (λ t. t ≡ replicate count Never) }
    {
        Ok(UseTable {
            uses: vec![in alloc; Use::Never; count]?,
        })
    }

    /// Whether that node is used more than once.
    pub fn is_often(&self, node: u32) -> bool
        ensures { result ≡ UseCounts.is_often (UseCounts.uses_at self.now node) }
    {
        match self.uses.get(node as usize) {
            Some(uses) => matches!(*uses, Use::Often),
            None => false,
        }
    }

    #[tactic(auto, using(crate::proofs::Counted::counted_more, crate::proofs::Counted::counted_use))]
    fn note(&mut self, source: Source)
        ensures { self.new ≡ UseCounts.noted self.old source }
    {
        let node = source.node as usize;
        if node < self.uses.len() {
            let uses = self.uses[node];
            self.uses[node] = uses.more();
        }
    }

    /// Notes a use that is two destinations, or one.
    fn note_use(&mut self, source: Source, twice: bool)
        ensures { self.new ≡ UseCounts.noted_use self.old source twice }
    {
        self.note(source);
        if twice {
            self.note(source);
        }
    }

    /// Notes a use of each of the sources.
    fn note_sources(&mut self, sources: &[Source], twice: bool)
        ensures { self.new ≡ UseCounts.noted_sources self.old sources.now twice }
    {
        for source in sources {
            self.note_use(*source, twice);
        }
    }
}

/// The source of a conditional's predicate.
fn predicate_of<'a, A: Allocator>(
    checked: &Checked<'a, A>,
    block: &Block<'a, A>,
    cond: u32,
) -> Source
    ensures { result ≡ Scopes.predicate_of (resolved_named checked.now block.now) cond }
{
    const NOWHERE: Source = Source { node: 0, port: 0 };
    if cond < block.inputs {
        return NOWHERE;
    }
    match block.nodes.get((cond - block.inputs) as usize) {
        Some(node) => match node.sources.first() {
            Some(source) => *source,
            None => NOWHERE,
        },
        None => NOWHERE,
    }
}

impl<A: Allocator> UseTable<A> {
    /// Notes that an `enter` of that region takes the predicate.
    fn note_predicate<'a>(&mut self, checked: &Checked<'a, A>, block: &Block<'a, A>, region: Region)
        ensures { self.new ≡ UseCounts.noted_predicate self.old (resolved_named checked.now block.now) region }
    {
        if let Region::Arm { cond, side: _ } = region {
            self.note(predicate_of(checked, block, cond));
        }
    }

    /// Notes the source of a conditional: the switch of its triggers, if it has one, takes it at both ports.
    fn note_conditional(&mut self, triggers: &[bool], cond: u32, sources: &[Source])
        ensures { self.new ≡ UseCounts.noted_conditional self.old (Triggers.has_trigger triggers.now cond) sources.now }
    {
        if has_trigger(triggers, cond) {
            self.note_sources(sources, true);
        }
    }

    /// Notes what the node of that number takes. A strict call also joins its sources, so each has two destinations there.
    fn note_node<'a>(
        &mut self,
        checked: &Checked<'a, A>,
        block: &Block<'a, A>,
        triggers: &[bool],
        number: u32,
        node: &Node<'a, A>,
    )
        ensures { self.new ≡ UseCounts.noted_node self.old (resolved_named checked.now block.now) triggers.now number (resolved_node checked.now node.now) }
    {
        match &node.kind {
            Kind::Cond => self.note_conditional(triggers, number, &node.sources),
            Kind::Enter => {
                self.note_sources(&node.sources, false);
                self.note_predicate(checked, block, node.region);
            }
            Kind::StrictCall { .. } => self.note_sources(&node.sources, true),
            _ => self.note_sources(&node.sources, false),
        }
    }

    /// Notes what the nodes of a block take.
    fn note_nodes<'a>(&mut self, checked: &Checked<'a, A>, block: &Block<'a, A>, triggers: &[bool])
        requires few { block.now.1.inputs + length block.now.1.nodes ≤ 1024 }
        ensures { self.new ≡ UseCounts.noted_nodes self.old (resolved_named checked.now block.now) triggers.now block.now.1.inputs (map (resolved_node checked.now) block.now.1.nodes) }
    {
        for (index, node) in block.nodes.iter().enumerate() {
            self.note_node(checked, block, triggers, block.inputs + index as u32, node);
        }
    }

    /// Notes the results of a call or of an iteration, whose first one is the flag, which each switch takes.
    fn note_results(&mut self, turns: bool, results: &[Source])
        ensures { self.new ≡ UseCounts.noted_results self.old turns results.now }
    {
        if let Some((first, others)) = results.split_first() {
            self.note_use(*first, turns);
            self.note_sources(others, false);
        }
    }
}

/// How often each node of a block, of which there are so many, is used in a call or in an iteration.
pub(crate) fn uses_of<'a, A: Allocator>(
    alloc: A,
    checked: &Checked<'a, A>,
    block: &Block<'a, A>,
    triggers: &[bool],
    turns: bool,
    count: usize,
) -> Result<UseTable<A>, AllocError>
    requires few { block.now.1.inputs + length block.now.1.nodes ≤ 1024 }
    ensures { IfOk result (λ t. t ≡ UseCounts.uses_of (resolved_named checked.now block.now) triggers.now turns count) }
{
    let mut uses = UseTable::of(alloc, count)?;
    uses.note_nodes(checked, block, triggers);
    uses.note_results(turns, &block.results);
    Ok(uses)
}
