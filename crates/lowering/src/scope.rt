//! What names stand for.

ghost use Rattle.std.specs.Prelude.{◌≡◌, ◌∷◌, [], ℕ, List, IfOk, OnOk, OnErr};
ghost use Rattle.source.specs.Lowered.{source_in, scoped, let_scoped};
ghost use Rattle.semantics.specs.declared.graph.Source.{Source};
ghost use Rattle.lowering.specs.Latest.{IsLatest};

use crate::names::{Entry, Target};
use graph::Name;
use semantics::graph::Source;
use std::alloc::{AllocError, Allocator};
use std::collections::{BTreeMap, VecDeque};
use std::marker::Model;

/// What each name stands for now.
type Latest<'a, A> = BTreeMap<&'a [u8], Source, A>;

/// From now on the name stands for this.
fn stand<'a, A: Allocator + Clone>(
    latest: &mut Latest<'a, A>,
    name: &'a [u8],
    source: Source,
) -> Result<(), AllocError>
    ensures stands { OnOk result ((scope : List (List ℕ × Source)) → IsLatest latest.old scope → IsLatest latest.new ((name.now, source) ∷ scope)) }
    ensures refused { OnErr result ((scope : List (List ℕ × Source)) → IsLatest latest.old scope → IsLatest latest.new scope) }
{
    match latest.insert(name, source) {
        Ok(_) => Ok(()),
        Err(_) => Err(AllocError),
    }
}

/// The names in scope, each with its source. Those that hide others are first.
#[derive(Drop)]
pub struct Scope<'a, A: Allocator> {
    entries: VecDeque<Entry<'a>, A>,
    latest: Latest<'a, A>,
}

impl<'a, A: Allocator> Model for Scope<'a, A> {
    ghost use Rattle.source.specs.Lowered.{Scope};
    ghost use Rattle.lowering.specs.Latest.{IsLatest};

    ghost Value = { Scope };

    ghost view = { λ s. s.entries.items };

    ghost invariant = { λ s. IsLatest s.latest s.entries.items };
}

impl<'a, A: Allocator + Clone> Scope<'a, A> {
    #[tactic(auto, using(crate::proofs::NameMaps::none_stand))]
    pub fn new(alloc: &A) -> Result<Scope<'a, A>, AllocError>
        ensures { IfOk result (λ s. s ≡ []) }
    {
        Ok(Scope {
            entries: VecDeque::new(alloc.clone()?),
            latest: BTreeMap::new(alloc.clone()?),
        })
    }

    /// What a name stands for.
    pub fn source(&self, name: &'a [u8]) -> Source
        ensures { result ≡ source_in self.now name.now }
    {
        match self.latest.get(&name) {
            Some(source) => *source,
            None => Source { node: 0, port: 0 },
        }
    }

    /// From now on the name stands for this.
    pub fn bind(&mut self, name: &'a [u8], source: Source) -> Result<(), AllocError>
        ensures { OnOk result (self.new ≡ (name.now, source) ∷ self.old) }
    {
        self.entries.push_front(Entry { name, source })?;
        if let Err(refused) = stand(&mut self.latest, name, source) {
            let _entry = self.entries.pop_front();
            return Err(refused);
        }
        Ok(())
    }

    /// From now on each name of a list stands for its source.
    pub fn bind_all(&mut self, names: &[Name<'a>], sources: &[Source]) -> Result<(), AllocError>
        ensures { OnOk result (self.new ≡ scoped names.now sources.now self.old) }
    {
        let mut i = names.len().min(sources.len());
        while i > 0 {
            i -= 1;
            let name = &names[i];
            self.bind(name.bytes, sources[i])?;
        }
        Ok(())
    }

    /// From now on each target of a `let` stands for its value.
    pub fn bind_targets(
        &mut self,
        targets: &[Target<'a>],
        sources: &[Source],
    ) -> Result<(), AllocError>
        ensures { OnOk result (self.new ≡ let_scoped targets.now sources.now self.old) }
    {
        let mut i = targets.len().min(sources.len());
        while i > 0 {
            i -= 1;
            self.bind_target(&targets[i], sources[i])?;
        }
        Ok(())
    }

    /// From now on a target of a `let` stands for its value.
    fn bind_target(&mut self, target: &Target<'a>, source: Source) -> Result<(), AllocError>
        ensures { OnOk result (self.new ≡ let_scoped (target.now ∷ []) (source ∷ []) self.old) }
    {
        if let Some(x) = &target.to {
            self.bind(x.name, source)?;
        }
        Ok(())
    }
}

/// The scope of these names alone.
pub fn scope_of<'a, A: Allocator + Clone>(
    alloc: &A,
    names: &[Name<'a>],
    sources: &[Source],
) -> Result<Scope<'a, A>, AllocError>
    ensures { IfOk result (λ s. s ≡ scoped names.now sources.now []) }
{
    let mut scope = Scope::new(alloc)?;
    scope.bind_all(names, sources)?;
    Ok(scope)
}
