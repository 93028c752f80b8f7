//! Plans, made from the words, from the last to the first.

ghost use Rattle.std.specs.Prelude.{◌≡◌, ◌∷◌, ◌++◌, ◌&&◌, ◌||◌, [], ℕ, List, IfOk, OnOk};
ghost use Rattle.semantics.specs.Graph.{same_name};
ghost use Rattle.source.specs.Words.{named};
ghost use Rattle.source.specs.Outside.{once, without};
ghost use Rattle.lowering.specs.Scan as scan;
ghost use Rattle.lowering.specs.Uses.{shown, has, with_new};

use crate::name_set::NameSet;
use crate::names::name_of;
use crate::plan::Plan;
use graph::Name;
use source::word::Word;
use std::alloc::{AllocError, Allocator};
use std::collections::VecDeque;
use std::marker::Model;

/// A use of a name, or a binding of it, which hides the uses of it after.
#[derive(Drop)]
struct Mark<'a> {
    name: &'a [u8],
    is_bound: bool,
}

impl<'a> Model for Mark<'a> {
    ghost use Rattle.std.specs.Prelude.{ℕ, List, Bool};

    ghost Value = { List ℕ × Bool };

    ghost view = { λ m. (m.name.now, m.is_bound) };
}

/// The names that an open part uses from outside so far, in order of the text.
#[derive(Drop)]
pub struct Uses<'a, A: Allocator> {
    marks: VecDeque<Mark<'a>, A>,
}

impl<'a, A: Allocator> Model for Uses<'a, A> {
    ghost use Rattle.std.specs.Prelude.{ℕ, List};
    ghost use Rattle.lowering.specs.Uses.{shown};

    ghost Value = { List (List ℕ) };

    ghost view = { λ u. shown u.marks.items };
}

/// Keeps the name of a mark, if it is used there and is new.
fn keep_new<'a, A: Allocator + Clone>(
    kept: &mut Vec<Name<'a>, A>,
    known: &mut NameSet<'a, A>,
    mark: &Mark<'a>,
) -> Result<(), AllocError>
    ensures kept { OnOk result (kept.new.items ≡ with_new (has known.old.names) mark.now kept.old.items) }
    ensures known { OnOk result ((x : List ℕ) → has known.new.names x ≡ (same_name x mark.now.0 || has known.old.names x)) }
{
    let is_new = known.add(mark.name)?;
    if is_new && !mark.is_bound {
        kept.push(Name { bytes: mark.name })?;
    }
    Ok(())
}

/// Keeps the name of a mark, if it is used there and is not hidden.
fn keep_shown<'a, A: Allocator + Clone>(
    kept: &mut Vec<Name<'a>, A>,
    hidden: &mut NameSet<'a, A>,
    mark: &Mark<'a>,
) -> Result<(), AllocError>
    ensures kept { OnOk result (kept.new.items ≡ with_new (has hidden.old.names) mark.now kept.old.items) }
    ensures hidden { OnOk result ((x : List ℕ) → has hidden.new.names x ≡ ((mark.now.1 && same_name x mark.now.0) || has hidden.old.names x)) }
{
    if mark.is_bound {
        hidden.add(mark.name)?;
    } else if !hidden.contains(mark.name) {
        kept.push(Name { bytes: mark.name })?;
    }
    Ok(())
}

/// Each name once, where it is first.
#[tactic(auto, using(crate::proofs::Once::new_begun, crate::proofs::Once::new_step, crate::proofs::Once::new_ended))]
fn first_uses<'a, A: Allocator + Clone>(
    alloc: &A,
    marks: &VecDeque<Mark<'a>, A>,
) -> Result<Vec<Name<'a>, A>, AllocError>
    ensures { IfOk result (λ v. v.items ≡ once (shown marks.now.items)) }
{
    let mut kept = Vec::new(alloc.clone()?);
    let mut known = NameSet::new(alloc.clone()?);
    for i in 0..marks.len() {
        if let Some(mark) = marks.get(i) {
            keep_new(&mut kept, &mut known, mark)?;
        }
    }
    Ok(kept)
}

/// All names that are not hidden.
#[tactic(auto, using(crate::proofs::Once::shown_begun, crate::proofs::Once::shown_step, crate::proofs::Once::shown_ended))]
fn all_shown<'a, A: Allocator + Clone>(
    alloc: &A,
    marks: &VecDeque<Mark<'a>, A>,
) -> Result<Vec<Name<'a>, A>, AllocError>
    ensures { IfOk result (λ v. v.items ≡ shown marks.now.items) }
{
    let mut kept = Vec::new(alloc.clone()?);
    let mut hidden = NameSet::new(alloc.clone()?);
    for i in 0..marks.len() {
        if let Some(mark) = marks.get(i) {
            keep_shown(&mut kept, &mut hidden, mark)?;
        }
    }
    Ok(kept)
}

/// Uses of these names before others.
fn used_before<'a, A: Allocator>(
    mut first: Vec<Name<'a>, A>,
    mut marks: VecDeque<Mark<'a>, A>,
) -> Result<VecDeque<Mark<'a>, A>, AllocError>
    ensures { IfOk result (λ v. shown v.items ≡ first.entry.items ++ shown marks.entry.items) }
{
    while let Some(name) = first.pop() {
        marks.push_front(Mark {
            name: name.bytes,
            is_bound: false,
        })?;
    }
    Ok(marks)
}

impl<'a, A: Allocator + Clone> Uses<'a, A> {
    fn new(alloc: A) -> Uses<'a, A>
        ensures { result ≡ [] }
    {
        Uses {
            marks: VecDeque::new(alloc),
        }
    }

    /// With a use of a name before the others.
    fn with_use(self, name: &'a [u8]) -> Result<Uses<'a, A>, AllocError>
        ensures { IfOk result (λ u. u ≡ name.now ∷ self.entry) }
    {
        let mut marks = self.marks;
        marks.push_front(Mark {
            name,
            is_bound: false,
        })?;
        Ok(Uses { marks })
    }

    /// Each name once, where it is first.
    fn once(&self, alloc: &A) -> Result<Vec<Name<'a>, A>, AllocError>
        ensures { IfOk result (λ v. v.items ≡ once self.now) }
    {
        first_uses(alloc, &self.marks)
    }

    /// All except this name.
    fn without(self, name: &'a [u8]) -> Result<Uses<'a, A>, AllocError>
        ensures { IfOk result (λ u. u ≡ without (name.now ∷ []) self.entry) }
    {
        let mut marks = self.marks;
        marks.push_front(Mark {
            name,
            is_bound: true,
        })?;
        Ok(Uses { marks })
    }

    /// These, and then others.
    fn join(self, alloc: &A, others: Uses<'a, A>) -> Result<Uses<'a, A>, AllocError>
        ensures { IfOk result (λ u. u ≡ self.entry ++ others.entry) }
    {
        let first = all_shown(alloc, &self.marks)?;
        let marks = used_before(first, others.marks)?;
        Ok(Uses { marks })
    }
}

/// The plans so far, and what is known of the parts that are open.
#[derive(Drop)]
pub struct Scan<'a, A: Allocator> {
    pub plans: VecDeque<Plan<'a, A>, A>,
    uses: VecDeque<Uses<'a, A>, A>,
    places: VecDeque<usize, A>,
    alloc: A,
}

impl<'a, A: Allocator> Model for Scan<'a, A> {
    ghost use Rattle.lowering.specs.Scan as scan;

    ghost Value = { scan.Scan };

    ghost view = { λ z. record { plans = z.plans.items; uses = z.uses.items; places = z.places.items } };
}

impl<'a, A: Allocator + Clone> Scan<'a, A> {
    pub fn new(alloc: &A) -> Result<Scan<'a, A>, AllocError>
        ensures { IfOk result (λ z. z ≡ scan.scan_of [] [] []) }
    {
        Ok(Scan {
            plans: VecDeque::new(alloc.clone()?),
            uses: VecDeque::new(alloc.clone()?),
            places: VecDeque::new(alloc.clone()?),
            alloc: alloc.clone()?,
        })
    }

    pub fn into_plans(self) -> VecDeque<Plan<'a, A>, A>
        ensures { result.items ≡ self.entry.plans }
    {
        self.plans
    }

    /// The innermost part uses a name.
    fn use_name(&mut self, name: &'a [u8]) -> Result<(), AllocError>
        ensures { OnOk result (self.new ≡ scan.scan_of self.old.plans (scan.used name.now self.old.uses) self.old.places) }
    {
        if let Some(uses) = self.uses.pop_front() {
            self.uses.push_front(uses.with_use(name)?)?;
        }
        Ok(())
    }

    /// The first part ends, and its uses are also those of the part around it.
    fn join(&mut self) -> Result<(), AllocError>
        ensures { OnOk result (self.new ≡ scan.scan_of self.old.plans (scan.joined self.old.uses) self.old.places) }
    {
        if let Some(first) = self.uses.pop_front() {
            if let Some(second) = self.uses.pop_front() {
                self.uses.push_front(first.join(&self.alloc, second)?)?;
            } else {
                self.uses.push_front(first)?;
            }
        }
        Ok(())
    }

    /// A name is bound in the part around the innermost one.
    fn bind(&mut self, name: &'a [u8]) -> Result<(), AllocError>
        ensures { OnOk result (self.new ≡ scan.scan_of self.old.plans (scan.bound name.now self.old.uses) self.old.places) }
    {
        if let Some(first) = self.uses.pop_front() {
            if let Some(second) = self.uses.pop_front() {
                self.uses.push_front(second.without(name)?)?;
            }
            self.uses.push_front(first)?;
        }
        Ok(())
    }

    /// A part is open.
    fn open(&mut self) -> Result<(), AllocError>
        ensures { OnOk result (self.new ≡ scan.scan_of self.old.plans (scan.opened self.old.uses) self.old.places) }
    {
        let uses = Uses::new(self.alloc.clone()?);
        self.uses.push_front(uses)?;
        Ok(())
    }

    /// A conditional or a loop is open, and a part in it.
    fn enter(&mut self, at: usize) -> Result<(), AllocError>
        ensures { OnOk result (self.new ≡ scan.scan_of self.old.plans (scan.opened self.old.uses) (at ∷ self.old.places)) }
    {
        self.places.push_front(at)?;
        self.open()
    }

    /// Forgets what is known of the innermost part.
    fn close(&mut self)
        ensures { self.new ≡ scan.scan_of self.old.plans (scan.closed self.old.uses) self.old.places }
    {
        let _first = self.uses.pop_front();
    }

    /// The plan of the innermost part.
    fn plan(&mut self) -> Result<(), AllocError>
        ensures { OnOk result (self.new ≡ scan.scan_of (scan.with_plan self.old.plans self.old.uses self.old.places) self.old.uses self.old.places) }
    {
        if let Some(uses) = self.uses.pop_front() {
            if let Some(at) = self.places.pop_front() {
                let names = uses.once(&self.alloc)?;
                self.plans.push_front(Plan { at, names })?;
                self.places.push_front(at)?;
            }
            self.uses.push_front(uses)?;
        }
        Ok(())
    }

    /// The plan of the part around the innermost one.
    fn plan_outer(&mut self) -> Result<(), AllocError>
        ensures { OnOk result (self.new ≡ scan.scan_of (scan.with_outer_plan self.old.plans self.old.uses self.old.places) self.old.uses self.old.places) }
    {
        if let Some(first) = self.uses.pop_front() {
            self.plan()?;
            self.uses.push_front(first)?;
        }
        Ok(())
    }

    /// All that was open of a conditional or a loop is of the part around it.
    fn leave(&mut self) -> Result<(), AllocError>
        ensures { OnOk result (self.new ≡ scan.scan_of self.old.plans (scan.joined (scan.joined self.old.uses)) (scan.but_first self.old.places)) }
    {
        self.join()?;
        self.join()?;
        let _at = self.places.pop_front();
        Ok(())
    }

    /// One word.
    pub fn read(&mut self, names: &[Name<'a>], word: Word<usize>) -> Result<(), AllocError>
        ensures { OnOk result (self.new ≡ scan.read (named names.now word) self.old) }
    {
        match word {
            Word::Name { name, .. } => self.use_name(name_of(names, name)),
            Word::EndIf { at } | Word::EndLoop { at, .. } => self.enter(at),
            Word::Else => {
                self.plan()?;
                self.open()
            }
            Word::Then => {
                self.plan()?;
                self.leave()
            }
            Word::While => self.plan(),
            Word::Until | Word::TestFirst | Word::EndLet { .. } | Word::EndFunction => self.open(),
            Word::BodyFirst => {
                self.join()?;
                self.open()
            }
            Word::Start { name, .. } | Word::Bind { name, .. } => self.bind(name_of(names, name)),
            Word::Loop { .. } => {
                self.plan_outer()?;
                self.leave()
            }
            Word::Let { .. } => self.join(),
            Word::Body { .. } => {
                self.close();
                Ok(())
            }
            _ => Ok(()),
        }
    }
}
