//! Which holders of a block may share a slot.

ghost use Rattle.std.specs.Prelude.{◌≡◌, ℕ, ◌+◌, ◌*◌, ◌/◌, ◌<◌, ◌^◌, ◌↔◌, [], length, replicate, IfOk, IfSome, IfNone, IsTrue, All, true, false};
ghost use Rattle.std.specs.Prelude.{slice_get, slice_index_or, slice_set, if◌then◌else◌};
ghost use Rattle.std.specs.List.{list_any};
ghost use Rattle.slot_alloc.specs.Passes.{same_mark};
ghost use Rattle.slot_alloc.specs.Tables as of_tables;

use crate::choices::{Choice, is_marked, is_same};
use crate::row::Row;
use crate::rows::row_of;
use code::{CodeBlock, Plan};
use semantics::program::Mark;
use std::alloc::{AllocError, Allocator};
use std::marker::Model;

/// The most slots that a frame has.
pub(crate) const SLOTS: usize = 512;

/// The holders on the two sides of the switches of up to 64 marks, a lane for each mark.
#[derive(Drop)]
pub(crate) struct Split<A: Allocator> {
    yes: Row<A>,
    no: Row<A>,
}

impl<A: Allocator> Model for Split<A> {
    ghost use Rattle.slot_alloc.specs.Tables.{Split};

    ghost Value = { Split };

    ghost view = { λ s. record { yes = s.yes; no = s.no } };
}

impl<A: Allocator> Split<A> {
    /// Whether the two holders are on different sides of one mark.
    fn is_apart(&self, g: usize, h: usize) -> bool
        ensures { result ≡ of_tables.is_apart g h self.now }
    {
        (self.yes.at(g) & self.no.at(h)) | (self.no.at(g) & self.yes.at(h)) != 0
    }

    /// Whether the holder is on a side of one of the marks.
    fn is_sided(&self, holder: usize) -> bool
        ensures { result ≡ of_tables.is_sided holder self.now }
    {
        (self.yes.at(holder) | self.no.at(holder)) != 0
    }
}

fn is_known(mark: Mark, seen: &[Mark]) -> bool
    ensures { result ≡ list_any (same_mark mark) seen.now }
{
    seen.iter().any(|other| is_same(mark, *other))
}

/// Each mark once.
fn distinct<A: Allocator>(alloc: A, marks: &[Mark]) -> Result<Vec<Mark, A>, AllocError>
    ensures { IfOk result (λ v. v.items ≡ of_tables.distinct [] marks.now) }
{
    let mut seen = Vec::new(alloc);
    for mark in marks {
        if is_marked(*mark) && !is_known(*mark, &seen) {
            seen.push(*mark)?;
        }
    }
    Ok(seen)
}

/// The holders on the two sides of the switches of the first 64 marks of a list.
fn split_of<A: Allocator + Clone>(
    alloc: A,
    plan: &Plan<A>,
    block: &CodeBlock<A>,
    marks: &[Mark],
    known: &[Mark],
) -> Result<Split<A>, AllocError>
    ensures { IfOk result (λ s. s ≡ of_tables.split_of plan.now marks.now block.now known.now) }
{
    let on_yes = Choice::Sides { side: true };
    let on_no = Choice::Sides { side: false };
    let yes = row_of(alloc.clone()?, plan, block, marks, on_yes, known)?;
    let no = row_of(alloc, plan, block, marks, on_no, known)?;
    Ok(Split { yes, no })
}

/// How many groups of 64 `count` items fill.
fn groups(count: usize) -> usize
    requires { count < 2 ^ 63 }
    ensures { result ≡ of_tables.groups count }
{
    (count + 63) / 64
}

/// The sides of all marks, 64 at a time.
fn splits_of<A: Allocator + Clone>(
    alloc: A,
    plan: &Plan<A>,
    block: &CodeBlock<A>,
    marks: &[Mark],
) -> Result<Vec<Split<A>, A>, AllocError>
    ensures { IfOk result (λ v. v.items ≡ of_tables.splits_of plan.now marks.now block.now (of_tables.distinct [] marks.now)
        (of_tables.groups (length (of_tables.distinct [] marks.now)))) }
{
    let known = distinct(alloc.clone()?, marks)?;
    let mut splits = Vec::new(alloc.clone()?);
    for group in 0..groups(known.len()) {
        let rest = &known[group * 64..];
        splits.push(split_of(alloc.clone()?, plan, block, marks, rest)?)?;
    }
    Ok(splits)
}

/// For each 64 holders the row that says which holders are after them.
fn after_rows<A: Allocator + Clone>(
    alloc: A,
    plan: &Plan<A>,
    block: &CodeBlock<A>,
    marks: &[Mark],
) -> Result<Vec<Row<A>, A>, AllocError>
    ensures { IfOk result (λ v. v.items ≡ of_tables.after_rows plan.now marks.now block.now (of_tables.groups block.now.slots)) }
{
    let count = groups(block.slots as usize);
    let mut rows = Vec::with_capacity(alloc.clone()?, count)?;
    for group in 0..count {
        let choice = Choice::Ends { first: group * 64 };
        rows.push(row_of(alloc.clone()?, plan, block, marks, choice, &[])?)?;
    }
    Ok(rows)
}

/// The holder that gets a slot next.
#[derive(Clone, Copy)]
struct NextHolder {
    number: usize,
    /// Whether the switches of some mark have it on one of their sides.
    is_sided: bool,
}

/// Says of any two holders of a block whether they may share a slot.
#[derive(Drop)]
pub(crate) struct Table<A: Allocator> {
    after: Vec<Row<A>, A>,
    splits: Vec<Split<A>, A>,
}

impl<A: Allocator> Model for Table<A> {
    ghost use Rattle.slot_alloc.specs.Tables.{Table};

    ghost Value = { Table };

    ghost view = { λ t. record { after = t.after.items; splits = t.splits.items } };
}

impl<A: Allocator + Clone> Table<A> {
    /// The table of a block with such marks. It takes one pass over the arcs of the block for each 64 holders, and two
    /// for each 64 marks.
    pub fn of(
        alloc: A,
        plan: &Plan<A>,
        block: &CodeBlock<A>,
        marks: &[Mark],
    ) -> Result<Table<A>, AllocError>
        ensures { IfOk result (λ t. t ≡ of_tables.table_of plan.now marks.now block.now) }
    {
        let after = after_rows(alloc.clone()?, plan, block, marks)?;
        let splits = splits_of(alloc, plan, block, marks)?;
        Ok(Table { after, splits })
    }
}

impl<A: Allocator> Table<A> {
    /// After which ones of 64 holders a holder is, a lane for each.
    fn after_lanes(&self, holder: usize, group: usize) -> u64
        ensures { result ≡ of_tables.after_word self.now.after holder group }
    {
        match self.after.get(group) {
            Some(row) => row.at(holder),
            None => 0,
        }
    }

    /// Whether the first holder is after the second one.
    fn comes_after(&self, g: usize, h: usize) -> bool
        ensures { result ≡ of_tables.comes_after self.now.after g h }
    {
        (self.after_lanes(g, h / 64) >> (h % 64)) & 1 == 1
    }

    /// Whether the switches of one mark put the two holders on different sides.
    fn are_apart(&self, g: usize, h: usize) -> bool
        ensures { result ≡ list_any (of_tables.is_apart g h) self.now.splits }
    {
        for split in &self.splits {
            if split.is_apart(g, h) {
                return true;
            }
        }
        false
    }

    /// Whether the switches of some mark have the holder on one of their sides.
    fn is_sided(&self, holder: usize) -> bool
        ensures { result ≡ list_any (of_tables.is_sided holder) self.now.splits }
    {
        for split in &self.splits {
            if split.is_sided(holder) {
                return true;
            }
        }
        false
    }

    /// Whether the two holders may share a slot.
    fn may_share(&self, g: usize, h: usize) -> bool
        ensures { result ≡ of_tables.may_share self.now g h }
    {
        self.comes_after(g, h) || self.comes_after(h, g) || self.are_apart(g, h)
    }

    /// Whether a holder may share its slot with each earlier holder in it.
    fn admits_one(&self, slots: &[u16], holder: usize) -> bool
        requires { holder < length slots.now }
        ensures { IsTrue result ↔ of_tables.Admits self.now slots.now holder (slice_index_or slots.now holder 0) }
    {
        for earlier in 0..holder {
            if slots[earlier] == slots[holder] && !self.may_share(earlier, holder) {
                return false;
            }
        }
        true
    }

    /// Whether each slot is one of a frame's, and any two holders in one slot may share it.
    pub fn admits(&self, slots: &[u16]) -> bool
        ensures { IsTrue result ↔ of_tables.AdmitsAll self.now slots.now }
    {
        for holder in 0..slots.len() {
            if slots[holder] as usize >= SLOTS || !self.admits_one(slots, holder) {
                return false;
            }
        }
        true
    }

    /// Whether the switches of one mark put a holder and the next one on different sides.
    fn next_is_apart(&self, holder: usize, next: NextHolder) -> bool
        requires { next.is_sided ≡ list_any (of_tables.is_sided next.number) self.now.splits }
        ensures { result ≡ list_any (of_tables.is_apart holder next.number) self.now.splits }
    {
        next.is_sided && self.are_apart(holder, next.number)
    }

    /// Whether a holder may share a slot with the next one. A lane of its group says whether the next one is after it.
    fn next_may_share(&self, lanes: u64, holder: usize, next: NextHolder) -> bool
        requires lanes { lanes ≡ of_tables.after_word self.now.after next.number (holder / 64) }
        requires sided { next.is_sided ≡ list_any (of_tables.is_sided next.number) self.now.splits }
        ensures { result ≡ of_tables.may_share self.now holder next.number }
    {
        (lanes >> (holder % 64)) & 1 == 1
            || self.comes_after(holder, next.number)
            || self.next_is_apart(holder, next)
    }

    /// Notes that the slot of a holder is blocked, if the next one may not share it.
    fn note_holder(
        &self,
        blocked: &mut [bool],
        slot: usize,
        lanes: u64,
        holder: usize,
        next: NextHolder,
    )
        requires slot { slot < length blocked.old }
        requires lanes { lanes ≡ of_tables.after_word self.now.after next.number (holder / 64) }
        requires sided { next.is_sided ≡ list_any (of_tables.is_sided next.number) self.now.splits }
        ensures { blocked.new ≡ (if of_tables.may_share self.now holder next.number then blocked.old else slice_set blocked.old slot true) }
    {
        if !self.next_may_share(lanes, holder, next) {
            blocked[slot] = true;
        }
    }

    /// Notes at which slots the next holder meets one of 64 earlier holders with which it may not share.
    fn note_group(&self, blocked: &mut [bool], slots: &[u16], group: usize, next: NextHolder)
        requires all { length blocked.old ≡ 512 }
        requires below { All (λ s. s < 512) slots.now }
        requires next { next.number ≡ length slots.now }
        requires sided { next.is_sided ≡ list_any (of_tables.is_sided next.number) self.now.splits }
        requires start { group * 64 < length slots.now }
        ensures all { length blocked.new ≡ 512 }
        ensures exact { of_tables.blocked_from self.now slots.now blocked.new (group * 64 + 64) ≡ of_tables.blocked_from self.now slots.now
            blocked.old (group * 64) }
    {
        let lanes = self.after_lanes(next.number, group);
        let start = group * 64;
        if lanes == u64::MAX {
            return;
        }
        for holder in start..slots.len().min(start + 64) {
            self.note_holder(blocked, slots[holder] as usize, lanes, holder, next);
        }
    }

    /// At which slots the next holder meets an earlier one with which it may not share.
    fn blocked(&self, slots: &[u16]) -> [bool; 512]
        requires { All (λ s. s < 512) slots.now }
        ensures { result ≡ of_tables.blocked_by self.now (length slots.now) (replicate 512 false) 0 slots.now }
    {
        let next = NextHolder {
            number: slots.len(),
            is_sided: self.is_sided(slots.len()),
        };
        let mut blocked = [false; SLOTS];
        for group in 0..groups(slots.len()) {
            self.note_group(&mut blocked, slots, group, next);
        }
        blocked
    }

    /// The least slot in which the next holder may share with each earlier one.
    pub fn least_open(&self, slots: &[u16]) -> Option<u16>
        requires { All (λ s. s < 512) slots.now }
        ensures some { IfSome result (of_tables.IsLeastOpen self.now slots.now) }
        ensures none { IfNone result ((s : ℕ) → s < 512 → of_tables.IsClosedAt self.now slots.now (length slots.now) s) }
    {
        let blocked = self.blocked(slots);
        for slot in 0..SLOTS {
            if !blocked[slot] {
                return Some(slot as u16);
            }
        }
        None
    }
}
