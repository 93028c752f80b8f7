//! Which arcs are chosen, for 64 choices at once. A word has one lane, that is one bit, for each choice.

ghost use Rattle.std.specs.Prelude.{◌≡◌, true, false, if◌then◌else◌};
ghost use Rattle.semantics.specs.Rule.{slot_of};
ghost use Rattle.semantics.specs.Sharing.{ends_with};
ghost use Rattle.slot_alloc.specs.Passes.{same_mark, mark_of as of_marks, is_marked as of_marked};
ghost use Rattle.slot_alloc.specs.Words as of_words;

use code::Instr;
use semantics::program::{Mark, Op};
use std::alloc::Allocator;

/// Which arcs are chosen in each of 64 lanes.
#[derive(Clone, Copy)]
pub(crate) enum Choice {
    /// The end arcs of a holder: in the first lane of that one, in each further lane of the next one.
    Ends { first: usize },
    /// The arcs on one side of the switches of a mark: in each lane of the next mark of a list.
    Sides { side: bool },
}

impl Choice {
    /// The lanes in which the first destinations of an instruction with that mark are chosen.
    pub fn firsts<A: Allocator>(self, known: &[Mark], instr: &Instr<A>, mark: Mark) -> u64
        ensures { result ≡ of_words.lanes self known.now instr.now mark false }
    {
        match self {
            Choice::Ends { first } => end_lane(first, instr),
            Choice::Sides { side: true } => side_lanes(known, mark),
            Choice::Sides { side: false } => 0,
        }
    }

    /// The lanes in which the second destinations of an instruction with that mark are chosen.
    pub fn seconds<A: Allocator>(self, known: &[Mark], instr: &Instr<A>, mark: Mark) -> u64
        ensures { result ≡ of_words.lanes self known.now instr.now mark true }
    {
        match self {
            Choice::Ends { first } => end_lane(first, instr),
            Choice::Sides { side: true } => 0,
            Choice::Sides { side: false } => side_lanes(known, mark),
        }
    }
}

/// The lane in which the arcs of an instruction are end arcs of its holder.
fn end_lane<A: Allocator>(first: usize, instr: &Instr<A>) -> u64
    ensures { result ≡ (if ends_with instr.now.op then of_words.holder_lane first (slot_of instr.now instr.now.op) else 0) }
{
    if ends(instr.op) {
        holder_lane(first, holder_of(instr))
    } else {
        0
    }
}

/// The lanes in which the arcs on one side of an instruction with that mark are chosen, where that side is.
fn side_lanes(known: &[Mark], mark: Mark) -> u64
    ensures { result ≡ (if of_marked mark then of_words.mark_lanes known.now mark 64 else 0) }
{
    if is_marked(mark) {
        mark_lanes(known, mark)
    } else {
        0
    }
}

/// The lane of a holder, if it is one of the 64 from the first on.
fn holder_lane(first: usize, holder: Option<u32>) -> u64
    ensures { result ≡ of_words.holder_lane first holder }
{
    match holder {
        None => 0,
        Some(holder) => number_lane(first, holder as usize),
    }
}

/// The lane of a number, if it is one of the 64 from the first on.
fn number_lane(first: usize, number: usize) -> u64
    ensures { result ≡ of_words.number_lane first number }
{
    if number < first {
        0
    } else if number - first < 64 {
        1 << (number - first)
    } else {
        0
    }
}

/// The lanes of a mark among the first 64 of a list.
fn mark_lanes(known: &[Mark], mark: Mark) -> u64
    ensures { result ≡ of_words.mark_lanes known.now mark 64 }
{
    let mut lanes = 0;
    for lane in 0..64 {
        if is_same(mark_of(known, lane), mark) {
            lanes |= 1 << lane;
        }
    }
    lanes
}

/// Whether an instruction has a mark.
pub(crate) fn is_marked(mark: Mark) -> bool
    ensures { result ≡ of_marked mark }
{
    !matches!(mark, Mark::Unmarked)
}

/// The mark at a place of a list.
pub(crate) fn mark_of(marks: &[Mark], place: usize) -> Mark
    ensures { result ≡ of_marks marks.now place }
{
    match marks.get(place) {
        Some(mark) => *mark,
        None => Mark::Unmarked,
    }
}

/// Whether two instructions are marked by one predicate.
pub(crate) fn is_same(wanted: Mark, mark: Mark) -> bool
    ensures { result ≡ same_mark wanted mark }
{
    match (wanted, mark) {
        (Mark::OfCond { cond }, Mark::OfCond { cond: other }) => cond == other,
        (Mark::OfFlag, Mark::OfFlag) => true,
        _ => false,
    }
}

/// Whether a holder of such an instruction ends with its arcs.
fn ends(op: Op) -> bool
    ensures { result ≡ ends_with op }
{
    !matches!(op, Op::Open { .. } | Op::Take { .. })
}

/// The holder of an instruction, if it uses a slot.
pub(crate) fn holder_of<A: Allocator>(instr: &Instr<A>) -> Option<u32>
    ensures { result ≡ slot_of instr.now instr.now.op }
{
    if instr.op.uses_slot() {
        Some(instr.slot)
    } else {
        None
    }
}
