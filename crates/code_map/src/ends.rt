//! The regions of the ends of a block, as they were before they were joined: what an end sends to is a join, or the release, and so
//! behind all that has ends.

ghost use Rattle.std.specs.Prelude.{◌≡◌, ◌+◌, ◌≤◌, length, IfOk, OnOk, not, ◌&&◌};
ghost use Rattle.code_map.specs.Ends as Ends;

use code::Instr;
use semantics::graph::Region;
use semantics::program::{Dest, Mark, Op};
use std::alloc::{AllocError, Allocator};

/// Whether all destinations of the instruction at a place are at a limit or behind it.
fn all_behind(dests: &[Dest], place: usize, limit: usize) -> bool
    ensures { result ≡ Ends.all_behind limit place dests.now }
{
    for dest in dests {
        if (dest.ahead as usize) < limit.saturating_sub(place) {
            return false;
        }
    }
    true
}

fn push_if<A: Allocator>(
    ends: &mut Vec<Region, A>,
    test: bool,
    region: Region,
) -> Result<(), AllocError>
    ensures { OnOk result (ends.new.items ≡ Ends.pushed_if ends.old.items test region) }
{
    if test {
        ends.push(region)?;
    }
    Ok(())
}

/// Notes the ends at the instruction at a place.
fn note<A: Allocator>(
    ends: &mut Vec<Region, A>,
    mark: Mark,
    region: Region,
    instr: &Instr<A>,
    place: usize,
    limit: usize,
) -> Result<(), AllocError>
    ensures { OnOk result (ends.new.items ≡ Ends.noted ends.old.items mark region instr.now place limit) }
{
    let first = all_behind(&instr.firsts, place, limit);
    match mark {
        Mark::OfCond { cond } => {
            push_if(ends, first, Region::Arm { cond, side: true })?;
            let second = all_behind(&instr.seconds, place, limit);
            push_if(ends, second, Region::Arm { cond, side: false })
        }
        Mark::OfFlag => Ok(()),
        Mark::Unmarked => {
            let answers = matches!(instr.op, Op::Take { .. });
            push_if(ends, !answers && first, region)
        }
    }
}

fn mark_at(marks: &[Mark], place: usize) -> Mark
    ensures { result ≡ Ends.mark_at marks.now place }
{
    match marks.get(place) {
        Some(mark) => *mark,
        None => Mark::Unmarked,
    }
}

/// The regions of the ends of the first instructions of a block, of which the regions are given.
pub(crate) fn ends_of<A: Allocator>(
    alloc: A,
    instrs: &[Instr<A>],
    marks: &[Mark],
    regions: &[Region],
) -> Result<Vec<Region, A>, AllocError>
    ensures { IfOk result (λ v. v.items ≡ Ends.ends_of instrs.now marks.now regions.now) }
{
    let mut ends = Vec::new(alloc);
    for (place, instr) in instrs.iter().enumerate() {
        if place < regions.len() {
            let mark = mark_at(marks, place);
            note(&mut ends, mark, regions[place], instr, place, regions.len())?;
        }
    }
    Ok(ends)
}
