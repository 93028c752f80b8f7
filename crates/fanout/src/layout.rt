//! Where the instructions of a block are when their copies are after them.

ghost use Rattle.std.specs.Prelude.{◌≡◌, ◌⊎◌, ◌+◌, ◌<◌, ◌≤◌, IfOk, length, drop};
ghost use Rattle.fanout.specs.Rows as of_rows;
ghost use Rattle.fanout.specs.Places as of_places;

use crate::rows::{run, tied_in};
use crate::sides::copies;
use code::{Instr, Plan};
use std::alloc::{AllocError, Allocator};
use std::marker::Model;

/// The places of a block.
#[derive(Drop)]
pub(crate) struct Layout<A: Allocator> {
    /// For each instruction, whether the next one has to follow it directly.
    tied: Vec<bool, A>,
    /// Where each instruction is.
    places: Vec<usize, A>,
    /// Where the first copy of each instruction is, or would be.
    bases: Vec<usize, A>,
}

impl<A: Allocator> Model for Layout<A> {
    ghost use Rattle.fanout.specs.Places.{Layout};

    ghost Value = { Layout };

    ghost view = { λ l. record { tied = l.tied.items; places = l.places.items; bases = l.bases.items } };
}

/// A sum of places. A block with more instructions than can be counted does not fit into memory.
pub(crate) fn plus(place: usize, count: usize) -> Result<usize, AllocError>
    ensures { IfOk result (λ sum. sum ≡ place + count) }
{
    match place.checked_add(count) {
        Some(sum) => Ok(sum),
        None => Err(AllocError),
    }
}

/// The number of copies of an instruction whose destinations are in two sides.
pub(crate) fn size<A: Allocator>(instr: &Instr<A>) -> Result<usize, AllocError>
    ensures { IfOk result (λ n. n ≡ of_places.size instr.now) }
{
    plus(copies(&instr.firsts), copies(&instr.seconds))
}

/// Where the instructions are, given which of them are tied.
fn places_of<A: Allocator>(
    alloc: A,
    tied: &[bool],
    instrs: &[Instr<A>],
) -> Result<Vec<usize, A>, AllocError>
    ensures { IfOk result (λ v. v.items ≡ of_places.places_from tied.now 0 0 0 instrs.now) }
{
    let mut places = Vec::with_capacity(alloc, instrs.len())?;
    let mut before = 0;
    let mut copied = 0;
    for (place, instr) in instrs.iter().enumerate() {
        places.push(plus(place, before)?)?;
        copied = plus(copied, size(instr)?)?;
        before = if is_tied(tied, place) { before } else { copied };
    }
    Ok(places)
}

/// Where the row of an instruction ends: it goes on to `end`, or begins here, where the last one ended.
fn row_end(tied: &[bool], place: usize, end: usize) -> usize
    requires there { place < length tied.now }
    requires row { (place ≡ end) ⊎ (end ≡ place + of_rows.run (drop place tied.now)) }
    requires end_within { end ≤ length tied.now }
    ensures exact { result ≡ place + of_rows.run (drop place tied.now) }
    ensures within { result ≤ length tied.now }
{
    if place == end {
        place + run(&tied[place..])
    } else {
        end
    }
}

/// Where the first copies of the instructions are, given which instructions are tied.
fn bases_of<A: Allocator>(
    alloc: A,
    tied: &[bool],
    instrs: &[Instr<A>],
) -> Result<Vec<usize, A>, AllocError>
    requires { length tied.now ≡ length instrs.now }
    ensures { IfOk result (λ v. v.items ≡ of_places.bases_from tied.now 0 0 instrs.now) }
{
    let mut bases = Vec::with_capacity(alloc, instrs.len())?;
    let mut end = 0;
    let mut copied = 0;
    for (place, instr) in instrs.iter().enumerate() {
        end = row_end(tied, place, end);
        bases.push(plus(end, copied)?)?;
        copied = plus(copied, size(instr)?)?;
    }
    Ok(bases)
}

fn is_tied(tied: &[bool], place: usize) -> bool
    ensures { result ≡ of_rows.is_tied tied.now place }
{
    match tied.get(place) {
        Some(flag) => *flag,
        None => false,
    }
}

impl<A: Allocator + Clone> Layout<A> {
    /// The places of a block with `inputs` inputs and these instructions, whose destinations are in two sides.
    pub fn of(
        alloc: A,
        plan: &Plan<A>,
        inputs: u32,
        instrs: &[Instr<A>],
    ) -> Result<Layout<A>, AllocError>
        ensures { IfOk result (λ l. l ≡ of_places.layout_in plan.now inputs instrs.now) }
    {
        let tied = tied_in(alloc.clone()?, plan, inputs, instrs)?;
        let places = places_of(alloc.clone()?, &tied, instrs)?;
        let bases = bases_of(alloc, &tied, instrs)?;
        Ok(Layout {
            tied,
            places,
            bases,
        })
    }
}

impl<A: Allocator> Layout<A> {
    /// Whether the next instruction has to follow that one directly.
    pub fn is_tied(&self, number: usize) -> bool
        ensures { result ≡ of_rows.is_tied self.now.tied number }
    {
        is_tied(&self.tied, number)
    }

    /// Where that instruction is.
    pub fn place(&self, number: usize) -> usize
        ensures { result ≡ of_places.place_of self.now number }
    {
        match self.places.get(number) {
            Some(place) => *place,
            None => number,
        }
    }

    /// Where the first copy of that instruction is.
    pub fn base(&self, number: usize) -> usize
        ensures { result ≡ of_places.base_of self.now number }
    {
        match self.bases.get(number) {
            Some(base) => *base,
            None => number,
        }
    }
}
