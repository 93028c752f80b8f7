//! Where the instructions of a block are once literals are left out, and the numbers of the holders that are left.

ghost use Rattle.std.specs.Prelude.{◌≡◌, ◌+◌, ◌≤◌, IfOk, length, slice_set, true};
ghost use Rattle.folding.specs.Places as of_places;

use crate::folds::{Fold, fold_at, folds_of, gone_in};
use code::{CodeBlock, Instr, Plan};
use std::alloc::{AllocError, Allocator};
use std::marker::Model;

/// The places and the holders of a block.
#[derive(Drop)]
pub(crate) struct Layout<A: Allocator> {
    /// What each instruction takes from the code.
    folds: Vec<Fold, A>,
    /// Which instructions are left out.
    gone: Vec<bool, A>,
    /// Which holders have no instruction any more.
    freed: Vec<bool, A>,
    /// The new place of each instruction.
    places: Vec<usize, A>,
    /// The new number of each holder.
    holders: Vec<usize, A>,
}

impl<A: Allocator> Model for Layout<A> {
    ghost use Rattle.folding.specs.Places.{Layout};

    ghost Value = { Layout };

    ghost view = { λ l. record { folds = l.folds.items; gone = l.gone.items; freed = l.freed.items; places = l.places.items; holders = l.holders.items } };
}

/// The new numbers of items of which these are left out.
fn numbers_of<A: Allocator>(alloc: A, gone: &[bool]) -> Result<Vec<usize, A>, AllocError>
    ensures { IfOk result (λ v. v.items ≡ of_places.numbers_from 0 gone.now) }
{
    let mut numbers = Vec::with_capacity(alloc, gone.len())?;
    let mut next = 0;
    for flag in gone {
        numbers.push(next)?;
        next = if *flag { next } else { next + 1 };
    }
    Ok(numbers)
}

/// How many are not left out.
fn remaining_of(gone: &[bool]) -> usize
    ensures exact { result ≡ of_places.remaining_of gone.now }
    ensures within { result ≤ length gone.now }
{
    let mut left = 0;
    for flag in gone {
        left = if *flag { left } else { left + 1 };
    }
    left
}

fn set_flag(flags: &mut [bool], number: usize)
    ensures { flags.new ≡ slice_set flags.old number true }
{
    if number < flags.len() {
        flags[number] = true;
    }
}

/// Which holders have no instruction any more, as their instructions are folded.
fn freed_in<A: Allocator>(
    alloc: A,
    folds: &[Fold],
    block: &CodeBlock<A>,
) -> Result<Vec<bool, A>, AllocError>
    ensures { IfOk result (λ v. v.items ≡ of_places.freed_in folds.now block.now) }
{
    let mut freed = vec![in alloc; false; block.slots as usize]?;
    for (number, instr) in block.instrs.iter().enumerate() {
        if fold_at(folds, number).is_folded() {
            set_flag(&mut freed, instr.slot as usize);
        }
    }
    Ok(freed)
}

impl<A: Allocator + Clone> Layout<A> {
    pub fn of(alloc: A, plan: &Plan<A>, block: &CodeBlock<A>) -> Result<Layout<A>, AllocError>
        ensures { IfOk result (λ l. l ≡ of_places.layout_of plan.now block.now) }
    {
        let folds = folds_of(alloc.clone()?, plan, block)?;
        let gone = gone_in(alloc.clone()?, &folds, &block.instrs)?;
        let freed = freed_in(alloc.clone()?, &folds, block)?;
        let places = numbers_of(alloc.clone()?, &gone)?;
        let holders = numbers_of(alloc, &freed)?;
        Ok(Layout {
            folds,
            gone,
            freed,
            places,
            holders,
        })
    }
}

impl<A: Allocator> Layout<A> {
    /// The new place of that instruction; a place after the block stays.
    pub fn place(&self, number: usize) -> usize
        ensures { result ≡ of_places.new_place self.now number }
    {
        match self.places.get(number) {
            Some(place) => *place,
            None => number,
        }
    }

    /// The new number of that holder.
    pub fn holder(&self, holder: usize) -> usize
        ensures { result ≡ of_places.new_holder self.now holder }
    {
        match self.holders.get(holder) {
            Some(number) => *number,
            None => holder,
        }
    }

    /// How many holders are left.
    pub fn slots(&self) -> usize
        ensures { result ≡ of_places.remaining_of self.now.freed }
    {
        remaining_of(&self.freed)
    }

    /// Whether that instruction is left out.
    pub fn is_gone(&self, number: usize) -> bool
        ensures { result ≡ of_places.gone_at self.now number }
    {
        match self.gone.get(number) {
            Some(flag) => *flag,
            None => false,
        }
    }

    /// What that instruction takes from the code.
    pub fn fold(&self, number: usize) -> Fold
        ensures { result ≡ of_places.folds_at self.now number }
    {
        fold_at(&self.folds, number)
    }
}
