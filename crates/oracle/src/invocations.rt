//! The invocations of blocks, numbered: each is named by the place where it was made, and found by it in a map.

ghost use Rattle.std.specs.Prelude.{◌≡◌, ◌++◌, ◌∷◌, ◌-◌, [], None, Some, length, slice_get, option_copied, unwrap_or, IfOk, IfSome, OnOk, OnErr};
ghost use Rattle.std.specs.HashMap.{get, Updates, IsUnchanged};
ghost use Rattle.oracle.specs.Calling.{iterations_in};
ghost use Rattle.oracle.specs.Running as Running;

use crate::report::CallCounts;
use std::alloc::{AllocError, Allocator};
use std::collections::HashMap;
use std::hash::{BuildHasherDefault, FoldHasher};
use std::marker::Model;

/// Where an invocation was made: nowhere, by a call node of another one, or as a turn of a loop node of another one.
#[derive(Clone, Copy, Debug, PartialEq, Eq, Hash)]
pub enum Made {
    Main,
    Called { by: usize, node: usize },
    Turned { by: usize, node: usize, turn: u64 },
}

/// An invocation of the block at that place.
#[derive(Clone, Copy, Debug)]
pub struct Invocation {
    pub made: Made,
    pub block: usize,
}

/// The number of the invocation that was made at a place.
#[derive(Clone, Copy)]
pub struct Numbered {
    pub made: Made,
    pub number: usize,
}

/// The invocations in the order in which they were made, and the number of each by the place where it was made. Values enter an
/// invocation one after the other, so the one that was asked for last is looked at first.
#[derive(Drop)]
pub struct Invocations<A: Allocator> {
    table: Vec<Invocation, A>,
    numbers: HashMap<Made, usize, BuildHasherDefault<FoldHasher>, A>,
    last: Option<Numbered>,
}

impl<A: Allocator> Model for Invocations<A> {
    ghost use Rattle.std.specs.Prelude.{List};
    ghost use Rattle.oracle.specs.declared.invocations.Invocation.{Invocation};
    ghost use Rattle.oracle.specs.Numbering.{IsNumbering, IsNumbered};

    ghost Value = { List Invocation };

    ghost view = { λ s. s.table.items };

    ghost invariant = { λ s. IsNumbering ⟦<Made as PartialEq>⟧.eq s.numbers s.table.items × IsNumbered s.table.items s.last };
}

/// Whether both are one place.
#[inline(always)]
fn is_same(left: Made, right: Made) -> bool
    ensures { result ≡ Running.same_made left right }
{
    match (left, right) {
        (Made::Main, Made::Main) => true,
        (Made::Called { by: c, node: n }, Made::Called { by: d, node: m }) => c == d && n == m,
        (
            Made::Turned {
                by: c,
                node: n,
                turn: i,
            },
            Made::Turned {
                by: d,
                node: m,
                turn: j,
            },
        ) => c == d && n == m && i == j,
        _ => false,
    }
}

/// How many of these are iterations of loops.
fn count_iterations(invocations: &[Invocation]) -> usize
    ensures { result ≡ iterations_in invocations.now }
{
    invocations
        .iter()
        .filter(|invocation| matches!(invocation.made, Made::Turned { .. }))
        .count()
}

/// The number that the map has for a place. The given one is put there where it has none.
fn kept_at<A: Allocator + Clone>(
    numbers: &mut HashMap<Made, usize, BuildHasherDefault<FoldHasher>, A>,
    made: &Made,
    number: usize,
) -> Result<usize, AllocError>
    ensures number { IfOk result (λ n. n ≡ unwrap_or (get ⟦<Made as PartialEq>⟧.eq numbers.old made.now) number) }
    ensures kept { IfOk result (λ n. Updates ⟦<Made as PartialEq>⟧.eq numbers.old numbers.new made.now (Some n)) }
    ensures refused { OnErr result (IsUnchanged numbers.old numbers.new) }
{
    Ok(*numbers.entry(*made)?.or_insert(number))
}

impl<A: Allocator + Clone> Invocations<A> {
    /// The invocation of main alone.
    pub fn of_main(alloc: A, block: usize) -> Result<Self, AllocError>
        ensures { IfOk result (λ s. s ≡ record { made = Made.Main; block = block } ∷ []) }
    {
        let mut invocations = Invocations {
            table: Vec::new(alloc.clone()?),
            numbers: HashMap::new(alloc),
            last: None,
        };
        invocations.number_at(&Made::Main, block)?;
        Ok(invocations)
    }

    /// The invocation with that number.
    #[inline(always)]
    pub fn get(&self, number: usize) -> Option<&Invocation>
        ensures { option_copied result ≡ slice_get self.now number }
    {
        self.table.get(number)
    }

    /// The number of the invocation that was made there, if it was asked for last.
    #[inline(always)]
    fn recall(&self, made: &Made) -> Option<usize>
        ensures { IfSome result (λ n. Running.made_from made.now 0 self.now ≡ Some n) }
    {
        match self.last {
            Some(last) if is_same(last.made, *made) => Some(last.number),
            _ => None,
        }
    }

    /// How many there are beside main, which is the first, and how many of them are iterations.
    pub fn counts(&self) -> CallCounts
        ensures invocations { result.invocations ≡ length self.now - 1 }
        ensures iterations { result.iterations ≡ iterations_in self.now }
    {
        CallCounts {
            invocations: self.len().saturating_sub(1),
            iterations: count_iterations(&self.table),
        }
    }

    /// How many there are.
    fn len(&self) -> usize
        ensures { result ≡ length self.now }
    {
        self.table.len()
    }

    /// The number of the invocation that was made there, by the map. It is added where it is new.
    fn number_at(&mut self, made: &Made, block: usize) -> Result<usize, AllocError>
        ensures number { IfOk result (λ n. n ≡ Running.number_in self.old made.now) }
        ensures added { OnOk result (self.new ≡ Running.with_made self.old made.now block) }
        ensures kept { OnErr result (self.new ≡ self.old) }
    {
        let next = self.len();
        self.table.push(Invocation { made: *made, block })?;
        match kept_at(&mut self.numbers, made, next) {
            Ok(number) => {
                self.last = Some(Numbered {
                    made: *made,
                    number,
                });
                if number != next {
                    self.table.pop();
                    return Ok(number);
                }
                Ok(number)
            }
            Err(_) => {
                self.table.pop();
                Err(AllocError)
            }
        }
    }

    /// The number of the invocation that was made there. It is added where it is new.
    #[inline(always)]
    pub fn number_of(&mut self, made: &Made, block: usize) -> Result<usize, AllocError>
        ensures number { IfOk result (λ n. n ≡ Running.number_in self.old made.now) }
        ensures added { OnOk result (self.new ≡ Running.with_made self.old made.now block) }
        ensures kept { OnErr result (self.new ≡ self.old) }
    {
        match self.recall(made) {
            Some(number) => Ok(number),
            None => self.number_at(made, block),
        }
    }
}
