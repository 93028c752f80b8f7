//! What is open in a function, and what a word does with it.

ghost use Rattle.std.specs.Prelude.{◌≡◌, ◌==◌, ◌++◌, ◌&&◌, [], ◌+◌, nat_le, pos, int_le, int_lt, drop, max, replicate};
ghost use Rattle.std.specs.Prelude.{Ok, None, Some, IfOk, OnOk, length, option_map, if◌then◌else◌};
ghost use Rattle.source.specs.declared.fault.FaultKind.TheVariants as core;
ghost use Rattle.source_check.specs.Steps.{since, back};
ghost use Rattle.surface.specs.declared.fault.FaultKind.TheVariants as fault;
ghost use Rattle.surface.specs.Constants as constants;
ghost use Rattle.surface.specs.Rules as rules;
ghost use Rattle.surface_check.specs.declared.frame.Frame.TheVariants as frame;
ghost use Rattle.surface_check.specs.declared.frame.Kind.TheVariants as kind;
ghost use Rattle.surface_check.specs.Evaluates as evaluates;
ghost use Rattle.surface_check.specs.Heads as heads;
ghost use Rattle.surface_check.specs.Machine as machine;
ghost use Rattle.surface_check.specs.Machine.{items_in};
ghost use Rattle.surface_check.specs.Pins.{array_in, signature_in};
ghost use Rattle.surface_check.specs.Renamed.{numbers_in};
ghost use Rattle.surface_check.specs.Steps as steps;
ghost use Rattle.surface_check.specs.Table.{DoesAs, item_in};

use crate::array_parameters::ArrayParameters;
use crate::bindings::Bindings;
use crate::callee::own_ranks;
use crate::entry::{Entry, Lengths};
use crate::evaluation::{OUT_OF_MEMORY, Part, constant_named};
use crate::frame::{Frame, Kind, Last, Turn};
use crate::heads::must_be;
use crate::table::Table;
use operators::Unary;
use source::fault::FaultKind as CoreKind;
use source::word::Word as CoreWord;
use std::alloc::{AllocError, Allocator};
use std::marker::Model;
use surface::fault::{Fault, FaultKind};
use surface::word::Word;

/// What is open in a function.
#[derive(Drop)]
pub(crate) struct Opened<A: Allocator> {
    scope: Bindings<A>,
    pending: Bindings<A>,
    used: Bindings<A>,
    /// Names on their way from a turn to the one around it.
    carried: Bindings<A>,
    arrays: ArrayParameters<A>,
    /// The ranks of arguments.
    found: Vec<u64, A>,
    /// The numbers at which loops stop.
    ends: Vec<Kind<usize>, A>,
    turn: Turn,
    frames: Vec<Frame, A>,
    last: Last<usize>,
}

impl<A: Allocator> Model for Opened<A> {
    ghost use Rattle.std.specs.Prelude.{ℕ, reverse};
    ghost use Rattle.surface_check.specs.Steps.{Open};

    ghost Value = { Open ℕ };

    ghost view = { λ o. record {
      scope = o.scope;
      pending = o.pending;
      used = o.used;
      arrays = o.arrays;
      found = o.found.items;
      ends = reverse o.ends.items;
      turn = o.turn;
      frames = reverse o.frames.items;
      last = o.last;
    } };
}

/// A name that is all of an argument, and its place.
#[derive(Clone, Copy)]
pub struct Argument {
    pub at: usize,
    pub name: usize,
}

fn no_such_name(at: usize) -> Fault
    ensures { result ≡ record { kind = fault.Core core.NoSuchName; at = at } }
{
    Fault {
        kind: FaultKind::Core {
            kind: CoreKind::NoSuchName,
        },
        at,
    }
}

fn is_constant<A: Allocator>(table: &Table<A>, name: usize) -> bool
    ensures { result ≡ steps.is_constant_entry (item_in table.now.entries name) }
{
    match table.get(name) {
        Some(Entry::Constant { .. }) => true,
        Some(Entry::Array { .. } | Entry::Function { .. }) | None => false,
    }
}

fn dimensions(lengths: Lengths) -> u64
    ensures { result ≡ length (heads.lengths_in lengths) }
{
    match lengths {
        Lengths::One { .. } => 1,
        Lengths::Two { .. } => 2,
        Lengths::Three { .. } => 3,
    }
}

/// How many dimensions the array of an item has.
fn own_rank<A: Allocator>(table: &Table<A>, name: usize) -> Option<u64>
    ensures { result ≡ rules.rank_in None (array_in (item_in table.now.entries name)) }
{
    match table.get(name) {
        Some(Entry::Array { lengths }) => Some(dimensions(lengths)),
        Some(Entry::Constant { .. } | Entry::Function { .. }) | None => None,
    }
}

/// The name stands for an item or an array.
fn is_hidden<A: Allocator>(table: &Table<A>, arrays: &ArrayParameters<A>, name: usize) -> bool
    ensures { result ≡ machine.is_hidden table.now arrays.now name }
{
    table.get(name).is_some() || arrays.get(name).is_some()
}

/// A name is used: it is one of the outside names of the innermost turn, if it stands for a value and the turn does not bind
/// it.
fn note<A: Allocator>(
    table: &Table<A>,
    arrays: &ArrayParameters<A>,
    scope: &Bindings<A>,
    used: &mut Bindings<A>,
    turn: Turn,
    name: usize,
) -> Result<(), AllocError>
    ensures { OnOk result (used.new
        ≡ steps.noted (numbers_in []) (machine.is_hidden table.now arrays.now) (since turn.base scope.now) turn.start used.old name) }
{
    if scope.contains_since(name, turn.base)
        || is_hidden(table, arrays, name)
        || used.contains_since(name, turn.start)
    {
        return Ok(());
    }
    used.push(name)
}

/// All of the names are used.
fn note_all<A: Allocator>(
    table: &Table<A>,
    arrays: &ArrayParameters<A>,
    scope: &Bindings<A>,
    used: &mut Bindings<A>,
    turn: Turn,
    names: &mut Bindings<A>,
) -> Result<(), AllocError>
    ensures { OnOk result (used.new
        ≡ steps.all_noted (numbers_in []) (machine.is_hidden table.now arrays.now) (since turn.base scope.now) turn.start used.old names.old) }
{
    while names.len() > 0 {
        if let Some(name) = names.pop() {
            note(table, arrays, scope, used, turn, name)?;
        }
    }
    Ok(())
}

/// A loop's names and the outside names of its turns are at most 15.
fn is_narrow(names: u64, outside: usize) -> bool
    ensures { result ≡ nat_le (names + outside) 15 }
{
    names <= 15 && outside as u64 <= 15 - names
}

/// The same where the number at which a `for` stops may be carried, too.
fn is_narrow_with(names: u64, outside: usize, carried: bool) -> bool
    ensures { result ≡ nat_le (names + outside + rules.one_if carried) 15 }
{
    if carried {
        names <= 14 && outside as u64 <= 14 - names
    } else {
        names <= 15 && outside as u64 <= 15 - names
    }
}

/// So many values are given where so many names are carried.
fn as_many(given: u64, names: u64) -> bool
    ensures { result ≡ steps.as_many given names }
{
    names == 0 || given == names
}

/// How many values a `for` has that carries so many names.
fn values_of(names: u64) -> u64
    ensures { result ≡ steps.values_of names }
{
    if names == 0 { 1 } else { names }
}

fn bracketed(kind: Kind<usize>) -> Kind<usize>
    ensures { result ≡ steps.bracketed kind }
{
    match kind {
        Kind::Written | Kind::Constant => Kind::Constant,
        Kind::Variable { .. } | Kind::Other => Kind::Other,
    }
}

fn prefixed(op: Unary, kind: Kind<usize>) -> Kind<usize>
    ensures { result ≡ steps.prefixed op kind }
{
    match (op, kind) {
        (Unary::Neg, Kind::Written) => Kind::Constant,
        _ => Kind::Other,
    }
}

fn kind_of(constant: bool, name: usize) -> Kind<usize>
    ensures { result ≡ (if constant then kind.Constant else kind.Variable name) }
{
    if constant {
        Kind::Constant
    } else {
        Kind::Variable { name }
    }
}

fn is_part(word: &Word<usize>) -> bool
    ensures { result ≡ steps.is_part word.now }
{
    match *word {
        Word::Core { word } => matches!(word, CoreWord::Part),
        _ => false,
    }
}

/// The words begin with the end of a part.
fn part_next(words: &[Word<usize>]) -> bool
    ensures { result ≡ steps.part_next words.now }
{
    match words.first() {
        Some(word) => is_part(word),
        None => false,
    }
}

/// The name that is all of the argument with which the words begin.
fn name_part(words: &[Word<usize>]) -> Option<Argument>
    ensures { option_map machine.argument_in result ≡ steps.name_part words.now }
{
    let (word, rest) = words.split_first()?;
    match *word {
        Word::Core {
            word: CoreWord::Name { at, name },
        } if part_next(rest) => Some(Argument { at, name }),
        _ => None,
    }
}

/// The name that is all of the first argument, where the words begin with the list of arguments.
pub(crate) fn first_name(words: &[Word<usize>]) -> Option<Argument>
    ensures { option_map machine.argument_in result ≡ steps.name_part (drop 1 words.now) }
{
    let (_, arguments) = words.split_first()?;
    name_part(arguments)
}

fn same_ranks(found: &[u64], ranks: &[u64]) -> bool
    ensures { result ≡ rules.same_ranks found.now ranks.now }
{
    found == ranks
}

/// All after the first `start`.
fn after(found: &[u64], start: usize) -> &[u64]
    ensures { result.now ≡ drop start found.now }
{
    found.get(start..).unwrap_or(&[])
}

fn push_zeros<A: Allocator>(found: &mut Vec<u64, A>, count: u64) -> Result<(), AllocError>
    ensures { OnOk result (found.new.items ≡ found.old.items ++ replicate count 0) }
{
    for _ in 0..count {
        found.push(0)?;
    }
    Ok(())
}

/// The number is that of one of so many dimensions.
fn is_dimension(number: i64, rank: u64) -> bool
    ensures { result ≡ (int_le (pos 0) number && int_lt number (pos rank)) }
{
    0 <= number && (number as u64) < rank
}

/// The number where it is known, else 0.
fn number_or_zero(number: Result<i64, Fault>) -> u64
    ensures { result ≡ constants.number_or_zero number }
{
    match number {
        Ok(number) if 0 <= number => number as u64,
        Ok(_) | Err(_) => 0,
    }
}

impl<A: Allocator> Opened<A> {
    pub(crate) fn new(alloc: &A) -> Result<Opened<A>, AllocError>
    where
        A: Clone,
        ensures { IfOk result (λ o. o ≡ steps.begun) }
    {
        Ok(Opened {
            scope: Bindings::new(alloc)?,
            pending: Bindings::new(alloc)?,
            used: Bindings::new(alloc)?,
            carried: Bindings::new(alloc)?,
            arrays: ArrayParameters::new(alloc.clone()?),
            found: Vec::new(alloc.clone()?),
            ends: Vec::new(alloc.clone()?),
            turn: Turn { base: 0, start: 0 },
            frames: Vec::new(alloc.clone()?),
            last: Last {
                count: 0,
                at: 0,
                kind: Kind::Other,
            },
        })
    }

    /// How many ranks of arguments are found.
    pub(crate) fn found(&self) -> usize
        ensures { result ≡ length self.now.found }
    {
        self.found.len()
    }

    /// The last part has so many values, and is there.
    fn ended(&mut self, count: u64, at: usize, kind: Kind<usize>)
        ensures { self.new ≡ steps.ended self.old count at kind }
    {
        self.last = Last { count, at, kind };
    }

    /// The values of the last part are taken.
    fn taken(&mut self)
        ensures { self.new ≡ steps.taken self.old }
    {
        self.ended(0, 0, Kind::Other);
    }

    /// The last part must have one value.
    fn single(&self) -> Result<(), Fault>
        ensures { result ≡ steps.single self.now.last }
    {
        must_be(self.last.count == 1, CoreKind::Arity, self.last.at)
    }

    pub(crate) fn pushed(&mut self, frame: Frame) -> Result<(), Fault>
        ensures { DoesAs result self.new (Ok (steps.pushed self.old frame)) }
    {
        let Ok(()) = self.frames.push(frame) else {
            return Err(OUT_OF_MEMORY);
        };
        Ok(())
    }

    fn popped(&mut self) -> Option<Frame>
        ensures frame { result ≡ steps.top self.old.frames }
        ensures rest { self.new ≡ steps.popped self.old }
    {
        self.frames.pop()
    }

    pub(crate) fn valued(&mut self, count: u64, at: usize, kind: Kind<usize>) -> Result<(), Fault>
        ensures { DoesAs result (steps.Plain self.new) (steps.plain (steps.ended self.old count at kind)) }
    {
        self.ended(count, at, kind);
        Ok(())
    }

    pub(crate) fn one_taken(&mut self) -> Result<(), Fault>
        ensures { DoesAs result (steps.Plain self.new) (steps.one_taken self.old) }
    {
        self.single()?;
        self.taken();
        Ok(())
    }

    pub(crate) fn operated(&mut self, at: usize, kind: Kind<usize>) -> Result<(), Fault>
        ensures { DoesAs result (steps.Plain self.new) (steps.operated self.old at kind) }
    {
        self.single()?;
        self.ended(1, at, kind);
        Ok(())
    }

    pub(crate) fn prefixed(&mut self, at: usize, op: Unary) -> Result<(), Fault>
        ensures { DoesAs result (steps.Plain self.new) (steps.operated self.old at (steps.prefixed op self.old.last.kind)) }
    {
        let kind = prefixed(op, self.last.kind);
        self.operated(at, kind)
    }

    pub(crate) fn in_brackets(&mut self) -> Result<(), Fault>
        ensures { DoesAs result (steps.Plain self.new) (steps.plain (steps.in_brackets self.old)) }
    {
        self.last.kind = bracketed(self.last.kind);
        Ok(())
    }

    pub(crate) fn chained(&mut self) -> Result<(), Fault>
        ensures { DoesAs result (steps.Plain self.new) (steps.plain (steps.ended self.old self.old.last.count 0 kind.Other)) }
    {
        let count = self.last.count;
        self.ended(count, 0, Kind::Other);
        Ok(())
    }

    pub(crate) fn done(&mut self) -> Result<(), Fault>
        ensures { DoesAs result (steps.Plain self.new) (steps.plain (steps.popped self.old)) }
    {
        self.popped();
        Ok(())
    }

    pub(crate) fn constant_results(
        &mut self,
        table: &Table<A>,
        at: usize,
        name: usize,
    ) -> Result<(), Fault>
        ensures { DoesAs result (steps.Plain self.new) (steps.plain
            (steps.ended self.old (constants.number_or_zero (evaluates.constant_of (item_in table.now.entries name) at)) at kind.Other)) }
    {
        let count = number_or_zero(constant_named(table, at, name));
        self.ended(count, at, Kind::Other);
        Ok(())
    }

    fn named(&mut self, table: &Table<A>, at: usize, name: usize) -> Result<(), Fault>
        ensures { DoesAs result (steps.Plain self.new)
            (steps.named (numbers_in []) (items_in table.now) self.old at name (steps.is_constant_entry (item_in table.now.entries name))) }
    {
        let constant = is_constant(table, name);
        must_be(
            constant || self.scope.contains(name),
            CoreKind::NoSuchName,
            at,
        )?;
        let Ok(()) = note(
            table,
            &self.arrays,
            &self.scope,
            &mut self.used,
            self.turn,
            name,
        ) else {
            return Err(OUT_OF_MEMORY);
        };
        self.ended(1, at, kind_of(constant, name));
        Ok(())
    }

    /// The dimensions of an array, or of a parameter that stands for one.
    pub(crate) fn rank(&self, table: &Table<A>, name: usize) -> Option<u64>
        ensures { result ≡ steps.rank_at (numbers_in []) (items_in table.now) self.now name }
    {
        match self.arrays.get(name) {
            Some(rank) => Some(rank),
            None => own_rank(table, name),
        }
    }

    fn argument(&mut self, table: &Table<A>, at: usize, name: usize) -> Result<(), Fault>
        ensures { DoesAs result (steps.Plain self.new) (steps.argument (numbers_in []) (items_in table.now) self.old at name
            (steps.rank_at (numbers_in []) (items_in table.now) self.old name)) }
    {
        match self.rank(table, name) {
            Some(rank) => {
                let Ok(()) = self.found.push(rank) else {
                    return Err(OUT_OF_MEMORY);
                };
                self.ended(0, at, Kind::Other);
                Ok(())
            }
            None => self.named(table, at, name),
        }
    }

    /// The innermost open part is the arguments of a function with parameters for arrays.
    fn passes(&self) -> bool
        ensures { result ≡ steps.passes (steps.top self.now.frames) }
    {
        matches!(self.frames.last(), Some(Frame::Passes { .. }))
    }

    pub(crate) fn name_read(
        &mut self,
        table: &Table<A>,
        at: usize,
        name: usize,
        later: &[Word<usize>],
    ) -> Result<(), Fault>
        ensures { DoesAs result (steps.Plain self.new) (steps.name_read (numbers_in []) (items_in table.now) self.old at name later.now) }
    {
        if part_next(later) && self.passes() {
            self.argument(table, at, name)
        } else {
            self.named(table, at, name)
        }
    }

    pub(crate) fn cell(&mut self, table: &Table<A>, at: usize, name: usize) -> Result<(), Fault>
        ensures { DoesAs result (steps.Plain self.new) (steps.cell self.old at (steps.rank_at (numbers_in []) (items_in table.now) self.old name)) }
    {
        match self.rank(table, name) {
            Some(rank) => self.pushed(Frame::Indexes { at, rank, count: 0 }),
            None => Err(no_such_name(at)),
        }
    }

    pub(crate) fn next_index(&mut self) -> Result<(), Fault>
        ensures { DoesAs result (steps.Plain self.new) (steps.next_index (steps.popped self.old) (steps.top self.old.frames)) }
    {
        match self.popped() {
            Some(Frame::Indexes { at, rank, count }) => {
                self.single()?;
                let Some(count) = count.checked_add(1) else {
                    return Err(OUT_OF_MEMORY);
                };
                self.taken();
                self.pushed(Frame::Indexes { at, rank, count })
            }
            _ => Ok(()),
        }
    }

    /// An index ends that is the last one.
    fn last_index(&self, at: usize, rank: u64, count: u64) -> Result<(), Fault>
        ensures { result ≡ machine.last_index self.now.last at rank count }
    {
        self.single()?;
        must_be(count < rank && rank - count == 1, CoreKind::Arity, at)
    }

    pub(crate) fn indexed(&mut self) -> Result<(), Fault>
        ensures { DoesAs result (steps.Plain self.new)
            (steps.indexed (steps.popped self.old) (steps.top self.old.frames) (steps.taken (steps.popped self.old))) }
    {
        match self.popped() {
            Some(Frame::Indexes { at, rank, count }) => {
                self.last_index(at, rank, count)?;
                self.taken();
                Ok(())
            }
            _ => Ok(()),
        }
    }

    pub(crate) fn fetched(&mut self, place: usize) -> Result<(), Fault>
        ensures { DoesAs result (steps.Plain self.new)
            (steps.indexed (steps.popped self.old) (steps.top self.old.frames) (steps.ended (steps.popped self.old) 1 place kind.Other)) }
    {
        match self.popped() {
            Some(Frame::Indexes { at, rank, count }) => {
                self.last_index(at, rank, count)?;
                self.ended(1, place, Kind::Other);
                Ok(())
            }
            _ => Ok(()),
        }
    }

    fn values_found(&mut self, count: u64) -> Result<(), Fault>
        ensures { DoesAs result self.new (Ok (record self.old { found = self.old.found ++ replicate count 0 })) }
    {
        let Ok(()) = push_zeros(&mut self.found, count) else {
            return Err(OUT_OF_MEMORY);
        };
        Ok(())
    }

    pub(crate) fn part(&mut self) -> Result<(), Fault>
        ensures { DoesAs result (steps.Plain self.new) (steps.part (steps.popped self.old) (steps.top self.old.frames)) }
    {
        match self.popped() {
            Some(Frame::List { sum }) => {
                let Some(sum) = sum.checked_add(self.last.count) else {
                    return Err(OUT_OF_MEMORY);
                };
                self.taken();
                self.pushed(Frame::List { sum })
            }
            Some(Frame::Passes { start }) => {
                self.values_found(self.last.count)?;
                self.taken();
                self.pushed(Frame::Passes { start })
            }
            _ => Ok(()),
        }
    }

    fn takes(&mut self, at: usize, sum: u64) -> Result<(), Fault>
        ensures { DoesAs result (steps.Plain self.new) (steps.takes (steps.popped self.old) at sum (steps.top self.old.frames)) }
    {
        match self.popped() {
            Some(Frame::Takes { params, results }) => {
                must_be(sum == params, CoreKind::Arity, at)?;
                self.ended(results, at, Kind::Other);
                Ok(())
            }
            _ => Ok(()),
        }
    }

    fn passed(
        &mut self,
        table: &Table<A>,
        at: usize,
        function: usize,
        start: usize,
    ) -> Result<(), Fault>
        ensures { DoesAs result (steps.Plain self.new)
            (steps.passed self.old at start (signature_in table.now.ranks (item_in table.now.entries function))) }
    {
        match table.get(function) {
            Some(
                Entry::Function {
                    first,
                    params,
                    results,
                },
            ) => {
                let ranks = own_ranks(table.ranks(), first, params);
                must_be(
                    same_ranks(after(&self.found, start), ranks),
                    CoreKind::Arity,
                    at,
                )?;
                self.found.truncate(start);
                self.ended(results, at, Kind::Other);
                Ok(())
            }
            Some(Entry::Constant { .. } | Entry::Array { .. }) | None => Ok(()),
        }
    }

    pub(crate) fn call(&mut self, table: &Table<A>, at: usize, function: usize) -> Result<(), Fault>
        ensures { DoesAs result (steps.Plain self.new)
            (steps.call (items_in table.now) (steps.popped self.old) at function (steps.top self.old.frames)) }
    {
        match self.popped() {
            Some(Frame::List { sum }) => self.takes(at, sum),
            Some(Frame::Passes { start }) => self.passed(table, at, function, start),
            _ => Ok(()),
        }
    }

    /// The call of `len` ends, with these arguments.
    pub(crate) fn measured(&mut self, at: usize, rank: u64, parts: &[Part]) -> Result<(), Fault>
        ensures { DoesAs result (steps.Plain self.new) (steps.measured self.old at rank parts.now) }
    {
        match *parts {
            [_] => {
                self.ended(1, at, Kind::Other);
                Ok(())
            }
            [_, which] => {
                let number = which.value?;
                must_be(is_dimension(number, rank), CoreKind::BadCount, which.at)?;
                self.ended(1, at, Kind::Other);
                Ok(())
            }
            _ => must_be(false, CoreKind::Arity, at),
        }
    }

    pub(crate) fn give(&mut self) -> Result<(), Fault>
        ensures { DoesAs result (steps.Plain self.new) (steps.give (steps.popped self.old) (steps.top self.old.frames)) }
    {
        match self.popped() {
            Some(Frame::List { sum }) => {
                self.ended(sum, 0, Kind::Other);
                Ok(())
            }
            _ => Ok(()),
        }
    }

    /// The name is no item's, no array's, and not before in the list.
    fn is_new(&self, table: &Table<A>, start: usize, name: usize) -> bool
        ensures { result ≡ steps.is_new (numbers_in []) (items_in table.now) self.now (since start self.now.pending) name }
    {
        table.get(name).is_none()
            && self.arrays.get(name).is_none()
            && !self.pending.contains_since(name, start)
    }

    pub(crate) fn bound(&mut self, table: &Table<A>, at: usize, name: usize) -> Result<(), Fault>
        ensures { DoesAs result (steps.Plain self.new)
            (steps.bound (numbers_in []) (items_in table.now) (steps.popped self.old) at name (steps.top self.old.frames)) }
    {
        match self.popped() {
            Some(Frame::Names { start, targets }) => {
                must_be(self.is_new(table, start, name), CoreKind::SameName, at)?;
                let Ok(()) = self.pending.push(name) else {
                    return Err(OUT_OF_MEMORY);
                };
                let Some(targets) = targets.checked_add(1) else {
                    return Err(OUT_OF_MEMORY);
                };
                self.pushed(Frame::Names { start, targets })
            }
            _ => Ok(()),
        }
    }

    pub(crate) fn array_bound(
        &mut self,
        table: &Table<A>,
        at: usize,
        name: usize,
        rank: u64,
    ) -> Result<(), Fault>
        ensures { DoesAs result (steps.Plain self.new)
            (steps.array_bound (numbers_in []) (items_in table.now) (steps.popped self.old) at name rank (steps.top self.old.frames)) }
    {
        match self.popped() {
            Some(Frame::Names { start, targets }) => {
                must_be(self.is_new(table, start, name), CoreKind::SameName, at)?;
                let Ok(()) = self.arrays.push(name, rank) else {
                    return Err(OUT_OF_MEMORY);
                };
                self.pushed(Frame::Names { start, targets })
            }
            _ => Ok(()),
        }
    }

    pub(crate) fn dropped(&mut self) -> Result<(), Fault>
        ensures { DoesAs result (steps.Plain self.new) (steps.dropped (steps.popped self.old) (steps.top self.old.frames)) }
    {
        match self.popped() {
            Some(Frame::Names { start, targets }) => {
                let Some(targets) = targets.checked_add(1) else {
                    return Err(OUT_OF_MEMORY);
                };
                self.pushed(Frame::Names { start, targets })
            }
            _ => Ok(()),
        }
    }

    pub(crate) fn names_begin(&mut self) -> Result<(), Fault>
        ensures { DoesAs result (steps.Plain self.new) (steps.plain (steps.names_begin self.old)) }
    {
        let start = self.pending.len();
        self.pushed(Frame::Names { start, targets: 0 })
    }

    /// The pending names from `start` on enter the scope.
    fn entered(&mut self, start: usize) -> Result<(), Fault>
        ensures { DoesAs result self.new (Ok (steps.entered self.old start)) }
    {
        let Ok(()) = self.pending.moves(&mut self.scope, start) else {
            return Err(OUT_OF_MEMORY);
        };
        Ok(())
    }

    fn let_ends(&mut self, at: usize, sum: u64) -> Result<(), Fault>
        ensures { DoesAs result (steps.Plain self.new) (steps.let_ends (steps.popped self.old) at sum (steps.top self.old.frames)) }
    {
        match self.popped() {
            Some(Frame::Names { start, targets }) => {
                must_be(sum == targets, CoreKind::Arity, at)?;
                self.entered(start)
            }
            _ => Ok(()),
        }
    }

    pub(crate) fn end_let(&mut self, at: usize) -> Result<(), Fault>
        ensures { DoesAs result (steps.Plain self.new) (steps.end_let (steps.popped self.old) at (steps.top self.old.frames)) }
    {
        match self.popped() {
            Some(Frame::List { sum }) => self.let_ends(at, sum),
            _ => Ok(()),
        }
    }

    pub(crate) fn first_arm(&mut self) -> Result<(), Fault>
        ensures { DoesAs result (steps.Plain self.new) (steps.first_arm self.old) }
    {
        self.single()?;
        self.taken();
        let mark = self.scope.len();
        self.pushed(Frame::First { mark })
    }

    pub(crate) fn second_arm(&mut self) -> Result<(), Fault>
        ensures { DoesAs result (steps.Plain self.new) (steps.second_arm (steps.popped self.old) (steps.top self.old.frames)) }
    {
        match self.popped() {
            Some(Frame::First { mark }) => {
                let left = self.last.count;
                self.scope.truncate(mark);
                self.taken();
                self.pushed(Frame::Second { mark, left })
            }
            _ => Ok(()),
        }
    }

    pub(crate) fn end_if(&mut self, at: usize) -> Result<(), Fault>
        ensures { DoesAs result (steps.Plain self.new) (steps.end_if (steps.popped self.old) at (steps.top self.old.frames)) }
    {
        match self.popped() {
            Some(Frame::Second { mark, left }) => {
                must_be(left == self.last.count, CoreKind::Arity, at)?;
                self.scope.truncate(mark);
                self.ended(left, at, Kind::Other);
                Ok(())
            }
            _ => Ok(()),
        }
    }

    pub(crate) fn end_when(&mut self) -> Result<(), Fault>
        ensures { DoesAs result (steps.Plain self.new) (steps.end_when (steps.popped self.old) (steps.top self.old.frames)) }
    {
        match self.popped() {
            Some(Frame::First { mark } | Frame::Second { mark, .. }) => {
                self.scope.truncate(mark);
                self.taken();
                Ok(())
            }
            _ => Ok(()),
        }
    }

    pub(crate) fn bounded(&mut self, at: usize, bound: u64) -> Result<(), Fault>
        ensures { DoesAs result (steps.Plain self.new) (steps.bounded self.old at (Ok (pos bound))) }
    {
        must_be(2 <= bound && bound <= 64, CoreKind::BadBound, at)
    }

    pub(crate) fn bounded_by(
        &mut self,
        table: &Table<A>,
        at: usize,
        name: usize,
    ) -> Result<(), Fault>
        ensures { DoesAs result (steps.Plain self.new)
            (steps.bounded self.old at (evaluates.constant_of (item_in table.now.entries name) at)) }
    {
        let bound = constant_named(table, at, name)?;
        must_be(2 <= bound && bound <= 64, CoreKind::BadBound, at)
    }

    pub(crate) fn turned(&mut self) -> Result<(), Fault>
        ensures { DoesAs result (steps.Plain self.new) (steps.turned (steps.popped self.old) (steps.top self.old.frames)) }
    {
        match self.popped() {
            Some(Frame::Names { start, targets }) => {
                let outer = self.turn;
                let base = self.scope.len();
                self.entered(start)?;
                self.turn = Turn {
                    base,
                    start: self.used.len(),
                };
                let mark = self.scope.len();
                self.pushed(Frame::Open {
                    outer,
                    names: targets,
                    mark,
                })
            }
            _ => Ok(()),
        }
    }

    pub(crate) fn until(&mut self) -> Result<(), Fault>
        ensures { DoesAs result (steps.Plain self.new) (steps.until (steps.popped self.old) (steps.top self.old.frames)) }
    {
        match self.popped() {
            Some(Frame::Open { outer, names, mark }) => {
                let given = self.last.count;
                self.scope.truncate(mark);
                self.taken();
                self.pushed(Frame::Tested {
                    outer,
                    names,
                    given,
                })
            }
            _ => Ok(()),
        }
    }

    /// The turn is left: what it takes from outside is used in the turn around it.
    fn left_turn(&mut self, table: &Table<A>, outer: Turn) -> Result<(), Fault>
        ensures { DoesAs result self.new (Ok (steps.left_turn (numbers_in []) (items_in table.now) self.old outer)) }
    {
        self.carried.clear();
        let Ok(()) = self.used.moves(&mut self.carried, self.turn.start) else {
            return Err(OUT_OF_MEMORY);
        };
        self.scope.truncate(self.turn.base);
        self.turn = outer;
        let Ok(()) = note_all(
            table,
            &self.arrays,
            &self.scope,
            &mut self.used,
            self.turn,
            &mut self.carried,
        ) else {
            return Err(OUT_OF_MEMORY);
        };
        Ok(())
    }

    fn closed(
        &mut self,
        table: &Table<A>,
        at: usize,
        outer: Turn,
        names: u64,
        given: u64,
    ) -> Result<(), Fault>
        ensures { DoesAs result (steps.Plain self.new)
            (steps.closed (numbers_in []) (items_in table.now) self.old at outer names given) }
    {
        must_be(given == names, CoreKind::Arity, at)?;
        let outside = self.used.len_since(self.turn.start);
        must_be(is_narrow(names, outside), CoreKind::TooWide, at)?;
        self.left_turn(table, outer)?;
        self.ended(given, at, Kind::Other);
        Ok(())
    }

    pub(crate) fn end_loop(&mut self, table: &Table<A>, at: usize) -> Result<(), Fault>
        ensures { DoesAs result (steps.Plain self.new)
            (steps.end_loop (numbers_in []) (items_in table.now) (steps.popped self.old) at (steps.top self.old.frames)) }
    {
        match self.popped() {
            Some(Frame::Open { outer, names, .. }) => {
                let given = self.last.count;
                self.closed(table, at, outer, names, given)
            }
            Some(
                Frame::Tested {
                    outer,
                    names,
                    given,
                },
            ) => {
                self.single()?;
                self.closed(table, at, outer, names, given)
            }
            _ => Ok(()),
        }
    }

    pub(crate) fn range_ends(&mut self) -> Result<(), Fault>
        ensures { DoesAs result (steps.Plain self.new) (steps.range_ends self.old) }
    {
        self.single()?;
        let Ok(()) = self.ends.push(self.last.kind) else {
            return Err(OUT_OF_MEMORY);
        };
        self.taken();
        Ok(())
    }

    /// The names of the body, which begin after `mark`, leave the scope.
    fn leave_body(&mut self, mark: usize)
        ensures { self.new ≡ record self.old { scope = back (max mark self.old.turn.base) self.old.scope } }
    {
        self.scope.truncate(mark.max(self.turn.base));
    }

    /// Whether the number at which the innermost `for` stops is carried, where the names of its body have left the scope.
    fn is_carried(&self) -> bool
        ensures { result
            ≡ steps.is_carried (numbers_in []) (since self.now.turn.base self.now.scope) (since self.now.turn.start self.now.used) self.now.ends }
    {
        match self.ends.last().copied() {
            Some(Kind::Variable { name }) => {
                self.scope.contains_since(name, self.turn.base)
                    || !self.used.contains_since(name, self.turn.start)
            }
            Some(Kind::Other) => true,
            Some(Kind::Written | Kind::Constant) | None => false,
        }
    }

    /// The names of the body, which begin after `mark`, leave the scope; whether the number at which the `for` stops is
    /// carried.
    fn end_is_carried(&mut self, mark: usize) -> bool
        ensures carried { result
            ≡ steps.is_carried (numbers_in []) (steps.bound_in self.old mark) (since self.old.turn.start self.old.used) self.old.ends }
        ensures left { self.new ≡ record self.old { scope = back (max mark self.old.turn.base) self.old.scope } }
    {
        self.leave_body(mark);
        self.is_carried()
    }

    /// The innermost `for` ends.
    fn end_left(&mut self)
        ensures { self.new ≡ record self.old { ends = drop 1 self.old.ends } }
    {
        self.ends.pop();
    }

    fn for_closed(
        &mut self,
        table: &Table<A>,
        at: usize,
        outer: Turn,
        names: u64,
        mark: usize,
    ) -> Result<(), Fault>
        ensures { DoesAs result (steps.Plain self.new)
            (steps.end_for (numbers_in []) (items_in table.now) self.old at (Some (frame.Open outer names mark))) }
    {
        let others = names.saturating_sub(1);
        must_be(as_many(self.last.count, others), CoreKind::Arity, at)?;
        let outside = self.used.len_since(self.turn.start);
        let carried = self.end_is_carried(mark);
        must_be(
            is_narrow_with(names, outside, carried),
            CoreKind::TooWide,
            at,
        )?;
        self.end_left();
        self.left_turn(table, outer)?;
        self.ended(values_of(others), at, Kind::Other);
        Ok(())
    }

    pub(crate) fn end_for(&mut self, table: &Table<A>, at: usize) -> Result<(), Fault>
        ensures { DoesAs result (steps.Plain self.new)
            (steps.end_for (numbers_in []) (items_in table.now) (steps.popped self.old) at (steps.top self.old.frames)) }
    {
        match self.popped() {
            Some(Frame::Open { outer, names, mark }) => {
                self.for_closed(table, at, outer, names, mark)
            }
            _ => Ok(()),
        }
    }

    pub(crate) fn function(&mut self, at: usize) -> Result<(), Fault>
        ensures { DoesAs result (steps.Plain self.new) (steps.plain (steps.function self.old at)) }
    {
        self.names_begin()?;
        self.ended(1, at, Kind::Other);
        Ok(())
    }

    pub(crate) fn body(&mut self, at: usize) -> Result<(), Fault>
        ensures { DoesAs result (steps.Plain self.new) (steps.body (steps.popped self.old) at (steps.top self.old.frames)) }
    {
        match self.popped() {
            Some(Frame::Names { start, .. }) => {
                self.entered(start)?;
                let results = self.last.count;
                self.pushed(Frame::Body { results, at })
            }
            _ => Ok(()),
        }
    }

    pub(crate) fn end_function(&mut self) -> Result<(), Fault>
        ensures { DoesAs result (steps.Plain self.new) (steps.end_function (steps.popped self.old) (steps.top self.old.frames)) }
    {
        match self.popped() {
            Some(Frame::Body { results, at }) => {
                must_be(self.last.count == results, CoreKind::Arity, at)?;
                self.scope.clear();
                self.used.clear();
                self.arrays.clear();
                self.taken();
                Ok(())
            }
            _ => Ok(()),
        }
    }
}
