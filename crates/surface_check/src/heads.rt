//! The heads of items, word by word.

ghost use Rattle.std.specs.Prelude.{◌≡◌, ◌*◌, ◌⊎◌, ◌≤◌, ◌↔◌, IsTrue, Ok, Err, IfOk, IfErr, MatchResult, nat_le, [], length, pos, ℕ};
ghost use Rattle.semantics.specs.Graph.{same_name};
ghost use Rattle.source.specs.Rules.{main_name};
ghost use Rattle.source.specs.Words.{name_of};
ghost use Rattle.surface.specs.First as first;
ghost use Rattle.surface.specs.Known as known;
ghost use Rattle.surface.specs.Rules as rules;
ghost use Rattle.surface.specs.Tree as tree;
ghost use Rattle.surface.specs.Words.{IsProgram};
ghost use Rattle.surface_check.specs.declared.heads.Head.TheVariants as open_head;
ghost use Rattle.surface_check.specs.Checks.{HeadsAreRead};
ghost use Rattle.surface_check.specs.Heads as heads;
ghost use Rattle.surface_check.specs.Renamed.{numbers_in, by_number};
ghost use Rattle.surface_check.specs.Table as table;
ghost use Rattle.surface_check.specs.Table.{Answers, DoesAs, HeadsGive, Knows, heads_in, out_of_memory};

use crate::entry::{Entry, Lengths};
use crate::evaluation::{Evaluator, OUT_OF_MEMORY, Part, constant_named};
use crate::table::Table;
use graph::Name;
use source::fault::FaultKind as CoreKind;
use source::word::Word as CoreWord;
use std::alloc::{AllocError, Allocator};
use std::marker::Model;
use surface::fault::{Fault, FaultKind};
use surface::word::Word;

/// The function whose head is read: its name, where its ranks begin in the table, its first parameter that is refused, and
/// its number of results.
#[derive(Clone, Copy)]
pub struct FunctionHead<N> {
    pub at: usize,
    pub name: N,
    pub first: usize,
    pub refused: Option<Fault>,
    pub results: Result<u64, Fault>,
}

/// What is open among the items.
#[derive(Clone, Copy)]
pub enum Head<N> {
    Outside,
    Array { at: usize, name: N },
    Constant { name: N },
    Function { head: FunctionHead<N> },
    Body,
}

/// A fault of that kind and place, unless the test holds.
pub(crate) fn must(holds: bool, kind: FaultKind, at: usize) -> Result<(), Fault>
    ensures { result ≡ first.must holds kind at }
{
    if holds {
        Ok(())
    } else {
        Err(Fault { kind, at })
    }
}

/// A fault of that kind of the core, and of that place, unless the test holds.
pub(crate) fn must_be(holds: bool, kind: CoreKind, at: usize) -> Result<(), Fault>
    ensures { result ≡ first.must_be holds kind at }
{
    must(holds, FaultKind::Core { kind }, at)
}

pub(crate) fn is_main_name<'a>(name: &Name<'a>) -> bool
    ensures { IsTrue result ↔ (name.now ≡ main_name) }
{
    name.bytes == b"main".as_slice()
}

/// The number is that of the name `main`.
#[tactic(auto, using(crate::proofs::Places::is_same_name))]
fn is_main<'a>(names: &[Name<'a>], name: usize) -> bool
    ensures { result ≡ same_name (name_of names.now name) main_name }
{
    if name < names.len() {
        is_main_name(&names[name])
    } else {
        false
    }
}

/// So many cells are not too many.
fn is_room(before: u64, number: u64) -> bool
    ensures { result ≡ nat_le (before * number) 65536 }
{
    match before.checked_mul(number) {
        Some(cells) => cells <= 65536,
        None => false,
    }
}

/// The length of a dimension, where those before have so many cells.
fn length_from(before: u64, part: Part) -> Result<u64, Fault>
    ensures { result ≡ heads.length_from before part }
{
    let number = part.value?;
    if 1 <= number && number <= 65536 && is_room(before, number as u64) {
        Ok(number as u64)
    } else {
        Err(Fault {
            kind: FaultKind::Core {
                kind: CoreKind::BadCount,
            },
            at: part.at,
        })
    }
}

/// The function's number of results.
fn number_of_results(at: usize, number: Result<i64, Fault>) -> Result<u64, Fault>
    ensures { result ≡ heads.number_of_results at number }
{
    let number = number?;
    must_be(1 <= number && number <= 16, CoreKind::BadCount, at)?;
    Ok(number as u64)
}

/// The function's number of results, where it is written.
fn written_results(at: usize, number: u64) -> Result<u64, Fault>
    ensures { result ≡ heads.number_of_results at (Ok (pos number)) }
{
    must_be(1 <= number && number <= 16, CoreKind::BadCount, at)?;
    Ok(number)
}

pub(crate) fn ends_item(word: &Word<usize>) -> bool
    ensures { result ≡ heads.ends_item word.now }
{
    match *word {
        Word::Core { word } => matches!(word, CoreWord::EndFunction),
        Word::EndArray | Word::EndConstant => true,
        _ => false,
    }
}

fn is_good_rank<'a>(names: &[Name<'a>], function: usize, rank: u64) -> bool
    ensures { result ≡ heads.is_good_rank (numbers_in names.now) function rank }
{
    rank <= 3 && !(is_main(names, function) && 0 < rank)
}

fn first_refused(refused: Option<Fault>, good: bool, at: usize) -> Option<Fault>
    ensures { result ≡ heads.first_refused refused good at }
{
    match refused {
        Some(fault) => Some(fault),
        None if good => None,
        None => Some(Fault {
            kind: FaultKind::BadArray,
            at,
        }),
    }
}

fn unless_refused(refused: Option<Fault>) -> Result<(), Fault>
    ensures { result ≡ heads.unless_refused refused }
{
    match refused {
        Some(fault) => Err(fault),
        None => Ok(()),
    }
}

/// The lengths of an array, and how many cells they make.
#[derive(Clone, Copy)]
pub struct Measured {
    pub lengths: Lengths,
    pub cells: u64,
}

/// The product, which is small where the lengths are.
fn product(number: u64, other: u64) -> Result<u64, Fault>
    ensures { Answers result (Ok (number * other)) }
{
    match number.checked_mul(other) {
        Some(product) => Ok(product),
        None => Err(OUT_OF_MEMORY),
    }
}

/// One to three lengths.
fn lengths_of(parts: &[Part]) -> Result<Measured, Fault>
    requires { length parts.now ≤ 3 }
    ensures { Answers result (table.measured parts.now) }
{
    match *parts {
        [one] => {
            let first = length_from(1, one)?;
            Ok(Measured {
                lengths: Lengths::One { first },
                cells: product(first, 1)?,
            })
        }
        [one, two] => {
            let first = length_from(1, one)?;
            let second = length_from(product(1, first)?, two)?;
            Ok(Measured {
                lengths: Lengths::Two { first, second },
                cells: product(first, product(second, 1)?)?,
            })
        }
        [one, two, three] => {
            let first = length_from(1, one)?;
            let before = product(1, first)?;
            let second = length_from(before, two)?;
            let third = length_from(product(before, second)?, three)?;
            Ok(Measured {
                lengths: Lengths::Three {
                    first,
                    second,
                    third,
                },
                cells: product(first, product(second, product(third, 1)?)?)?,
            })
        }
        _ => Ok(Measured {
            lengths: Lengths::One { first: 0 },
            cells: 1,
        }),
    }
}

/// The place of the last part.
#[tactic(auto, using(crate::proofs::Places::last_place_is))]
fn last_part(parts: &[Part]) -> usize
    ensures { result ≡ heads.last_part parts.now }
{
    if parts.is_empty() {
        return 0;
    }
    parts[parts.len() - 1].at
}

fn some_value(ranks: &[u64]) -> bool
    ensures { result ≡ known.some_value ranks.now }
{
    for rank in ranks {
        if *rank == 0 {
            return true;
        }
    }
    false
}

/// The heads that are read so far.
#[derive(Drop)]
struct Reader<A: Allocator> {
    table: Table<A>,
    arrays: u64,
    cells: u64,
    head: Head<usize>,
    evaluator: Evaluator<A>,
}

impl<A: Allocator> Model for Reader<A> {
    ghost use Rattle.std.specs.Prelude.{ℕ, ◌≤◌};
    ghost use Rattle.surface_check.specs.Table.{HeadsView};

    ghost Value = { HeadsView };

    ghost view = { λ h. record { table = h.table; arrays = h.arrays; cells = h.cells; open_head = h.head; evaluation = h.evaluator } };

    ghost invariant = { λ h. h.cells ≤ 65536 };
}

impl<A: Allocator> Reader<A> {
    fn new(alloc: &A) -> Result<Reader<A>, AllocError>
    where
        A: Clone,
        ensures { IfOk result (λ h. heads_in h ≡ heads.no_heads) }
    {
        Ok(Reader {
            table: Table::new(alloc)?,
            arrays: 0,
            cells: 0,
            head: Head::Outside,
            evaluator: Evaluator::new(alloc)?,
        })
    }

    fn new_item(&self, at: usize, name: usize) -> Result<(), Fault>
        ensures { result ≡ heads.new_item (heads_in self.now) at name }
    {
        must_be(self.table.get(name).is_none(), CoreKind::SameName, at)
    }

    fn array_begins(&mut self, at: usize, name: usize) -> Result<(), Fault>
        ensures { DoesAs result (heads_in self.new) (heads.array_begins (heads_in self.old) at name) }
    {
        self.new_item(at, name)?;
        must_be(self.arrays < 64, CoreKind::TooMany, at)?;
        self.head = Head::Array { at, name };
        self.evaluator.begin(0);
        Ok(())
    }

    fn constant_begins(&mut self, at: usize, name: usize) -> Result<(), Fault>
        ensures { DoesAs result (heads_in self.new) (heads.constant_begins (heads_in self.old) at name) }
    {
        self.new_item(at, name)?;
        self.head = Head::Constant { name };
        self.evaluator.begin(1);
        Ok(())
    }

    fn function_begins(&mut self, at: usize, name: usize) -> Result<(), Fault>
        ensures { DoesAs result (heads_in self.new) (heads.function_begins (heads_in self.old) at name) }
    {
        self.new_item(at, name)?;
        let first = self.table.ranks().len();
        self.head = Head::Function {
            head: FunctionHead {
                at,
                name,
                first,
                refused: None,
                results: Ok(1),
            },
        };
        Ok(())
    }

    fn begins(&mut self, word: Word<usize>) -> Result<(), Fault>
        ensures { DoesAs result (heads_in self.new) (heads.begins (heads_in self.old) word) }
    {
        match word {
            Word::Core {
                word: CoreWord::Array { at, name },
            } => self.array_begins(at, name),
            Word::Core {
                word: CoreWord::Function { at, name },
            } => self.function_begins(at, name),
            Word::Constant { at, name } => self.constant_begins(at, name),
            _ => Ok(()),
        }
    }

    /// The item of a name is known.
    fn set(&mut self, name: usize, entry: Entry, head: Head<usize>) -> Result<(), Fault>
        ensures { DoesAs result (heads_in self.new) (Ok (record (heads_in self.old) {
          item = heads.with_item by_number (heads_in self.old).item name entry;
          open_head = head;
        })) }
    {
        let Ok(()) = self.table.set(name, entry) else {
            return Err(OUT_OF_MEMORY);
        };
        self.head = head;
        Ok(())
    }

    fn array_ends(&mut self, at: usize, name: usize) -> Result<(), Fault>
        ensures { DoesAs result (heads_in self.new) (heads.array_ends (numbers_in []) (heads_in self.old) at name self.old.evaluation.parts) }
    {
        let parts = self.evaluator.parts();
        must(parts.len() <= 3, FaultKind::BadArray, at)?;
        let Measured { lengths, cells } = lengths_of(parts)?;
        must_be(
            cells <= 65536 - self.cells,
            CoreKind::TooMany,
            last_part(parts),
        )?;
        let Some(arrays) = self.arrays.checked_add(1) else {
            return Err(OUT_OF_MEMORY);
        };
        self.set(name, Entry::Array { lengths }, Head::Outside)?;
        self.arrays = arrays;
        self.cells += cells;
        Ok(())
    }

    fn constant_ends(&mut self, name: usize) -> Result<(), Fault>
        ensures { DoesAs result (heads_in self.new) (heads.constant_ends (numbers_in []) (heads_in self.old) name) }
    {
        let value = self.evaluator.last().value?;
        self.set(name, Entry::Constant { value }, Head::Outside)
    }

    fn evaluates(&mut self, word: Word<usize>) -> Result<(), Fault>
        ensures { DoesAs result (heads_in self.new) (Ok (heads.evaluated_by (heads_in self.old) word)) }
    {
        self.evaluator.step(&self.table, word)
    }

    fn parameter<'a>(
        &mut self,
        names: &[Name<'a>],
        head: FunctionHead<usize>,
        at: usize,
        rank: u64,
    ) -> Result<(), Fault>
        ensures { DoesAs result (heads_in self.new) (heads.parameter (numbers_in names.now) (heads_in self.old) head at rank) }
    {
        let count = self.table.ranks().len().saturating_sub(head.first);
        must_be(count < 16, CoreKind::TooMany, at)?;
        let good = is_good_rank(names, head.name, rank);
        let Ok(()) = self.table.push_rank(rank) else {
            return Err(OUT_OF_MEMORY);
        };
        let refused = first_refused(head.refused, good, at);
        self.head = Head::Function {
            head: FunctionHead { refused, ..head },
        };
        Ok(())
    }

    fn results_read(&mut self, head: FunctionHead<usize>, results: Result<u64, Fault>)
        ensures { heads_in self.new ≡ record (heads_in self.old) { open_head = open_head.Function (record head { results = results }) } }
    {
        self.head = Head::Function {
            head: FunctionHead { results, ..head },
        };
    }

    fn head_ends(&mut self, head: FunctionHead<usize>) -> Result<(), Fault>
        ensures { DoesAs result (heads_in self.new) (heads.head_ends (numbers_in []) (heads_in self.old) head) }
    {
        unless_refused(head.refused)?;
        let ranks = self.table.ranks();
        let params = ranks.len().saturating_sub(head.first);
        let value = head.first < ranks.len() && some_value(&ranks[head.first..]);
        must(value, FaultKind::BadArray, head.at)?;
        let entry = Entry::Function {
            first: head.first,
            params,
            results: head.results?,
        };
        self.set(head.name, entry, Head::Body)
    }

    fn in_function<'a>(
        &mut self,
        names: &[Name<'a>],
        head: FunctionHead<usize>,
        word: Word<usize>,
    ) -> Result<(), Fault>
        ensures { DoesAs result (heads_in self.new) (heads.in_function (numbers_in names.now) (heads_in self.old) head word) }
    {
        match word {
            Word::Core {
                word: CoreWord::Parameter { at, .. },
            } => self.parameter(names, head, at, 0),
            Word::Core {
                word: CoreWord::Results { at, number },
            } => {
                self.results_read(head, written_results(at, number));
                Ok(())
            }
            Word::Core {
                word: CoreWord::Body { .. },
            } => self.head_ends(head),
            Word::ArrayParameter { at, rank, .. } => self.parameter(names, head, at, rank as u64),
            Word::ConstantResults { at, name } => {
                let number = constant_named(&self.table, at, name);
                self.results_read(head, number_of_results(at, number));
                Ok(())
            }
            _ => Ok(()),
        }
    }

    /// One word.
    fn step<'a>(&mut self, names: &[Name<'a>], word: Word<usize>) -> Result<(), Fault>
        ensures { DoesAs result (heads_in self.new) (heads.head_step (numbers_in names.now) (heads_in self.old) word) }
    {
        let ends = ends_item(&word);
        match self.head {
            Head::Outside => self.begins(word),
            Head::Array { at, name } if ends => self.array_ends(at, name),
            Head::Constant { name } if ends => self.constant_ends(name),
            Head::Array { .. } | Head::Constant { .. } => self.evaluates(word),
            Head::Function { head } => self.in_function(names, head, word),
            Head::Body => {
                if ends {
                    self.head = Head::Outside;
                }
                Ok(())
            }
        }
    }
}

/// Reads the heads of all items.
pub(crate) fn read<'a, A: Allocator + Clone>(
    alloc: &A,
    names: &[Name<'a>],
    words: &[Word<usize>],
) -> Result<Table<A>, Fault>
    ensures { MatchResult result (λ t. HeadsGive t (heads.heads_read (numbers_in names.now) heads.no_heads words.now))
        (λ f. (f ≡ out_of_memory) ⊎ (heads.heads_read (numbers_in names.now) heads.no_heads words.now ≡ Err f)) }
{
    let Ok(mut reader) = Reader::new(alloc) else {
        return Err(OUT_OF_MEMORY);
    };
    for &word in words {
        reader.step(names, word)?;
    }
    Ok(reader.table)
}

/// What is known of the items of a program with these names and words, if their heads break no rule; else the first fault
/// among them. `Memory` is returned where a growth was refused.
pub fn read_heads<'a, A: Allocator + Clone>(
    alloc: &A,
    names: &[Name<'a>],
    words: &[Word<usize>],
) -> Result<Table<A>, Fault>
    ensures known { IfOk result (λ t. Knows names.now words.now t) }
    ensures refused { (p : tree.Program) → IsProgram names.now words.now p
        → IfErr result (λ f. (f ≡ out_of_memory) ⊎ (rules.heads known.nothing p ≡ Err f)) }
{
    read(alloc, names, words)
}

/// Read word by word, the heads of the items are those that the rules know, with the same first fault.
#[tactic(auto, using(crate::proofs::KnownHeads::read_as_known))]
pub fn heads_are_read()
    ensures { HeadsAreRead }
{}
