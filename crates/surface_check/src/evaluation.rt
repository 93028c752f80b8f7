//! Constants, word by word.

ghost use Rattle.std.specs.Prelude.{◌≡◌, ◌∷◌, Ok, None, IfOk};
ghost use Rattle.surface_check.specs.Evaluates as evaluates;
ghost use Rattle.surface_check.specs.Table.{DoesAs, item_in};

use crate::constant::{combined, inverted, negated, no_constant};
use crate::entry::Entry;
use crate::table::Table;
use operators::Unary;
use source::fault::FaultKind as CoreKind;
use source::word::{InfixSign, Word as CoreWord};
use std::alloc::{AllocError, Allocator};
use std::marker::Model;
use surface::fault::{Fault, FaultKind};
use surface::word::Word;

/// A growth was refused.
pub(crate) const OUT_OF_MEMORY: Fault = Fault {
    kind: FaultKind::Core {
        kind: CoreKind::Memory,
    },
    at: 0,
};

/// The value of the last expression, if it is a constant, and the place of the expression.
#[derive(Clone, Copy)]
pub struct Part {
    pub value: Result<i64, Fault>,
    pub at: usize,
}

/// What is open in an expression. Contracts see the left operands with the innermost first.
#[derive(Drop)]
pub(crate) struct Evaluator<A: Allocator> {
    lefts: Vec<Result<i64, Fault>, A>,
    parts: Vec<Part, A>,
    depth: usize,
    last: Part,
    number: Option<u64>,
}

impl<A: Allocator> Model for Evaluator<A> {
    ghost use Rattle.std.specs.Prelude.{reverse};
    ghost use Rattle.surface_check.specs.Evaluates.{Evaluation};

    ghost Value = { Evaluation };

    ghost view = { λ e. record { lefts = reverse e.lefts.items; parts = e.parts.items; depth = e.depth; last = e.last; number = e.number } };
}

/// The constant of a name, by its item.
fn constant_of(entry: Option<Entry>, at: usize) -> Result<i64, Fault>
    ensures { result ≡ evaluates.constant_of entry at }
{
    match entry {
        Some(Entry::Constant { value }) => Ok(value),
        Some(Entry::Array { .. } | Entry::Function { .. }) => Err(no_constant(at)),
        None => Err(Fault {
            kind: FaultKind::Core {
                kind: CoreKind::NoSuchName,
            },
            at,
        }),
    }
}

/// The constant of a name.
pub(crate) fn constant_named<A: Allocator>(
    table: &Table<A>,
    at: usize,
    name: usize,
) -> Result<i64, Fault>
    ensures { result ≡ evaluates.constants (item_in table.now.entries) at name }
{
    constant_of(table.get(name), at)
}

fn written(at: usize, number: u64) -> Result<i64, Fault>
    ensures { result ≡ evaluates.written at number }
{
    if number <= 9_223_372_036_854_775_807 {
        Ok(number as i64)
    } else {
        Err(no_constant(at))
    }
}

fn prefixed_value(
    at: usize,
    op: Unary,
    value: Result<i64, Fault>,
    number: Option<u64>,
) -> Result<i64, Fault>
    ensures { result ≡ evaluates.prefixed_value at op value number }
{
    match (op, number) {
        (Unary::Neg, Some(number)) => negated(at, number),
        (Unary::Neg, None) | (Unary::Not, _) => inverted(at, op, value?),
    }
}

fn combined_value(
    at: usize,
    sign: InfixSign,
    left: Result<i64, Fault>,
    right: Result<i64, Fault>,
) -> Result<i64, Fault>
    ensures { result ≡ evaluates.combined_value at sign left right }
{
    combined(at, sign, left?, right?)
}

impl<A: Allocator> Evaluator<A> {
    pub(crate) fn new(alloc: &A) -> Result<Evaluator<A>, AllocError>
    where
        A: Clone,
        ensures { IfOk result (λ e. e ≡ evaluates.fresh 0) }
    {
        Ok(Evaluator {
            lefts: Vec::new(alloc.clone()?),
            parts: Vec::new(alloc.clone()?),
            depth: 0,
            last: Part {
                value: Ok(0),
                at: 0,
            },
            number: None,
        })
    }

    /// An item or an argument begins, inside so many lists.
    pub(crate) fn begin(&mut self, depth: usize)
        ensures { self.new ≡ evaluates.fresh depth }
    {
        self.lefts.clear();
        self.parts.clear();
        self.depth = depth;
        self.last = Part {
            value: Ok(0),
            at: 0,
        };
        self.number = None;
    }

    pub(crate) fn depth(&self) -> usize
        ensures { result ≡ self.now.depth }
    {
        self.depth
    }

    pub(crate) fn last(&self) -> Part
        ensures { result ≡ self.now.last }
    {
        self.last
    }

    /// The parts of the outermost list.
    pub(crate) fn parts(&self) -> &[Part]
        ensures { result.now ≡ self.now.parts }
    {
        self.parts.as_slice()
    }

    fn ended(&mut self, at: usize, value: Result<i64, Fault>, number: Option<u64>)
        ensures { self.new ≡ evaluates.evaluated self.old at value number }
    {
        self.last = Part { value, at };
        self.number = number;
    }

    fn refused(&mut self, at: usize)
        ensures { self.new ≡ evaluates.no_constant self.old at }
    {
        self.ended(at, Err(no_constant(at)), None);
    }

    fn prefixed(&mut self, at: usize, op: Unary)
        ensures { self.new ≡ evaluates.evaluated self.old at (evaluates.prefixed_value at op self.old.last.value self.old.number) None }
    {
        let value = prefixed_value(at, op, self.last.value, self.number);
        self.ended(at, value, None);
    }

    fn infixed(&mut self, at: usize, sign: InfixSign)
        ensures { self.new ≡ evaluates.infixed self.old at sign self.old.lefts }
    {
        if let Some(left) = self.lefts.pop() {
            let value = combined_value(at, sign, left, self.last.value);
            self.ended(at, value, None);
        }
    }

    fn left_ends(&mut self) -> Result<(), Fault>
        ensures { DoesAs result self.new (Ok (record self.old { lefts = self.old.last.value ∷ self.old.lefts })) }
    {
        let Ok(()) = self.lefts.push(self.last.value) else {
            return Err(OUT_OF_MEMORY);
        };
        Ok(())
    }

    fn part_ends(&mut self) -> Result<(), Fault>
        ensures { DoesAs result self.new (Ok (evaluates.part_ends self.old)) }
    {
        if self.depth == 1 {
            let Ok(()) = self.parts.push(self.last) else {
                return Err(OUT_OF_MEMORY);
            };
        }
        Ok(())
    }

    fn list_begins(&mut self) -> Result<(), Fault>
        ensures { DoesAs result self.new (Ok (evaluates.list_begins self.old)) }
    {
        let Some(depth) = self.depth.checked_add(1) else {
            return Err(OUT_OF_MEMORY);
        };
        self.depth = depth;
        Ok(())
    }

    fn list_ends(&mut self)
        ensures { self.new ≡ evaluates.list_ends self.old }
    {
        self.depth = self.depth.saturating_sub(1);
    }

    fn core_step(&mut self, table: &Table<A>, word: CoreWord<usize>) -> Result<(), Fault>
        ensures { DoesAs result self.new (Ok (evaluates.core_evaluates (evaluates.constants (item_in table.now.entries)) self.old word)) }
    {
        match word {
            CoreWord::Number { at, number } => self.ended(at, written(at, number), Some(number)),
            CoreWord::Name { at, name } => self.ended(at, constant_named(table, at, name), None),
            CoreWord::Bracket => self.number = None,
            CoreWord::Prefix { at, op } => self.prefixed(at, op),
            CoreWord::Left => return self.left_ends(),
            CoreWord::Infix { at, sign } => self.infixed(at, sign),
            CoreWord::Fetch { at, .. }
            | CoreWord::Store { at, .. }
            | CoreWord::EndIf { at }
            | CoreWord::EndLoop { at, .. } => self.refused(at),
            CoreWord::Call { at, .. } => {
                self.list_ends();
                self.refused(at);
            }
            CoreWord::List => return self.list_begins(),
            CoreWord::Part => return self.part_ends(),
            CoreWord::EndLet { .. } | CoreWord::Do | CoreWord::Give => self.list_ends(),
            _ => (),
        }
        Ok(())
    }

    /// One word.
    pub(crate) fn step(&mut self, table: &Table<A>, word: Word<usize>) -> Result<(), Fault>
        ensures { DoesAs result self.new (Ok (evaluates.evaluates (evaluates.constants (item_in table.now.entries)) self.old word)) }
    {
        match word {
            Word::Core { word } => return self.core_step(table, word),
            Word::EndAnd { at }
            | Word::EndOr { at }
            | Word::Not { at }
            | Word::EndConstantLoop { at, .. }
            | Word::EndFor { at } => self.refused(at),
            Word::When => self.list_ends(),
            _ => (),
        }
        Ok(())
    }
}
