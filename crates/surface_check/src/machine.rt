//! The steps over the words of functions.

ghost use Rattle.std.specs.Prelude.{◌≡◌, ℕ, List, [], drop, Ok, IfOk, if◌then◌else◌};
ghost use Rattle.surface.specs.declared.word.Word.{Word};
ghost use Rattle.surface_check.specs.declared.frame.Frame.TheVariants as frame;
ghost use Rattle.surface_check.specs.declared.machine.Mode.TheVariants as mode;
ghost use Rattle.surface_check.specs.Evaluates.{strict_ahead};
ghost use Rattle.surface_check.specs.Heads as heads;
ghost use Rattle.surface_check.specs.Machine.{Ends, items_in, state_in};
ghost use Rattle.surface_check.specs.Renamed.{numbers_in};
ghost use Rattle.surface_check.specs.Steps as steps;
ghost use Rattle.surface_check.specs.Table.{DoesAs};

use crate::ahead::Ahead;
use crate::callee::{BuiltIn, Callee};
use crate::evaluation::{Evaluator, OUT_OF_MEMORY};
use crate::frame::{Frame, Kind};
use crate::heads::{ends_item, must_be};
use crate::opened::{Opened, first_name};
use crate::table::Table;
use graph::Name;
use source::fault::FaultKind as CoreKind;
use source::word::Word as CoreWord;
use std::alloc::{AllocError, Allocator};
use std::marker::Model;
use surface::fault::Fault;
use surface::word::Word;

/// What is done with the next word.
#[derive(Clone, Copy)]
pub enum Mode {
    /// It is checked.
    Plain,
    /// It begins the list of a call's arguments of which some may be arrays, where so many ranks were found before.
    Passing { start: usize },
    /// It is one of the arguments of `len`, of an array with so many dimensions.
    Measuring { at: usize, rank: u64 },
    /// It is one of an item without a body.
    Skipping,
}

/// What is open at a word.
#[derive(Drop)]
pub(crate) struct Machine<A: Allocator> {
    opened: Opened<A>,
    evaluator: Evaluator<A>,
    mode: Mode,
}

impl<A: Allocator> Model for Machine<A> {
    ghost use Rattle.surface_check.specs.Machine.{MachineView};

    ghost Value = { MachineView };

    ghost view = { λ m. record { opened = m.opened; evaluator = m.evaluator; mode = m.mode } };
}

/// The word ends a call.
fn ends_measure(word: &Word<usize>) -> bool
    ensures { result ≡ steps.ends_measure word.now }
{
    match *word {
        Word::Core { word } => matches!(word, CoreWord::Call { .. }),
        _ => false,
    }
}

impl<A: Allocator> Machine<A> {
    fn new(alloc: &A) -> Result<Machine<A>, AllocError>
    where
        A: Clone,
        ensures { IfOk result (λ m. state_in m ≡ steps.Plain steps.begun) }
    {
        Ok(Machine {
            opened: Opened::new(alloc)?,
            evaluator: Evaluator::new(alloc)?,
            mode: Mode::Plain,
        })
    }

    /// A call of `len` begins: its first argument has to be the name of an array.
    fn len_begins(
        &mut self,
        table: &Table<A>,
        at: usize,
        later: &[Word<usize>],
    ) -> Result<(), Fault>
        ensures { DoesAs result (state_in self.new) (steps.measured_from (numbers_in []) (items_in table.now) self.old.opened at
            (steps.name_part (drop 1 later.now))) }
    {
        let Some(argument) = first_name(later) else {
            return must_be(false, CoreKind::Arity, at);
        };
        let Some(rank) = self.opened.rank(table, argument.name) else {
            return must_be(false, CoreKind::NoSuchName, argument.at);
        };
        self.evaluator.begin(0);
        self.mode = Mode::Measuring { at, rank };
        Ok(())
    }

    /// A call begins.
    fn call_begins<'a>(
        &mut self,
        names: &[Name<'a>],
        table: &Table<A>,
        at: usize,
        function: usize,
        strict: bool,
        later: &[Word<usize>],
    ) -> Result<(), Fault>
        requires { self.old.mode ≡ mode.Plain }
        ensures { DoesAs result (state_in self.new) (steps.calls_built_in (numbers_in []) (items_in table.now) self.old.opened at
            (steps.callee_at (numbers_in names.now) (items_in table.now) strict function) later.now) }
    {
        match table.callee(names, strict, function) {
            Callee::OfValues { params, results } => self.opened.pushed(Frame::Takes {
                params: params as u64,
                results,
            }),
            Callee::OfArrays { .. } => {
                self.mode = Mode::Passing {
                    start: self.opened.found(),
                };
                Ok(())
            }
            Callee::IsBuiltIn {
                which: BuiltIn::Min | BuiltIn::Max,
            } => self.opened.pushed(Frame::Takes {
                params: 2,
                results: 1,
            }),
            Callee::IsBuiltIn {
                which: BuiltIn::Abs,
            } => self.opened.pushed(Frame::Takes {
                params: 1,
                results: 1,
            }),
            Callee::IsBuiltIn {
                which: BuiltIn::Len,
            } => self.len_begins(table, at, later),
            Callee::Missing => must_be(false, CoreKind::NoSuchName, at),
        }
    }

    fn skips(&mut self) -> Result<(), Fault>
        ensures { DoesAs result (state_in self.new) (Ok (steps.Skipping self.old.opened)) }
    {
        self.mode = Mode::Skipping;
        Ok(())
    }

    fn core_step<'a>(
        &mut self,
        names: &[Name<'a>],
        table: &Table<A>,
        strict: bool,
        word: CoreWord<usize>,
        later: &[Word<usize>],
    ) -> Result<(), Fault>
        requires plain { self.old.mode ≡ mode.Plain }
        requires strict { strict ≡ strict_ahead later.now 0 }
        ensures { DoesAs result (state_in self.new) (steps.core_step (numbers_in names.now) (items_in table.now) self.old.opened word later.now) }
    {
        match word {
            CoreWord::Array { .. } => self.skips(),
            CoreWord::Length { .. } => Ok(()),
            CoreWord::Function { at, .. } => self.opened.function(at),
            CoreWord::Parameter { at, name }
            | CoreWord::Start { at, name }
            | CoreWord::Bind { at, name } => self.opened.bound(table, at, name),
            CoreWord::Results { at, number } => self.opened.valued(number, at, Kind::Other),
            CoreWord::Body { at } => self.opened.body(at),
            CoreWord::EndFunction => self.opened.end_function(),
            CoreWord::Number { at, .. } => self.opened.valued(1, at, Kind::Written),
            CoreWord::Name { at, name } => self.opened.name_read(table, at, name, later),
            CoreWord::Bracket => self.opened.in_brackets(),
            CoreWord::Prefix { at, op } => self.opened.prefixed(at, op),
            CoreWord::Left | CoreWord::First | CoreWord::While => self.opened.one_taken(),
            CoreWord::Infix { at, .. } | CoreWord::Store { at, .. } => {
                self.opened.operated(at, Kind::Other)
            }
            CoreWord::Cell { at, array } => self.opened.cell(table, at, array),
            CoreWord::Fetch { at, .. } => self.opened.fetched(at),
            CoreWord::Index => self.opened.indexed(),
            CoreWord::Callee { at, function } => {
                self.call_begins(names, table, at, function, strict, later)
            }
            CoreWord::Call { at, function, .. } => self.opened.call(table, at, function),
            CoreWord::Then => self.opened.first_arm(),
            CoreWord::Else => self.opened.second_arm(),
            CoreWord::EndIf { at } => self.opened.end_if(at),
            CoreWord::Bound { at, bound } => self.opened.bounded(at, bound),
            CoreWord::TestFirst | CoreWord::BodyFirst => self.opened.turned(),
            CoreWord::Until => self.opened.until(),
            CoreWord::EndLoop { at, .. } => self.opened.end_loop(table, at),
            CoreWord::List => self.opened.pushed(Frame::List { sum: 0 }),
            CoreWord::Part => self.opened.part(),
            CoreWord::Loop { .. } | CoreWord::Let { .. } => self.opened.names_begin(),
            CoreWord::Drop => self.opened.dropped(),
            CoreWord::EndLet { at } => self.opened.end_let(at),
            CoreWord::Do => self.opened.done(),
            CoreWord::Give => self.opened.give(),
            CoreWord::Chain => self.opened.chained(),
        }
    }

    fn plain_step<'a>(
        &mut self,
        names: &[Name<'a>],
        table: &Table<A>,
        strict: bool,
        word: Word<usize>,
        later: &[Word<usize>],
    ) -> Result<(), Fault>
        requires plain { self.old.mode ≡ mode.Plain }
        requires strict { strict ≡ strict_ahead later.now 0 }
        ensures { DoesAs result (state_in self.new) (steps.plain_step (numbers_in names.now) (items_in table.now) self.old.opened word later.now) }
    {
        match word {
            Word::Core { word } => self.core_step(names, table, strict, word, later),
            Word::EndArray | Word::EndConstant => Ok(()),
            Word::Constant { .. } => self.skips(),
            Word::ArrayParameter { at, name, rank } => {
                self.opened.array_bound(table, at, name, rank as u64)
            }
            Word::ConstantResults { at, name } => self.opened.constant_results(table, at, name),
            Word::AndThen | Word::OrElse | Word::Range => self.opened.one_taken(),
            Word::EndAnd { at } | Word::EndOr { at } | Word::Not { at } => {
                self.opened.operated(at, Kind::Other)
            }
            Word::NextIndex => self.opened.next_index(),
            Word::ConstantBound { at, name } => self.opened.bounded_by(table, at, name),
            Word::EndConstantLoop { at, .. } => self.opened.end_loop(table, at),
            Word::For { .. } => self.opened.names_begin(),
            Word::Counter { at, name } => self.opened.bound(table, at, name),
            Word::EndRange => self.opened.range_ends(),
            Word::Turns => self.opened.turned(),
            Word::EndFor { at } => self.opened.end_for(table, at),
            Word::EndWhen { .. } => self.opened.end_when(),
            Word::When => self.opened.done(),
        }
    }

    fn passing(&mut self, start: usize) -> Result<(), Fault>
        ensures { DoesAs result (state_in self.new) (steps.plain (steps.pushed self.old.opened (frame.Passes start))) }
    {
        self.mode = Mode::Plain;
        self.opened.pushed(Frame::Passes { start })
    }

    fn measuring(
        &mut self,
        table: &Table<A>,
        at: usize,
        rank: u64,
        word: Word<usize>,
    ) -> Result<(), Fault>
        requires { self.old.mode ≡ mode.Measuring at rank }
        ensures { (t : heads.Names ℕ) → (later : List (Word ℕ)) → DoesAs result (state_in self.new)
            (steps.step t (items_in table.now) (steps.Measuring self.old.opened at rank self.old.evaluator) word later) }
    {
        if ends_measure(&word) && self.evaluator.depth() == 1 {
            self.mode = Mode::Plain;
            self.opened.measured(at, rank, self.evaluator.parts())
        } else {
            self.evaluator.step(table, word)
        }
    }

    fn skipping(&mut self, word: &Word<usize>)
        requires { self.old.mode ≡ mode.Skipping }
        ensures { state_in self.new ≡ (if heads.ends_item word.now then steps.Plain self.old.opened else steps.Skipping self.old.opened) }
    {
        if ends_item(word) {
            self.mode = Mode::Plain;
        }
    }

    /// One word, where it is known whether the call is strict that begins at it if one does.
    fn step<'a>(
        &mut self,
        names: &[Name<'a>],
        table: &Table<A>,
        strict: bool,
        word: Word<usize>,
        later: &[Word<usize>],
    ) -> Result<(), Fault>
        requires { strict ≡ strict_ahead later.now 0 }
        ensures { DoesAs result (state_in self.new) (steps.step (numbers_in names.now) (items_in table.now) (state_in self.old) word later.now) }
    {
        match self.mode {
            Mode::Plain => self.plain_step(names, table, strict, word, later),
            Mode::Passing { start } => self.passing(start),
            Mode::Measuring { at, rank } => self.measuring(table, at, rank, word),
            Mode::Skipping => {
                self.skipping(&word);
                Ok(())
            }
        }
    }
}

/// Goes over the words of all items.
pub(crate) fn check_functions<'a, A: Allocator + Clone>(
    alloc: &A,
    names: &[Name<'a>],
    table: &Table<A>,
    words: &[Word<usize>],
) -> Result<(), Fault>
    ensures { Ends result (steps.steps (numbers_in names.now) (items_in table.now) (steps.Plain steps.begun) words.now) }
{
    let Ok(mut ahead) = Ahead::new(alloc, words) else {
        return Err(OUT_OF_MEMORY);
    };
    let Ok(mut machine) = Machine::new(alloc) else {
        return Err(OUT_OF_MEMORY);
    };
    for index in 0..words.len() {
        let strict = ahead.pop();
        machine.step(names, table, strict, words[index], &words[index + 1..])?;
    }
    Ok(())
}
