//! The steps over the words of functions.

ghost use Rattle.std.specs.Prelude.{◌≡◌, ◌∷◌, [], ◌+◌, ◌⊎◌, ℕ, nat_le, List, Option, Ok, Err, IfOk, OnOk, MatchResult, IsOk, length, drop};
ghost use Rattle.source_check.specs.declared.frame.Entry.{Entry};
ghost use Rattle.source_check.specs.declared.frame.Frame.TheVariants as frame;
ghost use Rattle.source_check.specs.Steps as steps;
ghost use Rattle.source_check.specs.Stack.{DoesAs, out_of_memory, numbers};

use crate::bindings::{Bindings, Frames};
use crate::frame::{Entry, Frame, Turn, Values};
use crate::table::{OUT_OF_MEMORY, Table, must};
use source::fault::{Fault, FaultKind};
use source::word::Word;
use std::alloc::{AllocError, Allocator};
use std::marker::Model;

/// What is open at a word.
#[derive(Drop)]
pub(crate) struct Machine<A: Allocator> {
    scope: Bindings<A>,
    pending: Bindings<A>,
    used: Bindings<A>,
    /// Names on their way from a turn to the one around it.
    carried: Bindings<A>,
    turn: Turn,
    frames: Frames<A>,
    last: Values,
}

impl<A: Allocator> Model for Machine<A> {
    ghost use Rattle.std.specs.Prelude.{ℕ};
    ghost use Rattle.source_check.specs.Steps.{State};

    ghost Value = { State ℕ };

    ghost view = { λ m. record { scope = m.scope; pending = m.pending; used = m.used; turn = m.turn; frames = m.frames; last = m.last } };
}

/// A name is used: it is one of the outside names of the innermost turn, unless the turn binds it.
fn note<A: Allocator>(
    scope: &Bindings<A>,
    used: &mut Bindings<A>,
    turn: Turn,
    name: usize,
) -> Result<(), AllocError>
    ensures { OnOk result (used.new ≡ steps.noted (numbers []) (steps.since turn.base scope.now) turn.start used.old name) }
{
    if scope.contains_since(name, turn.base) || used.contains_since(name, turn.start) {
        return Ok(());
    }
    used.push(name)
}

/// All of the names are used.
fn note_all<A: Allocator>(
    scope: &Bindings<A>,
    used: &mut Bindings<A>,
    turn: Turn,
    names: &mut Bindings<A>,
) -> Result<(), AllocError>
    ensures { OnOk result (used.new ≡ steps.all_noted (numbers []) (steps.since turn.base scope.now) turn.start used.old names.old) }
{
    while names.len() > 0 {
        if let Some(name) = names.pop() {
            note(scope, used, turn, name)?;
        }
    }
    Ok(())
}

/// A loop's names and the outside names of its turns are at most 15.
fn is_narrow(names: u64, outside: usize) -> bool
    ensures { result ≡ nat_le (names + outside) 15 }
{
    names <= 15 && outside as u64 <= 15 - names
}

impl<A: Allocator> Machine<A> {
    pub(crate) fn new(alloc: &A) -> Result<Machine<A>, AllocError>
    where
        A: Clone,
        ensures { IfOk result (λ m. m ≡ steps.begun) }
    {
        Ok(Machine {
            scope: Bindings::new(alloc)?,
            pending: Bindings::new(alloc)?,
            used: Bindings::new(alloc)?,
            carried: Bindings::new(alloc)?,
            turn: Turn { base: 0, start: 0 },
            frames: Frames::new(alloc.clone()?),
            last: Values { count: 0, at: 0 },
        })
    }

    /// The last part has so many values, and is there.
    fn ended(&mut self, count: u64, at: usize)
        ensures { self.new ≡ steps.ended self.old count at }
    {
        self.last = Values { count, at };
    }

    /// The last part must have one value.
    fn single(&self) -> Result<(), Fault>
        ensures { result ≡ steps.single self.now.last }
    {
        must(self.last.count == 1, FaultKind::Arity, self.last.at)
    }

    fn pushed(&mut self, frame: Frame) -> Result<(), Fault>
        ensures { DoesAs result self.new (Ok (steps.pushed self.old frame)) }
    {
        let Ok(()) = self.frames.push(frame) else {
            return Err(OUT_OF_MEMORY);
        };
        Ok(())
    }

    fn popped(&mut self) -> Option<Frame>
        ensures frame { result ≡ steps.top self.old.frames }
        ensures rest { self.new ≡ steps.popped self.old }
    {
        self.frames.pop()
    }

    fn one_taken(&mut self) -> Result<(), Fault>
        ensures { DoesAs result self.new (steps.one_taken self.old) }
    {
        self.single()?;
        self.ended(0, 0);
        Ok(())
    }

    fn operated(&mut self, at: usize) -> Result<(), Fault>
        ensures { DoesAs result self.new (steps.operated self.old at) }
    {
        self.single()?;
        self.ended(1, at);
        Ok(())
    }

    fn named(&mut self, table: &Table<A>, at: usize, name: usize) -> Result<(), Fault>
        ensures { DoesAs result self.new (steps.named (numbers table.now) self.old at name) }
    {
        must(self.scope.contains(name), FaultKind::NoSuchName, at)?;
        let Ok(()) = note(&self.scope, &mut self.used, self.turn, name) else {
            return Err(OUT_OF_MEMORY);
        };
        self.ended(1, at);
        Ok(())
    }

    fn cell(&mut self, table: &Table<A>, at: usize, array: usize) -> Result<(), Fault>
        ensures { DoesAs result self.new (steps.cell (numbers table.now) self.old at array) }
    {
        match table.get(array) {
            Some(Entry::Array) => Ok(()),
            Some(Entry::Function { .. }) | None => Err(Fault {
                kind: FaultKind::NoSuchName,
                at,
            }),
        }
    }

    fn callee(&mut self, table: &Table<A>, at: usize, function: usize) -> Result<(), Fault>
        ensures { DoesAs result self.new (steps.callee (numbers table.now) self.old at function) }
    {
        match table.get(function) {
            Some(Entry::Function { .. }) => Ok(()),
            Some(Entry::Array) | None => Err(Fault {
                kind: FaultKind::NoSuchName,
                at,
            }),
        }
    }

    fn part(&mut self) -> Result<(), Fault>
        ensures { DoesAs result self.new (steps.part (steps.popped self.old) (steps.top self.old.frames)) }
    {
        match self.popped() {
            Some(Frame::List { sum }) => {
                let Some(sum) = sum.checked_add(self.last.count) else {
                    return Err(OUT_OF_MEMORY);
                };
                self.ended(0, 0);
                self.pushed(Frame::List { sum })
            }
            _ => Ok(()),
        }
    }

    fn call(&mut self, table: &Table<A>, at: usize, function: usize) -> Result<(), Fault>
        ensures { DoesAs result self.new (steps.call (numbers table.now) (steps.popped self.old) at function (steps.top self.old.frames)) }
    {
        match self.popped() {
            Some(Frame::List { sum }) => match table.get(function) {
                Some(Entry::Function { params, results }) => {
                    must(sum == params as u64, FaultKind::Arity, at)?;
                    self.ended(results, at);
                    Ok(())
                }
                Some(Entry::Array) | None => Err(Fault {
                    kind: FaultKind::NoSuchName,
                    at,
                }),
            },
            _ => Ok(()),
        }
    }

    fn give(&mut self) -> Result<(), Fault>
        ensures { DoesAs result self.new (steps.give (steps.popped self.old) (steps.top self.old.frames)) }
    {
        match self.popped() {
            Some(Frame::List { sum }) => {
                self.ended(sum, 0);
                Ok(())
            }
            _ => Ok(()),
        }
    }

    fn bound(&mut self, table: &Table<A>, at: usize, name: usize) -> Result<(), Fault>
        ensures { DoesAs result self.new (steps.bound (numbers table.now) (steps.popped self.old) at name (steps.top self.old.frames)) }
    {
        match self.popped() {
            Some(Frame::Names { start, targets }) => {
                let new = table.get(name).is_none() && !self.pending.contains_since(name, start);
                must(new, FaultKind::SameName, at)?;
                let Ok(()) = self.pending.push(name) else {
                    return Err(OUT_OF_MEMORY);
                };
                let Some(targets) = targets.checked_add(1) else {
                    return Err(OUT_OF_MEMORY);
                };
                self.pushed(Frame::Names { start, targets })
            }
            _ => Ok(()),
        }
    }

    fn dropped(&mut self) -> Result<(), Fault>
        ensures { DoesAs result self.new (steps.dropped (steps.popped self.old) (steps.top self.old.frames)) }
    {
        match self.popped() {
            Some(Frame::Names { start, targets }) => {
                let Some(targets) = targets.checked_add(1) else {
                    return Err(OUT_OF_MEMORY);
                };
                self.pushed(Frame::Names { start, targets })
            }
            _ => Ok(()),
        }
    }

    /// The pending names from `start` on enter the scope.
    fn entered(&mut self, start: usize) -> Result<(), Fault>
        ensures { DoesAs result self.new (Ok (steps.entered self.old start)) }
    {
        let Ok(()) = self.pending.moves(&mut self.scope, start) else {
            return Err(OUT_OF_MEMORY);
        };
        Ok(())
    }

    fn let_ends(&mut self, at: usize, sum: u64) -> Result<(), Fault>
        ensures { DoesAs result self.new (steps.let_ends (steps.popped self.old) at sum (steps.top self.old.frames)) }
    {
        match self.popped() {
            Some(Frame::Names { start, targets }) => {
                must(sum == targets, FaultKind::Arity, at)?;
                self.entered(start)
            }
            _ => Ok(()),
        }
    }

    fn end_let(&mut self, at: usize) -> Result<(), Fault>
        ensures { DoesAs result self.new (steps.end_let (steps.popped self.old) at (steps.top self.old.frames)) }
    {
        match self.popped() {
            Some(Frame::List { sum }) => self.let_ends(at, sum),
            _ => Ok(()),
        }
    }

    fn first_arm(&mut self) -> Result<(), Fault>
        ensures { DoesAs result self.new (steps.first_arm self.old) }
    {
        self.single()?;
        self.ended(0, 0);
        let mark = self.scope.len();
        self.pushed(Frame::First { mark })
    }

    fn second_arm(&mut self) -> Result<(), Fault>
        ensures { DoesAs result self.new (steps.second_arm (steps.popped self.old) (steps.top self.old.frames)) }
    {
        match self.popped() {
            Some(Frame::First { mark }) => {
                let left = self.last.count;
                self.scope.truncate(mark);
                self.ended(0, 0);
                self.pushed(Frame::Second { mark, left })
            }
            _ => Ok(()),
        }
    }

    fn end_if(&mut self, at: usize) -> Result<(), Fault>
        ensures { DoesAs result self.new (steps.end_if (steps.popped self.old) at (steps.top self.old.frames)) }
    {
        match self.popped() {
            Some(Frame::Second { mark, left }) => {
                must(left == self.last.count, FaultKind::Arity, at)?;
                self.scope.truncate(mark);
                self.ended(left, at);
                Ok(())
            }
            _ => Ok(()),
        }
    }

    fn bounded(&mut self, at: usize, bound: u64) -> Result<(), Fault>
        ensures { DoesAs result self.new (steps.bounded self.old at bound) }
    {
        must(2 <= bound && bound <= 64, FaultKind::BadBound, at)?;
        let start = self.pending.len();
        self.pushed(Frame::Names { start, targets: 0 })
    }

    fn turned(&mut self) -> Result<(), Fault>
        ensures { DoesAs result self.new (steps.turned (steps.popped self.old) (steps.top self.old.frames)) }
    {
        match self.popped() {
            Some(Frame::Names { start, targets }) => {
                let outer = self.turn;
                let base = self.scope.len();
                self.entered(start)?;
                self.turn = Turn {
                    base,
                    start: self.used.len(),
                };
                let mark = self.scope.len();
                self.pushed(Frame::Open {
                    outer,
                    names: targets,
                    mark,
                })
            }
            _ => Ok(()),
        }
    }

    fn until(&mut self) -> Result<(), Fault>
        ensures { DoesAs result self.new (steps.until (steps.popped self.old) (steps.top self.old.frames)) }
    {
        match self.popped() {
            Some(Frame::Open { outer, names, mark }) => {
                let given = self.last.count;
                self.scope.truncate(mark);
                self.ended(0, 0);
                self.pushed(Frame::Tested {
                    outer,
                    names,
                    given,
                })
            }
            _ => Ok(()),
        }
    }

    /// The turn is left: what it takes from outside is used in the turn around it.
    fn left_turn(&mut self, outer: Turn) -> Result<(), Fault>
        ensures { DoesAs result self.new (Ok (steps.left_turn (numbers []) self.old outer)) }
    {
        self.carried.clear();
        let Ok(()) = self.used.moves(&mut self.carried, self.turn.start) else {
            return Err(OUT_OF_MEMORY);
        };
        self.scope.truncate(self.turn.base);
        self.turn = outer;
        let Ok(()) = note_all(&self.scope, &mut self.used, self.turn, &mut self.carried) else {
            return Err(OUT_OF_MEMORY);
        };
        Ok(())
    }

    fn closed(&mut self, at: usize, outer: Turn, names: u64, given: u64) -> Result<(), Fault>
        ensures { DoesAs result self.new (steps.closed (numbers []) self.old at outer names given) }
    {
        must(given == names, FaultKind::Arity, at)?;
        let outside = self.used.len_since(self.turn.start);
        must(is_narrow(names, outside), FaultKind::TooWide, at)?;
        self.left_turn(outer)?;
        self.ended(given, at);
        Ok(())
    }

    fn end_loop(&mut self, at: usize) -> Result<(), Fault>
        ensures { DoesAs result self.new (steps.end_loop (numbers []) (steps.popped self.old) at (steps.top self.old.frames)) }
    {
        match self.popped() {
            Some(Frame::Open { outer, names, .. }) => {
                let given = self.last.count;
                self.closed(at, outer, names, given)
            }
            Some(
                Frame::Tested {
                    outer,
                    names,
                    given,
                },
            ) => {
                self.single()?;
                self.closed(at, outer, names, given)
            }
            _ => Ok(()),
        }
    }

    fn function(&mut self, at: usize) -> Result<(), Fault>
        ensures { DoesAs result self.new (Ok (steps.function self.old at)) }
    {
        let start = self.pending.len();
        self.pushed(Frame::Names { start, targets: 0 })?;
        self.ended(1, at);
        Ok(())
    }

    fn names(&mut self) -> Result<(), Fault>
        ensures { DoesAs result self.new (Ok (steps.pushed self.old (frame.Names (length self.old.pending) 0))) }
    {
        let start = self.pending.len();
        self.pushed(Frame::Names { start, targets: 0 })
    }

    fn body(&mut self, at: usize) -> Result<(), Fault>
        ensures { DoesAs result self.new (steps.body (steps.popped self.old) at (steps.top self.old.frames)) }
    {
        match self.popped() {
            Some(Frame::Names { start, .. }) => {
                self.entered(start)?;
                let results = self.last.count;
                self.pushed(Frame::Body { results, at })
            }
            _ => Ok(()),
        }
    }

    fn end_function(&mut self) -> Result<(), Fault>
        ensures { DoesAs result self.new (steps.end_function (steps.popped self.old) (steps.top self.old.frames)) }
    {
        match self.popped() {
            Some(Frame::Body { results, at }) => {
                must(self.last.count == results, FaultKind::Arity, at)?;
                self.scope.clear();
                self.used.clear();
                self.ended(0, 0);
                Ok(())
            }
            _ => Ok(()),
        }
    }

    fn chained(&mut self) -> Result<(), Fault>
        ensures { DoesAs result self.new (Ok (steps.ended self.old self.old.last.count 0)) }
    {
        let count = self.last.count;
        self.ended(count, 0);
        Ok(())
    }

    fn done(&mut self) -> Result<(), Fault>
        ensures { DoesAs result self.new (Ok (steps.popped self.old)) }
    {
        self.popped();
        Ok(())
    }

    fn valued(&mut self, count: u64, at: usize) -> Result<(), Fault>
        ensures { DoesAs result self.new (Ok (steps.ended self.old count at)) }
    {
        self.ended(count, at);
        Ok(())
    }

    /// One word.
    #[tactic(auto, using(crate::proofs::Places::end_loop_alike))]
    pub(crate) fn step(&mut self, table: &Table<A>, word: Word<usize>) -> Result<(), Fault>
        ensures { DoesAs result self.new (steps.step (numbers table.now) self.old word) }
    {
        match word {
            Word::Array { .. } | Word::Length { .. } => Ok(()),
            Word::Function { at, .. } => self.function(at),
            Word::Parameter { at, name } => self.bound(table, at, name),
            Word::Results { at, number } => self.valued(number, at),
            Word::Body { at } => self.body(at),
            Word::EndFunction => self.end_function(),
            Word::Number { at, .. } => self.valued(1, at),
            Word::Name { at, name } => self.named(table, at, name),
            Word::Bracket => Ok(()),
            Word::Prefix { at, .. } => self.operated(at),
            Word::Left => self.one_taken(),
            Word::Infix { at, .. } => self.operated(at),
            Word::Cell { at, array } => self.cell(table, at, array),
            Word::Fetch { at, .. } => self.operated(at),
            Word::Index => self.one_taken(),
            Word::Store { at, .. } => self.operated(at),
            Word::Callee { at, function } => self.callee(table, at, function),
            Word::Call { at, function, .. } => self.call(table, at, function),
            Word::Then => self.first_arm(),
            Word::Else => self.second_arm(),
            Word::EndIf { at } => self.end_if(at),
            Word::Loop { .. } => Ok(()),
            Word::Bound { at, bound } => self.bounded(at, bound),
            Word::Start { at, name } => self.bound(table, at, name),
            Word::First => self.one_taken(),
            Word::TestFirst => self.turned(),
            Word::While => self.one_taken(),
            Word::BodyFirst => self.turned(),
            Word::Until => self.until(),
            Word::EndLoop { at, .. } => self.end_loop(at),
            Word::List => self.pushed(Frame::List { sum: 0 }),
            Word::Part => self.part(),
            Word::Let { .. } => self.names(),
            Word::Bind { at, name } => self.bound(table, at, name),
            Word::Drop => self.dropped(),
            Word::EndLet { at } => self.end_let(at),
            Word::Do => self.done(),
            Word::Give => self.give(),
            Word::Chain => self.chained(),
        }
    }
}

/// Goes over the words of all functions.
pub(crate) fn check_functions<A: Allocator + Clone>(
    alloc: &A,
    table: &Table<A>,
    words: &[Word<usize>],
) -> Result<(), Fault>
    ensures { MatchResult result (λ u. IsOk (steps.steps (numbers table.now) steps.begun words.now))
        (λ f. (f ≡ out_of_memory) ⊎ (steps.steps (numbers table.now) steps.begun words.now ≡ Err f)) }
{
    let Ok(mut machine) = Machine::new(alloc) else {
        return Err(OUT_OF_MEMORY);
    };
    for &word in words {
        machine.step(table, word)?;
    }
    Ok(())
}
