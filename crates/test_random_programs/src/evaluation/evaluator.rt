//! One pass over a program, word by word.

use crate::evaluation::layout::Layout;
use crate::evaluation::memory::Memory;
use operators::{Binary, apply1, apply2_at, truth};
use source::word::{InfixSign, Word};
use std::alloc::{AllocError, Global};
use tags::value::{FaultKind, Origin, Value};

/// Whether the region that is evaluated has begun. Its literals arrive with its first input.
#[derive(Clone, Copy, PartialEq, Eq)]
enum Here {
    Begun,
    /// The first input has not arrived, and literals wait for it.
    Waits,
    /// The predicate around it has not arrived: nothing is known in it.
    Dark,
}

/// A name that stands for a value, or for one that waits.
#[derive(Clone, Copy)]
struct Bound {
    name: usize,
    value: Option<Value>,
}

#[derive(Clone, Copy)]
enum Part {
    Arm,
    /// A call: the place after it, and the number of names that the caller does not see.
    Call {
        back: usize,
        base: usize,
    },
    /// A loop: the place where a turn begins, and its names, which are so many of the list from a place on.
    Loop {
        turn: usize,
        from: usize,
        count: usize,
    },
}

/// A part that has begun, and what was so before.
#[derive(Clone, Copy)]
struct Around {
    part: Part,
    names: usize,
    here: Here,
}

/// The arguments that a call waits for.
#[derive(Clone, Copy)]
enum Awaited {
    Any,
    All,
}

/// An evaluation. What waits has no value.
#[derive(Drop)]
pub struct Evaluator<'a> {
    layout: &'a Layout<'a>,
    /// The origin of a fault that is made at a place of the text.
    origins: &'a [Origin],
    pub memory: Memory,
    pub values: Vec<Option<Value>>,
    scope: Vec<Bound>,
    /// How many names a function does not see.
    base: usize,
    here: Here,
    around: Vec<Around>,
    /// How many values there were when a list began, and how many names when a loop began.
    marks: Vec<usize>,
    /// The targets of a `let` and the names of loops.
    targets: Vec<Option<usize>>,
}

/// The operator's result, over the operands in the order of the text.
fn operated(sign: InfixSign, left: Value, right: Value, origin: Origin) -> Value {
    match sign {
        InfixSign::Direct { op } => apply2_at(op, left, right, origin),
        InfixSign::Greater => apply2_at(Binary::Lt, right, left, origin),
        InfixSign::AtLeast => apply2_at(Binary::Le, right, left, origin),
    }
}

/// Whether a test is known and true.
fn is_true(test: Option<Value>) -> bool {
    match test {
        Some(value) => truth(value),
        None => false,
    }
}

/// A number in two's complement.
fn signed(number: u64) -> Value {
    Value::Int(number.cast_signed())
}

impl<'a> Evaluator<'a> {
    pub fn new(
        alloc: Global,
        layout: &'a Layout<'a>,
        origins: &'a [Origin],
        memory: Memory,
    ) -> Evaluator<'a> {
        Evaluator {
            layout,
            origins,
            memory,
            values: Vec::new(alloc),
            scope: Vec::new(alloc),
            base: 0,
            here: Here::Begun,
            around: Vec::new(alloc),
            marks: Vec::new(alloc),
            targets: Vec::new(alloc),
        }
    }

    /// Forgets all but the memory.
    pub fn begin(&mut self) {
        self.memory.begin();
        self.values.clear();
        self.scope.clear();
        self.base = 0;
        self.here = Here::Begun;
        self.around.clear();
        self.marks.clear();
        self.targets.clear();
    }

    /// Begins to evaluate `main`, at its body.
    pub fn enter_main(&mut self, first_param: usize, inputs: &[i64]) -> Result<(), AllocError> {
        for (i, input) in inputs.iter().enumerate() {
            let name = self.param(first_param, i);
            self.bind(name, Some(Value::Int(*input)))?;
        }
        Ok(())
    }

    fn param(&self, first: usize, place: usize) -> usize {
        let place = first.wrapping_add(place);
        self.layout.params.get(place).copied().unwrap_or(0)
    }

    fn bind(&mut self, name: usize, value: Option<Value>) -> Result<(), AllocError> {
        Ok(self.scope.push(Bound { name, value })?)
    }

    /// What a name stands for.
    fn named(&self, name: usize) -> Option<Value> {
        if self.here == Here::Dark {
            return None;
        }
        for bound in self.scope.get(self.base..)?.iter().rev() {
            if bound.name == name {
                return bound.value;
            }
        }
        None
    }

    fn origin(&self, at: usize) -> Origin {
        self.origins.get(at).copied().unwrap_or(Origin::Untold)
    }

    fn pop(&mut self) -> Option<Value> {
        self.values.pop().unwrap_or(None)
    }

    /// The value at a place of the stack.
    fn value_at(&self, place: usize) -> Option<Value> {
        self.values.get(place).copied().unwrap_or(None)
    }

    /// The cell that an index names in an array, or the fault that stands for it.
    fn cell(&self, array: usize, index: Value, at: usize) -> Result<u64, Value> {
        let outside = Value::Fault {
            kind: FaultKind::Range,
            origin: self.origin(at),
        };
        let Some(array) = self.layout.array(array) else {
            return Err(outside);
        };
        match index {
            Value::Fault { .. } => Err(index),
            Value::Int(number) => match u64::try_from(number) {
                Ok(number) if number < array.len => Ok(array.first.wrapping_add(number)),
                _ => Err(outside),
            },
        }
    }

    fn fetch(&mut self, array: usize, at: usize) -> Option<Value> {
        let index = self.pop()?;
        match self.cell(array, index, at) {
            Ok(cell) => self.memory.fetch(cell),
            Err(fault) => Some(fault),
        }
    }

    fn store(&mut self, array: usize, at: usize) -> Option<Value> {
        let stored = self.pop();
        let index = self.pop()?;
        match self.cell(array, index, at) {
            Ok(cell) => self.memory.store(cell, stored),
            Err(fault) => match stored {
                Some(_) => Some(fault),
                None => None,
            },
        }
    }

    fn infix(&mut self, sign: InfixSign, at: usize) -> Option<Value> {
        let right = self.pop();
        let left = self.pop()?;
        Some(operated(sign, left, right?, self.origin(at)))
    }

    /// Evaluates a word that has one value.
    fn operand(&mut self, word: Word<usize>) -> Result<(), AllocError> {
        let value = match word {
            Word::Number { number, .. } if self.here == Here::Begun => Some(signed(number)),
            Word::Number { .. } => None,
            Word::Name { name, .. } => self.named(name),
            Word::Prefix { op, .. } => match self.pop() {
                Some(value) => Some(apply1(op, value)),
                None => None,
            },
            Word::Infix { at, sign } => self.infix(sign, at),
            Word::Fetch { at, array } => self.fetch(array, at),
            Word::Store { at, array } => self.store(array, at),
            _ => return Ok(()),
        };
        Ok(self.values.push(value)?)
    }

    /// Does what a word of a list or of a statement does.
    fn statement(&mut self, word: Word<usize>) -> Result<(), AllocError> {
        match word {
            Word::List => Ok(self.marks.push(self.values.len())?),
            Word::Loop { .. } => Ok(self.marks.push(self.targets.len())?),
            Word::Bind { name, .. } | Word::Start { name, .. } => Ok(
                self.targets.push(Some(name))?,
            ),
            Word::Drop => Ok(self.targets.push(None)?),
            Word::EndLet { .. } => {
                let values = self.marks.pop().unwrap_or(0);
                let count = self.values.len().saturating_sub(values);
                let from = self.targets.len().saturating_sub(count);
                self.bind_all(from, count)?;
                self.targets.truncate(from);
                Ok(())
            }
            Word::Do => {
                let values = self.marks.pop().unwrap_or(0);
                self.values.truncate(values);
                Ok(())
            }
            Word::Give => {
                self.marks.pop();
                Ok(())
            }
            _ => Ok(()),
        }
    }

    /// Gives the last `count` values to as many targets.
    fn bind_all(&mut self, from: usize, count: usize) -> Result<(), AllocError> {
        let first = self.values.len().saturating_sub(count);
        for i in 0..count {
            let value = self.value_at(first.wrapping_add(i));
            if let Some(Some(name)) = self.targets.get(from.wrapping_add(i)).copied() {
                self.bind(name, value)?;
            }
        }
        self.values.truncate(first);
        Ok(())
    }

    fn enter(&mut self, part: Part) -> Result<(), AllocError> {
        self.around.push(Around {
            part,
            names: self.scope.len(),
            here: self.here,
        })?;
        Ok(())
    }

    /// Leaves the innermost part.
    fn leave(&mut self) -> Option<Part> {
        let around = self.around.pop()?;
        self.scope.truncate(around.names);
        self.here = around.here;
        Some(around.part)
    }

    /// Begins the arm at a place, which is taken.
    fn begin_arm(&mut self, place: usize) {
        let begun = match self.layout.beginning(place).outside {
            Some(name) => self.named(name).is_some(),
            None => true,
        };
        self.here = if begun { Here::Begun } else { Here::Waits };
    }

    /// Goes into an arm, or after a conditional. Gives the place of the next word.
    fn choose(&mut self, place: usize, word: Word<usize>) -> Result<usize, AllocError> {
        match word {
            Word::Then => {
                let predicate = self.pop();
                self.enter(Part::Arm)?;
                let other = self.layout.beginning(place).end;
                Ok(match predicate {
                    None => {
                        self.here = Here::Dark;
                        place.wrapping_add(1)
                    }
                    Some(value) if truth(value) => {
                        self.begin_arm(place);
                        place.wrapping_add(1)
                    }
                    Some(_) => {
                        self.begin_arm(other);
                        other.wrapping_add(1)
                    }
                })
            }
            Word::Else => Ok(self.layout.beginning(place).end),
            _ => {
                self.leave();
                Ok(place.wrapping_add(1))
            }
        }
    }

    /// The place where a turn of the innermost loop begins, and its names.
    fn loop_around(&self) -> (usize, usize, usize) {
        match self.around.last() {
            Some(
                Around {
                    part: Part::Loop { turn, from, count },
                    ..
                },
            ) => (*turn, *from, *count),
            _ => (0, 0, 0),
        }
    }

    /// The names of the innermost loop stand for the last values from now on.
    fn rename(&mut self) -> Result<(), AllocError> {
        let (_turn, from, count) = self.loop_around();
        if let Some(around) = self.around.last() {
            self.scope.truncate(around.names);
        }
        self.bind_all(from, count)
    }

    /// Begins a turn: its literals arrive with its first name.
    fn begin_turn(&mut self) {
        let Some(around) = self.around.last() else {
            return;
        };
        if self.here == Here::Dark {
            return;
        }
        let is_there = match self.scope.get(around.names) {
            Some(first) => first.value.is_some(),
            None => false,
        };
        self.here = if is_there { Here::Begun } else { Here::Waits };
    }

    /// Ends the innermost loop: it gives what its names stand for, where the test is known. Gives the place after it.
    fn end_loop(&mut self, test: &Option<Value>) -> Result<usize, AllocError> {
        let (turn, from, count) = self.loop_around();
        let names = match self.around.last() {
            Some(around) => around.names,
            None => 0,
        };
        for i in 0..count {
            let value = match self.scope.get(names.wrapping_add(i)) {
                Some(bound) if test.is_some() => bound.value,
                _ => None,
            };
            self.values.push(value)?;
        }
        self.targets.truncate(from);
        self.leave();
        Ok(self.layout.beginning(turn).end.wrapping_add(1))
    }

    /// Goes on in a loop. Gives the place of the next word.
    fn turn(&mut self, place: usize, word: Word<usize>) -> Result<usize, AllocError> {
        let next = place.wrapping_add(1);
        match word {
            Word::TestFirst | Word::BodyFirst => {
                let from = self.marks.pop().unwrap_or(0);
                let count = self.targets.len().saturating_sub(from);
                self.enter(Part::Loop {
                    turn: place,
                    from,
                    count,
                })?;
                self.rename()?;
                self.begin_turn();
                Ok(next)
            }
            Word::While => {
                let test = self.pop();
                if is_true(test) {
                    self.begin_arm(place);
                    return Ok(next);
                }
                self.end_loop(&test)
            }
            Word::Until => {
                self.rename()?;
                Ok(next)
            }
            _ => self.end_turn(),
        }
    }

    /// Ends a turn: the next one begins, or the loop ends.
    fn end_turn(&mut self) -> Result<usize, AllocError> {
        let (turn, _from, _count) = self.loop_around();
        if let Some(Word::TestFirst) = self.layout.words.get(turn) {
            self.rename()?;
        } else {
            let test = self.pop();
            if !is_true(test) {
                return self.end_loop(&test);
            }
        }
        self.begin_turn();
        Ok(turn.wrapping_add(1))
    }

    /// Whether there are the arguments that a call waits for. They are the values from `first` on.
    fn has_arguments(&self, first: usize, awaited: Awaited) -> bool {
        let arguments = self.values.get(first..).unwrap_or(&[]);
        match awaited {
            Awaited::Any => arguments.iter().any(|value| value.is_some()),
            Awaited::All => {
                !arguments.is_empty() && arguments.iter().all(|value| value.is_some())
            }
        }
    }

    /// Goes into a function, or after the call where it waits for arguments. Gives the place of the next word.
    fn call(&mut self, next: usize, awaited: Awaited, name: usize) -> Result<usize, AllocError> {
        let first = self.marks.pop().unwrap_or(0);
        let Some(function) = self.layout.function(name) else {
            return Ok(next);
        };
        if !self.has_arguments(first, awaited) {
            self.values.truncate(first);
            for _ in 0..function.results {
                self.values.push(None)?;
            }
            return Ok(next);
        }
        self.enter(Part::Call {
            back: next,
            base: self.base,
        })?;
        self.base = self.scope.len();
        for i in 0..function.params {
            let name = self.param(function.first_param, i);
            let value = self.value_at(first.wrapping_add(i));
            self.bind(name, value)?;
        }
        let begun = self.value_at(first).is_some();
        self.here = if begun { Here::Begun } else { Here::Waits };
        self.values.truncate(first);
        Ok(function.body)
    }

    /// Goes back after the call of a function; `None` where it was `main` that ends.
    fn come_back(&mut self) -> Option<usize> {
        match self.leave()? {
            Part::Call { back, base } => {
                self.base = base;
                Some(back)
            }
            Part::Arm | Part::Loop { .. } => None,
        }
    }

    /// Evaluates a word. Gives the place of the next one; `None` where `main` ends.
    pub fn step(&mut self, place: usize) -> Result<Option<usize>, AllocError> {
        let Some(word) = self.layout.words.get(place).copied() else {
            return Ok(None);
        };
        let next = place.wrapping_add(1);
        match word {
            Word::Then | Word::Else | Word::EndIf { .. } => Ok(Some(self.choose(place, word)?)),
            Word::TestFirst | Word::BodyFirst | Word::While | Word::Until | Word::EndLoop { .. } =>
                Ok(Some(self.turn(place, word)?)),
            Word::Call {
                strict,
                function,
                ..
            } => {
                let awaited = if strict { Awaited::All } else { Awaited::Any };
                Ok(Some(self.call(next, awaited, function)?))
            }
            Word::EndFunction => Ok(self.come_back()),
            _ => {
                self.operand(word)?;
                self.statement(word)?;
                Ok(Some(next))
            }
        }
    }
}
