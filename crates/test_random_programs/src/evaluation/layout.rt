//! What is found in a program's words before it is evaluated: where parts end, its functions and arrays, and which outside name an arm
//! uses first, since the literals of an arm arrive with that one.

use source::word::Word;
use std::alloc::{AllocError, Global};

/// A function. Its parameters are so many of the list of all, from a place on.
#[derive(Clone, Copy)]
pub struct Function {
    pub name: usize,
    pub first_param: usize,
    pub params: usize,
    pub results: u64,
    /// The place of the first word of its body.
    pub body: usize,
}

/// An array: the number of its first cell, and how many it has.
#[derive(Clone, Copy)]
pub struct Array {
    pub name: usize,
    pub first: u64,
    pub len: u64,
}

/// A word, where a part begins there.
#[derive(Clone, Copy)]
pub struct Beginning {
    /// The place of the word at which the part ends.
    pub end: usize,
    /// The outside name that an arm uses first.
    pub outside: Option<usize>,
}

/// A program's words, and what was found in them. Names are numbers.
#[derive(Drop)]
pub struct Layout<'a> {
    pub words: &'a [Word<usize>],
    pub functions: Vec<Function>,
    pub params: Vec<usize>,
    pub arrays: Vec<Array>,
    beginnings: Vec<Beginning>,
}

#[derive(Clone, Copy, PartialEq, Eq)]
enum Part {
    Arm,
    Loop,
}

/// A part that has begun and not ended.
#[derive(Clone, Copy)]
struct Open {
    part: Part,
    place: usize,
    /// How many names were in scope.
    names: usize,
}

/// Goes over the words.
#[derive(Drop)]
struct Scan<'a> {
    layout: Layout<'a>,
    scope: Vec<usize>,
    open: Vec<Open>,
    /// Targets and names of loops that come into scope later.
    coming: Vec<usize>,
    /// How many of them there were when a `let` or a loop began.
    marks: Vec<usize>,
}

impl<'a> Layout<'a> {
    pub fn of(alloc: Global, words: &'a [Word<usize>]) -> Result<Layout<'a>, AllocError> {
        let mut beginnings = Vec::new(alloc);
        for _ in words {
            beginnings.push(Beginning {
                end: 0,
                outside: None,
            })?;
        }
        let mut scan = Scan {
            layout: Layout {
                words,
                functions: Vec::new(alloc),
                params: Vec::new(alloc),
                arrays: Vec::new(alloc),
                beginnings,
            },
            scope: Vec::new(alloc),
            open: Vec::new(alloc),
            coming: Vec::new(alloc),
            marks: Vec::new(alloc),
        };
        for (place, word) in words.iter().enumerate() {
            scan.take(place, *word)?;
        }
        Ok(scan.layout)
    }

    pub fn beginning(&self, place: usize) -> Beginning {
        match self.beginnings.get(place) {
            Some(beginning) => *beginning,
            None => Beginning {
                end: place,
                outside: None,
            },
        }
    }

    pub fn function(&self, name: usize) -> Option<Function> {
        self.functions
            .iter()
            .find(|function| function.name == name)
            .copied()
    }

    pub fn array(&self, name: usize) -> Option<Array> {
        self.arrays.iter().find(|array| array.name == name).copied()
    }

    /// How many cells all arrays have.
    pub fn cells(&self) -> u64 {
        match self.arrays.last() {
            Some(last) => last.first.wrapping_add(last.len),
            None => 0,
        }
    }
}

impl Scan<'_> {
    fn take(&mut self, place: usize, word: Word<usize>) -> Result<(), AllocError> {
        match word {
            Word::Array { name, .. } => {
                let first = self.layout.cells();
                self.layout.arrays.push(Array {
                    name,
                    first,
                    len: 0,
                })?;
                Ok(())
            }
            Word::Length { len, .. } => {
                if let Some(array) = self.layout.arrays.last_mut() {
                    array.len = len;
                }
                Ok(())
            }
            Word::Name { name, .. } => {
                self.use_name(name);
                Ok(())
            }
            Word::Let { .. } | Word::Loop { .. } => Ok(self.marks.push(self.coming.len())?),
            Word::Bind { name, .. } | Word::Start { name, .. } => Ok(self.coming.push(name)?),
            Word::EndLet { .. } => self.come(),
            Word::Then
            | Word::Else
            | Word::EndIf { .. }
            | Word::TestFirst
            | Word::BodyFirst
            | Word::While
            | Word::EndLoop { .. } => self.part(place, word),
            _ => self.head(place, word),
        }
    }

    fn head(&mut self, place: usize, word: Word<usize>) -> Result<(), AllocError> {
        match word {
            Word::Function { name, .. } => {
                let first_param = self.layout.params.len();
                self.layout.functions.push(Function {
                    name,
                    first_param,
                    params: 0,
                    results: 1,
                    body: place,
                })?;
            }
            Word::Parameter { name, .. } => {
                self.layout.params.push(name)?;
                self.scope.push(name)?;
                if let Some(function) = self.layout.functions.last_mut() {
                    function.params = function.params.wrapping_add(1);
                }
            }
            Word::Results { number, .. } => {
                if let Some(function) = self.layout.functions.last_mut() {
                    function.results = number;
                }
            }
            Word::Body { .. } => {
                if let Some(function) = self.layout.functions.last_mut() {
                    function.body = place.wrapping_add(1);
                }
            }
            Word::EndFunction => self.scope.clear(),
            _ => {}
        }
        Ok(())
    }

    fn part(&mut self, place: usize, word: Word<usize>) -> Result<(), AllocError> {
        match word {
            Word::Then | Word::While => self.begin(Part::Arm, place),
            Word::Else => {
                self.end(place);
                self.begin(Part::Arm, place)
            }
            Word::TestFirst | Word::BodyFirst => {
                self.begin(Part::Loop, place)?;
                self.come()
            }
            Word::EndLoop { .. } => {
                if self.open.last().is_some_and(|open| open.part == Part::Arm) {
                    self.end(place);
                }
                self.end(place);
                Ok(())
            }
            _ => {
                self.end(place);
                Ok(())
            }
        }
    }

    fn begin(&mut self, part: Part, place: usize) -> Result<(), AllocError> {
        self.open.push(Open {
            part,
            place,
            names: self.scope.len(),
        })?;
        Ok(())
    }

    fn end(&mut self, place: usize) {
        let Some(open) = self.open.pop() else {
            return;
        };
        self.scope.truncate(open.names);
        if let Some(beginning) = self.layout.beginnings.get_mut(open.place) {
            beginning.end = place;
        }
    }

    /// The names since the last mark come into scope.
    fn come(&mut self) -> Result<(), AllocError> {
        let from = self.marks.pop().unwrap_or(0);
        if let Some(names) = self.coming.get(from..) {
            self.scope.extend_from_slice(names)?;
        }
        self.coming.truncate(from);
        Ok(())
    }

    /// Notes the name in each arm to which it is an outside name, where none was noted yet.
    fn use_name(&mut self, name: usize) {
        let mut place = self.scope.len();
        for (i, other) in self.scope.iter().enumerate() {
            if *other == name {
                place = i;
            }
        }
        for open in &self.open {
            if open.part == Part::Arm && place < open.names {
                if let Some(beginning) = self.layout.beginnings.get_mut(open.place) {
                    if beginning.outside.is_none() {
                        beginning.outside = Some(name);
                    }
                }
            }
        }
    }
}
