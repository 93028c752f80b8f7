//! The words of a line, read one after another.

use std::alloc::Global;
use tags::slot::SlotState;
use tags::token::{Cont, Port, Word};
use tags::value::{FaultKind, NodeNumber, Origin, Value};

/// What is left of a line. Its words are separated by single spaces.
#[derive(Clone, Copy)]
pub struct Words<'a> {
    rest: &'a str,
}

impl<'a> Words<'a> {
    pub fn of(line: &'a str) -> Words<'a> {
        Words { rest: line }
    }

    /// What is left of the line.
    pub fn rest(&self) -> &'a str {
        self.rest
    }

    /// Whether no word is left.
    pub fn is_over(&self) -> bool {
        self.rest.is_empty()
    }

    /// The next word; an empty one at the end.
    pub fn word(&mut self) -> &'a str {
        match self.rest.split_once(' ') {
            Some((word, rest)) => {
                self.rest = rest;
                word
            }
            None => {
                let word = self.rest;
                self.rest = "";
                word
            }
        }
    }

    /// The words up to the next `/`, which is passed over; all that are left where there is none.
    pub fn piece(&mut self) -> Words<'a> {
        match self.rest.split_once(" / ") {
            Some((piece, rest)) => {
                self.rest = rest;
                Words { rest: piece }
            }
            None => {
                let piece = Words { rest: self.rest };
                self.rest = "";
                piece
            }
        }
    }

    pub fn byte(&mut self) -> Option<u8> {
        self.word().parse().ok()
    }

    pub fn short(&mut self) -> Option<u16> {
        self.word().parse().ok()
    }

    pub fn number(&mut self) -> Option<u32> {
        self.word().parse().ok()
    }

    pub fn long(&mut self) -> Option<u64> {
        self.word().parse().ok()
    }

    pub fn place(&mut self) -> Option<usize> {
        self.word().parse().ok()
    }

    pub fn integer(&mut self) -> Option<i64> {
        self.word().parse().ok()
    }

    /// The integers that are left.
    pub fn integers(&mut self, alloc: Global) -> Option<Vec<i64>> {
        let mut integers = Vec::new(alloc);
        if self.is_over() {
            return Some(integers);
        }
        for word in self.rest.split(' ') {
            integers.push(word.parse().ok()?).ok()?;
        }
        Some(integers)
    }

    /// `left` or `right`.
    pub fn port(&mut self) -> Option<Port> {
        match self.word() {
            "left" => Some(Port::Left),
            "right" => Some(Port::Right),
            _ => None,
        }
    }

    /// `untold`, or a block and a node.
    fn origin(&mut self) -> Option<Origin> {
        let word = self.word();
        if word == "untold" {
            return Some(Origin::Untold);
        }
        let block = word.parse().ok()?;
        let node = self.short()?;
        if node >= NodeNumber::LIMIT {
            return None;
        }
        Some(Origin::At {
            block,
            node: NodeNumber::new(node),
        })
    }

    /// A value that begins with this word: a number, or `zero` or `range` and an origin.
    fn value_from(&mut self, word: &str) -> Option<Value> {
        let kind = match word {
            "zero" => FaultKind::Zero,
            "range" => FaultKind::Range,
            _ => return Some(Value::Int(word.parse().ok()?)),
        };
        let origin = self.origin()?;
        Some(Value::Fault { kind, origin })
    }

    pub fn value(&mut self) -> Option<Value> {
        let word = self.word();
        self.value_from(word)
    }

    /// `host` and a port, or a frame, an instruction and a port.
    pub fn cont(&mut self) -> Option<Cont> {
        let word = self.word();
        if word == "host" {
            let port = self.number()?;
            return Some(Cont::Host { port });
        }
        let frame = word.parse().ok()?;
        let ip = self.number()?;
        let port = self.port()?;
        Some(Cont::Frame { frame, ip, port })
    }

    /// `frame` and a number, `back` and a continuation, or a value.
    pub fn carried(&mut self) -> Option<Word> {
        match self.word() {
            "frame" => Some(Word::Frame(self.number()?)),
            "back" => Some(Word::Back(self.cont()?)),
            word => Some(Word::Val(self.value_from(word)?)),
        }
    }

    /// The state of a slot.
    pub fn state(&mut self) -> Option<SlotState> {
        Some(match self.word() {
            "empty" => SlotState::Empty,
            "left" => SlotState::Left(self.carried()?),
            "right" => SlotState::Right(self.carried()?),
            "credits" => SlotState::Credits(self.number()?),
            "waiter" => SlotState::Waiter(self.cont()?),
            "draining" => SlotState::Draining(self.number()?),
            _ => return None,
        })
    }
}
