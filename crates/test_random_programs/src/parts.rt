//! The words that stand for parts of the grammar, and what is written for each.
//!
//! `NAME` and `OTHER` are the form's names, and `BIND` brings the first into scope; `ENTER` and `LEAVE` are the ends of a scope. `WHOLE` is
//! an expression with one value, `OPERAND` one of the form's level, `AND` an operand of `&`. `SEVERAL` is an expression and `LIST` a list
//! with the form's number of values; `MORE` is a list with one value less, after a comma, or nothing.

use crate::writer::{FILLERS, Form, Writer};
use std::io;

/// A part of the grammar, or something that is done at its place.
#[derive(Clone, Copy)]
enum Part {
    Name,
    Other,
    Array,
    Callee,
    Filler,
    Filled,
    Bind,
    Enter,
    Leave,
    Whole,
    Operand,
    And,
    Cell,
    Several,
    List,
    More,
    If,
    Block,
    Steps,
    Let,
    Turns,
    Test,
    Turn,
    Strict,
    Bound,
    Fall,
    Value,
    Filling,
    Fill,
    All,
}

const PARTS: [(&str, Part); 30] = [
    ("NAME", Part::Name),
    ("OTHER", Part::Other),
    ("ARRAY", Part::Array),
    ("CALLEE", Part::Callee),
    ("FILLER", Part::Filler),
    ("FILLED", Part::Filled),
    ("BIND", Part::Bind),
    ("ENTER", Part::Enter),
    ("LEAVE", Part::Leave),
    ("WHOLE", Part::Whole),
    ("OPERAND", Part::Operand),
    ("AND", Part::And),
    ("CELL", Part::Cell),
    ("SEVERAL", Part::Several),
    ("LIST", Part::List),
    ("MORE", Part::More),
    ("IF", Part::If),
    ("BLOCK", Part::Block),
    ("STEPS", Part::Steps),
    ("LET", Part::Let),
    ("TURNS", Part::Turns),
    ("TEST", Part::Test),
    ("TURN", Part::Turn),
    ("STRICT", Part::Strict),
    ("BOUND", Part::Bound),
    ("FALL", Part::Fall),
    ("VALUE", Part::Value),
    ("FILLING", Part::Filling),
    ("FILL", Part::Fill),
    ("ALL", Part::All),
];

/// The part for which a word stands, if it does.
fn part_of(word: &str) -> Option<Part> {
    for (name, part) in &PARTS {
        if *name == word {
            return Some(*part);
        }
    }
    None
}

/// More parts than a text has.
const MANY: u64 = 100_000;

impl Writer {
    /// Writes all that is planned.
    pub fn write_all_parts(&mut self) -> io::Result<()> {
        for _ in 0..MANY {
            let Some(todo) = self.todos.pop() else {
                return Ok(());
            };
            match part_of(todo.word) {
                Some(part) => self.write_token(part, todo.of)?,
                None => self.put(todo.word)?,
            }
        }
        Ok(())
    }

    /// Writes a part that is a token or nothing.
    fn write_token(&mut self, part: Part, of: Form) -> io::Result<()> {
        match part {
            Part::Name => self.put_name(of.name),
            Part::Other => self.put_name(of.other),
            Part::Array => self.put_numbered("A", of.item),
            Part::Callee => self.put_function(of.item),
            Part::Filler => self.put_function(FILLERS.wrapping_add(of.item)),
            Part::Filled => self.put_number(self.array(of.item).filled),
            Part::Strict => self.put_strict(),
            Part::Bound => self.put_bound(),
            Part::Bind => Ok(self.scope.push(of.name)?),
            Part::Enter => self.enter_scope(),
            _ => self.write_expression(part, of),
        }
    }

    /// Writes an expression or a list, or its first tokens, and plans the others.
    fn write_expression(&mut self, part: Part, of: Form) -> io::Result<()> {
        match part {
            Part::Whole => self.whole(of.deeper()),
            Part::Operand => self.operand(of),
            Part::And => self.operand(of.with_level(4)),
            Part::Cell => self.cell(of),
            Part::Several => self.several(of),
            Part::List => self.list(of),
            Part::More => self.more(of.with_count(of.count.saturating_sub(1))),
            Part::If => self.conditional(of),
            Part::Block => self.plan("{ ENTER STEPS LIST } LEAVE", of.deeper()),
            _ => self.write_form(part, of),
        }
    }

    /// Writes a statement or a part of a loop, or its first tokens, and plans the others.
    fn write_form(&mut self, part: Part, of: Form) -> io::Result<()> {
        match part {
            Part::Steps => self.steps(of),
            Part::Let => self.put_let(of),
            Part::Turns => self.turns(of),
            Part::Test => self.test(of),
            Part::Turn => self.turn(of),
            Part::Fall => self.fall(of),
            Part::Value => self.value(of),
            Part::Filling => self.filling(of),
            Part::Fill => self.fill(of),
            Part::All => {
                self.allow_all();
                Ok(())
            }
            _ => {
                self.leave_scope();
                Ok(())
            }
        }
    }
}
