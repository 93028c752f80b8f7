//! Statements, written by tokens and further parts.

use crate::writer::{Form, Writer};
use std::io;

impl Writer {
    /// Statements of a body.
    pub fn steps(&mut self, of: Form) -> io::Result<()> {
        if of.depth == 0 || self.dice.throw(2) == 0 {
            return Ok(());
        }
        self.plan("STEPS", of)?;
        let count = self.dice.throw(3).wrapping_add(1);
        let step = of.deeper().with_count(count);
        if self.dice.throw(5) == 0 {
            self.plan("LIST ;", step)
        } else {
            self.plan("LET", step)
        }
    }

    /// `let`, its targets and its values. The targets come into scope after it.
    pub fn put_let(&mut self, of: Form) -> io::Result<()> {
        self.put_targets(of.count, of)?;
        self.plan("= LIST ;", of)
    }

    /// `let` and so many targets, some of which are left out. They come into scope after what is planned next.
    fn put_targets(&mut self, count: u64, of: Form) -> io::Result<()> {
        let names = self.some_names(count)?;
        self.put("let")?;
        let mut is_first = true;
        for name in &names {
            if !is_first {
                self.put(",")?;
            }
            is_first = false;
            if self.dice.throw(10) == 0 {
                self.put("_")?;
            } else {
                self.put_name(*name)?;
                self.plan("BIND", of.with_name(*name))?;
            }
        }
        Ok(())
    }

    /// Calls with a first argument that falls, by a function whose first parameter is the form's name.
    pub fn fall(&mut self, of: Form) -> io::Result<()> {
        if self.dice.throw(3) == 0 {
            self.plan("FALL", of)?;
        }
        let own = self.function(of.item);
        let callee = if self.dice.throw(2) == 0 {
            of.item
        } else {
            own.partner.unwrap_or(of.item)
        };
        let function = self.function(callee);
        self.put_targets(function.results, of)?;
        let call = of.deeper().with_count(function.params).with_item(callee);
        self.plan("= STRICT CALLEE ( NAME - 1 MORE ) ;", call)
    }

    /// The value of a cell in an array that is being filled: sometimes it waits for the cell before, or for the one after.
    pub fn value(&mut self, of: Form) -> io::Result<()> {
        match self.dice.throw(4) {
            0 => self.plan(
                "if NAME > 0 { ARRAY [ NAME - 1 ] + NAME } else { WHOLE }",
                of,
            ),
            1 => self.plan(
                "if NAME + 1 < FILLED { ARRAY [ NAME + 1 ] * 3 } else { WHOLE }",
                of,
            ),
            _ => self.plan("WHOLE", of),
        }
    }

    /// Plans the statement that fills the form's array: the function that does it is called, or it is a loop, or a store for each cell. It
    /// may read the arrays before, and call functions that read none.
    pub fn filling(&mut self, mut of: Form) -> io::Result<()> {
        let array = self.array(of.item);
        self.readable = of.item;
        self.callable = self.plain;
        of.name = self.new_name();
        if array.has_filler {
            self.plan("FILLER ( 0 , FILLED ) ;", of)?;
        } else if array.filled == 0 || self.dice.throw(2) == 0 {
            self.plan(
                "loop BOUND ( NAME = 0 ) ENTER BIND while NAME < FILLED { ARRAY [ NAME ] := VALUE ; NAME + 1 } LEAVE ;",
                of,
            )?;
        } else {
            self.plan(";", of)?;
            for cell in (0..array.filled).rev() {
                let word = if cell == 0 { "FILL" } else { ", FILL" };
                self.plan(word, of.with_count(cell))?;
            }
        }
        Ok(())
    }

    /// Writes a store to the cell of the form's array whose number is the form's count; sometimes what an earlier cell has is added.
    pub fn fill(&mut self, of: Form) -> io::Result<()> {
        self.put_numbered("A", of.item)?;
        self.put("[")?;
        self.put_number(of.count)?;
        if of.count > 0 && self.dice.throw(2) == 0 {
            self.plan("] := ARRAY [ 0 ] + OPERAND", of.with_level(7))
        } else {
            self.plan("] := WHOLE", of)
        }
    }
}
