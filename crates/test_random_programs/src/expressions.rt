//! Expressions, written by tokens and further parts.

use crate::writer::{Form, Writer};
use std::io;

/// The operators on two values, and the level of each in the grammar. Those of the first level do not chain.
const INFIXES: [(&str, u64); 16] = [
    ("== OPERAND", 1),
    ("!= OPERAND", 1),
    ("< OPERAND", 1),
    ("<= OPERAND", 1),
    ("> OPERAND", 1),
    (">= OPERAND", 1),
    ("| OPERAND", 2),
    ("^ OPERAND", 3),
    ("& OPERAND", 4),
    ("<< OPERAND", 5),
    (">> OPERAND", 5),
    ("+ OPERAND", 6),
    ("- OPERAND", 6),
    ("* OPERAND", 7),
    ("/ OPERAND", 7),
    ("% OPERAND", 7),
];

const BOUNDS: [&str; 4] = ["2", "3", "8", "64"];

/// An operand, and the greatest mask of indexes that are below this number.
fn masked_below(count: u64) -> &'static str {
    match count {
        0 | 1 => "AND & 0",
        2 | 3 => "AND & 1",
        4..=7 => "AND & 3",
        _ => "AND & 7",
    }
}

impl Writer {
    fn literal(&mut self) -> io::Result<()> {
        let small = self.dice.throw(9);
        match self.dice.throw(12) {
            0 => {
                let number = self.dice.throw(u64::MAX).wrapping_mul(4_294_967_295) >> 1;
                self.put_number(number)
            }
            1 => {
                self.put("-")?;
                self.put("9223372036854775808")
            }
            2 | 3 => {
                self.put("-")?;
                self.put_number(small)
            }
            _ => self.put_number(small),
        }
    }

    /// A name or a literal.
    fn leaf(&mut self) -> io::Result<()> {
        if self.dice.throw(3) > 0 && !self.scope.is_empty() {
            let name = self.some_name();
            self.put_name(name)
        } else {
            self.literal()
        }
    }

    pub fn operand(&mut self, of: Form) -> io::Result<()> {
        if of.depth == 0 || self.fuel == 0 {
            return self.leaf();
        }
        self.fuel = self.fuel.wrapping_sub(1);
        let inner = of.deeper();
        match self.dice.throw(20) {
            0..=7 => self.infix(inner),
            8 => self.plan("- OPERAND", inner.with_level(8)),
            9 => self.plan("~ OPERAND", inner.with_level(8)),
            10 => self.plan("( WHOLE )", of),
            11 | 12 | 13 if self.readable > 0 => {
                let array = self.dice.throw(self.readable);
                self.cell(inner.with_item(array))
            }
            14 => self.leaf(),
            _ => self.several(inner.with_count(1)),
        }
    }

    /// An operator, in brackets where its level asks for them.
    fn infix(&mut self, of: Form) -> io::Result<()> {
        let place = self.dice.throw(16) as usize;
        let (sign, level) = INFIXES.get(place).copied().unwrap_or(("+ OPERAND", 6));
        if level < of.level {
            self.put("(")?;
            self.plan(")", of)?;
        }
        self.plan(sign, of.with_level(level.wrapping_add(1)))?;
        self.plan("OPERAND", of.with_level(level.max(2)))
    }

    /// A cell of the form's array, one that is filled for the most part.
    pub fn cell(&mut self, of: Form) -> io::Result<()> {
        let array = self.array(of.item);
        self.put_numbered("A", of.item)?;
        self.put("[")?;
        self.plan("]", of)?;
        match self.dice.throw(12) {
            0 if self.may_store() => self.plan("WHOLE", of),
            1 => {
                let outside = array.len.wrapping_add(self.dice.throw(3));
                self.put_number(outside)
            }
            2 => self.plan("- 1", of),
            3 => {
                let some = self.dice.throw(array.len);
                self.put_number(some)
            }
            _ => self.plan(masked_below(array.filled), of),
        }
    }

    /// A store, where it is allowed, or an expression of another form.
    pub fn whole(&mut self, of: Form) -> io::Result<()> {
        if !self.may_store() || of.depth == 0 || self.dice.throw(8) > 0 {
            return self.operand(of.with_level(1));
        }
        let array = self.dice.throw(self.readable);
        self.plan("CELL := WHOLE", of.with_item(array))
    }

    /// A call, a loop or a conditional with the form's number of values.
    pub fn several(&mut self, of: Form) -> io::Result<()> {
        match self.dice.throw(7) {
            0 | 1 | 2 => match self.some_function(of.count) {
                Some(function) => self.call(function, of),
                None => self.conditional(of),
            },
            3 | 4 if self.loops > 0 => self.start_loop(of),
            5 if of.depth > 0 => self.plan("( SEVERAL )", of.deeper()),
            _ => self.conditional(of),
        }
    }

    /// Some function that may be called and has so many results.
    fn some_function(&mut self, results: u64) -> Option<u64> {
        let mut seen = 0u64;
        let mut chosen = None;
        for number in 0..self.callable {
            if self.function(number).results == results {
                seen = seen.wrapping_add(1);
                if self.dice.throw(seen) == 0 {
                    chosen = Some(number);
                }
            }
        }
        chosen
    }

    /// A call. Where the first argument has to be small, it is.
    fn call(&mut self, number: u64, of: Form) -> io::Result<()> {
        let function = self.function(number);
        let of = of.with_count(function.params).with_item(number);
        if function.partner.is_some() {
            self.plan("STRICT CALLEE ( AND & 3 MORE )", of)
        } else {
            self.plan("STRICT CALLEE ( LIST )", of)
        }
    }

    pub fn put_strict(&mut self) -> io::Result<()> {
        if self.dice.throw(4) == 0 {
            self.put("strict")?;
        }
        Ok(())
    }

    /// A list: its first expression has one value, or some.
    pub fn list(&mut self, of: Form) -> io::Result<()> {
        let some = self.dice.throw(of.count).wrapping_add(1);
        let together = some > 1 && of.depth > 0 && self.fuel > 0 && self.dice.throw(2) == 0;
        let taken = if together { some } else { 1 };
        let left = of.count.wrapping_sub(taken);
        self.plan("MORE", of.with_count(left.wrapping_add(1)))?;
        self.plan(
            if together { "SEVERAL" } else { "WHOLE" },
            of.with_count(taken),
        )
    }

    pub fn more(&mut self, of: Form) -> io::Result<()> {
        if of.count > 0 {
            self.plan(", LIST", of)?;
        }
        Ok(())
    }

    pub fn conditional(&mut self, of: Form) -> io::Result<()> {
        if of.depth > 1 && self.dice.throw(4) == 0 {
            self.plan("if WHOLE BLOCK else IF", of.deeper())
        } else {
            self.plan("if WHOLE BLOCK else BLOCK", of.deeper())
        }
    }

    pub fn put_bound(&mut self) -> io::Result<()> {
        let place = self.dice.throw(4) as usize;
        self.put(BOUNDS.get(place).copied().unwrap_or("2"))
    }

    /// A loop with the form's number of names. The first one falls from 3 or less.
    fn start_loop(&mut self, of: Form) -> io::Result<()> {
        self.loops = self.loops.wrapping_sub(1);
        let names = self.some_names(of.count)?;
        let of = of.deeper().with_name(names.first().copied().unwrap_or(0));
        self.plan("TURNS LEAVE", of)?;
        for name in names.iter().rev() {
            self.plan("BIND", of.with_name(*name))?;
        }
        self.plan(") ENTER", of)?;
        for name in names.iter().skip(1).rev() {
            self.plan(", NAME = WHOLE", of.with_name(*name))?;
        }
        self.plan("loop BOUND ( NAME = AND & 3", of)
    }

    pub fn turns(&mut self, of: Form) -> io::Result<()> {
        if self.dice.throw(2) == 0 {
            self.plan("while TEST TURN", of)
        } else {
            self.plan("TURN while ( TEST )", of)
        }
    }

    /// A test that a loop's first name is above 0, and sometimes one more.
    pub fn test(&mut self, of: Form) -> io::Result<()> {
        if self.dice.throw(3) == 0 {
            self.plan("( NAME > 0 ) & OPERAND", of.with_level(5))
        } else {
            self.plan("NAME > 0", of)
        }
    }

    /// The body of a loop. What its first name stands for has another name there.
    pub fn turn(&mut self, mut of: Form) -> io::Result<()> {
        of.other = self.new_name();
        self.plan(
            "{ ENTER let OTHER = NAME ; STEPS OTHER - 1 MORE } LEAVE",
            of,
        )
    }
}
