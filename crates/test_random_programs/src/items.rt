//! Functions, arrays and whole programs.

use crate::writer::{Array, Form, Function, MAIN, Writer};
use std::alloc::{AllocError, Global};
use std::{io, mem};

/// Which programs are written.
#[derive(Clone, Copy, PartialEq, Eq)]
pub enum Scale {
    /// A program has one function besides `main`, or two that call each other, and one array, at most.
    Small,
    Large,
}

/// How large a program is: how deep its parts nest, and how many operators, brackets and conditionals an item has, at most.
#[derive(Clone, Copy)]
struct Size {
    depth: u64,
    fuel: u64,
}

/// The items of a program.
#[derive(Drop)]
struct Items {
    writer: Writer,
    items: Vec<Vec<u8>>,
    size: Size,
}

impl Writer {
    /// Some shape of a function that has this partner.
    fn some_shape(&mut self, partner: Option<u64>) -> Function {
        let most = if self.dice.throw(30) == 0 { 16 } else { 3 };
        Function {
            params: self.dice.throw(most).wrapping_add(1),
            results: self.dice.throw(most).wrapping_add(1),
            partner,
        }
    }

    /// Writes a function up to its body. Its parameters are in scope. Gives the form of its body.
    fn put_head(&mut self, number: u64, function: Function, size: Size) -> io::Result<Form> {
        self.fuel = size.fuel;
        self.loops = 3;
        self.scope.clear();
        let names = self.some_names(function.params)?;
        self.put("fn")?;
        self.put_function(number)?;
        let mut before = "(";
        for name in &names {
            self.put(before)?;
            self.put_name(*name)?;
            before = ",";
        }
        self.put(")")?;
        if function.results > 1 || self.dice.throw(2) == 0 {
            self.put("->")?;
            self.put_number(function.results)?;
        }
        let mut of = Form::new()
            .with_name(names.first().copied().unwrap_or(0))
            .with_count(function.results)
            .with_item(number);
        of.depth = size.depth;
        self.scope = names;
        Ok(of)
    }

    /// Writes the function that fills an array.
    fn put_filler(&mut self, array: u64, size: Size) -> io::Result<()> {
        let mut of = Form::new().with_item(array);
        of.name = self.new_name();
        of.other = self.new_name();
        self.scope.clear();
        self.fuel = size.fuel;
        self.plan(
            "fn FILLER ( NAME , OTHER ) { BIND if NAME < OTHER { ARRAY [ NAME ] := VALUE ; NAME + FILLER ( NAME + 1 , OTHER ) } else { 0 } }",
            of,
        )?;
        self.write_all_parts()
    }

    /// Writes `main`, which fills the arrays, at its beginning or after other statements.
    fn put_main(&mut self, size: Size) -> io::Result<()> {
        let main = self.some_shape(None);
        let of = self.put_head(MAIN, main, size)?;
        let early = self.dice.throw(2) == 0;
        self.plan(
            if early {
                "ALL STEPS LIST }"
            } else {
                "ALL LIST }"
            },
            of,
        )?;
        for array in (0..self.arrays.len() as u64).rev() {
            self.plan("FILLING", Form::new().with_item(array))?;
        }
        self.plan(if early { "{ ALL" } else { "{ ALL STEPS" }, of)?;
        self.write_all_parts()
    }
}

impl Items {
    /// Takes what was written as an item.
    fn keep(&mut self) -> Result<(), AllocError> {
        let alloc: Global = *self.writer.text.allocator();
        let item = mem::replace(&mut self.writer.text, Vec::new(alloc));
        Ok(self.items.push(item)?)
    }

    /// Writes some functions.
    fn put_functions(&mut self, count: u64) -> io::Result<()> {
        for _ in 0..count {
            let number = self.writer.functions.len() as u64;
            self.writer.callable = number;
            match self.writer.dice.throw(3) {
                0 => {
                    let function = self.writer.some_shape(None);
                    self.writer.functions.push(function)?;
                    self.put_function(number, "BLOCK")?;
                }
                1 => self.put_pair(number, number)?,
                _ => self.put_pair(number, number.wrapping_add(1))?,
            }
        }
        Ok(())
    }

    /// Writes a function with this body.
    fn put_function(&mut self, number: u64, body: &'static str) -> io::Result<()> {
        let function = self.writer.function(number);
        let size = self.size;
        let of = self.writer.put_head(number, function, size)?;
        self.writer.plan(body, of)?;
        self.writer.write_all_parts()?;
        Ok(self.keep()?)
    }

    /// Writes a function that calls itself, or two that call each other, too.
    fn put_pair(&mut self, number: u64, partner: u64) -> io::Result<()> {
        for one in number..partner.wrapping_add(1) {
            let other = number.wrapping_add(partner).wrapping_sub(one);
            let function = self.writer.some_shape(Some(other));
            self.writer.functions.push(function)?;
        }
        for one in number..partner.wrapping_add(1) {
            self.put_function(
                one,
                "{ if NAME > 0 { ENTER FALL STEPS LIST } LEAVE else BLOCK }",
            )?;
        }
        Ok(())
    }

    /// Writes an array, and the function that fills it, if one does.
    fn put_array(&mut self, number: u64) -> io::Result<()> {
        let writer = &mut self.writer;
        let len = writer.dice.throw(9).wrapping_add(1);
        let some = writer.dice.throw(len.wrapping_add(1));
        let filled = if writer.dice.throw(3) == 0 { some } else { len };
        let has_filler = writer.dice.throw(3) == 0;
        writer.arrays.push(Array {
            len,
            filled,
            has_filler,
        })?;
        writer.put("array")?;
        writer.put_numbered("A", number)?;
        writer.put("[")?;
        writer.put_number(len)?;
        writer.put("]")?;
        writer.put(";")?;
        self.keep()?;
        if has_filler {
            self.writer.readable = number;
            self.writer.callable = self.writer.plain;
            let size = self.size;
            self.writer.put_filler(number, size)?;
            self.keep()?;
        }
        Ok(())
    }

    /// The text that has the items in some order.
    fn join(mut self) -> Result<Vec<u8>, AllocError> {
        let alloc: Global = *self.writer.text.allocator();
        let mut text = Vec::new(alloc);
        for _ in 0..self.items.len() {
            let count = self.items.len();
            let place = self.writer.dice.throw(count as u64) as usize;
            if place < count {
                let item = self.items.swap_remove(place);
                text.extend_from_slice(&item)?;
            }
        }
        Ok(text)
    }
}

/// The text of the program that this seed chooses. It obeys the rules, but may be too wide or too big.
pub fn program(alloc: Global, seed: u64, scale: Scale) -> io::Result<Vec<u8>> {
    let mut writer = Writer::new(alloc, seed);
    let size = match scale {
        Scale::Small => Size { depth: 1, fuel: 6 },
        Scale::Large => Size {
            depth: writer.dice.throw(3).wrapping_add(2),
            fuel: 60,
        },
    };
    let (functions, arrays) = match scale {
        Scale::Small => (2, 2),
        Scale::Large => (3, 4),
    };
    writer.wild = writer.dice.throw(3) == 0;
    let mut items = Items {
        writer,
        items: Vec::new(alloc),
        size,
    };
    let count = items.writer.dice.throw(functions);
    items.put_functions(count)?;
    items.writer.plain = items.writer.functions.len() as u64;
    let arrays = items.writer.dice.throw(arrays);
    for array in 0..arrays {
        items.put_array(array)?;
    }
    items.writer.readable = arrays;
    if scale == Scale::Large {
        let count = items.writer.dice.throw(3);
        items.put_functions(count)?;
    }
    items.writer.put_main(size)?;
    items.keep()?;
    Ok(items.join()?)
}
