//! A text that is written token by token, and what is to be written of it.

use std::alloc::{AllocError, Global};
use std::io::{self, Write};
use test_inputs::random_graphs::dice::Dice;

/// A function: how many parameters and results it has.
#[derive(Clone, Copy)]
pub struct Function {
    pub params: u64,
    pub results: u64,
    /// Where it calls itself or its partner, with a first argument that falls to 0: the partner.
    pub partner: Option<u64>,
}

/// The number that stands for `main`.
pub const MAIN: u64 = 1_000;

/// The number from which on the functions that fill arrays are numbered.
pub const FILLERS: u64 = 100;

/// An array: its cells, and how many of them are filled, from the first on.
#[derive(Clone, Copy)]
pub struct Array {
    pub len: u64,
    pub filled: u64,
    /// A function fills it.
    pub has_filler: bool,
}

/// What a part of the text is about. Values, arrays and functions have names that are numbers.
#[derive(Clone, Copy)]
pub struct Form {
    /// How deep it may still nest.
    pub depth: u64,
    /// How many values it has.
    pub count: u64,
    /// The least level of an operand in the grammar.
    pub level: u64,
    /// The first name of a loop or of a function that calls itself, or the index of a cell.
    pub name: u64,
    /// A name that nothing hides.
    pub other: u64,
    /// The array or the function.
    pub item: u64,
}

/// What is to be written: a token, or a word in capitals, which stands for a part of the grammar.
#[derive(Clone, Copy)]
pub struct Todo {
    pub word: &'static str,
    pub of: Form,
}

/// The text, and what is known where it is written.
#[derive(Drop)]
pub struct Writer {
    pub text: Vec<u8>,
    pub dice: Dice,
    pub todos: Vec<Todo>,
    /// The names in scope, and how many there were when each scope began.
    pub scope: Vec<u64>,
    scopes: Vec<usize>,
    /// How many names were given out.
    names: u64,
    pub functions: Vec<Function>,
    /// How many functions may be called.
    pub callable: u64,
    /// How many functions read no array.
    pub plain: u64,
    pub arrays: Vec<Array>,
    /// How many arrays may be read.
    pub readable: u64,
    /// Whether stores are allowed wherever all arrays may be read.
    pub wild: bool,
    /// How many operators, brackets and conditionals an item may still have, and how many loops.
    pub fuel: u64,
    pub loops: u64,
}

/// Whether the byte may be in a name, a word or a number.
fn is_in_word(byte: u8) -> bool {
    matches!(byte, b'a'..=b'z' | b'A'..=b'Z' | b'0'..=b'9' | b'_')
}

impl Form {
    pub fn new() -> Form {
        Form {
            depth: 2,
            count: 1,
            level: 1,
            name: 0,
            other: 0,
            item: 0,
        }
    }

    /// A part of the form.
    pub fn deeper(mut self) -> Form {
        self.depth = self.depth.saturating_sub(1);
        self
    }

    pub fn with_count(mut self, count: u64) -> Form {
        self.count = count;
        self
    }

    pub fn with_level(mut self, level: u64) -> Form {
        self.level = level;
        self
    }

    pub fn with_name(mut self, name: u64) -> Form {
        self.name = name;
        self
    }

    pub fn with_item(mut self, item: u64) -> Form {
        self.item = item;
        self
    }
}

impl Writer {
    pub fn new(alloc: Global, seed: u64) -> Writer {
        Writer {
            text: Vec::new(alloc),
            dice: Dice::new(seed),
            todos: Vec::new(alloc),
            scope: Vec::new(alloc),
            scopes: Vec::new(alloc),
            names: 0,
            functions: Vec::new(alloc),
            callable: 0,
            plain: 0,
            arrays: Vec::new(alloc),
            readable: 0,
            wild: false,
            fuel: 0,
            loops: 0,
        }
    }

    /// Writes what is before a token that begins with this byte: mostly a space; nothing only where the token does not become
    /// one with the token before.
    fn space(&mut self, first: u8) -> Result<(), AllocError> {
        let must = is_in_word(first) && self.text.last().is_some_and(|last| is_in_word(*last));
        let space = match self.dice.throw(40) {
            0 => "\n",
            1 => "\t ",
            2 => " // -> \u{e9} {\n",
            3..=9 if !must => "",
            _ => " ",
        };
        self.text.extend_from_slice(space.as_bytes())
    }

    /// Writes a token.
    pub fn put(&mut self, token: &str) -> io::Result<()> {
        let bytes = token.as_bytes();
        self.space(bytes.first().copied().unwrap_or(b' '))?;
        Ok(self.text.extend_from_slice(bytes)?)
    }

    /// Writes a token that ends with a number.
    pub fn put_numbered(&mut self, letter: &str, number: u64) -> io::Result<()> {
        self.space(letter.as_bytes().first().copied().unwrap_or(b'0'))?;
        write!(self.text, "{letter}{number}")
    }

    pub fn put_number(&mut self, number: u64) -> io::Result<()> {
        self.put_numbered("", number)
    }

    /// Writes a value's name.
    pub fn put_name(&mut self, name: u64) -> io::Result<()> {
        let letter = match name % 3 {
            0 => "x",
            1 => "v_",
            _ => "Y0_",
        };
        self.put_numbered(letter, name)
    }

    /// Writes a function's name.
    pub fn put_function(&mut self, number: u64) -> io::Result<()> {
        if number == MAIN {
            self.put("main")
        } else {
            self.put_numbered("f", number)
        }
    }

    /// The words of this text, separated by spaces, go in their order before all that is still to be written.
    pub fn plan(&mut self, words: &'static str, of: Form) -> io::Result<()> {
        let alloc: Global = *self.text.allocator();
        let words: Vec<&'static str> = words.split_whitespace().collect(alloc)?;
        for word in words.iter().rev() {
            self.todos.push(Todo { word: *word, of })?;
        }
        Ok(())
    }

    pub fn array(&self, array: u64) -> Array {
        match self.arrays.get(array as usize) {
            Some(array) => *array,
            None => Array {
                len: 1,
                filled: 0,
                has_filler: false,
            },
        }
    }

    pub fn function(&self, number: u64) -> Function {
        match self.functions.get(number as usize) {
            Some(function) => *function,
            None => Function {
                params: 1,
                results: 1,
                partner: None,
            },
        }
    }

    /// From now on all arrays may be read, and all functions called.
    pub fn allow_all(&mut self) {
        self.readable = self.arrays.len() as u64;
        self.callable = self.functions.len() as u64;
    }

    /// Whether a store is allowed here.
    pub fn may_store(&self) -> bool {
        self.wild && self.readable > 0 && self.readable == self.arrays.len() as u64
    }

    pub fn enter_scope(&mut self) -> io::Result<()> {
        Ok(self.scopes.push(self.scope.len())?)
    }

    pub fn leave_scope(&mut self) {
        if let Some(len) = self.scopes.pop() {
            self.scope.truncate(len);
        }
    }

    /// Some name in scope.
    pub fn some_name(&mut self) -> u64 {
        let place = self.dice.throw(self.scope.len() as u64) as usize;
        self.scope.get(place).copied().unwrap_or(0)
    }

    /// A name that nothing has.
    pub fn new_name(&mut self) -> u64 {
        self.names = self.names.wrapping_add(1);
        self.names
    }

    /// So many names that differ: new ones, and such as hide names in scope.
    pub fn some_names(&mut self, count: u64) -> io::Result<Vec<u64>> {
        let mut names: Vec<u64> = Vec::new(*self.text.allocator());
        for _ in 0..count {
            let old = self.some_name();
            let hides = self.dice.throw(4) == 0 && old > 0 && !names.contains(&old);
            let name = if hides { old } else { self.new_name() };
            names.push(name)?;
        }
        Ok(names)
    }
}
