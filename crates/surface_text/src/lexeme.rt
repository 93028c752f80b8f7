//! What tokens say.

use surface::token::{Keyword, Sign};

/// What a token says, with the number of a name in the table of names.
#[derive(Clone, Copy)]
pub(crate) enum Lexeme {
    Word { keyword: Keyword },
    Mark { sign: Sign },
    Number { number: u64 },
    Name { name: usize },
}

/// A name that was read, by its number in the table of names, and its place.
#[derive(Clone, Copy)]
pub(crate) struct Named {
    pub at: usize,
    pub name: usize,
}
