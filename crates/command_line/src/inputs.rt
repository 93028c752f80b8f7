//! The inputs among the words of a command.

ghost use Rattle.std.specs.Prelude.{◌≡◌};
ghost use Rattle.command_line.specs.Words.{no_inputs, with_input};

use arrayvec::ArrayVec;
use graph_file::literal;

/// The inputs of an object's run, each written like a literal of a graph's text. The first fault stays.
#[derive(Debug, Drop)]
pub enum Inputs {
    /// All of them, and no more than a block of an object has.
    Integers(ArrayVec<i64, 16>),
    /// The input of this number, from 1, is no integer.
    NoInteger(u64),
    /// There are more than 16.
    TooMany,
}

impl Inputs {
    pub(crate) fn none() -> Inputs
        ensures { result ≡ no_inputs }
    {
        Inputs::Integers(ArrayVec::new())
    }

    /// With the input that the word is.
    pub(crate) fn with(self, word: &str) -> Inputs
        ensures { result ≡ with_input self word.now }
    {
        match self {
            Inputs::Integers(integers) => with_integer(integers, word),
            Inputs::NoInteger(number) => Inputs::NoInteger(number),
            Inputs::TooMany => Inputs::TooMany,
        }
    }
}

/// These integers, and the one that the word is.
fn with_integer(mut integers: ArrayVec<i64, 16>, word: &str) -> Inputs
    ensures { result ≡ with_input (Inputs.Integers integers) word.now }
{
    if integers.is_full() {
        return Inputs::TooMany;
    }
    match literal(word.as_bytes()) {
        Some(integer) => {
            integers.push(integer);
            Inputs::Integers(integers)
        }
        None => Inputs::NoInteger(integers.len() as u64 + 1),
    }
}
