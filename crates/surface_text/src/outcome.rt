//! What a symbol of the stack does with a token.

ghost use Rattle.std.specs.Prelude.{◌≡◌, ◌≤◌, length, All};
ghost use Rattle.surface_text.specs.declared.outcome.Outcome.TheVariants as outcome;
ghost use Rattle.surface_text.specs.Outcomes.{Takes, Passes, Lacks, shown, IsShallow, AreShallow, few};

use law_surface_text::symbol::Symbol;
use surface::word::Word;

/// The first few of some items.
#[derive(Clone, Copy)]
pub(crate) struct Few<T, const N: usize> {
    pub items: [T; N],
    pub len: usize,
}

impl<T, const N: usize> Few<T, N> {
    pub(crate) fn as_slice(&self) -> &[T]
        ensures { result.now ≡ few self.now }
    {
        self.items.get(..self.len).unwrap_or(&self.items)
    }
}

/// The words and the symbols that the last step pushes. It is in one place for all steps, since it is large.
#[derive(Drop)]
pub(crate) struct Pushes {
    pub words: Few<Word<usize>, 2>,
    /// They replace the symbol, the first one on top.
    pub symbols: Few<Symbol<usize>, 9>,
}

impl Pushes {
    pub(crate) fn new() -> Pushes {
        Pushes {
            words: Few {
                items: [Word::When; 2],
                len: 0,
            },
            symbols: Few {
                items: [Symbol::Items; 9],
                len: 0,
            },
        }
    }
}

/// What a symbol does with a token.
#[derive(Clone, Copy)]
pub(crate) enum Outcome {
    /// The token is taken, with these pushes, where so many may be open at once.
    Takes { needed: u8 },
    /// The token is for the symbol below, after these words.
    Passes,
    /// So it is, and what ended is an `if` without its last `else`.
    Lacks,
    Refuses,
}

/// The token is taken.
pub(crate) fn takes(
    pushes: &mut Pushes,
    needed: u8,
    words: &[Word<usize>],
    symbols: &[Symbol<usize>],
) -> Outcome
    requires words { length words.now ≤ 2 }
    requires symbols { length symbols.now ≤ 9 }
    requires shallow { needed ≤ 200 → All IsShallow symbols.now }
    ensures does { shown result pushes.new ≡ Takes needed words.now symbols.now }
    ensures shallow { AreShallow result pushes.new }
{
    pushes.words.items[..words.len()].copy_from_slice(words);
    pushes.words.len = words.len();
    pushes.symbols.items[..symbols.len()].copy_from_slice(symbols);
    pushes.symbols.len = symbols.len();
    Outcome::Takes { needed }
}

/// The token is for the symbol below, after these words.
pub(crate) fn passes(pushes: &mut Pushes, words: &[Word<usize>]) -> Outcome
    requires words { length words.now ≤ 2 }
    ensures does { shown result pushes.new ≡ Passes words.now }
    ensures shallow { AreShallow result pushes.new }
{
    pushes.words.items[..words.len()].copy_from_slice(words);
    pushes.words.len = words.len();
    Outcome::Passes
}

/// So it is, and what ended is an `if` without its last `else`.
pub(crate) fn lacks(pushes: &mut Pushes, words: &[Word<usize>]) -> Outcome
    requires words { length words.now ≤ 2 }
    ensures does { shown result pushes.new ≡ Lacks words.now }
    ensures shallow { AreShallow result pushes.new }
{
    pushes.words.items[..words.len()].copy_from_slice(words);
    pushes.words.len = words.len();
    Outcome::Lacks
}

/// The token does not go on.
pub(crate) fn refuses() -> Outcome
    ensures { result ≡ outcome.Refuses }
{
    Outcome::Refuses
}
