//! Names at their places, and what they stand for.

ghost use Rattle.std.specs.Prelude.{◌≡◌, []};
ghost use Rattle.source.specs.Words as words;

use graph::Name;
use semantics::graph::Source;
use std::marker::Model;

/// No name.
pub fn nameless<'a>() -> &'a [u8]
    ensures { result.now ≡ [] }
{
    b"".as_slice()
}

/// The bytes of the name of that number.
pub fn name_of<'a>(names: &[Name<'a>], n: usize) -> &'a [u8]
    ensures { result.now ≡ words.name_of names.now n }
{
    match names.get(n) {
        Some(name) => name.bytes,
        None => b"".as_slice(),
    }
}

/// A name where it is given to something.
#[derive(Drop)]
pub struct NameAt<'a> {
    pub at: usize,
    pub name: &'a [u8],
}

impl<'a> Model for NameAt<'a> {
    ghost use Rattle.source.specs.Tree.{NameAt};

    ghost Value = { NameAt };

    ghost view = { λ x. record { at = x.at; name = x.name.now } };
}

/// What a `let` does with a value: `None` drops it.
#[derive(Drop)]
pub struct Target<'a> {
    pub to: Option<NameAt<'a>>,
}

impl<'a> Model for Target<'a> {
    ghost use Rattle.source.specs.Tree.{Target};
    ghost use Rattle.lowering.specs.Targets.{target_of};

    ghost Value = { Target };

    ghost view = { λ t. target_of t.to };
}

/// A name in scope, and the source that it stands for.
#[derive(Drop)]
pub struct Entry<'a> {
    pub name: &'a [u8],
    pub source: Source,
}

impl<'a> Model for Entry<'a> {
    ghost use Rattle.std.specs.Prelude.{ℕ, List};
    ghost use Rattle.semantics.specs.declared.graph.Source.{Source};

    ghost Value = { List ℕ × Source };

    ghost view = { λ e. (e.name.now, e.source) };
}
