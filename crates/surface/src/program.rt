//! A program with derived forms as code has it.

use crate::word::Word;
use graph::Name;
use std::alloc::Allocator;
use std::marker::Model;

/// The names of a program, each once, and its words, which give a name by its number among these. There is a tree that fits
/// the grammar, whose words they are, and its names are as texts have them. Who makes one proves that.
#[derive(Drop)]
pub struct Program<'a, A: Allocator> {
    pub names: Vec<Name<'a>, A>,
    pub words: Vec<Word<usize>, A>,
}

impl<'a, A: Allocator> Model for Program<'a, A> {
    ghost use Rattle.surface.specs.Words.{NamedWords, HasTree};

    ghost Value = { NamedWords };

    ghost view = { λ p. record { names = p.names.items; words = p.words.items } };

    ghost invariant = { λ p. HasTree p.names.items p.words.items };
}
