//! The names of a program, each once.

ghost use Rattle.std.specs.Prelude.{◌≡◌, ℕ, Some, [], IfOk, IfErr};
ghost use Rattle.surface.specs.Spelled.{lexeme};
ghost use Rattle.source.specs.declared.fault.FaultKind.TheVariants.{Memory};
ghost use Rattle.surface_text.specs.Naming.{IsTable, IsNumberOf, IsNumbered, IsSaid};

use crate::lexeme::Lexeme;
use graph::Name;
use source::fault::FaultKind;
use source_tokens::name_at;
use std::alloc::{AllocError, Allocator};
use std::collections::BTreeMap;
use surface::token::{Token, TokenKind};

/// For so many hashes the number of the last name that was read with that hash is stored.
const SLOTS: usize = 4096;

/// The names so far, and a map from each to its number.
#[derive(Drop)]
pub(crate) struct Names<'a, A: Allocator> {
    pub numbers: BTreeMap<&'a [u8], usize, A>,
    pub table: Vec<Name<'a>, A>,
    /// Numbers of names by their hashes. They are looked at, but not relied on.
    pub recent: Vec<usize, A>,
}

/// No name was read recently.
fn no_recent<A: Allocator>(alloc: A) -> Result<Vec<usize, A>, AllocError> {
    Ok(vec![in alloc; 0; SLOTS]?)
}

/// The place of a name among those that were read recently.
fn slot_of(name: &[u8]) -> usize {
    let mut hash: u32 = 0;
    for b in name {
        hash = hash.wrapping_mul(31).wrapping_add(u32::from(*b));
    }
    hash as usize % SLOTS
}

impl<'a, A: Allocator + Clone> Names<'a, A> {
    /// Nothing was read.
    pub(crate) fn new(alloc: &A) -> Result<Names<'a, A>, AllocError>
        ensures indexed { IfOk result (λ names. IsTable names.numbers names.table.items) }
        ensures empty { IfOk result (λ names. names.table.items ≡ []) }
    {
        Ok(Names {
            numbers: BTreeMap::new(alloc.clone()?),
            table: Vec::new(alloc.clone()?),
            recent: no_recent(alloc.clone()?)?,
        })
    }

    /// The number of a name that is the last one with its slot.
    fn recent_number(&self, slot: usize, name: &[u8]) -> Option<usize>
        ensures { (n : ℕ) → result ≡ Some n → IsNumberOf self.now.table.items name.now n }
    {
        let number = *self.recent.get(slot)?;
        let known = self.table.get(number)?;
        if known.bytes == name {
            Some(number)
        } else {
            None
        }
    }

    /// The number of a name, which is a new one where the name is new.
    fn number(&mut self, name: &'a [u8]) -> Result<usize, FaultKind>
        ensures numbered { IsTable self.old.numbers self.old.table.items
            → IfOk result (λ n. IsNumbered self.old.table.items self.new.numbers self.new.table.items name.now n) }
        ensures memory { IfErr result (λ kind. kind ≡ Memory) }
    {
        let slot = slot_of(name);
        if let Some(number) = self.recent_number(slot, name) {
            return Ok(number);
        }
        let number = self.look_up(name)?;
        if slot < self.recent.len() {
            self.recent[slot] = number;
        }
        Ok(number)
    }

    /// The number of a name by the map, which is a new one where the name is new.
    fn look_up(&mut self, name: &'a [u8]) -> Result<usize, FaultKind>
        ensures numbered { IsTable self.old.numbers self.old.table.items
            → IfOk result (λ n. IsNumbered self.old.table.items self.new.numbers self.new.table.items name.now n) }
        ensures memory { IfErr result (λ kind. kind ≡ Memory) }
    {
        if let Some(number) = self.numbers.get(&name).copied() {
            return Ok(number);
        }
        let number = self.table.len();
        let Ok(()) = self.table.push(Name { bytes: name }) else {
            return Err(FaultKind::Memory);
        };
        let Ok(_) = self.numbers.insert(name, number) else {
            return Err(FaultKind::Memory);
        };
        Ok(number)
    }

    /// What a token of the text says.
    pub(crate) fn lexeme(&mut self, text: &'a [u8], token: &Token) -> Result<Lexeme, FaultKind>
        ensures said { IsTable self.old.numbers self.old.table.items
            → IfOk result (λ l. IsSaid self.old.table.items self.new.numbers self.new.table.items (lexeme text.now token.now) l) }
        ensures memory { IfErr result (λ kind. kind ≡ Memory) }
    {
        Ok(match token.kind {
            TokenKind::Word { keyword } => Lexeme::Word { keyword },
            TokenKind::Mark { sign } => Lexeme::Mark { sign },
            TokenKind::Number { number } => Lexeme::Number { number },
            TokenKind::Name { len } => Lexeme::Name {
                name: self.number(name_at(text, token.at, len))?,
            },
        })
    }
}
