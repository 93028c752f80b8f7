//! What words say of items, from the last to the first.

ghost use Rattle.std.specs.Prelude.{◌≡◌, ◌∷◌, IfOk, OnOk};
ghost use Rattle.std.specs.List.{slice_set};
ghost use Rattle.lowering.specs.Numbered.{kept_read, names_gathered, kept_begun, gathered_table, gathered_cells};
ghost use Rattle.lowering.specs.Scan.{gathered_plans};

use crate::names::name_of;
use crate::plan::Plan;
use crate::scan::Scan;
use graph::{Array, Name};
use source::word::Word;
use std::alloc::{AllocError, Allocator};
use std::collections::VecDeque;
use std::marker::Model;

/// The number of results of the function whose head is read, and the length of the array whose name is next; and how many results
/// the functions after have, by the numbers of their names, and the arrays after.
#[derive(Drop)]
pub struct Heads<'a, A: Allocator> {
    results: u64,
    pub table: Vec<u64, A>,
    len: u32,
    pub arrays: Vec<Array<'a>, A>,
}

impl<'a, A: Allocator> Model for Heads<'a, A> {
    ghost use Rattle.lowering.specs.Numbered.{Numbering};

    ghost Value = { Numbering };

    ghost view = { λ h. record { results = h.results; table = h.table.items; len = h.len; arrays = h.arrays.items } };
}

/// How many cells an array has. What 32 bits cannot count is beyond all memory.
fn cells(len: u64) -> Result<u32, AllocError>
    ensures { IfOk result (λ n. n ≡ len) }
{
    match u32::try_from(len) {
        Ok(number) => Ok(number),
        Err(_) => Err(AllocError),
    }
}

impl<'a, A: Allocator + Clone> Heads<'a, A> {
    /// Nothing is read yet.
    fn new(alloc: &A, names: usize) -> Result<Heads<'a, A>, AllocError>
        ensures { IfOk result (λ h. h ≡ kept_begun names) }
    {
        Ok(Heads {
            results: 1,
            table: vec![in alloc.clone()?; 0; names]?,
            len: 0,
            arrays: Vec::new(alloc.clone()?),
        })
    }

    /// An array's name.
    fn array(&mut self, name: &'a [u8]) -> Result<(), AllocError>
        ensures { OnOk result (self.new ≡ record self.old { len = 0; arrays = (name.now, self.old.len) ∷ self.old.arrays }) }
    {
        let name = Name { bytes: name };
        let len = self.len;
        self.arrays.insert(0, Array { name, len })?;
        self.len = 0;
        Ok(())
    }

    /// A function's name.
    fn function(&mut self, name: usize)
        ensures { self.new ≡ record self.old { results = 1; table = slice_set self.old.table name self.old.results } }
    {
        if name < self.table.len() {
            self.table[name] = self.results;
        }
        self.results = 1;
    }

    /// One word.
    fn read(&mut self, names: &[Name<'a>], word: Word<usize>) -> Result<(), AllocError>
        ensures { OnOk result (self.new ≡ kept_read names.now word self.old) }
    {
        match word {
            Word::Array { name, .. } => self.array(name_of(names, name))?,
            Word::Length { len, .. } => self.len = cells(len)?,
            Word::Function { name, .. } => self.function(name),
            Word::Results { number, .. } => self.results = number,
            _ => {}
        }
        Ok(())
    }
}

/// What is known of a program before it is lowered.
#[derive(Drop)]
pub struct Gathered<'a, A: Allocator> {
    pub plans: VecDeque<Plan<'a, A>, A>,
    /// How many results each function has, by the number of its name.
    pub results: Vec<u64, A>,
    pub arrays: Vec<Array<'a>, A>,
}

/// Goes over the words once, from the last to the first.
pub fn gather<'a, A: Allocator + Clone>(
    alloc: &A,
    names: &[Name<'a>],
    words: &[Word<usize>],
) -> Result<Gathered<'a, A>, AllocError>
    ensures plans { IfOk result (λ t. t.plans.items ≡ gathered_plans (names_gathered names.now words.now)) }
    ensures results { IfOk result (λ t. t.results.items ≡ gathered_table names.now words.now) }
    ensures arrays { IfOk result (λ t. t.arrays.items ≡ gathered_cells names.now words.now) }
{
    let mut scan = Scan::new(alloc)?;
    let mut heads = Heads::new(alloc, names.len())?;
    let mut i = words.len();
    while i > 0 {
        i -= 1;
        scan.read(names, words[i])?;
        heads.read(names, words[i])?;
    }
    Ok(Gathered {
        plans: scan.into_plans(),
        results: heads.table,
        arrays: heads.arrays,
    })
}
