//! All static rules, over words.

ghost use Rattle.std.specs.Prelude.{◌≡◌, ◌↔◌, ◌⊎◌, IsTrue, IfOk, IfErr};
ghost use Rattle.source.specs.Rules.{main_name};
ghost use Rattle.source_check.specs.Numbers.{IsMain};
ghost use Rattle.surface_check.specs.Checks as checks;
ghost use Rattle.surface_check.specs.Programs.{AreKept, AreBroken};
ghost use Rattle.surface_check.specs.Renamed.{numbers_in};
ghost use Rattle.surface_check.specs.Table.{DoesAs, item_in, out_of_memory};

use crate::entry::Entry;
use crate::heads::{is_main_name, must_be, read};
use crate::machine::check_functions;
use crate::table::Table;
use graph::Name;
use source::fault::FaultKind as CoreKind;
use std::alloc::Allocator;
use surface::fault::Fault;
use surface::program::Program;
use surface::word::Word;

/// A program that keeps the static rules.
#[derive(Drop)]
pub struct Checked<'a, A: Allocator> {
    pub program: Program<'a, A>,
    ghost kept: { AreKept program.names program.words },
}

/// The number of the name `main`, or that of no name.
pub fn main_number<'a>(names: &[Name<'a>]) -> usize
    ensures { IsMain names.now result }
{
    for i in 0..names.len() {
        if is_main_name(&names[i]) {
            return i;
        }
    }
    names.len()
}

fn is_function<A: Allocator>(table: &Table<A>, name: usize) -> bool
    ensures { result ≡ checks.is_function (item_in table.now.entries name) }
{
    match table.get(name) {
        Some(Entry::Function { .. }) => true,
        Some(Entry::Constant { .. } | Entry::Array { .. }) | None => false,
    }
}

/// Checks a program with these names and words: first the heads of all items, then that the function with the number `main`
/// is there, and then the functions. The first fault is returned. `end` is the place after the last byte of the program's
/// text, where `main` is reported as missing.
///
/// The words are gone over three times: for the heads, for which calls are strict, and for the functions. Each takes a few
/// steps; one that has a name seeks it among the parameters of one function that stand for arrays, which are at most 15, and
/// a turn that ends does so for each of its outside names, of which there are at most 15. `Memory` is returned where a
/// growth was refused.
pub fn check_words<'a, A: Allocator + Clone>(
    alloc: &A,
    names: &[Name<'a>],
    main: usize,
    end: usize,
    words: &[Word<usize>],
) -> Result<(), Fault>
    ensures { DoesAs result tt (checks.words_checked (numbers_in names.now) main end words.now) }
{
    let table = read(alloc, names, words)?;
    must_be(is_function(&table, main), CoreKind::NoMain, end)?;
    check_functions(alloc, names, &table, words)
}

/// Returns a program that keeps the static rules as checked, and refuses any other with its first fault. `end` is the place
/// after the last byte of the program's text, where `main` is reported as missing. `Memory` is returned where a growth was
/// refused.
pub fn check<'a, A: Allocator + Clone>(
    alloc: &A,
    end: usize,
    program: Program<'a, A>,
) -> Result<Checked<'a, A>, Fault>
    ensures same { IfOk result (λ c. c.program ≡ program.entry) }
    ensures refused { IfErr result (λ f. (f ≡ out_of_memory) ⊎ AreBroken program.entry.names program.entry.words end f) }
{
    let main = main_number(&program.names);
    check_words(alloc, &program.names, main, end, &program.words)?;
    Ok(Checked { program })
}
