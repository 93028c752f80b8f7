//! The static rules of the source language: a program is checked once, and if it breaks one, its first fault is returned.
#![tactic(auto)]

ghost use Rattle.std.specs.Prelude.{◌≡◌, ◌⊎◌, ◌≤◌, ℕ, List, [], Err, IfOk, IfErr, OnOk, IsTrue, ◌↔◌, length, slice_index_or};
ghost use Rattle.source.specs.Tree as tree;
ghost use Rattle.source.specs.Rules.{checked, main_name};
ghost use Rattle.source.specs.Words.{IsProgram};
ghost use Rattle.source_check.specs.Checked.{IsChecked};
ghost use Rattle.source_check.specs.Checks as checks;
ghost use Rattle.source_check.specs.Numbers.{IsMain};
ghost use Rattle.source_check.specs.Stack.{DoesAs, out_of_memory, by_number, item_in};

use graph::Name;
use source::fault::{Fault, FaultKind};
use source::program::Program;
use source::word::Word;
use source_tokens::Detail;
use std::alloc::Allocator;

mod bindings;
mod detail;
mod frame;
mod machine;
mod table;

use detail::detail_at;
use frame::Entry;
use machine::check_functions;
use table::{Table, must, read_heads};

/// Why a program is refused: its first fault, and what was known where that was found.
#[derive(Clone, Copy)]
pub struct Broken {
    pub fault: Fault,
    pub detail: Option<Detail>,
}

/// A program that keeps the static rules.
#[derive(Drop)]
pub struct Checked<'a, A: Allocator> {
    pub program: Program<'a, A>,
    ghost checked: { IsChecked program.names program.words },
}

fn is_main<'a>(name: &Name<'a>) -> bool
    ensures { IsTrue result ↔ (name.now ≡ main_name) }
{
    name.bytes == b"main".as_slice()
}

/// The number of the name `main`, or that of no name.
fn main_number<'a>(names: &[Name<'a>]) -> usize
    ensures { IsMain names.now result }
{
    for i in 0..names.len() {
        if is_main(&names[i]) {
            return i;
        }
    }
    names.len()
}

fn is_function<A: Allocator>(table: &Table<A>, name: usize) -> bool
    ensures { result ≡ checks.is_function (item_in table.now name) }
{
    match table.get(name) {
        Some(Entry::Function { .. }) => true,
        Some(Entry::Array) | None => false,
    }
}

/// First the heads of all items, then `main`, then the functions.
fn check_words<A: Allocator + Clone>(
    alloc: &A,
    main: usize,
    end: usize,
    words: &[Word<usize>],
) -> Result<(), Fault>
    ensures { DoesAs result tt (checks.words_checked by_number main end words.now) }
{
    let table = read_heads(alloc, words)?;
    must(is_function(&table, main), FaultKind::NoMain, end)?;
    check_functions(alloc, &table, words)
}

/// Returns a program that keeps the static rules as checked, and refuses any other with its first fault. `end` is the
/// place after the last byte of the program's text, where `main` is reported as missing.
///
/// The words are gone over twice: for the heads of the items, and for the functions. Each takes a few steps, and a turn
/// that ends as many as it has outside names, of which there are at most 15. `Memory` is returned where a growth was
/// refused.
pub fn check<'a, A: Allocator + Clone>(
    alloc: &A,
    end: usize,
    program: Program<'a, A>,
) -> Result<Checked<'a, A>, Broken>
    ensures same { IfOk result (λ c. c.program ≡ program.entry) }
    ensures refused { (p : tree.Program) → IsProgram program.entry.names program.entry.words p
        → IfErr result (λ b. (b.fault ≡ out_of_memory) ⊎ (checked end p ≡ Err b.fault)) }
{
    let main = main_number(&program.names);
    match check_words(alloc, main, end, &program.words) {
        Ok(()) => Ok(Checked { program }),
        Err(fault) => Err(Broken {
            fault,
            detail: detail_at(&program.words, fault.at),
        }),
    }
}
