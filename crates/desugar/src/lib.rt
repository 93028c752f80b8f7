//! A program with derived forms, made into the program of the core that it is short for.
//!
//! **The statement.** `words_are_desugared` (`specs/StepsDesugar`): a pass from the end gives each word of a program a flag
//! (`specs/Flags`), and one from the front (`specs/Steps`) makes of the words and flags the words of the program of the core that it is
//! short for. It speaks of programs that call nothing that is built in and no function with parameters for arrays, and whose arrays have
//! one dimension (`specs/Plain`). `numbers_are_desugared` (`specs/NumbersDesugar`) says the same of words as code has them: names are
//! numbers in a table, and hidden names are numbered after it. `desugar` makes exactly the words that these steps make, where the names
//! stand for what the table of `surface_check` has (`specs/Code`).
//!
//! So a table that has the hidden names after those of the text is one of the core program (`core_is_made`, `specs/CoreMade`, `specs/Tables`): no
//! name is twice there, and each is one that texts may have, where none is too long. A pass from the front gives each word a place of its
//! own, those of the placed program (`words_are_placed`, `specs/Placing`); and one from the end finds the first part that is too deep
//! (`depth_is_by_words`, `specs/DeepSteps`).
//!
//! **Why it holds.** By induction on the tree (`Trees`): the words of a part append the words of what it is in the core, and those of the
//! `let`s that it holds (`Over`). A value stays on a stack, with the place of its first word, so that a hidden name can take its place
//! (`Atoms`); at the end of a statement its `let`s go before it (`Bodies`). A plain program wants no instances (`Wanted`). The
//! flags are those of the tree (`Noted`), since a part leaves open what is open after it (`Passes`, and `Flags` by induction).
//! Neither pass depends on what names are, but on which are the same (`RenamedSteps`, `RenamedFlags`); and of hidden names it is
//! enough that they are no names of the table, since names are compared only with names of the words (`Compared`, `ComparedFlags`).
//! The places, the depth and the names of a part are found by induction, too: its words leave open what was open around them
//! (`Placed`, `DeepSteps`), and its tokens say names of its words alone (`TextNames`).
//!
//! **In code.** `flagging` is the pass from the end, and `maker` the state of the one from the front, with a method for each
//! definition of `specs/Steps`. What the definitions have as lists with the innermost first is a `Vec` with it last (`stack`).
#![tactic(auto)]

ghost use Rattle.std.specs.Prelude.{◌≡◌, IfOk, None, length};
ghost use Rattle.desugar.specs.Code.{numbers};
ghost use Rattle.desugar.specs.CoreMade.{PlainIsMade, PlainIsShort, TableIsSpelled};
ghost use Rattle.desugar.specs.DeepSteps.{DepthIsByNumbers, DepthIsByWords};
ghost use Rattle.desugar.specs.Flags.{flagged};
ghost use Rattle.desugar.specs.NumbersDesugar.{NumbersDesugar, begun};
ghost use Rattle.desugar.specs.Open.{by_number};
ghost use Rattle.desugar.specs.PlacedWords.{NumbersArePlaced, PlacesAreTabled, WordsArePlaced};
ghost use Rattle.desugar.specs.Steps.{steps};
ghost use Rattle.desugar.specs.StepsDesugar.{StepsDesugar};
ghost use Rattle.desugar.specs.Tables.{AllAreReached, FreeIsNotHidden, HiddenNamesAreNew, HiddenNamesAreSpelled, NamesAreFew, PrefixIsFound, TablesAreFree, TextNamesAreSaid, WordsHaveAllNames};

pub mod flagging;
mod forms;
pub mod frame;
mod maker;
mod meanings;
mod stack;

use crate::maker::Maker;
use crate::meanings::Meanings;
use source::word::Word as CoreWord;
use std::alloc::{AllocError, Allocator};
use surface::word::Word;
use surface_check::table::Table;

/// The words of the program of the core that a program is short for, which has these words and so many names, and of whose
/// items the table has what is known. A hidden name has a number after those of all names.
///
/// It goes over the words twice. What goes before an operand, a test or a statement moves no more words than these have, so the time
/// is at most that of the words made, times the depth to which operands and statements with `let`s are nested.
///
/// # Errors
/// A growth was refused, or a count does not fit 64 bits.
pub fn desugar<A: Allocator + Clone>(
    alloc: &A,
    table: &Table<A>,
    names: usize,
    words: &[Word<usize>],
) -> Result<Vec<CoreWord<usize>, A>, AllocError>
    ensures { IfOk result (λ v. v.items ≡ (steps (numbers table.now.entries names) begun (flagged by_number None words.now).words).words) }
{
    let flags = flagging::flags(alloc, words)?;
    let meanings = Meanings {
        table,
        count: names,
    };
    let mut maker = Maker::new(alloc)?;
    for index in 0..words.len() {
        maker.step(&meanings, flags[index], words[index])?;
    }
    Ok(maker.into_words())
}

/// The steps over the words of a program, each with its flag, make the words of the program of the core that it is short for.
pub fn words_are_desugared()
    ensures law { StepsDesugar }
{}

/// They do so also where words give names by their numbers in a table, and hidden names are numbered after it. No name of the
/// table begins as the hidden ones do.
pub fn numbers_are_desugared()
    ensures law { NumbersDesugar }
{}

/// The words of a program of the core, each with the place that the pass over them finds for it, are those of the program with
/// places of its own: with names, and with numbers of a table of names. The places that they had are its table of places.
pub fn words_are_placed()
    ensures words { WordsArePlaced }
    ensures numbers { NumbersArePlaced }
    ensures places { PlacesAreTabled }
{}

/// Words that name those of a core program are its words under a table that has the hidden names after others, none of which is
/// hidden: each name is there once. The table is as long as the numbers ask. A hidden name of at most 24 bytes is one that texts
/// may have.
pub fn hidden_names_are_new()
    ensures length { AllAreReached }
    ensures free { FreeIsNotHidden }
    ensures words { HiddenNamesAreNew }
    ensures spelled { HiddenNamesAreSpelled }
{}

/// The names of a text are those that its tokens say. A program's table has each of them, and the text has no more names than the
/// program has words. No name of it begins as the hidden ones do, where all are names of the text, and the prefix that is free
/// among these is that of the text.
pub fn tables_are_free()
    ensures said { TextNamesAreSaid }
    ensures names { WordsHaveAllNames }
    ensures few { NamesAreFew }
    ensures free { TablesAreFree }
    ensures prefix { PrefixIsFound }
{}

/// A plain program is short for one of the core. What the steps make of it with numbers for names is its core program, under a
/// table that has the hidden names after those of the text, also with places of its own. Each name of the table is one that texts
/// may have.
pub fn core_is_made()
    ensures core { PlainIsShort }
    ensures words { PlainIsMade }
    ensures spelled { TableIsSpelled }
{}

/// A pass over words from their end finds the first part of a core program with which more than 200 would be open at once.
pub fn depth_is_by_words()
    ensures words { DepthIsByWords }
    ensures numbers { DepthIsByNumbers }
{}
