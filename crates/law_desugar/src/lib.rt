//! What code makes of a good program with derived forms: a program of the core in code that keeps the rules.
//!
//! **The statements** (`specs/CoreIsChecked`). `desugared_code_is_good`: the words that a pass makes of a good program, placed, are those of a
//! program of the core that was checked; and of a plain program the steps of `desugar` make such words.
//!
//! **Why they hold.** By the laws of `law_surface` what a good program is short for is a good program of the core, also with places of its
//! own, and no name of the text begins as the hidden ones do. By those of `desugar` the words are those of that program under the table.
#![tactic(auto)]

ghost use Rattle.law_desugar.specs.CoreIsChecked.{CodeIsGood, PlainCodeIsGood, PrefixIsTables};

/// Words of what a good program is short for are, with places of their own, a good core program in code. Those that the steps make of a
/// plain program are such words, under a table that has the hidden names after those of the text. The prefix of these is the one that
/// is found in the table.
pub fn desugared_code_is_good()
    ensures words { CodeIsGood }
    ensures prefix { PrefixIsTables }
    ensures plain { PlainCodeIsGood }
{
    law_surface::prefix_is_free();
    law_surface::good_programs_give_good();
    law_surface::placed_programs_are_good();
    desugar::words_are_placed();
    desugar::tables_are_free();
    desugar::core_is_made();
}
