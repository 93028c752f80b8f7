//! The static rules of programs with derived forms: a program is checked once, and if it breaks one, its first fault is
//! returned.
#![tactic(auto)]

mod ahead;
mod array_parameters;
mod bindings;
pub mod callee;
pub mod checked;
mod constant;
pub mod entry;
pub mod evaluation;
pub mod frame;
pub mod heads;
mod machine;
mod opened;
pub mod table;

ghost use Rattle.surface_check.specs.Checks.{WordsAreChecked};
ghost use Rattle.surface_check.specs.NumbersChecked.{NumbersAreChecked};

/// Where the words of a program are gone over once, the answer is that of the rules: nothing, or the first fault.
#[tactic(auto, using(crate::proofs::OverFunctions::words_are_checked))]
pub fn words_are_checked()
    ensures { WordsAreChecked }
{}

/// The answer is also theirs where words give names by their numbers in a table, as in code, and `main` is the number of that
/// name, or the first one that is no name's.
#[tactic(auto, using(crate::proofs::Numbers::numbers_are_checked))]
pub fn numbers_are_checked()
    ensures { NumbersAreChecked }
{}
