//! The source language: its parser reads exactly its programs, and lowering keeps their meaning.
//!
//! **The statements.** `automaton_reads_the_grammar` (`specs/Grammar`): the automaton reads the tokens of a text exactly if they are the tokens of a
//! program that fits the grammar and is at most 200 deep, and there is then only one such program; otherwise its fault is the first one, with its
//! kind. `lowered_graphs_are_good` (`specs/LoweredHasText`): the graph of a good program has a text and is well formed. `lowering_keeps_meaning`
//! (`specs/MeansTheorem`): what that graph has at rest is what the program computes.
//!
//! **Why they hold.**
//! 1. What a symbol on the parser's stack does with a token depends on these two alone. Each symbol stands for tokens and words (`GrammarMeaning`),
//!    and each step is right in this sense (`GrammarExplainItems`): so what is read is a program (`GrammarSound`).
//! 2. The tokens of a program lead the automaton from stack to stack, by the form of its parts (`GrammarReadBodies`, `GrammarComplete`).
//! 3. A stack machine reads the words back (`GrammarRebuilt`): so no text has two programs. Two runs over tokens that begin alike are alike
//!    (`GrammarTwoRuns`), so a fault is the first one (`GrammarFirstFault`).
//! 4. At a good site each part is lowered to lines in good form, by induction on the part (`LoweredParts`); blocks and names are then as a text has
//!    them (`LoweredWellFormed`, `LoweredHasText`).
//! 5. A run at rest satisfies the equations of its nodes (`law_confluence`), and these know no order: so each part can be considered by itself
//!    (`MeansSteps`). The module `meaning` says more.
//!
//! **The files**, by chapter.
//! - `Grammar`: the automaton and its theorem; `Lowered`: good form and texts of lowered graphs; `Means`: lowering keeps the meaning.
#![tactic(auto)]

mod lowered_form;
mod meaning;
mod parser;
pub mod symbol;

pub use lowered_form::{lowered_graphs_are_good, names_are_spelled};
pub use meaning::lowering_keeps_meaning;
pub use parser::automaton_reads_the_grammar;
