//! Programs with derived forms: the parser as an automaton, and the law that it reads exactly the programs that fit the grammar.
//!
//! **The statement**, `automaton_reads_the_grammar` (`specs/Law`): the automaton (`specs/Automaton`) reads the tokens of a text exactly if they are
//! the tokens of a program that fits the grammar and is at most 200 deep, and there is then only one such program; otherwise its fault is the first
//! one, with its kind.
//!
//! **Why it holds.**
//! 1. Each symbol of the stack stands for a sort of parts of trees, with their tokens and words; where it goes on with what was before it, for what
//!    that becomes (`Meaning`). Each step is right in this sense (`ExplainOperands`, `ExplainForms`, `ExplainItems`), so what is read is a program
//!    (`Runs`, `Sound`). Each stack can be read to its end, so what was read goes on to a program.
//! 2. What a stack makes of all the tokens that are left is a function of it (`Reading`). The tokens of a tree lead from stack to stack, by the form of
//!    its parts (`ReadOperands`, `ReadForms`, `ReadBodies`); a step that begins with an `if` is read as the expression would be (`Complete`).
//! 3. A stack machine reads a tree back from its words (`Rebuilding`, `Rebuilt`): so no text has two programs.
//! 4. Places settle no move (`Alike`). So where a program's tokens go on, the automaton takes the next one, wherever they are; and what is too deep is
//!    taken where more may be open (`FirstFault`). A fault's kind is by definition what the automaton would do with `+` or with 0 in its place.
#![tactic(auto)]

mod parser;
pub mod symbol;

pub use parser::automaton_reads_the_grammar;
