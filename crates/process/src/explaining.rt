//! What explains a run.

ghost use Rattle.std.specs.Prelude.{◌≡◌, IfOk, ℕ, List, Option, drop, map, option_map};
ghost use Rattle.outcomes.specs.declared.outcome.Outcome as Outcomes;
ghost use Rattle.process.specs.Hinted.{accounts_by_hint, text_of};

use hints::{Hint, explain, explain_program};
use outcomes::Outcome;
use std::alloc::{AllocError, Allocator};
use std::convert::AsStr;

/// What explains a run, if anything does.
pub trait Explain {
    /// Whether this text, or none, explains these words, after the program's name, this input, if it was stored, and the
    /// outcome, where no write failed.
    ghost accounts: { List (List ℕ) → Option (List ℕ) → Option Outcomes.Outcome → Option (List ℕ) → Type 0 };

    /// The explanation of a run for a person. `words` are the words of the command line, the program's name first. `program` is the
    /// text of the program that the graph of the input was made of, if there is one. `input` is what was read, if that was stored.
    /// `outcome` is that of the words; `None` where a write failed.
    fn explain<S: AsStr, A: Allocator + Clone>(
        &self,
        alloc: A,
        words: &[S],
        program: Option<&[u8]>,
        input: Option<&[u8]>,
        outcome: Option<Outcome>,
    ) -> Result<Option<Hint<A>>, AllocError>
        ensures { IfOk result (λ hint. accounts (map S.text (drop 1 words.now)) (option_map (λ i. i.now) input.entry) outcome (option_map text_of hint)) };
}

/// The hints of `ets`.
pub struct Hints;

impl Explain for Hints {
    ghost accounts = { accounts_by_hint };

    fn explain<S: AsStr, A: Allocator + Clone>(
        &self,
        alloc: A,
        words: &[S],
        program: Option<&[u8]>,
        input: Option<&[u8]>,
        outcome: Option<Outcome>,
    ) -> Result<Option<Hint<A>>, AllocError> {
        match program {
            Some(text) => explain_program(alloc, words, text, input, outcome),
            None => explain(alloc, words, input, outcome),
        }
    }
}
