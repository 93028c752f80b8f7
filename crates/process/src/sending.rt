//! What is reported on standard error.

ghost use Rattle.std.specs.Prelude.{◌≡◌, drop, map, option_map};
ghost use Rattle.process.specs.HintSent.{Speaks};

use crate::explaining::Explain;
use outcomes::Outcome;
use std::alloc::Global;
use std::convert::AsStr;
use std::io::Write;

/// What was reported on standard error.
#[derive(Clone, Copy, PartialEq, Eq)]
pub enum HintSent {
    /// There is nothing to report.
    Nothing,
    /// A hint.
    Hint,
    /// A beginning of a hint: a write failed.
    Beginning,
    /// Memory was refused, so whether there is something to report is not known.
    Unknown,
}

/// Writes what explains a run with these words, of the graph of this program, if there is one, with this input, if that was stored, and
/// with this outcome.
pub fn send_hint<X: Explain, S: AsStr, E: Write>(
    explainer: &X,
    alloc: Global,
    words: &[S],
    program: Option<&[u8]>,
    input: Option<&[u8]>,
    outcome: Option<Outcome>,
    errors: &mut E,
) -> HintSent
    ensures { Speaks (X.accounts (map S.text (drop 1 words.now)) (option_map (λ i. i.now) input.entry) outcome) (E.contents errors.old)
        (E.contents errors.new) result }
{
    match explainer.explain(alloc, words, program, input, outcome) {
        Ok(Some(hint)) => match hint.write(errors) {
            Ok(()) => HintSent::Hint,
            Err(_fault) => HintSent::Beginning,
        },
        Ok(None) => HintSent::Nothing,
        Err(_refused) => HintSent::Unknown,
    }
}
