//! The net of contexts: a net of items and firings lies between the machine's runs and the meaning's, and its lemmas give the theorem.
//!
//! **The statements.** `packages_suffice` (`specs/ContextsTheorem`, `specs/ContextsPackages`): let a plan be wired as its graph (`AreWired`). If each
//! event of the machine is some moves of the net, each firing is some activities of the meaning, the net is lawful, and contexts end as stated, then
//! the plan keeps faith: in runs that use each frame once it is faithful and orderly, its returns land rightly, and its loops keep their bounds.
//! `arms_hold`, `runs_keep`, `tokens_match`: of these lemmas, those on the laws of the net and on what follows from them along runs: each port gets
//! one token, none is excluded, switches agree, continuations land, loops keep their bounds.
//!
//! **Why they hold.**
//! 1. A context names an invocation by where it was made, so nothing has to be said of frames that are used again: one map leads from contexts to
//!    frames (`ContextsMirror`).
//! 2. A code block is described by its parts and wires (`ContextsParts`, `ContextsBlocks`, `ContextsWires`); an item is a word at an inlet of a part
//!    in a context.
//! 3. In any net of items and firings (`Net`, in `law_confluence`), what was made is what is pending, what waits and what was taken. So an inlet that
//!    one part feeds gets one item, and a part fires once, if two ways into an inlet are never both taken (`NetArms`, there): each lies in an arm of
//!    a conditional that one word decided.
//! 4. The net of contexts is such a net, by its wires alone: words fit (`WiredWords`), inlets are fed once (`WiredFed`), only what decided an arm
//!    leads into it (`WiredEntered`), and two firings of a part share an inlet or lie in opposite arms (`WiredRivals`).
//! 5. A token at a port is the token of one item (`RunsArrives`), so a port gets one token, and all tokens of a frame are for one block; what waits
//!    at a token's slot is of the other side (`RunsMatching`).
//! 6. A loop's slot is a function of what fired (`ContextsCredits`), so its four instructions find what they take (`Credits`, `CreditsTaken`), and
//!    the turns that are granted are at most the bound more than those that were given back (`CreditsKept`).
//! 7. By induction along a run: the net follows the machine, it is sound, words fit, and the meaning follows the net (`Keeps`;
//!    `ContextsComposition`).
//!
//! **The files**, by chapter.
//! - `Contexts`: definitions of parts, blocks, wires, contexts, firings, laws, and how states stand for each other; the theorem and its composition;
//!   an example.
//! - `Wired`: what a firing makes, and the four laws, by the wires of a code block alone.
//! - `Runs`: what holds along a run that keeps to the net.
//! - `Credits`: the credits of loops along such a run.
#![tactic(auto)]

mod contexts;
mod runs;

pub use contexts::packages_suffice;
pub use runs::{arms_hold, runs_keep, tokens_match};
