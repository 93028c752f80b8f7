//! It is enough that a plan is faithful in the runs that use each frame once.
//!
//! **The statement.** `once_suffices` (`specs/Fresh`, `specs/Bounded`, `specs/Alike`, `specs/FreshReady`): if a plan is faithful in these runs,
//! orderly, wired and bounded, its code is faithful in all runs; these runs are bounded if each instruction has few destinations; a plan whose runs
//! look like those of a faithful plan is as faithful; and so all that is required of a plan for its code is preserved by each pass that keeps it.
//!
//! **Why it holds.**
//! 1. Take any run of the code. Give a frame a new name each time it is handed out, and give each holder its own slot: the result is a run of the
//!    plan that uses each frame once (`law_reuse`).
//! 2. Faithfulness speaks of outputs, cells, waiting requests and counts: names of frames and slots do not occur there (`FreshFaith`).
//! 3. In an orderly run a port gets one token in a frame, except the ports of `give` and `take`. The weight of a token, a slot or a reader is what it
//!    may still cause besides these tokens (`BoundedWeights`).
//! 4. Each event costs one, paid by the weight that it removes and the charge of its token's port (`BoundedSpending`).
//! 5. Each charge is paid once in a frame (`BoundedRows`), and there are no more frames than requests (`BoundedCovered`): so there are at most
//!    `6 (n + 1) (r + 1)` events (`Bounded`).
//! 6. Runs that look alike have the same outputs, cells, readers and requests, and as many requests for frames and credits: so faithfulness carries
//!    over (`Alike`).
//!
//! **The files**, by chapter.
//! - `Fresh`: the clauses on faith, all that is required of a plan, and the arcs that an event uses; `Bounded`: the bound; `Alike`: runs that look
//!   alike.
#![tactic(auto)]

ghost use Rattle.law_fresh_frames.specs.Fresh.{OnceSuffices};
ghost use Rattle.law_fresh_frames.specs.Alike.{AlikeIsFaithful};
ghost use Rattle.law_fresh_frames.specs.Bounded.{OrderlyIsBounded};
ghost use Rattle.law_fresh_frames.specs.FreshReady.{ReadyStays, ReadyCodeIsFaithful};

/// The code of a plan that is faithful in the runs that use each frame once is faithful in all. These runs are bounded, if
/// the plan is orderly and its instructions have few destinations. A plan whose runs look like those of a faithful one is as
/// faithful; so what is required of a plan for its code is preserved by each pass that keeps it.
pub fn once_suffices()
    ensures faithful { OnceSuffices }
    ensures alike { AlikeIsFaithful }
    ensures bounded { OrderlyIsBounded }
    ensures stays { ReadyStays }
    ensures code { ReadyCodeIsFaithful }
{}
