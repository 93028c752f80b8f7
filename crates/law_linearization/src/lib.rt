//! The commits of elements that run freely, in one legal history, are one run of the machine. This crate has only laws, and no code.
//!
//! **The statement.** `free_runs_are_runs` (`specs/HistoryLaws`, `specs/Ends`): a legal history of blocks of events, of all elements, is one run of
//! the machine; a block whose tokens are in the pool may be taken first; what is left is what elements hold and what lies in boxes. When all elements
//! ran freely and their seats are joined, what each element did and what the mesh says of all seats is one run, and the report of the lanes shows it.
//!
//! **Why it holds.**
//! 1. A step of a lane is an event wherever the lane's part is the element's, and it leaves the parts of other elements as they are
//!    (`HistoryActing`).
//! 2. So blocks that are legal one after another are one run, block by block (`HistoryRunning`).
//! 3. Tokens are addressed: only an element's own blocks spend its tokens. So a block whose tokens are there may be taken first
//!    (`HistoryReordering`).
//! 4. Each element's account is balanced: what it began with, took and made is what it holds, spent and posted. Summed over the elements, what is
//!    left is what they hold and what lies in boxes (`EndsBalancing`).
//! 5. The mesh's history has each element's commits in their order, so each commit names that element's next block: this gives a legal history of
//!    blocks (`HistoryWeaving`).
//! 6. With that history, lanes and tokens on their way are those of a run (`EndsJoining`, `Ends`), and the report shows it (`EndsShowing`).
//!
//! **The files**, by chapter.
//! - `History`: blocks, histories, and their runs; `Ends`: what is left, and what the report shows.
#![tactic(auto)]

ghost use Rattle.law_linearization.specs.HistoryLaws.{StepsAct, ActsCommute, RunOfHistory, TakesFirst, WhatIsLeft, BeganFreely, ShowsFreely, StopsFreely};
ghost use Rattle.law_linearization.specs.Ends.{EndsFreely};

/// A step of a lane is an event wherever the lane's part is the element's, and leaves the parts of other elements as they are. A
/// legal history of blocks of such events is one run of the machine. The next block of an element may be taken first where its
/// tokens are in the pool. What the history leaves is what elements hold and what lies in boxes; where lanes and tokens on their
/// way hold that, the report of the lanes shows the run. When all elements ran freely and their seats are joined, what each element
/// did and what the mesh says of all seats is one run, known from the lanes and from what is on its way.
pub fn free_runs_are_runs()
    ensures step { StepsAct }
    ensures commute { ActsCommute }
    ensures run { RunOfHistory }
    ensures first { TakesFirst }
    ensures left { WhatIsLeft }
    ensures began { BeganFreely }
    ensures shows { ShowsFreely }
    ensures stops { StopsFreely }
    ensures ends { EndsFreely }
{}
