//! The compiler's code waits for a credit only where a loop has outgrown its bound.
//!
//! **The statement.** `graphs_wait_for_more` (`GraphsWaitForMore`, in `specs/GraphsWait`): in each run of the compiler's code for a well-formed graph
//! within the limits of a text, where an iteration waits for a credit, some run of the meaning calls for iteration `k` of a loop with bound `k`. So
//! the code completes in every order where no loop outgrows its bound and the machine has room (`CompiledLoopsComplete`).
//!
//! **Why it holds.**
//! 1. In a wired plan, what waits in a slot is a word of an item, or of a loop's ledger. In a ledger it is the request of a take; the iteration that asks
//!    has the number of the credits that were granted, and these are the bound more than those that were given back (`CreditLaw`, `law_net`). So
//!    its number is at least the bound. The meaning calls for it (`taker_due`, `law_end`), and so for all iterations before it (`WaitsNet`).
//! 2. A plan whose code does what another plan's code does has the other one's slots, with other places in the words (`WaitsSimulated`). A plan whose
//!    holders have other numbers has what is in a slot in another one (`WaitsRenumbered`). So folding and narrowing keep what a wait shows.
//! 3. A run of the code has beside it a run of the plan in which each frame is used once and each holder has a slot of its own; what waits in a slot
//!    waits in that of its holder (`WaitsShared`). Emitted code has the same runs. What a wait shows is of the meaning alone, so it is the same for all
//!    of them (`Waits`).
//!
//! **Which orders complete.** `GraphsStarveOutside`: at rest, with no frame wanted, the code waits for a credit only where no run of the meaning to its
//! end keeps each loop within its bound. So where one does, and the machine has room, the code completes in every order (`CompiledWithinCompletes`).
//! One does, whatever the bounds, where the iterations of each loop can take place one after another (`law_ordered_runs`). That one does where a run of
//! the code completes is open (`CompletedRunsKeepWithin`).
//!
//! **Why it holds.** Let wired code rest while credits wait. The meaning has come as far as the net (`RestStory`, `law_end`). Take the first activity of
//! the run that keeps within that has not happened there (`FirstMissing`, `law_loops_complete`).
//! 1. It is in an iteration whose credit waits (`NextIsHeld`): of what waits elsewhere no two words meet, as where nothing is wanted (`RestHalts`,
//!    `law_end`).
//! 2. There is such an activity (`HeldHasToken`): where a credit waits a token stands, of a flag in the iteration that asks or of the value that goes to
//!    the next one; and no token is left where the meaning rests well.
//! 3. An iteration before the one that asks, in which the whole run has no later activity, has given back its credit (`DoneIsGivenBack`). No token stands
//!    in it, or in what it invoked, since the rest of the run would take it again. So nothing in it waits at a cell or for a credit. Its inputs have
//!    passed, which only their own lines do (`Passing`, `law_net_refines_meaning`). So it was supplied, all of it has fired (`CleanWhole`, `law_end`),
//!    and it is over.
//! 4. So as many iterations are under way as the bound allows, and one more begins: the run does not keep within (`WithinParts`).
//!
//! **The files**, by chapter.
//! - `Waits`: what a wait shows, from the net to the code; `Within`: where code starves, and which orders complete.
#![tactic(auto)]

ghost use Rattle.law_loop_credits.specs.NetsWait.{NetsWaitForMore, NetsStarveOutside};
ghost use Rattle.law_loop_credits.specs.GraphsWait.{GraphsWaitForMore, CompiledLoopsComplete, GraphsStarveOutside, CompiledWithinCompletes};
ghost use Rattle.law_loop_credits.specs.WithinParts.{NextIsHeld, HeldHasToken, DoneIsGivenBack};

/// In a wired plan, an iteration waits for a credit only where its loop has outgrown its bound.
pub fn nets_wait_for_more()
    ensures waits { NetsWaitForMore }
{}

/// A wired plan starves for credits alone only where no run of the meaning keeps within: what is enabled is in an iteration whose credit waits; where
/// one waits a token stands; and an iteration in which all has happened has given back its own.
pub fn nets_starve_outside()
    ensures next { NextIsHeld }
    ensures held { HeldHasToken }
    ensures back { DoneIsGivenBack }
    ensures within { NetsStarveOutside }
{}

/// The compiler's code waits for a credit only where a loop has outgrown its bound. So it completes where none does, whatever the order.
pub fn graphs_wait_for_more()
    ensures waits { GraphsWaitForMore }
    ensures complete { CompiledLoopsComplete }
{}

/// The compiler's code starves for credits alone only where no run of the meaning keeps each loop within its bound. So it completes, in every order,
/// where one does.
pub fn graphs_starve_outside()
    ensures within { GraphsStarveOutside }
    ensures complete { CompiledWithinCompletes }
{}
