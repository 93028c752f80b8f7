//! When a context is over, what a run at rest shows, and what is left.
//!
//! **The statements.** `ends_are_last`, `frames_return` (`specs/Over`): when the last part of a context has fired, all parts in open arms have fired,
//! nothing of the context is left, and what it invoked is over; so nothing names a frame when it can be taken back. `rest_holds` (`specs/Rest`): a
//! store to a full cell is a second store of the meaning; at rest, with nothing wanted, the machine shows what the graph means; each request for a
//! frame or a credit has its cause in the meaning. `nothing_is_left`: at rest, with nothing wanted and no reader waiting, no frame is out and every
//! slot is empty.
//!
//! **Why they hold.**
//! 1. Each arm that is entered ends in a part that joins it to the other arm (`OverPaths`); so when the last part of a context has fired, all parts
//!    in open arms have fired (`Over`).
//! 2. So nothing of the context is left: no item of its code, no request, nothing held by a cell (`OverLeft`). What it invoked is over, and what
//!    invoked it has sent what it sends there (`OverKin`). So no word that is left names the context (`OverNames`), and when its frame can be taken
//!    back nothing names the frame (`OverLast`).
//! 3. At rest, what arrived at a part that takes one word was taken, and two words of a part do not both wait (`RestWaits`).
//! 4. So what waits stands for tokens of the meaning that also wait (`RestTokens`): no activity is enabled (`RestHalts`), and the meaning's state is
//!    at rest (`RestExact`). Where credits are wanted, those in iterations whose credits wait are; that is what `law_loop_credits` builds on.
//! 5. Beside the moves of the net there is a run of the meaning; each token that an item stood for was present in it, and each input that passed in it
//!    is that of a line that has fired (`RestStory`). So where the arms
//!    round a call are open, the meaning has taken them, and the call is due (`CausesCalls`, `CausesDues`); no two requests are for the same context
//!    (`CausesAsked`).
//! 6. At rest, in invocations in which nothing waits for a credit or at a cell, all parts in open arms of a context that was supplied have fired
//!    (`CleanSupplied`, `CleanWhole`). With nothing wanted and no reader waiting these are all, and each context that has a frame was supplied; so its
//!    frame was handed back (`CleanFrames`).
//!
//! **The files**, by chapter.
//! - `Over`: when a context is over; `Rest`: what the machine shows at rest; `Causes`: what it asked for; `Clean`: nothing is left.
#![tactic(auto)]

mod at_rest;
mod last_parts;
mod none_left;

pub use at_rest::rest_holds;
pub use last_parts::{ends_are_last, frames_return};
pub use none_left::nothing_is_left;
