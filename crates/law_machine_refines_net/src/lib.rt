//! Each event of the machine is some moves of the net of contexts.
//!
//! **The statement.** `moves_follow` (`specs/Moves`): the net begins as the machine starts; a token of the pool is the token of an item on its way;
//! and for a wired plan, if the net follows the machine (`Tracks`), it still does so after each event that hands out no frame twice.
//!
//! **Why it holds.**
//! 1. An event takes the token of one item. The part of the item determines the instruction (`MovesFitted`), and the instruction determines what the
//!    rule does (`SendsRules`).
//! 2. A first word waits in its slot, which is its own (`MovesHalts`); a second word finds it, and the part fires (`MovesGoes`).
//! 3. What an instruction sends goes along the wires of its part: so what the event makes is what the firing makes (`Sends`).
//! 4. For every kind of event one thing is shown: that its account balances. The account (`MovesAccount`) says which parts fire, what they take and
//!    make, and what begins or ceases to wait. It balances (`MovesBalanced`) if the machine has changed by that and by nothing else: its tokens, its
//!    frames (`MovesFramed`), the slots and counts of its loops (`MovesLoops`), its other slots, its requests, its cells and its memory. That
//!    everything else stays as it was is shown for each event by the same few lemmas (`MovesPlain`).
//! 5. A fetch or a store at its node asks its cell, or answers at once; a store answers each reader that waits, with one move for each (`Cells`).
//! 6. A frame that is handed out belongs to one context more, and the net stands for the machine as before (`FramesHanded`); a strict call's
//!    arguments are taken and made anew (`FramesStrict`).
//! 7. Words that go into another context go to its entry, its inputs, or the landing that its continuation names (`Outwards`).
//! 8. A loop's slot is what its ledger says before and after each of the four instructions of its credits (`CreditsLedgers`, `CreditsLending`); the
//!    last credit that is given back ends a drain.
//! 9. What goes to the host, and a frame that is handed back, are items on their way like others (`Hosts`).
//!
//! **The files**, by chapter.
//! - `Moves`: accounts, that they balance and what follows; `MovesHalts` and `MovesGoes`; and `MovesEvents`: each event.
//! - `Sends`: along wires; `Cells`: fetches and stores; `Hosts`: what leaves main, and frames that are handed back.
//! - `Frames`: requests for frames and the manager's answers; `Outwards`: into another context; `Credits`: the credits of loops.
#![tactic(auto)]

ghost use Rattle.law_machine_refines_net.specs.MovesCases.{HaltsFollow, GoesFollow};
ghost use Rattle.law_machine_refines_net.specs.Moves.{AllStart, AllTokensAreItems, EventsFollow};

/// The net begins as the machine starts, and a token of the pool is the token of an item on its way. An event that lets an item
/// wait, or that fires a part, leads to what follows; and so does every event: those along wires, those that send into
/// another context, requests for frames and what the manager answers, those of cells and of the credits of loops, and what
/// arrives at the host.
pub fn moves_follow()
    ensures starts { AllStart }
    ensures tokens { AllTokensAreItems }
    ensures halts { HaltsFollow }
    ensures goes { GoesFollow }
    ensures events { EventsFollow }
{}
