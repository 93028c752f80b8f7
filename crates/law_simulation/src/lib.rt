//! A plan whose code does what the code of another plan does keeps what that plan keeps: the one argument for all passes over code.
//!
//! **The statement.** `simulation_keeps` (`specs/Simulates`): a token of the new code stands for a token of the old code at another place, or, at an
//! instruction that the old code does not have or has already executed, for what results from it. Then the runs look alike, and the new plan is
//! orderly, lands rightly and keeps bounds if the old one does (`Simulates`, `SimulationKeeps`).
//!
//! **Why it holds.**
//! 1. Beside a run of the new code there is a run of the old code, in which literals, and copies that the new code leaves out, fire as soon as a
//!    token arrives at them (`SimulationPast`); its tokens are those for which the new ones stand (`SimulationState`).
//! 2. An event of the new run is none, one or more events of the old run (`SimulationNext`): none at an instruction that passes on its word; one at
//!    an instruction that stands for itself, which sends to its new destinations what it sent to its old ones (`SimulationSent`, `SimulationEvents`);
//!    two at an operator with a literal operand (`SimulationMeet`). What is seen of both is the same (`SimulationSeen`).
//! 3. A port gets no more tokens than a port of the old code for which it stands (`SimulationCounts`, `SimulationAgree`), and no token is excluded
//!    (`SimulationMatching`).
//! 4. A token arrives only after an arc was used: if the old event used an arc, the new event uses it, or what results from it is on its way through
//!    instructions that pass on their words (`SimulationUses`, `SimulationTold`, `SimulationCaused`). An arc into a copy that is left out counts as
//!    an arc into the port after it.
//! 5. Words, marks, blocks, releases and landings: what a new token carries and names, an old token carried and named (`SimulationWords`,
//!    `SimulationOrder`, `SimulationLands`); the counts of credits are the same (`SimulationSteps`, `SimulationBounds`).
//!
//! **The files**, by chapter.
//! - `Places`: other numbers for instructions; `Simulates`: what tokens stand for, and the principle; `Simulation`: the proof.
#![tactic(auto)]

ghost use Rattle.law_simulation.specs.Simulates.{RelatedRunsAlike, SimulationKeeps};

/// Each run over code whose tokens stand for those of another code looks like a run over that code, and its plan keeps all that passes must keep.
pub fn simulation_keeps()
    ensures alike { RelatedRunsAlike }
    ensures keeps { SimulationKeeps }
{}
