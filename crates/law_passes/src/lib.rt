//! What the compiler's passes make of a plan keeps what the plan keeps. The passes are folding, which makes literals operands of operators, and
//! narrowing, which inserts copies between instructions.
//!
//! **The statements.**
//! - `folded_runs_are_alike` (`specs/Fold`, `specs/Kept`): the runs of a plan with literals in the code of operators are those of the original plan,
//!   up to the events of literals. The folded plan in which each instruction still has its slot is such a plan.
//! - `renumbering_keeps` (`specs/Renumber`, `specs/RenumberFolded`): a plan whose holders get other numbers keeps its runs, order and bounds. Folding
//!   numbers holders anew at the end, so it keeps what passes must keep of any plan (`FoldingKeeps`).
//! - `copies_keep` (`specs/Spreads`): if a plan is another plan with trees of copies inserted, its runs look like those of the other plan, and it is
//!   orderly, lands rightly, keeps bounds and is tidy if the other plan is.
//! - `narrowing_keeps` (`specs/Narrowed`): a narrowed plan is the plan with copies inserted, so its code is faithful.
//!
//! **Why folding keeps it.**
//! 1. A literal fires as soon as it is triggered. So a token at an operator with a literal operand stands for both operands, and a token at a literal
//!    that already fired stands for what results from it. So the folded plan simulates the original plan (`law_simulation`).
//! 2. The plan that folding makes is such a plan. The ports of literal operands are closed, and only literals name them (`KeptClosed`); instructions
//!    have new places (`KeptSpots`); each destination leads to the new place of its target (`KeptTargets`); so each instruction is what it was or has
//!    a literal operand (`KeptMoves`).
//! 3. A destination that leads from one instruction that stands for itself to another still leads there (`KeptMoves`), and marks, blocks, landings
//!    and entries move with their instructions (`KeptStatic`, `KeptEntries`); so everything is kept (`KeptKeeps`).
//! 4. With other numbers for holders, every event is an event of the plan, slot by slot (`RenumberEvents`, `RenumberRuns`).
//!
//! **Why copies and narrowing keep it.**
//! 1. A port of the new code stands for ports of the old code: the port of a moved instruction for itself, the port of a copy for all leaves of its
//!    tree. So the new plan simulates the old one (`law_simulation`): a copy passes on its word, and its event is no event of the old plan
//!    (`SpreadSimulates`).
//! 2. The new destinations of a moved instruction lead to where its old ones led, directly or through copies (`SpreadWays`, `SpreadMoves`).
//! 3. The copies that narrowing inserts are such trees: a destination leads to a copy that leads to it (`NarrowTrees`), and everything else has a new
//!    place (`NarrowPlaces`, `NarrowSpread`).
//!
//! **The files**, by chapter.
//! - `Kept`: the plan that folding makes before it numbers holders; `Renumber`: other numbers for holders, and both together.
//! - `Spread`: any plan with copies inserted; `Narrow`: the plan that the compiler makes.
#![tactic(auto)]

mod copies;
mod literal_operands;
mod narrowing;
mod renumbering;

pub use copies::copies_keep;
pub use literal_operands::folded_runs_are_alike;
pub use narrowing::narrowing_keeps;
pub use renumbering::renumbering_keeps;
