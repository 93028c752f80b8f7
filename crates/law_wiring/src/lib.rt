//! The plan of every well-formed graph is wired as the graph says, names what is there, goes forward, and is shaped.
//!
//! **The statements.** `wires_are_written` (`specs/WrittenHalves`, `specs/WholeStatic`): the code of each block is laid out by the parts and wires
//! that are written down from the block, and these are fed, go to their uses, stay in their arms and lead on; so the plan is wired (`EveryIsWired`).
//! `plans_name_rightly`, `plans_keep_to_their_graphs`, `plans_are_shaped`, `arcs_go_forward`: what an instruction names is there; loops open with the
//! graph's bounds, only switches have marks, and holders are numbered in order; instructions have as many destinations as their kind wants; each
//! destination is a later instruction of its block.
//!
//! **Why they hold.**
//! 1. A builder adds instructions and arcs between them. What each step keeps, whatever the graph is, holds of the block (`KeepingSteps`).
//! 2. The parts and wires of a block are written down from the block alone (`specs/Written`); each part that is there occurs once among them
//!    (`PartsThere`).
//! 3. Step by step, the instructions are laid out as those parts, with destinations as those wires, each of which leads ahead (`Laid`); each code
//!    block of a plan is there (`CodeCompose`).
//! 4. So what is left to show concerns lists of wires: as many wires lead to an inlet as there are parts with it (`FedOnce`), so one side feeds it
//!    (`Fed`).
//! 5. What leaves at a node goes to its uses, and nothing else stands for a token (`Uses`); in the code of a turn the values go to the next turn and
//!    back (`Turns`).
//! 6. A wire stays in its region or enters from its arm (`WrittenLaws`), and carries the kind of word that its inlet takes (`WrittenSuits`).
//! 7. A side that no wire leaves is an end, and ends are joined, both arms or none (`WrittenBothArms`, `WrittenLeads`).
//! 8. Arcs and shapes are read off the wires (`CodeRead`). A destination is the place of an inlet, and a part that has an inlet is first in its row
//!    (`ArcsLaws`). An instruction has as many destinations as wires leave its part: if it is answered, one wire leaves its part for a use, as uses
//!    were counted (`ShapesNoted`), or for a join (`ShapesClosed`).
//!
//! **The files**, by chapter.
//! - `Keeping`: the induction over a builder's steps, for what each step keeps, whatever the graph is.
//! - `Bounds`, `Facts`: two laws of any plan, each from the builder's steps to the plan.
//! - `Written`: the wires that are written down, and the laws of each wire; `Parts`: the parts.
//! - `Laid`: the builder's instructions are laid out as they are written down; `Code`: the code of a block, and all blocks of a plan.
//! - `Fed`, `Uses`, `Turns`: inlets, uses, and the code of a loop's turn.
//! - `Whole`: all of it, and an example by computation.
//! - `Arcs`, `Shapes`: where the destinations of a plan lead, and how many an instruction has; with lists of instructions (`ArcsLists`).
#![tactic(auto)]

mod arcs;
mod facts;
mod keeping;
mod shapes;
mod wires;

pub use arcs::arcs_go_forward;
pub use facts::plans_name_rightly;
pub use keeping::plans_keep_to_their_graphs;
pub use shapes::plans_are_shaped;
pub use wires::wires_are_written;
