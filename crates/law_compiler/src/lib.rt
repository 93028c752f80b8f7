//! THE THEOREM of the compiler: the code of every graph is faithful to it, and uses frames and slots again as promised.
//!
//! **The statement.** `every_graph_keeps_promises` (`GraphsKeepPromises`, in `specs/Whole`): for each well-formed graph within the limits of a text,
//! the code that the compiler makes, with any good slots, is faithful; nothing names a frame when it is released; loops keep their bounds; a slot has
//! one holder at a time (`KeepsPromises`, in `specs/Graphs`). Such code exists: by `graphs_compile` (`specs/Objects`) the plan of a well-formed graph
//! is sound, and with any good slots it has an object unless it is too large.
//!
//! **Why it holds.**
//! 1. The first plan of a graph is wired (`law_wiring`), so it keeps faith in runs that use each frame once. This follows from the lemmas on the net
//!    of contexts (`law_net`), which are all proved (`law_machine_refines_net`, `law_net_refines_meaning`, `law_net`, `law_end`): `WholeLaw`,
//!    `Whole`.
//! 2. It is tidy: except for a link's landing, no destination leads to a `give` or a `take`, since no wire feeds these (`WholeTidy`, `Graphs`).
//! 3. Folding keeps all of this (`law_passes`) and tidiness (`PassesFoldedTidy`); narrowing keeps all of this, too, and leaves few
//!    destinations.
//! 4. So the code of the last plan over good slots is faithful in all runs (`law_fresh_frames`, `law_reuse`): `Passes`.
//! 5. Emitted code is like that code: it differs only in what no event shows (`Emitted`), so it has the same events (`EmittedPrograms`) and keeps the
//!    same promises (`EmittedPromises`).
//! 6. After each pass, the instructions name what is there and lie within their ranges, so the plan has an object (`ObjectsInstrs`, `ObjectsSound`,
//!    `Objects`).
//!
//! **The files**, by chapter.
//! - `Emitted`: emitted code does what its plan does; `Objects`: plans are sound, and have objects.
//! - `Passes`: the passes one after another; `Graphs`: the code of a graph, if its plan is as required before the passes; `Whole`: the code of every
//!   graph.
#![tactic(auto)]

mod all_passes;
mod any_graph;
mod composition;
mod emitted_loops;
mod emitting;
mod sound_plans;
mod theorem;

pub use all_passes::passes_suffice;
pub use any_graph::graphs_follow;
pub use composition::graphs_compile;
pub use emitted_loops::emitted_code_keeps_loops;
pub use emitting::{emitted_code_is_faithful, own_slots_are_faithful};
pub use sound_plans::sound_plans_have_objects;
pub use theorem::{every_graph_keeps_promises, the_parts_suffice};
