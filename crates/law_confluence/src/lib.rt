//! The meaning of a well-formed graph has one outcome, and the outcome satisfies the equations of the graph's nodes.
//!
//! **The statements.** `has_one_meaning` (`specs/Outcome`): along any run, no two tokens have the same tag. If some run comes to rest without a
//! clash, every reached state leads on to the end of that run, has no output and no cell that differs from it, and does not clash. If some reached
//! state clashes, no run comes to rest without a clash. `runs_at_rest_satisfy_equations` (`specs/EquationsSettled`): once a run is at rest, with no
//! clash and no waiting fetch, each port of each node that is taken in an invocation that is due has one value, nothing else has a value, and the
//! values satisfy the nodes' equations.
//!
//! **Why they hold.**
//! 1. In a state in which no two tokens have the same tag, two activities that share a token are the same activity (`ActivityKeys`).
//! 2. So two different activities can be taken in both orders and lead to the same state, or both fill the same cell (`ActivityDiamond`).
//! 3. So any first activity is one step towards the state at rest, and each run can be continued to it (`OutcomeDeterminacy`).
//! 4. No two tokens have the same tag: a history holds all tokens that were ever present, each with its cause, each lawful (`History`). Messages that
//!    meet at a place are rivals, rivals take from one place (`HistoryShare`), and there a tag would have been present twice.
//! 5. At rest, all that can happen has happened (`EquationsRunHappens`): an activity all of whose tokens were present is in the run.
//! 6. A value was present as a token at each use of its port, and a token that was present is a value of the port that it came from
//!    (`EquationsRunUses`, `EquationsRunOrigins`).
//! 7. Where the inputs of an invocation have arrived, each port of each taken node has a value (`EquationsProgressInvocations`). The induction is on
//!    how deep the invocation lies, which is no deeper than the run is long, then on the number of the node, then on turns.
//! 8. The class of a node determines who gives a value to each of its ports, and two givers take from one place (`EquationsValuesGivers`): so there
//!    is one value.
//!
//! **The files**, by chapter.
//! - `Orders`: lists in another order, with a decision for joined lists, and counts over lists; the laws above and the machine use it, too.
//! - `Net`: any net of items and firings: what was made is pending, waits or was taken; each inlet gets one item and each part fires once; how slots
//!   hold what waits; how the meaning follows the moves. `law_net` is one such net.
//! - `Activity`: tokens by their place; what an activity is, what it sends and what it does to memory; two activities in either order.
//! - `History`: the laws of all tokens that were ever present, and that activities keep these laws; runs joined together.
//! - `Outcome`: confluence for any kind of states, resolved graphs, rest and clashes, the clauses; `OutcomeExample`: one whole run.
//! - `Equations`: what a run gives (`RunX`), that all ports get values (`ProgressX`), that these satisfy the equations (`ValuesX`), outputs, cells
//!   and tokens at the end (`EndX`), and worked examples (`ExampleX`), of which `EquationsExampleFalse` shows that two premises are needed.
#![tactic(auto)]

mod one_outcome;
mod port_values;

pub use one_outcome::has_one_meaning;
pub use port_values::runs_at_rest_satisfy_equations;
