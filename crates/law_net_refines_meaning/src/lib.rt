//! Each firing of the net of contexts is some activities of the meaning.
//!
//! **The statement.** `firings_are_meant` (`specs/Firings`): a proper firing of a lawful net is some activities of the meaning, in any surroundings;
//! and in a well-formed graph each node has as many operands as it wants, from earlier nodes.
//!
//! **Why it holds.**
//! 1. An item stands for some tokens of the meaning, or for none (`meant`, in `law_net`): an argument that waits for a frame stands for that operand
//!    of the call; a signal, a frame and a continuation stand for none.
//! 2. So what a firing takes and what it makes stand for tokens, and some activities must lead from the former to the latter, whatever else is there
//!    (`FiringsActs`). An input passes only where its own line fires: no other firing has that activity (`Passing`).
//! 3. A conditional has no instruction: as soon as its source is sent, it is decided (`FiringsSettles`).
//! 4. A node's part fires as the node does, and the conditionals that it feeds act with it (`FiringsNodes`).
//! 5. For a part that only controls, what it takes and what it sends on stand for the same tokens, or for none (`FiringsControl`).
//! 6. A sender passes an operand into an invocation, a landing takes a result back, and a turn's value goes to the next turn or out (`FiringsCalls`).
//! 7. A fetch asks its cell and the cell answers; a store fills it (`FiringsCells`).
//!
//! **The files.** There is one chapter, `Firings`; the file `Firings` puts all of them together, and `FiringsGraphs` has the operands of a
//! well-formed graph.
#![tactic(auto)]

ghost use Rattle.law_net_refines_meaning.specs.Firings.{AllIsMeant, GraphsAreEarlier, GraphsHaveOperands};

/// A proper firing of a lawful net is some activities of the meaning, in any surroundings. In a well-formed
/// graph each node has as many operands as it wants, and they are from earlier nodes.
pub fn firings_are_meant()
    ensures all { AllIsMeant }
    ensures operands { GraphsHaveOperands }
    ensures earlier { GraphsAreEarlier }
{}
