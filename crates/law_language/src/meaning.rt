//! Lowering keeps the meaning of a program: what its graph has at rest is what the program computes.
//!
//! **The statement** (`LoweringKeepsMeaning`). A good program, no two of whose tokens have one place, is lowered to a graph that is
//! well formed. Then in each state at rest, with no clash and no fetch that waits, the outputs are those that the program has by
//! its own evaluator, over the memory in the end; the full cells are exactly the program's stores, each made once; and each fault
//! has the origin that lowering gives for its token. In the tree of a text no two tokens have one place, so there it holds as it
//! is (`TextsKeepMeaning`). A machine over faithful code that rests, wants nothing and has no waiting reader shows outputs and
//! cells of such a state (`MachinesShowPrograms`). That lowering gives graphs that are well formed is a premise here, and not proved.
//!
//! **Why it holds.** A run at rest satisfies the equations of its nodes (`law_confluence`), and these know no order. So each part can
//! be considered by itself (`MeansExpr`, `MeansList`, `MeansBody`, `MeansTurn`). A part is active in an invocation if the block has its
//! lines, its region is taken, its trigger has a value (`IsActive`), and the names that it uses have sources with the values that
//! they stand for (`Agrees`). Then it is evaluated to the values of its sources. The stores that it makes are those at its
//! nodes, or in invocations that are made there (`stores_below`): a range of nodes is split as the part is, so nothing is counted
//! twice, and for main's body the range is all of the run. The induction is on how much deeper an invocation can lie (no
//! deeper than the run is long), then on the part. It is not on time: a call is evaluated with all that its function does,
//! also after its result. Only used names matter, so no evaluation is ever moved to other names.
//!
//! - A call's arguments are the inputs of the invocation that it makes, whose results are the values of its ports, and whose
//!   stores are all that lie at its node. That it is due is seen from a port: each function has a result.
//! - A conditional took its predicate's value, so the arm of that truth is taken, and each of its enters has the value of its
//!   source. The lines of the other arm lie in that arm, some in arms of arms, and where an arm is not taken nothing is stored.
//! - A loop has some number of turns, the same for each port. The inputs of a turn are the results of the turn before, and
//!   the outside names are carried through unchanged; the stores of the node are those of the turns, one after the other.
//! - The origin of a token is that of the first line with its place. A count of each place in the tokens and in the lines shows
//!   that a line that makes faults is the only one with its place; a conditional and a loop have many lines, which make none.
//!
//! **The files**, by chapter.
//! - Statements: `MeansHolds` (lines in a block, blocks in a graph), `MeansAgrees`, `MeansBelow` (which stores a part makes), `Means`, `MeansTheorem`.
//! - Lines and blocks: `MeansHolding`, `MeansParts` (parts of an active part), `MeansPlaced` (blocks are at the places of their names),
//!   `MeansLies` (in which arms the lines of a part lie), `MeansScene` (a run with all that is known of it), `MeansStanding`.
//! - Origins: `MeansPlaceCounts`, `MeansPartsTraced` (places of tokens and lines counted), `MeansOriginsTraced`, `MeansTexts` (tokens of a text).
//! - Names: `NamesUsed` (what is used is in scope), `MeansNamesAgree` (through lists of names, `let`, and the enters of an arm), `MeansFirsts`
//!   and `MeansTurnNames` (of a loop).
//! - Numbers: `Counting` (a part has as many sources as values), `MeansRanges`, `MeansStoreLines`, `MeansStoredOnce` and `MeansSilent` (the stores of a
//!   range of nodes, of a quiet node, of a store's node, and of an arm that is not taken), `MeansUnder`, `MeansLoopStores` (those of turns).
//! - Parts: `MeansHaving`, `MeansInputs`, `MeansLeaves`, `MeansOperators`, `MeansCells`, `MeansStore`, `MeansBodies`, `MeansCalls`,
//!   `MeansConditionals`, `MeansIf`, `MeansTurn`, `MeansTurnsGo`, `MeansLoop`; and all of them (`MeansSteps`).
//! - The whole: `MeansMainActive`, `MeansMainDelivers`, `MeansTheorem`; and `MeansExample`: one text that satisfies all premises of the theorem.

ghost use Rattle.law_language.specs.MeansTheorem.{LoweringKeepsMeaning, TokensRise, SpellingsDiffer, TextsKeepMeaning, MachinesShowPrograms};

/// Lowering keeps the meaning of each good program whose tokens have places of their own. The tokens of a text are one after the
/// other, so those of a tree that they spell have places of their own, and it keeps the meaning of each good program of a text.
/// A machine that came to rest over faithful code of its graph, with no reader waiting, shows what the program computes.
pub fn lowering_keeps_meaning()
    ensures meaning { LoweringKeepsMeaning }
    ensures tokens { TokensRise }
    ensures places { SpellingsDiffer }
    ensures texts { TextsKeepMeaning }
    ensures machines { MachinesShowPrograms }
{}
