//! The wires of the code of a graph.

ghost use Rattle.law_wiring.specs.WrittenFit.{BlocksFit};
ghost use Rattle.law_wiring.specs.WrittenHalves.{PlainCodeIsWritten, TurnCodeIsWritten, WrittenIsFed, WrittenFollowsArms, WrittenLeadsOn};
ghost use Rattle.law_wiring.specs.WholeStatic.{CodeSuffices, EveryIsStatic, EveryIsWired};

/// The code of each block of a graph, that of a call and that of a loop's turn, is laid out by the parts and the wires that are
/// written down from the block. Each inlet is fed by one side, what leaves at a node goes to its uses, the wires stay in their arms,
/// and every side leads on. So the plan of every graph is wired.
pub fn wires_are_written()
    ensures fit { BlocksFit }
    ensures code { PlainCodeIsWritten }
    ensures turns { TurnCodeIsWritten }
    ensures fed { WrittenIsFed }
    ensures arms { WrittenFollowsArms }
    ensures leads { WrittenLeadsOn }
    ensures suffice { CodeSuffices }
    ensures all { EveryIsStatic }
    ensures wired { EveryIsWired }
{}
