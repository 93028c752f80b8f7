//! The code of every graph.

ghost use Rattle.law_compiler.specs.Graphs.{ExpandedIsTidy, GraphsFollow, PlansHaveOrigins};

/// The origins of a graph's instructions can be given in the graph's version, and its landings lie in their blocks. If the first
/// plan of a graph is as required, and folding keeps what passes must keep of it, then the graph's code is faithful with any good
/// slots, and keeps what is promised of frames and slots that are used again.
pub fn graphs_follow()
    ensures origins { PlansHaveOrigins }
    ensures tidy { ExpandedIsTidy }
    ensures follow { GraphsFollow }
{}
