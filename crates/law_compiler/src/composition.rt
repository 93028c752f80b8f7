//! Any graph, through all passes.

ghost use Rattle.law_compiler.specs.Objects.{PlansAreSound, PlansHaveObjects, PlansTakeInputs, CodeHasBounds};

/// The plan of each well-formed graph within the limits of a text is sound, and has main's inputs; with any good slots it
/// has an object, whose loops open with the graph's bounds.
pub fn graphs_compile()
    ensures sound { PlansAreSound }
    ensures objects { PlansHaveObjects }
    ensures inputs { PlansTakeInputs }
    ensures bounds { CodeHasBounds }
{}
