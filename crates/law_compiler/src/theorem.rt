//! The code of every graph means what the graph means.

ghost use Rattle.law_compiler.specs.Whole.{GraphsKeepPromises, PartsSuffice, WiredLeadsToNoneOften};

/// The lemmas on the net of contexts, on the wires of the plan that a graph becomes, and on the passes make the law.
pub fn the_parts_suffice()
    ensures tidy { WiredLeadsToNoneOften }
    ensures suffice { PartsSuffice }
{}

/// The code of every well-formed graph within the limits of a text is faithful to it with any good slots, and keeps what is
/// promised of frames and slots that are used again.
pub fn every_graph_keeps_promises()
    ensures { GraphsKeepPromises }
{}
