//! The graph of a good program, whose names are as texts have them, has a text and is well formed.

ghost use Rattle.source.specs.Theorem.{LoweringIsWellFormed};
ghost use Rattle.law_language.specs.LoweredHasText.{LoweringHasText, NamesAreSpelled, SpelledNamesAreSingle};

/// The graph keeps all limits of a text, where names are as texts have them; and it is well formed, where no name has `__` in
/// it.
pub fn lowered_graphs_are_good()
    ensures text { LoweringHasText }
    ensures form { LoweringIsWellFormed }
{}

/// The names of a program in code are as texts have them, so both hold of its graph.
pub fn names_are_spelled()
    ensures spelled { NamesAreSpelled }
    ensures single { SpelledNamesAreSingle }
{}
