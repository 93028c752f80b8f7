//! What the compiler's passes keep of a plan, and that the code that results from them is faithful.

ghost use Rattle.law_compiler.specs.Passes.{FoldedIsReady, FoldedIsTidy, PassesSuffice};

/// Folding keeps a plan tidy. If folding also keeps what passes must keep of a plan, then it keeps all that is required of the plan for
/// its code; and the code of the folded and narrowed plan is faithful to the graph with any good slots.
pub fn passes_suffice()
    ensures tidy { FoldedIsTidy }
    ensures ready { FoldedIsReady }
    ensures suffice { PassesSuffice }
{}
