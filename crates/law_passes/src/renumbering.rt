//! Plans that are alike except for the numbers of their holders.

ghost use Rattle.law_passes.specs.RenumberFolded.{FoldingRenumbers, FoldingKeeps};
ghost use Rattle.law_passes.specs.RenumberKeeps.{RenumberedKeeps};

/// A plan whose holders get other numbers keeps its runs, their order and its bounds. Folding numbers holders anew after
/// everything else is done, so it keeps what passes must keep of any plan.
pub fn renumbering_keeps()
    ensures keeps { RenumberedKeeps }
    ensures folding { FoldingRenumbers }
    ensures folding_keeps { FoldingKeeps }
{}
