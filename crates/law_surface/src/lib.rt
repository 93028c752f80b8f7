//! Derived forms and the core: what a good program of one is in the other.
//!
//! **The statements.** `core_is_surface` (`specs/CoreIsSurface`): each good program of the core is a good program with derived forms, which has the
//! same tokens and is short for itself. `desugared_programs_fit` (`specs/GoodGivesGood`): what a good program with derived forms is short for fits the
//! grammar of the core. `good_programs_give_good` (`specs/GoodGivesGood`): and it keeps the rules of the core, so it is a good program of the core.
//! `surface_programs_keep_meaning` (`specs/SurfaceMeans`): so what its graph has at rest is what that computes. `placed_programs_are_apart` (`specs/PlacedApart`): in a program with places of its own no two tokens have one place, and `placed_programs_are_good`: it is good where the program is.
//! `names_are_same` (`specs/SameNames`): a run of letters and digits is a name here exactly if it is one in the core.
//! `depth_is_found` (`specs/DepthIsFound`): a core program has a part that is too deep exactly if it is deeper than 200.
//! `prefix_is_free` (`specs/PrefixIsFree`): no name of a text begins as the hidden ones do.
//! `instances_are_new` (`specs/InstancesAreNew`): the name of an instance is no name of the text, not that of another instance, and no hidden one.
//!
//! **Why they hold.** By induction on the tree. A program of the core has in each of its parts no `let` to hold and no hidden name to give
//! (`EmbeddedDesugared`); what is known of its items are those of the core (`EmbeddedHeads`), so the rules say the same (`EmbeddedRules`). What is made
//! of a part fits where the parts do (`FitMade`), since brackets are put where the grammar wants them; and its level is as high as an operator around
//! it asks (`DesugaredFits`). Constants, lengths and bounds are small, as the rules have checked (`ConstantsSmall`). The places of a part are numbers of
//! its words, each the place of one token at most (`PlacedApart`).
//!
//! What a part becomes keeps the rules of the core in each scope that has the names of the part's (`PartsKeepRules`): its `let`s bind hidden names, which
//! are no items (`HiddenNames`), and what is made of parts has as many values as they have (`RulesMade`, `CoreLoops`). A part keeps the rules also in a scope
//! that has no more than the names which it uses (`Narrower`), so a turn of the core takes no more from outside than those (`Widths`). Each call with arrays
//! has its instance, since instances are added until none is new (`InstancesClosed`), and each is found under its name (`CoreHeads`).
#![tactic(auto)]

ghost use Rattle.law_surface.specs.CoreIsSurface.{CoreIsSurface};
ghost use Rattle.law_surface.specs.DepthIsFound.{DepthIsFound};
ghost use Rattle.law_surface.specs.GoodGivesGood.{DesugaredFits, DesugaredKeepsRules, GoodGivesGood};
ghost use Rattle.law_surface.specs.InstancesAreNew.{InstancesAreNew};
ghost use Rattle.law_surface.specs.PlacedApart.{PlacedApart};
ghost use Rattle.law_surface.specs.PrefixIsFree.{PrefixIsFree};
ghost use Rattle.law_surface.specs.SameNames.{NamesAreSame};
ghost use Rattle.law_surface.specs.SurfaceMeans.{PlacedIsGood, ShortKeepsMeaning, SurfaceMeans};

/// A good program of the core is a good program with derived forms: it has the same tokens, is as deep, keeps the rules, and is
/// short for itself, with its places.
pub fn core_is_surface()
    ensures law { CoreIsSurface }
{}

/// What a good program with derived forms is short for fits the grammar of the core.
pub fn desugared_programs_fit()
    ensures law { DesugaredFits }
{}

/// In a placed program no two tokens have one place.
pub fn placed_programs_are_apart()
    ensures law { PlacedApart }
{}

/// A run of letters, digits and `_` is a name exactly if it is one in the core.
pub fn names_are_same()
    ensures law { NamesAreSame }
{}

/// A core program has no part that is too deep exactly if it is at most 200 deep.
pub fn depth_is_found()
    ensures law { DepthIsFound }
{}

/// No name of a text begins with the prefix of the hidden ones, where the text has fewer than 2^64 names.
pub fn prefix_is_free()
    ensures law { PrefixIsFree }
{}

/// The name of an instance is no name of the text, not that of an instance before it, and no hidden one.
pub fn instances_are_new()
    ensures law { InstancesAreNew }
{}

/// What a good program with derived forms is short for keeps the rules of the core, so it is a good program of the core, where
/// the text has fewer than 2^64 names.
pub fn good_programs_give_good()
    ensures rules { DesugaredKeepsRules }
    ensures good { GoodGivesGood }
{}

/// A good program of the core is good with places of its own.
pub fn placed_programs_are_good()
    ensures law { PlacedIsGood }
{}

/// What the graph of a program with derived forms has at rest is what the core program computes that it is short for: of a
/// program, and of a text whose tokens are those of one.
pub fn surface_programs_keep_meaning()
    ensures programs { ShortKeepsMeaning }
    ensures texts { SurfaceMeans }
{
    law_language::lowering_keeps_meaning();
}
