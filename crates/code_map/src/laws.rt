//! Laws of the owners of instructions.

ghost use Rattle.code_map.specs.Examples.{CopiesAreOwned, JoinsAreOwned, LiteralIsLeftOut};
ghost use Rattle.code_map.specs.Laws.{BlocksAreFound, BodiesHaveOwners, JoinsHaveOwners, ObjectHasOwners, PlacesAreJoined, PlacesGiveOwners, PlainHasOwners, PlainIsFound, RowsAreOwned, TailsHaveOwners, VariantHasOwners, VariantIsFound};

/// The instructions of the entries and the nodes of a block have owners: as many as there are, in the order of the code, and as
/// many of each node as its schema adds.
pub fn bodies_have_owners()
    ensures { BodiesHaveOwners }
{}

/// So have the returns of a plain block.
pub fn tails_have_owners()
    ensures { TailsHaveOwners }
{}

/// So have the joins of a block's ends and the release, by the regions of the ends alone.
pub fn joins_have_owners()
    ensures { JoinsHaveOwners }
{}

/// The instructions that the schema of a node adds belong to the node, in both kinds of code.
pub fn rows_are_owned()
    ensures { RowsAreOwned }
{}

/// The instructions of a block's plain code have owners, as many as there are.
pub fn plain_has_owners()
    ensures { PlainHasOwners }
{}

/// So have those of its loop variant.
pub fn variant_has_owners()
    ensures { VariantHasOwners }
{}

/// What is found from a block and from its finished plain code are the parts of its instructions.
pub fn plain_is_found()
    ensures { PlainIsFound }
{}

/// So are those of a loop variant.
pub fn variant_is_found()
    ensures { VariantIsFound }
{}

/// What is found of each code block of a graph's plan are the owners of its instructions.
pub fn blocks_are_found()
    ensures { BlocksAreFound }
{}

/// Places that are carried in the place of marks give the owners that the instructions of a narrowed block have.
pub fn places_give_owners()
    ensures { PlacesGiveOwners }
{}

/// What is read off the places that went through the passes in the place of marks are the owners that are carried through them.
pub fn places_are_joined()
    ensures { PlacesAreJoined }
{}

/// The instructions of an object have owners, as many as there are.
pub fn object_has_owners()
    ensures { ObjectHasOwners }
{}

/// The owners of three small graphs' objects: an operator with a literal operand, copies, and a conditional.
pub fn examples_have_owners()
    ensures literal { LiteralIsLeftOut }
    ensures copies { CopiesAreOwned }
    ensures joins { JoinsAreOwned }
{}
