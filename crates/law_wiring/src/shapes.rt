//! How many destinations the instructions of every plan have.

ghost use Rattle.law_wiring.specs.Shapes.{PlansAreExact, PlansAreShaped, PlansEndInRelease};

/// Each instruction of the plan of a well-formed graph has as many destinations as its kind wants: one that is answered has
/// one first destination and no second one, a link has one landing, and `take` and `release` have none. Besides, a `give`
/// and a `drain` have one first destination and no second one, and a link signals to none. Each code block ends in
/// `release`, which occurs nowhere else.
pub fn plans_are_shaped()
    ensures shapes { PlansAreShaped }
    ensures exact { PlansAreExact }
    ensures release { PlansEndInRelease }
{}
