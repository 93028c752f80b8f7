//! The meaning of a well-formed graph has one outcome, whatever the order of its activities.

ghost use Rattle.law_confluence.specs.Outcome.{UniqueTags, OneOutcome, SecondStoreAlways};

/// What a well-formed graph means does not depend on the order of its activities.
///
/// Along any run no two tokens have the same tag. If some run comes to rest without a clash, every reached state leads on to
/// that state and has no output and no cell that differs from it, none clashes, and all runs to it are equally long. If
/// some reached state clashes, no run comes to rest without a clash.
pub fn has_one_meaning()
    ensures tags { UniqueTags }
    ensures outcome { OneOutcome }
    ensures second_store { SecondStoreAlways }
{}
