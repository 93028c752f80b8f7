//! Whether many tokens wait.

ghost use Rattle.std.specs.Prelude.{Bool, true, false};

/// Whether as many tokens wait as are taken before it is asked again. Where they do, code asks for no token before it takes one. It is
/// also the site of a step, which is built into the loop of each.
pub trait Waiting {
    ghost MANY: { Bool };

    /// Whether they do.
    const MANY: bool;
}

/// Few tokens wait, or none.
pub struct Few;

impl Waiting for Few {
    ghost MANY = { false };

    const MANY: bool = false;
}

/// As many wait as are taken.
pub struct Many;

impl Waiting for Many {
    ghost MANY = { true };

    const MANY: bool = true;
}
