//! Where keeping began.

use std::marker::Brand;

/// What a reader had left when keeping began, where that is known. Each call picks it.
pub trait Start {
    ghost use Rattle.std.specs.Prelude.{ℕ, List, Option};

    ghost remaining: { Option (List ℕ) };
}

impl Start for Brand {
    ghost use Rattle.std.specs.Prelude.{None};

    ghost remaining = { None };
}
