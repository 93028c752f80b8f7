//! What a mesh passes on.

use std::alloc::Allocator;
use tags::token::Token;

/// Tokens that go from one element to another at once. A mesh gives out the bundles that it was given, so what the invariant of such a
/// type says of the tokens is known where a bundle is taken, too.
pub trait Bundle: Drop {
    ghost use Rattle.std.specs.Prelude.{List};
    ghost use Rattle.tags.specs.declared.token.Token.{Token};

    ghost tokens: { Self → List Token };
}

impl<A: Allocator> Bundle for Vec<Token, A> {
    ghost tokens = { λ v. v.items };
}
