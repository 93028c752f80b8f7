//! What each step shows to its caller.

use crate::bundle::Bundle;
use crate::view::View;
use atomic_table::{Join, Play, Split};
use std::marker::{Brand, PhantomData};
use tags::token::Token;

/// The bundle that a look at a box is made for. Each call picks it.
pub(crate) trait Offer {
    ghost use Rattle.std.specs.Prelude.{List};
    ghost use Rattle.tags.specs.declared.token.Token.{Token};

    ghost bundle: { List Token };
}

impl Offer for Brand {
    ghost use Rattle.std.specs.Prelude.{[]};

    ghost bundle = { [] };
}

/// The poster's look at a box.
pub(crate) struct LookTo<J> {
    offered: PhantomData<J>,
}

impl<B: Bundle, J: Offer> Play<Option<B>, View> for LookTo<J> {
    ghost use Rattle.mesh.specs.Plays.{looked_to};

    ghost then = { looked_to J.bundle };
}

/// The poster gives the slot back, full.
pub(crate) struct Give;

impl<B: Bundle> Play<Option<B>, View> for Give {
    ghost use Rattle.mesh.specs.Plays.{gave};

    ghost then = { gave B.tokens };
}

/// The taker's look at a box.
pub(crate) struct LookFrom;

impl<B: Bundle> Play<Option<B>, View> for LookFrom {
    ghost use Rattle.mesh.specs.Plays.{looked_from};

    ghost then = { looked_from B.tokens };
}

/// The taker gives the slot back, empty.
pub(crate) struct GiveBack;

impl<B: Bundle> Play<Option<B>, View> for GiveBack {
    ghost use Rattle.mesh.specs.Plays.{gave_back};

    ghost then = { gave_back };
}

/// Gives out the next element's part.
pub(crate) struct Next;

impl Split<View> for Next {
    ghost use Rattle.mesh.specs.Rule.{rest_view, next_view};

    ghost left = { rest_view };

    ghost right = { next_view };
}

/// Makes one view of two.
pub(crate) struct Both;

impl Join<View> for Both {
    ghost use Rattle.mesh.specs.Rule.{both_views, spent_view};

    ghost both = { both_views };

    ghost spent = { spent_view };
}

/// The tokens that a commit spends and makes. Each call picks them.
pub trait Ask {
    ghost use Rattle.std.specs.Prelude.{List};
    ghost use Rattle.tags.specs.declared.token.Token.{Token};

    ghost spent: { List Token };

    ghost made: { List Token };
}

impl Ask for Brand {
    ghost use Rattle.std.specs.Prelude.{[]};

    ghost spent = { [] };

    ghost made = { [] };
}

/// A commit on the live word.
pub(crate) struct CommitThat<J> {
    asked: PhantomData<J>,
}

impl<B: Bundle, J: Ask> Play<Option<B>, View> for CommitThat<J> {
    ghost use Rattle.mesh.specs.Plays.{committed};

    ghost then = { committed J.spent J.made };
}

/// A read of the live word.
pub(crate) struct SeeLive;

impl<B: Bundle> Play<Option<B>, View> for SeeLive {
    ghost use Rattle.mesh.specs.Plays.{saw_live};

    ghost then = { saw_live };
}

/// A try to set the stop word.
pub(crate) struct TryStop;

impl<B: Bundle> Play<Option<B>, View> for TryStop {
    ghost use Rattle.mesh.specs.Plays.{tried_stop};

    ghost then = { tried_stop };
}

/// A read of the stop word.
pub(crate) struct SeeStop;

impl<B: Bundle> Play<Option<B>, View> for SeeStop {
    ghost use Rattle.mesh.specs.Plays.{saw_stop};

    ghost then = { saw_stop };
}

/// A read of the live word by a seat of several elements.
pub(crate) struct Settle;

impl<B: Bundle> Play<Option<B>, View> for Settle {
    ghost use Rattle.mesh.specs.Plays.{settled};

    ghost then = { settled };
}
