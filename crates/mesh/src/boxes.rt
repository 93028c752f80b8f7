//! Posting and taking, on the table's own seat.
ghost use Rattle.std.specs.Prelude.{◌≡◌, ◌<◌, [], ◌++◌, List, IfErr, IfSome, IfNone, OnOk, IsPermutation};
ghost use Rattle.tags.specs.declared.token.Token.{Token};
ghost use Rattle.mesh.specs.declared.view.Deed.TheVariants.{FoundFull, FoundEmpty};
ghost use Rattle.mesh.specs.Rule.{after_post, after_take, noted, with_part};
ghost use Rattle.mesh.specs.Places.{IsOf, IsTop, part_of};
ghost use Rattle.mesh.specs.Seats.{AllTo, Has};

use crate::board::{Place, Top};
use crate::bundle::Bundle;
use crate::plays::{Give, GiveBack, LookFrom, LookTo, Offer};
use std::alloc::Allocator;
use std::marker::Brand;
use tags::token::Token;

fn post_as<B: Bundle, A: Allocator, J: Offer>(
    top: &Top<B, A>,
    place: &mut Place<B>,
    element: u32,
    to: u32,
    bundle: B,
) -> Result<(), B>
    requires offered { J.bundle ≡ (B.tokens bundle) }
    requires table { IsTop top.now.table_id place.old }
    requires seat { IsOf element place.old × (element < 16) × (to < 16) × (to < top.now.key.elements) }
    requires held { AllTo place.old.me.0.elements to (B.tokens bundle) × Has (part_of place.old).held (B.tokens bundle) }
    ensures table { place.new.table_id ≡ place.old.table_id }
    ensures ok { OnOk result ((kept : List Token) × IsPermutation (part_of place.old).held ((B.tokens bundle) ++ kept)
        × (place.new.me ≡ (with_part place.old.me.0 (after_post (part_of place.old) to (B.tokens bundle) kept), []))) }
    ensures err { IfErr result (λ b. (b ≡ bundle) × (place.new.me ≡ (with_part place.old.me.0 (noted (part_of place.old) (FoundFull to (B.tokens bundle))), []))) }
{
    let word = 16 * element as usize + to as usize;
    if top.load::<LookTo<J>>(place, word) != 0 {
        return Err(bundle);
    }
    let _empty = top.exchange(place, word, Some(bundle));
    top.store::<Give>(place, word, 1);
    Ok(())
}

pub(crate) fn post_at<B: Bundle, A: Allocator>(
    top: &Top<B, A>,
    place: &mut Place<B>,
    element: u32,
    to: u32,
    bundle: B,
) -> Result<(), B>
    requires table { IsTop top.now.table_id place.old }
    requires seat { IsOf element place.old × (element < 16) × (to < 16) × (to < top.now.key.elements) }
    requires held { AllTo place.old.me.0.elements to (B.tokens bundle) × Has (part_of place.old).held (B.tokens bundle) }
    ensures table { place.new.table_id ≡ place.old.table_id }
    ensures ok { OnOk result ((kept : List Token) × IsPermutation (part_of place.old).held ((B.tokens bundle) ++ kept)
        × (place.new.me ≡ (with_part place.old.me.0 (after_post (part_of place.old) to (B.tokens bundle) kept), []))) }
    ensures err { IfErr result (λ b. (b ≡ bundle) × (place.new.me ≡ (with_part place.old.me.0 (noted (part_of place.old) (FoundFull to (B.tokens bundle))), []))) }
{
    post_as::<B, A, Brand>(top, place, element, to, bundle)
}

pub(crate) fn take_at<B: Bundle, A: Allocator>(
    top: &Top<B, A>,
    place: &mut Place<B>,
    element: u32,
    from: u32,
) -> Option<B>
    requires table { IsTop top.now.table_id place.old }
    requires seat { IsOf element place.old × (element < 16) × (from < 16) × (from < top.now.key.elements) }
    ensures table { place.new.table_id ≡ place.old.table_id }
    ensures some { IfSome result (λ b. (place.new.me ≡ (with_part place.old.me.0 (after_take (part_of place.old) from (B.tokens b)), []))
        × AllTo place.old.me.0.elements element (B.tokens b)) }
    ensures none { IfNone result (place.new.me ≡ (with_part place.old.me.0 (noted (part_of place.old) (FoundEmpty from)), [])) }
{
    let word = 16 * from as usize + element as usize;
    if top.load::<LookFrom>(place, word) == 0 {
        return None;
    }
    let bundle = top.exchange(place, word, None);
    top.store::<GiveBack>(place, word, 0);
    bundle
}
