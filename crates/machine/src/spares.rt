//! Bundles that are done with, whose memory is used again. They are emptied then.

ghost use Rattle.std.specs.Prelude.{◌≡◌, [], IfOk};
ghost use Rattle.machine.specs.Bundles.{bounds_within};

use crate::bundle::{NearBundle, Reach};
use std::alloc::{AllocError, Allocator};

/// Keeps a bundle that is done with for later tokens: room for as many as an element posts in a turn.
pub fn keep_spare<A: Allocator>(spare: &mut Vec<NearBundle<A>, A>, bundle: NearBundle<A>) {
    if spare.len() < spare.capacity() {
        let _is_kept = spare.push(bundle).is_ok();
    }
}

/// An empty bundle: one that was used before, or else a new one.
pub fn empty_bundle<A: Allocator + Clone>(
    spare: &mut Vec<NearBundle<A>, A>,
    reach: Reach,
    alloc: &A,
) -> Result<NearBundle<A>, AllocError>
    ensures { IfOk result (λ bundle. bundle ≡ record { tokens = []; bounds = bounds_within reach }) }
{
    match spare.pop() {
        Some(mut bundle) => {
            bundle.renew(reach);
            Ok(bundle)
        }
        None => Ok(NearBundle::new(alloc.clone()?, reach)),
    }
}
