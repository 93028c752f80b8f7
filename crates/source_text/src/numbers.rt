//! Numbers. A number is below 2 ^ 63, but directly after a `-` it may be that.

ghost use Rattle.std.specs.Prelude.{◌≡◌, ◌≤◌, ◌^◌, ◌==◌, nat_lt, if◌then◌else◌};
ghost use Rattle.source.specs.declared.fault.FaultKind.TheVariants.{BadNumber, Unexpected};
ghost use Rattle.source_text.specs.declared.outcome.Outcome.TheVariants.{Refuses};

use crate::outcome::{Outcome, refuses};
use source::fault::FaultKind;

/// The largest number, which is allowed only directly after a `-`.
pub(crate) const LARGEST: u64 = 1 << 63;

pub(crate) fn is_small(number: u64) -> bool
    ensures { result ≡ nat_lt number (2 ^ 63) }
{
    number < LARGEST
}

/// A number that is not below 2 ^ 63.
pub(crate) fn too_large(number: u64) -> Outcome
    ensures { result ≡ Refuses (if number == 2 ^ 63 then BadNumber else Unexpected) }
{
    if number == LARGEST {
        refuses(FaultKind::BadNumber)
    } else {
        refuses(FaultKind::Unexpected)
    }
}
