//! The run of an element that has no other beside it.

ghost use Rattle.std.specs.Prelude.{◌≡◌, ℕ, ◌≤◌, []};
ghost use Rattle.element.specs.Holding.{Holding, fixed_of, IsSoundLane};
ghost use Rattle.element.specs.Steps.{MakesEvents};
ghost use Rattle.schedule.specs.Alone.{LaneAnswers};

use element::instructions::Instructions;
use element::lane::{Lane, Stepped};
use packed::token::PackedToken;
use std::alloc::Allocator;

/// The lane makes one event after another, each with its oldest token, and answers why it makes no more. It is the only one, so no
/// token is for another element, and between two events nothing but the lane is looked at.
#[inline(always)]
pub fn make_events<C: Instructions, A: Allocator + Clone>(
    lane: &mut Lane<'_, C, A>,
    sent: &mut Vec<PackedToken, A>,
) -> Option<Stepped>
    requires one { lane.old.held.part.shape.elements ≡ 1 }
    requires sent { sent.old.items ≡ [] }
    ensures exact { (events : ℕ) × (last : Holding) × MakesEvents lane.old.program lane.old.steps events lane.old.held last
        × LaneAnswers lane.old.program lane.old.steps last result lane.new.held }
    ensures none { sent.new.items ≡ [] }
    ensures sound { IsSoundLane lane.new.program lane.new.held }
    ensures most { lane.new.held.made ≤ lane.new.steps }
    ensures fixed { fixed_of lane.new ≡ fixed_of lane.old }
{
    'events: loop {
        if lane.turn(sent).is_err() {
            return Some(Stepped::Memory);
        }
        match lane.step_otherwise(sent) {
            None => return None,
            Some(Stepped::Did) => {}
            Some(other) => return Some(other),
        }
    }
}
