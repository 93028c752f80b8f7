//! The steps on the live word and on the stop word, on the table's own seat.
ghost use Rattle.std.specs.Prelude.{◌≡◌, ◌≢◌, ◌<◌, ◌≤◌, ◌+◌, ◌^◌, [], ◌∷◌, ◌++◌, List, length, ℕ, IsPermutation};
ghost use Rattle.tags.specs.declared.token.Token.{Token};
ghost use Rattle.mesh.specs.declared.view.Commit.{Commit};
ghost use Rattle.mesh.specs.declared.view.Deed.TheVariants.{SawLive, Stopped, SawStop};
ghost use Rattle.mesh.specs.Deeds.{created, Says};
ghost use Rattle.mesh.specs.Rule.{noted, with_part, with_seen, Leaves};
ghost use Rattle.mesh.specs.Places.{IsOf, IsTop, Commits, part_of};
ghost use Rattle.mesh.specs.Seats.{AllTo, Has};

use crate::board::{LIVE, Place, STOP, Top};
use crate::bundle::Bundle;
use crate::plays::{Ask, CommitThat, SeeLive, SeeStop, TryStop};
use std::alloc::Allocator;
use std::marker::Brand;
use tags::token::Token;

pub(crate) fn commit_by_at<B: Bundle, A: Allocator, J: Ask>(
    top: &Top<B, A>,
    place: &mut Place<B>,
    element: u32,
    spent: u64,
    made: u64,
)
    requires asked { (length J.spent ≡ spent) × (length J.made ≡ made) }
    requires table { IsTop top.now.table_id place.old }
    requires seat { IsOf element place.old }
    requires tokens { (0 < spent) × AllTo place.old.me.0.elements element J.spent × Has (part_of place.old).held J.spent }
    requires few { created (part_of place.old).deeds + made ≤ 2 ^ 40 }
    ensures table { place.new.table_id ≡ place.old.table_id }
    ensures commits { Commits J.spent J.made place.old.me place.new.me }
{
    if spent <= made {
        top.fetch_add::<CommitThat<J>>(place, LIVE, made - spent);
    } else {
        top.fetch_sub::<CommitThat<J>>(place, LIVE, spent - made);
    }
}

fn commit_as<B: Bundle, A: Allocator, J: Ask>(
    top: &Top<B, A>,
    place: &mut Place<B>,
    element: u32,
    spent: &[Token],
    made: &[Token],
)
    requires asked { (J.spent ≡ spent.now) × (J.made ≡ made.now) }
    requires table { IsTop top.now.table_id place.old }
    requires seat { IsOf element place.old }
    requires tokens { (0 < length spent.now) × AllTo place.old.me.0.elements element spent.now × Has (part_of place.old).held spent.now }
    requires few { created (part_of place.old).deeds + length made.now ≤ 2 ^ 40 }
    ensures table { place.new.table_id ≡ place.old.table_id }
    ensures commits { Commits spent.now made.now place.old.me place.new.me }
{
    commit_by_at::<B, A, J>(top, place, element, spent.len() as u64, made.len() as u64);
}

pub(crate) fn commit_at<B: Bundle, A: Allocator>(
    top: &Top<B, A>,
    place: &mut Place<B>,
    element: u32,
    spent: &[Token],
    made: &[Token],
)
    requires table { IsTop top.now.table_id place.old }
    requires seat { IsOf element place.old }
    requires tokens { (0 < length spent.now) × AllTo place.old.me.0.elements element spent.now × Has (part_of place.old).held spent.now }
    requires few { created (part_of place.old).deeds + length made.now ≤ 2 ^ 40 }
    ensures table { place.new.table_id ≡ place.old.table_id }
    ensures commits { Commits spent.now made.now place.old.me place.new.me }
{
    commit_as::<B, A, Brand>(top, place, element, spent, made);
}

pub(crate) fn live_at<B: Bundle, A: Allocator>(
    top: &Top<B, A>,
    place: &mut Place<B>,
    element: u32,
) -> u64
    requires table { IsTop top.now.table_id place.old }
    requires seat { IsOf element place.old }
    ensures table { place.new.table_id ≡ place.old.table_id }
    ensures part { (between : List Commit) × (place.new.me
        ≡ (with_seen place.old.me.0 (noted (part_of place.old) (SawLive result)) (place.old.me.0.seen ++ between), [])) × Leaves place.new.me.0 result }
    ensures held { length (part_of place.old).held ≤ result }
{
    top.load::<SeeLive>(place, LIVE)
}

pub(crate) fn stop_at<B: Bundle, A: Allocator>(
    top: &Top<B, A>,
    place: &mut Place<B>,
    element: u32,
    reason: u64,
) -> u64
    requires table { IsTop top.now.table_id place.old }
    requires seat { IsOf element place.old }
    requires reason { reason ≢ 0 }
    ensures table { place.new.table_id ≡ place.old.table_id }
    ensures part { place.new.me ≡ (with_part place.old.me.0 (noted (part_of place.old) (Stopped reason result)), []) }
    ensures one { (word : ℕ) × (word ≢ 0) × Says word ((part_of place.old).deeds ++ Stopped reason result ∷ []) }
{
    top.compare_exchange::<TryStop>(place, STOP, 0, reason)
}

pub(crate) fn stopped_at<B: Bundle, A: Allocator>(
    top: &Top<B, A>,
    place: &mut Place<B>,
    element: u32,
) -> u64
    requires table { IsTop top.now.table_id place.old }
    requires seat { IsOf element place.old }
    ensures table { place.new.table_id ≡ place.old.table_id }
    ensures part { place.new.me ≡ (with_part place.old.me.0 (noted (part_of place.old) (SawStop result)), []) }
    ensures one { Says result ((part_of place.old).deeds ++ SawStop result ∷ []) }
{
    top.load::<SeeStop>(place, STOP)
}
