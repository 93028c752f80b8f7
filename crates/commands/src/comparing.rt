//! Whether two runs have the same report.

ghost use Rattle.std.specs.Prelude.{◌≡◌, ◌↔◌, IsTrue};
ghost use Rattle.commands.specs.Agreed.{AreSame};

use schedule::report::Report;
use std::alloc::Allocator;
use tags::value::Value;

fn are_same_outputs(a: &[Option<Value>], b: &[Option<Value>]) -> bool
    ensures { IsTrue result ↔ (a.now ≡ b.now) }
{
    a == b
}

fn are_same_cells(a: &[(u32, Value)], b: &[(u32, Value)]) -> bool
    ensures { IsTrue result ↔ (a.now ≡ b.now) }
{
    a == b
}

/// Whether the reports are the same, except perhaps in their events.
pub(crate) fn are_same<A: Allocator>(a: &Report<A>, b: &Report<A>) -> bool
    ensures { IsTrue result ↔ AreSame a.now b.now }
{
    a.end == b.end
        && are_same_outputs(a.outputs.as_slice(), b.outputs.as_slice())
        && are_same_cells(&a.cells, &b.cells)
        && a.deferred == b.deferred
        && a.waiting_frames == b.waiting_frames
        && a.waiting_credits == b.waiting_credits
        && a.frames_out == b.frames_out
}
