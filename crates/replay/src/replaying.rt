//! Events replayed.

ghost use Rattle.std.specs.Prelude.{◌≡◌, ◌<◌, ◌≤◌, ℤ, List, length, IfOk};
ghost use Rattle.std.specs.Result.{result_map_both};
ghost use Rattle.semantics.specs.Program.{Program};
ghost use Rattle.semantics.specs.Machine.{at_start};
ghost use Rattle.replay.specs.DoesAs.{KnowsAll, IsReplay};

use crate::cells::Cells;
use crate::fault::ReplayRefusal;
use crate::moment::Moment;
use crate::slots::Slots;
use crate::state::State;
use element::instructions::Instructions;
use std::alloc::{AllocError, Allocator};
use tags::token::Token;

// What is held of a machine before its first event: main's frame is out, and there are its continuation and its inputs.
fn first<A: Allocator + Clone>(alloc: &A, frames: u32, inputs: u32) -> Result<State<A>, AllocError>
    requires { 0 < frames }
    ensures { IfOk result (λ h. (h.frames ≡ frames) × ((p : Program) (xs : List ℤ) → length xs ≡ inputs → KnowsAll p h (at_start p xs))) }
{
    Ok(State {
        slots: Slots::new(alloc.clone()?),
        cells: Cells::new(alloc.clone()?),
        tokens: u64::from(inputs) + 1,
        frames: u64::from(frames),
        frames_out: 1,
        requests: 0,
    })
}

/// The moment of each event of a run with `inputs` inputs, on elements that have `frames` frames in all. `NotARun` is only said of
/// events that are those of no such run; of such events there may also be moments, which then mean nothing. `code` has at most 512 slots in a frame.
pub fn replay<C: Instructions, A: Allocator + Clone>(
    alloc: A,
    code: &C,
    frames: u32,
    inputs: u32,
    events: &[(u32, Token)],
) -> Result<Vec<Moment, A>, ReplayRefusal>
    requires some { 0 < frames }
    requires narrow { C.width code.now ≤ 512 }
    ensures { IsReplay (C.program code.now) frames inputs events.now (result_map_both (λ v. v.items) (λ e. e) result) }
{
    let mut state = first(&alloc, frames, inputs)?;
    let mut moments = Vec::with_capacity(alloc, events.len())?;
    for event in events {
        let moment = state.next(code, event.1)?;
        moments.push(moment)?;
    }
    Ok(moments)
}
