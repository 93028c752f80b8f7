//! The report of elements.

ghost use Rattle.std.specs.Prelude.{◌≡◌, ◌≤◌, map, IfOk};
ghost use Rattle.element.specs.Holding.{held_of};
ghost use Rattle.schedule.specs.State.{state_of, IsSoundState};
ghost use Rattle.schedule.specs.Runs.{EndsWith, NamesCell};
ghost use Rattle.schedule.specs.Reported.{Reports, ShowsLaneParts, opening_picture};

use crate::elements::{Elements, LaneTotals};
use crate::halt::Halt;
use crate::locating::locate;
use crate::main_code::MainCode;
use crate::report::Report;
use arrayvec::ArrayVec;
use semantics::report::End;
use std::alloc::{AllocError, Allocator};
use tags::token::Token;

// How a run ends that halts so, by the number of requests that wait.
fn end_of<C: MainCode>(code: &C, halt: Halt, frames: u64, credits: u64) -> End
    requires { NamesCell (C.program code.now) halt }
    ensures { EndsWith (C.program code.now) result frames credits halt }
{
    match halt {
        Halt::NoToken => {
            if frames == 0 && credits == 0 {
                End::Rest
            } else {
                End::Starved
            }
        }
        Halt::Clash { cell } => match locate(code, cell) {
            Some(place) => End::Clash {
                array: place.array,
                index: place.index,
            },
            None => unreachable!(),
        },
        Halt::Steps => End::Steps,
        Halt::Stuck { rule } => End::Stuck { rule },
        Halt::Memory => End::Memory,
        Halt::Stop => End::Stop,
    }
}

// The report of the machine before its first event, which is refused memory.
pub fn opening_report<A: Allocator>(
    alloc: A,
    outputs: u32,
    mut events: Vec<(u32, Token), A>,
) -> Report<A>
    requires { outputs ≤ 16 }
    ensures { result ≡ opening_picture outputs }
{
    let mut none = ArrayVec::from([None; 16]);
    none.truncate(outputs as usize);
    events.clear();
    Report {
        end: End::Memory,
        outputs: none,
        cells: Vec::new(alloc),
        deferred: 0,
        waiting_frames: 0,
        waiting_credits: 0,
        frames_out: 1,
        events,
    }
}

fn add_up<C: MainCode, A: Allocator>(
    elements: Elements<'_, C, A>,
    alloc: &A,
) -> Result<LaneTotals<A>, AllocError>
where
    A: Clone,
    requires { IsSoundState (state_of C.program C.width elements) }
    ensures { IfOk result (λ reported. ShowsLaneParts (state_of C.program C.width elements.entry).setting (map held_of elements.entry.lanes.items)
        reported.outputs.items reported.cells.items reported.deferred reported.requests reported.credits reported.out) }
{
    elements.add_up(alloc.clone()?)
}

/// What the elements hold, with these events and the end of a run that halted so. Where its own lists are refused it is the
/// report of the machine before its first event, with the end `Memory`.
pub fn report_of<C: MainCode, A: Allocator>(
    elements: Elements<'_, C, A>,
    events: Vec<(u32, Token), A>,
    alloc: A,
    halt: Halt,
) -> Report<A>
where
    A: Clone,
    requires sound { IsSoundState (state_of C.program C.width elements) }
    requires cell { NamesCell (C.program elements.shape.code.now) halt }
    ensures { Reports C.program C.width elements.entry events.items halt result }
{
    let code = elements.shape.code;
    match add_up(elements, &alloc) {
        Ok(reported) => Report {
            end: end_of(code, halt, reported.requests, reported.credits),
            outputs: reported.outputs,
            cells: reported.cells,
            deferred: reported.deferred,
            waiting_frames: reported.requests,
            waiting_credits: reported.credits,
            frames_out: reported.out,
            events,
        },
        Err(_) => opening_report(alloc, code.outputs(), events),
    }
}
