//! Whether a run that starved for a frame comes to rest by depth, and with how few frames. It is run to find out.

use crate::message::{Found, Special};
use crate::readers::read_run;
use crate::runs::runs_in_turn;
use command_line::{Inputs, Request, RunOptions};
use driver::compiling::compile_graph;
use driver::fault::Fault;
use driver::running::{open_code, run_code_quietly_in_turn};
use loaded::Loaded;
use schedule::config::Config;
use schedule::take::Take;
use semantics::report::End;
use std::alloc::{AllocError, Allocator};

/// How many events all elements of a run that is tried make at most.
const EVENTS: u64 = 1_000_000;

/// How often a number of frames of up to 1,024 can be halved.
const HALVES: u32 = 10;

/// How a run that was tried ended.
#[derive(Clone, Copy, PartialEq, Eq)]
enum Tried {
    /// At rest.
    Rested,
    /// Requests wait, and so many readers.
    Starved(u64),
    /// It was not run to its end.
    Unknown,
}

/// How the run ends by depth.
fn try_run<A: Allocator + Clone>(
    alloc: &A,
    code: &Loaded<'_, A>,
    inputs: &[i64],
    config: Config,
) -> Result<Tried, AllocError> {
    match run_code_quietly_in_turn(alloc.clone()?, code, inputs, config, Take::Depth) {
        Ok(report) => Ok(match report.end {
            End::Rest => Tried::Rested,
            End::Starved => Tried::Starved(report.deferred),
            _ => Tried::Unknown,
        }),
        Err(Fault::Memory) => Err(AllocError),
        Err(_fault) => Ok(Tried::Unknown),
    }
}

/// With how few frames of each element the run comes to rest by depth, where it does with these.
fn fewest_frames<A: Allocator + Clone>(
    alloc: &A,
    code: &Loaded<'_, A>,
    inputs: &[i64],
    config: Config,
) -> Result<u64, AllocError> {
    let (mut few, mut enough) = (0u64, config.frames);
    for _half in 0..HALVES {
        let frames = few.midpoint(enough);
        if frames == few {
            break;
        }
        match try_run(alloc, code, inputs, Config { frames, ..config })? {
            Tried::Rested => enough = frames,
            Tried::Starved(_) | Tried::Unknown => few = frames,
        }
    }
    Ok(enough)
}

/// What is said of the order by depth to one whose run of this code wants frames.
fn advice_for_code<A: Allocator + Clone>(
    alloc: &A,
    code: &Loaded<'_, A>,
    inputs: &[i64],
    options: &RunOptions,
) -> Result<Special, AllocError> {
    let each = EVENTS.checked_div(options.elements).unwrap_or(0);
    let config = Config {
        elements: options.elements,
        frames: options.frames,
        steps: options.steps.min(each),
        turn: 1,
    };
    Ok(match try_run(alloc, code, inputs, config)? {
        Tried::Rested => Special::Depth(Some(fewest_frames(alloc, code, inputs, config)?)),
        Tried::Starved(0) => Special::Nothing,
        Tried::Starved(_) => Special::Unfilled,
        Tried::Unknown => Special::Depth(None),
    })
}

/// What is said to one whose run of the graph of this input wants frames.
fn advice_for_graph<A: Allocator + Clone>(
    alloc: &A,
    input: &[u8],
    options: &RunOptions,
) -> Result<Special, AllocError> {
    let Some(run) = read_run(alloc.clone()?, input)? else {
        return Ok(Special::Depth(None));
    };
    let Ok(object) = compile_graph(alloc.clone()?, &run.checked) else {
        return Ok(Special::Depth(None));
    };
    let code = Loaded::new(alloc.clone()?, object.as_object())?;
    advice_for_code(alloc, &code, &run.inputs, options)
}

/// What is said to one whose run of this request wants frames.
fn advice<A: Allocator + Clone>(
    alloc: &A,
    request: &Request,
    input: &[u8],
) -> Result<Special, AllocError> {
    match request {
        Request::Run(options) | Request::Trace { options, .. } if runs_in_turn(options) => {
            advice_for_graph(alloc, input, options)
        }
        Request::Exec {
            options,
            inputs: Inputs::Integers(inputs),
        } if runs_in_turn(options) => {
            let Ok(code) = open_code(alloc, input) else {
                return Ok(Special::Depth(None));
            };
            advice_for_code(alloc, &code, inputs, options)
        }
        _ => Ok(Special::Depth(None)),
    }
}

/// What was found, with what is said of the order by depth, where the run of this request wanted frames and that order is
/// named.
pub fn advised<'a, A: Allocator + Clone>(
    alloc: &A,
    request: &Request,
    input: Option<&[u8]>,
    found: Found<'a>,
) -> Result<Found<'a>, AllocError> {
    let wants_frames = found.cause == "no-frame" || found.cause == "no-frame-no-credit";
    match (found.specials[1], input) {
        (Special::Depth(_), Some(input)) if wants_frames => {
            let special = advice(alloc, request, input)?;
            Ok(found.with([Special::Nothing, special]))
        }
        _ => Ok(found),
    }
}
