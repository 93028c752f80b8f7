//! How reports and halts are written.

use crate::part::Heap;
use crate::shown::push_value;
use element::lane::Stepped;
use schedule::config::StartFault;
use schedule::halt::Halt;
use schedule::report::Report;
use semantics::report::End;
use std::alloc::AllocError;
use tags::value::Value;

pub fn fault_of(fault: StartFault) -> &'static str {
    match fault {
        StartFault::WrongInputs => "wrong inputs",
        StartFault::NoFrames => "no frames",
        StartFault::BadConfig => "bad numbers",
        StartFault::Memory => "no memory",
    }
}

pub fn push_stepped(text: &mut String, stepped: Option<Stepped>) -> Result<(), AllocError> {
    match stepped {
        None => text.push_str("spent"),
        Some(Stepped::Idle) => text.push_str("idle"),
        Some(Stepped::Did) => text.push_str("did"),
        Some(Stepped::Clash { cell }) => write!(text, "clash {cell}"),
        Some(Stepped::Stuck { rule }) => write!(text, "stuck {rule}"),
        Some(Stepped::Memory) => text.push_str("memory"),
    }
}

pub fn push_halt(text: &mut String, halt: Halt) -> Result<(), AllocError> {
    match halt {
        Halt::NoToken => text.push_str("no token"),
        Halt::Clash { cell } => write!(text, "clash {cell}"),
        Halt::Steps => text.push_str("steps"),
        Halt::Stuck { rule } => write!(text, "stuck {rule}"),
        Halt::Memory => text.push_str("memory"),
        Halt::Stop => text.push_str("stop"),
    }
}

fn push_end(text: &mut String, end: End) -> Result<(), AllocError> {
    match end {
        End::Rest => text.push_str("rest"),
        End::Starved => text.push_str("starved"),
        End::Clash { array, index } => write!(text, "clash {array} {index}"),
        End::Steps => text.push_str("steps"),
        End::Stuck { rule } => write!(text, "stuck {rule}"),
        End::Memory => text.push_str("memory"),
        End::Stop => text.push_str("stop"),
    }
}

fn push_outputs(text: &mut String, outputs: &[Option<Value>]) -> Result<(), AllocError> {
    text.push_str(", outputs")?;
    for output in outputs {
        text.push(' ')?;
        match output {
            Some(value) => push_value(text, *value)?,
            None => text.push_str("none")?,
        }
    }
    Ok(())
}

fn push_cells(text: &mut String, cells: &[(u32, Value)]) -> Result<(), AllocError> {
    for (cell, value) in cells {
        write!(text, ", cell {cell} ")?;
        push_value(text, *value)?;
    }
    Ok(())
}

/// Writes all of a report, and how many events it lists.
pub fn push_report(text: &mut String, report: &Report<Heap<'_>>) -> Result<(), AllocError> {
    push_end(text, report.end)?;
    push_outputs(text, report.outputs.as_slice())?;
    push_cells(text, report.cells.as_slice())?;
    let deferred = report.deferred;
    let frames = report.waiting_frames;
    let credits = report.waiting_credits;
    let out = report.frames_out;
    let events = report.events.len();
    write!(
        text,
        ", deferred {deferred}, waiting {frames} {credits}, frames {out}, events {events}"
    )
}
