//! Traces, as lines and as JSON.

use crate::lines::{after, count};
use crate::workbench::STEPS;
use serde_json::Value;
use std::alloc::Global;
use std::str;
use std::sync::Wait;
use std::thread::Threads;
use test_served::answer;

/// How many events the JSON has that are slices.
fn slices(alloc: Global, text: &[u8]) -> Option<u64> {
    let text = str::from_utf8(text).ok()?;
    let trace = Value::from_str(alloc, text).ok()?;
    let events = trace.get("traceEvents")?.as_array()?;
    let mut slices = 0u64;
    for event in events.iter() {
        if event.get("ph")?.as_str()? == "X" {
            slices = slices.wrapping_add(1);
        }
    }
    Some(slices)
}

/// A run that was traced.
#[derive(Clone, Copy)]
pub struct Traced {
    pub events: u64,
    pub status: u8,
}

/// What is wrong with the traces of the graph on its inputs, or how many events there are and how the run ended.
pub fn look<R: Threads + Wait + Sync>(
    rt: &R,
    alloc: Global,
    input: &[u8],
) -> Result<Traced, &'static str> {
    let run = answer(rt, alloc, &["ets", "run", "--steps", STEPS], input);
    let trace = answer(rt, alloc, &["ets", "trace", "--steps", STEPS], input);
    if trace.status != run.status {
        return Err("a trace has another status than its run");
    }
    let report = after(&trace.text, b"event ");
    if report != run.text.as_slice() {
        return Err("a trace has another report than its run");
    }
    let events = count(&trace.text, b"event ");
    let last = answer(
        rt,
        alloc,
        &["ets", "trace", "--steps", STEPS, "--last", "3"],
        input,
    );
    if !trace.text.ends_with(&last.text) || count(&last.text, b"event ") != events.min(3) {
        return Err("the last events are others");
    }
    let json = answer(
        rt,
        alloc,
        &["ets", "trace", "--steps", STEPS, "--format", "chrome"],
        input,
    );
    match slices(alloc, &json.text) {
        None => Err("a trace is no JSON"),
        Some(slices) if slices != events => Err("a trace has other slices than lines"),
        Some(_) => Ok(Traced {
            events,
            status: run.status,
        }),
    }
}
