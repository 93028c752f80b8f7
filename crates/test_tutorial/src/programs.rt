//! The programs of a page: each of them reports what the graph of the same name reports.

use std::alloc::Global;
use std::fs;
use std::sync::Wait;
use std::thread::Threads;
use test_served::ways::fault_beside;

/// The beginning of a command that lowers a program of the page.
const LOWERING: &str = "$ ets lower < tutorial/";

/// The name, without its ending, of the program that this line of the page lowers.
fn lowered_by(line: &str) -> Option<&str> {
    let words = line.strip_prefix(LOWERING)?;
    let file = match words.split_once(' ') {
        Some((file, _rest)) => file,
        None => words,
    };
    file.strip_suffix(".df")
}

/// What is wrong with the program of this name, where there is a graph of the same name and they report different
/// results.
fn fault_of<R: Threads + Wait + Sync>(
    rt: &R,
    files: &HostRuntime,
    name: &str,
) -> anyhow::Result<Option<String>> {
    let alloc: Global = files.alloc();
    let program = format!(in alloc; "{name}.df")?;
    let graph = format!(in alloc; "{name}.ets")?;
    let Ok(graph) = fs::read(files, graph.as_str()) else {
        return Ok(None);
    };
    let text = fs::read(files, program.as_str())?;
    match fault_beside(rt, alloc, &text, &graph)? {
        Some(fault) => Ok(Some(format!(in alloc; "{program} {fault}")?)),
        None => Ok(None),
    }
}

/// What is wrong with the first program of the page that reports something else than the graph of its name, if one
/// does.
pub fn first_fault<R: Threads + Wait + Sync>(
    rt: &R,
    files: &HostRuntime,
    page: &str,
) -> anyhow::Result<Option<String>> {
    for line in page.lines() {
        if let Some(name) = lowered_by(line)
            && let Some(fault) = fault_of(rt, files, name)?
        {
            return Ok(Some(fault));
        }
    }
    Ok(None)
}
