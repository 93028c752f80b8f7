//! Lowers each program, and runs its graph in each mode on 1, 2, 4, 7 and 16 elements. Each run has the outputs, the cells, the deferred
//! readers and the end that the graph of the same name has, which is typed by hand, or those that were computed without this project
//! (`known`). What else a report says, of frames and of requests that wait, is not compared. Prints a line for each program, with what is wrong if
//! anything is.

mod known;

use known::{KNOWN, Known};
use std::alloc::Global;
use std::fs;
use std::io::Write;
use std::sync::Wait;
use std::thread::Threads;
use test_inputs::pieces::changed;
use test_served::ways::{Fault, fault_beside, fault_of};

/// The program whose token goes to another element every few events, so that its turns take thousands of rounds; and its input, with another
/// one in place of that.
const SERIAL: &str = "sum_loop.df";

const LONG: &[u8] = b"\n1000\n";

const SHORT: &[u8] = b"\n30\n";

/// The text, on a smaller input where it is that of the serial program or of its graph.
fn on_short(alloc: Global, name: &str, text: Vec<u8>) -> anyhow::Result<Vec<u8>> {
    if name != SERIAL {
        return Ok(text);
    }
    Ok(match changed(alloc, &text, LONG, SHORT)? {
        Some(short) => short,
        None => text,
    })
}

/// The graph that has the same name as this program, with its inputs, if there is one.
fn graph_beside(files: &HostRuntime, name: &str) -> anyhow::Result<Option<Vec<u8>>> {
    let stem = name.strip_suffix(".df").unwrap_or(name);
    let graph = format!(in files.alloc(); "{stem}.ets")?;
    match fs::read(files, graph.as_str()) {
        Ok(text) => Ok(Some(on_short(files.alloc(), name, text)?)),
        Err(_fault) => Ok(None),
    }
}

/// What is known of the runs of a program, where there is no graph of its name.
fn known_of(name: &str) -> Option<&'static Known> {
    KNOWN.iter().find(|known| known.name == name)
}

/// What a program is compared with.
#[derive(Clone, Copy)]
enum Reference {
    /// The graph of the same name.
    Graph,
    /// What is known of its runs.
    Known,
}

impl Reference {
    /// What a line says of a program that agrees with it.
    fn agreement(self) -> &'static str {
        match self {
            Reference::Graph => "tells what its graph tells",
            Reference::Known => "tells what is known",
        }
    }
}

/// Prints what is found of a program, and says whether all is right.
fn write_out<W: Write>(
    out: &mut W,
    name: &str,
    reference: Reference,
    fault: Option<Fault>,
) -> anyhow::Result<bool> {
    match fault {
        Some(fault) => {
            writeln!(out, "{name} {fault}")?;
            Ok(false)
        }
        None => {
            writeln!(out, "{name} {}", reference.agreement())?;
            Ok(true)
        }
    }
}

/// Whether a program reports what it should. Prints what is found.
fn agrees<R: Threads + Wait + Sync, W: Write>(
    rt: &R,
    files: &HostRuntime,
    out: &mut W,
    name: &str,
) -> anyhow::Result<bool> {
    let alloc = files.alloc();
    let program = on_short(alloc, name, fs::read(files, name)?)?;
    if let Some(graph) = graph_beside(files, name)? {
        let fault = fault_beside(rt, alloc, &program, &graph)?;
        return write_out(out, name, Reference::Graph, fault);
    }
    match known_of(name) {
        Some(known) => {
            let fault = fault_of(rt, alloc, &program, known.prints, known.orders)?;
            write_out(out, name, Reference::Known, fault)
        }
        None => {
            writeln!(out, "{name} is not known")?;
            Ok(false)
        }
    }
}

/// Whether each of the programs in these files reports what it should. Prints what is found of each.
pub fn agree<R: Threads + Wait + Sync, W: Write>(
    rt: &R,
    files: &HostRuntime,
    out: &mut W,
    names: &[String],
) -> anyhow::Result<bool> {
    let mut all_agree = true;
    for name in names {
        if !agrees(rt, files, out, name.as_str())? {
            all_agree = false;
        }
    }
    Ok(all_agree)
}
