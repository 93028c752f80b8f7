//! Runs programs of all kinds, and looks at what is said of them. The words of the command line name the parts, each followed by words of
//! its own: `examples` and `programs`, which are followed by the names of their files; `workbench` and `dots`, over random graphs; and
//! `hostile_objects`. The last three may be followed by a number of graphs or objects, and their seed. Prints what each part found; where
//! one finds something that differs, that, with status 1.
#![tactic(auto)]

mod dots;
mod examples;
mod hostile_objects;
mod lines;
mod programs;
mod sizes;
mod workbench;

use sizes::sizes_in;
use std::env;
use std::io::{self, Write};
use std::process::ExitCode;
use std::sync::Wait;
use std::thread::Threads;
use test_inputs::parts::{Named, named_parts};

/// The names of the parts.
const PARTS: [&str; 5] = [
    "examples",
    "programs",
    "workbench",
    "dots",
    "hostile_objects",
];

/// Whether all that a part looks at agrees. Prints what was found.
fn part_agrees<R: Threads + Wait + Sync, W: Write>(
    rt: &R,
    files: &HostRuntime,
    out: &mut W,
    part: Named<'_>,
) -> anyhow::Result<bool> {
    let alloc = files.alloc();
    if part.name == "examples" {
        examples::tell_all(rt, files, out, part.words)?;
        return Ok(true);
    }
    if part.name == "programs" {
        return programs::agree(rt, files, out, part.words);
    }
    let Some(sizes) = sizes_in(part.words) else {
        writeln!(out, "words: {} COUNT SEED", part.name)?;
        return Ok(false);
    };
    if part.name == "workbench" {
        workbench::agrees(rt, alloc, out, sizes)
    } else if part.name == "dots" {
        dots::agree(rt, alloc, out, sizes)
    } else {
        Ok(hostile_objects::agree(rt, alloc, out, sizes)?)
    }
}

fn main(rt: HostRuntime) -> anyhow::Result<ExitCode> {
    let alloc = rt.alloc();
    let words: Vec<String> = env::args(&rt)?.collect(alloc)?;
    let mut out = io::writer(&rt);
    let parts = named_parts(alloc, &words, &PARTS)?;
    if parts.is_empty() {
        writeln!(
            out,
            "words: examples, programs, workbench, dots or hostile_objects"
        )?;
        return Ok(ExitCode::FAILURE);
    }
    for part in &parts {
        if !part_agrees(&rt, &rt, &mut out, *part)? {
            return Ok(ExitCode::FAILURE);
        }
    }
    Ok(ExitCode::SUCCESS)
}
